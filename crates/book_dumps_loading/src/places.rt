//! The rows of the resources that are no cards.

use book_dumps::Line;
use book_lists::Principal;
use book_office_values::Path;
use book_tables::rows_of;
use book_tables_rows::{GroupRow, ListsRow, PlaceRow};
use std::alloc::{AllocError, Global};

/// What is written of the resources that are no cards.
#[derive(Debug, Drop)]
pub(crate) struct Places {
    /// Each with its owner and its label: persons and groups first, without owners, since they may own each other.
    pub(crate) places: Vec<PlaceRow>,
    /// Those with lists.
    pub(crate) lists: Vec<ListsRow>,
    /// The groups with members.
    pub(crate) groups: Vec<GroupRow>,
}

/// Whether a path is that of a card.
pub(crate) fn is_card(path: &Path) -> bool {
    match path {
        Path::Card(_, _) => true,
        Path::Root
        | Path::People
        | Path::Groups
        | Path::Books
        | Path::Person(_)
        | Path::Group(_)
        | Path::Book(_) => false,
    }
}

/// Whether it is that of a person or of a group.
fn is_principal(path: &Path) -> bool {
    match path {
        Path::Person(_) | Path::Group(_) => true,
        Path::Root | Path::People | Path::Groups | Path::Books | Path::Book(_) | Path::Card(_, _) =>
            false,
    }
}

/// The code of the kind of a path.
fn code_of(path: &Path) -> u32 {
    match path {
        Path::Root => 0,
        Path::People | Path::Groups | Path::Books => 1,
        Path::Person(_) => 2,
        Path::Group(_) => 3,
        Path::Book(_) => 4,
        Path::Card(_, _) => 5,
    }
}

/// The text of the path above a path, empty above the root. An error is want of memory.
fn parent_text(alloc: Global, path: &Path) -> Result<String, AllocError> {
    match path.parent()? {
        Some(above) => above.text(alloc),
        None => Ok(String::new(alloc)),
    }
}

/// The text of an owner's path, if there is an owner. An error is want of memory.
fn owner_text(alloc: Global, owner: &Option<Principal>) -> Result<Option<String>, AllocError> {
    match owner {
        Some(owner) => Ok(Some(String::from_str(alloc, owner.text())?)),
        None => Ok(None),
    }
}

/// The row of a resource, with an owner. An error is want of memory.
fn place_row(alloc: Global, line: &Line, owner: Option<String>) -> Result<PlaceRow, AllocError> {
    Ok(PlaceRow {
        path: line.path.text(alloc)?,
        parent: parent_text(alloc, &line.path)?,
        kind: code_of(&line.path),
        owner,
        label: String::from_str(alloc, line.label.as_str())?,
    })
}

/// Adds the rows of the persons and the groups, without owners. An error is want of memory.
fn add_principals(
    alloc: Global,
    places: &mut Vec<PlaceRow>,
    lines: &[Line],
) -> Result<(), AllocError> {
    'lines: for line in lines {
        if is_principal(&line.path) {
            places.push(place_row(alloc, line, None)?)?;
        }
    }
    Ok(())
}

/// Whether the row of a resource stands behind those of all persons and groups: a card's does not.
fn is_owned_place(line: &Line) -> bool {
    !is_card(&line.path) && (line.owner.is_some() || !is_principal(&line.path))
}

/// Adds the rows of the others that are no cards, and of the persons and groups that have an owner. An error is want of
/// memory.
fn add_owned(alloc: Global, places: &mut Vec<PlaceRow>, lines: &[Line]) -> Result<(), AllocError> {
    'lines: for line in lines {
        if is_owned_place(line) {
            let owner = owner_text(alloc, &line.owner)?;
            places.push(place_row(alloc, line, owner)?)?;
        }
    }
    Ok(())
}

/// The rows of the lists of a resource. An error is want of memory.
fn lists_row(alloc: Global, line: &Line) -> Result<ListsRow, AllocError> {
    Ok(ListsRow {
        path: line.path.text(alloc)?,
        protected: rows_of(alloc, line.protected.as_slice())?,
        own: rows_of(alloc, line.own.as_slice())?,
    })
}

/// The lists of those resources that have some, of cards or of the others. An error is want of memory.
pub(crate) fn lists_of(
    alloc: Global,
    lines: &[Line],
    of_cards: bool,
) -> Result<Vec<ListsRow>, AllocError> {
    let mut lists = Vec::new(alloc);
    'lines: for line in lines {
        let has_some = line.protected.len() > 0 || line.own.len() > 0;
        if has_some && is_card(&line.path) == of_cards {
            lists.push(lists_row(alloc, line)?)?;
        }
    }
    Ok(lists)
}

/// The row of a group. An error is want of memory.
fn group_row(alloc: Global, line: &Line) -> Result<GroupRow, AllocError> {
    let mut members = Vec::new(alloc);
    'members: for member in line.members.as_slice() {
        members.push(String::from_str(alloc, member.text())?)?;
    }
    Ok(GroupRow {
        group: line.path.text(alloc)?,
        members,
    })
}

/// The rows of the groups that have members. An error is want of memory.
fn groups_of(alloc: Global, lines: &[Line]) -> Result<Vec<GroupRow>, AllocError> {
    let mut groups = Vec::new(alloc);
    'lines: for line in lines {
        if line.members.len() > 0 {
            groups.push(group_row(alloc, line)?)?;
        }
    }
    Ok(groups)
}

/// What is written of the resources that are no cards. An error is want of memory.
pub(crate) fn places_of(alloc: Global, lines: &[Line]) -> Result<Places, AllocError> {
    let mut places = Vec::new(alloc);
    add_principals(alloc, &mut places, lines)?;
    add_owned(alloc, &mut places, lines)?;
    Ok(Places {
        places,
        lists: lists_of(alloc, lines, false)?,
        groups: groups_of(alloc, lines)?,
    })
}
