//! The resources of an Office that are no cards, with their places, and which of them a request concerns.

use crate::lists::OfficeLists;
use crate::places::Place;
use book_lists::{Entry, Here, Principal, Who};
use book_office_values::{Book, NameMap, Office, Path, Properties};
use book_rights::Leaf;
use std::alloc::{AllocError, Global};
use std::collections::BTreeMap;

/// The indices of the root and of the homes, in which a person, a group or a book is.
const ROOT: usize = 0;

const PEOPLE: usize = 1;

const GROUPS: usize = 2;

const BOOKS: usize = 3;

/// A resource that is no card.
#[derive(Drop)]
pub(crate) struct Spot {
    /// Its path.
    pub(crate) path: Path,
    /// Its place.
    pub(crate) place: Place,
    /// Its index and those of all below it, in order.
    pub(crate) below: Vec<usize>,
}

/// Indices of resources by principal, of each in order.
#[derive(Drop)]
struct ByPrincipal {
    indices: BTreeMap<Principal, Vec<usize>>,
}

/// The resources of an Office that are no cards: the root, the homes, each person, each group and each book, in this order.
#[derive(Drop)]
pub(crate) struct Spots {
    /// The resources.
    pub(crate) all: Vec<Spot>,
    /// Where a decision may rest on who belongs to a group.
    named: ByPrincipal,
    /// Where an entry lets who belongs to a principal send a request that changes rights.
    allowed: ByPrincipal,
    /// Where one lets others do so.
    open: Vec<usize>,
}

/// For whom an entry is.
#[derive(Clone, Copy)]
enum Whom<'a> {
    /// For whoever belongs to the principal.
    One(&'a Principal),
    /// For nobody, since there is no such principal.
    Nobody,
    /// For others too.
    Others,
}

impl ByPrincipal {
    /// Adds an index, where it is not the last already.
    fn add(
        &mut self,
        alloc: Global,
        principal: &Principal,
        index: usize,
    ) -> Result<(), AllocError> {
        if let Some(indices) = self.indices.get_mut(principal) {
            if indices.last().copied() != Some(index) {
                indices.push(index)?;
            }
            return Ok(());
        }
        let mut indices = Vec::new(alloc);
        indices.push(index)?;
        drop(self.indices.insert(principal.clone()?, indices)?);
        Ok(())
    }

    /// The indices of a principal.
    fn at(&self, principal: &Principal) -> &[usize] {
        match self.indices.get(principal) {
            Some(indices) => indices.as_slice(),
            None => &[],
        }
    }
}

/// For the principal, if there is one.
fn for_one(principal: &Option<Principal>) -> Whom<'_> {
    match principal {
        Some(principal) => Whom::One(principal),
        None => Whom::Nobody,
    }
}

/// For whom an entry is at a resource.
fn meant_for<'a>(entry: &'a Entry, here: &'a Here) -> Whom<'a> {
    if entry.invert {
        return Whom::Others;
    }
    match &entry.who {
        Who::Href(principal) => Whom::One(principal),
        Who::Owner => for_one(&here.owner),
        Who::Own => for_one(&here.principal),
        Who::Everyone | Who::Authenticated | Who::Unauthenticated => Whom::Others,
    }
}

/// Whether an entry grants what a request that changes rights needs: of a list, or of a group's members.
fn lets_change(entry: &Entry, path: &Path) -> bool {
    let of_members = matches!(path, Path::Group(_)) && entry.set.has(Leaf::WriteProperties);
    !entry.deny && (of_members || entry.set.has(Leaf::WriteAcl))
}

/// A copy of an owner, if there is one.
fn owner_of(properties: &Properties) -> Result<Option<Principal>, AllocError> {
    match &properties.owner {
        Some(owner) => Ok(Some(owner.clone()?)),
        None => Ok(None),
    }
}

impl Spots {
    /// Adds a resource, which is below those with these indices.
    fn add(
        &mut self,
        alloc: Global,
        path: Path,
        properties: &Properties,
        principal: Option<Principal>,
        above: &[usize],
    ) -> Result<(), AllocError> {
        let index = self.all.len();
        let place = Place::new(alloc, &path, owner_of(properties)?, principal)?;
        let mut below = Vec::new(alloc);
        below.push(index)?;
        self.all.push(Spot { path, place, below })?;
        for home in above {
            if let Some(spot) = self.all.get_mut(*home) {
                spot.below.push(index)?;
            }
        }
        Ok(())
    }

    /// Adds each person.
    fn add_persons(
        &mut self,
        alloc: Global,
        persons: &NameMap<Properties>,
    ) -> Result<(), AllocError> {
        for (name, person) in persons.iter() {
            let principal = Principal::person(alloc, name)?;
            let path = Path::Person(name.clone()?);
            self.add(alloc, path, person, Some(principal), &[ROOT, PEOPLE])?;
        }
        Ok(())
    }

    /// Adds each group.
    fn add_groups(
        &mut self,
        alloc: Global,
        groups: &NameMap<Properties>,
    ) -> Result<(), AllocError> {
        for (name, group) in groups.iter() {
            let principal = Principal::group(alloc, name)?;
            let path = Path::Group(name.clone()?);
            self.add(alloc, path, group, Some(principal), &[ROOT, GROUPS])?;
        }
        Ok(())
    }

    /// Adds each book.
    fn add_books(&mut self, alloc: Global, books: &NameMap<Book>) -> Result<(), AllocError> {
        for (name, book) in books.iter() {
            let path = Path::Book(name.clone()?);
            self.add(alloc, path, &book.properties, None, &[ROOT, BOOKS])?;
        }
        Ok(())
    }

    /// Adds each resource.
    fn add_all(&mut self, alloc: Global, office: &Office) -> Result<(), AllocError> {
        self.add(alloc, Path::Root, &office.root, None, &[])?;
        self.add(alloc, Path::People, &office.people, None, &[ROOT])?;
        self.add(alloc, Path::Groups, &office.groups_home, None, &[ROOT])?;
        self.add(alloc, Path::Books, &office.books_home, None, &[ROOT])?;
        self.add_persons(alloc, &office.persons)?;
        self.add_groups(alloc, &office.groups)?;
        self.add_books(alloc, &office.books)
    }
}

/// Notes that a decision at a resource may rest on who belongs to a principal, where it is a group.
fn note_group(
    alloc: Global,
    named: &mut ByPrincipal,
    principal: &Option<Principal>,
    index: usize,
) -> Result<(), AllocError> {
    match principal {
        Some(principal) if principal.is_group() => named.add(alloc, principal, index),
        _ => Ok(()),
    }
}

/// Notes on whom decisions at a resource may rest by an entry in force there, and whom it lets change rights.
fn note_entry(
    alloc: Global,
    named: &mut ByPrincipal,
    allowed: &mut ByPrincipal,
    open: &mut Vec<usize>,
    spot: &Spot,
    entry: &Entry,
    index: usize,
) -> Result<(), AllocError> {
    if let Who::Href(principal) = &entry.who {
        if principal.is_group() {
            named.add(alloc, principal, index)?;
        }
    }
    if !lets_change(entry, &spot.path) {
        return Ok(());
    }
    match meant_for(entry, &spot.place.here) {
        Whom::One(principal) => allowed.add(alloc, principal, index),
        Whom::Nobody => Ok(()),
        Whom::Others => Ok(open.push(index)?),
    }
}

/// Notes the same of each entry of a list.
fn note_list(
    alloc: Global,
    named: &mut ByPrincipal,
    allowed: &mut ByPrincipal,
    open: &mut Vec<usize>,
    spot: &Spot,
    list: &[Entry],
    index: usize,
) -> Result<(), AllocError> {
    for entry in list {
        note_entry(alloc, named, allowed, open, spot, entry, index)?;
    }
    Ok(())
}

/// Notes the same of a resource: of its owner, of itself, and of each list in force there.
fn note(
    alloc: Global,
    lists: &OfficeLists,
    named: &mut ByPrincipal,
    allowed: &mut ByPrincipal,
    open: &mut Vec<usize>,
    spot: &Spot,
    index: usize,
) -> Result<(), AllocError> {
    note_group(alloc, named, &spot.place.here.owner, index)?;
    note_group(alloc, named, &spot.place.here.principal, index)?;
    for list in spot.place.in_force(alloc, lists)? {
        note_list(alloc, named, allowed, open, spot, list, index)?;
    }
    Ok(())
}

impl Spots {
    /// Notes the same of each resource.
    fn note_each(&mut self, alloc: Global, lists: &OfficeLists) -> Result<(), AllocError> {
        for (index, spot) in self.all.iter().enumerate() {
            note(
                alloc,
                lists,
                &mut self.named,
                &mut self.allowed,
                &mut self.open,
                spot,
                index,
            )?;
        }
        Ok(())
    }

    /// The resources of an Office with these lists. An error is want of memory.
    pub(crate) fn of(
        alloc: Global,
        office: &Office,
        lists: &OfficeLists,
    ) -> Result<Spots, AllocError> {
        let mut spots = Spots {
            all: Vec::new(alloc),
            named: ByPrincipal {
                indices: BTreeMap::new(alloc),
            },
            allowed: ByPrincipal {
                indices: BTreeMap::new(alloc),
            },
            open: Vec::new(alloc),
        };
        spots.add_all(alloc, office)?;
        spots.note_each(alloc, lists)?;
        Ok(spots)
    }

    /// The resources at which a decision may rest on who belongs to a group.
    pub(crate) fn named(&self, group: &Principal) -> &[usize] {
        self.named.at(group)
    }

    /// The resources at which an entry lets who belongs to a principal change rights.
    pub(crate) fn allowed(&self, principal: &Principal) -> &[usize] {
        self.allowed.at(principal)
    }

    /// Those at which one lets others do so.
    pub(crate) fn open(&self) -> &[usize] {
        self.open.as_slice()
    }
}
