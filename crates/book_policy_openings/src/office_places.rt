//! What an Office has: its groups and books, with their places, and who is in which group.

use crate::lists::OfficeLists;
use crate::places::{Place, Replaced};
use crate::senders::Sender;
use crate::steps::Step;
use book_lists::{Circle, Entry, Name, Pairs, Principal, Who, closure, reached_in};
use book_office_values::{Items, Office, Path, Properties, Text};
use book_rights::{Leaf, LeafSet};
use std::alloc::{AllocError, Global};

/// A group.
#[derive(Drop)]
pub(crate) struct GroupPlace {
    /// Its name.
    pub(crate) name: Name,
    /// Its path.
    pub(crate) principal: Principal,
    /// Its place.
    pub(crate) place: Place,
}

/// A book.
#[derive(Drop)]
pub(crate) struct BookPlace {
    /// Its name.
    pub(crate) name: Name,
    /// Its place.
    pub(crate) place: Place,
    /// The place of a card in it that nobody owns.
    pub(crate) card: Place,
}

/// What the search looks at.
#[derive(Drop)]
pub(crate) struct OfficePlaces {
    /// The groups and whoever chains of memberships lead to.
    reach: Pairs,
    /// The bare names of the persons.
    pub(crate) persons: Vec<Name>,
    /// The groups.
    pub(crate) groups: Vec<GroupPlace>,
    /// The books.
    pub(crate) books: Vec<BookPlace>,
    /// The root.
    root: Place,
    /// The home of the groups.
    groups_home: Place,
    /// The home of the books.
    books_home: Place,
}

/// A caller after some requests.
#[derive(Drop)]
pub(crate) struct State {
    /// To what the caller belongs.
    pub(crate) circle: Circle,
    /// The lists that stand in place of own lists.
    pub(crate) replaced: Vec<Replaced>,
}

/// A place that is no principal and has no owner.
fn bare_place(alloc: Global, path: &Path) -> Result<Place, AllocError> {
    Place::new(alloc, path, None, None)
}

/// A copy of an owner, if there is one.
fn owner_of(properties: &Properties) -> Result<Option<Principal>, AllocError> {
    match &properties.owner {
        Some(owner) => Ok(Some(owner.clone()?)),
        None => Ok(None),
    }
}

/// The place of a group.
fn place_of_group(
    alloc: Global,
    name: &Name,
    group: &Properties,
    principal: &Principal,
) -> Result<Place, AllocError> {
    let path = Path::Group(name.clone()?);
    let principal = principal.clone()?;
    let owner = owner_of(group)?;
    Place::new(alloc, &path, owner, Some(principal))
}

/// The place of the root, a home or a book, which is no principal.
fn owned_place(alloc: Global, path: &Path, properties: &Properties) -> Result<Place, AllocError> {
    let owner = owner_of(properties)?;
    Place::new(alloc, path, owner, None)
}

/// A group.
fn group_place(alloc: Global, name: &Name, group: &Properties) -> Result<GroupPlace, AllocError> {
    let principal = Principal::group(alloc, name)?;
    let place = place_of_group(alloc, name, group, &principal)?;
    let name = name.clone()?;
    Ok(GroupPlace {
        name,
        principal,
        place,
    })
}

/// A book.
fn book_place(alloc: Global, name: &Name, book: &Properties) -> Result<BookPlace, AllocError> {
    let path = Path::Book(name.clone()?);
    let name = name.clone()?;
    let card = bare_place(alloc, &path)?;
    let place = owned_place(alloc, &path, book)?;
    Ok(BookPlace { name, place, card })
}

/// The bare names of the persons.
fn persons_of(alloc: Global, office: &Office) -> Result<Vec<Name>, AllocError> {
    let mut persons = Vec::new(alloc);
    for (name, _person) in office.persons.iter() {
        persons.push(name.clone()?)?;
    }
    Ok(persons)
}

/// The groups.
fn group_places(alloc: Global, office: &Office) -> Result<Vec<GroupPlace>, AllocError> {
    let mut places = Vec::new(alloc);
    for (name, group) in office.groups.iter() {
        places.push(group_place(alloc, name, group)?)?;
    }
    Ok(places)
}

/// The books.
fn book_places(alloc: Global, office: &Office) -> Result<Vec<BookPlace>, AllocError> {
    let mut shelves = Vec::new(alloc);
    for (name, book) in office.books.iter() {
        shelves.push(book_place(alloc, name, &book.properties)?)?;
    }
    Ok(shelves)
}

/// The leaf alone.
fn only(leaf: Leaf) -> LeafSet {
    LeafSet::empty().with(leaf)
}

/// A list of one entry of a form, which grants leaves.
fn granting_list(alloc: Global, form: &Who, leaves: LeafSet) -> Result<Items<Entry>, AllocError> {
    let mut list = Items::new(alloc);
    list.push(Entry {
        who: form.clone()?,
        invert: false,
        deny: false,
        set: leaves,
    })?;
    Ok(list)
}

/// Copies of the lists.
fn copies_of(alloc: Global, replaced: &[Replaced]) -> Result<Vec<Replaced>, AllocError> {
    let mut copies = Vec::new(alloc);
    for one in replaced {
        let at = one.at.clone()?;
        let list = one.list.clone()?;
        copies.push(Replaced { at, list })?;
    }
    Ok(copies)
}

impl OfficePlaces {
    /// What the Office has. An error is want of memory.
    pub(crate) fn of(alloc: Global, office: &Office) -> Result<OfficePlaces, AllocError> {
        let root = owned_place(alloc, &Path::Root, &office.root)?;
        let groups_home = owned_place(alloc, &Path::Groups, &office.groups_home)?;
        let books_home = owned_place(alloc, &Path::Books, &office.books_home)?;
        let persons = persons_of(alloc, office)?;
        let groups = group_places(alloc, office)?;
        let books = book_places(alloc, office)?;
        let reach = closure(&office.pairs)?;
        Ok(OfficePlaces {
            reach,
            persons,
            groups,
            books,
            root,
            groups_home,
            books_home,
        })
    }

    /// How many groups and books there are.
    pub(crate) fn size(&self) -> usize {
        self.groups.len().saturating_add(self.books.len())
    }

    /// A caller before any request. An error is want of memory.
    pub(crate) fn start(&self, alloc: Global, sender: &Sender) -> Result<State, AllocError> {
        Ok(State {
            circle: reached_in(&self.reach, &sender.caller)?,
            replaced: Vec::new(alloc),
        })
    }

    /// Whether who is added to a group belongs to another by that.
    pub(crate) fn leads_to(&self, group: &Principal, to: &Principal) -> bool {
        group == to || self.reach.has(group, to)
    }

    /// To what a caller belongs who was added to a group. Each group is looked up once.
    fn joined(
        &self,
        alloc: Global,
        sender: &Sender,
        circle: &Circle,
        to: &Principal,
    ) -> Result<Circle, AllocError> {
        let mut groups = Vec::new(alloc);
        for group in &self.groups {
            let one = &group.principal;
            if circle.has(one) || self.leads_to(one, to) {
                groups.push(one.clone()?)?;
            }
        }
        Circle::of(alloc, &sender.caller, groups)
    }

    /// The caller after one step more. An error is want of memory.
    pub(crate) fn after(
        &self,
        alloc: Global,
        sender: &Sender,
        state: &State,
        step: &Step,
    ) -> Result<State, AllocError> {
        let mut replaced = copies_of(alloc, state.replaced.as_slice())?;
        match step {
            Step::Join(name) => {
                let group = Principal::group(alloc, name)?;
                Ok(State {
                    circle: self.joined(alloc, sender, &state.circle, &group)?,
                    replaced,
                })
            }
            Step::Grant(path, leaves) => {
                replaced.insert(
                    0,
                    Replaced {
                        at: Text::from_string(path.text(alloc)?),
                        list: granting_list(alloc, &sender.form, *leaves)?,
                    },
                )?;
                Ok(State {
                    circle: state.circle.clone()?,
                    replaced,
                })
            }
        }
    }

    /// Adds the step that replaces a list, where the caller may, and may grant themselves something by it.
    fn add_grant(
        &self,
        lists: &OfficeLists,
        form: &Who,
        state: &State,
        place: &Place,
        path: Path,
        steps: &mut Vec<Step>,
    ) -> Result<(), AllocError> {
        let set = only(Leaf::WriteAcl);
        let leaves = place.open_to(lists, form);
        if leaves != LeafSet::empty()
            && place.grants(lists, &state.circle, set, state.replaced.as_slice())
        {
            steps.push(Step::Grant(path, leaves))?;
        }
        Ok(())
    }

    /// Adds the steps that replace lists at books and above them.
    fn add_book_grants(
        &self,
        lists: &OfficeLists,
        form: &Who,
        state: &State,
        steps: &mut Vec<Step>,
    ) -> Result<(), AllocError> {
        for book in &self.books {
            let path = Path::Book(book.name.clone()?);
            self.add_grant(lists, form, state, &book.place, path, steps)?;
        }
        self.add_grant(lists, form, state, &self.books_home, Path::Books, steps)?;
        self.add_grant(lists, form, state, &self.root, Path::Root, steps)
    }

    /// Adds the steps that replace lists at groups and at their home.
    fn add_group_grants(
        &self,
        lists: &OfficeLists,
        form: &Who,
        state: &State,
        steps: &mut Vec<Step>,
    ) -> Result<(), AllocError> {
        for group in &self.groups {
            let path = Path::Group(group.name.clone()?);
            self.add_grant(lists, form, state, &group.place, path, steps)?;
        }
        self.add_grant(lists, form, state, &self.groups_home, Path::Groups, steps)
    }

    /// Adds the steps that add the caller to a group.
    pub(crate) fn add_joins(
        &self,
        lists: &OfficeLists,
        state: &State,
        steps: &mut Vec<Step>,
    ) -> Result<(), AllocError> {
        if !state.circle.is_known() {
            return Ok(());
        }
        let set = only(Leaf::WriteProperties);
        for group in &self.groups {
            let replaced = state.replaced.as_slice();
            if !state.circle.has(&group.principal)
                && group.place.grants(lists, &state.circle, set, replaced)
            {
                steps.push(Step::Join(group.name.clone()?))?;
            }
        }
        Ok(())
    }

    /// The steps by which the caller may get a right at once. An error is want of memory.
    pub(crate) fn last_steps(
        &self,
        alloc: Global,
        lists: &OfficeLists,
        form: &Who,
        state: &State,
    ) -> Result<Vec<Step>, AllocError> {
        let mut steps = Vec::new(alloc);
        self.add_joins(lists, state, &mut steps)?;
        self.add_book_grants(lists, form, state, &mut steps)?;
        Ok(steps)
    }

    /// The steps by which the caller may get a right, at once or by another step. An error is want of memory.
    pub(crate) fn first_steps(
        &self,
        alloc: Global,
        lists: &OfficeLists,
        form: &Who,
        state: &State,
    ) -> Result<Vec<Step>, AllocError> {
        let mut steps = self.last_steps(alloc, lists, form, state)?;
        self.add_group_grants(lists, form, state, &mut steps)?;
        Ok(steps)
    }
}
