//! The requests that a caller may send to change rights, and the resources at which each may change what the caller holds.

use crate::lists::OfficeLists;
use crate::office_places::{OfficePlaces, State};
use crate::senders::Sender;
use crate::spots::{Spot, Spots};
use crate::steps::Step;
use book_lists::{Caller, Principal};
use book_office_values::{Office, Path};
use book_rights::{Leaf, LeafSet};
use std::alloc::{AllocError, Global};
use std::collections::BTreeSet;

/// What the search looks at.
#[derive(Drop)]
pub(crate) struct World {
    pub(crate) lists: OfficeLists,
    pub(crate) places: OfficePlaces,
    pub(crate) spots: Spots,
}

/// A request that changes rights, by the index of the resource: to be a member of the group there, or to replace the list.
#[derive(Clone, Copy)]
pub(crate) enum Move {
    Join(usize),
    Grant(usize),
}

/// The indices of the groups whose member a caller may make themselves, and of the resources whose list they may replace.
#[derive(Drop)]
pub(crate) struct Moves {
    pub(crate) joins: BTreeSet<usize>,
    pub(crate) grants: BTreeSet<usize>,
}

impl Move {
    /// The index of the resource.
    fn index(self) -> usize {
        match self {
            Move::Join(index) => index,
            Move::Grant(index) => index,
        }
    }
}

impl World {
    /// What is looked at in an Office. An error is want of memory.
    pub(crate) fn of(alloc: Global, office: &Office) -> Result<World, AllocError> {
        let places = OfficePlaces::of(alloc, office)?;
        let lists = OfficeLists::of(alloc, office)?;
        let spots = Spots::of(alloc, office, &lists)?;
        Ok(World {
            lists,
            places,
            spots,
        })
    }
}

impl Moves {
    /// Whether a request is one of these.
    pub(crate) fn has(&self, one: Move) -> bool {
        match one {
            Move::Join(index) => self.joins.contains(&index),
            Move::Grant(index) => self.grants.contains(&index),
        }
    }

    /// These but those. An error is want of memory.
    pub(crate) fn without(self, alloc: Global, others: &Moves) -> Result<Moves, AllocError> {
        Ok(Moves {
            joins: minus(alloc, self.joins, &others.joins)?,
            grants: minus(alloc, self.grants, &others.grants)?,
        })
    }

    /// Each of these: groups first, in order of the resources. An error is want of memory.
    pub(crate) fn list(&self, alloc: Global) -> Result<Vec<Move>, AllocError> {
        let mut list = Vec::new(alloc);
        for index in &self.joins {
            list.push(Move::Join(*index))?;
        }
        for index in &self.grants {
            list.push(Move::Grant(*index))?;
        }
        Ok(list)
    }
}

/// The indices that are not in the other set.
fn minus(
    alloc: Global,
    indices: BTreeSet<usize>,
    others: &BTreeSet<usize>,
) -> Result<BTreeSet<usize>, AllocError> {
    let mut left = BTreeSet::new(alloc);
    for index in indices.into_iter() {
        if !others.contains(&index) {
            left.insert(index)?;
        }
    }
    Ok(left)
}

/// Adds indices.
fn add_each(indices: &mut BTreeSet<usize>, more: &[usize]) -> Result<(), AllocError> {
    for index in more {
        indices.insert(*index)?;
    }
    Ok(())
}

/// The indices of a set, in order.
fn list_of(alloc: Global, indices: BTreeSet<usize>) -> Result<Vec<usize>, AllocError> {
    let mut list = Vec::new(alloc);
    for index in indices.into_iter() {
        list.push(index)?;
    }
    Ok(list)
}

/// Whether a caller may make themselves a member of the group at a resource, in which they are not.
fn may_join(world: &World, state: &State, spot: &Spot) -> bool {
    let Path::Group(_) = &spot.path else {
        return false;
    };
    let Some(group) = &spot.place.here.principal else {
        return false;
    };
    let set = LeafSet::empty().with(Leaf::WriteProperties);
    state.circle.is_known()
        && !state.circle.has(group)
        && spot.place.grants(&world.lists, &state.circle, set, state.replaced.as_slice())
}

/// Whether a caller may replace the list of a resource, and grant themselves something by it.
fn may_grant(world: &World, sender: &Sender, state: &State, spot: &Spot) -> bool {
    let set = LeafSet::empty().with(Leaf::WriteAcl);
    spot.place.open_to(&world.lists, &sender.form) != LeafSet::empty()
        && spot.place.grants(&world.lists, &state.circle, set, state.replaced.as_slice())
}

/// The requests that a caller may send at these resources. An error is want of memory.
pub(crate) fn moves_among(
    alloc: Global,
    world: &World,
    sender: &Sender,
    state: &State,
    indices: &[usize],
) -> Result<Moves, AllocError> {
    let mut joins = BTreeSet::new(alloc);
    let mut grants = BTreeSet::new(alloc);
    for index in indices {
        let Some(spot) = world.spots.all.get(*index) else {
            continue;
        };
        if may_join(world, state, spot) {
            joins.insert(*index)?;
        }
        if may_grant(world, sender, state, spot) {
            grants.insert(*index)?;
        }
    }
    Ok(Moves { joins, grants })
}

/// The resources at which an entry may let a caller change rights, where no list was replaced. An error is want of memory.
pub(crate) fn allowed_to(
    alloc: Global,
    world: &World,
    sender: &Sender,
    state: &State,
) -> Result<Vec<usize>, AllocError> {
    let mut indices = BTreeSet::new(alloc);
    add_each(&mut indices, world.spots.open())?;
    if let Caller::Known(person) = &sender.caller {
        add_each(&mut indices, world.spots.allowed(person))?;
    }
    for group in &world.places.groups {
        if state.circle.has(&group.principal) {
            add_each(&mut indices, world.spots.allowed(&group.principal))?;
        }
    }
    list_of(alloc, indices)
}

/// The resources at which a decision may rest on who belongs to a group, or to one in which that is, of those to which a
/// caller does not belong.
fn named_by(
    alloc: Global,
    world: &World,
    state: &State,
    to: &Principal,
) -> Result<Vec<usize>, AllocError> {
    let mut indices = BTreeSet::new(alloc);
    for group in &world.places.groups {
        let one = &group.principal;
        if !state.circle.has(one) && world.places.leads_to(one, to) {
            add_each(&mut indices, world.spots.named(one))?;
        }
    }
    list_of(alloc, indices)
}

/// Copies of indices.
fn copies_of(alloc: Global, indices: &[usize]) -> Result<Vec<usize>, AllocError> {
    let mut copies = Vec::new(alloc);
    for index in indices {
        copies.push(*index)?;
    }
    Ok(copies)
}

/// The resources at which a request may change what a caller holds; no others. An error is want of memory.
pub(crate) fn touched_by(
    alloc: Global,
    world: &World,
    state: &State,
    one: Move,
) -> Result<Vec<usize>, AllocError> {
    let Some(spot) = world.spots.all.get(one.index()) else {
        return Ok(Vec::new(alloc));
    };
    match (one, &spot.place.here.principal) {
        (Move::Join(_), Some(group)) => named_by(alloc, world, state, group),
        _ => copies_of(alloc, spot.below.as_slice()),
    }
}

/// The step that makes a caller a member of the group at a resource; none where there is no group.
fn join_at(spot: &Spot) -> Result<Option<Step>, AllocError> {
    match &spot.path {
        Path::Group(name) => Ok(Some(Step::Join(name.clone()?))),
        _ => Ok(None),
    }
}

/// The step that replaces the list of a resource.
fn grant_at(world: &World, sender: &Sender, spot: &Spot) -> Result<Option<Step>, AllocError> {
    let leaves = spot.place.open_to(&world.lists, &sender.form);
    Ok(Some(Step::Grant(spot.path.clone()?, leaves)))
}

/// The step of a request; none where there is no such resource. An error is want of memory.
pub(crate) fn step_of(
    world: &World,
    sender: &Sender,
    one: Move,
) -> Result<Option<Step>, AllocError> {
    let Some(spot) = world.spots.all.get(one.index()) else {
        return Ok(None);
    };
    match one {
        Move::Join(_) => join_at(spot),
        Move::Grant(_) => grant_at(world, sender, spot),
    }
}

impl World {
    /// How many decisions a request costs that may change what a caller holds at so many resources.
    pub(crate) fn cost_of(&self, one: Move, touched: usize) -> usize {
        match one {
            Move::Join(_) => touched.saturating_add(self.places.groups.len()),
            Move::Grant(_) => touched.saturating_add(1),
        }
    }
}
