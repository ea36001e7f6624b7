//! The search for gains. What is found is served before it is told; that none is found is no promise.

ghost use Rattle.std.specs.Prelude.{◌≡◌, All, IfOk, OnOk};
ghost use Rattle.book_office.specs.Sound.{IsSound};
ghost use Rattle.book_policy_openings.specs.Gains.{AddsGains, IsGainIn};

use crate::gaining::is_gain;
use crate::gains::Gain;
use crate::in_memory::bare_in;
use crate::moves::{Move, Moves, World, allowed_to, moves_among, step_of, touched_by};
use crate::office_places::State;
use crate::senders::{Sender, senders_of};
use crate::steps::Step;
use book_office::{MemoryKeeper, StoreFault};
use book_office_values::{Items, Office};
use book_rights::LeafSet;
use std::alloc::{AllocError, Global};
use std::collections::BTreeMap;

/// The most gains that are looked for.
const MOST_GAINS: usize = 1_000;

/// The most decisions that are taken to find gains by one request, and by two.
const MOST_DECISIONS: usize = 1_000_000;

/// Requests of a caller.
#[derive(Clone, Copy)]
struct Asked {
    first: Move,
    second: Option<Move>,
}

/// What a caller may get at a resource.
#[derive(Drop)]
struct Sought {
    /// The leaves that the caller holds there.
    held: LeafSet,
    /// The most leaves that were found beside these, and by which requests.
    best: LeafSet,
    by: Option<Asked>,
}

/// A caller who looks for gains.
#[derive(Drop)]
struct Seeker<'a> {
    /// The caller.
    sender: &'a Sender,
    /// The caller before any request.
    start: State,
}

/// What a caller may get, by the index of the resource, where a request may change what they hold.
#[derive(Drop)]
struct Chances {
    by_index: BTreeMap<usize, Sought>,
}

/// How many decisions are left for one request and for two.
#[derive(Clone, Copy)]
struct Left {
    one: usize,
    two: usize,
}

impl Sought {
    /// Whether one request is known to get leaves.
    fn is_found_by_one(&self) -> bool {
        match self.by {
            Some(asked) => asked.second.is_none(),
            None => false,
        }
    }

    /// Keeps the requests where they get more leaves than those that are known. By two requests nothing is kept where one
    /// is known to get leaves.
    fn improve(&mut self, leaves: LeafSet, asked: Asked) {
        if asked.second.is_some() && self.is_found_by_one() {
            return;
        }
        let gained = leaves.minus(self.held);
        if gained.mask().count_ones() > self.best.mask().count_ones() {
            self.by = Some(asked);
            self.best = gained;
        }
    }
}

/// Takes so many decisions, where they are left.
fn spend(left: &mut usize, count: usize) -> bool {
    if count > *left {
        return false;
    }
    *left = left.saturating_sub(count);
    true
}

/// The leaves that a caller holds at the resource with an index, after requests.
fn leaves_at(world: &World, state: &State, index: usize) -> LeafSet {
    match world.spots.all.get(index) {
        Some(spot) => spot
            .place
            .leaves(&world.lists, &state.circle, state.replaced.as_slice()),
        None => LeafSet::empty(),
    }
}

impl Chances {
    /// Looks at the resource with an index, where it was not looked at before.
    fn look_at(&mut self, world: &World, start: &State, index: usize) -> Result<(), AllocError> {
        if self.by_index.contains_key(&index) {
            return Ok(());
        }
        let sought = Sought {
            held: leaves_at(world, start, index),
            best: LeafSet::empty(),
            by: None,
        };
        drop(self.by_index.insert(index, sought)?);
        Ok(())
    }

    /// Tries requests, after which the caller is so, at each of these resources.
    fn try_each(
        &mut self,
        world: &World,
        start: &State,
        asked: Asked,
        after: &State,
        touched: &[usize],
    ) -> Result<(), AllocError> {
        for index in touched {
            self.look_at(world, start, *index)?;
            if let Some(sought) = self.by_index.get_mut(index) {
                sought.improve(leaves_at(world, after, *index), asked);
            }
        }
        Ok(())
    }
}

/// The caller after one request more; none where there is no such resource.
fn after_move(
    alloc: Global,
    world: &World,
    sender: &Sender,
    from: &State,
    one: Move,
) -> Result<Option<State>, AllocError> {
    match step_of(world, sender, one)? {
        Some(step) => Ok(Some(world.places.after(alloc, sender, from, &step)?)),
        None => Ok(None),
    }
}

/// Tries requests, the last of which is sent in a state, at each of these resources.
fn try_last(
    alloc: Global,
    world: &World,
    seeker: &Seeker<'_>,
    from: &State,
    asked: Asked,
    touched: &[usize],
    chances: &mut Chances,
) -> Result<(), AllocError> {
    if touched.is_empty() {
        return Ok(());
    }
    let last = asked.second.unwrap_or(asked.first);
    let Some(after) = after_move(alloc, world, seeker.sender, from, last)? else {
        return Ok(());
    };
    let tried = chances.try_each(world, &seeker.start, asked, &after, touched);
    drop(after);
    tried
}

/// Tries a request by itself, and tells whether there were decisions left for it.
fn by_one(
    alloc: Global,
    world: &World,
    seeker: &Seeker<'_>,
    first: Move,
    left: &mut usize,
    chances: &mut Chances,
) -> Result<bool, AllocError> {
    let touched = touched_by(alloc, world, &seeker.start, first)?;
    if !spend(left, world.cost_of(first, touched.len())) {
        return Ok(false);
    }
    let asked = Asked {
        first,
        second: None,
    };
    try_last(
        alloc,
        world,
        seeker,
        &seeker.start,
        asked,
        touched.as_slice(),
        chances,
    )?;
    Ok(true)
}

/// Tries each request by itself.
fn by_each(
    alloc: Global,
    world: &World,
    seeker: &Seeker<'_>,
    moves: &Moves,
    left: &mut usize,
    chances: &mut Chances,
) -> Result<(), AllocError> {
    for first in &moves.list(alloc)? {
        if !by_one(alloc, world, seeker, *first, left, chances)? {
            return Ok(());
        }
    }
    Ok(())
}

/// The resources at which requests are looked for after the first, which led to a state.
fn looked_at_then(
    alloc: Global,
    world: &World,
    sender: &Sender,
    first: Move,
    between: &State,
) -> Result<Vec<usize>, AllocError> {
    match first {
        Move::Join(_) => allowed_to(alloc, world, sender, between),
        Move::Grant(_) => touched_by(alloc, world, between, first),
    }
}

/// The requests that may be sent at these resources after the first, which led to a state: after a list was replaced, those
/// alone that could not be sent before, since the others get no more by it.
fn moves_then(
    alloc: Global,
    world: &World,
    sender: &Sender,
    moves: &Moves,
    first: Move,
    between: &State,
    indices: &[usize],
) -> Result<Moves, AllocError> {
    let then = moves_among(alloc, world, sender, between, indices)?;
    match first {
        Move::Join(_) => Ok(then),
        Move::Grant(_) => then.without(alloc, moves),
    }
}

/// The resources at which a second request may change what the caller holds after the first and not by itself.
fn touched_then(
    alloc: Global,
    world: &World,
    moves: &Moves,
    between: &State,
    near: &[usize],
    second: Move,
) -> Result<Vec<usize>, AllocError> {
    let touched = touched_by(alloc, world, between, second)?;
    if !moves.has(second) {
        return Ok(touched);
    }
    let mut both = Vec::new(alloc);
    for index in touched {
        if near.binary_search(&index).is_ok() {
            both.push(index)?;
        }
    }
    Ok(both)
}

/// Tries each request after the first, which led to a state, and tells whether there were decisions left for them.
fn by_last(
    alloc: Global,
    world: &World,
    seeker: &Seeker<'_>,
    moves: &Moves,
    first: Move,
    between: &State,
    left: &mut usize,
    chances: &mut Chances,
) -> Result<bool, AllocError> {
    let near = touched_by(alloc, world, &seeker.start, first)?;
    let indices = looked_at_then(alloc, world, seeker.sender, first, between)?;
    if !spend(left, indices.len()) {
        return Ok(false);
    }
    let then = moves_then(
        alloc,
        world,
        seeker.sender,
        moves,
        first,
        between,
        indices.as_slice(),
    )?;
    for second in &then.list(alloc)? {
        let touched = touched_then(alloc, world, moves, between, near.as_slice(), *second)?;
        if !spend(left, world.cost_of(*second, touched.len())) {
            return Ok(false);
        }
        let asked = Asked {
            first,
            second: Some(*second),
        };
        try_last(
            alloc,
            world,
            seeker,
            between,
            asked,
            touched.as_slice(),
            chances,
        )?;
    }
    Ok(true)
}

/// Tries each request after the first, and tells whether there were decisions left for them.
fn by_second(
    alloc: Global,
    world: &World,
    seeker: &Seeker<'_>,
    moves: &Moves,
    first: Move,
    left: &mut usize,
    chances: &mut Chances,
) -> Result<bool, AllocError> {
    let Some(between) = after_move(alloc, world, seeker.sender, &seeker.start, first)? else {
        return Ok(true);
    };
    let tried = by_last(alloc, world, seeker, moves, first, &between, left, chances);
    drop(between);
    tried
}

/// Tries each two requests.
fn by_two(
    alloc: Global,
    world: &World,
    seeker: &Seeker<'_>,
    moves: &Moves,
    left: &mut usize,
    chances: &mut Chances,
) -> Result<(), AllocError> {
    for first in &moves.list(alloc)? {
        if !by_second(alloc, world, seeker, moves, *first, left, chances)? {
            return Ok(());
        }
    }
    Ok(())
}

/// The step of the second request, if there is one.
fn second_of(
    world: &World,
    sender: &Sender,
    second: Option<Move>,
) -> Result<Option<Step>, AllocError> {
    match second {
        Some(second) => step_of(world, sender, second),
        None => Ok(None),
    }
}

/// The gain at the resource with an index, if requests were found.
fn gain_of(
    world: &World,
    sender: &Sender,
    index: usize,
    sought: Sought,
) -> Result<Option<Gain>, AllocError> {
    let Some(asked) = sought.by else {
        return Ok(None);
    };
    let Some(spot) = world.spots.all.get(index) else {
        return Ok(None);
    };
    let Some(first) = step_of(world, sender, asked.first)? else {
        return Ok(None);
    };
    let second = second_of(world, sender, asked.second)?;
    Ok(Some(Gain {
        caller: sender.copy_of_name()?,
        first,
        second,
        at: spot.path.clone()?,
        leaves: sought.best,
    }))
}

/// Adds the gain at the resource with an index, if requests were found, and there are not as many already as are looked for.
fn add_gain(
    world: &World,
    sender: &Sender,
    index: usize,
    sought: Sought,
    found: &mut Vec<Gain>,
) -> Result<(), AllocError> {
    if found.len() >= MOST_GAINS {
        return Ok(());
    }
    match gain_of(world, sender, index, sought)? {
        Some(gain) => Ok(found.push(gain)?),
        None => Ok(()),
    }
}

/// Adds what was found for a caller, resource by resource.
fn add_found(
    world: &World,
    sender: &Sender,
    chances: Chances,
    found: &mut Vec<Gain>,
) -> Result<(), AllocError> {
    for (index, sought) in chances.by_index.into_iter() {
        add_gain(world, sender, index, sought, found)?;
    }
    Ok(())
}

/// What a caller may get by one request, and else by two.
fn chances_of(
    alloc: Global,
    world: &World,
    seeker: &Seeker<'_>,
    left: &mut Left,
) -> Result<Chances, AllocError> {
    let indices = allowed_to(alloc, world, seeker.sender, &seeker.start)?;
    let mut chances = Chances {
        by_index: BTreeMap::new(alloc),
    };
    if !spend(&mut left.one, indices.len()) {
        return Ok(chances);
    }
    let moves = moves_among(
        alloc,
        world,
        seeker.sender,
        &seeker.start,
        indices.as_slice(),
    )?;
    by_each(alloc, world, seeker, &moves, &mut left.one, &mut chances)?;
    by_two(alloc, world, seeker, &moves, &mut left.two, &mut chances)?;
    Ok(chances)
}

/// Looks for what a caller may get.
fn seek(
    alloc: Global,
    world: &World,
    sender: &Sender,
    left: &mut Left,
    found: &mut Vec<Gain>,
) -> Result<(), AllocError> {
    let seeker = Seeker {
        sender,
        start: world.places.start(alloc, sender)?,
    };
    let chances = chances_of(alloc, world, &seeker, left);
    drop(seeker);
    add_found(world, sender, chances?, found)
}

/// What lists say are gains, caller by caller, until there are as many as are looked for.
fn found_at(alloc: Global, world: &World) -> Result<Vec<Gain>, AllocError> {
    let mut left = Left {
        one: MOST_DECISIONS,
        two: MOST_DECISIONS,
    };
    let mut found = Vec::new(alloc);
    let senders = senders_of(alloc, world.places.persons.as_slice())?;
    for sender in &senders {
        if found.len() >= MOST_GAINS {
            break;
        }
        seek(alloc, world, sender, &mut left, &mut found)?;
    }
    Ok(found)
}

/// What the lists of an Office say are gains.
fn found_of(alloc: Global, office: &Office) -> Result<Vec<Gain>, AllocError> {
    let world = World::of(alloc, office)?;
    let found = found_at(alloc, &world);
    drop(world);
    found
}

/// The same of the Office that a keeper has. Nothing changes.
fn found_in(alloc: Global, start: &mut MemoryKeeper) -> Result<Vec<Gain>, StoreFault>
    ensures { IsSound start.old → start.new ≡ start.old }
{
    let office = bare_in(alloc, start)?;
    let found = found_of(alloc, &office);
    drop(office);
    Ok(found?)
}

/// Adds a gain, where it is served.
fn add_served(
    alloc: Global,
    start: &mut MemoryKeeper,
    gain: Gain,
    told: &mut Items<Gain>,
) -> Result<(), StoreFault>
    ensures added { OnOk result (IsSound start.old → AddsGains start.old told.old told.new) }
    ensures kept { IsSound start.old → start.new ≡ start.old }
{
    match is_gain(alloc, start, &gain) {
        Ok(true) => Ok(told.push(gain)?),
        Ok(false) => {
            drop(gain);
            Ok(())
        }
        Err(fault) => {
            drop(gain);
            Err(fault)
        }
    }
}

/// What callers may get in an Office in memory (own profile): for each caller and each resource that is no card at most one
/// gain, first of a caller who is not known, then person by person, and resource by resource. That none is told of a caller
/// and a resource is no promise. The Office stays as it is.
///
/// One request is looked for first, and where none gets a leaf, two: PROPPATCH of a group's members, to which a person adds
/// themselves, and ACL at any resource that is no card, which grants the caller whatever no protected entry of the same form
/// denies. Of those that are found at a resource the first is told that gets the most leaves. At most 1,000 gains are looked
/// for, and for one request and for two each at most 1,000,000 decisions are taken, so that more may be left. Each is served
/// over a copy of the Office without its cards before it is told.
///
/// A request is looked for where an entry in force is for the caller, and is tried where it may change what they hold: what
/// it takes does not rest on the other resources.
///
/// # Errors
///
/// Want of memory.
pub fn gains_in(alloc: Global, start: &mut MemoryKeeper) -> Result<Items<Gain>, StoreFault>
    ensures told { IfOk result (λ told. IsSound start.old → All (IsGainIn start.old) told) }
    ensures kept { IsSound start.old → start.new ≡ start.old }
{
    let found = found_in(alloc, start)?;
    let mut told = Items::new(alloc);
    for gain in found {
        add_served(alloc, start, gain, &mut told)?;
    }
    Ok(told)
}
