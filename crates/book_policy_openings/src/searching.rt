//! The search for openings. What is found is served before it is told; that none is found is no promise.

ghost use Rattle.std.specs.Prelude.{◌≡◌, All, IfOk, OnOk};
ghost use Rattle.book_office.specs.Sound.{IsSound};
ghost use Rattle.book_policy_openings.specs.Openings.{AddsOpenings, IsOpening, IsOpeningIn};

use crate::in_memory::{adopted, bare_in};
use crate::lists::OfficeLists;
use crate::office_places::{OfficePlaces, State};
use crate::openings::Opening;
use crate::senders::{Sender, senders_of};
use crate::steps::Step;
use crate::trials::is_opening;
use book_office::{MemoryKeeper, StoreFault};
use book_office_values::{Items, Office};
use book_policy_values::Policy;
use book_rights::Privilege;
use std::alloc::{AllocError, Global};

/// The most openings that are looked for.
const MOST_OPENINGS: usize = 1_000;

/// The most decisions that are taken to find openings by one request, and by two.
const MOST_DECISIONS: usize = 1_000_000;

/// A caller to whom books are closed.
#[derive(Drop)]
struct Task<'a> {
    /// The caller.
    sender: &'a Sender,
    /// The caller before any request.
    start: State,
    /// Which books are closed.
    closed: Vec<usize>,
}

/// What is found, and how many decisions are left for one request and for two.
#[derive(Drop)]
struct Search {
    found: Vec<Opening>,
    left_for_one: usize,
    left_for_two: usize,
}

/// Requests of a caller, and the caller after them.
#[derive(Clone, Copy)]
struct Made<'a> {
    sender: &'a Sender,
    first: &'a Step,
    second: Option<&'a Step>,
    after: &'a State,
}

/// A copy of a step, if there is one.
fn copy_of(step: Option<&Step>) -> Result<Option<Step>, AllocError> {
    match step {
        Some(step) => Ok(Some(step.clone()?)),
        None => Ok(None),
    }
}

/// Copies of indices.
fn copies_of(alloc: Global, indices: &[usize]) -> Result<Vec<usize>, AllocError> {
    let mut copies = Vec::new(alloc);
    for index in indices {
        copies.push(*index)?;
    }
    Ok(copies)
}

/// Takes so many decisions, where they are left.
fn spend(left: &mut usize, count: usize) -> bool {
    if count > *left {
        return false;
    }
    *left = left.saturating_sub(count);
    true
}

/// The opening by these steps of the book with an index, where the lists say that it is one.
fn opening_by(
    lists: &OfficeLists,
    places: &OfficePlaces,
    made: Made<'_>,
    index: usize,
) -> Result<Option<Opening>, AllocError> {
    let Some(book) = places.books.get(index) else {
        return Ok(None);
    };
    let after = made.after;
    let set = Privilege::Read.leaves();
    if !book
        .card
        .grants(lists, &after.circle, set, after.replaced.as_slice())
    {
        return Ok(None);
    }
    Ok(Some(Opening {
        caller: made.sender.copy_of_name()?,
        first: made.first.clone()?,
        second: copy_of(made.second)?,
        book: book.name.clone()?,
    }))
}

/// Keeps an opening of the book with an index, or else the index.
fn keep(
    opening: Option<Opening>,
    index: usize,
    still: &mut Vec<usize>,
    found: &mut Vec<Opening>,
) -> Result<(), AllocError> {
    match opening {
        Some(opening) => {
            if found.len() < MOST_OPENINGS {
                found.push(opening)?;
            }
        }
        None => still.push(index)?,
    }
    Ok(())
}

/// Which of the books stay closed after the steps. The others are found.
fn opens_each(
    alloc: Global,
    lists: &OfficeLists,
    places: &OfficePlaces,
    made: Made<'_>,
    closed: &[usize],
    found: &mut Vec<Opening>,
) -> Result<Vec<usize>, AllocError> {
    let mut still = Vec::new(alloc);
    for index in closed {
        let opening = opening_by(lists, places, made, *index)?;
        keep(opening, *index, &mut still, found)?;
    }
    Ok(still)
}

/// Which of the books stay closed to a caller after the last of the steps, which is made from a state. The others are found.
fn opens_after(
    alloc: Global,
    lists: &OfficeLists,
    places: &OfficePlaces,
    task: &Task<'_>,
    from: &State,
    first: &Step,
    second: Option<&Step>,
    closed: &[usize],
    found: &mut Vec<Opening>,
) -> Result<Vec<usize>, AllocError> {
    let last = second.unwrap_or(first);
    let after = places.after(alloc, task.sender, from, last)?;
    let made = Made {
        sender: task.sender,
        first,
        second,
        after: &after,
    };
    let still = opens_each(alloc, lists, places, made, closed, found);
    drop(after);
    still
}

/// Which of the books stay closed to a caller after any one step. The others are found.
fn by_one(
    alloc: Global,
    lists: &OfficeLists,
    places: &OfficePlaces,
    task: &Task<'_>,
    search: &mut Search,
) -> Result<Vec<usize>, AllocError> {
    let mut still = copies_of(alloc, task.closed.as_slice())?;
    let steps = places.last_steps(alloc, lists, &task.sender.form, &task.start)?;
    for step in &steps {
        if still.is_empty() || !spend(&mut search.left_for_one, places.size()) {
            break;
        }
        still = opens_after(
            alloc,
            lists,
            places,
            task,
            &task.start,
            step,
            None,
            still.as_slice(),
            &mut search.found,
        )?;
    }
    Ok(still)
}

/// Which of the books stay closed to a caller after the first step, which led to a state, and any other. The others are
/// found.
fn by_last(
    alloc: Global,
    lists: &OfficeLists,
    places: &OfficePlaces,
    task: &Task<'_>,
    first: &Step,
    between: &State,
    closed: &[usize],
    search: &mut Search,
) -> Result<Vec<usize>, AllocError> {
    let mut still = copies_of(alloc, closed)?;
    let steps = places.last_steps(alloc, lists, &task.sender.form, between)?;
    for step in &steps {
        if still.is_empty() || !spend(&mut search.left_for_two, places.size()) {
            break;
        }
        still = opens_after(
            alloc,
            lists,
            places,
            task,
            between,
            first,
            Some(step),
            still.as_slice(),
            &mut search.found,
        )?;
    }
    Ok(still)
}

/// Which of the books stay closed to a caller after the first step and any other. The others are found.
fn by_second(
    alloc: Global,
    lists: &OfficeLists,
    places: &OfficePlaces,
    task: &Task<'_>,
    first: &Step,
    closed: &[usize],
    search: &mut Search,
) -> Result<Vec<usize>, AllocError> {
    let between = places.after(alloc, task.sender, &task.start, first)?;
    let still = by_last(alloc, lists, places, task, first, &between, closed, search);
    drop(between);
    still
}

/// Looks for openings by any two steps, of books that stay closed after any one.
fn by_two(
    alloc: Global,
    lists: &OfficeLists,
    places: &OfficePlaces,
    task: &Task<'_>,
    closed: Vec<usize>,
    search: &mut Search,
) -> Result<(), AllocError> {
    let mut still = closed;
    let steps = places.first_steps(alloc, lists, &task.sender.form, &task.start)?;
    for step in &steps {
        if still.is_empty() || !spend(&mut search.left_for_two, places.size()) {
            return Ok(());
        }
        still = by_second(alloc, lists, places, task, step, still.as_slice(), search)?;
    }
    Ok(())
}

/// Which books are closed to a caller before any request.
fn closed_to(
    alloc: Global,
    lists: &OfficeLists,
    places: &OfficePlaces,
    start: &State,
) -> Result<Vec<usize>, AllocError> {
    let mut closed = Vec::new(alloc);
    let set = Privilege::Read.leaves();
    for (index, book) in places.books.iter().enumerate() {
        if !book
            .card
            .grants(lists, &start.circle, set, start.replaced.as_slice())
        {
            closed.push(index)?;
        }
    }
    Ok(closed)
}

/// A caller, and the books that are closed to them.
fn task_of<'a>(
    alloc: Global,
    lists: &OfficeLists,
    places: &OfficePlaces,
    sender: &'a Sender,
) -> Result<Task<'a>, AllocError> {
    let start = places.start(alloc, sender)?;
    let closed = closed_to(alloc, lists, places, &start)?;
    Ok(Task {
        sender,
        start,
        closed,
    })
}

/// Looks for openings by one step, and then by two.
fn by_one_or_two(
    alloc: Global,
    lists: &OfficeLists,
    places: &OfficePlaces,
    task: &Task<'_>,
    search: &mut Search,
) -> Result<(), AllocError> {
    let closed = by_one(alloc, lists, places, task, search)?;
    by_two(alloc, lists, places, task, closed, search)
}

/// Looks for the openings of a caller.
fn seek(
    alloc: Global,
    lists: &OfficeLists,
    places: &OfficePlaces,
    sender: &Sender,
    search: &mut Search,
) -> Result<(), AllocError> {
    let task = task_of(alloc, lists, places, sender)?;
    let sought = by_one_or_two(alloc, lists, places, &task, search);
    drop(task);
    sought
}

/// What lists say are openings, caller by caller: by one request, and then by two.
fn found_at(
    alloc: Global,
    lists: &OfficeLists,
    places: &OfficePlaces,
) -> Result<Vec<Opening>, AllocError> {
    let mut search = Search {
        found: Vec::new(alloc),
        left_for_one: MOST_DECISIONS,
        left_for_two: MOST_DECISIONS,
    };
    let senders = senders_of(alloc, places.persons.as_slice())?;
    for sender in &senders {
        seek(alloc, lists, places, sender, &mut search)?;
    }
    Ok(search.found)
}

/// What the lists of an Office say are openings.
fn found_of(alloc: Global, office: &Office) -> Result<Vec<Opening>, AllocError> {
    let lists = OfficeLists::of(alloc, office)?;
    let places = OfficePlaces::of(alloc, office)?;
    let found = found_at(alloc, &lists, &places);
    drop(places);
    drop(lists);
    found
}

/// The same of the Office that a keeper has. Nothing changes.
fn found_in(alloc: Global, start: &mut MemoryKeeper) -> Result<Vec<Opening>, StoreFault>
    ensures { IsSound start.old → start.new ≡ start.old }
{
    let office = bare_in(alloc, start)?;
    let found = found_of(alloc, &office);
    drop(office);
    Ok(found?)
}

/// Adds an opening, where it is served.
fn add_served(
    alloc: Global,
    start: &mut MemoryKeeper,
    opening: Opening,
    told: &mut Items<Opening>,
) -> Result<(), StoreFault>
    ensures added { OnOk result (IsSound start.old → AddsOpenings start.old told.old told.new) }
    ensures kept { IsSound start.old → start.new ≡ start.old }
{
    match is_opening(alloc, start, &opening) {
        Ok(true) => Ok(told.push(opening)?),
        Ok(false) => {
            drop(opening);
            Ok(())
        }
        Err(fault) => {
            drop(opening);
            Err(fault)
        }
    }
}

/// Openings in an Office in memory (own profile): for each caller and each book that is closed to them one, where it is
/// found: first of a caller who is not known, and then person by person. That none is told of a caller and a book is no
/// promise. The Office stays as it is.
///
/// One request is looked for first, and then two: PROPPATCH of a group's members, to which a person adds themselves, and ACL,
/// which grants the caller whatever no protected entry of the same form denies, at a book, at the home of the books, at the root, and as the first of two at a group or at their home. At most 1,000
/// openings are looked for, and for one request and for two each at most 1,000,000 decisions are taken, so that more may be
/// left. Each is served over a copy of the Office without its cards before it is told.
///
/// # Errors
///
/// Want of memory.
pub fn openings_in(alloc: Global, start: &mut MemoryKeeper) -> Result<Items<Opening>, StoreFault>
    ensures told { IfOk result (λ told. IsSound start.old → All (IsOpeningIn start.old) told) }
    ensures kept { IsSound start.old → start.new ≡ start.old }
{
    let found = found_in(alloc, start)?;
    let mut told = Items::new(alloc);
    for opening in found {
        add_served(alloc, start, opening, &mut told)?;
    }
    Ok(told)
}

/// Openings of a policy (own profile): those in the Office that it makes of an empty one (`openings_in`).
///
/// # Errors
///
/// Want of memory.
pub fn openings_of(alloc: Global, policy: &Policy) -> Result<Items<Opening>, StoreFault>
    ensures { IfOk result (λ told. All (IsOpening policy.now) told) }
{
    let mut machine = adopted(alloc, policy)?;
    openings_in(alloc, &mut machine.keeper)
}
