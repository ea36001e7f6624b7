//! How many denials a group has, and when they were.

ghost use Rattle.std.specs.Prelude.{◌≡◌, ◌∷◌, [], IfOk, Some, option_copied, option_map};
ghost use Rattle.book_log_denials.specs.Tallies.{earlier, later, more};

use book_log_lines::Time;
use std::alloc::AllocError;

/// What is told of a group of denials.
#[derive(Debug, Drop)]
pub struct Tally {
    /// How many there are, from 1; the last number of 64 bits where there are more.
    pub count: u64,
    /// The time of the first.
    pub first: Time,
    /// The time of the last.
    pub last: Time,
}

/// The earlier of two times. An error is want of memory.
fn earlier(time: &Time, other: &Time) -> Result<Time, AllocError>
    ensures { IfOk result (λ first. first ≡ earlier time.now other.now) }
{
    if time.is_before(other) {
        time.clone()
    } else {
        other.clone()
    }
}

/// The later of two times. An error is want of memory.
fn later(time: &Time, other: &Time) -> Result<Time, AllocError>
    ensures { IfOk result (λ last. last ≡ later time.now other.now) }
{
    if other.is_before(time) {
        time.clone()
    } else {
        other.clone()
    }
}

/// What is told of a group of one denial. An error is want of memory.
fn one(time: &Time) -> Result<Tally, AllocError>
    ensures { IfOk result (λ tally. tally ≡ record
        { count = 1; first = time.now; last = time.now }) }
{
    Ok(Tally {
        count: 1,
        first: time.clone()?,
        last: time.clone()?,
    })
}

/// What is told of a group with one denial more, of which that was told before, if it had any. An error is want of memory.
pub(crate) fn more(time: &Time, before: Option<&Tally>) -> Result<Tally, AllocError>
    ensures { IfOk result (λ tally. tally ≡ more time.now (option_copied before.entry)) }
{
    match before {
        None => one(time),
        Some(before) => Ok(Tally {
            count: before.count.saturating_add(1),
            first: earlier(time, &before.first)?,
            last: later(time, &before.last)?,
        }),
    }
}
