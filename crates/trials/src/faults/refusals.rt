//! The list with memory refused: in each turn, on an Office as the turns before it left it, each request for memory is the
//! one that is refused, from the first to the last.
//!
//! Memory is refused by what lies under the program (`tools/refused_memory.c`), which takes two sizes that nobody grants as
//! signs, and else hands out memory as ever. Without it nothing is tried.

use crate::faults::counts::Count;
use crate::faults::failures::{Failure, check};
use crate::faults::runs::Turn;
use crate::faults::turns::Answer;
use book_machine::Machine;
use book_office::{Keeper, MemoryKeeper};
use std::alloc::Global;

/// A request for so many bytes and `n` more is refused, and is the sign that of the requests after it the one with the
/// number `n` is refused too, counting from 0.
const REFUSE: usize = 1 << 36;

/// A request for so many bytes ends that, and is granted where one was refused.
const TELL: usize = 1 << 37;

fn refuse(alloc: Global, number: usize) -> Result<(), Failure> {
    let sign = Vec::<u8>::with_capacity(alloc, REFUSE.saturating_add(number));
    check(sign.is_err(), "64 GiB of memory are granted")
}

fn was_refused(alloc: Global) -> bool {
    Vec::<u8>::with_capacity(alloc, TELL).is_ok()
}

/// What came of a turn.
#[derive(Clone, Copy)]
enum Outcome {
    /// It asks for memory less often.
    NotRefused,
    /// It was answered all the same.
    Answered,
    /// It was unavailable.
    Unavailable,
}

/// What came of a turn that was answered so, where memory was refused or not: the answer is that of the run, or the turn is
/// unavailable and leaves the Office as it was.
fn judged<K: Keeper>(
    alloc: Global,
    machine: &mut Machine<K>,
    turn: &Turn,
    answer: &Answer,
    refused: bool,
) -> Result<Outcome, Failure> {
    if answer.is_unavailable() {
        check(refused, "a turn is unavailable with ample memory")?;
        turn.check_before(alloc, &mut machine.keeper)?;
        return Ok(Outcome::Unavailable);
    }
    turn.check_answer(alloc, answer)?;
    turn.check_after(alloc, &mut machine.keeper)?;
    Ok(if refused {
        Outcome::Answered
    } else {
        Outcome::NotRefused
    })
}

/// What comes of a turn in which that request for memory is refused.
fn outcome_of<K: Keeper>(
    alloc: Global,
    machine: &mut Machine<K>,
    turn: &Turn,
    number: usize,
) -> Result<Outcome, Failure> {
    refuse(alloc, number)?;
    let answer = turn.question.ask(alloc, machine);
    let refused = was_refused(alloc);
    let outcome = judged(alloc, machine, turn, &answer, refused);
    drop(answer);
    outcome
}

/// A turn after others, in which that request for memory is refused. What was unavailable is answered as in the run when it
/// is sent again.
fn refused_after<K: Keeper>(
    alloc: Global,
    machine: &mut Machine<K>,
    others: &[Turn],
    turn: &Turn,
    number: usize,
) -> Result<Outcome, Failure> {
    for other in others {
        let _ = other.question.is_unavailable(alloc, machine);
    }
    let outcome = outcome_of(alloc, machine, turn, number)?;
    if let Outcome::Unavailable = outcome {
        turn.check_again(alloc, machine)?;
        turn.check_after(alloc, &mut machine.keeper)?;
    }
    Ok(outcome)
}

/// The last of these turns, in which that request for memory is refused, on a new Office after the others.
fn refused_in_last(alloc: Global, turns: &[Turn], number: usize) -> Result<Outcome, Failure> {
    let Some((turn, others)) = turns.split_last() else {
        return Ok(Outcome::NotRefused);
    };
    let mut machine = Machine::new(MemoryKeeper::new(alloc));
    let outcome = refused_after(alloc, &mut machine, others, turn, number);
    drop(machine);
    outcome
}

/// More requests for memory than a turn makes.
const MOST_REQUESTS: usize = 1_000_000;

/// Each request for memory of the last of these turns is refused.
fn try_last(alloc: Global, turns: &[Turn], count: &mut Count) -> Result<(), Failure> {
    for number in 0..MOST_REQUESTS {
        match refused_in_last(alloc, turns, number)? {
            Outcome::NotRefused => return Ok(()),
            Outcome::Answered => count.add(0),
            Outcome::Unavailable => count.add(1),
        }
    }
    Err(Failure::Wrong("a turn asks for memory without end"))
}

/// Each request for memory of each turn is refused.
pub(crate) fn try_refusals(
    alloc: Global,
    turns: &[Turn],
    count: &mut Count,
) -> Result<(), Failure> {
    for last in 0..turns.len() {
        try_last(alloc, turns.get(..=last).unwrap_or(&[]), count)?;
    }
    check(count.points > 0, "no memory was refused")
}
