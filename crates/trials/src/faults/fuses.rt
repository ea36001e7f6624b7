//! The list over a store that fails from one call on: behind each fuse, from one that passes no call on to the first that
//! passes all.

use crate::faults::counts::Count;
use crate::faults::failures::{Failure, check};
use crate::faults::runs::Turn;
use book_machine::Machine;
use book_office::{Keeper, MemoryKeeper};
use book_office_faults::Fused;
use std::alloc::Global;

/// Whether the turn is answered, and then as in the run.
fn is_answered<K: Keeper>(
    alloc: Global,
    machine: &mut Machine<K>,
    turn: &Turn,
) -> Result<bool, Failure> {
    let answer = turn.question.ask(alloc, machine);
    let checked = if answer.is_unavailable() {
        Ok(false)
    } else {
        turn.check_answer(alloc, &answer).map(|()| true)
    };
    drop(answer);
    checked
}

/// How many turns are answered before the first that is unavailable. Each answer is that of the run.
fn answered<K: Keeper>(
    alloc: Global,
    machine: &mut Machine<K>,
    turns: &[Turn],
) -> Result<usize, Failure> {
    for (index, turn) in turns.iter().enumerate() {
        if !is_answered(alloc, machine, turn)? {
            return Ok(index);
        }
    }
    Ok(turns.len())
}

/// These turns are unavailable.
fn check_unavailable<K: Keeper>(
    alloc: Global,
    machine: &mut Machine<K>,
    turns: &[Turn],
) -> Result<(), Failure> {
    for turn in turns {
        let is_unavailable = turn.question.is_unavailable(alloc, machine);
        check(is_unavailable, "a turn after the fault is answered")?;
    }
    Ok(())
}

/// These turns are answered as in the run.
fn check_answers<K: Keeper>(
    alloc: Global,
    machine: &mut Machine<K>,
    turns: &[Turn],
) -> Result<(), Failure> {
    for turn in turns {
        turn.check_again(alloc, machine)?;
    }
    Ok(())
}

/// What the keeper has behind the fuse: the Office before the first turn that was unavailable, over which the turns from
/// there on are answered as in the run, up to its last Office.
fn check_kept<K: Keeper>(
    alloc: Global,
    machine: &mut Machine<K>,
    left: &[Turn],
) -> Result<(), Failure> {
    if let Some(first) = left.first() {
        first.check_before(alloc, &mut machine.keeper)?;
    }
    check_answers(alloc, machine, left)?;
    if let Some(last) = left.last() {
        last.check_after(alloc, &mut machine.keeper)?;
    }
    Ok(())
}

/// How many turns of the list are unavailable. Each of them is counted as one failure.
fn failed_turns<K: Keeper>(
    alloc: Global,
    machine: &mut Machine<K>,
    turns: &[Turn],
) -> Result<usize, Failure> {
    let first = answered(alloc, machine, turns)?;
    let left = turns.get(first..).unwrap_or(&[]);
    check_unavailable(alloc, machine, left.get(1..).unwrap_or(&[]))?;
    let failures = machine.keeper.failures();
    check(failures == left.len() as u64, "the faults are not counted")?;
    Ok(left.len())
}

/// Checks what the keeper behind a fuse has.
fn check_behind<K: Keeper + Drop>(alloc: Global, keeper: K, left: &[Turn]) -> Result<(), Failure> {
    let mut machine = Machine::new(keeper);
    check_kept(alloc, &mut machine, left)
}

/// How many turns of the list are unavailable over a keeper, and the keeper.
fn failed_over<K: Keeper + Drop>(
    alloc: Global,
    keeper: K,
    turns: &[Turn],
) -> Result<(usize, K), Failure> {
    let mut machine = Machine::new(keeper);
    let failed = failed_turns(alloc, &mut machine, turns)?;
    Ok((failed, machine.release()))
}

/// The list behind a fuse that passes so many calls on. How many turns were unavailable.
fn unavailable_behind(alloc: Global, turns: &[Turn], calls: u64) -> Result<usize, Failure> {
    let keeper = Fused::new(MemoryKeeper::new(alloc), calls);
    let (failed, keeper) = failed_over(alloc, keeper, turns)?;
    let answered = turns.len().saturating_sub(failed);
    let left = turns.get(answered..).unwrap_or(&[]);
    check_behind(alloc, keeper.into_inner(), left)?;
    Ok(failed)
}

/// More calls than the list makes.
const MOST_CALLS: u64 = 100_000;

/// The list behind each fuse, from one that passes no call on to the first that does not fail.
pub(crate) fn try_fuses(alloc: Global, turns: &[Turn], count: &mut Count) -> Result<(), Failure> {
    for calls in 0..MOST_CALLS {
        let unavailable = unavailable_behind(alloc, turns, calls)?;
        if unavailable == 0 {
            return Ok(());
        }
        count.add(unavailable as u64);
    }
    Err(Failure::Wrong("a fuse fails after all calls"))
}
