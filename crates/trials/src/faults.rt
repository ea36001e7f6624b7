//! A worked list of requests and adoptions over a store that begins to fail, and with memory refused.
//!
//! First the list is taken with nothing failing, and its answers are compared to those worked out by hand. Then comes what the
//! words name, `store`, `memory` or both; without words it is `store`.
//!
//! - `store`: the list behind each fuse, from one that passes no call on to the first that passes all. The answers are those
//!   of the run, then `unavailable` alone, and the Office is as it was before the first of these.
//! - `memory`: in each turn each request for memory is refused once. The turn is answered as in the run, or is unavailable
//!   and leaves the Office as it was; sent again, it is answered as in the run.
//!
//! It prints a line for each, with the points that were tried; the status is 1 where something is wrong.
//!
//! Read `worked_list` first, then `turns` and `runs`, and then `fuses` and `refusals`.

mod counts;
mod failures;
mod fuses;
mod refusals;
mod requests;
mod runs;
mod turns;
mod worked_list;

use book_machine::Machine;
use book_office::{Items, MemoryKeeper};
use counts::Count;
use failures::{Failure, check};
use fuses::try_fuses;
use refusals::try_refusals;
use runs::{Turn, take_list};
use std::alloc::Global;
use std::io;

/// The list over a new Office in memory, with nothing failing.
fn take_list_in_memory(alloc: Global) -> Result<Items<Turn>, Failure> {
    let mut machine = Machine::new(MemoryKeeper::new(alloc));
    let turns = take_list(alloc, &mut machine);
    drop(machine);
    turns
}

/// Prints the answers that are not those of the examples; how many there are.
fn print_wrong_answers(rt: &impl Print, turns: &[Turn]) -> io::Result<usize> {
    let mut wrong = 0usize;
    for (index, turn) in turns.iter().enumerate() {
        if !turn.is_right {
            wrong = wrong.saturating_add(1);
            let (number, word) = (turn.answer.number, turn.answer.word);
            println!(rt; "turn {index}: {number} {word}")?;
        }
    }
    Ok(wrong)
}

/// Prints how many turns the list has, and ends where an answer is not that of the examples.
fn print_list(rt: &impl Print, turns: &[Turn]) -> Result<(), Failure> {
    let wrong = print_wrong_answers(rt, turns)?;
    let count = turns.len();
    println!(rt; "list: {count} turns, {wrong} wrong")?;
    check(wrong == 0, "the list is not answered as the examples are")
}

/// Prints what was tried.
fn print_count(rt: &impl Print, word: &str, count: Count) -> io::Result<()> {
    let Count {
        points,
        unavailable,
    } = count;
    println!(rt; "{word}: {points} points, {unavailable} answers unavailable, 0 wrong")
}

/// Tries the failures that the word names, and prints what was tried, up to the first point that is wrong.
fn try_word(rt: &(impl AllocGlobal + Print), turns: &[Turn], word: &str) -> Result<(), Failure> {
    let mut count = Count::none();
    let tried = match word {
        "store" => try_fuses(rt.alloc(), turns, &mut count),
        "memory" => try_refusals(rt.alloc(), turns, &mut count),
        _ => Err(Failure::Wrong("the words are store and memory")),
    };
    match tried {
        Ok(()) => Ok(print_count(rt, word, count)?),
        Err(failure) => {
            let points = count.points;
            println!(rt; "{word}: wrong after {points} points")?;
            Err(failure)
        }
    }
}

/// Tries what the words name, after the list was taken; `store` where there are none.
fn try_each(
    rt: &(impl AllocGlobal + Print),
    turns: &[Turn],
    words: &[&str],
) -> Result<(), Failure> {
    print_list(rt, turns)?;
    if words.is_empty() {
        return try_word(rt, turns, "store");
    }
    for word in words {
        try_word(rt, turns, word)?;
    }
    Ok(())
}

/// The list, and then what the words name.
fn try_words(rt: &(impl AllocGlobal + Print), words: &[&str]) -> Result<(), Failure> {
    let turns = take_list_in_memory(rt.alloc())?;
    try_each(rt, turns.as_slice(), words)
}

/// Tries the failures that the words name, and prints what was tried, or why it ended: whether nothing is wrong.
pub(crate) fn try_faults(rt: &(impl AllocGlobal + Print), words: &[&str]) -> bool {
    match try_words(rt, words) {
        Ok(()) => true,
        Err(failure) => {
            let text = failure.text();
            let _ = println!(rt; "{text}");
            false
        }
    }
}
