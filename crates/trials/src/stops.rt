//! What a stop leaves of a store. Over a store in memory each kind of edit, and a round of three, is made again and
//! again: first the log and then the database file fails from its call k on, for each k counting from 0 until the file
//! passes every call. What is left tells the Office before the edit or the one after it, and the one after it where the
//! edit was answered `Ok`: once as the program alone stops, so that all that was written is kept, and once as the
//! machine stops, so that what was not synced is lost. Each time the store is then closed and opened once more, and tells
//! the same. Of a round the Office is the one before its first edit or after its last.
//!
//! It prints a line a kind, `NAME: N stops, B before, A after, W wrong`, where B, A and W count both ways of stopping,
//! and last `N stops, W wrong`; the status is 1 where one is wrong. Words name the kinds; without any all are tried.
//! Which Offices are wanted is told by a keeper in memory. The first open of a store, which makes its files, is stopped
//! alike: its line is `first open: N stops, A taken, W wrong`, where what is left opens and takes the tables. The
//! migration of a store of version 1 is tried where no kind or the word `migrate` is given: before it is of version 1
//! and can be migrated; that of a store in the former order by the word `reorder`. The open of a store without `reach`
//! is tried where no kind or the word `open` is given: before it has none; that of a store without its own indexes by
//! the word `indexes`.
//!
//! Read `cases` for what is edited, `crate::disks` for the files, `texts` for what is compared, and then `trials`;
//! `beginnings` has the first open, and `renewals` the migrations and the opens of a store that lacks `reach` or indexes.

mod beginnings;
mod cases;
mod counts;
mod deeds;
mod plans;
mod renewals;
mod texts;
mod trials;

use crate::disks::Disk;
use anyhow::{Context, Result};
use beginnings::stops_of_first_open;
use cases::{CASES, Case};
use counts::Count;
use renewals::{Renewal, stops_of_renewal};
use sqlite_disk::Files;
use std::alloc::Global;
use trials::{start_files, stops_of};

/// The words for what is done to a store that was made by an earlier program, or changed by another one.
const RENEWALS: &[(&str, Renewal)] = &[
    ("migrate", Renewal::Migration),
    ("reorder", Renewal::Reordering),
    ("open", Renewal::Opening),
    ("indexes", Renewal::Indexing),
];

/// Whether a word is one of these.
fn is_renewal(word: &str) -> bool {
    RENEWALS.iter().any(|renewal| renewal.0 == word)
}

/// The kinds of edits that the words name.
fn asked_cases(alloc: Global, words: &[&str]) -> Result<Vec<Case>> {
    let mut asked = Vec::new(alloc);
    for word in words {
        if !is_renewal(word) {
            asked.push(Case::named(word).context("no such kind of edit")?)?;
        }
    }
    Ok(asked)
}

/// Tries the stops of a kind, and prints their line.
fn print_stops(rt: &(impl AllocGlobal + Print), start: &Files<Disk>, case: Case) -> Result<Count> {
    let count = stops_of(rt.alloc(), start, case.plans)?;
    let name = case.name;
    let Count {
        stops,
        before,
        after,
        wrong,
    } = count;
    println!(rt; "{name}: {stops} stops, {before} before, {after} after, {wrong} wrong")?;
    Ok(count)
}

/// Tries the stops of the first open, and prints their line.
fn print_first_stops(rt: &(impl AllocGlobal + Print)) -> Result<Count> {
    let count = stops_of_first_open(rt.alloc())?;
    let (stops, taken, wrong) = (count.stops, count.after, count.wrong);
    println!(rt; "first open: {stops} stops, {taken} taken, {wrong} wrong")?;
    Ok(count)
}

/// Tries the stops of a renewal where the words ask for it, and prints their line.
fn print_renewal_stops(
    rt: &(impl AllocGlobal + Print),
    words: &[&str],
    word: &str,
    renewal: Renewal,
) -> Result<Count> {
    if !words.is_empty() && !words.contains(&word) {
        return Ok(Count::none());
    }
    let count = stops_of_renewal(rt.alloc(), renewal)?;
    let Count {
        stops,
        before,
        after,
        wrong,
    } = count;
    println!(rt; "{word}: {stops} stops, {before} before, {after} after, {wrong} wrong")?;
    Ok(count)
}

/// Tries the stops of each renewal where the words ask for it.
fn print_renewals(rt: &(impl AllocGlobal + Print), words: &[&str]) -> Result<Count> {
    let mut all = Count::none();
    for (word, renewal) in RENEWALS {
        all = all.plus(print_renewal_stops(rt, words, word, *renewal)?);
    }
    Ok(all)
}

/// Tries the stops of each of these kinds.
fn print_each(
    rt: &(impl AllocGlobal + Print),
    start: &Files<Disk>,
    cases: &[Case],
) -> Result<Count> {
    let mut all = Count::none();
    for case in cases {
        all = all.plus(print_stops(rt, start, *case)?);
    }
    Ok(all)
}

/// Tries the stops of the kinds that are asked for, or of all where there is no word.
fn print_asked(rt: &(impl AllocGlobal + Print), words: &[&str], asked: &[Case]) -> Result<Count> {
    let cases = if words.is_empty() { CASES } else { asked };
    let start = start_files(rt.alloc())?;
    let count = print_each(rt, &start, cases);
    drop(start);
    count
}

/// Tries the stops of the kinds that the words name, or of all where there is no word, and prints what they left:
/// whether nothing is wrong.
pub(crate) fn try_stops(rt: &(impl AllocGlobal + Print), words: &[&str]) -> Result<bool> {
    let asked = asked_cases(rt.alloc(), words)?;
    let first = print_first_stops(rt)?;
    let renewals = print_renewals(rt, words)?;
    let asked = print_asked(rt, words, asked.as_slice())?;
    let all = first.plus(renewals).plus(asked);
    let (stops, wrong) = (all.stops, all.wrong);
    println!(rt; "{stops} stops, {wrong} wrong")?;
    Ok(wrong == 0)
}
