//! One Office, three keepers: the same requests over a keeper in memory, over tables on two disks, and over such tables
//! behind a cache, which are closed and opened again; and whether the replies are the same, byte for byte, and none
//! of them says that the store failed. It prints how many replies there are, how many differ, and how many are
//! `unavailable`; the same of the questions about the Office that is left; and how many replies there are of each status.
//!
//! That each keeper tells what the Office has is proved but where memory is refused or the store fails, which no contract
//! rules out: here neither comes. Read `requests`, `steps` and `keepers` first, which say what is done; then `worked`,
//! `chosen` and `questions`, which have what is asked; and `comparing`.

mod chosen;
mod comparing;
mod keepers;
mod questions;
mod requests;
mod steps;
mod worked;

use anyhow::Result;
use chosen::chosen_steps;
use comparing::{compare, count_of};
use keepers::{Told, told_by_disks, told_by_memory, told_by_tables};
use std::alloc::Global;
use steps::{Step, steps_of};
use worked::{BOOKS, CARDS, MEMBERS, Part};

/// The statuses of replies (RFC 9110, section 15; RFC 4918, section 11).
const STATUSES: [&str; 13] = [
    "200", "201", "204", "207", "400", "403", "404", "405", "409", "412", "415", "503", "507",
];

/// The status of a reply where memory is refused or the store fails.
const UNAVAILABLE: &str = "503";

/// Prints how what a keeper told compares with what is wanted.
fn print_comparison(rt: &impl Print, name: &str, wanted: &Told, told: &Told) -> Result<()> {
    let compared = compare(wanted.steps.as_str(), told.steps.as_str());
    let unavailable = count_of(told.steps.as_str(), UNAVAILABLE);
    println!(rt;
        "  {name}: {} requests, {} differ, {unavailable} unavailable",
        compared.replies, compared.differ
    )?;
    let compared = compare(wanted.left.as_str(), told.left.as_str());
    println!(rt;
        "  what they leave: {} questions, {} differ",
        compared.replies, compared.differ
    )?;
    Ok(())
}

/// Prints how many replies have each status.
fn print_statuses(rt: &impl Print, told: &str) -> Result<()> {
    print!(rt; "  statuses:")?;
    for status in STATUSES {
        let count = count_of(told, status);
        if count > 0 {
            print!(rt; " {count} of {status}")?;
        }
    }
    println!(rt; "")?;
    Ok(())
}

/// Takes the steps over each keeper, and prints how what they tell compares.
fn compare_keepers(rt: &impl Print, alloc: Global, name: &str, steps: &[Step]) -> Result<()> {
    println!(rt; "{name}")?;
    let memory = told_by_memory(alloc, steps)?;
    print_statuses(rt, memory.steps.as_str())?;
    let tables = told_by_tables(alloc, steps)?;
    print_comparison(rt, "tables on disks", &memory, &tables)?;
    let disks = told_by_disks(alloc, steps)?;
    print_comparison(rt, "tables on disks behind a cache", &memory, &disks)
}

fn compare_worked(rt: &impl Print, alloc: Global, name: &str, parts: &[Part<'_>]) -> Result<()> {
    let steps = steps_of(alloc, parts)?;
    compare_keepers(rt, alloc, name, steps.as_slice())
}

/// Takes the worked steps and those that are chosen by numbers over each keeper, and prints how what they tell compares.
pub(crate) fn compare_all(rt: &(impl AllocGlobal + Print)) -> Result<()> {
    let alloc = rt.alloc();
    compare_worked(rt, alloc, "cards, lists and reports", CARDS)?;
    compare_worked(rt, alloc, "a book that comes and goes", BOOKS)?;
    compare_worked(rt, alloc, "lists and members", MEMBERS)?;
    let steps = chosen_steps(alloc)?;
    compare_keepers(rt, alloc, "chosen by numbers", steps.as_slice())
}
