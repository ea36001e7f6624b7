//! Scripts: lines that say what is asked of a machine and its keeper, each with the answer that is wanted.
//!
//! A line is one of these, with single spaces between its words:
//!
//! - a request: `CALLER METHOD PATH BODY`, where `-` is nobody and the body is said as in `bodies`, or a COPY or MOVE as
//!   in `moves`;
//! - a policy to adopt: `adopt NAME`, named in `policies`;
//! - a question to the keeper: `node PATH`, `children PATH`, `lists PATH`, `effective PATH`, `changes BOOK NUMBER`,
//!   `cards BOOK NUMBER` or `cards BOOK NUMBER MOST`, `epoch`, `failures`, `pairs` or `belongs PERSON PRINCIPAL`;
//! - an edit: `put BOOK CARD OWNER TEXT`, `remove BOOK CARD`, `copy BOOK CARD BOOK CARD OWNER`,
//!   `move BOOK CARD BOOK CARD`, `add BOOK OWNER` or `take BOOK`, where `-` is no owner; `label PATH LABEL`,
//!   `list PATH grant WHO NAME ..` or `members GROUP MEMBER ..`, where nothing after the path or the group is the empty
//!   label, the empty list or no member.

use crate::asking::ask;
use crate::checks::check_text;
use crate::edits::make;
use crate::offices::office;
use crate::policies::{adopted, policy};
use crate::serving::served;
use crate::words::word;
use book_machine::Machine;
use book_office::{Keeper, MemoryKeeper};
use std::alloc::Global;
use std::process::Abort;

/// A line, and its answer.
pub(crate) type Step = (&'static str, &'static str);

/// Adopts the policy of this name, and tells what came of it.
fn adopt<K: Keeper>(
    rt: &impl Abort,
    alloc: Global,
    machine: &mut Machine<K>,
    name: &str,
) -> String {
    let policy = policy(rt, alloc, name);
    let told = adopted(rt, alloc, machine, &policy);
    drop(policy);
    told
}

pub(crate) fn answer<K: Keeper>(
    rt: &impl Abort,
    alloc: Global,
    machine: &mut Machine<K>,
    line: &str,
) -> String {
    match word(line, 0) {
        "adopt" => adopt(rt, alloc, machine, word(line, 1)),
        "node"
        | "children"
        | "lists"
        | "effective"
        | "changes"
        | "cards"
        | "epoch"
        | "failures"
        | "pairs"
        | "belongs" => ask(rt, alloc, &mut machine.keeper, line),
        "put" | "remove" | "copy" | "move" | "add" | "take" | "label" | "list" | "members" => {
            make(rt, alloc, &mut machine.keeper, line)
        }
        _ => served(rt, alloc, machine, line),
    }
}

fn check<K: Keeper>(
    rt: &impl Abort,
    alloc: Global,
    machine: &mut Machine<K>,
    line: &str,
    wanted: &str,
) {
    let told = answer(rt, alloc, machine, line);
    check_text(rt, told.as_str(), wanted, line);
}

/// Takes the steps in turn.
pub(crate) fn follow<K: Keeper>(
    rt: &impl Abort,
    alloc: Global,
    machine: &mut Machine<K>,
    steps: &[Step],
) {
    for (line, wanted) in steps {
        check(rt, alloc, machine, line, wanted);
    }
}

fn run_over<K: Keeper + Drop>(rt: &impl Abort, alloc: Global, keeper: K, steps: &[Step]) {
    let mut machine = Machine::new(keeper);
    follow(rt, alloc, &mut machine, steps);
    drop(machine);
}

/// Takes the steps on a new Office.
pub(crate) fn run_on_new(rt: &impl Abort, alloc: Global, steps: &[Step]) {
    run_over(rt, alloc, MemoryKeeper::new(alloc), steps);
}

/// Takes the steps on the Office of the examples with these lines.
pub(crate) fn run_on(rt: &impl Abort, alloc: Global, lines: &[&str], steps: &[Step]) {
    let office = office(rt, alloc, lines);
    run_over(rt, alloc, MemoryKeeper::from_office(office), steps);
}
