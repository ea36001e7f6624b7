//! The lines that are told of entries, openings and gains of a policy, compared with those that are wanted.

use crate::checks::check_text;
use book_office_values::Items;
use book_policy::read_policy;
use book_policy_warnings::{Warning, warnings_of};
use std::alloc::Global;
use std::process::Abort;

/// Entries that a policy has more, and the lines that are told.
pub(crate) type Example = (&'static str, &'static str);

/// The lines of gains among warnings, or those of entries and openings.
fn told_of(rt: &impl Abort, alloc: Global, warnings: Items<Warning>, gains: bool) -> String {
    let mut told = String::new(alloc);
    for warning in warnings.as_slice() {
        let wanted = match warning {
            Warning::NeverDecides(_) | Warning::Opens(_) => !gains,
            Warning::LeavesOpen(_) => false,
            Warning::Gets(_) => gains,
        };
        if wanted {
            warning.push_line(alloc, &mut told).expect(rt, "memory");
        }
    }
    drop(warnings);
    told
}

/// The lines of the policy of both texts: those of gains, or those of entries and openings.
fn lines(rt: &impl Abort, alloc: Global, front: &str, more: &str, gains: bool) -> String {
    let text = format!(in alloc; "{front}{more}").expect(rt, "memory");
    let policy = read_policy(alloc, text.as_str()).expect(rt, "a policy");
    let warnings = warnings_of(alloc, &policy).expect(rt, "memory");
    drop(policy);
    told_of(rt, alloc, warnings, gains)
}

/// Compares what is told of entries and openings of the policy of both texts.
pub(crate) fn compare(rt: &impl Abort, alloc: Global, front: &str, example: &Example) {
    let (more, wanted) = *example;
    let told = lines(rt, alloc, front, more, false);
    check_text(rt, told.as_str(), wanted);
}

/// Compares what is told of gains of the policy of both texts.
pub(crate) fn compare_gains(rt: &impl Abort, alloc: Global, front: &str, example: &Example) {
    let (more, wanted) = *example;
    let told = lines(rt, alloc, front, more, true);
    check_text(rt, told.as_str(), wanted);
}
