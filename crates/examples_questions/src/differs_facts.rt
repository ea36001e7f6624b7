//! What differs in the two Offices: first their memberships, then their resources, then the rights.

use crate::checks::check_text;
use crate::differs_offices::{after, before};
use book_office::Keeper;
use book_questions_changes::differences;
use std::alloc::Global;
use std::process::Abort;

/// A resource that is new has each of its lines after `+ `. An owner that differs has a line of each sign, and a list
/// that differs is told whole; the label of the book sales is the same. The ten lines of rights are those of `texts`.
const FORWARD: &str = "- member /groups/staff /people/ann\n\
    + member /groups/staff /people/bob\n\
    + /books/new owner -\n\
    + /books/new label \"\"\n\
    + /books/new  own grant all read\n\
    - /books/sales owner -\n\
    + /books/sales owner /people/ann\n\
    - /books/sales  own grant /groups/staff read\n\
    + /books/sales  own grant /groups/staff read\n\
    + /books/sales  own grant owner bind\n\
    + /people/cyd owner -\n\
    + /people/cyd label \"\"\n\
    gained /books/new nobody read\n\
    gained /books/new /people/ann read\n\
    gained /books/new /people/bob read\n\
    gained /books/new /people/cyd read\n\
    lost /books/sales /people/ann read\n\
    gained /books/sales /people/ann bind\n\
    gained /books/sales /people/bob read\n\
    lost /books/sales/a.vcf of 2 /people/ann read\n\
    gained /books/sales/a.vcf of 2 /people/bob read bind\n\
    gained /books/sales/c.vcf of 1 /people/bob bind\n\
    differs in 22\n";

/// How the second Office differs from the first one.
fn check<K: Keeper + Drop>(rt: &impl Abort, alloc: Global, mut was: K, mut is: K, wanted: &str) {
    let text = differences(alloc, &mut was, &mut is).expect(rt, "memory");
    drop(was);
    drop(is);
    check_text(rt, text.as_str(), wanted);
}

#[test]
fn what_differs_is_told(rt: HostRuntime) {
    let alloc = rt.alloc();
    check(&rt, alloc, before(&rt, alloc), after(&rt, alloc), FORWARD);
}

#[test]
fn one_office_is_unchanged(rt: HostRuntime) {
    let alloc = rt.alloc();
    let (was, is) = (after(&rt, alloc), after(&rt, alloc));
    check(&rt, alloc, was, is, "unchanged\n");
}
