//! Which rights are lost and gained. In the Office before, ann reads the book sales and its cards, by the group staff. In
//! the one after, bob reads them by that group; ann, who owns the book, may add to it, and bob, who owns the cards, has
//! the same leaf there. The own list of the third card, which is in the Office after alone, denies bob to read it.

use crate::checks::check_text;
use crate::differs_offices::{after, before};
use book_office::Keeper;
use book_questions_differs::rights_differences;
use std::alloc::Global;
use std::process::Abort;

/// Nobody stands first. What is lost stands before what is gained. The two cards with equal owners and lists are told
/// once; the third is told for itself.
const FORWARD: &str = "gained /books/new nobody read\n\
    gained /books/new /people/ann read\n\
    gained /books/new /people/bob read\n\
    gained /books/new /people/cyd read\n\
    lost /books/sales /people/ann read\n\
    gained /books/sales /people/ann bind\n\
    gained /books/sales /people/bob read\n\
    lost /books/sales/a.vcf of 2 /people/ann read\n\
    gained /books/sales/a.vcf of 2 /people/bob read bind\n\
    gained /books/sales/c.vcf of 1 /people/bob bind\n";

/// The other way round, a book, a person and a card are gone.
const BACKWARD: &str = "lost /books/new nobody read\n\
    lost /books/new /people/ann read\n\
    lost /books/new /people/bob read\n\
    lost /books/new /people/cyd read\n\
    lost /books/sales /people/ann bind\n\
    gained /books/sales /people/ann read\n\
    lost /books/sales /people/bob read\n\
    gained /books/sales/a.vcf of 2 /people/ann read\n\
    lost /books/sales/a.vcf of 2 /people/bob read bind\n\
    lost /books/sales/c.vcf of 1 /people/bob bind\n";

/// The rights that the second Office has lost and gained.
fn check<K: Keeper>(rt: &impl Abort, alloc: Global, was: &mut K, is: &mut K, wanted: &str) {
    let text = rights_differences(alloc, was, is).expect(rt, "memory");
    check_text(rt, text.as_str(), wanted);
}

#[test]
fn lost_and_gained_rights_are_told(rt: HostRuntime) {
    let alloc = rt.alloc();
    let mut was = before(&rt, alloc);
    let mut is = after(&rt, alloc);
    check(&rt, alloc, &mut was, &mut is, FORWARD);
    check(&rt, alloc, &mut is, &mut was, BACKWARD);
    drop(was);
    drop(is);
}

#[test]
fn one_office_does_not_differ_from_itself(rt: HostRuntime) {
    let alloc = rt.alloc();
    let mut was = after(&rt, alloc);
    let mut is = after(&rt, alloc);
    check(&rt, alloc, &mut was, &mut is, "");
    drop(was);
    drop(is);
}
