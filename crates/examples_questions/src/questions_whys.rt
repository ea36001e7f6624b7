//! Why something is granted or denied. At `/books/sales/b.vcf` the list in force is
//!
//! 1. of `/books/sales` protected, `grant /people/ann all`;
//! 2. of `/books` protected, `deny /people/gus all`;
//! 3. of `/` protected, `grant /people/ann read`;
//! 4. of the card, `deny not /groups/staff read`;
//! 5. of the card, `deny /people/bob write-content`;
//! 6. of `/books/sales`, `grant /groups/crew bind`;
//! 7. of `/books`, `deny /people/bob read`;
//! 8. of `/`, `grant all read bind`;
//!
//! and those of a resource above it have the same order without the ones that stand below it.

use crate::checks::{check_text, check_told};
use crate::questions_offices::machine;
use book_machine::Machine;
use book_office::Keeper;
use book_questions::{question_of, why};
use std::alloc::Global;
use std::process::Abort;

/// The words after the command, and the answer; or the name of a refusal.
type Asked = (&'static str, &'static str);

/// The first entry that applies and holds the leaf decides it: not the first that holds it, nor the last that does both.
const ENTRIES: &[Asked] = &[
    (
        "bob GET /books/sales/b.vcf",
        "denied read at /books/sales/b.vcf by 7\n\
         need read at /books/sales/b.vcf\n \
         x-read-texts denied by 7, 1 at /books\n  own deny /people/bob read\n \
         x-read-names denied by 7, 1 at /books\n  own deny /people/bob read\n",
    ),
    (
        "- GET /books/sales/b.vcf",
        "denied read at /books/sales/b.vcf by 4\n\
         need read at /books/sales/b.vcf\n \
         x-read-texts denied by 4, 1 at /books/sales/b.vcf\n  own deny not /groups/staff read\n \
         x-read-names denied by 4, 1 at /books/sales/b.vcf\n  own deny not /groups/staff read\n",
    ),
    (
        "gus HEAD /books/sales/b.vcf",
        "denied read at /books/sales/b.vcf by 2\n\
         need read at /books/sales/b.vcf\n \
         x-read-texts denied by 2, 1 at /books\n  protected deny /people/gus all\n \
         x-read-names denied by 2, 1 at /books\n  protected deny /people/gus all\n",
    ),
    (
        "ann OPTIONS /books/sales/b.vcf",
        "granted\n\
         need read at /books/sales/b.vcf\n \
         x-read-texts granted by 1, 1 at /books/sales\n  protected grant /people/ann all\n \
         x-read-names granted by 1, 1 at /books/sales\n  protected grant /people/ann all\n",
    ),
    // The second entry of the card's own list.
    (
        "bob PUT /books/sales/b.vcf",
        "denied write-content at /books/sales/b.vcf by 5\n\
         need write-content at /books/sales/b.vcf\n \
         write-content denied by 5, 2 at /books/sales/b.vcf\n  own deny /people/bob write-content\n",
    ),
    // Of the leaves that are not granted, the one whose entry stands first is named.
    (
        "bob all /books/sales/b.vcf",
        "denied write-content at /books/sales/b.vcf by 5\n\
         need all at /books/sales/b.vcf\n \
         x-read-texts denied by 7, 1 at /books\n  own deny /people/bob read\n \
         write-content denied by 5, 2 at /books/sales/b.vcf\n  own deny /people/bob write-content\n \
         write-properties denied, none granted\n \
         bind granted by 6, 1 at /books/sales\n  own grant /groups/crew bind\n  by /people/bob in /groups/staff in /groups/crew\n \
         unbind denied, none granted\n \
         read-acl denied, none granted\n \
         write-acl denied, none granted\n \
         read-current-user-privilege-set denied, none granted\n \
         x-read-names denied by 7, 1 at /books\n  own deny /people/bob read\n",
    ),
    // None decides it.
    (
        "bob ACL /books/sales",
        "denied write-acl at /books/sales, none granted\n\
         need write-acl at /books/sales\n \
         write-acl denied, none granted\n",
    ),
];

/// What a method needs, and where; each need is told, also after one that is denied.
const NEEDS: &[Asked] = &[
    // A new card, at its book.
    (
        "bob PUT /books/sales/new.vcf",
        "granted\n\
         need bind at /books/sales\n \
         bind granted by 4, 1 at /books/sales\n  own grant /groups/crew bind\n  by /people/bob in /groups/staff in /groups/crew\n",
    ),
    (
        "ann DELETE /books/sales",
        "denied unbind at /books, none granted\n\
         need unbind at /books\n \
         unbind denied, none granted\n\
         need unbind at /books/sales\n \
         unbind granted by 1, 1 at /books/sales\n  protected grant /people/ann all\n",
    ),
    // Out of the one book, into the other: here they are one.
    (
        "ann MOVE /books/sales/b.vcf /books/sales/c.vcf",
        "granted\n\
         need unbind at /books/sales\n \
         unbind granted by 1, 1 at /books/sales\n  protected grant /people/ann all\n\
         need bind at /books/sales\n \
         bind granted by 1, 1 at /books/sales\n  protected grant /people/ann all\n",
    ),
    (
        "bob COPY /books/sales/b.vcf /books/sales/c.vcf",
        "denied read at /books/sales/b.vcf by 7\n\
         need read at /books/sales/b.vcf\n \
         x-read-texts denied by 7, 1 at /books\n  own deny /people/bob read\n \
         x-read-names denied by 7, 1 at /books\n  own deny /people/bob read\n\
         need bind at /books/sales\n \
         bind granted by 4, 1 at /books/sales\n  own grant /groups/crew bind\n  by /people/bob in /groups/staff in /groups/crew\n",
    ),
    (
        "- PROPFIND:acl /books",
        "denied read-acl at /books, none granted\n\
         need read read-acl at /books\n \
         x-read-texts granted by 4, 1 at /\n  own grant all read bind\n \
         read-acl denied, none granted\n \
         x-read-names granted by 4, 1 at /\n  own grant all read bind\n",
    ),
    (
        "- PROPFIND:acl,current-user-privilege-set /",
        "denied read-acl at /, none granted\n\
         need read read-acl read-current-user-privilege-set at /\n \
         x-read-texts granted by 2, 1 at /\n  own grant all read bind\n \
         read-acl denied, none granted\n \
         read-current-user-privilege-set denied, none granted\n \
         x-read-names granted by 2, 1 at /\n  own grant all read bind\n",
    ),
    (
        "bob REPORT:names /books/sales",
        "denied x-read-names at /books/sales by 5\n\
         need x-read-names at /books/sales\n \
         x-read-names denied by 5, 1 at /books\n  own deny /people/bob read\n",
    ),
    // A privilege, where something is mapped.
    (
        "gus read /books",
        "denied read at /books by 1\n\
         need read at /books\n \
         x-read-texts denied by 1, 1 at /books\n  protected deny /people/gus all\n \
         x-read-names denied by 1, 1 at /books\n  protected deny /people/gus all\n",
    ),
    (
        "ann bind /",
        "granted\n\
         need bind at /\n \
         bind granted by 2, 1 at /\n  own grant all read bind\n",
    ),
];

/// A request that ends before its needs.
const REFUSALS: &[Asked] = &[
    ("zoe GET /books/sales/b.vcf", "unknown-caller"),
    ("ann GET /books/sales/none.vcf", "not-found"),
    ("ann GET books", "not-found"),
    ("ann PUT /books/none/a.vcf", "no-parent"),
    ("ann PUT /books/sales", "not-allowed"),
    ("ann REPORT:names /books/sales/b.vcf", "not-allowed"),
    ("ann REPORT /books/sales", "bad-request"),
    (
        "ann COPY /books/sales/b.vcf /books/sales/b.vcf",
        "bad-request",
    ),
    ("zoe read /books", "unknown-caller"),
    ("ann read /books/none", "not-found"),
    ("ann LOCK /books", "unknown-privilege"),
    ("ann PROPFIND:owner /books", "unknown-privilege"),
];

/// The word at an index; empty where the line has fewer.
fn word(line: &str, index: usize) -> &str {
    line.split(' ').nth(index).unwrap_or("")
}

/// The bare name of a caller; none at a dash.
fn caller(word: &str) -> Option<&str> {
    match word {
        "-" => None,
        name => Some(name),
    }
}

/// The word of a destination; none where the line has none.
fn destination(word: &str) -> Option<&str> {
    match word {
        "" => None,
        path => Some(path),
    }
}

fn compare<K: Keeper>(
    rt: &impl Abort,
    alloc: Global,
    machine: &mut Machine<K>,
    asked: &str,
    wanted: &str,
) {
    let to = destination(word(asked, 3));
    match question_of(alloc, word(asked, 1), word(asked, 2), to).expect(rt, "memory") {
        None => check_text(rt, "unknown-privilege", wanted),
        Some(question) => {
            let told = why(alloc, machine, caller(word(asked, 0)), &question);
            check_told(rt, told, wanted);
        }
    }
}

fn compare_all(rt: &impl Abort, alloc: Global, table: &[Asked]) {
    let mut machine = machine(rt, alloc);
    for (asked, wanted) in table {
        compare(rt, alloc, &mut machine, asked, wanted);
    }
    drop(machine);
}

#[test]
fn the_first_entry_that_applies_is_told(rt: HostRuntime) {
    compare_all(&rt, rt.alloc(), ENTRIES);
}

#[test]
fn each_need_is_told_with_its_resource(rt: HostRuntime) {
    compare_all(&rt, rt.alloc(), NEEDS);
}

#[test]
fn requests_that_end_before_their_needs_are_refused(rt: HostRuntime) {
    compare_all(&rt, rt.alloc(), REFUSALS);
}
