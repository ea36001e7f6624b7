//! Edits of an access list, accepted and refused (RFC 3744, sections 8.1 and 8.1.1).

use crate::checks::check_fact;
use crate::entry_lines::{entries, submitted};
use book_lists::{EditFault, Entry, Submitted, Who, check_edit};
use book_rights::{Leaf, LeafSet, Privilege};
use std::alloc::Global;
use std::process::Abort;

/// The protected entries in force, but where a test says otherwise.
const PROTECTED: &str = "grant /people/ann all\ndeny not:/groups/staff read+bind\ndeny all unbind";

/// A list, and why it is refused where those entries are in force; none where it is accepted.
const EDITS: &[(&str, Option<EditFault>)] = &[
    ("", None),
    (
        "grant /people/bob write\ndeny not:owner read\ngrant self read",
        None,
    ),
    // each fault of one entry
    (
        "grant all read protected",
        Some(EditFault::NoProtectedAceConflict),
    ),
    (
        "grant all read inherited",
        Some(EditFault::NoInheritedAceConflict),
    ),
    ("grant all fly", Some(EditFault::NotSupportedPrivilege)),
    ("grant all read+fly", Some(EditFault::NotSupportedPrivilege)),
    ("grant nobody read", Some(EditFault::RecognizedPrincipal)),
    (
        "deny not:/books/law read",
        Some(EditFault::RecognizedPrincipal),
    ),
    // of two faults of one entry the least, for each two that are neighbours
    (
        "grant all read protected inherited",
        Some(EditFault::NoProtectedAceConflict),
    ),
    (
        "grant all unbind inherited",
        Some(EditFault::NoProtectedAceConflict),
    ),
    (
        "grant all fly inherited",
        Some(EditFault::NoInheritedAceConflict),
    ),
    ("grant nobody fly", Some(EditFault::NotSupportedPrivilege)),
    // the first entry with a fault decides, also where a later one has a lesser fault
    (
        "grant nobody read\ngrant all fly",
        Some(EditFault::RecognizedPrincipal),
    ),
    (
        "grant all fly\ngrant all read inherited",
        Some(EditFault::NotSupportedPrivilege),
    ),
    (
        "grant self read\ngrant all read inherited\ngrant all unbind",
        Some(EditFault::NoInheritedAceConflict),
    ),
    (
        "grant self read\ngrant self read\ngrant all unbind",
        Some(EditFault::NoProtectedAceConflict),
    ),
];

/// Entries that clash with a protected one, and the same with the path or form, the inversion, the action or the leaves
/// turned.
const CLASHES: &[(&str, Option<EditFault>)] = &[
    (
        "deny /people/ann read",
        Some(EditFault::NoProtectedAceConflict),
    ),
    ("deny /people/bob read", None),
    ("deny /groups/ann read", None),
    ("deny not:/people/ann read", None),
    ("grant /people/ann read", None),
    ("deny /people/ann -", None),
    (
        "grant not:/groups/staff bind+write-acl",
        Some(EditFault::NoProtectedAceConflict),
    ),
    ("grant not:/groups/crew bind+write-acl", None),
    ("grant /groups/staff bind+write-acl", None),
    ("deny not:/groups/staff bind+write-acl", None),
    ("grant not:/groups/staff unbind+write-acl", None),
    ("grant all write", Some(EditFault::NoProtectedAceConflict)),
    ("grant authenticated write", None),
    ("grant not:all write", None),
    ("deny all write", None),
    ("grant all bind", None),
    // a name that is no privilege, or a principal that is none, clashes with nothing
    (
        "deny /people/ann read+fly",
        Some(EditFault::NotSupportedPrivilege),
    ),
    ("deny nobody read", Some(EditFault::RecognizedPrincipal)),
];

/// The entries of a text with one in each line; none of the empty text.
fn list(rt: &impl Abort, alloc: Global, text: &str) -> Vec<Submitted> {
    let mut list = Vec::new(alloc);
    for line in text.split('\n') {
        if !line.is_empty() {
            list.push(submitted(rt, alloc, line)).expect(rt, "memory");
        }
    }
    list
}

fn check(
    rt: &impl Abort,
    alloc: Global,
    protected: &[Entry],
    text: &str,
    wanted: Option<EditFault>,
) {
    let list = list(rt, alloc, text);
    let answer = check_edit(list.as_slice(), protected);
    check_fact(rt, answer.err() == wanted, text);
}

#[test]
fn edits_are_checked(rt: HostRuntime) {
    let protected = entries(&rt, rt.alloc(), PROTECTED);
    for (text, wanted) in EDITS {
        check(&rt, rt.alloc(), protected.as_slice(), text, *wanted);
    }
}

#[test]
fn protected_entries_clash(rt: HostRuntime) {
    let protected = entries(&rt, rt.alloc(), PROTECTED);
    for (text, wanted) in CLASHES {
        check(&rt, rt.alloc(), protected.as_slice(), text, *wanted);
    }
    // where no protected entry is in force, nothing clashes
    check(&rt, rt.alloc(), &[], "deny /people/ann read", None);
}

/// How often `grant self read` stands, a last line, and why the list is refused.
const COUNTED: &[(usize, &str, Option<EditFault>)] = &[
    (64, "", None),
    (65, "", Some(EditFault::LimitedNumberOfAces)),
    (
        63,
        "grant nobody read",
        Some(EditFault::RecognizedPrincipal),
    ),
    // a list that is too long is told before each fault of an entry
    (
        64,
        "grant nobody read",
        Some(EditFault::LimitedNumberOfAces),
    ),
    (64, "grant all fly", Some(EditFault::LimitedNumberOfAces)),
    (
        64,
        "grant all read inherited",
        Some(EditFault::LimitedNumberOfAces),
    ),
    (
        64,
        "grant all read protected",
        Some(EditFault::LimitedNumberOfAces),
    ),
];

fn repeated(rt: &impl Abort, alloc: Global, times: usize, last: &str) -> String {
    let mut text = String::new(alloc);
    for _ in 0..times {
        text.push_str("grant self read\n").expect(rt, "memory");
    }
    text.push_str(last).expect(rt, "memory");
    text
}

#[test]
fn entries_of_an_edit_are_counted(rt: HostRuntime) {
    for (times, last, wanted) in COUNTED {
        let text = repeated(&rt, rt.alloc(), *times, last);
        check(&rt, rt.alloc(), &[], text.as_str(), *wanted);
    }
}

/// An entry that is accepted is kept without its marks; one with an unknown principal or privilege is none.
#[test]
fn submitted_entries_become_entries(rt: HostRuntime) {
    let line = "deny not:owner read+bind protected inherited";
    let wanted = Entry {
        who: Who::Owner,
        invert: true,
        deny: true,
        set: Privilege::Read.leaves().with(Leaf::Bind),
    };
    let entry = submitted(&rt, rt.alloc(), line).into_entry();
    check_fact(&rt, entry == Some(wanted), line);
    let wanted = Entry {
        who: Who::Everyone,
        invert: false,
        deny: false,
        set: LeafSet::all(),
    };
    let entry = submitted(&rt, rt.alloc(), "grant all all").into_entry();
    check_fact(&rt, entry == Some(wanted), "grant all all");
    for line in ["grant nobody read", "grant all fly", "grant nobody fly"] {
        let entry = submitted(&rt, rt.alloc(), line).into_entry();
        check_fact(&rt, entry.is_none(), line);
    }
}
