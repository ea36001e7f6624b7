//! Entries and sets of leaves, read from lines of examples.
//!
//! A line of an entry is `grant` or `deny`, its form, the names of its privileges, and its marks, as
//! `deny not:/groups/staff read+bind protected inherited`. Privileges are joined by `+`, and `-` stands for none.

use book_lists::{Entry, Principal, Submitted, Who};
use book_rights::{LeafSet, Privilege};
use std::alloc::Global;
use std::process::Abort;

/// The word at an index; empty where the line has fewer.
pub(crate) fn word(line: &str, index: usize) -> &str {
    line.split(' ').nth(index).unwrap_or("")
}

/// The principal with a path; none where it has no such form.
pub(crate) fn principal(rt: &impl Abort, alloc: Global, path: &str) -> Option<Principal> {
    Principal::parse(alloc, path).expect(rt, "memory")
}

/// The leaves of the privileges; none where a name is no privilege.
pub(crate) fn leaves(names: &str) -> Option<LeafSet> {
    let mut set = LeafSet::empty();
    if names == "-" {
        return Some(set);
    }
    for name in names.split('+') {
        set = set.union(Privilege::from_name(name)?.leaves());
    }
    Some(set)
}

fn who(rt: &impl Abort, alloc: Global, form: &str) -> Option<Who> {
    Some(match form {
        "all" => Who::Everyone,
        "authenticated" => Who::Authenticated,
        "unauthenticated" => Who::Unauthenticated,
        "owner" => Who::Owner,
        "self" => Who::Own,
        path => Who::Href(principal(rt, alloc, path)?),
    })
}

/// The entry of a line, before it is checked.
pub(crate) fn submitted(rt: &impl Abort, alloc: Global, line: &str) -> Submitted {
    let form = word(line, 1);
    let plain = form.strip_prefix("not:");
    Submitted {
        who: who(rt, alloc, plain.unwrap_or(form)),
        invert: plain.is_some(),
        deny: word(line, 0) == "deny",
        set: leaves(word(line, 2)),
        protected: line.contains(" protected"),
        inherited: line.contains(" inherited"),
    }
}

fn entry(rt: &impl Abort, alloc: Global, line: &str) -> Entry {
    let submitted = submitted(rt, alloc, line);
    Entry {
        who: submitted.who.expect(rt, "a form"),
        invert: submitted.invert,
        deny: submitted.deny,
        set: submitted.set.expect(rt, "privileges"),
    }
}

/// The entries of a text with one in each line; none of the empty text.
pub(crate) fn entries(rt: &impl Abort, alloc: Global, text: &str) -> Vec<Entry> {
    let mut entries = Vec::new(alloc);
    for line in text.split('\n') {
        if !line.is_empty() {
            entries.push(entry(rt, alloc, line)).expect(rt, "memory");
        }
    }
    entries
}
