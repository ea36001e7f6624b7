//! Privileges, their leaves, and what each method needs.

use crate::checks::{check_fact, check_text};
use book_rights::{Leaf, LeafSet, Method, Need, Privilege, Shape, needs};
use std::alloc::Global;
use std::process::Abort;

/// The leaves of a set, each after a space, in their order (RFC 3744, section 3).
fn tell_leaves(rt: &impl Abort, answer: &mut String, set: LeafSet) {
    for leaf in Leaf::ALL {
        if set.has(leaf) {
            answer.push(' ').expect(rt, "memory");
            answer.push_str(leaf.name()).expect(rt, "memory");
        }
    }
}

/// Each name, and the leaves that the privilege holds (RFC 3744, section 3.12; own profile).
const PRIVILEGES: &[(&str, &str)] = &[
    ("x-read-texts", " x-read-texts"),
    ("write-content", " write-content"),
    ("write-properties", " write-properties"),
    ("bind", " bind"),
    ("unbind", " unbind"),
    ("read-acl", " read-acl"),
    ("write-acl", " write-acl"),
    (
        "read-current-user-privilege-set",
        " read-current-user-privilege-set",
    ),
    ("x-read-names", " x-read-names"),
    ("read", " x-read-texts x-read-names"),
    ("write", " write-content write-properties bind unbind"),
    (
        "all",
        " x-read-texts write-content write-properties bind unbind read-acl write-acl read-current-user-privilege-set \
         x-read-names",
    ),
];

fn check_privilege(rt: &impl Abort, alloc: Global, name: &str, leaves: &str) {
    let privilege = Privilege::from_name(name).expect(rt, name);
    check_text(rt, privilege.name(), name, name);
    let mut answer = String::new(alloc);
    tell_leaves(rt, &mut answer, privilege.leaves());
    check_text(rt, answer.as_str(), leaves, name);
}

#[test]
fn privileges_hold_their_leaves(rt: HostRuntime) {
    for (name, leaves) in PRIVILEGES {
        check_privilege(&rt, rt.alloc(), name, leaves);
    }
    for name in ["unlock", "Read", ""] {
        check_fact(&rt, Privilege::from_name(name).is_none(), name);
    }
}

#[test]
fn sets_of_leaves_are_sets(rt: HostRuntime) {
    let write = Privilege::Write.leaves();
    check_fact(&rt, write.least() == Some(Leaf::WriteContent), "write");
    check_fact(&rt, LeafSet::empty().least().is_none(), "no leaf");
    let others = LeafSet::all().minus(write);
    let meets = others.meets(write) || !others.meets(LeafSet::all());
    check_fact(&rt, !meets, "other leaves");
    check_fact(&rt, others.union(write) == LeafSet::all(), "a union");
    check_fact(&rt, others.with(Leaf::Bind) != LeafSet::all(), "one more");
}

/// What is asked, what the needs depend on, and the needs: a line for each, with its place and its leaves.
const NEEDS: &[(Method, &str, &str)] = &[
    (Method::Get, "target", "Target x-read-texts x-read-names\n"),
    (Method::Head, "target", "Target x-read-texts x-read-names\n"),
    (
        Method::Options,
        "target",
        "Target x-read-texts x-read-names\n",
    ),
    (Method::Put, "", "Parent bind\n"),
    (Method::Put, "target", "Target write-content\n"),
    (
        Method::Propfind,
        "target",
        "Target x-read-texts x-read-names\n",
    ),
    (
        Method::Propfind,
        "target acl",
        "Target x-read-texts read-acl x-read-names\n",
    ),
    (
        Method::Propfind,
        "target privileges",
        "Target x-read-texts read-current-user-privilege-set x-read-names\n",
    ),
    (
        Method::Propfind,
        "target acl privileges",
        "Target x-read-texts read-acl read-current-user-privilege-set x-read-names\n",
    ),
    (Method::Proppatch, "target", "Target write-properties\n"),
    (Method::Acl, "target", "Target write-acl\n"),
    (
        Method::Copy,
        "target",
        "Target x-read-texts x-read-names\nDestinationParent bind\n",
    ),
    (
        Method::Copy,
        "target destination",
        "Target x-read-texts x-read-names\nDestination write-content write-properties\n",
    ),
    (
        Method::Move,
        "target",
        "Parent unbind\nDestinationParent bind\n",
    ),
    (
        Method::Move,
        "target destination",
        "Parent unbind\nDestinationParent bind\nDestinationParent unbind\n",
    ),
    (Method::Delete, "target", "Parent unbind\n"),
    (
        Method::Delete,
        "target book",
        "Parent unbind\nTarget unbind\n",
    ),
    (Method::Mkcol, "", "Parent bind\n"),
    (
        Method::Report,
        "target",
        "Target x-read-texts x-read-names\n",
    ),
    (
        Method::Report,
        "target book",
        "Target x-read-texts x-read-names\n",
    ),
    (
        Method::Report,
        "target effective",
        "Target x-read-texts read-acl x-read-names\n",
    ),
    (Method::Report, "target book names", "Target x-read-names\n"),
];

fn shape(flags: &str) -> Shape {
    Shape {
        target_mapped: flags.contains("target"),
        destination_mapped: flags.contains("destination"),
        book: flags.contains("book"),
        acl: flags.contains("acl"),
        privileges: flags.contains("privileges"),
        effective: flags.contains("effective"),
        names: flags.contains("names"),
    }
}

fn tell_need(rt: &impl Abort, answer: &mut String, need: Need) {
    let place = need.place;
    write!(answer, "{place:?}").expect(rt, "memory");
    tell_leaves(rt, answer, need.set);
    answer.push('\n').expect(rt, "memory");
}

fn told_needs(rt: &impl Abort, alloc: Global, method: Method, shape: Shape) -> String {
    let mut answer = String::new(alloc);
    let found = needs(method, shape);
    tell_need(rt, &mut answer, found.first);
    if let Some((second, third)) = found.others {
        tell_need(rt, &mut answer, second);
        if let Some(third) = third {
            tell_need(rt, &mut answer, third);
        }
    }
    answer
}

/// Each row of the table (RFC 3744, appendix B; COPY, DELETE of a book and the reports effective and names are own profile).
#[test]
fn methods_need_their_rows(rt: HostRuntime) {
    for (method, flags, wanted) in NEEDS {
        let told = told_needs(&rt, rt.alloc(), *method, shape(flags));
        check_text(&rt, told.as_str(), wanted, flags);
    }
}
