//! Names, principals, memberships, entries and decisions.

use crate::checks::{check_fact, check_text};
use book_lists::{
    Caller, Circle, Entry, Here, Name, Outcome, Pairs, Principal, Who, applies, closure, decide,
    expand, granted, reached_in,
};
use book_rights::{Leaf, LeafSet, Privilege};
use std::alloc::{AllocError, Global};
use std::process::Abort;

/// 64 bytes.
pub(crate) const LONGEST: &str = "abcdefghijklmnopqrstuvwxyzABCDEFGHIJKLMNOPQRSTUVWXYZ0123456789._";

/// 65 bytes.
pub(crate) const TOO_LONG: &str =
    "abcdefghijklmnopqrstuvwxyzABCDEFGHIJKLMNOPQRSTUVWXYZ0123456789._-";

fn check_name(rt: &impl Abort, alloc: Global, text: &str, is_name: bool) {
    let name = Name::parse(alloc, text).expect(rt, "memory");
    let expected = if is_name { Some(text) } else { None };
    let told = name.as_ref().map(|n| n.text());
    check_fact(rt, told == expected, text);
}

/// A text, and whether it is a name.
const NAMES: &[(&str, bool)] = &[
    ("ann", true),
    ("a.b_c-1.", true),
    ("-", true),
    (LONGEST, true),
    (TOO_LONG, false),
    ("", false),
    (".ann", false),
    ("an n", false),
    ("ann/", false),
    ("a+b", false),
    ("änn", false),
];

#[test]
fn names_are_read(rt: HostRuntime) {
    check_fact(&rt, LONGEST.len() == 64 && TOO_LONG.len() == 65, "lengths");
    for (text, is_name) in NAMES {
        check_name(&rt, rt.alloc(), text, *is_name);
    }
}

fn check_principal(rt: &impl Abort, alloc: Global, text: &str, path: Option<&str>) {
    let principal = Principal::parse(alloc, text).expect(rt, "memory");
    let told = principal.as_ref().map(|p| p.text());
    check_fact(rt, told == path, text);
}

/// A text, and the path of its principal.
const PRINCIPALS: &[(&str, Option<&str>)] = &[
    ("/people/ann", Some("/people/ann")),
    ("/people/ann/", Some("/people/ann")),
    ("/groups/a_b-c.1", Some("/groups/a_b-c.1")),
    ("/people/ann//", None),
    ("/people/", None),
    ("/people/.ann", None),
    ("/people/an n", None),
    ("/people/ann/card", None),
    ("/books/sales", None),
    ("people/ann", None),
    ("", None),
];

#[test]
fn paths_of_principals_are_read(rt: HostRuntime) {
    for (text, path) in PRINCIPALS {
        check_principal(&rt, rt.alloc(), text, *path);
    }
    for (name, is_one) in [(LONGEST, true), (TOO_LONG, false)] {
        let path = format!(in rt.alloc(); "/people/{name}").expect(&rt, "memory");
        let read = if is_one { Some(path.as_str()) } else { None };
        check_principal(&rt, rt.alloc(), path.as_str(), read);
    }
}

/// A copy, which may want memory.
fn copied<T: Clone>(rt: &impl Abort, value: &T) -> T {
    let copy: Result<T, AllocError> = value.clone();
    copy.expect(rt, "memory")
}

fn named(rt: &impl Abort, alloc: Global, path: &str) -> Principal {
    Principal::parse(alloc, path)
        .expect(rt, "memory")
        .expect(rt, "a principal")
}

#[test]
fn names_make_principals(rt: HostRuntime) {
    let alloc = rt.alloc();
    let ann = Name::parse(alloc, "ann").expect(&rt, "memory");
    let ann = ann.expect(&rt, "a name");
    let person = Principal::person(alloc, &ann).expect(&rt, "memory");
    let group = Principal::group(alloc, &ann).expect(&rt, "memory");
    check_text(&rt, person.text(), "/people/ann", "a person");
    check_text(&rt, group.text(), "/groups/ann", "a group");
    let are_told_apart = group.is_group() && !person.is_group() && person != group;
    check_fact(&rt, are_told_apart, "a person and a group");
    check_fact(&rt, copied(&rt, &group) == group, "a copy");
}

fn add(rt: &impl Abort, alloc: Global, pairs: &mut Pairs, group: &str, member: &str) {
    let group = named(rt, alloc, group);
    let member = named(rt, alloc, member);
    pairs.add(group, member).expect(rt, "memory");
}

/// Staff within crew, which are within each other; and ann within staff.
const MEMBERS: &[(&str, &str)] = &[
    ("/groups/crew", "/groups/staff"),
    ("/groups/staff", "/groups/crew"),
    ("/groups/staff", "/people/ann"),
    ("/groups/staff", "/people/ann"),
    ("/groups/house", "/groups/crew"),
    ("/groups/guests", "/people/bob"),
    ("/groups/own", "/groups/own"),
];

fn pairs_of(rt: &impl Abort, alloc: Global, members: &[(&str, &str)]) -> Pairs {
    let mut pairs = Pairs::new(alloc);
    for (group, member) in members {
        add(rt, alloc, &mut pairs, group, member);
    }
    pairs
}

fn pairs(rt: &impl Abort, alloc: Global) -> Pairs {
    pairs_of(rt, alloc, MEMBERS)
}

fn circle(rt: &impl Abort, alloc: Global, pairs: &Pairs, person: Option<&str>) -> Circle {
    let caller = match person {
        Some(person) => Caller::Known(named(rt, alloc, person)),
        None => Caller::Nobody,
    };
    expand(pairs, &caller).expect(rt, "memory")
}

/// Each pair once, in byte order of the groups and then of the members.
const LISTED: &[(&str, &str)] = &[
    ("/groups/crew", "/groups/staff"),
    ("/groups/guests", "/people/bob"),
    ("/groups/house", "/groups/crew"),
    ("/groups/own", "/groups/own"),
    ("/groups/staff", "/groups/crew"),
    ("/groups/staff", "/people/ann"),
];

fn check_listed(rt: &impl Abort, pairs: &Pairs, listed: &[(&str, &str)]) {
    let list = pairs.list().expect(rt, "memory");
    check_fact(rt, list.len() == listed.len(), "pairs");
    for (group, member) in listed {
        let found = list.iter().any(|pair| pair.group.text() == *group
            && pair.member.text() == *member);
        check_fact(rt, found, member);
    }
}

#[test]
fn pairs_are_a_set(rt: HostRuntime) {
    let alloc = rt.alloc();
    let pairs = pairs(&rt, alloc);
    let are_six = pairs.len() == 6 && !pairs.is_empty() && Pairs::new(alloc).is_empty();
    check_fact(&rt, are_six, "six pairs");
    let staff = named(&rt, alloc, "/groups/staff");
    let ann = named(&rt, alloc, "/people/ann");
    let has_one = pairs.has(&staff, &ann) && !pairs.has(&ann, &staff);
    check_fact(&rt, has_one, "a pair");
    check_fact(&rt, copied(&rt, &pairs).len() == 6, "a copy");
    check_listed(&rt, &pairs, LISTED);
}

/// The principals that are asked about.
const ASKED: &[&str] = &[
    "/people/ann",
    "/people/bob",
    "/people/cid",
    "/groups/crew",
    "/groups/guests",
    "/groups/house",
    "/groups/own",
    "/groups/staff",
];

fn check_circle(
    rt: &impl Abort,
    alloc: Global,
    pairs: &Pairs,
    person: Option<&str>,
    within: &[&str],
) {
    let circle = circle(rt, alloc, pairs, person);
    check_fact(rt, circle.is_known() == person.is_some(), "a known caller");
    for path in ASKED {
        let belongs = circle.has(&named(rt, alloc, path));
        check_fact(rt, belongs == within.contains(path), path);
    }
}

/// A principal belongs to itself and upwards along any chain; groups within each other end; nobody belongs to nothing.
#[test]
fn callers_belong_by_chains_and_cycles(rt: HostRuntime) {
    let alloc = rt.alloc();
    let pairs = pairs(&rt, alloc);
    let ann = [
        "/people/ann",
        "/groups/staff",
        "/groups/crew",
        "/groups/house",
    ];
    check_circle(&rt, alloc, &pairs, Some("/people/ann"), ann.as_slice());
    let bob = ["/people/bob", "/groups/guests"];
    check_circle(&rt, alloc, &pairs, Some("/people/bob"), bob.as_slice());
    let cid = ["/people/cid"];
    check_circle(&rt, alloc, &pairs, Some("/people/cid"), cid.as_slice());
    check_circle(&rt, alloc, &pairs, None, [].as_slice());
}

/// Groups that are within each other, and a person within one of them.
const WITHIN: &[(&str, &str)] = &[
    ("/groups/a", "/groups/b"),
    ("/groups/b", "/groups/a"),
    ("/groups/b", "/people/cem"),
];

/// Each of the groups with both groups and the person.
const CLOSED: &[(&str, &str)] = &[
    ("/groups/a", "/groups/a"),
    ("/groups/a", "/groups/b"),
    ("/groups/a", "/people/cem"),
    ("/groups/b", "/groups/a"),
    ("/groups/b", "/groups/b"),
    ("/groups/b", "/people/cem"),
];

/// A closure has a pair for each chain, and tells a caller what the chains tell.
#[test]
fn closures_tell_what_chains_lead_to(rt: HostRuntime) {
    let alloc = rt.alloc();
    let closed = closure(&pairs_of(&rt, alloc, WITHIN)).expect(&rt, "memory");
    check_listed(&rt, &closed, CLOSED);
    let a = named(&rt, alloc, "/groups/a");
    let b = named(&rt, alloc, "/groups/b");
    let cem = named(&rt, alloc, "/people/cem");
    let caller = Caller::Known(copied(&rt, &cem));
    let circle = reached_in(&closed, &caller).expect(&rt, "memory");
    let has_all = circle.has(&a) && circle.has(&b) && circle.has(&cem);
    check_fact(&rt, has_all, "both groups and the person");
    let mut groups = Vec::new(alloc);
    groups.push(copied(&rt, &a)).expect(&rt, "memory");
    let circle = Circle::of(alloc, &caller, groups).expect(&rt, "memory");
    let has_one = circle.has(&a) && !circle.has(&b) && circle.has(&cem);
    check_fact(&rt, has_one, "one group and the person");
}

fn entry(who: Who, deny: bool, set: LeafSet) -> Entry {
    Entry {
        who,
        invert: false,
        deny,
        set,
    }
}

/// What ann, who owns the resource, may by a list of three entries, and by the first two.
fn check_decided(rt: &impl Abort, entries: &[Entry; 3], ann: &Circle, here: &Here) {
    let read = Privilege::Read.leaves();
    let second = !applies(&entries[0], ann, here) && applies(&entries[1], ann, here);
    check_fact(rt, second, "the second entry applies");
    let granted = granted(entries, ann, here);
    check_fact(rt, granted == read.with(Leaf::Unbind), "granted");
    let decided = decide(entries, ann, here, read);
    check_fact(rt, decided == Outcome::Allowed, "read");
    let refused = Outcome::Denied {
        leaf: Leaf::Bind,
        entry: Some(2),
    };
    let decided = decide(entries, ann, here, read.with(Leaf::Bind));
    check_fact(rt, decided == refused, "bind");
    let undecided = Outcome::Denied {
        leaf: Leaf::WriteContent,
        entry: None,
    };
    let decided = decide(&entries[..2], ann, here, LeafSet::all());
    check_fact(rt, decided == undecided, "all");
}

#[test]
fn the_first_applicable_entry_decides(rt: HostRuntime) {
    let alloc = rt.alloc();
    let here = Here {
        owner: Some(named(&rt, alloc, "/people/ann")),
        principal: None,
    };
    let ann = circle(&rt, alloc, &Pairs::new(alloc), Some("/people/ann"));
    let read = Privilege::Read.leaves();
    let entries = [
        entry(Who::Own, true, read),
        entry(Who::Owner, false, read.with(Leaf::Unbind)),
        entry(Who::Everyone, true, LeafSet::all().minus(read)),
    ];
    check_decided(&rt, &entries, &ann, &here);
}
