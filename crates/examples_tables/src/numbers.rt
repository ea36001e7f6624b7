//! Closures by numbers: small ones worked out by hand, and after each of many changes, which a generator of numbers
//! chooses, the same pairs in the same order as the closure by texts.

ghost use Rattle.std.specs.Prelude.{◌<◌};

use crate::checks::check;
use crate::new_tables::principal;
use book_lists::{Membership, Pairs, Principal, closure};
use book_lists_reach::{Reach, reach_of};
use book_office::with_members;
use std::alloc::Global;
use std::process::Abort;

/// How many changes are chosen of each shape.
const CHANGES: usize = 2500;

const PERSONS: [&str; 3] = ["/people/ann", "/people/bob", "/people/cem"];

const GROUPS: [&str; 6] = [
    "/groups/a",
    "/groups/b",
    "/groups/c",
    "/groups/d",
    "/groups/e",
    "/groups/f",
];

/// Which groups may be members of a group.
#[derive(Clone, Copy)]
enum Shape {
    /// None.
    Flat,
    /// The next.
    Chain,
    /// Of the first three the last three.
    Layers,
    /// All, and the group itself.
    Cycles,
}

fn may_have(shape: Shape, group: usize, member: usize) -> bool {
    match shape {
        Shape::Flat => false,
        Shape::Chain => member == group.saturating_add(1),
        Shape::Layers => group < 3 && member >= 3,
        Shape::Cycles => true,
    }
}

/// The number that is chosen after another: 75 times it and 74, modulo 65,537.
fn next(number: u64) -> u64 {
    (number % 65_537 * 75 + 74) % 65_537
}

/// The pairs of lines, each a group and a member.
fn pairs_of(rt: &impl Abort, alloc: Global, lines: &[(&str, &str)]) -> Pairs {
    let mut pairs = Pairs::new(alloc);
    for (group, member) in lines {
        let group = principal(rt, alloc, group);
        let member = principal(rt, alloc, member);
        pairs.add(group, member).expect(rt, "memory");
    }
    pairs
}

/// The pairs of a list as one text.
fn told(rt: &impl Abort, alloc: Global, list: &[Membership]) -> String {
    let mut all = String::new(alloc);
    for pair in list {
        if !all.is_empty() {
            all.push_str("; ").expect(rt, "memory");
        }
        all.push_str(pair.group.text()).expect(rt, "memory");
        all.push_str(" ").expect(rt, "memory");
        all.push_str(pair.member.text()).expect(rt, "memory");
    }
    all
}

fn closed(rt: &impl Abort, alloc: Global, lines: &[(&str, &str)]) -> Reach {
    let pairs = pairs_of(rt, alloc, lines);
    reach_of(alloc, &pairs).expect(rt, "memory")
}

fn check_listed(rt: &impl Abort, alloc: Global, reach: &Reach, wanted: &str) {
    let list = reach.list().expect(rt, "memory");
    check(rt, told(rt, alloc, list.as_slice()), wanted);
}

/// Pairs, and those that chains of them lead to.
const CLOSED: &[(&[(&str, &str)], &str)] = &[
    (&[], ""),
    (
        &[("/groups/staff", "/people/ann")],
        "/groups/staff /people/ann",
    ),
    (
        &[
            ("/groups/staff", "/groups/it"),
            ("/groups/it", "/people/bob"),
        ],
        "/groups/it /people/bob; /groups/staff /groups/it; /groups/staff /people/bob",
    ),
    (
        &[
            ("/groups/a", "/groups/b"),
            ("/groups/b", "/groups/a"),
            ("/groups/b", "/people/cem"),
        ],
        "/groups/a /groups/a; /groups/a /groups/b; /groups/a /people/cem; /groups/b /groups/a; /groups/b /groups/b; /groups/b /people/cem",
    ),
    (
        &[
            ("/groups/a", "/groups/c"),
            ("/groups/b", "/groups/a"),
            ("/groups/c", "/people/ann"),
        ],
        "/groups/a /groups/c; /groups/a /people/ann; /groups/b /groups/a; /groups/b /groups/c; /groups/b /people/ann; /groups/c /people/ann",
    ),
];

#[test]
fn rows_have_what_chains_lead_to(rt: HostRuntime) {
    let alloc = rt.alloc();
    for (lines, wanted) in CLOSED {
        let reach = closed(&rt, alloc, lines);
        check_listed(&rt, alloc, &reach, wanted);
        drop(reach);
    }
}

const OLD: &[(&str, &str)] = &[
    ("/groups/staff", "/groups/it"),
    ("/groups/it", "/people/ann"),
    ("/groups/it", "/people/bob"),
];

const NEW: &[(&str, &str)] = &[
    ("/groups/staff", "/groups/it"),
    ("/groups/staff", "/people/cem"),
    ("/groups/it", "/people/bob"),
];

fn without(rt: &impl Abort, alloc: Global, reach: &Reach, others: &Reach) -> String {
    let list = reach.without(others).expect(rt, "memory");
    told(rt, alloc, list.as_slice())
}

/// What goes and what comes, where the principals of the two are not the same.
#[test]
fn differences_tell_what_others_have_not(rt: HostRuntime) {
    let alloc = rt.alloc();
    let old = closed(&rt, alloc, OLD);
    let new = closed(&rt, alloc, NEW);
    check(
        &rt,
        without(&rt, alloc, &old, &new),
        "/groups/it /people/ann; /groups/staff /people/ann",
    );
    check(
        &rt,
        without(&rt, alloc, &new, &old),
        "/groups/staff /people/cem",
    );
    drop((old, new));
}

fn are_those(rt: &impl Abort, alloc: Global, reach: &Reach, lines: &[(&str, &str)]) -> bool {
    let pairs = pairs_of(rt, alloc, lines);
    let list = pairs.list().expect(rt, "memory");
    let same = reach.are_those_of(list.as_slice());
    same.expect(rt, "memory")
}

/// The pairs themselves; one fewer; one more, of these principals; and one of another.
#[test]
fn lists_have_exactly_the_pairs_or_not(rt: HostRuntime) {
    let alloc = rt.alloc();
    let reach = Reach::of(alloc, &pairs_of(&rt, alloc, OLD)).expect(&rt, "memory");
    let all = [OLD[0], OLD[1], OLD[2]];
    assert!(rt; are_those(&rt, alloc, &reach, &all));
    assert!(rt; !are_those(&rt, alloc, &reach, &all[1..]));
    let more = [OLD[0], OLD[1], OLD[2], ("/groups/staff", "/people/ann")];
    assert!(rt; !are_those(&rt, alloc, &reach, &more));
    let other = [OLD[0], OLD[1], OLD[2], ("/groups/staff", "/people/cem")];
    assert!(rt; !are_those(&rt, alloc, &reach, &other));
    let ann = principal(&rt, alloc, "/people/ann");
    let staff = principal(&rt, alloc, "/groups/staff");
    assert!(rt; !reach.has(&staff, &ann));
    let reach = reach.closed().expect(&rt, "memory");
    assert!(rt; reach.has(&staff, &ann));
    assert!(rt; !reach.has(&ann, &staff));
    drop(reach);
}

/// The same pairs as the closure by texts, in the same order.
fn check_closure(rt: &impl Abort, alloc: Global, pairs: &Pairs) {
    let by_texts = closure(pairs).expect(rt, "memory");
    let wanted = by_texts.list().expect(rt, "memory");
    let by_numbers = reach_of(alloc, pairs).expect(rt, "memory");
    let list = by_numbers.list().expect(rt, "memory");
    assert!(rt; list.as_slice() == wanted.as_slice());
}

/// Members of a group: about half of the persons, and a third of the groups that it may have.
fn chosen(
    rt: &impl Abort,
    alloc: Global,
    number: u64,
    shape: Shape,
    group: usize,
) -> Vec<Principal> {
    let mut number = number;
    let mut members = Vec::new(alloc);
    for person in PERSONS {
        number = next(number);
        if number % 2 == 0 {
            members
                .push(principal(rt, alloc, person))
                .expect(rt, "memory");
        }
    }
    for (at, member) in GROUPS.iter().enumerate() {
        number = next(number);
        if number % 3 == 0 && may_have(shape, group, at) {
            members
                .push(principal(rt, alloc, member))
                .expect(rt, "memory");
        }
    }
    members
}

/// The pairs after one change.
fn changed(rt: &impl Abort, alloc: Global, pairs: &Pairs, number: u64, shape: Shape) -> Pairs {
    let at = (number % 6) as usize;
    let members = chosen(rt, alloc, number, shape, at);
    let group = principal(rt, alloc, GROUPS[at]);
    with_members(alloc, pairs, &group, members.as_slice()).expect(rt, "memory")
}

fn check_changes(rt: &impl Abort, alloc: Global, shape: Shape) {
    let mut number = 1u64;
    let mut pairs = Pairs::new(alloc);
    for _ in 0..CHANGES {
        number = next(number);
        pairs = changed(rt, alloc, &pairs, number, shape);
        check_closure(rt, alloc, &pairs);
    }
    drop(pairs);
}

#[test]
fn numbers_tell_what_texts_tell(rt: HostRuntime) {
    for shape in [Shape::Flat, Shape::Chain, Shape::Layers, Shape::Cycles] {
        check_changes(&rt, rt.alloc(), shape);
    }
}
