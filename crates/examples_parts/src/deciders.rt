//! Scans over several lists in turn: one decision, all that is granted, and which entry decides each leaf (RFC 3744,
//! sections 5.4 and 6).

use crate::checks::{check_fact, check_text};
use crate::entry_lines::{entries, leaves, principal, word};
use book_lists::{Caller, Circle, Decider, Deciders, Here, Outcome, Pairs, expand};
use book_rights::{Leaf, LeafSet};
use std::alloc::Global;
use std::process::Abort;

/// A set of leaves; lists, each with who asks and the owner of the resource at which it is read, `-` for nobody and
/// none; and what they tell.
type Decision = (
    &'static str,
    &'static [(&'static str, &'static str)],
    &'static str,
);

/// The caller ann, at a resource of bob.
const ANN: &str = "/people/ann /people/bob";

/// The caller bob, at a resource of ann.
const BOB: &str = "/people/bob /people/ann";

/// Nobody, at a resource without an owner.
const NOBODY: &str = "- -";

/// A need; lists; whether the need is settled after each list, and the outcome.
const DECISIONS: &[Decision] = &[
    // before any list
    ("read", &[], "denied x-read-texts by none"),
    ("-", &[], "allowed"),
    // an empty need is settled by no entry
    (
        "-",
        &[(ANN, "deny all all"), (ANN, "grant all all")],
        "settled, settled, allowed",
    ),
    // the first entry grants all, or the second denies
    (
        "read+bind",
        &[(ANN, "grant all all\ndeny all all"), (ANN, "deny all all")],
        "settled, settled, allowed",
    ),
    (
        "read+bind",
        &[
            (ANN, "grant all read\ndeny all bind\ngrant all all"),
            (ANN, "grant all all"),
        ],
        "settled, settled, denied bind by 1",
    ),
    // nothing settles the need: the least leaf that nothing decides
    (
        "read+read-acl+bind",
        &[
            (ANN, "grant all read\ngrant all unbind"),
            (ANN, "deny all unbind\ndeny /people/bob bind"),
        ],
        "open, open, denied bind by none",
    ),
    // of one denying entry the least needed leaf
    (
        "write-content+bind+read-acl",
        &[
            (ANN, "grant all write-content"),
            (ANN, "deny all read-acl+bind+write-content"),
        ],
        "open, settled, denied bind by 1",
    ),
    // a denial's index is counted over both lists
    (
        "read+bind",
        &[
            (ANN, "grant all unbind\ngrant all read\ngrant all read"),
            (ANN, "grant all read-acl\ndeny all bind\ngrant all bind"),
        ],
        "open, settled, denied bind by 4",
    ),
    // a leaf that a list grants is not denied by the next one
    (
        "read+bind",
        &[
            (ANN, "grant all read"),
            (ANN, "deny all read\ngrant all bind"),
        ],
        "open, settled, allowed",
    ),
    // a denial of one list stays one, before a leaf that nothing decides and before later grants
    (
        "read+bind",
        &[(ANN, "deny all bind"), (ANN, "grant all all")],
        "settled, settled, denied bind by 0",
    ),
    // and before a later denial of a lesser leaf
    (
        "read+bind",
        &[(ANN, "deny all bind"), (ANN, "deny all read")],
        "settled, settled, denied bind by 0",
    ),
    // empty lists
    (
        "read",
        &[(ANN, ""), (ANN, "grant all read"), (ANN, "")],
        "open, settled, settled, allowed",
    ),
    // each list by its own caller and at its own resource
    (
        "read",
        &[
            (BOB, "deny /people/ann read"),
            (ANN, "deny /people/bob read\ngrant /people/ann read"),
        ],
        "open, settled, allowed",
    ),
    (
        "read",
        &[
            (BOB, "grant not:owner unbind\ngrant owner read"),
            ("/people/bob /people/bob", "deny owner read"),
        ],
        "open, settled, denied x-read-texts by 2",
    ),
    (
        "read",
        &[
            (NOBODY, "grant authenticated read"),
            (ANN, "deny authenticated read"),
        ],
        "open, settled, denied x-read-texts by 1",
    ),
];

fn circle(rt: &impl Abort, alloc: Global, reader: &str) -> Circle {
    let caller = match principal(rt, alloc, word(reader, 0)) {
        Some(person) => Caller::Known(person),
        None => Caller::Nobody,
    };
    expand(&Pairs::new(alloc), &caller).expect(rt, "memory")
}

fn here(rt: &impl Abort, alloc: Global, reader: &str) -> Here {
    Here {
        owner: principal(rt, alloc, word(reader, 1)),
        principal: None,
    }
}

fn tell(rt: &impl Abort, answer: &mut String, outcome: Outcome) {
    match outcome {
        Outcome::Allowed => write!(answer, "allowed"),
        Outcome::Denied {
            leaf,
            entry: Some(entry),
        } => {
            let name = leaf.name();
            write!(answer, "denied {name} by {entry}")
        }
        Outcome::Denied { leaf, entry: None } => {
            let name = leaf.name();
            write!(answer, "denied {name} by none")
        }
    }
    .expect(rt, "memory");
}

fn decided(rt: &impl Abort, alloc: Global, need: &str, lists: &[(&str, &str)]) -> String {
    let mut answer = String::new(alloc);
    let mut judging = Deciders::start(leaves(need).expect(rt, need));
    for (reader, list) in lists {
        let list = entries(rt, alloc, list);
        let circle = circle(rt, alloc, reader);
        let here = here(rt, alloc, reader);
        let settled = judging.judge_over(list.as_slice(), &circle, &here);
        let word = if settled { "settled, " } else { "open, " };
        answer.push_str(word).expect(rt, "memory");
    }
    tell(rt, &mut answer, judging.outcome());
    answer
}

/// What decides each leaf of a set, by lists as above, which are gone over until each is decided.
fn gone_over(rt: &impl Abort, alloc: Global, set: LeafSet, lists: &[(&str, &str)]) -> Deciders {
    let mut deciders = Deciders::start(set);
    for (reader, list) in lists {
        let list = entries(rt, alloc, list);
        let circle = circle(rt, alloc, reader);
        let here = here(rt, alloc, reader);
        deciders.over(list.as_slice(), &circle, &here);
    }
    deciders
}

/// The outcome is the same where the lists are gone over to the end.
fn check_outcome(rt: &impl Abort, alloc: Global, need: &str, lists: &[(&str, &str)], wanted: &str) {
    let deciders = gone_over(rt, alloc, leaves(need).expect(rt, need), lists);
    let mut answer = String::new(alloc);
    tell(rt, &mut answer, deciders.outcome());
    check_fact(rt, wanted.ends_with(answer.as_str()), need);
}

#[test]
fn lists_in_turn_make_one_decision(rt: HostRuntime) {
    for (need, lists, wanted) in DECISIONS {
        let told = decided(&rt, rt.alloc(), need, lists);
        check_text(&rt, told.as_str(), wanted, need);
        check_outcome(&rt, rt.alloc(), need, lists, wanted);
    }
}

/// Lists as above, and the privileges that they grant.
const GRANTS: &[(&[(&str, &str)], &str)] = &[
    (&[], "-"),
    (&[(ANN, "deny all all"), (ANN, "grant all all")], "-"),
    (&[(ANN, "grant all all"), (ANN, "deny all all")], "all"),
    // what one list decides, the next one does not change
    (
        &[
            (ANN, "grant all read\ndeny all bind"),
            (ANN, "deny all read\ngrant all write"),
        ],
        "read+write-content+write-properties+unbind",
    ),
    // each list by its own caller and at its own resource
    (
        &[
            (BOB, "deny /people/ann read\ndeny owner unbind"),
            (ANN, "grant /people/ann read+bind\ngrant not:owner unbind"),
        ],
        "read+bind+unbind",
    ),
    (
        &[
            (
                NOBODY,
                "grant authenticated read\ngrant unauthenticated bind",
            ),
            (
                ANN,
                "deny unauthenticated unbind\ngrant authenticated unbind",
            ),
        ],
        "bind+unbind",
    ),
];

fn check_grants(rt: &impl Abort, alloc: Global, lists: &[(&str, &str)], wanted: &str) {
    let deciders = gone_over(rt, alloc, LeafSet::all(), lists);
    check_fact(rt, Some(deciders.granted()) == leaves(wanted), wanted);
}

#[test]
fn lists_in_turn_grant_leaves(rt: HostRuntime) {
    for (lists, wanted) in GRANTS {
        check_grants(&rt, rt.alloc(), lists, wanted);
    }
}

/// A set; lists; and which entry decides each leaf of the set.
const DECIDERS: &[Decision] = &[
    // before any list
    ("read", &[], " x-read-texts by none, x-read-names by none,"),
    // the first that holds the leaf, counted over both lists
    (
        "read+bind+unbind",
        &[
            (
                ANN,
                "grant all read-acl\ndeny all x-read-names\ngrant all all",
            ),
            (ANN, "deny all all"),
        ],
        " x-read-texts granted by 2, bind granted by 2, unbind granted by 2, x-read-names denied by 1,",
    ),
    (
        "bind+read-acl+write-acl",
        &[
            (ANN, "grant all read\ngrant all bind"),
            (ANN, "deny /people/bob all\ndeny all bind+read-acl"),
        ],
        " bind granted by 1, read-acl denied by 3, write-acl by none,",
    ),
    // each list by its own caller and at its own resource
    (
        "unbind",
        &[(BOB, "deny owner unbind"), (ANN, "grant not:owner unbind")],
        " unbind granted by 1,",
    ),
];

fn tell_decider(rt: &impl Abort, answer: &mut String, name: &str, decider: Option<Decider>) {
    match decider {
        Some(Decider { index, deny }) => {
            let word = if deny { "denied" } else { "granted" };
            write!(answer, " {name} {word} by {index},")
        }
        None => write!(answer, " {name} by none,"),
    }
    .expect(rt, "memory");
}

fn check_deciders(
    rt: &impl Abort,
    alloc: Global,
    need: &str,
    lists: &[(&str, &str)],
    wanted: &str,
) {
    let set = leaves(need).expect(rt, need);
    let deciders = gone_over(rt, alloc, set, lists);
    check_fact(rt, deciders.are_counted(), need);
    let mut answer = String::new(alloc);
    for leaf in Leaf::ALL {
        if set.has(leaf) {
            tell_decider(rt, &mut answer, leaf.name(), deciders.decider(leaf));
        }
    }
    check_text(rt, answer.as_str(), wanted, need);
}

#[test]
fn lists_in_turn_tell_deciders(rt: HostRuntime) {
    for (need, lists, wanted) in DECIDERS {
        check_deciders(&rt, rt.alloc(), need, lists, wanted);
    }
}
