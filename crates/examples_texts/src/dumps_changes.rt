//! Changes of a dump, each with the dump that it makes and what it tells.

use crate::checks::check_fact;
use crate::dumps_lines::{AS_IT_IS, Turns, check_changed, dump_with};
use crate::dumps_offices::name;
use book_dumps_changes::{ChangeFault, Changed, forget_removed, new_epoch, own_by, without};
use book_lists::Principal;
use std::alloc::Global;
use std::process::Abort;

fn principal(rt: &impl Abort, alloc: Global, path: &str) -> Principal {
    let principal = Principal::parse(alloc, path).expect(rt, "memory");
    principal.expect(rt, "a principal")
}

/// The change was made, told this, and made the dump with these texts in the place of others.
fn check(
    rt: &impl Abort,
    alloc: Global,
    made: Result<Changed, ChangeFault>,
    told: &str,
    turns: Turns,
) {
    let changed = made.expect(rt, "a change");
    check_changed(rt, alloc, changed, told, turns);
}

/// The change was refused for this reason.
fn refused(rt: &impl Abort, made: Result<Changed, ChangeFault>, fault: ChangeFault, of: &str) {
    check_fact(rt, made.err() == Some(fault), of);
}

/// What makes the one the owner of what the other owns, at one book or at all.
fn owned(
    rt: &impl Abort,
    alloc: Global,
    from: &str,
    to: &str,
    at: Option<&str>,
) -> Result<Changed, ChangeFault> {
    let from = principal(rt, alloc, from);
    let to = principal(rt, alloc, to);
    let book = match at {
        Some(word) => Some(name(rt, alloc, word)),
        None => None,
    };
    let dumped = dump_with(rt, alloc, AS_IT_IS);
    own_by(alloc, dumped, &from, &to, &book)
}

const ANN: &str = "/people/ann";

const BOB: &str = "/people/bob";

const ALL_OF_ANN: Turns = &[
    ("\"epoch\":7", "\"epoch\":8"),
    (
        "\"/books/a\",\"owner\":\"/people/ann\"",
        "\"/books/a\",\"owner\":\"/people/bob\"",
    ),
    (
        "\"/books/a/c\",\"owner\":\"/people/ann\"",
        "\"/books/a/c\",\"owner\":\"/people/bob\"",
    ),
];

const CARDS_OF_ANN: Turns = &[
    ("\"epoch\":7", "\"epoch\":8"),
    (
        "\"/books/a/c\",\"owner\":\"/people/ann\"",
        "\"/books/a/c\",\"owner\":\"/people/bob\"",
    ),
];

#[test]
fn an_owner_is_another_one(rt: HostRuntime) {
    let alloc = rt.alloc();
    let told =
        "owner /books/a /people/ann -> /people/bob\nowner /books/a/c /people/ann -> /people/bob\n";
    check(
        &rt,
        alloc,
        owned(&rt, alloc, ANN, BOB, None),
        told,
        ALL_OF_ANN,
    );
    let told = "owner /books/a/c /people/ann -> /people/bob\n";
    let made = owned(&rt, alloc, ANN, BOB, Some("a"));
    check(&rt, alloc, made, told, CARDS_OF_ANN);
    check(&rt, alloc, owned(&rt, alloc, BOB, ANN, None), "", AS_IT_IS);
}

const FORGOTTEN: Turns = &[
    ("\"epoch\":7", "\"epoch\":8"),
    (",\"removed\":{\"x\":2,\"y\":5}", ""),
];

#[test]
fn removed_names_are_forgotten(rt: HostRuntime) {
    let alloc = rt.alloc();
    let made = forget_removed(alloc, dump_with(&rt, alloc, AS_IT_IS));
    check(&rt, alloc, made, "removed /books/a 2\n", FORGOTTEN);
}

/// The number above which the epoch is to be, what is told, and the epoch.
const EPOCHS: &[(Option<u64>, &str, Turns)] = &[
    (
        None,
        "epoch 7 -> 1048583\n",
        &[("\"epoch\":7", "\"epoch\":1048583")],
    ),
    (
        Some(6),
        "epoch 7 -> 1048583\n",
        &[("\"epoch\":7", "\"epoch\":1048583")],
    ),
    (
        Some(100),
        "epoch 7 -> 1048676\n",
        &[("\"epoch\":7", "\"epoch\":1048676")],
    ),
];

#[test]
fn an_epoch_is_above_each_before(rt: HostRuntime) {
    let alloc = rt.alloc();
    for (above, told, turns) in EPOCHS {
        let made = new_epoch(alloc, dump_with(&rt, alloc, AS_IT_IS), *above);
        check(&rt, alloc, made, told, turns);
    }
    let last = Some(9_007_199_253_692_416);
    let made = new_epoch(alloc, dump_with(&rt, alloc, AS_IT_IS), last);
    refused(&rt, made, ChangeFault::LastNumber, "past the last number");
}

/// What is left where a person is gone, and another one gets what they own.
fn left_by(
    rt: &impl Abort,
    alloc: Global,
    person: &str,
    heir: Option<&str>,
) -> Result<Changed, ChangeFault> {
    let person = principal(rt, alloc, person);
    let heir = match heir {
        Some(path) => Some(principal(rt, alloc, path)),
        None => None,
    };
    let dumped = dump_with(rt, alloc, AS_IT_IS);
    without(alloc, dumped, &person, &heir)
}

const WITHOUT_ANN: Turns = &[
    ("\"epoch\":7", "\"epoch\":8"),
    (
        "{\"who\":\"/people/ann\",\"invert\":true,\"deny\":[\"read\"]}",
        "{\"who\":\"all\",\"deny\":[\"read\"]}",
    ),
    (
        "\"/books/a\",\"owner\":\"/people/ann\"",
        "\"/books/a\",\"owner\":\"/people/bob\"",
    ),
    (
        "\"/books/a/c\",\"owner\":\"/people/ann\"",
        "\"/books/a/c\",\"owner\":\"/people/bob\"",
    ),
    ("[\"/people/ann\",\"/people/bob\"]", "[\"/people/bob\"]"),
    (
        "{\"path\":\"/people/ann\",\"own\":[{\"who\":\"/people/ann\",\"grant\":[\"all\"]}]}\n",
        "",
    ),
    ("\"lines\":11", "\"lines\":10"),
];

#[test]
fn a_person_is_gone(rt: HostRuntime) {
    let alloc = rt.alloc();
    let told = "all /books  own deny not /people/ann read\n\
        owner /books/a /people/ann -> /people/bob\n\
        owner /books/a/c /people/ann -> /people/bob\n\
        member /groups/g /people/ann\n\
        person /people/ann\n";
    let made = left_by(&rt, alloc, ANN, Some(BOB));
    check(&rt, alloc, made, told, WITHOUT_ANN);
}

/// From whom, to whom and where, and why that is unknown.
const UNKNOWN_OWNERS: &[(&str, &str, Option<&str>, &str)] = &[
    (ANN, "/people/eve", None, "to nobody"),
    ("/people/eve", ANN, None, "from nobody"),
    (ANN, ANN, Some("b"), "at no book"),
];

/// Who leaves and who gets what they own, and why that is unknown.
const UNKNOWN_LEAVERS: &[(&str, Option<&str>, &str)] = &[
    ("/people/eve", None, "nobody is gone"),
    ("/groups/g", None, "a group is no person"),
    (ANN, Some(ANN), "the heir is the person"),
];

#[test]
fn an_unknown_principal_is_told(rt: HostRuntime) {
    let alloc = rt.alloc();
    let unknown = ChangeFault::UnknownPrincipal;
    for (from, to, at, of) in UNKNOWN_OWNERS {
        refused(&rt, owned(&rt, alloc, from, to, *at), unknown, of);
    }
    for (person, heir, of) in UNKNOWN_LEAVERS {
        refused(&rt, left_by(&rt, alloc, person, *heir), unknown, of);
    }
}
