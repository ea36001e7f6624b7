//! Resources of a backup that are put into a store, each with the dump that is made and what is told.

use crate::checks::check_fact;
use crate::dumps_lines::{Turns, check_changed, dump_with};
use book_dumps_restoring::{RestoreFault, restore};
use book_office_values::{Items, Path};
use std::alloc::Global;
use std::process::Abort;

/// A card of the book a.
const CARD: &str =
    "{\"path\":\"/books/a/c\",\"owner\":\"/people/ann\",\"number\":7,\"text\":\"t\\n\"}\n";

/// The same card of another owner, with a list of its own.
const OTHER_CARD: &str =
    "{\"path\":\"/books/a/c\",\"owner\":\"/people/bob\",\"own\":[{\"who\":\"/people/bob\",\"grant\":[\"read\"]}],\"number\":7,\"text\":\"t\\n\"}\n";

/// The card, and a later one.
const LATER: &str =
    "{\"path\":\"/books/a/c\",\"owner\":\"/people/ann\",\"number\":7,\"text\":\"t\\n\"}\n{\"path\":\"/books/a/d\",\"number\":8,\"text\":\"d\\n\"}\n";

/// The book a.
const BOOK: &str =
    "{\"path\":\"/books/a\",\"owner\":\"/people/ann\",\"number\":9,\"removed\":{\"x\":2,\"y\":5}}\n";

/// What is restored of one dump into another, with what is told and the dump that is made.
struct Restored {
    store: Turns,
    backup: Turns,
    paths: &'static [&'static str],
    told: &'static str,
    turns: Turns,
}

fn paths_of(rt: &impl Abort, alloc: Global, texts: &[&str]) -> Items<Path> {
    let mut paths = Items::new(alloc);
    for text in texts {
        let path = Path::parse(alloc, text).expect(rt, "a path");
        paths.push(path).expect(rt, "memory");
    }
    paths
}

fn check(rt: &impl Abort, alloc: Global, row: &Restored) {
    let paths = paths_of(rt, alloc, row.paths);
    let backup = dump_with(rt, alloc, row.backup);
    let store = dump_with(rt, alloc, row.store);
    let changed = restore(alloc, store, &backup, paths.as_slice()).expect(rt, "a restore");
    drop(backup);
    drop(paths);
    check_changed(rt, alloc, changed, row.told, row.turns);
}

fn check_all(rt: &impl Abort, alloc: Global, rows: &[Restored]) {
    for row in rows {
        check(rt, alloc, row);
    }
}

/// A store without the card.
const DELETED: Turns = &[
    (
        "\"number\":9,\"removed\":{\"x\":2,\"y\":5}",
        "\"number\":10,\"removed\":{\"x\":2,\"y\":5,\"c\":10}",
    ),
    (CARD, ""),
    ("\"lines\":11", "\"lines\":10"),
];

const COMES_BACK: &[Restored] = &[
    Restored {
        store: DELETED,
        backup: &[],
        paths: &["/books/a/c"],
        told: "card /books/a/c number 11\n",
        turns: &[
            ("\"number\":9", "\"number\":11"),
            ("\"number\":7", "\"number\":11"),
        ],
    },
    Restored {
        store: DELETED,
        backup: &[(CARD, OTHER_CARD)],
        paths: &["/books/a/c"],
        told: "card /books/a/c number 11\nepoch 7 -> 8\n",
        turns: &[
            ("\"epoch\":7", "\"epoch\":8"),
            ("\"number\":9", "\"number\":11"),
            (CARD, OTHER_CARD),
            ("\"number\":7", "\"number\":11"),
        ],
    },
];

#[test]
fn a_deleted_card_comes_back(rt: HostRuntime) {
    check_all(&rt, rt.alloc(), COMES_BACK);
}

const OVER_A_NEWER_ONE: &[Restored] = &[
    Restored {
        store: &[("\"number\":7,\"text\":\"t", "\"number\":9,\"text\":\"u")],
        backup: &[],
        paths: &["/books/a/c"],
        told: "card /books/a/c number 10\n",
        turns: &[
            ("\"number\":9", "\"number\":10"),
            ("\"number\":7", "\"number\":10"),
        ],
    },
    Restored {
        store: &[(CARD, OTHER_CARD)],
        backup: &[],
        paths: &["/books/a/c"],
        told: "card /books/a/c number 10\nepoch 7 -> 8\n",
        turns: &[
            ("\"epoch\":7", "\"epoch\":8"),
            ("\"number\":9", "\"number\":10"),
            ("\"number\":7", "\"number\":10"),
        ],
    },
];

#[test]
fn a_card_is_put_over_a_newer_one(rt: HostRuntime) {
    check_all(&rt, rt.alloc(), OVER_A_NEWER_ONE);
}

const WHOLE_BOOKS: &[Restored] = &[
    Restored {
        store: &[(BOOK, ""), (CARD, ""), ("\"lines\":11", "\"lines\":9")],
        backup: &[],
        paths: &["/books/a"],
        told: "book /books/a\ncard /books/a/c number 1\nepoch 7 -> 8\n",
        turns: &[
            ("\"epoch\":7", "\"epoch\":8"),
            ("\"number\":9,\"removed\":{\"x\":2,\"y\":5}", "\"number\":1"),
            ("\"number\":7", "\"number\":1"),
        ],
    },
    Restored {
        store: &[(CARD, LATER), ("\"lines\":11", "\"lines\":12")],
        backup: &[],
        paths: &["/books/a/c", "/books/a", "/books/a"],
        told: "book /books/a\ncard /books/a/c number 10\n",
        turns: &[
            ("\"number\":9", "\"number\":10"),
            (CARD, LATER),
            ("\"number\":7", "\"number\":10"),
            ("\"lines\":11", "\"lines\":12"),
        ],
    },
    Restored {
        store: &[],
        backup: &[],
        paths: &[],
        told: "",
        turns: &[],
    },
];

#[test]
fn a_whole_book_is_restored(rt: HostRuntime) {
    check_all(&rt, rt.alloc(), WHOLE_BOOKS);
}

/// The store, the backup, the path, and why nothing is restored.
const REFUSED: &[(Turns, Turns, &str, RestoreFault)] = &[
    (&[], &[], "/books/a/z", RestoreFault::NotFound),
    (&[], &[], "/people/ann", RestoreFault::NotFound),
    (&[], &[], "/books/z", RestoreFault::NotFound),
    (
        &[(BOOK, ""), (CARD, ""), ("\"lines\":11", "\"lines\":9")],
        &[],
        "/books/a/c",
        RestoreFault::NoParent,
    ),
    (
        &[
            ("[\"/people/ann\",\"/people/bob\"]", "[\"/people/ann\"]"),
            ("{\"path\":\"/people/bob\"}\n", ""),
            ("\"lines\":11", "\"lines\":10"),
        ],
        &[(CARD, OTHER_CARD)],
        "/books/a/c",
        RestoreFault::UnknownPrincipal,
    ),
    (
        &[("\"number\":9", "\"number\":9007199254740991")],
        &[],
        "/books/a/c",
        RestoreFault::Full,
    ),
    (
        &[("\"epoch\":7", "\"epoch\":9007199254740991")],
        &[(CARD, OTHER_CARD)],
        "/books/a/c",
        RestoreFault::LastNumber,
    ),
];

/// Nothing is restored of one dump into another, for this reason.
fn refused(rt: &impl Abort, alloc: Global, row: &(Turns, Turns, &str, RestoreFault)) {
    let (store, backup, path, fault) = *row;
    let paths = paths_of(rt, alloc, &["/books/a-b", path]);
    let backup = dump_with(rt, alloc, backup);
    let store = dump_with(rt, alloc, store);
    let why = restore(alloc, store, &backup, paths.as_slice()).err();
    drop(backup);
    drop(paths);
    check_fact(rt, why == Some(fault), path);
}

#[test]
fn a_restore_that_cannot_be_is_told(rt: HostRuntime) {
    for row in REFUSED {
        refused(&rt, rt.alloc(), row);
    }
}
