//! Own lists and members of groups (RFC 3744, sections 8.1 and 4.3).

use crate::checks::{check, check_fact, check_number};
use crate::committed::{add_book, put_card, remove_book, set_list, set_members};
use crate::row_texts::{
    entries_at, entries_of_changed, entries_of_children, epoch, members, store, whole_rows,
};
use book_tables_rows::EntryRow;
use sqlite::{Connection, Error, MemStore};
use std::alloc::Global;
use std::process::Abort;

fn entry(
    rt: &impl Abort,
    alloc: Global,
    form: u32,
    principal: Option<&str>,
    deny: bool,
    mask: u32,
) -> EntryRow {
    let principal = match principal {
        None => None,
        Some(path) => Some(String::from_str(alloc, path).expect(rt, "memory")),
    };
    EntryRow {
        form,
        principal,
        invert: false,
        deny,
        mask,
    }
}

fn set(rt: &impl Abort, connection: &mut Connection<MemStore>, path: &str, list: &[EntryRow]) {
    set_list(connection, path, list).expect(rt, path);
}

#[test]
fn own_lists_are_written_in_order(rt: HostRuntime) {
    let alloc = rt.alloc();
    let mut connection = store(&rt, alloc);
    let list_of_three = [
        entry(&rt, alloc, 0, Some("/people/bob"), true, 255),
        entry(&rt, alloc, 1, None, false, 1),
        entry(&rt, alloc, 0, Some("/groups/staff"), false, 30),
    ];
    set(&rt, &mut connection, "/books", &list_of_three);
    check_number(&rt, epoch(&rt, &mut connection), 1);
    check(
        &rt,
        entries_at(&rt, alloc, &mut connection, "/books"),
        "4 0 0 /people/bob 0 1 255; 4 0 1 - 0 0 1; 4 0 0 /groups/staff 0 0 30",
    );
    check(
        &rt,
        entries_at(&rt, alloc, &mut connection, "/books/law"),
        "",
    );
    let list_of_one = [entry(&rt, alloc, 4, None, false, 255)];
    set(&rt, &mut connection, "/books", &list_of_one);
    check(
        &rt,
        entries_at(&rt, alloc, &mut connection, "/books"),
        "4 0 4 - 0 0 255",
    );
    check_number(&rt, epoch(&rt, &mut connection), 2);
    drop(connection);
}

#[test]
fn a_list_with_an_unknown_principal_changes_nothing(rt: HostRuntime) {
    let alloc = rt.alloc();
    let mut connection = store(&rt, alloc);
    set(
        &rt,
        &mut connection,
        "/books",
        &[entry(&rt, alloc, 1, None, false, 1)],
    );
    let unknown = [entry(&rt, alloc, 0, Some("/people/eve"), false, 1)];
    let refused = set_list(&mut connection, "/books", &unknown).is_err();
    check_fact(&rt, refused, "nobody is eve");
    check(
        &rt,
        entries_at(&rt, alloc, &mut connection, "/books"),
        "4 0 1 - 0 0 1",
    );
    check_number(&rt, epoch(&rt, &mut connection), 1);
    let none = Err(Error::QueryReturnedNoRows);
    let told = set_list(&mut connection, "/books/law", &[]);
    drop(connection);
    check_fact(&rt, told == none, "no such book");
}

#[test]
fn entries_of_children_come_by_child_and_place(rt: HostRuntime) {
    let alloc = rt.alloc();
    let mut connection = store(&rt, alloc);
    for path in ["/books/law", "/books/sales"] {
        add_book(&mut connection, "/books", path, None).expect(&rt, path);
    }
    let two = [
        entry(&rt, alloc, 2, None, false, 1),
        entry(&rt, alloc, 0, Some("/people/ann"), true, 64),
    ];
    set(&rt, &mut connection, "/books/sales", &two);
    set(
        &rt,
        &mut connection,
        "/books/law",
        &[entry(&rt, alloc, 3, None, true, 128)],
    );
    set(
        &rt,
        &mut connection,
        "/people",
        &[entry(&rt, alloc, 5, None, false, 2)],
    );
    check(
        &rt,
        entries_of_children(&rt, alloc, &mut connection, "/books"),
        "8 0 3 - 0 1 128; 9 0 2 - 0 0 1; 9 0 0 /people/ann 0 1 64",
    );
    drop(connection);
}

fn put(rt: &impl Abort, connection: &mut Connection<MemStore>, book: &str, path: &str, name: &str) {
    put_card(connection, book, path, name, None, "x").expect(rt, path);
}

/// The cards of law have the numbers 1 to 4, those of sales 1 and 2; b's protected list and the second entry of its own
/// one are written first.
const OF_CARDS: &str =
    "INSERT INTO ace2 VALUES (11, 1, 0, 5, NULL, 0, 0, 511), (11, 0, 1, 2, NULL, 1, 0, 2), (11, 0, 0, 0, '/people/ann', 0, 1, 64), (10, 0, 0, 1, NULL, 0, 0, 1), (12, 0, 0, 3, NULL, 0, 1, 128), (13, 0, 0, 4, NULL, 0, 0, 4), (15, 0, 0, 5, NULL, 0, 0, 8), (8, 0, 0, 1, NULL, 0, 0, 16)";

/// The entries of the cards with a number above one and at most another come by card and place. Those of the book itself
/// and of the other book do not. A card that is put again has a new number, and keeps its place.
#[test]
fn entries_of_changed_cards_are_those_of_a_range(rt: HostRuntime) {
    let alloc = rt.alloc();
    let mut connection = store(&rt, alloc);
    for path in ["/books/law", "/books/sales"] {
        add_book(&mut connection, "/books", path, None).expect(&rt, path);
    }
    for (book, path, name) in [
        ("/books/law", "/books/law/a", "a"),
        ("/books/law", "/books/law/b", "b"),
        ("/books/law", "/books/law/c", "c"),
        ("/books/law", "/books/law/d", "d"),
        ("/books/sales", "/books/sales/a", "a"),
        ("/books/sales", "/books/sales/b", "b"),
    ] {
        put(&rt, &mut connection, book, path, name);
    }
    connection.execute_batch(OF_CARDS).expect(&rt, "entries");
    for (after, last, wanted) in [
        (0, 1, "10 0 1 - 0 0 1"),
        (
            1,
            3,
            "11 0 0 /people/ann 0 1 64; 11 0 2 - 1 0 2; 11 1 5 - 0 0 511; 12 0 3 - 0 1 128",
        ),
        (3, 3, ""),
        (3, 9, "13 0 4 - 0 0 4"),
        (4, 9, ""),
    ] {
        let told = entries_of_changed(&rt, alloc, &mut connection, "/books/law", after, last);
        check(&rt, told, wanted);
    }
    put(&rt, &mut connection, "/books/law", "/books/law/a", "a");
    for (book, after, last, wanted) in [
        ("/books/law", 0, 1, ""),
        ("/books/law", 3, 5, "10 0 1 - 0 0 1; 13 0 4 - 0 0 4"),
        ("/books/sales", 0, 9, "15 0 5 - 0 0 8"),
    ] {
        let told = entries_of_changed(&rt, alloc, &mut connection, book, after, last);
        check(&rt, told, wanted);
    }
    drop(connection);
}

/// Of six entries the one at the book's own path and the three at its cards go, and the others stay.
#[test]
fn the_entries_of_a_removed_book_go_with_it(rt: HostRuntime) {
    let alloc = rt.alloc();
    let mut connection = store(&rt, alloc);
    for path in ["/books/law", "/books/sales"] {
        add_book(&mut connection, "/books", path, None).expect(&rt, path);
    }
    put(&rt, &mut connection, "/books/law", "/books/law/a", "a");
    put(&rt, &mut connection, "/books/law", "/books/law/b", "b");
    put(&rt, &mut connection, "/books/law", "/books/law/c", "c");
    put(&rt, &mut connection, "/books/sales", "/books/sales/a", "a");
    let two = [
        entry(&rt, alloc, 2, None, false, 1),
        entry(&rt, alloc, 0, Some("/people/ann"), true, 64),
    ];
    let one = [entry(&rt, alloc, 3, None, true, 128)];
    set(&rt, &mut connection, "/books/law/a", &two);
    for path in ["/books/law/c", "/books/law", "/books/sales/a", "/people"] {
        set(&rt, &mut connection, path, &one);
    }
    check(
        &rt,
        whole_rows(&rt, alloc, &mut connection),
        "13 nodes, 6 entries, 0 removed, meta 2 5",
    );
    remove_book(&mut connection, "/books/law").expect(&rt, "DELETE");
    check(
        &rt,
        whole_rows(&rt, alloc, &mut connection),
        "9 nodes, 2 entries, 0 removed, meta 2 6",
    );
    for (path, wanted) in [
        ("/books/sales/a", "13 0 3 - 0 1 128"),
        ("/people", "2 0 3 - 0 1 128"),
    ] {
        check(&rt, entries_at(&rt, alloc, &mut connection, path), wanted);
    }
    drop(connection);
}

fn texts(rt: &impl Abort, alloc: Global, paths: &[&str]) -> Vec<String> {
    let mut texts = Vec::new(alloc);
    for path in paths {
        texts
            .push(String::from_str(alloc, path).expect(rt, "memory"))
            .expect(rt, "memory");
    }
    texts
}

#[test]
fn groups_get_members(rt: HostRuntime) {
    let alloc = rt.alloc();
    let mut connection = store(&rt, alloc);
    let both = texts(&rt, alloc, &["/people/ann", "/people/bob"]);
    set_members(&mut connection, "/groups/staff", &both, &[], &[]).expect(&rt, "members");
    check(
        &rt,
        members(&rt, alloc, &mut connection),
        "/groups/staff /people/ann; /groups/staff /people/bob",
    );
    let one = texts(&rt, alloc, &["/people/ann"]);
    set_members(&mut connection, "/groups/staff", &one, &[], &[]).expect(&rt, "members");
    check(
        &rt,
        members(&rt, alloc, &mut connection),
        "/groups/staff /people/ann",
    );
    check_number(&rt, epoch(&rt, &mut connection), 2);
    let twice = texts(&rt, alloc, &["/people/ann", "/people/ann"]);
    let refused = set_members(&mut connection, "/groups/staff", &twice, &[], &[]).is_err();
    check_fact(&rt, refused, "a member twice");
    check_number(&rt, epoch(&rt, &mut connection), 2);
    drop(connection);
}
