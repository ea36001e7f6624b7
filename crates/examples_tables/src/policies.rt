//! Adopting a policy (own profile): nodes, lists and members in one transaction.

use crate::checks::{check, check_fact, check_number};
use crate::committed::adopt_rows;
use crate::row_texts::{children, entries_at, epoch, members, store};
use book_tables_rows::{EntryRow, GroupRow, ListsRow, PlaceRow};
use sqlite::Error;
use std::alloc::Global;
use std::process::Abort;

fn text(rt: &impl Abort, alloc: Global, text: &str) -> String {
    String::from_str(alloc, text).expect(rt, "memory")
}

/// A person under the node of all persons, or a book under the node of all books.
fn place(
    rt: &impl Abort,
    alloc: Global,
    path: &str,
    is_book: bool,
    owner: Option<&str>,
    label: &str,
) -> PlaceRow {
    let owner = match owner {
        None => None,
        Some(path) => Some(text(rt, alloc, path)),
    };
    PlaceRow {
        path: text(rt, alloc, path),
        parent: text(rt, alloc, if is_book { "/books" } else { "/people" }),
        kind: if is_book { 4 } else { 2 },
        owner,
        label: text(rt, alloc, label),
    }
}

/// A list of one entry, of a form that names nobody.
fn entries(rt: &impl Abort, alloc: Global, form: u32, deny: bool, mask: u32) -> Vec<EntryRow> {
    let entry = EntryRow {
        form,
        principal: None,
        invert: false,
        deny,
        mask,
    };
    vec![in alloc; entry].expect(rt, "memory")
}

#[test]
fn a_policy_is_adopted(rt: HostRuntime) {
    let alloc = rt.alloc();
    let mut connection = store(&rt, alloc);
    let places = [
        place(&rt, alloc, "/people/ann", false, None, "Ann"),
        place(&rt, alloc, "/people/eve", false, None, "Eve"),
        place(&rt, alloc, "/books/law", true, Some("/people/eve"), "Law"),
    ];
    let lists = [ListsRow {
        path: text(&rt, alloc, "/books/law"),
        protected: entries(&rt, alloc, 4, false, 255),
        own: entries(&rt, alloc, 3, true, 1),
    }];
    let both = vec![in alloc;
        text(&rt, alloc, "/people/ann"),
        text(&rt, alloc, "/people/eve"),
    ];
    let groups = [GroupRow {
        group: text(&rt, alloc, "/groups/staff"),
        members: both.expect(&rt, "memory"),
    }];
    adopt_rows(&mut connection, &places, &lists, &groups, &[], &[]).expect(&rt, "a policy");
    check(
        &rt,
        children(&rt, alloc, &mut connection, "/people"),
        "5 /people/ann 2 - Ann 0; 6 /people/bob 2 - . 0; 8 /people/eve 2 - Eve 0",
    );
    check(
        &rt,
        children(&rt, alloc, &mut connection, "/books"),
        "9 /books/law 4 /people/eve Law 0",
    );
    check(
        &rt,
        entries_at(&rt, alloc, &mut connection, "/books/law"),
        "9 0 3 - 0 1 1; 9 1 4 - 0 0 255",
    );
    check(
        &rt,
        members(&rt, alloc, &mut connection),
        "/groups/staff /people/ann; /groups/staff /people/eve",
    );
    check_number(&rt, epoch(&rt, &mut connection), 1);
    drop((places, lists, groups));
    drop(connection);
}

#[test]
fn a_policy_that_names_nobody_changes_nothing(rt: HostRuntime) {
    let alloc = rt.alloc();
    let mut connection = store(&rt, alloc);
    let places = [
        place(&rt, alloc, "/people/eve", false, None, "Eve"),
        place(
            &rt,
            alloc,
            "/books/law",
            true,
            Some("/people/mallory"),
            "Law",
        ),
    ];
    let refused = adopt_rows(&mut connection, &places, &[], &[], &[], &[]).is_err();
    check_fact(&rt, refused, "nobody is mallory");
    let lists = [ListsRow {
        path: text(&rt, alloc, "/books/law"),
        protected: Vec::new(alloc),
        own: Vec::new(alloc),
    }];
    let none = Err(Error::QueryReturnedNoRows);
    let told = adopt_rows(&mut connection, &places[..1], &lists, &[], &[], &[]);
    check_fact(&rt, told == none, "no such book");
    check(
        &rt,
        children(&rt, alloc, &mut connection, "/people"),
        "5 /people/ann 2 - . 0; 6 /people/bob 2 - . 0",
    );
    check_number(&rt, epoch(&rt, &mut connection), 0);
    drop((places, lists));
    drop(connection);
}
