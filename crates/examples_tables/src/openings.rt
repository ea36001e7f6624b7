//! Opening a store whose rows reach the limits, or contradict one another: each condition broken alone.

use crate::acts::Acts;
use crate::checks::check_text;
use crate::new_tables::{name, principal, text};
use crate::row_texts::{begin, store};
use book_tables::{OpenFault, Tables};
use book_tables_opening::open;
use book_tables_rows::insert_node;
use sqlite::{Connection, MemStore, params};
use std::alloc::Global;
use std::process::Abort;

/// A store with ann, bob and the group staff, and ann's book `law`: a card, and the name of a card that was removed.
fn law(rt: &impl Abort, alloc: Global) -> Connection<MemStore> {
    let mut tables = Tables::over(store(rt, alloc));
    let law = name(rt, alloc, "law");
    let ann = Some(principal(rt, alloc, "/people/ann"));
    tables.add_book(alloc, &law, &ann).expect(rt, "a book");
    for card in ["a.vcf", "b.vcf"] {
        let (card, content) = (name(rt, alloc, card), text(rt, alloc, "one"));
        let put = tables.put_card(alloc, &law, &card, &ann, &content);
        put.expect(rt, "a card");
    }
    let removed = name(rt, alloc, "a.vcf");
    let remove = tables.remove_card(alloc, &law, &removed);
    remove.expect(rt, "removed");
    drop(ann);
    tables.release()
}

fn told(alloc: Global, connection: Connection<MemStore>) -> &'static str {
    match open(alloc, connection) {
        Ok(tables) => {
            drop(tables);
            "opened"
        }
        Err((fault, connection)) => {
            drop(connection);
            match fault {
                OpenFault::OtherVersion => "other-version",
                OpenFault::NoStore => "no-store",
                OpenFault::Memory => "memory",
                OpenFault::Store => "store",
            }
        }
    }
}

fn run(rt: &impl Abort, connection: &mut Connection<MemStore>, sql: &str) {
    connection.execute_batch(sql).expect(rt, sql);
}

/// Statements, and what is then told. The rows of the root and the homes are 1 to 4, those of ann, bob and staff 5 to
/// 7, the book's 8 and its card's 10; the book has the number 3, its card 2, and the removed name 3.
const TOLD: &[(&str, &str)] = &[
    ("", "opened"),
    (
        "UPDATE node SET owner = '/groups/staff' WHERE id = 8",
        "opened",
    ),
    ("UPDATE node SET parent = 2 WHERE id = 1", "no-store"),
    ("UPDATE node SET parent = NULL WHERE id = 5", "no-store"),
    ("UPDATE node SET parent = 3 WHERE id = 6", "no-store"),
    ("UPDATE node SET kind = 2 WHERE id = 7", "no-store"),
    (
        "UPDATE node SET path = '/people/bob/' WHERE id = 6",
        "no-store",
    ),
    (
        "DELETE FROM node WHERE id = 7; DELETE FROM node WHERE id = 3",
        "no-store",
    ),
    ("UPDATE node SET number = 1 WHERE id = 6", "no-store"),
    (
        "UPDATE node SET number = 9007199254740991 WHERE id = 8",
        "opened",
    ),
    (
        "UPDATE node SET number = 9007199254740992 WHERE id = 8",
        "no-store",
    ),
    ("UPDATE node SET number = 3 WHERE id = 10", "no-store"),
    ("UPDATE node SET number = 4 WHERE id = 10", "no-store"),
    ("UPDATE node SET number = 1 WHERE id = 10", "opened"),
    ("UPDATE gone SET number = 0", "no-store"),
    ("UPDATE gone SET book = 10, number = 1", "no-store"),
    ("UPDATE meta SET epoch = 9007199254740991", "opened"),
    ("UPDATE meta SET epoch = 9007199254740992", "no-store"),
    (
        "INSERT INTO member VALUES ('/groups/staff', '/groups/staff')",
        "opened",
    ),
    (
        "INSERT INTO member VALUES ('/people/ann', '/people/bob')",
        "no-store",
    ),
    (
        "INSERT INTO member VALUES ('/groups/staff', '/books/law')",
        "no-store",
    ),
    (
        "INSERT INTO ace2 VALUES (10, 0, 0, 0, '/people/bob', 1, 1, 511)",
        "opened",
    ),
    (
        "INSERT INTO ace2 VALUES (10, 0, 0, 0, '/books/law', 1, 1, 511)",
        "no-store",
    ),
    (
        "INSERT INTO ace2 VALUES (10, 0, 0, 1, '/people/bob', 1, 1, 511)",
        "no-store",
    ),
    (
        "INSERT INTO ace2 VALUES (10, 1, 0, 1, NULL, 1, 1, 511)",
        "no-store",
    ),
];

#[test]
fn rows_that_contradict_others_are_no_store(rt: HostRuntime) {
    let alloc = rt.alloc();
    for (sql, wanted) in TOLD {
        let mut connection = law(&rt, alloc);
        run(&rt, &mut connection, sql);
        check_text(&rt, told(alloc, connection), wanted, sql);
    }
}

/// Adds so many nodes of a kind under the node with a number; their paths are a text with a number behind it.
fn add_many(
    rt: &impl Abort,
    alloc: Global,
    connection: &mut Connection<MemStore>,
    front: &str,
    parent: i64,
    kind: u32,
    count: u64,
) {
    let mut transaction = begin(rt, connection);
    for at in 0..count {
        let path = format!(in alloc; "{front}{at}").expect(rt, "memory");
        let added = insert_node(
            &mut transaction,
            path.as_str(),
            parent,
            kind,
            None,
            "",
            None,
            0,
        );
        added.expect(rt, front);
    }
    transaction.commit().expect(rt, front);
}

/// Runs a statement that sets a column of the card to a text of so many bytes.
fn run_long(
    rt: &impl Abort,
    alloc: Global,
    connection: &mut Connection<MemStore>,
    sql: &str,
    count: u64,
) {
    let mut text = String::new(alloc);
    for _ in 0..count {
        text.push_str("x").expect(rt, "memory");
    }
    let set = connection.execute(sql, params![text.as_str()]);
    set.expect(rt, sql);
}

/// Entries at the root's own list, and one in its protected list.
fn add_entries(rt: &impl Abort, alloc: Global, connection: &mut Connection<MemStore>, count: u64) {
    for place in 0..count {
        let sql = format!(in alloc; "INSERT INTO ace2 VALUES (1, 0, {place}, 1, NULL, 0, 0, 1)");
        run(rt, connection, sql.expect(rt, "memory").as_str());
    }
    let other = "INSERT INTO ace2 VALUES (1, 1, 0, 1, NULL, 0, 0, 1)";
    run(rt, connection, other);
}

/// What is limited.
#[derive(Clone, Copy)]
enum Limit {
    /// Entries of a list: 64.
    Entries,
    /// Bytes of a label: 256.
    Label,
    /// Bytes of the text of a card: 65,536.
    Text,
    /// Direct members of a group: 1,000, of which two are ann and bob.
    Members,
    /// Books: 1,000, of which one is `law`.
    Books,
}

fn name_of(limit: Limit) -> &'static str {
    match limit {
        Limit::Entries => "entries",
        Limit::Label => "a label",
        Limit::Text => "a text",
        Limit::Members => "members",
        Limit::Books => "books",
    }
}

/// So many are added to reach the limit, or to pass it by one.
fn count_of(limit: Limit, behind: bool) -> u64 {
    let (at, past) = match limit {
        Limit::Entries => (64, 65),
        Limit::Label => (256, 257),
        Limit::Text => (65_536, 65_537),
        Limit::Members => (998, 999),
        Limit::Books => (999, 1_000),
    };
    if behind { past } else { at }
}

/// A store at the limit, or one behind it.
fn limited(rt: &impl Abort, alloc: Global, limit: Limit, behind: bool) -> Connection<MemStore> {
    let mut connection = law(rt, alloc);
    let count = count_of(limit, behind);
    match limit {
        Limit::Entries => add_entries(rt, alloc, &mut connection, count),
        Limit::Label => {
            let sql = "UPDATE node SET label = ?1 WHERE id = 10";
            run_long(rt, alloc, &mut connection, sql, count)
        }
        Limit::Text => {
            let sql = "UPDATE node SET text = ?1 WHERE id = 10";
            run_long(rt, alloc, &mut connection, sql, count)
        }
        Limit::Members => {
            add_many(rt, alloc, &mut connection, "/people/p", 2, 2, count);
            let all = "INSERT INTO member SELECT '/groups/staff', path FROM node WHERE kind = 2";
            run(rt, &mut connection, all)
        }
        Limit::Books => add_many(rt, alloc, &mut connection, "/books/b", 4, 4, count),
    }
    connection
}

#[test]
fn rows_beyond_a_limit_are_no_store(rt: HostRuntime) {
    let alloc = rt.alloc();
    for limit in [
        Limit::Entries,
        Limit::Label,
        Limit::Text,
        Limit::Members,
        Limit::Books,
    ] {
        for (behind, wanted) in [(false, "opened"), (true, "no-store")] {
            let connection = limited(&rt, alloc, limit, behind);
            check_text(&rt, told(alloc, connection), wanted, name_of(limit));
        }
    }
}
