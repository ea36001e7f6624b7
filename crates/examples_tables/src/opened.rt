//! Opening a store that is there: as it was left, and with rows that are changed by hand.

use crate::acts::Acts;
use crate::checks::{check, check_text};
use crate::new_tables::{found, name, tables, text};
use book_tables::{OpenFault, Tables};
use book_tables_opening::open;
use sqlite::{Connection, MemStore};
use std::alloc::Global;
use std::process::Abort;

/// A store with the book `law`, one card in it, and the name of a card that was removed.
fn law(rt: &impl Abort, alloc: Global) -> Connection<MemStore> {
    let mut tables = tables(rt, alloc);
    let law = name(rt, alloc, "law");
    tables.add_book(alloc, &law, &None).expect(rt, "a book");
    for card in ["a.vcf", "b.vcf"] {
        let (card, content) = (name(rt, alloc, card), text(rt, alloc, "one"));
        let put = tables.put_card(alloc, &law, &card, &None, &content);
        put.expect(rt, "a card");
    }
    let removed = name(rt, alloc, "a.vcf");
    let remove = tables.remove_card(alloc, &law, &removed);
    remove.expect(rt, "removed");
    tables.release()
}

/// A store with no tables.
fn bare(rt: &impl Abort, alloc: Global) -> Connection<MemStore> {
    Connection::open_in_memory(alloc).expect(rt, "memory")
}

fn opened(rt: &impl Abort, alloc: Global, connection: Connection<MemStore>) -> Tables<MemStore> {
    let tables = open(alloc, connection);
    tables.ok().expect(rt, "an Office")
}

fn name_of(fault: OpenFault) -> &'static str {
    match fault {
        OpenFault::OtherVersion => "other-version",
        OpenFault::NoStore => "no-store",
        OpenFault::Memory => "memory",
        OpenFault::Store => "store",
    }
}

/// What is told of a store that is opened.
fn told_of(alloc: Global, connection: Connection<MemStore>) -> &'static str {
    match open(alloc, connection).err() {
        None => "opened",
        Some((fault, left)) => {
            drop(left);
            name_of(fault)
        }
    }
}

/// What is told of a store in which statements were run.
fn told(alloc: Global, mut connection: Connection<MemStore>, sql: &str) -> &'static str {
    if connection.execute_batch(sql).is_ok() {
        told_of(alloc, connection)
    } else {
        drop(connection);
        "refused"
    }
}

/// Statements, and what is then told: each condition that the rows of an Office keep, broken once, and rules that are
/// not those of the tables, taken away or added.
const TOLD: &[(&str, &str)] = &[
    (
        "UPDATE node SET label = 'Law' WHERE path = '/books/law'",
        "opened",
    ),
    ("UPDATE meta SET version = 3", "other-version"),
    ("UPDATE meta SET version = 1", "other-version"),
    ("DELETE FROM meta", "no-store"),
    ("INSERT INTO meta VALUES (2, 0)", "no-store"),
    ("UPDATE meta SET epoch = 0 - 1", "no-store"),
    (
        "UPDATE node SET kind = 3 WHERE path = '/books/law'",
        "no-store",
    ),
    (
        "UPDATE node SET parent = 1 WHERE path = '/books/law'",
        "no-store",
    ),
    (
        "UPDATE node SET path = '/books/la w' WHERE path = '/books/law'",
        "no-store",
    ),
    (
        "UPDATE node SET text = 'x' WHERE path = '/books'",
        "no-store",
    ),
    (
        "UPDATE node SET text = '' WHERE path = '/groups'",
        "no-store",
    ),
    (
        "INSERT INTO node (path, parent, kind, owner, label, text, number) SELECT '/groups/staff', id, 3, NULL, '', NULL, 0 FROM node WHERE path = '/groups'",
        "opened",
    ),
    (
        "INSERT INTO node (path, parent, kind, owner, label, text, number) SELECT '/groups/staff', id, 3, NULL, '', 'x', 0 FROM node WHERE path = '/groups'",
        "no-store",
    ),
    (
        "UPDATE node SET text = NULL WHERE path = '/books/law/b.vcf'",
        "no-store",
    ),
    (
        "UPDATE node SET label = CAST(x'ff' AS TEXT) WHERE path = '/books/law'",
        "no-store",
    ),
    (
        "UPDATE node SET text = CAST(x'ff' AS TEXT) WHERE path = '/books/law/b.vcf'",
        "no-store",
    ),
    (
        "UPDATE node SET owner = '/books' WHERE path = '/books/law'",
        "no-store",
    ),
    (
        "UPDATE node SET number = 2 WHERE path = '/books/law'",
        "no-store",
    ),
    (
        "UPDATE node SET number = 3 WHERE path = '/books/law/b.vcf'",
        "no-store",
    ),
    (
        "UPDATE node SET number = 0 WHERE path = '/books/law/b.vcf'",
        "no-store",
    ),
    (
        "UPDATE node SET number = 1 WHERE path = '/people'",
        "no-store",
    ),
    ("UPDATE gone SET name = 'b.vcf'", "no-store"),
    ("UPDATE gone SET name = 'a/vcf'", "no-store"),
    ("UPDATE gone SET book = 1", "no-store"),
    (
        "INSERT INTO member VALUES ('/groups', '/people')",
        "no-store",
    ),
    (
        "INSERT INTO ace2 VALUES (1, 0, 7, 5, NULL, 0, 1, 511)",
        "opened",
    ),
    (
        "INSERT INTO ace VALUES (1, 0, 7, 5, NULL, 0, 1, 255)",
        "no-store",
    ),
    (
        "INSERT INTO ace2 VALUES (1, 0, 7, 0, '/people', 0, 1, 255)",
        "no-store",
    ),
    (
        "INSERT INTO ace2 VALUES (1, 0, 7, 5, NULL, 0, 2, 255)",
        "no-store",
    ),
    (
        "INSERT INTO ace2 SELECT id, 1, 0, 5, NULL, 0, 1, 255 FROM node WHERE kind = 5",
        "no-store",
    ),
    (
        "INSERT INTO ace2 VALUES (1, 0, 0 - 1, 5, NULL, 0, 1, 255)",
        "no-store",
    ),
    (
        "INSERT INTO ace2 VALUES (1, 0, 7, 5, NULL, 0, 1, 512)",
        "no-store",
    ),
    (
        "INSERT INTO ace2 VALUES (1, 0, 7, 6, NULL, 0, 1, 255)",
        "no-store",
    ),
    (
        "INSERT INTO ace2 VALUES (1, 0, 7, 0, NULL, 0, 1, 255)",
        "no-store",
    ),
    (
        "INSERT INTO ace2 VALUES (1, 0, 7, 5, NULL, 2, 1, 255)",
        "no-store",
    ),
    (
        "INSERT INTO ace2 VALUES (1, 2, 7, 5, NULL, 0, 1, 255)",
        "no-store",
    ),
    ("DROP INDEX node_owner", "opened"),
    ("DROP INDEX gone_book", "opened"),
    ("CREATE INDEX node_label ON node (label)", "no-store"),
    (
        "CREATE TABLE note (id INTEGER PRIMARY KEY) STRICT",
        "no-store",
    ),
    ("CREATE VIEW names AS SELECT path FROM node", "no-store"),
    (
        "DROP TABLE meta; CREATE TABLE meta (version INTEGER, epoch INTEGER NOT NULL) STRICT; INSERT INTO meta VALUES (2, 0)",
        "no-store",
    ),
    (
        "DROP TABLE member; CREATE TABLE member (grp TEXT NOT NULL, member TEXT NOT NULL REFERENCES node (path), PRIMARY KEY (grp, member)) STRICT; CREATE INDEX member_member ON member (member)",
        "no-store",
    ),
    (
        "DROP TABLE gone; UPDATE meta SET version = 3",
        "other-version",
    ),
];

/// Statements on a store with no tables, and what is then told.
const TOLD_OF_OTHERS: &[(&str, &str)] = &[
    ("", "no-store"),
    (
        "CREATE TABLE note (id INTEGER PRIMARY KEY) STRICT",
        "no-store",
    ),
    (
        "CREATE TABLE meta (version INTEGER NOT NULL); INSERT INTO meta VALUES (3)",
        "other-version",
    ),
    (
        "CREATE TABLE meta (version INTEGER NOT NULL); INSERT INTO meta VALUES (3), (3)",
        "no-store",
    ),
];

#[test]
fn rows_of_no_office_are_no_store(rt: HostRuntime) {
    let alloc = rt.alloc();
    for (sql, wanted) in TOLD {
        let told = told(alloc, law(&rt, alloc), sql);
        check_text(&rt, told, wanted, sql);
    }
    for (sql, wanted) in TOLD_OF_OTHERS {
        let told = told(alloc, bare(&rt, alloc), sql);
        check_text(&rt, told, wanted, sql);
    }
}

/// The same Office, the removed name and the numbers too: a card that is put again takes the next one.
#[test]
fn a_store_is_opened_as_it_was_left(rt: HostRuntime) {
    let alloc = rt.alloc();
    let mut tables = opened(&rt, alloc, law(&rt, alloc));
    check(
        &rt,
        found(&rt, alloc, &mut tables, "/books/law"),
        "\"\" - 3",
    );
    let (law, card) = (name(&rt, alloc, "law"), name(&rt, alloc, "a.vcf"));
    let content = text(&rt, alloc, "two");
    let put = tables.put_card(alloc, &law, &card, &None, &content);
    put.expect(&rt, "a card");
    for (at, wanted) in [
        ("/books/law/a.vcf", "\"\" two 4"),
        ("/books/law/b.vcf", "\"\" one 2"),
    ] {
        check(&rt, found(&rt, alloc, &mut tables, at), wanted);
    }
    drop(tables);
}
