//! Stores of version 1, and of version 2 in the former order, which are made by the texts that made them then, and what a
//! migration makes of them.

use crate::checks::{check, check_fact, check_number, check_text};
use crate::new_tables::{found, tables};
use crate::row_texts::reach;
use book_tables::{OpenFault, Tables};
use book_tables_migrating::migrate;
use book_tables_opening::open;
use book_tables_schema::is_book_schema;
use sqlite::{Connection, MemStore};
use std::alloc::Global;
use std::process::Abort;

/// The tables of version 1 and their indexes.
const FIRST_TABLES: &str =
    "CREATE TABLE node (id INTEGER PRIMARY KEY, path TEXT NOT NULL UNIQUE, parent INTEGER REFERENCES node ON DELETE CASCADE, kind INTEGER NOT NULL, owner TEXT REFERENCES node (path), label TEXT NOT NULL, text TEXT, number INTEGER NOT NULL) STRICT;
CREATE TABLE ace (node INTEGER NOT NULL REFERENCES node ON DELETE CASCADE, protected INTEGER NOT NULL, place INTEGER NOT NULL, form INTEGER NOT NULL, principal TEXT REFERENCES node (path), invert INTEGER NOT NULL, deny INTEGER NOT NULL, mask INTEGER NOT NULL, PRIMARY KEY (node, protected, place)) STRICT;
CREATE TABLE member (grp TEXT NOT NULL REFERENCES node (path), member TEXT NOT NULL REFERENCES node (path), PRIMARY KEY (grp, member)) STRICT;
CREATE TABLE gone (book INTEGER NOT NULL REFERENCES node ON DELETE CASCADE, name TEXT NOT NULL, number INTEGER NOT NULL, PRIMARY KEY (book, name)) STRICT;
CREATE TABLE meta (version INTEGER NOT NULL, epoch INTEGER NOT NULL) STRICT;
CREATE INDEX node_parent ON node (parent, number);
CREATE INDEX node_owner ON node (owner);
CREATE INDEX ace_principal ON ace (principal);
CREATE INDEX member_member ON member (member)";

/// Two persons, a group, a book with a card and a removed name, and five entries: the first two are protected ones of the
/// root, the next two are of the book, and the last is the card's; one more of the root was taken out.
const FIRST_ROWS: &str = "INSERT INTO meta VALUES (1, 7);
INSERT INTO node VALUES (1, '/', NULL, 0, NULL, '', NULL, 0), (2, '/people', 1, 1, NULL, '', NULL, 0), (3, '/groups', 1, 1, NULL, '', NULL, 0), (4, '/books', 1, 1, NULL, '', NULL, 0);
INSERT INTO node VALUES (5, '/people/ann', 2, 2, NULL, 'Ann', NULL, 0), (6, '/people/gus', 2, 2, NULL, 'Gus', NULL, 0), (7, '/groups/staff', 3, 3, NULL, 'Staff', NULL, 0);
INSERT INTO node VALUES (8, '/books/sales', 4, 4, '/people/ann', 'Sales', NULL, 3), (9, '/books/sales/b.vcf', 8, 5, '/people/ann', '', 'one', 3);
INSERT INTO member VALUES ('/groups/staff', '/people/gus');
INSERT INTO gone VALUES (8, 'a.vcf', 2);
INSERT INTO ace VALUES (1, 1, 0, 4, NULL, 0, 0, 255), (1, 1, 1, 2, NULL, 0, 0, 9), (1, 0, 0, 1, NULL, 0, 0, 1), (8, 0, 0, 0, '/people/ann', 0, 0, 255), (8, 0, 1, 0, '/groups/staff', 1, 1, 17), (9, 0, 0, 1, NULL, 0, 0, 5);
DELETE FROM ace WHERE mask = 1";

/// What makes of a store of version 1 one of version 2 in the former order.
const FORMER_STORE: &str =
    "CREATE TABLE ace2 (node INTEGER NOT NULL REFERENCES node ON DELETE CASCADE, protected INTEGER NOT NULL, place INTEGER NOT NULL, form INTEGER NOT NULL, principal TEXT REFERENCES node (path), invert INTEGER NOT NULL, deny INTEGER NOT NULL, mask INTEGER NOT NULL, PRIMARY KEY (node, protected, place)) STRICT;
CREATE INDEX ace2_principal ON ace2 (principal);
CREATE INDEX gone_book ON gone (book, number);
CREATE TABLE reach (grp TEXT NOT NULL REFERENCES node (path), member TEXT NOT NULL REFERENCES node (path), PRIMARY KEY (member, grp)) STRICT;
CREATE INDEX reach_grp ON reach (grp);
INSERT INTO ace2 (rowid, node, protected, place, form, principal, invert, deny, mask) SELECT rowid, node, protected, place, form, principal, invert, deny, mask + 256 * (mask % 2) FROM ace;
DELETE FROM ace;
UPDATE meta SET version = 2;
INSERT INTO reach VALUES ('/groups/staff', '/people/gus')";

/// A store of version 2 in the former order.
fn former(rt: &impl Abort, alloc: Global) -> Connection<MemStore> {
    let mut connection = first(rt, alloc);
    connection
        .execute_batch(FORMER_STORE)
        .expect(rt, FORMER_STORE);
    connection
}

/// A store of version 1.
fn first(rt: &impl Abort, alloc: Global) -> Connection<MemStore> {
    let mut connection = Connection::open_in_memory(alloc).expect(rt, "memory");
    for sql in [FIRST_TABLES, FIRST_ROWS] {
        connection.execute_batch(sql).expect(rt, sql);
    }
    connection
}

/// A store with no tables.
fn bare(rt: &impl Abort, alloc: Global) -> Connection<MemStore> {
    Connection::open_in_memory(alloc).expect(rt, "memory")
}

fn name_of(fault: OpenFault) -> &'static str {
    match fault {
        OpenFault::OtherVersion => "other-version",
        OpenFault::NoStore => "no-store",
        OpenFault::Memory => "memory",
        OpenFault::Store => "store",
    }
}

/// What is told of a store that is migrated.
fn told_of(alloc: Global, connection: Connection<MemStore>) -> &'static str {
    match migrate(alloc, connection) {
        Ok((tables, _)) => {
            drop(tables);
            "migrated"
        }
        Err((fault, left)) => {
            drop(left);
            name_of(fault)
        }
    }
}

/// What is told of one in which statements were run.
fn told(alloc: Global, mut connection: Connection<MemStore>, sql: &str) -> &'static str {
    if connection.execute_batch(sql).is_ok() {
        told_of(alloc, connection)
    } else {
        drop(connection);
        "refused"
    }
}

fn migrated(
    rt: &impl Abort,
    alloc: Global,
    connection: Connection<MemStore>,
) -> (Tables<MemStore>, u64) {
    match migrate(alloc, connection) {
        Ok(migrated) => Some(migrated),
        Err((_fault, left)) => {
            drop(left);
            None
        }
    }
    .expect(rt, "migrated")
}

/// The numbers that a query shows, with a space after each.
fn numbers(
    rt: &impl Abort,
    alloc: Global,
    connection: &mut Connection<MemStore>,
    sql: &str,
) -> String {
    let rows = connection.query_all(sql, &[]).expect(rt, sql);
    let mut all = String::new(alloc);
    for row in &rows {
        let number: i64 = row.get(0).expect(rt, sql);
        let text = format!(in alloc; "{number} ").expect(rt, "memory");
        all.push_str(text.as_str()).expect(rt, "memory");
    }
    drop(rows);
    all
}

/// Queries of a store of version 1 that was migrated, and what they show: an entry has bit 8 where it has bit 0, the rows
/// keep their numbers, the old table is empty, and version and epoch are 2 and 7.
const MIGRATED: &[(&str, &str)] = &[
    (
        "SELECT mask FROM ace2 ORDER BY rowid",
        "511 265 511 273 261 ",
    ),
    (
        "SELECT rowid FROM ace2 ORDER BY node, protected, place",
        "1 2 4 5 6 ",
    ),
    ("SELECT form FROM ace2 ORDER BY rowid", "4 2 0 0 1 "),
    (
        "SELECT invert FROM ace2 WHERE principal = '/groups/staff'",
        "1 ",
    ),
    ("SELECT count(*) FROM ace", "0 "),
    ("SELECT version FROM meta", "2 "),
    ("SELECT epoch FROM meta", "7 "),
    ("SELECT number FROM gone", "2 "),
];

/// Each of these statements shows what is wanted.
fn check_shown(rt: &impl Abort, alloc: Global, connection: &mut Connection<MemStore>) {
    for (sql, wanted) in MIGRATED {
        let shown = numbers(rt, alloc, connection, sql);
        check(rt, shown, wanted);
    }
}

#[test]
fn a_store_of_version_1_is_migrated(rt: HostRuntime) {
    let alloc = rt.alloc();
    let (mut tables, entries) = migrated(&rt, alloc, first(&rt, alloc));
    check_number(&rt, entries, 5);
    let at = found(&rt, alloc, &mut tables, "/books/sales/b.vcf");
    check(&rt, at, "\"\" one 3");
    let mut connection = tables.release();
    check_shown(&rt, alloc, &mut connection);
    let opened = open(alloc, connection).ok().expect(&rt, "opened");
    check_text(
        &rt,
        told_of(alloc, opened.release()),
        "other-version",
        "again",
    );
}

/// Statements on a store of version 1, and what is told of its migration.
const TOLD: &[(&str, &str)] = &[
    ("UPDATE node SET label = 'Law' WHERE id = 8", "migrated"),
    ("DELETE FROM ace", "migrated"),
    ("UPDATE meta SET version = 2", "other-version"),
    ("UPDATE meta SET version = 0", "other-version"),
    ("DELETE FROM meta", "no-store"),
    ("INSERT INTO meta VALUES (1, 0)", "no-store"),
    ("UPDATE meta SET epoch = 0 - 1", "no-store"),
    ("UPDATE ace SET mask = 256 WHERE node = 9", "no-store"),
    ("UPDATE ace SET mask = 0 - 1 WHERE node = 9", "no-store"),
    ("UPDATE ace SET deny = 2 WHERE node = 9", "no-store"),
    ("UPDATE node SET kind = 3 WHERE id = 8", "no-store"),
    (
        "UPDATE node SET label = CAST(x'ff' AS TEXT) WHERE id = 8",
        "no-store",
    ),
    ("DROP INDEX node_owner", "migrated"),
    ("CREATE INDEX gone_book ON gone (book, number)", "migrated"),
    ("CREATE INDEX node_label ON node (label)", "no-store"),
    (
        "CREATE TABLE note (id INTEGER PRIMARY KEY) STRICT",
        "no-store",
    ),
    ("CREATE TABLE reach (note TEXT)", "migrated"),
    (
        "CREATE TABLE reach (id INTEGER PRIMARY KEY, above INTEGER REFERENCES reach ON DELETE CASCADE)",
        "no-store",
    ),
];

/// A table `reach` in a store of version 1: right, wrong, and of other columns.
const REACHES: &[&str] = &[
    "CREATE TABLE reach (grp TEXT NOT NULL REFERENCES node (path), member TEXT NOT NULL REFERENCES node (path), PRIMARY KEY (member, grp)) STRICT; CREATE INDEX reach_grp ON reach (grp); INSERT INTO reach VALUES ('/groups/staff', '/people/gus')",
    "CREATE TABLE reach (grp TEXT NOT NULL REFERENCES node (path), member TEXT NOT NULL REFERENCES node (path), PRIMARY KEY (member, grp)) STRICT; INSERT INTO reach VALUES ('/groups/staff', '/people/ann')",
    "CREATE TABLE reach (id INTEGER PRIMARY KEY, note TEXT UNIQUE); INSERT INTO reach (note) VALUES ('one'); CREATE INDEX notes ON reach (note)",
];

/// A store is migrated: it has the schema of a store, its rows of `reach`, and what else was in it.
fn check_migrated(rt: &impl Abort, alloc: Global, connection: Connection<MemStore>, of: &str) {
    let (tables, entries) = migrated(rt, alloc, connection);
    check_number(rt, entries, 5);
    let mut connection = tables.release();
    check_fact(rt, is_book_schema(connection.schema()), of);
    let pairs = reach(rt, alloc, &mut connection);
    check(rt, pairs, "/groups/staff /people/gus");
    check_shown(rt, alloc, &mut connection);
    drop(connection);
}

#[test]
fn reach_of_a_store_of_version_1_is_made_anew(rt: HostRuntime) {
    let alloc = rt.alloc();
    for sql in REACHES {
        let mut connection = first(&rt, alloc);
        connection.execute_batch(sql).expect(&rt, sql);
        check_migrated(&rt, alloc, connection, sql);
    }
}

#[test]
fn rows_that_are_not_of_version_1_are_not_migrated(rt: HostRuntime) {
    let alloc = rt.alloc();
    for (sql, wanted) in TOLD {
        let told = told(alloc, first(&rt, alloc), sql);
        check_text(&rt, told, wanted, sql);
    }
    let told = told_of(alloc, bare(&rt, alloc));
    check_text(&rt, told, "no-store", "no tables");
    let told = told_of(alloc, tables(&rt, alloc).release());
    check_text(&rt, told, "other-version", "new tables");
}

/// Statements on a store in the former order, and what is told of its migration.
const FORMER_TOLD: &[(&str, &str)] = &[
    ("", "migrated"),
    ("DROP TABLE reach", "migrated"),
    (
        "DROP TABLE reach; CREATE TABLE REACH (note TEXT)",
        "migrated",
    ),
    ("DROP INDEX node_owner; DROP INDEX gone_book", "migrated"),
    ("UPDATE ace2 SET mask = 256 WHERE node = 9", "migrated"),
    ("DELETE FROM ace2", "migrated"),
    ("INSERT INTO ace SELECT * FROM ace2", "other-version"),
    ("UPDATE ace2 SET mask = 512 WHERE node = 9", "other-version"),
    ("UPDATE meta SET version = 1", "no-store"),
    ("CREATE INDEX node_label ON node (label)", "other-version"),
];

#[test]
fn a_store_in_the_former_order_is_migrated(rt: HostRuntime) {
    let alloc = rt.alloc();
    let closed = open(alloc, former(&rt, alloc)).err().expect(&rt, "a fault");
    let (fault, left) = closed;
    drop(left);
    check_text(&rt, name_of(fault), "no-store", "the former order");
    check_migrated(&rt, alloc, former(&rt, alloc), "the former order");
    for (sql, wanted) in FORMER_TOLD {
        let told = told(alloc, former(&rt, alloc), sql);
        check_text(&rt, told, wanted, sql);
    }
}
