//! What is found of a store that is there: its schema, its version, and its rows.

use crate::checks::{check, check_fact};
use crate::row_texts::{begin, node, store, whole_rows};
use book_tables_schema::{
    Generation, create, is_beside_reach, is_book_schema, reopen, says_other_version,
};
use sqlite::{Connection, MemStore};
use std::alloc::Global;
use std::process::Abort;

fn run(rt: &impl Abort, connection: &mut Connection<MemStore>, sql: &str) {
    connection.execute(sql, &[]).expect(rt, sql);
}

/// Whether the store says that it is of another version.
fn check_other(rt: &impl Abort, connection: &mut Connection<MemStore>, wanted: bool) {
    let mut transaction = begin(rt, connection);
    let is = says_other_version(&mut transaction, 2).expect(rt, "the version");
    drop(transaction);
    check_fact(rt, is == wanted, "the version");
}

/// Whether the schema is that of a store.
fn check_schema(rt: &impl Abort, connection: &Connection<MemStore>, wanted: bool) {
    check_fact(
        rt,
        is_book_schema(connection.schema()) == wanted,
        "the schema",
    );
}

#[test]
fn schemas_are_told_apart(rt: HostRuntime) {
    let alloc = rt.alloc();
    let mut connection = Connection::open_in_memory(alloc).expect(&rt, "memory");
    check_schema(&rt, &connection, false);
    create(&mut connection).expect(&rt, "a new store");
    check_schema(&rt, &connection, true);
    run(&rt, &mut connection, "DROP INDEX reach_grp");
    check_schema(&rt, &connection, false);
    let index = "CREATE INDEX reach_grp ON reach (member)";
    run(&rt, &mut connection, index);
    check_schema(&rt, &connection, false);
    run(&rt, &mut connection, "DROP INDEX reach_grp");
    let index = "CREATE INDEX reach_grp ON reach (grp)";
    run(&rt, &mut connection, index);
    check_schema(&rt, &connection, true);
    run(&rt, &mut connection, "DROP INDEX node_owner");
    let index = "CREATE INDEX node_owner ON node (owner)";
    run(&rt, &mut connection, index);
    check_schema(&rt, &connection, false);
    drop(connection);
}

/// What is done to a new store, and whether its tables are then those of a store, whatever table `reach` and whichever
/// of its own indexes it has.
const BESIDE: &[(&str, bool)] = &[
    ("", true),
    ("DROP TABLE reach", true),
    ("DROP INDEX reach_grp", true),
    ("CREATE INDEX reach_member ON reach (member)", true),
    ("DROP TABLE reach; CREATE TABLE reach (note TEXT)", true),
    ("DROP TABLE reach; CREATE TABLE REACH (note TEXT)", true),
    (
        "DROP TABLE reach; CREATE TABLE reach (id INTEGER PRIMARY KEY, above INTEGER REFERENCES reach)",
        false,
    ),
    (
        "DROP TABLE reach; CREATE TABLE reach (id INTEGER PRIMARY KEY AUTOINCREMENT)",
        false,
    ),
    ("DROP INDEX node_owner", true),
    (
        "DROP INDEX node_owner; CREATE INDEX node_owner ON node (owner)",
        true,
    ),
    (
        "DROP INDEX node_parent; CREATE UNIQUE INDEX Node_Parent ON gone (name, book)",
        true,
    ),
    (
        "DROP INDEX node_parent; DROP INDEX node_owner; DROP INDEX ace_principal; DROP INDEX member_member; DROP INDEX ace2_principal; DROP INDEX gone_book; DROP INDEX reach_grp",
        true,
    ),
    ("CREATE TABLE note (text TEXT)", false),
    ("DROP TABLE reach; CREATE TABLE note (text TEXT)", false),
    ("CREATE INDEX node_label ON node (label)", false),
    ("CREATE VIEW all_nodes AS SELECT path FROM node", false),
];

fn check_beside(
    rt: &impl Abort,
    alloc: Global,
    connection: &Connection<MemStore>,
    generation: Generation,
    wanted: bool,
    sql: &str,
) {
    let is = is_beside_reach(alloc, connection.schema(), generation).expect(rt, "memory");
    check_fact(rt, is == wanted, sql);
}

#[test]
fn tables_stand_beside_any_reach_and_indexes(rt: HostRuntime) {
    let alloc = rt.alloc();
    for (sql, wanted) in BESIDE {
        let mut connection = Connection::open_in_memory(alloc).expect(&rt, "memory");
        check_beside(&rt, alloc, &connection, Generation::Second, false, sql);
        create(&mut connection).expect(&rt, "a new store");
        connection.execute_batch(sql).expect(&rt, sql);
        check_beside(&rt, alloc, &connection, Generation::Second, *wanted, sql);
        for other in [Generation::First, Generation::Former] {
            check_beside(&rt, alloc, &connection, other, false, sql);
        }
        drop(connection);
    }
}

#[test]
fn versions_are_told_apart(rt: HostRuntime) {
    let alloc = rt.alloc();
    let mut connection = store(&rt, alloc);
    check_other(&rt, &mut connection, false);
    run(&rt, &mut connection, "UPDATE meta SET version = 3");
    check_other(&rt, &mut connection, true);
    run(
        &rt,
        &mut connection,
        "INSERT INTO meta (version, epoch) VALUES (3, 0)",
    );
    check_other(&rt, &mut connection, false);
    let mut foreign = Connection::open_in_memory(alloc).expect(&rt, "memory");
    check_other(&rt, &mut foreign, false);
    run(
        &rt,
        &mut foreign,
        "CREATE TABLE meta (name TEXT, version TEXT)",
    );
    check_other(&rt, &mut foreign, false);
    run(
        &rt,
        &mut foreign,
        "INSERT INTO meta (version) VALUES ('new')",
    );
    check_other(&rt, &mut foreign, true);
    drop(connection);
    drop(foreign);
}

#[test]
fn a_store_that_is_opened_again_has_its_rows(rt: HostRuntime) {
    let alloc = rt.alloc();
    let connection = store(&rt, alloc);
    let mut connection = reopen(alloc, connection).ok().expect(&rt, "an open");
    check_schema(&rt, &connection, true);
    check(
        &rt,
        node(&rt, alloc, &mut connection, "/groups/staff"),
        "3 - \"\" - 0",
    );
    check(
        &rt,
        whole_rows(&rt, alloc, &mut connection),
        "7 nodes, 0 entries, 0 removed, meta 2 0",
    );
    drop(connection);
}
