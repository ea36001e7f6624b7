//! The table `reach`: renewed with each edit of members, made where it is missing, and asked for the groups of a
//! caller.

use crate::acts::Acts;
use crate::checks::{check, check_fact, check_number};
use crate::new_tables::principal;
use crate::row_texts::{reach, store};
use book_lists::{Caller, Circle, Principal};
use book_office::Keeper;
use book_office_values::Items;
use book_tables::{Tables, reached};
use book_tables_opening::open;
use book_tables_schema::{Generation, Unopened, is_beside_reach, is_book_schema};
use sqlite::{Connection, MemStore};
use std::alloc::Global;
use std::process::Abort;

const STAFF: &str = "/groups/staff";

const ALL: &str = "/groups/staff /people/ann; /groups/staff /people/bob";

fn opened(rt: &impl Abort, alloc: Global, connection: Connection<MemStore>) -> Tables<MemStore> {
    open(alloc, connection).ok().expect(rt, "an Office")
}

fn set_staff(rt: &impl Abort, alloc: Global, tables: &mut Tables<MemStore>, members: &[&str]) {
    let mut all = Items::new(alloc);
    for member in members {
        all.push(principal(rt, alloc, member)).expect(rt, "memory");
    }
    let staff = principal(rt, alloc, STAFF);
    let set = tables.set_members(alloc, &staff, &all);
    set.expect(rt, "members");
}

/// A store where ann and bob are in the group staff.
fn staffed(rt: &impl Abort, alloc: Global) -> Connection<MemStore> {
    let mut tables = opened(rt, alloc, store(rt, alloc));
    set_staff(rt, alloc, &mut tables, &["/people/ann", "/people/bob"]);
    tables.release()
}

fn run(rt: &impl Abort, connection: &mut Connection<MemStore>, sql: &str) {
    connection.execute_batch(sql).expect(rt, sql);
}

fn caller(rt: &impl Abort, alloc: Global, path: &str) -> Caller {
    Caller::Known(principal(rt, alloc, path))
}

/// Which of ann, bob and staff the caller belongs to.
fn check_circle(rt: &impl Abort, alloc: Global, circle: &Circle, wanted: [bool; 3]) {
    let has = |path: &str| -> bool {
        let principal: Principal = principal(rt, alloc, path);
        circle.has(&principal)
    };
    let told = [has("/people/ann"), has("/people/bob"), has(STAFF)];
    check_fact(rt, told == wanted, "the principals of a caller");
}

/// What is told of bob by the rows of `reach`.
fn check_bob(
    rt: &impl Abort,
    alloc: Global,
    connection: &mut Connection<MemStore>,
    wanted: [bool; 3],
) {
    let bob = caller(rt, alloc, "/people/bob");
    let circle = reached(alloc, connection, &bob).expect(rt, "a circle");
    check_circle(rt, alloc, &circle, wanted);
    drop((bob, circle));
}

#[test]
fn a_caller_is_in_the_groups_that_reach_tells(rt: HostRuntime) {
    let alloc = rt.alloc();
    let mut connection = staffed(&rt, alloc);
    check(&rt, reach(&rt, alloc, &mut connection), ALL);
    check_bob(&rt, alloc, &mut connection, [false, true, true]);
    let none = reached(alloc, &mut connection, &Caller::Nobody).expect(&rt, "a circle");
    check_circle(&rt, alloc, &none, [false, false, false]);
    drop(none);
    run(
        &rt,
        &mut connection,
        "DELETE FROM reach WHERE member = '/people/bob'",
    );
    check_bob(&rt, alloc, &mut connection, [false, true, false]);
    let insert = "INSERT INTO reach VALUES ('/people/ann', '/people/bob')";
    run(&rt, &mut connection, insert);
    check_bob(&rt, alloc, &mut connection, [false, true, false]);
    drop(connection);
}

#[test]
fn members_are_set_with_reach(rt: HostRuntime) {
    let alloc = rt.alloc();
    let mut tables = opened(&rt, alloc, staffed(&rt, alloc));
    let bob = caller(&rt, alloc, "/people/bob");
    let circle = tables.circle(alloc, &bob).expect(&rt, "a circle");
    check_circle(&rt, alloc, &circle, [false, true, true]);
    drop(circle);
    set_staff(&rt, alloc, &mut tables, &["/people/ann"]);
    let circle = tables.circle(alloc, &bob).expect(&rt, "a circle");
    check_circle(&rt, alloc, &circle, [false, true, false]);
    drop((bob, circle));
    check_number(&rt, tables.failures(), 0);
    let mut connection = tables.release();
    check(
        &rt,
        reach(&rt, alloc, &mut connection),
        "/groups/staff /people/ann",
    );
    drop(connection);
}

/// What is done to `reach` or to the indexes, which are then made anew.
const DONE: &[&str] = &[
    "",
    "DELETE FROM reach",
    "INSERT INTO reach VALUES ('/people/ann', '/people/bob')",
    "INSERT INTO reach VALUES ('/books', '/people')",
    "DROP TABLE reach",
    "DROP INDEX reach_grp",
    "DROP TABLE reach; CREATE TABLE reach (note TEXT); INSERT INTO reach VALUES ('one')",
    "DROP TABLE reach; CREATE TABLE reach (id INTEGER PRIMARY KEY, note TEXT UNIQUE); CREATE INDEX notes ON reach (note)",
    "DROP TABLE reach; CREATE TABLE REACH (note TEXT)",
    "DROP INDEX node_parent",
    "DROP INDEX node_parent; CREATE INDEX node_parent ON node (parent, number)",
    "DROP INDEX gone_book; CREATE UNIQUE INDEX Gone_Book ON gone (name, book, number)",
    "DROP INDEX node_parent; DROP INDEX node_owner; DROP INDEX ace_principal; DROP INDEX member_member; DROP INDEX ace2_principal; DROP INDEX gone_book; DROP TABLE reach",
];

#[test]
fn a_store_is_opened_whatever_reach_and_indexes_it_has(rt: HostRuntime) {
    let alloc = rt.alloc();
    for sql in DONE {
        let mut connection = staffed(&rt, alloc);
        run(&rt, &mut connection, sql);
        let mut connection = opened(&rt, alloc, connection).release();
        check_fact(&rt, is_book_schema(connection.schema()), sql);
        check(&rt, reach(&rt, alloc, &mut connection), ALL);
        drop(connection);
    }
}

#[test]
fn a_store_of_no_office_gets_no_reach(rt: HostRuntime) {
    let alloc = rt.alloc();
    let mut connection = staffed(&rt, alloc);
    run(&rt, &mut connection, "DROP TABLE reach; DELETE FROM meta");
    let left = open(alloc, connection).err().expect(&rt, "a fault").1;
    let connection = match left {
        Unopened::Connection(connection) => Some(connection),
        Unopened::Store(store) => {
            drop(store);
            None
        }
    }
    .expect(&rt, "the connection");
    let is = is_beside_reach(alloc, connection.schema(), Generation::Second).expect(&rt, "memory");
    let whole = is_book_schema(connection.schema());
    drop(connection);
    check_fact(&rt, is, "tables beside any reach");
    check_fact(&rt, !whole, "no reach is made");
}
