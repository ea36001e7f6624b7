//! A new store: the root and the three homes, epoch 0.

use crate::checks::{check, check_fact, check_number};
use crate::row_texts::{begin, children, epoch, node};
use book_tables_rows::count_children;
use book_tables_schema::create;
use sqlite::{Connection, Error, ErrorCode};

#[test]
fn a_new_store_has_the_root_and_the_homes(rt: HostRuntime) {
    let alloc = rt.alloc();
    let mut connection = Connection::open_in_memory(alloc).expect(&rt, "memory");
    create(&mut connection).expect(&rt, "a new store");
    check(&rt, node(&rt, alloc, &mut connection, "/"), "0 - \"\" - 0");
    check(
        &rt,
        children(&rt, alloc, &mut connection, "/"),
        "4 /books 1 - . 0; 3 /groups 1 - . 0; 2 /people 1 - . 0",
    );
    check_number(&rt, epoch(&rt, &mut connection), 0);
    let mut transaction = begin(&rt, &mut connection);
    let homes = count_children(&mut transaction, "/").expect(&rt, "a count");
    let none = count_children(&mut transaction, "/x").expect(&rt, "a count");
    drop(transaction);
    check_fact(&rt, homes == 3 && none == 0, "the counts");
    drop(connection);
}

#[test]
fn a_store_with_tables_is_not_founded(rt: HostRuntime) {
    let alloc = rt.alloc();
    let mut connection = Connection::open_in_memory(alloc).expect(&rt, "memory");
    create(&mut connection).expect(&rt, "a new store");
    let taken = Err(Error::SqliteFailure(ErrorCode::NameTaken));
    check_fact(&rt, create(&mut connection) == taken, "a store");
    check(&rt, node(&rt, alloc, &mut connection, "/"), "0 - \"\" - 0");
    let mut other = Connection::open_in_memory(alloc).expect(&rt, "memory");
    other
        .execute("CREATE TABLE other (name TEXT) STRICT", &[])
        .expect(&rt, "a table");
    check_fact(&rt, create(&mut other) == taken, "a table");
    drop(connection);
    drop(other);
}
