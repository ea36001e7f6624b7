//! An Office over the tables of a new store, and the connection given back.

use crate::acts::Acts;
use crate::checks::{check, check_fact, check_number};
use crate::new_tables::{check_epoch, name, path, tables};
use crate::row_texts::{children, epoch, node};
use book_office::Keeper;
use book_office_values::{Kind, Text};
use book_tables::{OpenFault, Tables};
use sqlite::Connection;
use std::alloc::Global;
use std::process::Abort;

fn text(rt: &impl Abort, alloc: Global, text: &str) -> Text {
    Text::from_string(String::from_str(alloc, text).expect(rt, "memory"))
}

#[test]
fn new_tables_keep_a_card(rt: HostRuntime) {
    let alloc = rt.alloc();
    let mut tables = tables(&rt, alloc);
    let law = name(&rt, alloc, "law");
    let card = name(&rt, alloc, "a.vcf");
    let body = text(&rt, alloc, "one");
    let at = path(&rt, alloc, "/books/law/a.vcf");
    let none = tables.find(alloc, &at).expect(&rt, "a look-up");
    check_fact(&rt, none.is_none(), "nothing yet");
    drop(none);
    tables.add_book(alloc, &law, &None).expect(&rt, "MKCOL");
    tables
        .put_card(alloc, &law, &card, &None, &body)
        .expect(&rt, "PUT");
    let found = tables.find(alloc, &at).expect(&rt, "a look-up");
    let found = found.expect(&rt, "the card");
    check_fact(&rt, found.kind == Kind::Card, "a card");
    check_fact(&rt, found.text.as_ref() == Some(&body), "its text");
    check_number(&rt, found.number, 1);
    drop(found);
    drop(at);
    check_epoch(&rt, &mut tables, 0);
    check_number(&rt, tables.failures(), 0);
    drop(tables);
}

#[test]
fn a_released_connection_shows_the_rows(rt: HostRuntime) {
    let alloc = rt.alloc();
    let mut tables = tables(&rt, alloc);
    let law = name(&rt, alloc, "law");
    tables.add_book(alloc, &law, &None).expect(&rt, "MKCOL");
    let mut connection = tables.release();
    check(&rt, node(&rt, alloc, &mut connection, "/"), "0 - \"\" - 0");
    check(
        &rt,
        children(&rt, alloc, &mut connection, "/books"),
        "5 /books/law 4 - . 0",
    );
    check_number(&rt, epoch(&rt, &mut connection), 0);
    drop(connection);
}

#[test]
fn a_store_with_a_table_is_given_back(rt: HostRuntime) {
    let alloc = rt.alloc();
    let mut other = Connection::open_in_memory(alloc).expect(&rt, "memory");
    other
        .execute("CREATE TABLE other (name TEXT) STRICT", &[])
        .expect(&rt, "a table");
    let refused = Tables::create(other).err();
    let (fault, connection) = refused.expect(&rt, "a store that is not empty");
    let count = connection.schema().tables.len();
    drop(connection);
    check_fact(&rt, fault == OpenFault::Store, "a store");
    check_fact(&rt, count == 1, "its table");
}
