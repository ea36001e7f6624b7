//! What is at fault in a store whose rows are changed by hand, and what is counted of a sound one.

use crate::acts::Acts;
use crate::checks::check;
use crate::new_tables::{name, tables, text};
use book_desk_app::Noting;
use book_desk_doctor::run_doctor;
use sqlite::{Connection, MemStore};
use std::alloc::Global;
use std::process::Abort;

/// A store with the book `law`, one card in it, and the name of a card that was removed; and more rows.
fn law(rt: &impl Abort, alloc: Global) -> Connection<MemStore> {
    let mut tables = tables(rt, alloc);
    let law = name(rt, alloc, "law");
    tables.add_book(alloc, &law, &None).expect(rt, "a book");
    for card in ["a.vcf", "b.vcf"] {
        let (card, content) = (name(rt, alloc, card), text(rt, alloc, "one"));
        let put = tables.put_card(alloc, &law, &card, &None, &content);
        put.expect(rt, "a card");
    }
    let removed = name(rt, alloc, "a.vcf");
    let remove = tables.remove_card(alloc, &law, &removed);
    remove.expect(rt, "removed");
    let mut connection = tables.release();
    connection.execute_batch(MORE).expect(rt, "more rows");
    connection
}

/// Two persons, one of them a member of a group; an entry of the book, whose row is 5; and the card's row is 30.
const MORE: &str = "\
    INSERT INTO node (id, path, parent, kind, owner, label, text, number) \
    SELECT 20, '/people/ann', id, 2, NULL, '', NULL, 0 FROM node WHERE path = '/people';\
    INSERT INTO node (id, path, parent, kind, owner, label, text, number) \
    SELECT 22, '/people/bob', id, 2, NULL, '', NULL, 0 FROM node WHERE path = '/people';\
    INSERT INTO node (id, path, parent, kind, owner, label, text, number) \
    SELECT 21, '/groups/staff', id, 3, NULL, '', NULL, 0 FROM node WHERE path = '/groups';\
    INSERT INTO member VALUES ('/groups/staff', '/people/ann');\
    INSERT INTO ace2 SELECT id, 0, 1, 2, NULL, 0, 0, 1 FROM node WHERE path = '/books/law';\
    UPDATE node SET id = 30 WHERE path = '/books/law/b.vcf'";

/// What is told of a store in which statements were run, on both streams.
fn told(rt: &impl Abort, alloc: Global, sql: &str) -> String {
    let mut connection = law(rt, alloc);
    if connection.execute_batch(sql).is_err() {
        return String::from_str(alloc, "refused").expect(rt, "memory");
    }
    let mut errors = Noting::new(Vec::new(alloc));
    let mut output = Vec::new(alloc);
    let (status, connection) = run_doctor(alloc, connection, &mut output, &mut errors);
    drop(connection);
    let output = String::from_utf8(output).ok().expect(rt, "a text");
    let errors = String::from_utf8(errors.into_inner())
        .ok()
        .expect(rt, "a text");
    format!(in alloc; "{status} {output}{errors}").expect(rt, "memory")
}

/// Statements, and what is then told: each rule, broken once.
const TOLD: &[(&str, &str)] = &[
    (
        "UPDATE node SET label = 'Law' WHERE path = '/books/law'",
        "0 epoch 0\npersons 2\ngroups 1\nbooks 1\ncards 1\nremoved 1\nmembers 1\nentries 1\n",
    ),
    (
        "UPDATE meta SET epoch = 0 - 1",
        "3 store: meta: it has not one row, with version 2 and an epoch\n",
    ),
    ("UPDATE meta SET version = 3", "3 store: other-version\n"),
    (
        "UPDATE node SET path = '/people/an n', label = CAST(x'ff' AS TEXT) WHERE id = 22",
        "3 store: node 22 (/people/an n): its path is no path\n",
    ),
    (
        "UPDATE node SET parent = 1 WHERE id = 22",
        "3 store: node 22 (/people/bob): its parent is not the resource above it\n",
    ),
    (
        "UPDATE node SET kind = 3 WHERE id = 22",
        "3 store: node 22 (/people/bob): its kind is not that of its path\n",
    ),
    (
        "UPDATE node SET owner = '/books' WHERE id = 22",
        "3 store: node 22 (/people/bob): its owner is no principal\n",
    ),
    (
        "UPDATE node SET label = CAST(x'ff' AS TEXT) WHERE id = 22",
        "3 store: node 22 (/people/bob): its label is too long or not UTF-8\n",
    ),
    (
        "UPDATE node SET number = 1 WHERE id = 22",
        "3 store: node 22 (/people/bob): its change number is none of its kind\n",
    ),
    (
        "UPDATE ace2 SET mask = 512",
        "3 store: ace2 of node 5, protected 0, place 1: it is no entry\n",
    ),
    (
        "INSERT INTO ace2 VALUES (30, 1, 7, 2, NULL, 0, 0, 1)",
        "3 store: ace2 of node 30, protected 1, place 7: a card has no protected entries\n",
    ),
    (
        "UPDATE ace2 SET form = 0, principal = '/books'",
        "3 store: ace2 of node 5, protected 0, place 1: its principal is not there\n",
    ),
    (
        "INSERT INTO member VALUES ('/people/bob', '/people/ann')",
        "3 store: member /people/bob, /people/ann: its group is not there\n",
    ),
    (
        "INSERT INTO member VALUES ('/groups/staff', '/books')",
        "3 store: member /groups/staff, /books: its member is not there\n",
    ),
    (
        "UPDATE gone SET book = 22",
        "3 store: gone of node 22, a.vcf: its book is not there\n",
    ),
    (
        "UPDATE gone SET name = 'a/vcf'",
        "3 store: gone of node 5, a/vcf: its name is no name\n",
    ),
    (
        "UPDATE gone SET name = 'b.vcf'",
        "3 store: gone of node 5, b.vcf: a card has its name\n",
    ),
    (
        "UPDATE node SET number = 9 WHERE id = 30",
        "3 store: node, gone: a change number is not from 1 to that of its book\n",
    ),
    (
        "UPDATE node SET number = 3 WHERE id = 30",
        "3 store: node, gone: a change number stands twice in a book\n",
    ),
    (
        "UPDATE node SET text = NULL WHERE id = 30",
        "3 store: node 30 (/books/law/b.vcf): its text is none of its kind\n",
    ),
    (
        "CREATE TABLE other (x TEXT) STRICT",
        "3 store: schema: its tables, keys or indexes are not those of a store\n",
    ),
    (
        "INSERT INTO ace VALUES (5, 0, 1, 2, NULL, 0, 0, 1)",
        "3 store: ace: it has rows, as in version 1\n",
    ),
    (
        "DROP TABLE reach; UPDATE node SET owner = '/books' WHERE id = 22",
        "3 store: node 22 (/people/bob): its owner is no principal\n",
    ),
];

#[test]
fn each_fault_is_told(rt: HostRuntime) {
    let alloc = rt.alloc();
    for (sql, wanted) in TOLD {
        check(&rt, told(&rt, alloc, sql), wanted);
    }
}
