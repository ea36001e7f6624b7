//! A store in memory, and its rows as texts.

use book_tables_rows::{
    FoundNode, changed_entry_rows, changed_rows, child_entry_rows, child_rows, entry_rows_at,
    gone_rows, insert_node, look_up, member_rows, reach_rows, read_epoch,
};
use book_tables_schema::{all_entry_rows, all_gone_rows, all_meta_rows, all_node_rows, create};
use sqlite::{Connection, MemStore, Row, Transaction};
use std::alloc::Global;
use std::process::Abort;

/// A cell of a row: a number where its letter is `n`, else a text; `-` stands for NULL, and `.` for the empty text.
fn cell(rt: &impl Abort, alloc: Global, row: &Row, at: usize, is_number: bool) -> String {
    if is_number {
        let number: i64 = row.get(at).expect(rt, "a number");
        return format!(in alloc; "{number}").expect(rt, "memory");
    }
    let text: Option<String> = row.get(at).expect(rt, "a text");
    match text {
        None => String::from_str(alloc, "-").expect(rt, "memory"),
        Some(text) if text.is_empty() => String::from_str(alloc, ".").expect(rt, "memory"),
        Some(text) => text,
    }
}

fn push(rt: &impl Abort, all: &mut String, text: &str) {
    all.push_str(text).expect(rt, "memory");
}

fn push_row(rt: &impl Abort, alloc: Global, all: &mut String, row: &Row, letters: &str) {
    for (at, letter) in letters.as_bytes().iter().enumerate() {
        if at > 0 {
            push(rt, all, " ");
        }
        let text = cell(rt, alloc, row, at, *letter == b'n');
        push(rt, all, text.as_str());
    }
}

/// The rows as one text, with a letter for each column.
fn told(rt: &impl Abort, alloc: Global, rows: &[Row], letters: &str) -> String {
    let mut all = String::new(alloc);
    for row in rows {
        if !all.is_empty() {
            push(rt, &mut all, "; ");
        }
        push_row(rt, alloc, &mut all, row, letters);
    }
    all
}

/// A store with ann and bob, and with the group staff.
pub(crate) fn store(rt: &impl Abort, alloc: Global) -> Connection<MemStore> {
    let mut connection = Connection::open_in_memory(alloc).expect(rt, "memory");
    create(&mut connection).expect(rt, "a new store");
    add(rt, &mut connection, "/people/ann", 2, 2);
    add(rt, &mut connection, "/people/bob", 2, 2);
    add(rt, &mut connection, "/groups/staff", 3, 3);
    connection
}

/// Begins a transaction.
pub(crate) fn begin<'c>(
    rt: &impl Abort,
    connection: &'c mut Connection<MemStore>,
) -> Transaction<'c, MemStore> {
    assert!(rt; connection.is_autocommit());
    connection.transaction()
}

/// Adds a node of nobody, with an empty label and no text.
pub(crate) fn add(
    rt: &impl Abort,
    connection: &mut Connection<MemStore>,
    path: &str,
    parent: i64,
    kind: u32,
) {
    let mut transaction = begin(rt, connection);
    insert_node(&mut transaction, path, parent, kind, None, "", None, 0).expect(rt, path);
    transaction.commit().expect(rt, path);
}

/// The rows as one text, after their transaction is given up.
fn ended(
    rt: &impl Abort,
    alloc: Global,
    transaction: Transaction<'_, MemStore>,
    rows: Vec<Row>,
    letters: &str,
) -> String {
    drop(transaction);
    let all = told(rt, alloc, rows.as_slice(), letters);
    drop(rows);
    all
}

/// The number of the row of a node.
fn number(rt: &impl Abort, connection: &mut Connection<MemStore>, path: &str) -> i64 {
    let mut transaction = begin(rt, connection);
    let found = look_up(&mut transaction, path).expect(rt, path);
    drop(transaction);
    let found = found.expect(rt, path);
    let id = found.id;
    drop(found);
    id
}

fn node_text(rt: &impl Abort, alloc: Global, found: &FoundNode) -> String {
    let owner = found.owner.as_ref().map_or("-", |owner| owner.as_str());
    let text = found.text.as_ref().map_or("-", |text| text.as_str());
    format!(in alloc;
        "{} {owner} {:?} {text} {}",
        found.kind, found.label, found.number
    )
    .expect(rt, "memory")
}

/// Kind, owner, label, text and change number of a node.
pub(crate) fn node(
    rt: &impl Abort,
    alloc: Global,
    connection: &mut Connection<MemStore>,
    path: &str,
) -> String {
    let mut transaction = begin(rt, connection);
    let found = look_up(&mut transaction, path).expect(rt, path);
    drop(transaction);
    let text = match &found {
        Some(found) => node_text(rt, alloc, found),
        None => String::from_str(alloc, "none").expect(rt, "memory"),
    };
    drop(found);
    text
}

/// Number of the row, path, kind, owner, label and change number of each child.
pub(crate) fn children(
    rt: &impl Abort,
    alloc: Global,
    connection: &mut Connection<MemStore>,
    path: &str,
) -> String {
    let id = number(rt, connection, path);
    let mut transaction = begin(rt, connection);
    let rows = child_rows(&mut transaction, id).expect(rt, path);
    ended(rt, alloc, transaction, rows, "ntnttn")
}

/// The number of the child's row, the list, form, principal, invert, deny and mask of each entry of a child.
pub(crate) fn entries_of_children(
    rt: &impl Abort,
    alloc: Global,
    connection: &mut Connection<MemStore>,
    path: &str,
) -> String {
    let id = number(rt, connection, path);
    let mut transaction = begin(rt, connection);
    let rows = child_entry_rows(&mut transaction, id).expect(rt, path);
    ended(rt, alloc, transaction, rows, "nnntnnn")
}

/// The same of each entry of the node at a path.
pub(crate) fn entries_at(
    rt: &impl Abort,
    alloc: Global,
    connection: &mut Connection<MemStore>,
    path: &str,
) -> String {
    let mut transaction = begin(rt, connection);
    let rows = entry_rows_at(&mut transaction, path).expect(rt, path);
    ended(rt, alloc, transaction, rows, "nnntnnn")
}

/// The same of each entry of a card of a book that is changed after a number, and no later than another.
pub(crate) fn entries_of_changed(
    rt: &impl Abort,
    alloc: Global,
    connection: &mut Connection<MemStore>,
    path: &str,
    after: u64,
    last: u64,
) -> String {
    let id = number(rt, connection, path);
    assert!(rt; after < 1000 && last < 1000);
    let mut transaction = begin(rt, connection);
    let rows = changed_entry_rows(&mut transaction, id, after, last).expect(rt, path);
    ended(rt, alloc, transaction, rows, "nnntnnn")
}

/// Path and change number of each card of a book that is changed after a number.
pub(crate) fn changed(
    rt: &impl Abort,
    alloc: Global,
    connection: &mut Connection<MemStore>,
    path: &str,
    after: u64,
) -> String {
    let id = number(rt, connection, path);
    assert!(rt; after < 1000);
    let mut transaction = begin(rt, connection);
    let rows = changed_rows(&mut transaction, id, after, None).expect(rt, path);
    ended(rt, alloc, transaction, rows, "nttttn")
}

/// Name and change number of each removed name of a book after a number.
pub(crate) fn gone(
    rt: &impl Abort,
    alloc: Global,
    connection: &mut Connection<MemStore>,
    path: &str,
    after: u64,
) -> String {
    let id = number(rt, connection, path);
    assert!(rt; after < 1000);
    let mut transaction = begin(rt, connection);
    let rows = gone_rows(&mut transaction, id, after, None).expect(rt, path);
    ended(rt, alloc, transaction, rows, "tn")
}

/// Group and member of each pair.
pub(crate) fn members(
    rt: &impl Abort,
    alloc: Global,
    connection: &mut Connection<MemStore>,
) -> String {
    let mut transaction = begin(rt, connection);
    let rows = member_rows(&mut transaction).expect(rt, "members");
    ended(rt, alloc, transaction, rows, "tt")
}

/// Group and member of each row of `reach`.
pub(crate) fn reach(
    rt: &impl Abort,
    alloc: Global,
    connection: &mut Connection<MemStore>,
) -> String {
    let mut transaction = begin(rt, connection);
    let rows = reach_rows(&mut transaction).expect(rt, "reach");
    ended(rt, alloc, transaction, rows, "tt")
}

/// The access epoch.
pub(crate) fn epoch(rt: &impl Abort, connection: &mut Connection<MemStore>) -> u64 {
    let mut transaction = begin(rt, connection);
    let epoch = read_epoch(&mut transaction).expect(rt, "the epoch");
    drop(transaction);
    epoch
}

fn count(rows: Vec<Row>) -> usize {
    let count = rows.len();
    drop(rows);
    count
}

/// How many rows the tables of nodes, entries and removed names have, and the rows of `meta`.
pub(crate) fn whole_rows(
    rt: &impl Abort,
    alloc: Global,
    connection: &mut Connection<MemStore>,
) -> String {
    let mut transaction = begin(rt, connection);
    let nodes = count(all_node_rows(&mut transaction).expect(rt, "nodes"));
    let entries = count(all_entry_rows(&mut transaction).expect(rt, "entries"));
    let gone = count(all_gone_rows(&mut transaction).expect(rt, "removed names"));
    let meta = all_meta_rows(&mut transaction).expect(rt, "meta");
    let meta = ended(rt, alloc, transaction, meta, "nn");
    format!(in alloc; "{nodes} nodes, {entries} entries, {gone} removed, meta {meta}").expect(
        rt, "memory",
    )
}
