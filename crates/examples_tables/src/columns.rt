//! What each column of each table has after edits, and what reads tell of columns.

use crate::acts::Acts;
use crate::checks::check;
use crate::new_tables::{name, path, principal, text};
use crate::row_texts::store;
use book_lists::{Entry, Principal, Who};
use book_office::{Changed, Keeper};
use book_office_values::Items;
use book_rights::{Leaf, LeafSet};
use book_tables::Tables;
use sqlite::types::ValueRef;
use sqlite::{Connection, MemStore, Row};
use std::alloc::Global;
use std::process::Abort;

fn push(rt: &impl Abort, all: &mut String, text: &str) {
    all.push_str(text).expect(rt, "memory");
}

/// Adds a cell: `-` stands for NULL, and `.` for the empty text.
fn push_cell(rt: &impl Abort, all: &mut String, row: &Row, at: usize) {
    match row.get_ref(at) {
        Ok(ValueRef::Int(number)) => write!(all, "{number}").expect(rt, "memory"),
        Ok(ValueRef::Text(bytes)) if bytes.is_empty() => push(rt, all, "."),
        Ok(ValueRef::Text(bytes)) => match str::from_utf8(bytes) {
            Ok(text) => push(rt, all, text),
            Err(_) => push(rt, all, "?"),
        },
        Ok(ValueRef::Null) => push(rt, all, "-"),
        _ => push(rt, all, "?"),
    }
}

/// The rows that a query shows.
fn shown(
    rt: &impl Abort,
    alloc: Global,
    connection: &mut Connection<MemStore>,
    sql: &str,
) -> String {
    let rows = connection.query_all(sql, &[]).expect(rt, sql);
    let mut all = String::new(alloc);
    for row in &rows {
        if !all.is_empty() {
            push(rt, &mut all, "; ");
        }
        for at in 0..row.column_count() {
            if at > 0 {
                push(rt, &mut all, " ");
            }
            push_cell(rt, &mut all, row, at);
        }
    }
    drop(rows);
    all
}

fn entry(who: Who, invert: bool, deny: bool, set: LeafSet) -> Entry {
    Entry {
        who,
        invert,
        deny,
        set,
    }
}

/// Bob is denied reading; the staff and all others but the owner are granted; and each other form stands once.
fn list(rt: &impl Abort, alloc: Global) -> Items<Entry> {
    let mut list = Items::new(alloc);
    let texts = LeafSet::empty().with(Leaf::ReadTexts);
    let names = LeafSet::empty().with(Leaf::ReadNames);
    let bob = Who::Href(principal(rt, alloc, "/people/bob"));
    let staff = Who::Href(principal(rt, alloc, "/groups/staff"));
    for entry in [
        entry(bob, false, true, texts),
        entry(staff, false, false, names),
        entry(Who::Owner, true, false, texts.with(Leaf::WriteContent)),
        entry(Who::Everyone, false, false, texts),
        entry(Who::Authenticated, false, false, texts),
        entry(Who::Unauthenticated, true, true, texts),
        entry(Who::Own, false, false, LeafSet::all()),
    ] {
        list.push(entry).expect(rt, "memory");
    }
    list
}

/// Ann's books law and sales. Bob's card in law is labelled, copied to sales for ann, and moved there; law gets a list,
/// and the staff members: ann and bob.
fn edited(rt: &impl Abort, alloc: Global) -> Tables<MemStore> {
    let mut tables = Tables::over(store(rt, alloc));
    let (law, sales) = (name(rt, alloc, "law"), name(rt, alloc, "sales"));
    let (a, b, c) = (
        name(rt, alloc, "a.vcf"),
        name(rt, alloc, "b.vcf"),
        name(rt, alloc, "c.vcf"),
    );
    let ann = Some(principal(rt, alloc, "/people/ann"));
    let bob = Some(principal(rt, alloc, "/people/bob"));
    for book in [&law, &sales] {
        tables.add_book(alloc, book, &ann).expect(rt, "a book");
    }
    let one = text(rt, alloc, "one");
    tables
        .put_card(alloc, &law, &a, &bob, &one)
        .expect(rt, "PUT");
    let at_a = path(rt, alloc, "/books/law/a.vcf");
    let label = text(rt, alloc, "A");
    tables.set_label(alloc, &at_a, &label).expect(rt, "a label");
    let copied = tables.copy_card(alloc, &law, &a, &sales, &b, &ann);
    copied.expect(rt, "COPY");
    let moved = tables.move_card(alloc, &law, &a, &sales, &c);
    moved.expect(rt, "MOVE");
    let at_law = path(rt, alloc, "/books/law");
    let entries = list(rt, alloc);
    tables
        .set_list(alloc, &at_law, &entries)
        .expect(rt, "a list");
    let mut members: Items<Principal> = Items::new(alloc);
    for member in ["/people/bob", "/people/ann"] {
        let member = principal(rt, alloc, member);
        members.push(member).expect(rt, "memory");
    }
    let staff = principal(rt, alloc, "/groups/staff");
    tables
        .set_members(alloc, &staff, &members)
        .expect(rt, "members");
    drop((ann, bob, at_a, at_law, entries, members));
    drop((law, sales, a, b, c, one, label, staff));
    tables
}

const NODES: &str =
    "SELECT path, kind, owner, label, text, number FROM node WHERE kind > 3 ORDER BY path";

const PARENTS: &str =
    "SELECT id, parent FROM node WHERE path > '/books' AND path < '/c' ORDER BY id";

const ENTRIES: &str =
    "SELECT node, protected, place, form, principal, invert, deny, mask FROM ace2 ORDER BY place";

const MEMBERS: &str = "SELECT grp, member FROM member ORDER BY member";

const REACH: &str = "SELECT grp, member FROM reach ORDER BY member";

const GONE: &str = "SELECT book, name, number FROM gone";

const META: &str = "SELECT version, epoch FROM meta";

/// The book law has a number for the card, one for its label and one for its leaving; sales one for the copy and one for
/// the arriving. ACL and new members each raise the epoch.
const EDITED: &[(&str, &str)] = &[
    (
        NODES,
        "/books/law 4 /people/ann . - 3; /books/sales 4 /people/ann . - 2; /books/sales/b.vcf 5 /people/ann A one 1; /books/sales/c.vcf 5 /people/bob A one 2",
    ),
    (PARENTS, "8 4; 9 4; 10 9; 11 9"),
    (
        ENTRIES,
        "8 0 0 0 /people/bob 0 1 1; 8 0 1 0 /groups/staff 0 0 256; 8 0 2 4 - 1 0 3; 8 0 3 1 - 0 0 1; 8 0 4 2 - 0 0 1; 8 0 5 3 - 1 1 1; 8 0 6 5 - 0 0 511",
    ),
    (
        MEMBERS,
        "/groups/staff /people/ann; /groups/staff /people/bob",
    ),
    (
        REACH,
        "/groups/staff /people/ann; /groups/staff /people/bob",
    ),
    (GONE, "8 a.vcf 3"),
    (META, "2 2"),
];

/// A book that is removed takes its entries, its removed names and its cards with it, and raises the epoch.
const REMOVED: &[(&str, &str)] = &[
    (
        NODES,
        "/books/sales 4 /people/ann . - 2; /books/sales/b.vcf 5 /people/ann A one 1; /books/sales/c.vcf 5 /people/bob A one 2",
    ),
    (ENTRIES, ""),
    (GONE, ""),
    (META, "2 3"),
];

fn check_all(
    rt: &impl Abort,
    alloc: Global,
    connection: &mut Connection<MemStore>,
    all: &[(&str, &str)],
) {
    for (sql, wanted) in all {
        check(rt, shown(rt, alloc, connection, sql), wanted);
    }
}

#[test]
fn edits_write_columns(rt: HostRuntime) {
    let alloc = rt.alloc();
    let mut connection = edited(&rt, alloc).release();
    check_all(&rt, alloc, &mut connection, EDITED);
    let mut tables = Tables::over(connection);
    let law = name(&rt, alloc, "law");
    tables.remove_book(alloc, &law).expect(&rt, "DELETE");
    let mut connection = tables.release();
    check_all(&rt, alloc, &mut connection, REMOVED);
    drop(connection);
}

fn push_entries(rt: &impl Abort, all: &mut String, entries: &Items<Entry>) {
    for entry in entries.as_slice() {
        push(rt, all, if entry.deny { "deny" } else { "grant" });
        push(rt, all, if entry.invert { " all but " } else { " " });
        let who = match &entry.who {
            Who::Href(principal) => principal.text(),
            Who::Everyone => "all",
            Who::Authenticated => "authenticated",
            Who::Unauthenticated => "unauthenticated",
            Who::Owner => "owner",
            Who::Own => "self",
        };
        push(rt, all, who);
        for leaf in Leaf::ALL {
            if entry.set.has(leaf) {
                push(rt, all, " ");
                push(rt, all, leaf.name());
            }
        }
        push(rt, all, "; ");
    }
}

/// Number, name, owner, label and text of each change, and the own list of the card; `gone` for a removed name.
fn push_changes(rt: &impl Abort, all: &mut String, changes: &Items<Changed>) {
    for change in changes.as_slice() {
        let name = change.name.text();
        let number = change.number;
        write!(all, "{number} {name}").expect(rt, "memory");
        match &change.card {
            None => push(rt, all, " gone; "),
            Some(card) => {
                let owner = card.owner.as_ref().map_or("-", |owner| owner.text());
                let (label, text) = (card.label.as_str(), card.text.as_str());
                write!(all, " {owner} {label:?} {text}; ").expect(rt, "memory");
                push_entries(rt, all, &card.own);
            }
        }
    }
}

/// The changes of a book behind a number, the first so many.
fn changes(
    rt: &impl Abort,
    alloc: Global,
    tables: &mut Tables<MemStore>,
    book: &str,
    after: u64,
    most: Option<u32>,
) -> String {
    let book = name(rt, alloc, book);
    let changes = tables.changes_after(alloc, &book, after, most);
    let changes = changes.expect(rt, "changes");
    let mut all = String::new(alloc);
    push_changes(rt, &mut all, &changes);
    drop(changes);
    all
}

/// Both lists that stand at a path, the protected one first.
fn level(rt: &impl Abort, alloc: Global, tables: &mut Tables<MemStore>, at: &str) -> String {
    let at = path(rt, alloc, at);
    let level = tables.level(alloc, &at).expect(rt, "lists");
    let mut all = String::new(alloc);
    push_entries(rt, &mut all, &level.protected);
    push(rt, &mut all, "| ");
    push_entries(rt, &mut all, &level.own);
    drop((at, level));
    all
}

/// A protected list of law, whose second entry is written first, and an entry of the card c.
const MORE: &str =
    "INSERT INTO ace2 VALUES (8, 1, 1, 5, NULL, 1, 1, 16), (8, 1, 0, 4, NULL, 0, 0, 511), (10, 0, 0, 1, NULL, 0, 1, 4)";

#[test]
fn reads_tell_columns(rt: HostRuntime) {
    let alloc = rt.alloc();
    let mut connection = edited(&rt, alloc).release();
    connection.execute_batch(MORE).expect(&rt, "entries");
    let mut tables = Tables::over(connection);
    check(
        &rt,
        level(&rt, alloc, &mut tables, "/books/law"),
        "grant owner x-read-texts write-content write-properties bind unbind read-acl write-acl read-current-user-privilege-set x-read-names; deny all but self unbind; | deny /people/bob x-read-texts; grant /groups/staff x-read-names; grant all but owner x-read-texts write-content; grant all x-read-texts; grant authenticated x-read-texts; deny all but unauthenticated x-read-texts; grant self x-read-texts write-content write-properties bind unbind read-acl write-acl read-current-user-privilege-set x-read-names; ",
    );
    for (book, after, most, wanted) in [
        ("law", 0, None, "3 a.vcf gone; "),
        ("law", 2, Some(1), "3 a.vcf gone; "),
        ("law", 3, None, ""),
        (
            "sales",
            0,
            None,
            "1 b.vcf /people/ann \"A\" one; 2 c.vcf /people/bob \"A\" one; deny all write-properties; ",
        ),
        ("sales", 0, Some(1), "1 b.vcf /people/ann \"A\" one; "),
        (
            "sales",
            1,
            None,
            "2 c.vcf /people/bob \"A\" one; deny all write-properties; ",
        ),
        ("sales", 2, None, ""),
    ] {
        let told = changes(&rt, alloc, &mut tables, book, after, most);
        check(&rt, told, wanted);
    }
    let (sales, b) = (name(&rt, alloc, "sales"), name(&rt, alloc, "b.vcf"));
    tables.remove_card(alloc, &sales, &b).expect(&rt, "DELETE");
    for (most, wanted) in [
        (
            None,
            "2 c.vcf /people/bob \"A\" one; deny all write-properties; 3 b.vcf gone; ",
        ),
        (
            Some(1),
            "2 c.vcf /people/bob \"A\" one; deny all write-properties; ",
        ),
    ] {
        let told = changes(&rt, alloc, &mut tables, "sales", 0, most);
        check(&rt, told, wanted);
    }
    drop(tables);
}
