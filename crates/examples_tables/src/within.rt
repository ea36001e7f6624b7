//! Several edits in one transaction: all are kept by one commit, or none.

use crate::checks::check;
use crate::new_tables::{found, name, tables, text};
use book_office::{Edit, Keeper, StoreFault};
use book_office_values::Path;
use book_tables::{Tables, Within};
use sqlite::{Alter, Connection, MemStore, Transaction};
use std::alloc::Global;
use std::process::Abort;

/// MKCOL of a book.
fn add_law(rt: &impl Abort, alloc: Global) -> Edit {
    Edit::AddBook {
        book: name(rt, alloc, "law"),
        owner: None,
    }
}

/// PUT of a card of it.
fn put_card(rt: &impl Abort, alloc: Global) -> Edit {
    Edit::PutCard {
        book: name(rt, alloc, "law"),
        card: name(rt, alloc, "a.vcf"),
        owner: None,
        text: text(rt, alloc, "one"),
    }
}

/// What the edits answer, one after another, and whether the book is there then; and whether the keeper is spoiled.
fn answers<S: Alter>(
    rt: &impl Abort,
    alloc: Global,
    transaction: &mut Transaction<'_, S>,
    edits: &[Edit],
) -> String {
    let mut within = Within {
        transaction,
        failures: 0,
        spoiled: false,
        written: false,
    };
    let mut told = String::new(alloc);
    for edit in edits {
        let answer = match within.act(alloc, edit) {
            Ok(()) => "made, ",
            Err(StoreFault::Memory) => "no memory, ",
            Err(StoreFault::Store) => "refused, ",
        };
        told.push_str(answer).expect(rt, "memory");
    }
    let path = Path::Book(name(rt, alloc, "law"));
    let last = match within.find(alloc, &path) {
        Ok(Some(_)) => "there",
        Ok(None) => "not there",
        Err(_) => "spoiled",
    };
    told.push_str(last).expect(rt, "memory");
    told
}

/// Makes edits in one transaction, and commits it or lets it go.
fn round(
    rt: &impl Abort,
    alloc: Global,
    connection: &mut Connection<MemStore>,
    edits: &[Edit],
    is_kept: bool,
) -> String {
    assert!(rt; connection.is_autocommit(), "no transaction is open");
    let mut transaction = connection.transaction();
    let told = answers(rt, alloc, &mut transaction, edits);
    if is_kept {
        transaction.commit().expect(rt, "a commit");
    }
    told
}

#[test]
fn edits_are_kept_together(rt: HostRuntime) {
    let alloc = rt.alloc();
    let mut connection = tables(&rt, alloc).release();
    let edits = [add_law(&rt, alloc), put_card(&rt, alloc)];
    let told = round(&rt, alloc, &mut connection, &edits, true);
    check(&rt, told, "made, made, there");
    let mut tables = Tables::over(connection);
    check(
        &rt,
        found(&rt, alloc, &mut tables, "/books/law/a.vcf"),
        "\"\" one 1",
    );
    drop(tables);
}

#[test]
fn edits_that_are_let_go_leave_nothing(rt: HostRuntime) {
    let alloc = rt.alloc();
    let mut connection = tables(&rt, alloc).release();
    let edits = [add_law(&rt, alloc), put_card(&rt, alloc)];
    let told = round(&rt, alloc, &mut connection, &edits, false);
    check(&rt, told, "made, made, there");
    let mut tables = Tables::over(connection);
    check(&rt, found(&rt, alloc, &mut tables, "/books/law"), "none");
    drop(tables);
}

#[test]
fn a_failed_edit_spoils_the_keeper(rt: HostRuntime) {
    let alloc = rt.alloc();
    let mut connection = tables(&rt, alloc).release();
    let edits = [
        add_law(&rt, alloc),
        add_law(&rt, alloc),
        put_card(&rt, alloc),
    ];
    let told = round(&rt, alloc, &mut connection, &edits, false);
    check(&rt, told, "made, refused, refused, spoiled");
    let mut tables = Tables::over(connection);
    check(&rt, found(&rt, alloc, &mut tables, "/books/law"), "none");
    drop(tables);
}
