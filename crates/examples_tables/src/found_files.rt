//! A store in files in memory, made and then opened as an open of its files has seen it.

use crate::checks::{check_fact, check_number};
use crate::new_tables::{name, path};
use book_desk_app::open_store;
use book_office::{Edit, Keeper};
use book_tables::OpenFault;
use book_tables_opening::{Found, find_store, open_found};
use sqlite::{Alter, Connection, FileStore};
use sqlite_disk::{Disk, Files, Memory};
use std::alloc::Global;
use std::process::Abort;

fn no_files(alloc: Global) -> Files<Memory> {
    Files {
        log: Memory::new(alloc),
        db: Memory::new(alloc),
    }
}

/// The store in files, which may be used.
fn found_in<D: Disk + Drop>(alloc: Global, files: Files<D>) -> Option<Found<FileStore<D>>> {
    if !files.may_be_used() {
        return None;
    }
    find_store(alloc, files, 1, 1_000_000).ok()
}

/// Makes the tables of a new store, with the book `law`.
fn make_law<S: Alter + Drop>(rt: &impl Abort, alloc: Global, found: Found<S>) -> Connection<S> {
    let tables = open_store(alloc, found).ok();
    let mut tables = tables.expect(rt, "new tables");
    let law = Edit::AddBook {
        book: name(rt, alloc, "law"),
        owner: None,
    };
    tables.act(alloc, &law).expect(rt, "MKCOL");
    drop(law);
    tables.release()
}

/// How many books a store has.
fn count_books<S: Alter + Drop>(rt: &impl Abort, alloc: Global, found: Found<S>) -> u64 {
    let tables = open_found(alloc, found).ok();
    let mut tables = tables.expect(rt, "an Office");
    let books = path(rt, alloc, "/books");
    let count = tables.count(alloc, &books).expect(rt, "a count");
    drop(books);
    drop(tables);
    count as u64
}

/// Why a store is not opened.
fn fault_of<S: Alter + Drop>(alloc: Global, found: Found<S>) -> Option<OpenFault> {
    match open_found(alloc, found) {
        Ok(tables) => {
            drop(tables);
            None
        }
        Err((fault, left)) => {
            drop(left);
            Some(fault)
        }
    }
}

/// A store in files gets tables with the book `law`; opened once more it has one book.
fn check_files<D: Disk + Drop>(rt: &impl Abort, alloc: Global, files: Files<D>) {
    let found = found_in(alloc, files).expect(rt, "no files yet");
    let files = make_law(rt, alloc, found).close_files().ok();
    let found = found_in(alloc, files.expect(rt, "closed files")).expect(rt, "files");
    check_number(rt, count_books(rt, alloc, found), 1);
}

#[test]
fn a_store_is_opened_as_it_was_found(rt: HostRuntime) {
    let alloc = rt.alloc();
    check_files(&rt, alloc, no_files(alloc));
}

/// The fault of a store in files.
fn fault_in<D: Disk + Drop>(alloc: Global, files: Files<D>) -> Option<OpenFault> {
    match found_in(alloc, files) {
        Some(found) => fault_of(alloc, found),
        None => None,
    }
}

#[test]
fn a_store_without_tables_is_none(rt: HostRuntime) {
    let alloc = rt.alloc();
    let fault = fault_in(alloc, no_files(alloc));
    check_fact(&rt, fault == Some(OpenFault::NoStore), "no tables");
}
