//! The two files of a store in memory, each of which fails after so many calls, and the tables of such a store.
//!
//! What can be done over any store is, here and in `stops` and `pairs`, from a connection to a connection: a proof over
//! this one takes many times as long, in each function again.

use anyhow::{Context, Result, bail};
use book_tables::Tables;
use book_tables_files::open_store_files;
use book_tables_opening::open;
use sqlite::{Alter, Connection, FileStore};
use sqlite_disk::{Crash, Disk as _, Files, Fuse, Memory};
use std::alloc::Global;

/// A file in memory, which fails from some call on.
pub(crate) type Disk = Fuse<Memory>;

/// A store over two such files.
pub(crate) type Store = FileStore<Disk>;

/// The bytes of pages that a store keeps in memory, more than its files have: an open makes room for all of them.
const KEPT_IN_MEMORY: usize = 262_144;

/// Which file fails.
#[derive(Clone, Copy)]
pub(crate) enum Side {
    /// The log.
    Log,
    /// The database file.
    Database,
}

/// A file that is empty, and never fails.
fn empty(alloc: Global) -> Disk {
    Fuse::new(Memory::new(alloc), u64::MAX)
}

/// The files of a store that is to be made.
pub(crate) fn empty_files(alloc: Global) -> Files<Disk> {
    Files {
        log: empty(alloc),
        db: empty(alloc),
    }
}

/// A synced file with the bytes of another, which fails after so many calls.
fn fused(alloc: Global, source: &Disk, calls: u64) -> Result<Disk> {
    let mut copy = Memory::new(alloc);
    let written = copy.write_at(0, source.inner().bytes());
    written.ok().context("no memory for a file")?;
    copy.sync().ok().context("no memory for a file")?;
    Ok(Fuse::new(copy, calls))
}

/// Copies of the files of a store, one of which fails after so many calls.
pub(crate) fn fused_files(
    alloc: Global,
    source: &Files<Disk>,
    side: Side,
    calls: u64,
) -> Result<Files<Disk>> {
    let (log, db) = match side {
        Side::Log => (calls, u64::MAX),
        Side::Database => (u64::MAX, calls),
    };
    Ok(Files {
        log: fused(alloc, &source.log, log)?,
        db: fused(alloc, &source.db, db)?,
    })
}

/// Whether a file has come to the call from which it fails.
pub(crate) fn is_spent(files: &mut Files<Disk>) -> bool {
    !files.may_be_used() || files.log.len().is_err() || files.db.len().is_err()
}

/// What the files are where the program alone has stopped: all that was written is kept, and nothing fails any more.
pub(crate) fn kept_files(alloc: Global, source: &Files<Disk>) -> Result<Files<Disk>> {
    fused_files(alloc, source, Side::Log, u64::MAX)
}

/// The machine has stopped and comes back: what was not synced is lost, and nothing fails any more.
pub(crate) fn crash(files: &mut Files<Disk>) {
    files.log.crash();
    files.db.crash();
}

/// Opens the files of a store, or gives them back. Each open has a seed of its own.
pub(crate) fn connect(
    alloc: Global,
    files: Files<Disk>,
    seed: u64,
) -> Result<Connection<Store>, Files<Disk>> {
    if !files.may_be_used() {
        return Err(files);
    }
    match open_store_files(alloc, files, seed, KEPT_IN_MEMORY) {
        Ok(connection) => Ok(connection),
        Err((_error, left)) => Err(left.into_files()),
    }
}

/// Closes a store: its files, and whether that failed.
pub(crate) fn close(connection: Connection<Store>) -> (Files<Disk>, bool) {
    match connection.close_files() {
        Ok(files) => (files, false),
        Err((_error, store)) => (store.close(), true),
    }
}

/// A store that is to be made.
pub(crate) fn new_store(alloc: Global, seed: u64) -> Result<Connection<Store>> {
    let store = connect(alloc, empty_files(alloc), seed).ok();
    store.context("new files are not opened")
}

/// The store that the files have.
pub(crate) fn store_of(alloc: Global, files: Files<Disk>, seed: u64) -> Result<Connection<Store>> {
    let store = connect(alloc, files, seed).ok();
    store.context("files are not opened")
}

/// Makes the tables of a store that is to be made.
pub(crate) fn created<S: Alter + Drop>(store: Connection<S>) -> Result<Tables<S>> {
    let tables = Tables::create(store).ok();
    tables.context("a store is not made")
}

/// The tables of a store that was made.
pub(crate) fn opened<S: Alter + Drop>(alloc: Global, store: Connection<S>) -> Result<Tables<S>> {
    let tables = open(alloc, store).ok();
    tables.context("a store has no tables")
}

/// The files of a store that is closed.
pub(crate) fn files_of(connection: Connection<Store>) -> Result<Files<Disk>> {
    let (files, failed) = close(connection);
    if failed {
        drop(files);
        bail!("a store does not close");
    }
    Ok(files)
}
