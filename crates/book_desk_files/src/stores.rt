//! A store's files that are open, and what is done over them: the kind of a store is known here alone, and a task is over any.
//!
//! A call of a function over any store at one kind has to be proved of each method that stores have, and so has what is let
//! go. So each such call is one here, over the files of any disk, and a store that is open is never let go: it is closed.

use book_tables_opening::Found;
use sqlite::{Alter, Connection, File as DiskFile, FileStore};
use sqlite_disk::{Disk, Files, Memory};

/// What is done over a store.
pub trait OverStore {
    /// Does it; with the status, and what is left of the store.
    fn run<S: Alter + Drop>(self, store: Found<S>) -> (u8, Option<Connection<S>>);
}

/// What is done over a store, or without one.
pub trait OverAnyStore {
    /// Does it; with the status, and what is left of the store.
    fn run<S: Alter + Drop>(self, store: Option<Found<S>>) -> (u8, Option<Connection<S>>);
}

/// What is done over two stores.
pub trait OverTwoStores {
    /// Does it; with the status, and what is left of each.
    fn run<S: Alter + Drop>(
        self,
        store: Found<S>,
        other: Found<S>,
    ) -> (u8, Option<Connection<S>>, Option<Connection<S>>);
}

/// What is done over three stores, of which the second is only read.
pub trait OverThreeStores {
    /// Does it; with the status, and what is left of the first and the third.
    fn run<S: Alter + Drop>(
        self,
        store: Found<S>,
        backup: Found<S>,
        fresh: Found<S>,
    ) -> (u8, Option<Connection<S>>, Option<Connection<S>>);
}

/// A task that lets go what is left of its store.
struct LettingGo<T> {
    task: T,
}

impl<T: OverStore> OverStore for LettingGo<T> {
    fn run<S: Alter + Drop>(self, store: Found<S>) -> (u8, Option<Connection<S>>) {
        let LettingGo { task } = self;
        let (status, left) = task.run(store);
        drop(left);
        (status, None)
    }
}

/// Nothing is done over a store, and it is let go as it is.
struct Nothing;

impl OverStore for Nothing {
    fn run<S: Alter + Drop>(self, store: Found<S>) -> (u8, Option<Connection<S>>) {
        let Nothing = self;
        drop(store);
        (0, None)
    }
}

/// Does a task over a store.
fn run_over<D: Disk + Drop, T: OverStore>(
    store: Found<FileStore<D>>,
    task: T,
) -> (u8, Option<Connection<FileStore<D>>>) {
    task.run(store)
}

/// Does a task over a store, or without one.
fn run_over_any<D: Disk + Drop, T: OverAnyStore>(
    store: Option<Found<FileStore<D>>>,
    task: T,
) -> (u8, Option<Connection<FileStore<D>>>) {
    task.run(store)
}

/// Does a task over two stores.
fn run_over_two<D: Disk + Drop, T: OverTwoStores>(
    store: Found<FileStore<D>>,
    other: Found<FileStore<D>>,
    task: T,
) -> (
    u8,
    Option<Connection<FileStore<D>>>,
    Option<Connection<FileStore<D>>>,
) {
    task.run(store, other)
}

/// Does a task over three stores.
fn run_over_three<D: Disk + Drop, T: OverThreeStores>(
    store: Found<FileStore<D>>,
    backup: Found<FileStore<D>>,
    fresh: Found<FileStore<D>>,
    task: T,
) -> (
    u8,
    Option<Connection<FileStore<D>>>,
    Option<Connection<FileStore<D>>>,
) {
    task.run(store, backup, fresh)
}

/// Closes a store, if it is left. What was done stands already, in the file or in the log beside it, so that a failure here
/// changes nothing of it.
fn close_left<D: Disk + Drop>(left: Option<Connection<FileStore<D>>>) {
    if let Some(connection) = left {
        let _ = connection.close();
    }
}

/// Folds the log of a store in, and gives its files back, which stay locked; none where that fails.
fn fold_in<D: Disk + Drop>(connection: Connection<FileStore<D>>) -> Option<Files<D>> {
    match connection.close_files() {
        Ok(files) => Some(files),
        Err((_error, store)) => {
            drop(store);
            None
        }
    }
}

/// The connection to the files of a store that was just opened.
fn connection_of<D: Disk + Drop>(store: Found<FileStore<D>>) -> Connection<FileStore<D>> {
    store.into_connection()
}

/// A connection to the file of a store.
pub type FileConnection = Connection<FileStore<DiskFile>>;

/// A store's files that were just opened. No value of it is let go by the way: a task is done over it, or it is closed, or
/// `let_go` called.
pub struct StoreFile {
    found: Found<FileStore<DiskFile>>,
}

/// A store's files that are open, and are left of what was done. No value of it is let go by the way: it is closed, or its log
/// folded in.
pub struct LeftFile {
    connection: FileConnection,
}

/// A store's files, whose log is folded in, and which stay locked as long as they are held.
#[derive(Drop)]
pub struct Folded {
    files: Files<DiskFile>,
}

/// A copy of a store's files in memory, which was just opened.
pub struct StoreCopy {
    found: Found<FileStore<Memory>>,
}

impl StoreFile {
    /// The files that were found.
    pub(crate) fn new(found: Found<FileStore<DiskFile>>) -> StoreFile {
        StoreFile { found }
    }

    /// The connection to them.
    pub fn into_connection(self) -> FileConnection {
        let StoreFile { found } = self;
        connection_of(found)
    }

    /// Does a task over the store; with the status, and what is left of it.
    pub fn run<T: OverStore>(self, task: T) -> (u8, Option<LeftFile>) {
        let StoreFile { found } = self;
        let (status, left) = run_over(found, task);
        (status, file_of(left))
    }

    /// Does a task over the store, and closes it; with the status.
    pub fn run_and_close<T: OverStore>(self, task: T) -> u8 {
        let StoreFile { found } = self;
        let (status, left) = run_over(found, task);
        close_left(left);
        status
    }

    /// Closes the store, over which nothing was done.
    pub fn close(self) {
        close_left(Some(self.into_connection()));
    }

    /// Lets the store go as it is: its log is not folded in.
    pub fn let_go(self) {
        let _ = self.run_and_close(Nothing);
    }
}

impl LeftFile {
    /// The files of a connection.
    pub fn new(connection: FileConnection) -> LeftFile {
        LeftFile { connection }
    }

    /// Folds the log in; none where that fails.
    pub fn fold(self) -> Option<Folded> {
        let LeftFile { connection } = self;
        match fold_in(connection) {
            Some(files) => Some(Folded { files }),
            None => None,
        }
    }
}

/// The store's files of which a connection is left.
fn file_of(left: Option<FileConnection>) -> Option<LeftFile> {
    match left {
        Some(connection) => Some(LeftFile { connection }),
        None => None,
    }
}

/// Closes the store's file, if it is left; it is not where its tables could not be had. What was done stands
/// already, in the file or in the log beside it, so that a failure here changes nothing of it. A store in which no table
/// was made stays without one: another run may have it by then, so its files are not removed.
pub fn close(file: Option<LeftFile>) {
    if let Some(LeftFile { connection }) = file {
        close_left(Some(connection));
    }
}

/// Does a task over a store, or without one, and closes it; with the status.
pub fn run_and_close_any<T: OverAnyStore>(file: Option<StoreFile>, task: T) -> u8 {
    let found = match file {
        Some(StoreFile { found }) => Some(found),
        None => None,
    };
    let (status, left) = run_over_any(found, task);
    close_left(left);
    status
}

/// Does a task over two stores; with the status, and what is left of each.
pub fn run_two<T: OverTwoStores>(
    file: StoreFile,
    other: StoreFile,
    task: T,
) -> (u8, Option<LeftFile>, Option<LeftFile>) {
    let StoreFile { found } = file;
    let StoreFile { found: other } = other;
    let (status, left, other) = run_over_two(found, other, task);
    (status, file_of(left), file_of(other))
}

/// Does a task over three stores; with the status, and what is left of the first and the third.
pub fn run_three<T: OverThreeStores>(
    file: StoreFile,
    backup: StoreFile,
    fresh: StoreFile,
    task: T,
) -> (u8, Option<LeftFile>, Option<LeftFile>) {
    let StoreFile { found } = file;
    let StoreFile { found: backup } = backup;
    let StoreFile { found: fresh } = fresh;
    let (status, left, made) = run_over_three(found, backup, fresh, task);
    (status, file_of(left), file_of(made))
}

impl StoreCopy {
    /// The copy that was found.
    pub(crate) fn new(found: Found<FileStore<Memory>>) -> StoreCopy {
        StoreCopy { found }
    }

    /// Does a task over the copy, and lets it go; with the status.
    pub fn run<T: OverStore>(self, task: T) -> u8 {
        let StoreCopy { found } = self;
        let (status, left) = run_over(found, LettingGo { task });
        close_left(left);
        status
    }

    /// Lets the copy go.
    pub fn let_go(self) {
        let _ = self.run(Nothing);
    }

    /// Does a task over two copies, and closes what is left of them; with the status.
    pub fn run_two<T: OverTwoStores>(self, other: StoreCopy, task: T) -> u8 {
        let StoreCopy { found } = self;
        let StoreCopy { found: other } = other;
        let (status, left, other) = run_over_two(found, other, task);
        close_left(left);
        close_left(other);
        status
    }
}
