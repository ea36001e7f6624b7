//! A connection that was just opened.

ghost use Rattle.std.specs.Prelude.{◌≡◌, IfErr, IfOk, IsTrue};
ghost use Rattle.sqlite.specs.Files.{file_state, IsCleanLeft};
ghost use Rattle.sqlite.specs.Held.{IsNew, state};
ghost use Rattle.sqlite.specs.Opening.{is_open_error};
ghost use Rattle.sqlite.specs.State.{HasCleanDisk};
ghost use Rattle.book_tables_files.specs.Finding.{FindsStore, KeepsFiles};
ghost use Rattle.book_tables_opening.specs.Found.{IsReopened};

use book_tables_files::open_store_files;
use sqlite::{Alter, Connection, Error, FileStore, Leftover};
use sqlite_disk::{Disk, Files};
use std::alloc::Global;
use std::marker::Model;

/// A connection that was just opened, with which nothing was done since. It keeps what an open has seen of the store: what
/// is shown is what was committed, and the rows of its tables rise by their numbers. Contracts see it as the connection.
pub struct Found<S: Alter> {
    connection: Connection<S>,
}

// It is written out, so that a caller does not prove again how the connection is dropped.
impl<S: Alter + Drop> Drop for Found<S> {
    fn drop(self) {
        let Found { connection: _ } = self;
    }
}

impl<S: Alter> Model for Found<S> {
    ghost use Rattle.sqlite.specs.Held.{Held, held_code, state};
    ghost use Rattle.book_tables_opening.specs.Found.{IsReopened};

    ghost Value = { Held S };

    ghost coded = { held_code S.code };

    ghost view = { λ f. f.connection };

    ghost invariant = { λ f. IsReopened (state S.Store f.connection) };
}

impl<S: Alter> Found<S> {
    /// The connection, which was just opened. Takes no memory.
    pub fn new(connection: Connection<S>) -> Found<S>
        requires { IsReopened (state S.Store connection) }
        ensures { result ≡ connection }
    {
        Found { connection }
    }

    /// The connection. Takes no memory.
    pub fn connection(&self) -> &Connection<S>
        ensures { result.now ≡ self.now }
    {
        &self.connection
    }

    /// Gives the connection back, as it is. Takes no memory.
    pub fn into_connection(self) -> Connection<S>
        ensures same { result ≡ self }
        ensures found { IsReopened (state S.Store result) }
    {
        let Found { connection } = self;
        connection
    }
}

/// Opens the store in these two files, as `book_tables_files::open_store_files`, and keeps what the open has seen of it.
///
/// # Errors
///
/// Those of `open_store_files`, with what is left of the files.
pub fn find_store<D: Disk + Drop>(
    alloc: Global,
    files: Files<D>,
    seed: u64,
    memory: usize,
) -> Result<Found<FileStore<D>>, (Error, Leftover<D>)>
    requires log { IsTrue (D.Disk.is_usable files.log) }
    requires db { IsTrue (D.Disk.is_usable files.db) }
    ensures found { IfOk result (λ c. HasCleanDisk (file_state c) → FindsStore files c) }
    ensures fresh { IfOk result IsNew }
    ensures guarded { IfOk result (λ c. HasCleanDisk (file_state c) → (file_state c).IsShielded) }
    ensures named { IfErr result (λ e. IsTrue (is_open_error e.0)) }
    ensures kept { IfErr result (λ e. IsCleanLeft e.1 → KeepsFiles files e.1) }
{
    match open_store_files(alloc, files, seed, memory) {
        Ok(connection) => Ok(Found::new(connection)),
        Err((error, left)) => Err((error, left)),
    }
}
