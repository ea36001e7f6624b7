//! A connection is opened again, so that what an open tells of a store is known of it.

ghost use Rattle.std.specs.Prelude.{◌≡◌, IfErr, IfOk};
ghost use Rattle.sqlite.specs.Held.{state};
ghost use Rattle.sqlite.specs.State.{HasCleanDisk, IsLive, Opens};
ghost use Rattle.book_tables_schema.specs.Reopening.{IsUnharmed};
ghost use Rattle.book_tables_schema.specs.Tabled.{HasTables};

use sqlite::{Alter, Connection, Error, ErrorCode};
use std::alloc::Global;

/// What is left of a connection whose tables were not had.
#[derive(Drop)]
pub enum Unopened<S: Alter> {
    /// The connection, opened again.
    Connection(Connection<S>),
    /// Its store, which could not be opened again.
    Store(S),
}

/// Opens the store of a connection again, as its last commit left it: what is not committed is undone. The rows of its
/// tables then rise by their numbers, which nothing tells of a connection that is only given. Takes as long as opening
/// the file, twice.
///
/// # Errors
///
/// `OutOfMemory` is want of memory; each other error is a failure of the store. The store comes back: where it is open it
/// shows what was committed, and a stop leaves that, if the connection was open, as it does of the connection.
pub fn reopen<S: Alter + Drop>(
    alloc: Global,
    connection: Connection<S>,
) -> Result<Connection<S>, (Error, S)>
    ensures opens { IfOk result (λ c. HasCleanDisk (state S.Store c)
        → Opens (state S.Store c) × IsLive (state S.Store c)) }
    ensures same { IfOk result (λ c. HasCleanDisk (state S.Store c)
        → (state S.Store c).now.trees ≡ (state S.Store connection).committed.trees) }
    ensures tabled { IfOk result (λ c. HasCleanDisk (state S.Store c)
        → HasTables (state S.Store c).now.schema (state S.Store c).now) }
    ensures unharmed { IfErr result (λ e. IsUnharmed S.Store (state S.Store connection) e.1) }
{
    let store = connection.into_store();
    if store.is_broken() {
        return Err((Error::SqliteFailure(ErrorCode::Closed), store));
    }
    match Connection::over(alloc, store) {
        Ok(connection) => Ok(connection),
        Err((error, store)) => Err((error, store)),
    }
}
