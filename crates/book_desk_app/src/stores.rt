//! The tables of a store.

ghost use Rattle.std.specs.Prelude.{◌≡◌, IfErr, IfOk};
ghost use Rattle.sqlite.specs.Held.{state};
ghost use Rattle.book_desk_app.specs.Stores.{AreTablesOf, FailsToOpen, store_failure};

use crate::failures::StoreFailure;
use book_tables::{OpenFault, Tables};
use book_tables_opening::{Found, open_found};
use book_tables_schema::{Unopened, is_empty};
use sqlite::{Alter, Connection};
use std::alloc::Global;

/// The fault of an open as what is told of it.
pub(crate) fn store_failure(fault: OpenFault) -> StoreFailure
    ensures { result ≡ store_failure fault }
{
    match fault {
        OpenFault::OtherVersion => StoreFailure::OtherVersion,
        OpenFault::NoStore => StoreFailure::NoStore,
        OpenFault::Memory => StoreFailure::Memory,
        OpenFault::Store => StoreFailure::Store,
    }
}

/// The tables of a store that was just opened: made where it has no table, index or view, so that they stand for the empty
/// Office, and else had as its last commit left it, where their rows stand for a sound Office. No call of them has failed
/// yet.
///
/// # Errors
///
/// As `Tables::create` and `book_tables_opening::open_found`. The connection comes back. It shows what it showed, where the
/// store has no table, and a stop leaves that or the empty Office; of any other store it shows what was committed, and a
/// stop leaves that, or the same Office with `reach` made.
pub fn open_store<S: Alter + Drop>(
    alloc: Global,
    found: Found<S>,
) -> Result<Tables<S>, (StoreFailure, Unopened<S>)>
    ensures opened { IfOk result (AreTablesOf (state S.Store) (λ t. t.connection)
        (λ t. t.failures) found) }
    ensures refused { IfErr result (λ e. FailsToOpen S.Store found e.0 e.1) }
{
    if is_empty(found.connection()) {
        match Tables::create(found.into_connection()) {
            Ok(tables) => Ok(tables),
            Err((fault, connection)) => Err((
                store_failure(fault),
                Unopened::Connection(connection),
            )),
        }
    } else {
        match open_found(alloc, found) {
            Ok(tables) => Ok(tables),
            Err((fault, left)) => Err((store_failure(fault), left)),
        }
    }
}

/// The connection of a store that was just opened, and over which nothing was done, if there is one. Takes no memory.
pub fn kept_connection<S: Alter + Drop>(store: Option<Found<S>>) -> Option<Connection<S>>
    ensures { result ≡ store }
{
    match store {
        Some(found) => Some(found.into_connection()),
        None => None,
    }
}
