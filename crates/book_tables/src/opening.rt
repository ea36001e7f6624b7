//! Making the tables of a new store, and giving a connection back.

ghost use Rattle.std.specs.Prelude.{◌≡◌, ◌≢◌, ◌⊎◌, IfOk, IfErr};
ghost use Rattle.sqlite.specs.Held.{state};
ghost use Rattle.sqlite.specs.State.{HasCleanDisk};
ghost use Rattle.book_office.specs.Edits.{empty_office};
ghost use Rattle.book_tables_schema.specs.Founding.{no_schema};
ghost use Rattle.book_tables.specs.Opened.{StandsAlone, IsUnfounded, open_fault};

use crate::tables::Tables;
use sqlite::{Alter, Connection, Error, ErrorCode};

/// Why a store gives no tables.
#[derive(Clone, Copy, Debug, PartialEq, Eq)]
pub enum OpenFault {
    /// The tables are those of another version.
    OtherVersion,
    /// The tables are not there, or hold rows that stand for no Office.
    NoStore,
    /// Memory was refused.
    Memory,
    /// The store failed.
    Store,
}

/// Tells want of memory from any other failure.
fn open_fault_of(error: Error) -> OpenFault
    ensures told { result ≡ open_fault error }
    ensures either { (result ≡ OpenFault.Memory) ⊎ (result ≡ OpenFault.Store) }
{
    match error {
        Error::SqliteFailure(ErrorCode::OutOfMemory) => OpenFault::Memory,
        _ => OpenFault::Store,
    }
}

impl<S: Alter> Tables<S> {
    /// The tables of a new store: they stand for the empty Office, with the root and the three homes and epoch 0. The
    /// store must have no table, index or view, and the connection be in no transaction. An error gives the connection
    /// back, which shows what it showed: `Memory` is want of memory, `Store` any other failure, also of a store that is
    /// not empty.
    pub fn create(mut connection: Connection<S>) -> Result<Tables<S>, (OpenFault, Connection<S>)>
        ensures was_empty { IfOk result (λ t. HasCleanDisk (state S.Store t.connection)
            → (state S.Store connection).now.schema ≡ no_schema) }
        ensures made { IfOk result (λ t. HasCleanDisk (state S.Store t.connection)
            → StandsAlone (state S.Store t.connection) empty_office) }
        ensures counted { IfOk result (λ t. t.failures ≡ 0) }
        ensures fault { IfErr result (λ e. (e.0 ≡ OpenFault.Memory) ⊎ (e.0 ≡ OpenFault.Store)) }
        ensures taken { IfErr result (λ e. (state S.Store connection).now.schema ≢ no_schema
            → e.0 ≡ OpenFault.Store) }
        ensures kept { IfErr result (λ e. HasCleanDisk (state S.Store e.1)
            → IsUnfounded (state S.Store connection) (state S.Store e.1) empty_office) }
    {
        match book_tables_schema::create(&mut connection) {
            Ok(()) => Ok(Tables {
                connection,
                failures: 0,
            }),
            Err(error) => Err((open_fault_of(error), connection)),
        }
    }

    /// The tables through a connection, whose rows stand for what they stand for: none has failed yet. Takes no memory.
    pub fn over(connection: Connection<S>) -> Tables<S>
        ensures connection { result.connection ≡ connection }
        ensures counted { result.failures ≡ 0 }
    {
        Tables {
            connection,
            failures: 0,
        }
    }

    /// Gives the connection back, as it is. Takes no memory.
    pub fn release(self) -> Connection<S>
        ensures { result ≡ self.connection }
    {
        let Tables {
            connection,
            failures: _,
        } = self;
        connection
    }
}
