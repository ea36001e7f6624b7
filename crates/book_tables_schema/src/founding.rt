//! A store is founded, in one transaction.

ghost use Rattle.std.specs.Prelude.{◌≡◌, ◌≢◌, ◌↔◌, ◌⊎◌, IsTrue, Err, OnOk, OnErr};
ghost use Rattle.sqlite.specs.Held.{state};
ghost use Rattle.sqlite.specs.State.{HasCleanDisk, Survives};
ghost use Rattle.book_tables_rows.specs.Steps.{Keeps, Stays};
ghost use Rattle.book_tables_schema.specs.Founding.{Founds, IsFounded, MayFound, no_schema};

use crate::first::insert_first;
use crate::tables::make_tables;
use sqlite::{Alter, Connection, Error, ErrorCode, Transaction};

/// Whether the store of a connection has no table, index or view, so that `create` can found it. No row is read.
pub fn is_empty<S: Alter>(connection: &Connection<S>) -> bool
    ensures { IsTrue result ↔ ((state S.Store connection.now).now.schema ≡ no_schema) }
{
    let schema = connection.schema();
    schema.tables.is_empty() && schema.indexes.is_empty() && schema.views.is_empty()
}

/// Makes the tables, and writes the first rows.
fn found<S: Alter>(transaction: &mut Transaction<'_, S>) -> Result<(), Error>
    ensures same_reference { transaction.new.conn.ghost_name ≡ transaction.old.conn.ghost_name }
    ensures survives { Survives (state S.Store transaction.old.conn.now)
        (state S.Store transaction.new.conn.now) (λ _. ⊥) }
    ensures kept { Keeps (state S.Store transaction.old.conn.now)
        (state S.Store transaction.new.conn.now) }
    ensures done { HasCleanDisk (state S.Store transaction.new.conn.now)
        → IsTrue (state S.Store transaction.old.conn.now).in_transaction
        → OnOk result (Founds (state S.Store transaction.old.conn.now)
        (state S.Store transaction.new.conn.now)) }
{
    make_tables(transaction)?;
    insert_first(transaction)
}

/// Founds a store (own profile): the seven tables of schema version 2 with their indexes, the rows of the root and of
/// the three homes, and epoch 0. Where the store has a table, an index or a view, or the connection is in a
/// transaction, nothing is changed and it answers `NameTaken` or `TransactionState`; each other error is that of the
/// store, and leaves it as it was.
pub fn create<S: Alter>(connection: &mut Connection<S>) -> Result<(), Error>
    ensures made { HasCleanDisk (state S.Store connection.new)
        → OnOk result (IsFounded (state S.Store connection.old) (state S.Store connection.new)) }
    ensures kept { HasCleanDisk (state S.Store connection.new)
        → OnErr result (Stays (state S.Store connection.old) (state S.Store connection.new)) }
    ensures left { Survives (state S.Store connection.old) (state S.Store connection.new)
        (MayFound (state S.Store connection.old)) }
    ensures taken { (state S.Store connection.old).now.schema ≢ no_schema
        → (result ≡ Err (Error.SqliteFailure ErrorCode.TransactionState))
        ⊎ (result ≡ Err (Error.SqliteFailure ErrorCode.NameTaken)) }
{
    if !connection.is_autocommit() {
        return Err(Error::SqliteFailure(ErrorCode::TransactionState));
    }
    if !is_empty(connection) {
        return Err(Error::SqliteFailure(ErrorCode::NameTaken));
    }
    let mut transaction = connection.transaction();
    found(&mut transaction)?;
    transaction.commit()
}
