//! What is at fault in a store.

ghost use Rattle.std.specs.Prelude.{◌≡◌, IfOk};
ghost use Rattle.sqlite.specs.Held.{state};
ghost use Rattle.sqlite.specs.State.{HasCleanDisk, Survives};
ghost use Rattle.book_tables_rows.specs.Schema.{book_schema};
ghost use Rattle.book_tables_schema.specs.OtherReach.{IsBeside};
ghost use Rattle.book_tables_schema.specs.Tabled.{IsTabled};
ghost use Rattle.book_tables_opening.specs.Reading.{RowsRise};
ghost use Rattle.book_tables_findings.specs.Examining.{Examines, IsOpenedAgain, TellsFault};

use crate::faults::Fault;
use crate::finding::find_broken;
use book_tables_opening::make_anew;
use book_tables_schema::{Generation, has_no_former, is_beside_reach, is_book_schema};
use sqlite::{Alter, Connection, Error, ErrorCode, Transaction};
use std::alloc::Global;

/// What is at fault in tables that have `reach`, in any transaction.
fn find_fault<S: Alter>(
    alloc: Global,
    transaction: &mut Transaction<'_, S>,
) -> Result<Option<Fault>, Error>
    ensures same_reference { transaction.new.conn.ghost_name ≡ transaction.old.conn.ghost_name }
    ensures survives { Survives (state S.Store transaction.old.conn.now)
        (state S.Store transaction.new.conn.now) (λ _. ⊥) }
    ensures told { HasCleanDisk (state S.Store transaction.new.conn.now)
        → IfOk result (λ found. IsTabled (state S.Store transaction.old.conn.now).now
        → TellsFault (state S.Store transaction.old.conn.now).now found) }
{
    if !has_no_former(transaction)? {
        return Ok(Some(Fault::Former));
    }
    let found = find_broken(alloc, transaction)?;
    match found {
        Some(finding) => Ok(Some(Fault::Found(finding))),
        None => Ok(None),
    }
}

/// What is at fault where the schema is that of a store, in a transaction of its own, which changes nothing.
fn examine_book<S: Alter>(
    alloc: Global,
    connection: &mut Connection<S>,
) -> Result<Option<Fault>, Error>
    requires { (state S.Store connection.old).now.schema ≡ book_schema }
    ensures survives { Survives (state S.Store connection.old)
        (state S.Store connection.new) (λ _. ⊥) }
    ensures told { HasCleanDisk (state S.Store connection.new)
        → IfOk result (λ found. RowsRise (state S.Store connection.old).now
        → TellsFault (state S.Store connection.old).now found) }
{
    if !connection.is_autocommit() {
        return Err(Error::SqliteFailure(ErrorCode::TransactionState));
    }
    let mut transaction = connection.transaction();
    find_fault(alloc, &mut transaction)
}

/// The same where there is no `reach`, or one of other columns: it is made in the transaction, which is then undone.
fn examine_base<S: Alter>(
    alloc: Global,
    connection: &mut Connection<S>,
) -> Result<Option<Fault>, Error>
    requires { IsBeside Generation.Second (state S.Store connection.old).now.schema }
    ensures survives { Survives (state S.Store connection.old)
        (state S.Store connection.new) (λ _. ⊥) }
    ensures told { HasCleanDisk (state S.Store connection.new)
        → IfOk result (λ found. RowsRise (state S.Store connection.old).now
        → TellsFault (state S.Store connection.old).now found) }
{
    if !connection.is_autocommit() {
        return Err(Error::SqliteFailure(ErrorCode::TransactionState));
    }
    let mut transaction = connection.transaction();
    make_anew(&mut transaction)?;
    find_fault(alloc, &mut transaction)
}

/// What is at fault in the tables of a connection. Nothing is written.
fn examine_tables<S: Alter>(
    alloc: Global,
    connection: &mut Connection<S>,
) -> Result<Option<Fault>, Error>
    ensures survives { Survives (state S.Store connection.old)
        (state S.Store connection.new) (λ _. ⊥) }
    ensures told { HasCleanDisk (state S.Store connection.new)
        → IfOk result (λ found. RowsRise (state S.Store connection.old).now
        → TellsFault (state S.Store connection.old).now found) }
{
    if is_book_schema(connection.schema()) {
        return examine_book(alloc, connection);
    }
    if is_beside_reach(alloc, connection.schema(), Generation::Second)? {
        return examine_base(alloc, connection);
    }
    Ok(Some(Fault::Schema))
}

/// Opens the store of a connection again, as its last commit left it. An error is want of memory or of the store, also
/// where the connection was shut.
fn open_again<S: Alter + Drop>(
    alloc: Global,
    connection: Connection<S>,
) -> Result<Connection<S>, Error>
    ensures { IfOk result (λ c. HasCleanDisk (state S.Store c)
        → IsOpenedAgain (state S.Store connection) (state S.Store c)) }
{
    let store = connection.into_store();
    if store.is_broken() {
        return Err(Error::SqliteFailure(ErrorCode::Closed));
    }
    match Connection::over(alloc, store) {
        Ok(connection) => Ok(connection),
        Err((error, _store)) => Err(error),
    }
}

/// What is at fault in the store of a connection in no transaction; none exactly where its tables stand for an Office. The
/// store is opened again, and every row is read and tested, as by `find_broken`; nothing is written. The connection that
/// read it comes back. An error is want of memory, or a failure of the store.
pub fn examine<S: Alter + Drop>(
    alloc: Global,
    connection: Connection<S>,
) -> Result<(Option<Fault>, Connection<S>), Error>
    ensures { IfOk result (λ r. HasCleanDisk (state S.Store r.1)
        → Examines (state S.Store connection) r.0) }
{
    if !connection.is_autocommit() {
        return Err(Error::SqliteFailure(ErrorCode::TransactionState));
    }
    let mut opened = open_again(alloc, connection)?;
    let found = examine_tables(alloc, &mut opened)?;
    Ok((found, opened))
}
