//! Opening the tables of a store that is there.

ghost use Rattle.std.specs.Prelude.{◌≡◌, ◌⊎◌, true, IfOk, IfErr, IsTrue, OnErr, OnOk};
ghost use Rattle.sqlite.specs.Held.{state};
ghost use Rattle.sqlite.specs.State.{HasCleanDisk, Survives};
ghost use Rattle.book_tables_rows.specs.Schema.{book_schema};
ghost use Rattle.book_tables_rows.specs.Steps.{Keeps, Spares, Stays};
ghost use Rattle.book_tables_schema.specs.OtherReach.{IsBeside};
ghost use Rattle.book_tables_schema.specs.Reopening.{IfConnection, IfStore, IsConnectionAnd, IsUnharmed};
ghost use Rattle.book_tables.specs.Opened.{open_fault};
ghost use Rattle.book_tables_opening.specs.Reading.{MakesAnew, MaySettle, SameRows, TellsOffice, TellsOther, TellsSettled, TellsStanding, IsStanding, StandingSays, FaultSaysOf, IsReopened, IsOpened, IsRefused, IsUnopened, StandsAsBefore, StandForNone};

use crate::directories::Directory;
use crate::found::Found;
use crate::office_tests::are_textless_rows;
use crate::reading::read_tables;
use crate::text_tests::have_own_texts;
use book_tables::{OpenFault, Tables, settle_reach};
use book_tables_schema::{
    Generation, Unopened, drop_derived, has_no_former, is_beside_reach, is_book_schema,
    make_derived, reopen, says_other_version,
};
use sqlite::{Alter, Connection, Error, ErrorCode, Transaction};
use std::alloc::Global;

/// What the tables of a connection are.
#[derive(Clone, Copy, Debug, PartialEq, Eq)]
pub(crate) enum Standing {
    /// They stand for an Office.
    Whole,
    /// They stand for none, and are those of another version.
    Other,
    /// They stand for none.
    Broken,
}

/// Whether the rows of the tables are those of a sound Office, whose labels and texts are UTF-8. Every row is read and
/// tested, in any transaction: all of them without the texts of cards, and then one text after the other. So the memory
/// that it takes grows as the number of rows, and not as the texts.
pub fn is_office<S: Alter>(
    alloc: Global,
    transaction: &mut Transaction<'_, S>,
) -> Result<bool, Error>
    ensures same_reference { transaction.new.conn.ghost_name ≡ transaction.old.conn.ghost_name }
    ensures survives { Survives (state S.Store transaction.old.conn.now)
        (state S.Store transaction.new.conn.now) (λ _. ⊥) }
    ensures kept { Keeps (state S.Store transaction.old.conn.now)
        (state S.Store transaction.new.conn.now) }
    ensures stays { Spares (state S.Store transaction.old.conn.now)
        (state S.Store transaction.new.conn.now) result }
    ensures told { HasCleanDisk (state S.Store transaction.new.conn.now)
        → IfOk result (λ is. TellsStanding (state S.Store transaction.old.conn.now) is) }
{
    let rows = read_tables(transaction)?;
    let directory = Directory::new(alloc, rows.nodes)?;
    let told = are_textless_rows(
        alloc,
        &directory,
        &rows.lists.0,
        &rows.lists.1,
        &rows.rest.0,
        &rows.rest.1,
    )?;
    if !told {
        return Ok(false);
    }
    have_own_texts(transaction, directory.rows())
}

/// Whether `meta` has one row with another version than this one, read in a transaction of its own. Where it is told, the
/// connection was open, and it is told of the tables that it showed.
pub fn tells_other<S: Alter>(connection: &mut Connection<S>, version: u32) -> Result<bool, Error>
    ensures stays { HasCleanDisk (state S.Store connection.new)
        → Stays (state S.Store connection.old) (state S.Store connection.new) }
    ensures survives { Survives (state S.Store connection.old)
        (state S.Store connection.new) (λ _. ⊥) }
    ensures told { HasCleanDisk (state S.Store connection.new)
        → IfOk result (λ other. IsTrue (state S.Store connection.old).is_open
        × TellsOther version (state S.Store connection.old).now other) }
{
    if !connection.is_autocommit() {
        return Err(Error::SqliteFailure(ErrorCode::TransactionState));
    }
    let mut transaction = connection.transaction();
    says_other_version(&mut transaction, version)
}

/// Whether tables that have `reach` stand for an Office, in any transaction, and whether `reach` was written, since it
/// did not hold what chains of the direct members lead to; none where they stand for none. Rows in the table of version
/// 1 stand for none.
pub fn settle_office<S: Alter>(
    alloc: Global,
    transaction: &mut Transaction<'_, S>,
) -> Result<Option<bool>, Error>
    ensures same_reference { transaction.new.conn.ghost_name ≡ transaction.old.conn.ghost_name }
    ensures survives { Survives (state S.Store transaction.old.conn.now)
        (state S.Store transaction.new.conn.now) (λ _. ⊥) }
    ensures kept { Keeps (state S.Store transaction.old.conn.now)
        (state S.Store transaction.new.conn.now) }
    ensures told { HasCleanDisk (state S.Store transaction.new.conn.now)
        → IsTrue (state S.Store transaction.old.conn.now).in_transaction
        → IfOk result (TellsOffice (state S.Store transaction.old.conn.now)
        (state S.Store transaction.new.conn.now)) }
{
    if !has_no_former(transaction)? {
        return Ok(None);
    }
    if !is_office(alloc, transaction)? {
        return Ok(None);
    }
    let written = settle_reach(alloc, transaction)?;
    Ok(Some(written))
}

/// Makes `reach`, without rows, where there is none, or one of other columns, which is taken away.
pub fn make_anew<S: Alter>(transaction: &mut Transaction<'_, S>) -> Result<(), Error>
    ensures same_reference { transaction.new.conn.ghost_name ≡ transaction.old.conn.ghost_name }
    ensures survives { Survives (state S.Store transaction.old.conn.now)
        (state S.Store transaction.new.conn.now) (λ _. ⊥) }
    ensures kept { Keeps (state S.Store transaction.old.conn.now)
        (state S.Store transaction.new.conn.now) }
    ensures made { HasCleanDisk (state S.Store transaction.new.conn.now)
        → IsTrue (state S.Store transaction.old.conn.now).in_transaction
        → OnOk result (MakesAnew (state S.Store transaction.old.conn.now)
        (state S.Store transaction.new.conn.now)) }
{
    drop_derived(transaction)?;
    make_derived(transaction)
}

/// Whether the tables stand for an Office, where they have `reach`, in a transaction of its own. It is committed where
/// they do, so that the connection is known to be open; nothing is written by that where `reach` was not.
fn settle_book<S: Alter>(alloc: Global, connection: &mut Connection<S>) -> Result<bool, Error>
    requires { (state S.Store connection.old).now.schema ≡ book_schema }
    ensures told { HasCleanDisk (state S.Store connection.new)
        → IfOk result (TellsSettled (state S.Store connection.old) (state S.Store connection.new)) }
    ensures kept { HasCleanDisk (state S.Store connection.new)
        → OnErr result (Stays (state S.Store connection.old) (state S.Store connection.new)) }
    ensures left { Survives (state S.Store connection.old) (state S.Store connection.new)
        (MaySettle (state S.Store connection.old)) }
{
    if !connection.is_autocommit() {
        return Err(Error::SqliteFailure(ErrorCode::TransactionState));
    }
    let mut transaction = connection.transaction();
    let Some(_written) = settle_office(alloc, &mut transaction)? else {
        return Ok(false);
    };
    transaction.commit()?;
    Ok(true)
}

/// The same where they have no `reach`, as in a store made before it, or one of other columns, which is taken away: it
/// is made, in the same transaction.
fn settle_base<S: Alter>(alloc: Global, connection: &mut Connection<S>) -> Result<bool, Error>
    requires { IsBeside Generation.Second (state S.Store connection.old).now.schema }
    ensures told { HasCleanDisk (state S.Store connection.new)
        → IfOk result (TellsSettled (state S.Store connection.old) (state S.Store connection.new)) }
    ensures kept { HasCleanDisk (state S.Store connection.new)
        → OnErr result (Stays (state S.Store connection.old) (state S.Store connection.new)) }
    ensures left { Survives (state S.Store connection.old) (state S.Store connection.new)
        (MaySettle (state S.Store connection.old)) }
{
    if !connection.is_autocommit() {
        return Err(Error::SqliteFailure(ErrorCode::TransactionState));
    }
    let mut transaction = connection.transaction();
    make_anew(&mut transaction)?;
    let Some(_written) = settle_office(alloc, &mut transaction)? else {
        return Ok(false);
    };
    transaction.commit()?;
    Ok(true)
}

/// Whether the tables stand for an Office, of which `reach` then holds what chains of its direct members lead to.
fn is_whole<S: Alter>(alloc: Global, connection: &mut Connection<S>) -> Result<bool, Error>
    ensures told { HasCleanDisk (state S.Store connection.new)
        → IfOk result (TellsSettled (state S.Store connection.old) (state S.Store connection.new)) }
    ensures kept { HasCleanDisk (state S.Store connection.new)
        → OnErr result (Stays (state S.Store connection.old) (state S.Store connection.new)) }
    ensures left { Survives (state S.Store connection.old) (state S.Store connection.new)
        (MaySettle (state S.Store connection.old)) }
{
    if is_book_schema(connection.schema()) {
        return settle_book(alloc, connection);
    }
    if is_beside_reach(alloc, connection.schema(), Generation::Second)? {
        return settle_base(alloc, connection);
    }
    Ok(false)
}

/// What the tables of a connection are.
fn standing_of<S: Alter>(alloc: Global, connection: &mut Connection<S>) -> Result<Standing, Error>
    ensures told { HasCleanDisk (state S.Store connection.new)
        → IfOk result (IsStanding (state S.Store connection.old) (state S.Store connection.new)) }
    ensures kept { HasCleanDisk (state S.Store connection.new)
        → OnErr result (Stays (state S.Store connection.old) (state S.Store connection.new)) }
    ensures left { Survives (state S.Store connection.old) (state S.Store connection.new)
        (MaySettle (state S.Store connection.old)) }
    ensures other { HasCleanDisk (state S.Store connection.new)
        → IfOk result (λ standing. StandingSays (state S.Store connection.old).now standing) }
{
    if is_whole(alloc, connection)? {
        return Ok(Standing::Whole);
    }
    if tells_other(connection, 2)? {
        return Ok(Standing::Other);
    }
    Ok(Standing::Broken)
}

/// Tells want of memory from any other failure.
pub fn open_fault_of(error: Error) -> OpenFault
    ensures told { result ≡ open_fault error }
    ensures either { (result ≡ OpenFault.Memory) ⊎ (result ≡ OpenFault.Store) }
{
    match error {
        Error::SqliteFailure(ErrorCode::OutOfMemory) => OpenFault::Memory,
        _ => OpenFault::Store,
    }
}

/// The tables of a connection that was just opened.
fn open_again<S: Alter>(
    alloc: Global,
    mut connection: Connection<S>,
) -> Result<Tables<S>, (OpenFault, Unopened<S>)>
    ensures stands { IsReopened (state S.Store connection)
        → IfOk result (λ t. HasCleanDisk (state S.Store t.connection)
        → HasCleanDisk (state S.Store connection)
        × IsOpened (state S.Store connection).now.trees (state S.Store t.connection)) }
    ensures counted { IfOk result (λ t. t.failures ≡ 0) }
    ensures refused { IsReopened (state S.Store connection)
        → IfErr result (λ e. IsRefused e.0
        → IsConnectionAnd e.1 (λ c. HasCleanDisk (state S.Store c)
        → HasCleanDisk (state S.Store connection)
        × StandForNone (state S.Store connection).now.trees)) }
    ensures other { IsReopened (state S.Store connection)
        → IfErr result (λ e. IsRefused e.0
        → IsConnectionAnd e.1 (λ c. HasCleanDisk (state S.Store c)
        → HasCleanDisk (state S.Store connection)
        × FaultSaysOf 2 (state S.Store connection).now.trees e.0)) }
    ensures kept { IsReopened (state S.Store connection)
        → IfErr result (λ e. IfConnection e.1
        (λ c. HasCleanDisk (state S.Store c) → HasCleanDisk (state S.Store connection)
        × IsUnopened (state S.Store connection).now.trees (state S.Store c))) }
    ensures connected { IfErr result (λ e. IfStore e.1 (λ _. ⊥)) }
{
    match standing_of(alloc, &mut connection) {
        Ok(Standing::Whole) => Ok(Tables::over(connection)),
        Ok(Standing::Other) => Err((OpenFault::OtherVersion, Unopened::Connection(connection))),
        Ok(Standing::Broken) => Err((OpenFault::NoStore, Unopened::Connection(connection))),
        Err(error) => Err((open_fault_of(error), Unopened::Connection(connection))),
    }
}

/// Opens the tables of a store that is there, as its last commit left it. They are given where what was committed stands
/// for a sound Office: the connection is open and stands for that Office, and a stop just after leaves that one alone; so
/// its labels and texts are UTF-8. Where `reach` is missing, as in a store made before it, has other columns, or does not
/// hold what chains of the direct members lead to, it is made so in one transaction, in which the rows are tested. Every
/// row is read and tested, which takes a number of comparisons that grows as the number of rows times its logarithm.
///
/// # Errors
///
/// `OtherVersion` where what was committed stands for no Office, and `meta` has one row, with another version than 2;
/// `NoStore` where it stands for none else, as where a label or a text is not UTF-8. `Memory` is want of memory, `Store`
/// any other failure of the store. The connection comes back, and shows what was committed where it is open; a stop
/// leaves that, or the Office that it stood for, with `reach` made. Where the store could not be opened again, it comes
/// back itself: a stop leaves what was committed, if the connection was open.
pub fn open<S: Alter + Drop>(
    alloc: Global,
    connection: Connection<S>,
) -> Result<Tables<S>, (OpenFault, Unopened<S>)>
    ensures stands { IfOk result (λ t. HasCleanDisk (state S.Store t.connection)
        → StandsAsBefore (state S.Store connection).committed.trees (state S.Store t.connection)) }
    ensures same { IfOk result (λ t. HasCleanDisk (state S.Store t.connection)
        → SameRows (state S.Store connection).committed.trees
        (state S.Store t.connection).now.trees) }
    ensures counted { IfOk result (λ t. t.failures ≡ 0) }
    ensures refused { IfErr result (λ e. IsRefused e.0
        → IsConnectionAnd e.1 (λ c. HasCleanDisk (state S.Store c)
        → StandForNone (state S.Store connection).committed.trees)) }
    ensures other { IfErr result (λ e. IsRefused e.0
        → IsConnectionAnd e.1 (λ c. HasCleanDisk (state S.Store c)
        → FaultSaysOf 2 (state S.Store connection).committed.trees e.0)) }
    ensures kept { IfErr result (λ e. IfConnection e.1 (λ c. HasCleanDisk (state S.Store c)
        → IsUnopened (state S.Store connection).committed.trees (state S.Store c))) }
    ensures unharmed { IfErr result (λ e. IfStore e.1
        (IsUnharmed S.Store (state S.Store connection))) }
{
    match reopen(alloc, connection) {
        Ok(opened) => open_again(alloc, opened),
        Err((error, store)) => Err((open_fault_of(error), Unopened::Store(store))),
    }
}

/// The same of a connection that was just opened, whose store is not opened once more.
///
/// # Errors
///
/// Those of `open`; the connection comes back.
pub fn open_found<S: Alter + Drop>(
    alloc: Global,
    found: Found<S>,
) -> Result<Tables<S>, (OpenFault, Unopened<S>)>
    ensures stands { IfOk result (λ t. HasCleanDisk (state S.Store t.connection)
        → StandsAsBefore (state S.Store found).committed.trees (state S.Store t.connection)) }
    ensures same { IfOk result (λ t. HasCleanDisk (state S.Store t.connection)
        → SameRows (state S.Store found).committed.trees
        (state S.Store t.connection).now.trees) }
    ensures counted { IfOk result (λ t. t.failures ≡ 0) }
    ensures refused { IfErr result (λ e. IsRefused e.0
        → IsConnectionAnd e.1 (λ c. HasCleanDisk (state S.Store c)
        → StandForNone (state S.Store found).committed.trees)) }
    ensures other { IfErr result (λ e. IsRefused e.0
        → IsConnectionAnd e.1 (λ c. HasCleanDisk (state S.Store c)
        → FaultSaysOf 2 (state S.Store found).committed.trees e.0)) }
    ensures kept { IfErr result (λ e. IfConnection e.1 (λ c. HasCleanDisk (state S.Store c)
        → IsUnopened (state S.Store found).committed.trees (state S.Store c))) }
    ensures connected { IfErr result (λ e. IfStore e.1 (λ _. ⊥)) }
{
    let connection = found.into_connection();
    open_again(alloc, connection)
}
