//! Migrating a store, in one transaction.

ghost use Rattle.std.specs.Prelude.{◌≡◌, IfOk, IfErr, OnErr, IsTrue};
ghost use Rattle.sqlite.specs.Held.{state};
ghost use Rattle.sqlite.specs.State.{HasCleanDisk, Survives};
ghost use Rattle.book_tables_rows.specs.Steps.{Keeps, Stays};
ghost use Rattle.book_tables_schema.specs.Reopening.{IfConnection, IfStore, IsConnectionAnd, IsUnharmed};
ghost use Rattle.book_tables_opening.specs.Reading.{FaultSays, IsRefused, IsReopened};
ghost use Rattle.book_tables_migrating.specs.Migrating.{IsUnmigrated, MayMigrate, StandsForNoneBefore, StandsMigrated, TellsGeneration, TellsMigrated, TellsRewritten};

use book_tables::{OpenFault, Tables};
use book_tables_opening::{open_fault_of, settle_office, tells_other};
use book_tables_renewing::{renew, reorder};
use book_tables_schema::{Generation, Unopened, drop_derived, is_beside_reach, reopen};
use sqlite::{Alter, Connection, Error, ErrorCode, Transaction};
use sqlite_schema::schema::Schema;
use std::alloc::{AllocError, Global};

/// Renews the tables of version 1, without any `reach` that there is, and tells how many entries they have, where their
/// rows are then those of a sound Office; `reach`, made anew, then holds what chains of its direct members lead to.
fn rewrite<S: Alter>(
    alloc: Global,
    transaction: &mut Transaction<'_, S>,
) -> Result<Option<usize>, Error>
    ensures same_reference { transaction.new.conn.ghost_name ≡ transaction.old.conn.ghost_name }
    ensures survives { Survives (state S.Store transaction.old.conn.now)
        (state S.Store transaction.new.conn.now) (λ _. ⊥) }
    ensures kept { Keeps (state S.Store transaction.old.conn.now)
        (state S.Store transaction.new.conn.now) }
    ensures told { HasCleanDisk (state S.Store transaction.new.conn.now)
        → IsTrue (state S.Store transaction.old.conn.now).in_transaction
        → IfOk result (λ count. TellsRewritten Generation.First
        (state S.Store transaction.old.conn.now) (state S.Store transaction.new.conn.now) count) }
{
    drop_derived(transaction)?;
    let Some(count) = renew(transaction)? else {
        return Ok(None);
    };
    let Some(_written) = settle_office(alloc, transaction)? else {
        return Ok(None);
    };
    Ok(Some(count))
}

/// Does the same with the tables of version 2 in the former order, whose rows stay.
fn rearrange<S: Alter>(
    alloc: Global,
    transaction: &mut Transaction<'_, S>,
) -> Result<Option<usize>, Error>
    ensures same_reference { transaction.new.conn.ghost_name ≡ transaction.old.conn.ghost_name }
    ensures survives { Survives (state S.Store transaction.old.conn.now)
        (state S.Store transaction.new.conn.now) (λ _. ⊥) }
    ensures kept { Keeps (state S.Store transaction.old.conn.now)
        (state S.Store transaction.new.conn.now) }
    ensures told { HasCleanDisk (state S.Store transaction.new.conn.now)
        → IsTrue (state S.Store transaction.old.conn.now).in_transaction
        → IfOk result (λ count. TellsRewritten Generation.Former
        (state S.Store transaction.old.conn.now) (state S.Store transaction.new.conn.now) count) }
{
    drop_derived(transaction)?;
    let Some(count) = reorder(transaction)? else {
        return Ok(None);
    };
    let Some(_settled) = settle_office(alloc, transaction)? else {
        return Ok(None);
    };
    Ok(Some(count))
}

/// Does it with the tables of a generation; those of version 2 are not migrated.
fn rewrite_from<S: Alter>(
    alloc: Global,
    transaction: &mut Transaction<'_, S>,
    generation: Generation,
) -> Result<Option<usize>, Error>
    ensures same_reference { transaction.new.conn.ghost_name ≡ transaction.old.conn.ghost_name }
    ensures survives { Survives (state S.Store transaction.old.conn.now)
        (state S.Store transaction.new.conn.now) (λ _. ⊥) }
    ensures kept { Keeps (state S.Store transaction.old.conn.now)
        (state S.Store transaction.new.conn.now) }
    ensures told { HasCleanDisk (state S.Store transaction.new.conn.now)
        → IsTrue (state S.Store transaction.old.conn.now).in_transaction
        → IfOk result (λ count. TellsRewritten generation (state S.Store transaction.old.conn.now)
        (state S.Store transaction.new.conn.now) count) }
{
    match generation {
        Generation::First => rewrite(alloc, transaction),
        Generation::Former => rearrange(alloc, transaction),
        Generation::Second => Ok(None),
    }
}

/// Which tables a schema has that a migration takes: those of version 1, or those of version 2 in the former order. An
/// error is want of memory.
fn generation_of(alloc: Global, schema: &Schema) -> Result<Option<Generation>, AllocError>
    ensures { IfOk result (λ found. TellsGeneration schema.now found) }
{
    if is_beside_reach(alloc, schema, Generation::First)? {
        return Ok(Some(Generation::First));
    }
    if is_beside_reach(alloc, schema, Generation::Former)? {
        return Ok(Some(Generation::Former));
    }
    Ok(None)
}

/// Rewrites the tables of a connection that a migration takes, in a transaction of its own: it is committed where they
/// stood for an Office, and undone where they did not.
fn migrate_tables<S: Alter>(
    alloc: Global,
    connection: &mut Connection<S>,
) -> Result<Option<usize>, Error>
    ensures told { HasCleanDisk (state S.Store connection.new)
        → IfOk result (λ count. TellsMigrated (state S.Store connection.old)
        (state S.Store connection.new) count) }
    ensures kept { HasCleanDisk (state S.Store connection.new)
        → OnErr result (Stays (state S.Store connection.old) (state S.Store connection.new)) }
    ensures left { Survives (state S.Store connection.old) (state S.Store connection.new)
        (MayMigrate (state S.Store connection.old)) }
{
    let Some(generation) = generation_of(alloc, connection.schema())? else {
        return Ok(None);
    };
    if !connection.is_autocommit() {
        return Err(Error::SqliteFailure(ErrorCode::TransactionState));
    }
    let mut transaction = connection.transaction();
    let Some(count) = rewrite_from(alloc, &mut transaction, generation)? else {
        return Ok(None);
    };
    transaction.commit()?;
    Ok(Some(count))
}

/// Why a connection was not migrated whose tables stand for no Office as those of version 1, nor in the former order.
fn refusal_of<S: Alter>(connection: &mut Connection<S>) -> OpenFault
    ensures stays { HasCleanDisk (state S.Store connection.new)
        → Stays (state S.Store connection.old) (state S.Store connection.new) }
    ensures survives { Survives (state S.Store connection.old)
        (state S.Store connection.new) (λ _. ⊥) }
    ensures says { HasCleanDisk (state S.Store connection.new)
        → IsTrue (state S.Store connection.new).is_open
        → FaultSays 1 (state S.Store connection.new).now result }
{
    match tells_other(connection, 1) {
        Ok(true) => OpenFault::OtherVersion,
        Ok(false) => OpenFault::NoStore,
        Err(error) => open_fault_of(error),
    }
}

/// The tables of a connection that was opened again.
fn migrate_again<S: Alter>(
    alloc: Global,
    mut connection: Connection<S>,
) -> Result<(Tables<S>, u64), (OpenFault, Unopened<S>)>
    ensures stands { IsReopened (state S.Store connection)
        → IfOk result (λ t. HasCleanDisk (state S.Store t.0.connection)
        → HasCleanDisk (state S.Store connection)
        × StandsMigrated (state S.Store connection).now.trees (state S.Store t.0.connection) t.1) }
    ensures counted { IfOk result (λ t. t.0.failures ≡ 0) }
    ensures refused { IfErr result (λ e. IsRefused e.0 → IsConnectionAnd e.1 (λ c.
        HasCleanDisk (state S.Store c) → StandsForNoneBefore (state S.Store c))) }
    ensures other { IfErr result (λ e. IsRefused e.0
        → IsConnectionAnd e.1 (λ c. HasCleanDisk (state S.Store c)
        → IsTrue (state S.Store c).is_open → FaultSays 1 (state S.Store c).now e.0)) }
    ensures kept { IsReopened (state S.Store connection)
        → IfErr result (λ e. IfConnection e.1
        (λ c. HasCleanDisk (state S.Store c) → HasCleanDisk (state S.Store connection)
        × IsUnmigrated (state S.Store connection).now.trees (state S.Store c))) }
    ensures connected { IfErr result (λ e. IfStore e.1 (λ _. ⊥)) }
{
    match migrate_tables(alloc, &mut connection) {
        Ok(Some(count)) => Ok((Tables::over(connection), count as u64)),
        Ok(None) => {
            let fault = refusal_of(&mut connection);
            Err((fault, Unopened::Connection(connection)))
        }
        Err(error) => Err((open_fault_of(error), Unopened::Connection(connection))),
    }
}

/// Makes the tables of a store of version 1, or of one of version 2 in the former order, those of a store, in one
/// transaction, as its last commit left them, and opens them; tells how many entries they have. Each entry of version 1
/// that has `x-read-texts`, which was `read`, has `x-read-names` then; nothing else changes: the epoch and all change
/// numbers stay, so tokens stay good. `reach` and the indexes are made, behind all other tables, whatever table `reach`
/// and whichever of these indexes there were. Every row is read and tested, as `open` does.
///
/// # Errors
///
/// `OtherVersion` where the tables stand for no Office as those of version 1 nor in the former order, and `meta` has one
/// row, with another version than 1; `NoStore` where they stand for none else. `Memory` is want of memory, `Store` any
/// other failure of the store. The connection comes back, and shows what was committed; a stop leaves that, or what is
/// migrated. Where the store could not be opened again, it comes back itself: a stop leaves what was committed, if the
/// connection was open.
pub fn migrate<S: Alter + Drop>(
    alloc: Global,
    connection: Connection<S>,
) -> Result<(Tables<S>, u64), (OpenFault, Unopened<S>)>
    ensures stands { IfOk result (λ t. HasCleanDisk (state S.Store t.0.connection)
        → StandsMigrated (state S.Store connection).committed.trees
        (state S.Store t.0.connection) t.1) }
    ensures counted { IfOk result (λ t. t.0.failures ≡ 0) }
    ensures refused { IfErr result (λ e. IsRefused e.0 → IsConnectionAnd e.1 (λ c.
        HasCleanDisk (state S.Store c) → StandsForNoneBefore (state S.Store c))) }
    ensures other { IfErr result (λ e. IsRefused e.0
        → IsConnectionAnd e.1 (λ c. HasCleanDisk (state S.Store c)
        → IsTrue (state S.Store c).is_open → FaultSays 1 (state S.Store c).now e.0)) }
    ensures kept { IfErr result (λ e. IfConnection e.1 (λ c. HasCleanDisk (state S.Store c)
        → IsUnmigrated (state S.Store connection).committed.trees (state S.Store c))) }
    ensures unharmed { IfErr result (λ e. IfStore e.1
        (IsUnharmed S.Store (state S.Store connection))) }
{
    match reopen(alloc, connection) {
        Ok(opened) => migrate_again(alloc, opened),
        Err((error, store)) => Err((open_fault_of(error), Unopened::Store(store))),
    }
}
