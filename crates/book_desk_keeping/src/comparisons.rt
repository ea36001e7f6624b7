//! Two stores are compared.

ghost use Rattle.std.specs.Prelude.{◌≡◌, Some};
ghost use Rattle.std.specs.Io.KnownBytes.{Keeps};
ghost use Rattle.sqlite.specs.Held.{state};
ghost use Rattle.book_desk_app.specs.Stores.{IsNotHad};
ghost use Rattle.book_desk_app.specs.Telling.{TellsLine};
ghost use Rattle.book_desk_keeping.specs.Keeping.{ComparesOver, DoesOver, EndsComparison, ReadsBoth};
ghost use Rattle.book_dumps_loading.specs.Loading.{Rests};
ghost use Rattle.book_tables.specs.declared.tables.Tables.{Tables};

use crate::failures::{KeepingFault, tell_fault};
use book_desk_app::{DONE, Failure, Lines, StoreFailure, open_store, tell_line};
use book_dumps::dumps_are_exact;
use book_dumps_loading::{is_dump, office_text};
use book_office::{Keeper, StoreFault};
use book_tables::Tables;
use book_tables_opening::Found;
use sqlite::{Alter, Connection};
use std::alloc::Global;

/// Whether two keepers stand for the same Office. The dump of the first is in memory. Both Offices are as they were.
fn are_same<K: Keeper, L: Keeper>(
    alloc: Global,
    first: &mut K,
    other: &mut L,
) -> Result<bool, StoreFault>
    ensures first { Rests (K.standing first.old) (K.standing first.new) }
    ensures other { Rests (L.standing other.old) (L.standing other.new) }
    ensures told { ReadsBoth (K.standing first.old) (K.standing first.new) (L.standing other.old)
        (L.standing other.new) result }
{
    dumps_are_exact();
    let text = office_text(alloc, first)?;
    is_dump(alloc, other, text.as_slice())
}

/// Compares the Offices of two keepers, and gives the status of the program.
fn compare<K: Keeper, L: Keeper, E: Lines>(
    alloc: Global,
    first: &mut K,
    other: &mut L,
    errors: &mut E,
) -> u8
    ensures first { Rests (K.standing first.old) (K.standing first.new) }
    ensures other { Rests (L.standing other.old) (L.standing other.new) }
    ensures ends { EndsComparison (K.standing first.old) (K.standing first.new)
        (L.standing other.old) (L.standing other.new) (TellsLine (E.is_whole errors.new)
        (E.Write.contents errors.old) (E.Write.contents errors.new)) result }
    ensures silent { result ≡ 0 → Keeps (E.Write.contents errors.old)
        (E.Write.contents errors.new) }
{
    match are_same(alloc, first, other) {
        Ok(true) => DONE,
        Ok(false) => tell_fault(errors, &KeepingFault::BackupDiffers),
        Err(fault) => tell_line(errors, &Failure::Store(StoreFailure::from(fault))),
    }
}

/// Compares a store with the Office of a keeper, and gives the status of the program and the connection.
fn compare_in<K: Keeper, T: Alter + Drop, E: Lines>(
    alloc: Global,
    first: &mut K,
    other: Found<T>,
    errors: &mut E,
) -> (u8, Option<Connection<T>>)
    ensures rests { Rests (K.standing first.old) (K.standing first.new) }
    ensures compares { ComparesOver {K = Tables T} (state T.Store) (λ t. t.connection)
        (λ t. t.failures) (TellsLine (E.is_whole errors.new) (E.Write.contents errors.old)
        (E.Write.contents errors.new)) (IsNotHad T.Store) (K.standing first.old)
        (K.standing first.new) other result.0 result.1 }
    ensures silent { result.0 ≡ 0 → Keeps (E.Write.contents errors.old)
        (E.Write.contents errors.new) }
{
    match open_store(alloc, other) {
        Ok(tables) => {
            let mut tables = tables;
            let status = compare(alloc, first, &mut tables, errors);
            (status, Some(tables.release()))
        }
        Err((failure, left)) => {
            drop(left);
            (tell_line(errors, &Failure::Store(failure)), None)
        }
    }
}

/// Compares two stores, and gives the status of the program: 0 where they stand for the same Office, 1 where they do
/// not, 3 where memory was refused, or a store failed. That they differ, and a failure, is told on `errors`. Both
/// Offices stay. The connections come back, but where tables could not be opened. The dump of the first is in memory.
pub fn run_compare<S: Alter + Drop, T: Alter + Drop, E: Lines>(
    alloc: Global,
    store: Found<S>,
    other: Found<T>,
    errors: &mut E,
) -> (u8, Option<Connection<S>>, Option<Connection<T>>)
    ensures runs { DoesOver {K = Tables S} (state S.Store) (λ t. t.connection) (λ t. t.failures)
        (TellsLine (E.is_whole errors.new) (E.Write.contents errors.old)
        (E.Write.contents errors.new)) (IsNotHad S.Store) (result.2 ≡ Some other)
        (λ old new status. ComparesOver {K = Tables T} (state T.Store) (λ t. t.connection)
        (λ t. t.failures) (TellsLine (E.is_whole errors.new) (E.Write.contents errors.old)
        (E.Write.contents errors.new)) (IsNotHad T.Store) old new other status result.2)
        store result.0 result.1 }
    ensures silent { result.0 ≡ 0 → Keeps (E.Write.contents errors.old)
        (E.Write.contents errors.new) }
{
    match open_store(alloc, store) {
        Ok(tables) => {
            let mut tables = tables;
            let (status, other) = compare_in(alloc, &mut tables, other, errors);
            (status, Some(tables.release()), other)
        }
        Err((failure, left)) => {
            drop(left);
            (
                tell_line(errors, &Failure::Store(failure)),
                None,
                Some(other.into_connection()),
            )
        }
    }
}
