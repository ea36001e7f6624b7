//! A store is copied into another one.

ghost use Rattle.std.specs.Prelude.{◌≡◌, IfErr, IfOk, OnOk, Some, false, true};
ghost use Rattle.std.specs.Io.KnownBytes.{Keeps};
ghost use Rattle.sqlite.specs.Held.{state};
ghost use Rattle.sqlite.specs.State.{HasCleanDisk};
ghost use Rattle.book_desk_app.specs.Stores.{IsNotHad};
ghost use Rattle.book_desk_app.specs.Telling.{TellsLine};
ghost use Rattle.book_desk_keeping.specs.Keeping.{DoesOver, EndsMaking, IsCopyOf, IsForgottenFrom, IsOfSource, LeavesNew, connection_in};
ghost use Rattle.book_dumps_loading.specs.Loading.{Rests, StandsForText};
ghost use Rattle.book_dumps_reading.specs.Dumped.{dumped_text};
ghost use Rattle.book_tables.specs.Keeps.{standing_of};
ghost use Rattle.book_tables.specs.declared.tables.Tables.{Tables};
ghost use Rattle.book_tables_schema.specs.Founding.{no_schema};

use crate::failures::{KeepingFault, copy_fault, tell_fault};
use crate::loads::connection_in;
use book_desk_app::{DONE, Failure, Lines, StoreFailure, open_store, tell_line};
use book_dumps_changes::{ChangeFault, forget_removed};
use book_dumps_loading::{copy, dumped_of, load};
use book_dumps_reading::Dumped;
use book_office::Keeper;
use book_tables::Tables;
use book_tables_opening::Found;
use sqlite::{Alter, Connection};
use std::alloc::Global;

/// The fault of a change of a copy as what is told of it.
fn change_fault(fault: ChangeFault) -> KeepingFault
    ensures { IsOfSource result }
{
    match fault {
        ChangeFault::UnknownPrincipal => KeepingFault::CopyRefused,
        ChangeFault::LastNumber => KeepingFault::CopyLastNumber,
        ChangeFault::Memory => KeepingFault::Store(StoreFailure::Memory),
    }
}

/// What the dump of a keeper tells, without removed names.
fn forgotten_of<K: Keeper>(alloc: Global, keeper: &mut K) -> Result<Dumped, KeepingFault>
    ensures rests { Rests (K.standing keeper.old) (K.standing keeper.new) }
    ensures told { (K.standing keeper.new).honest
        → IfOk result (IsForgottenFrom (K.standing keeper.old)) }
    ensures cause { IfErr result IsOfSource }
{
    match dumped_of(alloc, keeper) {
        Ok(dumped) => match forget_removed(alloc, dumped) {
            Ok(changed) => Ok(changed.dumped),
            Err(fault) => Err(change_fault(fault)),
        },
        Err(fault) => Err(copy_fault(fault)),
    }
}

/// The store that was made of what a dump tells, or why it was not, and what is left of it.
fn copy_from<T: Alter + Drop>(
    alloc: Global,
    dumped: &Dumped,
    fresh: Connection<T>,
) -> Result<Connection<T>, (KeepingFault, Option<Connection<T>>)>
    ensures made { IfOk result (λ c. HasCleanDisk (state T.Store c)
        → StandsForText (state T.Store c) (dumped_text dumped.now)) }
    ensures empty { OnOk result ((state T.Store fresh).now.schema ≡ no_schema) }
    ensures left { IfErr result (λ e. LeavesNew (state T.Store) fresh e.0 e.1) }
{
    match load(alloc, fresh, dumped) {
        Ok(tables) => Ok(tables.release()),
        Err((fault, left)) => Err((copy_fault(fault), connection_in(left))),
    }
}

/// The copy of the Office of a keeper without its removed names.
fn copy_forgetting<K: Keeper, T: Alter + Drop>(
    alloc: Global,
    keeper: &mut K,
    fresh: Connection<T>,
) -> Result<Connection<T>, (KeepingFault, Option<Connection<T>>)>
    ensures rests { Rests (K.standing keeper.old) (K.standing keeper.new) }
    ensures made { IfOk result (IsCopyOf (state T.Store) true (K.standing keeper.old)
        (K.standing keeper.new)) }
    ensures empty { OnOk result ((state T.Store fresh).now.schema ≡ no_schema) }
    ensures left { IfErr result (λ e. LeavesNew (state T.Store) fresh e.0 e.1) }
{
    match forgotten_of(alloc, keeper) {
        Ok(dumped) => copy_from(alloc, &dumped, fresh),
        Err(fault) => Err((fault, Some(fresh))),
    }
}

/// The copy of the Office of a keeper, whole.
fn copy_whole<K: Keeper, T: Alter + Drop>(
    alloc: Global,
    keeper: &mut K,
    fresh: Connection<T>,
) -> Result<Connection<T>, (KeepingFault, Option<Connection<T>>)>
    ensures rests { Rests (K.standing keeper.old) (K.standing keeper.new) }
    ensures made { IfOk result (IsCopyOf (state T.Store) false (K.standing keeper.old)
        (K.standing keeper.new)) }
    ensures empty { OnOk result ((state T.Store fresh).now.schema ≡ no_schema) }
    ensures left { IfErr result (λ e. LeavesNew (state T.Store) fresh e.0 e.1) }
{
    match copy(alloc, keeper, fresh) {
        Ok(tables) => Ok(tables.release()),
        Err((fault, left)) => Err((copy_fault(fault), connection_in(left))),
    }
}

/// The copy of the Office of a keeper, or why there is none, and what is left of its store.
fn copy_of<K: Keeper, T: Alter + Drop>(
    alloc: Global,
    keeper: &mut K,
    fresh: Connection<T>,
    forget: bool,
) -> Result<Connection<T>, (KeepingFault, Option<Connection<T>>)>
    ensures rests { Rests (K.standing keeper.old) (K.standing keeper.new) }
    ensures made { IfOk result (IsCopyOf (state T.Store) forget (K.standing keeper.old)
        (K.standing keeper.new)) }
    ensures empty { OnOk result ((state T.Store fresh).now.schema ≡ no_schema) }
    ensures left { IfErr result (λ e. LeavesNew (state T.Store) fresh e.0 e.1) }
{
    if forget {
        copy_forgetting(alloc, keeper, fresh)
    } else {
        copy_whole(alloc, keeper, fresh)
    }
}

/// Makes a copy of the Office of a keeper in the store of a connection without table, index or view, and gives the status of
/// the program: 0 where it is made, and stands for the same Office, or with `forget` for that Office without its removed
/// names, with the epoch above where it had some; 1 where its store has a table, an index or a view, or the epoch is the
/// last; 3 where memory was refused, a store failed, or what was read back is another Office. A failure is told on `errors`.
/// The Office of the keeper stays. The connection comes back, but where its store could not be opened again; it is as it was
/// at status 1. Where no copy is made a part of its rows may be written, so it is made under another name.
pub fn copy_keeper<K: Keeper, T: Alter + Drop, E: Lines>(
    alloc: Global,
    keeper: &mut K,
    fresh: Connection<T>,
    forget: bool,
    errors: &mut E,
) -> (u8, Option<Connection<T>>)
    ensures rests { Rests (K.standing keeper.old) (K.standing keeper.new) }
    ensures makes { EndsMaking (state T.Store) (TellsLine (E.is_whole errors.new)
        (E.Write.contents errors.old) (E.Write.contents errors.new)) fresh
        (IsCopyOf (state T.Store) forget (K.standing keeper.old) (K.standing keeper.new))
        result.0 result.1 }
    ensures silent { result.0 ≡ 0 → Keeps (E.Write.contents errors.old)
        (E.Write.contents errors.new) }
{
    match copy_of(alloc, keeper, fresh, forget) {
        Ok(made) => (DONE, Some(made)),
        Err((fault, left)) => (tell_fault(errors, &fault), left),
    }
}

/// Copies the tables of a store, and gives them back.
fn copy_over<S: Alter + Drop, T: Alter + Drop, E: Lines>(
    alloc: Global,
    tables: Tables<S>,
    fresh: Connection<T>,
    forget: bool,
    errors: &mut E,
) -> (u8, Tables<S>, Option<Connection<T>>)
    ensures rests { Rests (standing_of (state S.Store tables.connection) tables.failures)
        (standing_of (state S.Store result.1.connection) result.1.failures) }
    ensures makes { EndsMaking (state T.Store) (TellsLine (E.is_whole errors.new)
        (E.Write.contents errors.old) (E.Write.contents errors.new)) fresh
        (IsCopyOf (state T.Store) forget (standing_of (state S.Store tables.connection)
        tables.failures) (standing_of (state S.Store result.1.connection) result.1.failures))
        result.0 result.2 }
    ensures silent { result.0 ≡ 0 → Keeps (E.Write.contents errors.old)
        (E.Write.contents errors.new) }
{
    let mut tables = tables;
    let (status, made) = copy_keeper(alloc, &mut tables, fresh, forget, errors);
    (status, tables, made)
}

/// Copies a store into that of a connection without table, index or view, and gives the status of the program: 0 where
/// the copy is made, and stands for the same Office, or with `forget` for that Office without its removed names, with
/// the epoch above where it had some; 1 where its store has a table, an index or a view, or the epoch is the last; 3
/// where memory was refused, a store failed, or what was read back is another Office. A failure is told on `errors`.
/// The Office of the source stays. The connections come back, but where the tables of the source could not be opened,
/// or the copy's store could not be opened again. Where a copy is not made a part of its rows may be written, so it is
/// made under another name.
pub fn run_copy<S: Alter + Drop, T: Alter + Drop, E: Lines>(
    alloc: Global,
    source: Found<S>,
    fresh: Connection<T>,
    forget: bool,
    errors: &mut E,
) -> (u8, Option<Connection<S>>, Option<Connection<T>>)
    ensures runs { DoesOver {K = Tables S} (state S.Store) (λ t. t.connection) (λ t. t.failures)
        (TellsLine (E.is_whole errors.new) (E.Write.contents errors.old)
        (E.Write.contents errors.new)) (IsNotHad S.Store) (result.2 ≡ Some fresh)
        (λ old new status. EndsMaking (state T.Store) (TellsLine (E.is_whole errors.new)
        (E.Write.contents errors.old) (E.Write.contents errors.new)) fresh
        (IsCopyOf (state T.Store) forget old new) status result.2) source result.0 result.1 }
    ensures silent { result.0 ≡ 0 → Keeps (E.Write.contents errors.old)
        (E.Write.contents errors.new) }
{
    match open_store(alloc, source) {
        Ok(tables) => {
            let (status, tables, made) = copy_over(alloc, tables, fresh, forget, errors);
            (status, Some(tables.release()), made)
        }
        Err((failure, left)) => {
            drop(left);
            (
                tell_line(errors, &Failure::Store(failure)),
                None,
                Some(fresh),
            )
        }
    }
}
