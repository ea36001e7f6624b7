//! A store is made of another one with resources of a backup.

ghost use Rattle.std.specs.Prelude.{◌≡◌, ◌∷◌, ◌++◌, [], List, IfErr, IfOk, Some, map, string_bytes};
ghost use Rattle.std.specs.List.{AllZip};
ghost use Rattle.std.specs.Io.KnownBytes.{Keeps};
ghost use Rattle.sqlite.specs.Held.{state};
ghost use Rattle.book_desk_app.specs.Stores.{IsNotHad};
ghost use Rattle.book_desk_app.specs.Telling.{TellsLine};
ghost use Rattle.book_desk_keeping.specs.Keeping.{DoesOver, LeavesNew};
ghost use Rattle.book_desk_keeping.specs.Restoring.{EndsRestore, IsOfRestore, IsRestoredFrom, IsToldOf, Restores, RestoresOver, restore_fault};
ghost use Rattle.book_dumps_loading.specs.Loading.{Rests};
ghost use Rattle.book_dumps_restoring.specs.Restoring.{restored};
ghost use Rattle.book_office_values.specs.Paths.{SpellsPath};
ghost use Rattle.book_tables.specs.declared.tables.Tables.{Tables};

use crate::failures::{KeepingFault, load_fault, tell_fault};
use crate::loads::make;
use book_desk_app::{DONE, Failure, Lines, StoreFailure, open_store, tell_line};
use book_dumps_changes::Changed;
use book_dumps_loading::dumped_of;
use book_dumps_reading::Dumped;
use book_dumps_restoring::{RestoreFault, restore};
use book_office::Keeper;
use book_office_values::{Items, Path, PathFault};
use book_tables::Tables;
use book_tables_opening::Found;
use sqlite::{Alter, Connection};
use std::alloc::Global;
use std::io::Write;

/// The fault of a restore as what is told of it.
fn restore_fault(fault: RestoreFault) -> KeepingFault
    ensures told { result ≡ restore_fault fault }
    ensures cause { IsOfRestore result }
{
    match fault {
        RestoreFault::NotFound => KeepingFault::RestoreNotFound,
        RestoreFault::NoParent => KeepingFault::RestoreNoParent,
        RestoreFault::UnknownPrincipal => KeepingFault::RestoreUnknownPrincipal,
        RestoreFault::Full => KeepingFault::RestoreFull,
        RestoreFault::LastNumber => KeepingFault::RestoreLastNumber,
        RestoreFault::Memory => KeepingFault::Store(StoreFailure::Memory),
    }
}

/// What the dump of a keeper tells, whose Office stays.
fn told_of<K: Keeper>(alloc: Global, keeper: &mut K) -> Result<Dumped, KeepingFault>
    ensures rests { Rests (K.standing keeper.old) (K.standing keeper.new) }
    ensures told { IfOk result (IsToldOf (K.standing keeper.old) (K.standing keeper.new)) }
    ensures cause { IfErr result IsOfRestore }
{
    match dumped_of(alloc, keeper) {
        Ok(dumped) => Ok(dumped),
        Err(fault) => Err(load_fault(fault)),
    }
}

/// The path that a text spells. A text that spells none is not found.
fn path_of(alloc: Global, text: &str) -> Result<Path, KeepingFault>
    ensures spelled { IfOk result (λ path. SpellsPath text.now path) }
    ensures cause { IfErr result IsOfRestore }
{
    match Path::parse(alloc, text) {
        Ok(path) => Ok(path),
        Err(PathFault::BadPath) => Err(KeepingFault::RestoreNotFound),
        Err(PathFault::Memory) => Err(KeepingFault::Store(StoreFailure::Memory)),
    }
}

/// Paths and one more.
fn with_path(paths: Items<Path>, path: Path) -> Result<Items<Path>, KeepingFault>
    ensures more { IfOk result (λ after. after ≡ paths ++ path ∷ []) }
    ensures cause { IfErr result IsOfRestore }
{
    let mut after = paths;
    match after.push(path) {
        Ok(()) => Ok(after),
        Err(_) => Err(KeepingFault::Store(StoreFailure::Memory)),
    }
}

/// The paths that texts spell.
fn paths_of(alloc: Global, texts: &[String]) -> Result<Items<Path>, KeepingFault>
    ensures spelled { IfOk result (AllZip SpellsPath (map string_bytes texts.now)) }
    ensures cause { IfErr result IsOfRestore }
{
    let mut paths = Items::new(alloc);
    for text in texts {
        let path = path_of(alloc, text.as_str())?;
        paths = with_path(paths, path)?;
    }
    Ok(paths)
}

/// What is made of a store's dump and what paths name in a backup's.
fn restored_in(
    alloc: Global,
    dumped: Dumped,
    kept: &Dumped,
    texts: &[String],
) -> Result<Changed, KeepingFault>
    ensures made { IfOk result (λ changed. (paths : List Path)
        × AllZip SpellsPath (map string_bytes texts.now) paths
        × (changed ≡ restored dumped kept.now paths)) }
    ensures cause { IfErr result IsOfRestore }
{
    let paths = paths_of(alloc, texts)?;
    match restore(alloc, dumped, kept, paths.as_slice()) {
        Ok(changed) => Ok(changed),
        Err(fault) => Err(restore_fault(fault)),
    }
}

/// What is made of the dump of a keeper and what paths name in that of another. Both Offices stay.
fn restored_of<K: Keeper, L: Keeper>(
    alloc: Global,
    store: &mut K,
    backup: &mut L,
    texts: &[String],
) -> Result<Changed, KeepingFault>
    ensures store { Rests (K.standing store.old) (K.standing store.new) }
    ensures backup { Rests (L.standing backup.old) (L.standing backup.new) }
    ensures made { IfOk result (IsRestoredFrom (K.standing store.old) (K.standing store.new)
        (L.standing backup.old) (L.standing backup.new) (map string_bytes texts.now)) }
    ensures cause { IfErr result IsOfRestore }
{
    let kept = told_of(alloc, backup);
    let dumped = told_of(alloc, store);
    match (dumped, kept) {
        (Ok(dumped), Ok(kept)) => restored_in(alloc, dumped, &kept, texts),
        (Err(fault), _) => Err(fault),
        (Ok(_), Err(fault)) => Err(fault),
    }
}

/// Makes a store of the dump of a keeper and what paths name in that of another, and writes what is told of it.
fn restore_made<K: Keeper, L: Keeper, U: Alter + Drop, W: Write>(
    alloc: Global,
    store: &mut K,
    backup: &mut L,
    texts: &[String],
    fresh: Connection<U>,
    writer: &mut W,
) -> Result<Connection<U>, (KeepingFault, Option<Connection<U>>)>
    ensures store { Rests (K.standing store.old) (K.standing store.new) }
    ensures backup { Rests (L.standing backup.old) (L.standing backup.new) }
    ensures made { IfOk result (λ c. Restores (state U.Store) (K.standing store.old)
        (K.standing store.new) (L.standing backup.old) (L.standing backup.new)
        (map string_bytes texts.now) fresh (W.contents writer.old) (W.contents writer.new)
        (Some c)) }
    ensures left { IfErr result (λ e. LeavesNew (state U.Store) fresh e.0 e.1) }
{
    match restored_of(alloc, store, backup, texts) {
        Ok(changed) => make(alloc, &changed, fresh, writer),
        Err(fault) => Err((fault, Some(fresh))),
    }
}

/// The same, with what failed told on `errors`; it gives the status of the program, and in `made` the new store.
fn restore_told<K: Keeper, L: Keeper, U: Alter + Drop, W: Write, E: Lines>(
    alloc: Global,
    store: &mut K,
    backup: &mut L,
    texts: &[String],
    fresh: Connection<U>,
    made: &mut Option<Connection<U>>,
    writer: &mut W,
    errors: &mut E,
) -> u8
    ensures store { Rests (K.standing store.old) (K.standing store.new) }
    ensures backup { Rests (L.standing backup.old) (L.standing backup.new) }
    ensures ends { EndsRestore (state U.Store) (K.standing store.old) (K.standing store.new)
        (L.standing backup.old) (L.standing backup.new) (map string_bytes texts.now) fresh
        (W.contents writer.old) (W.contents writer.new) (TellsLine (E.is_whole errors.new)
        (E.Write.contents errors.old) (E.Write.contents errors.new)) result made.new }
    ensures silent { result ≡ 0 → Keeps (E.Write.contents errors.old)
        (E.Write.contents errors.new) }
{
    match restore_made(alloc, store, backup, texts, fresh, writer) {
        Ok(connection) => {
            *made = Some(connection);
            DONE
        }
        Err((fault, left)) => {
            *made = left;
            tell_fault(errors, &fault)
        }
    }
}

/// Restores from a backup into what is made of a keeper. The backup is let go.
fn restore_from<K: Keeper, T: Alter + Drop, U: Alter + Drop, W: Write, E: Lines>(
    alloc: Global,
    store: &mut K,
    backup: Found<T>,
    texts: &[String],
    fresh: Connection<U>,
    made: &mut Option<Connection<U>>,
    writer: &mut W,
    errors: &mut E,
) -> u8
    ensures rests { Rests (K.standing store.old) (K.standing store.new) }
    ensures runs { RestoresOver {J = Tables T} (state T.Store) (λ t. t.connection)
        (λ t. t.failures) (TellsLine (E.is_whole errors.new) (E.Write.contents errors.old)
        (E.Write.contents errors.new)) (IsNotHad T.Store) (made.new ≡ Some fresh)
        (λ old new status. EndsRestore (state U.Store) (K.standing store.old)
        (K.standing store.new) old new (map string_bytes texts.now) fresh
        (W.contents writer.old) (W.contents writer.new) (TellsLine (E.is_whole errors.new)
        (E.Write.contents errors.old) (E.Write.contents errors.new)) status made.new)
        backup result }
    ensures silent { result ≡ 0 → Keeps (E.Write.contents errors.old)
        (E.Write.contents errors.new) }
{
    match open_store(alloc, backup) {
        Ok(tables) => {
            let mut tables = tables;
            let status = restore_told(
                alloc,
                store,
                &mut tables,
                texts,
                fresh,
                made,
                writer,
                errors,
            );
            drop(tables.release());
            status
        }
        Err((failure, left)) => {
            drop(left);
            *made = Some(fresh);
            tell_line(errors, &Failure::Store(failure))
        }
    }
}

/// Puts cards and books of a backup into what is made of a store, in the store of a connection without table, index or
/// view, as `restore` does of the dumps; writes a line for each resource that is restored, and gives the status of the
/// program: 0 where the new store is made and its Office is the one whose dump that is; 1 where a path is no card or
/// book of the backup, the book of a card is neither in the store nor restored, a principal has no line in the store,
/// there is no room, the epoch is the last, or the new store has a table, an index or a view; 3 where memory was
/// refused, a store or a write failed, or what was read back is not what was told. A failure is told on `errors`. Both
/// Offices stay. The connection of the store comes back, but where its tables could not be opened; that of the new
/// store stands in `made`, but where it could not be opened again; the backup's is let go. Where a store is not made a
/// part of its rows may be written, so it is made under another name.
pub fn run_restore<S: Alter + Drop, T: Alter + Drop, U: Alter + Drop, W: Write, E: Lines>(
    alloc: Global,
    store: Found<S>,
    backup: Found<T>,
    paths: &[String],
    fresh: Connection<U>,
    made: &mut Option<Connection<U>>,
    writer: &mut W,
    errors: &mut E,
) -> (u8, Option<Connection<S>>)
    ensures runs { DoesOver {K = Tables S} (state S.Store) (λ t. t.connection) (λ t. t.failures)
        (TellsLine (E.is_whole errors.new) (E.Write.contents errors.old)
        (E.Write.contents errors.new)) (IsNotHad S.Store) (made.new ≡ Some fresh)
        (λ from after status. RestoresOver {J = Tables T} (state T.Store) (λ t. t.connection)
        (λ t. t.failures) (TellsLine (E.is_whole errors.new) (E.Write.contents errors.old)
        (E.Write.contents errors.new)) (IsNotHad T.Store) (made.new ≡ Some fresh)
        (λ old new status. EndsRestore (state U.Store) from after old new
        (map string_bytes paths.now) fresh (W.contents writer.old) (W.contents writer.new)
        (TellsLine (E.is_whole errors.new) (E.Write.contents errors.old)
        (E.Write.contents errors.new)) status made.new) backup status) store result.0 result.1 }
    ensures silent { result.0 ≡ 0 → Keeps (E.Write.contents errors.old)
        (E.Write.contents errors.new) }
{
    match open_store(alloc, store) {
        Ok(tables) => {
            let mut tables = tables;
            let status = restore_from(
                alloc,
                &mut tables,
                backup,
                paths,
                fresh,
                made,
                writer,
                errors,
            );
            (status, Some(tables.release()))
        }
        Err((failure, left)) => {
            drop(left);
            drop(backup);
            *made = Some(fresh);
            (tell_line(errors, &Failure::Store(failure)), None)
        }
    }
}
