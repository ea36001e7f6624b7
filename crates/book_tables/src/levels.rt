//! The lists of a resource and of each of its ancestors.

ghost use Rattle.std.specs.Prelude.{◌≡◌, ◌++◌, [], ◌∷◌, IfOk, OnOk};
ghost use Rattle.sqlite.specs.Held.{state};
ghost use Rattle.sqlite.specs.State.{HasCleanDisk, Survives};
ghost use Rattle.book_office.specs.Levels.{level_at, lists_at};
ghost use Rattle.book_office.specs.declared.nodes.Level.{Level as LevelTold};
ghost use Rattle.book_tables_rows.specs.Steps.{Keeps, Spares};
ghost use Rattle.book_tables.specs.Inside.{ReadsInside, inside_of};
ghost use Rattle.book_tables.specs.Levels.{ShowsLevel, ShowsLists};

use crate::faults::fault_of;
use crate::shares::list_told;
use book_lists::Entry;
use book_office::{Level, Lists, StoreFault};
use book_office_values::{Items, Path};
use book_tables_rows::entry_rows_at;
use sqlite::{Alter, Error, Transaction};
use std::alloc::{AllocError, Global};

/// The protected and the own list at a path, empty where no row has it.
fn both_lists<S: Alter>(
    alloc: Global,
    transaction: &mut Transaction<'_, S>,
    path: &Path,
) -> Result<(Items<Entry>, Items<Entry>), Error>
    ensures same_reference { transaction.new.conn.ghost_name ≡ transaction.old.conn.ghost_name }
    ensures survives { Survives (state S.Store transaction.old.conn.now)
        (state S.Store transaction.new.conn.now) (λ _. ⊥) }
    ensures kept { Keeps (state S.Store transaction.old.conn.now)
        (state S.Store transaction.new.conn.now) }
    ensures stays { Spares (state S.Store transaction.old.conn.now)
        (state S.Store transaction.new.conn.now) result }
    ensures shown { HasCleanDisk (state S.Store transaction.new.conn.now)
        → IfOk result (λ both. ShowsLevel (state S.Store transaction.old.conn.now) path.now
        (record { path = path.now; protected = both.0; own = both.1 })) }
{
    let text = path.text(alloc)?;
    let rows = entry_rows_at(transaction, text.as_str())?;
    drop(text);
    let protected = list_told(alloc, &rows, true)?;
    let own = list_told(alloc, &rows, false)?;
    Ok((protected, own))
}

/// Both lists at a path, empty where no row has it.
fn level_of<S: Alter>(
    alloc: Global,
    transaction: &mut Transaction<'_, S>,
    path: Path,
) -> Result<Level, Error>
    ensures same_reference { transaction.new.conn.ghost_name ≡ transaction.old.conn.ghost_name }
    ensures survives { Survives (state S.Store transaction.old.conn.now)
        (state S.Store transaction.new.conn.now) (λ _. ⊥) }
    ensures kept { Keeps (state S.Store transaction.old.conn.now)
        (state S.Store transaction.new.conn.now) }
    ensures stays { Spares (state S.Store transaction.old.conn.now)
        (state S.Store transaction.new.conn.now) result }
    ensures shown { HasCleanDisk (state S.Store transaction.new.conn.now)
        → IfOk result (λ level. ShowsLevel (state S.Store transaction.old.conn.now) path level) }
{
    let (protected, own) = both_lists(alloc, transaction, &path)?;
    Ok(Level {
        path,
        protected,
        own,
    })
}

/// Adds both lists at a path, empty where no row has it.
fn push_level<S: Alter>(
    alloc: Global,
    transaction: &mut Transaction<'_, S>,
    levels: &mut Vec<Level>,
    path: Path,
) -> Result<(), Error>
    ensures same_reference { transaction.new.conn.ghost_name ≡ transaction.old.conn.ghost_name }
    ensures survives { Survives (state S.Store transaction.old.conn.now)
        (state S.Store transaction.new.conn.now) (λ _. ⊥) }
    ensures kept { Keeps (state S.Store transaction.old.conn.now)
        (state S.Store transaction.new.conn.now) }
    ensures stays { Spares (state S.Store transaction.old.conn.now)
        (state S.Store transaction.new.conn.now) result }
    ensures shown { HasCleanDisk (state S.Store transaction.new.conn.now)
        → OnOk result ((level : LevelTold)
        × (levels.new.items ≡ levels.old.items ++ level ∷ [])
        × ShowsLevel (state S.Store transaction.old.conn.now) path level) }
{
    let level = level_of(alloc, transaction, path)?;
    levels.push(level)?;
    Ok(())
}

/// The lists at a path and at each path above it.
fn levels_of<S: Alter>(
    alloc: Global,
    transaction: &mut Transaction<'_, S>,
    path: &Path,
) -> Result<Lists, Error>
    ensures same_reference { transaction.new.conn.ghost_name ≡ transaction.old.conn.ghost_name }
    ensures survives { Survives (state S.Store transaction.old.conn.now)
        (state S.Store transaction.new.conn.now) (λ _. ⊥) }
    ensures kept { Keeps (state S.Store transaction.old.conn.now)
        (state S.Store transaction.new.conn.now) }
    ensures stays { Spares (state S.Store transaction.old.conn.now)
        (state S.Store transaction.new.conn.now) result }
    ensures shown { HasCleanDisk (state S.Store transaction.new.conn.now)
        → IfOk result (λ lists. ShowsLists
        (state S.Store transaction.old.conn.now) path.now lists) }
{
    let paths = path.levels(alloc)?.into_vec();
    let mut levels = Vec::with_capacity(alloc, paths.len())?;
    for path in paths {
        push_level(alloc, transaction, &mut levels, path)?;
    }
    Ok(Lists {
        levels: Items::from_vec(levels),
    })
}

/// A copy of a path.
fn copy_of(path: &Path) -> Result<Path, AllocError>
    ensures { IfOk result (λ copy. copy ≡ path.now) }
{
    path.clone()
}

/// The lists that stand at a path itself; those of a path that is not mapped are empty. One statement. `Memory` is want
/// of memory, `Store` any other failure of the store.
pub(crate) fn level<S: Alter>(
    alloc: Global,
    transaction: &mut Transaction<'_, S>,
    failures: &mut u64,
    path: &Path,
) -> Result<Level, StoreFault>
    ensures same_reference { transaction.new.conn.ghost_name ≡ transaction.old.conn.ghost_name }
    ensures reads { ReadsInside (inside_of (state S.Store transaction.old.conn.now) failures.old)
        (inside_of (state S.Store transaction.new.conn.now) failures.new) result
        (λ o level. level ≡ level_at o path.now) }
{
    path.known();
    let copy = copy_of(path)?;
    match level_of(alloc, transaction, copy) {
        Ok(level) => Ok(level),
        Err(error) => Err(fault_of(error, failures)),
    }
}

/// The lists of the resource at a path and of each ancestor; the lists of a path that is not mapped are empty. One
/// statement for each. `Memory` is want of memory, `Store` any other failure of the store.
pub(crate) fn lists<S: Alter>(
    alloc: Global,
    transaction: &mut Transaction<'_, S>,
    failures: &mut u64,
    path: &Path,
) -> Result<Lists, StoreFault>
    ensures same_reference { transaction.new.conn.ghost_name ≡ transaction.old.conn.ghost_name }
    ensures reads { ReadsInside (inside_of (state S.Store transaction.old.conn.now) failures.old)
        (inside_of (state S.Store transaction.new.conn.now) failures.new) result
        (λ o lists. lists ≡ lists_at o path.now) }
{
    path.known();
    match levels_of(alloc, transaction, path) {
        Ok(lists) => Ok(lists),
        Err(error) => Err(fault_of(error, failures)),
    }
}
