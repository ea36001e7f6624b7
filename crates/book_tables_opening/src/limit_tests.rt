//! Whether rows keep the limits, and numbers are those of changes.

ghost use Rattle.std.specs.Prelude.{◌↔◌, IsTrue, IfOk};
ghost use Rattle.book_limits.specs.declared.TheConstants.{MAX_ENTRIES, MAX_MEMBERS, MAX_CARDS};
ghost use Rattle.book_tables_opening.specs.Opening as keys;
ghost use Rattle.book_tables_opening.specs.Opening.{AreAtMost, AreChangeKeys, AreChanges, KeepLimits};

use crate::counting::are_at_most;
use crate::directories::Directory;
use crate::keys::{are_few_books, are_within, card_keys, change_keys, group_keys, list_keys};
use book_limits::{MAX_CARDS, MAX_ENTRIES, MAX_MEMBERS};
use sqlite::Row;
use std::alloc::{AllocError, Global};

/// Whether no list has more entries than may be. An error is want of memory.
pub fn are_short_lists(alloc: Global, entries: &[Row]) -> Result<bool, AllocError>
    ensures { IfOk result (λ are. IsTrue are ↔ AreAtMost MAX_ENTRIES (keys.list_keys entries.now)) }
{
    let found = list_keys(alloc, entries)?;
    are_at_most(alloc, MAX_ENTRIES, &found)
}

/// Whether no group has more direct members than may be. An error is want of memory.
pub fn are_small_groups(
    alloc: Global,
    directory: &Directory,
    members: &[Row],
) -> Result<bool, AllocError>
    ensures { IfOk result (λ are. IsTrue are
        ↔ AreAtMost MAX_MEMBERS (keys.group_keys directory.now members.now)) }
{
    let found = group_keys(alloc, directory, members)?;
    are_at_most(alloc, MAX_MEMBERS, &found)
}

/// Whether no book has more cards than may be. An error is want of memory.
pub fn are_small_books(alloc: Global, directory: &Directory) -> Result<bool, AllocError>
    ensures { IfOk result (λ are. IsTrue are ↔ AreAtMost MAX_CARDS (keys.card_keys directory.now)) }
{
    let found = card_keys(alloc, directory)?;
    are_at_most(alloc, MAX_CARDS, &found)
}

/// Whether the numbers of keys are from 1 to those of their books, and all different. An error is want of memory.
fn are_change_keys(
    alloc: Global,
    directory: &Directory,
    found: &[(i64, i64)],
) -> Result<bool, AllocError>
    ensures { IfOk result (λ are. IsTrue are ↔ AreChangeKeys directory.now found.now) }
{
    if !are_within(directory, found) {
        return Ok(false);
    }
    let different = are_at_most(alloc, 1, found)?;
    Ok(different)
}

/// Whether the numbers of a book's cards and removed names are from 1 to the book's, and all different. An error is
/// want of memory.
fn are_changes(alloc: Global, directory: &Directory, gone: &[Row]) -> Result<bool, AllocError>
    ensures { IfOk result (λ are. IsTrue are ↔ AreChanges directory.now gone.now) }
{
    let found = change_keys(alloc, directory, gone)?;
    are_change_keys(alloc, directory, &found)
}

/// Whether rows keep the limits, and numbers are those of changes. An error is want of memory.
pub(crate) fn keep_limits(
    alloc: Global,
    directory: &Directory,
    entries: &[Row],
    members: &[Row],
    gone: &[Row],
) -> Result<bool, AllocError>
    ensures { IfOk result (λ keep. IsTrue keep
        ↔ KeepLimits directory.now entries.now members.now gone.now) }
{
    if !are_short_lists(alloc, entries)? {
        return Ok(false);
    }
    if !are_small_groups(alloc, directory, members)? {
        return Ok(false);
    }
    if !are_changes(alloc, directory, gone)? {
        return Ok(false);
    }
    if !are_small_books(alloc, directory)? {
        return Ok(false);
    }
    Ok(are_few_books(directory))
}
