//! What is counted over rows.

ghost use Rattle.std.specs.Prelude.{List, IfOk, IfSome, IfNone};
ghost use Rattle.sqlite.specs.Order.{Row as Shown};
ghost use Rattle.book_tables_opening.specs.Opening.{AreChanges, KeepLimits};
ghost use Rattle.book_tables_findings.specs.Findings.{BreaksLimit};

use crate::findings::Limit;
use book_tables_opening::{
    Directory, are_at_most, are_few_books, are_short_lists, are_small_books, are_small_groups,
    are_within, change_keys,
};
use sqlite::Row;
use std::alloc::{AllocError, Global};

/// The rule that the change numbers of cards and removed names break. An error is want of memory.
fn change_limit(
    alloc: Global,
    directory: &Directory,
    gone: &[Row],
) -> Result<Option<Limit>, AllocError>
    ensures found { IfOk result (λ found. IfSome found (λ limit. (entries members : List Shown)
        → BreaksLimit directory.now entries members gone.now limit)) }
    ensures none { IfOk result (λ found. IfNone found (AreChanges directory.now gone.now)) }
{
    let keys = change_keys(alloc, directory, gone)?;
    if !are_within(directory, &keys) {
        return Ok(Some(Limit::Range));
    }
    if !are_at_most(alloc, 1, &keys)? {
        return Ok(Some(Limit::Twice));
    }
    Ok(None)
}

/// The first limit that rows do not keep. An error is want of memory.
pub(crate) fn broken_limit(
    alloc: Global,
    directory: &Directory,
    entries: &[Row],
    members: &[Row],
    gone: &[Row],
) -> Result<Option<Limit>, AllocError>
    ensures found { IfOk result (λ found. IfSome found
        (BreaksLimit directory.now entries.now members.now gone.now)) }
    ensures none { IfOk result (λ found. IfNone found
        (KeepLimits directory.now entries.now members.now gone.now)) }
{
    if !are_short_lists(alloc, entries)? {
        return Ok(Some(Limit::Entries));
    }
    if !are_small_groups(alloc, directory, members)? {
        return Ok(Some(Limit::Members));
    }
    if let Some(limit) = change_limit(alloc, directory, gone)? {
        return Ok(Some(limit));
    }
    if !are_small_books(alloc, directory)? {
        return Ok(Some(Limit::Cards));
    }
    if !are_few_books(directory) {
        return Ok(Some(Limit::Books));
    }
    Ok(None)
}
