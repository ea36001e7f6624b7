//! Commands that make stores of texts and of stores, and the one that tells how a store is.

ghost use Rattle.std.specs.Prelude.{◌≡◌, ◌↔◌, IfNone, IfOk, IfSome, codes, true};
ghost use Rattle.clap.specs.Words.{found_of, rows_of};
ghost use Rattle.book_desk_words.specs.CommandLine.{ReadsAs, ReadsNone};

use crate::commands::{Command, file_in, flag_in, texts_in};
use clap::ArgMatches;
use std::alloc::{AllocError, Global};

/// Whether an option that says more of another one comes with that one, where it is given.
fn comes_with(is_given: bool, has_other: bool) -> bool
    ensures { result ≡ true ↔ (is_given ≡ true → has_other ≡ true) }
{
    !is_given || has_other
}

/// The command `load` with what the words give it; none where the file is missing, or where the words have `--at` without
/// `--owner`, `--heir` without `--without`, or `--above` without `--new-epoch`.
pub(crate) fn load_of(alloc: Global, found: &ArgMatches<'_>) -> Result<Option<Command>, AllocError>
    ensures read { IfOk result (λ command. IfSome command
        (ReadsAs (codes "load") (rows_of (found_of found.now)))) }
    ensures none { IfOk result (λ command. IfNone command
        (ReadsNone (codes "load") (rows_of (found_of found.now)))) }
{
    let Some(store) = file_in(alloc, found, "store")? else {
        return Ok(None);
    };
    let dump = file_in(alloc, found, "dump")?;
    let owners = texts_in(alloc, found, "owner")?;
    let at = file_in(alloc, found, "at")?;
    let without = texts_in(alloc, found, "without")?;
    let heir = file_in(alloc, found, "heir")?;
    let forget_removed = flag_in(found, "forget-removed");
    let new_epoch = flag_in(found, "new-epoch");
    let above = file_in(alloc, found, "above")?;
    let fits = comes_with(at.is_some(), owners.is_some())
        && comes_with(heir.is_some(), without.is_some())
        && comes_with(above.is_some(), new_epoch);
    let command = Command::Load {
        store,
        dump,
        owners,
        at,
        without,
        heir,
        forget_removed,
        new_epoch,
        above,
    };
    if !fits {
        drop(command);
        return Ok(None);
    }
    Ok(Some(command))
}

/// The command `compact` with what the words give it; none where the file is missing.
pub(crate) fn compact_of(
    alloc: Global,
    found: &ArgMatches<'_>,
) -> Result<Option<Command>, AllocError>
    ensures read { IfOk result (λ command. IfSome command
        (ReadsAs (codes "compact") (rows_of (found_of found.now)))) }
    ensures none { IfOk result (λ command. IfNone command
        (ReadsNone (codes "compact") (rows_of (found_of found.now)))) }
{
    let Some(store) = file_in(alloc, found, "store")? else {
        return Ok(None);
    };
    let forget_removed = flag_in(found, "forget-removed");
    Ok(Some(Command::Compact {
        store,
        forget_removed,
    }))
}

/// The command `backup` with what the words give it; none where a file is missing, or where the words have not one of
/// `--to` and `--check`.
pub(crate) fn backup_of(
    alloc: Global,
    found: &ArgMatches<'_>,
) -> Result<Option<Command>, AllocError>
    ensures read { IfOk result (λ command. IfSome command
        (ReadsAs (codes "backup") (rows_of (found_of found.now)))) }
    ensures none { IfOk result (λ command. IfNone command
        (ReadsNone (codes "backup") (rows_of (found_of found.now)))) }
{
    let Some(store) = file_in(alloc, found, "store")? else {
        return Ok(None);
    };
    let to = file_in(alloc, found, "to")?;
    let check = file_in(alloc, found, "check")?;
    match (to, check) {
        (Some(to), None) => Ok(Some(Command::Backup { store, to })),
        (None, Some(copy)) => Ok(Some(Command::CheckBackup { store, copy })),
        _ => Ok(None),
    }
}

/// The command `restore` with what the words give it; none where something is missing.
pub(crate) fn restore_of(
    alloc: Global,
    found: &ArgMatches<'_>,
) -> Result<Option<Command>, AllocError>
    ensures read { IfOk result (λ command. IfSome command
        (ReadsAs (codes "restore") (rows_of (found_of found.now)))) }
    ensures none { IfOk result (λ command. IfNone command
        (ReadsNone (codes "restore") (rows_of (found_of found.now)))) }
{
    let Some(store) = file_in(alloc, found, "store")? else {
        return Ok(None);
    };
    let Some(from) = file_in(alloc, found, "from")? else {
        return Ok(None);
    };
    let Some(paths) = texts_in(alloc, found, "path")? else {
        return Ok(None);
    };
    Ok(Some(Command::Restore { store, from, paths }))
}

/// The command `doctor` with what the words give it; none where the file is missing.
pub(crate) fn doctor_of(
    alloc: Global,
    found: &ArgMatches<'_>,
) -> Result<Option<Command>, AllocError>
    ensures read { IfOk result (λ command. IfSome command
        (ReadsAs (codes "doctor") (rows_of (found_of found.now)))) }
    ensures none { IfOk result (λ command. IfNone command
        (ReadsNone (codes "doctor") (rows_of (found_of found.now)))) }
{
    let Some(store) = file_in(alloc, found, "store")? else {
        return Ok(None);
    };
    Ok(Some(Command::Doctor { store }))
}
