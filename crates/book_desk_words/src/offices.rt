//! The Office of which a command asks: that of a store's file, or that of the server whose control is at a path.

ghost use Rattle.std.specs.Prelude.{◌≡◌, IfNone, IfOk, IfSome, false, true};
ghost use Rattle.clap.specs.Words.{found_of, rows_of};
ghost use Rattle.book_desk_words.specs.CommandLine.{MayNameOffice, NamesOffice, names_one, names_two};

use crate::commands::file_in;
use clap::ArgMatches;
use std::alloc::{AllocError, Global};

/// The Office of which a command asks.
#[derive(Debug, Drop)]
pub enum Office {
    /// That of the store in this file.
    Store(String),
    /// That of the server whose control is at this path.
    Control(String),
}

/// The Office that the words name, if they name one; none where they name two.
pub(crate) fn office_if(
    alloc: Global,
    found: &ArgMatches<'_>,
) -> Result<Option<Option<Office>>, AllocError>
    ensures read { IfOk result (λ office. IfSome office
        (MayNameOffice (rows_of (found_of found.now)))) }
    ensures none { IfOk result (λ office. IfNone office
        (names_two (rows_of (found_of found.now)) ≡ true)) }
{
    let store = file_in(alloc, found, "store")?;
    let control = file_in(alloc, found, "control")?;
    match (store, control) {
        (Some(_), Some(_)) => Ok(None),
        (Some(file), None) => Ok(Some(Some(Office::Store(file)))),
        (None, Some(path)) => Ok(Some(Some(Office::Control(path)))),
        (None, None) => Ok(Some(None)),
    }
}

/// The Office that the words name; none where they name none, or two.
pub(crate) fn office_in(alloc: Global, found: &ArgMatches<'_>) -> Result<Option<Office>, AllocError>
    ensures read { IfOk result (λ office. IfSome office
        (NamesOffice (rows_of (found_of found.now)))) }
    ensures none { IfOk result (λ office. IfNone office
        (names_one (rows_of (found_of found.now)) ≡ false)) }
{
    let store = file_in(alloc, found, "store")?;
    let control = file_in(alloc, found, "control")?;
    match (store, control) {
        (Some(file), None) => Ok(Some(Office::Store(file))),
        (None, Some(path)) => Ok(Some(Office::Control(path))),
        _ => Ok(None),
    }
}
