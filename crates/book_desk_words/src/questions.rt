//! Commands that ask about a store, and the one that asks about a log.

ghost use Rattle.std.specs.Prelude.{◌≡◌, IfNone, IfOk, IfSome, codes};
ghost use Rattle.clap.specs.Words.{found_of, rows_of};
ghost use Rattle.book_desk_words.specs.CommandLine.{ReadsAs, ReadsNone, leads_on};

use crate::commands::{Command, file_in, flag_in, texts_in};
use crate::offices::office_in;
use clap::ArgMatches;
use std::alloc::{AllocError, Global};

/// Whether a method leads to a destination.
fn leads_on(what: &str) -> bool
    ensures { result ≡ leads_on what.now }
{
    what == "COPY" || what == "MOVE"
}

/// The command `why` with what the words give it; none where something is missing, as the destination of a method that
/// leads to one.
pub(crate) fn why_of(alloc: Global, found: &ArgMatches<'_>) -> Result<Option<Command>, AllocError>
    ensures read { IfOk result (λ command. IfSome command
        (ReadsAs (codes "why") (rows_of (found_of found.now)))) }
    ensures none { IfOk result (λ command. IfNone command
        (ReadsNone (codes "why") (rows_of (found_of found.now)))) }
{
    let Some(office) = office_in(alloc, found)? else {
        return Ok(None);
    };
    let Some(caller) = file_in(alloc, found, "caller")? else {
        return Ok(None);
    };
    let Some(what) = file_in(alloc, found, "what")? else {
        return Ok(None);
    };
    let Some(path) = file_in(alloc, found, "path")? else {
        return Ok(None);
    };
    let destination = file_in(alloc, found, "destination")?;
    if leads_on(what.as_str()) && destination.is_none() {
        return Ok(None);
    }
    let json = flag_in(found, "json");
    Ok(Some(Command::Why {
        office,
        caller,
        what,
        path,
        destination,
        json,
    }))
}

/// The command `who` with what the words give it; none where something is missing.
pub(crate) fn who_of(alloc: Global, found: &ArgMatches<'_>) -> Result<Option<Command>, AllocError>
    ensures read { IfOk result (λ command. IfSome command
        (ReadsAs (codes "who") (rows_of (found_of found.now)))) }
    ensures none { IfOk result (λ command. IfNone command
        (ReadsNone (codes "who") (rows_of (found_of found.now)))) }
{
    let Some(office) = office_in(alloc, found)? else {
        return Ok(None);
    };
    let Some(privilege) = file_in(alloc, found, "privilege")? else {
        return Ok(None);
    };
    let Some(path) = file_in(alloc, found, "path")? else {
        return Ok(None);
    };
    let denied = flag_in(found, "denied");
    let json = flag_in(found, "json");
    Ok(Some(Command::Who {
        office,
        privilege,
        path,
        denied,
        json,
    }))
}

/// The command `rights` with what the words give it; none where the Office is missing.
pub(crate) fn rights_of(
    alloc: Global,
    found: &ArgMatches<'_>,
) -> Result<Option<Command>, AllocError>
    ensures read { IfOk result (λ command. IfSome command
        (ReadsAs (codes "rights") (rows_of (found_of found.now)))) }
    ensures none { IfOk result (λ command. IfNone command
        (ReadsNone (codes "rights") (rows_of (found_of found.now)))) }
{
    let Some(office) = office_in(alloc, found)? else {
        return Ok(None);
    };
    let at = file_in(alloc, found, "at")?;
    let caller = file_in(alloc, found, "caller")?;
    let shared = flag_in(found, "shared");
    let json = flag_in(found, "json");
    Ok(Some(Command::Rights {
        office,
        at,
        caller,
        shared,
        json,
    }))
}

/// The command `ask` with what the words give it; none where something is missing.
pub(crate) fn ask_of(alloc: Global, found: &ArgMatches<'_>) -> Result<Option<Command>, AllocError>
    ensures read { IfOk result (λ command. IfSome command
        (ReadsAs (codes "ask") (rows_of (found_of found.now)))) }
    ensures none { IfOk result (λ command. IfNone command
        (ReadsNone (codes "ask") (rows_of (found_of found.now)))) }
{
    let Some(office) = office_in(alloc, found)? else {
        return Ok(None);
    };
    let Some(caller) = file_in(alloc, found, "caller")? else {
        return Ok(None);
    };
    let Some(path) = file_in(alloc, found, "path")? else {
        return Ok(None);
    };
    let Some(privileges) = texts_in(alloc, found, "privilege")? else {
        return Ok(None);
    };
    Ok(Some(Command::Ask {
        office,
        caller,
        path,
        privileges,
    }))
}

/// The command `differs` with what the words give it; none where the policy or the Office is missing.
pub(crate) fn differs_of(
    alloc: Global,
    found: &ArgMatches<'_>,
) -> Result<Option<Command>, AllocError>
    ensures read { IfOk result (λ command. IfSome command
        (ReadsAs (codes "differs") (rows_of (found_of found.now)))) }
    ensures none { IfOk result (λ command. IfNone command
        (ReadsNone (codes "differs") (rows_of (found_of found.now)))) }
{
    let Some(office) = office_in(alloc, found)? else {
        return Ok(None);
    };
    let Some(policy) = file_in(alloc, found, "policy")? else {
        return Ok(None);
    };
    let strict = flag_in(found, "strict");
    Ok(Some(Command::Differs {
        office,
        policy,
        strict,
    }))
}

/// The command `dump` with what the words give it; none where the Office is missing.
pub(crate) fn dump_of(alloc: Global, found: &ArgMatches<'_>) -> Result<Option<Command>, AllocError>
    ensures read { IfOk result (λ command. IfSome command
        (ReadsAs (codes "dump") (rows_of (found_of found.now)))) }
    ensures none { IfOk result (λ command. IfNone command
        (ReadsNone (codes "dump") (rows_of (found_of found.now)))) }
{
    let Some(office) = office_in(alloc, found)? else {
        return Ok(None);
    };
    Ok(Some(Command::Dump { office }))
}

/// The command `show` with what the words give it; none where something is missing.
pub(crate) fn show_of(alloc: Global, found: &ArgMatches<'_>) -> Result<Option<Command>, AllocError>
    ensures read { IfOk result (λ command. IfSome command
        (ReadsAs (codes "show") (rows_of (found_of found.now)))) }
    ensures none { IfOk result (λ command. IfNone command
        (ReadsNone (codes "show") (rows_of (found_of found.now)))) }
{
    let Some(office) = office_in(alloc, found)? else {
        return Ok(None);
    };
    let Some(path) = file_in(alloc, found, "path")? else {
        return Ok(None);
    };
    Ok(Some(Command::Show { office, path }))
}

/// The command `denials` with what the words give it; none where the file is missing.
pub(crate) fn denials_of(
    alloc: Global,
    found: &ArgMatches<'_>,
) -> Result<Option<Command>, AllocError>
    ensures read { IfOk result (λ command. IfSome command
        (ReadsAs (codes "denials") (rows_of (found_of found.now)))) }
    ensures none { IfOk result (λ command. IfNone command
        (ReadsNone (codes "denials") (rows_of (found_of found.now)))) }
{
    let Some(log) = file_in(alloc, found, "log")? else {
        return Ok(None);
    };
    let since = file_in(alloc, found, "since")?;
    let json = flag_in(found, "json");
    Ok(Some(Command::Denials { log, since, json }))
}
