//! Where `serve` listens, as the words say it.

ghost use Rattle.std.specs.Prelude.{◌≡◌, ℕ, IfNone, IfOk, IfSome, Option};
ghost use Rattle.clap.specs.Words.{found_of, rows_of};
ghost use Rattle.book_desk_words.specs.CommandLine.{HasMode, ListensAt, ListensNowhere, MayHavePort, WritesMode, has_places};

use crate::commands::{file_in, is_given, number_in};
use clap::ArgMatches;
use std::alloc::{AllocError, Global};

/// The permissions of a socket where none are given: its owner alone may connect.
const OWN_MODE: u16 = 0o600;

/// The port that the words give, or that they have none; none where what they give is no such number.
fn port_in(found: &ArgMatches<'_>) -> Option<Option<u16>>
    ensures read { IfSome result (MayHavePort (rows_of (found_of found.now))) }
    ensures none { IfNone result ((port : Option ℕ)
        → MayHavePort (rows_of (found_of found.now)) port → ⊥) }
{
    if !is_given(found, "port") {
        return Some(None);
    }
    let port = number_in(found, "port")?;
    Some(Some(port))
}

/// The permissions that a text of three or four octal digits writes.
fn mode_of(text: &str) -> Option<u16>
    ensures read { IfSome result (WritesMode text.now) }
    ensures none { IfNone result ((mode : ℕ) → WritesMode text.now mode → ⊥) }
{
    let bytes = text.as_bytes();
    if bytes.len() < 3 || bytes.len() > 4 {
        return None;
    }
    if bytes[0] == b'+' {
        return None;
    }
    match u16::from_str_radix(text, 8) {
        Ok(mode) => Some(mode),
        Err(_) => None,
    }
}

/// The permissions that the words give, 0600 where they give none; none where what they give are none.
fn mode_in(found: &ArgMatches<'_>) -> Option<u16>
    ensures read { IfSome result (HasMode (rows_of (found_of found.now))) }
    ensures none { IfNone result ((mode : ℕ) → HasMode (rows_of (found_of found.now)) mode → ⊥) }
{
    match found.get_str("mode") {
        Some(text) => mode_of(text),
        None => Some(OWN_MODE),
    }
}

/// Where is listened.
#[derive(Drop)]
pub(crate) struct Places {
    /// The port, if it is given.
    pub(crate) port: Option<u16>,
    /// The path of the socket, if it is given.
    pub(crate) socket: Option<String>,
    /// The permissions of the socket.
    pub(crate) mode: u16,
}

/// Whether the words give a socket, or a port without permissions.
fn has_places(found: &ArgMatches<'_>) -> bool
    ensures { result ≡ has_places (rows_of (found_of found.now)) }
{
    if is_given(found, "socket") {
        return true;
    }
    is_given(found, "port") && !is_given(found, "mode")
}

/// Where the words say that is listened; none where they give neither a port nor a socket, permissions without a socket, or
/// what is no port or no permissions.
pub(crate) fn places_of(alloc: Global, found: &ArgMatches<'_>) -> Result<Option<Places>, AllocError>
    ensures read { IfOk result (λ places. IfSome places (λ p. ListensAt
        (rows_of (found_of found.now)) p.port p.socket p.mode)) }
    ensures none { IfOk result (λ places. IfNone places
        (ListensNowhere (rows_of (found_of found.now)))) }
{
    if !has_places(found) {
        return Ok(None);
    }
    let Some(port) = port_in(found) else {
        return Ok(None);
    };
    let Some(mode) = mode_in(found) else {
        return Ok(None);
    };
    let socket = file_in(alloc, found, "socket")?;
    Ok(Some(Places { port, socket, mode }))
}
