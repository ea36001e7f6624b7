//! The path that a target or a destination asks for (RFC 9110, section 7.1; RFC 4918, section 10.3).

ghost use Rattle.std.specs.Prelude.{◌≡◌, ◌≢◌, ◌↔◌, IsTrue, ℕ, List, IfOk, IfErr, MatchOption, string_bytes};
ghost use Rattle.url.specs.Parser.{IsOutOfRoom};
ghost use Rattle.book_office_values.specs.Paths.{IsPath, SpellsPath, SpellsNone};
ghost use Rattle.book_wire_targets.specs.Targets.{HasHomes, IsWebPath, IsPathOf, begins_with_slash, IsPathIn};

use crate::home_routes::{Home, home_at, home_path};
use book_office_values::{Path, PathFault};
use matchit::Router;
use std::alloc::{AllocError, Global};
use url::{ParseError, Url};

/// The bytes of the longest text of a home: the router is asked for no longer one.
const MAX_HOME: usize = 7;

/// The path that a text spells, if it spells one (own profile). The homes are found by the router, each other path by
/// `Path::parse`. An error is want of memory.
pub fn path_in(alloc: Global, router: &Router<Home>, text: &str) -> Result<Option<Path>, AllocError>
    requires { HasHomes router.now }
    ensures { IfOk result (IsPathIn text.now) }
{
    if text.len() <= MAX_HOME {
        if let Some(home) = home_at(router, text) {
            return Ok(Some(home_path(home)));
        }
    }
    match Path::parse(alloc, text) {
        Ok(path) => Ok(Some(path)),
        Err(PathFault::BadPath) => Ok(None),
        Err(PathFault::Memory) => Err(AllocError),
    }
}

/// The path of an http or https URL that has no query and no fragment; none where the text is no such URL. The host is
/// not compared. An error is want of memory, or a text too long for `url`.
fn web_path(alloc: Global, text: &str) -> Result<Option<String>, AllocError>
    ensures { IfOk result (λ found. MatchOption found
        ((path : List ℕ) → ¬ (IsWebPath text.now path))
        (λ path. IsWebPath text.now (string_bytes path))) }
{
    match Url::parse(alloc, text) {
        Ok(url) => {
            let is_web = url.scheme() == "http" || url.scheme() == "https";
            if is_web && url.query().is_none() && url.fragment().is_none() {
                Ok(Some(String::from_str(alloc, url.path())?))
            } else {
                Ok(None)
            }
        }
        Err(error) => {
            if is_out_of_room(error) {
                Err(AllocError)
            } else {
                Ok(None)
            }
        }
    }
}

/// Whether there was want of memory, or the text was too long for `url`.
fn is_out_of_room(error: ParseError) -> bool
    ensures { IsTrue result ↔ IsOutOfRoom error }
{
    match error {
        ParseError::OutOfMemory | ParseError::Overflow => true,
        _ => false,
    }
}

fn has_slash(text: &str) -> bool
    ensures { result ≡ begins_with_slash text.now }
{
    text.as_bytes().first() == Some(&b'/')
}

/// The path that a target (RFC 9110, section 7.1) or a destination (RFC 4918, section 10.3) asks for. A text that
/// begins with a slash spells the path itself; another is an http or https URL with no query and no fragment, and its
/// path, as `url` gives it, spells it. None where that spells no path of a resource, or the text is no such URL.
///
/// # Errors
///
/// Want of memory, or a text too long for `url`, in place of any other answer.
pub fn target_path(
    alloc: Global,
    router: &Router<Home>,
    text: &str,
) -> Result<Option<Path>, AllocError>
    requires { HasHomes router.now }
    ensures { IfOk result (IsPathOf text.now) }
{
    if has_slash(text) {
        return path_in(alloc, router, text);
    }
    match web_path(alloc, text)? {
        Some(path) => path_in(alloc, router, path.as_str()),
        None => Ok(None),
    }
}
