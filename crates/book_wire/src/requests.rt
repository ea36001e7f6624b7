//! The request that a head and a body spell.

ghost use Rattle.std.specs.Prelude.{◌≡◌, true, false, IfOk, IfSome, IfNone, option_copied};
ghost use Rattle.std.specs.Str.{is_utf8};
ghost use Rattle.book_wire_targets.specs.Targets.{HasHomes};
ghost use Rattle.book_wire.specs.Reading.{asked_view};
ghost use Rattle.book_wire.specs.Requests.{IsDestination, IsPathAt, IsRequest, caller_name, has_destination};

use crate::head::AskedByHead;
use book_machine::Request;
use book_office_values::Path;
use book_rights::Method;
use book_wire_json::body_of;
use book_wire_targets::{Home, target_path};
use matchit::Router;
use std::alloc::{AllocError, Global};

/// The text that the bytes are, if they are UTF-8.
fn text_of(bytes: &[u8]) -> Option<&str>
    ensures some { IfSome result (λ text. (text.now ≡ bytes.now) × (is_utf8 bytes.now ≡ true)) }
    ensures none { IfNone result (is_utf8 bytes.now ≡ false) }
{
    match str::from_utf8(bytes) {
        Ok(text) => Some(text),
        Err(_) => None,
    }
}

/// The caller's name; a value that is not UTF-8 is none, as the empty text is none.
pub(crate) fn caller_name<'b>(value: Option<&'b [u8]>) -> Option<&'b str>
    ensures { option_copied result ≡ caller_name (option_copied value.entry) }
{
    match value {
        None => None,
        Some(bytes) => match text_of(bytes) {
            Some(text) => Some(text),
            None => Some(""),
        },
    }
}

/// The path that bytes ask for. An error is want of memory.
fn path_at(alloc: Global, router: &Router<Home>, bytes: &[u8]) -> Result<Option<Path>, AllocError>
    requires { HasHomes router.now }
    ensures { IfOk result (IsPathAt bytes.now) }
{
    match text_of(bytes) {
        Some(text) => target_path(alloc, router, text),
        None => Ok(None),
    }
}

/// Whether requests of the method have a destination (RFC 4918, section 10.3).
fn has_destination(method: Method) -> bool
    ensures { result ≡ has_destination method }
{
    match method {
        Method::Copy | Method::Move => true,
        Method::Get
        | Method::Head
        | Method::Options
        | Method::Put
        | Method::Propfind
        | Method::Proppatch
        | Method::Acl
        | Method::Delete
        | Method::Mkcol
        | Method::Report => false,
    }
}

/// The destination of a method that has one. An error is want of memory.
fn destination(
    alloc: Global,
    router: &Router<Home>,
    method: Method,
    value: Option<&[u8]>,
) -> Result<Option<Path>, AllocError>
    requires { HasHomes router.now }
    ensures { IfOk result (IsDestination method (option_copied value.entry)) }
{
    if !has_destination(method) {
        return Ok(None);
    }
    match value {
        Some(bytes) => path_at(alloc, router, bytes),
        None => Ok(None),
    }
}

/// The request that a head and a body spell. An error is want of memory.
pub(crate) fn request_of(
    alloc: Global,
    router: &Router<Home>,
    asked: &AskedByHead<'_>,
    text: &[u8],
) -> Result<Request, AllocError>
    requires { HasHomes router.now }
    ensures { IfOk result (IsRequest (asked_view asked.now) text.now) }
{
    let path = path_at(alloc, router, asked.target)?;
    let destination = destination(alloc, router, asked.method, asked.destination)?;
    let body = body_of(alloc, asked.method, text)?;
    Ok(Request {
        method: asked.method,
        path,
        destination,
        overwrite: asked.overwrite,
        depth: asked.depth,
        body,
    })
}
