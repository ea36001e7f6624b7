//! The body of a request, from its bytes.

ghost use Rattle.std.specs.Prelude.{◌≡◌, IfOk};
ghost use Rattle.book_wire_json.specs.Bodies.{IsBody, IsFormBody, text_body, unread_body};

use crate::entries::list_body;
use crate::forms::json_of;
use crate::patches::patch_body;
use crate::properties::find_body;
use crate::reports::report_body;
use book_machine::Body;
use book_office_values::Text;
use book_rights::Method;
use std::alloc::{AllocError, Global};

/// The text of a card. An error is want of memory.
fn text_body(alloc: Global, bytes: &[u8]) -> Result<Body, AllocError>
    ensures { IfOk result (λ body. body ≡ text_body bytes.now) }
{
    if bytes.is_empty() {
        return Ok(Body::Empty);
    }
    match str::from_utf8(bytes) {
        Ok(text) => Ok(Body::Text(Text::copy_of(alloc, text)?)),
        Err(_) => Ok(Body::Unread),
    }
}

/// Whether there is a body, where no method reads it.
fn unread_body(bytes: &[u8]) -> Body
    ensures { result ≡ unread_body bytes.now }
{
    if bytes.is_empty() {
        Body::Empty
    } else {
        Body::Unread
    }
}

/// A form of JSON body.
#[derive(Clone, Copy, Debug)]
enum Form {
    Find,
    Patch,
    List,
    Report,
}

/// No bytes, or what their JSON value means. An error is want of memory.
fn json_body(alloc: Global, form: Form, bytes: &[u8]) -> Result<Body, AllocError>
    ensures { IfOk result (IsFormBody form bytes.now) }
{
    if bytes.is_empty() {
        return Ok(Body::Empty);
    }
    let value = json_of(alloc, bytes)?;
    match form {
        Form::Find => find_body(alloc, value.as_ref()),
        Form::Patch => patch_body(alloc, value.as_ref()),
        Form::List => list_body(alloc, value.as_ref()),
        Form::Report => report_body(alloc, value.as_ref()),
    }
}

/// The body that the bytes are, for a request of this method (own profile: JSON, RFC 8259, in the place of XML).
/// `Empty` where there are no bytes, and for a method whose body is not looked at. `Unread` where the bytes have not
/// the form that the method asks, and for each body of a MKCOL. The text of a card is any UTF-8; of equal keys of an
/// object the last stays. How long a label may be, how many members a group may have and how many entries a list, the
/// machine says.
///
/// # Errors
///
/// Want of memory, in place of any other answer.
pub fn body_of(alloc: Global, method: Method, bytes: &[u8]) -> Result<Body, AllocError>
    ensures { IfOk result (IsBody method bytes.now) }
{
    match method {
        Method::Get | Method::Head | Method::Options => Ok(Body::Empty),
        Method::Copy | Method::Move | Method::Delete => Ok(Body::Empty),
        Method::Put => text_body(alloc, bytes),
        Method::Mkcol => Ok(unread_body(bytes)),
        Method::Propfind => json_body(alloc, Form::Find, bytes),
        Method::Proppatch => json_body(alloc, Form::Patch, bytes),
        Method::Acl => json_body(alloc, Form::List, bytes),
        Method::Report => json_body(alloc, Form::Report, bytes),
    }
}
