//! The head of a control's reply (RFC 9112, section 4): the fields that are read, and no others.

ghost use Rattle.std.specs.Prelude.{◌≡◌, All, length, map};
ghost use Rattle.httparse.specs.Spans.{IsHeaderWithin, header_bytes};
ghost use Rattle.book_desk_asking.specs.Heads as spec;
ghost use Rattle.book_desk_asking.specs.Heads.{Hears};

use book_desk_control::{is_length, lone, value_of};
use book_limits::MAX_FIELDS;
use httparse::Status;
use httparse::spans::{EMPTY_HEADER_SPAN, HeaderSpan, parse_response};

/// The most bytes of a head.
pub(crate) const MAX_HEAD: usize = 8_192;

/// What the head of a control's reply to a command tells.
#[derive(Clone, Copy)]
pub(crate) struct Told {
    /// The status with which the command ended.
    pub(crate) status: u8,
    /// How many bytes of the body it wrote.
    pub(crate) written: usize,
    /// How many bytes, the rest of the body, it told on standard error.
    pub(crate) told: usize,
}

/// What bytes are.
#[derive(Clone, Copy)]
pub(crate) enum Heard {
    /// A beginning of a head.
    Part,
    /// No head of a control's reply to a command.
    Other,
    /// Such a head.
    Whole(Told),
}

/// The number that a field has, which comes once.
fn number_in(bytes: &[u8], headers: &[HeaderSpan], name: &[u8]) -> Option<usize>
    requires { All (IsHeaderWithin (length bytes.now)) headers.now }
    ensures { result ≡ spec.number_in (map (header_bytes bytes.now) headers.now) name.now }
{
    match lone(bytes, headers, name) {
        Ok(Some(digits)) if is_length(digits) => Some(value_of(digits)),
        _ => None,
    }
}

/// Whether the body comes as it is.
fn is_plain(bytes: &[u8], headers: &[HeaderSpan]) -> bool
    requires { All (IsHeaderWithin (length bytes.now)) headers.now }
    ensures { result ≡ spec.is_plain (map (header_bytes bytes.now) headers.now) }
{
    match lone(bytes, headers, b"transfer-encoding") {
        Ok(None) => true,
        _ => false,
    }
}

/// What three numbers tell, where they are those of a reply.
fn told_by(status: usize, told: usize, length: usize) -> Option<Told>
    ensures { result ≡ spec.told_by status told length }
{
    if status > 255 || told > length {
        return None;
    }
    Some(Told {
        status: status as u8,
        written: length - told,
        told,
    })
}

/// What the fields of a head tell, where they are those of a reply to a command.
fn read_fields(bytes: &[u8], headers: &[HeaderSpan]) -> Option<Told>
    requires { All (IsHeaderWithin (length bytes.now)) headers.now }
    ensures { result ≡ spec.told_in (map (header_bytes bytes.now) headers.now) }
{
    if !is_plain(bytes, headers) {
        return None;
    }
    let status = number_in(bytes, headers, b"x-exit-status")?;
    let told = number_in(bytes, headers, b"x-error-length")?;
    let length = number_in(bytes, headers, b"content-length")?;
    told_by(status, told, length)
}

/// Room for where the fields of a head lie.
type FieldSpans = [HeaderSpan; MAX_FIELDS];

/// What the bytes of a whole head tell, where it is that of a reply to a command.
fn hear_with(bytes: &[u8], headers: &mut FieldSpans) -> Heard
    ensures { Hears bytes.now result }
{
    match parse_response(bytes, headers) {
        Ok(Status::Complete(spans)) => {
            if spans.len != bytes.len() {
                return Heard::Other;
            }
            match read_fields(bytes, &headers[..spans.headers]) {
                Some(told) => Heard::Whole(told),
                None => Heard::Other,
            }
        }
        Ok(Status::Partial) => Heard::Part,
        Err(_) => Heard::Other,
    }
}

/// Reads a head.
pub(crate) fn hear(bytes: &[u8]) -> Heard
    ensures { Hears bytes.now result }
{
    let mut headers: FieldSpans = [EMPTY_HEADER_SPAN; MAX_FIELDS];
    hear_with(bytes, &mut headers)
}
