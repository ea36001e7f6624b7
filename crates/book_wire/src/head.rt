//! The head of a request (RFC 9112, sections 2 to 6).

ghost use Rattle.std.specs.Prelude.{◌≡◌, ◌≢◌, ◌⊎◌, ℕ, ◌^◌, ◌<◌, ◌≤◌, map, length, true, option_copied, All, take, MatchResult, MatchOption, IfOk, Ok, Err, None, Some};
ghost use Rattle.std.specs.List.{list_all};
ghost use Rattle.std.specs.Char.{is_ascii_digit};
ghost use Rattle.httparse.specs.Spans.{IsHeaderWithin, IsWithin, header_bytes, span_bytes};
ghost use Rattle.book_wire.specs.Head as spec;
ghost use Rattle.book_wire.specs.Reading.{IsReading, asked_view};

use crate::members::{has_close, has_name};
use book_limits::{MAX_BODY, MAX_FIELDS, MAX_HEAD};
use book_machine::{Depth, Flag};
use book_rights::Method;
use book_wire_targets::method_named;
use httparse::spans::{HeaderSpan, RequestSpans, parse_request};
use httparse::{Error, Status};

/// Why there is no request. The connection closes after each, and nothing changes.
#[derive(Clone, Copy, Debug, PartialEq, Eq)]
pub(crate) enum WireRefusal {
    /// 400: the head can't be read, or has a length that is none, or one of the fields twice that may come once.
    BadHead,
    /// 431: no end of the head within the limit, or too many fields (RFC 6585, section 5).
    HeadTooLarge,
    /// 413: the body is longer than the limit (RFC 9110, section 15.5.14).
    BodyTooLarge,
    /// 501: a transfer coding, or a method that the server has not (RFC 9110, section 15.6.2).
    NotImplemented,
}

/// What a head asks for.
#[derive(Clone, Copy, Debug)]
pub(crate) struct AskedByHead<'b> {
    /// The field `x-office-caller`, which the gateway sets (own profile).
    pub(crate) caller: Option<&'b [u8]>,
    /// The method.
    pub(crate) method: Method,
    /// The target of the request line (RFC 9112, section 3.2).
    pub(crate) target: &'b [u8],
    /// The field Destination (RFC 4918, section 10.3).
    pub(crate) destination: Option<&'b [u8]>,
    /// The field Overwrite (RFC 4918, section 10.6).
    pub(crate) overwrite: Flag,
    /// The field Depth (RFC 4918, section 10.2).
    pub(crate) depth: Depth,
    /// The length of the body.
    pub(crate) length: usize,
    /// Whether the connection closes after the reply.
    pub(crate) closes: bool,
}

/// What the bytes at the front are.
#[derive(Clone, Copy, Debug)]
pub(crate) enum Reading<'b> {
    /// More bytes may make them a head.
    Partial,
    /// No request; and whether its reply is bare, since its method is HEAD.
    Refused(WireRefusal, bool),
    /// A whole head, and its length.
    Whole(AskedByHead<'b>, usize),
}

/// The value of a field that may come once.
fn lone<'b>(
    bytes: &'b [u8],
    headers: &[HeaderSpan],
    name: &[u8],
) -> Result<Option<&'b [u8]>, WireRefusal>
    requires { All (IsHeaderWithin (length bytes.now)) headers.now }
    ensures { MatchResult result (λ v. spec.lone
        (spec.values_of name.now (map (header_bytes bytes.now) headers.now)) ≡ Ok (option_copied v))
        (λ e. spec.lone (spec.values_of name.now (map (header_bytes bytes.now) headers.now)) ≡
        Err e) }
{
    let mut found = None;
    for header in headers {
        if has_name(header.name.of(bytes), name) {
            if found.is_some() {
                return Err(WireRefusal::BadHead);
            }
            found = Some(header.value.of(bytes));
        }
    }
    Ok(found)
}

/// The length of the body: 1 to 10 decimal digits, and none is no body (RFC 9112, section 6.3).
fn length_of(text: Option<&[u8]>) -> Result<usize, WireRefusal>
    ensures { MatchResult result
        (λ n. spec.length_of (option_copied text.entry) ≡ Ok n)
        (λ e. spec.length_of (option_copied text.entry) ≡ Err e) }
{
    match text {
        None => Ok(0),
        Some(digits) if is_length(digits) => Ok(value_of(digits)),
        Some(_) => Err(WireRefusal::BadHead),
    }
}

fn is_length(digits: &[u8]) -> bool
    ensures { result ≡ spec.is_length digits.now }
{
    !digits.is_empty() && digits.len() <= 10 && has_digits_alone(digits)
}

fn has_digits_alone(digits: &[u8]) -> bool
    ensures { result ≡ list_all is_ascii_digit digits.now }
{
    digits.iter().all(|d| d.is_ascii_digit())
}

/// The number that decimal digits write.
fn value_of(digits: &[u8]) -> usize
    requires { spec.is_length digits.now ≡ true }
    ensures { result ≡ spec.number_after 0 digits.now }
{
    let mut value = 0;
    for digit in digits {
        value = 10 * value + (*digit - b'0') as usize;
    }
    value
}

/// The field Overwrite (RFC 4918, section 10.6).
fn overwrite_of(value: Option<&[u8]>) -> Flag
    ensures { result ≡ spec.overwrite_of (option_copied value.entry) }
{
    match value {
        None => Flag::Yes,
        Some(text) => {
            if text == b"T".as_slice() {
                Flag::Yes
            } else if text == b"F".as_slice() {
                Flag::No
            } else {
                Flag::Unread
            }
        }
    }
}

/// The field Depth (RFC 4918, section 10.2; own profile).
fn depth_of(value: Option<&[u8]>) -> Depth
    ensures { result ≡ spec.depth_of (option_copied value.entry) }
{
    match value {
        None => Depth::Zero,
        Some(text) => {
            if text == b"0".as_slice() {
                Depth::Zero
            } else if text == b"1".as_slice() {
                Depth::One
            } else {
                Depth::Unread
            }
        }
    }
}

/// The method, where the server has it and there is no transfer coding.
fn implemented(coding: Option<&[u8]>, method: Option<Method>) -> Result<Method, WireRefusal>
    ensures { MatchResult result
        (λ m. spec.implemented (option_copied coding.entry) method ≡ Ok m)
        (λ e. spec.implemented (option_copied coding.entry) method ≡ Err e) }
{
    match (coding, method) {
        (None, Some(method)) => Ok(method),
        (None, None) => Err(WireRefusal::NotImplemented),
        (Some(_), _) => Err(WireRefusal::NotImplemented),
    }
}

/// The length, where it is not above the limit.
fn within(length: usize) -> Result<usize, WireRefusal>
    ensures { MatchResult result
        (λ n. spec.within length ≡ Ok n)
        (λ e. spec.within length ≡ Err e) }
{
    if length <= MAX_BODY {
        Ok(length)
    } else {
        Err(WireRefusal::BodyTooLarge)
    }
}

/// Whether the connection closes after the reply (RFC 9112, section 9.3).
fn closes(bytes: &[u8], headers: &[HeaderSpan], minor: u8) -> bool
    requires { All (IsHeaderWithin (length bytes.now)) headers.now }
    ensures { result ≡ spec.closes minor (map (header_bytes bytes.now) headers.now) }
{
    if minor == 0 {
        return true;
    }
    for header in headers {
        if has_name(header.name.of(bytes), b"connection") && has_close(header.value.of(bytes)) {
            return true;
        }
    }
    false
}

/// What the fields of a head ask for.
#[tactic(auto, unfolding(crate::specs::Head::asked_by_head))]
fn read_fields<'b>(
    bytes: &'b [u8],
    spans: &RequestSpans,
    headers: &[HeaderSpan],
) -> Result<AskedByHead<'b>, WireRefusal>
    requires method { IsWithin (length bytes.now) spans.now.method }
    requires path { IsWithin (length bytes.now) spans.now.path }
    requires headers { All (IsHeaderWithin (length bytes.now)) headers.now }
    ensures { MatchResult result (λ a. spec.asked_by_head (span_bytes bytes.now spans.now.method)
        (span_bytes bytes.now spans.now.path) spans.now.version
        (map (header_bytes bytes.now) headers.now) ≡ Ok (asked_view a))
        (λ e. spec.asked_by_head (span_bytes bytes.now spans.now.method)
        (span_bytes bytes.now spans.now.path) spans.now.version
        (map (header_bytes bytes.now) headers.now) ≡ Err e) }
{
    let caller = lone(bytes, headers, b"x-office-caller")?;
    let destination = lone(bytes, headers, b"destination")?;
    let overwrite = lone(bytes, headers, b"overwrite")?;
    let depth = lone(bytes, headers, b"depth")?;
    let coding = lone(bytes, headers, b"transfer-encoding")?;
    let text = lone(bytes, headers, b"content-length")?;
    let size = length_of(text)?;
    let method = implemented(coding, method_named(spans.method.of(bytes)))?;
    let length = within(size)?;
    Ok(AskedByHead {
        caller,
        method,
        target: spans.path.of(bytes),
        destination,
        overwrite: overwrite_of(overwrite),
        depth: depth_of(depth),
        length,
        closes: closes(bytes, headers, spans.version),
    })
}

/// As much of the bytes as a head may take.
fn front_of(bytes: &[u8], limit: usize) -> &[u8]
    ensures { result.now ≡ take limit bytes.now }
{
    if bytes.len() > limit {
        &bytes[..limit]
    } else {
        bytes
    }
}

fn is_bare_head(method: &[u8]) -> bool
    ensures { result ≡ spec.is_bare_head method.now }
{
    method == b"HEAD".as_slice()
}

fn refusal_of(error: Error) -> WireRefusal
    ensures { ((error ≡ Error.TooManyHeaders) × (result ≡ WireRefusal.HeadTooLarge))
        ⊎ ((error ≢ Error.TooManyHeaders) × (result ≡ WireRefusal.BadHead)) }
{
    match error {
        Error::TooManyHeaders => WireRefusal::HeadTooLarge,
        _ => WireRefusal::BadHead,
    }
}

/// Room for where the fields of a head lie. What a head leaves in it no later one reads.
pub(crate) type FieldSpans = [HeaderSpan; MAX_FIELDS];

/// Reads the head at the front. Looks at no more than the most bytes of a head.
pub(crate) fn read_head<'b>(unread: &'b [u8], headers: &mut FieldSpans) -> Reading<'b>
    ensures { IsReading unread.now result }
{
    if unread.is_empty() {
        return Reading::Partial;
    }
    let front = front_of(unread, MAX_HEAD);
    match parse_request(front, headers) {
        Ok(Status::Complete(spans)) => match read_fields(front, &spans, &headers[..spans.headers]) {
            Ok(asked) => Reading::Whole(asked, spans.len),
            Err(refusal) => Reading::Refused(refusal, is_bare_head(spans.method.of(front))),
        },
        Ok(Status::Partial) => {
            if front.len() == MAX_HEAD {
                Reading::Refused(WireRefusal::HeadTooLarge, false)
            } else {
                Reading::Partial
            }
        }
        Err(error) => Reading::Refused(refusal_of(error), false),
    }
}
