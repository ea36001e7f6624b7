//! What bytes ask: the head of a request (RFC 9112, sections 2 to 5), and its body.

ghost use Rattle.std.specs.Prelude.{◌≡◌, ◌≢◌, ◌⊎◌, take};
ghost use Rattle.book_desk_control.specs.Hearing.{Hears};

use crate::fields::read_fields;
use crate::questions::Question;
use crate::refusals::Refusal;
use book_limits::MAX_FIELDS;
use httparse::spans::{EMPTY_HEADER_SPAN, HeaderSpan, parse_request};
use httparse::{Error, Status};

/// The most bytes of a head.
const MAX_HEAD: usize = 8_192;

/// What bytes are.
#[derive(Clone, Copy)]
pub enum Heard {
    /// More bytes may make them a request.
    Part,
    /// They are refused, whatever bytes follow.
    Refused(Refusal),
    /// They begin with a request that asks this; where its body begins, and how many bytes it has.
    Whole(Question, usize, usize),
}

/// As much of the bytes as a head may take.
fn front_of(bytes: &[u8], limit: usize) -> &[u8]
    ensures { result.now ≡ take limit bytes.now }
{
    if bytes.len() > limit {
        &bytes[..limit]
    } else {
        bytes
    }
}

/// Why bytes are no head.
fn refusal_of(error: Error) -> Refusal
    ensures { ((error ≡ Error.TooManyHeaders) × (result ≡ Refusal.HeadTooLarge))
        ⊎ ((error ≢ Error.TooManyHeaders) × (result ≡ Refusal.BadHead)) }
{
    match error {
        Error::TooManyHeaders => Refusal::HeadTooLarge,
        _ => Refusal::BadHead,
    }
}

/// Room for where the fields of a head lie.
type FieldSpans = [HeaderSpan; MAX_FIELDS];

/// Reads what bytes ask. Of the head it looks at no more than the most bytes of one.
fn hear_with(bytes: &[u8], headers: &mut FieldSpans) -> Heard
    ensures { Hears bytes.now result }
{
    let front = front_of(bytes, MAX_HEAD);
    match parse_request(front, headers) {
        Ok(Status::Complete(spans)) => match read_fields(front, &spans, &headers[..spans.headers]) {
            Ok(asked) => {
                if bytes.len() - spans.len < asked.length {
                    Heard::Part
                } else {
                    Heard::Whole(asked.question, spans.len, asked.length)
                }
            }
            Err(refusal) => Heard::Refused(refusal),
        },
        Ok(Status::Partial) => {
            if front.len() == MAX_HEAD {
                Heard::Refused(Refusal::HeadTooLarge)
            } else {
                Heard::Part
            }
        }
        Err(error) => Heard::Refused(refusal_of(error)),
    }
}

/// Reads what bytes ask.
pub fn hear(bytes: &[u8]) -> Heard
    ensures { Hears bytes.now result }
{
    let mut headers: FieldSpans = [EMPTY_HEADER_SPAN; MAX_FIELDS];
    hear_with(bytes, &mut headers)
}
