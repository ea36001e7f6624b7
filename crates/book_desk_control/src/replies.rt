//! What is answered (RFC 9112, section 4). The connection closes after each reply.

ghost use Rattle.std.specs.Prelude.{◌≡◌, ◌++◌, IfOk, OnOk, decimal};
ghost use Rattle.book_desk_control.specs.Replies as spec;

use crate::bytes::Bytes;
use crate::questions::{Question, allowed_text, methods_of};
use itoa::Buffer;
use std::alloc::{AllocError, Global};

/// The status of a reply.
#[derive(Clone, Copy)]
pub enum Outcome {
    /// 200: what was asked is answered, or done.
    Answered,
    /// 400: what was asked is refused.
    Refused,
    /// 404: nothing is at the target.
    NotFound,
    /// 405: the target of this question takes other methods, which the field Allow tells.
    NotAllowed(Question),
    /// 431: the head is too large.
    HeadTooLarge,
    /// 501: no target takes the method, or the server can't do this.
    NotImplemented,
    /// 503: the store shows nothing, or memory was refused.
    Unavailable,
    /// 507: there is no place for what was asked (RFC 4918, section 11.5).
    Full,
}

/// What a body is.
#[derive(Clone, Copy)]
pub enum Kind {
    /// A value of JSON (RFC 8259).
    Json,
    /// A value of JSON on each line.
    JsonLines,
    /// Text in UTF-8.
    Text,
    /// Metrics, in the text format 0.0.4 of Prometheus.
    Metrics,
}

/// How a command ended that was asked.
#[derive(Clone, Copy)]
pub struct Ending {
    /// The status with which a command over the store would have ended.
    pub status: u8,
    /// How many bytes, the last of the body, it told on standard error.
    pub told: usize,
}

/// The line of the status.
fn status_line(outcome: Outcome) -> &'static str
    ensures { result.now ≡ spec.status_line outcome }
{
    match outcome {
        Outcome::Answered => "HTTP/1.1 200 OK\r\n",
        Outcome::Refused => "HTTP/1.1 400 Bad Request\r\n",
        Outcome::NotFound => "HTTP/1.1 404 Not Found\r\n",
        Outcome::NotAllowed(_) => "HTTP/1.1 405 Method Not Allowed\r\n",
        Outcome::HeadTooLarge => "HTTP/1.1 431 Request Header Fields Too Large\r\n",
        Outcome::NotImplemented => "HTTP/1.1 501 Not Implemented\r\n",
        Outcome::Unavailable => "HTTP/1.1 503 Service Unavailable\r\n",
        Outcome::Full => "HTTP/1.1 507 Insufficient Storage\r\n",
    }
}

/// The line that tells what a body is.
fn type_line(kind: Kind) -> &'static str
    ensures { result.now ≡ spec.type_line kind }
{
    match kind {
        Kind::Json => "Content-Type: application/json\r\n",
        Kind::JsonLines => "Content-Type: application/x-ndjson\r\n",
        Kind::Text => "Content-Type: text/plain; charset=utf-8\r\n",
        Kind::Metrics => "Content-Type: text/plain; version=0.0.4; charset=utf-8\r\n",
    }
}

/// The status of the reply to a command that ended so.
pub fn outcome_of_status(status: u8) -> Outcome
    ensures { result ≡ spec.outcome_of_status status }
{
    match status {
        0 => Outcome::Answered,
        3 => Outcome::Unavailable,
        _ => Outcome::Refused,
    }
}

/// Adds the line that tells which methods the target takes, where another one came.
fn push_allow(text: &mut Bytes, outcome: Outcome) -> Result<(), AllocError>
    ensures { OnOk result (text.new ≡ text.old ++ spec.allow_line outcome) }
{
    let Outcome::NotAllowed(question) = outcome else {
        return Ok(());
    };
    text.push(b"Allow: ")?;
    text.push(allowed_text(methods_of(question)).as_bytes())?;
    text.push(b"\r\n")
}

/// Adds a number.
fn push_number(text: &mut Bytes, number: u64) -> Result<(), AllocError>
    ensures { OnOk result (text.new ≡ text.old ++ decimal number) }
{
    let mut digits = Buffer::new();
    text.push(digits.format(number).as_bytes())
}

/// Adds a line of a field, whose value is a number.
fn push_field(text: &mut Bytes, name: &str, number: u64) -> Result<(), AllocError>
    ensures { OnOk result (text.new ≡ text.old ++ spec.field_line name.now number) }
{
    text.push(name.as_bytes())?;
    push_number(text, number)?;
    text.push(b"\r\n")
}

/// Adds the lines that tell how a command ended, where one is answered.
fn push_ending(text: &mut Bytes, ending: Option<Ending>) -> Result<(), AllocError>
    ensures { OnOk result (text.new ≡ text.old ++ spec.ending_lines ending) }
{
    let Some(ending) = ending else {
        return Ok(());
    };
    push_field(text, "X-Exit-Status: ", ending.status as u64)?;
    push_field(text, "X-Error-Length: ", ending.told as u64)
}

/// Adds the lines that tell how long the body is, and that nothing follows it.
fn push_length(text: &mut Bytes, length: usize) -> Result<(), AllocError>
    ensures { OnOk result (text.new ≡ text.old ++ spec.length_lines length) }
{
    text.push(b"Content-Length: ")?;
    push_number(text, length as u64)?;
    text.push(b"\r\nConnection: close\r\n\r\n")
}

/// The head of a reply with so long a body, and, of a command, how it ended. An error is want of memory.
pub(crate) fn head_of(
    alloc: Global,
    outcome: Outcome,
    ending: Option<Ending>,
    kind: Kind,
    length: usize,
) -> Result<Bytes, AllocError>
    ensures { IfOk result (λ head. head ≡ spec.head_text outcome ending kind length) }
{
    let mut text = Bytes::new(alloc);
    text.push(status_line(outcome).as_bytes())?;
    push_allow(&mut text, outcome)?;
    push_ending(&mut text, ending)?;
    text.push(type_line(kind).as_bytes())?;
    push_length(&mut text, length)?;
    Ok(text)
}
