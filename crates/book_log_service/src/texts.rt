//! The lines of a log, as texts.

ghost use Rattle.std.specs.Prelude.{◌≡◌, [], IfOk, option_copied};
ghost use Rattle.book_log_lines.specs.Lines.{line_text};
ghost use Rattle.book_log_replies.specs.Effects.{no_effect};
ghost use Rattle.book_log_service.specs.Drafts.{empty_reply};
ghost use Rattle.book_log_service.specs.Texts.{IsAdoptionText, IsBareText, IsTextBy, with_status};
ghost use Rattle.book_wire_serving.specs.Logs.{IsLineBy, made_at};

use book_log_lines::{Adoption, AdoptionLine, Line, ReplyLine, Time, line_bytes};
use book_log_replies::{Effect, Exchange, reply_line};
use book_machine::{Content, Reply, Request};
use book_office::Level;
use book_office_values::{Items, Text};
use std::alloc::{AllocError, Global};

/// The text of a line. An error is want of memory.
fn text_of(alloc: Global, line: Line) -> Result<Items<u8>, AllocError>
    ensures { IfOk result (λ text. text ≡ line_text line) }
{
    let bytes = line_bytes(alloc, &line);
    drop(line);
    Ok(Items::from_vec(bytes?))
}

/// The caller's name, if there is one. An error is want of memory.
fn caller_text(alloc: Global, name: Option<&str>) -> Result<Option<Text>, AllocError>
    ensures { IfOk result (λ caller. caller ≡ option_copied name.entry) }
{
    match name {
        Some(name) => Ok(Some(Text::copy_of(alloc, name)?)),
        None => Ok(None),
    }
}

/// When a line is made, on which connection, for whom, and what an edit did. An error is want of memory.
fn exchange(
    alloc: Global,
    time: &Time,
    connection: u64,
    name: Option<&str>,
    effect: Effect,
) -> Result<Exchange, AllocError>
    ensures { IfOk result (λ exchange. exchange ≡ made_at time.now connection
        (option_copied name.entry) effect) }
{
    let time = time.clone()?;
    let caller = caller_text(alloc, name)?;
    let Effect { touched, epoch } = effect;
    Ok(Exchange {
        time,
        connection,
        caller,
        touched,
        epoch,
    })
}

/// That nothing was edited.
fn no_effect(alloc: Global) -> Effect
    ensures { result ≡ no_effect }
{
    Effect {
        touched: Items::new(alloc),
        epoch: None,
    }
}

/// The line with another status.
fn with_status(line: Line, status: u16) -> Line
    ensures { result ≡ with_status line status }
{
    match line {
        Line::Reply(line) => Line::Reply(ReplyLine { status, ..line }),
        Line::Adoption(line) => Line::Adoption(line),
    }
}

/// The line of a request and its reply, which has no content, and of what the edit did. An error is want of memory.
fn edit_line(
    alloc: Global,
    time: &Time,
    connection: u64,
    name: Option<&str>,
    request: &Request,
    effect: Effect,
    status: u16,
) -> Result<Line, AllocError>
    ensures { IfOk result (λ line. IsLineBy (option_copied name.entry) request.now
        (empty_reply status) effect [] line) }
{
    let exchange = exchange(alloc, time, connection, name, effect)?;
    let reply = Reply {
        status,
        content: Content::Empty,
    };
    let made = reply_line(alloc, exchange, request, &reply, &[]);
    drop(reply);
    let line = made?;
    Ok(Line::Reply(line))
}

/// The texts of the lines of a request and its reply, which has no content and the one status or the other, and of what
/// the edit did. An error is want of memory.
pub(crate) fn edit_texts(
    alloc: Global,
    time: &Time,
    connection: u64,
    name: Option<&str>,
    request: &Request,
    effect: Effect,
    first: u16,
    second: u16,
) -> Result<(Items<u8>, Items<u8>), AllocError>
    ensures { IfOk result (λ texts. IsTextBy (option_copied name.entry) request.now
        (empty_reply first) effect [] texts.0 × IsTextBy (option_copied name.entry) request.now
        (empty_reply second) effect [] texts.1) }
{
    let line = edit_line(alloc, time, connection, name, request, effect, first)?;
    let bytes = line_bytes(alloc, &line);
    let other = text_of(alloc, with_status(line, second));
    let one = bytes?;
    let two = other?;
    Ok((Items::from_vec(one), two))
}

/// The text of the line of a request and its reply, by the lists in force at the resource of a denial. An error is want
/// of memory.
pub(crate) fn reply_text(
    alloc: Global,
    time: &Time,
    connection: u64,
    name: Option<&str>,
    request: &Request,
    reply: &Reply,
    levels: &[Level],
) -> Result<Items<u8>, AllocError>
    ensures { IfOk result (λ text. IsTextBy (option_copied name.entry) request.now reply.now
        no_effect levels.now text) }
{
    let exchange = exchange(alloc, time, connection, name, no_effect(alloc))?;
    let line = reply_line(alloc, exchange, request, reply, levels)?;
    text_of(alloc, Line::Reply(line))
}

/// The text of a line that tells a refusal, and nothing of a request. An error is want of memory.
pub(crate) fn bare_text(
    alloc: Global,
    time: Time,
    connection: u64,
    status: u16,
    error: &str,
) -> Result<Items<u8>, AllocError>
    ensures { IfOk result (λ text. IsBareText status error.now text) }
{
    let error = Text::copy_of(alloc, error)?;
    let line = ReplyLine {
        time,
        connection,
        caller: None,
        method: None,
        path: None,
        destination: None,
        status,
        error: Some(error),
        denied: None,
        touched: Items::new(alloc),
        epoch: None,
    };
    text_of(alloc, Line::Reply(line))
}

/// The text of the line of an adoption. An error is want of memory.
pub(crate) fn adoption_text(
    alloc: Global,
    time: Time,
    adopted: Adoption,
    epoch: u64,
) -> Result<Items<u8>, AllocError>
    ensures { IfOk result (λ text. IsAdoptionText adopted epoch text) }
{
    let line = AdoptionLine {
        time,
        epoch,
        adopted,
    };
    text_of(alloc, Line::Adoption(line))
}
