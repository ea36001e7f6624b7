//! What a log tells of a request and its reply.

ghost use Rattle.std.specs.Prelude.{◌≡◌, IfOk, Some, option_copied};
ghost use Rattle.book_log_replies.specs.Replies.{by_of, denial_in, denied_in, denied_of, error_in, reply_of};

use crate::standing::{copy_of, decided_in};
use book_log_lines::{Decided, Denied, ReplyLine, Time, Touched};
use book_machine::{Content, DecidingEntry, Denial, Refusal, Reply, Request};
use book_office::Level;
use book_office_values::{Items, Path, Text};
use std::alloc::{AllocError, Global};

/// What an edit did.
#[derive(Debug, Drop)]
pub struct Effect {
    /// The cards that it touched, each with the number of that change; at most two.
    pub touched: Items<Touched>,
    /// The epoch after it; none where nothing was edited.
    pub epoch: Option<u64>,
}

/// When a reply was made, on which connection, for whom, and what an edit did.
#[derive(Debug, Drop)]
pub struct Exchange {
    /// When the reply was made.
    pub time: Time,
    /// The number of the connection.
    pub connection: u64,
    /// The caller's bare name, as it was sent; none for nobody.
    pub caller: Option<Text>,
    /// The resources that got a number by the edit, at most two.
    pub touched: Items<Touched>,
    /// The epoch after the edit, if there was one.
    pub epoch: Option<u64>,
}

/// The denial that a reply tells, if it is one. The lists in force at its resource are what `reply_line` asks beside it.
pub fn denial_in(reply: &Reply) -> Option<&Denial>
    ensures { option_copied result ≡ denial_in reply.now.content }
{
    match &reply.content {
        Content::Refusal(Refusal::NeedPrivileges(denial)) => Some(denial.denial()),
        _ => None,
    }
}

/// The name of the refusal that a reply tells, if it is one. An error is want of memory.
fn error_of(alloc: Global, reply: &Reply) -> Result<Option<Text>, AllocError>
    ensures { IfOk result (λ error. error ≡ error_in reply.now.content) }
{
    match &reply.content {
        Content::Refusal(refusal) => Ok(Some(Text::copy_of(alloc, refusal.name())?)),
        _ => Ok(None),
    }
}

/// The entry that decides, in full. An error is want of memory.
fn by_of(levels: &[Level], entry: &Option<DecidingEntry>) -> Result<Option<Decided>, AllocError>
    ensures { IfOk result (λ by. by ≡ by_of levels.now entry.now) }
{
    match entry {
        Some(entry) => decided_in(levels, entry.number),
        None => Ok(None),
    }
}

/// A denial with its entry in full. An error is want of memory.
fn denied_of(levels: &[Level], denial: &Denial) -> Result<Denied, AllocError>
    ensures { IfOk result (λ denied. denied ≡ denied_of levels.now denial.now) }
{
    Ok(Denied {
        resource: copy_of(&denial.resource)?,
        privilege: denial.privilege,
        by: by_of(levels, &denial.entry)?,
    })
}

/// The denial that a reply tells, if it is one, with its entry in full. An error is want of memory.
fn denied_in(levels: &[Level], reply: &Reply) -> Result<Option<Denied>, AllocError>
    ensures { IfOk result (λ denied. denied ≡ denied_in levels.now reply.now.content) }
{
    match denial_in(reply) {
        Some(denial) => Ok(Some(denied_of(levels, denial)?)),
        None => Ok(None),
    }
}

/// A copy of a path, if there is one. An error is want of memory.
fn path_if(path: &Option<Path>) -> Result<Option<Path>, AllocError>
    ensures { IfOk result (λ copy. copy ≡ path.now) }
{
    match path {
        Some(path) => Ok(Some(copy_of(path)?)),
        None => Ok(None),
    }
}

/// The line of a request and its reply. The levels are those of the lists in force at the resource of the denial, if the
/// reply is one: its own, its parent's, and so on up to the root. An error is want of memory.
pub fn reply_line(
    alloc: Global,
    exchange: Exchange,
    request: &Request,
    reply: &Reply,
    levels: &[Level],
) -> Result<ReplyLine, AllocError>
    ensures { IfOk result (λ line. line ≡ reply_of exchange request.now reply.now levels.now) }
{
    Ok(ReplyLine {
        path: path_if(&request.path)?,
        destination: path_if(&request.destination)?,
        error: error_of(alloc, reply)?,
        denied: denied_in(levels, reply)?,
        method: Some(request.method),
        status: reply.status,
        time: exchange.time,
        connection: exchange.connection,
        caller: exchange.caller,
        touched: exchange.touched,
        epoch: exchange.epoch,
    })
}
