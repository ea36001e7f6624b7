//! One whole request, and its reply.

ghost use Rattle.std.specs.Prelude.{◌≡◌, ℕ, Option, Some, ◌<◌, List, ◌++◌, length, IfOk, IfErr, IsOk, Ok, OnOk, OnErr};
ghost use Rattle.book_machine.specs.declared.messages.Reply.{Reply as ReplyOf};
ghost use Rattle.book_machine.specs.declared.messages.Request.{Request as RequestOf};
ghost use Rattle.book_wire_targets.specs.Targets.{HasHomes};
ghost use Rattle.book_wire.specs.Connection.{closes_after, wanted_after};
ghost use Rattle.book_wire.specs.Reading.{asked_view};
ghost use Rattle.book_wire.specs.Requests.{caller_name};
ghost use Rattle.book_machine.specs.Laws.{TellingRepliesChangeNothing};
ghost use Rattle.book_wire_serving.specs.Serving.{NotesOwed, NotesRefusal, ServesAny};
ghost use Rattle.book_wire.specs.Sending.{IsBegun, as_sent};
ghost use Rattle.book_wire.specs.Spelling.{spelling};
ghost use Rattle.book_wire.specs.Stream.{IsAskedBy, is_head_method};
ghost use Rattle.book_wire.specs.Turn.{IsTurn, IsPending, StopsBy};

use crate::buffer::Buffer;
use crate::head::{AskedByHead, FieldSpans, Reading, read_head};
use crate::outgoing::Outgoing;
use crate::reply::{name_of, refuse, send, send_unavailable, status_of};
use crate::requests::{caller_name, request_of};
use book_machine::{Request, refusals_change_nothing};
use book_rights::Method;
use book_wire_serving::{Service, StreamFault};
use book_wire_targets::Home;
use matchit::Router;
use std::alloc::Global;

/// What became of the bytes at the front.
#[derive(Clone, Copy, Debug, PartialEq, Eq)]
pub(crate) enum Turn {
    /// They are less than a whole request, and stay so with fewer than these.
    Wait(usize),
    /// A request was answered, and the connection stays.
    Answered,
    /// A request was answered, and the connection closes.
    Last,
    /// No request: the refusal was made, and the connection closes.
    Refused,
}

impl Turn {
    /// With fewer unread bytes than these no further request is whole; none where nothing is known of it.
    pub(crate) fn wanted(self) -> usize
        ensures { result ≡ wanted_after self }
    {
        match self {
            Turn::Wait(wanted) => wanted,
            Turn::Answered | Turn::Last | Turn::Refused => 0,
        }
    }

    /// Whether the connection closes.
    pub(crate) fn closes(self) -> bool
        ensures { result ≡ closes_after self }
    {
        match self {
            Turn::Last | Turn::Refused => true,
            Turn::Wait(_) | Turn::Answered => false,
        }
    }
}

/// Whether a reply to the method has its head alone (RFC 9110, section 9.3.2).
fn is_bare(method: Method) -> bool
    ensures { result ≡ is_head_method method }
{
    match method {
        Method::Head => true,
        Method::Get
        | Method::Options
        | Method::Put
        | Method::Propfind
        | Method::Proppatch
        | Method::Acl
        | Method::Copy
        | Method::Move
        | Method::Delete
        | Method::Mkcol
        | Method::Report => false,
    }
}

/// Hands out that a reply with a content changed nothing, so that `Unavailable` may be told in its place.
fn telling_changes_nothing()
    ensures { TellingRepliesChangeNothing }
{
    refusals_change_nothing();
}

/// Notes the request that was served last. Its reply was added as it was made, or `unavailable` in its place; or nothing, as
/// the fault says, and then the reply is noted that was made.
fn note<M: Service>(service: &mut M, sent: Result<bool, StreamFault>) -> Result<(), StreamFault>
    requires { IfErr sent (λ e. e ≡ StreamFault.Write) }
    ensures noted { NotesOwed (M.serving service.old) (M.serving service.new)
        (M.owed service.old (as_sent sent)) }
    ensures ok { OnOk result (sent ≡ Ok (as_sent sent)) }
    ensures err { IfErr result (λ e. StopsBy e (M.serving service.new)) }
{
    match sent {
        Ok(as_made) => match service.note(as_made) {
            Ok(()) => Ok(()),
            Err(_) => Err(StreamFault::Log),
        },
        Err(fault) => {
            let _ = service.note(true);
            Err(fault)
        }
    }
}

/// Notes a refusal that tells nothing of a request. It was added, or nothing, as the fault says.
fn note_refusal<M: Service>(
    service: &mut M,
    status: u16,
    error: &str,
    sent: Result<(), StreamFault>,
) -> Result<(), StreamFault>
    requires { IfErr sent (λ e. e ≡ StreamFault.Write) }
    ensures noted { NotesRefusal (M.serving service.old) (M.serving service.new) status error.now }
    ensures ok { OnOk result (IsOk sent) }
    ensures err { IfErr result (λ e. StopsBy e (M.serving service.new)) }
{
    let noted = service.note_refusal(status, error);
    match sent {
        Ok(()) => match noted {
            Ok(()) => Ok(()),
            Err(_) => Err(StreamFault::Log),
        },
        Err(fault) => Err(fault),
    }
}

/// Serves a request, makes the reply, and notes it.
fn reply_to<M: Service>(
    alloc: Global,
    service: &mut M,
    out: &mut Outgoing,
    asked: AskedByHead<'_>,
    request: &Request,
) -> Result<(), StreamFault>
    requires { length out.old < 8192 }
    ensures ok { OnOk result ((reply : ReplyOf)
        × ServesAny (M.serving service.old) (M.serving service.new)
        (caller_name (asked_view asked.entry).caller) (Some request.now) reply
        × (out.new ≡ out.old ++ spelling reply
        (is_head_method asked.entry.method) asked.entry.closes)) }
    ensures err { IfErr result (λ e. StopsBy e (M.serving service.new) × ((reply : ReplyOf)
        × ServesAny (M.serving service.old) (M.serving service.new)
        (caller_name (asked_view asked.entry).caller) (Some request.now) reply
        × IsBegun out.old (spelling reply (is_head_method asked.entry.method)
        asked.entry.closes) out.new)) }
{
    telling_changes_nothing();
    let reply = service.serve(alloc, caller_name(asked.caller), request);
    let sent = send(alloc, out, reply, is_bare(asked.method), asked.closes);
    note(service, sent)
}

/// Serves the request that a head and a body spell, makes the reply, and notes it: unavailable where memory is refused before
/// the request is read.
fn answer<M: Service>(
    alloc: Global,
    service: &mut M,
    router: &Router<Home>,
    out: &mut Outgoing,
    asked: AskedByHead<'_>,
    body: &[u8],
) -> Result<(), StreamFault>
    requires homes { HasHomes router.now }
    requires few { length out.old < 8192 }
    ensures ok { OnOk result ((request : Option RequestOf) × (reply : ReplyOf)
        × IsAskedBy (asked_view asked.entry) body.now request reply
        × ServesAny (M.serving service.old) (M.serving service.new)
        (caller_name (asked_view asked.entry).caller) request reply
        × (out.new ≡ out.old ++ spelling reply
        (is_head_method asked.entry.method) asked.entry.closes)) }
    ensures err { IfErr result (λ e. StopsBy e (M.serving service.new)
        × ((request : Option RequestOf) × (reply : ReplyOf)
        × IsAskedBy (asked_view asked.entry) body.now request reply
        × ServesAny (M.serving service.old) (M.serving service.new)
        (caller_name (asked_view asked.entry).caller) request reply
        × IsBegun out.old (spelling reply (is_head_method asked.entry.method)
        asked.entry.closes) out.new)) }
{
    match request_of(alloc, router, &asked, body) {
        Ok(request) => reply_to(alloc, service, out, asked, &request),
        Err(_) => {
            let sent = send_unavailable(out, is_bare(asked.method), asked.closes);
            note_refusal(service, 503, "unavailable", sent)
        }
    }
}

/// Answers the request at the front, if it is whole.
pub(crate) fn answer_one<M: Service>(
    alloc: Global,
    service: &mut M,
    router: &Router<Home>,
    out: &mut Outgoing,
    headers: &mut FieldSpans,
    buffer: &mut Buffer,
) -> Result<Turn, StreamFault>
    requires homes { HasHomes router.now }
    requires few { length out.old < 8192 }
    ensures ok { IfOk result (λ turn. (written : List ℕ) × (out.new ≡ out.old ++ written)
        × IsTurn (M.serving service.old) buffer.old written turn
        (M.serving service.new) buffer.new) }
    ensures err { IfErr result (λ e. StopsBy e (M.serving service.new)
        × ((pending : List ℕ) × IsPending (M.serving service.old) buffer.old pending
        (M.serving service.new) × IsBegun out.old pending out.new)) }
    ensures kept { OnErr result (buffer.new ≡ buffer.old) }
{
    let unread = buffer.unread();
    match read_head(unread, headers) {
        Reading::Partial => Ok(Turn::Wait(unread.len() + 1)),
        Reading::Refused(refusal, bare) => {
            let sent = refuse(out, refusal, bare);
            match note_refusal(service, status_of(refusal), name_of(refusal), sent) {
                Ok(()) => Ok(Turn::Refused),
                Err(fault) => Err(fault),
            }
        }
        Reading::Whole(asked, head) => {
            if unread.len() - head < asked.length {
                return Ok(Turn::Wait(head + asked.length));
            }
            let whole = head + asked.length;
            let closes = asked.closes;
            match answer(alloc, service, router, out, asked, &unread[head..whole]) {
                Ok(()) => {
                    buffer.consume(whole);
                    Ok(if closes { Turn::Last } else { Turn::Answered })
                }
                Err(fault) => Err(fault),
            }
        }
    }
}
