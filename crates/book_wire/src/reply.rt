//! The bytes of replies (RFC 9112, section 4).

ghost use Rattle.std.specs.Prelude.{◌≡◌, ◌≢◌, ℕ, ◌+◌, ◌≤◌, ◌<◌, true, false, List, ◌++◌, [], length, IfOk, OnOk, OnErr, IfErr};
ghost use Rattle.arrayvec.specs.ArrayString.{array_string_len};
ghost use Rattle.book_machine.specs.AllowedMethods.{allowed_text};
ghost use Rattle.book_machine.specs.Refusals as machine;
ghost use Rattle.book_machine.specs.declared.messages.Content.TheVariants as contents;
ghost use Rattle.book_machine.specs.declared.messages.Reply.{Reply as ReplyOf};
ghost use Rattle.book_machine.specs.declared.refusals.Refusal.TheVariants.{Unavailable};
ghost use Rattle.book_wire.specs.Sending.{IsChunk, IsSentAs, allowed_line, is_there};
ghost use Rattle.book_wire.specs.Spelling.{allow_line, body_bytes, close_line, head_text, json_line, length_line, refusal_text, refused_allow, sent_text, spelling, type_line, wire_body, wire_name, wire_status};

use crate::bodies::{Chunk, LongBody, MAX_REPLY_HEAD, first_chunk};
use crate::head::WireRefusal;
use crate::outgoing::Outgoing;
use arrayvec::ArrayString;
use book_machine::{AllowedMethods, Content, Refusal, Reply};
use book_wire_serving::StreamFault;
use book_wire_targets::phrase;
use itoa::Buffer;
use std::alloc::{AllocError, Global};

type ReplyHead = ArrayString<MAX_REPLY_HEAD>;

/// The methods that a refusal lists (RFC 9110, section 15.5.6).
fn refused_methods(refusal: &Refusal) -> Option<AllowedMethods>
    ensures { allowed_line result ≡ refused_allow refusal.now }
{
    match refusal {
        Refusal::NotAllowed(methods) => Some(*methods),
        Refusal::BadRequest
        | Refusal::UnknownCaller
        | Refusal::BadCard(_)
        | Refusal::NeedPrivileges(_)
        | Refusal::NoProtectedAceConflict
        | Refusal::NoInheritedAceConflict
        | Refusal::LimitedNumberOfAces
        | Refusal::NotSupportedPrivilege
        | Refusal::RecognizedPrincipal
        | Refusal::ValidSyncToken
        | Refusal::NotFound
        | Refusal::NoParent
        | Refusal::Overwrite
        | Refusal::BodyOnMkcol
        | Refusal::Full
        | Refusal::Unavailable => None,
    }
}

/// The methods that a content lists.
fn allowed(content: &Content) -> Option<AllowedMethods>
    ensures { allowed_line result ≡ allow_line content.now }
{
    match content {
        Content::Allow(methods) => Some(*methods),
        Content::Refusal(refusal) => refused_methods(refusal),
        Content::Empty
        | Content::Card(_)
        | Content::Listing(_)
        | Content::Synced(_)
        | Content::Members(_, _)
        | Content::Rulings(_)
        | Content::Names(_, _) => None,
    }
}

/// The field Allow (RFC 9110, section 10.2.1), where methods are listed.
fn push_allow_line(text: &mut ReplyHead, allowed: Option<AllowedMethods>)
    requires { array_string_len text.old ≤ 100 }
    ensures bytes { text.new.bytes ≡ text.old.bytes ++ allowed_line allowed }
    ensures len { array_string_len text.new ≤ array_string_len text.old + 120 }
{
    if let Some(methods) = allowed {
        text.push_str("Allow: ");
        text.push_str(short_text(methods));
        text.push_str("\r\n");
    }
}

fn short_text(methods: AllowedMethods) -> &'static str
    ensures value { result.now ≡ allowed_text methods }
    ensures short { length result.now ≤ 100 }
{
    methods.text()
}

/// The field Content-Type (RFC 9110, section 8.3), where there is a body, and of a card for HEAD.
fn type_line_of(content: &Content, bare: bool) -> &'static str
    ensures value { result.now ≡ type_line content.now bare }
    ensures short { length result.now ≤ 50 }
{
    match content {
        Content::Card(_) => "Content-Type: text/vcard; charset=utf-8\r\n",
        Content::Listing(_)
        | Content::Synced(_)
        | Content::Members(_, _)
        | Content::Rulings(_)
        | Content::Names(_, _)
        | Content::Refusal(_) => json_line_of(bare),
        Content::Empty | Content::Allow(_) => "",
    }
}

/// The type of JSON, where it is sent.
fn json_line_of(bare: bool) -> &'static str
    ensures value { result.now ≡ json_line bare }
    ensures short { length result.now ≤ 50 }
{
    if bare {
        ""
    } else {
        "Content-Type: application/json\r\n"
    }
}

/// The field Connection (RFC 9112, section 9.6), where the connection closes.
fn close_line_of(closes: bool) -> &'static str
    ensures value { result.now ≡ close_line closes }
    ensures short { length result.now ≤ 40 }
{
    if closes { "Connection: close\r\n" } else { "" }
}

/// The field Content-Length (RFC 9110, section 8.6). A 204 has none.
fn push_length_line(text: &mut ReplyHead, status: u16, size: usize)
    requires { array_string_len text.old ≤ 300 }
    ensures bytes { text.new.bytes ≡ text.old.bytes ++ length_line status size }
    ensures len { array_string_len text.new ≤ array_string_len text.old + 60 }
{
    if status != 204 {
        let mut digits = Buffer::new();
        text.push_str("Content-Length: ");
        text.push_str(digits.format(size));
        text.push_str("\r\n");
    }
}

/// Pushes the head of a reply whose body has that length. It takes no memory.
#[tactic(auto, unfolding(crate::specs::Spelling::head_text))]
fn push_head(
    text: &mut ReplyHead,
    status: u16,
    allowed: Option<AllowedMethods>,
    kind: &str,
    size: usize,
    closes: bool,
)
    requires empty { text.old.bytes ≡ [] }
    requires short { length kind.now ≤ 50 }
    ensures { text.new.bytes ≡ head_text status (allowed_line allowed) kind.now size closes }
{
    let mut digits = Buffer::new();
    text.push_str("HTTP/1.1 ");
    text.push_str(digits.format(status));
    text.push_str(" ");
    text.push_str(phrase(status));
    text.push_str("\r\n");
    push_allow_line(text, allowed);
    text.push_str(kind);
    push_length_line(text, status, size);
    text.push_str(close_line_of(closes));
    text.push_str("\r\n");
}

/// Whether the bytes of the body are in the reply already, or there are none.
fn is_there(content: &Content) -> bool
    ensures { result ≡ is_there content.now }
{
    match content {
        Content::Empty | Content::Card(_) | Content::Allow(_) => true,
        Content::Listing(_)
        | Content::Synced(_)
        | Content::Members(_, _)
        | Content::Rulings(_)
        | Content::Names(_, _)
        | Content::Refusal(_) => false,
    }
}

/// The bytes of a body that are in the reply already.
fn bytes_there(content: &Content) -> &[u8]
    requires { is_there content.now ≡ true }
    ensures { result.now ≡ body_bytes content.now }
{
    match content {
        Content::Card(text) => text.as_str().as_bytes(),
        Content::Empty
        | Content::Allow(_)
        | Content::Listing(_)
        | Content::Synced(_)
        | Content::Members(_, _)
        | Content::Rulings(_)
        | Content::Names(_, _)
        | Content::Refusal(_) => &[],
    }
}

/// A bare reply has its head alone (RFC 9110, section 9.3.2).
fn sent_body(body: &[u8], bare: bool) -> &[u8]
    ensures { result.now ≡ sent_text body.now bare }
{
    if bare { &[] } else { body }
}

/// Adds a reply whose body is in it already, or that has none. An error is want of memory, and adds nothing.
#[tactic(auto, unfolding(crate::specs::Spelling::spelling))]
fn put_there(out: &mut Outgoing, reply: &Reply, bare: bool, closes: bool) -> Result<(), AllocError>
    requires few { length out.old < 8192 }
    requires there { is_there reply.now.content ≡ true }
    ensures ok { OnOk result (out.new ≡ out.old ++ spelling reply.now bare closes) }
    ensures err { OnErr result (out.new ≡ out.old) }
{
    let body = bytes_there(&reply.content);
    let mut text = ArrayString::new();
    push_head(
        &mut text,
        reply.status,
        allowed(&reply.content),
        type_line_of(&reply.content, bare),
        body.len(),
        closes,
    );
    out.put(text.as_bytes(), sent_body(body, bare))
}

/// Adds a reply whose first chunk was made. What is left of the body is made while it is sent, in memory that is taken
/// here. An error is want of memory, and adds nothing.
#[tactic(auto, unfolding(crate::specs::Spelling::spelling))]
fn put_chunk(
    out: &mut Outgoing,
    reply: Reply,
    chunk: Chunk,
    bare: bool,
    closes: bool,
) -> Result<(), AllocError>
    requires few { length out.old < 8192 }
    requires made { is_there reply.content ≡ false }
    requires chunk { IsChunk reply.content chunk.text.items chunk.next chunk.size }
    ensures ok { OnOk result (out.new ≡ out.old ++ spelling reply bare closes) }
    ensures err { OnErr result (out.new ≡ out.old) }
{
    let Reply { status, content } = reply;
    let mut text = ArrayString::new();
    push_head(
        &mut text,
        status,
        allowed(&content),
        type_line_of(&content, bare),
        chunk.size,
        closes,
    );
    if bare {
        return out.put(text.as_bytes(), &[]);
    }
    out.reserve(chunk.room())?;
    let left = LongBody::rest(content, chunk.next, chunk.memory);
    out.put_long(text.as_bytes(), chunk.text.as_slice(), left)
}

/// Adds a reply. An error is want of memory, and adds nothing.
fn put_reply(
    alloc: Global,
    out: &mut Outgoing,
    reply: Reply,
    bare: bool,
    closes: bool,
) -> Result<(), AllocError>
    requires { length out.old < 8192 }
    ensures ok { OnOk result (out.new ≡ out.old ++ spelling reply bare closes) }
    ensures err { OnErr result (out.new ≡ out.old) }
{
    if is_there(&reply.content) {
        return put_there(out, &reply, bare, closes);
    }
    match first_chunk(alloc, &reply.content) {
        Ok(chunk) => put_chunk(out, reply, chunk, bare, closes),
        Err(error) => Err(error),
    }
}

/// The body of the refusal that comes where memory is refused. Takes no memory.
#[tactic(auto, unfolding(serde_json::proofs::OnLiterals::serde_json_on_literals))]
fn unavailable_text() -> &'static [u8]
    ensures { result.now ≡ body_bytes (contents.Refusal Unavailable) }
{
    b"{\"error\":\"unavailable\"}"
}

/// Adds that memory was refused or the store failed. An error is want of memory, and adds nothing.
#[tactic(auto, unfolding(crate::specs::Spelling::spelling, serde_json::proofs::OnLiterals::serde_json_on_literals))]
fn put_unavailable(out: &mut Outgoing, bare: bool, closes: bool) -> Result<(), AllocError>
    requires { length out.old < 8192 }
    ensures ok { OnOk result (out.new ≡ out.old ++ spelling
        (machine.refused Unavailable) bare closes) }
    ensures err { OnErr result (out.new ≡ out.old) }
{
    let body = unavailable_text();
    let mut text = ArrayString::new();
    push_head(&mut text, 503, None, json_line_of(bare), body.len(), closes);
    out.put(text.as_bytes(), sent_body(body, bare))
}

/// Adds that memory was refused or the store failed, or nothing where there is no memory for that.
pub(crate) fn send_unavailable(
    out: &mut Outgoing,
    bare: bool,
    closes: bool,
) -> Result<(), StreamFault>
    requires { length out.old < 8192 }
    ensures ok { OnOk result (out.new ≡ out.old ++ spelling
        (machine.refused Unavailable) bare closes) }
    ensures err { IfErr result (λ e. (e ≡ StreamFault.Write) × (out.new ≡ out.old)) }
{
    match put_unavailable(out, bare, closes) {
        Ok(()) => Ok(()),
        Err(_) => Err(StreamFault::Write),
    }
}

/// The status (RFC 9110, section 15; RFC 6585, section 5).
pub(crate) fn status_of(refusal: WireRefusal) -> u16
    ensures { result ≡ wire_status refusal }
{
    match refusal {
        WireRefusal::BadHead => 400,
        WireRefusal::HeadTooLarge => 431,
        WireRefusal::BodyTooLarge => 413,
        WireRefusal::NotImplemented => 501,
    }
}

/// The name of the refusal.
pub(crate) fn name_of(refusal: WireRefusal) -> &'static str
    ensures { result.now ≡ wire_name refusal }
{
    match refusal {
        WireRefusal::BadHead => "bad-head",
        WireRefusal::HeadTooLarge => "head-too-large",
        WireRefusal::BodyTooLarge => "body-too-large",
        WireRefusal::NotImplemented => "not-implemented",
    }
}

/// The body, as JSON.
fn text_of(refusal: WireRefusal) -> &'static [u8]
    ensures { result.now ≡ wire_body refusal }
{
    match refusal {
        WireRefusal::BadHead => b"{\"error\":\"bad-head\"}",
        WireRefusal::HeadTooLarge => b"{\"error\":\"head-too-large\"}",
        WireRefusal::BodyTooLarge => b"{\"error\":\"body-too-large\"}",
        WireRefusal::NotImplemented => b"{\"error\":\"not-implemented\"}",
    }
}

/// Adds a refusal in place of a reply, which closes the connection. An error is want of memory, and adds nothing.
#[tactic(auto, unfolding(crate::specs::Spelling::refusal_text))]
fn put_refusal(out: &mut Outgoing, refusal: WireRefusal, bare: bool) -> Result<(), AllocError>
    requires { length out.old < 8192 }
    ensures ok { OnOk result (out.new ≡ out.old ++ refusal_text refusal bare) }
    ensures err { OnErr result (out.new ≡ out.old) }
{
    let body = text_of(refusal);
    let mut text = ArrayString::new();
    push_head(
        &mut text,
        status_of(refusal),
        None,
        json_line_of(bare),
        body.len(),
        true,
    );
    out.put(text.as_bytes(), sent_body(body, bare))
}

/// Adds a refusal in place of a reply, which closes the connection, or nothing where there is no memory for that.
pub(crate) fn refuse(
    out: &mut Outgoing,
    refusal: WireRefusal,
    bare: bool,
) -> Result<(), StreamFault>
    requires { length out.old < 8192 }
    ensures ok { OnOk result (out.new ≡ out.old ++ refusal_text refusal bare) }
    ensures err { IfErr result (λ e. (e ≡ StreamFault.Write) × (out.new ≡ out.old)) }
{
    match put_refusal(out, refusal, bare) {
        Ok(()) => Ok(()),
        Err(_) => Err(StreamFault::Write),
    }
}

/// Whether a reply has a content; a reply to an edit has none.
fn has_content(content: &Content) -> bool
    ensures { result ≡ true → content.now ≢ contents.Empty }
{
    match content {
        Content::Empty => false,
        Content::Card(_)
        | Content::Allow(_)
        | Content::Listing(_)
        | Content::Synced(_)
        | Content::Members(_, _)
        | Content::Rulings(_)
        | Content::Names(_, _)
        | Content::Refusal(_) => true,
    }
}

/// Adds a reply that was made, or, where there is no memory for it, one that it is unavailable. A reply to an edit has no
/// body, and nothing is told in its place. It says whether the reply itself was added.
pub(crate) fn send(
    alloc: Global,
    out: &mut Outgoing,
    reply: Reply,
    bare: bool,
    closes: bool,
) -> Result<bool, StreamFault>
    requires { length out.old < 8192 }
    ensures ok { IfOk result (λ as_made. (sent : ReplyOf) × IsSentAs as_made reply sent
        × (out.new ≡ out.old ++ spelling sent bare closes)) }
    ensures err { IfErr result (λ e. (e ≡ StreamFault.Write) × (out.new ≡ out.old)) }
{
    let telling = has_content(&reply.content);
    match put_reply(alloc, out, reply, bare, closes) {
        Ok(()) => Ok(true),
        Err(_) => {
            if telling {
                return match send_unavailable(out, bare, closes) {
                    Ok(()) => Ok(false),
                    Err(fault) => Err(fault),
                };
            }
            Err(StreamFault::Write)
        }
    }
}
