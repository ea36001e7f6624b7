//! What a request asks, read from its method and its body.

ghost use Rattle.std.specs.Prelude.{◌≡◌, [], IfOk};
ghost use Rattle.book_machine.specs.Asked.{acl_asked, asked_of, copy_asked, destination_asked, destination_by, each_once, find_asked, find_asked_to, is_card, is_empty, method_of, mkcol_asked, move_asked, patch_asked, properties_asked, proppatch_asked, put_asked, report_asked, destination_path};
ghost use Rattle.book_machine.specs.Asking.{Meets};

use crate::finding::{find_of, may_be_asked, usual_find};
use crate::messages::{Body, Depth, Flag, Patch, ReportKind, Request, SyncFrom, SyncRequest};
use crate::refusals::Refusal;
use book_limits::{MAX_LABEL_BYTES, MAX_MEMBERS};
use book_lists::{Name, Principal, Submitted};
use book_office::{Items, Path, Text};
use book_office_listings::{Extent, Find, Property};
use book_office_sync::Token;
use book_rights::Method;
use std::alloc::{AllocError, Global};
use std::collections::BTreeSet;

/// The card that a COPY or MOVE makes or replaces (RFC 4918, sections 9.8 and 9.9).
#[derive(Debug, Drop)]
pub struct Destination {
    /// The name of its book.
    pub book: Name,
    /// The name of the card.
    pub card: Name,
    /// Whether a card of that name may be replaced (RFC 4918, section 10.6).
    pub overwrite: bool,
}

impl Destination {
    /// The path of the card. An error is want of memory.
    pub(crate) fn path(&self) -> Result<Path, AllocError>
        ensures { IfOk result (λ p. p ≡ destination_path self.now) }
    {
        Ok(Path::Card(self.book.clone()?, self.card.clone()?))
    }
}

/// What a request asks, by its method. No later stage looks at the body again.
#[derive(Debug, Drop)]
pub enum Asked {
    /// GET: the text of a card.
    Get,
    /// HEAD: the same without the text.
    Head,
    /// OPTIONS: the methods that the resource allows.
    Options,
    /// PUT: the text of a card.
    Put(Text),
    /// PROPFIND: properties of a resource, and perhaps of its children.
    Propfind(Find),
    /// PROPPATCH: the label of a resource, or the direct members of a group.
    Proppatch(Patch),
    /// ACL: the list that takes the place of the own list.
    Acl(Items<Submitted>),
    /// COPY: of a card.
    Copy(Destination),
    /// MOVE: of a card.
    Move(Destination),
    /// DELETE: of a card or a book.
    Delete,
    /// MKCOL: a new book.
    Mkcol,
    /// REPORT: which report.
    Report(ReportKind),
}

impl Asked {
    /// The method of the request. Takes no memory.
    pub fn method(&self) -> Method
        ensures { result ≡ method_of self.now }
    {
        match self {
            Asked::Get => Method::Get,
            Asked::Head => Method::Head,
            Asked::Options => Method::Options,
            Asked::Put(_) => Method::Put,
            Asked::Propfind(_) => Method::Propfind,
            Asked::Proppatch(_) => Method::Proppatch,
            Asked::Acl(_) => Method::Acl,
            Asked::Copy(_) => Method::Copy,
            Asked::Move(_) => Method::Move,
            Asked::Delete => Method::Delete,
            Asked::Mkcol => Method::Mkcol,
            Asked::Report(_) => Method::Report,
        }
    }
}

/// A PUT: its text; the empty text where there is no body.
fn put_asked(alloc: Global, body: &Body) -> Result<Asked, Refusal>
    ensures { Meets result (put_asked body.now) }
{
    match body {
        Body::Empty => Ok(Asked::Put(Text::from_string(String::new(alloc)))),
        Body::Text(text) => Ok(Asked::Put(text.clone()?)),
        Body::Find(_) | Body::Patch(_) | Body::List(_) | Body::Report(_) | Body::Unread => {
            Err(Refusal::BadRequest)
        }
    }
}

/// The properties of a PROPFIND, within their bounds.
fn properties_asked(
    alloc: Global,
    extent: Extent,
    properties: &[Property],
) -> Result<Asked, Refusal>
    ensures { Meets result (properties_asked extent properties.now) }
{
    if !may_be_asked(properties) {
        return Err(Refusal::BadRequest);
    }
    Ok(Asked::Propfind(find_of(alloc, extent, properties)?))
}

/// A PROPFIND of some depth: its properties; the usual ones where there is no body (RFC 4918, section 9.1).
fn find_asked_to(alloc: Global, extent: Extent, body: &Body) -> Result<Asked, Refusal>
    ensures { Meets result (find_asked_to extent body.now) }
{
    match body {
        Body::Empty => Ok(Asked::Propfind(usual_find(alloc, extent)?)),
        Body::Find(properties) => properties_asked(alloc, extent, properties.as_slice()),
        Body::Text(_) | Body::Patch(_) | Body::List(_) | Body::Report(_) | Body::Unread => {
            Err(Refusal::BadRequest)
        }
    }
}

/// A PROPFIND: its depth is 0 or 1 (RFC 4918, section 10.2).
fn find_asked(alloc: Global, depth: Depth, body: &Body) -> Result<Asked, Refusal>
    ensures { Meets result (find_asked depth body.now) }
{
    match depth {
        Depth::Zero => find_asked_to(alloc, Extent::Resource, body),
        Depth::One => find_asked_to(alloc, Extent::Children, body),
        Depth::Unread => Err(Refusal::BadRequest),
    }
}

/// The principals of a set, in byte order.
fn in_order(alloc: Global, principals: BTreeSet<Principal>) -> Result<Items<Principal>, AllocError>
    ensures { IfOk result (λ list. list ≡ principals.keys) }
{
    let mut list = Vec::with_capacity(alloc, principals.len())?;
    for principal in principals {
        list.push(principal)?;
    }
    Ok(Items::from_vec(list))
}

/// The members of a list in byte order, each once.
fn each_once(alloc: Global, members: &[Principal]) -> Result<Items<Principal>, AllocError>
    ensures { IfOk result (λ list. list ≡ each_once members.now) }
{
    let mut once = BTreeSet::new(alloc);
    for member in members {
        once.insert(member.clone()?)?;
    }
    in_order(alloc, once)
}

/// What a PROPPATCH sets, within its bounds.
fn patch_asked(alloc: Global, patch: &Patch) -> Result<Asked, Refusal>
    ensures { Meets result (patch_asked patch.now) }
{
    match patch {
        Patch::DisplayName(label) => {
            if label.len() > MAX_LABEL_BYTES {
                return Err(Refusal::BadRequest);
            }
            Ok(Asked::Proppatch(Patch::DisplayName(label.clone()?)))
        }
        Patch::GroupMembers(members) => {
            let members = each_once(alloc, members.as_slice())?;
            if members.len() > MAX_MEMBERS {
                return Err(Refusal::BadRequest);
            }
            Ok(Asked::Proppatch(Patch::GroupMembers(members)))
        }
    }
}

/// A PROPPATCH sets one property (RFC 4918, section 9.2).
fn proppatch_asked(alloc: Global, body: &Body) -> Result<Asked, Refusal>
    ensures { Meets result (proppatch_asked body.now) }
{
    match body {
        Body::Patch(patch) => patch_asked(alloc, patch),
        Body::Empty
        | Body::Text(_)
        | Body::Find(_)
        | Body::List(_)
        | Body::Report(_)
        | Body::Unread => Err(Refusal::BadRequest),
    }
}

/// A copy of an entry as it was submitted.
pub(crate) fn copy_of_entry(entry: &Submitted) -> Result<Submitted, AllocError>
    ensures { IfOk result (λ copy. copy ≡ entry.now) }
{
    Ok(Submitted {
        who: entry.who.clone()?,
        invert: entry.invert,
        deny: entry.deny,
        set: entry.set,
        protected: entry.protected,
        inherited: entry.inherited,
    })
}

/// A copy of a list as it was submitted.
fn copy_of_list(alloc: Global, list: &[Submitted]) -> Result<Items<Submitted>, AllocError>
    ensures { IfOk result (λ copy. copy ≡ list.now) }
{
    let mut copy = Vec::with_capacity(alloc, list.len())?;
    for entry in list {
        copy.push(copy_of_entry(entry)?)?;
    }
    Ok(Items::from_vec(copy))
}

/// An ACL has a list (RFC 3744, section 8.1).
fn acl_asked(alloc: Global, body: &Body) -> Result<Asked, Refusal>
    ensures { Meets result (acl_asked body.now) }
{
    match body {
        Body::List(list) => Ok(Asked::Acl(copy_of_list(alloc, list.as_slice())?)),
        Body::Empty
        | Body::Text(_)
        | Body::Find(_)
        | Body::Patch(_)
        | Body::Report(_)
        | Body::Unread => Err(Refusal::BadRequest),
    }
}

/// A MKCOL has no body (RFC 4918, section 9.3).
fn mkcol_asked(body: &Body) -> Result<Asked, Refusal>
    ensures { result ≡ mkcol_asked body.now }
{
    match body {
        Body::Empty => Ok(Asked::Mkcol),
        Body::Text(text) => {
            if text.as_str().is_empty() {
                Ok(Asked::Mkcol)
            } else {
                Err(Refusal::BodyOnMkcol)
            }
        }
        Body::Find(_) | Body::Patch(_) | Body::List(_) | Body::Report(_) | Body::Unread => {
            Err(Refusal::BodyOnMkcol)
        }
    }
}

/// A copy of a token.
fn copy_of_token(token: &Token) -> Result<Token, AllocError>
    ensures { IfOk result (λ copy. copy ≡ token.now) }
{
    Ok(Token {
        book: token.book.clone()?,
        epoch: token.epoch,
        number: token.number,
    })
}

/// A copy of the place from which a sync report is asked.
fn copy_of_place(from: &SyncFrom) -> Result<SyncFrom, AllocError>
    ensures { IfOk result (λ copy. copy ≡ from.now) }
{
    match from {
        SyncFrom::Start => Ok(SyncFrom::Start),
        SyncFrom::After(token) => Ok(SyncFrom::After(copy_of_token(token)?)),
        SyncFrom::Unknown => Ok(SyncFrom::Unknown),
    }
}

/// A copy of what a sync report is asked for.
fn copy_of_sync(asked: &SyncRequest) -> Result<SyncRequest, AllocError>
    ensures { IfOk result (λ copy. copy ≡ asked.now) }
{
    Ok(SyncRequest {
        from: copy_of_place(&asked.from)?,
        limit: asked.limit.clone()?,
    })
}

/// A copy of the report that is asked.
fn copy_of_kind(kind: &ReportKind) -> Result<ReportKind, AllocError>
    ensures { IfOk result (λ copy. copy ≡ kind.now) }
{
    match kind {
        ReportKind::SyncCollection(asked) => Ok(ReportKind::SyncCollection(copy_of_sync(asked)?)),
        ReportKind::GroupMembers => Ok(ReportKind::GroupMembers),
        ReportKind::Effective(caller) => Ok(ReportKind::Effective(caller.clone()?)),
        ReportKind::Names => Ok(ReportKind::Names),
    }
}

/// A REPORT names a report (RFC 3253, section 3.6).
fn report_asked(body: &Body) -> Result<Asked, Refusal>
    ensures { Meets result (report_asked body.now) }
{
    match body {
        Body::Report(kind) => Ok(Asked::Report(copy_of_kind(kind)?)),
        Body::Empty
        | Body::Text(_)
        | Body::Find(_)
        | Body::Patch(_)
        | Body::List(_)
        | Body::Unread => Err(Refusal::BadRequest),
    }
}

/// Whether a path is that of the card.
fn is_card(book: &Name, card: &Name, path: &Option<Path>) -> bool
    ensures { result ≡ is_card book.now card.now path.now }
{
    match path {
        Some(Path::Card(b, c)) => b == book && c == card,
        None
        | Some(Path::Root)
        | Some(Path::People)
        | Some(Path::Groups)
        | Some(Path::Books)
        | Some(Path::Person(_))
        | Some(Path::Group(_))
        | Some(Path::Book(_)) => false,
    }
}

/// A card as a destination.
fn destination_to(book: &Name, card: &Name, overwrite: bool) -> Result<Destination, AllocError>
    ensures { IfOk result (λ to. to ≡ record
        { book = book.now; card = card.now; overwrite = overwrite }) }
{
    Ok(Destination {
        book: book.clone()?,
        card: card.clone()?,
        overwrite,
    })
}

/// A card as a destination, where the field Overwrite was read (RFC 4918, section 10.6).
fn destination_by(book: &Name, card: &Name, overwrite: Flag) -> Result<Destination, Refusal>
    ensures { Meets result (destination_by book.now card.now overwrite) }
{
    match overwrite {
        Flag::Yes => Ok(destination_to(book, card, true)?),
        Flag::No => Ok(destination_to(book, card, false)?),
        Flag::Unread => Err(Refusal::BadRequest),
    }
}

/// A destination is the path of a card, other than the source (RFC 4918, section 10.3).
fn destination_asked(
    source: &Option<Path>,
    overwrite: Flag,
    destination: &Option<Path>,
) -> Result<Destination, Refusal>
    ensures { Meets result (destination_asked source.now overwrite destination.now) }
{
    match destination {
        Some(Path::Card(book, card)) => {
            if is_card(book, card, source) {
                return Err(Refusal::BadRequest);
            }
            destination_by(book, card, overwrite)
        }
        None
        | Some(Path::Root)
        | Some(Path::People)
        | Some(Path::Groups)
        | Some(Path::Books)
        | Some(Path::Person(_))
        | Some(Path::Group(_))
        | Some(Path::Book(_)) => Err(Refusal::BadRequest),
    }
}

/// A COPY: where to.
fn copy_asked(request: &Request) -> Result<Asked, Refusal>
    ensures { Meets result
        (copy_asked (destination_asked request.now.path request.now.overwrite
        request.now.destination)) }
{
    Ok(Asked::Copy(destination_asked(&request.path, request.overwrite, &request.destination)?))
}

/// A MOVE: where to.
fn move_asked(request: &Request) -> Result<Asked, Refusal>
    ensures { Meets result
        (move_asked (destination_asked request.now.path request.now.overwrite
        request.now.destination)) }
{
    Ok(Asked::Move(destination_asked(&request.path, request.overwrite, &request.destination)?))
}

/// What a request asks: its body is one that its method takes, the depth of a PROPFIND one that was read, and the
/// destination of a COPY or MOVE another card. Bodies of methods that take none are not looked at, but for MKCOL.
pub(crate) fn asked_of(alloc: Global, method: Method, request: &Request) -> Result<Asked, Refusal>
    ensures { Meets result (asked_of method request.now) }
{
    match method {
        Method::Get => Ok(Asked::Get),
        Method::Head => Ok(Asked::Head),
        Method::Options => Ok(Asked::Options),
        Method::Put => put_asked(alloc, &request.body),
        Method::Propfind => find_asked(alloc, request.depth, &request.body),
        Method::Proppatch => proppatch_asked(alloc, &request.body),
        Method::Acl => acl_asked(alloc, &request.body),
        Method::Copy => copy_asked(request),
        Method::Move => move_asked(request),
        Method::Delete => Ok(Asked::Delete),
        Method::Mkcol => mkcol_asked(&request.body),
        Method::Report => report_asked(&request.body),
    }
}
