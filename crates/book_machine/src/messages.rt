//! Requests and replies.

ghost use Rattle.book_machine.specs.Asking.{HasPath, HasTexts, IsWellFormed};

use crate::allowed_methods::AllowedMethods;
use crate::refusals::Refusal;
use book_lists::{Caller, Name, Principal, Submitted};
use book_office::{Items, Path, Text};
use book_office_listings::{Property, Response, Ruling};
use book_office_members::{Members, NamedCard};
use book_office_sync::{Limit, Report, Token};
use book_rights::Method;

/// The field Overwrite (RFC 4918, section 10.6), as it was read.
#[derive(Clone, Copy, Debug, PartialEq, Eq)]
pub enum Flag {
    /// `T`, or no field.
    Yes,
    /// `F`.
    No,
    /// Anything else.
    Unread,
}

/// The field Depth (RFC 4918, section 10.2), as it was read.
#[derive(Clone, Copy, Debug, PartialEq, Eq)]
pub enum Depth {
    /// `0`, or no field.
    Zero,
    /// `1`.
    One,
    /// Anything else.
    Unread,
}

/// What a PROPPATCH sets (RFC 4918, section 9.2).
#[derive(Debug, Drop)]
pub enum Patch {
    /// `displayname`: the label.
    DisplayName(Text),
    /// `group-member-set`: the direct members of a group.
    GroupMembers(Items<Principal>),
}

/// From where a sync report is asked (RFC 6578, section 3.2).
#[derive(Debug, Drop)]
pub enum SyncFrom {
    /// The empty token: from the start.
    Start,
    /// After the point in a book's history that a token names.
    After(Token),
    /// A text that is no token.
    Unknown,
}

/// What a sync report is asked for.
#[derive(Debug, Drop)]
pub struct SyncRequest {
    /// From where.
    pub from: SyncFrom,
    /// How many items at most (RFC 6578, section 3.7); none where the client sets no limit.
    pub limit: Option<Limit>,
}

/// Which report is asked (RFC 3253, section 3.6).
#[derive(Debug, Drop)]
pub enum ReportKind {
    /// `sync-collection`: what changed in a book (RFC 6578, section 3.2).
    SyncCollection(SyncRequest),
    /// `group-members`: the cards to which a group card leads (own profile).
    GroupMembers,
    /// `effective`: the entries that decide each leaf for a person, or for nobody (own profile).
    Effective(Caller),
    /// `names`: the names of a book's cards that may be read, also where the texts may not (own profile).
    Names,
}

/// The body of a request, as it was read.
#[derive(Debug, Drop)]
pub enum Body {
    /// No bytes.
    Empty,
    /// The text of a card.
    Text(Text),
    /// The properties that a PROPFIND asks for, in their order.
    Find(Items<Property>),
    /// What a PROPPATCH sets.
    Patch(Patch),
    /// The list that an ACL puts in place of the own list.
    List(Items<Submitted>),
    /// The report that is asked.
    Report(ReportKind),
    /// A body that could not be read.
    Unread,
}

/// A request.
#[derive(Debug, Drop)]
pub struct Request {
    /// What is asked.
    pub method: Method,
    /// The resource that is asked for; none where its text was no path.
    pub path: Option<Path>,
    /// The path of the field Destination (RFC 4918, section 10.3); none where there is no such field, or its text was
    /// no path.
    pub destination: Option<Path>,
    /// The field Overwrite.
    pub overwrite: Flag,
    /// The field Depth.
    pub depth: Depth,
    /// The body.
    pub body: Body,
}

impl Request {
    /// Hands out the rule that each request meets: the names of its paths are names, and the texts of its body are UTF-8.
    pub(crate) fn known(&self)
        ensures { IsWellFormed self.now }
    {
        has_path(&self.path);
        has_path(&self.destination);
        has_texts(&self.body);
    }
}

/// What a reply carries.
#[derive(Debug, Drop)]
pub enum Content {
    /// Nothing.
    Empty,
    /// The text of a card.
    Card(Text),
    /// The methods that the resource allows.
    Allow(AllowedMethods),
    /// What a PROPFIND tells of each resource, in order (RFC 4918, section 9.1).
    Listing(Items<Response>),
    /// What changed in a book (RFC 6578, section 3.2).
    Synced(Report),
    /// The name of a book, and the members of one of its cards (own profile).
    Members(Name, Members),
    /// What decides each leaf, in the order of the leaves (own profile).
    Rulings(Items<Ruling>),
    /// The name of a book, and its cards with their names (own profile).
    Names(Name, Items<NamedCard>),
    /// Why the request was refused.
    Refusal(Refusal),
}

/// A reply.
#[derive(Debug, Drop)]
pub struct Reply {
    /// The status (RFC 9110, section 15; RFC 4918, section 11).
    pub status: u16,
    /// What it carries.
    pub content: Content,
}

/// Hands out that the names of a path are names.
fn has_path(path: &Option<Path>)
    ensures { HasPath path.now }
{
    if let Some(path) = path {
        path.known();
    }
}

/// Hands out that the text of a card and a label are UTF-8.
fn has_texts(body: &Body)
    ensures { HasTexts body.now }
{
    match body {
        Body::Text(text) => text.known(),
        Body::Patch(Patch::DisplayName(label)) => label.known(),
        Body::Empty
        | Body::Find(_)
        | Body::Patch(Patch::GroupMembers(_))
        | Body::List(_)
        | Body::Report(_)
        | Body::Unread => {}
    }
}
