//! What the requests of the worked list say.

use crate::faults::failures::Failure;
use book_lists::{Caller, Name, Principal, Submitted, Who};
use book_machine::{
    Body, Depth, Flag, Patch, Property, ReportKind, Request, SyncFrom, SyncRequest, Token,
};
use book_office::{Items, Path, Text};
use book_rights::{LeafSet, Method, Privilege};
use std::alloc::{AllocError, Global};

/// An entry that is submitted: whether it denies, its principal form, and the names of its privileges.
pub(crate) type Sent = (bool, &'static str, &'static [&'static str]);

/// What a request says beside its method and its path.
#[derive(Clone, Copy)]
pub(crate) enum Says {
    Nothing,
    /// The text of a card.
    Text(&'static str),
    /// Another label.
    Label,
    /// That bob alone is in the group.
    Members,
    /// The entries of a list.
    List(&'static [Sent]),
    /// So many entries that grant reading to all.
    Readers(usize),
    /// The path of the card that is made or replaced.
    To(&'static str),
    /// The path of the card that is made, and not replaced.
    Beside(&'static str),
    /// What the list in force grants.
    Rights,
    /// The label and the token of the resource and of its children.
    Children,
    /// The changes of the book of sales from the start.
    Changes,
    /// Those after the change of that number, by a token of that epoch.
    ChangesAfter(u64, u64),
    /// The cards to which a group card leads.
    Cards,
    /// The names of the cards of a book.
    Names,
    /// The entries that decide for bob.
    Deciding,
}

/// The principal form that the text names.
fn who(alloc: Global, text: &str) -> Result<Who, Failure> {
    match text {
        "all" => Ok(Who::Everyone),
        "owner" => Ok(Who::Owner),
        path => Ok(Who::Href(principal(alloc, path)?)),
    }
}

/// The person or group of the path.
fn principal(alloc: Global, path: &str) -> Result<Principal, Failure> {
    Principal::parse(alloc, path)?.ok_or(Failure::Wrong("a principal is none"))
}

/// The leaves of the privileges; none where a name is no privilege.
fn set(names: &[&str]) -> Option<LeafSet> {
    let mut set = LeafSet::empty();
    for name in names {
        set = set.union(Privilege::from_name(name)?.leaves());
    }
    Some(set)
}

fn list(alloc: Global, sent: &[Sent]) -> Result<Items<Submitted>, Failure> {
    let mut list = Items::new(alloc);
    for (deny, to, names) in sent {
        list.push(Submitted {
            who: Some(who(alloc, to)?),
            invert: false,
            deny: *deny,
            set: set(names),
            protected: false,
            inherited: false,
        })?;
    }
    Ok(list)
}

fn readers(alloc: Global, count: usize) -> Result<Items<Submitted>, Failure> {
    let mut list = Items::new(alloc);
    for _ in 0..count {
        list.push(Submitted {
            who: Some(who(alloc, "all")?),
            invert: false,
            deny: false,
            set: set(&["read"]),
            protected: false,
            inherited: false,
        })?;
    }
    Ok(list)
}

fn members(alloc: Global) -> Result<Items<Principal>, Failure> {
    let mut members = Items::new(alloc);
    members.push(principal(alloc, "/people/bob")?)?;
    Ok(members)
}

fn properties(alloc: Global, asked: [Property; 2]) -> Result<Items<Property>, AllocError> {
    let [first, second] = asked;
    let mut properties = Items::new(alloc);
    properties.push(first)?;
    properties.push(second)?;
    Ok(properties)
}

fn changes_after(alloc: Global, epoch: u64, number: u64) -> Result<SyncFrom, Failure> {
    let book = Name::parse(alloc, "sales")?.ok_or(Failure::Wrong("a name is none"))?;
    Ok(SyncFrom::After(Token {
        book,
        epoch,
        number,
    }))
}

/// A sync report without a limit.
fn whole(from: SyncFrom) -> SyncRequest {
    SyncRequest { from, limit: None }
}

fn report(alloc: Global, says: Says) -> Result<ReportKind, Failure> {
    Ok(match says {
        Says::ChangesAfter(epoch, number) => {
            ReportKind::SyncCollection(whole(changes_after(alloc, epoch, number)?))
        }
        Says::Cards => ReportKind::GroupMembers,
        Says::Names => ReportKind::Names,
        Says::Deciding => ReportKind::Effective(Caller::Known(principal(alloc, "/people/bob")?)),
        _ => ReportKind::SyncCollection(whole(SyncFrom::Start)),
    })
}

fn body(alloc: Global, says: Says) -> Result<Body, Failure> {
    Ok(match says {
        Says::Nothing | Says::To(_) | Says::Beside(_) => Body::Empty,
        Says::Text(text) => Body::Text(Text::copy_of(alloc, text)?),
        Says::Label => Body::Patch(Patch::DisplayName(Text::copy_of(alloc, "Sold")?)),
        Says::Members => Body::Patch(Patch::GroupMembers(members(alloc)?)),
        Says::List(sent) => Body::List(list(alloc, sent)?),
        Says::Readers(count) => Body::List(readers(alloc, count)?),
        Says::Rights => {
            let asked = [Property::Acl, Property::CurrentUserPrivilegeSet];
            Body::Find(properties(alloc, asked)?)
        }
        Says::Children => {
            let asked = [Property::DisplayName, Property::SyncToken];
            Body::Find(properties(alloc, asked)?)
        }
        Says::Changes | Says::ChangesAfter(..) | Says::Cards | Says::Names | Says::Deciding => {
            Body::Report(report(alloc, says)?)
        }
    })
}

/// The path that the text spells.
fn path(alloc: Global, text: &str) -> Result<Path, Failure> {
    Ok(Path::parse(alloc, text)?)
}

/// The path of the card that is made or replaced, if the request says one.
fn destination(alloc: Global, says: Says) -> Result<Option<Path>, Failure> {
    match says {
        Says::To(text) | Says::Beside(text) => Ok(Some(path(alloc, text)?)),
        _ => Ok(None),
    }
}

/// The request of a method at a path.
pub(crate) fn request(
    alloc: Global,
    method: Method,
    at: &str,
    says: Says,
) -> Result<Request, Failure> {
    Ok(Request {
        method,
        path: Some(path(alloc, at)?),
        destination: destination(alloc, says)?,
        overwrite: match says {
            Says::Beside(_) => Flag::No,
            _ => Flag::Yes,
        },
        depth: match says {
            Says::Children => Depth::One,
            _ => Depth::Zero,
        },
        body: body(alloc, says)?,
    })
}
