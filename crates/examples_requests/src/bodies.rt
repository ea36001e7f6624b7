//! The bodies of requests, as the words of a line after its path say them.
//!
//! - `find NAME ..` are the properties that a PROPFIND asks for, at depth 0; `find-children NAME ..` at depth 1, and
//!   `find-all NAME ..` at a depth that was not read; `children` is no body at depth 1;
//! - nothing is no body, `unread` one that could not be read, and a name of `words` or any other word a text;
//! - `label TEXT` and `label-of NUMBER`, so many bytes, are labels;
//! - `members PATH ..`, `persons NUMBER` and `persons-twice NUMBER` are lists of members;
//! - `sync` asks for the report on a book from the start, and `sync TOKEN` after a token; `page LIMIT` and
//!   `page LIMIT TOKEN` ask for so many items of it; `group-members` asks for the
//!   members of a card, `names` for the names of the cards of a book, and `effective` and `effective PERSON` for what
//!   decides each leaf for nobody and for a person;
//! - `list ENTRY ; ENTRY ..` is a list of entries, and `entries NUMBER` so many that let all read. An entry is
//!   `grant WHO NAME ..` or `deny WHO NAME ..`, with `not WHO` for `WHO`, and perhaps `protected` or `inherited` before it.

use crate::words::{form, number, principal, text, text_named, word};
use book_lists::{Caller, Principal, Submitted, Who};
use book_machine::{Body, Depth, Limit, Patch, Property, ReportKind, SyncFrom, SyncRequest, Token};
use book_office::Items;
use book_rights::{LeafSet, Privilege};
use std::alloc::Global;
use std::process::Abort;

/// The depth of the request of a line.
pub(crate) fn depth(line: &str) -> Depth {
    match word(line, 3) {
        "find-children" | "children" => Depth::One,
        "find-all" => Depth::Unread,
        _ => Depth::Zero,
    }
}

/// The property of this name.
fn property(word: &str) -> Option<Property> {
    match word {
        "displayname" => Some(Property::DisplayName),
        "resourcetype" => Some(Property::ResourceType),
        "owner" => Some(Property::Owner),
        "acl" => Some(Property::Acl),
        "current-user-privilege-set" => Some(Property::CurrentUserPrivilegeSet),
        "group-member-set" => Some(Property::GroupMemberSet),
        "sync-token" => Some(Property::SyncToken),
        _ => None,
    }
}

/// The properties that stand after the word `find`.
fn properties(rt: &impl Abort, alloc: Global, line: &str) -> Items<Property> {
    let mut properties = Items::new(alloc);
    for word in line.split(' ').skip(4) {
        let property = property(word).expect(rt, "a property");
        properties.push(property).expect(rt, "memory");
    }
    properties
}

/// A label of so many bytes.
fn long_label(rt: &impl Abort, alloc: Global, bytes: u64) -> String {
    let mut label = String::new(alloc);
    for _ in 0..bytes {
        label.push('x').expect(rt, "memory");
    }
    label
}

/// The principals that stand after the word `members`.
fn members(rt: &impl Abort, alloc: Global, line: &str) -> Items<Principal> {
    let mut members = Items::new(alloc);
    for word in line.split(' ').skip(4) {
        members
            .push(principal(rt, alloc, word))
            .expect(rt, "memory");
    }
    members
}

/// Adds so many persons.
fn add_persons(rt: &impl Abort, alloc: Global, persons: &mut Items<Principal>, count: u64) {
    for number in 0..count {
        let path = format!(in alloc; "/people/p{number}").expect(rt, "memory");
        persons
            .push(principal(rt, alloc, path.as_str()))
            .expect(rt, "memory");
    }
}

/// So many persons, each so many times.
fn persons(rt: &impl Abort, alloc: Global, count: u64, times: u64) -> Items<Principal> {
    let mut persons = Items::new(alloc);
    for _ in 0..times {
        add_persons(rt, alloc, &mut persons, count);
    }
    persons
}

/// The principal form of a word; none where it is no form and no path of a person or a group.
fn who(rt: &impl Abort, alloc: Global, word: &str) -> Option<Who> {
    if let Some(form) = form(word) {
        return Some(form);
    }
    match Principal::parse(alloc, word).expect(rt, "memory") {
        Some(principal) => Some(Who::Href(principal)),
        None => None,
    }
}

/// The leaves of the privileges after so many words; none where one is no privilege.
fn set(part: &str, words: usize) -> Option<LeafSet> {
    let mut set = LeafSet::empty();
    for name in part.split(' ').skip(words) {
        set = set.union(Privilege::from_name(name)?.leaves());
    }
    Some(set)
}

fn submitted(rt: &impl Abort, alloc: Global, part: &str) -> Submitted {
    let protected = word(part, 0) == "protected";
    let inherited = word(part, 0) == "inherited";
    let action = if protected || inherited { 1 } else { 0 };
    let invert = word(part, action + 1) == "not";
    let form = if invert { action + 2 } else { action + 1 };
    Submitted {
        who: who(rt, alloc, word(part, form)),
        invert,
        deny: word(part, action) == "deny",
        set: set(part, form + 1),
        protected,
        inherited,
    }
}

/// The entries that stand after the word `list`.
fn list(rt: &impl Abort, alloc: Global, line: &str) -> Items<Submitted> {
    let mut list = Items::new(alloc);
    if let Some((_, parts)) = line.split_once(" list ") {
        for part in parts.split(" ; ") {
            list.push(submitted(rt, alloc, part)).expect(rt, "memory");
        }
    }
    list
}

fn entries(rt: &impl Abort, alloc: Global, count: u64) -> Items<Submitted> {
    let mut list = Items::new(alloc);
    for _ in 0..count {
        let entry = submitted(rt, alloc, "grant all read");
        list.push(entry).expect(rt, "memory");
    }
    list
}

/// What a PROPPATCH sets, if the line says it.
fn patch(rt: &impl Abort, alloc: Global, line: &str) -> Option<Patch> {
    let said = word(line, 4);
    match word(line, 3) {
        "label" => Some(Patch::DisplayName(text(rt, alloc, said))),
        "label-of" => {
            let label = long_label(rt, alloc, number(rt, said));
            Some(Patch::DisplayName(text(rt, alloc, label.as_str())))
        }
        "members" => Some(Patch::GroupMembers(members(rt, alloc, line))),
        "persons" => Some(Patch::GroupMembers(persons(rt, alloc, number(rt, said), 1))),
        "persons-twice" => Some(Patch::GroupMembers(persons(rt, alloc, number(rt, said), 2))),
        _ => None,
    }
}

/// From where a sync report is asked: from the start, after a token, or at a text that is none.
fn place(rt: &impl Abort, alloc: Global, word: &str) -> SyncFrom {
    if word.is_empty() {
        return SyncFrom::Start;
    }
    match Token::parse(alloc, word).expect(rt, "memory") {
        Some(token) => SyncFrom::After(token),
        None => SyncFrom::Unknown,
    }
}

/// A sync report from a place, with a limit if the line says one.
fn sync(rt: &impl Abort, alloc: Global, place_word: &str, limit: &str) -> ReportKind {
    let limit = match limit {
        "" => None,
        said => Some(Limit::new(number(rt, said)).expect(rt, "a limit")),
    };
    ReportKind::SyncCollection(SyncRequest {
        from: place(rt, alloc, place_word),
        limit,
    })
}

/// Who is asked about: nobody, or a person.
fn asked_about(rt: &impl Abort, alloc: Global, word: &str) -> Caller {
    if word.is_empty() {
        return Caller::Nobody;
    }
    Caller::Known(principal(rt, alloc, word))
}

/// The report that the line asks for, if it asks for one.
fn report(rt: &impl Abort, alloc: Global, line: &str) -> Option<ReportKind> {
    match word(line, 3) {
        "sync" => Some(sync(rt, alloc, word(line, 4), "")),
        "page" => Some(sync(rt, alloc, word(line, 5), word(line, 4))),
        "group-members" => Some(ReportKind::GroupMembers),
        "effective" => Some(ReportKind::Effective(asked_about(rt, alloc, word(line, 4)))),
        "names" => Some(ReportKind::Names),
        _ => None,
    }
}

/// The body of the request of a line.
pub(crate) fn body(rt: &impl Abort, alloc: Global, line: &str) -> Body {
    if let Some(patch) = patch(rt, alloc, line) {
        return Body::Patch(patch);
    }
    if let Some(report) = report(rt, alloc, line) {
        return Body::Report(report);
    }
    match word(line, 3) {
        "" | "children" => Body::Empty,
        "find" | "find-children" | "find-all" => Body::Find(properties(rt, alloc, line)),
        "unread" => Body::Unread,
        "list" => Body::List(list(rt, alloc, line)),
        "entries" => Body::List(entries(rt, alloc, number(rt, word(line, 4)))),
        word => Body::Text(text(rt, alloc, text_named(word))),
    }
}
