//! A body of a request, told in words.

use book_lists::{Caller, Submitted, Who};
use book_machine::{Body, Patch, Property, ReportKind, SyncFrom, SyncRequest};
use book_rights::{Leaf, LeafSet};
use book_wire_json::body_of;
use book_wire_targets::method_named;
use std::alloc::Global;
use std::process::Abort;

fn tell_who(rt: &impl Abort, answer: &mut String, who: &Option<Who>) {
    let word = match who {
        None => "nobody known",
        Some(Who::Everyone) => "everyone",
        Some(Who::Authenticated) => "known callers",
        Some(Who::Unauthenticated) => "unknown callers",
        Some(Who::Owner) => "the owner",
        Some(Who::Own) => "itself",
        Some(Who::Href(principal)) => principal.text(),
    };
    answer.push_str(word).expect(rt, "memory");
}

fn tell_leaves(rt: &impl Abort, answer: &mut String, set: LeafSet) {
    for leaf in Leaf::ALL {
        if set.has(leaf) {
            answer.push(' ').expect(rt, "memory");
            answer.push_str(leaf.name()).expect(rt, "memory");
        }
    }
}

fn tell_entry(rt: &impl Abort, answer: &mut String, entry: &Submitted) {
    let action = if entry.deny { "; deny " } else { "; grant " };
    answer.push_str(action).expect(rt, "memory");
    if entry.invert {
        answer.push_str("all but ").expect(rt, "memory");
    }
    tell_who(rt, answer, &entry.who);
    match entry.set {
        Some(set) => tell_leaves(rt, answer, set),
        None => answer.push_str(" unknown").expect(rt, "memory"),
    }
    if entry.protected {
        answer.push_str(", protected").expect(rt, "memory");
    }
    if entry.inherited {
        answer.push_str(", inherited").expect(rt, "memory");
    }
}

fn property_word(property: Property) -> &'static str {
    match property {
        Property::DisplayName => " label",
        Property::ResourceType => " kind",
        Property::Owner => " owner",
        Property::Acl => " list",
        Property::CurrentUserPrivilegeSet => " privileges",
        Property::GroupMemberSet => " members",
        Property::SyncToken => " token",
    }
}

fn tell_sync(rt: &impl Abort, answer: &mut String, asked: &SyncRequest) {
    match &asked.from {
        SyncFrom::Start => answer
            .push_str("changes from the start")
            .expect(rt, "memory"),
        SyncFrom::Unknown => answer
            .push_str("changes from no token")
            .expect(rt, "memory"),
        SyncFrom::After(token) => {
            let book = token.book.text();
            let epoch = token.epoch;
            let number = token.number;
            write!(answer, "changes of {book} in {epoch} after {number}").expect(rt, "memory")
        }
    }
    if let Some(limit) = &asked.limit {
        let count = limit.count();
        write!(answer, ", at most {count}").expect(rt, "memory");
    }
}

fn tell_report(rt: &impl Abort, answer: &mut String, report: &ReportKind) {
    match report {
        ReportKind::GroupMembers => answer.push_str("group members").expect(rt, "memory"),
        ReportKind::Names => answer.push_str("names").expect(rt, "memory"),
        ReportKind::Effective(Caller::Nobody) => {
            answer.push_str("effective for nobody").expect(rt, "memory")
        }
        ReportKind::Effective(Caller::Known(person)) => {
            let person = person.text();
            write!(answer, "effective for {person}").expect(rt, "memory")
        }
        ReportKind::SyncCollection(asked) => tell_sync(rt, answer, asked),
    }
}

fn tell_patch(rt: &impl Abort, answer: &mut String, patch: &Patch) {
    match patch {
        Patch::DisplayName(label) => {
            let label = label.as_str();
            write!(answer, "label {label:?}").expect(rt, "memory")
        }
        Patch::GroupMembers(members) => {
            answer.push_str("members").expect(rt, "memory");
            for member in members.as_slice() {
                let member = member.text();
                write!(answer, " {member}").expect(rt, "memory");
            }
        }
    }
}

fn tell(rt: &impl Abort, answer: &mut String, body: &Body) {
    match body {
        Body::Empty => answer.push_str("empty").expect(rt, "memory"),
        Body::Unread => answer.push_str("unread").expect(rt, "memory"),
        Body::Text(text) => {
            let text = text.as_str();
            write!(answer, "text {text:?}").expect(rt, "memory")
        }
        Body::Find(properties) => {
            answer.push_str("find").expect(rt, "memory");
            for property in properties.as_slice() {
                answer
                    .push_str(property_word(*property))
                    .expect(rt, "memory");
            }
        }
        Body::Patch(patch) => tell_patch(rt, answer, patch),
        Body::List(entries) => {
            answer.push_str("list").expect(rt, "memory");
            for entry in entries.as_slice() {
                tell_entry(rt, answer, entry);
            }
        }
        Body::Report(report) => tell_report(rt, answer, report),
    }
}

/// What these bytes are as the body of a request of the method with this name.
pub(crate) fn told(rt: &impl Abort, alloc: Global, method: &str, bytes: &[u8]) -> String {
    let method = method_named(method.as_bytes()).expect(rt, "a method");
    let body = body_of(alloc, method, bytes).expect(rt, "memory");
    let mut answer = String::new(alloc);
    tell(rt, &mut answer, &body);
    drop(body);
    answer
}
