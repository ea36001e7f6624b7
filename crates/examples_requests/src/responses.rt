//! The texts of what PROPFIND and REPORT tell.
//!
//! Each resource has a line: `200 PATH | NAME VALUE | ..` where its properties are told, and `403` with the denial
//! where they are not. An entry of `acl` ends with a semicolon, and says `from PATH` where it stands at an ancestor.
//!
//! A sync report has a line for each name, `NUMBER NAME [LABEL] BYTES bytes` or `NUMBER NAME removed`, and then its token.

use crate::asking::tell_who;
use crate::serving::tell_denial;
use book_lists::Principal;
use book_machine::{AclEntry, Item, PropertyValue, Report, Response};
use book_office::{Items, Path};
use book_rights::Privilege;
use std::alloc::Global;
use std::process::Abort;

fn tell_names(rt: &impl Abort, answer: &mut String, names: &[Privilege]) {
    for privilege in names {
        let name = privilege.name();
        write!(answer, " {name}").expect(rt, "memory");
    }
}

fn tell_entry(rt: &impl Abort, alloc: Global, answer: &mut String, entry: &AclEntry) {
    let protected = if entry.protected { " protected" } else { "" };
    let action = if entry.deny { "deny" } else { "grant" };
    let not = if entry.invert { " not" } else { "" };
    let who = tell_who(&entry.who);
    write!(answer, "{protected} {action}{not} {who}").expect(rt, "memory");
    tell_names(rt, answer, entry.privileges.as_slice());
    if let Some(from) = &entry.inherited {
        let from = from.text(alloc).expect(rt, "memory");
        write!(answer, " from {from}").expect(rt, "memory");
    }
    answer.push(';').expect(rt, "memory");
}

fn tell_acl(rt: &impl Abort, alloc: Global, answer: &mut String, entries: &[AclEntry]) {
    for entry in entries {
        tell_entry(rt, alloc, answer, entry);
    }
}

fn tell_each(rt: &impl Abort, answer: &mut String, members: &[Principal]) {
    for member in members {
        let member = member.text();
        write!(answer, " {member}").expect(rt, "memory");
    }
}

/// The direct members; null where the resource is no group.
fn tell_members(rt: &impl Abort, answer: &mut String, members: &Option<Items<Principal>>) {
    match members {
        Some(members) => tell_each(rt, answer, members.as_slice()),
        None => answer.push_str(" null").expect(rt, "memory"),
    }
}

fn tell_value(rt: &impl Abort, alloc: Global, answer: &mut String, value: &PropertyValue) {
    match value {
        PropertyValue::DisplayName(label) => {
            let label = label.as_str();
            write!(answer, " | displayname [{label}]").expect(rt, "memory");
        }
        PropertyValue::ResourceType(kind) => {
            write!(answer, " | resourcetype {kind:?}").expect(rt, "memory");
        }
        PropertyValue::Owner(owner) => {
            let owner = owner.as_ref().map_or("null", |owner| owner.text());
            write!(answer, " | owner {owner}").expect(rt, "memory");
        }
        PropertyValue::Acl(entries) => {
            answer.push_str(" | acl").expect(rt, "memory");
            tell_acl(rt, alloc, answer, entries.as_slice());
        }
        PropertyValue::CurrentUserPrivilegeSet(names) => {
            answer.push_str(" | privileges").expect(rt, "memory");
            tell_names(rt, answer, names.as_slice());
        }
        PropertyValue::GroupMemberSet(members) => {
            answer.push_str(" | members").expect(rt, "memory");
            tell_members(rt, answer, members);
        }
        PropertyValue::SyncToken(Some(token)) => {
            let token = token.text(alloc).expect(rt, "memory");
            write!(answer, " | sync-token {token}").expect(rt, "memory");
        }
        PropertyValue::SyncToken(None) => {
            answer.push_str(" | sync-token null").expect(rt, "memory");
        }
    }
}

fn tell_properties(
    rt: &impl Abort,
    alloc: Global,
    answer: &mut String,
    path: &Path,
    properties: &[PropertyValue],
) {
    let path = path.text(alloc).expect(rt, "memory");
    write!(answer, "\n200 {path}").expect(rt, "memory");
    for value in properties {
        tell_value(rt, alloc, answer, value);
    }
}

fn tell_response(rt: &impl Abort, alloc: Global, answer: &mut String, response: &Response) {
    match response {
        Response::Told { path, properties } => {
            tell_properties(rt, alloc, answer, path, properties.as_slice());
        }
        Response::Denied(denial) => {
            let denial = tell_denial(rt, alloc, denial);
            write!(answer, "\n403{denial}").expect(rt, "memory");
        }
    }
}

/// A line for each resource.
pub(crate) fn tell_listing(rt: &impl Abort, alloc: Global, responses: &[Response]) -> String {
    let mut answer = String::new(alloc);
    for response in responses {
        tell_response(rt, alloc, &mut answer, response);
    }
    answer
}

fn tell_item(rt: &impl Abort, answer: &mut String, item: &Item) {
    let number = item.number;
    let name = item.name.text();
    match &item.found {
        Some(found) => {
            let label = found.label.as_str();
            let len = found.text.len();
            write!(answer, "\n{number} {name} [{label}] {len} bytes").expect(rt, "memory");
        }
        None => write!(answer, "\n{number} {name} removed").expect(rt, "memory"),
    }
}

/// A line for each name, and then the token.
pub(crate) fn tell_report(rt: &impl Abort, alloc: Global, report: &Report) -> String {
    let mut answer = String::new(alloc);
    for item in report.items.as_slice() {
        tell_item(rt, &mut answer, item);
    }
    let token = report.token.text(alloc).expect(rt, "memory");
    let more = if report.truncated { " more" } else { "" };
    write!(answer, "\n{token}{more}").expect(rt, "memory");
    answer
}
