//! Requests, and the texts of their replies.

use crate::bodies::{body, depth};
use crate::moves::{destination, overwrite};
use crate::names::tell_named;
use crate::own_reports::{tell_members, tell_rulings};
use crate::responses::{tell_listing, tell_report};
use crate::words::{method, word};
use book_cards::CardFault;
use book_machine::{Content, Denial, Machine, Refusal, Reply, Request};
use book_office::{Keeper, Path};
use std::alloc::Global;
use std::process::Abort;

/// The caller's name; none at a dash.
pub(crate) fn caller(line: &str) -> Option<&str> {
    match word(line, 0) {
        "-" => None,
        name => Some(name),
    }
}

pub(crate) fn request(rt: &impl Abort, alloc: Global, line: &str) -> Request {
    Request {
        method: method(word(line, 1)).expect(rt, "a method"),
        path: Path::parse(alloc, word(line, 2)).ok(),
        destination: destination(alloc, line),
        overwrite: overwrite(line),
        depth: depth(line),
        body: body(rt, alloc, line),
    }
}

/// The privilege, the resource, and the entry: where it stands, and its number.
pub(crate) fn tell_denial(rt: &impl Abort, alloc: Global, denial: &Denial) -> String {
    let privilege = denial.privilege.name();
    let resource = denial.resource.text(alloc).expect(rt, "memory");
    match &denial.entry {
        Some(entry) => {
            let from = entry.from.text(alloc).expect(rt, "memory");
            let number = entry.number;
            format!(in alloc; " {privilege} {resource} {from} {number}").expect(rt, "memory")
        }
        None => format!(in alloc; " {privilege} {resource} null").expect(rt, "memory"),
    }
}

fn tell_fault(rt: &impl Abort, alloc: Global, fault: CardFault) -> String {
    let kind = fault.kind;
    let line = fault.line;
    format!(in alloc; " {kind} {line}").expect(rt, "memory")
}

fn tell_details(rt: &impl Abort, alloc: Global, refusal: &Refusal) -> String {
    match refusal {
        Refusal::BadCard(fault) => tell_fault(rt, alloc, *fault),
        Refusal::NotAllowed(methods) => {
            let methods = methods.text();
            format!(in alloc; " {methods}").expect(rt, "memory")
        }
        Refusal::NeedPrivileges(denial) => tell_denial(rt, alloc, denial.denial()),
        _ => String::new(alloc),
    }
}

fn tell_refusal(rt: &impl Abort, alloc: Global, refusal: &Refusal) -> String {
    let name = refusal.name();
    let details = tell_details(rt, alloc, refusal);
    format!(in alloc; " {name}{details}").expect(rt, "memory")
}

fn tell_content(rt: &impl Abort, alloc: Global, content: &Content) -> String {
    match content {
        Content::Empty => String::new(alloc),
        Content::Card(text) => {
            let text = text.as_str();
            format!(in alloc; " {text}").expect(rt, "memory")
        }
        Content::Allow(methods) => {
            let methods = methods.text();
            format!(in alloc; " allow {methods}").expect(rt, "memory")
        }
        Content::Listing(responses) => tell_listing(rt, alloc, responses.as_slice()),
        Content::Synced(report) => tell_report(rt, alloc, report),
        Content::Members(book, members) => tell_members(rt, alloc, book, members),
        Content::Rulings(rulings) => tell_rulings(rt, alloc, rulings.as_slice()),
        Content::Names(book, names) => tell_named(rt, alloc, book, names.as_slice()),
        Content::Refusal(refusal) => tell_refusal(rt, alloc, refusal),
    }
}

/// The status, and what the reply carries.
pub(crate) fn tell(rt: &impl Abort, alloc: Global, reply: &Reply) -> String {
    let status = reply.status;
    let content = tell_content(rt, alloc, &reply.content);
    format!(in alloc; "{status}{content}").expect(rt, "memory")
}

/// The reply to the request of a line.
pub(crate) fn served<K: Keeper>(
    rt: &impl Abort,
    alloc: Global,
    machine: &mut Machine<K>,
    line: &str,
) -> String {
    let request = request(rt, alloc, line);
    let reply = machine.serve(alloc, caller(line), &request);
    let told = tell(rt, alloc, &reply);
    drop(reply);
    drop(request);
    told
}
