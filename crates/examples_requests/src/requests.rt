//! Requests of several callers, and their replies.

use crate::checks::{check_fact, check_text};
use crate::scripts::{Step, follow, run_on, run_on_new};
use crate::serving::{caller, request, tell};
use book_machine::{
    Machine, Reply, Request, granted_reports_are_told, refusals_change_nothing,
    requests_act_where_granted, requests_are_full_at_limits, requests_have_one_step, runs_lead_on,
    unread_contents_stay_unseen,
};
use book_office::{Keeper, MemoryKeeper};
use std::alloc::Global;
use std::process::Abort;

/// A card may be bound by who may not write it; a card that is not there is told before any privilege.
const BOUND_CARDS: &[Step] = &[
    ("bob PUT /books/sales/b.vcf BO", "201"),
    (
        "bob PUT /books/sales/b.vcf BO",
        "403 need-privileges write-content /books/sales/b.vcf null",
    ),
    ("gus GET /books/sales/none.vcf", "404 not-found"),
    (
        "gus GET /books/sales/b.vcf",
        "403 need-privileges read /books/sales/b.vcf null",
    ),
    (
        "bob GET /books/sales/b.vcf",
        "200 BEGIN:VCARD\r\nVERSION:4.0\r\nFN:Bo\r\nEND:VCARD\r\n",
    ),
    ("ann PUT /books/sales/b.vcf BELL", "204"),
];

/// A card is kept byte for byte; a text that is none is refused with its fault and line.
const CARDS: &[Step] = &[
    ("adopt office", "changed, epoch 1"),
    ("ann PUT /books/sales/f.vcf BELL", "201"),
    (
        "ann GET /books/sales/f.vcf",
        "200 BEGIN:VCARD\nVERSION:4.0\nFN:An\n n Bell\nEND:VCARD",
    ),
    (
        "ann HEAD /books/sales/f.vcf",
        "200 BEGIN:VCARD\nVERSION:4.0\nFN:An\n n Bell\nEND:VCARD",
    ),
    (
        "ann PUT /books/sales/x.vcf OTHER_VERSION",
        "400 bad-card other-version 2",
    ),
    (
        "ann PUT /books/sales/x.vcf MEMBER_WITHOUT_GROUP",
        "400 bad-card member-without-group 4",
    ),
    (
        "ann PUT /books/sales/x.vcf TWO_UIDS",
        "400 bad-card twice 4",
    ),
    ("ann PUT /books/sales/x.vcf", "400 bad-card no-begin 1"),
    ("ann PUT /books/sales/x.vcf unread", "400 bad-request"),
    ("ann GET /books/sales/x.vcf", "404 not-found"),
    ("ann DELETE /books/sales/f.vcf", "204"),
    ("ann GET /books/sales/f.vcf", "404 not-found"),
    ("changes sales 0", "2 f.vcf removed\n"),
    ("failures", "0"),
];

#[test]
fn cards_are_kept_byte_for_byte(rt: HostRuntime) {
    run_on_new(&rt, rt.alloc(), CARDS);
}

/// Owning a book grants nothing by itself. A book that is removed and made again begins anew.
const BOOKS: &[Step] = &[
    ("adopt office", "changed, epoch 1"),
    (
        "ann DELETE /books/sales",
        "403 need-privileges unbind /books null",
    ),
    ("adopt wider", "changed, epoch 2"),
    ("ann MKCOL /books/new", "201"),
    ("ann PUT /books/new/a.vcf BO", "201"),
    (
        "ann GET /books/new/a.vcf",
        "403 need-privileges read /books/new/a.vcf null",
    ),
    ("ann DELETE /books/new", "204"),
    ("ann GET /books/new/a.vcf", "404 not-found"),
    ("epoch", "3"),
    ("ann MKCOL /books/new", "201"),
    (
        "ann MKCOL /books/new",
        "405 not-allowed ACL, DELETE, OPTIONS, PROPFIND, PROPPATCH, REPORT",
    ),
    ("node /books/new", "Book 0 of /people/ann []"),
    ("changes new 0", ""),
    ("epoch", "3"),
];

#[test]
fn a_book_made_again_begins_anew(rt: HostRuntime) {
    run_on_new(&rt, rt.alloc(), BOOKS);
}

/// Everything is granted to staff and to nobody, in books and at their home.
const OPEN: &[&str] = &[
    "own /books grant /groups/staff all",
    "own /books grant unauthenticated all",
    "own /books/sales/b.vcf grant /people/gus read",
];

/// PUT makes a card of the caller with an empty label and an empty own list, and MKCOL such a book; nobody owns what
/// nobody makes. Of a card that is there the text alone is replaced: its owner, its label and its own list stay.
const MADE: &[Step] = &[
    (
        "node /books/sales/b.vcf",
        "Card 2 of /people/bob [B] 47 bytes",
    ),
    ("ann PUT /books/sales/b.vcf BO", "204"),
    (
        "node /books/sales/b.vcf",
        "Card 3 of /people/bob [B] 44 bytes",
    ),
    ("- PUT /books/sales/a.vcf BELL", "204"),
    (
        "node /books/sales/a.vcf",
        "Card 4 of /people/ann [A] 47 bytes",
    ),
    ("bob PUT /books/sales/c.vcf BELL", "201"),
    (
        "node /books/sales/c.vcf",
        "Card 5 of /people/bob [] 47 bytes",
    ),
    ("- PUT /books/sales/d.vcf BO", "201"),
    ("node /books/sales/d.vcf", "Card 6 of nobody [] 44 bytes"),
    (
        "children /books/sales",
        "a.vcf: Card 4 of /people/ann [A]\n\
         b.vcf: Card 3 of /people/bob [B]\n\
         b.vcf own grant /people/gus read\n\
         c.vcf: Card 5 of /people/bob []\n\
         d.vcf: Card 6 of nobody []\n",
    ),
    ("node /books/sales", "Book 6 of /people/ann [Sales]"),
    ("bob MKCOL /books/new", "201"),
    ("- MKCOL /books/other", "201"),
    (
        "children /books",
        "law: Book 0 of nobody []\n\
         new: Book 0 of /people/bob []\n\
         other: Book 0 of nobody []\n\
         sales: Book 6 of /people/ann [Sales]\n",
    ),
    ("bob DELETE /books/sales/b.vcf", "204"),
    ("gus GET /books/sales/b.vcf", "404 not-found"),
    ("ann PUT /books/sales/b.vcf BO", "201"),
    (
        "node /books/sales/b.vcf",
        "Card 8 of /people/ann [] 44 bytes",
    ),
    (
        "lists /books/sales/b.vcf",
        "/books own grant /groups/staff all\n/books own grant unauthenticated all\n",
    ),
    ("epoch", "0"),
];

#[test]
fn what_is_made_is_the_callers(rt: HostRuntime) {
    run_on(&rt, rt.alloc(), OPEN, MADE);
}

/// Each kind allows its methods; so does a path at which nothing is mapped.
const ALLOWED: &[Step] = &[
    ("gus OPTIONS /", "200 allow ACL, OPTIONS, PROPFIND, REPORT"),
    (
        "gus OPTIONS /people",
        "200 allow ACL, OPTIONS, PROPFIND, REPORT",
    ),
    (
        "gus OPTIONS /groups/",
        "200 allow ACL, OPTIONS, PROPFIND, REPORT",
    ),
    (
        "gus OPTIONS /books",
        "200 allow ACL, OPTIONS, PROPFIND, REPORT",
    ),
    (
        "gus OPTIONS /people/ann",
        "200 allow ACL, OPTIONS, PROPFIND, PROPPATCH, REPORT",
    ),
    (
        "gus OPTIONS /groups/staff",
        "200 allow ACL, OPTIONS, PROPFIND, PROPPATCH, REPORT",
    ),
    (
        "gus OPTIONS /books/law unread",
        "200 allow ACL, DELETE, OPTIONS, PROPFIND, PROPPATCH, REPORT",
    ),
    (
        "gus OPTIONS /books/sales/a.vcf",
        "200 allow ACL, COPY, DELETE, GET, HEAD, MOVE, OPTIONS, PROPFIND, PROPPATCH, PUT, REPORT",
    ),
    (
        "gus GET /books",
        "405 not-allowed ACL, OPTIONS, PROPFIND, REPORT",
    ),
    (
        "gus HEAD /books/sales",
        "405 not-allowed ACL, DELETE, OPTIONS, PROPFIND, PROPPATCH, REPORT",
    ),
    (
        "gus DELETE /people/ann",
        "405 not-allowed ACL, OPTIONS, PROPFIND, PROPPATCH, REPORT",
    ),
    (
        "gus DELETE /",
        "405 not-allowed ACL, OPTIONS, PROPFIND, REPORT",
    ),
    (
        "gus PUT /groups/staff BO",
        "405 not-allowed ACL, OPTIONS, PROPFIND, PROPPATCH, REPORT",
    ),
    (
        "gus MKCOL /books/sales/a.vcf",
        "405 not-allowed ACL, COPY, DELETE, GET, HEAD, MOVE, OPTIONS, PROPFIND, PROPPATCH, PUT, REPORT",
    ),
    (
        "gus MKCOL /books/sales/",
        "405 not-allowed ACL, DELETE, OPTIONS, PROPFIND, PROPPATCH, REPORT",
    ),
    ("gus MKCOL /books/sales/new.vcf", "405 not-allowed PUT"),
    ("gus MKCOL /books/none/new.vcf", "409 no-parent"),
    ("gus MKCOL /people/zoe", "404 not-found"),
    ("gus PUT /books/new BO", "405 not-allowed MKCOL"),
    ("gus PUT /books/none/x.vcf BO", "409 no-parent"),
    ("gus PUT /groups/none BO", "404 not-found"),
    ("gus OPTIONS /books/new", "404 not-found"),
    ("gus GET /cellar", "404 not-found"),
];

#[test]
fn each_kind_allows_its_methods(rt: HostRuntime) {
    run_on(&rt, rt.alloc(), &["own / grant all read"], ALLOWED);
}

/// Of several refusals the first in this order is told: the caller, the shape, the path, the needs, the body, the
/// limits.
const IN_ORDER: &[Step] = &[
    ("zoe MKCOL /cellar x", "400 unknown-caller"),
    ("no/name GET /books/sales/b.vcf", "400 unknown-caller"),
    ("crew GET /books/sales/b.vcf", "400 unknown-caller"),
    ("gus PUT /cellar unread", "400 bad-request"),
    ("gus MKCOL /cellar x", "415 body-on-mkcol"),
    ("gus MKCOL /books/sales unread", "415 body-on-mkcol"),
    (
        "gus DELETE /books x",
        "405 not-allowed ACL, OPTIONS, PROPFIND, REPORT",
    ),
    ("gus DELETE /books/none", "404 not-found"),
    (
        "gus PUT /books/sales/b.vcf TWO_UIDS",
        "403 need-privileges write-content /books/sales/b.vcf null",
    ),
    (
        "gus DELETE /books/sales",
        "403 need-privileges unbind /books null",
    ),
    (
        "bob PUT /books/sales/b.vcf TWO_UIDS",
        "400 bad-card twice 4",
    ),
    ("bob DELETE /books/sales", "507 full"),
    ("epoch", "9007199254740991"),
];

/// The epoch is at its last value.
const LAST: &[&str] = &[
    "own /books grant /groups/staff all",
    "epoch 9007199254740991",
];

#[test]
fn the_first_refusal_is_told(rt: HostRuntime) {
    run_on(&rt, rt.alloc(), LAST, IN_ORDER);
}

fn call(rt: &impl Abort, alloc: Global, line: &str) -> (Option<String>, Request) {
    let request = request(rt, alloc, line);
    match caller(line) {
        Some(name) => {
            let name = String::from_str(alloc, name).expect(rt, "memory");
            (Some(name), request)
        }
        None => (None, request),
    }
}

fn calls(rt: &impl Abort, alloc: Global, steps: &[Step]) -> Vec<(Option<String>, Request)> {
    let mut calls = Vec::new(alloc);
    for (line, _) in steps {
        calls.push(call(rt, alloc, line)).expect(rt, "memory");
    }
    calls
}

fn check_replies(rt: &impl Abort, alloc: Global, replies: &[Reply], steps: &[Step]) {
    check_fact(rt, replies.len() == steps.len(), "as many replies");
    for (reply, (line, wanted)) in replies.iter().zip(steps) {
        let told = tell(rt, alloc, reply);
        check_text(rt, told.as_str(), wanted, line);
    }
}

/// The machine under the policy of the office answers the calls of the steps in one call.
pub(crate) fn check_all<K: Keeper>(
    rt: &impl Abort,
    alloc: Global,
    machine: &mut Machine<K>,
    steps: &[Step],
) {
    follow(rt, alloc, machine, &[("adopt office", "changed, epoch 1")]);
    let calls = calls(rt, alloc, steps);
    let replies = machine.serve_all(alloc, calls.as_slice());
    drop(calls);
    let replies = replies.expect(rt, "memory");
    check_replies(rt, alloc, replies.as_slice(), steps);
    drop(replies);
}

#[test]
fn calls_are_served_in_order(rt: HostRuntime) {
    let mut machine = Machine::new(MemoryKeeper::new(rt.alloc()));
    check_all(&rt, rt.alloc(), &mut machine, BOUND_CARDS);
    let mut machine = Machine::new(machine.release());
    follow(
        &rt,
        rt.alloc(),
        &mut machine,
        &[("changes sales 0", "2 b.vcf [] 47 bytes\n")],
    );
    drop(machine);
}

#[test]
fn laws_are_called() {
    requests_have_one_step();
    requests_act_where_granted();
    requests_are_full_at_limits();
    refusals_change_nothing();
    unread_contents_stay_unseen();
    runs_lead_on();
    granted_reports_are_told();
}
