//! Sync reports on books, and copies that they keep (RFC 6578, section 3).

use crate::checks::{check_fact, check_text};
use crate::requests::check_all;
use crate::scripts::{Step, answer, follow, run_on, run_on_new};
use crate::serving::{request, served};
use crate::words::{name, word};
use book_machine::{Content, Machine, Reply};
use book_office::{Keeper, MemoryKeeper};
use book_office_sync::{Replica, apply_report};
use std::alloc::Global;
use std::process::Abort;

/// The initial report has what the caller may read. Each later one tells the names that changed since its token, once,
/// with the last number: also those that the caller may not read, as removed. A protected entry of the book comes
/// before those of a card. A name may be removed and made again.
const CHANGES: &[Step] = &[
    ("bob PUT /books/sales/b.vcf BO", "201"),
    ("ann PUT /books/sales/f.vcf BELL", "201"),
    (
        "bob REPORT /books/sales sync",
        "207\n1 b.vcf [] 44 bytes\n2 f.vcf [] 47 bytes\ndata:,sales/1/2",
    ),
    (
        "ann ACL /books/sales/f.vcf list deny owner read ; deny /people/bob read",
        "200",
    ),
    (
        "bob REPORT /books/sales sync",
        "207\n1 b.vcf [] 44 bytes\ndata:,sales/2/2",
    ),
    (
        "ann REPORT /books/sales sync",
        "207\n1 b.vcf [] 44 bytes\n2 f.vcf [] 47 bytes\ndata:,sales/2/2",
    ),
    ("ann PUT /books/sales/f.vcf BO", "204"),
    (
        "bob REPORT /books/sales sync data:,sales/2/2",
        "207\n3 f.vcf removed\ndata:,sales/2/3",
    ),
    (
        "ann REPORT /books/sales sync data:,sales/2/2",
        "207\n3 f.vcf [] 44 bytes\ndata:,sales/2/3",
    ),
    ("ann DELETE /books/sales/f.vcf", "204"),
    (
        "ann REPORT /books/sales sync data:,sales/2/3",
        "207\n4 f.vcf removed\ndata:,sales/2/4",
    ),
    ("ann PUT /books/sales/f.vcf BELL", "201"),
    ("ann PROPPATCH /books/sales/b.vcf label Bo", "200"),
    (
        "bob REPORT /books/sales sync data:,sales/2/2",
        "207\n5 f.vcf [] 47 bytes\n6 b.vcf [Bo] 44 bytes\ndata:,sales/2/6",
    ),
    (
        "bob REPORT /books/sales sync data:,sales/2/5",
        "207\n6 b.vcf [Bo] 44 bytes\ndata:,sales/2/6",
    ),
    (
        "bob REPORT /books/sales/ sync data:,sales/2/6",
        "207\ndata:,sales/2/6",
    ),
];

/// What the book has then.
const CHANGED: &[Step] = &[
    (
        "changes sales 0",
        "5 f.vcf [] 47 bytes\n6 b.vcf [Bo] 44 bytes\n",
    ),
    ("epoch", "2"),
];

#[test]
fn reports_tell_what_changed(rt: HostRuntime) {
    let mut machine = Machine::new(MemoryKeeper::new(rt.alloc()));
    check_all(&rt, rt.alloc(), &mut machine, CHANGES);
    follow(&rt, rt.alloc(), &mut machine, CHANGED);
    drop(machine);
}

/// A token is valid on its book, in the epoch that it names, up to the number of the book; a change of members ends it,
/// and so does a policy that changes something.
const TOKENS: &[Step] = &[
    ("adopt office", "changed, epoch 1"),
    ("bob PUT /books/sales/b.vcf BO", "201"),
    ("ann PUT /books/sales/f.vcf BELL", "201"),
    (
        "bob REPORT /books/sales sync data:,sales/1/0",
        "207\n1 b.vcf [] 44 bytes\n2 f.vcf [] 47 bytes\ndata:,sales/1/2",
    ),
    (
        "bob REPORT /books/sales sync data:,sales/1/2",
        "207\ndata:,sales/1/2",
    ),
    (
        "bob REPORT /books/sales sync data:,sales/1/3",
        "403 valid-sync-token",
    ),
    (
        "bob REPORT /books/sales sync data:,sales/0/2",
        "403 valid-sync-token",
    ),
    (
        "bob REPORT /books/sales sync data:,sales/2/2",
        "403 valid-sync-token",
    ),
    (
        "bob REPORT /books/sales sync data:,law/1/0",
        "403 valid-sync-token",
    ),
    (
        "bob REPORT /books/law sync data:,law/1/0",
        "207\ndata:,law/1/0",
    ),
    (
        "bob REPORT /books/sales sync data:,sales/1/02",
        "403 valid-sync-token",
    ),
    (
        "bob REPORT /books/sales sync sales/1/2",
        "403 valid-sync-token",
    ),
    (
        "gus REPORT /books/sales sync",
        "403 need-privileges read /books/sales null",
    ),
    (
        "gus REPORT /books/sales sync sales/1/2",
        "403 need-privileges read /books/sales null",
    ),
    ("ann PROPPATCH /groups/staff members /people/bob", "200"),
    (
        "bob REPORT /books/sales sync data:,sales/1/2",
        "403 valid-sync-token",
    ),
    (
        "bob REPORT /books/sales sync data:,sales/2/9",
        "403 valid-sync-token",
    ),
    ("adopt office", "changed, epoch 3"),
    (
        "bob REPORT /books/sales sync",
        "207\n1 b.vcf [] 44 bytes\n2 f.vcf [] 47 bytes\ndata:,sales/3/2",
    ),
    ("adopt office", "unchanged, epoch 3"),
    (
        "bob REPORT /books/sales sync data:,sales/3/2",
        "207\ndata:,sales/3/2",
    ),
];

#[test]
fn tokens_end_where_access_changes(rt: HostRuntime) {
    run_on_new(&rt, rt.alloc(), TOKENS);
}

/// The caller, the shape and the path are looked at before any privilege.
const REFUSED: &[Step] = &[
    ("zoe REPORT /cellar", "400 unknown-caller"),
    ("gus REPORT /cellar", "400 bad-request"),
    ("gus REPORT /books/sales", "400 bad-request"),
    ("gus REPORT /books/sales unread", "400 bad-request"),
    ("gus REPORT /books/sales BO", "400 bad-request"),
    (
        "gus REPORT /books/sales find displayname",
        "400 bad-request",
    ),
    ("gus REPORT /cellar sync", "404 not-found"),
    ("gus REPORT /books/none sync", "404 not-found"),
    (
        "gus REPORT / sync",
        "405 not-allowed ACL, OPTIONS, PROPFIND, REPORT",
    ),
    (
        "gus REPORT /books sync",
        "405 not-allowed ACL, OPTIONS, PROPFIND, REPORT",
    ),
    (
        "gus REPORT /people/ann sync",
        "405 not-allowed ACL, OPTIONS, PROPFIND, PROPPATCH, REPORT",
    ),
    (
        "gus REPORT /groups/staff sync none",
        "405 not-allowed ACL, OPTIONS, PROPFIND, PROPPATCH, REPORT",
    ),
    (
        "gus REPORT /books/sales/a.vcf sync",
        "405 not-allowed ACL, COPY, DELETE, GET, HEAD, MOVE, OPTIONS, PROPFIND, PROPPATCH, PUT, REPORT",
    ),
    (
        "gus REPORT /books/sales sync none",
        "403 need-privileges read /books/sales null",
    ),
];

#[test]
fn reports_are_of_books(rt: HostRuntime) {
    run_on(&rt, rt.alloc(), &[], REFUSED);
}

/// The worked example of three pages, each of at most two items: a page that is cut has the number of its last item as its
/// token, and the last page is whole. What a page told of a name goes on in the next where it changed in between.
const PAGES: &[Step] = &[
    ("adopt office", "changed, epoch 1"),
    ("bob PUT /books/sales/b.vcf BO", "201"),
    ("bob PUT /books/sales/h.vcf BO", "201"),
    ("ann PUT /books/sales/p.vcf CARD_P", "201"),
    ("ann PUT /books/sales/g.vcf BELL", "201"),
    ("ann DELETE /books/sales/b.vcf", "204"),
    ("ann ACL /books/sales/h.vcf list deny owner read", "200"),
    (
        "bob REPORT /books/sales page 1",
        "207\n3 p.vcf [] 59 bytes\ndata:,sales/2/3 more",
    ),
    (
        "bob REPORT /books/sales page 2",
        "207\n3 p.vcf [] 59 bytes\n4 g.vcf [] 47 bytes\ndata:,sales/2/5",
    ),
    (
        "bob REPORT /books/sales page 2 data:,sales/2/0",
        "207\n2 h.vcf removed\n3 p.vcf [] 59 bytes\ndata:,sales/2/3 more",
    ),
    ("ann PUT /books/sales/p.vcf BO", "204"),
    (
        "bob REPORT /books/sales page 2 data:,sales/2/3",
        "207\n4 g.vcf [] 47 bytes\n5 b.vcf removed\ndata:,sales/2/5 more",
    ),
    (
        "bob REPORT /books/sales page 2 data:,sales/2/5",
        "207\n6 p.vcf [] 44 bytes\ndata:,sales/2/6",
    ),
    (
        "bob REPORT /books/sales page 10000 data:,sales/2/6",
        "207\ndata:,sales/2/6",
    ),
    (
        "bob REPORT /books/sales page 2 data:,sales/2/7",
        "403 valid-sync-token",
    ),
];

#[test]
fn reports_are_told_page_by_page(rt: HostRuntime) {
    run_on_new(&rt, rt.alloc(), PAGES);
}

/// What bob has of the book of sales, and his token; empty before the first report.
#[derive(Drop)]
struct Kept {
    replica: Replica,
    token: String,
    /// Whether changes remain.
    more: bool,
}

fn take_over(rt: &impl Abort, alloc: Global, kept: &mut Kept, reply: &Reply) {
    match &reply.content {
        Content::Synced(report) => {
            apply_report(&mut kept.replica, report).expect(rt, "memory");
            kept.token = report.token.text(alloc).expect(rt, "memory");
            kept.more = report.truncated;
        }
        _ => {
            kept.replica = Replica::new(alloc);
            kept.token = String::new(alloc);
            kept.more = true;
        }
    }
}

/// Asks for the report after the token, and takes it over: for all of it by `sync`, and for a page of it by `page LIMIT`.
/// Where the token is refused, the next report is the initial one.
fn sync<K: Keeper>(
    rt: &impl Abort,
    alloc: Global,
    machine: &mut Machine<K>,
    kept: &mut Kept,
    asked: &str,
) {
    let token = kept.token.as_str();
    let line = format!(in alloc; "bob REPORT /books/sales {asked} {token}").expect(rt, "memory");
    let request = request(rt, alloc, line.as_str());
    let reply = machine.serve(alloc, Some("bob"), &request);
    take_over(rt, alloc, kept, &reply);
    drop(reply);
    drop(request);
}

/// A GET answers by what the replica has, or is refused where it has nothing.
fn check_name<K: Keeper>(
    rt: &impl Abort,
    alloc: Global,
    machine: &mut Machine<K>,
    replica: &Replica,
    named: &str,
) {
    let line = format!(in alloc; "bob GET /books/sales/{named}").expect(rt, "memory");
    let told = served(rt, alloc, machine, line.as_str());
    match replica.get(&name(rt, alloc, named)) {
        Some(seen) => {
            let text = seen.text.as_str();
            let wanted = format!(in alloc; "200 {text}").expect(rt, "memory");
            check_text(rt, told.as_str(), wanted.as_str(), named);
        }
        None => check_fact(rt, told.as_str().starts_with('4'), named),
    }
}

fn check_copy<K: Keeper>(
    rt: &impl Abort,
    alloc: Global,
    machine: &mut Machine<K>,
    replica: &Replica,
) {
    for named in ["a.vcf", "b.vcf", "c.vcf", "d.vcf", "e.vcf"] {
        check_name(rt, alloc, machine, replica, named);
    }
}

fn take<K: Keeper>(
    rt: &impl Abort,
    alloc: Global,
    machine: &mut Machine<K>,
    kept: &mut Kept,
    line: &str,
    wanted: &str,
) {
    if word(line, 0) != "sync" && word(line, 0) != "page" {
        let told = answer(rt, alloc, machine, line);
        check_text(rt, told.as_str(), wanted, line);
        return;
    }
    sync(rt, alloc, machine, kept, line);
    check_text(rt, kept.token.as_str(), wanted, line);
    if !kept.more {
        check_copy(rt, alloc, machine, &kept.replica);
    }
}

/// At each report the copy of bob is what he may read, whatever others did in between.
const COPY: &[Step] = &[
    ("sync", "data:,sales/1/0"),
    ("ann PUT /books/sales/a.vcf BO", "201"),
    ("ann PUT /books/sales/b.vcf BELL", "201"),
    ("sync", "data:,sales/1/2"),
    ("ann PUT /books/sales/a.vcf BELL", "204"),
    ("ann DELETE /books/sales/b.vcf", "204"),
    ("bob PUT /books/sales/c.vcf BO", "201"),
    ("sync", "data:,sales/1/5"),
    ("ann PUT /books/sales/b.vcf BO", "201"),
    ("ann PUT /books/sales/d.vcf BO", "201"),
    ("ann DELETE /books/sales/d.vcf", "204"),
    ("sync", "data:,sales/1/8"),
    (
        "ann ACL /books/sales/a.vcf list deny /people/bob read",
        "200",
    ),
    ("sync", ""),
    ("sync", "data:,sales/2/8"),
];

/// The same by pages: while one remains the copy lags behind, and after the last page it is what bob may read, whatever
/// others did between two pages.
const COPY_BY_PAGES: &[Step] = &[
    ("ann PUT /books/sales/a.vcf BO", "201"),
    ("ann PUT /books/sales/b.vcf BELL", "201"),
    ("ann PUT /books/sales/c.vcf BO", "201"),
    ("page 1", "data:,sales/1/1"),
    ("ann DELETE /books/sales/a.vcf", "204"),
    ("ann PUT /books/sales/b.vcf BO", "204"),
    ("page 1", "data:,sales/1/3"),
    ("page 1", "data:,sales/1/4"),
    ("ann PUT /books/sales/a.vcf BELL", "201"),
    ("ann PUT /books/sales/d.vcf BO", "201"),
    ("ann DELETE /books/sales/c.vcf", "204"),
    ("page 2", "data:,sales/1/6"),
    ("page 2", "data:,sales/1/8"),
    (
        "ann ACL /books/sales/a.vcf list deny /people/bob read",
        "200",
    ),
    ("page 1", ""),
    ("page 1", "data:,sales/2/5"),
    ("ann PUT /books/sales/a.vcf BO", "204"),
    ("page 3", "data:,sales/2/9"),
];

/// Takes the steps with a new copy, on a new Office with the policy of the examples.
fn keep_copy(rt: &impl Abort, alloc: Global, steps: &[Step]) {
    let mut machine = Machine::new(MemoryKeeper::new(alloc));
    let adopted = &[("adopt office", "changed, epoch 1")];
    follow(rt, alloc, &mut machine, adopted);
    let mut kept = Kept {
        replica: Replica::new(alloc),
        token: String::new(alloc),
        more: true,
    };
    for (line, wanted) in steps {
        take(rt, alloc, &mut machine, &mut kept, line, wanted);
    }
    drop(machine);
    let count = kept.replica.len();
    drop(kept);
    check_fact(rt, count == 2, "two cards");
}

#[test]
fn a_copy_is_what_may_be_read(rt: HostRuntime) {
    keep_copy(&rt, rt.alloc(), COPY);
}

#[test]
fn a_copy_of_pages_is_what_may_be_read(rt: HostRuntime) {
    keep_copy(&rt, rt.alloc(), COPY_BY_PAGES);
}
