//! Demands that come over a control, and their replies.

use crate::backups::{Copier, DUMP_AFTER, check_copy};
use crate::checks::{check_fact, check_text};
use crate::machines::{FAULTS, FAULTY, MORE, OPEN, POLICY, machine};
use book_desk_administering::Administered;
use book_desk_answering::{Reply, answer};
use book_desk_control::{Demand, Exchange};
use std::alloc::Global;
use std::process::Abort;

/// The method and the target of a request, its body, how the head of the reply begins, how much is told on standard error,
/// what the body is, and the body.
type Row = (
    &'static str,
    &'static str,
    &'static str,
    usize,
    &'static str,
    &'static str,
);

const ANSWERED: &str = "HTTP/1.1 200 OK\r\nX-Exit-Status: 0\r\n";

const REFUSED: &str = "HTTP/1.1 400 Bad Request\r\nX-Exit-Status: 1\r\n";

const TEXT: &str = "Content-Type: text/plain; charset=utf-8\r\n";

const LINES: &str = "Content-Type: application/x-ndjson\r\n";

const ROWS: &[Row] = &[
    (
        "GET /audit",
        "",
        ANSWERED,
        0,
        TEXT,
        "epoch 1\n\
         member /groups/staff /people/bob\n\
         / owner -\n\
         /books owner -\n\
         /books/sales owner /people/ann\n  own grant owner all\n  own grant /groups/staff read\n\
         /books/sales/a.vcf owner /people/ann\n\
         /groups owner -\n\
         /groups/staff owner -\n\
         /people owner -\n\
         /people/ann owner -\n\
         /people/bob owner -\n",
    ),
    // A word says which part: the one above all has no cards without a list of their own.
    (
        "POST /audit",
        "{\"books\":true}",
        ANSWERED,
        0,
        TEXT,
        "/ owner -\n\
         /books owner -\n\
         /books/sales owner /people/ann\n  own grant owner all\n  own grant /groups/staff read\n\
         /groups owner -\n\
         /groups/staff owner -\n\
         /people owner -\n\
         /people/ann owner -\n\
         /people/bob owner -\n",
    ),
    (
        "POST /audit",
        "{\"at\":\"/people/ann\",\"labels\":true}",
        ANSWERED,
        0,
        TEXT,
        "/people/ann owner - label \"\"\n",
    ),
    (
        "POST /why",
        "{\"caller\":\"bob\",\"what\":\"DELETE\",\"path\":\"/books/sales/a.vcf\"}",
        ANSWERED,
        0,
        TEXT,
        "denied unbind at /books/sales, none granted\n\
         need unbind at /books/sales\n \
         unbind denied, none granted\n",
    ),
    (
        "POST /why",
        "{\"caller\":\"zoe\",\"what\":\"GET\",\"path\":\"/books/sales\"}",
        REFUSED,
        20,
        TEXT,
        "why: unknown-caller\n",
    ),
    (
        "POST /who",
        "{\"privilege\":\"bind\",\"path\":\"/people\",\"denied\":true}",
        ANSWERED,
        0,
        TEXT,
        "nobody\n bind denied, none granted\n\
         /people/ann\n bind denied, none granted\n\
         /people/bob\n bind denied, none granted\n",
    ),
    (
        "POST /rights",
        "{\"at\":\"/books/sales\",\"caller\":\"bob\",\"json\":true}",
        ANSWERED,
        0,
        LINES,
        "{\"caller\":\"/people/bob\",\"cards\":null,\"path\":\"/books/sales\",\"privileges\":[\"read\"]}\n\
         {\"caller\":\"/people/bob\",\"cards\":1,\"path\":\"/books/sales/a.vcf\",\"privileges\":[\"read\"]}\n",
    ),
    (
        "POST /ask",
        "{\"caller\":\"bob\",\"path\":\"/books/sales\",\"privileges\":[\"read\"]}",
        ANSWERED,
        0,
        TEXT,
        "member /groups/staff /people/bob\n\
         caller /people/bob\n\
         owner /people/ann\n\
         need read\n\
         grant owner all\n\
         grant /groups/staff read\n",
    ),
    (
        "POST /show",
        "{\"path\":\"/people/ann\"}",
        ANSWERED,
        0,
        LINES,
        "{\"path\":\"/people/ann\"}\n",
    ),
    (
        "POST /show",
        "{\"path\":\"/people/zoe\"}",
        REFUSED,
        16,
        LINES,
        "show: not-found\n",
    ),
    ("POST /check?strict", FAULTY, REFUSED, 125, TEXT, FAULTS),
    ("POST /check", POLICY, ANSWERED, 0, TEXT, OPEN),
    ("POST /check?strict", POLICY, REFUSED, 0, TEXT, OPEN),
    (
        "POST /differs?strict",
        MORE,
        REFUSED,
        0,
        TEXT,
        "+ /people/cyd owner -\n+ /people/cyd label \"\"\ndiffers in 2\n",
    ),
    ("PUT /policy", MORE, ANSWERED, 0, TEXT, "changed, epoch 2\n"),
    ("PUT /policy", FAULTY, REFUSED, 125, TEXT, FAULTS),
    ("POST /backup", "{\"to\":\"b\"}", ANSWERED, 0, TEXT, ""),
    (
        "POST /backup",
        "{\"to\":\"there\"}",
        REFUSED,
        15,
        TEXT,
        "backup: exists\n",
    ),
];

/// The text that an exchange sends next, of which all is sent.
fn sent(rt: &impl Abort, alloc: Global, exchange: &mut Exchange) -> String {
    let bytes = exchange.unsent();
    let count = bytes.len();
    let text = str::from_utf8(bytes).expect(rt, "a text");
    let copy = String::from_str(alloc, text).expect(rt, "memory");
    exchange.did_send(count);
    copy
}

/// The demand of a request.
fn demand_of(
    rt: &impl Abort,
    alloc: Global,
    exchange: &mut Exchange,
    asked: &str,
    body: &str,
) -> Demand {
    let size = body.len();
    let text = format!(in alloc; "{asked} HTTP/1.1\r\nContent-Length: {size}\r\n\r\n{body}");
    let text = text.expect(rt, "memory");
    let heard = exchange.bring(alloc, text.as_bytes());
    heard.expect(rt, "memory").expect(rt, "a demand")
}

/// How the head of a reply begins.
fn head_of(rt: &impl Abort, alloc: Global, begins: &str, told: usize, kind: &str) -> String {
    let text = format!(in alloc; "{begins}X-Error-Length: {told}\r\n{kind}");
    text.expect(rt, "memory")
}

/// Answers a demand, and compares the reply.
fn compare<M: Administered>(
    rt: &impl Abort,
    alloc: Global,
    service: &mut M,
    copier: &mut Copier,
    row: &Row,
) {
    let (asked, body, begins, told, kind_line, wanted) = row;
    let mut exchange = Exchange::new(alloc);
    let demand = demand_of(rt, alloc, &mut exchange, asked, body);
    let reply = answer(alloc, service, copier, demand).expect(rt, "memory");
    let Reply {
        outcome,
        ending,
        kind,
        body: bytes,
    } = reply;
    exchange
        .answer(alloc, outcome, ending, kind, bytes)
        .expect(rt, "memory");
    let head = head_of(rt, alloc, begins, *told, kind_line);
    let text = sent(rt, alloc, &mut exchange);
    check_fact(rt, text.as_str().starts_with(head.as_str()), asked);
    let text = sent(rt, alloc, &mut exchange);
    check_text(rt, text.as_str(), wanted, asked);
}

/// The last copy is of the Office with the policy that was put.
#[test]
fn demands_are_answered(rt: HostRuntime) {
    let alloc = rt.alloc();
    let mut machine = machine(&rt, alloc);
    let mut copier = Copier::new(alloc);
    for row in ROWS {
        compare(&rt, alloc, &mut machine, &mut copier, row);
    }
    check_copy(&rt, alloc, copier, DUMP_AFTER);
    drop(machine);
}
