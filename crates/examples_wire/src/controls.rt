//! What is asked of a server beside its connections, and what is answered.

use book_desk_control::{
    Counts, Demand, Ending, Exchange, Health, Kind, Outcome, Sizes, WhyBody, asks_end,
    health_outcome, health_text, outcome_of_status, text_in,
};
use book_office_values::Text;
use std::alloc::Global;
use std::process::Abort;

/// Requests, and what they ask, in words.
const ASKED: &[(&str, &str)] = &[
    ("GET /health HTTP/1.1\r\nHost: localhost\r\n\r\n", "health"),
    (
        "GET /metrics HTTP/1.1\r\nHost: localhost\r\n\r\n",
        "metrics",
    ),
    (
        "GET /audit HTTP/1.1\r\nHost: localhost\r\n\r\n",
        "audit none no no",
    ),
    (
        "POST /audit HTTP/1.1\r\nHost: localhost\r\n\r\n",
        "audit none no no",
    ),
    (
        "POST /audit HTTP/1.1\r\nHost: localhost\r\nContent-Length: 2\r\n\r\n{}",
        "audit none no no",
    ),
    (
        "POST /audit HTTP/1.1\r\nHost: localhost\r\nContent-Length: 42\r\n\r\n{\"at\":\"/books\",\"books\":true,\"labels\":true}",
        "audit /books yes yes",
    ),
    (
        "POST /audit HTTP/1.1\r\nHost: localhost\r\nContent-Length: 14\r\n\r\n{\"books\":true}",
        "audit none yes no",
    ),
    (
        "POST /audit HTTP/1.1\r\nHost: localhost\r\nContent-Length: 15\r\n\r\n{\"labels\":true}",
        "audit none no yes",
    ),
    (
        "POST /why HTTP/1.1\r\nHost: localhost\r\nContent-Length: 51\r\n\r\n{\"caller\":\"ann\",\"what\":\"GET\",\"path\":\"/books/sales\"}",
        "why ann GET /books/sales none no",
    ),
    (
        "POST /why HTTP/1.1\r\nHost: localhost\r\nContent-Length: 101\r\n\r\n{\"caller\":\"-\",\"what\":\"MOVE\",\"path\":\"/books/sales/a.vcf\",\"destination\":\"/books/old/a.vcf\",\"json\":true}",
        "why - MOVE /books/sales/a.vcf /books/old/a.vcf yes",
    ),
    (
        "POST /who HTTP/1.1\r\nHost: localhost\r\nContent-Length: 42\r\n\r\n{\"privilege\":\"read\",\"path\":\"/books/sales\"}",
        "who read /books/sales no no",
    ),
    (
        "POST /who HTTP/1.1\r\nHost: localhost\r\nContent-Length: 45\r\n\r\n{\"denied\":true,\"privilege\":\"bind\",\"path\":\"/\"}",
        "who bind / yes no",
    ),
    (
        "POST /who HTTP/1.1\r\nHost: localhost\r\nContent-Length: 58\r\n\r\n{\"privilege\":\"bind\",\"path\":\"/\",\"denied\":false,\"json\":true}",
        "who bind / no yes",
    ),
    (
        "POST /rights HTTP/1.1\r\nHost: localhost\r\n\r\n",
        "rights none none no no",
    ),
    (
        "POST /rights HTTP/1.1\r\nHost: localhost\r\nContent-Length: 56\r\n\r\n{\"at\":\"/books\",\"caller\":\"ann\",\"shared\":true,\"json\":true}",
        "rights /books ann yes yes",
    ),
    (
        "POST /rights HTTP/1.1\r\nHost: localhost\r\nContent-Length: 30\r\n\r\n{\"caller\":\"ann\",\"shared\":true}",
        "rights none ann yes no",
    ),
    (
        "POST /rights HTTP/1.1\r\nHost: localhost\r\nContent-Length: 13\r\n\r\n{\"json\":true}",
        "rights none none no yes",
    ),
    (
        "POST /ask HTTP/1.1\r\nHost: localhost\r\nContent-Length: 67\r\n\r\n{\"caller\":\"ann\",\"path\":\"/books/sales\",\"privileges\":[\"read\",\"bind\"]}",
        "ask ann /books/sales read bind",
    ),
    (
        "POST /show HTTP/1.1\r\nHost: localhost\r\nContent-Length: 23\r\n\r\n{\"path\":\"/books/sales\"}",
        "show /books/sales",
    ),
    (
        "POST /show HTTP/1.1\r\nHost: localhost\r\nContent-Length: 37\r\n\r\n{\"path\":\"/books/a\",\"path\":\"/books/b\"}",
        "show /books/b",
    ),
    (
        "POST /check HTTP/1.1\r\nHost: localhost\r\nContent-Length: 12\r\n\r\nversion = 1\n",
        "check no version = 1\n",
    ),
    (
        "POST /check?strict HTTP/1.1\r\nHost: localhost\r\nContent-Length: 12\r\n\r\nversion = 1\n",
        "check yes version = 1\n",
    ),
    (
        "POST /differs HTTP/1.1\r\nHost: localhost\r\nContent-Length: 12\r\n\r\nversion = 1\n",
        "differs no version = 1\n",
    ),
    (
        "POST /differs?strict HTTP/1.1\r\nHost: localhost\r\nContent-Length: 12\r\n\r\nversion = 1\n",
        "differs yes version = 1\n",
    ),
    (
        "PUT /policy HTTP/1.1\r\nHost: localhost\r\nContent-Length: 12\r\n\r\nversion = 1\n",
        "policy version = 1\n",
    ),
    ("PUT /policy HTTP/1.1\r\nHost: localhost\r\n\r\n", "policy "),
    ("GET /dump HTTP/1.1\r\nHost: localhost\r\n\r\n", "dump"),
    (
        "POST /backup HTTP/1.1\r\nHost: localhost\r\nContent-Length: 28\r\n\r\n{\"to\":\"/var/backups/office\"}",
        "backup /var/backups/office",
    ),
    ("POST /stop HTTP/1.1\r\nHost: localhost\r\n\r\n", "stop"),
    ("GET /dump HTTP/1.0\r\ncontent-length: 0\r\n\r\n", "dump"),
    (
        "PUT /policy HTTP/1.1\r\nContent-Length: 2\r\n\r\nabc",
        "policy ab",
    ),
    (
        "PUT /policy HTTP/1.1\r\nContent-Length: 0000000002\r\n\r\nab",
        "policy ab",
    ),
];

const BAD_BODY: &str =
    "HTTP/1.1 400 Bad Request\r\nContent-Type: application/json\r\nContent-Length: 20\r\nConnection: close\r\n\r\n{\"error\":\"bad-body\"}";

const BAD_HEAD: &str =
    "HTTP/1.1 400 Bad Request\r\nContent-Type: application/json\r\nContent-Length: 20\r\nConnection: close\r\n\r\n{\"error\":\"bad-head\"}";

const NOT_FOUND: &str =
    "HTTP/1.1 404 Not Found\r\nContent-Type: application/json\r\nContent-Length: 21\r\nConnection: close\r\n\r\n{\"error\":\"not-found\"}";

const NOT_IMPLEMENTED: &str =
    "HTTP/1.1 501 Not Implemented\r\nContent-Type: application/json\r\nContent-Length: 27\r\nConnection: close\r\n\r\n{\"error\":\"not-implemented\"}";

const TOO_MANY: &str =
    "HTTP/1.1 400 Bad Request\r\nContent-Type: application/json\r\nContent-Length: 20\r\nConnection: close\r\n\r\n{\"error\":\"too-many\"}";

const LARGE: &str =
    "HTTP/1.1 431 Request Header Fields Too Large\r\nContent-Type: application/json\r\nContent-Length: 26\r\nConnection: close\r\n\r\n{\"error\":\"head-too-large\"}";

const WANTS_GET: &str =
    "HTTP/1.1 405 Method Not Allowed\r\nAllow: GET\r\nContent-Type: application/json\r\nContent-Length: 23\r\nConnection: close\r\n\r\n{\"error\":\"not-allowed\"}";

const WANTS_BOTH: &str =
    "HTTP/1.1 405 Method Not Allowed\r\nAllow: GET, POST\r\nContent-Type: application/json\r\nContent-Length: 23\r\nConnection: close\r\n\r\n{\"error\":\"not-allowed\"}";

const WANTS_POST: &str =
    "HTTP/1.1 405 Method Not Allowed\r\nAllow: POST\r\nContent-Type: application/json\r\nContent-Length: 23\r\nConnection: close\r\n\r\n{\"error\":\"not-allowed\"}";

const WANTS_PUT: &str =
    "HTTP/1.1 405 Method Not Allowed\r\nAllow: PUT\r\nContent-Type: application/json\r\nContent-Length: 23\r\nConnection: close\r\n\r\n{\"error\":\"not-allowed\"}";

/// Requests that are refused, and what is sent.
const REFUSED: &[(&str, &str)] = &[
    (
        "POST /why HTTP/1.1\r\nHost: localhost\r\nContent-Length: 29\r\n\r\n{\"caller\":\"ann\",\"what\":\"GET\"}",
        BAD_BODY,
    ),
    ("POST /why HTTP/1.1\r\nHost: localhost\r\n\r\n", BAD_BODY),
    (
        "POST /why HTTP/1.1\r\nHost: localhost\r\nContent-Length: 52\r\n\r\n{\"caller\":\"ann\",\"what\":\"GET\",\"path\":\"/\",\"paths\":\"/\"}",
        BAD_BODY,
    ),
    (
        "POST /why HTTP/1.1\r\nHost: localhost\r\nContent-Length: 54\r\n\r\n{\"caller\":\"ann\",\"what\":\"GET\",\"path\":\"/\",\"denied\":true}",
        BAD_BODY,
    ),
    (
        "POST /why HTTP/1.1\r\nHost: localhost\r\nContent-Length: 49\r\n\r\n{\"caller\":\"ann\",\"what\":\"GET\",\"path\":\"/\",\"json\":1}",
        BAD_BODY,
    ),
    (
        "POST /why HTTP/1.1\r\nHost: localhost\r\nContent-Length: 59\r\n\r\n{\"caller\":\"ann\",\"what\":\"GET\",\"path\":\"/\",\"destination\":null}",
        BAD_BODY,
    ),
    (
        "POST /why HTTP/1.1\r\nHost: localhost\r\nContent-Length: 2\r\n\r\n[]",
        BAD_BODY,
    ),
    (
        "POST /why HTTP/1.1\r\nHost: localhost\r\nContent-Length: 1\r\n\r\n{",
        BAD_BODY,
    ),
    (
        "POST /who HTTP/1.1\r\nHost: localhost\r\nContent-Length: 29\r\n\r\n{\"privilege\":\"read\",\"path\":7}",
        BAD_BODY,
    ),
    (
        "POST /who HTTP/1.1\r\nHost: localhost\r\nContent-Length: 45\r\n\r\n{\"privilege\":\"read\",\"path\":\"/\",\"shared\":true}",
        BAD_BODY,
    ),
    (
        "POST /rights HTTP/1.1\r\nHost: localhost\r\nContent-Length: 8\r\n\r\n{\"at\":1}",
        BAD_BODY,
    ),
    (
        "POST /rights HTTP/1.1\r\nHost: localhost\r\nContent-Length: 12\r\n\r\n{\"path\":\"/\"}",
        BAD_BODY,
    ),
    (
        "POST /ask HTTP/1.1\r\nHost: localhost\r\nContent-Length: 43\r\n\r\n{\"caller\":\"ann\",\"path\":\"/\",\"privileges\":[]}",
        BAD_BODY,
    ),
    (
        "POST /ask HTTP/1.1\r\nHost: localhost\r\nContent-Length: 51\r\n\r\n{\"caller\":\"ann\",\"path\":\"/\",\"privileges\":[\"read\",1]}",
        BAD_BODY,
    ),
    (
        "POST /ask HTTP/1.1\r\nHost: localhost\r\nContent-Length: 47\r\n\r\n{\"caller\":\"ann\",\"path\":\"/\",\"privileges\":\"read\"}",
        BAD_BODY,
    ),
    (
        "POST /show HTTP/1.1\r\nHost: localhost\r\nContent-Length: 10\r\n\r\n{\"at\":\"/\"}",
        BAD_BODY,
    ),
    (
        "POST /audit HTTP/1.1\r\nHost: localhost\r\nContent-Length: 22\r\n\r\n{\"at\":\"/\",\"json\":true}",
        BAD_BODY,
    ),
    (
        "POST /backup HTTP/1.1\r\nHost: localhost\r\nContent-Length: 11\r\n\r\n{\"to\":true}",
        BAD_BODY,
    ),
    (
        "GET /health HTTP/1.1\r\nHost: localhost\r\nContent-Length: 2\r\n\r\n{}",
        BAD_BODY,
    ),
    (
        "POST /stop HTTP/1.1\r\nHost: localhost\r\nContent-Length: 2\r\n\r\n{}",
        BAD_BODY,
    ),
    ("GET /stop HTTP/1.1\r\nHost: localhost\r\n\r\n", WANTS_POST),
    (
        "GET /check?strict HTTP/1.1\r\nHost: localhost\r\n\r\n",
        WANTS_POST,
    ),
    (
        "POST /health HTTP/1.1\r\nHost: localhost\r\n\r\n",
        WANTS_GET,
    ),
    ("PUT /dump HTTP/1.1\r\nHost: localhost\r\n\r\n", WANTS_GET),
    ("PUT /audit HTTP/1.1\r\nHost: localhost\r\n\r\n", WANTS_BOTH),
    (
        "POST /policy HTTP/1.1\r\nHost: localhost\r\n\r\n",
        WANTS_PUT,
    ),
    (
        "GET /books/sales HTTP/1.1\r\nHost: localhost\r\n\r\n",
        NOT_FOUND,
    ),
    (
        "GET /health? HTTP/1.1\r\nHost: localhost\r\n\r\n",
        NOT_FOUND,
    ),
    (
        "POST /check?strict=1 HTTP/1.1\r\nHost: localhost\r\n\r\n",
        NOT_FOUND,
    ),
    (
        "POST /rights?strict HTTP/1.1\r\nHost: localhost\r\n\r\n",
        NOT_FOUND,
    ),
    (
        "DELETE /stop HTTP/1.1\r\nHost: localhost\r\n\r\n",
        NOT_IMPLEMENTED,
    ),
    (
        "HEAD /health HTTP/1.1\r\nHost: localhost\r\n\r\n",
        NOT_IMPLEMENTED,
    ),
    (
        "PUT /policy HTTP/1.1\r\nHost: localhost\r\nTransfer-Encoding: chunked\r\n\r\n",
        NOT_IMPLEMENTED,
    ),
    (
        "PUT /policy HTTP/1.1\r\nHost: localhost\r\nTransfer-Encoding: chunked\r\nContent-Length: 3\r\n\r\n",
        NOT_IMPLEMENTED,
    ),
    (
        "PUT /policy HTTP/1.1\r\nHost: localhost\r\nContent-Length: 1048577\r\n\r\n",
        TOO_MANY,
    ),
    (
        "POST /show HTTP/1.1\r\nHost: localhost\r\nContent-Length: 9999999999\r\n\r\n",
        TOO_MANY,
    ),
    (
        "PUT /books HTTP/1.1\r\nHost: localhost\r\nContent-Length: 1048577\r\n\r\n",
        NOT_FOUND,
    ),
    (
        "PUT /policy HTTP/1.1\r\nHost: localhost\r\nContent-Length: 00000000001\r\n\r\n",
        BAD_HEAD,
    ),
    (
        "PUT /policy HTTP/1.1\r\nHost: localhost\r\nContent-Length: 1\r\ncontent-length: 1\r\n\r\na",
        BAD_HEAD,
    ),
    (
        "PUT /policy HTTP/1.1\r\nHost: localhost\r\nContent-Length: 1x\r\n\r\n",
        BAD_HEAD,
    ),
    (
        "PUT /policy HTTP/1.1\r\nHost: localhost\r\nContent-Length: -1\r\n\r\n",
        BAD_HEAD,
    ),
    (
        "PUT /policy HTTP/1.1\r\nHost: localhost\r\nContent-Length: \r\n\r\n",
        BAD_HEAD,
    ),
    (
        "DELETE /policy HTTP/1.1\r\nHost: localhost\r\nContent-Length: 1x\r\n\r\n",
        BAD_HEAD,
    ),
    ("GET /health HTTP/1.1\r\n no", BAD_HEAD),
];

/// Less than a request.
const PARTS: &[&str] = &[
    "GET /health HTTP/1.1\r\n",
    "GET /stop ",
    "PUT /policy HTTP/1.1\r\nContent-Length: 3\r\n\r\nab",
    "PUT /policy HTTP/1.1\r\nContent-Length: 1048576\r\n\r\n",
    "",
];

const WELL: &str =
    "{\"answered\":5,\"books\":2,\"came\":3,\"cards\":70,\"epoch\":4,\"faults\":1,\"groups\":6,\"open\":2,\"persons\":9,\"schema\":2,\"since\":\"2026-11-30T00:00:00.000Z\",\"store\":4096,\"store-log\":0,\"version\":\"1.2.3\"}\n";

const FAILED: &str =
    "{\"answered\":5,\"came\":3,\"faults\":1,\"open\":2,\"schema\":2,\"since\":\"2026-11-30T00:00:00.000Z\",\"version\":\"1.2.3\"}\n";

fn yes(flag: bool) -> &'static str {
    if flag { "yes" } else { "no" }
}

fn word(text: &Option<Text>) -> &str {
    text_in(text).unwrap_or("none")
}

pub(crate) fn text_of(bytes: &[u8]) -> &str {
    match str::from_utf8(bytes) {
        Ok(text) => text,
        Err(_) => "no text",
    }
}

/// A word, with which a line begins.
fn begun(rt: &(impl Abort + AllocGlobal), word: &str) -> String {
    String::from_str(rt.alloc(), word).expect(rt, "memory")
}

/// A blank and a word behind others.
fn with(rt: &(impl Abort + AllocGlobal), mut text: String, word: &str) -> String {
    text.push_str(" ").expect(rt, "memory");
    text.push_str(word).expect(rt, "memory");
    text
}

/// The privileges behind other words.
fn with_each(rt: &(impl Abort + AllocGlobal), mut text: String, words: &[String]) -> String {
    for word in words {
        text = with(rt, text, word.as_str());
    }
    text
}

/// The words of a question, and two flags.
fn with_flags(
    rt: &(impl Abort + AllocGlobal),
    name: &str,
    words: (&str, &str),
    flags: (bool, bool),
) -> String {
    let text = with(rt, begun(rt, name), words.0);
    let text = with(rt, text, words.1);
    let text = with(rt, text, yes(flags.0));
    with(rt, text, yes(flags.1))
}

/// An audit that is asked, in words.
fn audit_told(rt: &(impl Abort + AllocGlobal), at: &str, books: bool, labels: bool) -> String {
    let text = with(rt, begun(rt, "audit"), at);
    let text = with(rt, text, yes(books));
    with(rt, text, yes(labels))
}

/// A question about a caller, in words.
fn why_told(rt: &(impl Abort + AllocGlobal), caller: &str, body: &WhyBody) -> String {
    let text = with(rt, begun(rt, "why"), caller);
    let text = with(rt, text, body.what.as_str());
    let text = with(rt, text, body.path.as_str());
    let text = with(rt, text, word(&body.destination));
    with(rt, text, yes(body.json))
}

/// A policy that comes with a question, in words.
fn policy_told(rt: &(impl Abort + AllocGlobal), name: &str, strict: bool, policy: &str) -> String {
    let text = with(rt, begun(rt, name), yes(strict));
    with(rt, text, policy)
}

/// What is asked, in words.
fn told(rt: &(impl Abort + AllocGlobal), demand: &Demand) -> String {
    match demand {
        Demand::Health => begun(rt, "health"),
        Demand::Metrics => begun(rt, "metrics"),
        Demand::Dump => begun(rt, "dump"),
        Demand::Stop => begun(rt, "stop"),
        Demand::Audit(w) => audit_told(rt, word(&w.at), w.books, w.labels),
        Demand::Why(w) => why_told(rt, w.caller.as_str(), w),
        Demand::Who(w) => {
            let words = (w.privilege.as_str(), w.path.as_str());
            with_flags(rt, "who", words, (w.denied, w.json))
        }
        Demand::Rights(w) => {
            let words = (word(&w.at), word(&w.caller));
            with_flags(rt, "rights", words, (w.shared, w.json))
        }
        Demand::Ask(w) => {
            let text = with(rt, begun(rt, "ask"), w.caller.as_str());
            let text = with(rt, text, w.path.as_str());
            with_each(rt, text, w.privileges.as_slice())
        }
        Demand::Show(path) => with(rt, begun(rt, "show"), path.as_str()),
        Demand::Backup(name) => with(rt, begun(rt, "backup"), name.as_str()),
        Demand::Check(policy, strict) => {
            policy_told(rt, "check", *strict, text_of(policy.as_slice()))
        }
        Demand::Differs(policy, strict) => {
            policy_told(rt, "differs", *strict, text_of(policy.as_slice()))
        }
        Demand::Policy(policy) => with(rt, begun(rt, "policy"), text_of(policy.as_slice())),
    }
}

/// Brings bytes, and tells what they ask, in words; empty where they ask nothing.
pub(crate) fn asked(
    rt: &(impl Abort + AllocGlobal),
    exchange: &mut Exchange,
    bytes: &[u8],
) -> String {
    let demand = exchange.bring(rt.alloc(), bytes).expect(rt, "memory");
    match demand {
        Some(demand) => {
            assert_eq!(rt; asks_end(&demand), matches!(&demand, Demand::Stop));
            told(rt, &demand)
        }
        None => String::new(rt.alloc()),
    }
}

pub(crate) fn is_text(rt: &impl Abort, text: &str, wanted: &str) {
    assert_eq!(rt; text, wanted);
}

fn is_answered(rt: &impl Abort, exchange: &Exchange, wanted: bool) {
    assert_eq!(rt; exchange.is_answered(), wanted);
}

/// All that is left to be sent, in pieces of at most seven bytes.
pub(crate) fn sent(rt: &(impl Abort + AllocGlobal), exchange: &mut Exchange) -> Vec<u8> {
    let mut all = Vec::new(rt.alloc());
    for _ in 0..10_000 {
        let unsent = exchange.unsent();
        let piece = unsent.get(..7).unwrap_or(unsent);
        if piece.is_empty() {
            return all;
        }
        all.extend_from_slice(piece).expect(rt, "memory");
        let count = piece.len();
        exchange.did_send(count);
    }
    all
}

#[test]
fn requests_ask(rt: HostRuntime) {
    for (request, wanted) in ASKED {
        let mut exchange = Exchange::new(rt.alloc());
        let text = asked(&rt, &mut exchange, request.as_bytes());
        is_text(&rt, text.as_str(), wanted);
        is_answered(&rt, &exchange, false);
    }
}

#[test]
fn requests_are_refused(rt: HostRuntime) {
    for (request, wanted) in REFUSED {
        let mut exchange = Exchange::new(rt.alloc());
        let text = asked(&rt, &mut exchange, request.as_bytes());
        is_text(&rt, text.as_str(), "");
        is_answered(&rt, &exchange, true);
        let reply = sent(&rt, &mut exchange);
        is_text(&rt, text_of(reply.as_slice()), wanted);
    }
}

#[test]
fn a_part_waits(rt: HostRuntime) {
    for part in PARTS {
        let mut exchange = Exchange::new(rt.alloc());
        let text = asked(&rt, &mut exchange, part.as_bytes());
        is_text(&rt, text.as_str(), "");
        is_answered(&rt, &exchange, false);
    }
}

const CUT: &str =
    "POST /ask HTTP/1.1\r\nHost: localhost\r\nContent-Length: 67\r\n\r\n{\"caller\":\"ann\",\"path\":\"/books/sales\",\"privileges\":[\"read\",\"bind\"]}";

/// A request that is cut anywhere asks the same, and its later bytes nothing.
#[test]
fn a_request_may_be_cut(rt: HostRuntime) {
    for at in 0..CUT.len() {
        let (first, second) = CUT.as_bytes().split_at(at);
        let mut exchange = Exchange::new(rt.alloc());
        is_text(&rt, asked(&rt, &mut exchange, first).as_str(), "");
        let text = asked(&rt, &mut exchange, second);
        is_text(&rt, text.as_str(), "ask ann /books/sales read bind");
        is_text(&rt, asked(&rt, &mut exchange, CUT.as_bytes()).as_str(), "");
        is_answered(&rt, &exchange, false);
    }
}

/// Brings so many bytes `a`.
fn bring_many(rt: &(impl Abort + AllocGlobal), exchange: &mut Exchange, count: usize) -> String {
    let bytes = vec![in rt.alloc(); b'a'; count].expect(rt, "memory");
    asked(rt, exchange, bytes.as_slice())
}

/// A body may have 1,048,576 bytes. It comes in two pieces.
#[test]
fn a_policy_may_be_long(rt: HostRuntime) {
    let mut exchange = Exchange::new(rt.alloc());
    let head = "PUT /policy HTTP/1.1\r\nContent-Length: 1048576\r\n\r\n";
    is_text(&rt, asked(&rt, &mut exchange, head.as_bytes()).as_str(), "");
    is_text(&rt, bring_many(&rt, &mut exchange, 1_048_575).as_str(), "");
    let text = bring_many(&rt, &mut exchange, 1);
    assert_eq!(&rt; text.len(), 1_048_583);
}

/// A head with this field, whose value has so many bytes.
fn is_long_head(rt: &(impl Abort + AllocGlobal), count: usize, wanted: &str) {
    let mut exchange = Exchange::new(rt.alloc());
    asked(rt, &mut exchange, b"GET /health HTTP/1.1\r\nx: ");
    bring_many(rt, &mut exchange, count);
    let text = asked(rt, &mut exchange, b"\r\n\r\n");
    is_text(rt, text.as_str(), wanted);
    is_answered(rt, &exchange, wanted.is_empty());
    let reply = sent(rt, &mut exchange);
    is_text(
        rt,
        text_of(reply.as_slice()),
        if wanted.is_empty() { LARGE } else { "" },
    );
}

/// A head may have 8,192 bytes: 25 before the value, and 4 after it.
#[test]
fn a_head_may_be_long(rt: HostRuntime) {
    is_long_head(&rt, 8_163, "health");
    is_long_head(&rt, 8_164, "");
}

/// A head with so many fields.
fn has_fields(rt: &(impl Abort + AllocGlobal), count: usize, wanted: &str) {
    let mut exchange = Exchange::new(rt.alloc());
    asked(rt, &mut exchange, b"GET /dump HTTP/1.1\r\n");
    for _ in 0..count {
        asked(rt, &mut exchange, b"x: y\r\n");
    }
    let text = asked(rt, &mut exchange, b"\r\n");
    is_text(rt, text.as_str(), wanted);
    is_answered(rt, &exchange, wanted.is_empty());
}

/// A head may have 64 fields.
#[test]
fn a_head_may_have_many_fields(rt: HostRuntime) {
    has_fields(&rt, 64, "dump");
    has_fields(&rt, 65, "");
}

/// How a server does that had three connections, of which one failed and two are there.
fn health(counts: Option<Counts>, store: Option<Sizes>) -> Health<'static> {
    Health {
        version: "1.2.3",
        schema: 2,
        since: "2026-11-30T00:00:00.000Z",
        came: 3,
        open: 2,
        faults: 1,
        answered: 5,
        counts,
        store,
    }
}

/// A reply to GET of /health has this head before its body.
fn is_health(rt: &(impl Abort + AllocGlobal), health: &Health<'_>, head: &str, body: &str) {
    let text = health_text(rt.alloc(), health).expect(rt, "memory");
    let mut exchange = Exchange::new(rt.alloc());
    exchange
        .answer(rt.alloc(), health_outcome(health), None, Kind::Json, text)
        .expect(rt, "memory");
    let reply = sent(rt, &mut exchange);
    let wanted = line_of(rt, head, body);
    is_text(rt, text_of(reply.as_slice()), wanted.as_str());
}

fn line_of(rt: &(impl Abort + AllocGlobal), head: &str, body: &str) -> String {
    let mut text = String::from_str(rt.alloc(), head).expect(rt, "memory");
    text.push_str(body).expect(rt, "memory");
    text
}

#[test]
fn health_is_told(rt: HostRuntime) {
    let counts = Counts {
        epoch: 4,
        persons: 9,
        groups: 6,
        books: 2,
        cards: 70,
    };
    let sizes = Sizes {
        file: 4_096,
        log: 0,
    };
    is_health(
        &rt,
        &health(Some(counts), Some(sizes)),
        "HTTP/1.1 200 OK\r\nContent-Type: application/json\r\nContent-Length: 189\r\nConnection: close\r\n\r\n",
        WELL,
    );
    is_health(
        &rt,
        &health(None, None),
        "HTTP/1.1 503 Service Unavailable\r\nContent-Type: application/json\r\nContent-Length: 108\r\nConnection: close\r\n\r\n",
        FAILED,
    );
}

/// How a command ended that told so many bytes on standard error.
fn ended(status: u8, told: usize) -> Option<Ending> {
    Some(Ending { status, told })
}

/// A reply's status, how the command ended, what its body is, the body, and what is sent.
type Answer = (Outcome, Option<Ending>, Kind, &'static str, &'static str);

fn is_sent(rt: &(impl Abort + AllocGlobal), answer: &Answer) {
    let mut exchange = Exchange::new(rt.alloc());
    let body = Vec::from_slice(rt.alloc(), answer.3.as_bytes()).expect(rt, "memory");
    exchange
        .answer(rt.alloc(), answer.0, answer.1, answer.2, body)
        .expect(rt, "memory");
    is_answered(rt, &exchange, true);
    let reply = sent(rt, &mut exchange);
    is_text(rt, text_of(reply.as_slice()), answer.4);
}

#[test]
fn replies_are_sent(rt: HostRuntime) {
    let answers = [
        (
            outcome_of_status(0),
            ended(0, 0),
            Kind::Text,
            "yes\n",
            "HTTP/1.1 200 OK\r\nX-Exit-Status: 0\r\nX-Error-Length: 0\r\nContent-Type: text/plain; charset=utf-8\r\nContent-Length: 4\r\nConnection: close\r\n\r\nyes\n",
        ),
        (
            outcome_of_status(1),
            ended(1, 13),
            Kind::Text,
            "policy: full\n",
            "HTTP/1.1 400 Bad Request\r\nX-Exit-Status: 1\r\nX-Error-Length: 13\r\nContent-Type: text/plain; charset=utf-8\r\nContent-Length: 13\r\nConnection: close\r\n\r\npolicy: full\n",
        ),
        (
            outcome_of_status(2),
            ended(2, 0),
            Kind::Text,
            "",
            "HTTP/1.1 400 Bad Request\r\nX-Exit-Status: 2\r\nX-Error-Length: 0\r\nContent-Type: text/plain; charset=utf-8\r\nContent-Length: 0\r\nConnection: close\r\n\r\n",
        ),
        (
            outcome_of_status(3),
            ended(3, 13),
            Kind::Text,
            "store: store\n",
            "HTTP/1.1 503 Service Unavailable\r\nX-Exit-Status: 3\r\nX-Error-Length: 13\r\nContent-Type: text/plain; charset=utf-8\r\nContent-Length: 13\r\nConnection: close\r\n\r\nstore: store\n",
        ),
        (
            Outcome::Full,
            ended(1, 12),
            Kind::Text,
            "adopt: full\n",
            "HTTP/1.1 507 Insufficient Storage\r\nX-Exit-Status: 1\r\nX-Error-Length: 12\r\nContent-Type: text/plain; charset=utf-8\r\nContent-Length: 12\r\nConnection: close\r\n\r\nadopt: full\n",
        ),
        (
            Outcome::Answered,
            ended(0, 3),
            Kind::JsonLines,
            "{}\n{}\n",
            "HTTP/1.1 200 OK\r\nX-Exit-Status: 0\r\nX-Error-Length: 3\r\nContent-Type: application/x-ndjson\r\nContent-Length: 6\r\nConnection: close\r\n\r\n{}\n{}\n",
        ),
        (
            Outcome::Answered,
            None,
            Kind::Metrics,
            "a 1\n",
            "HTTP/1.1 200 OK\r\nContent-Type: text/plain; version=0.0.4; charset=utf-8\r\nContent-Length: 4\r\nConnection: close\r\n\r\na 1\n",
        ),
        (
            Outcome::NotImplemented,
            None,
            Kind::Json,
            "{}\n",
            "HTTP/1.1 501 Not Implemented\r\nContent-Type: application/json\r\nContent-Length: 3\r\nConnection: close\r\n\r\n{}\n",
        ),
    ];
    for answer in &answers {
        is_sent(&rt, answer);
    }
}
