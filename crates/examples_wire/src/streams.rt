//! Streams of requests and their replies, byte for byte, in pieces of several sizes; and streams that fail.

use crate::checks::{check_fact, check_text};
use crate::offices::{Cutting, Outcome, POLICY, WHOLE, answered};
use book_wire::{Ended, Served};
use book_wire_serving::StreamFault;
use std::alloc::Global;
use std::process::Abort;

/// A stream, what is written for it, how many requests were answered, how it ends, and how many changes the book of
/// sales has afterwards.
type Row<'a> = (&'a str, &'a str, u64, Ended, u64);

/// An OPTIONS, and a PUT of whose body 37 bytes are missing.
const CUT: &str =
    "OPTIONS /books/sales HTTP/1.1\r\nx-office-caller: bob\r\n\r\nPUT /books/sales/n.vcf HTTP/1.1\r\nx-office-caller: bob\r\nContent-Length: 47\r\n\r\nBEGIN:VCAR";

/// Streams in pieces of several sizes; a piece of 100 bytes ends within the second head of the stream that is cut.
const ROWS: &[Row<'static>] = &[
    ("", "", 0, Ended::Clean, 0),
    (
        CUT,
        "HTTP/1.1 200 OK\r\nAllow: ACL, DELETE, OPTIONS, PROPFIND, PROPPATCH, REPORT\r\nContent-Length: 0\r\n\r\n",
        1,
        Ended::Cut,
        0,
    ),
    (
        "PUT /books/sales/n.vcf HTTP/1.1\r\nContent-Length: 262145\r\n\r\n",
        "HTTP/1.1 413 Payload Too Large\r\nContent-Type: application/json\r\nContent-Length: 26\r\nConnection: close\r\n\r\n{\"error\":\"body-too-large\"}",
        0,
        Ended::Closed,
        0,
    ),
    (
        "PROPFIND / HTTP/1.1\r\n\r\n",
        "HTTP/1.1 403 Forbidden\r\nContent-Type: application/json\r\nContent-Length: 74\r\n\r\n{\"entry\":null,\"error\":\"need-privileges\",\"privilege\":\"read\",\"resource\":\"/\"}",
        1,
        Ended::Clean,
        0,
    ),
    (
        "PUT /books/sales/b.vcf HTTP/1.1\r\nX-Office-Caller: bob\r\ncontent-length: 44\r\n\r\nBEGIN:VCARD\r\nVERSION:4.0\r\nFN:Bo\r\nEND:VCARD\r\nHEAD /books/sales/b.vcf HTTP/1.1\r\nx-office-caller: bob\r\n\r\nGET /books/sales/b.vcf HTTP/1.1\r\nx-office-caller: bob\r\n\r\nPUT /books/sales/b.vcf HTTP/1.1\r\nx-office-caller: bob\r\nContent-Length: 1\r\n\r\nxPROPFIND /books/sales HTTP/1.1\r\nx-office-caller: bob\r\nDepth: 1\r\nContent-Length: 39\r\n\r\n{\"prop\":[\"displayname\",\"resourcetype\"]}DELETE /books/sales/b.vcf HTTP/1.1\r\nx-office-caller: ann\r\n\r\nHEAD /books/sales/b.vcf HTTP/1.1\r\nx-office-caller: ann\r\n\r\n",
        "HTTP/1.1 201 Created\r\nContent-Length: 0\r\n\r\nHTTP/1.1 200 OK\r\nContent-Type: text/vcard; charset=utf-8\r\nContent-Length: 44\r\n\r\nHTTP/1.1 200 OK\r\nContent-Type: text/vcard; charset=utf-8\r\nContent-Length: 44\r\n\r\nBEGIN:VCARD\r\nVERSION:4.0\r\nFN:Bo\r\nEND:VCARD\r\nHTTP/1.1 403 Forbidden\r\nContent-Type: application/json\r\nContent-Length: 100\r\n\r\n{\"entry\":null,\"error\":\"need-privileges\",\"privilege\":\"write-content\",\"resource\":\"/books/sales/b.vcf\"}HTTP/1.1 207 Multi-Status\r\nContent-Type: application/json\r\nContent-Length: 196\r\n\r\n{\"responses\":[{\"href\":\"/books/sales\",\"prop\":{\"displayname\":\"Sales\",\"resourcetype\":\"book\"},\"status\":200},{\"href\":\"/books/sales/b.vcf\",\"prop\":{\"displayname\":\"\",\"resourcetype\":\"card\"},\"status\":200}]}HTTP/1.1 204 No Content\r\n\r\nHTTP/1.1 404 Not Found\r\nContent-Length: 21\r\n\r\n",
        7,
        Ended::Clean,
        2,
    ),
    (
        "MKCOL http://office.example/books/sales/ HTTP/1.1\r\nx-office-caller: gus\r\n\r\nGET /books/sales?all HTTP/1.1\r\n\r\nOPTIONS / HTTP/1.1\r\nx-office-caller: zoe\r\n\r\n",
        "HTTP/1.1 405 Method Not Allowed\r\nAllow: ACL, DELETE, OPTIONS, PROPFIND, PROPPATCH, REPORT\r\nContent-Type: application/json\r\nContent-Length: 23\r\n\r\n{\"error\":\"not-allowed\"}HTTP/1.1 404 Not Found\r\nContent-Type: application/json\r\nContent-Length: 21\r\n\r\n{\"error\":\"not-found\"}HTTP/1.1 400 Bad Request\r\nContent-Type: application/json\r\nContent-Length: 26\r\n\r\n{\"error\":\"unknown-caller\"}",
        3,
        Ended::Clean,
        0,
    ),
    (
        "GET /books/none HTTP/1.1\r\nConnection: keep-alive\r\nconnection: x, \tCLOSE ,y\r\n\r\nGET /books/none HTTP/1.1\r\n\r\n",
        "HTTP/1.1 404 Not Found\r\nContent-Type: application/json\r\nContent-Length: 21\r\nConnection: close\r\n\r\n{\"error\":\"not-found\"}",
        1,
        Ended::Closed,
        0,
    ),
    (
        "GET /books/none HTTP/1.1\r\nConnection: closed, keep-alive\r\n\r\nGET /books/none HTTP/1.0\r\n\r\n",
        "HTTP/1.1 404 Not Found\r\nContent-Type: application/json\r\nContent-Length: 21\r\n\r\n{\"error\":\"not-found\"}HTTP/1.1 404 Not Found\r\nContent-Type: application/json\r\nContent-Length: 21\r\nConnection: close\r\n\r\n{\"error\":\"not-found\"}",
        2,
        Ended::Closed,
        0,
    ),
    (
        "GET /books/none HTTP/1.1\r\n\r\n\r\n",
        "HTTP/1.1 404 Not Found\r\nContent-Type: application/json\r\nContent-Length: 21\r\n\r\n{\"error\":\"not-found\"}",
        1,
        Ended::Cut,
        0,
    ),
];

/// Whether the reply to the question for the token of the book of sales tells so many changes.
fn has_changes(rt: &impl Abort, alloc: Global, answer: &Outcome, number: u64) -> bool {
    let end = format!(in alloc; "\"data:,sales/1/{number}\"}},\"status\":200}}]}}");
    answer
        .token
        .as_str()
        .ends_with(end.expect(rt, "memory").as_str())
}

/// How the stream ends, and how many changes the book of sales has afterwards.
fn check_end(
    rt: &impl Abort,
    alloc: Global,
    answer: &Outcome,
    served: Result<Served, StreamFault>,
    changes: u64,
) {
    let text = answer.text.as_str();
    assert_eq!(rt; answer.served, served, "{text:?}");
    assert!(rt; has_changes(rt, alloc, answer, changes), "{text:?}");
}

/// The same, and what is written.
pub(crate) fn check_answer(
    rt: &impl Abort,
    alloc: Global,
    answer: &Outcome,
    text: &str,
    served: Served,
    changes: u64,
) {
    check_text(rt, answer.text.as_str(), text);
    check_end(rt, alloc, answer, Ok(served), changes);
}

/// A write fails within the text, behind so many bytes, and the book of sales has so many changes.
pub(crate) fn check_cut_off(
    rt: &impl Abort,
    alloc: Global,
    answer: &Outcome,
    text: &str,
    behind: usize,
    changes: u64,
) {
    check_fact(
        rt,
        text.starts_with(answer.text.as_str()),
        "a beginning of the text",
    );
    let length = answer.text.len();
    check_fact(
        rt,
        behind < length && length < text.len(),
        "cut within the text",
    );
    check_end(rt, alloc, answer, Err(StreamFault::Write), changes);
}

fn check(rt: &impl Abort, alloc: Global, row: &Row<'_>, cutting: Cutting) {
    let (input, output, requests, ended, changes) = *row;
    let answer = answered(rt, alloc, POLICY, input.as_bytes(), cutting);
    let served = Served { requests, ended };
    check_answer(rt, alloc, &answer, output, served, changes);
}

#[test]
fn streams_are_answered_in_pieces_of_any_size(rt: HostRuntime) {
    for row in ROWS {
        for (read, write) in [(1, 1000), (7, 5), (100, 1000), (1000, 1000)] {
            let cutting = Cutting {
                read,
                write,
                ..WHOLE
            };
            check(&rt, rt.alloc(), row, cutting);
        }
    }
}

/// A caller whose name is not UTF-8 is not known; a text of a card that is not UTF-8 is no card's.
const OTHER_BYTES: &[u8] =
    b"OPTIONS / HTTP/1.1\r\nx-office-caller: \xff\r\n\r\nPUT /books/sales/x.vcf HTTP/1.1\r\nx-office-caller: ann\r\nContent-Length: 2\r\n\r\n\xc3\x28";

/// Other bytes are refused, and no front of a stream that is cut changes the Office.
#[test]
fn other_bytes_and_fronts_change_nothing(rt: HostRuntime) {
    let alloc = rt.alloc();
    let answer = answered(&rt, alloc, POLICY, OTHER_BYTES, WHOLE);
    let served = Served {
        requests: 2,
        ended: Ended::Clean,
    };
    check_answer(
        &rt,
        alloc,
        &answer,
        "HTTP/1.1 400 Bad Request\r\nContent-Type: application/json\r\nContent-Length: 26\r\n\r\n{\"error\":\"unknown-caller\"}HTTP/1.1 400 Bad Request\r\nContent-Type: application/json\r\nContent-Length: 23\r\n\r\n{\"error\":\"bad-request\"}",
        served,
        0,
    );
    for (length, _) in CUT.as_bytes().iter().enumerate() {
        let front = &CUT.as_bytes()[..length];
        let answer = answered(&rt, alloc, POLICY, front, WHOLE);
        check_fact(&rt, answer.served.is_ok(), "it is served");
        check_fact(&rt, has_changes(&rt, alloc, &answer, 0), "no change");
    }
}

/// Three new cards: requests of 121 bytes.
const THREE_CARDS: &str =
    "PUT /books/sales/a.vcf HTTP/1.1\r\nContent-Length: 44\r\nx-office-caller: bob\r\n\r\nBEGIN:VCARD\r\nVERSION:4.0\r\nFN:Bo\r\nEND:VCARD\r\nPUT /books/sales/b.vcf HTTP/1.1\r\nContent-Length: 44\r\nx-office-caller: bob\r\n\r\nBEGIN:VCARD\r\nVERSION:4.0\r\nFN:Bo\r\nEND:VCARD\r\nPUT /books/sales/c.vcf HTTP/1.1\r\nContent-Length: 44\r\nx-office-caller: bob\r\n\r\nBEGIN:VCARD\r\nVERSION:4.0\r\nFN:Bo\r\nEND:VCARD\r\n";

/// Their replies, of 43 bytes.
const THREE_CREATED: &str =
    "HTTP/1.1 201 Created\r\nContent-Length: 0\r\n\r\nHTTP/1.1 201 Created\r\nContent-Length: 0\r\n\r\nHTTP/1.1 201 Created\r\nContent-Length: 0\r\n\r\n";

/// So many bytes of their replies are written, the stream ends so, and the book of sales has so many changes.
fn check_front(
    rt: &impl Abort,
    alloc: Global,
    answer: &Outcome,
    length: usize,
    served: Result<Served, StreamFault>,
    changes: u64,
) {
    check_fact(
        rt,
        THREE_CREATED.starts_with(answer.text.as_str()),
        "a beginning of the text",
    );
    check_fact(rt, answer.text.len() == length, "the length");
    check_end(rt, alloc, answer, served, changes);
}

const ALL_THREE: Result<Served, StreamFault> = Ok(Served {
    requests: 3,
    ended: Ended::Clean,
});

/// Each front of the three requests does what its whole requests do, and no more.
#[test]
fn fronts_act_by_their_whole_requests(rt: HostRuntime) {
    let alloc = rt.alloc();
    for (length, _) in THREE_CARDS.as_bytes().iter().enumerate() {
        let (whole, more) = (length / 121, length % 121);
        let answer = answered(&rt, alloc, POLICY, &THREE_CARDS.as_bytes()[..length], WHOLE);
        let served = Served {
            requests: whole as u64,
            ended: if more == 0 { Ended::Clean } else { Ended::Cut },
        };
        check_front(&rt, alloc, &answer, 43 * whole, Ok(served), whole as u64);
    }
}

/// The read or the write that fails, by the number of those before it: reads of 60 bytes, and writes of 30. How many
/// bytes of the replies are written, how many requests acted, and how the stream ends. Neither is repeated, though the
/// next would succeed. Where a read fails each whole request was answered, and no other acted; where a write fails only
/// the last may have acted unanswered.
const FAILURES: &[(u64, u64, usize, u64, Result<Served, StreamFault>)] = &[
    (0, u64::MAX, 0, 0, Err(StreamFault::Read)),
    (1, u64::MAX, 0, 0, Err(StreamFault::Read)),
    (2, u64::MAX, 0, 0, Err(StreamFault::Read)),
    (3, u64::MAX, 43, 1, Err(StreamFault::Read)),
    (4, u64::MAX, 43, 1, Err(StreamFault::Read)),
    (5, u64::MAX, 86, 2, Err(StreamFault::Read)),
    (6, u64::MAX, 86, 2, Err(StreamFault::Read)),
    (7, u64::MAX, 129, 3, Err(StreamFault::Read)),
    (8, u64::MAX, 129, 3, ALL_THREE),
    (u64::MAX, 0, 0, 1, Err(StreamFault::Write)),
    (u64::MAX, 1, 30, 1, Err(StreamFault::Write)),
    (u64::MAX, 2, 43, 2, Err(StreamFault::Write)),
    (u64::MAX, 3, 73, 2, Err(StreamFault::Write)),
    (u64::MAX, 4, 86, 3, Err(StreamFault::Write)),
    (u64::MAX, 5, 116, 3, Err(StreamFault::Write)),
    (u64::MAX, 6, 129, 3, ALL_THREE),
];

#[test]
fn reads_and_writes_fail(rt: HostRuntime) {
    let alloc = rt.alloc();
    for (reads, writes, written, acted, served) in FAILURES {
        let cutting = Cutting {
            read: 60,
            write: 30,
            reads: *reads,
            writes: *writes,
        };
        let answer = answered(&rt, alloc, POLICY, THREE_CARDS.as_bytes(), cutting);
        check_front(&rt, alloc, &answer, *written, *served, *acted);
    }
    let full = Cutting { write: 0, ..WHOLE };
    let answer = answered(&rt, alloc, POLICY, THREE_CARDS.as_bytes(), full);
    check_end(&rt, alloc, &answer, Err(StreamFault::Write), 1);
}
