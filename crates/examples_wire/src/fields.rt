//! The fields of a head, and the limits of heads and bodies.

use crate::offices::{POLICY, WHOLE, answered};
use crate::streams::check_answer;
use crate::texts::{Pieces, written};
use book_wire::{Ended, Served};
use std::alloc::Global;
use std::process::Abort;

const CREATED: &str = "HTTP/1.1 201 Created\r\nContent-Length: 0\r\n\r\n";

const REPLACED: &str = "HTTP/1.1 204 No Content\r\n\r\n";

const BAD_REQUEST: &str =
    "HTTP/1.1 400 Bad Request\r\nContent-Type: application/json\r\nContent-Length: 23\r\n\r\n{\"error\":\"bad-request\"}";

const KEPT: &str =
    "HTTP/1.1 412 Precondition Failed\r\nContent-Type: application/json\r\nContent-Length: 21\r\n\r\n{\"error\":\"overwrite\"}";

/// The book alone, and the book with its two cards.
const BOOK: &str =
    "HTTP/1.1 207 Multi-Status\r\nContent-Type: application/json\r\nContent-Length: 83\r\n\r\n{\"responses\":[{\"href\":\"/books/sales\",\"prop\":{\"displayname\":\"Sales\"},\"status\":200}]}";

const CARDS: &str =
    "HTTP/1.1 207 Multi-Status\r\nContent-Type: application/json\r\nContent-Length: 221\r\n\r\n{\"responses\":[{\"href\":\"/books/sales\",\"prop\":{\"displayname\":\"Sales\"},\"status\":200},{\"href\":\"/books/sales/b.vcf\",\"prop\":{\"displayname\":\"\"},\"status\":200},{\"href\":\"/books/sales/c.vcf\",\"prop\":{\"displayname\":\"\"},\"status\":200}]}";

/// Two new cards of ann.
const TWO_CARDS: &[u8] =
    b"PUT /books/sales/b.vcf HTTP/1.1\r\nContent-Length: 44\r\nx-office-caller: ann\r\n\r\nBEGIN:VCARD\r\nVERSION:4.0\r\nFN:Bo\r\nEND:VCARD\r\nPUT /books/sales/c.vcf HTTP/1.1\r\nContent-Length: 44\r\nx-office-caller: ann\r\n\r\nBEGIN:VCARD\r\nVERSION:4.0\r\nFN:Bo\r\nEND:VCARD\r\n";

/// What ann asks of the one card or of the book, by request line and fields, and the reply. Overwrite is T where it is
/// not there (RFC 4918, section 10.6); Destination is the path of another card (section 10.3); Depth is 0 where it is
/// not there (own profile).
const ASKED: &[(&[u8], &str)] = &[
    (
        b"COPY /books/sales/b.vcf HTTP/1.1\r\nDestination: /books/sales/c.vcf",
        REPLACED,
    ),
    (
        b"COPY /books/sales/b.vcf HTTP/1.1\r\nDestination: /books/sales/c.vcf\r\nOverwrite: T",
        REPLACED,
    ),
    (
        b"COPY /books/sales/b.vcf HTTP/1.1\r\nDestination: /books/sales/c.vcf\r\nOverwrite: F",
        KEPT,
    ),
    (
        b"MOVE /books/sales/b.vcf HTTP/1.1\r\nDestination: /books/sales/c.vcf\r\nOverwrite: F",
        KEPT,
    ),
    (
        b"COPY /books/sales/b.vcf HTTP/1.1\r\nDestination: /books/sales/c.vcf\r\nOverwrite: f",
        BAD_REQUEST,
    ),
    (
        b"COPY /books/sales/b.vcf HTTP/1.1\r\nDestination: /books/sales/c.vcf\r\nOverwrite:",
        BAD_REQUEST,
    ),
    (
        b"COPY /books/sales/b.vcf HTTP/1.1\r\nDestination: http://office.example/books/sales/c.vcf\r\nOverwrite: F",
        KEPT,
    ),
    (b"COPY /books/sales/b.vcf HTTP/1.1", BAD_REQUEST),
    (b"MOVE /books/sales/b.vcf HTTP/1.1", BAD_REQUEST),
    (
        b"COPY /books/sales/b.vcf HTTP/1.1\r\nDestination: books/sales/c.vcf",
        BAD_REQUEST,
    ),
    (
        b"COPY /books/sales/b.vcf HTTP/1.1\r\nDestination: /books/sales/c.vcf?all",
        BAD_REQUEST,
    ),
    (
        b"COPY /books/sales/b.vcf HTTP/1.1\r\nDestination: /books/sales/\xff",
        BAD_REQUEST,
    ),
    (b"PROPFIND /books/sales HTTP/1.1", BOOK),
    (b"PROPFIND /books/sales HTTP/1.1\r\nDepth: 0", BOOK),
    (b"PROPFIND /books/sales HTTP/1.1\r\nDepth: 1", CARDS),
    (
        b"PROPFIND /books/sales HTTP/1.1\r\nDepth: infinity",
        BAD_REQUEST,
    ),
    (b"PROPFIND /books/sales HTTP/1.1\r\nDepth: 01", BAD_REQUEST),
];

/// The rest of each request: ann asks, and names a property, at which COPY and MOVE don't look.
const REST: &[u8] =
    b"\r\nx-office-caller: ann\r\nContent-Length: 24\r\n\r\n{\"prop\":[\"displayname\"]}";

#[test]
fn fields_are_read(rt: HostRuntime) {
    let alloc = rt.alloc();
    let mut input = Vec::new(alloc);
    input.extend_from_slice(TWO_CARDS).expect(&rt, "memory");
    let mut wanted = String::new(alloc);
    for told in [CREATED, CREATED] {
        wanted.push_str(told).expect(&rt, "memory");
    }
    for (asked, told) in ASKED {
        input.extend_from_slice(asked).expect(&rt, "memory");
        input.extend_from_slice(REST).expect(&rt, "memory");
        wanted.push_str(told).expect(&rt, "memory");
    }
    let served = Served {
        requests: 19,
        ended: Ended::Clean,
    };
    let answer = answered(&rt, alloc, POLICY, input.as_slice(), WHOLE);
    // Each card that is put is a change, and each copy over a card.
    check_answer(&rt, alloc, &answer, wanted.as_str(), served, 4);
}

const BAD_HEAD: &str =
    "HTTP/1.1 400 Bad Request\r\nContent-Type: application/json\r\nContent-Length: 20\r\nConnection: close\r\n\r\n{\"error\":\"bad-head\"}";

const TOO_LARGE: &str =
    "HTTP/1.1 431 Request Header Fields Too Large\r\nContent-Type: application/json\r\nContent-Length: 26\r\nConnection: close\r\n\r\n{\"error\":\"head-too-large\"}";

/// Requests, each on a connection of its own, the reply, how many were answered, and how the connection ends. Heads
/// have at most 16,384 bytes, and bodies at most 262,144; a length has 1 to 10 digits; each field that is read comes
/// once; and what is cut is not answered.
const ALONE: &[(Pieces<'static>, &str, u64, Ended)] = &[
    (
        &[
            ("GET /books/none HTTP/1.1\r\n", 1),
            ("a: b\r\n", 63),
            ("c: ", 1),
            ("d", 15_974),
            ("\r\n\r\n", 1),
        ],
        TOO_LARGE,
        0,
        Ended::Closed,
    ),
    (
        &[
            (
                "PUT /books/sales/x.vcf HTTP/1.1\r\nx-office-caller: ann\r\nContent-Length: 262144\r\n\r\n",
                1,
            ),
            ("A", 262_144),
        ],
        "HTTP/1.1 400 Bad Request\r\nContent-Type: application/json\r\nContent-Length: 48\r\n\r\n{\"error\":\"bad-card\",\"fault\":\"too-long\",\"line\":0}",
        1,
        Ended::Clean,
    ),
    (
        &[(
            "GET /books/none HTTP/1.1\r\nContent-Length: 0000000003\r\n\r\nabc",
            1,
        )],
        "HTTP/1.1 404 Not Found\r\nContent-Type: application/json\r\nContent-Length: 21\r\n\r\n{\"error\":\"not-found\"}",
        1,
        Ended::Clean,
    ),
    (
        &[("GET /books/none HTTP/1.1\r\nContent-Length:\r\n\r\n", 1)],
        BAD_HEAD,
        0,
        Ended::Closed,
    ),
    (
        &[(
            "GET /books/none HTTP/1.1\r\nDestination: /books/a\r\ndestination: /books/a\r\n\r\n",
            1,
        )],
        BAD_HEAD,
        0,
        Ended::Closed,
    ),
    (
        &[(
            "GET /books/none HTTP/1.1\r\nDepth: 0\r\ndepth: 0\r\n\r\n",
            1,
        )],
        BAD_HEAD,
        0,
        Ended::Closed,
    ),
    (
        &[(
            "GET /books/none HTTP/1.1\r\nTransfer-Encoding: chunked\r\nTransfer-Encoding: chunked\r\n\r\n",
            1,
        )],
        BAD_HEAD,
        0,
        Ended::Closed,
    ),
    (
        &[("HEAD / HTTP/1.1\r\nContent-Length: 1 1\r\n\r\n", 1)],
        "HTTP/1.1 400 Bad Request\r\nContent-Length: 20\r\nConnection: close\r\n\r\n",
        0,
        Ended::Closed,
    ),
    (
        &[("GET /books/none HTTP/1.1\r\nDepth: 0\r\n", 1)],
        "",
        0,
        Ended::Cut,
    ),
    (
        &[("GET /books/none HTTP/1.1\r\nContent-Length: 2\r\n\r\na", 1)],
        "",
        0,
        Ended::Cut,
    ),
];

fn check_alone(
    rt: &impl Abort,
    alloc: Global,
    pieces: Pieces<'_>,
    told: &str,
    requests: u64,
    ended: Ended,
) {
    let input = written(rt, alloc, pieces);
    let answer = answered(rt, alloc, POLICY, input.as_str().as_bytes(), WHOLE);
    let served = Served { requests, ended };
    check_answer(rt, alloc, &answer, told, served, 0);
}

#[test]
fn heads_and_bodies_have_limits(rt: HostRuntime) {
    for (pieces, told, requests, ended) in ALONE {
        check_alone(&rt, rt.alloc(), pieces, told, *requests, *ended);
    }
}
