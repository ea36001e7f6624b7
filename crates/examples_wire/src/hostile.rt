//! Hostile requests, each on a connection and to a machine of its own: nothing is changed.

use crate::offices::{POLICY, WHOLE, answered};
use crate::streams::check_answer;
use crate::texts::{Pieces, written};
use book_wire::{Ended, Served};
use std::alloc::Global;
use std::process::Abort;

const BAD_HEAD: &str =
    "HTTP/1.1 400 Bad Request\r\nContent-Type: application/json\r\nContent-Length: 20\r\nConnection: close\r\n\r\n{\"error\":\"bad-head\"}";

const TOO_LARGE: &str =
    "HTTP/1.1 431 Request Header Fields Too Large\r\nContent-Type: application/json\r\nContent-Length: 26\r\nConnection: close\r\n\r\n{\"error\":\"head-too-large\"}";

const NOT_IMPLEMENTED: &str =
    "HTTP/1.1 501 Not Implemented\r\nContent-Type: application/json\r\nContent-Length: 27\r\nConnection: close\r\n\r\n{\"error\":\"not-implemented\"}";

const BAD_REQUEST: &str =
    "HTTP/1.1 400 Bad Request\r\nContent-Type: application/json\r\nContent-Length: 23\r\n\r\n{\"error\":\"bad-request\"}";

/// Heads that are no request, which close the connection.
const CLOSING: &[(Pieces<'static>, &str)] = &[
    (
        &[(
            "PUT /books/sales/x.vcf HTTP/1.1\r\nContent-Length: 3\r\nContent-Length: 3\r\n\r\nabc",
            1,
        )],
        BAD_HEAD,
    ),
    (
        &[(
            "GET / HTTP/1.1\r\nx-office-caller: ann\r\nX-OFFICE-CALLER: ann\r\n\r\n",
            1,
        )],
        BAD_HEAD,
    ),
    (
        &[("GET / HTTP/1.1\r\nContent-Length: -1\r\n\r\n", 1)],
        BAD_HEAD,
    ),
    (
        &[("GET / HTTP/1.1\r\nContent-Length: 00000000001\r\n\r\n", 1)],
        BAD_HEAD,
    ),
    (
        &[("LOCK / HTTP/1.1\r\nOverwrite: T\r\nOverwrite: T\r\n\r\n", 1)],
        BAD_HEAD,
    ),
    (&[("GET  / HTTP/1.1\r\n\r\n", 1)], BAD_HEAD),
    (
        &[(
            "GET / HTTP/1.1\r\nTransfer-Encoding: chunked\r\nContent-Length: 999999\r\n\r\n",
            1,
        )],
        NOT_IMPLEMENTED,
    ),
    (&[("LOCK / HTTP/1.1\r\n\r\n", 1)], NOT_IMPLEMENTED),
    (&[("get / HTTP/1.1\r\n\r\n", 1)], NOT_IMPLEMENTED),
    (
        &[("HEAD / HTTP/1.1\r\nContent-Length: 262145\r\n\r\n", 1)],
        "HTTP/1.1 413 Payload Too Large\r\nContent-Length: 26\r\nConnection: close\r\n\r\n",
    ),
    (
        &[("GET / HTTP/1.1\r\n", 1), ("a: b\r\n", 65), ("\r\n", 1)],
        TOO_LARGE,
    ),
    (
        &[("GET / HTTP/1.1\r\n", 1), ("a: b\r\n", 3300), ("\r\n", 1)],
        TOO_LARGE,
    ),
    (&[("GET / HTTP/1.1\r\na: ", 1), ("b", 16_384)], TOO_LARGE),
];

/// A head of 16,384 bytes with 64 fields is read; bodies that mean nothing are refused, and the connection stays.
const STAYING: &[(Pieces<'static>, &str)] = &[
    (
        &[
            ("GET /books/none HTTP/1.1\r\n", 1),
            ("a: b\r\n", 63),
            ("c: ", 1),
            ("d", 15_973),
            ("\r\n\r\n", 1),
        ],
        "HTTP/1.1 404 Not Found\r\nContent-Type: application/json\r\nContent-Length: 21\r\n\r\n{\"error\":\"not-found\"}",
    ),
    (
        &[(
            "MOVE /books/sales/b.vcf HTTP/1.1\r\nx-office-caller: ann\r\nDestination: /books/sales/c.vcf\r\nOverwrite: x\r\n\r\n",
            1,
        )],
        BAD_REQUEST,
    ),
    (
        &[
            (
                "ACL /books/sales HTTP/1.1\r\nx-office-caller: ann\r\nContent-Length: 200\r\n\r\n",
                1,
            ),
            ("[", 200),
        ],
        BAD_REQUEST,
    ),
    (
        &[
            (
                "PUT /books/sales/x.vcf HTTP/1.1\r\nx-office-caller: ann\r\nContent-Length: 65537\r\n\r\n",
                1,
            ),
            ("A", 65_537),
        ],
        "HTTP/1.1 400 Bad Request\r\nContent-Type: application/json\r\nContent-Length: 48\r\n\r\n{\"error\":\"bad-card\",\"fault\":\"too-long\",\"line\":0}",
    ),
];

fn check(rt: &impl Abort, alloc: Global, pieces: Pieces<'_>, wanted: &str, served: Served) {
    let input = written(rt, alloc, pieces);
    let answer = answered(rt, alloc, POLICY, input.as_str().as_bytes(), WHOLE);
    check_answer(rt, alloc, &answer, wanted, served, 0);
}

/// What is no request is not counted.
#[test]
fn hostile_requests_change_nothing(rt: HostRuntime) {
    for (pieces, wanted) in CLOSING {
        let served = Served {
            requests: 0,
            ended: Ended::Closed,
        };
        check(&rt, rt.alloc(), pieces, wanted, served);
    }
    for (pieces, wanted) in STAYING {
        let served = Served {
            requests: 1,
            ended: Ended::Clean,
        };
        check(&rt, rt.alloc(), pieces, wanted, served);
    }
}
