//! Connections at once, without sockets: each is answered as it is alone, however its bytes are cut and mixed with those
//! of others, and the requests of all are one run.

use crate::checks::{check_bytes, check_fact};
use crate::offices::{POLICY, machine};
use book_desk_connections::Connections;
use book_machine::Machine;
use book_office::MemoryKeeper;
use book_wire::Wire;
use std::process::Abort;

/// What a client sends, and what it is sent.
type Client<'a> = (&'a str, &'a str);

/// Four clients, none of which changes what another is answered.
const CLIENTS: &[Client<'static>] = &[
    (
        "GET /books/none HTTP/1.1\r\nx-office-caller: bob\r\n\r\nOPTIONS /books/sales HTTP/1.1\r\nx-office-caller: bob\r\n\r\n",
        "HTTP/1.1 404 Not Found\r\nContent-Type: application/json\r\nContent-Length: 21\r\n\r\n{\"error\":\"not-found\"}HTTP/1.1 200 OK\r\nAllow: ACL, DELETE, OPTIONS, PROPFIND, PROPPATCH, REPORT\r\nContent-Length: 0\r\n\r\n",
    ),
    (
        "GET /books/none HTTP/1.1\r\nConnection: close\r\n\r\nGET /books/none HTTP/1.1\r\n\r\n",
        "HTTP/1.1 404 Not Found\r\nContent-Type: application/json\r\nContent-Length: 21\r\nConnection: close\r\n\r\n{\"error\":\"not-found\"}",
    ),
    (
        "OPTIONS / HTTP/1.1\r\nx-office-caller: zoe\r\n\r\nGET /books/sales?all HTTP/1.0\r\n\r\n",
        "HTTP/1.1 400 Bad Request\r\nContent-Type: application/json\r\nContent-Length: 26\r\n\r\n{\"error\":\"unknown-caller\"}HTTP/1.1 404 Not Found\r\nContent-Type: application/json\r\nContent-Length: 21\r\nConnection: close\r\n\r\n{\"error\":\"not-found\"}",
    ),
    (
        "GET /books/none HTTP/1.1\r\n\r\nPUT /books/sales/n.vcf HTTP/1.1\r\nContent-Length: 262145\r\n\r\nBEGIN:VCARD\r\n",
        "HTTP/1.1 404 Not Found\r\nContent-Type: application/json\r\nContent-Length: 21\r\n\r\n{\"error\":\"not-found\"}HTTP/1.1 413 Payload Too Large\r\nContent-Type: application/json\r\nContent-Length: 26\r\nConnection: close\r\n\r\n{\"error\":\"body-too-large\"}",
    ),
];

/// A piece that a client sends, by its place, and what it is sent then.
type Step<'a> = (usize, &'a str, &'a str);

const ABSENT: &str =
    "HTTP/1.1 404 Not Found\r\nContent-Type: application/json\r\nContent-Length: 21\r\n\r\n{\"error\":\"not-found\"}";

const CREATED: &str = "HTTP/1.1 201 Created\r\nContent-Length: 0\r\n\r\n";

/// Two clients whose requests alternate, each cut where the other has its turn.
const STEPS: &[Step<'static>] = &[
    (
        0,
        "PUT /books/sales/a.vcf HTTP/1.1\r\nContent-Length: 44\r\nx-office-ca",
        "",
    ),
    (
        1,
        "GET /books/sales/a.vcf HTTP/1.1\r\nx-office-caller: ann\r\n\r\nDELETE /books/sales/a.vcf HTTP/1.1\r\nx-off",
        "HTTP/1.1 404 Not Found\r\nContent-Type: application/json\r\nContent-Length: 21\r\n\r\n{\"error\":\"not-found\"}",
    ),
    (
        0,
        "ller: bob\r\n\r\nBEGIN:VCARD\r\nVERSION:4.0\r\nFN:Bo\r\nEND:VCARD\r\nHEAD /books/sales/a.vcf HTTP/1.1\r\nx-office-caller: bo",
        CREATED,
    ),
    (
        1,
        "ice-caller: ann\r\n\r\n",
        "HTTP/1.1 204 No Content\r\n\r\n",
    ),
    (
        0,
        "b\r\n\r\n",
        "HTTP/1.1 404 Not Found\r\nContent-Length: 21\r\n\r\n",
    ),
];

/// The connections of so many clients, at the first places.
pub(crate) fn opened(
    rt: &(impl Abort + AllocGlobal),
    clients: usize,
) -> Connections<Machine<MemoryKeeper>> {
    let alloc = rt.alloc();
    let wire = Wire::new(alloc).expect(rt, "memory");
    let mut connections = Connections::new(alloc, wire, machine(rt, alloc, POLICY));
    for place in 0..clients {
        check_fact(
            rt,
            connections.open(alloc).ok() == Some(place),
            "the next place",
        );
    }
    connections
}

/// The client at the place sends a piece, if its connection takes one. One request is answered.
fn bring_one(
    rt: &(impl Abort + AllocGlobal),
    connections: &mut Connections<Machine<MemoryKeeper>>,
    place: usize,
    piece: &[u8],
) {
    if connections.takes_bytes(place) {
        let fed = connections.feed(rt.alloc(), place, piece);
        fed.ok().expect(rt, "memory");
    }
}

/// The client at the place sends a piece, if its connection takes one. Each of up to four requests is answered.
fn bring(
    rt: &(impl Abort + AllocGlobal),
    connections: &mut Connections<Machine<MemoryKeeper>>,
    place: usize,
    piece: &[u8],
) {
    bring_one(rt, connections, place, piece);
    for _ in 0..3 {
        bring_one(rt, connections, place, &[]);
    }
}

/// What waits to be sent to the client at the place is the text, and is sent.
fn check_told(
    rt: &(impl Abort + AllocGlobal),
    connections: &mut Connections<Machine<MemoryKeeper>>,
    place: usize,
    text: &str,
) {
    let unsent = connections.unsent(place).expect(rt, "a connection");
    check_bytes(rt, unsent, text.as_bytes());
    let count = unsent.len();
    let sent = connections.did_send(rt.alloc(), place, count);
    sent.ok().expect(rt, "memory");
}

/// Each client's bytes in two pieces, the second ones after the first ones of all.
fn check_cut(rt: &(impl Abort + AllocGlobal), at: usize) {
    let mut connections = opened(rt, CLIENTS.len());
    for (place, (sent, _)) in CLIENTS.iter().enumerate() {
        let sent = sent.as_bytes();
        let (front, _) = sent.split_at(at.min(sent.len()));
        bring(rt, &mut connections, place, front);
    }
    for (place, (sent, told)) in CLIENTS.iter().enumerate() {
        let sent = sent.as_bytes();
        let (_, rest) = sent.split_at(at.min(sent.len()));
        bring(rt, &mut connections, place, rest);
        check_told(rt, &mut connections, place, told);
    }
    drop(connections);
}

#[test]
fn each_cut_is_answered_four_at_once(rt: HostRuntime) {
    for at in 0..160 {
        check_cut(&rt, at);
    }
}

#[test]
fn one_request_is_answered_at_a_time(rt: HostRuntime) {
    let mut connections = opened(&rt, 1);
    let request = b"GET /books/none HTTP/1.1\r\n\r\nGET /books/none HTTP/1.1\r\n\r\n";
    bring_one(&rt, &mut connections, 0, request);
    check_told(&rt, &mut connections, 0, ABSENT);
    bring_one(&rt, &mut connections, 0, &[]);
    check_told(&rt, &mut connections, 0, ABSENT);
    bring_one(&rt, &mut connections, 0, &[]);
    check_told(&rt, &mut connections, 0, "");
    drop(connections);
}

#[test]
fn requests_that_alternate_are_one_run(rt: HostRuntime) {
    let mut connections = opened(&rt, 2);
    for (place, piece, told) in STEPS {
        bring(&rt, &mut connections, *place, piece.as_bytes());
        check_told(&rt, &mut connections, *place, told);
    }
    // A place is taken again by the next connection.
    connections.let_go(0);
    check_fact(
        &rt,
        connections.open(rt.alloc()).ok() == Some(0),
        "a place that is free again",
    );
    drop(connections);
}
