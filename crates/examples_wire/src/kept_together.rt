//! Rounds, without sockets: one request of each connection, one after the other, and one commit of what they edited.

use crate::checks::{check_bytes, check_fact};
use crate::offices::{POLICY, machine};
use book_desk_connections::{Connections, Round};
use book_machine::Machine;
use book_office::MemoryKeeper;
use book_office_faults::Fused;
use book_wire::Wire;
use std::process::Abort;

/// Connections of a machine whose store fails after so many calls.
type Opened = Connections<Machine<Fused<MemoryKeeper>>>;

const PUT: &str =
    "PUT /books/sales/a.vcf HTTP/1.1\r\nContent-Length: 44\r\nx-office-caller: bob\r\n\r\nBEGIN:VCARD\r\nVERSION:4.0\r\nFN:Bo\r\nEND:VCARD\r\n";

const HEAD: &str = "HEAD /books/sales/a.vcf HTTP/1.1\r\nx-office-caller: ann\r\n\r\n";

const TWO: &str =
    "DELETE /books/sales/a.vcf HTTP/1.1\r\nx-office-caller: ann\r\n\r\nHEAD /books/sales/a.vcf HTTP/1.1\r\nx-office-caller: ann\r\n\r\n";

const CREATED: &str = "HTTP/1.1 201 Created\r\nContent-Length: 0\r\n\r\n";

const DELETED: &str = "HTTP/1.1 204 No Content\r\n\r\n";

const ABSENT: &str = "HTTP/1.1 404 Not Found\r\nContent-Length: 21\r\n\r\n";

const UNAVAILABLE: &str =
    "HTTP/1.1 503 Service Unavailable\r\nContent-Type: application/json\r\nContent-Length: 23\r\n\r\n{\"error\":\"unavailable\"}";

/// The client at the place sends a text, and nothing is answered.
fn hold_one(rt: &(impl Abort + AllocGlobal), connections: &mut Opened, place: usize, text: &str) {
    if connections.takes_bytes(place) {
        let held = connections.hold(place, text.as_bytes());
        held.ok().expect(rt, "memory");
    }
}

/// The client at the place sends nothing more, and one request of it is answered.
fn answer_one(rt: &(impl Abort + AllocGlobal), connections: &mut Opened, place: usize) {
    if connections.takes_bytes(place) {
        let fed = connections.feed(rt.alloc(), place, &[]);
        fed.ok().expect(rt, "memory");
    }
}

/// What each of these clients sent, at the first places, and nothing is answered.
fn held(rt: &(impl Abort + AllocGlobal), sent: &[&str], calls: u64) -> Opened {
    let alloc = rt.alloc();
    let wire = Wire::new(alloc).expect(rt, "memory");
    let keeper = Fused::new(machine(rt, alloc, POLICY).release(), calls);
    let mut connections = Connections::new(alloc, wire, Machine::new(keeper));
    for text in sent {
        let place = connections.open(alloc).ok().expect(rt, "memory");
        hold_one(rt, &mut connections, place, text);
        check_fact(rt, connections.may_join(place), "one that may join a round");
    }
    connections
}

/// What waits to be sent to the client at the place is the text.
fn check_unsent(rt: &impl Abort, connections: &Opened, place: usize, text: &str) {
    let unsent = connections.unsent(place).expect(rt, "a connection");
    check_bytes(rt, unsent, text.as_bytes());
}

/// Each is answered by the Office that those before it left, and one request alone of one that sent two.
#[test]
fn a_round_answers_one_request_of_each(rt: HostRuntime) {
    let mut connections = held(&rt, &[PUT, TWO, HEAD], u64::MAX);
    let round = connections.round(rt.alloc(), &[0, 1, 2]);
    check_fact(&rt, round == Round::Kept(None), "a round that is kept");
    check_unsent(&rt, &connections, 0, CREATED);
    check_unsent(&rt, &connections, 1, DELETED);
    check_unsent(&rt, &connections, 2, ABSENT);
    check_fact(&rt, connections.answered == 3, "three requests");
    drop(connections);
}

/// One connection alone has no round, nor one whose reply waits to be sent.
#[test]
fn a_round_needs_two(rt: HostRuntime) {
    let mut connections = held(&rt, &[HEAD, HEAD], u64::MAX);
    let alone = connections.round(rt.alloc(), &[1]);
    check_fact(&rt, alone == Round::Undone, "no round of one");
    answer_one(&rt, &mut connections, 0);
    check_unsent(&rt, &connections, 0, ABSENT);
    let other = connections.round(rt.alloc(), &[0, 1, 2]);
    check_fact(&rt, other == Round::Undone, "no round of one that may join");
    check_unsent(&rt, &connections, 1, "");
    drop(connections);
}

/// Where the store fails as the round begins nothing is answered, and each goes on with what it brought.
#[test]
fn a_round_that_is_not_kept_answers_nothing(rt: HostRuntime) {
    let mut connections = held(&rt, &[PUT, HEAD], 0);
    let round = connections.round(rt.alloc(), &[0, 1]);
    check_fact(&rt, round == Round::Undone, "a round that is not kept");
    check_unsent(&rt, &connections, 0, "");
    check_unsent(&rt, &connections, 1, "");
    check_fact(&rt, connections.answered == 0, "no request");
    answer_one(&rt, &mut connections, 0);
    check_unsent(&rt, &connections, 0, UNAVAILABLE);
    drop(connections);
}
