//! What a server counts, and the text that tells it.

use crate::offices::{POLICY, machine};
use book_desk_metrics::{Clock, Counted, Gauges, Held, Times, metrics_text};
use book_machine::Machine;
use book_office::MemoryKeeper;
use book_wire::serve_stream;
use std::alloc::Global;
use std::process::Abort;

/// 700 microseconds pass between two looks at it.
#[derive(Drop)]
struct Ticks(u64);

impl Clock for Ticks {
    ghost tells = { λ _ _ _. Unit {0} };

    fn micros(&mut self) -> u64 {
        self.0 = self.0.saturating_add(700);
        self.0
    }
}

/// Bob puts a card, and may not put it again; there is none that ann asks for; and then no request comes.
const REQUESTS: &str =
    "PUT /books/sales/b.vcf HTTP/1.1\r\nx-office-caller: bob\r\nContent-Length: 44\r\n\r\nBEGIN:VCARD\r\nVERSION:4.0\r\nFN:Bo\r\nEND:VCARD\r\nPUT /books/sales/b.vcf HTTP/1.1\r\nx-office-caller: bob\r\nContent-Length: 44\r\n\r\nBEGIN:VCARD\r\nVERSION:4.0\r\nFN:Bo\r\nEND:VCARD\r\nGET /books/sales/x.vcf HTTP/1.1\r\nx-office-caller: ann\r\n\r\n:\r\n\r\n";

/// What is told then.
const TOLD: &str = "\
# HELP book_desk_requests_total Replies, by the method of the request and the status.
# TYPE book_desk_requests_total counter
book_desk_requests_total{method=\"GET\",status=\"404\"} 1
book_desk_requests_total{method=\"PUT\",status=\"201\"} 1
book_desk_requests_total{method=\"PUT\",status=\"403\"} 1
book_desk_requests_total{method=\"none\",status=\"400\"} 1
# HELP book_desk_denials_total Denials, by the privilege that was missing.
# TYPE book_desk_denials_total counter
book_desk_denials_total{privilege=\"x-read-texts\"} 0
book_desk_denials_total{privilege=\"write-content\"} 1
book_desk_denials_total{privilege=\"write-properties\"} 0
book_desk_denials_total{privilege=\"bind\"} 0
book_desk_denials_total{privilege=\"unbind\"} 0
book_desk_denials_total{privilege=\"read-acl\"} 0
book_desk_denials_total{privilege=\"write-acl\"} 0
book_desk_denials_total{privilege=\"read-current-user-privilege-set\"} 0
book_desk_denials_total{privilege=\"x-read-names\"} 0
book_desk_denials_total{privilege=\"read\"} 0
book_desk_denials_total{privilege=\"write\"} 0
book_desk_denials_total{privilege=\"all\"} 0
# HELP book_desk_request_seconds How long requests were served.
# TYPE book_desk_request_seconds histogram
book_desk_request_seconds_bucket{le=\"0.001\"} 4
book_desk_request_seconds_bucket{le=\"0.005\"} 5
book_desk_request_seconds_bucket{le=\"0.02\"} 6
book_desk_request_seconds_bucket{le=\"0.1\"} 7
book_desk_request_seconds_bucket{le=\"0.5\"} 8
book_desk_request_seconds_bucket{le=\"2\"} 10
book_desk_request_seconds_bucket{le=\"+Inf\"} 11
book_desk_request_seconds_sum 4629106e-6
book_desk_request_seconds_count 11
# HELP book_desk_connections_total Connections that came.
# TYPE book_desk_connections_total counter
book_desk_connections_total 7
# HELP book_desk_connections_open Connections that are there.
# TYPE book_desk_connections_open gauge
book_desk_connections_open 2
# HELP book_desk_connection_faults_total Connections that had a fault.
# TYPE book_desk_connection_faults_total counter
book_desk_connection_faults_total 1
# HELP book_desk_start_time_seconds When the server began, in seconds since 1970.
# TYPE book_desk_start_time_seconds gauge
book_desk_start_time_seconds 1790000000
# HELP book_desk_received_bytes_total Bytes of requests that were taken from connections.
# TYPE book_desk_received_bytes_total counter
book_desk_received_bytes_total 2047
# HELP book_desk_sent_bytes_total Bytes of replies that were sent to connections.
# TYPE book_desk_sent_bytes_total counter
book_desk_sent_bytes_total 65536
# HELP book_desk_epoch The epoch.
# TYPE book_desk_epoch gauge
book_desk_epoch 3
# HELP book_desk_cards Cards.
# TYPE book_desk_cards gauge
book_desk_cards 5
# HELP book_desk_books Books.
# TYPE book_desk_books gauge
book_desk_books 2
# HELP book_desk_persons Persons.
# TYPE book_desk_persons gauge
book_desk_persons 4
";

const GAUGES: Gauges = Gauges {
    came: 7,
    open: 2,
    faults: 1,
    received: 2_047,
    sent: 65_536,
    since: 1_790_000_000,
    held: Some(Held {
        epoch: 3,
        cards: 5,
        books: 2,
        persons: 4,
    }),
};

/// Times that pass one bound more each, and two that are at a bound.
const TIMES: &[u64] = &[
    1_000, 1_001, 5_001, 20_001, 100_001, 500_001, 2_000_000, 2_000_001,
];

/// The times of three requests that took 700 microseconds each, and of some others.
fn timed(times: Times) -> Times {
    let mut times = times;
    for micros in TIMES {
        times.time(*micros);
    }
    times
}

/// A service that has served the requests.
fn counted(rt: &impl Abort, alloc: Global) -> Counted<Machine<MemoryKeeper>, Ticks> {
    let mut service = Counted::new(machine(rt, alloc, POLICY), Ticks(0));
    let mut input = REQUESTS.as_bytes();
    let mut output: Vec<u8> = Vec::new(alloc);
    let _served = serve_stream(alloc, &mut service, &mut input, &mut output);
    service
}

/// The text after the requests, and after other times.
fn told(rt: &impl Abort, alloc: Global) -> Vec<u8> {
    let service = counted(rt, alloc);
    let times = timed(service.times);
    let text = metrics_text(alloc, &service.counts, &times, &GAUGES);
    drop(service);
    text.expect(rt, "memory")
}

#[test]
fn metrics_are_told(rt: HostRuntime) {
    let text = told(&rt, rt.alloc());
    assert!(rt; text.as_slice() == TOLD.as_bytes());
}
