//! Connections at once over loopback, by a clock of the test's own: whose turn it is, which is closed, and when.

use crate::checks::{check_bytes, check_fact};
use crate::logs::logged;
use crate::offices::{POLICY, machine};
use book_desk_loop::{Faults, Limits, Readiness, Stop, Woken, close_in_stages, serve_at_once};
use book_machine::{AdoptFault, Adopted, Machine};
use book_office::{MemoryKeeper, Policy};
use book_office_faults::Fused;
use book_policy::read_policy;
use book_wire_serving::{RoundService, Service, StreamFault};
use book_wire_steps::{Control, Traffic, Wish};
use std::alloc::Global;
use std::cell::Cell;
use std::io;
use std::io::{ErrorKind, Read, Write};
use std::net::{OpenListener, OpenStream, Shutdown, SocketAddr, TcpListener, TcpStream};
use std::process::Abort;
use std::rt::Clock;
use std::time::{Duration, Instant};

/// What a client sends before it is accepted, whether it sends no more, how many reads of its connection succeed, and what
/// it is sent.
#[derive(Clone, Copy)]
struct Client<'a> {
    sent: &'a str,
    ends: bool,
    reads: u64,
    told: &'a str,
}

/// Connections that are served.
struct Row<'a> {
    at_once: usize,
    /// The time-out, in seconds.
    idle: Option<u64>,
    clients: &'a [Client<'a>],
    /// Whether a connection gives its place to one that waits.
    gives_way: bool,
    /// The error of calls that are to accept one, as the system numbers them; 0 where it has none.
    refused: i32,
    /// How many calls are not refused before, and how many then are.
    before: u64,
    times: u64,
    /// Whether the loop came to its end.
    served: bool,
    /// How many connections had a fault.
    faults: u64,
    /// How many whole seconds passed.
    seconds: u64,
}

const ALL: u64 = u64::MAX;

const ABSENT: &str =
    "HTTP/1.1 404 Not Found\r\nContent-Type: application/json\r\nContent-Length: 21\r\n\r\n{\"error\":\"not-found\"}";

const TWICE_UNAVAILABLE: &str =
    "HTTP/1.1 503 Service Unavailable\r\nContent-Type: application/json\r\nContent-Length: 23\r\n\r\n{\"error\":\"unavailable\"}HTTP/1.1 503 Service Unavailable\r\nContent-Type: application/json\r\nContent-Length: 23\r\n\r\n{\"error\":\"unavailable\"}";

/// One that sends nothing.
const IDLE: Client<'static> = Client {
    sent: "",
    ends: false,
    reads: ALL,
    told: "",
};

/// One that sends a part of a head.
const CUT: Client<'static> = Client {
    sent: "GET /books/none HTTP/1.1\r\nx-office-",
    ..IDLE
};

/// One that sends a request, and stays.
const STAYS: Client<'static> = Client {
    sent: "GET /books/none HTTP/1.1\r\n\r\n",
    told: ABSENT,
    ..IDLE
};

/// One that sends a request, and no more.
const ENDS: Client<'static> = Client {
    ends: true,
    ..STAYS
};

/// One whose connection can be read once.
const UNREAD: Client<'static> = Client { reads: 1, ..STAYS };

/// One that sends too long a body, and waits for the reply.
const LONG: Client<'static> = Client {
    sent: "PUT /books/sales/n.vcf HTTP/1.1\r\nContent-Length: 262145\r\n\r\nBEGIN:VCARD\r\n",
    told: "HTTP/1.1 413 Payload Too Large\r\nContent-Type: application/json\r\nContent-Length: 26\r\nConnection: close\r\n\r\n{\"error\":\"body-too-large\"}",
    ..IDLE
};

const PLAIN: Row<'static> = Row {
    at_once: 2,
    idle: None,
    clients: &[],
    gives_way: true,
    refused: 0,
    before: 0,
    times: 1,
    served: true,
    faults: 0,
    seconds: 0,
};

const ROWS: &[Row<'static>] = &[
    // Another is served beside an idle one, which is closed once no more are to come.
    Row {
        clients: &[IDLE, ENDS],
        seconds: 1,
        ..PLAIN
    },
    // Where there is no room, the idle one is closed for the other.
    Row {
        at_once: 1,
        clients: &[IDLE, ENDS],
        ..PLAIN
    },
    // One whose request is not whole for a second is closed for the other.
    Row {
        at_once: 1,
        idle: Some(5),
        clients: &[CUT, ENDS],
        seconds: 1,
        ..PLAIN
    },
    // Where none gives its place away, the other waits until its time is up.
    Row {
        at_once: 1,
        idle: Some(5),
        clients: &[CUT, ENDS],
        gives_way: false,
        seconds: 5,
        ..PLAIN
    },
    // One that is only read to its end is closed for the other.
    Row {
        at_once: 1,
        clients: &[LONG, ENDS],
        ..PLAIN
    },
    // A request has 30 seconds.
    Row {
        idle: Some(3_600),
        clients: &[CUT],
        seconds: 30,
        ..PLAIN
    },
    // After a refusal the client has 2 seconds to read it.
    Row {
        clients: &[LONG],
        seconds: 2,
        ..PLAIN
    },
    // A fault ends one alone.
    Row {
        clients: &[UNREAD, ENDS],
        faults: 1,
        ..PLAIN
    },
    // Where no file descriptor is left (24), it waits for one.
    Row {
        clients: &[ENDS],
        refused: 24,
        ..PLAIN
    },
    // Where two calls find none left, the idle one is closed for the other.
    Row {
        clients: &[IDLE, ENDS],
        refused: 24,
        before: 1,
        times: 2,
        ..PLAIN
    },
    // Any other error (22) ends it.
    Row {
        refused: 22,
        served: false,
        ..PLAIN
    },
];

/// The time that has passed.
#[derive(Drop)]
struct Time {
    passed: Cell<Duration>,
}

impl Clock for Time {
    fn monotonic(&self) -> io::Result<Duration> {
        Ok(self.passed.get())
    }

    fn since_1970(&self) -> io::Result<Duration> {
        Ok(self.passed.get())
    }
}

/// Tells of each stream once, when it is watched first, and each time of a control, and lets as much time pass as it may.
#[derive(Drop)]
struct Script<'t> {
    time: &'t Time,
    watched: Vec<usize>,
}

impl<'t> Script<'t> {
    fn new(alloc: Global, time: &'t Time) -> Script<'t> {
        Script {
            time,
            watched: Vec::new(alloc),
        }
    }
}

/// A control that wishes an end once so many requests were answered, if ever.
#[derive(Drop)]
struct Watcher {
    ends_after: Option<u64>,
    /// What it was told last.
    traffic: Option<Traffic>,
}

impl Watcher {
    fn new(ends_after: Option<u64>) -> Watcher {
        Watcher {
            ends_after,
            traffic: None,
        }
    }
}

impl<M: Service> Control<M> for Watcher {
    #[tactic(auto, using(book_wire_steps::proofs::Takes::only_none))]
    fn take_turn(&mut self, _service: &mut M, traffic: Traffic) -> Wish {
        self.traffic = Some(traffic);
        match self.ends_after {
            Some(count) if traffic.answered >= count => Wish::End,
            _ => Wish::GoOn,
        }
    }
}

/// A control that adopts a policy once a request was answered.
#[derive(Drop)]
struct Adopter {
    alloc: Global,
    policy: Policy,
    /// What came of it.
    adopted: Option<Result<Adopted, AdoptFault>>,
}

impl Control<Machine<MemoryKeeper>> for Adopter {
    #[tactic(auto, using(book_wire_steps::proofs::Takes::only_none))]
    fn take_turn(&mut self, service: &mut Machine<MemoryKeeper>, traffic: Traffic) -> Wish {
        if traffic.answered != 1 || self.adopted.is_some() {
            return Wish::GoOn;
        }
        self.adopted = Some(service.adopt(self.alloc, &self.policy));
        Wish::GoOn
    }
}

impl Readiness<Peer> for Script<'_> {
    fn watch(&mut self, _stream: &Peer, place: usize) -> io::Result<()> {
        self.watched.push(place)?;
        Ok(())
    }

    fn wait(&mut self, most: Option<Duration>, ready: &mut Vec<usize>) -> io::Result<Woken> {
        let passed = self.time.passed.get();
        let most = most.unwrap_or(Duration::from_secs(1));
        self.time.passed.set(passed.saturating_add(most));
        for place in &self.watched {
            ready.push(*place)?;
        }
        self.watched.clear();
        Ok(Woken {
            listener: true,
            control: true,
        })
    }

    fn now(&self) -> io::Result<Instant> {
        Instant::now(self.time)
    }
}

/// A listener some of whose calls fail.
#[derive(Drop)]
struct Doors<'a> {
    listener: &'a TcpListener,
    clients: &'a [Client<'a>],
    refused: i32,
    before: u64,
    times: u64,
    calls: Cell<u64>,
    next: Cell<usize>,
}

impl<'a> Doors<'a> {
    /// No call is refused.
    fn new(listener: &'a TcpListener, clients: &'a [Client<'a>]) -> Doors<'a> {
        Doors {
            listener,
            clients,
            refused: 0,
            before: 0,
            times: 0,
            calls: Cell::new(0),
            next: Cell::new(0),
        }
    }

    /// Whether this call fails. It is counted.
    fn refuses(&self) -> bool {
        let calls = self.calls.get();
        self.calls.set(calls.saturating_add(1));
        self.refused != 0 && calls >= self.before && calls.saturating_sub(self.before) < self.times
    }
}

impl OpenListener for Doors<'_> {
    type Stream = Peer;

    fn accept(&self) -> io::Result<(Peer, SocketAddr)> {
        if self.refuses() {
            return Err(io::Error::from_raw_os_error(self.refused));
        }
        let next = self.next.get();
        let Some(client) = self.clients.get(next) else {
            return Err(ErrorKind::WouldBlock.into());
        };
        self.next.set(next.saturating_add(1));
        let (stream, address) = self.listener.accept()?;
        let peer = Peer {
            stream,
            reads: client.reads,
        };
        Ok((peer, address))
    }
}

/// A connection that fails after so many reads.
#[derive(Drop)]
struct Peer {
    stream: TcpStream,
    reads: u64,
}

impl Read for Peer {
    fn read(&mut self, buf: &mut [u8]) -> io::Result<usize> {
        if self.reads == 0 {
            return Err(ErrorKind::Other.into());
        }
        self.reads -= 1;
        self.stream.read(buf)
    }
}

impl Write for Peer {
    fn write(&mut self, buf: &[u8]) -> io::Result<usize> {
        self.stream.write(buf)
    }

    fn flush(&mut self) -> io::Result<()> {
        Ok(())
    }
}

impl OpenStream for Peer {
    fn shutdown(&self, how: Shutdown) -> io::Result<()> {
        self.stream.shutdown(how)
    }

    fn set_nonblocking(&self, nonblocking: bool) -> io::Result<()> {
        self.stream.set_nonblocking(nonblocking)
    }
}

/// How many connections had a fault.
#[derive(Drop)]
struct Told {
    faults: u64,
}

impl Faults for Told {
    ghost tells = { λ old fault new. Unit {0} };

    fn tell(&mut self, _fault: StreamFault) {
        self.faults = self.faults.saturating_add(1);
    }

    fn count(&self) -> u64 {
        self.faults
    }
}

/// How many connections a row has in all.
fn total_of(row: &Row<'_>) -> u16 {
    match u16::try_from(row.clients.len()) {
        Ok(0) => 1,
        Ok(count) => count,
        Err(_) => u16::MAX,
    }
}

/// How it ended, how many connections had a fault, and how many whole seconds passed.
type Ended = (Result<(), Stop>, u64, u64);

/// Serves the connections, and gives the service back.
fn served<M: RoundService, C: Control<M>>(
    alloc: Global,
    service: M,
    doors: &Doors<'_>,
    control: &mut C,
    limits: Limits,
) -> (M, Ended) {
    let time = Time {
        passed: Cell::new(Duration::ZERO),
    };
    let mut script = Script::new(alloc, &time);
    let mut told = Told { faults: 0 };
    let (service, ended) = serve_at_once(
        alloc,
        service,
        doors,
        &mut script,
        control,
        limits,
        &mut told,
    );
    (service, (ended, told.faults, time.passed.get().as_secs()))
}

/// Serves the connections of a row.
fn check_served(rt: &(impl Abort + AllocGlobal), doors: &Doors<'_>, row: &Row<'_>) {
    let alloc = rt.alloc();
    let mut watcher = Watcher::new(None);
    let limits = Limits {
        at_once: row.at_once,
        total: Some(total_of(row)),
        idle: match row.idle {
            Some(seconds) => Some(Duration::from_secs(seconds)),
            None => None,
        },
        gives_way: row.gives_way,
        is_administered: false,
    };
    let machine = machine(rt, alloc, POLICY);
    let (machine, (ended, faults, seconds)) = served(alloc, machine, doors, &mut watcher, limits);
    drop(machine);
    check_fact(rt, ended.is_ok() == row.served, "how it ended");
    check_fact(rt, faults == row.faults, "the faults");
    check_fact(rt, seconds == row.seconds, "the seconds");
}

/// Sends all that a client sends.
fn send(rt: &impl Abort, mut stream: &TcpStream, client: &Client<'_>) {
    let sent = stream.write_all(client.sent.as_bytes());
    sent.expect(rt, "a request");
    if client.ends {
        stream.shutdown(Shutdown::Write).expect(rt, "a request");
    }
}

/// Reads what a client is sent.
fn check_told(rt: &(impl Abort + AllocGlobal), mut stream: &TcpStream, client: &Client<'_>) {
    let mut reply = Vec::new(rt.alloc());
    stream.read_to_end(&mut reply).expect(rt, "a reply");
    check_bytes(rt, reply.as_slice(), client.told.as_bytes());
}

/// Serves a row whose clients are connected; all is sent before the first is accepted, and read after the last.
fn check(
    rt: &(impl Abort + AllocGlobal),
    listener: &TcpListener,
    streams: &[TcpStream],
    row: &Row<'_>,
) {
    for (stream, client) in streams.iter().zip(row.clients) {
        send(rt, stream, client);
    }
    let doors = Doors {
        listener,
        clients: row.clients,
        refused: row.refused,
        before: row.before,
        times: row.times,
        calls: Cell::new(0),
        next: Cell::new(0),
    };
    check_served(rt, &doors, row);
    for (stream, client) in streams.iter().zip(row.clients) {
        check_told(rt, stream, client);
    }
}

#[test]
fn each_is_served_or_closed_in_time(rt: HostRuntime) {
    let listener = TcpListener::bind(&rt, "127.0.0.1:0").expect(&rt, "a listener");
    let address = listener.local_addr().expect(&rt, "an address");
    for row in ROWS {
        let mut streams = Vec::new(rt.alloc());
        for _ in row.clients {
            let stream = TcpStream::connect(&rt, address).expect(&rt, "a connection");
            streams.push(stream).expect(&rt, "memory");
        }
        check(&rt, &listener, &streams, row);
    }
}

/// A store that fails: each whole request is answered so, and then it ends.
#[test]
fn a_store_that_fails_ends_it(rt: HostRuntime) {
    let alloc = rt.alloc();
    let listener = TcpListener::bind(&rt, "127.0.0.1:0").expect(&rt, "a listener");
    let address = listener.local_addr().expect(&rt, "an address");
    let stream = TcpStream::connect(&rt, address).expect(&rt, "a connection");
    let client = Client {
        sent: "GET /books/none HTTP/1.1\r\n\r\nGET /books/none HTTP/1.1\r\n\r\nGET /books/",
        told: TWICE_UNAVAILABLE,
        ..IDLE
    };
    send(&rt, &stream, &client);
    let clients = [client];
    let doors = Doors::new(&listener, &clients);
    let mut watcher = Watcher::new(None);
    let limits = Limits {
        at_once: 1,
        total: None,
        idle: None,
        gives_way: false,
        is_administered: true,
    };
    let keeper = Fused::new(machine(&rt, alloc, POLICY).release(), 0);
    let machine = Machine::new(keeper);
    let (machine, (ended, faults, _)) = served(alloc, machine, &doors, &mut watcher, limits);
    drop(machine);
    check_fact(&rt, ended == Err(Stop::Store), "how it ended");
    check_fact(&rt, faults == 0, "no fault");
    check_told(&rt, &stream, &client);
    let told = told_last(watcher.traffic);
    check_fact(&rt, told == Some((1, 1, 0, 2, true)), "what is told");
}

/// How many connections came, are there and had a fault, how many requests were answered, and whether the store shows nothing.
type Counts = (u64, usize, u64, u64, bool);

/// How many bytes were taken from connections, and sent to them.
type Bytes = (u64, u64);

/// Whether the server is administered; how many come in all; after how many replies the control wishes an end; and what it is
/// told last.
const WISHES: &[(bool, Option<u16>, u64, Option<Counts>, Option<Bytes>)] = &[
    // None is accepted.
    (true, None, 0, Some((0, 0, 0, 0, false)), Some((0, 0))),
    // The idle one is closed a second after the wish.
    (true, None, 1, Some((2, 1, 0, 1, false)), Some((28, 99))),
    // Where it is not, the control has no turn.
    (false, Some(2), 0, None, None),
];

/// What a control was told.
fn told_last(traffic: Option<Traffic>) -> Option<Counts> {
    let told = traffic?;
    Some((
        told.came,
        told.open,
        told.faults,
        told.answered,
        told.shows_nothing,
    ))
}

/// How many bytes it was told of.
fn bytes_told(traffic: Option<Traffic>) -> Option<Bytes> {
    let told = traffic?;
    Some((told.received, told.sent))
}

/// An idle connection and one that asks, and a control that wishes an end.
#[test]
fn a_wish_ends_it(rt: HostRuntime) {
    let alloc = rt.alloc();
    for (may, total, after, wanted, bytes) in WISHES {
        let listener = TcpListener::bind(&rt, "127.0.0.1:0").expect(&rt, "a listener");
        let address = listener.local_addr().expect(&rt, "an address");
        let idle = TcpStream::connect(&rt, address).expect(&rt, "a connection");
        let stream = TcpStream::connect(&rt, address).expect(&rt, "a connection");
        send(&rt, &stream, &ENDS);
        let doors = Doors::new(&listener, &[IDLE, ENDS]);
        let mut watcher = Watcher::new(Some(*after));
        let limits = Limits {
            at_once: 2,
            total: *total,
            idle: None,
            gives_way: true,
            is_administered: *may,
        };
        let machine = machine(&rt, alloc, POLICY);
        let (machine, (ended, _, _)) = served(alloc, machine, &doors, &mut watcher, limits);
        drop(machine);
        check_fact(&rt, ended == Ok(()), "how it ended");
        let told = told_last(watcher.traffic);
        check_fact(&rt, told == *wanted, "what is told");
        let told = bytes_told(watcher.traffic);
        check_fact(&rt, told == *bytes, "how many bytes are told");
        drop(idle);
    }
}

/// The policy of `POLICY`, but that the staff may not read the book of sales any more.
const LATER: &str = "\
version = 1
[[person]]
name = \"ann\"
[[person]]
name = \"bob\"
[[person]]
name = \"gus\"
[[group]]
name = \"staff\"
members = [\"/people/ann\", \"/people/bob\"]
[[book]]
name = \"sales\"
label = \"Sales\"
owner = \"/people/ann\"
[[entry]]
at = \"/books/sales\"
who = \"/people/ann\"
grant = [\"all\"]
protected = true
[[entry]]
at = \"/books/sales\"
who = \"/groups/staff\"
grant = [\"bind\"]
";

/// Bob asks twice for the token of the book of sales, and then ann for what changed since that token.
const ASKED: &str =
    "PROPFIND /books/sales HTTP/1.1\r\nx-office-caller: bob\r\nContent-Length: 23\r\n\r\n{\"prop\":[\"sync-token\"]}PROPFIND /books/sales HTTP/1.1\r\nx-office-caller: bob\r\nContent-Length: 23\r\n\r\n{\"prop\":[\"sync-token\"]}REPORT /books/sales HTTP/1.1\r\nx-office-caller: ann\r\nContent-Length: 59\r\n\r\n{\"report\":\"sync-collection\",\"sync-token\":\"data:,sales/1/0\"}";

/// The policy is adopted after the first reply: bob may not read the book, and the token is not valid any more.
const ADOPTED: &str =
    "HTTP/1.1 207 Multi-Status\r\nContent-Type: application/json\r\nContent-Length: 92\r\n\r\n{\"responses\":[{\"href\":\"/books/sales\",\"prop\":{\"sync-token\":\"data:,sales/1/0\"},\"status\":200}]}HTTP/1.1 403 Forbidden\r\nContent-Type: application/json\r\nContent-Length: 85\r\n\r\n{\"entry\":null,\"error\":\"need-privileges\",\"privilege\":\"read\",\"resource\":\"/books/sales\"}HTTP/1.1 403 Forbidden\r\nContent-Type: application/json\r\nContent-Length: 28\r\n\r\n{\"error\":\"valid-sync-token\"}";

/// No policy is adopted: nothing changed.
const UNADOPTED: &str =
    "HTTP/1.1 207 Multi-Status\r\nContent-Type: application/json\r\nContent-Length: 92\r\n\r\n{\"responses\":[{\"href\":\"/books/sales\",\"prop\":{\"sync-token\":\"data:,sales/1/0\"},\"status\":200}]}HTTP/1.1 207 Multi-Status\r\nContent-Type: application/json\r\nContent-Length: 92\r\n\r\n{\"responses\":[{\"href\":\"/books/sales\",\"prop\":{\"sync-token\":\"data:,sales/1/0\"},\"status\":200}]}HTTP/1.1 207 Multi-Status\r\nContent-Type: application/json\r\nContent-Length: 47\r\n\r\n{\"responses\":[],\"sync-token\":\"data:,sales/1/0\"}";

/// Whether the server is administered, what the client is told, and what came of the adoption.
const ADOPTIONS: &[(bool, &str, Option<Result<Adopted, AdoptFault>>)] = &[
    (
        true,
        ADOPTED,
        Some(Ok(Adopted {
            changed: true,
            epoch: 2,
        })),
    ),
    (false, UNADOPTED, None),
];

/// A policy is adopted between two requests of a connection.
#[test]
fn a_policy_is_adopted_between_requests(rt: HostRuntime) {
    let alloc = rt.alloc();
    for (administered, replies, adopted) in ADOPTIONS {
        let listener = TcpListener::bind(&rt, "127.0.0.1:0").expect(&rt, "a listener");
        let address = listener.local_addr().expect(&rt, "an address");
        let stream = TcpStream::connect(&rt, address).expect(&rt, "a connection");
        let client = Client {
            sent: ASKED,
            ends: true,
            told: replies,
            ..IDLE
        };
        send(&rt, &stream, &client);
        let clients = [client];
        let doors = Doors::new(&listener, &clients);
        let policy = read_policy(alloc, LATER).ok().expect(&rt, "a policy");
        let mut adopter = Adopter {
            alloc,
            policy,
            adopted: None,
        };
        let limits = Limits {
            at_once: 1,
            total: Some(1),
            idle: None,
            gives_way: false,
            is_administered: *administered,
        };
        let machine = machine(&rt, alloc, POLICY);
        let (machine, (ended, _, _)) = served(alloc, machine, &doors, &mut adopter, limits);
        drop(machine);
        check_fact(&rt, ended == Ok(()), "how it ended");
        check_fact(&rt, adopter.adopted == *adopted, "what was adopted");
        check_told(&rt, &stream, &client);
    }
}

/// The line of one request of nobody.
const LINE: &str =
    "{\"time\":\"2026-11-29T00:00:00.000Z\",\"connection\":0,\"method\":\"GET\",\"path\":\"/books/none\",\"status\":404,\"error\":\"not-found\"}\n";

/// A log that takes one line: a second request acts, its reply is not sent, and then it ends. That is told of no client.
#[test]
fn a_log_that_fails_ends_it(rt: HostRuntime) {
    let alloc = rt.alloc();
    let listener = TcpListener::bind(&rt, "127.0.0.1:0").expect(&rt, "a listener");
    let address = listener.local_addr().expect(&rt, "an address");
    let stream = TcpStream::connect(&rt, address).expect(&rt, "a connection");
    let client = Client {
        sent: "GET /books/none HTTP/1.1\r\n\r\nGET /books/none HTTP/1.1\r\n\r\nGET /books/",
        told: ABSENT,
        ..IDLE
    };
    send(&rt, &stream, &client);
    let clients = [client];
    let doors = Doors::new(&listener, &clients);
    let mut watcher = Watcher::new(None);
    let limits = Limits {
        at_once: 1,
        total: None,
        idle: None,
        gives_way: false,
        is_administered: false,
    };
    let kept = logged(&rt, alloc, 1);
    let (kept, (ended, faults, _)) = served(alloc, kept, &doors, &mut watcher, limits);
    let (machine, lines) = kept.release();
    drop(machine);
    check_bytes(&rt, lines.told.as_slice(), LINE.as_bytes());
    check_fact(&rt, ended == Err(Stop::Log), "how it ended");
    check_fact(&rt, faults == 0, "no fault");
    check_told(&rt, &stream, &client);
}

/// Bytes that a client sends after its last reply: they are read, and the client is told that no more comes.
#[test]
fn late_bytes_are_dropped(rt: HostRuntime) {
    let listener = TcpListener::bind(&rt, "127.0.0.1:0").expect(&rt, "a listener");
    let address = listener.local_addr().expect(&rt, "an address");
    let mut client = TcpStream::connect(&rt, address).expect(&rt, "a connection");
    let (mut stream, _) = listener.accept().expect(&rt, "a connection");
    client.write_all(b"late").expect(&rt, "bytes");
    client.shutdown(Shutdown::Write).expect(&rt, "an end");
    close_in_stages(&rt, &mut stream);
    let mut told = Vec::new(rt.alloc());
    client.read_to_end(&mut told).expect(&rt, "an end");
    check_fact(&rt, told.is_empty(), "no reply");
    let mut rest = [0u8; 8];
    let count = stream.read(&mut rest).ok();
    check_fact(&rt, count == Some(0), "the end");
}
