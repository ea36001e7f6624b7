//! Connections over loopback, one after the other: one that is cut or fails ends no other, and each that fails is told.

use crate::checks::{check_bytes, check_fact};
use crate::logs::logged;
use crate::offices::{POLICY, machine};
use book_desk_app::Noting;
use book_desk_serving::serve_connections;
use book_wire_serving::Service;
use std::cell::Cell;
use std::io;
use std::io::{ErrorKind, Read, Write};
use std::net::{OpenListener, OpenStream, Shutdown, SocketAddr, TcpListener, TcpStream};
use std::process::Abort;
use std::rt::Clock;

/// What a client sends before it is accepted, how many reads and writes of its connection succeed, and what it is sent.
#[derive(Clone, Copy)]
struct Client<'a> {
    sent: &'a str,
    reads: u64,
    writes: u64,
    told: &'a str,
}

const ALL: u64 = u64::MAX;

/// Clients whose connections are to be served, so many of them; whether none failed, or nothing where one could not be
/// accepted; and what is told of those that failed.
type Row<'a> = (&'a [Client<'a>], u64, Option<bool>, &'a str);

const CREATED: &str = "HTTP/1.1 201 Created\r\nContent-Length: 0\r\n\r\n";

/// A new card, and the connection stays.
const PUT: &str =
    "PUT /books/sales/a.vcf HTTP/1.1\r\nContent-Length: 44\r\nx-office-caller: bob\r\n\r\nBEGIN:VCARD\r\nVERSION:4.0\r\nFN:Bo\r\nEND:VCARD\r\n";

/// The card, and the connection closes.
const GET: Client<'static> = Client {
    sent: "GET /books/sales/a.vcf HTTP/1.1\r\nConnection: close\r\nx-office-caller: bob\r\n\r\n",
    reads: ALL,
    writes: ALL,
    told: "HTTP/1.1 200 OK\r\nContent-Type: text/vcard; charset=utf-8\r\nContent-Length: 44\r\nConnection: close\r\n\r\nBEGIN:VCARD\r\nVERSION:4.0\r\nFN:Bo\r\nEND:VCARD\r\n",
};

/// A connection that is cut within the body of its second request, which is not answered and does nothing.
const CUT: Client<'static> = Client {
    sent: "DELETE /books/sales/a.vcf HTTP/1.1\r\nx-office-caller: bob\r\n\r\nPUT /books/sales/b.vcf HTTP/1.1\r\nContent-Length: 44\r\nx-office-caller: bob\r\n\r\nBEGIN:VCARD\r\n",
    reads: ALL,
    writes: ALL,
    told: "HTTP/1.1 403 Forbidden\r\nContent-Type: application/json\r\nContent-Length: 87\r\n\r\n{\"entry\":null,\"error\":\"need-privileges\",\"privilege\":\"unbind\",\"resource\":\"/books/sales\"}",
};

/// A request that acts, and whose reply can't be written.
const UNWRITTEN: Client<'static> = Client {
    sent: PUT,
    reads: ALL,
    writes: 0,
    told: "",
};

/// A request after which nothing can be read.
const UNREAD: Client<'static> = Client {
    sent: PUT,
    reads: 1,
    writes: ALL,
    told: CREATED,
};

/// A request that acts, and its reply.
const STORED: Client<'static> = Client {
    reads: ALL,
    ..UNREAD
};

const ROWS: &[Row<'static>] = &[
    (&[STORED, CUT, GET], 3, Some(true), ""),
    (
        &[UNWRITTEN, GET, CUT, GET],
        4,
        Some(false),
        "stream: write\n",
    ),
    (&[UNREAD, CUT, GET], 4, None, "stream: read\n"),
];

/// A listener that accepts no more connections than there are clients.
#[derive(Drop)]
struct Doors<'a> {
    listener: &'a TcpListener,
    clients: &'a [Client<'a>],
    next: Cell<usize>,
}

impl OpenListener for Doors<'_> {
    type Stream = Line;

    fn accept(&self) -> io::Result<(Line, SocketAddr)> {
        let next = self.next.get();
        self.next.set(next.saturating_add(1));
        let Some(client) = self.clients.get(next) else {
            return Err(ErrorKind::Other.into());
        };
        let (stream, address) = self.listener.accept()?;
        let line = Line {
            stream,
            reads: client.reads,
            writes: client.writes,
        };
        Ok((line, address))
    }
}

/// A connection that fails after so many reads and writes.
#[derive(Drop)]
struct Line {
    stream: TcpStream,
    reads: u64,
    writes: u64,
}

impl Read for Line {
    fn read(&mut self, buf: &mut [u8]) -> io::Result<usize> {
        if self.reads == 0 {
            return Err(ErrorKind::Other.into());
        }
        self.reads -= 1;
        self.stream.read(buf)
    }
}

impl Write for Line {
    fn write(&mut self, buf: &[u8]) -> io::Result<usize> {
        if self.writes == 0 {
            return Err(ErrorKind::Other.into());
        }
        self.writes -= 1;
        self.stream.write(buf)
    }

    fn flush(&mut self) -> io::Result<()> {
        Ok(())
    }
}

impl OpenStream for Line {
    fn try_clone(&self) -> io::Result<Line> {
        Ok(Line {
            stream: self.stream.try_clone()?,
            reads: self.reads,
            writes: self.writes,
        })
    }
}

/// Sends all that a client sends.
fn send(rt: &impl Abort, mut stream: &TcpStream, client: &Client<'_>) {
    let sent = stream.write_all(client.sent.as_bytes());
    sent.expect(rt, "a request");
    stream.shutdown(Shutdown::Write).expect(rt, "a request");
}

/// Serves so many connections: how it ends, and what is told of them.
fn check_served<M: Service>(
    rt: &(impl Abort + AllocGlobal + Clock),
    service: &mut M,
    doors: &Doors<'_>,
    count: u64,
    sound: Option<bool>,
    told: &str,
) {
    let alloc = rt.alloc();
    let mut errors = Noting::new(Vec::new(alloc));
    let served = serve_connections(rt, alloc, service, doors, count, &mut errors);
    check_fact(rt, served.ok() == sound, "how it ended");
    check_bytes(rt, errors.into_inner().as_slice(), told.as_bytes());
}

/// Reads what a client is sent.
fn check_told(rt: &(impl Abort + AllocGlobal), mut stream: &TcpStream, client: &Client<'_>) {
    let mut reply = Vec::new(rt.alloc());
    stream.read_to_end(&mut reply).expect(rt, "a reply");
    check_bytes(rt, reply.as_slice(), client.told.as_bytes());
}

/// Serves a row whose clients are connected; all is sent before the first is accepted, and read after the last.
fn check(
    rt: &(impl Abort + AllocGlobal + Clock),
    listener: &TcpListener,
    streams: &[TcpStream],
    row: &Row<'_>,
) {
    let (clients, count, sound, told) = *row;
    for (stream, client) in streams.iter().zip(clients) {
        send(rt, stream, client);
    }
    let doors = Doors {
        listener,
        clients,
        next: Cell::new(0),
    };
    let mut machine = machine(rt, rt.alloc(), POLICY);
    check_served(rt, &mut machine, &doors, count, sound, told);
    drop(machine);
    for (stream, client) in streams.iter().zip(clients) {
        check_told(rt, stream, client);
    }
}

#[test]
fn connections_are_served_in_turn(rt: HostRuntime) {
    let listener = TcpListener::bind(&rt, "127.0.0.1:0").expect(&rt, "a listener");
    let address = listener.local_addr().expect(&rt, "an address");
    for row in ROWS {
        let mut streams = Vec::new(rt.alloc());
        for _ in row.0 {
            let stream = TcpStream::connect(&rt, address).expect(&rt, "a connection");
            streams.push(stream).expect(&rt, "memory");
        }
        check(&rt, &listener, &streams, row);
    }
}

/// The lines of a new card on the first connection, and of the card on the second.
const LINES: &str =
    "{\"time\":\"2026-11-29T00:00:00.000Z\",\"connection\":0,\"caller\":\"bob\",\"method\":\"PUT\",\"path\":\"/books/sales/a.vcf\",\"status\":201,\"touched\":[{\"path\":\"/books/sales/a.vcf\",\"number\":1}],\"epoch\":1}\n{\"time\":\"2026-11-29T00:00:00.000Z\",\"connection\":1,\"caller\":\"bob\",\"method\":\"GET\",\"path\":\"/books/sales/a.vcf\",\"status\":200}\n";

/// A log that takes two lines: the reply of the third connection is not sent, that is told once, and no other is served.
#[test]
fn a_log_that_fails_ends_them(rt: HostRuntime) {
    let alloc = rt.alloc();
    let listener = TcpListener::bind(&rt, "127.0.0.1:0").expect(&rt, "a listener");
    let address = listener.local_addr().expect(&rt, "an address");
    let first = Client {
        sent: PUT,
        told: CREATED,
        ..GET
    };
    let third = Client { told: "", ..GET };
    let clients = [first, GET, third, GET];
    let mut streams = Vec::new(alloc);
    for client in &clients {
        let stream = TcpStream::connect(&rt, address).expect(&rt, "a connection");
        send(&rt, &stream, client);
        streams.push(stream).expect(&rt, "memory");
    }
    let doors = Doors {
        listener: &listener,
        clients: &clients,
        next: Cell::new(0),
    };
    let mut kept = logged(&rt, alloc, 2);
    check_served(&rt, &mut kept, &doors, 4, Some(false), "log: write\n");
    let (machine, lines) = kept.release();
    drop(machine);
    check_bytes(&rt, lines.told.as_slice(), LINES.as_bytes());
    check_fact(&rt, doors.next.get() == 3, "three accepted");
    for (stream, client) in streams.iter().zip(&clients[..3]) {
        check_told(&rt, stream, client);
    }
}
