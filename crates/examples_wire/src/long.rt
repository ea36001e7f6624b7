//! Bodies of more than 65,536 bytes, which are made while they are sent: what is sent is each whole body, and behind it
//! the reply to what was asked next.

use crate::checks::{check_bytes, check_fact};
use crate::offices::{Cutting, POLICY, WHOLE, answered};
use crate::streams::{check_answer, check_cut_off};
use crate::together::opened;
use book_desk_connections::{Connections, Turn, go_on};
use book_machine::Machine;
use book_office::MemoryKeeper;
use book_wire::{Ended, Served};
use std::alloc::Global;
use std::io;
use std::io::{ErrorKind, Read, Write};
use std::process::Abort;

/// The numbers of cards, each of four digits.
const FIRST: usize = 1_000;

const END: usize = 2_000;

/// A card's path, up to its number.
const CARD: &str = "/books/sales/nnnnnnnnnnnnnnnnnnnnnnnnnnnnnnnnnnnnnnnnnnnnnnnnnnnnnnnn";

/// A request without a body, and its reply.
const NONE: &str = "GET /books/none HTTP/1.1\r\n\r\n";

const NOT_FOUND: &str =
    "HTTP/1.1 404 Not Found\r\nContent-Type: application/json\r\nContent-Length: 21\r\n\r\n{\"error\":\"not-found\"}";

const LISTING: &str =
    "PROPFIND /books/sales HTTP/1.1\r\nx-office-caller: ann\r\nDepth: 1\r\nContent-Length: 39\r\n\r\n{\"prop\":[\"displayname\",\"resourcetype\"]}";

const REPORT: &str =
    "REPORT /books/sales HTTP/1.1\r\nx-office-caller: ann\r\nContent-Length: 44\r\n\r\n{\"report\":\"sync-collection\",\"sync-token\":\"\"}";

/// A report after the first 100 changes.
const LATER: &str =
    "REPORT /books/sales HTTP/1.1\r\nx-office-caller: ann\r\nContent-Length: 61\r\n\r\n{\"report\":\"sync-collection\",\"sync-token\":\"data:,sales/1/100\"}";

fn push(rt: &impl Abort, text: &mut String, more: &str) {
    text.push_str(more).expect(rt, "memory");
}

/// A request for each card.
fn new_cards(rt: &impl Abort, alloc: Global) -> String {
    let mut text = String::new(alloc);
    for number in FIRST..END {
        let request = format!(in alloc;
            "PUT {CARD}{number}.vcf HTTP/1.1\r\nContent-Length: 44\r\nx-office-caller: bob\r\n\r\nBEGIN:VCARD\r\nVERSION:4.0\r\nFN:Bo\r\nEND:VCARD\r\n"
        );
        push(rt, &mut text, request.expect(rt, "memory").as_str());
    }
    text
}

/// The replies to them.
fn created(rt: &impl Abort, alloc: Global) -> String {
    let mut text = String::new(alloc);
    for _ in FIRST..END {
        push(
            rt,
            &mut text,
            "HTTP/1.1 201 Created\r\nContent-Length: 0\r\n\r\n",
        );
    }
    text
}

/// The listing of the book and its cards.
fn listing(rt: &impl Abort, alloc: Global) -> String {
    let mut text = String::new(alloc);
    push(
        rt,
        &mut text,
        "{\"responses\":[{\"href\":\"/books/sales\",\"prop\":{\"displayname\":\"Sales\",\"resourcetype\":\"book\"},\"status\":200}",
    );
    for number in FIRST..END {
        let item = format!(in alloc;
            ",{{\"href\":\"{CARD}{number}.vcf\",\"prop\":{{\"displayname\":\"\",\"resourcetype\":\"card\"}},\"status\":200}}"
        );
        push(rt, &mut text, item.expect(rt, "memory").as_str());
    }
    push(rt, &mut text, "]}");
    text
}

/// The report of the cards from a number on.
fn report(rt: &impl Abort, alloc: Global, first: usize) -> String {
    let mut text = String::new(alloc);
    push(rt, &mut text, "{\"responses\":[");
    for number in first..END {
        let comma = if number > first { "," } else { "" };
        let change = number.saturating_sub(999);
        let item = format!(in alloc;
            "{comma}{{\"displayname\":\"\",\"href\":\"{CARD}{number}.vcf\",\"number\":{change},\"status\":200,\"text\":\"BEGIN:VCARD\\r\\nVERSION:4.0\\r\\nFN:Bo\\r\\nEND:VCARD\\r\\n\"}}"
        );
        push(rt, &mut text, item.expect(rt, "memory").as_str());
    }
    push(rt, &mut text, "],\"sync-token\":\"data:,sales/1/1000\"}");
    text
}

/// Adds the reply with the body, which is longer than two chunks.
fn push_reply(rt: &impl Abort, alloc: Global, text: &mut String, body: &str) {
    let length = body.len();
    check_fact(rt, length > 131_072, "a long reply");
    let head = format!(in alloc;
        "HTTP/1.1 207 Multi-Status\r\nContent-Type: application/json\r\nContent-Length: {length}\r\n\r\n"
    );
    push(rt, text, head.expect(rt, "memory").as_str());
    push(rt, text, body);
}

/// What is sent to who asks for a listing, two reports and a card that is not there.
fn wanted(rt: &impl Abort, alloc: Global) -> String {
    let mut text = created(rt, alloc);
    push_reply(rt, alloc, &mut text, listing(rt, alloc).as_str());
    push_reply(rt, alloc, &mut text, report(rt, alloc, FIRST).as_str());
    push_reply(
        rt,
        alloc,
        &mut text,
        report(rt, alloc, FIRST + 100).as_str(),
    );
    push(rt, &mut text, NOT_FOUND);
    text
}

/// A stream, with writes of several sizes; and one that fails in a write within the listing.
#[test]
fn long_bodies_are_whole(rt: HostRuntime) {
    let alloc = rt.alloc();
    let mut input = new_cards(&rt, alloc);
    for asked in [LISTING, REPORT, LATER, NONE] {
        push(&rt, &mut input, asked);
    }
    let wanted = wanted(&rt, alloc);
    let served = Served {
        requests: 1_004,
        ended: Ended::Clean,
    };
    for write in [7, 8_191, 1_000_000] {
        let cutting = Cutting { write, ..WHOLE };
        let answer = answered(&rt, alloc, POLICY, input.as_bytes(), cutting);
        check_fact(
            &rt,
            answer.text.as_str() == wanted.as_str(),
            "the whole text",
        );
        check_answer(&rt, alloc, &answer, wanted.as_str(), served, 1_000);
    }
    // A write for the reply to each card, and 100 of the listing, of at most 1,000 bytes.
    let cutting = Cutting {
        writes: 1_100,
        ..WHOLE
    };
    let answer = answered(&rt, alloc, POLICY, input.as_bytes(), cutting);
    check_cut_off(&rt, alloc, &answer, wanted.as_str(), 109_000, 1_000);
}

/// A client: what it still sends, and what it was sent. It takes at most so many bytes at once, and only so many more.
#[derive(Drop)]
struct Client<'a> {
    sends: &'a [u8],
    told: Vec<u8>,
    most: usize,
    room: usize,
}

impl Read for Client<'_> {
    fn read(&mut self, buf: &mut [u8]) -> io::Result<usize> {
        let count = self.sends.len().min(buf.len());
        buf[..count].copy_from_slice(&self.sends[..count]);
        self.sends = &self.sends[count..];
        Ok(count)
    }
}

impl Write for Client<'_> {
    fn write(&mut self, buf: &[u8]) -> io::Result<usize> {
        let count = self.most.min(self.room).min(buf.len());
        if count == 0 {
            return Err(ErrorKind::WouldBlock.into());
        }
        self.told.extend_from_slice(&buf[..count])?;
        self.room -= count;
        Ok(count)
    }

    fn flush(&mut self) -> io::Result<()> {
        Ok(())
    }
}

fn new_client<'a>(alloc: Global, sends: &'a str, room: usize) -> Client<'a> {
    Client {
        sends: sends.as_bytes(),
        told: Vec::new(alloc),
        most: 100,
        room,
    }
}

/// Gives the client at the place its turns, until it waits or is done.
fn turns(
    alloc: Global,
    connections: &mut Connections<Machine<MemoryKeeper>>,
    place: usize,
    client: &mut Client<'_>,
) -> Turn {
    let mut memory = [0u8; 4_096];
    let mut at_end = false;
    for _ in 0..10_000 {
        let turn = go_on(alloc, connections, place, client, &mut memory, &mut at_end);
        if turn != Turn::Again {
            return turn;
        }
    }
    Turn::Again
}

/// The reply to the one that removes a card.
const REMOVED: &str = "HTTP/1.1 204 No Content\r\n\r\n";

/// A client stops reading within a listing, while another removes a card: what the first one is sent then is the
/// listing as it was when it was asked for, and the reply to what it asked next.
#[test]
fn a_listing_is_as_it_was_asked_for(rt: HostRuntime) {
    let alloc = rt.alloc();
    let mut asked = new_cards(&rt, alloc);
    push(&rt, &mut asked, LISTING);
    push(&rt, &mut asked, NONE);
    let mut wanted = created(&rt, alloc);
    push_reply(&rt, alloc, &mut wanted, listing(&rt, alloc).as_str());
    push(&rt, &mut wanted, NOT_FOUND);
    let removal = format!(in alloc;
        "DELETE {CARD}1999.vcf HTTP/1.1\r\nx-office-caller: ann\r\n\r\n"
    );
    let removal = removal.expect(&rt, "memory");
    let mut first = new_client(alloc, asked.as_str(), 113_000);
    let mut second = new_client(alloc, removal.as_str(), usize::MAX);
    let mut connections = opened(&rt, 2);
    let turn = turns(alloc, &mut connections, 0, &mut first);
    check_fact(&rt, turn == Turn::Waits, "the first one waits");
    let turn = turns(alloc, &mut connections, 1, &mut second);
    check_fact(&rt, turn == Turn::Ended, "the second one ended");
    first.room = usize::MAX;
    let turn = turns(alloc, &mut connections, 0, &mut first);
    check_fact(&rt, turn == Turn::Ended, "the first one ended");
    drop(connections);
    check_bytes(&rt, second.told.as_slice(), REMOVED.as_bytes());
    check_bytes(&rt, first.told.as_slice(), wanted.as_bytes());
}
