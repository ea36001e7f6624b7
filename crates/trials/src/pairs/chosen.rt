//! Requests that are chosen by a generator of numbers: any method by any caller of any path.

ghost use Rattle.std.specs.Prelude.{◌<◌};

use crate::pairs::requests::{ANN, BOB, GUS, NOBODY, push_request};
use crate::pairs::steps::Step;
use crate::policies::{ALL_BOOKS, TWO_BOOKS};
use anyhow::Result;
use std::alloc::Global;

/// How often the policy is adopted again, so that what was removed or locked is there for the next requests.
const ROUNDS: usize = 20;

/// How many requests are chosen after each adoption.
const REQUESTS: usize = 50;

const METHODS: [&str; 12] = [
    "GET",
    "HEAD",
    "OPTIONS",
    "PUT",
    "DELETE",
    "MKCOL",
    "COPY",
    "MOVE",
    "PROPFIND",
    "PROPPATCH",
    "ACL",
    "REPORT",
];

/// Those who may do more are chosen more often.
const CALLERS: [&str; 6] = [ANN, ANN, BOB, BOB, GUS, NOBODY];

/// Books and cards are chosen more often, since most methods are of them.
const PATHS: [&str; 16] = [
    "/",
    "/people/bob",
    "/groups/staff",
    "/books",
    "/books/sales",
    "/books/law",
    "/books/sales",
    "/books/law",
    "/books/sales/a.vcf",
    "/books/sales/b.vcf",
    "/books/law/a.vcf",
    "/books/law/b.vcf",
    "/books/sales/a.vcf",
    "/books/sales/b.vcf",
    "/books/law/a.vcf",
    "/books/law/b.vcf",
];

const DESTINATIONS: [&str; 6] = [
    "Destination: /books/sales/a.vcf\r\n",
    "Destination: /books/sales/b.vcf\r\nOverwrite: F\r\n",
    "Destination: /books/law/a.vcf\r\nOverwrite: F\r\n",
    "Destination: /books/law/b.vcf\r\n",
    "Destination: /books/none/a.vcf\r\n",
    "Overwrite: T\r\n",
];

const DEPTHS: [&str; 3] = ["", "Depth: 0\r\n", "Depth: 1\r\n"];

/// Two persons, a group, and a text that is no card.
const TEXTS: [&str; 4] = [
    "BEGIN:VCARD\r\nVERSION:4.0\r\nUID:urn:uuid:a\r\nFN:Ann\r\nEND:VCARD\r\n",
    "BEGIN:VCARD\r\nVERSION:4.0\r\nUID:urn:uuid:b\r\nFN:Bo\r\nEND:VCARD\r\n",
    "BEGIN:VCARD\r\nVERSION:4.0\r\nKIND:group\r\nFN:G\r\nMEMBER:urn:uuid:a\r\nMEMBER:urn:uuid:b\r\nEND:VCARD\r\n",
    "BEGIN:VCARD\r\nVERSION:4.0\r\nEND:VCARD\r\n",
];

const PROPERTIES: [&str; 3] = [
    "{\"prop\":[\"displayname\",\"resourcetype\",\"owner\"]}",
    "{\"prop\":[\"acl\",\"current-user-privilege-set\"]}",
    "{\"prop\":[\"group-member-set\",\"sync-token\"]}",
];

const SETTINGS: [&str; 5] = [
    "{\"set\":{\"displayname\":\"One\"}}",
    "{\"set\":{\"displayname\":\"Two\"}}",
    "{\"set\":{\"group-member-set\":[\"/people/ann\",\"/people/bob\"]}}",
    "{\"set\":{\"group-member-set\":[\"/people/bob\",\"/people/gus\"]}}",
    "{\"set\":{\"group-member-set\":[\"/people/zoe\"]}}",
];

const LISTS: [&str; 8] = [
    "{\"acl\":[]}",
    "{\"acl\":[{\"grant\":[\"read\"],\"principal\":\"all\"}]}",
    "{\"acl\":[{\"deny\":[\"read\"],\"principal\":\"/people/bob\"},{\"grant\":[\"all\"],\"principal\":\"owner\"}]}",
    "{\"acl\":[{\"grant\":[\"all\"],\"invert\":\"unauthenticated\"},{\"grant\":[\"read\"],\"principal\":\"self\"}]}",
    "{\"acl\":[{\"grant\":[\"x-read-names\"],\"principal\":\"authenticated\"}]}",
    "{\"acl\":[{\"deny\":[\"x-read-texts\"],\"principal\":\"/people/bob\"},{\"grant\":[\"read\"],\"principal\":\"all\"}]}",
    "{\"acl\":[{\"grant\":[\"unlock\"],\"principal\":\"all\"}]}",
    "{\"acl\":[{\"grant\":[\"read\"],\"principal\":\"/people/zoe\"}]}",
];

const REPORTS: [&str; 6] = [
    "{\"report\":\"sync-collection\",\"sync-token\":\"\"}",
    "{\"limit\":1,\"report\":\"sync-collection\",\"sync-token\":\"\"}",
    "{\"report\":\"group-members\"}",
    "{\"report\":\"names\"}",
    "{\"principal\":\"/people/bob\",\"report\":\"effective\"}",
    "{\"principal\":null,\"report\":\"effective\"}",
];

/// Numbers that choose, each made of the one before it.
#[derive(Drop)]
struct Chooser {
    last: u64,
}

impl Chooser {
    /// The next choice: 75 times the number before it and 74, modulo 65,537, and of that the remainder.
    fn below(&mut self, count: usize) -> usize
        requires { 0 < count }
        ensures { result < count }
    {
        self.last = (self.last % 65_537 * 75 + 74) % 65_537;
        self.last as usize % count
    }
}

/// The other lines of a request.
fn lines(chooser: &mut Chooser, method: &str) -> &'static str {
    match method {
        "COPY" | "MOVE" => DESTINATIONS[chooser.below(6)],
        "PROPFIND" => DEPTHS[chooser.below(3)],
        _ => "",
    }
}

/// The body of a request.
fn body(chooser: &mut Chooser, method: &str) -> &'static str {
    match method {
        "PUT" => TEXTS[chooser.below(4)],
        "PROPFIND" => PROPERTIES[chooser.below(3)],
        "PROPPATCH" => SETTINGS[chooser.below(5)],
        "ACL" => LISTS[chooser.below(8)],
        "REPORT" => REPORTS[chooser.below(6)],
        _ => "",
    }
}

/// Puts the next request at the end of a stream.
fn push_chosen(alloc: Global, chooser: &mut Chooser, stream: &mut String) -> Result<()> {
    let method = METHODS[chooser.below(12)];
    let caller = CALLERS[chooser.below(6)];
    let path = PATHS[chooser.below(16)];
    let lines = lines(chooser, method);
    let body = body(chooser, method);
    push_request(alloc, stream, (caller, method, path, lines, body))
}

/// The next requests, one after the other, on one connection.
fn chosen_stream(alloc: Global, chooser: &mut Chooser) -> Result<String> {
    let mut stream = String::new(alloc);
    for _ in 0..REQUESTS {
        push_chosen(alloc, chooser, &mut stream)?;
    }
    Ok(stream)
}

/// In each round all books are opened to the staff, and then the requests are served, the numbers beginning after 1.
pub(crate) fn chosen_steps(alloc: Global) -> Result<Vec<Step>> {
    let mut chooser = Chooser { last: 1 };
    let mut steps = Vec::new(alloc);
    for _ in 0..ROUNDS {
        steps.push(Step::Adopt(format!(in alloc; "{TWO_BOOKS}{ALL_BOOKS}")?))?;
        steps.push(Step::Serve(chosen_stream(alloc, &mut chooser)?))?;
    }
    Ok(steps)
}
