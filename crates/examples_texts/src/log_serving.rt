//! A machine that keeps a log: what is noted of each reply, and a log that fails.

use crate::checks::{check_bytes, check_fact, check_number};
use book_log_lines::{Adoption, Time};
use book_log_service::{Clock, Logged};
use book_machine::{Body, Depth, Flag, Machine, Request};
use book_office::{MemoryKeeper, Path};
use book_office_values::Text;
use book_policy::read_policy;
use book_rights::Method;
use book_wire_serving::{LogFault, Service};
use std::alloc::{AllocError, Global};
use std::io;
use std::io::{ErrorKind, Write};
use std::process::Abort;

/// Ann owns the book of sales and may do all there. All may read it, but bob may read no book.
const POLICY: &str = "\
version = 1
[[person]]
name = \"ann\"
[[person]]
name = \"bob\"
[[book]]
name = \"sales\"
owner = \"/people/ann\"
[[entry]]
at = \"/books\"
who = \"/people/bob\"
deny = [\"read\"]
protected = true
[[entry]]
at = \"/books/sales\"
who = \"/people/ann\"
grant = [\"all\"]
protected = true
[[entry]]
at = \"/books/sales\"
who = \"all\"
grant = [\"read\"]
";

pub(crate) const CARD: &str = "BEGIN:VCARD\r\nVERSION:4.0\r\nFN:Bo\r\nEND:VCARD\r\n";

/// Tells one time. After so many times, so many more are refused memory.
#[derive(Drop)]
pub(crate) struct Stopped {
    time: Time,
    told: u64,
    refused: u64,
}

impl Clock for Stopped {
    fn now(&mut self, _alloc: Global) -> Result<Time, AllocError> {
        if self.told > 0 {
            self.told -= 1;
        } else if self.refused > 0 {
            self.refused -= 1;
            return Err(AllocError);
        }
        self.time.clone()
    }
}

/// Takes at most so many bytes a write; after so many writes each one fails.
#[derive(Drop)]
pub(crate) struct Output {
    pub(crate) taken: Vec<u8>,
    size: usize,
    writes: u64,
}

impl Write for Output {
    fn write(&mut self, buf: &[u8]) -> io::Result<usize> {
        if self.writes == 0 {
            return Err(ErrorKind::BrokenPipe.into());
        }
        self.writes -= 1;
        let count = self.size.min(buf.len());
        self.taken.extend_from_slice(&buf[..count])?;
        Ok(count)
    }

    fn flush(&mut self) -> io::Result<()> {
        Ok(())
    }
}

pub(crate) type Kept = Logged<MemoryKeeper, Output, Stopped>;

/// What a log is written to.
pub(crate) fn output_of(alloc: Global, size: usize, writes: u64) -> Output {
    Output {
        taken: Vec::new(alloc),
        size,
        writes,
    }
}

/// A clock that tells one time; after so many times, so many more are refused memory.
pub(crate) fn clock_of(rt: &impl Abort, alloc: Global, told: u64, refused: u64) -> Stopped {
    let found = Time::parse(alloc, "2026-11-29T09:00:00.000Z").expect(rt, "memory");
    Stopped {
        time: found.expect(rt, "a time"),
        told,
        refused,
    }
}

/// A machine that has adopted a policy, with a log of its own; after so many times, so many more are refused memory.
pub(crate) fn kept_by(
    rt: &impl Abort,
    alloc: Global,
    policy: &str,
    output: Output,
    told: u64,
    refused: u64,
) -> Kept {
    let policy = read_policy(alloc, policy).ok().expect(rt, "a policy");
    let mut machine = Machine::new(MemoryKeeper::new(alloc));
    machine
        .adopt(alloc, &policy)
        .ok()
        .expect(rt, "room for the policy");
    drop(policy);
    let clock = clock_of(rt, alloc, told, refused);
    Logged::new(alloc, machine, output, clock)
}

/// A machine that has adopted the policy, with a log of its own; after so many times, so many more are refused memory.
fn kept_with(rt: &impl Abort, alloc: Global, output: Output, told: u64, refused: u64) -> Kept {
    kept_by(rt, alloc, POLICY, output, told, refused)
}

/// A machine that has adopted the policy, with a log of its own.
pub(crate) fn kept(rt: &impl Abort, alloc: Global, size: usize, writes: u64) -> Kept {
    kept_with(rt, alloc, output_of(alloc, size, writes), 0, 0)
}

pub(crate) fn request(
    rt: &impl Abort,
    alloc: Global,
    method: Method,
    path: &str,
    body: Body,
) -> Request {
    Request {
        method,
        path: Some(Path::parse(alloc, path).ok().expect(rt, "a path")),
        destination: None,
        overwrite: Flag::Yes,
        depth: Depth::Zero,
        body,
    }
}

/// A caller asks for this, and the reply has this status.
pub(crate) fn check_served<M: Service>(
    rt: &impl Abort,
    alloc: Global,
    kept: &mut M,
    name: Option<&str>,
    asked: Request,
    status: u16,
) {
    let reply = kept.serve(alloc, name, &asked);
    drop(asked);
    let told = reply.status;
    drop(reply);
    check_number(rt, u64::from(told), u64::from(status));
}

/// Ann puts a card, which is made.
fn check_put<M: Service>(rt: &impl Abort, alloc: Global, kept: &mut M) {
    let body = Body::Text(Text::copy_of(alloc, CARD).expect(rt, "memory"));
    let asked = request(rt, alloc, Method::Put, "/books/sales/a.vcf", body);
    check_served(rt, alloc, kept, Some("ann"), asked, 201);
}

/// A caller asks for a card, and the reply has this status.
fn check_get<M: Service>(
    rt: &impl Abort,
    alloc: Global,
    kept: &mut M,
    name: Option<&str>,
    path: &str,
    status: u16,
) {
    let asked = request(rt, alloc, Method::Get, path, Body::Empty);
    check_served(rt, alloc, kept, name, asked, status);
}

/// The line of the last request is noted, sent or not, or the log failed, as it is wanted.
pub(crate) fn check_noted<M: Service>(
    rt: &impl Abort,
    kept: &mut M,
    sent: bool,
    wanted: Result<(), LogFault>,
) {
    let noted = kept.note(sent);
    check_fact(rt, noted == wanted, "a line of the log");
}

/// The line of a refusal is noted, or the log failed, as it is wanted.
fn check_refused<M: Service>(
    rt: &impl Abort,
    kept: &mut M,
    status: u16,
    word: &str,
    wanted: Result<(), LogFault>,
) {
    let noted = kept.note_refusal(status, word);
    check_fact(rt, noted == wanted, "a line of a refusal");
}

/// Whether the log failed.
fn check_failed<M: Service>(rt: &impl Abort, kept: &M, wanted: bool) {
    check_fact(
        rt,
        kept.has_failed_log() == wanted,
        "whether the log failed",
    );
}

/// The log has these bytes.
pub(crate) fn check_taken(rt: &impl Abort, kept: Kept, wanted: &[u8]) {
    let (machine, output) = kept.release();
    drop(machine);
    check_bytes(rt, output.taken.as_slice(), wanted);
}

/// An edit, a denial with its entry, a refusal, a reply that could not be sent, a name that is none, a request that
/// could not be read, and an adoption.
const LOG: &str =
    "{\"time\":\"2026-11-29T09:00:00.000Z\",\"connection\":7,\"caller\":\"ann\",\"method\":\"PUT\",\"path\":\"/books/sales/a.vcf\",\"status\":201,\"touched\":[{\"path\":\"/books/sales/a.vcf\",\"number\":1}],\"epoch\":1}\n\
    {\"time\":\"2026-11-29T09:00:00.000Z\",\"connection\":7,\"caller\":\"bob\",\"method\":\"GET\",\"path\":\"/books/sales/a.vcf\",\"status\":403,\"error\":\"need-privileges\",\"resource\":\"/books/sales/a.vcf\",\"privilege\":\"read\",\"from\":\"/books\",\"protected\":true,\"place\":1,\"number\":2,\"entry\":{\"deny\":[\"read\"],\"principal\":\"/people/bob\"}}\n\
    {\"time\":\"2026-11-29T09:00:00.000Z\",\"connection\":8,\"method\":\"GET\",\"path\":\"/books/sales/b.vcf\",\"status\":404,\"error\":\"not-found\"}\n\
    {\"time\":\"2026-11-29T09:00:00.000Z\",\"connection\":8,\"status\":503,\"error\":\"unavailable\"}\n\
    {\"time\":\"2026-11-29T09:00:00.000Z\",\"connection\":8,\"caller\":\"a\\\"b\\\\c\\n\",\"method\":\"GET\",\"path\":\"/books/sales/a.vcf\",\"status\":400,\"error\":\"unknown-caller\"}\n\
    {\"time\":\"2026-11-29T09:00:00.000Z\",\"connection\":8,\"status\":431,\"error\":\"head-too-large\"}\n\
    {\"time\":\"2026-11-29T09:00:00.000Z\",\"epoch\":1,\"adopted\":\"unchanged\"}\n";

/// Each reply has its line. The card that is asked for without a name is read by all, and its reply is not sent.
#[test]
fn each_reply_has_its_line(rt: HostRuntime) {
    let alloc = rt.alloc();
    let mut kept = kept(&rt, alloc, 50, 1_000);
    kept.turn_to(7);
    check_put(&rt, alloc, &mut kept);
    check_noted(&rt, &mut kept, true, Ok(()));
    check_get(
        &rt,
        alloc,
        &mut kept,
        Some("bob"),
        "/books/sales/a.vcf",
        403,
    );
    check_noted(&rt, &mut kept, true, Ok(()));
    kept.turn_to(8);
    check_get(&rt, alloc, &mut kept, None, "/books/sales/b.vcf", 404);
    check_noted(&rt, &mut kept, true, Ok(()));
    check_get(&rt, alloc, &mut kept, None, "/books/sales/a.vcf", 200);
    check_noted(&rt, &mut kept, false, Ok(()));
    check_get(
        &rt,
        alloc,
        &mut kept,
        Some("a\"b\\c\n"),
        "/books/sales/a.vcf",
        400,
    );
    check_noted(&rt, &mut kept, true, Ok(()));
    check_refused(&rt, &mut kept, 431, "head-too-large", Ok(()));
    let noted = kept.note_adoption(alloc, Adoption::Unchanged, 1);
    check_fact(&rt, noted == Ok(()), "a line of an adoption");
    check_failed(&rt, &kept, false);
    check_taken(&rt, kept, LOG.as_bytes());
}

/// A write that fails is told, and nothing is written after it, though later writes would be taken.
#[test]
fn a_log_that_fails_stays_so(rt: HostRuntime) {
    let alloc = rt.alloc();
    let mut kept = kept(&rt, alloc, 50, 1);
    kept.turn_to(7);
    check_put(&rt, alloc, &mut kept);
    check_noted(&rt, &mut kept, true, Err(LogFault));
    check_failed(&rt, &kept, true);
    kept.writer.writes = 1_000;
    check_get(&rt, alloc, &mut kept, None, "/books/sales/a.vcf", 200);
    check_noted(&rt, &mut kept, true, Err(LogFault));
    check_refused(&rt, &mut kept, 400, "bad-head", Err(LogFault));
    check_number(&rt, kept.failures(), 0);
    check_taken(&rt, kept, &LOG.as_bytes()[..50]);
}

/// An edit, a request for which memory was refused, one for which it was refused before it was read, and one that was
/// served again. The lines in between have the connection of the request before.
const REFUSED_LOG: &str =
    "{\"time\":\"2026-11-29T09:00:00.000Z\",\"connection\":7,\"caller\":\"ann\",\"method\":\"PUT\",\"path\":\"/books/sales/a.vcf\",\"status\":201,\"touched\":[{\"path\":\"/books/sales/a.vcf\",\"number\":1}],\"epoch\":1}\n\
    {\"time\":\"2026-11-29T09:00:00.000Z\",\"connection\":7,\"status\":503,\"error\":\"unavailable\"}\n\
    {\"time\":\"2026-11-29T09:00:00.000Z\",\"connection\":7,\"status\":503,\"error\":\"unavailable\"}\n\
    {\"time\":\"2026-11-29T09:00:00.000Z\",\"connection\":8,\"method\":\"GET\",\"path\":\"/books/sales/b.vcf\",\"status\":404,\"error\":\"not-found\"}\n";

/// Where memory is refused for a time the reply is `unavailable`, its line is the one that was made before, and the next
/// request is served.
#[test]
fn refused_memory_fails_no_log(rt: HostRuntime) {
    let alloc = rt.alloc();
    let mut kept = kept_with(&rt, alloc, output_of(alloc, 50, 1_000), 2, 2);
    kept.turn_to(7);
    check_put(&rt, alloc, &mut kept);
    check_noted(&rt, &mut kept, true, Ok(()));
    kept.turn_to(8);
    check_get(&rt, alloc, &mut kept, None, "/books/sales/b.vcf", 503);
    check_noted(&rt, &mut kept, true, Ok(()));
    check_refused(&rt, &mut kept, 503, "unavailable", Ok(()));
    check_get(&rt, alloc, &mut kept, None, "/books/sales/b.vcf", 404);
    check_noted(&rt, &mut kept, true, Ok(()));
    check_failed(&rt, &kept, false);
    check_taken(&rt, kept, REFUSED_LOG.as_bytes());
}

/// No other line stands for that of a refusal, and before a line could be made there is none for a request.
#[test]
fn a_line_without_memory_fails_the_log(rt: HostRuntime) {
    let alloc = rt.alloc();
    let mut kept = kept_with(&rt, alloc, output_of(alloc, 50, 1_000), 1, 1);
    check_refused(&rt, &mut kept, 431, "head-too-large", Err(LogFault));
    check_failed(&rt, &kept, true);
    drop(kept);
    let mut kept = kept_with(&rt, alloc, output_of(alloc, 50, 1_000), 0, 2);
    check_get(&rt, alloc, &mut kept, None, "/books/sales/b.vcf", 503);
    check_failed(&rt, &kept, true);
    drop(kept);
}
