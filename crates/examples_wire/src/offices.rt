//! Machines of the examples, each for one stream, and what they answer to it.

use book_machine::Machine;
use book_office::MemoryKeeper;
use book_policy::read_policy;
use book_wire::{Served, serve_stream};
use book_wire_serving::StreamFault;
use std::alloc::Global;
use std::io;
use std::io::{ErrorKind, Read, Write};
use std::process::Abort;

/// Ann owns the book of sales and may do all there; the staff, ann and bob, may read it and put new cards into it.
pub(crate) const POLICY: &str = "\
version = 1
[[person]]
name = \"ann\"
[[person]]
name = \"bob\"
[[person]]
name = \"gus\"
[[group]]
name = \"staff\"
members = [\"/people/ann\", \"/people/bob\"]
[[book]]
name = \"sales\"
label = \"Sales\"
owner = \"/people/ann\"
[[entry]]
at = \"/books/sales\"
who = \"/people/ann\"
grant = [\"all\"]
protected = true
[[entry]]
at = \"/books/sales\"
who = \"/groups/staff\"
grant = [\"read\", \"bind\"]
";

/// A machine in memory that has adopted a policy.
pub(crate) fn machine(rt: &impl Abort, alloc: Global, policy: &str) -> Machine<MemoryKeeper> {
    let policy = read_policy(alloc, policy).ok().expect(rt, "a policy");
    let mut machine = Machine::new(MemoryKeeper::new(alloc));
    machine
        .adopt(alloc, &policy)
        .ok()
        .expect(rt, "room for the policy");
    drop(policy);
    machine
}

/// Gives its bytes in pieces of one size; one read fails, after so many.
#[derive(Drop)]
struct Input<'a> {
    rest: &'a [u8],
    size: usize,
    reads: u64,
}

impl Read for Input<'_> {
    fn read(&mut self, buf: &mut [u8]) -> io::Result<usize> {
        self.reads = self.reads.wrapping_sub(1);
        if self.reads == u64::MAX {
            return Err(ErrorKind::Interrupted.into());
        }
        let count = self.size.min(self.rest.len()).min(buf.len());
        buf[..count].copy_from_slice(&self.rest[..count]);
        self.rest = &self.rest[count..];
        Ok(count)
    }
}

/// Takes at most so many bytes a write; one write fails, after so many.
#[derive(Drop)]
struct Output {
    taken: Vec<u8>,
    size: usize,
    writes: u64,
}

impl Write for Output {
    fn write(&mut self, buf: &[u8]) -> io::Result<usize> {
        self.writes = self.writes.wrapping_sub(1);
        if self.writes == u64::MAX {
            return Err(ErrorKind::Interrupted.into());
        }
        let count = self.size.min(buf.len());
        self.taken.extend_from_slice(&buf[..count])?;
        Ok(count)
    }

    fn flush(&mut self) -> io::Result<()> {
        Ok(())
    }
}

/// How a stream is cut, and when it fails.
#[derive(Clone, Copy)]
pub(crate) struct Cutting {
    /// The most bytes of a read.
    pub(crate) read: usize,
    /// The most bytes of a write.
    pub(crate) write: usize,
    /// How many reads succeed before the one that fails.
    pub(crate) reads: u64,
    /// How many writes succeed before the one that fails.
    pub(crate) writes: u64,
}

/// Large pieces, and no failure.
pub(crate) const WHOLE: Cutting = Cutting {
    read: 1000,
    write: 1000,
    reads: u64::MAX,
    writes: u64::MAX,
};

/// What a machine writes for a stream that is cut so, and how it ends.
fn served(
    rt: &impl Abort,
    alloc: Global,
    machine: &mut Machine<MemoryKeeper>,
    input: &[u8],
    cutting: Cutting,
) -> (String, Result<Served, StreamFault>) {
    let mut reader = Input {
        rest: input,
        size: cutting.read,
        reads: cutting.reads,
    };
    let mut writer = Output {
        taken: Vec::new(alloc),
        size: cutting.write,
        writes: cutting.writes,
    };
    let served = serve_stream(alloc, machine, &mut reader, &mut writer);
    let Output { taken, .. } = writer;
    let text = String::from_utf8(taken).ok().expect(rt, "UTF-8");
    (text, served)
}

/// Asks for the token of the book of sales.
const TOKEN: &str =
    "PROPFIND /books/sales HTTP/1.1\r\nx-office-caller: ann\r\nContent-Length: 23\r\n\r\n{\"prop\":[\"sync-token\"]}";

/// What a stream did to a machine of its own.
#[derive(Drop)]
pub(crate) struct Outcome {
    /// What was written.
    pub(crate) text: String,
    /// How the stream ended.
    pub(crate) served: Result<Served, StreamFault>,
    /// The reply to the question for the token of the book of sales, afterwards.
    pub(crate) token: String,
}

/// What a stream that is cut so does to a machine that has adopted the policy.
pub(crate) fn answered(
    rt: &impl Abort,
    alloc: Global,
    policy: &str,
    input: &[u8],
    cutting: Cutting,
) -> Outcome {
    let mut machine = machine(rt, alloc, policy);
    let (text, ended) = served(rt, alloc, &mut machine, input, cutting);
    let (token, _) = served(rt, alloc, &mut machine, TOKEN.as_bytes(), WHOLE);
    drop(machine);
    Outcome {
        text,
        served: ended,
        token,
    }
}
