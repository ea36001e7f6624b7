//! What a log has of policies that are put in force.

use crate::checks::{check_fact, check_text};
use crate::machines::{Errand, FAULTS, FAULTY, MORE, POLICY, Row, compare, machine};
use book_desk_administering::Administered;
use book_log_lines::Time;
use book_log_service::{Clock, Logged};
use book_machine::Machine;
use book_office::{Keeper, MemoryKeeper, StoreFault};
use book_office_copies::copy;
use book_office_faults::Fused;
use std::alloc::{AllocError, Global};
use std::io;
use std::io::{ErrorKind, Write};
use std::process::Abort;

/// Tells one time.
#[derive(Drop)]
pub(crate) struct Stopped {
    time: Time,
}

impl Clock for Stopped {
    fn now(&mut self, _alloc: Global) -> Result<Time, AllocError> {
        self.time.clone()
    }
}

/// Takes what is written; after so many writes each one fails.
#[derive(Drop)]
pub(crate) struct Output {
    taken: Vec<u8>,
    writes: u64,
}

impl Write for Output {
    fn write(&mut self, buf: &[u8]) -> io::Result<usize> {
        if self.writes == 0 {
            return Err(ErrorKind::BrokenPipe.into());
        }
        self.writes -= 1;
        self.taken.extend_from_slice(buf)?;
        Ok(buf.len())
    }

    fn flush(&mut self) -> io::Result<()> {
        Ok(())
    }
}

pub(crate) type Kept<K> = Logged<K, Output, Stopped>;

/// A machine with a log that takes so many lines.
fn logged_over<K: Keeper>(
    rt: &impl Abort,
    alloc: Global,
    machine: Machine<K>,
    writes: u64,
) -> Kept<K> {
    let found = Time::parse(alloc, "2026-11-30T09:00:00.000Z").expect(rt, "memory");
    let clock = Stopped {
        time: found.expect(rt, "a time"),
    };
    let output = Output {
        taken: Vec::new(alloc),
        writes,
    };
    Logged::new(alloc, machine, output, clock)
}

/// The machine of the examples, with such a log.
pub(crate) fn logged(rt: &impl Abort, alloc: Global, writes: u64) -> Kept<MemoryKeeper> {
    let machine = machine(rt, alloc);
    logged_over(rt, alloc, machine, writes)
}

/// The same, over an Office whose epoch is at its last value.
fn last(rt: &impl Abort, alloc: Global) -> Kept<MemoryKeeper> {
    let mut machine = machine(rt, alloc);
    let mut office = copy(alloc, &mut machine.keeper).expect(rt, "memory");
    drop(machine);
    office.epoch = 9_007_199_254_740_991;
    let machine = Machine::new(MemoryKeeper::from_office(office));
    logged_over(rt, alloc, machine, 1_000)
}

/// The same, over a store that fails at once.
fn failing(rt: &impl Abort, alloc: Global) -> Kept<Fused<MemoryKeeper>> {
    let machine = machine(rt, alloc);
    let keeper = Fused::new(machine.release(), 0);
    logged_over(rt, alloc, Machine::new(keeper), 1_000)
}

/// Asks all in turn, and compares what the log has then.
fn compare_all<K: Keeper>(
    rt: &impl Abort,
    alloc: Global,
    kept: &mut Kept<K>,
    rows: &[Row],
    log: &str,
) {
    for row in rows {
        compare(rt, alloc, kept, row);
    }
    let text = str::from_utf8(kept.writer.taken.as_slice()).expect(rt, "a text");
    check_text(rt, text, log, "the log");
}

/// The third line of the log can't be written. What it would tell was done; after it nothing is.
const ROWS: &[Row] = &[
    (Errand::Put(POLICY), 0, "unchanged, epoch 1\n", ""),
    (Errand::Put(FAULTY), 1, "", FAULTS),
    (Errand::Put(MORE), 0, "changed, epoch 2\n", ""),
    (Errand::Put(POLICY), 3, "", "log: write\n"),
    (Errand::Put(FAULTY), 3, "", "log: write\n"),
];

/// A policy that is none has no line.
const LOG: &str = "{\"time\":\"2026-11-30T09:00:00.000Z\",\"epoch\":1,\"adopted\":\"unchanged\"}\n\
    {\"time\":\"2026-11-30T09:00:00.000Z\",\"epoch\":2,\"adopted\":\"changed\"}\n";

#[test]
fn a_policy_has_its_line(rt: HostRuntime) {
    let alloc = rt.alloc();
    let mut kept = logged(&rt, alloc, 2);
    compare_all(&rt, alloc, &mut kept, ROWS, LOG);
    let counts = kept.counts(alloc).expect(&rt, "memory");
    check_fact(&rt, counts.epoch == 2, "the epoch");
    drop(kept);
}

/// The epoch can't rise any more, whatever the policy has.
const LAST_ROWS: &[Row] = &[
    (Errand::Put(MORE), 1, "", "adopt: full\n"),
    (Errand::Put(POLICY), 1, "", "adopt: full\n"),
];

const LAST_LOG: &str =
    "{\"time\":\"2026-11-30T09:00:00.000Z\",\"epoch\":9007199254740991,\"adopted\":\"full\"}\n\
    {\"time\":\"2026-11-30T09:00:00.000Z\",\"epoch\":9007199254740991,\"adopted\":\"full\"}\n";

#[test]
fn a_refused_policy_has_its_line(rt: HostRuntime) {
    let alloc = rt.alloc();
    let mut kept = last(&rt, alloc);
    compare_all(&rt, alloc, &mut kept, LAST_ROWS, LAST_LOG);
    drop(kept);
}

/// Nothing is told of an Office that can't be read.
const FAILING_ROWS: &[Row] = &[
    (Errand::Audit, 3, "", "store: store\n"),
    (Errand::Dump, 3, "", "store: store\n"),
    (Errand::Show("/books/sales"), 3, "", "show: unavailable\n"),
    (Errand::Check(POLICY, false), 3, "", "store: store\n"),
    (Errand::Differs(POLICY, false), 3, "", "store: store\n"),
    (Errand::Put(POLICY), 3, "", "adopt: unavailable\n"),
];

/// The epoch is not known.
const FAILING_LOG: &str =
    "{\"time\":\"2026-11-30T09:00:00.000Z\",\"epoch\":0,\"adopted\":\"unavailable\"}\n";

#[test]
fn a_failing_store_is_told(rt: HostRuntime) {
    let alloc = rt.alloc();
    let mut kept = failing(&rt, alloc);
    compare_all(&rt, alloc, &mut kept, FAILING_ROWS, FAILING_LOG);
    let counts = kept.counts(alloc);
    check_fact(&rt, counts == Err(StoreFault::Store), "counts");
    drop(kept);
}
