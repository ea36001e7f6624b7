//! How many connections are served, and how; what is told of their faults; and why they are served no more.

ghost use Rattle.std.specs.Prelude.{◌≡◌, ◌≢◌, ◌⊎◌, None, Ok, Err, OnOk, Some, false, true};
ghost use Rattle.book_wire_serving.specs.declared.faults.StreamFault.{StreamFault as Fault};
ghost use Rattle.book_desk_loop.specs.Serving.{IsOneFewer};

use book_wire_serving::StreamFault;
use std::io;
use std::io::ErrorKind;
use std::time::{Duration, Instant};

/// How many connections are served, and how. One of which nothing is unread or unsent is idle.
#[derive(Clone, Copy, Debug)]
pub struct Limits {
    /// The most at once. Others wait to be accepted: for one that waits, a connection is closed whose last reply is sent,
    /// else the one that is idle for the longest time, if that is 0.1 seconds, else the one whose request is not whole for
    /// the longest time, if that is a second.
    pub at_once: usize,
    /// How many in all; none where there is no end. After the last came, those are closed that are idle for a second, and
    /// the others are served to their end.
    pub total: Option<u16>,
    /// A connection that moves no byte for so long is closed as at the end of its input, and one whose request is not
    /// whole 30 seconds after its first byte. None where there is no such limit.
    pub idle: Option<Duration>,
    /// Whether a connection gives its place to one that waits. Else that waits until one is closed.
    pub gives_way: bool,
    /// Whether the control has its turn: it may adopt policies between two requests, and end it. After its wish it is as
    /// after the last connection came.
    pub is_administered: bool,
}

/// Why connections are served no more.
#[derive(Clone, Copy, Debug, PartialEq, Eq)]
pub enum Stop {
    /// A connection can't be accepted, nothing can be waited for, or the time can't be told; or want of memory.
    Failed,
    /// The store has failed and shows nothing, and there was no end of connections.
    Store,
    /// A line of the log could not be written.
    Log,
}

/// How rounds of the loop end.
#[derive(Clone, Copy, Debug)]
pub(crate) enum Ended {
    /// No more are to come, and none is there.
    Done,
    /// The store has failed and shows nothing, and there is no end of connections.
    StoreFailed,
    /// A line of the log could not be written.
    LogFailed,
}

/// How it stands with the store.
#[derive(Clone, Copy)]
pub(crate) enum StoreState {
    /// It is not known to show nothing.
    Shows,
    /// It shows nothing since then. Whole requests are still answered, and what waits is sent.
    Failed(Instant),
    /// That is done, or took 2 seconds.
    Left,
}

/// What is told of the connection that had a fault.
pub trait Faults {
    ghost tells: { Self → Fault → Self → Type 0 };

    /// A connection had this fault.
    fn tell(&mut self, fault: StreamFault)
        ensures { tells self.old fault self.new };

    /// How many connections had one.
    fn count(&self) -> u64;
}

/// Tells the fault of a connection.
pub(crate) fn tell<F: Faults>(faults: &mut F, fault: StreamFault)
    ensures { F.tells faults.old fault faults.new }
{
    faults.tell(fault);
}

/// Whether the loop goes on until the store has failed.
pub(crate) fn is_endless(total: Option<u16>) -> bool
    ensures { result ≡ true → total ≡ None }
{
    total.is_none()
}

/// Whether no more are to come.
pub(crate) fn none_left(left: Option<u16>) -> bool
    ensures none { result ≡ true → left ≡ Some 0 }
    ensures some { result ≡ false → left ≢ Some 0 }
{
    match left {
        Some(left) => left == 0,
        None => false,
    }
}

/// The fault of a connection that nothing can be read of.
pub(crate) fn fault_of(error: &io::Error) -> StreamFault {
    match error.kind() {
        ErrorKind::OutOfMemory => StreamFault::Memory,
        _ => StreamFault::Read,
    }
}

/// One fewer.
pub(crate) fn fewer(left: Option<u16>) -> Option<u16>
    requires { left ≢ Some 0 }
    ensures { IsOneFewer left result }
{
    match left {
        Some(left) => Some(left.saturating_sub(1)),
        None => None,
    }
}

/// Why it ended so. Where the log has failed too, that is why.
pub(crate) fn stop_of(ended: io::Result<Ended>, failed_log: bool) -> Result<(), Stop>
    ensures done { OnOk result (ended ≡ Ok Ended.Done) }
    ensures store { result ≡ Err Stop.Store → ended ≡ Ok Ended.StoreFailed }
    ensures log { result ≡ Err Stop.Log → (failed_log ≡ true) ⊎ (ended ≡ Ok Ended.LogFailed) }
    ensures failed_log { failed_log ≡ true → result ≡ Err Stop.Log }
{
    if failed_log {
        return Err(Stop::Log);
    }
    match ended {
        Ok(Ended::Done) => Ok(()),
        Ok(Ended::StoreFailed) => Err(Stop::Store),
        Ok(Ended::LogFailed) => Err(Stop::Log),
        Err(_) => Err(Stop::Failed),
    }
}
