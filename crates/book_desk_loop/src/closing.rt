//! Closing in stages (RFC 9112, section 9.6): after its last reply a client is told that no more comes, and what it
//! still sends is read and dropped, so that the reply reaches it.

ghost use Rattle.book_desk_loop.specs.Closing.{DropsSome};

use std::io::{ErrorKind, Read};
use std::net::{OpenStream, Shutdown};
use std::rt::Clock;
use std::time::{Duration, Instant};

/// How long what a client still sends is read, in seconds.
pub(crate) const LINGER: u64 = 2;

/// How many bytes of it are dropped at most.
const MAX_DROPPED: u64 = 4_194_304;

/// The most bytes of a read.
const READ: usize = 4_096;

/// What became of bytes that are read to be dropped.
#[derive(Clone, Copy, Debug, PartialEq, Eq)]
pub(crate) enum Dropped {
    /// So many were.
    Some(usize),
    /// None are there now.
    Nothing,
    /// None come any more, or the read failed.
    Ended,
}

/// Reads once, and drops what came.
#[tactic(auto, using(crate::proofs::Drops::drops_kept, crate::proofs::Drops::drops_these))]
pub(crate) fn drop_some<R: Read>(reader: &mut R, memory: &mut [u8]) -> Dropped
    ensures { DropsSome (R.remaining reader.old) (R.remaining reader.new) }
{
    match reader.read(memory) {
        Ok(0) => Dropped::Ended,
        Ok(count) => Dropped::Some(count),
        Err(error) => match error.kind() {
            ErrorKind::WouldBlock => Dropped::Nothing,
            ErrorKind::Interrupted => Dropped::Some(0),
            _ => Dropped::Ended,
        },
    }
}

/// Whether enough was dropped.
pub(crate) fn is_enough(dropped: u64) -> bool {
    dropped >= MAX_DROPPED
}

/// What is left of the time; none where it is up, or can't be told.
fn time_left<C: Clock>(clock: &C, begun: Instant) -> Option<Duration> {
    let Ok(now) = Instant::now(clock) else {
        return None;
    };
    let passed = now.saturating_duration_since(begun);
    match Duration::from_secs(LINGER).checked_sub(passed) {
        Some(left) => { if left.is_zero() { None } else { Some(left) } }
        None => None,
    }
}

/// Reads and drops until no more comes, enough was dropped, or the time is up. A read waits as long as is left of it.
#[tactic(auto, using(crate::proofs::Drops::drops_none))]
fn drop_all<C: Clock, S: Read + OpenStream>(clock: &C, begun: Instant, stream: &mut S)
    ensures { DropsSome (S.remaining stream.old) (S.remaining stream.new) }
{
    let mut memory = [0u8; READ];
    let mut dropped: u64 = 0;
    for _ in 0..MAX_DROPPED {
        let left = time_left(clock, begun);
        if left.is_none() || stream.set_read_timeout(left).is_err() {
            return;
        }
        match drop_some(stream, &mut memory) {
            Dropped::Some(count) => dropped = dropped.saturating_add(count as u64),
            Dropped::Nothing => return,
            Dropped::Ended => return,
        }
        if is_enough(dropped) {
            return;
        }
    }
}

/// Closes a stream for writing, and reads and drops what the client still sends, until it is at its end, 4,194,304 bytes
/// were dropped, or 2 seconds have passed (RFC 9112, section 9.6). The caller then lets it go.
///
/// A stream that can't be closed for writing, or has no time-out for a read, is not read. No failure is told: the replies
/// are sent already.
#[tactic(auto, using(crate::proofs::Drops::drops_none))]
pub fn close_in_stages<C: Clock, S: Read + OpenStream>(clock: &C, stream: &mut S)
    ensures { DropsSome (S.remaining stream.old) (S.remaining stream.new) }
{
    if stream.shutdown(Shutdown::Write).is_err() {
        return;
    }
    if let Ok(begun) = Instant::now(clock) {
        drop_all(clock, begun, stream);
    }
}
