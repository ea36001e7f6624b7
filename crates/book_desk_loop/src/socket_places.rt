//! The sockets of connections, each at the place of its connection.

ghost use Rattle.std.specs.Prelude.{◌≡◌, ◌≢◌, ℕ, ◌<◌, None, Some, OnOk, OnErr, length, true, false};
ghost use Rattle.book_wire_serving.specs.declared.faults.StreamFault.{StreamFault as Fault};
ghost use Rattle.book_desk_loop.specs.Closing.{DropsSome};
ghost use Rattle.book_desk_loop.specs.Serving.{Line, LinesStay, OtherLinesStay, line_at};

use crate::closing::{Dropped, drop_some, is_enough};
use crate::readiness::Readiness;
use crate::sockets::Socket;
use book_desk_connections::Turn;
use std::alloc::AllocError;
use std::io::Read;
use std::net::{OpenStream, Shutdown};
use std::time::Instant;
use std::{io, mem};

/// Whether no socket is there.
pub(crate) fn are_none<S>(sockets: &[Option<Socket<S>>]) -> bool
    ensures { result ≡ true → (i : ℕ) → line_at sockets.now i ≡ None }
{
    for socket in sockets {
        if socket.is_some() {
            return false;
        }
    }
    true
}

/// Makes places, so that there is this one. There is nothing in them.
fn make_places<S: Drop>(
    sockets: &mut Vec<Option<Socket<S>>>,
    place: usize,
) -> Result<(), AllocError>
    ensures there { OnOk result (place < length sockets.new.items) }
    ensures lines { LinesStay sockets.old.items sockets.new.items }
{
    while sockets.len() <= place {
        sockets.push(None)?;
    }
    Ok(())
}

/// Closes the socket at a place, and says whether one was there.
pub(crate) fn close_at<S: Drop>(sockets: &mut Vec<Option<Socket<S>>>, place: usize) -> bool
    ensures line { line_at sockets.new.items place ≡ None }
    ensures lines { OtherLinesStay place sockets.old.items sockets.new.items }
{
    if place < sockets.len() {
        let closed = mem::replace(&mut sockets[place], None);
        return closed.is_some();
    }
    false
}

/// Has a stream a place.
pub(crate) fn put<S: Drop>(
    sockets: &mut Vec<Option<Socket<S>>>,
    place: usize,
    stream: S,
    now: Instant,
) -> Result<(), AllocError>
    ensures line { OnOk result (line_at sockets.new.items place ≡ Some
        (record { stream = stream; at_end = false; lingers = false })) }
    ensures lines { OnOk result (OtherLinesStay place sockets.old.items sockets.new.items) }
    ensures none { OnErr result (LinesStay sockets.old.items sockets.new.items) }
{
    make_places(sockets, place)?;
    sockets[place] = Some(Socket::new(stream, now));
    Ok(())
}

/// Has a stream a place, and is told when it can go on.
pub(crate) fn join<S: Drop, P: Readiness<S>>(
    sockets: &mut Vec<Option<Socket<S>>>,
    readiness: &mut P,
    place: usize,
    stream: S,
    now: Instant,
) -> io::Result<()>
    ensures line { OnOk result (line_at sockets.new.items place ≡ Some
        (record { stream = stream; at_end = false; lingers = false })) }
    ensures lines { OnOk result (OtherLinesStay place sockets.old.items sockets.new.items) }
    ensures none { OnErr result (LinesStay sockets.old.items sockets.new.items) }
{
    readiness.watch(&stream, place)?;
    put(sockets, place, stream, now)?;
    Ok(())
}

/// When the request began that is not whole; none where there is none.
fn begun_at(begun: Option<Instant>, within: bool, answered: bool, now: Instant) -> Option<Instant> {
    if !within {
        None
    } else if answered || begun.is_none() {
        Some(now)
    } else {
        begun
    }
}

/// Notes when the request began that is not whole: where others were answered since, it is at most as old as these.
pub(crate) fn note_begin<S: Drop>(
    sockets: &mut Vec<Option<Socket<S>>>,
    place: usize,
    within: bool,
    answered: bool,
    now: Instant,
)
    ensures { LinesStay sockets.old.items sockets.new.items }
{
    if let Some(there) = sockets.get_mut(place) {
        if let Some(socket) = there {
            socket.begun = begun_at(socket.begun, within, answered, now);
        }
    }
}

/// Notes that the turn of a connection comes anyway.
pub(crate) fn note_queued<S: Drop>(sockets: &mut Vec<Option<Socket<S>>>, place: usize)
    ensures { LinesStay sockets.old.items sockets.new.items }
{
    if let Some(there) = sockets.get_mut(place) {
        if let Some(socket) = there {
            socket.queued = true;
        }
    }
}

/// Closes the stream at a place for writing.
pub(crate) fn close_for_writing<S: OpenStream + Drop>(
    sockets: &mut Vec<Option<Socket<S>>>,
    place: usize,
)
    ensures there { (line : Line S) → line_at sockets.old.items place ≡ Some line
        → line_at sockets.new.items place ≡ Some
        (record { stream = line.stream; at_end = line.at_end; lingers = true }) }
    ensures none { line_at sockets.old.items place ≡ None → line_at sockets.new.items place ≡ None }
    ensures lines { OtherLinesStay place sockets.old.items sockets.new.items }
{
    if let Some(there) = sockets.get_mut(place) {
        if let Some(socket) = there {
            // Where this fails the client is at its end.
            let _ = socket.stream.shutdown(Shutdown::Write);
            socket.dropped = Some(0);
        }
    }
}

/// Drops what the stream at a place brings. It ends where no more comes, or enough did.
pub(crate) fn drop_at<S: Read + Drop>(
    sockets: &mut Vec<Option<Socket<S>>>,
    place: usize,
    memory: &mut [u8],
) -> Turn
    ensures there { (line : Line S) → line_at sockets.old.items place ≡ Some line
        → (line_then : Line S) × (line_at sockets.new.items place ≡ Some line_then)
        × DropsSome (S.remaining line.stream) (S.remaining line_then.stream)
        × (line_then.lingers ≡ true) }
    ensures none { line_at sockets.old.items place ≡ None → (line_at sockets.new.items place ≡ None)
        × (result ≡ Turn.Waits) }
    ensures lines { OtherLinesStay place sockets.old.items sockets.new.items }
    ensures done { result ≢ Turn.Done }
    ensures failed { (fault : Fault) → result ≢ Turn.Failed fault }
{
    match sockets.get_mut(place) {
        Some(there) => match there {
            Some(socket) => {
                socket.queued = false;
                let came = drop_some(&mut socket.stream, memory);
                let dropped = more_dropped(socket.dropped, came);
                socket.dropped = Some(dropped);
                after_drop(came, dropped)
            }
            None => Turn::Waits,
        },
        None => Turn::Waits,
    }
}

/// How many bytes were dropped by then.
fn more_dropped(dropped: Option<u64>, came: Dropped) -> u64 {
    let before = dropped.unwrap_or(0);
    match came {
        Dropped::Some(count) => before.saturating_add(count as u64),
        Dropped::Nothing | Dropped::Ended => before,
    }
}

/// What comes after a read of what is dropped. It ends where no more comes, or enough did.
fn after_drop(came: Dropped, dropped: u64) -> Turn
    ensures done { result ≢ Turn.Done }
    ensures failed { (fault : Fault) → result ≢ Turn.Failed fault }
{
    match came {
        Dropped::Some(_) => {
            if is_enough(dropped) {
                Turn::Ended
            } else {
                Turn::Again
            }
        }
        Dropped::Nothing => Turn::Waits,
        Dropped::Ended => Turn::Ended,
    }
}
