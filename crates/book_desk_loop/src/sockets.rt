//! What is known of a connection's socket, and of one that can't be accepted.

ghost use Rattle.std.specs.Prelude.{◌≡◌, ◌≢◌, None, false, is_some, true};

use std::io;
use std::time::{Duration, Instant};

/// How long a request may take from its first byte to its last, in seconds.
const WHOLE_REQUEST: u64 = 30;

/// How long a connection is idle that is closed when no more are to come, in seconds.
pub(crate) const DRAINED: u64 = 1;

/// A connection that moved no byte for so many milliseconds is idle, where another waits for its place.
pub(crate) const RESTED: u64 = 100;

/// A connection whose request is not whole for so many seconds is slow, where another waits for its place.
const SLOW: u64 = 1;

/// What the system says where file descriptors are wanting (POSIX): ENFILE and EMFILE.
const SHORT: [i32; 2] = [23, 24];

/// What the system says where a connection can't be accepted now and may be later (POSIX): it was given up, or file
/// descriptors, memory or the network are wanting.
const PASSING: [i32; 8] = [
    1, // EPERM
    12, // ENOMEM
    23, // ENFILE
    24, // EMFILE
    71, // EPROTO
    100, // ENETDOWN
    103, // ECONNABORTED
    105, // ENOBUFS
];

/// A connection's socket.
#[derive(Drop)]
pub(crate) struct Socket<S> {
    pub(crate) stream: S,
    /// When it moved bytes last, or may have.
    pub(crate) moved: Instant,
    /// When the request began that is not whole yet.
    pub(crate) begun: Option<Instant>,
    /// Whether its input is at its end.
    pub(crate) at_end: bool,
    /// Whether its turn comes anyway.
    pub(crate) queued: bool,
    /// How many bytes were dropped since its last reply was sent; none before.
    pub(crate) dropped: Option<u64>,
}

impl<S> Socket<S> {
    /// That of a connection that came now.
    pub(crate) fn new(stream: S, now: Instant) -> Socket<S>
        ensures stream { result.stream ≡ stream }
        ensures at_end { result.at_end ≡ false }
        ensures dropped { result.dropped ≡ None }
    {
        Socket {
            stream,
            moved: now,
            begun: None,
            at_end: false,
            queued: false,
            dropped: None,
        }
    }
}

/// Whether so long a time passed since then.
pub(crate) fn has_passed(since: Instant, now: Instant, most: Option<Duration>) -> bool
    ensures { result ≡ true → most ≢ None }
{
    match most {
        Some(most) => now.saturating_duration_since(since) >= most,
        None => false,
    }
}

/// Whether a request that began then is late, where there is such a limit.
pub(crate) fn is_late(begun: Option<Instant>, now: Instant, idle: Option<Duration>) -> bool
    ensures { result ≡ true → idle ≢ None }
{
    match (begun, idle) {
        (Some(begun), Some(_)) => now.saturating_duration_since(begun)
            >= Duration::from_secs(WHOLE_REQUEST),
        _ => false,
    }
}

/// Whether the socket moved no byte for a while, and its connection is not to be closed anyway.
pub(crate) fn is_rested<S>(socket: &Socket<S>, now: Instant) -> bool
    ensures { result ≡ true → is_some socket.now.dropped ≡ false }
{
    socket.dropped.is_none() && has_passed(socket.moved, now, Some(Duration::from_millis(RESTED)))
}

/// Whether the request of the connection is not whole for a while, and it is not to be closed anyway.
pub(crate) fn is_slow<S>(socket: &Socket<S>, now: Instant) -> bool
    ensures { result ≡ true → is_some socket.now.dropped ≡ false }
{
    let Some(begun) = socket.begun else {
        return false;
    };
    socket.dropped.is_none() && has_passed(begun, now, Some(Duration::from_secs(SLOW)))
}

/// Whether no connection can be accepted for want of file descriptors.
pub(crate) fn is_short(error: &io::Error) -> bool {
    match error.raw_os_error() {
        Some(code) => SHORT.contains(&code),
        None => false,
    }
}

/// Whether a connection may be accepted later where this is the error of now.
pub(crate) fn passes(error: &io::Error) -> bool {
    match error.raw_os_error() {
        Some(code) => PASSING.contains(&code),
        None => false,
    }
}
