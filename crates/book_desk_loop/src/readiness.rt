//! What tells which sockets can go on, and the time.

use mio::unix::SourceFd;
use mio::{Events, Interest, Poll, Token};
use std::alloc::Global;
use std::io;
use std::net::Net;
use std::os::fd::{AsRawFd, RawFd};
use std::rt::Clock;
use std::time::{Duration, Instant};

/// What may go on beside the streams.
#[derive(Clone, Copy)]
pub struct Woken {
    /// A connection may wait to be accepted.
    pub listener: bool,
    /// The control may go on.
    pub control: bool,
}

/// What tells which streams can go on, and the time; and when a control may.
pub trait Readiness<S> {
    /// Tells of the stream from now on, as of one at the place.
    ///
    /// # Errors
    ///
    /// Where it can't.
    fn watch(&mut self, stream: &S, place: usize) -> io::Result<()>;

    /// Waits until a stream or the control may go on, or a connection may wait to be accepted, at most so long, and adds
    /// the places of the streams to `ready`.
    ///
    /// # Errors
    ///
    /// Where it can't wait, and for want of memory.
    fn wait(&mut self, most: Option<Duration>, ready: &mut Vec<usize>) -> io::Result<Woken>;

    /// The time.
    ///
    /// # Errors
    ///
    /// Where it can't be told.
    fn now(&self) -> io::Result<Instant>;
}

/// The token of each listener. No place is as large.
const LISTENER: Token = Token(usize::MAX);

/// The token of the control. No place is as large.
const CONTROL: Token = Token(usize::MAX - 1);

/// The most events of one wait.
pub(crate) const EVENTS: usize = 256;

/// Readiness as the system tells it.
#[derive(Drop)]
pub struct Polled<'r, R> {
    rt: &'r R,
    poll: Poll,
    events: Events,
}

impl<'r, R: Net + Clock> Polled<'r, R> {
    /// Readiness that tells of no listener yet, and not when a control may go on.
    ///
    /// # Errors
    ///
    /// Where the system has none to give, and for want of memory.
    pub fn new(rt: &'r R, alloc: Global) -> io::Result<Polled<'r, R>> {
        let poll = Poll::new(rt)?;
        let events = Events::with_capacity(alloc, EVENTS)?;
        Ok(Polled { rt, poll, events })
    }

    /// Tells from now on that a connection may wait at this one too.
    ///
    /// # Errors
    ///
    /// Where it can't.
    pub fn listen_to<L: AsRawFd>(&mut self, listener: &L) -> io::Result<()> {
        self.poll.registry().register(
            &mut SourceFd(&listener.as_raw_fd()),
            LISTENER,
            Interest::READABLE,
        )
    }

    /// Tells from now on that a control may go on, when this can be read.
    ///
    /// # Errors
    ///
    /// Where it can't.
    pub fn wake_control_by(&mut self, descriptor: RawFd) -> io::Result<()> {
        self.poll
            .registry()
            .register(&mut SourceFd(&descriptor), CONTROL, Interest::READABLE)
    }
}

impl<R: Net + Clock, S: AsRawFd> Readiness<S> for Polled<'_, R> {
    fn watch(&mut self, stream: &S, place: usize) -> io::Result<()> {
        self.poll.registry().register(
            &mut SourceFd(&stream.as_raw_fd()),
            Token(place),
            Interest::READABLE | Interest::WRITABLE,
        )
    }

    fn wait(&mut self, most: Option<Duration>, ready: &mut Vec<usize>) -> io::Result<Woken> {
        self.poll.poll(&mut self.events, most)?;
        let mut listener = false;
        let mut control = false;
        for event in &self.events {
            let token = event.token();
            if token == LISTENER {
                listener = true;
            } else if token == CONTROL {
                control = true;
            } else {
                ready.push(token.0)?;
            }
        }
        Ok(Woken { listener, control })
    }

    fn now(&self) -> io::Result<Instant> {
        Instant::now(self.rt)
    }
}
