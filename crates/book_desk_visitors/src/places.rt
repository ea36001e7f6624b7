//! The places of the connections of a control.

ghost use Rattle.std.specs.Prelude.{◌≡◌};
ghost use Rattle.book_wire_steps.specs.Steps.{OnlyAdopts};

use crate::facts::Facts;
use crate::visitors::{Visitor, Went};
use book_desk_administering::Administered;
use book_desk_answering::Copying;
use book_desk_control::Exchange;
use book_desk_sockets::{Door, LocalDoor, LocalStream};
use book_wire_steps::Wish;
use mio::unix::SourceFd;
use mio::{Events, Interest, Poll, Token};
use std::alloc::Global;
use std::io;
use std::net::{Net, OpenStream};
use std::os::fd::{AsRawFd, RawFd};
use std::time::Duration;

/// How many connections have a place. One more takes that of the one that came first.
const PLACES: usize = 8;

/// The most events of one wait: one of the listener, and one of each place.
const EVENTS: usize = 16;

/// The place of the connection that came first, or one without any.
fn place_for(visitors: &[Option<Visitor>]) -> usize {
    let mut first = 0;
    let mut least = u64::MAX;
    for (place, visitor) in visitors.iter().enumerate() {
        match visitor {
            Some(visitor) => {
                if visitor.number < least {
                    least = visitor.number;
                    first = place;
                }
            }
            None => return place,
        }
    }
    first
}

/// Places without any connection.
fn free_places(alloc: Global) -> io::Result<Vec<Option<Visitor>>> {
    let mut visitors = Vec::new(alloc);
    for _ in 0..PLACES {
        visitors.push(None)?;
    }
    Ok(visitors)
}

/// The connections of a control, each at its place.
#[derive(Drop)]
pub struct Places {
    alloc: Global,
    listener: LocalDoor,
    poll: Poll,
    events: Events,
    visitors: Vec<Option<Visitor>>,
    /// How many came.
    came: u64,
    /// The place that has its turn first.
    first: usize,
}

impl Places {
    /// No connections of a listener yet.
    ///
    /// # Errors
    ///
    /// Where the system tells of no readiness, and for want of memory.
    pub fn new(rt: &impl Net, alloc: Global, listener: LocalDoor) -> io::Result<Places> {
        listener.set_waiting(false)?;
        let poll = Poll::new(rt)?;
        poll.registry().register(
            &mut SourceFd(&listener.0.as_raw_fd()),
            Token(PLACES),
            Interest::READABLE,
        )?;
        let events = Events::with_capacity(alloc, EVENTS)?;
        let visitors = free_places(alloc)?;
        Ok(Places {
            alloc,
            listener,
            poll,
            events,
            visitors,
            came: 0,
            first: 0,
        })
    }

    /// What can be read when one of them may go on.
    pub fn descriptor(&self) -> RawFd {
        self.poll.as_raw_fd()
    }

    /// Gives a connection a place, and is told when it can go on.
    fn begin(&mut self, stream: LocalStream) -> io::Result<usize> {
        stream.set_nonblocking(true)?;
        let place = place_for(self.visitors.as_slice());
        self.poll.registry().register(
            &mut SourceFd(&stream.as_raw_fd()),
            Token(place),
            Interest::READABLE | Interest::WRITABLE,
        )?;
        let number = self.came;
        self.came = self.came.saturating_add(1);
        if let Some(there) = self.visitors.get_mut(place) {
            *there = Some(Visitor {
                stream,
                exchange: Exchange::new(self.alloc),
                number,
            });
        }
        Ok(place)
    }

    /// Takes a connection that waits, and gives it a place; none where none waits.
    fn take(&mut self) -> Option<usize> {
        for _ in 0..PLACES {
            let Ok(stream) = self.listener.give() else {
                return None;
            };
            if let Ok(place) = self.begin(stream) {
                return Some(place);
            }
        }
        None
    }

    /// Is told again of what can go on already.
    fn arm(&self) {
        let _ = self.poll.registry().reregister(
            &mut SourceFd(&self.listener.0.as_raw_fd()),
            Token(PLACES),
            Interest::READABLE,
        );
        for (place, visitor) in self.visitors.iter().enumerate() {
            if let Some(visitor) = visitor {
                let _ = self.poll.registry().reregister(
                    &mut SourceFd(&visitor.stream.as_raw_fd()),
                    Token(place),
                    Interest::READABLE | Interest::WRITABLE,
                );
            }
        }
    }

    /// Forgets what was told.
    fn look(&mut self) {
        // What was ready is looked for at each place: the events say no more than that there is something.
        let _ = self.poll.poll(&mut self.events, Some(Duration::ZERO));
    }

    /// Gives the connection at a place its turn.
    fn visit<M: Administered, C: Copying<M>>(
        &mut self,
        place: usize,
        service: &mut M,
        copier: &mut C,
        facts: &Facts<'_>,
    ) -> Went
        ensures { OnlyAdopts M.Service.serving service.old service.new }
    {
        let alloc = self.alloc;
        let Some(there) = self.visitors.get_mut(place) else {
            return Went::On;
        };
        let Some(visitor) = there else {
            return Went::On;
        };
        match visitor.go_on(alloc, service, copier, facts) {
            Ok(went) => went,
            Err(_) => {
                *there = None;
                Went::On
            }
        }
    }

    /// Gives each connection its turn, until one was answered.
    fn visit_all<M: Administered, C: Copying<M>>(
        &mut self,
        service: &mut M,
        copier: &mut C,
        facts: &Facts<'_>,
    ) -> Went
        ensures { OnlyAdopts M.Service.serving service.old service.new }
    {
        for step in 0..PLACES {
            let place = (self.first % PLACES + step) % PLACES;
            let went = self.visit(place, service, copier, facts);
            if went != Went::On {
                self.first = place + 1;
                return went;
            }
        }
        Went::On
    }

    /// Takes the connections that wait, and gives each its turn, until one was answered.
    fn take_all<M: Administered, C: Copying<M>>(
        &mut self,
        service: &mut M,
        copier: &mut C,
        facts: &Facts<'_>,
    ) -> Went
        ensures { OnlyAdopts M.Service.serving service.old service.new }
    {
        for _ in 0..u16::MAX {
            let Some(place) = self.take() else {
                return Went::On;
            };
            let went = self.visit(place, service, copier, facts);
            if went != Went::On {
                return went;
            }
        }
        Went::Again
    }

    /// Gives each connection its turn, and then those that wait, until one was answered.
    fn go_on<M: Administered, C: Copying<M>>(
        &mut self,
        service: &mut M,
        copier: &mut C,
        facts: &Facts<'_>,
    ) -> Went
        ensures { OnlyAdopts M.Service.serving service.old service.new }
    {
        let went = self.visit_all(service, copier, facts);
        if went != Went::On {
            return went;
        }
        self.take_all(service, copier, facts)
    }

    /// A turn of the connections, in which one is answered at most; and what it wishes. Copies are made by `copier`.
    pub fn take_turn<M: Administered, C: Copying<M>>(
        &mut self,
        service: &mut M,
        copier: &mut C,
        facts: &Facts<'_>,
    ) -> Wish
        ensures { OnlyAdopts M.Service.serving service.old service.new }
    {
        self.look();
        match self.go_on(service, copier, facts) {
            Went::On => Wish::GoOn,
            Went::Again => {
                self.arm();
                Wish::GoOn
            }
            Went::Ends => {
                self.arm();
                Wish::End
            }
        }
    }
}
