//! The connections of a control: what each asks is answered over the service.

ghost use Rattle.std.specs.Prelude.{◌≡◌};
ghost use Rattle.book_wire_steps.specs.Steps.{OnlyAdopts};

use crate::facts::{Facts, Given, health_reply, metrics_reply, stop_reply};
use book_desk_administering::Administered;
use book_desk_answering::{Copying, Reply, answer};
use book_desk_control::{Demand, Exchange, asks_end};
use book_desk_sockets::LocalStream;
use std::alloc::{AllocError, Global};
use std::io::{self, ErrorKind, Read, Write};
use std::net::{OpenStream, Shutdown};

/// The most bytes of a read.
const READ: usize = 4_096;

/// The most reads of a turn. What is read is refused before, or is whole.
const READS: usize = 65_536;

/// The most writes of a turn.
const WRITES: usize = 32;

/// How a turn of a connection went.
#[derive(Clone, Copy, Debug, PartialEq, Eq)]
pub(crate) enum Went {
    /// It waits.
    On,
    /// It was answered, or there is more to send: it goes on in another turn.
    Again,
    /// It asked that the server ends.
    Ends,
}

/// What a demand asks of.
#[derive(Clone, Copy, Debug, PartialEq, Eq)]
enum Asks {
    /// How the server does.
    Health,
    /// What it counted.
    Metrics,
    /// That it ends.
    Stop,
    /// Of its Office.
    Office,
}

/// What a demand asks of.
fn asks_of(demand: &Demand) -> Asks {
    match demand {
        Demand::Health => Asks::Health,
        Demand::Metrics => Asks::Metrics,
        Demand::Stop => Asks::Stop,
        Demand::Audit(_)
        | Demand::Why(_)
        | Demand::Who(_)
        | Demand::Rights(_)
        | Demand::Ask(_)
        | Demand::Show(_)
        | Demand::Check(_, _)
        | Demand::Differs(_, _)
        | Demand::Policy(_)
        | Demand::Dump
        | Demand::Backup(_) => Asks::Office,
    }
}

/// What the Office has; none where the store shows nothing.
fn given<M: Administered>(alloc: Global, service: &mut M) -> Option<Given>
    ensures { OnlyAdopts M.Service.serving service.old service.new }
{
    match service.counts(alloc) {
        Ok(counts) => Some(Given {
            epoch: counts.epoch,
            persons: counts.persons as u64,
            groups: counts.groups as u64,
            books: counts.books as u64,
            cards: counts.cards,
        }),
        Err(_) => None,
    }
}

/// The reply to a demand.
fn reply_to<M: Administered, C: Copying<M>>(
    alloc: Global,
    service: &mut M,
    copier: &mut C,
    demand: Demand,
    facts: &Facts<'_>,
) -> Result<Reply, AllocError>
    ensures { OnlyAdopts M.Service.serving service.old service.new }
{
    match asks_of(&demand) {
        Asks::Health => health_reply(alloc, facts, given(alloc, service)),
        Asks::Metrics => metrics_reply(alloc, facts, given(alloc, service)),
        Asks::Stop => stop_reply(alloc),
        Asks::Office => answer(alloc, service, copier, demand),
    }
}

/// A connection, and its socket.
#[derive(Drop)]
pub(crate) struct Visitor {
    /// Its socket.
    pub(crate) stream: LocalStream,
    /// What it brought, and its reply.
    pub(crate) exchange: Exchange,
    /// How many came before it.
    pub(crate) number: u64,
}

impl Visitor {
    /// Reads once. No bytes where none came yet.
    ///
    /// # Errors
    ///
    /// Where it fails, or is at its end.
    fn read(&mut self, memory: &mut [u8]) -> io::Result<usize> {
        match self.stream.read(memory) {
            Ok(0) => Err(ErrorKind::UnexpectedEof.into()),
            Ok(count) => Ok(count),
            Err(error) if error.kind() == ErrorKind::WouldBlock => Ok(0),
            Err(error) => Err(error),
        }
    }

    /// Takes what came, until it is a demand, or is refused.
    fn hear(&mut self, alloc: Global) -> io::Result<Option<Demand>> {
        let mut memory = [0u8; READ];
        for _ in 0..READS {
            let count = self.read(&mut memory)?;
            let Some(bytes) = memory.get(..count) else {
                return Ok(None);
            };
            if bytes.is_empty() {
                return Ok(None);
            }
            let demand = self.exchange.bring(alloc, bytes)?;
            if demand.is_some() || self.exchange.is_answered() {
                return Ok(demand);
            }
        }
        Ok(None)
    }

    /// Gives it its reply.
    fn give(&mut self, alloc: Global, reply: Reply) -> io::Result<()> {
        let Reply {
            outcome,
            ending,
            kind,
            body,
        } = reply;
        self.exchange.answer(alloc, outcome, ending, kind, body)?;
        Ok(())
    }

    /// Sends what is still to be sent, as far as the socket takes it, and in a turn no more than so many writes. Ends where all
    /// is sent.
    fn send(&mut self) -> io::Result<Went> {
        for _ in 0..WRITES {
            let unsent = self.exchange.unsent();
            if unsent.is_empty() {
                return Ok(Went::Ends);
            }
            match self.stream.write(unsent) {
                Ok(0) => return Err(ErrorKind::WriteZero.into()),
                Ok(count) => self.exchange.did_send(count),
                Err(error) if error.kind() == ErrorKind::WouldBlock => return Ok(Went::On),
                Err(error) => return Err(error),
            }
        }
        Ok(Went::Again)
    }

    /// Tells that no more comes, and drops what still comes.
    fn linger(&mut self) -> io::Result<()> {
        let _ = self.stream.shutdown(Shutdown::Write);
        let mut memory = [0u8; READ];
        for _ in 0..READS {
            if self.read(&mut memory)? == 0 {
                return Ok(());
            }
        }
        Ok(())
    }

    /// Sends its reply, and then tells that no more comes.
    fn close(&mut self) -> io::Result<Went> {
        match self.send()? {
            Went::Ends => {
                self.linger()?;
                Ok(Went::On)
            }
            went => Ok(went),
        }
    }

    /// Hears what it asks, and gives it its reply.
    fn answer<M: Administered, C: Copying<M>>(
        &mut self,
        alloc: Global,
        service: &mut M,
        copier: &mut C,
        facts: &Facts<'_>,
    ) -> io::Result<Went>
        ensures { OnlyAdopts M.Service.serving service.old service.new }
    {
        let Some(demand) = self.hear(alloc)? else {
            return Ok(Went::On);
        };
        let ends = asks_end(&demand);
        let reply = reply_to(alloc, service, copier, demand, facts)?;
        self.give(alloc, reply)?;
        Ok(if ends { Went::Ends } else { Went::Again })
    }

    /// Hears what it asks, if it has no reply yet.
    fn answer_once<M: Administered, C: Copying<M>>(
        &mut self,
        alloc: Global,
        service: &mut M,
        copier: &mut C,
        facts: &Facts<'_>,
    ) -> io::Result<Went>
        ensures { OnlyAdopts M.Service.serving service.old service.new }
    {
        if self.exchange.is_answered() {
            return Ok(Went::On);
        }
        self.answer(alloc, service, copier, facts)
    }

    /// A turn: it is heard, answered, and closed by the client after the reply.
    ///
    /// # Errors
    ///
    /// Where it is to be closed.
    pub(crate) fn go_on<M: Administered, C: Copying<M>>(
        &mut self,
        alloc: Global,
        service: &mut M,
        copier: &mut C,
        facts: &Facts<'_>,
    ) -> io::Result<Went>
        ensures { OnlyAdopts M.Service.serving service.old service.new }
    {
        let went = self.answer_once(alloc, service, copier, facts)?;
        if went == Went::Ends {
            // It is heard, whatever becomes of the reply.
            let _ = self.close();
            return Ok(Went::Ends);
        }
        if !self.exchange.is_answered() {
            return Ok(went);
        }
        let closed = self.close()?;
        Ok(match went {
            Went::On => closed,
            went => went,
        })
    }
}
