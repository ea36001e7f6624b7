//! One connection, without its socket (RFC 9112, section 9.3).

ghost use Rattle.std.specs.Prelude.{◌≡◌, ◌≢◌, ◌⊎◌, ℕ, ◌==◌, ◌≤◌, ◌<◌, ◌-◌, ◌^◌, min, true, false, List, [], ◌++◌, length, drop, IfOk, IfErr, OnOk, OnErr, Err};
ghost use Rattle.std.specs.Io.KnownBytes.{Consumes, IsAtEnd, Keeps};
ghost use Rattle.book_wire.specs.Connection.{IsFed, closes_after, fresh, resumed};
ghost use Rattle.book_wire.specs.Sending.{IsBegun};
ghost use Rattle.book_wire_serving.specs.Serving.{Stays};
ghost use Rattle.book_wire.specs.Turn.{IsPending, IsTurn, StopsBy, StopsWriting};

use crate::buffer::Buffer;
use crate::head::FieldSpans;
use crate::outgoing::Outgoing;
use crate::turns::{Turn, answer_one};
use book_limits::MAX_FIELDS;
use book_wire_serving::{Service, StreamFault};
use book_wire_targets::{Home, homes};
use httparse::spans::EMPTY_HEADER_SPAN;
use matchit::Router;
use std::alloc::{AllocError, Global};
use std::io::Read;
use std::marker::Model;

/// What all connections share: the routes, and memory for the fields of a head.
#[derive(Drop)]
pub struct Wire {
    router: Router<Home>,
    headers: FieldSpans,
}

impl Model for Wire {
    ghost use Rattle.book_wire_targets.specs.Targets.{HasHomes};

    ghost Value = { Unit {0} };

    ghost view = { λ w. tt };

    ghost invariant = { λ w. HasHomes w.router };
}

impl Wire {
    /// An error is want of memory.
    pub fn new(alloc: Global) -> Result<Wire, AllocError> {
        match homes(alloc) {
            Ok(router) => Ok(Wire {
                router,
                headers: [EMPTY_HEADER_SPAN; MAX_FIELDS],
            }),
            Err(_) => Err(AllocError),
        }
    }
}

/// A connection. Contracts see what is unread, what is made and not sent, whether it closes once that is sent, and
/// whether whole requests may be unread, since too much waits to be sent.
#[derive(Drop)]
pub struct Connection {
    buffer: Buffer,
    outgoing: Outgoing,
    /// With fewer unread bytes than these no further request is whole.
    wanted: usize,
    closing: bool,
    stalled: bool,
}

impl Model for Connection {
    ghost use Rattle.book_wire.specs.Connection.{View, MayWait};

    ghost Value = { View };

    ghost view = { λ c. record { unread = c.buffer; unsent = c.outgoing; closing = c.closing; stalled = c.stalled } };

    ghost invariant = { λ c. MayWait c.buffer c.wanted };
}

impl Connection {
    /// A connection that brought nothing. It takes no memory yet.
    pub fn new(alloc: Global) -> Connection
        ensures { result ≡ fresh }
    {
        Connection {
            buffer: Buffer::new(alloc),
            outgoing: Outgoing::new(alloc),
            wanted: 0,
            closing: false,
            stalled: false,
        }
    }

    /// A connection with memory for each request, and for each reply of at most 66,048 bytes. An error is want of
    /// memory.
    pub(crate) fn whole(alloc: Global) -> Result<Connection, AllocError>
        ensures { IfOk result (λ connection. connection ≡ fresh) }
    {
        let buffer = Buffer::whole(alloc)?;
        let outgoing = Outgoing::whole(alloc)?;
        Ok(Connection {
            buffer,
            outgoing,
            wanted: 0,
            closing: false,
            stalled: false,
        })
    }

    /// One that brought this and is not answered yet. Whole requests may be unread. It takes no memory.
    pub fn resume(alloc: Global, unread: Vec<u8>) -> Connection
        ensures { result ≡ resumed unread.items }
    {
        Connection {
            buffer: Buffer::of(unread),
            outgoing: Outgoing::new(alloc),
            wanted: 0,
            closing: false,
            stalled: true,
        }
    }

    /// What it brought that is not answered yet.
    pub fn unread(&self) -> &[u8]
        ensures { result.now ≡ self.now.unread }
    {
        self.buffer.unread()
    }

    /// The beginning of what is to be sent: all of it, or at least 8,192 bytes.
    pub fn unsent(&self) -> &[u8]
        ensures { (more : List ℕ) × (self.now.unsent ≡ result.now ++ more)
            × ((more ≡ []) ⊎ (8192 ≤ length result.now)) }
    {
        self.outgoing.front()
    }

    /// So many bytes of `unsent` were sent. Of a long body the next pieces are then made.
    ///
    /// # Errors
    ///
    /// `Write` where memory was refused for these: the connection can't go on.
    pub fn did_send(&mut self, alloc: Global, count: usize) -> Result<(), StreamFault>
        requires { count ≤ length self.old.unsent }
        ensures unsent { OnOk result (self.new.unsent ≡ drop count self.old.unsent) }
        ensures fault { IfErr result (λ e. e ≡ StreamFault.Write) }
        ensures unread { self.new.unread ≡ self.old.unread }
        ensures closing { self.new.closing ≡ self.old.closing }
        ensures stalled { self.new.stalled ≡ self.old.stalled }
    {
        self.outgoing.did_send(alloc, count)
    }

    /// Whether it closes once all is sent, and takes no more bytes.
    pub fn is_closing(&self) -> bool
        ensures { result ≡ self.now.closing }
    {
        self.closing
    }

    /// Whether whole requests may be unread, since too much waits to be sent.
    pub fn is_stalled(&self) -> bool
        ensures { result ≡ self.now.stalled }
    {
        self.stalled
    }

    /// Whether nothing is unread.
    pub fn is_between_requests(&self) -> bool
        ensures { result ≡ (length self.now.unread == 0) }
    {
        self.buffer.unread().is_empty()
    }

    /// Lets the memory go that nothing is in.
    #[tactic(auto, using(crate::proofs::Streams::may_wait_same))]
    pub fn shrink(&mut self, alloc: Global)
        ensures { self.new ≡ self.old }
    {
        self.buffer.shrink(alloc);
        self.outgoing.shrink(alloc);
    }

    /// Reads once, and says how many bytes came. None come only at the end of the input.
    ///
    /// # Errors
    ///
    /// `Read` where the read failed, or where memory was refused before it.
    #[tactic(auto, using(crate::proofs::Streams::may_wait_same, crate::proofs::Streams::may_wait_more))]
    pub(crate) fn fill<R: Read>(&mut self, reader: &mut R) -> Result<usize, StreamFault>
        ensures ok { IfOk result (λ n. (came : List ℕ) × (self.new.unread ≡ self.old.unread ++ came)
            × (length came ≡ n) × Consumes (R.remaining reader.old) (R.remaining reader.new) came
            × (n ≡ 0 → IsAtEnd (R.remaining reader.new))) }
        ensures rest { (self.new.unsent ≡ self.old.unsent) × (self.new.closing ≡ self.old.closing)
            × (self.new.stalled ≡ self.old.stalled) }
        ensures err { OnErr result ((self.new ≡ self.old)
            × Keeps (R.remaining reader.old) (R.remaining reader.new)) }
        ensures fault { IfErr result (λ e. e ≡ StreamFault.Read) }
    {
        match self.buffer.fill(reader) {
            Ok(count) => Ok(count),
            Err(fault) => Err(fault),
        }
    }

    /// Answers the request at the front, if it is whole. The reply is to be sent.
    pub(crate) fn answer_next<M: Service>(
        &mut self,
        alloc: Global,
        service: &mut M,
        wire: &mut Wire,
    ) -> Result<Turn, StreamFault>
        requires open { self.old.closing ≡ false }
        requires few { length self.old.unsent < 8192 }
        ensures ok { IfOk result (λ turn. (written : List ℕ)
            × (self.new.unsent ≡ self.old.unsent ++ written)
            × IsTurn (M.serving service.old) self.old.unread written turn
            (M.serving service.new) self.new.unread
            × (self.new.closing ≡ closes_after turn)) }
        ensures err { IfErr result (λ e. StopsBy e (M.serving service.new)
            × ((pending : List ℕ) × IsPending (M.serving service.old) self.old.unread pending
            (M.serving service.new) × IsBegun self.old.unsent pending self.new.unsent)) }
        ensures stalled { self.new.stalled ≡ self.old.stalled }
    {
        if self.buffer.unread().len() < self.wanted {
            return Ok(Turn::Wait(self.wanted));
        }
        let turn = match answer_one(
            alloc,
            service,
            &wire.router,
            &mut self.outgoing,
            &mut wire.headers,
            &mut self.buffer,
        ) {
            Ok(turn) => turn,
            Err(fault) => return Err(fault),
        };
        self.wanted = turn.wanted();
        self.closing = turn.closes();
        Ok(turn)
    }

    /// Answers the requests that are there and whole, until so many bytes wait to be sent, and says how many. That stays
    /// at its last value.
    fn answer_some<M: Service>(
        &mut self,
        alloc: Global,
        service: &mut M,
        wire: &mut Wire,
        most: usize,
    ) -> Result<u64, StreamFault>
        requires open { self.old.closing ≡ false }
        requires few { most ≤ 8192 }
        ensures ok { IfOk result (λ answered. (more : List ℕ) × (count : ℕ)
            × (answered ≡ min count (2 ^ 64 - 1)) × (self.new.unsent ≡ self.old.unsent ++ more)
            × IsFed (M.serving service.old) self.old.unread more count
            (M.serving service.new) self.new) }
        ensures stalled { IfOk result (λ answered. self.new.stalled ≡ true
            → most ≤ length self.new.unsent) }
        ensures stops { IfErr result (λ e. StopsBy e (M.serving service.new) × (more : List ℕ)
            × (self.new.unsent ≡ self.old.unsent ++ more)
            × StopsWriting (M.serving service.old) self.old.unread more
            (M.serving service.new)) }
    {
        let mut answered: u64 = 0;
        self.stalled = false;
        loop {
            if self.unsent().len() >= most {
                self.stalled = true;
                return Ok(answered);
            }
            match self.answer_next(alloc, service, wire) {
                Ok(turn) => match turn {
                    Turn::Wait(_) => return Ok(answered),
                    Turn::Answered => answered = answered.saturating_add(1),
                    Turn::Last => return Ok(answered.saturating_add(1)),
                    Turn::Refused => return Ok(answered),
                },
                Err(fault) => return Err(fault),
            }
        }
    }

    /// Takes bytes that the connection brought, and answers nothing yet. An error is want of memory, and takes nothing.
    #[tactic(auto, using(crate::proofs::Streams::may_wait_same, crate::proofs::Streams::may_wait_more))]
    pub fn hold(&mut self, bytes: &[u8]) -> Result<(), AllocError>
        ensures unread { OnOk result (self.new.unread ≡ self.old.unread ++ bytes.now) }
        ensures stalled { OnOk result (self.new.stalled ≡ true) }
        ensures unsent { self.new.unsent ≡ self.old.unsent }
        ensures closing { self.new.closing ≡ self.old.closing }
        ensures err { OnErr result (self.new ≡ self.old) }
    {
        self.buffer.push(bytes)?;
        self.stalled = true;
        Ok(())
    }

    /// Takes bytes that the connection brought, and answers its requests that are whole, until so many bytes wait to be
    /// sent. It says how many requests it answered, which stays at its last value. Without bytes it goes on with those
    /// that are unread.
    ///
    /// # Errors
    ///
    /// The connection can't go on: `Memory` where there was none for the bytes, and nothing was done. `Write` where there
    /// was none for a reply: of the requests that are answered in what is unsent, only the one after them may have acted.
    /// `Log` where the line of a reply could not be written: the same.
    #[tactic(auto, using(crate::proofs::Streams::may_wait_same, crate::proofs::Streams::may_wait_more))]
    pub fn feed<M: Service>(
        &mut self,
        alloc: Global,
        service: &mut M,
        wire: &mut Wire,
        bytes: &[u8],
        most: usize,
    ) -> Result<u64, StreamFault>
        requires open { self.old.closing ≡ false }
        requires few { most ≤ 8192 }
        ensures ok { IfOk result (λ answered. (more : List ℕ) × (count : ℕ)
            × (answered ≡ min count (2 ^ 64 - 1)) × (self.new.unsent ≡ self.old.unsent ++ more)
            × IsFed (M.serving service.old) (self.old.unread ++ bytes.now) more count
            (M.serving service.new) self.new) }
        ensures stalled { IfOk result (λ answered. self.new.stalled ≡ true
            → most ≤ length self.new.unsent) }
        ensures memory { result ≡ Err StreamFault.Memory → (self.new ≡ self.old)
            × Stays (M.serving service.old) (M.serving service.new) }
        ensures stops { IfErr result (λ e. e ≢ StreamFault.Memory
            → StopsBy e (M.serving service.new) × (more : List ℕ)
            × (self.new.unsent ≡ self.old.unsent ++ more)
            × StopsWriting (M.serving service.old) (self.old.unread ++ bytes.now) more
            (M.serving service.new)) }
    {
        if self.buffer.push(bytes).is_err() {
            return Err(StreamFault::Memory);
        }
        self.answer_some(alloc, service, wire, most)
    }
}
