//! One connection over which whoever keeps the server asks, without its socket: a request, and its reply.

ghost use Rattle.std.specs.Prelude.{◌≡◌, ◌+◌, ◌++◌, ◌≤◌, length, drop, false, true, None, Ok, IfOk, OnErr, OnOk};
ghost use Rattle.book_desk_control.specs.Exchanges as spec;
ghost use Rattle.book_desk_control.specs.Exchanges.{IsBrought, KeepsReply};

use crate::bytes::Bytes;
use crate::demands::{Demand, demand_of};
use crate::hearing::{Heard, hear};
use crate::questions::Question;
use crate::refusals::{Refusal, outcome_of, refusal_text};
use crate::replies::{Ending, Kind, Outcome, head_of};
use std::alloc::{AllocError, Global};
use std::mem;

/// A connection: what it brought, and its reply.
#[derive(Drop)]
pub struct Exchange {
    /// What it brought, until its request was whole, or was refused.
    pub received: Bytes,
    /// Whether its request was whole, or was refused.
    pub is_heard: bool,
    /// The head of its reply; empty where it has none yet.
    pub head: Bytes,
    /// The body of its reply.
    pub body: Bytes,
    /// How much of the head is sent.
    pub head_sent: usize,
    /// How much of the body.
    pub body_sent: usize,
}

impl Exchange {
    /// One that brought nothing. It takes no memory yet.
    pub fn new(alloc: Global) -> Exchange
        ensures { result ≡ spec.begun }
    {
        Exchange {
            received: Bytes::new(alloc),
            is_heard: false,
            head: Bytes::new(alloc),
            body: Bytes::new(alloc),
            head_sent: 0,
            body_sent: 0,
        }
    }

    /// Whether it has its reply.
    pub fn is_answered(&self) -> bool
        ensures { result ≡ spec.is_answered self.now }
    {
        self.head.len() != 0
    }

    /// Gives it this reply: the status, of a command how it ended, what the body is, and the body, which is not copied: what the
    /// command wrote, then what it told on standard error. An error is want of memory.
    pub fn answer(
        &mut self,
        alloc: Global,
        outcome: Outcome,
        ending: Option<Ending>,
        kind: Kind,
        body: Vec<u8>,
    ) -> Result<(), AllocError>
        ensures ok { OnOk result (self.new ≡ spec.answered self.old outcome ending kind body.items) }
        ensures err { OnErr result (self.new ≡ self.old) }
    {
        let head = head_of(alloc, outcome, ending, kind, body.len())?;
        self.head = head;
        self.body = Bytes::from_vec(body);
        Ok(())
    }

    /// Gives it the reply of a refusal. An error is want of memory.
    fn refuse(&mut self, alloc: Global, refusal: Refusal) -> Result<(), AllocError>
        ensures ok { OnOk result (self.new ≡ spec.refused self.old refusal) }
        ensures err { OnErr result (self.new ≡ self.old) }
    {
        let body = Vec::from_slice(alloc, refusal_text(refusal).as_bytes())?;
        self.answer(alloc, outcome_of(refusal), None, Kind::Json, body)
    }

    /// Takes out what it brought, which is heard.
    fn take(&mut self, alloc: Global) -> Bytes
        ensures { (result ≡ self.old.received) × (self.new ≡ spec.heard self.old) }
    {
        self.is_heard = true;
        mem::replace(&mut self.received, Bytes::new(alloc))
    }

    /// What is asked by a question and its body in what it brought; a body that has not the form of the question is refused.
    /// An error is want of memory.
    fn demand(
        &mut self,
        alloc: Global,
        question: Question,
        start: usize,
        count: usize,
    ) -> Result<Option<Demand>, AllocError>
        requires { start + count ≤ length self.old.received }
        ensures ok { IfOk result (λ demand.
            (demand ≡ spec.demand_at question self.old.received start count)
            × (self.new ≡ spec.after_demand self.old demand)) }
        ensures err { OnErr result (self.new ≡ spec.heard self.old) }
    {
        let mut body = self.take(alloc);
        body.keep(start, count);
        let demand = demand_of(alloc, question, body)?;
        if demand.is_none() {
            self.refuse(alloc, Refusal::BadBody)?;
        }
        Ok(demand)
    }

    /// Takes bytes that came. Where all so far are a whole request, tells what that asks, which waits for its reply (`answer`);
    /// one that is refused, as soon as it is clear that it will be, has its reply then. Later bytes are dropped. An error is want
    /// of memory.
    pub fn bring(&mut self, alloc: Global, bytes: &[u8]) -> Result<Option<Demand>, AllocError>
        ensures late { self.old.is_heard ≡ true → (result ≡ Ok None) × (self.new ≡ self.old) }
        ensures heard { self.old.is_heard ≡ false → IfOk result (λ demand.
            IsBrought self.old (self.old.received ++ bytes.now) demand self.new) }
        ensures err { OnErr result (KeepsReply self.old self.new) }
    {
        if self.is_heard {
            return Ok(None);
        }
        self.received.push(bytes)?;
        match hear(self.received.as_slice()) {
            Heard::Part => Ok(None),
            Heard::Refused(refusal) => {
                self.take(alloc);
                self.refuse(alloc, refusal)?;
                Ok(None)
            }
            Heard::Whole(question, start, count) => self.demand(alloc, question, start, count),
        }
    }

    /// What is to be sent next: what is left of the head, then what is left of the body. None where all is sent.
    pub fn unsent(&self) -> &[u8]
        ensures { result.now ≡ spec.unsent self.now }
    {
        let head = self.head.as_slice();
        if self.head_sent < head.len() {
            return &head[self.head_sent..];
        }
        match self.body.as_slice().get(self.body_sent..) {
            Some(unsent) => unsent,
            None => &[],
        }
    }

    /// So many bytes more were sent, of what `unsent` gave.
    pub fn did_send(&mut self, count: usize)
        requires { count ≤ length (spec.unsent self.old) }
        ensures left { spec.left self.new ≡ drop count (spec.left self.old) }
        ensures kept { (self.new.head ≡ self.old.head) × (self.new.body ≡ self.old.body)
            × (self.new.received ≡ self.old.received) × (self.new.is_heard ≡ self.old.is_heard) }
    {
        if self.head_sent < self.head.len() {
            self.head_sent += count;
        } else if self.body_sent < self.body.len() {
            self.body_sent += count;
        }
    }
}
