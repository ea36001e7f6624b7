//! What is to be sent: bytes that are made, and then what is left of a long body.

ghost use Rattle.std.specs.Prelude.{◌≡◌, ℕ, ◌+◌, ◌-◌, ◌≤◌, ◌<◌, ◌⊎◌, List, [], ◌++◌, length, drop, OnOk, OnErr, IfOk, IfErr, IfSome};
ghost use Rattle.book_wire.specs.Sending.{left_of};

use crate::bodies::LongBody;
use crate::buffer::drop_front;
use book_wire_serving::StreamFault;
use std::alloc::{AllocError, Global};
use std::marker::Model;

/// While something of a long body is left, at least so many bytes are made.
pub(crate) const LEAST: usize = 8_192;

/// A reply of at most so many bytes, head and body, takes no memory of a connection that was made whole.
const MAX_JOINED: usize = 66_048;

/// What is to be sent. Contracts see all its bytes, those too that are not made yet.
#[derive(Drop)]
pub(crate) struct Outgoing {
    made: Vec<u8>,
    sent: usize,
    long: Option<LongBody>,
}

impl Model for Outgoing {
    ghost use Rattle.std.specs.Prelude.{ℕ, List, ◌+◌, ◌≤◌, ◌++◌, drop, vec_len, IfSome};
    ghost use Rattle.book_wire.specs.Sending.{left_of};

    ghost Value = { List ℕ };

    ghost view = { λ o. drop o.sent o.made.items ++ left_of o.long };

    ghost invariant = { λ o. (o.sent ≤ vec_len o.made) × IfSome o.long (λ _. o.sent + 8192 ≤ vec_len o.made) };
}

impl Outgoing {
    /// Nothing. It takes no memory yet.
    pub(crate) fn new(alloc: Global) -> Outgoing
        ensures { result ≡ [] }
    {
        Outgoing {
            made: Vec::new(alloc),
            sent: 0,
            long: None,
        }
    }

    /// Nothing, with memory for each reply of at most 66,048 bytes. An error is want of memory.
    pub(crate) fn whole(alloc: Global) -> Result<Outgoing, AllocError>
        ensures { IfOk result (λ outgoing. outgoing ≡ []) }
    {
        let made = Vec::with_capacity(alloc, MAX_JOINED)?;
        Ok(Outgoing {
            made,
            sent: 0,
            long: None,
        })
    }

    /// The beginning of it: all, or at least 8,192 bytes.
    pub(crate) fn front(&self) -> &[u8]
        ensures { (more : List ℕ) × (self.now ≡ result.now ++ more)
            × ((more ≡ []) ⊎ (8192 ≤ length result.now)) }
    {
        &self.made[self.sent..]
    }

    /// Makes room for so many bytes. An error is want of memory.
    pub(crate) fn reserve(&mut self, more: usize) -> Result<(), AllocError>
        ensures { self.new ≡ self.old }
    {
        self.made.reserve(more)
    }

    /// Adds two texts. An error is want of memory, and adds nothing.
    pub(crate) fn put(&mut self, first: &[u8], second: &[u8]) -> Result<(), AllocError>
        requires { length self.old < 8192 }
        ensures ok { OnOk result (self.new ≡ self.old ++ (first.now ++ second.now)) }
        ensures err { OnErr result (self.new ≡ self.old) }
    {
        put_both(&mut self.made, first, second)
    }

    /// Adds a head, the first chunk of a body, and what is left of the body. An error is want of memory, and adds
    /// nothing.
    pub(crate) fn put_long(
        &mut self,
        head: &[u8],
        chunk: &[u8],
        left: Option<LongBody>,
    ) -> Result<(), AllocError>
        requires few { length self.old < 8192 }
        requires enough { IfSome left (λ _. 65536 ≤ length chunk.now) }
        ensures ok { OnOk result (self.new ≡ self.old ++
            (head.now ++ (chunk.now ++ left_of left))) }
        ensures err { OnErr result (self.new ≡ self.old) }
    {
        put_both(&mut self.made, head, chunk)?;
        self.long = left;
        Ok(())
    }

    /// So many bytes of the front were sent. Where fewer than 8,192 are made then, the next chunk of a long body is
    /// made.
    ///
    /// # Errors
    ///
    /// `Write` where memory was refused for the chunk, or where the front has fewer bytes: what is left can't be sent.
    pub(crate) fn did_send(&mut self, alloc: Global, count: usize) -> Result<(), StreamFault>
        ensures ok { OnOk result (self.new ≡ drop count self.old) }
        ensures fault { IfErr result (λ e. e ≡ StreamFault.Write) }
    {
        if count > self.made.len() - self.sent {
            return Err(StreamFault::Write);
        }
        let sent = self.sent + count;
        if self.made.len() - sent >= LEAST {
            self.sent = settle(&mut self.made, sent);
            return Ok(());
        }
        match self.long.take() {
            None => {
                self.sent = settle(&mut self.made, sent);
                Ok(())
            }
            Some(body) => {
                self.sent = 0;
                self.long = next_chunk(alloc, &mut self.made, sent, body)?;
                Ok(())
            }
        }
    }

    /// Lets the memory go, where nothing is to be sent.
    pub(crate) fn shrink(&mut self, alloc: Global)
        ensures { self.new ≡ self.old }
    {
        if self.sent == self.made.len() {
            self.made = Vec::new(alloc);
            self.sent = 0;
        }
    }
}

/// Adds two texts to bytes. An error is want of memory, and adds nothing.
fn put_both(made: &mut Vec<u8>, first: &[u8], second: &[u8]) -> Result<(), AllocError>
    ensures ok { OnOk result (made.new.items ≡ made.old.items ++ (first.now ++ second.now)) }
    ensures err { OnErr result (made.new.items ≡ made.old.items) }
{
    made.reserve(first.len() + second.len())?;
    made.extend_from_slice(first)?;
    made.extend_from_slice(second)
}

/// So many bytes at the front were sent. At most as many are moved as are dropped; it says how many were not dropped.
fn settle(made: &mut Vec<u8>, sent: usize) -> usize
    requires { sent ≤ length made.old.items }
    ensures kept { drop result made.new.items ≡ drop sent made.old.items }
    ensures within { result ≤ length made.new.items }
    ensures size { length made.new.items - result ≡ length made.old.items - sent }
{
    if sent < made.len() - sent {
        return sent;
    }
    drop_front(made, sent);
    0
}

/// Drops the bytes at the front that were sent, makes the next chunk of a long body, and gives what is left of it.
fn next_chunk(
    alloc: Global,
    made: &mut Vec<u8>,
    sent: usize,
    body: LongBody,
) -> Result<Option<LongBody>, StreamFault>
    requires { sent ≤ length made.old.items }
    ensures ok { IfOk result (λ left. (made.new.items ++ left_of left ≡
        drop sent made.old.items ++ body) × IfSome left (λ _. 65536 ≤ length made.new.items)) }
    ensures fault { IfErr result (λ e. e ≡ StreamFault.Write) }
{
    drop_front(made, sent);
    match body.push_next(alloc, made) {
        Ok(left) => Ok(left),
        Err(_) => Err(StreamFault::Write),
    }
}
