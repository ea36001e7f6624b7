//! Bytes, which contracts see as the list of them.

ghost use Rattle.std.specs.Prelude.{◌≡◌, ◌+◌, ◌≤◌, [], ◌++◌, length, take, drop, OnOk, OnErr};

use std::alloc::{AllocError, Global};
use std::marker::Model;

/// Bytes in memory of their own.
#[derive(Drop)]
pub struct Bytes {
    bytes: Vec<u8>,
}

impl Model for Bytes {
    ghost use Rattle.std.specs.Prelude.{List, ℕ};

    ghost Value = { List ℕ };

    ghost view = { λ b. b.bytes.items };
}

impl Bytes {
    /// No bytes. Takes no memory.
    pub fn new(alloc: Global) -> Bytes
        ensures { result ≡ [] }
    {
        Bytes {
            bytes: Vec::new(alloc),
        }
    }

    /// The bytes of a vector. Takes no memory.
    pub fn from_vec(bytes: Vec<u8>) -> Bytes
        ensures { result ≡ bytes.items }
    {
        Bytes { bytes }
    }

    /// A vector of the bytes. Takes no memory.
    pub fn into_vec(self) -> Vec<u8>
        ensures { result.items ≡ self }
    {
        let Bytes { bytes } = self;
        bytes
    }

    /// The bytes. Takes no memory.
    pub fn as_slice(&self) -> &[u8]
        ensures { result.now ≡ self.now }
    {
        self.bytes.as_slice()
    }

    /// How many bytes there are. Takes no memory.
    pub fn len(&self) -> usize
        ensures { result ≡ length self.now }
    {
        self.bytes.len()
    }

    /// Adds bytes. An error is want of memory, and leaves them as they were.
    pub fn push(&mut self, more: &[u8]) -> Result<(), AllocError>
        ensures ok { OnOk result (self.new ≡ self.old ++ more.now) }
        ensures err { OnErr result (self.new ≡ self.old) }
    {
        self.bytes.extend_from_slice(more)
    }

    /// Keeps so many bytes from one on, and no others. Takes no memory.
    pub fn keep(&mut self, start: usize, count: usize)
        requires { start + count ≤ length self.old }
        ensures { self.new ≡ take count (drop start self.old) }
    {
        move_to_front(&mut self.bytes, start, count);
        self.bytes.truncate(count);
    }
}

/// Copies so many bytes from one on to the front.
fn move_to_front(bytes: &mut [u8], start: usize, count: usize)
    requires { start + count ≤ length bytes.old }
    ensures moved { take count bytes.new ≡ take count (drop start bytes.old) }
    ensures size { length bytes.new ≡ length bytes.old }
{
    bytes.copy_within(start..start + count, 0);
}
