//! What was read and not yet used, in memory that grows with it.

ghost use Rattle.std.specs.Prelude.{◌≡◌, ℕ, List, [], ◌++◌, ◌<◌, ◌≤◌, ◌+◌, ◌-◌, ◌^◌, length, take, drop, vec_len, IfOk, OnOk, OnErr, IfErr};
ghost use Rattle.std.specs.Io.KnownBytes.{Consumes, IsAtEnd, Keeps};

use book_limits::{MAX_BODY, MAX_HEAD};
use book_wire_serving::StreamFault;
use std::alloc::{AllocError, Global};
use std::io::Read;
use std::marker::Model;

/// The longest head and the longest body together. What is less than a whole request is shorter.
pub(crate) const CAPACITY: usize = MAX_HEAD + MAX_BODY;

/// How many bytes of a whole buffer are made ready first, since few connections bring more.
const FIRST: usize = 8_192;

/// The unread bytes of a connection.
#[derive(Drop)]
pub(crate) struct Buffer {
    bytes: Vec<u8>,
    start: usize,
    end: usize,
}

impl Model for Buffer {
    ghost Value = { List ℕ };

    ghost view = { λ b. drop b.start (take b.end b.bytes.items) };

    ghost invariant = { λ b. (b.start ≤ b.end) × (b.end ≤ vec_len b.bytes) };
}

impl Buffer {
    /// An empty buffer, which takes no memory.
    pub(crate) fn new(alloc: Global) -> Buffer
        ensures { result ≡ [] }
    {
        Buffer {
            bytes: Vec::new(alloc),
            start: 0,
            end: 0,
        }
    }

    /// Bytes that were read before. It takes no memory.
    pub(crate) fn of(bytes: Vec<u8>) -> Buffer
        ensures { result ≡ bytes.items }
    {
        let end = bytes.len();
        Buffer {
            bytes,
            start: 0,
            end,
        }
    }

    /// An empty buffer with room for each request: it takes no memory later, where less than a whole request is unread
    /// before each read. An error is want of memory.
    pub(crate) fn whole(alloc: Global) -> Result<Buffer, AllocError>
        ensures { IfOk result (λ b. b ≡ []) }
    {
        let mut bytes = Vec::with_capacity(alloc, CAPACITY)?;
        bytes.resize(FIRST, 0)?;
        Ok(Buffer {
            bytes,
            start: 0,
            end: 0,
        })
    }

    /// What was read and not yet used.
    pub(crate) fn unread(&self) -> &[u8]
        ensures value { result.now ≡ self.now }
        ensures fits { length result.now < 2 ^ 63 }
    {
        &self.bytes[self.start..self.end]
    }

    /// Drops so many bytes at the front. Where none is left, the next ones come to the front of the memory, which is
    /// warm.
    pub(crate) fn consume(&mut self, count: usize)
        requires { count ≤ length self.old }
        ensures { self.new ≡ drop count self.old }
    {
        self.start += count;
        if self.start == self.end {
            self.start = 0;
            self.end = 0;
        }
    }

    /// Reads once, and says how many bytes came. None come only at the end of the input.
    ///
    /// # Errors
    ///
    /// `Read` where the read failed, or where memory was refused before it.
    pub(crate) fn fill<R: Read>(&mut self, reader: &mut R) -> Result<usize, StreamFault>
        ensures ok { IfOk result (λ n. (came : List ℕ) × (self.new ≡ self.old ++ came)
            × (length came ≡ n) × Consumes (R.remaining reader.old) (R.remaining reader.new) came
            × (n ≡ 0 → IsAtEnd (R.remaining reader.new))) }
        ensures err { OnErr result ((self.new ≡ self.old)
            × Keeps (R.remaining reader.old) (R.remaining reader.new)) }
        ensures fault { IfErr result (λ e. e ≡ StreamFault.Read) }
    {
        let start = settle(&mut self.bytes, self.start, self.end, 1);
        let end = self.end - (self.start - start);
        self.start = start;
        self.end = end;
        if grow(&mut self.bytes, end, 1).is_err() {
            return Err(StreamFault::Read);
        }
        let count = read_after(reader, &mut self.bytes, end)?;
        self.end += count;
        Ok(count)
    }

    /// Adds bytes at the end. An error is want of memory, and leaves it as it was.
    pub(crate) fn push(&mut self, more: &[u8]) -> Result<(), AllocError>
        ensures ok { OnOk result (self.new ≡ self.old ++ more.now) }
        ensures err { OnErr result (self.new ≡ self.old) }
    {
        let start = settle(&mut self.bytes, self.start, self.end, more.len());
        let end = self.end - (self.start - start);
        self.start = start;
        self.end = end;
        grow(&mut self.bytes, end, more.len())?;
        write_after(&mut self.bytes, end, more);
        self.end += more.len();
        Ok(())
    }

    /// Lets its memory go, where nothing is unread.
    pub(crate) fn shrink(&mut self, alloc: Global)
        ensures { self.new ≡ self.old }
    {
        if self.start == self.end {
            self.bytes = Vec::new(alloc);
            self.start = 0;
            self.end = 0;
        }
    }
}

/// Makes room for so many bytes behind the first `end` ones. An error is want of memory.
fn grow(bytes: &mut Vec<u8>, end: usize, more: usize) -> Result<(), AllocError>
    requires { end ≤ length bytes.old.items }
    ensures kept { take end bytes.new.items ≡ take end bytes.old.items }
    ensures size { end ≤ length bytes.new.items }
    ensures ok { OnOk result (end + more ≤ length bytes.new.items) }
{
    let size = bytes.len();
    if more <= size - end {
        return Ok(());
    }
    let least = end.saturating_add(more);
    if least - end < more {
        return Err(AllocError);
    }
    let twice = size.saturating_mul(2).min(CAPACITY);
    bytes.resize(least.max(twice), 0)
}

/// Reads once, behind the first `end` bytes.
fn read_after<R: Read>(reader: &mut R, bytes: &mut [u8], end: usize) -> Result<usize, StreamFault>
    requires { end < length bytes.old }
    ensures ok { IfOk result (λ n. (came : List ℕ) × (length came ≡ n)
        × (end + n ≤ length bytes.new) × (take (end + n) bytes.new ≡ take end bytes.old ++ came)
        × Consumes (R.remaining reader.old) (R.remaining reader.new) came
        × (n ≡ 0 → IsAtEnd (R.remaining reader.new))) }
    ensures err { OnErr result ((take end bytes.new ≡ take end bytes.old) × (end ≤ length bytes.new)
        × Keeps (R.remaining reader.old) (R.remaining reader.new)) }
    ensures fault { IfErr result (λ e. e ≡ StreamFault.Read) }
{
    match reader.read(&mut bytes[end..]) {
        Ok(count) => Ok(count),
        Err(_) => Err(StreamFault::Read),
    }
}

/// Copies bytes behind the first `end` ones.
fn write_after(bytes: &mut [u8], end: usize, more: &[u8])
    requires { end + length more.now ≤ length bytes.old }
    ensures copied { take (end + length more.now) bytes.new ≡ take end bytes.old ++ more.now }
    ensures size { length bytes.new ≡ length bytes.old }
{
    bytes[end..end + more.len()].copy_from_slice(more);
}

/// Moves the bytes from `start` to `end` to the front, if there is no room for so many more behind them, and says where
/// they begin.
fn settle(bytes: &mut [u8], start: usize, end: usize, more: usize) -> usize
    requires ordered { start ≤ end }
    requires within { end ≤ length bytes.old }
    ensures front { result ≤ start }
    ensures kept { drop result (take (end - (start - result)) bytes.new) ≡ drop start
        (take end bytes.old) }
    ensures size { length bytes.new ≡ length bytes.old }
{
    if more <= bytes.len() - end {
        return start;
    }
    move_to_front(bytes, start, end);
    0
}

/// Copies the bytes from `start` to `end` to the front.
fn move_to_front(bytes: &mut [u8], start: usize, end: usize)
    requires ordered { start ≤ end }
    requires within { end ≤ length bytes.old }
    ensures moved { take (end - start) bytes.new ≡ drop start (take end bytes.old) }
    ensures size { length bytes.new ≡ length bytes.old }
{
    bytes.copy_within(start..end, 0);
}

/// Drops so many bytes at the front, and moves the others there.
pub(crate) fn drop_front(bytes: &mut Vec<u8>, count: usize)
    requires { count ≤ length bytes.old.items }
    ensures { bytes.new.items ≡ drop count bytes.old.items }
{
    let end = bytes.len();
    move_to_front(bytes, count, end);
    bytes.truncate(end - count);
}
