//! A writer that compares what it is given with a text.

ghost use Rattle.std.specs.Prelude.{◌≡◌, ◌≢◌, ◌≤◌, ◌++◌, [], ℕ, List, length, IfNone, IfSome};
ghost use Rattle.book_dumps_loading.specs.Comparing.{given};

use std::alloc::Global;
use std::io::{self, Write};

/// A writer that holds what it is given. As long as that is a beginning of a text that is there, it holds how much of it;
/// then what is other, of one write, and it takes no more.
#[derive(Drop)]
pub(crate) struct Comparing<'x> {
    /// The text that is wanted.
    wanted: &'x [u8],
    /// How many of its bytes were given.
    equal: usize,
    /// What was given next, and does not go on with it.
    other: Vec<u8>,
    ghost in_range: { equal ≤ length wanted.now },
}

impl<'x> Comparing<'x> {
    /// A writer that was given nothing yet. Takes no memory.
    pub(crate) fn new(alloc: Global, wanted: &'x [u8]) -> Comparing<'x>
        ensures { given result.wanted.now result.equal result.other.items ≡ [] }
    {
        Comparing {
            wanted,
            equal: 0,
            other: Vec::new(alloc),
        }
    }

    /// What is left of a text that begins with what was given; none of one that does not.
    pub(crate) fn left_of<'t>(&self, text: &'t [u8]) -> Option<&'t [u8]>
        ensures some { IfSome result (λ left. text.now ≡ given self.now.wanted.now
            self.now.equal self.now.other.items ++ left.now) }
        ensures none { IfNone result ((left : List ℕ) → text.now ≢ given self.now.wanted.now
            self.now.equal self.now.other.items ++ left) }
    {
        match text.strip_prefix(&self.wanted[..self.equal]) {
            Some(rest) => rest.strip_prefix(self.other.as_slice()),
            None => None,
        }
    }
}

impl Write for Comparing<'_> {
    ghost use Rattle.std.specs.Prelude.{Some};
    ghost use Rattle.book_dumps_loading.specs.Comparing.{given};

    ghost contents = { λ c. Some (given c.wanted.now c.equal c.other.items) };

    fn write(&mut self, buf: &[u8]) -> io::Result<usize> {
        if !self.other.is_empty() {
            return Ok(0);
        }
        if self.wanted[self.equal..].starts_with(buf) {
            self.equal += buf.len();
        } else {
            self.other.extend_from_slice(buf)?;
        }
        Ok(buf.len())
    }

    fn flush(&mut self) -> io::Result<()> {
        Ok(())
    }
}
