//! Sets of numbers, a bit for each.

ghost use Rattle.std.specs.Prelude.{◌≡◌, ◌↔◌, ℕ, ◌≤◌, ◌||◌, [], length, slice_index, nat_eq, IsTrue, OnOk, OnErr};
ghost use Rattle.book_lists_reach.specs.Bits.{bit};

use std::alloc::{AllocError, Global};
use std::marker::Model;

/// A set of numbers: 64 of them in each word, and as many words as the greatest of them needs.
#[derive(Debug, Drop)]
pub(crate) struct Bits {
    words: Vec<u64>,
}

impl Model for Bits {
    ghost use Rattle.std.specs.Prelude.{List, ℕ};

    ghost Value = { List ℕ };

    ghost view = { λ b. b.words.items };
}

/// A copy equals its source. An error is want of memory.
impl Clone for Bits {
    ghost is_clone = { λ source copy. copy ≡ source };

    fn clone(&self) -> Result<Bits, AllocError> {
        Ok(Bits {
            words: self.words.clone()?,
        })
    }
}

impl Bits {
    /// No number. Takes no memory.
    pub(crate) fn new(alloc: Global) -> Bits
        ensures { result ≡ [] }
    {
        Bits {
            words: Vec::new(alloc),
        }
    }

    /// Whether the number is in the set. Takes no memory.
    pub(crate) fn has(&self, number: usize) -> bool
        ensures { result ≡ bit self.now number }
    {
        match self.words.get(number / 64) {
            Some(word) => *word >> (number % 64) & 1 == 1,
            None => false,
        }
    }

    /// Whether there is no word, and so no number.
    pub(crate) fn is_bare(&self) -> bool
        ensures { IsTrue result → self.now ≡ [] }
    {
        self.words.is_empty()
    }

    /// Whether it has exactly the words of another.
    pub(crate) fn has_words_of(&self, other: &Bits) -> bool
        ensures { IsTrue result ↔ (self.now ≡ other.now) }
    {
        self.words.as_slice() == other.words.as_slice()
    }

    /// Adds words without a number until there are so many.
    fn grow(&mut self, count: usize) -> Result<(), AllocError>
        ensures long { OnOk result (count ≤ length self.new) }
        ensures same { (i : ℕ) → slice_index self.new i ≡ slice_index self.old i }
    {
        for _word in self.words.len()..count {
            self.words.push(0)?;
        }
        Ok(())
    }

    /// Adds the number. An error is want of memory; the set then stays as it was.
    pub(crate) fn insert(&mut self, number: usize) -> Result<(), AllocError>
        ensures ok { OnOk result ((j : ℕ) → bit self.new j ≡ (nat_eq j number || bit self.old j)) }
        ensures err { OnErr result ((j : ℕ) → bit self.new j ≡ bit self.old j) }
    {
        let place = number / 64;
        self.grow(place + 1)?;
        self.words[place] |= 1 << (number % 64);
        Ok(())
    }

    /// Adds the numbers of another set. An error is want of memory.
    pub(crate) fn add_all(&mut self, other: &Bits) -> Result<(), AllocError>
        ensures { OnOk result ((j : ℕ) → bit self.new j ≡ (bit self.old j || bit other.now j)) }
    {
        let count = other.words.len();
        self.grow(count)?;
        for i in 0..count {
            self.words[i] |= other.words[i];
        }
        Ok(())
    }
}
