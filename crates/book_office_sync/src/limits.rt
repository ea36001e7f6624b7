//! The limit that a client sets on a report.

ghost use Rattle.std.specs.Prelude.{◌≡◌, Some, MatchOption};
ghost use Rattle.book_office_sync.specs.Copies.{IsLimit};

use book_limits::MAX_CARDS;
use std::alloc::AllocError;
use std::marker::Model;

/// The most items that a client wants of a report (RFC 6578, section 3.7): from 1 to 10,000, the most cards of a book. A
/// contract sees the number.
#[derive(Debug, Drop)]
pub struct Limit {
    count: u32,
}

impl Model for Limit {
    ghost use Rattle.std.specs.Prelude.{ℕ, Some};
    ghost use Rattle.std.specs.Coded.{coded_ℕ};
    ghost use Rattle.book_office_sync.specs.Copies.{IsLimit};

    ghost Value = { ℕ };

    ghost coded = { coded_ℕ };

    ghost view = { λ l. l.count };

    ghost invariant = { λ l. IsLimit (Some l.count) };
}

/// A copy equals its source. It takes no memory.
impl Clone for Limit {
    ghost is_clone = { λ source copy. copy ≡ source };

    fn clone(&self) -> Result<Limit, AllocError> {
        Ok(Limit { count: self.count })
    }
}

impl Limit {
    /// The limit of so many items; none where it is 0 or above 10,000. Takes no memory.
    pub fn new(count: u64) -> Option<Limit>
        ensures { MatchOption result (IsLimit (Some count) → ⊥)
            (λ limit. (limit ≡ count) × IsLimit (Some count)) }
    {
        if count == 0 || count > MAX_CARDS as u64 {
            return None;
        }
        Some(Limit {
            count: count as u32,
        })
    }

    /// How many items. Takes no memory.
    pub fn count(&self) -> u32
        ensures value { result ≡ self.now }
        ensures range { IsLimit (Some result) }
    {
        self.count
    }
}
