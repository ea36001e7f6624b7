//! Why nothing is restored.

use std::alloc::{AllocError, AllocFailed};

/// Why nothing is restored.
#[derive(Clone, Copy, Debug, PartialEq, Eq)]
pub enum RestoreFault {
    /// A path is neither a card nor a book, or the backup has no line for it.
    NotFound,
    /// The book of a card is neither in the store nor restored.
    NoParent,
    /// An owner, or a principal that an entry names, has no line in the store.
    UnknownPrincipal,
    /// There would be too many books, or too many cards in a book, or a number above the last.
    Full,
    /// The epoch would be above 2^53 - 1.
    LastNumber,
    /// Memory was refused.
    Memory,
}

impl From<AllocError> for RestoreFault {
    ghost use Rattle.std.specs.Prelude.{◌≡◌};
    ghost use Rattle.book_dumps_restoring.specs.declared.faults.RestoreFault.TheVariants.{Memory};

    ghost from_gives = { λ _ fault. fault ≡ Memory };

    fn from(_error: AllocError) -> RestoreFault {
        RestoreFault::Memory
    }
}

impl<T: Drop> From<AllocFailed<T>> for RestoreFault {
    ghost use Rattle.std.specs.Prelude.{◌≡◌};
    ghost use Rattle.book_dumps_restoring.specs.declared.faults.RestoreFault.TheVariants.{Memory};

    ghost from_gives = { λ _ fault. fault ≡ Memory };

    fn from(_error: AllocFailed<T>) -> RestoreFault {
        RestoreFault::Memory
    }
}
