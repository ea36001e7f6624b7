//! What keeps several edits by one commit of its store.

ghost use Rattle.book_office.specs.Keeping.{FallsBack, Standing};
ghost use Rattle.book_office.specs.Rounds.{IsRound};

use crate::keepers::{Keeper, StoreFault};
use std::alloc::Global;

/// What is done over a keeper, whatever keeper it is.
///
/// An implementation says what it does (`does`), by what the keeper stood for before and what it stands for afterwards.
pub trait Work {
    ghost does: { Standing → Standing → Self → Self → Type 0 };

    /// Does it.
    fn run<K: Keeper>(&mut self, alloc: Global, keeper: &mut K)
        ensures does { does (K.standing keeper.old) (K.standing keeper.new) self.old self.new }
        ensures falls { FallsBack (K.standing keeper.old).fallback
            (K.standing keeper.new).fallback };
}

/// A keeper that can keep several edits by one commit of its store.
///
/// An implementation says what it stands for in a round (`inside`), as if what was done so far were kept at that moment.
pub trait Rounds: Keeper {
    ghost Inside: { Type 0 };

    ghost inside: { Self.Inside → Standing };

    /// Does the work over a keeper of the same Office, and keeps all that it edited, or nothing.
    ///
    /// # Errors
    ///
    /// Nothing is kept: the Office is as it was. The work may have been done, or not. Where it was done, a stop may leave what
    /// it made.
    fn round<W: Work>(&mut self, alloc: Global, work: &mut W) -> Result<(), StoreFault>
        ensures { IsRound Self.inside W.does (Self.standing self.old) (Self.standing self.new)
            work.old work.new result };
}
