//! A round behind a fuse.

ghost use Rattle.std.specs.Prelude.{◌≡◌, ℕ};
ghost use Rattle.std.specs.Borrow.{GName};
ghost use Rattle.book_office.specs.Keeping.{FallsBack, lent};
ghost use Rattle.book_office.specs.Rounds.{IsRound};
ghost use Rattle.book_office_faults.specs.Fuses.{IsWorkBehind, behind, behind_in};

use crate::fused::Fused;
use book_office::{Keeper, Rounds, StoreFault, Work};
use std::alloc::Global;

/// Work that is done behind a fuse, before the keeper of a round.
#[derive(Drop)]
pub(crate) struct FusedWork<'w, W> {
    pub(crate) work: &'w mut W,
    /// How many calls are still passed on.
    pub(crate) calls: u64,
    /// How many calls the fuse has answered.
    pub(crate) failures: u64,
}

/// Does the work behind the fuse.
fn run_behind<K: Keeper, W: Work>(alloc: Global, work: &mut W, fused: &mut Fused<&mut K>)
    ensures same_reference { fused.new.keeper.ghost_name ≡ fused.old.keeper.ghost_name }
    ensures does { W.does
        (behind (lent fused.old.keeper.ghost_name (K.standing fused.old.keeper.now)) fused.old.failures)
        (behind (lent fused.new.keeper.ghost_name (K.standing fused.new.keeper.now)) fused.new.failures)
        work.old work.new }
    ensures falls { FallsBack (K.standing fused.old.keeper.now).fallback
        (K.standing fused.new.keeper.now).fallback }
{
    work.run(alloc, fused);
}

impl<W: Work> Work for FusedWork<'_, W> {
    ghost does = { λ first last old new. IsWorkBehind W.does first last old new };

    fn run<K: Keeper>(&mut self, alloc: Global, keeper: &mut K) {
        let mut fused = Fused {
            keeper,
            calls: self.calls,
            failures: self.failures,
        };
        run_behind(alloc, self.work, &mut fused);
        self.calls = fused.calls;
        self.failures = fused.failures;
    }
}

/// A round of the keeper.
fn round_behind<K: Rounds, W: Work>(
    alloc: Global,
    keeper: &mut K,
    fused: &mut FusedWork<'_, W>,
) -> Result<(), StoreFault>
    ensures same_reference { fused.new.work.ghost_name ≡ fused.old.work.ghost_name }
    ensures round { IsRound K.inside (IsWorkBehind W.does) (K.standing keeper.old)
        (K.standing keeper.new) fused.old fused.new result }
{
    keeper.round(alloc, fused)
}

impl<K: Rounds> Fused<K> {
    /// A round that is passed on.
    fn pass_round<W: Work>(&mut self, alloc: Global, work: &mut W) -> Result<(), StoreFault>
        ensures { IsRound (behind_in K.inside) W.does (behind (K.standing self.old.keeper) self.old.failures)
            (behind (K.standing self.new.keeper) self.new.failures) work.old work.new result }
    {
        let mut fused = FusedWork {
            work,
            calls: self.calls,
            failures: self.failures,
        };
        let result = round_behind(alloc, &mut self.keeper, &mut fused);
        self.calls = fused.calls;
        self.failures = fused.failures;
        result
    }
}

/// A round is a call, and so is each call in it.
impl<K: Rounds> Rounds for Fused<K> {
    ghost Inside = { K.Inside × GName × ℕ };

    ghost inside = { λ i. behind_in K.inside i };

    fn round<W: Work>(&mut self, alloc: Global, work: &mut W) -> Result<(), StoreFault> {
        if self.passes() {
            self.pass_round(alloc, work)
        } else {
            self.fail()
        }
    }
}
