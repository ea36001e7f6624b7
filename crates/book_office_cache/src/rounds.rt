//! A round of the keeper behind what is remembered.

ghost use Rattle.std.specs.Prelude.{◌≡◌, OnErr, OnOk};
ghost use Rattle.std.specs.Borrow.{GName};
ghost use Rattle.book_office.specs.Keeping.{FallsBack, lent};
ghost use Rattle.book_office.specs.Rounds.{IsRound};
ghost use Rattle.book_office_cache.specs.Remembering.{Held, Remembers, lent_memory, remembering};
ghost use Rattle.book_office_cache.specs.Rounds.{IsWorkBehind, remembering_in};
ghost use Rattle.book_office_values.specs.declared.offices.Office.{Office as OfficeOf};

use crate::cached::Cached;
use crate::remembered::Remembered;
use book_office::{Keeper, Rounds, StoreFault, Work};
use std::alloc::Global;

/// Work that is done over a keeper that remembers, in a round of the keeper behind it.
#[derive(Drop)]
pub(crate) struct CachedWork<'w, W> {
    pub(crate) work: &'w mut W,
    pub(crate) remembered: &'w mut Remembered,
}

/// Does the work over the keeper of a round, in front of which is what is remembered.
fn run_behind<K: Keeper, W: Work>(
    alloc: Global,
    work: &mut W,
    cached: &mut Cached<&mut K, &mut Remembered>,
)
    ensures same_keeper { cached.new.keeper.ghost_name ≡ cached.old.keeper.ghost_name }
    ensures same_memory { cached.new.remembered.ghost_name ≡ cached.old.remembered.ghost_name }
    ensures does { W.does
        (remembering (lent cached.old.keeper.ghost_name (K.standing cached.old.keeper.now))
        (lent_memory cached.old.remembered.ghost_name cached.old.remembered.now))
        (remembering (lent cached.new.keeper.ghost_name (K.standing cached.new.keeper.now))
        (lent_memory cached.new.remembered.ghost_name cached.new.remembered.now))
        work.old work.new }
    ensures falls { FallsBack (K.standing cached.old.keeper.now).fallback
        (K.standing cached.new.keeper.now).fallback }
{
    work.run(alloc, cached);
}

impl<W: Work> Work for CachedWork<'_, W> {
    ghost does = { λ first last old new. IsWorkBehind W.does first last old new };

    fn run<K: Keeper>(&mut self, alloc: Global, keeper: &mut K) {
        let mut cached = Cached {
            keeper,
            remembered: &mut *self.remembered,
        };
        run_behind(alloc, &mut *self.work, &mut cached);
    }
}

/// A round of the keeper behind what is remembered.
fn round_behind<K: Rounds, W: Work>(
    alloc: Global,
    keeper: &mut K,
    cached: &mut CachedWork<'_, W>,
) -> Result<(), StoreFault>
    ensures same_work { cached.new.work.ghost_name ≡ cached.old.work.ghost_name }
    ensures same_memory { cached.new.remembered.ghost_name ≡ cached.old.remembered.ghost_name }
    ensures round { IsRound K.inside (IsWorkBehind W.does) (K.standing keeper.old)
        (K.standing keeper.new) cached.old cached.new result }
{
    keeper.round(alloc, cached)
}

/// Forgets all after a round that was not kept: what was learned in it may be of an Office that there is not.
fn forget_unless_kept(alloc: Global, remembered: &mut Remembered, outcome: &Result<(), StoreFault>)
    ensures kept { OnOk outcome.now (remembered.new ≡ remembered.old) }
    ensures nothing { OnErr outcome.now ((o : OfficeOf) → Remembers remembered.new o) }
{
    if outcome.is_err() {
        remembered.forget(alloc);
    }
}

/// The work is done over the keeper of a round with what is remembered in front of it, and what it learned stays where the
/// round was kept.
impl<K: Rounds> Rounds for Cached<K> {
    ghost Inside = { K.Inside × GName × Held };

    ghost inside = { λ i. remembering_in K.inside i };

    fn round<W: Work>(&mut self, alloc: Global, work: &mut W) -> Result<(), StoreFault> {
        let mut cached = CachedWork {
            work,
            remembered: &mut self.remembered,
        };
        let result = round_behind(alloc, &mut self.keeper, &mut cached);
        forget_unless_kept(alloc, &mut self.remembered, &result);
        result
    }
}
