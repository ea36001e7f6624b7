//! What is stopped: one edit, or a round of three.

ghost use Rattle.book_office.specs.Keeping.{FallsBack};

use crate::stops::cases::Plans;
use anyhow::Result;
use book_office::{Edit, Keeper, Rounds, Work};
use std::alloc::Global;

/// One edit, or three in a round.
#[derive(Drop)]
pub(crate) enum Deed {
    One(Edit),
    Round(Edit, Edit, Edit),
}

/// Three edits, one after another.
#[derive(Drop)]
struct Three<'e> {
    first: &'e Edit,
    second: &'e Edit,
    third: &'e Edit,
    /// Whether each was made.
    are_made: bool,
}

/// Makes an edit: whether it was made.
fn is_made<K: Keeper>(alloc: Global, keeper: &mut K, edit: &Edit) -> bool
    ensures { FallsBack (K.standing keeper.old).fallback (K.standing keeper.new).fallback }
{
    keeper.act(alloc, edit).is_ok()
}

/// Makes two edits: whether both were made.
fn are_made<K: Keeper>(alloc: Global, keeper: &mut K, first: &Edit, second: &Edit) -> bool
    ensures { FallsBack (K.standing keeper.old).fallback (K.standing keeper.new).fallback }
{
    is_made(alloc, keeper, first) && is_made(alloc, keeper, second)
}

impl Work for Three<'_> {
    ghost does = { λ first last old new. Unit {0} };

    fn run<K: Keeper>(&mut self, alloc: Global, keeper: &mut K) {
        let are_made = are_made(alloc, keeper, self.first, self.second);
        self.are_made = are_made && is_made(alloc, keeper, self.third);
    }
}

/// Makes three edits in a round: whether they are kept.
fn are_kept<K: Rounds>(
    alloc: Global,
    keeper: &mut K,
    first: &Edit,
    second: &Edit,
    third: &Edit,
) -> bool {
    let mut work = Three {
        first,
        second,
        third,
        are_made: false,
    };
    keeper.round(alloc, &mut work).is_ok() && work.are_made
}

impl Deed {
    /// Does it: whether it was done.
    pub(crate) fn is_done<K: Rounds>(&self, alloc: Global, keeper: &mut K) -> bool {
        match self {
            Deed::One(edit) => is_made(alloc, keeper, edit),
            Deed::Round(first, second, third) => are_kept(alloc, keeper, first, second, third),
        }
    }
}

impl Plans {
    /// What is planned.
    pub(crate) fn deed(self, alloc: Global) -> Result<Deed> {
        match self {
            Plans::One(plan) => Ok(Deed::One(plan.edit(alloc)?)),
            Plans::Round(first, second, third) => Ok(Deed::Round(
                first.edit(alloc)?,
                second.edit(alloc)?,
                third.edit(alloc)?,
            )),
        }
    }
}
