//! The entries that may apply to a caller, for decisions on many resources below the same levels.

ghost use Rattle.std.specs.Prelude.{◌++◌, ◌∷◌, IfOk, OnOk, List};
ghost use Rattle.book_lists.specs.declared.entries.Entry.{Entry as EntryModel};
ghost use Rattle.book_office.specs.Levels.{effective_of};
ghost use Rattle.book_office_sync.specs.Sifting.{AppliesAs};
ghost use Rattle.book_office_listings.specs.Scanning.{IsVerdict};
ghost use Rattle.book_office_listings.specs.Sifting.{IsSifted, entries_of_levels};

use crate::denials::{judge, list_in};
use crate::messages::Denial;
use book_lists::{Circle, Deciders, Entry, Here, Outcome};
use book_office::Level;
use book_office_sync::may_apply;
use book_office_values::Items;
use book_rights::LeafSet;
use std::alloc::{AllocError, Global};

/// The entries of some levels that may apply to a caller, in order: those of the protected lists, and those of the own
/// lists.
#[derive(Debug, Drop)]
pub(crate) struct Sifted {
    pub(crate) protected: Items<Entry>,
    pub(crate) own: Items<Entry>,
}

/// Adds the entries of a list that may apply to the caller.
fn keep(kept: &mut Vec<Entry>, list: &[Entry], circle: &Circle) -> Result<(), AllocError>
    ensures { OnOk result ((before : List EntryModel) → AppliesAs circle.now before kept.old.items
        → AppliesAs circle.now (before ++ list.now) kept.new.items) }
{
    for entry in list {
        if may_apply(entry, circle) {
            kept.push(entry.clone()?)?;
        }
    }
    Ok(())
}

/// The entries of the protected lists of levels, or of their own lists, that may apply to the caller.
fn kept_of(
    alloc: Global,
    levels: &[Level],
    protected: bool,
    circle: &Circle,
) -> Result<Items<Entry>, AllocError>
    ensures { IfOk result (λ kept. AppliesAs circle.now
        (entries_of_levels protected levels.now) kept) }
{
    let mut kept = Vec::new(alloc);
    for level in levels {
        keep(&mut kept, list_in(level, protected), circle)?;
    }
    Ok(Items::from_vec(kept))
}

/// The entries of levels that may apply to the caller. An error is want of memory.
pub(crate) fn sift(alloc: Global, levels: &[Level], circle: &Circle) -> Result<Sifted, AllocError>
    ensures { IfOk result (λ sifted. IsSifted circle.now levels.now sifted) }
{
    Ok(Sifted {
        protected: kept_of(alloc, levels, true, circle)?,
        own: kept_of(alloc, levels, false, circle)?,
    })
}

/// The decision on a set at a resource, by its own level and those above it, as `judge` makes it: none where the set is
/// granted. Of the levels above it looks at no entry that can't apply, but where a denial is to be named. An error is
/// want of memory.
pub(crate) fn judge_below(
    own: &Level,
    above: &[Level],
    sifted: &Sifted,
    circle: &Circle,
    here: &Here,
    set: LeafSet,
) -> Result<Option<Denial>, AllocError>
    ensures { IsSifted circle.now above.now sifted.now → IfOk result
        (IsVerdict (effective_of (own.now ∷ above.now)) circle.now here.now own.now.path set) }
{
    let mut deciders = Deciders::start(set);
    deciders.judge_over(own.protected.as_slice(), circle, here);
    deciders.judge_over(sifted.protected.as_slice(), circle, here);
    deciders.judge_over(own.own.as_slice(), circle, here);
    deciders.judge_over(sifted.own.as_slice(), circle, here);
    match deciders.outcome() {
        Outcome::Allowed => Ok(None),
        Outcome::Denied { .. } => judge(own, above, circle, here, set),
    }
}
