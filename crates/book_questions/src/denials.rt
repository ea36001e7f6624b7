//! The denial that the rulings tell.

ghost use Rattle.std.specs.Prelude.{◌≡◌, ◌∷◌, [], IfOk, None, Some};
ghost use Rattle.std.specs.Option.{option_copied};
ghost use Rattle.book_questions.specs.RulingVerdicts.{earliest, stands_before, ungranted};
ghost use Rattle.book_questions.specs.Whys.{denial_at, first_denial};

use crate::whys::WhyNeed;
use book_office_listings::{DecidingEntry, Denial, Ruling};
use book_office_values::Path;
use book_rights::{LeafSet, denied_name};
use std::alloc::AllocError;

/// Whether one entry stands before another. Where none decides comes after each entry.
fn stands_before(a: &Option<DecidingEntry>, b: &Option<DecidingEntry>) -> bool
    ensures { result ≡ stands_before a.now b.now }
{
    match (a, b) {
        (None, _) => false,
        (Some(_), None) => true,
        (Some(a), Some(b)) => a.number < b.number,
    }
}

/// The one that stands first, where there is one so far.
fn earlier<'a>(best: Option<&'a Ruling>, ruling: &'a Ruling) -> &'a Ruling
    ensures { Some result.now ≡ earliest (option_copied best.entry) (ruling.now ∷ []) }
{
    let Some(best) = best else {
        return ruling;
    };
    if stands_before(&ruling.entry, &best.entry) {
        return ruling;
    }
    best
}

/// The same, but for a ruling that grants, or whose leaf is none of the set.
fn better<'a>(best: Option<&'a Ruling>, ruling: &'a Ruling, set: LeafSet) -> Option<&'a Ruling>
    ensures { option_copied result ≡ earliest (option_copied best.entry)
        (ungranted set (ruling.now ∷ [])) }
{
    if set.has(ruling.leaf) && !ruling.grant {
        Some(earlier(best, ruling))
    } else {
        best
    }
}

/// Of the rulings on leaves of a set that do not grant, the one whose entry stands first, and of those with one entry the
/// first.
pub(crate) fn earliest<'a>(rulings: &'a [Ruling], set: LeafSet) -> Option<&'a Ruling>
    ensures { option_copied result ≡ earliest None (ungranted set rulings.now) }
{
    let mut best = None;
    for ruling in rulings {
        best = better(best, ruling, set);
    }
    best
}

/// A copy of the path.
fn copy_of(path: &Path) -> Result<Path, AllocError>
    ensures { IfOk result (λ copy. copy ≡ path.now) }
{
    path.clone()
}

/// A copy of the entry that a ruling names.
fn copy_of_entry(entry: &Option<DecidingEntry>) -> Result<Option<DecidingEntry>, AllocError>
    ensures { IfOk result (λ copy. copy ≡ entry.now) }
{
    match entry {
        Some(entry) => Ok(Some(DecidingEntry {
            from: copy_of(&entry.from)?,
            number: entry.number,
        })),
        None => Ok(None),
    }
}

/// The denial of a need, if it is not granted.
fn denial_at(why: &WhyNeed) -> Result<Option<Denial>, AllocError>
    ensures { IfOk result (λ denial. denial ≡ denial_at why.now) }
{
    match earliest(why.rulings.as_slice(), why.set) {
        Some(ruling) => Ok(Some(Denial {
            resource: copy_of(&why.resource)?,
            privilege: denied_name(ruling.leaf, why.set),
            entry: copy_of_entry(&ruling.entry)?,
        })),
        None => Ok(None),
    }
}

/// The denial of the first need that is not granted. An error is want of memory.
pub fn first_denial(whys: &[WhyNeed]) -> Result<Option<Denial>, AllocError>
    ensures { IfOk result (λ denial. denial ≡ first_denial whys.now) }
{
    let mut rest = whys;
    while let Some((why, after)) = rest.split_first() {
        let denial = denial_at(why)?;
        if denial.is_some() {
            return Ok(denial);
        }
        rest = after;
    }
    Ok(None)
}
