//! The entries in force at each place of a policy, and what they ask of it.

ghost use Rattle.std.specs.Prelude.{◌≡◌, IfOk, map};
ghost use Rattle.book_policy_idle.specs.Marks.{spot_at};

use crate::in_force::{Placed, add_along};
use crate::places::{here_at, is_book};
use book_lists::Here;
use book_office_values::{Items, Path};
use book_policy_values::PolicyEntry;
use std::alloc::{AllocError, Global};

/// A place of a policy.
#[derive(Drop)]
pub struct Spot {
    /// The protected entries in force there.
    pub protected: Items<Placed>,
    /// The other entries in force there, behind those of the own list of what is asked for.
    pub rest: Items<Placed>,
    /// What entries ask of the place, or of a card in it that nobody owns.
    pub here: Here,
    /// Whether it is a book.
    pub is_book: bool,
}

/// A place of a policy with these entries.
fn spot_at(alloc: Global, entries: &[PolicyEntry], path: &Path) -> Result<Spot, AllocError>
    ensures { IfOk result (λ spot. spot ≡ spot_at entries.now path.now) }
{
    let paths = path.levels(alloc)?;
    let mut protected = Items::new(alloc);
    add_along(alloc, entries, true, paths.as_slice(), &mut protected)?;
    let mut rest = Items::new(alloc);
    add_along(alloc, entries, false, paths.as_slice(), &mut rest)?;
    let here = here_at(alloc, path)?;
    Ok(Spot {
        protected,
        rest,
        here,
        is_book: is_book(path),
    })
}

/// The places of a policy with these entries.
pub(crate) fn spots_of(
    alloc: Global,
    entries: &[PolicyEntry],
    paths: &[Path],
) -> Result<Items<Spot>, AllocError>
    ensures { IfOk result (λ spots. spots ≡ map (spot_at entries.now) paths.now) }
{
    let mut spots = Items::new(alloc);
    for path in paths {
        spots.push(spot_at(alloc, entries, path)?)?;
    }
    Ok(spots)
}
