//! Who asks, and where.

ghost use Rattle.std.specs.Prelude.{IfOk};
ghost use Rattle.book_policy_idle.specs.Marks.{IsScope};

use crate::askers::{Asker, askers_of};
use crate::places::places_of;
use crate::spots::{Spot, spots_of};
use book_office_values::{Items, Path};
use book_policy_values::Policy;
use std::alloc::{AllocError, Global};

/// Who asks, and where: what the program goes over of what requests can make.
#[derive(Drop)]
pub struct Scope {
    /// Nobody, and each person of the policy.
    pub askers: Items<Asker>,
    /// The root, the homes, and each person, group and book of the policy.
    pub places: Items<Path>,
    /// Each of them, with the entries in force there.
    pub spots: Items<Spot>,
}

/// Who asks, and where, of a policy.
pub(crate) fn scope_of(alloc: Global, policy: &Policy) -> Result<Scope, AllocError>
    ensures { IfOk result (IsScope policy.now) }
{
    let askers = askers_of(alloc, policy)?;
    let places = places_of(alloc, policy)?;
    let entries = policy.tables().entries.as_slice();
    let spots = spots_of(alloc, entries, places.as_slice())?;
    Ok(Scope {
        askers,
        places,
        spots,
    })
}
