//! A policy that is adopted.

ghost use Rattle.std.specs.Prelude.{IfOk, IfErr, Ok, Err};
ghost use Rattle.book_machine.specs.Promises.{AdoptPromise};

use crate::serving_failures::AdoptionFailure;
use book_machine::{Adopted, Machine};
use book_office::{Keeper, Policy};
use std::alloc::Global;

/// Adopts the policy (own profile). The answer tells whether the Office differs from before, and the epoch.
///
/// # Errors
///
/// Where the machine did not adopt it, with its fault. The Office is as it was.
pub fn adopt_or_fail<K: Keeper>(
    alloc: Global,
    machine: &mut Machine<K>,
    policy: &Policy,
) -> Result<Adopted, AdoptionFailure>
    ensures adopted { IfOk result (λ adopted. AdoptPromise (K.standing machine.old.keeper)
        (K.standing machine.new.keeper) policy.now (Ok adopted)) }
    ensures refused { IfErr result (λ failure. AdoptPromise (K.standing machine.old.keeper)
        (K.standing machine.new.keeper) policy.now (Err failure.fault)) }
{
    match machine.adopt(alloc, policy) {
        Ok(adopted) => Ok(adopted),
        Err(fault) => Err(AdoptionFailure { fault }),
    }
}
