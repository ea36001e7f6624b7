//! What adopting a policy would change in the Office of a keeper, and what it would leave.

ghost use Rattle.std.specs.Prelude.{◌≡◌};
ghost use Rattle.book_office.specs.Keeping.{Reads};
ghost use Rattle.book_office.specs.Sound.{IsSound};
ghost use Rattle.book_office_adopting.specs.Adopting.{adopt};
ghost use Rattle.book_questions_changes.specs.Changes.{IsChanges};
ghost use Rattle.book_questions_plans.specs.Planning.{IsPlan, IsPlanTo, Plans};

use crate::faults::PlanFault;
use book_machine::{AdoptFault, Machine};
use book_office::{Keeper, MemoryKeeper, StoreFault};
use book_office_copies::copy;
use book_office_values::Text;
use book_policy_values::Policy;
use book_questions_changes::differences;
use book_questions_stays::stays;
use std::alloc::Global;

/// What adopting a policy would leave, and change.
#[derive(Debug, Drop)]
pub struct Planned {
    /// What stays because the policy does not name it, one fact a line.
    pub stays: Text,
    /// What would change, one fact a line. The last line is `differs in N`, or `unchanged`.
    pub changes: Text,
}

/// A keeper in memory of the Office that adopts the policy.
fn adopted_copy<K: Keeper>(
    alloc: Global,
    keeper: &mut K,
    policy: &Policy,
) -> Result<MemoryKeeper, PlanFault>
    ensures { Plans (K.standing keeper.old) (K.standing keeper.new) policy.now result
        (λ o after. (after ≡ adopt policy.now o) × IsSound after) }
{
    let office = copy(alloc, keeper)?;
    let mut machine = Machine::new(MemoryKeeper::from_office(office));
    match machine.adopt(alloc, policy) {
        Ok(_) => Ok(machine.release()),
        Err(AdoptFault::Full) => Err(PlanFault::Full),
        Err(AdoptFault::Unavailable) => Err(PlanFault::Store(StoreFault::Memory)),
    }
}

/// How the Office of a keeper differs from one in memory.
fn compared<K: Keeper>(
    alloc: Global,
    keeper: &mut K,
    after: MemoryKeeper,
) -> Result<Text, StoreFault>
    ensures { Reads (K.standing keeper.old) (K.standing keeper.new) result
        (λ o text. IsSound after → IsChanges o after text) }
{
    let mut after = after;
    differences(alloc, keeper, &mut after)
}

/// What the policy would leave, and how the Office of a keeper differs from one in memory.
fn told_with<K: Keeper>(
    alloc: Global,
    keeper: &mut K,
    policy: &Policy,
    after: MemoryKeeper,
) -> Result<Planned, StoreFault>
    ensures { Reads (K.standing keeper.old) (K.standing keeper.new) result
        (λ o told. IsSound after → IsPlanTo o policy.now after told) }
{
    let left = stays(alloc, keeper, policy)?;
    let changes = compared(alloc, keeper, after)?;
    Ok(Planned {
        stays: left,
        changes,
    })
}

/// What adopting a policy would leave because it does not name it, as `stays` tells it, and how the Office differs from the
/// one that adopts the policy, as `differences` tells it. The Office is copied into memory for it, with the texts of its
/// cards, and stays as it is.
///
/// # Errors
///
/// `Full` exactly where the policy would not be adopted, want of memory and a failed store aside: the Office would pass a
/// limit, or the epoch is at its last value. `Store` where memory was refused, or the store failed.
pub fn plan<K: Keeper>(alloc: Global, keeper: &mut K, policy: &Policy) -> Result<Planned, PlanFault>
    ensures { Plans (K.standing keeper.old) (K.standing keeper.new) policy.now result
        (λ o told. IsPlan o policy.now told) }
{
    let after = adopted_copy(alloc, keeper, policy)?;
    Ok(told_with(alloc, keeper, policy, after)?)
}
