//! Why it was not told what adopting a policy would change.

use book_office::StoreFault;

/// Why it was not told what adopting a policy would change. The Office is as it was.
#[derive(Clone, Copy, Debug, PartialEq, Eq)]
pub enum PlanFault {
    /// The policy would not be adopted: the Office would pass a limit, or the epoch is at its last value.
    Full,
    /// Memory was refused, or the store failed.
    Store(StoreFault),
}

impl From<StoreFault> for PlanFault {
    ghost use Rattle.std.specs.Prelude.{◌≡◌};
    ghost use Rattle.book_questions_plans.specs.declared.faults.PlanFault.TheVariants.{Store};

    ghost from_gives = { λ fault plan_fault. plan_fault ≡ Store fault };

    fn from(fault: StoreFault) -> PlanFault {
        PlanFault::Store(fault)
    }
}
