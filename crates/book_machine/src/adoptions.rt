//! Adopting a policy.

ghost use Rattle.std.specs.Prelude.{◌≡◌};
ghost use Rattle.book_office_adopting.specs.Adopting.{adoption_of};
ghost use Rattle.book_office.specs.Keeping.{Reads};
ghost use Rattle.book_machine.specs.Adoptions.{adopted_by};
ghost use Rattle.book_machine.specs.Promises.{AdoptPromise};
ghost use Rattle.book_machine.specs.declared.adoptions.AdoptFault.TheVariants.{Unavailable};

use crate::machine::Machine;
use book_limits::{LAST_NUMBER, MAX_BOOKS};
use book_office::{Adoption, Edit, Keeper, Policy, StoreFault};
use std::alloc::{AllocError, Global};

/// A policy was adopted.
#[derive(Clone, Copy, Debug, PartialEq, Eq)]
pub struct Adopted {
    /// Whether the Office differs from before.
    pub changed: bool,
    /// The access epoch afterwards.
    pub epoch: u64,
}

/// Why a policy was not adopted. The Office is as it was.
#[derive(Clone, Copy, Debug, PartialEq, Eq)]
pub enum AdoptFault {
    /// The Office would pass a limit, or the epoch is at its last value.
    Full,
    /// Memory was refused, or the store failed.
    Unavailable,
}

impl From<StoreFault> for AdoptFault {
    ghost from_gives = { λ _ fault. fault ≡ Unavailable };

    fn from(_fault: StoreFault) -> Self {
        AdoptFault::Unavailable
    }
}

impl From<AllocError> for AdoptFault {
    ghost from_gives = { λ _ fault. fault ≡ Unavailable };

    fn from(_error: AllocError) -> Self {
        AdoptFault::Unavailable
    }
}

/// The answer where there is room, by the epoch before.
fn adopted_by(epoch: u64, adoption: Adoption) -> Option<Adopted>
    ensures { result ≡ adopted_by epoch adoption }
{
    if epoch < LAST_NUMBER && adoption.books <= MAX_BOOKS {
        Some(Adopted {
            changed: adoption.changed,
            epoch: if adoption.changed { epoch + 1 } else { epoch },
        })
    } else {
        None
    }
}

impl<K: Keeper> Machine<K> {
    /// The answer where there is room.
    fn adopted(&mut self, alloc: Global, policy: &Policy) -> Result<Option<Adopted>, StoreFault>
        ensures { Reads (K.standing self.old.keeper) (K.standing self.new.keeper) result
            (λ o answer. answer ≡ adopted_by o.epoch (adoption_of policy.now o)) }
    {
        let epoch = self.keeper.epoch()?;
        let adoption = self.keeper.adoption(alloc, policy)?;
        Ok(adopted_by(epoch, adoption))
    }

    /// Adopts a policy (own profile): what it names is added, and labels, owners of books, members and lists become the
    /// policy's. The answer tells whether the Office differs from before, and the epoch, which rises by one where it
    /// does.
    ///
    /// Full comes exactly where the Office would pass a limit or the epoch is at its last value, want of memory and a
    /// failed store aside. Each fault leaves the Office as it was.
    ///
    /// Over memory it takes a number of comparisons that grows with the policy, the resources and the members, up to a
    /// logarithm; no card is visited.
    pub fn adopt(&mut self, alloc: Global, policy: &Policy) -> Result<Adopted, AdoptFault>
        ensures { AdoptPromise (K.standing self.old.keeper)
            (K.standing self.new.keeper) policy.now result }
    {
        policy.known();
        let Some(adopted) = self.adopted(alloc, policy)? else {
            return Err(AdoptFault::Full);
        };
        let edit = Edit::Adopt {
            policy: policy.clone()?,
        };
        let made = self.keeper.act(alloc, &edit);
        drop(edit);
        made?;
        Ok(adopted)
    }
}
