//! Those who are asked about.

ghost use Rattle.book_office.specs.Keeping.{Reads};
ghost use Rattle.book_questions_rights.specs.Askers.{AreAskers, IsAsker};

use book_lists::{Caller, Circle};
use book_office::{Keeper, StoreFault};
use std::alloc::Global;

/// A caller, with the principals to which it belongs.
#[derive(Debug, Drop)]
pub struct Asker {
    /// Who may ask.
    pub caller: Caller,
    /// The principals to which it belongs.
    pub circle: Circle,
}

/// A caller with its circle.
fn asker_of<K: Keeper>(alloc: Global, keeper: &mut K, caller: &Caller) -> Result<Asker, StoreFault>
    ensures { Reads (K.standing keeper.old) (K.standing keeper.new) result
        (λ o asker. IsAsker o.pairs caller.now asker) }
{
    let circle = keeper.circle(alloc, caller)?;
    let caller = caller.clone()?;
    Ok(Asker { caller, circle })
}

/// Each caller with its circle. An error is want of memory or a failure of the store.
pub fn askers_of<K: Keeper>(
    alloc: Global,
    keeper: &mut K,
    callers: &[Caller],
) -> Result<Vec<Asker>, StoreFault>
    ensures { Reads (K.standing keeper.old) (K.standing keeper.new) result
        (λ o askers. AreAskers o.pairs callers.now askers.items) }
{
    let mut askers = Vec::new(alloc);
    for caller in callers {
        let asker = match asker_of(alloc, keeper, caller) {
            Ok(asker) => asker,
            Err(fault) => return Err(fault),
        };
        if askers.push(asker).is_err() {
            return Err(StoreFault::Memory);
        }
    }
    Ok(askers)
}
