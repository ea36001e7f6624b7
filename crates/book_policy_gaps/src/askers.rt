//! Everybody: nobody, and each person.

ghost use Rattle.std.specs.Prelude.{◌≡◌, None, IfOk};
ghost use Rattle.book_office.specs.Keeping.{Reads};
ghost use Rattle.book_policy_gaps.specs.Askers.{AreAskers, IsAsker, IsEverybody};

use book_lists::{Caller, Circle, Name, Principal};
use book_office::{Keeper, Listed, StoreFault};
use book_office_values::Items;
use std::alloc::{AllocError, Global};

/// A person, with the principals to which the person belongs.
#[derive(Debug, Drop)]
pub(crate) struct Asker {
    pub(crate) name: Name,
    pub(crate) principal: Principal,
    pub(crate) circle: Circle,
}

/// All callers that there are.
#[derive(Debug, Drop)]
pub(crate) struct Everybody {
    /// The circle of nobody, who belongs to nothing.
    pub(crate) nobody: Circle,
    /// The persons, in byte order of their names.
    pub(crate) persons: Items<Asker>,
}

/// The circle of nobody.
fn nobody(alloc: Global) -> Result<Circle, AllocError>
    ensures { IfOk result (λ circle. circle ≡ None) }
{
    Circle::of(alloc, &Caller::Nobody, Vec::new(alloc))
}

/// A person who is listed, as a caller.
fn asker_of<K: Keeper>(alloc: Global, keeper: &mut K, person: &Listed) -> Result<Asker, StoreFault>
    ensures { Reads (K.standing keeper.old) (K.standing keeper.new) result
        (λ o asker. IsAsker o.pairs person.now asker) }
{
    let name = person.name.clone()?;
    let principal = Principal::person(alloc, &person.name)?;
    let caller = Caller::Known(principal.clone()?);
    let circle = keeper.circle(alloc, &caller)?;
    Ok(Asker {
        name,
        principal,
        circle,
    })
}

/// Each of these persons, as a caller.
fn asker_each<K: Keeper>(
    alloc: Global,
    keeper: &mut K,
    persons: &[Listed],
) -> Result<Vec<Asker>, StoreFault>
    ensures { Reads (K.standing keeper.old) (K.standing keeper.new) result
        (λ o askers. AreAskers o.pairs persons.now askers.items) }
{
    let mut askers = Vec::new(alloc);
    for person in persons {
        let asker = match asker_of(alloc, keeper, person) {
            Ok(asker) => asker,
            Err(fault) => return Err(fault),
        };
        if askers.push(asker).is_err() {
            return Err(StoreFault::Memory);
        }
    }
    Ok(askers)
}

/// Nobody, and each of these persons.
pub(crate) fn everybody_of<K: Keeper>(
    alloc: Global,
    keeper: &mut K,
    persons: &[Listed],
) -> Result<Everybody, StoreFault>
    ensures { Reads (K.standing keeper.old) (K.standing keeper.new) result
        (λ o everybody. IsEverybody o.pairs persons.now everybody) }
{
    let nobody = nobody(alloc)?;
    let askers = asker_each(alloc, keeper, persons)?;
    Ok(Everybody {
        nobody,
        persons: Items::from_vec(askers),
    })
}
