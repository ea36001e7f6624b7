//! Who asks: nobody, and each person of the policy.

ghost use Rattle.std.specs.Prelude.{◌≡◌, IfOk, OnOk};
ghost use Rattle.std.specs.FinMap.{keys};
ghost use Rattle.book_policy_idle.specs.Marks.{AddsAskers, AreAskers, IsAskerBy, own_card};

use book_lists::{Caller, Circle, Here, Name, Pairs, Principal, closure, reached_in};
use book_office_values::{Items, NameMap, Text};
use book_policy_values::Policy;
use std::alloc::{AllocError, Global};

/// Who asks.
#[derive(Drop)]
pub struct Asker {
    /// Nobody, or a person.
    pub caller: Caller,
    /// To what they belong.
    pub circle: Circle,
    /// What entries ask of a card that they own.
    pub own: Here,
}

/// What entries ask of a card that the caller owns.
fn own_card(caller: &Caller) -> Result<Here, AllocError>
    ensures { IfOk result (λ here. here ≡ own_card caller.now) }
{
    let owner = match caller {
        Caller::Nobody => None,
        Caller::Known(person) => Some(person.clone()?),
    };
    Ok(Here {
        owner,
        principal: None,
    })
}

/// Who asks, by the closure of the memberships.
fn asker_of(reach: &Pairs, caller: Caller) -> Result<Asker, AllocError>
    ensures caller { IfOk result (λ asker. asker.caller ≡ caller) }
    ensures right { IfOk result (IsAskerBy reach.now) }
{
    let circle = reached_in(reach, &caller)?;
    let own = own_card(&caller)?;
    Ok(Asker {
        caller,
        circle,
        own,
    })
}

/// The names of persons or groups, in order.
pub(crate) fn names_of(alloc: Global, labels: &NameMap<Text>) -> Result<Items<Name>, AllocError>
    ensures { IfOk result (λ names. names ≡ keys labels.now) }
{
    let mut names = Vec::with_capacity(alloc, labels.len())?;
    for (name, _label) in labels.iter() {
        names.push(name.clone()?)?;
    }
    Ok(Items::from_vec(names))
}

/// Adds the persons.
fn add_persons(
    alloc: Global,
    reach: &Pairs,
    names: &[Name],
    askers: &mut Items<Asker>,
) -> Result<(), AllocError>
    ensures { OnOk result (AddsAskers reach.now askers.old names.now askers.new) }
{
    for name in names {
        let person = Principal::person(alloc, name)?;
        askers.push(asker_of(reach, Caller::Known(person))?)?;
    }
    Ok(())
}

/// Nobody, and each person of the policy.
pub(crate) fn askers_of(alloc: Global, policy: &Policy) -> Result<Items<Asker>, AllocError>
    ensures { IfOk result (AreAskers policy.now) }
{
    let reach = closure(&policy.tables().members)?;
    let names = names_of(alloc, &policy.tables().persons)?;
    let mut askers = Items::new(alloc);
    askers.push(asker_of(&reach, Caller::Nobody)?)?;
    add_persons(alloc, &reach, names.as_slice(), &mut askers)?;
    Ok(askers)
}
