//! The search for shortest chains, from a caller up.

ghost use Rattle.std.specs.Prelude.{◌≡◌, ◌++◌, ◌∷◌, [], IfOk, OnOk};
ghost use Rattle.book_lists.specs.Memberships.{set_of};
ghost use Rattle.book_questions_chains.specs.Chains.{AreChains, AreChainsOf, above, rise, risen};

use crate::chains::{Chain, chain_to, has_chain};
use book_lists::{Caller, Membership, Principal};
use book_office_values::Items;
use std::alloc::{AllocError, Global};

/// A copy of the principals, behind a first one.
fn behind(
    alloc: Global,
    first: &Principal,
    others: &[Principal],
) -> Result<Vec<Principal>, AllocError>
    ensures { IfOk result (λ copies. copies.items ≡ first.now ∷ others.now) }
{
    let mut copies = Vec::new(alloc);
    copies.push(first.clone()?)?;
    for other in others {
        copies.push(other.clone()?)?;
    }
    Ok(copies)
}

/// The chain with a group above it.
fn above(alloc: Global, group: &Principal, chain: &Chain) -> Result<Chain, AllocError>
    ensures { IfOk result (λ higher. higher ≡ above group.now chain.now) }
{
    let members = behind(alloc, &chain.group, chain.members.as_slice())?;
    Ok(Chain {
        group: group.clone()?,
        members: Items::from_vec(members),
    })
}

/// Adds the chain to the group of a pair, where its member is at the front, and the group was not met.
fn push_rise(
    alloc: Global,
    settled: &[Chain],
    front: &[Chain],
    pair: &Membership,
    higher: &mut Vec<Chain>,
) -> Result<(), AllocError>
    ensures { OnOk result (higher.new.items ≡ higher.old.items ++ rise settled.now front.now pair.now) }
{
    let Some(chain) = chain_to(front, &pair.member) else {
        return Ok(());
    };
    if has_chain(settled, &pair.group) || has_chain(front, &pair.group) {
        return Ok(());
    }
    higher.push(above(alloc, &pair.group, chain)?)?;
    Ok(())
}

/// The chains to the groups that were not met, by one membership more than those at the front.
fn risen(
    alloc: Global,
    settled: &[Chain],
    front: &[Chain],
    pairs: &[Membership],
) -> Result<Vec<Chain>, AllocError>
    ensures { IfOk result (λ higher. higher.items ≡ risen settled.now front.now pairs.now) }
{
    let mut higher = Vec::new(alloc);
    for pair in pairs {
        push_rise(alloc, settled, front, pair, &mut higher)?;
    }
    Ok(higher)
}

/// The chain of a principal to itself.
fn itself(alloc: Global, principal: &Principal) -> Result<Vec<Chain>, AllocError>
    ensures { IfOk result (λ chains. chains.items ≡ record { group = principal.now; members = [] } ∷ []) }
{
    let mut chains = Vec::new(alloc);
    chains.push(Chain {
        group: principal.clone()?,
        members: Items::new(alloc),
    })?;
    Ok(chains)
}

/// A shortest chain to each principal to which a principal belongs by these memberships. Cycles are allowed.
///
/// Chains are found by their length; for each length each pair is looked at once.
fn chains_from(
    alloc: Global,
    pairs: &[Membership],
    principal: &Principal,
) -> Result<Vec<Chain>, AllocError>
    ensures { IfOk result (λ chains. AreChains (set_of pairs.now) principal.now chains.items) }
{
    let mut settled = Vec::new(alloc);
    let mut front = itself(alloc, principal)?;
    'steps: while !front.is_empty() {
        let higher = risen(alloc, settled.as_slice(), front.as_slice(), pairs)?;
        settled.append(&mut front)?;
        front = higher;
    }
    Ok(settled)
}

/// A shortest chain to each principal to which a caller belongs; none for nobody.
pub fn chains_of(
    alloc: Global,
    pairs: &[Membership],
    caller: &Caller,
) -> Result<Items<Chain>, AllocError>
    ensures { IfOk result (AreChainsOf (set_of pairs.now) caller.now) }
{
    match caller {
        Caller::Nobody => Ok(Items::new(alloc)),
        Caller::Known(person) => Ok(Items::from_vec(chains_from(alloc, pairs, person)?)),
    }
}
