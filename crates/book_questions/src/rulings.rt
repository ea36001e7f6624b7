//! The rulings at a path, also where nothing is mapped: that is what the decision on a request asks.

ghost use Rattle.std.specs.Prelude.{◌≡◌};
ghost use Rattle.book_office.specs.Keeping.{Reads};
ghost use Rattle.book_office.specs.Levels.{effective_at};
ghost use Rattle.book_office_listings.specs.Rulings.{AreRulings};
ghost use Rattle.book_office_listings.specs.Verdicts.{here_of, owner_at};
ghost use Rattle.book_lists.specs.Memberships.{set_of};
ghost use Rattle.book_questions.specs.Whys.{AreWhys, IsInForce, IsWhy, IsWhyNeed};
ghost use Rattle.book_questions_chains.specs.Chains.{AreChainsOf};

use crate::whys::{InForce, Why, WhyNeed};
use book_lists::{Caller, Circle, Here, Membership, Principal};
use book_machine::{Needed, PlacedNeed, principal_of};
use book_office::{Keeper, StoreFault, effective};
use book_office_listings::{Ruling, rulings};
use book_office_values::{Items, Path};
use book_questions_chains::{Chain, chains_of};
use std::alloc::Global;

/// The owner of the resource at a path, if there is one.
fn owner_at<K: Keeper>(
    alloc: Global,
    keeper: &mut K,
    path: &Path,
) -> Result<Option<Principal>, StoreFault>
    ensures { Reads (K.standing keeper.old) (K.standing keeper.new) result
        (λ o owner. owner ≡ owner_at o path.now) }
{
    match keeper.find(alloc, path)? {
        Some(node) => Ok(node.owner),
        None => Ok(None),
    }
}

/// What entries ask of the resource at a path: its owner, and itself where it is a principal; no owner where nothing is
/// mapped there. An error is want of memory or a failure of the store.
pub fn here_at<K: Keeper>(alloc: Global, keeper: &mut K, path: &Path) -> Result<Here, StoreFault>
    ensures { Reads (K.standing keeper.old) (K.standing keeper.new) result
        (λ o here. here ≡ here_of o path.now) }
{
    let principal = principal_of(alloc, path)?;
    let owner = owner_at(alloc, keeper, path)?;
    Ok(Here { owner, principal })
}

/// The entries in force at a path, and what they ask of the resource there. An error is want of memory or a failure of the
/// store.
pub fn in_force<K: Keeper>(
    alloc: Global,
    keeper: &mut K,
    path: &Path,
) -> Result<InForce, StoreFault>
    ensures { Reads (K.standing keeper.old) (K.standing keeper.new) result
        (λ o force. IsInForce o path.now force) }
{
    let list = effective(alloc, keeper, path)?;
    let here = here_at(alloc, keeper, path)?;
    Ok(InForce { list, here })
}

/// The rulings on all leaves at a path, in order, by the entries in force there, for the principals of a circle.
fn rulings_in_force<K: Keeper>(
    alloc: Global,
    keeper: &mut K,
    circle: &Circle,
    path: &Path,
) -> Result<Items<Ruling>, StoreFault>
    ensures { Reads (K.standing keeper.old) (K.standing keeper.new) result
        (λ o rulings. AreRulings (effective_at o path.now) circle.now
        (here_of o path.now) rulings) }
{
    let here = here_at(alloc, keeper, path)?;
    let lists = keeper.lists(alloc, path)?;
    Ok(rulings(alloc, lists.levels.as_slice(), circle, &here)?)
}

/// What decides a need.
fn why_need<K: Keeper>(
    alloc: Global,
    keeper: &mut K,
    circle: &Circle,
    need: &PlacedNeed,
) -> Result<WhyNeed, StoreFault>
    ensures { Reads (K.standing keeper.old) (K.standing keeper.new) result
        (λ o why. IsWhyNeed o circle.now need.now why) }
{
    let resource = need.resource.clone()?;
    let rulings = rulings_in_force(alloc, keeper, circle, &need.resource)?;
    let force = in_force(alloc, keeper, &need.resource)?;
    Ok(WhyNeed {
        resource,
        set: need.set,
        force,
        rulings,
    })
}

/// What decides each need in turn.
fn why_each<K: Keeper>(
    alloc: Global,
    keeper: &mut K,
    circle: &Circle,
    needs: &[PlacedNeed],
) -> Result<Vec<WhyNeed>, StoreFault>
    ensures { Reads (K.standing keeper.old) (K.standing keeper.new) result
        (λ o whys. AreWhys o circle.now needs.now whys.items) }
{
    let mut whys = Vec::new(alloc);
    for need in needs {
        let why = match why_need(alloc, keeper, circle, need) {
            Ok(why) => why,
            Err(fault) => return Err(fault),
        };
        if whys.push(why).is_err() {
            return Err(StoreFault::Memory);
        }
    }
    Ok(whys)
}

/// The direct members of all groups, each as a pair. An error is want of memory or a failure of the store.
pub fn listed_pairs<K: Keeper>(alloc: Global, keeper: &mut K) -> Result<Vec<Membership>, StoreFault>
    ensures { Reads (K.standing keeper.old) (K.standing keeper.new) result
        (λ o pairs. set_of pairs.items ≡ o.pairs) }
{
    let pairs = keeper.pairs(alloc)?;
    Ok(pairs.list()?)
}

/// A shortest chain to each principal to which a caller belongs.
fn chains_at<K: Keeper>(
    alloc: Global,
    keeper: &mut K,
    caller: &Caller,
) -> Result<Items<Chain>, StoreFault>
    ensures { Reads (K.standing keeper.old) (K.standing keeper.new) result
        (λ o chains. AreChainsOf o.pairs caller.now chains) }
{
    let pairs = listed_pairs(alloc, keeper)?;
    Ok(chains_of(alloc, pairs.as_slice(), caller)?)
}

/// What decides each need of a request, for its caller, with the chains by which it belongs to principals. An error is
/// want of memory or a failure of the store.
pub fn why_of<K: Keeper>(alloc: Global, keeper: &mut K, needed: &Needed) -> Result<Why, StoreFault>
    ensures { Reads (K.standing keeper.old) (K.standing keeper.new) result
        (λ o why. IsWhy o needed.now why) }
{
    let circle = keeper.circle(alloc, &needed.caller)?;
    let whys = why_each(alloc, keeper, &circle, needed.needs.as_slice())?;
    let chains = chains_at(alloc, keeper, &needed.caller)?;
    Ok(Why {
        needs: Items::from_vec(whys),
        chains,
    })
}
