//! Everybody, with what decides at a resource.

ghost use Rattle.std.specs.Prelude.{◌≡◌, ◌∷◌, map, IfOk, string_bytes};
ghost use Rattle.book_lists.specs.declared.circles.Caller.TheVariants.{Nobody};
ghost use Rattle.book_lists.specs.Memberships.{set_of};
ghost use Rattle.book_office.specs.Keeping.{Reads};
ghost use Rattle.book_office.specs.Levels.{effective_at, effective_of};
ghost use Rattle.book_office_listings.specs.Verdicts.{here_of};
ghost use Rattle.book_questions.specs.Who.{AreAsked, AreHolders, IsHolder, IsWhoText, callers_of, known_caller};

use crate::rulings::{here_at, in_force, listed_pairs};
use crate::who_lines::who_text;
use book_lists::{Caller, Here, Membership, Principal};
use book_office::{Keeper, Level, Listed, StoreFault};
use book_office_listings::{Ruling, rulings};
use book_office_values::{Items, Path};
use book_questions_chains::{Chain, chains_of};
use book_rights::LeafSet;
use std::alloc::{AllocError, Global};

/// A caller, with one ruling for each leaf that there is, in order.
#[derive(Debug, Drop)]
pub struct Holder {
    /// Who may ask.
    pub caller: Caller,
    /// The rulings.
    pub rulings: Items<Ruling>,
    /// A shortest chain to each principal to which the caller belongs.
    pub chains: Items<Chain>,
}

/// Nobody, and each of these persons.
fn callers_in(alloc: Global, persons: &[Listed]) -> Result<Vec<Caller>, AllocError>
    ensures { IfOk result (λ callers. callers.items ≡ Nobody ∷ map known_caller persons.now) }
{
    let mut callers = Vec::new(alloc);
    callers.push(Caller::Nobody)?;
    for person in persons {
        callers.push(Caller::Known(Principal::person(alloc, &person.name)?))?;
    }
    Ok(callers)
}

/// The callers that there are: nobody, and each person in byte order of the names. An error is want of memory or a failure of
/// the store.
pub fn callers_of<K: Keeper>(alloc: Global, keeper: &mut K) -> Result<Items<Caller>, StoreFault>
    ensures { Reads (K.standing keeper.old) (K.standing keeper.new) result
        (λ o callers. callers ≡ callers_of o) }
{
    let persons = keeper.children(alloc, &Path::People)?;
    Ok(Items::from_vec(callers_in(alloc, persons.as_slice())?))
}

/// A caller with the rulings by levels.
fn holder_of<K: Keeper>(
    alloc: Global,
    keeper: &mut K,
    pairs: &[Membership],
    levels: &[Level],
    here: &Here,
    caller: &Caller,
) -> Result<Holder, StoreFault>
    ensures { Reads (K.standing keeper.old) (K.standing keeper.new) result
        (λ o holder. IsHolder o.pairs (set_of pairs.now)
        (effective_of levels.now) here.now caller.now holder) }
{
    let circle = keeper.circle(alloc, caller)?;
    let rulings = rulings(alloc, levels, &circle, here)?;
    let chains = chains_of(alloc, pairs, caller)?;
    let caller = caller.clone()?;
    Ok(Holder {
        caller,
        rulings,
        chains,
    })
}

/// Each caller with the rulings by levels.
fn holder_each<K: Keeper>(
    alloc: Global,
    keeper: &mut K,
    pairs: &[Membership],
    levels: &[Level],
    here: &Here,
    callers: &[Caller],
) -> Result<Vec<Holder>, StoreFault>
    ensures { Reads (K.standing keeper.old) (K.standing keeper.new) result
        (λ o holders. AreHolders o.pairs (set_of pairs.now)
        (effective_of levels.now) here.now callers.now holders.items) }
{
    let mut holders = Vec::new(alloc);
    for caller in callers {
        let holder = match holder_of(alloc, keeper, pairs, levels, here, caller) {
            Ok(holder) => holder,
            Err(fault) => return Err(fault),
        };
        if holders.push(holder).is_err() {
            return Err(StoreFault::Memory);
        }
    }
    Ok(holders)
}

/// Each caller with the rulings at a path, whose levels are read once.
fn holders_among<K: Keeper>(
    alloc: Global,
    keeper: &mut K,
    path: &Path,
    callers: &[Caller],
) -> Result<Vec<Holder>, StoreFault>
    ensures { Reads (K.standing keeper.old) (K.standing keeper.new) result
        (λ o holders. AreHolders o.pairs o.pairs (effective_at o path.now)
        (here_of o path.now) callers.now holders.items) }
{
    let here = here_at(alloc, keeper, path)?;
    let lists = keeper.lists(alloc, path)?;
    let pairs = listed_pairs(alloc, keeper)?;
    let holders = holder_each(
        alloc,
        keeper,
        pairs.as_slice(),
        lists.levels.as_slice(),
        &here,
        callers,
    );
    drop(pairs);
    drop(lists);
    drop(here);
    holders
}

/// Everybody with the rulings at a path, whose levels are read once: nobody, and each person in byte order of the names. An
/// error is want of memory or a failure of the store.
pub fn holders_at<K: Keeper>(
    alloc: Global,
    keeper: &mut K,
    path: &Path,
) -> Result<Items<Holder>, StoreFault>
    ensures { Reads (K.standing keeper.old) (K.standing keeper.new) result
        (λ o holders. AreAsked o path.now holders) }
{
    let callers = callers_of(alloc, keeper)?;
    let holders = holders_among(alloc, keeper, path, callers.as_slice());
    drop(callers);
    Ok(Items::from_vec(holders?))
}

/// The lines of everybody to whom a set is granted at a path, or of everybody else.
pub(crate) fn told_at<K: Keeper>(
    alloc: Global,
    keeper: &mut K,
    path: &Path,
    denied: bool,
    set: LeafSet,
) -> Result<String, StoreFault>
    ensures { Reads (K.standing keeper.old) (K.standing keeper.new) result
        (λ o text. IsWhoText o denied path.now set (string_bytes text)) }
{
    let holders = holders_at(alloc, keeper, path)?;
    let force = in_force(alloc, keeper, path)?;
    match who_text(alloc, denied, &force, set, holders.as_slice()) {
        Ok(text) => Ok(text),
        Err(_) => Err(StoreFault::Memory),
    }
}
