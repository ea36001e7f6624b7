//! What is read of an Office for a text of `explain`.

ghost use Rattle.std.specs.Prelude.{◌≡◌, IfOk};
ghost use Rattle.book_lists.specs.Circles.{belongs};
ghost use Rattle.book_office.specs.Keeping.{Reads};
ghost use Rattle.book_office_listings.specs.Verdicts.{bare_entries};
ghost use Rattle.book_questions_asked.specs.Stated.{IsStated, leading, stated_of};

use crate::stated::{Asked, Stated};
use book_lists::{Circle, Entry, Membership};
use book_office::{EffectiveEntry, Keeper, StoreFault};
use book_office_values::Items;
use book_questions::{InForce, in_force, listed_pairs};
use book_rights::LeafSet;
use std::alloc::{AllocError, Global};

/// Whether the caller of a circle belongs to the member.
fn leads(pair: &Membership, circle: &Circle) -> bool
    ensures { result ≡ belongs circle.now pair.now.member }
{
    circle.has(&pair.member)
}

/// The memberships on chains to the caller of a circle.
fn leading(pairs: Vec<Membership>, circle: &Circle) -> Vec<Membership>
    ensures { result.items ≡ leading circle.now pairs.items }
{
    let mut pairs = pairs;
    pairs.retain(|pair| leads(pair, circle));
    pairs
}

/// The entries of an effective list.
fn bare_entries(alloc: Global, list: &[EffectiveEntry]) -> Result<Vec<Entry>, AllocError>
    ensures { IfOk result (λ entries. entries.items ≡ bare_entries list.now) }
{
    let mut entries = Vec::new(alloc);
    for entry in list {
        entries.push(entry.entry.clone()?)?;
    }
    Ok(entries)
}

/// What is stated, of what was read.
fn stated_of(
    alloc: Global,
    asked: &Asked,
    set: LeafSet,
    pairs: Vec<Membership>,
    circle: &Circle,
    force: InForce,
) -> Result<Stated, AllocError>
    ensures { IfOk result (λ stated. stated ≡
        stated_of asked.now set pairs.items circle.now force) }
{
    let entries = bare_entries(alloc, force.list.as_slice())?;
    let caller = asked.caller.clone()?;
    Ok(Stated {
        members: Items::from_vec(leading(pairs, circle)),
        caller,
        here: force.here,
        set,
        entries: Items::from_vec(entries),
    })
}

/// What a decision on leaves rests on.
pub(crate) fn read_stated<K: Keeper>(
    alloc: Global,
    keeper: &mut K,
    asked: &Asked,
    set: LeafSet,
) -> Result<Stated, StoreFault>
    ensures { Reads (K.standing keeper.old) (K.standing keeper.new) result
        (λ o stated. IsStated o asked.now set stated) }
{
    let pairs = listed_pairs(alloc, keeper)?;
    let circle = keeper.circle(alloc, &asked.caller)?;
    let force = in_force(alloc, keeper, &asked.at)?;
    Ok(stated_of(alloc, asked, set, pairs, &circle, force)?)
}
