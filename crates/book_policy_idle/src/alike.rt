//! Whether the same is decided without an entry.

ghost use Rattle.std.specs.Prelude.{◌≡◌, ◌↔◌, ◌++◌, ◌∷◌, [], true, false, All, IfOk, IsFalse, OnOk};
ghost use Rattle.book_lists.specs.Entries.{applies};
ghost use Rattle.book_policy_idle.specs.Alike.{AlikeAlong, AlikeAt, AlikeWith, AreDecidedAlike, AreGrantedAlike, CanGo, Differs, IsDecidedAlike, chosen, closes, compared_at, for_everyone, is_chosen, joined, opened, own_list, stands};
ghost use Rattle.book_policy_idle.specs.Idle.{NeverDecides};
ghost use Rattle.book_policy_idle.specs.Marks.{Both, IsScope};

use crate::askers::Asker;
use crate::in_force::Placed;
use crate::scope::Scope;
use crate::spots::Spot;
use book_lists::{Circle, Entry, Here, Who, applies, granted};
use book_office_values::Items;
use book_policy_values::{Policy, PolicyEntry};
use book_rights::LeafSet;
use std::alloc::{AllocError, Global};

/// Which entries of a list are taken.
#[derive(Clone, Copy)]
pub enum Which {
    /// All of them.
    All,
    /// Those with an index.
    Only,
    /// The others.
    Others,
}

/// The entries of a place, of which one is left out or not.
#[derive(Drop)]
pub struct Compared {
    /// All of them.
    pub whole: Items<Entry>,
    /// All but the one.
    pub others: Items<Entry>,
    /// All of them, and behind them one that grants each leaf to everybody.
    pub whole_opened: Items<Entry>,
    /// All but the one, and behind them one that grants each leaf to everybody.
    pub others_opened: Items<Entry>,
    /// The one alone.
    pub only: Items<Entry>,
}

/// Whether an entry is taken, by whether it has the index.
fn is_chosen(which: Which, same: bool) -> bool
    ensures { result ≡ is_chosen which same }
{
    match which {
        Which::All => true,
        Which::Only => same,
        Which::Others => !same,
    }
}

/// Adds an entry, where it is taken.
fn add_choice(
    which: Which,
    index: usize,
    placed: &Placed,
    entries: &mut Items<Entry>,
) -> Result<(), AllocError>
    ensures { OnOk result (entries.new ≡ entries.old ++ chosen which index (placed.now ∷ [])) }
{
    if is_chosen(which, placed.index == index) {
        entries.push(placed.entry.clone()?)?;
    }
    Ok(())
}

/// Adds those of a list that are taken.
fn add_chosen(
    which: Which,
    index: usize,
    list: &[Placed],
    entries: &mut Items<Entry>,
) -> Result<(), AllocError>
    ensures { OnOk result (entries.new ≡ entries.old ++ chosen which index list.now) }
{
    for placed in list {
        add_choice(which, index, placed, entries)?;
    }
    Ok(())
}

/// An entry that decides each leaf for everybody.
fn for_everyone(deny: bool) -> Entry
    ensures { result ≡ for_everyone deny }
{
    Entry {
        who: Who::Everyone,
        invert: false,
        deny,
        set: LeafSet::all(),
    }
}

/// Adds an own list: an entry for everybody, or none.
fn add_own(own: Option<bool>, entries: &mut Items<Entry>) -> Result<(), AllocError>
    ensures { OnOk result (entries.new ≡ entries.old ++ own_list own) }
{
    match own {
        Some(deny) => entries.push(for_everyone(deny)),
        None => Ok(()),
    }
}

/// The entries that are taken of a place, with an own list.
fn joined(
    alloc: Global,
    which: Which,
    index: usize,
    own: Option<bool>,
    spot: &Spot,
) -> Result<Items<Entry>, AllocError>
    ensures { IfOk result (λ list. list ≡ joined which index (own_list own) spot.now) }
{
    let mut entries = Items::new(alloc);
    add_chosen(which, index, spot.protected.as_slice(), &mut entries)?;
    add_own(own, &mut entries)?;
    add_chosen(which, index, spot.rest.as_slice(), &mut entries)?;
    Ok(entries)
}

/// The entries that are taken of a place, with an own list, and behind them one that grants each leaf to everybody.
fn opened(
    alloc: Global,
    which: Which,
    index: usize,
    own: Option<bool>,
    spot: &Spot,
) -> Result<Items<Entry>, AllocError>
    ensures { IfOk result (λ list. list ≡ opened which index (own_list own) spot.now) }
{
    let mut entries = joined(alloc, which, index, own, spot)?;
    entries.push(for_everyone(false))?;
    Ok(entries)
}

/// The entries of a place, with and without the one with an index.
fn compared_at(
    alloc: Global,
    index: usize,
    own: Option<bool>,
    spot: &Spot,
) -> Result<Compared, AllocError>
    ensures { IfOk result (λ compared. compared ≡ compared_at index own spot.now) }
{
    Ok(Compared {
        whole: joined(alloc, Which::All, index, own, spot)?,
        others: joined(alloc, Which::Others, index, own, spot)?,
        whole_opened: opened(alloc, Which::All, index, own, spot)?,
        others_opened: opened(alloc, Which::Others, index, own, spot)?,
        only: joined(alloc, Which::Only, index, None, spot)?,
    })
}

/// Whether any of the entries applies.
fn applies_any(entries: &[Entry], circle: &Circle, here: &Here) -> bool
    ensures { IsFalse result → All (λ entry. applies entry circle.now here.now ≡ false)
        entries.now }
{
    for entry in entries {
        if applies(entry, circle, here) {
            return true;
        }
    }
    false
}

/// Whether two lists grant the same.
fn are_granted_alike(entries: &[Entry], others: &[Entry], circle: &Circle, here: &Here) -> bool
    ensures { (result ≡ true) ↔ AreGrantedAlike entries.now others.now circle.now here.now }
{
    granted(entries, circle, here) == granted(others, circle, here)
}

/// Whether the same is decided with and without an entry: what is granted is the same, and what none decides.
fn is_alike(compared: &Compared, circle: &Circle, here: &Here) -> bool
    requires { Differs compared.now }
    ensures { (result ≡ true) ↔ AreDecidedAlike compared.now.whole compared.now.others
        circle.now here.now }
{
    if !applies_any(compared.only.as_slice(), circle, here) {
        return true;
    }
    let whole = compared.whole.as_slice();
    let others = compared.others.as_slice();
    if !are_granted_alike(whole, others, circle, here) {
        return false;
    }
    let whole_opened = compared.whole_opened.as_slice();
    let others_opened = compared.others_opened.as_slice();
    are_granted_alike(whole_opened, others_opened, circle, here)
}

/// The same for one who asks: at a place, and at a card that they own where it is a book.
fn is_alike_for(compared: &Compared, asker: &Asker, here: &Here, is_book: bool) -> bool
    requires { Differs compared.now }
    ensures { (result ≡ true) ↔ Both (AreDecidedAlike compared.now.whole compared.now.others)
        here.now is_book asker.now }
{
    if !is_alike(compared, &asker.circle, here) {
        return false;
    }
    if !is_book {
        return true;
    }
    is_alike(compared, &asker.circle, &asker.own)
}

/// The same for each who asks.
fn is_alike_for_each(compared: &Compared, askers: &[Asker], here: &Here, is_book: bool) -> bool
    requires { Differs compared.now }
    ensures { (result ≡ true) ↔ All (Both (AreDecidedAlike compared.now.whole
        compared.now.others) here.now is_book) askers.now }
{
    for asker in askers {
        if !is_alike_for(compared, asker, here, is_book) {
            return false;
        }
    }
    true
}

/// Whether the same is decided at a place without an entry, with an own list.
fn is_alike_with(
    alloc: Global,
    index: usize,
    own: Option<bool>,
    spot: &Spot,
    askers: &[Asker],
) -> Result<bool, AllocError>
    ensures { IfOk result (λ alike. (alike ≡ true) ↔ AlikeWith index (own_list own) askers.now
        spot.now) }
{
    let compared = compared_at(alloc, index, own, spot)?;
    let here = &spot.here;
    Ok(is_alike_for_each(&compared, askers, here, spot.is_book))
}

/// Whether the same is decided at a place without a protected entry, whatever own list is there. It is enough to try
/// none, one that grants each leaf to everybody, and one that denies each to everybody.
fn is_alike_with_any(
    alloc: Global,
    index: usize,
    spot: &Spot,
    askers: &[Asker],
) -> Result<bool, AllocError>
    ensures { IfOk result (λ alike. (alike ≡ true) ↔ AlikeAt index askers.now spot.now) }
{
    if !is_alike_with(alloc, index, None, spot, askers)? {
        return Ok(false);
    }
    if !is_alike_with(alloc, index, Some(false), spot, askers)? {
        return Ok(false);
    }
    is_alike_with(alloc, index, Some(true), spot, askers)
}

/// Whether an entry with the index is in the list.
fn stands(index: usize, list: &[Placed]) -> bool
    ensures { result ≡ stands index list.now }
{
    list.iter().any(|placed| placed.index == index)
}

/// Whether the same is decided at a place without an entry, whatever own list is there.
fn is_alike_at(
    alloc: Global,
    index: usize,
    spot: &Spot,
    askers: &[Asker],
) -> Result<bool, AllocError>
    ensures { IfOk result (λ alike. (alike ≡ true) ↔ AlikeAt index askers.now spot.now) }
{
    if stands(index, spot.protected.as_slice()) {
        return is_alike_with_any(alloc, index, spot, askers);
    }
    if !stands(index, spot.rest.as_slice()) {
        return Ok(true);
    }
    is_alike_with(alloc, index, None, spot, askers)
}

/// The same at each place.
fn is_alike_along(
    alloc: Global,
    index: usize,
    spots: &[Spot],
    askers: &[Asker],
) -> Result<bool, AllocError>
    ensures { IfOk result (λ alike. (alike ≡ true) ↔ AlikeAlong index askers.now spots.now) }
{
    for spot in spots {
        if !is_alike_at(alloc, index, spot, askers)? {
            return Ok(false);
        }
    }
    Ok(true)
}

/// Whether the same is decided for anybody without the entry of the policy with an index.
fn is_decided_alike(
    alloc: Global,
    policy: &Policy,
    scope: &Scope,
    index: usize,
) -> Result<bool, AllocError>
    requires { IsScope policy.now scope.now }
    ensures { IfOk result (λ alike. (alike ≡ true) ↔ IsDecidedAlike policy.now index) }
{
    let asking = scope.askers.as_slice();
    let spots = scope.spots.as_slice();
    is_alike_along(alloc, index, spots, asking)
}

/// Whether an entry denies each leaf.
fn closes(entry: &PolicyEntry) -> bool
    ensures { result ≡ closes entry.now }
{
    entry.entry.deny && entry.entry.set == LeafSet::all()
}

/// Whether an entry that decides for somebody, with an index, can be left out: the same is decided without it, and it
/// does not close its place.
pub(crate) fn can_go(
    alloc: Global,
    policy: &Policy,
    scope: &Scope,
    entry: &PolicyEntry,
    index: usize,
) -> Result<bool, AllocError>
    requires scope { IsScope policy.now scope.now }
    requires decides { NeverDecides policy.now index → ⊥ }
    ensures { IfOk result (λ can. (can ≡ true) ↔ CanGo policy.now index entry.now) }
{
    if closes(entry) {
        return Ok(false);
    }
    is_decided_alike(alloc, policy, scope, index)
}
