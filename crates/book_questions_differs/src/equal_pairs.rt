//! Which cards are told once: those of a book whose owners and own lists are equal in both Offices, for which every
//! decision is the same.

ghost use Rattle.std.specs.Prelude.{◌≡◌, ◌↔◌, count_by, IsTrue};
ghost use Rattle.std.specs.List.{list_any};
ghost use Rattle.book_questions_rights.specs.EqualCards.{is_alike};
ghost use Rattle.book_questions_differs.specs.Pairs.{are_alike, is_alike_in};

use crate::pairs::CardPair;
use book_lists::{Entry, Principal};
use book_office::Listed;

/// Whether two owners are equal.
pub fn same_owner(owner: &Option<Principal>, other: &Option<Principal>) -> bool
    ensures { IsTrue result ↔ (owner.now ≡ other.now) }
{
    owner == other
}

/// Whether two entries are equal.
fn same_entry(entry: &Entry, other: &Entry) -> bool
    ensures { IsTrue result ↔ (entry.now ≡ other.now) }
{
    entry.who == other.who
        && entry.invert == other.invert
        && entry.deny == other.deny
        && entry.set == other.set
}

/// Whether two lists are equal, entry by entry.
pub fn same_list(list: &[Entry], other: &[Entry]) -> bool
    ensures { IsTrue result ↔ (list.now ≡ other.now) }
{
    if list.len() != other.len() {
        return false;
    }
    for (i, entry) in list.iter().enumerate() {
        if !same_entry(entry, &other[i]) {
            return false;
        }
    }
    true
}

/// Whether two cards have equal owners and equal own lists.
fn is_alike(card: &Listed, other: &Listed) -> bool
    ensures { result ≡ is_alike card.now other.now }
{
    same_owner(&card.owner, &other.owner) && same_list(card.own.as_slice(), other.own.as_slice())
}

/// Whether both cards are there with equal owners and own lists, or none is there.
fn is_alike_in(card: &Option<Listed>, other: &Option<Listed>) -> bool
    ensures { result ≡ is_alike_in card.now other.now }
{
    match card {
        Some(card) => match other {
            Some(other) => is_alike(card, other),
            None => false,
        },
        None => other.is_none(),
    }
}

/// Whether two cards have equal owners and own lists in both Offices.
fn are_alike(pair: &CardPair, other: &CardPair) -> bool
    ensures { result ≡ are_alike pair.now other.now }
{
    is_alike_in(&pair.before, &other.before) && is_alike_in(&pair.after, &other.after)
}

/// Whether one of these cards is like the card.
pub(crate) fn is_told(pair: &CardPair, before: &[CardPair]) -> bool
    ensures { result ≡ list_any (are_alike pair.now) before.now }
{
    before.iter().any(|other| are_alike(pair, other))
}

/// How many of these cards are like the card.
pub(crate) fn count_alike(pair: &CardPair, pairs: &[CardPair]) -> usize
    ensures { result ≡ count_by (are_alike pair.now) pairs.now }
{
    pairs.iter().filter(|other| are_alike(pair, other)).count()
}
