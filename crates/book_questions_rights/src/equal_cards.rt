//! Which cards are told once: those of a book whose owners and own lists are equal, for which every decision is the
//! same.

ghost use Rattle.std.specs.Prelude.{◌≡◌, ◌↔◌, count_by, IsTrue};
ghost use Rattle.std.specs.List.{list_any};
ghost use Rattle.book_questions_rights.specs.EqualCards.{is_alike};

use book_lists::{Entry, Principal, Who};
use book_office::Listed;

/// Whether two owners are equal.
fn same_owner(owner: &Option<Principal>, other: &Option<Principal>) -> bool
    ensures { IsTrue result ↔ (owner.now ≡ other.now) }
{
    owner == other
}

/// Whether two forms are equal.
fn same_form(who: &Who, other: &Who) -> bool
    ensures { IsTrue result ↔ (who.now ≡ other.now) }
{
    who == other
}

/// Whether two entries are equal.
fn same_entry(entry: &Entry, other: &Entry) -> bool
    ensures { IsTrue result ↔ (entry.now ≡ other.now) }
{
    same_form(&entry.who, &other.who)
        && entry.invert == other.invert
        && entry.deny == other.deny
        && entry.set == other.set
}

/// Whether two lists are equal.
fn same_list(list: &[Entry], other: &[Entry]) -> bool
    ensures { IsTrue result ↔ (list.now ≡ other.now) }
{
    if list.len() != other.len() {
        return false;
    }
    for (i, entry) in list.iter().enumerate() {
        if !same_entry(entry, &other[i]) {
            return false;
        }
    }
    true
}

/// Whether two cards have equal owners and equal own lists.
fn is_alike(card: &Listed, other: &Listed) -> bool
    ensures { result ≡ is_alike card.now other.now }
{
    same_owner(&card.owner, &other.owner) && same_list(card.own.as_slice(), other.own.as_slice())
}

/// Whether one of these cards is like the card.
pub fn is_told(card: &Listed, before: &[Listed]) -> bool
    ensures { result ≡ list_any (is_alike card.now) before.now }
{
    before.iter().any(|other| is_alike(card, other))
}

/// How many of these cards are like the card.
pub fn count_alike(card: &Listed, cards: &[Listed]) -> usize
    ensures { result ≡ count_by (is_alike card.now) cards.now }
{
    cards.iter().filter(|other| is_alike(card, other)).count()
}
