//! The Office: everything that is kept, by kind of resource.

ghost use Rattle.std.specs.Prelude.{◌≡◌, filter, is_some, IfOk, OnOk};
ghost use Rattle.std.specs.FinMap.{get};
ghost use Rattle.book_office_values.specs.Changes.{Change, above, changes_after, first_of, with_number};
ghost use Rattle.book_office_values.specs.Fresh.{empty_properties};

use crate::collections::{Changes, Items, NameMap, NumberMap, Text};
use book_lists::{Entry, Name, Pairs, Principal};
use std::alloc::{AllocError, Global};

/// A resource other than a card: its owner, if it has one, its label (`displayname`, RFC 4918, section 15.2), and its
/// protected and own lists of entries (RFC 3744, section 5.5), each in stored order.
#[derive(Debug, Drop)]
pub struct Properties {
    /// The person or group that owns it.
    pub owner: Option<Principal>,
    /// At most 256 bytes.
    pub label: Text,
    /// The entries that a policy protects, at most 64.
    pub protected: Items<Entry>,
    /// The entries that an ACL request replaces, at most 64.
    pub own: Items<Entry>,
}

impl Properties {
    /// An empty label and empty lists. Takes no memory.
    pub fn empty(alloc: Global, owner: Option<Principal>) -> Properties
        ensures { result ≡ empty_properties owner }
    {
        Properties {
            owner,
            label: Text::from_string(String::new(alloc)),
            protected: Items::new(alloc),
            own: Items::new(alloc),
        }
    }
}

/// A card: it has a text, and no protected entries.
#[derive(Debug, Drop)]
pub struct StoredCard {
    /// The person or group that owns it.
    pub owner: Option<Principal>,
    /// At most 256 bytes.
    pub label: Text,
    /// The entries that an ACL request replaces, at most 64.
    pub own: Items<Entry>,
    /// At most 65,536 bytes, kept as they were sent.
    pub text: Text,
}

/// A book: its cards by name, and the numbers of their last changes.
#[derive(Debug, Drop)]
pub struct Book {
    /// The book's owner, label and lists.
    pub properties: Properties,
    /// At most 10,000.
    pub cards: NameMap<StoredCard>,
    /// The last change of each name that was ever there. A removed name is one with a last change and no card.
    pub changes: Changes,
}

impl Book {
    /// The last changes above a number of the names that have a card, in order of number: each number with its name.
    /// They are the first so many, and all where no most is given. An error is want of memory.
    ///
    /// Where the names that were ever there are at most 8 times the cards, it looks at each later change up to the
    /// last that it answers, so that all pages of a report together look at each change once. Else it goes through the
    /// names of the cards, and looks at no removed name.
    pub fn card_changes_after(
        &self,
        alloc: Global,
        number: u64,
        at_most: Option<u32>,
    ) -> Result<Items<(u64, Name)>, AllocError>
        ensures { IfOk result (λ changes. changes ≡ first_of at_most
            (filter (λ (c : Change). is_some (get self.now.cards c.1))
            (changes_after self.now.changes.last number))) }
    {
        if self.are_few_removed() {
            self.changes
                .after_among(alloc, number, at_most, &self.cards)
        } else {
            self.changes_by_card(alloc, number, at_most)
        }
    }

    /// Whether the names that were ever there are at most 8 times the cards.
    fn are_few_removed(&self) -> bool {
        self.changes.len() <= self.cards.len().saturating_mul(8)
    }

    /// The same by the names of the cards: each is looked up, and those that changed later are put in order of number.
    fn changes_by_card(
        &self,
        alloc: Global,
        number: u64,
        at_most: Option<u32>,
    ) -> Result<Items<(u64, Name)>, AllocError>
        ensures { IfOk result (λ changes. changes ≡ first_of at_most
            (filter (λ (c : Change). is_some (get self.now.cards c.1))
            (changes_after self.now.changes.last number))) }
    {
        self.changes.known();
        let mut names = NumberMap::new(alloc);
        for (name, _card) in self.cards.iter() {
            enter(&mut names, above(number, self.changes.get(name)), name)?;
        }
        names.after(alloc, number, at_most)
    }
}

/// A number, if there is one above the first.
fn above(first: u64, number: Option<u64>) -> Option<u64>
    ensures { result ≡ above first number }
{
    match number {
        Some(number) if number > first => Some(number),
        _ => None,
    }
}

/// Enters a name under the number of its last change, if it has one.
fn enter(names: &mut NumberMap, number: Option<u64>, name: &Name) -> Result<(), AllocError>
    ensures { OnOk result (names.new ≡ with_number names.old number name.now) }
{
    match number {
        Some(number) => names.insert(number, name.clone()?),
        None => Ok(()),
    }
}

/// Everything that is kept.
#[derive(Debug, Drop)]
pub struct Office {
    /// `/`.
    pub root: Properties,
    /// `/people`.
    pub people: Properties,
    /// `/groups`.
    pub groups_home: Properties,
    /// `/books`.
    pub books_home: Properties,
    /// `/people/N`, by name.
    pub persons: NameMap<Properties>,
    /// `/groups/N`, by name.
    pub groups: NameMap<Properties>,
    /// `/books/B`, by name, at most 1,000.
    pub books: NameMap<Book>,
    /// The direct members of the groups (RFC 3744, section 4.3).
    pub pairs: Pairs,
    /// The access epoch: how often access changed (own profile). A sync token (RFC 6578) of an earlier epoch is no longer valid.
    pub epoch: u64,
}
