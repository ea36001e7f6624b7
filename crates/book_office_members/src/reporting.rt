//! The report.

ghost use Rattle.std.specs.Prelude.{IfOk};
ghost use Rattle.std.specs.FinMap.{empty};
ghost use Rattle.book_office.specs.Keeping.{Reads};
ghost use Rattle.book_office_sync.specs.Copies.{patch};
ghost use Rattle.book_office_sync.specs.Views.{viewed};
ghost use Rattle.book_office_members.specs.Members.{AreCardsOf, AreMembersAt, in_order};
ghost use Rattle.book_office_members.specs.Steps.{AreMembersOf, card_named};

use crate::card_refs::CardRef;
use crate::members::{Members, members_among};
use crate::told_cards::{apply_items, in_order};
use book_lists::{Circle, Name};
use book_office::{Keeper, StoreFault};
use book_office_sync::{ViewPage, view_page};
use book_office_values::NameMap;
use std::alloc::{AllocError, Global};

/// The cards of a book that the caller may read, by name; none where there is no such book. They are read page by page.
fn cards_viewed<K: Keeper>(
    alloc: Global,
    keeper: &mut K,
    circle: &Circle,
    book: &Name,
) -> Result<NameMap<CardRef>, StoreFault>
    ensures { Reads (K.standing keeper.old) (K.standing keeper.new) result
        (λ o cards. AreCardsOf (patch empty (viewed o circle.now book.now 0)) cards) }
{
    let mut cards = NameMap::new(alloc);
    let mut after = 0;
    'pages: for _page in 0..u64::MAX {
        let ViewPage { items, next } = view_page(alloc, keeper, circle, book, after)?;
        apply_items(alloc, &mut cards, items)?;
        let Some(number) = next else {
            return Ok(cards);
        };
        after = number;
    }
    Ok(cards)
}

/// The members of a name among cards.
fn members_told(alloc: Global, cards: NameMap<CardRef>, name: &Name) -> Result<Members, AllocError>
    ensures { IfOk result (AreMembersOf (in_order cards) (card_named (in_order cards) name.now)) }
{
    let cards = in_order(alloc, cards)?;
    members_among(alloc, cards.as_slice(), name)
}

/// The members of a card of a book, in the view of the caller with this circle (RFC 6350, section 6.6.5): for each MEMBER
/// line in order the names of the cards whose UID is its value, and the names of all cards that one or more such steps
/// lead to. Cards that the caller may not read count for nothing; nor do texts that are no cards. A name that is not in
/// the view has no members. An error is want of memory or a failure of the store.
///
/// The book is read once, page by page, and each readable card once: of a card its name, its UID and its members are kept.
/// The number of comparisons grows with the cards and the MEMBER lines, and with the logarithm of their number. The answer
/// may be longer than the book: it has a name for each MEMBER line of the card and each card with its UID.
pub fn group_members<K: Keeper>(
    alloc: Global,
    keeper: &mut K,
    circle: &Circle,
    book: &Name,
    card: &Name,
) -> Result<Members, StoreFault>
    ensures { Reads (K.standing keeper.old) (K.standing keeper.new) result
        (λ o members. AreMembersAt o circle.now book.now card.now members) }
{
    let cards = cards_viewed(alloc, keeper, circle, book)?;
    Ok(members_told(alloc, cards, card)?)
}
