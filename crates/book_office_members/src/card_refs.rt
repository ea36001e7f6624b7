//! Cards, as the members of groups ask of them.

ghost use Rattle.std.specs.Prelude.{◌≡◌};
ghost use Rattle.std.specs.Option.{option_copied};
ghost use Rattle.book_office_members.specs.Steps.{card_named};

use book_lists::Name;
use book_office_values::{Items, Text};

/// A card: its name, and what it says of itself and of others.
#[derive(Debug, Drop)]
pub struct CardRef {
    /// Its name in its book.
    pub name: Name,
    /// The value of its UID, if it has one (RFC 6350, section 6.7.6).
    pub uid: Option<Text>,
    /// The values of its MEMBER lines, in order (RFC 6350, section 6.6.5); a group alone has any.
    pub members: Items<Text>,
}

/// The first card with the name.
pub(crate) fn card_named<'a>(cards: &'a [CardRef], name: &Name) -> Option<&'a CardRef>
    ensures { option_copied result ≡ card_named cards.entry.now name.now }
{
    for card in cards {
        if card.name == *name {
            return Some(card);
        }
    }
    None
}
