//! The report on the names of a book's cards.

ghost use Rattle.std.specs.Prelude.{◌≡◌, IfOk, map};
ghost use Rattle.std.specs.FinMap.{entries};
ghost use Rattle.book_office.specs.Keeping.{Reads};
ghost use Rattle.book_office_members.specs.Names.{AreNamesAt, name_told, named_card};

use book_cards::{CardFaultKind, read_card};
use book_lists::{Circle, Name};
use book_office::{Keeper, StoreFault};
use book_office_sync::{FromText, texts_granted};
use book_office_values::{Items, NameMap, Text};
use book_rights::Leaf;
use std::alloc::{AllocError, Global};
use std::marker::Model;

/// A card of a book, as who may read names alone is told of it.
#[derive(Debug, Drop)]
pub struct NamedCard {
    /// Its name in the book.
    pub name: Name,
    /// The value of its first FN as written; none where its text is no card.
    pub formatted: Option<Text>,
}

/// The name that a text says: the value of its first FN as written; none where the text is no card.
#[derive(Debug, Drop)]
struct NameSaid {
    formatted: Option<Text>,
}

impl Model for NameSaid {
    ghost use Rattle.std.specs.Prelude.{ℕ, List, Option};
    ghost use Rattle.std.specs.Coded.{coded_ℕ, coded_list, coded_option};

    ghost Value = { Option (List ℕ) };

    ghost coded = { coded_option (coded_list coded_ℕ) };

    ghost view = { λ n. n.formatted };
}

impl FromText for NameSaid {
    ghost from_text_gives = { name_told };

    fn from_text(alloc: Global, text: &str) -> Result<NameSaid, AllocError> {
        match read_card(alloc, text) {
            Ok(card) => {
                let name = Text::copy_of(alloc, card.formatted())?;
                Ok(NameSaid {
                    formatted: Some(name),
                })
            }
            Err(fault) => {
                if fault.kind == CardFaultKind::Memory {
                    return Err(AllocError);
                }
                Ok(NameSaid { formatted: None })
            }
        }
    }
}

/// The cards, in byte order of their names.
fn named(alloc: Global, names: NameMap<NameSaid>) -> Result<Items<NamedCard>, AllocError>
    ensures { IfOk result (λ cards. cards ≡ map named_card (entries names)) }
{
    let mut cards = Vec::with_capacity(alloc, names.len())?;
    for (name, said) in names.into_entries() {
        let NameSaid { formatted } = said;
        cards.push(NamedCard { name, formatted })?;
    }
    Ok(Items::from_vec(cards))
}

/// The names of the cards of a book on which `x-read-names` is granted to who has this circle, in byte order; none where
/// there is no such book. An error is want of memory or a failure of the store.
///
/// The book is read once, as for an initial sync report, and each text that may be named once. The names are held, and
/// of the texts no more than a page of the book (at most 500 cards).
pub fn names_told<K: Keeper>(
    alloc: Global,
    keeper: &mut K,
    circle: &Circle,
    book: &Name,
) -> Result<Items<NamedCard>, StoreFault>
    ensures { Reads (K.standing keeper.old) (K.standing keeper.new) result
        (λ o names. AreNamesAt o circle.now book.now names) }
{
    let names: NameMap<NameSaid> = texts_granted(alloc, keeper, circle, book, Leaf::ReadNames)?;
    Ok(named(alloc, names)?)
}
