//! The texts of a book's cards on which one leaf is granted, and what is kept of them.

ghost use Rattle.std.specs.Prelude.{◌≡◌, ℕ, List, IfOk, OnOk, option_map};
ghost use Rattle.std.specs.FinMap.{get, empty};
ghost use Rattle.book_office.specs.Keeping.{Reads};
ghost use Rattle.book_office_sync.specs.Granted.{text_at, text_of, put_text, put_texts};

use crate::pages::{PAGE, Page, read_page};
use crate::reports::{Above, above_cards, is_granted};
use book_lists::{Circle, Here, Name};
use book_office::{Changed, Items, Keeper, StoreFault};
use book_office_values::{NameMap, StoredCard, Text};
use book_rights::Leaf;
use std::alloc::{AllocError, Global};

/// What is kept of a card's text, once the text is let go.
pub trait FromText: Drop {
    ghost from_text_gives: { List ℕ → Self };

    /// What is kept of the text. An error is want of memory.
    fn from_text(alloc: Global, text: &str) -> Result<Self, AllocError>
        ensures { IfOk result (λ kept. kept ≡ from_text_gives text.now) };
}

/// The card's text, where there is a card and the leaf is granted at it. The text is handed on.
fn text_of(above: &Above, circle: &Circle, leaf: Leaf, card: Option<StoredCard>) -> Option<Text>
    ensures { result ≡ text_of above.now circle.now leaf card }
{
    let Some(card) = card else {
        return None;
    };
    let StoredCard {
        owner,
        own,
        text,
        ..
    } = card;
    let here = Here {
        owner,
        principal: None,
    };
    if is_granted(above, circle, &here, &own, leaf) {
        Some(text)
    } else {
        None
    }
}

/// Puts in what is kept of the text, if there is one. The text is let go.
fn put_text<T: FromText>(
    alloc: Global,
    told: &mut NameMap<T>,
    name: Name,
    text: Option<Text>,
) -> Result<(), AllocError>
    ensures { OnOk result (told.new ≡ put_text T.FromText.from_text_gives told.old name text) }
{
    if let Some(text) = text {
        let kept = T::from_text(alloc, text.as_str())?;
        let _before = told.insert(name, kept)?;
    }
    Ok(())
}

/// Puts in what is kept of the texts of the changes' cards. The changes are let go.
fn put_texts<T: FromText>(
    alloc: Global,
    told: &mut NameMap<T>,
    above: &Above,
    circle: &Circle,
    leaf: Leaf,
    changes: Items<Changed>,
) -> Result<(), AllocError>
    ensures { OnOk result (told.new ≡ put_texts T.FromText.from_text_gives above.now circle.now leaf
        changes told.old) }
{
    for change in changes.into_vec() {
        let Changed { name, card, .. } = change;
        let text = text_of(above, circle, leaf, card);
        put_text(alloc, told, name, text)?;
    }
    Ok(())
}

/// What is kept of the texts of the cards of a book on which the leaf is granted, by name; nothing where there is no
/// such book. The lists above the cards are read once, and then the cards in pages of at most 500; no more than a page
/// of texts is held at a time. An error is want of memory or a failure of the store.
pub fn texts_granted<K: Keeper, T: FromText>(
    alloc: Global,
    keeper: &mut K,
    circle: &Circle,
    book: &Name,
    leaf: Leaf,
) -> Result<NameMap<T>, StoreFault>
    ensures { Reads (K.standing keeper.old) (K.standing keeper.new) result
        (λ o told. (c : List ℕ) → get told c ≡ option_map T.FromText.from_text_gives
        (text_at o circle.now book.now leaf c)) }
{
    let above = above_cards(alloc, keeper, circle, book)?;
    let mut told = NameMap::new(alloc);
    let mut after = 0;
    'pages: for _page in 0..u64::MAX {
        let Page { changes, next } = read_page(alloc, keeper, book, None, after, PAGE)?;
        put_texts(alloc, &mut told, &above, circle, leaf, changes)?;
        let Some(number) = next else {
            return Ok(told);
        };
        after = number;
    }
    Ok(told)
}
