//! The cards of a book in two Offices, by name.

ghost use Rattle.std.specs.Prelude.{◌≡◌, ◌++◌, ◌∷◌, [], IfOk, OnOk, map};
ghost use Rattle.std.specs.FinMap as maps;
ghost use Rattle.book_questions_differs.specs.Pairs.{only_after, paired, pairs_with, with_cards};

use book_lists::Name;
use book_office::Listed;
use book_office_values::{Items, NameMap};
use std::alloc::{AllocError, Global};

/// A card of a book in two Offices: it is there in one of them or in both.
#[derive(Debug, Drop)]
pub struct CardPair {
    /// Its name.
    pub name: Name,
    /// The card in the Office before, if it is there.
    pub before: Option<Listed>,
    /// The card in the Office after, if it is there.
    pub after: Option<Listed>,
}

/// Cards, each at its name.
fn by_name(alloc: Global, cards: Items<Listed>) -> Result<NameMap<Listed>, AllocError>
    ensures { IfOk result (λ named. named ≡ with_cards maps.empty cards) }
{
    let mut named = NameMap::new(alloc);
    for card in cards.into_vec() {
        let _before = named.insert(card.name.clone()?, card)?;
    }
    Ok(named)
}

/// Adds a card with that of its name among others, which is taken out.
fn push_pair(
    pairs: &mut Vec<CardPair>,
    others: &mut NameMap<Listed>,
    card: Listed,
) -> Result<(), AllocError>
    ensures pair { OnOk result (pairs.new.items ≡ pairs.old.items ++ record {
      name = card.name;
      before = Some card;
      after = maps.get others.old card.name;
    } ∷ []) }
    ensures left { OnOk result (others.new ≡ maps.remove others.old card.name) }
{
    let name = card.name.clone()?;
    let after = others.remove(&name);
    pairs.push(CardPair {
        name,
        before: Some(card),
        after,
    })?;
    Ok(())
}

/// Adds each card of others alone.
fn push_others(pairs: &mut Vec<CardPair>, others: NameMap<Listed>) -> Result<(), AllocError>
    ensures { OnOk result (pairs.new.items ≡
        pairs.old.items ++ map only_after (maps.entries others)) }
{
    for (name, card) in others.into_entries() {
        pairs.push(CardPair {
            name,
            before: None,
            after: Some(card),
        })?;
    }
    Ok(())
}

/// Adds each card with that of its name among others, and then the others that are left.
fn push_pairs(
    pairs: &mut Vec<CardPair>,
    others: NameMap<Listed>,
    cards: Vec<Listed>,
) -> Result<(), AllocError>
    ensures { OnOk result (pairs.new.items ≡ pairs.old.items ++ pairs_with others cards.items) }
{
    let mut others = others;
    for card in cards {
        push_pair(pairs, &mut others, card)?;
    }
    push_others(pairs, others)
}

/// The cards of two lists, by name.
pub(crate) fn paired(
    alloc: Global,
    before: Items<Listed>,
    after: Items<Listed>,
) -> Result<Vec<CardPair>, AllocError>
    ensures { IfOk result (λ pairs. pairs.items ≡ paired before after) }
{
    let others = by_name(alloc, after)?;
    let mut pairs = Vec::new(alloc);
    push_pairs(&mut pairs, others, before.into_vec())?;
    Ok(pairs)
}
