//! The cards that items tell, each with its UID and its members.

ghost use Rattle.std.specs.Prelude.{◌≡◌, ℕ, List, IfOk, OnOk, map};
ghost use Rattle.std.specs.FinMap.{entries, insert};
ghost use Rattle.book_cards.specs.CardText.{members_in, uid_in};
ghost use Rattle.book_office_values.specs.Names.{NamesTo};
ghost use Rattle.book_office_sync.specs.Copies.{patch, patched};
ghost use Rattle.book_office_sync.specs.declared.messages.Seen.{Seen};
ghost use Rattle.book_office_members.specs.Members.{AreCardsOf, card_of};

use crate::card_refs::CardRef;
use book_cards::{Card, CardFaultKind, read_card};
use book_lists::Name;
use book_office_sync::Item;
use book_office_values::{Items, NameMap, Text};
use std::alloc::{AllocError, Global};

/// A copy of the UID, if there is one.
fn uid_of(alloc: Global, card: &Card) -> Result<Option<Text>, AllocError>
    ensures { IfOk result (λ uid. uid ≡ uid_in card.now) }
{
    match card.uid() {
        Some(uid) => Ok(Some(Text::copy_of(alloc, uid)?)),
        None => Ok(None),
    }
}

/// Copies of the members, in order.
fn members_of(alloc: Global, card: &Card) -> Result<Vec<Text>, AllocError>
    ensures { IfOk result (λ members. members.items ≡ members_in card.now) }
{
    let mut members = Vec::new(alloc);
    for member in card.members() {
        members.push(Text::copy_of(alloc, member)?)?;
    }
    Ok(members)
}

/// A card with its name, its UID and its members.
fn card_read(alloc: Global, name: Name, card: &Card) -> Result<CardRef, AllocError>
    ensures { IfOk result (λ told. told ≡ record {
      name = name;
      uid = uid_in card.now;
      members = members_in card.now;
    }) }
{
    let uid = uid_of(alloc, card)?;
    let members = members_of(alloc, card)?;
    Ok(CardRef {
        name,
        uid,
        members: Items::from_vec(members),
    })
}

/// The card with this name and text. A text that is no card has no UID and no members.
fn card_of(alloc: Global, name: Name, text: &str) -> Result<CardRef, AllocError>
    ensures { IfOk result (λ card. card ≡ card_of name text.now) }
{
    match read_card(alloc, text) {
        Ok(card) => card_read(alloc, name, &card),
        Err(fault) => {
            if fault.kind == CardFaultKind::Memory {
                return Err(AllocError);
            }
            Ok(CardRef {
                name,
                uid: None,
                members: Items::new(alloc),
            })
        }
    }
}

/// Puts in the card with this name and text.
fn put_card(
    alloc: Global,
    cards: &mut NameMap<CardRef>,
    name: Name,
    text: &str,
) -> Result<(), AllocError>
    ensures { OnOk result (cards.new ≡ insert cards.old name (card_of name text.now)) }
{
    let key = name.clone()?;
    let card = card_of(alloc, name, text)?;
    let _before = cards.insert(key, card)?;
    Ok(())
}

/// Takes over what an item tells.
fn apply_item(alloc: Global, cards: &mut NameMap<CardRef>, item: Item) -> Result<(), AllocError>
    ensures { OnOk result ((copy : NamesTo Seen) → AreCardsOf copy cards.old
        → AreCardsOf (patched copy item item.found) cards.new) }
{
    let Item { name, found, .. } = item;
    match found {
        Some(found) => put_card(alloc, cards, name, found.text.as_str()),
        None => {
            let _before = cards.remove(&name);
            Ok(())
        }
    }
}

/// Takes over what items tell. Each text is read once, and then let go.
pub(crate) fn apply_items(
    alloc: Global,
    cards: &mut NameMap<CardRef>,
    items: Items<Item>,
) -> Result<(), AllocError>
    ensures { OnOk result ((copy : NamesTo Seen) → AreCardsOf copy cards.old
        → AreCardsOf (patch copy items) cards.new) }
{
    for item in items.into_vec() {
        apply_item(alloc, cards, item)?;
    }
    Ok(())
}

/// The cards, in byte order of their names.
pub(crate) fn in_order(alloc: Global, cards: NameMap<CardRef>) -> Result<Vec<CardRef>, AllocError>
    ensures { IfOk result (λ list. list.items ≡ map (λ e. e.1) (entries cards)) }
{
    let mut list = Vec::with_capacity(alloc, cards.len())?;
    for (_, card) in cards.into_entries() {
        list.push(card)?;
    }
    Ok(list)
}
