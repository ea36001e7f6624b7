//! The objects of each place and of its cards, in byte order of the paths.

ghost use Rattle.std.specs.Prelude.{◌≡◌, IfOk, OnOk, string_bytes};
ghost use Rattle.std.specs.List.{flat_map};
ghost use Rattle.book_office_audit.specs.Audits.{gathered, in_order};
ghost use Rattle.book_questions_rights.specs.EqualCards.{class_at};
ghost use Rattle.book_questions_json.specs.HeldBlocks.{card_objects, class_objects, own_object, own_objects, place_objects};

use crate::held::held_lines;
use book_office::Listed;
use book_office_values::Text;
use book_questions_rights::{
    Asker, Blocks, Place, are_told, card_here, card_key, count_alike, entries_with, is_told,
};
use std::alloc::{AllocError, Global};

/// The objects of a place itself.
fn own_lines(alloc: Global, askers: &[Asker], place: &Place, key: &str) -> Result<Text, AllocError>
    ensures { IfOk result (λ lines. key.now ≡ (own_object askers.now place.now).0
        → lines ≡ (own_object askers.now place.now).1) }
{
    let entries = entries_with(alloc, place, &[])?;
    held_lines(alloc, key, None, entries.as_slice(), &place.here, askers)
}

/// Adds the objects of a place itself, but where shared cards alone are told.
fn add_own(
    alloc: Global,
    blocks: &mut Blocks,
    shared: bool,
    askers: &[Asker],
    place: &Place,
) -> Result<(), AllocError>
    ensures { OnOk result (blocks.new ≡ gathered blocks.old
        (own_objects shared askers.now place.now)) }
{
    let told = if shared { false } else { place.itself };
    if !told {
        return Ok(());
    }
    let key = Text::from_string(place.path.text(alloc)?);
    let lines = own_lines(alloc, askers, place, key.as_str())?;
    blocks.add(key, lines)
}

/// Adds the objects of so many cards that are like one.
fn add_class(
    alloc: Global,
    blocks: &mut Blocks,
    shared: bool,
    askers: &[Asker],
    place: &Place,
    card: &Listed,
    count: usize,
) -> Result<(), AllocError>
    ensures { OnOk result (blocks.new ≡ gathered blocks.old
        (class_objects shared askers.now place.now (record { card = card.now; count = count }))) }
{
    let entries = entries_with(alloc, place, card.own.as_slice())?;
    let here = card_here(card)?;
    if !are_told(alloc, shared, askers, place, &here, entries.as_slice())? {
        return Ok(());
    }
    let key = card_key(alloc, place, card)?;
    let lines = held_lines(
        alloc,
        key.as_str(),
        Some(count),
        entries.as_slice(),
        &here,
        askers,
    )?;
    blocks.add(key, lines)
}

/// Adds the objects of the cards that are like one of the cards of a place, unless a card before it is.
fn add_first(
    alloc: Global,
    blocks: &mut Blocks,
    shared: bool,
    askers: &[Asker],
    place: &Place,
    before: &[Listed],
    card: &Listed,
) -> Result<(), AllocError>
    ensures { OnOk result (blocks.new ≡ gathered blocks.old
        (flat_map (class_objects shared askers.now place.now)
        (class_at place.now.cards before.now card.now))) }
{
    if is_told(card, before) {
        return Ok(());
    }
    let count = count_alike(card, place.cards.as_slice());
    add_class(alloc, blocks, shared, askers, place, card, count)
}

/// Adds the objects of the cards of a place.
fn add_cards(
    alloc: Global,
    blocks: &mut Blocks,
    shared: bool,
    askers: &[Asker],
    place: &Place,
) -> Result<(), AllocError>
    ensures { OnOk result (blocks.new ≡ gathered blocks.old
        (card_objects shared askers.now place.now)) }
{
    let cards = place.cards.as_slice();
    for (i, card) in cards.iter().enumerate() {
        add_first(alloc, blocks, shared, askers, place, &cards[..i], card)?;
    }
    Ok(())
}

/// Adds the objects of a place and of its cards.
fn add_place(
    alloc: Global,
    blocks: &mut Blocks,
    shared: bool,
    askers: &[Asker],
    place: &Place,
) -> Result<(), AllocError>
    ensures { OnOk result (blocks.new ≡ gathered blocks.old
        (place_objects shared askers.now place.now)) }
{
    add_own(alloc, blocks, shared, askers, place)?;
    add_cards(alloc, blocks, shared, askers, place)
}

/// Adds the objects of each place.
fn add_places(
    alloc: Global,
    blocks: &mut Blocks,
    shared: bool,
    askers: &[Asker],
    places: &[Place],
) -> Result<(), AllocError>
    ensures { OnOk result (blocks.new ≡ gathered blocks.old
        (flat_map (place_objects shared askers.now) places.now)) }
{
    for place in places {
        add_place(alloc, blocks, shared, askers, place)?;
    }
    Ok(())
}

/// The objects of all places and of their cards, in byte order of the paths.
pub(crate) fn told(
    alloc: Global,
    shared: bool,
    askers: &[Asker],
    places: &[Place],
) -> Result<String, AllocError>
    ensures { IfOk result (λ text. string_bytes text ≡ in_order
        (flat_map (place_objects shared askers.now) places.now)) }
{
    let mut blocks = Blocks::new(alloc);
    add_places(alloc, &mut blocks, shared, askers, places)?;
    let mut text = String::new(alloc);
    blocks.push_all(&mut text)?;
    Ok(text)
}
