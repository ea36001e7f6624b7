//! The lines of each place and of its cards, in byte order of the paths.

ghost use Rattle.std.specs.Prelude.{◌≡◌, ◌++◌, true, codes, cond, decimal, IfOk, OnOk, string_bytes};
ghost use Rattle.std.specs.List.{flat_map, list_any};
ghost use Rattle.book_office_audit.specs.Audits.{gathered, in_order};
ghost use Rattle.book_questions_rights.specs.EqualCards.{class_at};
ghost use Rattle.book_questions_rights.specs.Lines.{card_blocks, card_here, card_key, class_blocks, gains, own_block, own_blocks, place_blocks};

use crate::askers::Asker;
use crate::blocks::Blocks;
use crate::equal_cards::{count_alike, is_told};
use crate::lines::{any_gains, lines_at};
use crate::places::{Place, push_entries};
use book_lists::{Entry, Here};
use book_office::Listed;
use book_office_values::Text;
use std::alloc::{AllocError, Global};

/// The entries in force at a place, with an own list below it. An error is want of memory.
pub fn entries_with(alloc: Global, place: &Place, own: &[Entry]) -> Result<Vec<Entry>, AllocError>
    ensures { IfOk result (λ entries. entries.items ≡ place.now.protected ++
        (own.now ++ place.now.own)) }
{
    let mut entries = Vec::new(alloc);
    push_entries(&mut entries, place.protected.as_slice())?;
    push_entries(&mut entries, own)?;
    push_entries(&mut entries, place.own.as_slice())?;
    Ok(entries)
}

/// The lines of a place itself.
fn own_lines(alloc: Global, askers: &[Asker], place: &Place, key: &str) -> Result<Text, AllocError>
    ensures { IfOk result (λ lines. key.now ≡ (own_block askers.now place.now).0
        → lines ≡ (own_block askers.now place.now).1) }
{
    let entries = entries_with(alloc, place, &[])?;
    lines_at(alloc, key, entries.as_slice(), &place.here, askers)
}

/// Adds the lines of a place itself, but where shared cards alone are told.
fn add_own(
    alloc: Global,
    blocks: &mut Blocks,
    shared: bool,
    askers: &[Asker],
    place: &Place,
) -> Result<(), AllocError>
    ensures { OnOk result (blocks.new ≡ gathered blocks.old
        (own_blocks shared askers.now place.now)) }
{
    let told = if shared { false } else { place.itself };
    if !told {
        return Ok(());
    }
    let key = Text::from_string(place.path.text(alloc)?);
    let lines = own_lines(alloc, askers, place, key.as_str())?;
    blocks.add(key, lines)
}

/// What entries ask of a card. An error is want of memory.
pub fn card_here(card: &Listed) -> Result<Here, AllocError>
    ensures { IfOk result (λ here. here ≡ card_here card.now) }
{
    Ok(Here {
        owner: match &card.owner {
            Some(owner) => Some(owner.clone()?),
            None => None,
        },
        principal: None,
    })
}

/// The path of a card of a place. An error is want of memory.
pub fn card_key(alloc: Global, place: &Place, card: &Listed) -> Result<Text, AllocError>
    ensures { IfOk result (λ key. key ≡ card_key place.now card.now) }
{
    let mut key = place.path.text(alloc)?;
    key.push_str("/")?;
    key.push_str(card.name.text())?;
    Ok(Text::from_string(key))
}

/// The words for equal cards.
fn class_head(alloc: Global, key: &str, count: usize) -> Result<Text, AllocError>
    ensures { IfOk result (λ head. head ≡ key.now ++ (codes " of " ++ decimal count)) }
{
    let digits = format!(in alloc; "{count}")?;
    let mut head = String::from_str(alloc, key)?;
    head.push_str(" of ")?;
    head.push_str(digits.as_str())?;
    Ok(Text::from_string(head))
}

/// Whether the own list of a card grants somebody a leaf that the entries of its book do not.
fn is_shared(
    alloc: Global,
    askers: &[Asker],
    place: &Place,
    here: &Here,
    entries: &[Entry],
) -> Result<bool, AllocError>
    ensures { IfOk result (λ shared. shared ≡ list_any
        (gains entries.now (place.now.protected ++ place.now.own) here.now) askers.now) }
{
    let others = entries_with(alloc, place, &[])?;
    Ok(any_gains(entries, others.as_slice(), here, askers))
}

/// Whether equal cards are told: where shared cards alone are, those whose own list grants somebody a leaf that the entries
/// of their book do not. An error is want of memory.
pub fn are_told(
    alloc: Global,
    shared: bool,
    askers: &[Asker],
    place: &Place,
    here: &Here,
    entries: &[Entry],
) -> Result<bool, AllocError>
    ensures { IfOk result (λ told. told ≡ cond shared
        (list_any (gains entries.now (place.now.protected ++ place.now.own) here.now) askers.now)
        true) }
{
    if !shared {
        return Ok(true);
    }
    is_shared(alloc, askers, place, here, entries)
}

/// Adds the lines of so many cards that are like one.
fn add_class(
    alloc: Global,
    blocks: &mut Blocks,
    shared: bool,
    askers: &[Asker],
    place: &Place,
    card: &Listed,
    count: usize,
) -> Result<(), AllocError>
    ensures { OnOk result (blocks.new ≡ gathered blocks.old
        (class_blocks shared askers.now place.now (record { card = card.now; count = count }))) }
{
    let entries = entries_with(alloc, place, card.own.as_slice())?;
    let here = card_here(card)?;
    if !are_told(alloc, shared, askers, place, &here, entries.as_slice())? {
        return Ok(());
    }
    let key = card_key(alloc, place, card)?;
    let head = class_head(alloc, key.as_str(), count)?;
    let lines = lines_at(alloc, head.as_str(), entries.as_slice(), &here, askers)?;
    blocks.add(key, lines)
}

/// Adds the lines of the cards that are like one of the cards of a place, unless a card before it is.
fn add_first(
    alloc: Global,
    blocks: &mut Blocks,
    shared: bool,
    askers: &[Asker],
    place: &Place,
    before: &[Listed],
    card: &Listed,
) -> Result<(), AllocError>
    ensures { OnOk result (blocks.new ≡ gathered blocks.old
        (flat_map (class_blocks shared askers.now place.now)
        (class_at place.now.cards before.now card.now))) }
{
    if is_told(card, before) {
        return Ok(());
    }
    let count = count_alike(card, place.cards.as_slice());
    add_class(alloc, blocks, shared, askers, place, card, count)
}

/// Adds the lines of the cards of a place.
fn add_cards(
    alloc: Global,
    blocks: &mut Blocks,
    shared: bool,
    askers: &[Asker],
    place: &Place,
) -> Result<(), AllocError>
    ensures { OnOk result (blocks.new ≡ gathered blocks.old
        (card_blocks shared askers.now place.now)) }
{
    let cards = place.cards.as_slice();
    for (i, card) in cards.iter().enumerate() {
        add_first(alloc, blocks, shared, askers, place, &cards[..i], card)?;
    }
    Ok(())
}

/// Adds the lines of a place and of its cards.
fn add_place(
    alloc: Global,
    blocks: &mut Blocks,
    shared: bool,
    askers: &[Asker],
    place: &Place,
) -> Result<(), AllocError>
    ensures { OnOk result (blocks.new ≡ gathered blocks.old
        (place_blocks shared askers.now place.now)) }
{
    add_own(alloc, blocks, shared, askers, place)?;
    add_cards(alloc, blocks, shared, askers, place)
}

/// Adds the lines of each place.
fn add_places(
    alloc: Global,
    blocks: &mut Blocks,
    shared: bool,
    askers: &[Asker],
    places: &[Place],
) -> Result<(), AllocError>
    ensures { OnOk result (blocks.new ≡ gathered blocks.old
        (flat_map (place_blocks shared askers.now) places.now)) }
{
    for place in places {
        add_place(alloc, blocks, shared, askers, place)?;
    }
    Ok(())
}

/// The lines of all places and of their cards, in byte order of the paths.
pub(crate) fn told(
    alloc: Global,
    shared: bool,
    askers: &[Asker],
    places: &[Place],
) -> Result<String, AllocError>
    ensures { IfOk result (λ text. string_bytes text ≡ in_order
        (flat_map (place_blocks shared askers.now) places.now)) }
{
    let mut blocks = Blocks::new(alloc);
    add_places(alloc, &mut blocks, shared, askers, places)?;
    let mut text = String::new(alloc);
    blocks.push_all(&mut text)?;
    Ok(text)
}
