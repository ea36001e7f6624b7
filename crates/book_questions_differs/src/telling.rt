//! The lines of a resource and of the cards in it.

ghost use Rattle.std.specs.Prelude.{◌≡◌, ◌++◌, ◌∷◌, [], codes, decimal, map, IfOk, OnOk};
ghost use Rattle.std.specs.FinMap as maps;
ghost use Rattle.book_office_audit.specs.Audits.{gathered};
ghost use Rattle.book_office_values.specs.Paths.{path_text};
ghost use Rattle.book_questions_differs.specs.Lines.{class_block, own_block, side_blocks, spot_blocks};
ghost use Rattle.book_questions_differs.specs.Pairs.{class_at, classes_of};

use crate::equal_pairs::{count_alike, is_told};
use crate::forces::{card_force_in, force_in};
use crate::lines::lines_at;
use crate::pairs::{CardPair, paired};
use crate::parties::Party;
use crate::places::{Side, Spot};
use book_lists::Name;
use book_office_values::{Path, Text};
use book_questions_rights::Blocks;
use std::alloc::{AllocError, Global};

/// Adds the lines of a resource.
fn add_own(
    alloc: Global,
    blocks: &mut Blocks,
    parties: &[Party],
    spot: &Spot,
) -> Result<(), AllocError>
    ensures { OnOk result (blocks.new ≡ maps.insert blocks.old
        (own_block parties.now spot.now).0 (own_block parties.now spot.now).1) }
{
    let before = force_in(alloc, &spot.before)?;
    let after = force_in(alloc, &spot.after)?;
    let key = Text::from_string(spot.path.text(alloc)?);
    let lines = lines_at(alloc, key.as_str(), &before, &after, parties)?;
    blocks.add(key, lines)
}

/// The path of a card.
fn card_key(alloc: Global, path: &Path, name: &Name) -> Result<Text, AllocError>
    ensures { IfOk result (λ key. key ≡ path_text path.now ++ codes "/" ++ name.now) }
{
    let mut key = path.text(alloc)?;
    key.push_str("/")?;
    key.push_str(name.text())?;
    Ok(Text::from_string(key))
}

/// The words for equal cards.
fn class_head(alloc: Global, key: &str, count: usize) -> Result<Text, AllocError>
    ensures { IfOk result (λ head. head ≡ key.now ++ (codes " of " ++ decimal count)) }
{
    let digits = format!(in alloc; "{count}")?;
    let mut head = String::from_str(alloc, key)?;
    head.push_str(" of ")?;
    head.push_str(digits.as_str())?;
    Ok(Text::from_string(head))
}

/// Adds the lines of so many cards that are like one.
fn add_class(
    alloc: Global,
    blocks: &mut Blocks,
    parties: &[Party],
    spot: &Spot,
    pair: &CardPair,
    count: usize,
) -> Result<(), AllocError>
    ensures { OnOk result (blocks.new ≡ gathered blocks.old (map (class_block parties.now spot.now)
        (record { pair = pair.now; count = count } ∷ []))) }
{
    let before = card_force_in(alloc, &spot.before, &pair.before)?;
    let after = card_force_in(alloc, &spot.after, &pair.after)?;
    let key = card_key(alloc, &spot.path, &pair.name)?;
    let head = class_head(alloc, key.as_str(), count)?;
    let lines = lines_at(alloc, head.as_str(), &before, &after, parties)?;
    blocks.add(key, lines)
}

/// Adds the lines of the cards that are like one of the cards of a book, unless a card before it is.
fn add_first(
    alloc: Global,
    blocks: &mut Blocks,
    parties: &[Party],
    spot: &Spot,
    all: &[CardPair],
    before: &[CardPair],
    pair: &CardPair,
) -> Result<(), AllocError>
    ensures { OnOk result (blocks.new ≡ gathered blocks.old (map (class_block parties.now spot.now)
        (class_at all.now before.now pair.now))) }
{
    if is_told(pair, before) {
        return Ok(());
    }
    let count = count_alike(pair, all);
    add_class(alloc, blocks, parties, spot, pair, count)
}

/// Adds the lines of the cards of a book.
fn add_cards(
    alloc: Global,
    blocks: &mut Blocks,
    parties: &[Party],
    spot: &Spot,
    pairs: &[CardPair],
) -> Result<(), AllocError>
    ensures { OnOk result (blocks.new ≡ gathered blocks.old (map (class_block parties.now spot.now)
        (classes_of pairs.now))) }
{
    for (i, pair) in pairs.iter().enumerate() {
        add_first(alloc, blocks, parties, spot, pairs, &pairs[..i], pair)?;
    }
    Ok(())
}

/// Adds the lines of a resource and of the cards in it.
fn add_spot(
    alloc: Global,
    blocks: &mut Blocks,
    parties: &[Party],
    spot: &Spot,
    pairs: &[CardPair],
) -> Result<(), AllocError>
    ensures { OnOk result (blocks.new ≡ gathered blocks.old
        (spot_blocks parties.now spot.now pairs.now)) }
{
    add_own(alloc, blocks, parties, spot)?;
    add_cards(alloc, blocks, parties, spot, pairs)
}

/// A copy of a path.
fn copied(path: &Path) -> Result<Path, AllocError>
    ensures { IfOk result (λ copy. copy ≡ path.now) }
{
    path.clone()
}

/// Adds the lines of what each Office has at a path.
pub(crate) fn add_sides(
    alloc: Global,
    blocks: &mut Blocks,
    parties: &[Party],
    path: &Path,
    before: Side,
    after: Side,
) -> Result<(), AllocError>
    ensures { OnOk result (blocks.new ≡ gathered blocks.old
        (side_blocks parties.now path.now before after)) }
{
    let path = copied(path)?;
    let pairs = paired(alloc, before.cards, after.cards)?;
    let spot = Spot {
        path,
        before: before.found,
        after: after.found,
    };
    add_spot(alloc, blocks, parties, &spot, pairs.as_slice())
}
