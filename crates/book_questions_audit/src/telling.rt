//! The lines of each part, in byte order of the paths.

ghost use Rattle.std.specs.Prelude.{◌≡◌, cond, true, IfOk, OnOk, string_bytes};
ghost use Rattle.std.specs.List.{flat_map};
ghost use Rattle.book_office_audit.specs.Audits.{gathered, in_order};
ghost use Rattle.book_questions_audit.specs.Lines.{card_blocks, card_key, has_entries, own_blocks, part_blocks};

use crate::lines::told_lines;
use crate::parts::{Part, Wanted};
use book_office::Listed;
use book_office_values::Text;
use book_questions_rights::Blocks;
use std::alloc::{AllocError, Global};

/// Adds the lines of a part itself.
fn add_own(
    alloc: Global,
    blocks: &mut Blocks,
    wanted: Wanted,
    part: &Part,
) -> Result<(), AllocError>
    ensures { OnOk result (blocks.new ≡ gathered blocks.old (own_blocks wanted part.now)) }
{
    if !part.itself {
        return Ok(());
    }
    let key = Text::from_string(part.level.path.text(alloc)?);
    let lines = told_lines(
        alloc,
        wanted.labels,
        key.as_str(),
        &part.owner,
        &part.label,
        part.level.protected.as_slice(),
        part.level.own.as_slice(),
    )?;
    blocks.add(key, lines)
}

/// The path of a card.
fn card_key(alloc: Global, wanted: Wanted, part: &Part, card: &Listed) -> Result<Text, AllocError>
    ensures { IfOk result (λ key. key ≡ card_key wanted part.now card.now) }
{
    let mut key = part.level.path.text(alloc)?;
    key.push_str("/")?;
    key.push_str(card.name.text())?;
    Ok(Text::from_string(key))
}

/// Whether a card is told.
fn is_told(wanted: Wanted, card: &Listed) -> bool
    ensures { result ≡ cond wanted.listed (has_entries card.now.own) true }
{
    if wanted.listed {
        !card.own.as_slice().is_empty()
    } else {
        true
    }
}

/// Adds the lines of a card.
fn add_card(
    alloc: Global,
    blocks: &mut Blocks,
    wanted: Wanted,
    part: &Part,
    card: &Listed,
) -> Result<(), AllocError>
    ensures { OnOk result (blocks.new ≡ gathered blocks.old
        (card_blocks wanted part.now card.now)) }
{
    if !is_told(wanted, card) {
        return Ok(());
    }
    let key = card_key(alloc, wanted, part, card)?;
    let lines = told_lines(
        alloc,
        wanted.labels,
        key.as_str(),
        &card.owner,
        &card.label,
        card.protected.as_slice(),
        card.own.as_slice(),
    )?;
    blocks.add(key, lines)
}

/// Adds the lines of the cards of a part.
fn add_cards(
    alloc: Global,
    blocks: &mut Blocks,
    wanted: Wanted,
    part: &Part,
) -> Result<(), AllocError>
    ensures { OnOk result (blocks.new ≡ gathered blocks.old
        (flat_map (card_blocks wanted part.now) part.now.cards)) }
{
    let cards = part.cards.as_slice();
    for card in cards {
        add_card(alloc, blocks, wanted, part, card)?;
    }
    Ok(())
}

/// Adds the lines of a part and of its cards.
fn add_part(
    alloc: Global,
    blocks: &mut Blocks,
    wanted: Wanted,
    part: &Part,
) -> Result<(), AllocError>
    ensures { OnOk result (blocks.new ≡ gathered blocks.old (part_blocks wanted part.now)) }
{
    add_own(alloc, blocks, wanted, part)?;
    add_cards(alloc, blocks, wanted, part)
}

/// Adds the lines of each part.
fn add_parts(
    alloc: Global,
    blocks: &mut Blocks,
    wanted: Wanted,
    parts: &[Part],
) -> Result<(), AllocError>
    ensures { OnOk result (blocks.new ≡ gathered blocks.old
        (flat_map (part_blocks wanted) parts.now)) }
{
    for part in parts {
        add_part(alloc, blocks, wanted, part)?;
    }
    Ok(())
}

/// The lines of all parts, in byte order of the paths.
pub(crate) fn told(alloc: Global, wanted: Wanted, parts: &[Part]) -> Result<String, AllocError>
    ensures { IfOk result (λ text. string_bytes text ≡ in_order
        (flat_map (part_blocks wanted) parts.now)) }
{
    let mut blocks = Blocks::new(alloc);
    add_parts(alloc, &mut blocks, wanted, parts)?;
    let mut text = String::new(alloc);
    blocks.push_all(&mut text)?;
    Ok(text)
}
