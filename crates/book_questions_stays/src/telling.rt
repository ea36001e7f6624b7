//! The lines of direct memberships, and those of a resource and of the cards in it.

ghost use Rattle.std.specs.Prelude.{◌≡◌, ◌∷◌, [], filter, map, IfOk, OnOk};
ghost use Rattle.std.specs.FinMap as maps;
ghost use Rattle.std.specs.List.{flat_map};
ghost use Rattle.book_office_audit.specs.Audits.{Block, gathered};
ghost use Rattle.book_office_values.specs.Paths.{path_text};
ghost use Rattle.book_questions_stays.specs.Stays.{IsMembersText, card_block, member_block, member_stays, place_block, place_blocks};

use crate::lines::{card_key, member_line, own_lines, place_lines, stays};
use crate::naming::{is_given, is_named};
use book_lists::{Entry, Membership, Pairs};
use book_office::Listed;
use book_office_adopting::is_group;
use book_office_values::{Path, Text};
use book_policy_values::Policy;
use book_questions_rights::Blocks;
use std::alloc::{AllocError, Global};

/// Adds the line of a direct membership, unless the policy has the group.
fn add_member(
    alloc: Global,
    blocks: &mut Blocks,
    policy: &Policy,
    membership: &Membership,
) -> Result<(), AllocError>
    ensures { OnOk result (blocks.new ≡ gathered blocks.old
        (map member_block (filter (member_stays policy.now) (membership.now ∷ [])))) }
{
    if is_group(alloc, policy, &membership.group)? {
        return Ok(());
    }
    let line = member_line(alloc, membership)?;
    let text = stays(alloc, line.as_str())?;
    blocks.add(line, text)
}

/// Adds the lines of direct memberships.
fn add_members(
    alloc: Global,
    blocks: &mut Blocks,
    policy: &Policy,
    list: &[Membership],
) -> Result<(), AllocError>
    ensures { OnOk result (blocks.new ≡ gathered blocks.old
        (map member_block (filter (member_stays policy.now) list.now))) }
{
    for membership in list {
        add_member(alloc, blocks, policy, membership)?;
    }
    Ok(())
}

/// The texts of blocks.
pub(crate) fn text_of(alloc: Global, blocks: &Blocks) -> Result<Text, AllocError>
    ensures { IfOk result (λ text. text ≡ flat_map (λ (b : Block). b.1) (maps.entries blocks.now)) }
{
    let mut text = String::new(alloc);
    blocks.push_all(&mut text)?;
    Ok(Text::from_string(text))
}

/// The direct memberships that stay.
pub(crate) fn members_text(
    alloc: Global,
    policy: &Policy,
    pairs: &Pairs,
) -> Result<Text, AllocError>
    ensures { IfOk result (λ text. IsMembersText policy.now pairs.now text) }
{
    let list = pairs.list()?;
    let mut blocks = Blocks::new(alloc);
    add_members(alloc, &mut blocks, policy, list.as_slice())?;
    Ok(text_of(alloc, &blocks)?)
}

/// Adds the lines of a resource that is no card.
fn add_place(
    alloc: Global,
    blocks: &mut Blocks,
    policy: &Policy,
    path: &Path,
    own: &[Entry],
) -> Result<(), AllocError>
    ensures { OnOk result (blocks.new ≡ maps.insert blocks.old
        (place_block policy.now path.now own.now).0 (place_block policy.now path.now own.now).1) }
{
    let key = Text::from_string(path.text(alloc)?);
    let named = is_named(policy, path);
    let given = is_given(policy, &key);
    let lines = place_lines(alloc, named, given, key.as_str(), own)?;
    blocks.add(key, lines)
}

/// Adds the lines of a card.
fn add_card(alloc: Global, blocks: &mut Blocks, book: &str, card: &Listed) -> Result<(), AllocError>
    ensures { OnOk result (blocks.new ≡ maps.insert blocks.old (card_block book.now card.now).0
        (card_block book.now card.now).1) }
{
    let key = card_key(alloc, book, card)?;
    let lines = own_lines(alloc, key.as_str(), card.own.as_slice())?;
    blocks.add(key, lines)
}

/// Adds the lines of cards.
fn add_cards(
    alloc: Global,
    blocks: &mut Blocks,
    book: &str,
    cards: &[Listed],
) -> Result<(), AllocError>
    ensures { OnOk result (blocks.new ≡ gathered blocks.old
        (map (card_block book.now) cards.now)) }
{
    for card in cards {
        add_card(alloc, blocks, book, card)?;
    }
    Ok(())
}

/// Adds the lines of the cards in a resource.
fn add_inside(
    alloc: Global,
    blocks: &mut Blocks,
    path: &Path,
    cards: &[Listed],
) -> Result<(), AllocError>
    ensures { OnOk result (blocks.new ≡ gathered blocks.old
        (map (card_block (path_text path.now)) cards.now)) }
{
    let book = path.text(alloc)?;
    add_cards(alloc, blocks, book.as_str(), cards)
}

/// Adds the lines of a resource and of the cards in it.
pub(crate) fn add_all(
    alloc: Global,
    blocks: &mut Blocks,
    policy: &Policy,
    path: &Path,
    own: &[Entry],
    cards: &[Listed],
) -> Result<(), AllocError>
    ensures { OnOk result (blocks.new ≡ gathered blocks.old
        (place_blocks policy.now path.now own.now cards.now)) }
{
    add_place(alloc, blocks, policy, path, own)?;
    add_inside(alloc, blocks, path, cards)
}
