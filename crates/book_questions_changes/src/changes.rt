//! How two Offices differ, over any two keepers.

ghost use Rattle.std.specs.Prelude.{◌≡◌, ◌++◌, map, IfOk, OnOk, string_bytes};
ghost use Rattle.std.specs.FinMap as maps;
ghost use Rattle.book_office_audit.specs.Audits.{gathered};
ghost use Rattle.book_office_values.specs.declared.paths.Path.{Path as PathOf};
ghost use Rattle.book_questions_differs.specs.Comparing.{Compares};
ghost use Rattle.book_questions_changes.specs.Changes.{IsChanges, facts_text, last_line, line_count, spot_at, with_last};
ghost use Rattle.book_questions_changes.specs.Facts.{spot_block};
ghost use Rattle.book_questions_changes.specs.Members.{IsMembersText};

use crate::facts::spot_changes;
use crate::members::{members_text, text_of};
use book_office::{Keeper, StoreFault};
use book_office_values::{Path, Text};
use book_questions_differs::{Spot, read_found, read_paths, rights_differences};
use book_questions_rights::Blocks;
use std::alloc::{AllocError, Global};

/// The memberships in which two Offices differ.
fn read_members<K: Keeper, L: Keeper>(
    alloc: Global,
    before: &mut K,
    after: &mut L,
) -> Result<Text, StoreFault>
    ensures { Compares (K.standing before.old) (K.standing before.new) (L.standing after.old)
        (L.standing after.new) result (λ o p text. IsMembersText o.pairs p.pairs text) }
{
    let was = before.pairs(alloc)?;
    let is = after.pairs(alloc)?;
    Ok(members_text(alloc, &was, &is)?)
}

/// A copy of a path.
fn copied(path: &Path) -> Result<Path, AllocError>
    ensures { IfOk result (λ copy. copy ≡ path.now) }
{
    path.clone()
}

/// The resource at a path of two Offices.
fn read_spot<K: Keeper, L: Keeper>(
    alloc: Global,
    before: &mut K,
    after: &mut L,
    path: &Path,
) -> Result<Spot, StoreFault>
    ensures { Compares (K.standing before.old) (K.standing before.new) (L.standing after.old)
        (L.standing after.new) result (λ o p spot. spot ≡ spot_at o p path.now) }
{
    let was = read_found(alloc, before, path)?;
    let is = read_found(alloc, after, path)?;
    let path = copied(path)?;
    Ok(Spot {
        path,
        before: was,
        after: is,
    })
}

/// Adds the lines of what differs at a path.
fn add_spot(alloc: Global, blocks: &mut Blocks, spot: &Spot) -> Result<(), AllocError>
    ensures { OnOk result (blocks.new ≡ maps.insert blocks.old (spot_block spot.now).0
        (spot_block spot.now).1) }
{
    let key = Text::from_string(spot.path.text(alloc)?);
    let lines = spot_changes(alloc, key.as_str(), spot)?;
    blocks.add(key, lines)
}

/// Adds the lines of what differs at a path of two Offices.
fn add_at<K: Keeper, L: Keeper>(
    alloc: Global,
    before: &mut K,
    after: &mut L,
    blocks: &mut Blocks,
    path: &Path,
) -> Result<(), StoreFault>
    ensures { Compares (K.standing before.old) (K.standing before.new) (L.standing after.old)
        (L.standing after.new) result (λ o p _. blocks.new ≡ maps.insert blocks.old
        (spot_block (spot_at o p path.now)).0 (spot_block (spot_at o p path.now)).1) }
{
    let spot = read_spot(alloc, before, after, path)?;
    add_spot(alloc, blocks, &spot)?;
    Ok(())
}

/// Adds the lines of what differs at some paths of two Offices.
fn add_each<K: Keeper, L: Keeper>(
    alloc: Global,
    before: &mut K,
    after: &mut L,
    blocks: &mut Blocks,
    paths: &[Path],
) -> Result<(), StoreFault>
    ensures { Compares (K.standing before.old) (K.standing before.new) (L.standing after.old)
        (L.standing after.new) result (λ o p _. blocks.new ≡ gathered blocks.old
        (map (λ (at : PathOf). spot_block (spot_at o p at)) paths.now)) }
{
    for path in paths {
        match add_at(alloc, before, after, blocks, path) {
            Ok(()) => {}
            Err(fault) => return Err(fault),
        }
    }
    Ok(())
}

/// The resources in which two Offices differ.
fn read_facts<K: Keeper, L: Keeper>(
    alloc: Global,
    before: &mut K,
    after: &mut L,
) -> Result<Text, StoreFault>
    ensures { Compares (K.standing before.old) (K.standing before.new) (L.standing after.old)
        (L.standing after.new) result (λ o p text. text ≡ facts_text o p) }
{
    let paths = read_paths(alloc, before, after)?;
    let mut blocks = Blocks::new(alloc);
    add_each(alloc, before, after, &mut blocks, paths.as_slice())?;
    Ok(text_of(alloc, &blocks)?)
}

/// How many lines a text has.
fn line_count(text: &str) -> usize
    ensures { result ≡ line_count text.now }
{
    text.as_bytes()
        .iter()
        .filter(|byte| **byte == b'\n')
        .count()
}

/// Adds the last line.
fn push_last(alloc: Global, text: &mut String, count: usize) -> Result<(), AllocError>
    ensures { OnOk result (string_bytes text.new ≡ string_bytes text.old ++ last_line count) }
{
    if count == 0 {
        return text.push_str("unchanged\n");
    }
    let digits = format!(in alloc; "{count}")?;
    text.push_str("differs in ")?;
    text.push_str(digits.as_str())?;
    text.push_str("\n")
}

/// Three texts in turn, with the last line.
fn whole(alloc: Global, members: &str, facts: &str, rights: &str) -> Result<Text, AllocError>
    ensures { IfOk result (λ text. text ≡ with_last (members.now ++ (facts.now ++ rights.now))) }
{
    let mut text = String::from_str(alloc, members)?;
    text.push_str(facts)?;
    text.push_str(rights)?;
    let count = line_count(text.as_str());
    push_last(alloc, &mut text, count)?;
    Ok(Text::from_string(text))
}

/// How two Offices differ (own profile), one fact a line in the words of an audit. What the Office before has and the one
/// after has not, or has otherwise, stands after `- `; what the one after has stands after `+ `.
///
/// First the direct memberships, `member GROUP MEMBER`, in byte order. Then the resources that are no cards, in byte
/// order of their paths: `PATH owner OWNER`, with `-` for none; `PATH label LABEL`, the label as a text of JSON (RFC 8259,
/// section 7); and after the path an entry of the protected list, or of the own list, that stands there. An owner, a label
/// or a list is told whole where it differs, and each of a resource that is in one of the Offices alone. Then the rights
/// that are lost and gained, as `rights_differences` tells them. The last line is `differs in N`, with the number of the
/// lines before it, or `unchanged`. The epoch, the labels and texts of cards, and the numbers of changes are not compared.
/// Nothing changes.
///
/// An error is want of memory or a failure of one of the stores.
///
/// Each resource that is no card is read twice of each keeper, and the cards of each book once.
pub fn differences<K: Keeper, L: Keeper>(
    alloc: Global,
    before: &mut K,
    after: &mut L,
) -> Result<Text, StoreFault>
    ensures { Compares (K.standing before.old) (K.standing before.new) (L.standing after.old)
        (L.standing after.new) result (λ o p text. IsChanges o p text) }
{
    let members = read_members(alloc, before, after)?;
    let facts = read_facts(alloc, before, after)?;
    let rights = rights_differences(alloc, before, after)?;
    Ok(whole(alloc, members.as_str(), facts.as_str(), rights.as_str())?)
}
