//! What stays, over any keeper.

ghost use Rattle.std.specs.Prelude.{◌≡◌, ◌++◌, IfOk};
ghost use Rattle.std.specs.List.{flat_map};
ghost use Rattle.book_office.specs.Keeping.{Reads};
ghost use Rattle.book_office_audit.specs.Audits.{gathered};
ghost use Rattle.book_questions_stays.specs.Stays.{IsMembersText, IsStays, blocks_at, places_text};

use crate::telling::{add_all, members_text, text_of};
use book_office::{Keeper, StoreFault};
use book_office_values::{Path, Text};
use book_policy_values::Policy;
use book_questions_rights::{Blocks, read_below, read_cards};
use std::alloc::{AllocError, Global};

/// The direct memberships that stay.
fn read_members<K: Keeper>(
    alloc: Global,
    keeper: &mut K,
    policy: &Policy,
) -> Result<Text, StoreFault>
    ensures { Reads (K.standing keeper.old) (K.standing keeper.new) result
        (λ o text. IsMembersText policy.now o.pairs text) }
{
    let pairs = keeper.pairs(alloc)?;
    Ok(members_text(alloc, policy, &pairs)?)
}

/// Adds what stays at a path.
fn add_at<K: Keeper>(
    alloc: Global,
    keeper: &mut K,
    policy: &Policy,
    blocks: &mut Blocks,
    path: &Path,
) -> Result<(), StoreFault>
    ensures { Reads (K.standing keeper.old) (K.standing keeper.new) result
        (λ o _. blocks.new ≡ gathered blocks.old (blocks_at policy.now o path.now)) }
{
    let level = keeper.level(alloc, path)?;
    let cards = read_cards(alloc, keeper, path)?;
    let own = level.own.as_slice();
    let added = add_all(alloc, blocks, policy, path, own, cards.as_slice());
    drop(level);
    drop(cards);
    added?;
    Ok(())
}

/// Adds what stays at each path. The cards of one book are in memory at a time.
fn add_each<K: Keeper>(
    alloc: Global,
    keeper: &mut K,
    policy: &Policy,
    blocks: &mut Blocks,
    paths: &[Path],
) -> Result<(), StoreFault>
    ensures { Reads (K.standing keeper.old) (K.standing keeper.new) result
        (λ o _. blocks.new ≡ gathered blocks.old (flat_map (blocks_at policy.now o) paths.now)) }
{
    for path in paths {
        match add_at(alloc, keeper, policy, blocks, path) {
            Ok(()) => {}
            Err(fault) => return Err(fault),
        }
    }
    Ok(())
}

/// The resources that stay.
fn read_places<K: Keeper>(
    alloc: Global,
    keeper: &mut K,
    policy: &Policy,
) -> Result<Text, StoreFault>
    ensures { Reads (K.standing keeper.old) (K.standing keeper.new) result
        (λ o text. text ≡ places_text policy.now o) }
{
    let paths = read_below(alloc, keeper, &Path::Root)?;
    let mut blocks = Blocks::new(alloc);
    add_each(alloc, keeper, policy, &mut blocks, paths.as_slice())?;
    Ok(text_of(alloc, &blocks)?)
}

/// Two texts in turn.
fn joined(alloc: Global, first: &str, second: &str) -> Result<Text, AllocError>
    ensures { IfOk result (λ text. text ≡ first.now ++ second.now) }
{
    let mut text = String::from_str(alloc, first)?;
    text.push_str(second)?;
    Ok(Text::from_string(text))
}

/// What an adoption of a policy leaves because the policy does not name it (own profile), one fact a line in the words of
/// an audit, each after `stays `.
///
/// First the direct members of groups that the policy does not have, `member GROUP MEMBER`, in byte order. Then, in byte
/// order of the paths: the path of each person, group and book that the policy does not name; after the path each entry
/// of the own list that stands there, where the policy has no own entries for that place; and each entry of the own list
/// of a card, which no policy gives. Nothing changes.
///
/// An error is want of memory or a failure of the store.
///
/// Each resource that is no card is read once, and the cards of each book once. The cards of one book are in memory at a
/// time.
pub fn stays<K: Keeper>(alloc: Global, keeper: &mut K, policy: &Policy) -> Result<Text, StoreFault>
    ensures { Reads (K.standing keeper.old) (K.standing keeper.new) result
        (λ o text. IsStays o policy.now text) }
{
    let members = read_members(alloc, keeper, policy)?;
    let places = read_places(alloc, keeper, policy)?;
    Ok(joined(alloc, members.as_str(), places.as_str())?)
}
