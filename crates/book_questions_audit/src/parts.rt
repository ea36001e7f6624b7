//! What is read of an Office: each resource that is asked about with its lists, and the cards in it.

ghost use Rattle.std.specs.Prelude.{◌≡◌, map};
ghost use Rattle.book_office.specs.Keeping.{Reads};
ghost use Rattle.book_questions_audit.specs.Parts.{label_in, owner_in, part_of, part_with, standing_of};

use book_lists::Principal;
use book_office::{Keeper, Level, Listed, Node, StoreFault};
use book_office_values::{Items, Path, Text};
use book_questions_rights::{is_itself, place_path, read_cards};
use std::alloc::Global;

/// What is told of the resources.
#[derive(Clone, Copy, Debug)]
pub struct Wanted {
    /// No card without a list of its own.
    pub listed: bool,
    /// Labels, as JSON texts.
    pub labels: bool,
}

/// A resource that is no card, and the cards in it that are asked about.
#[derive(Debug, Drop)]
pub struct Part {
    /// Whether it is asked about itself, and not for a card in it alone.
    pub itself: bool,
    /// Its owner.
    pub owner: Option<Principal>,
    /// Its label.
    pub label: Text,
    /// Its path, and the lists that stand at it.
    pub level: Level,
    /// The cards, in byte order of their names.
    pub cards: Items<Listed>,
}

/// The owner and the label of a resource; none and an empty one where none is there.
fn owner_and_label(alloc: Global, node: Option<Node>) -> (Option<Principal>, Text)
    ensures owner { result.0 ≡ owner_in node }
    ensures label { result.1 ≡ label_in node }
{
    match node {
        Some(node) => {
            let Node { owner, label, .. } = node;
            (owner, label)
        }
        None => (None, Text::from_string(String::new(alloc))),
    }
}

/// What stands at a path itself.
#[derive(Debug, Drop)]
pub struct Standing {
    /// The resource, if one is there.
    pub node: Option<Node>,
    /// The path, and the lists that stand at it.
    pub level: Level,
}

/// What stands at a path itself.
fn read_standing<K: Keeper>(
    alloc: Global,
    keeper: &mut K,
    at: &Path,
) -> Result<Standing, StoreFault>
    ensures { Reads (K.standing keeper.old) (K.standing keeper.new) result
        (λ o standing. standing ≡ standing_of o at.now) }
{
    let level = keeper.level(alloc, at)?;
    let node = keeper.find(alloc, at)?;
    Ok(Standing { node, level })
}

/// A part of what was read.
fn part_with(alloc: Global, path: &Path, standing: Standing, cards: Items<Listed>) -> Part
    ensures { result ≡ part_with path.now standing cards }
{
    let Standing { node, level } = standing;
    let (owner, label) = owner_and_label(alloc, node);
    Part {
        itself: is_itself(path),
        owner,
        label,
        level,
        cards,
    }
}

/// What is read at a path.
fn read_part<K: Keeper>(alloc: Global, keeper: &mut K, path: &Path) -> Result<Part, StoreFault>
    ensures { Reads (K.standing keeper.old) (K.standing keeper.new) result
        (λ o part. part ≡ part_of o path.now) }
{
    let at = place_path(path)?;
    let cards = read_cards(alloc, keeper, path)?;
    let standing = read_standing(alloc, keeper, &at)?;
    Ok(part_with(alloc, path, standing, cards))
}

/// What is read at each path.
pub(crate) fn read_parts<K: Keeper>(
    alloc: Global,
    keeper: &mut K,
    paths: &[Path],
) -> Result<Vec<Part>, StoreFault>
    ensures { Reads (K.standing keeper.old) (K.standing keeper.new) result
        (λ o parts. parts.items ≡ map (part_of o) paths.now) }
{
    let mut parts = Vec::new(alloc);
    for path in paths {
        let part = match read_part(alloc, keeper, path) {
            Ok(part) => part,
            Err(fault) => return Err(fault),
        };
        if parts.push(part).is_err() {
            return Err(StoreFault::Memory);
        }
    }
    Ok(parts)
}
