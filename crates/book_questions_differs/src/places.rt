//! What each Office has at a path.

ghost use Rattle.std.specs.Prelude.{◌≡◌, ◌++◌, ◌∷◌, [], OnOk, filter, option_map};
ghost use Rattle.book_office.specs.Keeping.{Reads};
ghost use Rattle.book_questions_differs.specs.Places.{found_at, found_with, is_missing, side_at};

use book_lists::Here;
use book_office::{Keeper, Listed, Lists, Node, StoreFault};
use book_office_values::{Items, Path};
use book_questions::here_at;
use book_questions_rights::read_cards;
use std::alloc::{AllocError, Global};

/// A resource that is no card, as it is compared.
#[derive(Debug, Drop)]
pub struct Found {
    /// The resource without its lists.
    pub node: Node,
    /// Its owner, and itself where it is a principal.
    pub here: Here,
    /// The lists that stand at it and above it.
    pub lists: Lists,
}

/// What an Office has at a path.
#[derive(Debug, Drop)]
pub struct Side {
    /// The resource, if it is there.
    pub found: Option<Found>,
    /// The cards in it, in byte order of their names.
    pub cards: Items<Listed>,
}

/// A resource that is no card, in two Offices.
#[derive(Debug, Drop)]
pub struct Spot {
    /// Its path.
    pub path: Path,
    /// The resource in the Office before, if it is there.
    pub before: Option<Found>,
    /// The resource in the Office after, if it is there.
    pub after: Option<Found>,
}

/// A resource with the lists in force there, if it is there.
fn found_if(node: Option<Node>, here: Here, lists: Lists) -> Option<Found>
    ensures { result ≡ option_map (found_with here lists) node }
{
    match node {
        Some(node) => Some(Found { node, here, lists }),
        None => None,
    }
}

/// The resource at a path, if one is mapped. An error is want of memory or a failure of the store.
pub fn read_found<K: Keeper>(
    alloc: Global,
    keeper: &mut K,
    path: &Path,
) -> Result<Option<Found>, StoreFault>
    ensures { Reads (K.standing keeper.old) (K.standing keeper.new) result
        (λ o found. found ≡ found_at o path.now) }
{
    let node = keeper.find(alloc, path)?;
    let here = here_at(alloc, keeper, path)?;
    let lists = keeper.lists(alloc, path)?;
    Ok(found_if(node, here, lists))
}

/// What is at a path.
pub(crate) fn read_side<K: Keeper>(
    alloc: Global,
    keeper: &mut K,
    path: &Path,
) -> Result<Side, StoreFault>
    ensures { Reads (K.standing keeper.old) (K.standing keeper.new) result
        (λ o side. side ≡ side_at o path.now) }
{
    let found = read_found(alloc, keeper, path)?;
    let cards = read_cards(alloc, keeper, path)?;
    Ok(Side { found, cards })
}

/// Adds a copy of a path.
fn push_path(paths: &mut Vec<Path>, path: &Path) -> Result<(), AllocError>
    ensures { OnOk result (paths.new.items ≡ paths.old.items ++ path.now ∷ []) }
{
    paths.push(path.clone()?)?;
    Ok(())
}

/// Adds a path to others, if nothing is mapped there.
fn add_missing<K: Keeper>(
    alloc: Global,
    keeper: &mut K,
    missing: &mut Vec<Path>,
    path: &Path,
) -> Result<(), StoreFault>
    ensures { Reads (K.standing keeper.old) (K.standing keeper.new) result
        (λ o _. missing.new.items ≡ missing.old.items ++ filter (is_missing o) (path.now ∷ [])) }
{
    if keeper.has(alloc, path)? {
        return Ok(());
    }
    push_path(missing, path)?;
    Ok(())
}

/// Those paths at which nothing is mapped.
pub(crate) fn read_missing<K: Keeper>(
    alloc: Global,
    keeper: &mut K,
    paths: &[Path],
) -> Result<Vec<Path>, StoreFault>
    ensures { Reads (K.standing keeper.old) (K.standing keeper.new) result
        (λ o missing. missing.items ≡ filter (is_missing o) paths.now) }
{
    let mut missing = Vec::new(alloc);
    for path in paths {
        match add_missing(alloc, keeper, &mut missing, path) {
            Ok(()) => {}
            Err(fault) => return Err(fault),
        }
    }
    Ok(missing)
}
