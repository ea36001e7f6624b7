//! How two Offices differ, over any two keepers.

ghost use Rattle.std.specs.Prelude.{◌≡◌, IfOk};
ghost use Rattle.std.specs.FinMap.{entries};
ghost use Rattle.std.specs.List.{flat_map};
ghost use Rattle.book_office_audit.specs.Audits.{Block, gathered};
ghost use Rattle.book_questions_differs.specs.Comparing.{Compares};
ghost use Rattle.book_questions_differs.specs.Differences.{AreBlocks, IsDifferences, blocks_at, blocks_of};
ghost use Rattle.book_questions_differs.specs.Parties.{AreParties, everybody};
ghost use Rattle.book_questions_differs.specs.Places.{paths_of_either};

use crate::parties::{Party, everybody, parties_of};
use crate::places::{read_missing, read_side};
use crate::telling::add_sides;
use book_office::{Keeper, StoreFault};
use book_office_values::{Path, Text};
use book_questions_rights::{Blocks, read_below};
use std::alloc::{AllocError, Global};

/// Nobody and each person of either Office.
fn read_parties<K: Keeper, L: Keeper>(
    alloc: Global,
    before: &mut K,
    after: &mut L,
) -> Result<Vec<Party>, StoreFault>
    ensures { Compares (K.standing before.old) (K.standing before.new) (L.standing after.old)
        (L.standing after.new) result
        (λ o p parties. AreParties o p (everybody o p) parties.items) }
{
    let was = before.children(alloc, &Path::People)?;
    let is = after.children(alloc, &Path::People)?;
    let names = everybody(alloc, was.as_slice(), is.as_slice())?;
    parties_of(alloc, before, after, names.as_slice())
}

/// The path of each resource of either Office that is no card: those of the one before, and then those of the one after
/// that the one before has not. An error is want of memory or a failure of one of the stores.
pub fn read_paths<K: Keeper, L: Keeper>(
    alloc: Global,
    before: &mut K,
    after: &mut L,
) -> Result<Vec<Path>, StoreFault>
    ensures { Compares (K.standing before.old) (K.standing before.new) (L.standing after.old)
        (L.standing after.new) result (λ o p paths. paths.items ≡ paths_of_either o p) }
{
    let mut paths = read_below(alloc, before, &Path::Root)?;
    let others = read_below(alloc, after, &Path::Root)?;
    let mut missing = read_missing(alloc, before, others.as_slice())?;
    paths.append(&mut missing)?;
    Ok(paths)
}

/// Adds the lines of what each Office has at a path.
fn add_at<K: Keeper, L: Keeper>(
    alloc: Global,
    before: &mut K,
    after: &mut L,
    blocks: &mut Blocks,
    parties: &[Party],
    path: &Path,
) -> Result<(), StoreFault>
    ensures { Compares (K.standing before.old) (K.standing before.new) (L.standing after.old)
        (L.standing after.new) result
        (λ o p _. blocks.new ≡ gathered blocks.old (blocks_at o p parties.now path.now)) }
{
    let was = read_side(alloc, before, path)?;
    let is = read_side(alloc, after, path)?;
    add_sides(alloc, blocks, parties, path, was, is)?;
    Ok(())
}

/// Adds the lines of what each Office has at some paths. The cards of one book are in memory at a time.
fn add_each<K: Keeper, L: Keeper>(
    alloc: Global,
    before: &mut K,
    after: &mut L,
    blocks: &mut Blocks,
    parties: &[Party],
    paths: &[Path],
) -> Result<(), StoreFault>
    ensures { Compares (K.standing before.old) (K.standing before.new) (L.standing after.old)
        (L.standing after.new) result
        (λ o p _. blocks.new ≡ gathered blocks.old (blocks_of o p parties.now paths.now)) }
{
    for path in paths {
        match add_at(alloc, before, after, blocks, parties, path) {
            Ok(()) => {}
            Err(fault) => return Err(fault),
        }
    }
    Ok(())
}

/// The lines of each resource of either Office, by the texts of the paths.
fn read_blocks<K: Keeper, L: Keeper>(
    alloc: Global,
    before: &mut K,
    after: &mut L,
) -> Result<Blocks, StoreFault>
    ensures { Compares (K.standing before.old) (K.standing before.new) (L.standing after.old)
        (L.standing after.new) result (λ o p blocks. AreBlocks o p blocks) }
{
    let parties = read_parties(alloc, before, after)?;
    let paths = read_paths(alloc, before, after)?;
    let mut blocks = Blocks::new(alloc);
    add_each(
        alloc,
        before,
        after,
        &mut blocks,
        parties.as_slice(),
        paths.as_slice(),
    )?;
    Ok(blocks)
}

/// The texts of blocks.
fn text_of(alloc: Global, blocks: &Blocks) -> Result<Text, AllocError>
    ensures { IfOk result (λ text. text ≡ flat_map (λ (b : Block). b.1) (entries blocks.now)) }
{
    let mut text = String::new(alloc);
    blocks.push_all(&mut text)?;
    Ok(Text::from_string(text))
}

/// Which rights differ in two Offices (own profile): those that are lost, granted before and not after, and those that
/// are gained, granted after and not before. A line has the word `lost` or `gained`, the path of the resource, the path
/// of the person or `nobody`, and the leaves by their short names. A resource or a person that is in one Office alone
/// grants or holds nothing in the other. The cards of a book whose owners and own lists are equal in both Offices are
/// told once: after the path of the first of them stands ` of ` and how many there are. Resources stand in byte order
/// of their paths; at each stands nobody first, and then the persons in byte order of their names. Nothing changes.
///
/// An error is want of memory or a failure of one of the stores.
///
/// Each resource that is no card is read once of each keeper, and the cards of each book once. The entries in force are
/// copied once for each resource and for each class of equal cards, and gone over once for each who is asked about; each
/// card is compared with those before it up to the first that is like it. The cards of one book are in memory at a time.
pub fn rights_differences<K: Keeper, L: Keeper>(
    alloc: Global,
    before: &mut K,
    after: &mut L,
) -> Result<Text, StoreFault>
    ensures { Compares (K.standing before.old) (K.standing before.new) (L.standing after.old)
        (L.standing after.new) result (λ o p text. IsDifferences o p text) }
{
    let blocks = read_blocks(alloc, before, after)?;
    Ok(text_of(alloc, &blocks)?)
}
