//! The audit text.

ghost use Rattle.std.specs.Prelude.{◌≡◌, ◌++◌, [], codes, map, IfOk, OnOk, string_bytes};
ghost use Rattle.std.specs.FinMap as map;
ghost use Rattle.std.specs.List.{flat_map};
ghost use Rattle.book_office.specs.Keeping.{Reads};
ghost use Rattle.book_office_audit.specs.Audits.{IsAuditText, IsTextOf, block_of, blocks_of, gathered, level_block};
ghost use Rattle.book_office_audit.specs.Audits.{member_block, member_line, shelf_blocks};

use crate::blocks::Blocks;
use crate::contents::{Contents, Shelf};
use crate::entry_lines::resource_lines;
use crate::reading::read_contents;
use book_lists::{Membership, Pairs, Principal};
use book_office::{Keeper, Level, Listed, StoreFault};
use book_office_values::Text;
use std::alloc::{AllocError, Global};

/// The line of a direct membership, without its end.
fn member_line(alloc: Global, membership: &Membership) -> Result<Text, AllocError>
    ensures { IfOk result (λ line. line ≡ member_line membership.now) }
{
    let mut line = String::from_str(alloc, "member ")?;
    line.push_str(membership.group.text())?;
    line.push_str(" ")?;
    line.push_str(membership.member.text())?;
    Ok(Text::from_string(line))
}

/// A line with its end.
fn ended(alloc: Global, line: &Text) -> Result<Text, AllocError>
    ensures { IfOk result (λ ended. ended ≡ line.now ++ codes "\n") }
{
    let mut text = String::from_str(alloc, line.as_str())?;
    text.push_str("\n")?;
    Ok(Text::from_string(text))
}

/// Adds the line of each membership.
fn add_members(
    alloc: Global,
    blocks: &mut Blocks,
    memberships: &[Membership],
) -> Result<(), AllocError>
    ensures { OnOk result (blocks.new ≡ gathered blocks.old (map member_block memberships.now)) }
{
    for membership in memberships {
        let line = member_line(alloc, membership)?;
        let text = ended(alloc, &line)?;
        blocks.add(line, text)?;
    }
    Ok(())
}

/// The path of a child: the path above it, which is empty for a home, a slash and its name.
fn path_below(alloc: Global, above: &str, child: &Listed) -> Result<Text, AllocError>
    ensures { IfOk result (λ path. path ≡ above.now ++ codes "/" ++ child.now.name) }
{
    let mut path = String::from_str(alloc, above)?;
    path.push_str("/")?;
    path.push_str(child.name.text())?;
    Ok(Text::from_string(path))
}

/// Adds the lines of a child.
fn add_child(
    alloc: Global,
    blocks: &mut Blocks,
    above: &str,
    child: &Listed,
) -> Result<(), AllocError>
    ensures { OnOk result (blocks.new ≡ map.insert blocks.old (block_of above.now child.now).0
        (block_of above.now child.now).1) }
{
    let path = path_below(alloc, above, child)?;
    let lines = resource_lines(
        alloc,
        path.as_str(),
        &child.owner,
        child.protected.as_slice(),
        child.own.as_slice(),
    )?;
    blocks.add(path, lines)
}

/// Adds the lines of each child.
fn add_children(
    alloc: Global,
    blocks: &mut Blocks,
    above: &str,
    children: &[Listed],
) -> Result<(), AllocError>
    ensures { OnOk result (blocks.new ≡ gathered blocks.old
        (map (block_of above.now) children.now)) }
{
    for child in children {
        add_child(alloc, blocks, above, child)?;
    }
    Ok(())
}

/// Adds the lines of the cards of each book.
fn add_shelves(alloc: Global, blocks: &mut Blocks, shelves: &[Shelf]) -> Result<(), AllocError>
    ensures { OnOk result (blocks.new ≡ gathered blocks.old (flat_map shelf_blocks shelves.now)) }
{
    for shelf in shelves {
        add_children(alloc, blocks, shelf.book.as_str(), shelf.cards.as_slice())?;
    }
    Ok(())
}

/// Adds the lines of the root, which are those of its one level.
fn add_levels(
    alloc: Global,
    blocks: &mut Blocks,
    owner: &Option<Principal>,
    levels: &[Level],
) -> Result<(), AllocError>
    ensures { OnOk result (blocks.new ≡ gathered blocks.old
        (map (level_block owner.now) levels.now)) }
{
    for level in levels {
        let path = Text::copy_of(alloc, "/")?;
        let lines = resource_lines(
            alloc,
            "/",
            owner,
            level.protected.as_slice(),
            level.own.as_slice(),
        )?;
        blocks.add(path, lines)?;
    }
    Ok(())
}

/// The lines of all resources, by the texts of their paths.
fn resource_blocks(alloc: Global, contents: &Contents) -> Result<Blocks, AllocError>
    ensures { IfOk result (λ blocks. blocks ≡ gathered map.empty (blocks_of contents.now)) }
{
    let mut blocks = Blocks::new(alloc);
    let top = &contents.top;
    let residents = &contents.residents;
    add_levels(alloc, &mut blocks, &top.owner, top.lists.levels.as_slice())?;
    add_children(alloc, &mut blocks, "", top.homes.as_slice())?;
    add_children(alloc, &mut blocks, "/people", residents.persons.as_slice())?;
    add_children(alloc, &mut blocks, "/groups", residents.groups.as_slice())?;
    add_children(alloc, &mut blocks, "/books", residents.books.as_slice())?;
    add_shelves(alloc, &mut blocks, contents.shelves.as_slice())?;
    Ok(blocks)
}

/// The lines of all direct memberships, by line.
fn member_blocks(alloc: Global, memberships: &[Membership]) -> Result<Blocks, AllocError>
    ensures { IfOk result (λ blocks. blocks ≡ gathered map.empty
        (map member_block memberships.now)) }
{
    let mut blocks = Blocks::new(alloc);
    add_members(alloc, &mut blocks, memberships)?;
    Ok(blocks)
}

/// The text of what was read.
fn text_of(
    alloc: Global,
    epoch: u64,
    pairs: &Pairs,
    contents: &Contents,
) -> Result<String, AllocError>
    ensures { IfOk result (λ text. IsTextOf epoch pairs.now contents.now (string_bytes text)) }
{
    let memberships = pairs.list()?;
    let members = member_blocks(alloc, memberships.as_slice())?;
    let resources = resource_blocks(alloc, contents)?;
    let mut text = format!(in alloc; "epoch {epoch}\n")?;
    members.push_all(&mut text)?;
    resources.push_all(&mut text)?;
    Ok(text)
}

/// The audit of an Office (own profile): `epoch N`; then `member GROUP MEMBER` for each direct membership, in byte order
/// of these lines; then for each resource, in byte order of its path, `PATH owner OWNER`, with `-` for none, and below
/// it its protected and its own entries, each with its principal form and short names. Each line ends with a line feed.
/// An error is want of memory or a failure of the store.
///
/// The children of each home and of each book are read once. The number of comparisons grows with the resources and the
/// logarithm of their number.
pub fn audit_text<K: Keeper>(alloc: Global, keeper: &mut K) -> Result<String, StoreFault>
    ensures { Reads (K.standing keeper.old) (K.standing keeper.new) result
        (λ o text. IsAuditText o (string_bytes text)) }
{
    let epoch = keeper.epoch()?;
    let pairs = keeper.pairs(alloc)?;
    let contents = read_contents(alloc, keeper)?;
    Ok(text_of(alloc, epoch, &pairs, &contents)?)
}
