//! What a keeper has at a path.

ghost use Rattle.std.specs.Prelude.{◌≡◌, ◌++◌, ◌<◌, ◌^◌, ℕ, List, IfOk, IfSome, OnOk, map, option_map};
ghost use Rattle.book_office.specs.Keeping.{Reads};
ghost use Rattle.book_office_values.specs.Changes.{above};
ghost use Rattle.book_dumps.specs.Told.{if_removed, last_told, line_at, line_with, members_at, members_in, members_told, number_told, removed_after, removed_among, removed_in};
ghost use Rattle.book_lists.specs.Memberships.{Memberships, members_of};
ghost use Rattle.book_lists.specs.Principals.{group_path};
ghost use Rattle.book_lists.specs.declared.memberships.Membership.{Membership as MembershipOf};

use crate::lines::{Line, Removed};
use book_lists::{Membership, Name, Pairs, Principal};
use book_office::{Changed, Keeper, Level, Node, StoreFault};
use book_office_values::{Items, Path};
use std::alloc::{AllocError, Global};

/// How many changes are read at once. Each comes with the text of its card.
const PAGE: u32 = 16;

/// The members of memberships. An error is want of memory.
fn members_among(alloc: Global, pairs: &[Membership]) -> Result<Items<Principal>, AllocError>
    ensures { IfOk result (λ members. members ≡ map (λ (m : MembershipOf). m.member) pairs.now) }
{
    let mut members = Vec::with_capacity(alloc, pairs.len())?;
    for pair in pairs {
        members.push(pair.member.clone()?)?;
    }
    Ok(Items::from_vec(members))
}

/// The members of pairs of one group, in byte order. An error is want of memory.
fn members_of(alloc: Global, pairs: &Pairs) -> Result<Items<Principal>, AllocError>
    ensures { IfOk result (λ members. (all : Memberships) (group : List ℕ)
        → pairs.now ≡ members_of all group → members ≡ members_told pairs.now) }
{
    let list = pairs.list()?;
    members_among(alloc, list.as_slice())
}

/// Reads the direct members of a group.
fn read_members_of<K: Keeper>(
    alloc: Global,
    keeper: &mut K,
    name: &Name,
) -> Result<Items<Principal>, StoreFault>
    ensures { Reads (K.standing keeper.old) (K.standing keeper.new) result
        (λ o members. members ≡ members_in o (group_path name.now)) }
{
    let group = Principal::group(alloc, name)?;
    let pairs = keeper.members(alloc, &group)?;
    let members = members_of(alloc, &pairs)?;
    Ok(members)
}

/// Reads the direct members of a group; other resources have none.
fn read_members<K: Keeper>(
    alloc: Global,
    keeper: &mut K,
    path: &Path,
) -> Result<Items<Principal>, StoreFault>
    ensures { Reads (K.standing keeper.old) (K.standing keeper.new) result
        (λ o members. members ≡ members_at o path.now) }
{
    match path {
        Path::Group(name) => read_members_of(alloc, keeper, name),
        Path::Root
        | Path::People
        | Path::Groups
        | Path::Books
        | Path::Person(_)
        | Path::Book(_)
        | Path::Card(_, _) => Ok(Items::new(alloc)),
    }
}

/// The name of a change, if it has no card. An error is want of memory.
fn if_removed(change: &Changed) -> Result<Option<Removed>, AllocError>
    ensures { IfOk result (λ removed. removed ≡ if_removed change.now) }
{
    match change.card {
        Some(_) => Ok(None),
        None => Ok(Some(Removed {
            name: change.name.clone()?,
            number: change.number,
        })),
    }
}

/// Adds the removed names among changes. An error is want of memory.
fn add_removed(removed: &mut Items<Removed>, changes: &[Changed]) -> Result<(), AllocError>
    ensures { OnOk result (removed.new ≡ removed.old ++ removed_among changes.now) }
{
    for change in changes {
        if let Some(name) = if_removed(change)? {
            removed.push(name)?;
        }
    }
    Ok(())
}

/// The number of the last of some changes.
fn last_told(changes: &[Changed]) -> Option<u64>
    ensures { result ≡ last_told changes.now }
{
    match changes.last() {
        Some(change) => Some(change.number),
        None => None,
    }
}

/// A number, if it is above another.
fn if_above(number: u64, last: Option<u64>) -> Option<u64>
    ensures value { result ≡ above number last }
    ensures later { IfSome result (λ next. (number < next) × (next < 2 ^ 64)) }
{
    match last {
        Some(last) if last > number => Some(last),
        _ => None,
    }
}

/// Reads the removed names of a book, some changes at a time.
fn read_removed_of<K: Keeper>(
    alloc: Global,
    keeper: &mut K,
    book: &Name,
) -> Result<Items<Removed>, StoreFault>
    ensures { Reads (K.standing keeper.old) (K.standing keeper.new) result
        (λ o removed. removed ≡ removed_after o book.now 0) }
{
    let mut removed = Items::new(alloc);
    let mut next = Some(0);
    while let Some(number) = next {
        let page = match keeper.changes_after(alloc, book, number, Some(PAGE)) {
            Ok(page) => page,
            Err(fault) => return Err(fault),
        };
        if add_removed(&mut removed, page.as_slice()).is_err() {
            return Err(StoreFault::Memory);
        }
        next = if_above(number, last_told(page.as_slice()));
    }
    Ok(removed)
}

/// Reads the removed names of a book; other resources have none.
fn read_removed<K: Keeper>(
    alloc: Global,
    keeper: &mut K,
    path: &Path,
) -> Result<Items<Removed>, StoreFault>
    ensures { Reads (K.standing keeper.old) (K.standing keeper.new) result
        (λ o removed. removed ≡ removed_in o path.now) }
{
    match path {
        Path::Book(name) => read_removed_of(alloc, keeper, name),
        Path::Root
        | Path::People
        | Path::Groups
        | Path::Books
        | Path::Person(_)
        | Path::Group(_)
        | Path::Card(_, _) => Ok(Items::new(alloc)),
    }
}

/// The number of a resource that has one.
fn number_told(path: &Path, number: u64) -> Option<u64>
    ensures { result ≡ number_told path.now number }
{
    match path {
        Path::Book(_) | Path::Card(_, _) => Some(number),
        Path::Root | Path::People | Path::Groups | Path::Books | Path::Person(_) | Path::Group(_) =>
            None,
    }
}

/// What is told of a resource that is there.
fn line_with(
    path: Path,
    node: Node,
    level: Level,
    members: Items<Principal>,
    removed: Items<Removed>,
) -> Line
    ensures { result ≡ line_with path level members removed node }
{
    let number = number_told(&path, node.number);
    Line {
        path,
        owner: node.owner,
        label: node.label,
        protected: level.protected,
        own: level.own,
        members,
        number,
        removed,
        text: node.text,
    }
}

/// What is told of a resource, if it is there.
fn line_if(
    path: Path,
    node: Option<Node>,
    level: Level,
    members: Items<Principal>,
    removed: Items<Removed>,
) -> Option<Line>
    ensures { result ≡ option_map (line_with path level members removed) node }
{
    match node {
        Some(node) => Some(line_with(path, node, level, members, removed)),
        None => None,
    }
}

/// A copy of a path. An error is want of memory.
fn copied(path: &Path) -> Result<Path, AllocError>
    ensures { IfOk result (λ copy. copy ≡ path.now) }
{
    path.clone()
}

/// Reads what is told of the resource at a path; none where none is mapped.
pub(crate) fn read_line<K: Keeper>(
    alloc: Global,
    keeper: &mut K,
    path: &Path,
) -> Result<Option<Line>, StoreFault>
    ensures { Reads (K.standing keeper.old) (K.standing keeper.new) result
        (λ o line. line ≡ line_at o path.now) }
{
    let node = keeper.find(alloc, path)?;
    let level = keeper.level(alloc, path)?;
    let members = read_members(alloc, keeper, path)?;
    let removed = read_removed(alloc, keeper, path)?;
    let path = copied(path)?;
    Ok(line_if(path, node, level, members, removed))
}
