//! What an Office is as a text: all that a keeper tells of it.

use anyhow::{Context, Result};
use book_office::{Keeper, Listed, Path};
use std::alloc::Global;
use std::fmt::Write;

/// Adds the epoch and the direct members of groups.
fn push_members<K: Keeper>(alloc: Global, text: &mut String, keeper: &mut K) -> Result<()> {
    let epoch = keeper.epoch().ok().context("an epoch")?;
    let pairs = keeper.pairs(alloc).ok().context("pairs")?;
    let members = pairs.list()?;
    write!(text, "{epoch} {members:?}\n")?;
    Ok(())
}

/// Adds the root and its lists.
fn push_root<K: Keeper>(alloc: Global, text: &mut String, keeper: &mut K) -> Result<()> {
    let root = keeper.find(alloc, &Path::Root).ok().context("a root")?;
    let lists = keeper.lists(alloc, &Path::Root).ok().context("lists")?;
    write!(text, "{root:?} {lists:?}\n")?;
    Ok(())
}

/// Adds the children of the root or of a home, with their lists.
fn push_children<K: Keeper>(
    alloc: Global,
    text: &mut String,
    keeper: &mut K,
    home: &Path,
) -> Result<()> {
    let children = keeper.children(alloc, home).ok().context("children")?;
    write!(text, "{children:?}\n")?;
    Ok(())
}

/// Adds the last change of each name of a book, with the card that has the name.
fn push_changes<K: Keeper>(
    alloc: Global,
    text: &mut String,
    keeper: &mut K,
    book: &Listed,
) -> Result<()> {
    let changes = keeper.changes_after(alloc, &book.name, 0, None);
    let changes = changes.ok().context("changes")?;
    write!(text, "{changes:?}\n")?;
    Ok(())
}

/// Adds what stands in each book.
fn push_books<K: Keeper>(alloc: Global, text: &mut String, keeper: &mut K) -> Result<()> {
    let books = keeper.children(alloc, &Path::Books).ok().context("books")?;
    for book in books.as_slice() {
        push_changes(alloc, text, keeper, book)?;
    }
    Ok(())
}

/// All that a keeper tells of its Office: equal Offices have equal texts.
pub(crate) fn office_text<K: Keeper>(alloc: Global, keeper: &mut K) -> Result<String> {
    let mut text = String::new(alloc);
    push_members(alloc, &mut text, keeper)?;
    push_root(alloc, &mut text, keeper)?;
    for home in [Path::Root, Path::People, Path::Groups, Path::Books] {
        push_children(alloc, &mut text, keeper, &home)?;
    }
    push_books(alloc, &mut text, keeper)?;
    Ok(text)
}
