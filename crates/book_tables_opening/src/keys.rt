//! What is counted together: the keys of entries, members, cards and changes.

ghost use Rattle.std.specs.Prelude.{◌≡◌, ◌↔◌, pos, ◌≤◌, IsTrue, IfOk, length, filter};
ghost use Rattle.std.specs.List.{AllByRecursion};
ghost use Rattle.sqlite.specs.Edit.{id_in};
ghost use Rattle.sqlite.specs.Order.{column};
ghost use Rattle.book_limits.specs.declared.TheConstants.{MAX_BOOKS};
ghost use Rattle.book_tables_opening.specs.Directories as nodes;
ghost use Rattle.book_tables_opening.specs.Opening as keys;
ghost use Rattle.book_tables_opening.specs.Opening.{IsWithinBook};
ghost use Rattle.book_tables_opening.specs.Shown.{shown_node, shown_parent, shown_protected};

use crate::directories::Directory;
use crate::principal_tests::is_of_kind;
use book_limits::MAX_BOOKS;
use sqlite::Row;
use sqlite::types::ValueRef;
use std::alloc::{AllocError, Global};

/// The whole number in a column; 0 where there is none.
pub fn int_at(row: &Row, at: usize) -> i64
    ensures { result ≡ id_in (column row.now at) }
{
    match row.get_ref(at) {
        Ok(ValueRef::Int(number)) => number,
        _ => 0,
    }
}

/// The node of an entry, and whether it is protected.
fn list_key(row: &Row) -> (i64, i64)
    ensures { result ≡ (id_in (shown_node row.now), id_in (shown_protected row.now)) }
{
    (int_at(row, 0), int_at(row, 1))
}

/// Of each entry, its node and whether it is protected. An error is want of memory.
pub(crate) fn list_keys(alloc: Global, entries: &[Row]) -> Result<Vec<(i64, i64)>, AllocError>
    ensures { IfOk result (λ found. found.items ≡ keys.list_keys entries.now) }
{
    let mut found = Vec::with_capacity(alloc, entries.len())?;
    for row in entries {
        found.push(list_key(row))?;
    }
    Ok(found)
}

/// The number of the row of the group that a member's row names; 0 where it names none that is there.
fn group_of(directory: &Directory, row: &Row) -> i64
    ensures { result ≡ keys.group_key directory.now row.now }
{
    let path = match row.get_ref(0) {
        Ok(ValueRef::Text(path)) => path,
        _ => b"",
    };
    match directory.at(path) {
        Some(group) => int_at(group, 0),
        None => 0,
    }
}

/// The group of a member, and 0.
fn group_key(directory: &Directory, row: &Row) -> (i64, i64)
    ensures { result ≡ (keys.group_key directory.now row.now, pos 0) }
{
    (group_of(directory, row), 0)
}

/// Of each member, its group. An error is want of memory.
pub(crate) fn group_keys(
    alloc: Global,
    directory: &Directory,
    members: &[Row],
) -> Result<Vec<(i64, i64)>, AllocError>
    ensures { IfOk result (λ found. found.items ≡ keys.group_keys directory.now members.now) }
{
    let mut found = Vec::with_capacity(alloc, members.len())?;
    for row in members {
        found.push(group_key(directory, row))?;
    }
    Ok(found)
}

/// The book of a card, and 0.
fn card_key(row: &Row) -> (i64, i64)
    ensures { result ≡ (id_in (shown_parent row.now), pos 0) }
{
    (int_at(row, 2), 0)
}

/// Of each card, its book. An error is want of memory.
pub(crate) fn card_keys(alloc: Global, directory: &Directory) -> Result<Vec<(i64, i64)>, AllocError>
    ensures { IfOk result (λ found. found.items ≡ keys.card_keys directory.now) }
{
    let rows = directory.rows();
    let mut found = Vec::new(alloc);
    for row in rows {
        if is_of_kind(row, 5) {
            found.push(card_key(row))?;
        }
    }
    Ok(found)
}

/// The book of a card and its change number.
fn card_change(row: &Row) -> (i64, i64)
    ensures { result ≡ keys.card_change row.now }
{
    (int_at(row, 2), int_at(row, 7))
}

/// Of each card, its book and its change number. An error is want of memory.
fn card_changes(alloc: Global, directory: &Directory) -> Result<Vec<(i64, i64)>, AllocError>
    ensures { IfOk result (λ found. found.items ≡ keys.card_changes directory.now) }
{
    let rows = directory.rows();
    let mut found = Vec::new(alloc);
    for row in rows {
        if is_of_kind(row, 5) {
            found.push(card_change(row))?;
        }
    }
    Ok(found)
}

/// The book of a removed name and its change number.
fn gone_change(row: &Row) -> (i64, i64)
    ensures { result ≡ keys.gone_change row.now }
{
    (int_at(row, 0), int_at(row, 2))
}

/// Of each removed name, its book and its change number. An error is want of memory.
fn gone_changes(alloc: Global, gone: &[Row]) -> Result<Vec<(i64, i64)>, AllocError>
    ensures { IfOk result (λ found. found.items ≡ keys.gone_changes gone.now) }
{
    let mut found = Vec::with_capacity(alloc, gone.len())?;
    for row in gone {
        found.push(gone_change(row))?;
    }
    Ok(found)
}

/// Of each card and of each removed name, its book and its change number. An error is want of memory.
pub fn change_keys(
    alloc: Global,
    directory: &Directory,
    gone: &[Row],
) -> Result<Vec<(i64, i64)>, AllocError>
    ensures { IfOk result (λ found. found.items ≡ keys.change_keys directory.now gone.now) }
{
    let mut found = card_changes(alloc, directory)?;
    let mut names = gone_changes(alloc, gone)?;
    found.append(&mut names)?;
    Ok(found)
}

/// Whether the number of a key is from 1 to that of its book, which is there.
fn is_within(directory: &Directory, key: &(i64, i64)) -> bool
    ensures { IsTrue result ↔ IsWithinBook directory.now key.now }
{
    match directory.numbered(&key.0) {
        Some(book) => 1 <= key.1 && key.1 <= int_at(book, 7),
        None => false,
    }
}

/// Whether the number of each key is from 1 to that of its book, which is there.
pub fn are_within(directory: &Directory, found: &[(i64, i64)]) -> bool
    ensures { IsTrue result ↔ AllByRecursion (IsWithinBook directory.now) found.now }
{
    for key in found {
        if !is_within(directory, key) {
            return false;
        }
    }
    true
}

/// Whether there are no more books than may be.
pub fn are_few_books(directory: &Directory) -> bool
    ensures { IsTrue result ↔ (length (filter (nodes.is_of_kind 4) directory.now) ≤ MAX_BOOKS) }
{
    let rows = directory.rows();
    let mut count = 0;
    for row in rows {
        if is_of_kind(row, 4) {
            if count >= MAX_BOOKS {
                return false;
            }
            count += 1;
        }
    }
    true
}
