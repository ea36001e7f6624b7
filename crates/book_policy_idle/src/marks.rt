//! A mark for each entry that decides no leaf for any of those who ask, at any of the places.

ghost use Rattle.std.specs.Prelude.{◌≡◌, IfOk, IsFalse, OnOk};
ghost use Rattle.book_policy_idle.specs.Idle.{is_marked};
ghost use Rattle.book_policy_idle.specs.Marks.{AreAllMarked, AreMarksOf, AreUnmarked, Clears, IsUnmarked, MarksLeft, Spares, SparesAlong, SparesAt, SparesBoth, SparesEach};

use crate::askers::Asker;
use crate::in_force::{Placed, placed_in_force};
use crate::places::{here_at, is_book};
use book_lists::{Circle, Here, applies};
use book_office_values::Path;
use book_policy_values::PolicyEntry;
use book_rights::LeafSet;
use std::alloc::{AllocError, Global};

/// Whether the index is marked.
pub(crate) fn is_marked(marks: &[bool], index: usize) -> bool
    ensures { result ≡ is_marked marks.now index }
{
    match marks.get(index) {
        Some(mark) => *mark,
        None => false,
    }
}

/// Takes a mark off.
fn unmark(marks: &mut Vec<bool>, index: usize)
    ensures { IsUnmarked index marks.old.items marks.new.items }
{
    if index < marks.len() {
        marks[index] = false;
    }
}

/// Whether a marked entry stands in the list.
fn has_marked(list: &[Placed], marks: &[bool]) -> bool
    ensures { IsFalse result → AreUnmarked marks.now list.now }
{
    for placed in list {
        if is_marked(marks, placed.index) {
            return true;
        }
    }
    false
}

/// Takes the mark off one entry more, if it decides a leaf of those that are left, and gives the leaves that are left
/// then.
fn clear_one(
    placed: &Placed,
    circle: &Circle,
    here: &Here,
    left: LeafSet,
    marks: &mut Vec<bool>,
) -> LeafSet
    ensures { Clears circle.now here.now placed.now left marks.old.items result marks.new.items }
{
    let entry = &placed.entry;
    if !left.meets(entry.set) {
        return left;
    }
    if !applies(entry, circle, here) {
        return left;
    }
    unmark(marks, placed.index);
    left.minus(entry.set)
}

/// Takes the mark off each entry that decides a leaf for a circle. It looks at each entry once.
fn clear(list: &[Placed], circle: &Circle, here: &Here, marks: &mut Vec<bool>)
    ensures { MarksLeft (Spares circle.now here.now list.now) marks.old.items marks.new.items }
{
    let mut left = LeafSet::all();
    for placed in list {
        left = clear_one(placed, circle, here, left, marks);
    }
}

/// Takes the mark off each entry that decides a leaf for one who asks: at a place, and at a card that they own where it
/// is a book.
fn clear_both(list: &[Placed], asker: &Asker, here: &Here, is_book: bool, marks: &mut Vec<bool>)
    ensures { MarksLeft (SparesBoth here.now is_book list.now asker.now)
        marks.old.items marks.new.items }
{
    clear(list, &asker.circle, here, marks);
    if is_book {
        clear(list, &asker.circle, &asker.own, marks);
    }
}

/// Takes the mark off each entry that decides a leaf for any who asks, as long as one of the list has a mark.
fn clear_each(list: &[Placed], askers: &[Asker], here: &Here, is_book: bool, marks: &mut Vec<bool>)
    ensures { MarksLeft (SparesEach here.now is_book list.now askers.now)
        marks.old.items marks.new.items }
{
    for asker in askers {
        if !has_marked(list, marks.as_slice()) {
            return;
        }
        clear_both(list, asker, here, is_book, marks);
    }
}

/// Takes the mark off each entry that decides a leaf at a place for any who asks.
fn clear_at(
    alloc: Global,
    entries: &[PolicyEntry],
    askers: &[Asker],
    path: &Path,
    marks: &mut Vec<bool>,
) -> Result<(), AllocError>
    ensures { OnOk result (MarksLeft (SparesAt entries.now askers.now path.now)
        marks.old.items marks.new.items) }
{
    let list = placed_in_force(alloc, entries, path)?;
    let here = here_at(alloc, path)?;
    clear_each(list.as_slice(), askers, &here, is_book(path), marks);
    Ok(())
}

/// Takes the mark off each entry that decides a leaf at any of the places for any who asks.
fn clear_along(
    alloc: Global,
    entries: &[PolicyEntry],
    askers: &[Asker],
    paths: &[Path],
    marks: &mut Vec<bool>,
) -> Result<(), AllocError>
    ensures { OnOk result (MarksLeft (SparesAlong entries.now askers.now paths.now)
        marks.old.items marks.new.items) }
{
    for path in paths {
        clear_at(alloc, entries, askers, path, marks)?;
    }
    Ok(())
}

/// A mark for each entry.
fn all_marked(alloc: Global, entries: &[PolicyEntry]) -> Result<Vec<bool>, AllocError>
    ensures { IfOk result (λ marks. AreAllMarked entries.now marks.items) }
{
    let mut marks = Vec::with_capacity(alloc, entries.len())?;
    for _entry in entries {
        marks.push(true)?;
    }
    Ok(marks)
}

/// A mark for each entry that decides no leaf at any of the places for any who asks.
pub(crate) fn marks_of(
    alloc: Global,
    entries: &[PolicyEntry],
    askers: &[Asker],
    paths: &[Path],
) -> Result<Vec<bool>, AllocError>
    ensures { IfOk result (λ marks. AreMarksOf entries.now askers.now paths.now marks.items) }
{
    let mut marks = all_marked(alloc, entries)?;
    clear_along(alloc, entries, askers, paths, &mut marks)?;
    Ok(marks)
}
