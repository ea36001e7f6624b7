//! What is in force at a resource of one Office, and what a caller holds there.

ghost use Rattle.std.specs.Prelude.{◌≡◌, ◌++◌, true, false, IfOk, OnOk};
ghost use Rattle.book_office.specs.InForce.{list_in, lists_in};
ghost use Rattle.book_questions_rights.specs.Lines.{granted_by};
ghost use Rattle.book_questions_differs.specs.Forces.{card_force, card_force_in, force_in, force_of, held};

use crate::places::Found;
use book_lists::{Circle, Entry, Here, Principal, granted};
use book_office::{Level, Listed};
use book_office_values::Items;
use book_rights::LeafSet;
use std::alloc::{AllocError, Global};

/// The entries in force at a resource, and what they ask of it.
#[derive(Debug, Drop)]
pub struct Force {
    /// The entries, in the order in which they decide.
    pub entries: Items<Entry>,
    /// The owner of the resource, and itself where it is a principal.
    pub here: Here,
}

/// A copy of an owner.
fn copied(owner: &Option<Principal>) -> Result<Option<Principal>, AllocError>
    ensures { IfOk result (λ copy. copy ≡ owner.now) }
{
    match owner {
        Some(owner) => Ok(Some(owner.clone()?)),
        None => Ok(None),
    }
}

/// Adds copies of the entries of a list.
fn push_entries(entries: &mut Vec<Entry>, list: &[Entry]) -> Result<(), AllocError>
    ensures { OnOk result (entries.new.items ≡ entries.old.items ++ list.now) }
{
    for entry in list {
        entries.push(entry.clone()?)?;
    }
    Ok(())
}

/// The protected list of a level, or its own list.
fn list_in(level: &Level, protected: bool) -> &[Entry]
    ensures { result.now ≡ list_in protected level.now }
{
    if protected {
        level.protected.as_slice()
    } else {
        level.own.as_slice()
    }
}

/// Adds copies of the entries of the protected lists of levels in turn, or of their own lists.
fn push_lists(entries: &mut Vec<Entry>, levels: &[Level], protected: bool) -> Result<(), AllocError>
    ensures { OnOk result (entries.new.items ≡
        entries.old.items ++ lists_in protected levels.now) }
{
    for level in levels {
        push_entries(entries, list_in(level, protected))?;
    }
    Ok(())
}

/// The entries of the protected lists of levels, then those of one list more, and then those of the own lists.
fn entries_with(alloc: Global, levels: &[Level], own: &[Entry]) -> Result<Items<Entry>, AllocError>
    ensures { IfOk result (λ entries. entries ≡
        lists_in true levels.now ++ (own.now ++ lists_in false levels.now)) }
{
    let mut entries = Vec::new(alloc);
    push_lists(&mut entries, levels, true)?;
    push_entries(&mut entries, own)?;
    push_lists(&mut entries, levels, false)?;
    Ok(Items::from_vec(entries))
}

/// What entries ask of a resource, once more.
fn here_copied(here: &Here) -> Result<Here, AllocError>
    ensures { IfOk result (λ copy. copy ≡ here.now) }
{
    Ok(Here {
        owner: copied(&here.owner)?,
        principal: copied(&here.principal)?,
    })
}

/// What is in force at a resource that is no card.
fn force_of(alloc: Global, found: &Found) -> Result<Force, AllocError>
    ensures { IfOk result (λ force. force ≡ force_of found.now) }
{
    let entries = entries_with(alloc, found.lists.levels.as_slice(), &[])?;
    let here = here_copied(&found.here)?;
    Ok(Force { entries, here })
}

/// What is in force at a resource that is no card, if it is there.
pub(crate) fn force_in(alloc: Global, found: &Option<Found>) -> Result<Option<Force>, AllocError>
    ensures { IfOk result (λ force. force ≡ force_in found.now) }
{
    match found {
        Some(found) => Ok(Some(force_of(alloc, found)?)),
        None => Ok(None),
    }
}

/// What is in force at a card of a book.
fn card_force(alloc: Global, book: &Found, card: &Listed) -> Result<Force, AllocError>
    ensures { IfOk result (λ force. force ≡ card_force book.now card.now) }
{
    let entries = entries_with(alloc, book.lists.levels.as_slice(), card.own.as_slice())?;
    let owner = copied(&card.owner)?;
    let here = Here {
        owner,
        principal: None,
    };
    Ok(Force { entries, here })
}

/// What is in force at a card of a book, if both are there.
pub(crate) fn card_force_in(
    alloc: Global,
    book: &Option<Found>,
    card: &Option<Listed>,
) -> Result<Option<Force>, AllocError>
    ensures { IfOk result (λ force. force ≡ card_force_in book.now card.now) }
{
    let Some(book) = book else {
        return Ok(None);
    };
    match card {
        Some(card) => Ok(Some(card_force(alloc, book, card)?)),
        None => Ok(None),
    }
}

/// The leaves that entries grant, as a set.
fn granted_by(force: &Force, circle: &Circle) -> LeafSet
    ensures { result ≡ granted_by force.now.entries circle.now force.now.here }
{
    granted(force.entries.as_slice(), circle, &force.here)
}

/// What a caller holds at a resource; nothing where one of them is not there.
pub(crate) fn held(force: &Option<Force>, circle: &Option<Circle>) -> LeafSet
    ensures { result ≡ held force.now circle.now }
{
    let Some(force) = force else {
        return LeafSet::empty();
    };
    match circle {
        Some(circle) => granted_by(force, circle),
        None => LeafSet::empty(),
    }
}
