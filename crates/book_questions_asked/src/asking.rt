//! A decision as a text, over any keeper.

ghost use Rattle.std.specs.Prelude.{◌≡◌, IfOk};
ghost use Rattle.std.specs.Option.{option_copied};
ghost use Rattle.book_office.specs.Keeping.{Reads};
ghost use Rattle.book_machine.specs.Asking.{Meets, StageAsks};
ghost use Rattle.book_questions_asked.specs.Asking.{IsTold, TellsAsk, asked_at, told_of};

use crate::lines::stated_text;
use crate::reading::read_stated;
use crate::stated::{Asked, Stated, fits};
use book_machine::{Machine, Refusal};
use book_office::{Keeper, StoreFault};
use book_office_values::{Path, Text};
use book_rights::LeafSet;
use std::alloc::{AllocError, Global};

/// Of whom it is asked, and where.
fn asked_at<K: Keeper>(
    alloc: Global,
    machine: &mut Machine<K>,
    name: Option<&str>,
    at: &Option<Path>,
) -> Result<Asked, Refusal>
    ensures { StageAsks K.standing machine.old machine.new result
        (λ o r. Meets r (asked_at o (option_copied name.entry) at.now)) }
{
    let needed = machine.needed_at(alloc, name, at, LeafSet::all())?;
    let at = machine.mapped(alloc, at)?;
    Ok(Asked {
        caller: needed.caller,
        at,
    })
}

/// The text of what is stated; none where `explain` does not take as much.
fn told_of(alloc: Global, stated: &Stated) -> Result<Option<Text>, AllocError>
    ensures { IfOk result (λ told. told ≡ told_of stated.now) }
{
    if !fits(stated) {
        return Ok(None);
    }
    Ok(Some(stated_text(alloc, stated)?))
}

/// The text of what a decision on leaves rests on; none where `explain` does not take as much.
fn told_at<K: Keeper>(
    alloc: Global,
    keeper: &mut K,
    asked: &Asked,
    set: LeafSet,
) -> Result<Option<Text>, StoreFault>
    ensures { Reads (K.standing keeper.old) (K.standing keeper.new) result
        (λ o told. IsTold o asked.now set told) }
{
    let stated = read_stated(alloc, keeper, asked, set)?;
    Ok(told_of(alloc, &stated)?)
}

/// What the decision on leaves at the resource at a path rests on, for a caller by its bare name, of which none is
/// nobody, as a text that `explain` reads (own profile): the direct memberships from which chains lead to the caller,
/// the caller, the owner of the resource, the resource where it is a principal, the leaves by their short names, and
/// the entries in force in order. None where `explain` does not take as much: more than 1,000 memberships or 64
/// entries, an entry without privileges, or no leaf. Nothing changes.
///
/// # Errors
///
/// `UnknownCaller` where the caller is no person; else `NotFound` where nothing is mapped at the path; a path that was
/// not read is none. `Unavailable` where memory was refused or the store failed.
pub fn ask<K: Keeper>(
    alloc: Global,
    machine: &mut Machine<K>,
    name: Option<&str>,
    at: &Option<Path>,
    set: LeafSet,
) -> Result<Option<Text>, Refusal>
    ensures { StageAsks K.standing machine.old machine.new result
        (λ o r. TellsAsk o (option_copied name.entry) at.now set r) }
{
    let asked = asked_at(alloc, machine, name, at)?;
    let told = told_at(alloc, &mut machine.keeper, &asked, set);
    drop(asked);
    Ok(told?)
}
