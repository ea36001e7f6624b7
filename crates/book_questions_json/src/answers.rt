//! Answers over any keeper.

ghost use Rattle.std.specs.Prelude.{string_bytes};
ghost use Rattle.std.specs.Option.{option_copied};
ghost use Rattle.book_office.specs.Keeping.{Reads};
ghost use Rattle.book_machine.specs.Asking.{StageAsks};
ghost use Rattle.book_questions_json.specs.Telling.{AreWhoObjects, AreWhyObjects, TellsWhoObjects, TellsWhyObjects};

use crate::lines::{who_lines, why_lines};
use book_machine::{Machine, Needed, Refusal};
use book_office::{Keeper, StoreFault};
use book_office_values::{Path, Text};
use book_questions::{Question, holders_at, in_force, needed_for, why_of};
use book_rights::{LeafSet, Privilege};
use std::alloc::Global;

/// The objects of what decides each need.
fn why_at<K: Keeper>(alloc: Global, keeper: &mut K, needed: &Needed) -> Result<String, StoreFault>
    ensures { Reads (K.standing keeper.old) (K.standing keeper.new) result
        (λ o text. AreWhyObjects o needed.now (string_bytes text)) }
{
    let why = why_of(alloc, keeper, needed)?;
    Ok(why_lines(alloc, &why)?)
}

/// The answer of `why` as objects, one on a line (own profile): first the verdict, `{"denied":null}` where the request is
/// granted, and else what a refused request is told of its denial; then each need with its resource, its privileges and,
/// for each of its leaves, the entry that decides it. The keys of an object stand in byte order. Nothing changes.
///
/// # Errors
///
/// Those of `why`.
pub fn why_objects<K: Keeper>(
    alloc: Global,
    machine: &mut Machine<K>,
    name: Option<&str>,
    question: &Question,
) -> Result<Text, Refusal>
    ensures { StageAsks K.standing machine.old machine.new result
        (λ o r. TellsWhyObjects o (option_copied name.entry) question.now r) }
{
    let needed = needed_for(alloc, machine, name, question)?;
    let text = why_at(alloc, &mut machine.keeper, &needed)?;
    Ok(Text::from_string(text))
}

/// The objects of those to whom a set is granted at a path, or of the others.
fn who_at<K: Keeper>(
    alloc: Global,
    keeper: &mut K,
    path: &Path,
    denied: bool,
    set: LeafSet,
) -> Result<String, StoreFault>
    ensures { Reads (K.standing keeper.old) (K.standing keeper.new) result
        (λ o text. AreWhoObjects o denied path.now set (string_bytes text)) }
{
    let holders = holders_at(alloc, keeper, path)?;
    let force = in_force(alloc, keeper, path)?;
    match who_lines(alloc, denied, &force, set, holders.as_slice()) {
        Ok(text) => Ok(text),
        Err(_) => Err(StoreFault::Memory),
    }
}

/// The answer of `who` as objects, one on a line (own profile): for each person, and nobody, to whom a privilege is granted
/// at a path, or with `denied` for each other one, the caller, and for each leaf the entry that decides it. The keys of an
/// object stand in byte order. Nothing changes.
///
/// # Errors
///
/// Those of `who`.
pub fn who_objects<K: Keeper>(
    alloc: Global,
    machine: &mut Machine<K>,
    privilege: Privilege,
    path: &Option<Path>,
    denied: bool,
) -> Result<Text, Refusal>
    ensures { StageAsks K.standing machine.old machine.new result
        (λ o r. TellsWhoObjects o denied privilege path.now r) }
{
    let at = machine.mapped(alloc, path)?;
    let text = who_at(alloc, &mut machine.keeper, &at, denied, privilege.leaves())?;
    Ok(Text::from_string(text))
}
