//! Who holds which leaves where, as objects, over any keeper.

ghost use Rattle.std.specs.Prelude.{string_bytes};
ghost use Rattle.std.specs.Option.{option_copied};
ghost use Rattle.book_office.specs.Keeping.{Reads};
ghost use Rattle.book_machine.specs.Asking.{StageAsks};
ghost use Rattle.book_questions_json.specs.HeldBlocks.{AreRightsObjects, TellsRightsObjects};

use crate::holding::told;
use book_machine::{Machine, Refusal};
use book_office::{Keeper, StoreFault};
use book_office_values::{Path, Text};
use book_questions_rights::{Asked, asked_at, askers_of, read_below, read_places};
use std::alloc::Global;

/// The objects of those who are asked about, at a path and below it.
fn rights_below<K: Keeper>(
    alloc: Global,
    keeper: &mut K,
    shared: bool,
    asked: &Asked,
) -> Result<String, StoreFault>
    ensures { Reads (K.standing keeper.old) (K.standing keeper.new) result
        (λ o text. AreRightsObjects o shared asked.now (string_bytes text)) }
{
    let askers = askers_of(alloc, keeper, asked.callers.as_slice())?;
    let paths = read_below(alloc, keeper, &asked.at)?;
    let places = read_places(alloc, keeper, paths.as_slice())?;
    Ok(told(alloc, shared, askers.as_slice(), places.as_slice())?)
}

/// The answer of `rights` as objects, one on a line (own profile), in the order of its text: the path, how many equal cards
/// are told so, which is null for a resource by itself, the caller, and the leaves by their short names. The keys of an object
/// stand in byte order. Nothing changes.
///
/// # Errors
///
/// Those of `rights`.
pub fn rights_objects<K: Keeper>(
    alloc: Global,
    machine: &mut Machine<K>,
    name: Option<&str>,
    at: &Option<Path>,
    shared: bool,
) -> Result<Text, Refusal>
    ensures { StageAsks K.standing machine.old machine.new result
        (λ o r. TellsRightsObjects o (option_copied name.entry) at.now shared r) }
{
    let asked = asked_at(alloc, machine, name, at)?;
    let text = rights_below(alloc, &mut machine.keeper, shared, &asked)?;
    Ok(Text::from_string(text))
}
