//! The audit of a part, over any keeper.

ghost use Rattle.std.specs.Prelude.{◌≡◌, string_bytes};
ghost use Rattle.book_office.specs.Keeping.{Reads};
ghost use Rattle.book_machine.specs.Asking.{StageAsks};
ghost use Rattle.book_questions_audit.specs.Telling.{TellsPart, part_text};

use crate::parts::{Wanted, read_parts};
use crate::telling::told;
use book_machine::{Machine, Refusal};
use book_office::{Keeper, StoreFault};
use book_office_values::{Path, Text};
use book_questions_rights::read_below;
use std::alloc::Global;

/// The lines of the resources at a path and below it.
fn part_below<K: Keeper>(
    alloc: Global,
    keeper: &mut K,
    wanted: Wanted,
    at: &Path,
) -> Result<String, StoreFault>
    ensures { Reads (K.standing keeper.old) (K.standing keeper.new) result
        (λ o text. string_bytes text ≡ part_text o wanted at.now) }
{
    let paths = read_below(alloc, keeper, at)?;
    let parts = read_parts(alloc, keeper, paths.as_slice())?;
    Ok(told(alloc, wanted, parts.as_slice())?)
}

/// The audit of the resource at a path and of each below it (own profile): each in byte order of its path, with its owner,
/// and below it its protected and its own entries, in the words of the whole audit. Where labels are wanted, ` label `
/// and the label as a JSON text follow the owner. Where cards without a list of their own are not wanted, none of them is
/// told. Neither the epoch nor memberships are told. Nothing changes.
///
/// # Errors
///
/// `NotFound` where nothing is mapped at the path; a path that was not read is none. `Unavailable` where memory was
/// refused or the store failed.
pub fn audit_part<K: Keeper>(
    alloc: Global,
    machine: &mut Machine<K>,
    at: &Option<Path>,
    wanted: Wanted,
) -> Result<Text, Refusal>
    ensures { StageAsks K.standing machine.old machine.new result
        (λ o r. TellsPart o at.now wanted r) }
{
    let at = machine.mapped(alloc, at)?;
    let text = part_below(alloc, &mut machine.keeper, wanted, &at)?;
    Ok(Text::from_string(text))
}
