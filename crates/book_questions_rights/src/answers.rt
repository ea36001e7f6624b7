//! Who holds which leaves where, over any keeper.

ghost use Rattle.std.specs.Prelude.{◌≡◌, ◌∷◌, [], None, Some, IfOk, string_bytes};
ghost use Rattle.std.specs.Option.{option_copied};
ghost use Rattle.book_office.specs.Keeping.{Reads};
ghost use Rattle.book_machine.specs.Asking.{Meets, StageAsks};
ghost use Rattle.book_questions_rights.specs.Rights.{IsRightsText, TellsRights, asked_at};

use crate::askers::askers_of;
use crate::places::{read_below, read_places};
use crate::telling::told;
use book_lists::Caller;
use book_machine::{Machine, Refusal};
use book_office::{Keeper, StoreFault};
use book_office_values::{Items, Path, Text};
use book_questions::callers_of;
use book_rights::LeafSet;
use std::alloc::{AllocError, Global};

/// What is asked: of whom, and where.
#[derive(Debug, Drop)]
pub struct Asked {
    /// Who is asked about.
    pub callers: Items<Caller>,
    /// The resource that is asked about, with all below it.
    pub at: Path,
}

/// The lines of those who are asked about, at a path and below it.
fn rights_below<K: Keeper>(
    alloc: Global,
    keeper: &mut K,
    shared: bool,
    asked: &Asked,
) -> Result<String, StoreFault>
    ensures { Reads (K.standing keeper.old) (K.standing keeper.new) result
        (λ o text. IsRightsText o shared asked.now (string_bytes text)) }
{
    let askers = askers_of(alloc, keeper, asked.callers.as_slice())?;
    let paths = read_below(alloc, keeper, &asked.at)?;
    let places = read_places(alloc, keeper, paths.as_slice())?;
    Ok(told(alloc, shared, askers.as_slice(), places.as_slice())?)
}

/// A caller alone.
fn alone(alloc: Global, caller: Caller) -> Result<Items<Caller>, AllocError>
    ensures { IfOk result (λ callers. callers ≡ caller ∷ []) }
{
    let mut callers = Vec::new(alloc);
    callers.push(caller)?;
    Ok(Items::from_vec(callers))
}

/// Everybody is asked about at a path.
fn everybody_at<K: Keeper>(
    alloc: Global,
    machine: &mut Machine<K>,
    at: &Option<Path>,
) -> Result<Asked, Refusal>
    ensures { StageAsks K.standing machine.old machine.new result
        (λ o r. Meets r (asked_at o None at.now)) }
{
    let at = machine.mapped(alloc, at)?;
    let callers = callers_of(alloc, &mut machine.keeper)?;
    Ok(Asked { callers, at })
}

/// The person of a name is asked about at a path.
fn person_at<K: Keeper>(
    alloc: Global,
    machine: &mut Machine<K>,
    name: &str,
    at: &Option<Path>,
) -> Result<Asked, Refusal>
    ensures { StageAsks K.standing machine.old machine.new result
        (λ o r. Meets r (asked_at o (Some name.now) at.now)) }
{
    let needed = machine.needed_at(alloc, Some(name), at, LeafSet::all())?;
    let at = machine.mapped(alloc, at)?;
    let callers = alone(alloc, needed.caller)?;
    Ok(Asked { callers, at })
}

/// Who is asked about at a path: the person of a name, or everybody. Nothing changes.
///
/// # Errors
///
/// Those of `rights`.
pub fn asked_at<K: Keeper>(
    alloc: Global,
    machine: &mut Machine<K>,
    name: Option<&str>,
    at: &Option<Path>,
) -> Result<Asked, Refusal>
    ensures { StageAsks K.standing machine.old machine.new result
        (λ o r. Meets r (asked_at o (option_copied name.entry) at.now)) }
{
    match name {
        Some(name) => person_at(alloc, machine, name, at),
        None => everybody_at(alloc, machine, at),
    }
}

/// Who holds which leaves at the resource at a path and at each below it (own profile): a line for each resource and
/// each who is asked about and holds a leaf there, with the path, the path of the person or `nobody`, and the leaves by
/// their short names. The cards of a book whose owners and own lists are equal are told once: after the path of the
/// first of them stands ` of ` and how many there are. Resources stand in byte order of their paths; at each stands
/// nobody first, and then the persons in byte order of their names. With a name the person of that name alone is asked
/// about. Where `shared` is set, only those cards are told whose own list grants somebody who is asked about a leaf
/// that the entries of the book do not. Nothing changes.
///
/// # Errors
///
/// `UnknownCaller` where there is a name and it is no person's; else `NotFound` where nothing is mapped at the path; a
/// path that was not read is none. `Unavailable` where memory was refused or the store failed.
///
/// Each resource that is no card is read once, and the cards of each book once. For each resource, and for each class
/// of equal cards, the entries in force are copied once, and gone over once for each who is asked about; each card is
/// compared with those before it up to the first that is like it.
pub fn rights<K: Keeper>(
    alloc: Global,
    machine: &mut Machine<K>,
    name: Option<&str>,
    at: &Option<Path>,
    shared: bool,
) -> Result<Text, Refusal>
    ensures { StageAsks K.standing machine.old machine.new result
        (λ o r. TellsRights o (option_copied name.entry) at.now shared r) }
{
    let asked = asked_at(alloc, machine, name, at)?;
    let text = rights_below(alloc, &mut machine.keeper, shared, &asked)?;
    Ok(Text::from_string(text))
}
