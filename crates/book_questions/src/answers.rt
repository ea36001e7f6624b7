//! Answers over any keeper.

ghost use Rattle.std.specs.Option.{option_copied};
ghost use Rattle.book_machine.specs.Asking.{Meets, StageAsks};
ghost use Rattle.book_questions.specs.Who.{TellsWho};
ghost use Rattle.book_questions.specs.Questions.{TellsWhy, needed_for};

use crate::holders::told_at;
use crate::lines::why_text;
use crate::questions::Question;
use crate::rulings::why_of;
use book_machine::{Machine, Needed, Refusal};
use book_office::Keeper;
use book_office_values::{Path, Text};
use book_rights::Privilege;
use std::alloc::Global;

/// What a question needs of a caller by its bare name, of which none is nobody. Nothing changes.
///
/// # Errors
///
/// The refusal of a request that ends before its needs, as `serve` answers it. Of a privilege: `UnknownCaller` where the
/// caller is no person, `NotFound` where nothing is mapped at the path. `Unavailable` where memory was refused or the
/// store failed.
pub fn needed_for<K: Keeper>(
    alloc: Global,
    machine: &mut Machine<K>,
    name: Option<&str>,
    question: &Question,
) -> Result<Needed, Refusal>
    ensures { StageAsks K.standing machine.old machine.new result
        (λ o r. Meets r (needed_for o (option_copied name.entry) question.now)) }
{
    match question {
        Question::OfRequest(request) => machine.needed(alloc, name, request),
        Question::OfPrivilege(privilege, path) => machine.needed_at(
            alloc,
            name,
            path,
            privilege.leaves(),
        ),
    }
}

/// Why a request, or a privilege at a resource, is granted to a caller or denied (own profile): `granted`, or `denied`
/// with the privilege, the resource and the number of the entry that a refused request is told; then each need with its
/// resource, and for each of its leaves the entry that decides it: its number in the list in force, its number in its
/// own list and where that stands, the entry in the words of an audit, and by which groups the caller belongs to the
/// principal that it names (`by_line`). The caller is its bare name; none is nobody. Nothing changes.
///
/// # Errors
///
/// The refusal of a request that ends before its needs, as `serve` answers it. Of a privilege: `UnknownCaller` where the
/// caller is no person, `NotFound` where nothing is mapped at the path. `Unavailable` where memory was refused or the
/// store failed.
///
/// For each need the lists in force are read twice, and each leaf is looked for in each entry once; each pair of a group
/// and a member is looked at once for each length of a chain.
pub fn why<K: Keeper>(
    alloc: Global,
    machine: &mut Machine<K>,
    name: Option<&str>,
    question: &Question,
) -> Result<Text, Refusal>
    ensures { StageAsks K.standing machine.old machine.new result
        (λ o r. TellsWhy o (option_copied name.entry) question.now r) }
{
    let needed = needed_for(alloc, machine, name, question)?;
    let why = why_of(alloc, &mut machine.keeper, &needed)?;
    Ok(Text::from_string(why_text(alloc, &why)?))
}

/// Each person, and nobody, to whom a privilege is granted at a path, or with `denied` each other one (own profile): a
/// line with the path of the person or `nobody`, and below it for each leaf the entry that decides it, as `why` tells it;
/// nobody first, and the persons in byte order of their names. Nothing changes.
///
/// # Errors
///
/// `NotFound` where nothing is mapped at the path; a path that was not read is none. `Unavailable` where memory was
/// refused or the store failed.
///
/// The lists in force are read twice; for each person the circle is asked, each leaf is looked for in each entry once, and
/// each pair of a group and a member is looked at once for each length of a chain.
pub fn who<K: Keeper>(
    alloc: Global,
    machine: &mut Machine<K>,
    privilege: Privilege,
    path: &Option<Path>,
    denied: bool,
) -> Result<Text, Refusal>
    ensures { StageAsks K.standing machine.old machine.new result
        (λ o r. TellsWho o denied privilege path.now r) }
{
    let at = machine.mapped(alloc, path)?;
    let text = told_at(alloc, &mut machine.keeper, &at, denied, privilege.leaves())?;
    Ok(Text::from_string(text))
}
