//! Answers as objects, or as texts, over any keeper.

ghost use Rattle.std.specs.Prelude.{◌≡◌};
ghost use Rattle.std.specs.Option.{option_copied};
ghost use Rattle.book_machine.specs.Asking.{StageAsks};
ghost use Rattle.book_desk_questions.specs.Answers.{TellsRightsAs, TellsWhoAs, TellsWhyAs};

use crate::asked::{AskedRights, AskedWho};
use book_machine::{Machine, Refusal};
use book_office::Keeper;
use book_office_values::Text;
use book_questions::{Question, who, why};
use book_questions_json::{rights_objects, who_objects, why_objects};
use book_questions_rights::rights;
use std::alloc::Global;

/// Why something is granted to a caller, or denied.
pub(crate) fn why_told<K: Keeper>(
    alloc: Global,
    machine: &mut Machine<K>,
    name: Option<&str>,
    question: &Question,
    json: bool,
) -> Result<Text, Refusal>
    ensures { StageAsks K.standing machine.old machine.new result
        (λ o r. TellsWhyAs json o (option_copied name.entry) question.now r) }
{
    if json {
        why_objects(alloc, machine, name, question)
    } else {
        why(alloc, machine, name, question)
    }
}

/// To whom a privilege is granted, or denied.
pub(crate) fn who_told<K: Keeper>(
    alloc: Global,
    machine: &mut Machine<K>,
    asked: &AskedWho,
    json: bool,
) -> Result<Text, Refusal>
    ensures { StageAsks K.standing machine.old machine.new result
        (λ o r. TellsWhoAs json o asked.now r) }
{
    if json {
        who_objects(alloc, machine, asked.privilege, &asked.path, asked.denied)
    } else {
        who(alloc, machine, asked.privilege, &asked.path, asked.denied)
    }
}

/// The bare name of a person, if there is one.
fn named(name: &Option<Text>) -> Option<&str>
    ensures { option_copied result ≡ name.now }
{
    match name {
        Some(name) => Some(name.as_str()),
        None => None,
    }
}

/// Who holds which rights.
pub(crate) fn rights_told<K: Keeper>(
    alloc: Global,
    machine: &mut Machine<K>,
    asked: &AskedRights,
    json: bool,
) -> Result<Text, Refusal>
    ensures { StageAsks K.standing machine.old machine.new result
        (λ o r. TellsRightsAs json o asked.now r) }
{
    let name = named(&asked.name);
    if json {
        rights_objects(alloc, machine, name, &asked.path, asked.shared)
    } else {
        rights(alloc, machine, name, &asked.path, asked.shared)
    }
}
