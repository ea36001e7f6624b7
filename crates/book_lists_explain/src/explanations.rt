//! Explanations: the text that answers a question.

ghost use Rattle.std.specs.Prelude.{◌≡◌, ◌+◌, ◌^◌, ◌<◌, ◌++◌, ◌⊎◌, Bool, IfOk, IfErr, IfSome, OnOk, Some, None, string_bytes};
ghost use Rattle.std.specs.List.{flat_map};
ghost use Rattle.book_rights.specs.declared.privileges.Leaf.{Leaf};
ghost use Rattle.book_lists.specs.declared.circles.Caller.{Caller};
ghost use Rattle.book_lists_explain.specs.declared.faults.ExplainFaultKind.TheVariants.{Missing};
ghost use Rattle.book_lists_explain.specs.Answers.{outcome_text, answer_text, names_text, spaced, IsAnswer};
ghost use Rattle.book_lists.specs.Decisions.{IfDenied};
ghost use Rattle.book_lists_explain.specs.Explanations.{AnswersText, IsFault};
ghost use Rattle.book_lists_explain.specs.Lines.{OrMemory};

use crate::faults::{ExplainFault, ExplainFaultKind, fault_at};
use crate::questions::{Question, read_question};
use crate::short_names::short_privileges;
use book_lists::{Outcome, decide, expand, granted};
use book_rights::{LeafSet, Privilege, denied_name};
use std::alloc::{AllocError, Global};

/// Adds each name, after a space.
fn push_rest(text: &mut String, rest: &[Privilege]) -> Result<(), AllocError>
    ensures { OnOk result (string_bytes text.new ≡
        string_bytes text.old ++ flat_map spaced rest.now) }
{
    for name in rest {
        text.push_str(" ")?;
        text.push_str(name.name())?;
    }
    Ok(())
}

/// Adds the names with single spaces between them, or a dash.
fn push_names(text: &mut String, names: &[Privilege]) -> Result<(), AllocError>
    ensures { OnOk result (string_bytes text.new ≡ string_bytes text.old ++ names_text names.now) }
{
    match names {
        [] => text.push_str("-"),
        [first, rest @ ..] => {
            text.push_str(first.name())?;
            push_rest(text, rest)
        }
    }
}

/// The first line of the text of a need's outcome.
fn outcome_text(alloc: Global, need: LeafSet, outcome: Outcome) -> Result<String, AllocError>
    requires { IfDenied outcome (λ leaf entry. IfSome entry (λ index. index + 1 < 2 ^ 64)) }
    ensures { IfOk result (λ text. string_bytes text ≡ outcome_text need outcome) }
{
    match outcome {
        Outcome::Allowed => String::from_str(alloc, "allowed"),
        Outcome::Denied { leaf, entry: None } => {
            let name = denied_name(leaf, need).name();
            format!(in alloc; "denied {name}, none granted")
        }
        Outcome::Denied {
            leaf,
            entry: Some(index),
        } => {
            let name = denied_name(leaf, need).name();
            let number = index + 1;
            format!(in alloc; "denied {name} by {number}")
        }
    }
}

/// The text of a need's outcome, with the leaves that are granted.
fn answer_text(
    alloc: Global,
    need: LeafSet,
    outcome: Outcome,
    granted: LeafSet,
) -> Result<String, AllocError>
    requires { IfDenied outcome (λ leaf entry. IfSome entry (λ index. index + 1 < 2 ^ 64)) }
    ensures { IfOk result (λ text. string_bytes text ≡ answer_text need outcome granted) }
{
    let mut text = outcome_text(alloc, need, outcome)?;
    text.push_str("\ngranted: ")?;
    let names = short_privileges(alloc, granted)?;
    push_names(&mut text, &names)?;
    text.push_str("\n")?;
    Ok(text)
}

/// The text that answers the question, or that its caller or its need is missing.
fn answer(alloc: Global, question: &Question) -> Result<String, ExplainFaultKind>
    ensures answered { IfOk result (λ text. (caller : Caller) × (need : Leaf → Bool)
        × (question.now.caller ≡ Some caller) × (question.now.need ≡ Some need)
        × IsAnswer question.now.pairs caller need question.now.here question.now.entries.items
        (string_bytes text)) }
    ensures missing { IfErr result (OrMemory (λ kind. (kind ≡ Missing)
        × ((question.now.caller ≡ None) ⊎ (question.now.need ≡ None)))) }
{
    let Some(caller) = &question.caller else {
        return Err(ExplainFaultKind::Missing);
    };
    let Some(need) = question.need else {
        return Err(ExplainFaultKind::Missing);
    };
    let circle = expand(&question.pairs, caller)?;
    let outcome = decide(&question.entries, &circle, &question.here, need);
    let granted = granted(&question.entries, &circle, &question.here);
    Ok(answer_text(alloc, need, outcome, granted)?)
}

/// Decides the need that an `explain` text states (own profile; the decision is that of RFC 3744, section 6).
///
/// The answer is two lines. The first is `allowed`, or `denied LEAF by N` with the number of the entry from 1, or
/// `denied LEAF, none granted`; the second is `granted: ` and the short names of the granted leaves, or `-`.
///
/// # Errors
///
/// The first line with a fault, by its number from 1, and the least of its faults in this order: `BadLine` where it has
/// the form of no line, `BadName` where a word names no principal of the kind that is wanted, `UnknownPrivilege` where a
/// word names no privilege, `Twice` for a second `caller`, `need`, `owner` or `here`, `TooMany` after 1,000 members or 64
/// entries. Where no line has a fault, `Missing` at line 0 if there is no caller or no need. `Memory` at line 0 may come
/// in place of any other answer.
pub fn explain(alloc: Global, text: &str) -> Result<String, ExplainFault>
    ensures answered { IfOk result (λ answer. AnswersText text.now (string_bytes answer)) }
    ensures faulty { IfErr result (λ fault. IsFault text.now fault.kind fault.line) }
{
    let question = read_question(alloc, text)?;
    match answer(alloc, &question) {
        Ok(text) => Ok(text),
        Err(kind) => Err(fault_at(kind, 0)),
    }
}
