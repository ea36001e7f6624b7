//! What is asked about a store: the words of a question, and what they ask.

ghost use Rattle.std.specs.Prelude.{◌≡◌, IfErr, IfNone, IfOk, IfSome, map, string_bytes};
ghost use Rattle.book_lists_explain.specs.Lines.{AreLeaves, HasUnknown};
ghost use Rattle.std.specs.Option.{option_copied};
ghost use Rattle.book_desk_questions.specs.Asked.{AsksDecision, AsksDecisionNothing, AsksFor, AsksForNothing, AsksPart, AsksRights, AsksShow, AsksWho};
ghost use Rattle.book_desk_questions.specs.Asked.{AsksWhoNothing, AsksWhy, AsksWhyNothing};
ghost use Rattle.book_desk_questions.specs.declared.failures.Unanswered.TheVariants.{Refused};
ghost use Rattle.book_machine.specs.declared.refusals.Refusal.TheVariants.{Unavailable};
ghost use Rattle.book_questions.specs.Questions.{ReadsPath};
ghost use Rattle.book_desk_questions.specs.Asked.{asking_name, asking_of, caller_in};

use crate::failures::Unanswered;
use book_machine::Refusal;
use book_office_values::{Path, PathFault, Text};
use book_questions::{Question, question_of};
use book_questions_audit::Wanted;
use book_rights::{LeafSet, Privilege};
use std::alloc::Global;

/// The words of a question about a caller.
#[derive(Clone, Copy, Drop)]
pub struct WhyWords<'a> {
    /// The bare name of a person; a dash is nobody.
    pub caller: &'a str,
    /// A method, or a privilege.
    pub what: &'a str,
    /// The path of the resource.
    pub path: &'a str,
    /// The path of a destination.
    pub destination: Option<&'a str>,
    /// Whether the answer is told as objects.
    pub json: bool,
}

/// The words of a question about everybody.
#[derive(Clone, Copy, Drop)]
pub struct WhoWords<'a> {
    /// The privilege.
    pub privilege: &'a str,
    /// The path of the resource.
    pub path: &'a str,
    /// Whether those to whom it is denied are told.
    pub denied: bool,
    /// Whether the answer is told as objects.
    pub json: bool,
}

/// The words of a question about all rights.
#[derive(Clone, Copy, Drop)]
pub struct RightsWords<'a> {
    /// The path at which and below which they are told; without one, the root's.
    pub at: Option<&'a str>,
    /// The bare name of the person whose rights are told; without one, everybody's.
    pub caller: Option<&'a str>,
    /// Whether only cards are told whose own list gives more than their book.
    pub shared: bool,
    /// Whether the answer is told as objects.
    pub json: bool,
}

/// The words of a decision.
#[derive(Clone, Copy, Drop)]
pub struct DecisionWords<'a> {
    /// The bare name of a person; a dash is nobody.
    pub caller: &'a str,
    /// The path of the resource.
    pub path: &'a str,
    /// The privileges.
    pub privileges: &'a [String],
}

/// The words of an audit of a part.
#[derive(Clone, Copy, Drop)]
pub struct PartWords<'a> {
    /// The path at which and below which resources are told; without one, the root's.
    pub at: Option<&'a str>,
    /// Whether cards without a list of their own are left out, and labels told.
    pub wanted: Wanted,
}

/// A question in words.
#[derive(Clone, Copy, Drop)]
pub enum Words<'a> {
    /// Why something is granted to a caller, or denied.
    Why(WhyWords<'a>),
    /// To whom a privilege is granted, or denied.
    Who(WhoWords<'a>),
    /// Who holds which rights.
    Rights(RightsWords<'a>),
    /// What a decision rests on.
    Decision(DecisionWords<'a>),
    /// The owners and lists of a part.
    Part(PartWords<'a>),
    /// The resource at a path.
    Show(&'a str),
}

/// The command that asks.
#[derive(Clone, Copy, Debug, PartialEq, Eq)]
pub enum Asking {
    /// `why`.
    Why,
    /// `who`.
    Who,
    /// `rights`.
    Rights,
    /// `ask`.
    Ask,
    /// `audit`.
    Audit,
    /// `show`.
    Show,
}

/// To whom a privilege is granted at a path, or denied.
#[derive(Debug, Drop)]
pub struct AskedWho {
    /// The privilege.
    pub privilege: Privilege,
    /// The path; none where its text was none.
    pub path: Option<Path>,
    /// Whether those to whom it is denied are told.
    pub denied: bool,
}

/// Who holds which rights at a path and below it.
#[derive(Debug, Drop)]
pub struct AskedRights {
    /// The bare name of the person whose rights are told; without one, everybody's.
    pub name: Option<Text>,
    /// The path; none where its text was none.
    pub path: Option<Path>,
    /// Whether only cards are told whose own list gives more than their book.
    pub shared: bool,
}

/// A question about a store. Where there is a flag, it says whether the answer is told as objects.
#[derive(Debug, Drop)]
pub enum Asked {
    /// Why something is granted to a caller, by the word that names the caller, or denied.
    Why(Text, Question, bool),
    /// To whom a privilege is granted at a path, or denied.
    Who(AskedWho, bool),
    /// Who holds which rights at a path and below it.
    Rights(AskedRights, bool),
    /// What the decision on leaves at a path rests on, by the word that names the caller; no path where its text was none.
    Decision(Text, Option<Path>, LeafSet),
    /// The owners and lists at a path and below it; no path where its text was none.
    Part(Option<Path>, Wanted),
    /// The resource at a path; none where its text was none.
    Show(Option<Path>),
}

/// The bare name of a caller; a dash is nobody.
pub(crate) fn caller_in(word: &str) -> Option<&str>
    ensures { option_copied result ≡ caller_in word.now }
{
    if word == "-" { None } else { Some(word) }
}

/// The name of the command.
pub(crate) fn asking_name(asking: Asking) -> &'static str
    ensures { result.now ≡ asking_name asking }
{
    match asking {
        Asking::Why => "why",
        Asking::Who => "who",
        Asking::Rights => "rights",
        Asking::Ask => "ask",
        Asking::Audit => "audit",
        Asking::Show => "show",
    }
}

/// The command of a question.
pub(crate) fn asking_of(words: &Words<'_>) -> Asking
    ensures { result ≡ asking_of words.now }
{
    match words {
        Words::Why(_) => Asking::Why,
        Words::Who(_) => Asking::Who,
        Words::Rights(_) => Asking::Rights,
        Words::Decision(_) => Asking::Ask,
        Words::Part(_) => Asking::Audit,
        Words::Show(_) => Asking::Show,
    }
}

/// What the words ask about a caller.
fn asked_of_caller(alloc: Global, words: &WhyWords<'_>) -> Result<Asked, Unanswered>
    ensures asks { IfOk result (AsksWhy words.now) }
    ensures nothing { IfErr result (AsksWhyNothing words.now) }
{
    let Ok(caller) = String::from_str(alloc, words.caller) else {
        return Err(Unanswered::Refused(Refusal::Unavailable));
    };
    match question_of(alloc, words.what, words.path, words.destination) {
        Ok(Some(question)) => Ok(Asked::Why(Text::from_string(caller), question, words.json)),
        Ok(None) => Err(Unanswered::UnknownPrivilege),
        Err(_) => Err(Unanswered::Refused(Refusal::Unavailable)),
    }
}

/// The path of a text; none where it has no path. An error is want of memory.
fn path_of(alloc: Global, text: &str) -> Result<Option<Path>, Unanswered>
    ensures read { IfOk result (ReadsPath text.now) }
    ensures memory { IfErr result (λ failure. failure ≡ Refused Unavailable) }
{
    match Path::parse(alloc, text) {
        Ok(path) => Ok(Some(path)),
        Err(PathFault::BadPath) => Ok(None),
        Err(PathFault::Memory) => Err(Unanswered::Refused(Refusal::Unavailable)),
    }
}

/// What the words ask about everybody.
fn asked_of_all(alloc: Global, words: &WhoWords<'_>) -> Result<Asked, Unanswered>
    ensures asks { IfOk result (AsksWho words.now) }
    ensures nothing { IfErr result (AsksWhoNothing words.now) }
{
    let Some(privilege) = Privilege::from_name(words.privilege) else {
        return Err(Unanswered::UnknownPrivilege);
    };
    match path_of(alloc, words.path) {
        Ok(path) => Ok(Asked::Who(
            AskedWho {
                privilege,
                path,
                denied: words.denied,
            },
            words.json,
        )),
        Err(failure) => Err(failure),
    }
}

/// The text of the word that names a person, if there is one. An error is want of memory.
fn name_of(alloc: Global, word: Option<&str>) -> Result<Option<Text>, Unanswered>
    ensures named { IfOk result (λ name. name ≡ option_copied word.entry) }
    ensures memory { IfErr result (λ failure. failure ≡ Refused Unavailable) }
{
    let Some(word) = word else {
        return Ok(None);
    };
    match Text::copy_of(alloc, word) {
        Ok(name) => Ok(Some(name)),
        Err(_) => Err(Unanswered::Refused(Refusal::Unavailable)),
    }
}

/// What the words ask about all rights.
fn asked_of_rights(alloc: Global, words: &RightsWords<'_>) -> Result<Asked, Unanswered>
    ensures asks { IfOk result (AsksRights words.now) }
    ensures memory { IfErr result (λ failure. failure ≡ Refused Unavailable) }
{
    let name = match name_of(alloc, words.caller) {
        Ok(name) => name,
        Err(failure) => return Err(failure),
    };
    match path_of(alloc, words.at.unwrap_or("/")) {
        Ok(path) => Ok(Asked::Rights(
            AskedRights {
                name,
                path,
                shared: words.shared,
            },
            words.json,
        )),
        Err(failure) => Err(failure),
    }
}

/// The leaves of the privileges with these names; none where one of them names no privilege.
fn leaves_of(names: &[String]) -> Option<LeafSet>
    ensures known { IfSome result (λ set. AreLeaves (map string_bytes names.now) set) }
    ensures unknown { IfNone result (HasUnknown (map string_bytes names.now)) }
{
    let mut set = LeafSet::empty();
    for name in names {
        let privilege = Privilege::from_name(name.as_str())?;
        set = set.union(privilege.leaves());
    }
    Some(set)
}

/// What the words ask about a decision.
fn asked_of_decision(alloc: Global, words: &DecisionWords<'_>) -> Result<Asked, Unanswered>
    ensures asks { IfOk result (AsksDecision words.now) }
    ensures nothing { IfErr result (AsksDecisionNothing words.now) }
{
    let Some(set) = leaves_of(words.privileges) else {
        return Err(Unanswered::UnknownPrivilege);
    };
    let Ok(caller) = Text::copy_of(alloc, words.caller) else {
        return Err(Unanswered::Refused(Refusal::Unavailable));
    };
    match path_of(alloc, words.path) {
        Ok(path) => Ok(Asked::Decision(caller, path, set)),
        Err(failure) => Err(failure),
    }
}

/// What the words ask about a part.
fn asked_of_part(alloc: Global, words: &PartWords<'_>) -> Result<Asked, Unanswered>
    ensures asks { IfOk result (AsksPart words.now) }
    ensures memory { IfErr result (λ failure. failure ≡ Refused Unavailable) }
{
    match path_of(alloc, words.at.unwrap_or("/")) {
        Ok(path) => Ok(Asked::Part(path, words.wanted)),
        Err(failure) => Err(failure),
    }
}

/// What the words ask about one resource.
fn asked_of_resource(alloc: Global, path: &str) -> Result<Asked, Unanswered>
    ensures asks { IfOk result (AsksShow path.now) }
    ensures memory { IfErr result (λ failure. failure ≡ Refused Unavailable) }
{
    match path_of(alloc, path) {
        Ok(path) => Ok(Asked::Show(path)),
        Err(failure) => Err(failure),
    }
}

/// What the words ask.
///
/// # Errors
///
/// `UnknownPrivilege` where they name none; `Refused(Unavailable)` where memory was refused.
pub(crate) fn asked_of(alloc: Global, words: &Words<'_>) -> Result<Asked, Unanswered>
    ensures asks { IfOk result (AsksFor words.now) }
    ensures nothing { IfErr result (AsksForNothing words.now) }
{
    match words {
        Words::Why(words) => asked_of_caller(alloc, words),
        Words::Who(words) => asked_of_all(alloc, words),
        Words::Rights(words) => asked_of_rights(alloc, words),
        Words::Decision(words) => asked_of_decision(alloc, words),
        Words::Part(words) => asked_of_part(alloc, words),
        Words::Show(path) => asked_of_resource(alloc, path),
    }
}
