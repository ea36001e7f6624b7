//! The bodies of requests: the words of a question as an object of JSON (RFC 8259), or a policy as it is.

ghost use Rattle.std.specs.Prelude.{◌≡◌, ◌∷◌, [], IfOk, map, string_bytes};
ghost use Rattle.json.specs.Json.{array, string};
ghost use Rattle.book_json_lines.specs.Objects.{items_of, Tells, TellsEach, TellsMembers};
ghost use Rattle.book_desk_asking.specs.Questions as spec;

use crate::questions::{Decision, Part, Question, Rights, Who, Why};
use book_json_lines::JsonText;
use std::alloc::{AllocError, Global};

/// Adds the words of an audit.
fn put_part(out: &mut JsonText, part: &Part<'_>) -> Result<(), AllocError>
    ensures { TellsMembers result out.old out.new (spec.part_words part.now) }
{
    out.string_member_if("at", part.at)?;
    out.boolean_member("books", part.books)?;
    out.boolean_member("labels", part.labels)
}

/// Adds the words of a question about a caller.
fn put_why(out: &mut JsonText, why: &Why<'_>) -> Result<(), AllocError>
    ensures { TellsMembers result out.old out.new (spec.why_words why.now) }
{
    out.string_member("caller", why.caller)?;
    out.string_member("what", why.what)?;
    out.string_member("path", why.path)?;
    out.string_member_if("destination", why.destination)?;
    out.boolean_member("json", why.json)
}

/// Adds the words of a question about everybody.
fn put_who(out: &mut JsonText, who: &Who<'_>) -> Result<(), AllocError>
    ensures { TellsMembers result out.old out.new (spec.who_words who.now) }
{
    out.string_member("privilege", who.privilege)?;
    out.string_member("path", who.path)?;
    out.boolean_member("denied", who.denied)?;
    out.boolean_member("json", who.json)
}

/// Adds the words of a question about all rights.
fn put_rights(out: &mut JsonText, rights: &Rights<'_>) -> Result<(), AllocError>
    ensures { TellsMembers result out.old out.new (spec.rights_words rights.now) }
{
    out.string_member_if("at", rights.at)?;
    out.string_member_if("caller", rights.caller)?;
    out.boolean_member("shared", rights.shared)?;
    out.boolean_member("json", rights.json)
}

/// Adds strings.
fn put_each(out: &mut JsonText, texts: &[String]) -> Result<(), AllocError>
    ensures { TellsEach result out.old out.new (map string (map string_bytes texts.now)) }
{
    for text in texts {
        out.string(text.as_str())?;
    }
    Ok(())
}

/// Adds an array of strings.
#[tactic(auto, using(book_json_lines::proofs::Written::array_told))]
fn put_texts(out: &mut JsonText, texts: &[String]) -> Result<(), AllocError>
    ensures { Tells result out.old out.new (array (items_of (map string (map string_bytes texts.now)))) }
{
    out.begin_array()?;
    put_each(out, texts)?;
    out.end_array()
}

/// Adds the words of a decision.
fn put_decision(out: &mut JsonText, decision: &Decision<'_>) -> Result<(), AllocError>
    ensures { TellsMembers result out.old out.new (spec.decision_words decision.now) }
{
    out.string_member("caller", decision.caller)?;
    out.string_member("path", decision.path)?;
    out.key("privileges")?;
    put_texts(out, decision.privileges)
}

/// Adds the words of a question; one about a policy has none, nor has `dump`.
fn put_words(out: &mut JsonText, question: &Question<'_>) -> Result<(), AllocError>
    ensures { TellsMembers result out.old out.new (spec.words_of question.now) }
{
    match question {
        Question::Audit(part) => put_part(out, part),
        Question::Why(why) => put_why(out, why),
        Question::Who(who) => put_who(out, who),
        Question::Rights(rights) => put_rights(out, rights),
        Question::Ask(decision) => put_decision(out, decision),
        Question::Show(path) => out.string_member("path", path),
        Question::Dump | Question::Check(_, _) | Question::Differs(_, _) | Question::Import(_) =>
            Ok(()),
    }
}

/// The words of a question as a line of JSON. An error is want of memory.
fn words_line(alloc: Global, question: &Question<'_>) -> Result<Vec<u8>, AllocError>
    ensures { IfOk result (λ line. line.items ≡ spec.words_line question.now) }
{
    let mut out = JsonText::new(alloc);
    out.begin_object()?;
    put_words(&mut out, question)?;
    out.end_object()?;
    out.into_line()
}

/// The body of the request of a question. An error is want of memory.
pub(crate) fn body_of(alloc: Global, question: &Question<'_>) -> Result<Vec<u8>, AllocError>
    ensures { IfOk result (λ body. body.items ≡ spec.body_of question.now) }
{
    match question {
        Question::Audit(_)
        | Question::Why(_)
        | Question::Who(_)
        | Question::Rights(_)
        | Question::Ask(_)
        | Question::Show(_) => words_line(alloc, question),
        Question::Dump => Ok(Vec::new(alloc)),
        Question::Check(policy, _) | Question::Differs(policy, _) | Question::Import(policy) => {
            Vec::from_slice(alloc, policy)
        }
    }
}
