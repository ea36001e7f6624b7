//! The answer to a question, over any keeper, over the tables of a store, and over a store.

ghost use Rattle.std.specs.Prelude.{◌≡◌, IfErr, OnOk};
ghost use Rattle.std.specs.Io.KnownBytes.{Keeps};
ghost use Rattle.sqlite.specs.Held.{state};
ghost use Rattle.book_machine.specs.Asking.{Meets, StageAsks};
ghost use Rattle.book_desk_app.specs.Stores.{IsNotHad};
ghost use Rattle.book_desk_app.specs.Telling.{TellsLine};
ghost use Rattle.book_desk_questions.specs.Answers.{Answers, AnswersIn, AnswersOver, AnswersWords, EndsAsked};
ghost use Rattle.book_desk_questions.specs.Answers.{FailsToAnswer, RunsAsked, TellsAsked, always, shown_at};
ghost use Rattle.book_tables.specs.declared.tables.Tables.{Tables};

use crate::asked::{Asked, Asking, Words, asked_of, asking_of, caller_in};
use crate::failures::{Unanswered, tell_unanswered};
use crate::forms::{rights_told, who_told, why_told};
use book_desk_app::{DONE, Failure, Lines, open_store, tell_line};
use book_dumps::show;
use book_machine::{Machine, Refusal};
use book_office::Keeper;
use book_office_values::{Path, Text};
use book_questions_asked::ask;
use book_questions_audit::audit_part;
use book_tables::Tables;
use book_tables_opening::Found;
use sqlite::{Alter, Connection};
use std::alloc::Global;
use std::io::Write;

/// The line of a dump for the resource at a path.
fn shown<K: Keeper>(
    alloc: Global,
    machine: &mut Machine<K>,
    path: &Option<Path>,
) -> Result<Text, Refusal>
    ensures { StageAsks K.standing machine.old machine.new result
        (λ o r. Meets r (shown_at o path.now)) }
{
    let Some(path) = path else {
        return Err(Refusal::NotFound);
    };
    match show(alloc, &mut machine.keeper, path)? {
        Some(text) => Ok(text),
        None => Err(Refusal::NotFound),
    }
}

/// What is told of a question that always has an answer.
fn always(told: Result<Text, Refusal>) -> Result<Option<Text>, Refusal>
    ensures { result ≡ always told }
{
    match told {
        Ok(text) => Ok(Some(text)),
        Err(refusal) => Err(refusal),
    }
}

/// The answer to a question; none where there is too much to tell.
fn answer_of<K: Keeper>(
    alloc: Global,
    machine: &mut Machine<K>,
    asked: &Asked,
) -> Result<Option<Text>, Refusal>
    ensures { StageAsks K.standing machine.old machine.new result
        (λ o r. TellsAsked o asked.now r) }
{
    match asked {
        Asked::Why(caller, question, json) => always(why_told(
            alloc,
            machine,
            caller_in(caller.as_str()),
            question,
            *json,
        )),
        Asked::Who(asked, json) => always(who_told(alloc, machine, asked, *json)),
        Asked::Rights(asked, json) => always(rights_told(alloc, machine, asked, *json)),
        Asked::Decision(caller, path, set) => {
            ask(alloc, machine, caller_in(caller.as_str()), path, *set)
        }
        Asked::Part(path, wanted) => always(audit_part(alloc, machine, path, *wanted)),
        Asked::Show(path) => always(shown(alloc, machine, path)),
    }
}

/// Writes the answer to a question.
fn write_answer<K: Keeper, W: Write>(
    alloc: Global,
    machine: &mut Machine<K>,
    asked: &Asked,
    writer: &mut W,
) -> Result<(), Unanswered>
    ensures told { OnOk result (Answers (K.standing machine.old.keeper) asked.now
        (W.contents writer.old) (W.contents writer.new) (K.standing machine.new.keeper)) }
    ensures failed { IfErr result (FailsToAnswer (K.standing machine.old.keeper) asked.now
        (W.contents writer.old) (W.contents writer.new) (K.standing machine.new.keeper)) }
{
    let text = match answer_of(alloc, machine, asked) {
        Ok(Some(text)) => text,
        Ok(None) => return Err(Unanswered::TooMany),
        Err(refusal) => return Err(Unanswered::Refused(refusal)),
    };
    if writer.write_all(text.as_str().as_bytes()).is_err() || writer.flush().is_err() {
        return Err(Unanswered::Output);
    }
    Ok(())
}

/// Answers a question over any keeper, and gives the status of the program. A failure is told on `errors`.
fn answer<K: Keeper, W: Write, E: Lines>(
    alloc: Global,
    machine: &mut Machine<K>,
    asking: Asking,
    asked: &Asked,
    writer: &mut W,
    errors: &mut E,
) -> u8
    ensures ends { EndsAsked (TellsLine (E.is_whole errors.new) (E.Write.contents errors.old)
        (E.Write.contents errors.new)) asking (K.standing machine.old.keeper) asked.now
        (W.contents writer.old) (W.contents writer.new) result (K.standing machine.new.keeper) }
    ensures silent { result ≡ 0 → Keeps (E.Write.contents errors.old)
        (E.Write.contents errors.new) }
{
    match write_answer(alloc, machine, asked, writer) {
        Ok(()) => DONE,
        Err(failure) => tell_unanswered(errors, asking, &failure),
    }
}

/// Answers a question in words over the Office of any keeper, and gives the status of the program, as `run_question` does
/// over that of a store. A failure is told on `errors`. The Office stays.
///
/// Faults come in this order: the words, the question.
pub fn answer_words<K: Keeper, W: Write, E: Lines>(
    alloc: Global,
    machine: &mut Machine<K>,
    words: &Words<'_>,
    writer: &mut W,
    errors: &mut E,
) -> u8
    ensures answers { AnswersWords (TellsLine (E.is_whole errors.new) (E.Write.contents errors.old)
        (E.Write.contents errors.new)) words.now (K.standing machine.old.keeper)
        (W.contents writer.old) (W.contents writer.new) result (K.standing machine.new.keeper) }
    ensures silent { result ≡ 0 → Keeps (E.Write.contents errors.old)
        (E.Write.contents errors.new) }
{
    let asking = asking_of(words);
    match asked_of(alloc, words) {
        Ok(asked) => answer(alloc, machine, asking, &asked, writer, errors),
        Err(failure) => tell_unanswered(errors, asking, &failure),
    }
}

/// Answers a question over the tables of a store, and gives them back.
fn answer_over<S: Alter + Drop, W: Write, E: Lines>(
    alloc: Global,
    asking: Asking,
    asked: &Asked,
    tables: Tables<S>,
    writer: &mut W,
    errors: &mut E,
) -> (u8, Tables<S>)
    ensures ends { AnswersOver (state S.Store) (λ t. t.connection) (λ t. t.failures)
        (TellsLine (E.is_whole errors.new) (E.Write.contents errors.old)
        (E.Write.contents errors.new)) asking asked.now tables (W.contents writer.old)
        (W.contents writer.new) result.0 result.1 }
    ensures silent { result.0 ≡ 0 → Keeps (E.Write.contents errors.old)
        (E.Write.contents errors.new) }
{
    let mut machine = Machine::new(tables);
    let status = answer(alloc, &mut machine, asking, asked, writer, errors);
    (status, machine.release())
}

/// Answers a question over a store, and gives the connection back where its tables were had.
fn answer_in<S: Alter + Drop, W: Write, E: Lines>(
    alloc: Global,
    asking: Asking,
    asked: &Asked,
    store: Found<S>,
    writer: &mut W,
    errors: &mut E,
) -> (u8, Option<Connection<S>>)
    ensures runs { AnswersIn {K = Tables S} (state S.Store) (λ t. t.connection) (λ t. t.failures)
        (TellsLine (E.is_whole errors.new) (E.Write.contents errors.old)
        (E.Write.contents errors.new)) (IsNotHad S.Store) asking asked.now store
        (W.contents writer.old) (W.contents writer.new) result.0 result.1 }
    ensures silent { result.0 ≡ 0 → Keeps (E.Write.contents errors.old)
        (E.Write.contents errors.new) }
{
    match open_store(alloc, store) {
        Ok(tables) => {
            let (status, tables) = answer_over(alloc, asking, asked, tables, writer, errors);
            (status, Some(tables.release()))
        }
        Err((failure, left)) => {
            drop(left);
            (tell_line(errors, &Failure::Store(failure)), None)
        }
    }
}

/// Answers a question about a store in words, and gives the status of the program: 0 where it is answered, 1 where it was
/// refused, 3 where memory was refused, or the store or a write failed. A failure is told on `errors`. The Office stays.
/// The connection comes back, but where the tables could not be opened.
///
/// Faults come in this order: the words, the tables, the question.
pub fn run_question<S: Alter + Drop, W: Write, E: Lines>(
    alloc: Global,
    words: &Words<'_>,
    store: Found<S>,
    writer: &mut W,
    errors: &mut E,
) -> (u8, Option<Connection<S>>)
    ensures runs { RunsAsked {K = Tables S} (state S.Store) (λ t. t.connection) (λ t. t.failures)
        (TellsLine (E.is_whole errors.new) (E.Write.contents errors.old)
        (E.Write.contents errors.new)) (IsNotHad S.Store) words.now store (W.contents writer.old)
        (W.contents writer.new) result.0 result.1 }
    ensures silent { result.0 ≡ 0 → Keeps (E.Write.contents errors.old)
        (E.Write.contents errors.new) }
{
    let asking = asking_of(words);
    match asked_of(alloc, words) {
        Ok(asked) => answer_in(alloc, asking, &asked, store, writer, errors),
        Err(failure) => (
            tell_unanswered(errors, asking, &failure),
            Some(store.into_connection()),
        ),
    }
}
