//! A run of the program over a store, or over memory.

ghost use Rattle.std.specs.Prelude.{◌≡◌, ◌≢◌};
ghost use Rattle.std.specs.Io.KnownBytes.{Keeps};
ghost use Rattle.sqlite.specs.Held.{state};
ghost use Rattle.book_desk_app.specs.Stores.{IsNotHad, standing_in};
ghost use Rattle.book_desk_serving.specs.Runs.{Runs, RunsIn, RunsOver};
ghost use Rattle.book_tables.specs.declared.tables.Tables.{Tables};
ghost use Rattle.book_desk_serving.specs.Streams.{unlogged};
ghost use Rattle.book_desk_serving.specs.Tasks.{EndsPipe, Performs, PipesAfter};
ghost use Rattle.book_desk_app.specs.Telling.{TellsFailure};

use crate::memory::perform_in_memory;
use crate::piping::pipe;
use crate::tasks::{Task, perform};
use crate::works::{Work, task_of};
use book_desk_app::{Failure, Lines, adopt_given, kept_connection, open_store, tell_line};
use book_machine::Machine;
use book_office_cache::Cached;
use book_policy_values::Policy;
use book_tables::Tables;
use book_tables_opening::Found;
use sqlite::{Alter, Connection};
use std::alloc::Global;
use std::io::{Read, Write};

/// Serves the requests that the reader gives over the tables, as `pipe`, and gives them back. What most requests ask of
/// them is remembered meanwhile.
fn pipe_over<S: Alter + Drop, R: Read, W: Write, E: Lines>(
    alloc: Global,
    tables: Tables<S>,
    reader: &mut R,
    writer: &mut W,
    errors: &mut E,
) -> (u8, Tables<S>)
    ensures ends { EndsPipe (TellsFailure (E.is_whole errors.new) (E.Write.contents errors.old)
        (E.Write.contents errors.new)) (unlogged (standing_in (state S.Store) (λ t. t.connection)
        (λ t. t.failures) tables)) (R.remaining reader.old) (R.remaining reader.new)
        (W.contents writer.old) (W.contents writer.new) result.0
        (unlogged (standing_in (state S.Store) (λ t. t.connection) (λ t. t.failures) result.1)) }
    ensures silent { result.0 ≢ 3 → Keeps (E.Write.contents errors.old)
        (E.Write.contents errors.new) }
{
    let mut machine = Machine::new(Cached::new(alloc, tables));
    let status = pipe(alloc, &mut machine, reader, writer, errors);
    (status, machine.release().into_inner())
}

/// Adopts the policy over the tables, if one is given, then serves the requests that the reader gives, and gives the
/// tables back. Nothing is read or written where the policy was not adopted.
fn pipe_after<S: Alter + Drop, R: Read, W: Write, E: Lines>(
    alloc: Global,
    policy: &Option<Policy>,
    tables: Tables<S>,
    reader: &mut R,
    writer: &mut W,
    errors: &mut E,
) -> (u8, Tables<S>)
    ensures ends { PipesAfter (TellsFailure (E.is_whole errors.new) (E.Write.contents errors.old)
        (E.Write.contents errors.new)) (standing_in (state S.Store) (λ t. t.connection)
        (λ t. t.failures)) policy.now tables (R.remaining reader.old) (R.remaining reader.new)
        (W.contents writer.old) (W.contents writer.new) result.0 result.1 }
    ensures silent { result.0 ≡ 0 → Keeps (E.Write.contents errors.old)
        (E.Write.contents errors.new) }
{
    let mut machine = Machine::new(tables);
    match adopt_given(alloc, &mut machine, policy) {
        Ok(()) => pipe_over(alloc, machine.release(), reader, writer, errors),
        Err(failure) => (tell_line(errors, &failure), machine.release()),
    }
}

/// Does the task over the tables, as `perform`, and gives them back.
fn perform_over<S: Alter + Drop, R: Read, W: Write, E: Lines>(
    alloc: Global,
    task: &Task,
    tables: Tables<S>,
    reader: &mut R,
    writer: &mut W,
    errors: &mut E,
) -> (u8, Tables<S>)
    ensures ends { Performs (TellsFailure (E.is_whole errors.new) (E.Write.contents errors.old)
        (E.Write.contents errors.new)) (standing_in (state S.Store) (λ t. t.connection)
        (λ t. t.failures)) task.now tables (R.remaining reader.old) (R.remaining reader.new)
        (W.contents writer.old) (W.contents writer.new) result.0 result.1 }
    ensures silent { result.0 ≡ 0 → Keeps (E.Write.contents errors.old)
        (E.Write.contents errors.new) }
{
    match task {
        Task::Pipe(policy) => pipe_after(alloc, policy, tables, reader, writer, errors),
        Task::Import(_) | Task::Audit => {
            let mut machine = Machine::new(tables);
            let status = perform(alloc, task, &mut machine, reader, writer, errors);
            (status, machine.release())
        }
    }
}

/// Does the task over the tables of a store. The connection comes back where they were had.
fn perform_in<S: Alter + Drop, R: Read, W: Write, E: Lines>(
    alloc: Global,
    task: &Task,
    store: Found<S>,
    reader: &mut R,
    writer: &mut W,
    errors: &mut E,
) -> (u8, Option<Connection<S>>)
    ensures runs { RunsOver {K = Tables S} (state S.Store) (λ t. t.connection) (λ t. t.failures)
        (TellsFailure (E.is_whole errors.new) (E.Write.contents errors.old)
        (E.Write.contents errors.new)) (IsNotHad S.Store) task.now store (R.remaining reader.old)
        (R.remaining reader.new) (W.contents writer.old) (W.contents writer.new) result.0 result.1 }
    ensures silent { result.0 ≡ 0 → Keeps (E.Write.contents errors.old)
        (E.Write.contents errors.new) }
{
    match open_store(alloc, store) {
        Ok(tables) => {
            let (status, tables) = perform_over(alloc, task, tables, reader, writer, errors);
            (status, Some(tables.release()))
        }
        Err((failure, left)) => {
            drop(left);
            (tell_line(errors, &Failure::Store(failure)), None)
        }
    }
}

/// Does the task over the tables of a store, or where there is none over an empty Office in memory.
fn perform_given<S: Alter + Drop, R: Read, W: Write, E: Lines>(
    alloc: Global,
    task: &Task,
    store: Option<Found<S>>,
    reader: &mut R,
    writer: &mut W,
    errors: &mut E,
) -> (u8, Option<Connection<S>>)
    ensures runs { RunsIn {K = Tables S} (state S.Store) (λ t. t.connection) (λ t. t.failures)
        (TellsFailure (E.is_whole errors.new) (E.Write.contents errors.old)
        (E.Write.contents errors.new)) (IsNotHad S.Store) task.now store (R.remaining reader.old)
        (R.remaining reader.new) (W.contents writer.old) (W.contents writer.new) result.0 result.1 }
    ensures silent { result.0 ≡ 0 → Keeps (E.Write.contents errors.old)
        (E.Write.contents errors.new) }
{
    match store {
        Some(store) => perform_in(alloc, task, store, reader, writer, errors),
        None => {
            let status = perform_in_memory(alloc, task, reader, writer, errors);
            (status, None)
        }
    }
}

/// Does the work over the store, or where there is none over an empty Office in memory, and gives the status of the
/// program: 0 where it is done, 1 where the input was refused, 3 where memory was refused, or the store, a read or a
/// write failed. A failure is told on `errors`, all else is written to `writer`. The connection comes back where there
/// was one, but where its tables could not be made or opened.
///
/// Faults come in this order: the policy's text, the tables, the adoption, the work.
pub fn run<S: Alter + Drop, R: Read, W: Write, E: Lines>(
    alloc: Global,
    work: Work,
    store: Option<Found<S>>,
    policy: Option<Vec<u8>>,
    reader: &mut R,
    writer: &mut W,
    errors: &mut E,
) -> (u8, Option<Connection<S>>)
    ensures runs { Runs {K = Tables S} (state S.Store) (λ t. t.connection) (λ t. t.failures)
        (TellsFailure (E.is_whole errors.new) (E.Write.contents errors.old)
        (E.Write.contents errors.new)) (IsNotHad S.Store) (λ given. given.items) work store policy
        (R.remaining reader.old) (R.remaining reader.new) (W.contents writer.old)
        (W.contents writer.new) result.0 result.1 }
    ensures silent { result.0 ≡ 0 → Keeps (E.Write.contents errors.old)
        (E.Write.contents errors.new) }
{
    match task_of(alloc, work, policy) {
        Ok(task) => perform_given(alloc, &task, store, reader, writer, errors),
        Err(failure) => (tell_line(errors, &failure), kept_connection(store)),
    }
}
