//! One task over any keeper: what the program does, but for `serve`, once its files are read.

ghost use Rattle.std.specs.Prelude.{◌≡◌};
ghost use Rattle.std.specs.Io.KnownBytes.{Keeps};
ghost use Rattle.book_desk_serving.specs.Tasks.{Performs, PipesAfter};
ghost use Rattle.book_desk_app.specs.Telling.{TellsFailure};

use crate::piping::pipe;
use book_desk_app::{Lines, adopt_given, audit, ended, import, tell_line};
use book_machine::Machine;
use book_office::{Keeper, Policy};
use std::alloc::Global;
use std::io::{Read, Write};

/// What is to be done over a store.
#[derive(Drop)]
pub enum Task {
    /// Adopt the policy, and tell whether anything changed.
    Import(Policy),
    /// Tell the direct members of groups, and each resource with its owner and its lists.
    Audit,
    /// Adopt the policy, if one is given, and serve the requests on standard input.
    Pipe(Option<Policy>),
}

/// Adopts the policy, if one is given, and then serves the requests that the reader gives. Nothing is read or written
/// where the policy was not adopted.
fn pipe_after<K: Keeper, R: Read, W: Write, E: Lines>(
    alloc: Global,
    machine: &mut Machine<K>,
    policy: &Option<Policy>,
    reader: &mut R,
    writer: &mut W,
    errors: &mut E,
) -> u8
    ensures ends { PipesAfter (TellsFailure (E.is_whole errors.new) (E.Write.contents errors.old)
        (E.Write.contents errors.new)) K.standing policy.now machine.old.keeper
        (R.remaining reader.old) (R.remaining reader.new) (W.contents writer.old)
        (W.contents writer.new) result machine.new.keeper }
    ensures silent { result ≡ 0 → Keeps (E.Write.contents errors.old)
        (E.Write.contents errors.new) }
{
    match adopt_given(alloc, machine, policy) {
        Ok(()) => pipe(alloc, machine, reader, writer, errors),
        Err(failure) => tell_line(errors, &failure),
    }
}

/// Does the task over the machine, and gives the status of the program: 0 where it is done, 1 where the input was
/// refused, 3 where memory was refused, or the store, a read or a write failed. A failure is told on `errors`, all else
/// is written to `writer`.
pub fn perform<K: Keeper, R: Read, W: Write, E: Lines>(
    alloc: Global,
    task: &Task,
    machine: &mut Machine<K>,
    reader: &mut R,
    writer: &mut W,
    errors: &mut E,
) -> u8
    ensures ends { Performs (TellsFailure (E.is_whole errors.new) (E.Write.contents errors.old)
        (E.Write.contents errors.new)) K.standing task.now machine.old.keeper
        (R.remaining reader.old) (R.remaining reader.new) (W.contents writer.old)
        (W.contents writer.new) result machine.new.keeper }
    ensures silent { result ≡ 0 → Keeps (E.Write.contents errors.old)
        (E.Write.contents errors.new) }
{
    match task {
        Task::Import(policy) => {
            let outcome = import(alloc, machine, policy, writer);
            ended(errors, outcome)
        }
        Task::Audit => {
            let outcome = audit(alloc, &mut machine.keeper, writer);
            ended(errors, outcome)
        }
        Task::Pipe(policy) => pipe_after(alloc, machine, policy, reader, writer, errors),
    }
}
