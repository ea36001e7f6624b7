//! A task over an empty Office in memory.

ghost use Rattle.std.specs.Prelude.{◌≡◌};
ghost use Rattle.std.specs.Io.KnownBytes.{Keeps};
ghost use Rattle.book_office.specs.Edits.{empty_office};
ghost use Rattle.book_office.specs.Keeping.{in_memory};
ghost use Rattle.book_office_values.specs.declared.offices.Office.{Office};
ghost use Rattle.book_desk_serving.specs.Tasks.{Performs};
ghost use Rattle.book_desk_app.specs.Telling.{TellsFailure};

use crate::tasks::{Task, perform};
use book_desk_app::Lines;
use book_machine::Machine;
use book_office::MemoryKeeper;
use std::alloc::Global;
use std::io::{Read, Write};

/// Does the task over an empty Office in memory, which is let go afterwards, and gives the status of the program, as
/// `perform`.
pub fn perform_in_memory<R: Read, W: Write, E: Lines>(
    alloc: Global,
    task: &Task,
    reader: &mut R,
    writer: &mut W,
    errors: &mut E,
) -> u8
    ensures ends { (after : Office) × Performs
        (TellsFailure (E.is_whole errors.new) (E.Write.contents errors.old)
        (E.Write.contents errors.new)) in_memory task.now empty_office (R.remaining reader.old)
        (R.remaining reader.new) (W.contents writer.old) (W.contents writer.new) result after }
    ensures silent { result ≡ 0 → Keeps (E.Write.contents errors.old)
        (E.Write.contents errors.new) }
{
    let mut machine = Machine::new(MemoryKeeper::new(alloc));
    perform(alloc, task, &mut machine, reader, writer, errors)
}
