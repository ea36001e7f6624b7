//! Adopting a policy, noting it in a log, and telling what came of it.

ghost use Rattle.std.specs.Prelude.{◌≡◌, true, Ok};
ghost use Rattle.std.specs.Io.KnownBytes.{Appends, Keeps};
ghost use Rattle.book_desk_administering.specs.Putting.{TellsAdoption};
ghost use Rattle.book_desk_app.specs.Imports.{import_line};
ghost use Rattle.book_desk_app.specs.Failures.{log_failure};
ghost use Rattle.book_desk_app.specs.Telling.{TellsFailure};
ghost use Rattle.book_log_service.specs.Kept.{serving_of};
ghost use Rattle.book_wire_steps.specs.Steps.{AdoptsNow, IsEpochTold, KeepsOffice, told_as};

use book_desk_app::{AdoptionFailure, DONE, Failure, Lines, StreamFailure, tell_line};
use book_log_lines::Adoption;
use book_log_service::{Clock, Logged};
use book_machine::{AdoptFault, Adopted, Machine};
use book_office::{Keeper, Policy};
use book_wire_serving::StreamFault;
use std::alloc::Global;
use std::io::Write;

/// The failure of a line of the log that could not be written.
pub(crate) fn log_failure() -> Failure
    ensures { result ≡ log_failure }
{
    Failure::Stream(StreamFailure {
        fault: StreamFault::Log,
    })
}

/// What the log tells that came of an adoption.
fn told_as(outcome: Result<Adopted, AdoptFault>) -> Adoption
    ensures { result ≡ told_as outcome }
{
    match outcome {
        Ok(adopted) => {
            if adopted.changed {
                Adoption::Changed
            } else {
                Adoption::Unchanged
            }
        }
        Err(AdoptFault::Full) => Adoption::Full,
        Err(AdoptFault::Unavailable) => Adoption::Unavailable,
    }
}

/// The epoch that is told with what came of an adoption.
fn epoch_told<K: Keeper>(machine: &mut Machine<K>, outcome: Result<Adopted, AdoptFault>) -> u64
    ensures keeps { KeepsOffice (K.standing machine.old.keeper) (K.standing machine.new.keeper) }
    ensures told { IsEpochTold (K.standing machine.old.keeper) (K.standing machine.new.keeper)
        outcome result }
{
    match outcome {
        Ok(adopted) => adopted.epoch,
        Err(_) => match machine.keeper.epoch() {
            Ok(epoch) => epoch,
            Err(_) => 0,
        },
    }
}

/// Adopts a policy over a machine that keeps a log, and notes there what came of it, with the epoch afterwards: after a
/// refusal that of the Office in force, or 0 where it can't be read. Where the line can't be made or written, the log has
/// failed.
///
/// # Errors
///
/// As `Machine::adopt`. The Office is as it was.
pub fn adopt_noted<K: Keeper, W: Write, C: Clock>(
    alloc: Global,
    logged: &mut Logged<K, W, C>,
    policy: &Policy,
) -> Result<Adopted, AdoptFault>
    ensures { AdoptsNow (serving_of K.standing W.contents) logged.old logged.new policy.now result }
{
    let outcome = logged.machine.adopt(alloc, policy);
    let epoch = epoch_told(&mut logged.machine, outcome);
    // Whether it was noted is what the log tells of itself.
    let _noted = logged.note_adoption(alloc, told_as(outcome), epoch);
    outcome
}

/// Writes the line that `import` writes, and tells whether it is written.
fn write_adopted<W: Write>(adopted: Adopted, writer: &mut W) -> bool
    ensures { result ≡ true → Appends (W.contents writer.old) (W.contents writer.new)
        (import_line adopted) }
{
    let word = if adopted.changed {
        "changed"
    } else {
        "unchanged"
    };
    writeln!(writer, "{word}, epoch {}", adopted.epoch).is_ok() && writer.flush().is_ok()
}

/// Tells that a policy was adopted, where the log has failed or not, and gives the status of the program.
fn tell_adopted<W: Write, E: Lines>(
    adopted: Adopted,
    failed: bool,
    writer: &mut W,
    errors: &mut E,
) -> u8
    ensures { TellsAdoption (TellsFailure (E.is_whole errors.new) (E.Write.contents errors.old)
        (E.Write.contents errors.new)) (Keeps (E.Write.contents errors.old)
        (E.Write.contents errors.new)) failed (W.contents writer.old) (W.contents writer.new)
        result (Ok adopted) }
{
    if failed {
        return tell_line(errors, &log_failure());
    }
    if write_adopted(adopted, writer) {
        DONE
    } else {
        tell_line(errors, &Failure::Output)
    }
}

/// Tells what came of an adoption, where the log has failed or not, and gives the status of the program, as `import` does.
pub(crate) fn tell_adoption<W: Write, E: Lines>(
    outcome: Result<Adopted, AdoptFault>,
    failed: bool,
    writer: &mut W,
    errors: &mut E,
) -> u8
    ensures { TellsAdoption (TellsFailure (E.is_whole errors.new) (E.Write.contents errors.old)
        (E.Write.contents errors.new)) (Keeps (E.Write.contents errors.old)
        (E.Write.contents errors.new)) failed (W.contents writer.old) (W.contents writer.new)
        result outcome }
{
    match outcome {
        Ok(adopted) => tell_adopted(adopted, failed, writer, errors),
        Err(fault) => tell_line(errors, &Failure::Adoption(AdoptionFailure { fault })),
    }
}
