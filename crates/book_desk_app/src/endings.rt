//! How a command ends: the status of what was done or failed.

ghost use Rattle.std.specs.Prelude.{◌≡◌, IfErr, OnOk};
ghost use Rattle.std.specs.Io.KnownBytes.{Keeps};
ghost use Rattle.book_desk_app.specs.Failures.{failure_status};
ghost use Rattle.book_desk_app.specs.Telling.{TellsFailure};

use crate::failures::Failure;
use crate::lines::Lines;
use crate::telling::tell_line;
use crate::text_failures::DONE;

/// The status of what was done, or failed: a failure is told on `errors`.
pub fn ended<E: Lines>(errors: &mut E, outcome: Result<(), Failure>) -> u8
    ensures done { OnOk outcome ((result ≡ 0)
        × Keeps (E.Write.contents errors.old) (E.Write.contents errors.new)) }
    ensures failed { IfErr outcome (λ failure. (result ≡ failure_status failure)
        × TellsFailure (E.is_whole errors.new) (E.Write.contents errors.old)
        (E.Write.contents errors.new) failure) }
{
    match outcome {
        Ok(()) => DONE,
        Err(failure) => tell_line(errors, &failure),
    }
}
