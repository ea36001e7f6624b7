//! A text is added to a log.

ghost use Rattle.std.specs.Prelude.{◌≡◌, true, false, OnErr, OnOk};
ghost use Rattle.std.specs.Io.KnownBytes.{Appends};
ghost use Rattle.book_log_service.specs.Kept.{AppendsFront, log_of};
ghost use Rattle.book_wire_serving.specs.Logs.{Appended};

use book_wire_serving::LogFault;
use std::io::Write;

/// Writes a whole text. A write that fails, or takes nothing, is not repeated.
///
/// # Errors
///
/// A write failed. The writer holds a front of the text more.
fn put<W: Write>(writer: &mut W, text: &[u8]) -> Result<(), LogFault>
    ensures ok { OnOk result (Appends (W.contents writer.old) (W.contents writer.new) text.now) }
    ensures front { AppendsFront (W.contents writer.old) (W.contents writer.new) text.now }
{
    let mut written = 0;
    while written < text.len() {
        match writer.write(&text[written..]) {
            Ok(0) => return Err(LogFault),
            Ok(count) => written += count,
            Err(_) => return Err(LogFault),
        }
    }
    Ok(())
}

/// Adds a text to what a writer holds. After a write that failed nothing more is written.
///
/// # Errors
///
/// A write has failed, this one or an earlier one.
#[tactic(auto, using(crate::proofs::Appended::appended, crate::proofs::Appended::appended_failed, crate::proofs::Fronts::front_none))]
pub(crate) fn append<W: Write>(
    writer: &mut W,
    failed: &mut bool,
    text: &[u8],
) -> Result<(), LogFault>
    ensures noted { Appended (log_of failed.old (W.contents writer.old))
        (log_of failed.new (W.contents writer.new)) text.now }
    ensures sound { OnOk result (failed.new ≡ false) }
    ensures failed { OnErr result (failed.new ≡ true) }
    ensures front { AppendsFront (W.contents writer.old) (W.contents writer.new) text.now }
{
    if *failed {
        return Err(LogFault);
    }
    match put(writer, text) {
        Ok(()) => Ok(()),
        Err(_) => {
            *failed = true;
            Err(LogFault)
        }
    }
}
