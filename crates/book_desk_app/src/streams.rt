//! The text that a command reads, and the text that it writes.

ghost use Rattle.std.specs.Prelude.{◌≡◌, IfOk, IfErr, IfSome, OnOk, string_bytes};
ghost use Rattle.std.specs.Io.KnownBytes.{Appends};
ghost use Rattle.book_desk_app.specs.TextRuns.{GivesNoText};
ghost use Rattle.book_desk_app.specs.declared.text_failures.TextFailure.TheVariants.{Output};

use crate::text_failures::{InputFault, TextFailure};
use std::alloc::Global;
use std::io::{Read, Write};

/// All that the reader gives, as text.
pub fn read_text<R: Read + Drop>(alloc: Global, mut reader: R) -> Result<String, InputFault>
    ensures text { IfOk result (λ text. IfSome (R.remaining reader)
        (λ input. string_bytes text ≡ input)) }
    ensures refused { IfErr result (λ fault. IfSome (R.remaining reader)
        (λ input. GivesNoText input fault)) }
{
    let mut bytes = Vec::new(alloc);
    if reader.read_to_end(&mut bytes).is_err() {
        return Err(InputFault::Read);
    }
    match String::from_utf8(bytes) {
        Ok(text) => Ok(text),
        Err(_) => Err(InputFault::NotUtf8),
    }
}

/// Writes the text, and everything that the writer still holds back.
pub fn print<W: Write>(writer: &mut W, text: &str) -> Result<(), TextFailure>
    ensures written { OnOk result (Appends (W.contents writer.old)
        (W.contents writer.new) text.now) }
    ensures failed { IfErr result (λ failure. failure ≡ Output) }
{
    if writer.write_all(text.as_bytes()).is_err() || writer.flush().is_err() {
        return Err(TextFailure::Output);
    }
    Ok(())
}
