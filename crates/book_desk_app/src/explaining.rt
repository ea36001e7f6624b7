//! The command `explain`, over any reader and writer.

ghost use Rattle.std.specs.Prelude.{◌≢◌, IfErr, IfSome, OnOk};
ghost use Rattle.std.specs.Io.KnownBytes.{Keeps};
ghost use Rattle.book_desk_app.specs.TextRuns.{Does, Refuses};
ghost use Rattle.book_desk_app.specs.declared.text_commands.TextCommand.TheVariants as commands;
ghost use Rattle.book_desk_app.specs.declared.text_failures.TextFailure.TheVariants.{Output};

use crate::streams::{print, read_text};
use crate::text_failures::TextFailure;
use book_lists_explain::explain;
use std::alloc::Global;
use std::io::{Read, Write};

/// Reads the question, decides it, and writes the answer. Nothing is written where the input is refused.
pub fn explain_input<R: Read + Drop, W: Write>(
    alloc: Global,
    reader: R,
    writer: &mut W,
) -> Result<(), TextFailure>
    ensures written { OnOk result (Does commands.Explain (R.remaining reader)
        (W.contents writer.old) (W.contents writer.new)) }
    ensures refused { IfErr result (λ failure. IfSome (R.remaining reader)
        (λ input. Refuses commands.Explain input failure)) }
    ensures unwritten { IfErr result (λ failure. failure ≢ Output
        → Keeps (W.contents writer.old) (W.contents writer.new)) }
{
    let text = read_text(alloc, reader)?;
    match explain(alloc, text.as_str()) {
        Ok(answer) => print(writer, answer.as_str()),
        Err(fault) => Err(TextFailure::Explain(fault)),
    }
}
