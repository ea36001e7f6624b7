//! A command that reads a text and writes one, done over any reader and writers.

ghost use Rattle.std.specs.Prelude.{◌≡◌, ◌≢◌, IfErr, IfSome, OnOk};
ghost use Rattle.std.specs.Io.KnownBytes.{Keeps};
ghost use Rattle.book_desk_app.specs.TextRuns.{Does, Fails, Refuses};
ghost use Rattle.book_desk_app.specs.declared.text_failures.TextFailure.TheVariants.{Output};

use crate::card_summaries::summarize_input;
use crate::explaining::explain_input;
use crate::streams::print;
use crate::text_commands::TextCommand;
use crate::text_failures::{DONE, TextFailure};
use std::alloc::Global;
use std::io::{Read, Write};

fn answer<R: Read + Drop, W: Write>(
    alloc: Global,
    command: &TextCommand,
    reader: R,
    writer: &mut W,
) -> Result<(), TextFailure>
    ensures written { OnOk result (Does command.now (R.remaining reader) (W.contents writer.old)
        (W.contents writer.new)) }
    ensures refused { IfErr result (λ failure. IfSome (R.remaining reader)
        (λ input. Refuses command.now input failure)) }
    ensures unwritten { IfErr result (λ failure. failure ≢ Output
        → Keeps (W.contents writer.old) (W.contents writer.new)) }
{
    match command {
        TextCommand::Explain => explain_input(alloc, reader, writer),
        TextCommand::Card => summarize_input(alloc, reader, writer),
        TextCommand::Help(text) => print(writer, text.as_str()),
    }
}

/// Does what the command says, and gives the status of the program: 0 where it is done, 1 where the input was
/// refused, 3 where memory was refused, or a read or a write failed. A failure is told on `errors`, all else is
/// written to `writer`, and nothing is written there where the input was refused.
pub fn run_text<R: Read + Drop, W: Write, E: Write>(
    alloc: Global,
    command: &TextCommand,
    reader: R,
    writer: &mut W,
    errors: &mut E,
) -> u8
    ensures done { result ≡ 0 → Does command.now (R.remaining reader) (W.contents writer.old)
        (W.contents writer.new) }
    ensures silent { result ≡ 0 → Keeps (E.contents errors.old) (E.contents errors.new) }
    ensures failed { result ≢ 0 → Fails command.now (R.remaining reader) (W.contents writer.old)
        (W.contents writer.new) result }
    ensures refused { result ≡ 1 → Keeps (W.contents writer.old) (W.contents writer.new) }
{
    match answer(alloc, command, reader, writer) {
        Ok(()) => DONE,
        Err(failure) => {
            // Where this can't be written either, the status alone tells it.
            let _ = writeln!(errors, "{failure}");
            failure.status()
        }
    }
}
