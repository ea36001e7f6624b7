//! The command that tells the denials of a log.

ghost use Rattle.std.specs.Prelude.{◌≡◌, ◌++◌, IfOk, IsTrue, codes, option_copied, string_bytes};
ghost use Rattle.std.specs.Io.KnownBytes.{Appends, Keeps};
ghost use Rattle.book_log_denials.specs.Denials.{groups_text};
ghost use Rattle.book_log_denials.specs.Reading.{fault_text};
ghost use Rattle.book_log_denials.specs.declared.faults.LogFault.TheVariants.{BadLine as bad_line};
ghost use Rattle.book_desk_app.specs.Telling.{TellsLine};
ghost use Rattle.book_desk_denials.specs.Denying.{EndsDenials, TellsBadLine};

use crate::counting::{Uncounted, count_log};
use book_desk_app::{DONE, Failure, InputFault, Lines, REFUSED, tell_line};
use book_log_denials::{Form, Groups, LogFault};
use book_log_lines::Time;
use std::alloc::{AllocError, Global};
use std::io::{BufRead, Write};

/// What is told of groups. An error is want of memory.
fn text_of(alloc: Global, form: Form, groups: &Groups) -> Result<String, AllocError>
    ensures { IfOk result (λ text. string_bytes text ≡ groups_text form groups.now) }
{
    let mut text = String::new(alloc);
    groups.push_lines(alloc, form, &mut text)?;
    Ok(text)
}

/// Writes a text, and everything that the writer still holds back; whether it was written.
fn is_written<W: Write>(writer: &mut W, text: &str) -> bool
    ensures { IsTrue result → Appends (W.contents writer.old) (W.contents writer.new) text.now }
{
    writer.write_all(text.as_bytes()).is_ok() && writer.flush().is_ok()
}

/// The line that tells that a line is none. An error is want of memory.
fn line_of(alloc: Global, number: u64) -> Result<String, AllocError>
    ensures { IfOk result (λ line. string_bytes line
        ≡ fault_text (bad_line number) ++ codes "\n") }
{
    let fault = LogFault::BadLine(number);
    format!(in alloc; "{fault}\n")
}

/// Tells that a line is none, and gives the status of the program; where memory was refused, that is told.
fn refuse_line<E: Lines>(alloc: Global, errors: &mut E, number: u64) -> u8
    ensures { TellsBadLine (TellsLine (E.is_whole errors.new) (E.Write.contents errors.old)
        (E.Write.contents errors.new)) number result }
{
    let Ok(line) = line_of(alloc, number) else {
        return tell_line(errors, &Failure::Input(InputFault::Read));
    };
    errors.put(line.as_str().as_bytes());
    REFUSED
}

/// Tells who was refused what, from the lines of a log, and gives the status of the program: 0 where exactly the
/// groups of its denials were written, those before a time left out; 1 where a line is none of a log, whose number was
/// told, and 3 where the log could not be read, memory was refused, or a write failed, which was told. Nothing is
/// written where it is not read to its end.
pub fn run_denials<R: BufRead, W: Write, E: Lines>(
    alloc: Global,
    form: Form,
    since: Option<&Time>,
    reader: &mut R,
    writer: &mut W,
    errors: &mut E,
) -> u8
    ensures ends { EndsDenials (TellsLine (E.is_whole errors.new) (E.Write.contents errors.old)
        (E.Write.contents errors.new)) form (option_copied since.entry)
        (R.Read.remaining reader.old) (W.contents writer.old) (W.contents writer.new) result }
    ensures silent { result ≡ 0 → Keeps (E.Write.contents errors.old)
        (E.Write.contents errors.new) }
{
    let groups = match count_log(alloc, form, since, reader) {
        Ok(groups) => groups,
        Err(Uncounted::BadLine(number)) => return refuse_line(alloc, errors, number),
        Err(Uncounted::Read) => return tell_line(errors, &Failure::Input(InputFault::Read)),
    };
    let Ok(text) = text_of(alloc, form, &groups) else {
        return tell_line(errors, &Failure::Input(InputFault::Read));
    };
    if is_written(writer, text.as_str()) {
        DONE
    } else {
        tell_line(errors, &Failure::Output)
    }
}
