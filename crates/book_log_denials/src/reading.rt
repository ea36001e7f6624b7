//! A text, read as a log.

ghost use Rattle.std.specs.Prelude.{◌≡◌, ◌++◌, ◌<◌, ◌+◌, List, IfErr, IfOk, OnOk, length};
ghost use Rattle.book_log_lines.specs.Lines.{line_text};
ghost use Rattle.book_log_lines.specs.declared.lines.Line.{Line as line_type};
ghost use Rattle.book_log_denials.specs.Reading.{log_text};

use crate::faults::{LogFault, Unread};
use crate::parsing::parse_line;
use book_log_lines::{Line, line_bytes};
use book_office_values::Items;
use json::Scratch;
use std::alloc::Global;

/// The next line of a text with its line feed, and what follows it.
fn next_line(text: &[u8]) -> Result<(&[u8], &[u8]), Unread>
    ensures whole { IfOk result (λ parts. text.now ≡ parts.0.now ++ parts.1.now) }
    ensures shorter { IfOk result (λ parts. length parts.1.now < length text.now) }
{
    match text.iter().position(|byte| *byte == b'\n') {
        Some(end) => Ok(text.split_at(end + 1)),
        None => Err(Unread::Bad),
    }
}

/// Reads a line: what it tells has its text.
pub(crate) fn read_line(alloc: Global, scratch: &mut Scratch, text: &[u8]) -> Result<Line, Unread>
    ensures { IfOk result (λ line. text.now ≡ line_text line) }
{
    let line = parse_line(alloc, scratch, text)?;
    let bytes = line_bytes(alloc, &line)?;
    if bytes.as_slice() != text {
        return Err(Unread::Bad);
    }
    Ok(line)
}

/// Reads the first line of a text, and answers it with what follows.
fn read_next<'a>(
    alloc: Global,
    scratch: &mut Scratch,
    text: &'a [u8],
) -> Result<(Line, &'a [u8]), Unread>
    ensures whole { IfOk result (λ parts. text.now ≡ line_text parts.0 ++ parts.1.now) }
    ensures shorter { IfOk result (λ parts. length parts.1.now < length text.now) }
{
    let (first, rest) = next_line(text)?;
    let line = read_line(alloc, scratch, first)?;
    Ok((line, rest))
}

/// What a text tells that is a log, to the letter: the text of what is read is the text.
///
/// # Errors
///
/// `Memory` where memory was refused, in place of any other answer. Else `BadLine` with the number of the first line that
/// is none of a log: it is not UTF-8, no JSON object, not exactly the line that a log would have, or without a line feed at
/// the end.
pub fn read_log(alloc: Global, text: &[u8]) -> Result<Items<Line>, LogFault>
    ensures { IfOk result (λ lines. text.now ≡ log_text lines) }
{
    let mut scratch = Scratch::new(alloc);
    let mut lines = Items::new(alloc);
    let mut rest = text;
    while !rest.is_empty() {
        let number = (lines.len() as u64).saturating_add(1);
        match read_next(alloc, &mut scratch, rest) {
            Ok((line, behind)) => {
                lines.push(line)?;
                rest = behind;
            }
            Err(unread) => return Err(unread.at(number)),
        }
    }
    Ok(lines)
}
