//! A text, read as a dump.

ghost use Rattle.std.specs.Prelude.{◌≡◌, ◌+◌, ◌<◌, ◌++◌, [], IfOk, OnOk, length, map};
ghost use Rattle.std.specs.List.{concat};
ghost use Rattle.book_dumps.specs.Dumps.{counted, epoch_line, last_line};
ghost use Rattle.book_dumps.specs.Lines.{line_text};
ghost use Rattle.book_dumps_reading.specs.Dumped.{dumped_text};
ghost use Rattle.book_dumps_reading.specs.Reading.{told_text};

use crate::dumped::{Dumped, single_line};
use crate::faults::{LineProblem, ReadFault, line_fault};
use crate::parsing::{Reading, Told, parse_epoch, parse_line};
use crate::principals::check_principals;
use book_dumps::{Line, line_bytes};
use book_office_values::Items;
use std::alloc::{AllocError, Global};

/// The next line of a text with its line feed, and what follows it.
fn next_line(text: &[u8], number: u64) -> Result<(&[u8], &[u8]), ReadFault>
    ensures whole { IfOk result (λ parts. text.now ≡ parts.0.now ++ parts.1.now) }
    ensures shorter { IfOk result (λ parts. length parts.1.now < length text.now) }
{
    match text.iter().position(|byte| *byte == b'\n') {
        Some(end) => Ok(text.split_at(end + 1)),
        None => Err(line_fault(number, LineProblem::LastLine)),
    }
}

/// The text is that of the line. It is `bad-line` else.
fn check_text(text: &[u8], line: &[u8], number: u64) -> Result<(), ReadFault>
    ensures { OnOk result (line.now ≡ text.now) }
{
    if line != text {
        return Err(line_fault(number, LineProblem::BadLine));
    }
    Ok(())
}

/// Reads the first line.
fn read_epoch(
    alloc: Global,
    reading: &mut Reading,
    line: &[u8],
    number: u64,
) -> Result<u64, ReadFault>
    ensures { IfOk result (λ epoch. line.now ≡ epoch_line epoch) }
{
    let epoch = parse_epoch(alloc, reading, line, number)?;
    let text = single_line(alloc, "epoch", epoch)?;
    check_text(text.as_slice(), line, number)?;
    Ok(epoch)
}

/// The text of a line that tells this. An error is want of memory.
fn told_bytes(alloc: Global, told: &Told) -> Result<Vec<u8>, AllocError>
    ensures { IfOk result (λ bytes. bytes.items ≡ told_text told.now) }
{
    match told {
        Told::Resource(line) => line_bytes(alloc, line),
        Told::Last(count) => single_line(alloc, "lines", *count),
    }
}

/// Reads a line after the first.
fn read_line(
    alloc: Global,
    reading: &mut Reading,
    line: &[u8],
    number: u64,
) -> Result<Told, ReadFault>
    ensures { IfOk result (λ told. line.now ≡ told_text told) }
{
    let told = parse_line(alloc, reading, line, number)?;
    let text = told_bytes(alloc, &told)?;
    check_text(text.as_slice(), line, number)?;
    Ok(told)
}

/// How many lines there are: the first, and those of so many resources.
fn count_with(resources: usize) -> u64
    ensures { result ≡ counted (resources + 1) }
{
    (resources as u64).saturating_add(1)
}

/// The text ends with a line that tells so many lines before it.
fn check_last(told: u64, count: u64, rest: &[u8]) -> Result<(), ReadFault>
    ensures { OnOk result ((told ≡ count) × (rest.now ≡ [])) }
{
    let number = count.saturating_add(1);
    if told != count {
        return Err(line_fault(number, LineProblem::LastLine));
    }
    if !rest.is_empty() {
        return Err(line_fault(number.saturating_add(1), LineProblem::LastLine));
    }
    Ok(())
}

/// Reads the lines after the first.
#[tactic(auto, using(crate::proofs::Texts::lines_more))]
fn read_lines(alloc: Global, reading: &mut Reading, text: &[u8]) -> Result<Items<Line>, ReadFault>
    ensures { IfOk result (λ lines. text.now ≡
        concat (map line_text lines) ++ last_line (counted (length lines + 1))) }
{
    let mut lines = Items::new(alloc);
    let mut rest = text;
    loop {
        let count = count_with(lines.len());
        let number = count.saturating_add(1);
        let (line, after) = next_line(rest, number)?;
        match read_line(alloc, reading, line, number)? {
            Told::Resource(resource) => lines.push(resource)?,
            Told::Last(told) => {
                check_last(told, count, after)?;
                return Ok(lines);
            }
        }
        rest = after;
    }
}

/// What a text tells that is a dump, to the letter: the text of what is read is the text.
///
/// One line's text is taken apart at a time; what all lines tell is in memory.
///
/// # Errors
///
/// `Memory` where memory was refused, in place of any other answer. Else `Line`, where the text is no dump of an Office
/// that keeps its rules (own profile), at the least line that is wrong:
///
/// - `bad-line`: it is not UTF-8, no JSON object, or not exactly the line that a dump would have there. Its key is the
///   first that is missing, there twice, or out of order, or whose value is of another type or has no meaning there: a
///   number above 2^53 - 1, a number of a card or a removed name that is 0, above that of its book or that of another
///   name, a removed name that has a card, an empty value of a key that is left out without one. A path of which an
///   earlier one among the root and the homes is missing is told so too.
/// - `bad-name`: a path, a principal or a removed name is none, or a card's book has no line before it.
/// - `order`: a path is not above the one before in byte order, or removed names are not in order of number.
/// - `too-many`: there are more than 64 entries, 1,000 members, 10,000 cards of a book, or 1,000 books.
/// - `too-long`: a label has more than 256 bytes, or a text more than 65,536.
/// - `last-line`: the text ends without a line `{"lines":N}` of the number of the lines before it, or something follows
///   that line.
/// - `unknown-principal`, where no line is wrong otherwise: an owner, a member, or the principal of an entry has no line.
pub fn read_dump(alloc: Global, text: &[u8]) -> Result<Dumped, ReadFault>
    ensures { IfOk result (λ dumped. dumped_text dumped ≡ text.now) }
{
    let mut reading = Reading::new(alloc);
    let (first, rest) = next_line(text, 1)?;
    let epoch = read_epoch(alloc, &mut reading, first, 1)?;
    let lines = read_lines(alloc, &mut reading, rest)?;
    let dumped = Dumped { epoch, lines };
    check_principals(alloc, dumped.lines.as_slice())?;
    Ok(dumped)
}
