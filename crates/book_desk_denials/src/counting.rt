//! A log that is read line by line.

ghost use Rattle.std.specs.Prelude.{◌≡◌, IfErr, IfOk, IsFalse, option_copied};
ghost use Rattle.std.specs.Io.KnownBytes.{Consumes, IsAtEnd};
ghost use Rattle.book_desk_denials.specs.Denying.{Counts, Stops, fault_of};

use book_log_denials::{Form, Groups, Unread, count_line};
use book_log_lines::Time;
use json::Scratch;
use std::alloc::Global;
use std::io::BufRead;

/// Why the denials of a log were not counted.
#[derive(Clone, Copy, Debug, PartialEq, Eq)]
pub(crate) enum Uncounted {
    /// It could not be read, for want of memory too.
    Read,
    /// The line with this number, from 1, is none of a log.
    BadLine(u64),
}

/// Reads the next line, with its line feed; whether there is one.
fn next_line<R: BufRead>(reader: &mut R, line: &mut Vec<u8>) -> Result<bool, Uncounted>
    ensures read { IfOk result (λ is_there. Consumes (R.Read.remaining reader.old)
        (R.Read.remaining reader.new) line.new.items) }
    ensures end { IfOk result (λ is_there. IsFalse is_there
        → IsAtEnd (R.Read.remaining reader.old)) }
    ensures failed { IfErr result (λ fault. fault ≡ Uncounted.Read) }
{
    line.clear();
    match reader.read_until(b'\n', line) {
        Ok(0) => Ok(false),
        Ok(_) => Ok(true),
        Err(_) => Err(Uncounted::Read),
    }
}

/// Why the line with this number was not counted.
fn fault_of(unread: Unread, number: u64) -> Uncounted
    ensures { result ≡ fault_of unread number }
{
    match unread {
        Unread::Memory => Uncounted::Read,
        Unread::Bad => Uncounted::BadLine(number),
    }
}

/// The denials of a log, those before a time left out, in their groups.
///
/// # Errors
///
/// `Read` where the log can't be read or memory was refused. `BadLine` with the number of the first line that is none
/// of a log.
pub(crate) fn count_log<R: BufRead>(
    alloc: Global,
    form: Form,
    since: Option<&Time>,
    reader: &mut R,
) -> Result<Groups, Uncounted>
    ensures counted { IfOk result (Counts form (option_copied since.entry)
        (R.Read.remaining reader.old)) }
    ensures stopped { IfErr result (Stops (R.Read.remaining reader.old)) }
{
    let mut scratch = Scratch::new(alloc);
    let mut groups = Groups::new(alloc);
    let mut line = Vec::new(alloc);
    for number in 1..u64::MAX {
        let is_there = next_line(reader, &mut line)?;
        if !is_there {
            return Ok(groups);
        }
        match count_line(
            alloc,
            &mut scratch,
            form,
            &mut groups,
            since,
            line.as_slice(),
        ) {
            Ok(()) => {}
            Err(unread) => return Err(fault_of(unread, number)),
        }
    }
    Err(Uncounted::Read)
}
