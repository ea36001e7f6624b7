//! What is written.

ghost use Rattle.std.specs.Prelude.{◌≡◌, ◌∷◌, [], IfErr, OnOk};
ghost use Rattle.std.specs.Io.KnownBytes.{Appends};
ghost use Rattle.book_dumps.specs.Told.{texts_of};
ghost use Rattle.book_dumps.specs.Writing.{IsCut, Puts};
ghost use Rattle.book_dumps.specs.declared.faults.DumpFault.TheVariants as faults;

use crate::faults::DumpFault;
use crate::lines::Line;
use crate::writing::line_bytes;
use std::alloc::Global;
use std::io::Write;

/// Writes a whole text. A write that fails, or takes nothing, is not repeated.
pub(crate) fn put<W: Write>(writer: &mut W, text: &[u8]) -> Result<(), DumpFault>
    ensures ok { OnOk result (Appends (W.contents writer.old) (W.contents writer.new) text.now) }
    ensures err { IfErr result (λ fault. (fault ≡ faults.Write)
        × IsCut (W.contents writer.old) (W.contents writer.new) text.now) }
{
    let mut written = 0;
    while written < text.len() {
        match writer.write(&text[written..]) {
            Ok(0) => return Err(DumpFault::Write),
            Ok(count) => written += count,
            Err(_) => return Err(DumpFault::Write),
        }
    }
    Ok(())
}

/// Writes a line, and counts it.
pub(crate) fn put_line<W: Write>(
    writer: &mut W,
    count: &mut u64,
    line: &[u8],
) -> Result<(), DumpFault>
    ensures { Puts (W.contents writer.old) (W.contents writer.new) count.old count.new result
        (line.now ∷ []) }
{
    put(writer, line)?;
    *count = count.saturating_add(1);
    Ok(())
}

/// Writes the line of a resource, if there is one, and counts it.
pub(crate) fn put_told<W: Write>(
    alloc: Global,
    writer: &mut W,
    count: &mut u64,
    line: &Option<Line>,
) -> Result<(), DumpFault>
    ensures { Puts (W.contents writer.old) (W.contents writer.new) count.old count.new result
        (texts_of line.now) }
{
    let Some(line) = line else {
        return Ok(());
    };
    let bytes = line_bytes(alloc, line)?;
    put_line(writer, count, bytes.as_slice())
}
