//! What is written.

ghost use Rattle.std.specs.Prelude.{◌≡◌, List, ◌++◌, OnOk, IfErr, ℕ};
ghost use Rattle.std.specs.Io.KnownBytes.{Appends};

use book_wire_serving::StreamFault;
use std::io::Write;

/// Writes a whole text. A write that fails, or takes nothing, is not repeated.
pub(crate) fn put<W: Write>(writer: &mut W, text: &[u8]) -> Result<(), StreamFault>
    ensures ok { OnOk result (Appends (W.contents writer.old) (W.contents writer.new) text.now) }
    ensures err { IfErr result (λ e. (e ≡ StreamFault.Write)
        × ((front left : List ℕ) × (text.now ≡ front ++ left)
        × Appends (W.contents writer.old) (W.contents writer.new) front)) }
{
    let mut written = 0;
    while written < text.len() {
        match writer.write(&text[written..]) {
            Ok(0) => return Err(StreamFault::Write),
            Ok(count) => written += count,
            Err(_) => return Err(StreamFault::Write),
        }
    }
    Ok(())
}
