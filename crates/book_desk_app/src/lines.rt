//! Lines on standard error.

ghost use Rattle.std.specs.Prelude.{◌≡◌, ◌≢◌, ◌++◌, ℕ, List, [], Bool, IsFalse, IsTrue};
ghost use Rattle.std.specs.Io.KnownBytes.{Appends};

use std::io::{self, Write};

/// Writes a text as far as the writer takes it, and tells whether it took all of it. A write that fails, or takes nothing,
/// is not repeated.
fn put_text<W: Write>(writer: &mut W, text: &[u8]) -> bool
    ensures front { (front left : List ℕ) × (text.now ≡ front ++ left)
        × Appends (W.contents writer.old) (W.contents writer.new) front }
    ensures whole { IsTrue result → Appends (W.contents writer.old)
        (W.contents writer.new) text.now }
    ensures cut { IsFalse result → (front left : List ℕ) × (text.now ≡ front ++ left) × (left ≢ [])
        × Appends (W.contents writer.old) (W.contents writer.new) front }
{
    let mut written = 0;
    while written < text.len() {
        match writer.write(&text[written..]) {
            Ok(0) => return false,
            Ok(count) => written += count,
            Err(_) => return false,
        }
    }
    true
}

/// Writes a text as far as the writer takes it.
pub(crate) fn put_front<W: Write>(writer: &mut W, text: &[u8])
    ensures { (front left : List ℕ) × (text.now ≡ front ++ left)
        × Appends (W.contents writer.old) (W.contents writer.new) front }
{
    let _is_whole = put_text(writer, text);
}

/// A writer of lines, which knows whether each text so far was taken to its end.
pub trait Lines: Write {
    /// Each text so far was taken to its end.
    ghost is_whole: { Self → Bool };

    /// Writes a text as far as the writer takes it.
    fn put(&mut self, text: &[u8])
        ensures front { (front left : List ℕ) × (text.now ≡ front ++ left)
            × Appends (Self.Write.contents self.old) (Self.Write.contents self.new) front }
        ensures whole { IsTrue (is_whole self.new)
            → Appends (Self.Write.contents self.old) (Self.Write.contents self.new) text.now }
        ensures before { IsTrue (is_whole self.new) → IsTrue (is_whole self.old) }
        ensures cut { IsTrue (is_whole self.old) → IsFalse (is_whole self.new)
            → (front left : List ℕ) × (text.now ≡ front ++ left) × (left ≢ [])
            × Appends (Self.Write.contents self.old) (Self.Write.contents self.new) front };
}

/// A writer over another one, which notes whether that took each text to its end.
#[derive(Drop)]
pub struct Noting<W> {
    writer: W,
    is_whole: bool,
}

impl<W: Write> Noting<W> {
    /// A writer to which no text was given yet.
    pub fn new(writer: W) -> Noting<W>
        ensures { W.contents result.writer ≡ W.contents writer }
    {
        Noting {
            writer,
            is_whole: true,
        }
    }

    /// The writer that it was made over.
    pub fn into_inner(self) -> W
        ensures { result ≡ self.writer }
    {
        self.writer
    }
}

impl<W: Write> Write for Noting<W> {
    ghost contents = { λ noting. W.contents noting.writer };

    fn write(&mut self, buf: &[u8]) -> io::Result<usize> {
        self.writer.write(buf)
    }

    fn flush(&mut self) -> io::Result<()> {
        self.writer.flush()
    }
}

impl<W: Write> Lines for Noting<W> {
    ghost is_whole = { λ noting. noting.is_whole };

    fn put(&mut self, text: &[u8]) {
        if !put_text(&mut self.writer, text) {
            self.is_whole = false;
        }
    }
}

impl<L: Lines> Lines for &mut L {
    ghost is_whole = { λ lines. L.is_whole lines.now };

    fn put(&mut self, text: &[u8]) {
        (**self).put(text);
    }
}
