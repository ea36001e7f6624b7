//! A text of a bounded length: what the input has beyond the bound is tested, and not kept.

ghost use Rattle.std.specs.Prelude.{◌≡◌, ◌<◌, ◌↔◌, ◌++◌, ◌∷◌, [], List, ℕ, length, IfOk, IfErr, IfSome, IfNone, IsTrue, string_bytes};
ghost use Rattle.std.specs.Str.{IsUtf8};
ghost use Rattle.book_desk_app.specs.TextRuns.{GivesNoText};
ghost use Rattle.book_desk_app.specs.ShortTexts.{HasTaken};

use crate::text_failures::InputFault;
use simdutf8::Checker;
use std::alloc::Global;
use std::io::Read;
use std::simd::prelude::*;

/// A test whether bytes are UTF-8, which takes one after the other: the checker has whole blocks of them, and the
/// block at hand those that follow.
#[derive(Clone, Copy)]
struct TextTest {
    checker: Checker,
    block: [u8; 64],
    filled: usize,
}

impl TextTest {
    fn new() -> TextTest
        ensures { HasTaken result [] }
    {
        TextTest {
            checker: Checker::new(),
            block: [0; 64],
            filled: 0,
        }
    }

    /// Takes one byte more.
    fn take(&mut self, byte: u8)
        requires { self.old.filled < 64 }
        ensures { (taken : List ℕ) → HasTaken self.old taken
            → HasTaken self.new (taken ++ byte ∷ []) }
    {
        self.block[self.filled] = byte;
        if self.filled == 63 {
            self.checker = self.checker.step_baseline(u8x64::from_array(self.block));
            self.filled = 0;
        } else {
            self.filled += 1;
        }
    }

    /// Whether all that was taken is UTF-8.
    fn finish(&self) -> bool
        requires { self.now.filled < 64 }
        ensures { (taken : List ℕ) → HasTaken self.now taken → (IsTrue result ↔ IsUtf8 taken) }
    {
        let mut block = [0; 64];
        block[..self.filled].copy_from_slice(&self.block[..self.filled]);
        self.checker
            .step_baseline(u8x64::from_array(block))
            .finish()
    }
}

/// The bytes as a text.
fn text_of(bytes: Vec<u8>) -> Result<String, InputFault>
    ensures text { IfOk result (λ text. string_bytes text ≡ bytes.items) }
    ensures refused { IfErr result (GivesNoText bytes.items) }
{
    match String::from_utf8(bytes) {
        Ok(text) => Ok(text),
        Err(_) => Err(InputFault::NotUtf8),
    }
}

/// All that the reader gives, as text; none where it is more than `most` bytes. Of a longer text one byte more than
/// that is kept, and the rest is read to its end.
///
/// # Errors
///
/// `Read` where the input can't be read or memory is refused, and `NotUtf8` where it is not UTF-8, however long it is.
pub fn read_short_text<R: Read + Drop>(
    alloc: Global,
    most: usize,
    reader: R,
) -> Result<Option<String>, InputFault>
    ensures text { IfOk result (λ found. IfSome found
        (λ text. IfSome (R.remaining reader) (λ input. string_bytes text ≡ input))) }
    ensures longer { IfOk result (λ found. IfNone found
        (IfSome (R.remaining reader) (λ input. IsUtf8 input × (most < length input)))) }
    ensures refused { IfErr result (λ fault. IfSome (R.remaining reader)
        (λ input. GivesNoText input fault)) }
{
    let mut kept = Vec::new(alloc);
    let mut test = TextTest::new();
    for byte in reader.bytes() {
        let Ok(byte) = byte else {
            return Err(InputFault::Read);
        };
        test.take(byte);
        if kept.len() <= most && kept.push(byte).is_err() {
            return Err(InputFault::Read);
        }
    }
    if kept.len() <= most {
        return Ok(Some(text_of(kept)?));
    }
    if test.finish() {
        Ok(None)
    } else {
        Err(InputFault::NotUtf8)
    }
}
