//! Bytes that are written at a place of a buffer.

ghost use Rattle.std.specs.Prelude.{◌≡◌, ℕ, ◌+◌, ◌<◌, ◌≤◌, [], ◌∷◌, ◌++◌, length, take, cond, vec_len, OnOk};
ghost use Rattle.json.specs.Filled.{Placed};

use std::alloc::AllocError;
use std::simd::prelude::*;

/// Writes bytes at a place, and tells where they end.
#[inline(always)]
pub(crate) fn place(buffer: &mut [u8], at: usize, bytes: &[u8]) -> usize
    requires { at + length bytes.now ≤ length buffer.old }
    ensures { Placed buffer.old buffer.new at bytes.now result }
{
    let end = at + bytes.len();
    buffer[at..end].copy_from_slice(bytes);
    end
}

/// Writes a comma at a place if it is wanted, and tells where it ends.
#[inline(always)]
fn place_comma(buffer: &mut [u8], at: usize, wanted: bool) -> usize
    requires { at < length buffer.old }
    ensures { Placed buffer.old buffer.new at (cond wanted (44 ∷ []) []) result }
{
    buffer[at] = b',';
    if wanted { at + 1 } else { at }
}

/// Writes bytes at a place of a vector, with a comma before them if it is wanted, and tells where they end.
#[inline(always)]
pub(crate) fn put(bytes: &mut Vec<u8>, at: usize, comma: bool, text: &[u8]) -> usize
    requires { at + length text.now + 1 ≤ vec_len bytes.old }
    ensures { Placed bytes.old.items bytes.new.items at
        (cond comma (44 ∷ []) [] ++ text.now) result }
{
    let buffer = bytes.as_mut_slice();
    let begun = place_comma(buffer, at, comma);
    place(buffer, begun, text)
}

/// Writes sixteen bytes at a place, of which any number of the first may count.
#[inline(always)]
pub(crate) fn place_chunk(buffer: &mut [u8], at: usize, bytes: u8x16)
    requires { at + 16 ≤ length buffer.old }
    ensures front { take at buffer.new ≡ take at buffer.old }
    ensures bytes { (k : ℕ) → k ≤ 16
        → take (at + k) buffer.new ≡ take at buffer.old ++ take k bytes }
    ensures len { length buffer.new ≡ length buffer.old }
{
    bytes.copy_to_slice(&mut buffer[at..]);
}

static ZEROS: [u8; 512] = [0; 512];

/// Fills a vector until so many bytes stand behind a place. An error is want of memory.
#[cold]
#[inline(never)]
fn fill(bytes: &mut Vec<u8>, at: usize, more: usize) -> Result<(), AllocError>
    requires { at ≤ vec_len bytes.old }
    ensures ok { OnOk result (at + more ≤ vec_len bytes.new) }
    ensures front { take at bytes.new.items ≡ take at bytes.old.items }
    ensures within { at ≤ vec_len bytes.new }
{
    while bytes.len() - at < more {
        bytes.extend_from_slice(&ZEROS)?;
    }
    Ok(())
}

/// Sees to it that so many bytes may be written from a place of a vector on. What stands before the place stays. An
/// error is want of memory.
#[inline(always)]
pub(crate) fn make_room(bytes: &mut Vec<u8>, at: usize, more: usize) -> Result<(), AllocError>
    requires { at ≤ vec_len bytes.old }
    ensures ok { OnOk result (at + more ≤ vec_len bytes.new) }
    ensures front { take at bytes.new.items ≡ take at bytes.old.items }
    ensures within { at ≤ vec_len bytes.new }
{
    if more <= bytes.len() - at {
        return Ok(());
    }
    fill(bytes, at, more)
}
