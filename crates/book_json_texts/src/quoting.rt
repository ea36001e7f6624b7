//! Strings in their quotes (RFC 8259, section 7).

ghost use Rattle.std.specs.Prelude.{◌≡◌, ◌+◌, ◌<◌, ◌≤◌, [], ◌∷◌, ◌++◌, length, take, drop, cond, vec_len, IfOk};
ghost use Rattle.std.specs.Char.{digit_char};
ghost use Rattle.json.specs.Filled.{Placed};
ghost use Rattle.json.specs.Print.{escape, escape_byte, escape_letter};

use crate::places::{make_room, place, place_chunk, put};
use crate::stops::{load, plain_count};
use std::alloc::AllocError;

/// The letter of a byte's short escape, or 0 where it has none.
#[inline(always)]
fn letter(byte: u8) -> u8
    ensures { result ≡ escape_letter byte }
{
    match byte {
        b'"' | b'\\' => byte,
        8 => b'b',
        12 => b'f',
        b'\n' => b'n',
        b'\r' => b'r',
        b'\t' => b't',
        _ => 0,
    }
}

/// A digit of base sixteen, in lower case.
#[inline(always)]
fn hex(digit: u8) -> u8
    requires { digit < 16 }
    ensures { result ≡ digit_char digit }
{
    if digit < 10 {
        b'0' + digit
    } else {
        b'a' - 10 + digit
    }
}

/// Writes what stands for a byte at a place, and tells where it ends.
#[inline(always)]
fn place_escape(buffer: &mut [u8], at: usize, byte: u8) -> usize
    requires { at + 6 ≤ length buffer.old }
    ensures placed { Placed buffer.old buffer.new at (escape_byte byte) result }
    ensures bound { result ≤ at + 6 }
{
    let letter = letter(byte);
    if letter > 0 {
        return place(buffer, at, &[b'\\', letter]);
    }
    if byte < 0x20 {
        return place(
            buffer,
            at,
            &[b'\\', b'u', b'0', b'0', hex(byte / 16), hex(byte % 16)],
        );
    }
    place(buffer, at, &[byte])
}

/// Writes what stands for one byte of a text at a place, and for a line feed that follows it, as in a line's end. Tells
/// where that ends, and which byte of the text comes next.
#[inline(always)]
fn place_stop(buffer: &mut [u8], end: usize, text: &[u8], at: usize) -> (usize, usize)
    requires room { end + 8 ≤ length buffer.old }
    requires within { at < length text.now }
    ensures front { take end buffer.new ≡ take end buffer.old }
    ensures text { take result.0 buffer.new ++ escape (drop result.1 text.now)
        ≡ take end buffer.old ++ escape (drop at text.now) }
    ensures moved { (at < result.1) × (result.1 ≤ length text.now) }
    ensures written { (end ≤ result.0) × (result.0 ≤ length buffer.new) }
    ensures len { length buffer.new ≡ length buffer.old }
{
    let after = place_escape(buffer, end, text[at]);
    let next = at + 1;
    if next < text.len() && text[next] == b'\n' {
        return (place(buffer, after, b"\\n"), next + 1);
    }
    (after, next)
}

/// Writes what stands for some bytes of a text, from one on, at a place: for those up to the first that has to be escaped,
/// and for that. Tells where that ends, and which byte of the text comes next.
#[inline(always)]
fn step(buffer: &mut [u8], end: usize, text: &[u8], at: usize) -> (usize, usize)
    requires room { end + 32 ≤ length buffer.old }
    requires within { at < length text.now }
    ensures front { take end buffer.new ≡ take end buffer.old }
    ensures text { take result.0 buffer.new ++ escape (drop result.1 text.now)
        ≡ take end buffer.old ++ escape (drop at text.now) }
    ensures moved { (at < result.1) × (result.1 ≤ length text.now) }
    ensures written { (end ≤ result.0) × (result.0 ≤ length buffer.new) }
    ensures len { length buffer.new ≡ length buffer.old }
{
    let bytes = load(text, at);
    place_chunk(buffer, end, bytes);
    let plain = plain_count(bytes);
    let rest = text.len() - at;
    if rest <= plain {
        return (end + rest, text.len());
    }
    if plain == 16 {
        return (end + 16, at + 16);
    }
    place_stop(buffer, end + plain, text, at + plain)
}

/// Writes a text with its escapes from a place of a vector on, and tells where it ends. What stands before the place
/// stays. An error is want of memory.
fn put_escaped(bytes: &mut Vec<u8>, from: usize, text: &[u8]) -> Result<usize, AllocError>
    requires { from ≤ vec_len bytes.old }
    ensures text { IfOk result (λ end. take end bytes.new.items
        ≡ take from bytes.old.items ++ escape text.now) }
    ensures end { IfOk result (λ end. (from ≤ end) × (end ≤ vec_len bytes.new)) }
    ensures front { take from bytes.new.items ≡ take from bytes.old.items }
    ensures within { from ≤ vec_len bytes.new }
{
    let mut end = from;
    let mut at = 0;
    while at < text.len() {
        make_room(bytes, end, 32)?;
        let (next, stop) = step(bytes.as_mut_slice(), end, text, at);
        end = next;
        at = stop;
    }
    Ok(end)
}

/// Writes a text in quotes from a place of a vector on, with a comma before it if it is wanted, and tells where it ends.
/// `close` is the closing quote, and the colon of a key. What stands before the place stays. An error is want of memory.
pub(crate) fn put_quoted(
    bytes: &mut Vec<u8>,
    at: usize,
    comma: bool,
    text: &[u8],
    close: &[u8],
) -> Result<usize, AllocError>
    requires within { at ≤ vec_len bytes.old }
    requires close { length close.now ≤ 2 }
    ensures text { IfOk result (λ end. take end bytes.new.items ≡ take at bytes.old.items
        ++ (cond comma (44 ∷ []) [] ++ 34 ∷ (escape text.now ++ close.now))) }
    ensures end { IfOk result (λ end. end ≤ vec_len bytes.new) }
    ensures front { take at bytes.new.items ≡ take at bytes.old.items }
    ensures within { at ≤ vec_len bytes.new }
{
    make_room(bytes, at, text.len() + 36)?;
    let opened = put(bytes, at, comma, b"\"");
    let end = put_escaped(bytes, opened, text)?;
    make_room(bytes, end, 3)?;
    Ok(put(bytes, end, false, close))
}
