//! What stops a run of bytes that stand in a string as they are, sixteen bytes at a time.

ghost use Rattle.std.specs.Prelude.{◌≡◌, ◌+◌, ◌≤◌, ℕ, drop, length, map, take};
ghost use Rattle.std.specs.List.{prefix_len};
ghost use Rattle.std.specs.Simd.Lanes.{mask_l};
ghost use Rattle.json.specs.Run.{is_plain, is_stop};

use std::simd::prelude::*;

/// A bit for each byte that is a quote, a backslash or a control byte (RFC 8259, section 7).
#[inline(always)]
fn stops(bytes: u8x16) -> u64
    ensures { result ≡ mask_l (map is_stop bytes) }
{
    (bytes.simd_eq(u8x16::splat(b'"'))
        | bytes.simd_eq(u8x16::splat(b'\\'))
        | bytes.simd_lt(u8x16::splat(0x20))).to_bitmask()
}

/// How many bytes come before the first such byte: all sixteen where there is none.
#[inline(always)]
pub(crate) fn plain_count(bytes: u8x16) -> usize
    ensures count { result ≡ prefix_len is_plain bytes }
    ensures bound { result ≤ 16 }
{
    let found = stops(bytes);
    if found == 0 {
        16
    } else {
        found.trailing_zeros() as usize
    }
}

/// The bytes, with spaces behind them.
#[inline(always)]
fn padded(text: &[u8]) -> u8x16
    requires { length text.now ≤ 16 }
    ensures { take (length text.now) result ≡ text.now }
{
    let mut bytes = [b' '; 16];
    bytes[..text.len()].copy_from_slice(text);
    u8x16::from_array(bytes)
}

/// Sixteen bytes from a place on, with spaces behind the last.
#[inline(always)]
pub(crate) fn load(text: &[u8], at: usize) -> u8x16
    requires { at ≤ length text.now }
    ensures { (k : ℕ) → k ≤ 16 → at + k ≤ length text.now
        → take k result ≡ take k (drop at text.now) }
{
    let rest = &text[at..];
    if rest.len() < 16 {
        return padded(rest);
    }
    u8x16::from_slice(rest)
}
