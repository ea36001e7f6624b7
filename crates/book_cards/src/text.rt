//! Folds, lines and escapes (RFC 6350, sections 3.2 and 3.4).

ghost use Rattle.std.specs.Prelude.{◌≡◌, ◌<◌, [], ◌∷◌, length, IfOk, IfNone, IfSome, MatchOption, ℕ, List, true, false};
ghost use Rattle.std.specs.Str.Lines.{lines};
ghost use Rattle.std.specs.String.{string_bytes};
ghost use Rattle.book_cards.specs.Folding.{is_blank, unfolded};
ghost use Rattle.book_cards.specs.Places.{Ends};
ghost use Rattle.book_cards.specs.Escaping.{escaped, unescaped};

use std::alloc::{AllocError, Global};

/// The text after a space or tab at its front.
fn strip_blank(text: &str) -> Option<&str>
    ensures { MatchOption result ((b : ℕ) (rest : List ℕ) → text.now ≡ b ∷ rest
        → is_blank b ≡ false) (λ rest. (b : ℕ) × (is_blank b ≡ true) × (text.now ≡ b ∷ rest.now)) }
{
    match text.strip_prefix(' ') {
        Some(rest) => Some(rest),
        None => text.strip_prefix('\t'),
    }
}

/// The text without its folds (RFC 6350, section 3.2): each line end that a space or tab follows is left out
/// with that one character, and nothing else is. A line end is CRLF, or a line feed that no carriage return
/// precedes (own profile).
///
/// `AllocError` where memory is refused. One pass over the text; the answer takes at most the bytes of the
/// text.
pub fn unfold(alloc: Global, text: &str) -> Result<String, AllocError>
    ensures { IfOk result (λ whole. string_bytes whole ≡ unfolded text.now) }
{
    let mut whole = String::with_capacity(alloc, text.len())?;
    let mut rest = text;
    while let Some((line, after)) = rest.split_once('\n') {
        match strip_blank(after) {
            Some(continued) => {
                whole.push_str(line.strip_suffix('\r').unwrap_or(line))?;
                rest = continued;
            }
            None => {
                whole.push_str(line)?;
                whole.push('\n')?;
                rest = after;
            }
        }
    }
    whole.push_str(rest)?;
    Ok(whole)
}

/// The first line, without its line end, and the text after it; none in an empty text.
pub(crate) fn split_line(text: &str) -> Option<(&str, &str)>
    ensures { MatchOption result (text.now ≡ [])
        (λ parts. (lines text.now ≡ parts.0.now ∷ lines parts.1.now)
        × (length parts.1.now < length text.now) × Ends text.now parts.1.now) }
{
    if text.is_empty() {
        return None;
    }
    match text.split_once('\n') {
        Some((line, rest)) => Some((line.strip_suffix('\r').unwrap_or(line), rest)),
        None => Some((text, "")),
    }
}

/// What a backslash before this byte stands for.
fn escaped_by(byte: u8) -> Option<char>
    ensures { result ≡ escaped byte }
{
    match byte {
        b'\\' => Some('\\'),
        b',' => Some(','),
        b';' => Some(';'),
        b'n' | b'N' => Some('\n'),
        _ => None,
    }
}

/// What a backslash before this text stands for, and the text after the escape.
fn escape(after: &str) -> Option<(char, &str)>
    ensures none { IfNone result ((b : ℕ) (rest : List ℕ) → after.now ≡ b ∷ rest
        → escaped b ≡ None) }
    ensures some { IfSome result (λ found. (b : ℕ) × (after.now ≡ b ∷ found.1.now)
        × (escaped b ≡ Some found.0)) }
{
    let byte = *after.as_bytes().first()?;
    let meaning = escaped_by(byte)?;
    Some((meaning, &after[1..]))
}

/// The value with its escapes replaced (RFC 6350, section 3.4): `\\`, `\,`, `\;`, `\n` and `\N` stand for a
/// backslash, a comma, a semicolon, a line feed and a line feed. Another backslash stays, with what follows
/// it (own profile).
///
/// `AllocError` where memory is refused. One pass over the value; the answer takes at most its bytes.
pub fn unescape(alloc: Global, value: &str) -> Result<String, AllocError>
    ensures { IfOk result (λ plain. string_bytes plain ≡ unescaped value.now) }
{
    let mut plain = String::with_capacity(alloc, value.len())?;
    let mut rest = value;
    while let Some((before, after)) = rest.split_once('\\') {
        plain.push_str(before)?;
        match escape(after) {
            Some((meaning, behind)) => {
                plain.push(meaning)?;
                rest = behind;
            }
            None => {
                plain.push('\\')?;
                rest = after;
            }
        }
    }
    plain.push_str(rest)?;
    Ok(plain)
}
