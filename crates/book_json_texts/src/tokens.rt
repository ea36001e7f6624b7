//! The text of one token, with the comma before it.

ghost use Rattle.std.specs.Prelude.{◌≡◌, ◌≤◌, ◌++◌, ◌∷◌, [], cond, length, take, vec_len, IfOk};
ghost use Rattle.json.specs.Print.{IsPrintable, separator, token_text};
ghost use Rattle.json.specs.Reads.{token_of};

use crate::places::{make_room, put};
use crate::quoting::put_quoted;
use json::Token;
use std::alloc::AllocError;

/// Writes a text of few bytes as it is from a place of a vector on, with a comma before it if it is wanted, and tells where
/// it ends. What stands before the place stays. An error is want of memory.
#[inline(always)]
fn put_plain(bytes: &mut Vec<u8>, at: usize, comma: bool, text: &[u8]) -> Result<usize, AllocError>
    requires within { at ≤ vec_len bytes.old }
    ensures text { IfOk result (λ end. take end bytes.new.items
        ≡ take at bytes.old.items ++ (cond comma (44 ∷ []) [] ++ text.now)) }
    ensures end { IfOk result (λ end. end ≤ vec_len bytes.new) }
    ensures front { take at bytes.new.items ≡ take at bytes.old.items }
    ensures within { at ≤ vec_len bytes.new }
{
    make_room(bytes, at, text.len() + 1)?;
    Ok(put(bytes, at, comma, text))
}

/// Writes the text of a token from a place of a vector on, with a comma before it where it follows a value, and tells where
/// it ends. What stands before the place stays. An error is want of memory.
#[inline(always)]
pub(crate) fn put_token(
    bytes: &mut Vec<u8>,
    at: usize,
    after_value: bool,
    token: Token<'_>,
) -> Result<usize, AllocError>
    requires printable { IsPrintable (token_of token) }
    requires within { at ≤ vec_len bytes.old }
    ensures text { IfOk result (λ end. take end bytes.new.items ≡ take at bytes.old.items
        ++ (separator after_value (token_of token.entry) ++ token_text (token_of token.entry))) }
    ensures end { IfOk result (λ end. end ≤ vec_len bytes.new) }
    ensures front { take at bytes.new.items ≡ take at bytes.old.items }
    ensures within { at ≤ vec_len bytes.new }
{
    match token {
        Token::BeginObject => put_plain(bytes, at, after_value, b"{"),
        Token::EndObject => put_plain(bytes, at, false, b"}"),
        Token::BeginArray => put_plain(bytes, at, after_value, b"["),
        Token::EndArray => put_plain(bytes, at, false, b"]"),
        Token::Key(name) => put_quoted(bytes, at, after_value, name.as_bytes(), b"\":"),
        Token::String(text) => put_quoted(bytes, at, after_value, text.as_bytes(), b"\""),
        Token::Number(text) => put_plain(bytes, at, after_value, text.as_bytes()),
        Token::Bool(true) => put_plain(bytes, at, after_value, b"true"),
        Token::Bool(false) => put_plain(bytes, at, after_value, b"false"),
        Token::Null => put_plain(bytes, at, after_value, b"null"),
        Token::Bad => unreachable!(),
    }
}
