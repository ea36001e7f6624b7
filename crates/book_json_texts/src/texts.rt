//! Texts that are written token by token.

ghost use Rattle.std.specs.Prelude.{◌≡◌, ◌++◌, ◌∷◌, [], OnErr, OnOk, decimal};
ghost use Rattle.json.specs.Print.{IsPrintable, ends, print};
ghost use Rattle.json.specs.Reads.{token_of};
ghost use Rattle.json.specs.Token.{begin_array, begin_object, boolean, end_array, end_object, key, null, number, string};

use crate::tokens::put_token;
use itoa::Buffer;
use json::Token;
use std::alloc::AllocError;
use std::marker::Model;

/// A text of compact JSON (RFC 8259), as far as it is written. A contract sees its tokens; their nesting is the caller's.
/// Each error of a call is want of memory; the text is then as it was.
#[derive(Drop)]
pub struct CompactText {
    bytes: Vec<u8>,
    len: usize,
    after_value: bool,
}

impl Model for CompactText {
    ghost use Rattle.std.specs.Prelude.{List, take};
    ghost use Rattle.json.specs.Lex.{tokens};
    ghost use Rattle.json.specs.Token.{Token, tokens_code};
    ghost use Rattle.book_json_texts.specs.Texts.{IsTextOf};

    ghost Value = { List Token };

    ghost coded = { tokens_code };

    ghost view = { λ t. tokens (take t.len t.bytes.items) };

    ghost invariant = { λ t. IsTextOf t.bytes.items t.len t.after_value };
}

impl CompactText {
    /// An empty text in this memory. What it holds is let go, and its room is kept.
    pub fn over(memory: Vec<u8>) -> CompactText
        ensures { result ≡ [] }
    {
        CompactText {
            bytes: memory,
            len: 0,
            after_value: false,
        }
    }

    /// Empties the text, and keeps its room.
    pub fn restart(&mut self)
        ensures { self.new ≡ [] }
    {
        self.len = 0;
        self.after_value = false;
    }

    /// The bytes of the text.
    pub fn as_bytes(&self) -> &[u8]
        ensures { result.now ≡ print self.now }
    {
        &self.bytes[..self.len]
    }

    /// Adds a token.
    #[inline(always)]
    fn put(&mut self, token: Token<'_>) -> Result<(), AllocError>
        requires { IsPrintable (token_of token) }
        ensures ok { OnOk result (self.new ≡ self.old ++ token_of token.entry ∷ []) }
        ensures err { OnErr result (self.new ≡ self.old) }
    {
        match put_token(&mut self.bytes, self.len, self.after_value, token) {
            Ok(end) => {
                self.len = end;
                self.after_value = ends_value(token);
                Ok(())
            }
            Err(error) => Err(error),
        }
    }

    /// Begins an object.
    #[inline]
    pub fn begin_object(&mut self) -> Result<(), AllocError>
        ensures ok { OnOk result (self.new ≡ self.old ++ begin_object ∷ []) }
        ensures err { OnErr result (self.new ≡ self.old) }
    {
        self.put(Token::BeginObject)
    }

    /// Ends an object.
    #[inline]
    pub fn end_object(&mut self) -> Result<(), AllocError>
        ensures ok { OnOk result (self.new ≡ self.old ++ end_object ∷ []) }
        ensures err { OnErr result (self.new ≡ self.old) }
    {
        self.put(Token::EndObject)
    }

    /// Begins an array.
    #[inline]
    pub fn begin_array(&mut self) -> Result<(), AllocError>
        ensures ok { OnOk result (self.new ≡ self.old ++ begin_array ∷ []) }
        ensures err { OnErr result (self.new ≡ self.old) }
    {
        self.put(Token::BeginArray)
    }

    /// Ends an array.
    #[inline]
    pub fn end_array(&mut self) -> Result<(), AllocError>
        ensures ok { OnOk result (self.new ≡ self.old ++ end_array ∷ []) }
        ensures err { OnErr result (self.new ≡ self.old) }
    {
        self.put(Token::EndArray)
    }

    /// The key of a member, whose value follows.
    #[inline]
    pub fn key(&mut self, name: &str) -> Result<(), AllocError>
        ensures ok { OnOk result (self.new ≡ self.old ++ key name.now ∷ []) }
        ensures err { OnErr result (self.new ≡ self.old) }
    {
        self.put(Token::Key(name))
    }

    /// A string.
    #[inline]
    pub fn string(&mut self, text: &str) -> Result<(), AllocError>
        ensures ok { OnOk result (self.new ≡ self.old ++ string text.now ∷ []) }
        ensures err { OnErr result (self.new ≡ self.old) }
    {
        self.put(Token::String(text))
    }

    /// A number.
    #[inline]
    pub fn number(&mut self, count: u64) -> Result<(), AllocError>
        ensures ok { OnOk result (self.new ≡ self.old ++ number (decimal count) ∷ []) }
        ensures err { OnErr result (self.new ≡ self.old) }
    {
        let mut buffer = Buffer::new();
        self.put(Token::Number(buffer.format(count)))
    }

    /// `true` or `false`.
    #[inline]
    pub fn boolean(&mut self, holds: bool) -> Result<(), AllocError>
        ensures ok { OnOk result (self.new ≡ self.old ++ boolean holds ∷ []) }
        ensures err { OnErr result (self.new ≡ self.old) }
    {
        self.put(Token::Bool(holds))
    }

    /// No value.
    #[inline]
    pub fn null(&mut self) -> Result<(), AllocError>
        ensures ok { OnOk result (self.new ≡ self.old ++ null ∷ []) }
        ensures err { OnErr result (self.new ≡ self.old) }
    {
        self.put(Token::Null)
    }
}

/// Whether a value ends with the token.
#[inline(always)]
fn ends_value(token: Token<'_>) -> bool
    ensures { result ≡ ends (token_of token.entry) }
{
    match token {
        Token::BeginObject | Token::BeginArray | Token::Key(_) => false,
        _ => true,
    }
}
