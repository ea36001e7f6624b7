//! Text of JSON that is written token by token.

ghost use Rattle.std.specs.Prelude.{◌≡◌, ◌++◌, ◌∷◌, [], IfOk, OnOk, codes, decimal, option_copied, option_map, string_bytes};
ghost use Rattle.std.specs.Str.{IsUtf8};
ghost use Rattle.json.specs.Json as value;
ghost use Rattle.json.specs.Print.{print};
ghost use Rattle.json.specs.Token.{begin_array, begin_object, boolean, end_array, end_object, key, number, string};
ghost use Rattle.book_json_lines.specs.Objects.{if_some, number_json, TellsMembers};

use json::Writer;
use std::alloc::{AllocError, Global};
use std::marker::Model;

/// A text of compact JSON (RFC 8259), as far as it is written. A contract sees its tokens; their nesting is the caller's.
/// Each error of a call is want of memory.
#[derive(Drop)]
pub struct JsonText {
    writer: Writer,
}

impl Model for JsonText {
    ghost use Rattle.std.specs.Prelude.{◌≡◌, List, []};
    ghost use Rattle.json.specs.Token.{Token, tokens_code};

    ghost Value = { List Token };

    ghost coded = { tokens_code };

    ghost view = { λ t. t.writer.tokens };

    ghost invariant = { λ t. t.writer.before ≡ [] };
}

impl JsonText {
    /// An empty text. Takes no memory yet.
    pub fn new(alloc: Global) -> JsonText
        ensures { result ≡ [] }
    {
        JsonText {
            writer: Writer::new(Vec::new(alloc)),
        }
    }

    /// An empty text, whose bytes will stand in this memory. As far as its room goes, no call takes memory.
    pub fn over(bytes: Vec<u8>) -> JsonText
        requires { bytes.items ≡ [] }
        ensures { result ≡ [] }
    {
        JsonText {
            writer: Writer::new(bytes),
        }
    }

    /// The bytes of the text, without a line feed.
    pub fn into_bytes(self) -> Vec<u8>
        ensures bytes { result.items ≡ print self }
        ensures utf8 { IsUtf8 (print self) }
    {
        let JsonText { writer } = self;
        writer.into_inner()
    }

    /// The text as a string, without a line feed. Takes no memory.
    pub fn into_string(self, alloc: Global) -> String
        ensures { string_bytes result ≡ print self }
    {
        match String::from_utf8(self.into_bytes()) {
            Ok(text) => text,
            Err(_) => String::new(alloc),
        }
    }

    /// The bytes of the text with a line feed.
    pub fn into_line(self) -> Result<Vec<u8>, AllocError>
        ensures { IfOk result (λ line. line.items ≡ print self ++ codes "\n") }
    {
        let mut bytes = self.into_bytes();
        bytes.push(b'\n')?;
        Ok(bytes)
    }

    /// Begins an object.
    pub fn begin_object(&mut self) -> Result<(), AllocError>
        ensures { OnOk result (self.new ≡ self.old ++ begin_object ∷ []) }
    {
        self.writer.begin_object()
    }

    /// Ends an object.
    pub fn end_object(&mut self) -> Result<(), AllocError>
        ensures { OnOk result (self.new ≡ self.old ++ end_object ∷ []) }
    {
        self.writer.end_object()
    }

    /// Begins an array.
    pub fn begin_array(&mut self) -> Result<(), AllocError>
        ensures { OnOk result (self.new ≡ self.old ++ begin_array ∷ []) }
    {
        self.writer.begin_array()
    }

    /// Ends an array.
    pub fn end_array(&mut self) -> Result<(), AllocError>
        ensures { OnOk result (self.new ≡ self.old ++ end_array ∷ []) }
    {
        self.writer.end_array()
    }

    /// The key of a member, whose value follows.
    pub fn key(&mut self, name: &str) -> Result<(), AllocError>
        ensures { OnOk result (self.new ≡ self.old ++ key name.now ∷ []) }
    {
        self.writer.key(name)
    }

    /// A string.
    pub fn string(&mut self, text: &str) -> Result<(), AllocError>
        ensures { OnOk result (self.new ≡ self.old ++ string text.now ∷ []) }
    {
        self.writer.string(text)
    }

    /// A number.
    pub fn number(&mut self, count: u64) -> Result<(), AllocError>
        ensures { OnOk result (self.new ≡ self.old ++ number (decimal count) ∷ []) }
    {
        self.writer.u64(count)
    }

    /// `true` or `false`.
    pub fn boolean(&mut self, holds: bool) -> Result<(), AllocError>
        ensures { OnOk result (self.new ≡ self.old ++ boolean holds ∷ []) }
    {
        self.writer.boolean(holds)
    }

    /// A member of an object that is a string.
    pub fn string_member(&mut self, name: &str, text: &str) -> Result<(), AllocError>
        ensures { TellsMembers result self.old self.new ((name.now, value.string text.now) ∷ []) }
    {
        self.key(name)?;
        self.string(text)
    }

    /// A member of an object that is a string, if there is one.
    pub fn string_member_if(&mut self, name: &str, text: Option<&str>) -> Result<(), AllocError>
        ensures { TellsMembers result self.old self.new
            (if_some name.now (option_map value.string (option_copied text.entry))) }
    {
        match text {
            Some(text) => self.string_member(name, text),
            None => Ok(()),
        }
    }

    /// A member of an object that is a number.
    pub fn number_member(&mut self, name: &str, count: u64) -> Result<(), AllocError>
        ensures { TellsMembers result self.old self.new ((name.now, number_json count) ∷ []) }
    {
        self.key(name)?;
        self.number(count)
    }

    /// A member of an object that is a number, if there is one.
    pub fn number_member_if(&mut self, name: &str, count: Option<u64>) -> Result<(), AllocError>
        ensures { TellsMembers result self.old self.new
            (if_some name.now (option_map number_json count)) }
    {
        match count {
            Some(count) => self.number_member(name, count),
            None => Ok(()),
        }
    }

    /// A member of an object that is `true` or `false`.
    pub fn boolean_member(&mut self, name: &str, holds: bool) -> Result<(), AllocError>
        ensures { TellsMembers result self.old self.new ((name.now, value.boolean holds) ∷ []) }
    {
        self.key(name)?;
        self.boolean(holds)
    }
}
