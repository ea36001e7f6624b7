//! Text of JSON that is written token by token, so that no tree of values is made of a long line.

ghost use Rattle.std.specs.Prelude.{◌≡◌, ◌++◌, ◌∷◌, [], IfOk, OnOk, codes, decimal, string_bytes};
ghost use Rattle.std.specs.Str.{IsUtf8};
ghost use Rattle.json.specs.Print.{print};
ghost use Rattle.json.specs.Token.{begin_array, begin_object, boolean, end_array, end_object, key, number, string};
ghost use Rattle.book_dumps.specs.Objects.{added, Tells, single_json, text_line};

use json::Writer;
use std::alloc::{AllocError, Global};
use std::marker::Model;

/// A text of compact JSON (RFC 8259), as far as it is written. A contract sees its tokens; their nesting is the caller's.
/// Each error of a call is want of memory.
#[derive(Drop)]
pub(crate) struct JsonText {
    writer: Writer,
}

impl Model for JsonText {
    ghost use Rattle.std.specs.Prelude.{◌≡◌, List, []};
    ghost use Rattle.json.specs.Token.{Token, tokens_code};

    ghost Value = { List Token };

    ghost coded = { tokens_code };

    ghost view = { λ t. t.writer.tokens };

    ghost invariant = { λ t. t.writer.before ≡ [] };
}

impl JsonText {
    /// An empty text. Takes no memory yet.
    pub(crate) fn new(alloc: Global) -> JsonText
        ensures { result ≡ [] }
    {
        JsonText {
            writer: Writer::new(Vec::new(alloc)),
        }
    }

    /// The bytes of the text.
    pub(crate) fn into_bytes(self) -> Vec<u8>
        ensures bytes { result.items ≡ print self }
        ensures utf8 { IsUtf8 (print self) }
    {
        let JsonText { writer } = self;
        writer.into_inner()
    }

    pub(crate) fn begin_object(&mut self) -> Result<(), AllocError>
        ensures { OnOk result (self.new ≡ self.old ++ begin_object ∷ []) }
    {
        self.writer.begin_object()
    }

    pub(crate) fn end_object(&mut self) -> Result<(), AllocError>
        ensures { OnOk result (self.new ≡ self.old ++ end_object ∷ []) }
    {
        self.writer.end_object()
    }

    pub(crate) fn begin_array(&mut self) -> Result<(), AllocError>
        ensures { OnOk result (self.new ≡ self.old ++ begin_array ∷ []) }
    {
        self.writer.begin_array()
    }

    pub(crate) fn end_array(&mut self) -> Result<(), AllocError>
        ensures { OnOk result (self.new ≡ self.old ++ end_array ∷ []) }
    {
        self.writer.end_array()
    }

    pub(crate) fn key(&mut self, name: &str) -> Result<(), AllocError>
        ensures { OnOk result (self.new ≡ self.old ++ key name.now ∷ []) }
    {
        self.writer.key(name)
    }

    pub(crate) fn string(&mut self, text: &str) -> Result<(), AllocError>
        ensures { OnOk result (self.new ≡ self.old ++ string text.now ∷ []) }
    {
        self.writer.string(text)
    }

    pub(crate) fn number(&mut self, count: u64) -> Result<(), AllocError>
        ensures { OnOk result (self.new ≡ self.old ++ number (decimal count) ∷ []) }
    {
        self.writer.u64(count)
    }

    pub(crate) fn boolean(&mut self, holds: bool) -> Result<(), AllocError>
        ensures { OnOk result (self.new ≡ self.old ++ boolean holds ∷ []) }
    {
        self.writer.boolean(holds)
    }

    /// A member of an object that is a string.
    pub(crate) fn string_member(&mut self, name: &str, text: &str) -> Result<(), AllocError>
        ensures { OnOk result (self.new ≡ added self.old (key name.now ∷ string text.now ∷ [])) }
    {
        self.key(name)?;
        self.string(text)
    }

    /// A member of an object that is a number.
    pub(crate) fn number_member(&mut self, name: &str, count: u64) -> Result<(), AllocError>
        ensures { OnOk result (self.new ≡ added self.old
            (key name.now ∷ number (decimal count) ∷ [])) }
    {
        self.key(name)?;
        self.number(count)
    }
}

/// Writes an object of one number. An error is want of memory.
fn write_single(out: &mut JsonText, name: &str, count: u64) -> Result<(), AllocError>
    ensures { Tells result out.old out.new (single_json name.now count) }
{
    out.begin_object()?;
    out.number_member(name, count)?;
    out.end_object()
}

/// The line of an object of one number. An error is want of memory.
#[tactic(auto, using(crate::proofs::Written::text_written))]
pub(crate) fn single_line(alloc: Global, name: &str, count: u64) -> Result<Vec<u8>, AllocError>
    ensures { IfOk result (λ line. line.items ≡ text_line (single_json name.now count)) }
{
    let mut out = JsonText::new(alloc);
    write_single(&mut out, name, count)?;
    ended(out)
}

/// The text as a line. An error is want of memory.
pub(crate) fn ended(text: JsonText) -> Result<Vec<u8>, AllocError>
    ensures { IfOk result (λ line. line.items ≡ print text ++ codes "\n") }
{
    let mut bytes = text.into_bytes();
    bytes.push(b'\n')?;
    Ok(bytes)
}

/// The text as a line, in a string. An error is want of memory.
pub(crate) fn ended_string(alloc: Global, text: JsonText) -> Result<String, AllocError>
    ensures { IfOk result (λ line. string_bytes line ≡ print text ++ codes "\n") }
{
    let mut line = match String::from_utf8(text.into_bytes()) {
        Ok(line) => line,
        Err(_) => String::new(alloc),
    };
    line.push_str("\n")?;
    Ok(line)
}
