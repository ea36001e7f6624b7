//! Text of JSON that is written token by token, so that no tree of values is made of a long body.

ghost use Rattle.std.specs.Prelude.{◌≡◌, ◌++◌, ◌∷◌, [], OnOk, decimal};
ghost use Rattle.json.specs.Print.{print};
ghost use Rattle.json.specs.Token.{begin_array, begin_object, boolean, end_array, end_object, key, null, number, string};
ghost use Rattle.book_office_sync.specs.Tokens.{token_text};
ghost use Rattle.book_office_values.specs.Paths.{book_path, card_path, path_text};
ghost use Rattle.book_wire_json.specs.Writing.{added};

use crate::spelling::{set_book, set_card, set_path, set_token};
use book_json_texts::CompactText;
use book_lists::Name;
use book_office_sync::Token;
use book_office_values::Path;
use std::alloc::AllocError;
use std::marker::Model;

/// A text of compact JSON (RFC 8259), as far as it is written. A contract sees its tokens; their nesting is the caller's.
/// Each error of a call is want of memory.
#[derive(Drop)]
pub(crate) struct JsonText {
    text: CompactText,
    spelled: String,
}

impl Model for JsonText {
    ghost use Rattle.std.specs.Prelude.{List};
    ghost use Rattle.json.specs.Token.{Token, tokens_code};

    ghost Value = { List Token };

    ghost coded = { tokens_code };

    ghost view = { λ t. t.text };
}

impl JsonText {
    /// An empty text, whose bytes will stand in this memory. Its paths and tokens are spelled in the string before.
    pub(crate) fn over(bytes: Vec<u8>, spelled: String) -> JsonText
        requires { bytes.items ≡ [] }
        ensures { result ≡ [] }
    {
        JsonText {
            text: CompactText::over(bytes),
            spelled,
        }
    }

    /// Empties the text, and keeps its room.
    pub(crate) fn restart(&mut self)
        ensures { self.new ≡ [] }
    {
        self.text.restart();
    }

    /// The bytes of the text.
    pub(crate) fn as_bytes(&self) -> &[u8]
        ensures { result.now ≡ print self.now }
    {
        self.text.as_bytes()
    }

    pub(crate) fn begin_object(&mut self) -> Result<(), AllocError>
        ensures { OnOk result (self.new ≡ self.old ++ begin_object ∷ []) }
    {
        self.text.begin_object()
    }

    pub(crate) fn end_object(&mut self) -> Result<(), AllocError>
        ensures { OnOk result (self.new ≡ self.old ++ end_object ∷ []) }
    {
        self.text.end_object()
    }

    pub(crate) fn begin_array(&mut self) -> Result<(), AllocError>
        ensures { OnOk result (self.new ≡ self.old ++ begin_array ∷ []) }
    {
        self.text.begin_array()
    }

    pub(crate) fn end_array(&mut self) -> Result<(), AllocError>
        ensures { OnOk result (self.new ≡ self.old ++ end_array ∷ []) }
    {
        self.text.end_array()
    }

    pub(crate) fn key(&mut self, name: &str) -> Result<(), AllocError>
        ensures { OnOk result (self.new ≡ self.old ++ key name.now ∷ []) }
    {
        self.text.key(name)
    }

    pub(crate) fn string(&mut self, text: &str) -> Result<(), AllocError>
        ensures { OnOk result (self.new ≡ self.old ++ string text.now ∷ []) }
    {
        self.text.string(text)
    }

    pub(crate) fn number(&mut self, count: u64) -> Result<(), AllocError>
        ensures { OnOk result (self.new ≡ self.old ++ number (decimal count) ∷ []) }
    {
        self.text.number(count)
    }

    pub(crate) fn boolean(&mut self, holds: bool) -> Result<(), AllocError>
        ensures { OnOk result (self.new ≡ self.old ++ boolean holds ∷ []) }
    {
        self.text.boolean(holds)
    }

    pub(crate) fn null(&mut self) -> Result<(), AllocError>
        ensures { OnOk result (self.new ≡ self.old ++ null ∷ []) }
    {
        self.text.null()
    }

    /// A string that is a path.
    pub(crate) fn path(&mut self, path: &Path) -> Result<(), AllocError>
        ensures { OnOk result (self.new ≡ self.old ++ string (path_text path.now) ∷ []) }
    {
        set_path(&mut self.spelled, path)?;
        self.text.string(self.spelled.as_str())
    }

    /// A string that is the path of a book.
    pub(crate) fn book(&mut self, book: &Name) -> Result<(), AllocError>
        ensures { OnOk result (self.new ≡ self.old ++ string (book_path book.now) ∷ []) }
    {
        set_book(&mut self.spelled, book)?;
        self.text.string(self.spelled.as_str())
    }

    /// A string that is the path of a card of a book.
    pub(crate) fn card(&mut self, book: &Name, card: &Name) -> Result<(), AllocError>
        ensures { OnOk result (self.new ≡ self.old ++ string (card_path book.now card.now) ∷ []) }
    {
        set_card(&mut self.spelled, book, card)?;
        self.text.string(self.spelled.as_str())
    }

    /// A string that is a token.
    pub(crate) fn token(&mut self, token: &Token) -> Result<(), AllocError>
        ensures { OnOk result (self.new ≡ self.old ++ string (token_text token.now) ∷ []) }
    {
        set_token(&mut self.spelled, token)?;
        self.text.string(self.spelled.as_str())
    }

    /// A member of an object that is a path.
    pub(crate) fn path_member(&mut self, name: &str, path: &Path) -> Result<(), AllocError>
        ensures { OnOk result (self.new ≡ added self.old
            (key name.now ∷ string (path_text path.now) ∷ [])) }
    {
        self.key(name)?;
        self.path(path)
    }

    /// A member of an object that is the path of a book.
    pub(crate) fn book_member(&mut self, name: &str, book: &Name) -> Result<(), AllocError>
        ensures { OnOk result (self.new ≡ added self.old
            (key name.now ∷ string (book_path book.now) ∷ [])) }
    {
        self.key(name)?;
        self.book(book)
    }

    /// A member of an object that is the path of a card of a book.
    pub(crate) fn card_member(
        &mut self,
        name: &str,
        book: &Name,
        card: &Name,
    ) -> Result<(), AllocError>
        ensures { OnOk result (self.new ≡ added self.old
            (key name.now ∷ string (card_path book.now card.now) ∷ [])) }
    {
        self.key(name)?;
        self.card(book, card)
    }

    /// A member of an object that is a string.
    pub(crate) fn string_member(&mut self, name: &str, text: &str) -> Result<(), AllocError>
        ensures { OnOk result (self.new ≡ added self.old (key name.now ∷ string text.now ∷ [])) }
    {
        self.key(name)?;
        self.string(text)
    }

    /// A member of an object that is a number.
    pub(crate) fn number_member(&mut self, name: &str, count: u64) -> Result<(), AllocError>
        ensures { OnOk result (self.new ≡ added self.old
            (key name.now ∷ number (decimal count) ∷ [])) }
    {
        self.key(name)?;
        self.number(count)
    }
}
