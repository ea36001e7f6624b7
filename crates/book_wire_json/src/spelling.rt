//! Paths and tokens as texts, each spelled in a string that is there, so that none takes memory where it has the room.

ghost use Rattle.std.specs.Prelude.{◌≡◌, OnOk, string_bytes};
ghost use Rattle.book_office_sync.specs.Tokens.{token_text};
ghost use Rattle.book_office_values.specs.Paths.{book_path, card_path, path_text};

use book_lists::Name;
use book_office_sync::Token;
use book_office_values::{Path, push_book_path, push_card_path};
use std::alloc::AllocError;

/// Puts the path of a book in place of what a string holds. An error is want of memory.
pub(crate) fn set_book(text: &mut String, book: &Name) -> Result<(), AllocError>
    ensures { OnOk result (string_bytes text.new ≡ book_path book.now) }
{
    text.clear();
    push_book_path(text, book)
}

/// Puts the path of a card in place of what a string holds. An error is want of memory.
pub(crate) fn set_card(text: &mut String, book: &Name, card: &Name) -> Result<(), AllocError>
    ensures { OnOk result (string_bytes text.new ≡ card_path book.now card.now) }
{
    text.clear();
    push_card_path(text, book, card)
}

/// Puts a path in place of what a string holds. An error is want of memory.
pub(crate) fn set_path(text: &mut String, path: &Path) -> Result<(), AllocError>
    ensures { OnOk result (string_bytes text.new ≡ path_text path.now) }
{
    text.clear();
    path.push_text(text)
}

/// Puts a token in place of what a string holds. An error is want of memory.
pub(crate) fn set_token(text: &mut String, token: &Token) -> Result<(), AllocError>
    ensures { OnOk result (string_bytes text.new ≡ token_text token.now) }
{
    text.clear();
    token.push_text(text)
}
