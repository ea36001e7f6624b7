//! The texts of paths.

ghost use Rattle.std.specs.Prelude.{◌≡◌, IfOk};
ghost use Rattle.book_office_values.specs.Paths.{book_path, card_path, path_text};

use book_lists::Name;
use book_office_values::{Path, Text};
use std::alloc::{AllocError, Global};

/// The text of the path of a book.
pub(crate) fn book_text(alloc: Global, book: &Name) -> Result<Text, AllocError>
    ensures { IfOk result (λ text. text ≡ book_path book.now) }
{
    let path = Path::Book(book.clone()?);
    text_of(alloc, &path)
}

/// The text of the path of a card.
pub(crate) fn card_text(alloc: Global, book: &Name, card: &Name) -> Result<Text, AllocError>
    ensures { IfOk result (λ text. text ≡ card_path book.now card.now) }
{
    let book = book.clone()?;
    let card = card.clone()?;
    let path = Path::Card(book, card);
    text_of(alloc, &path)
}

/// The text of a path.
pub(crate) fn text_of(alloc: Global, path: &Path) -> Result<Text, AllocError>
    ensures { IfOk result (λ text. text ≡ path_text path.now) }
{
    Ok(Text::from_string(path.text(alloc)?))
}
