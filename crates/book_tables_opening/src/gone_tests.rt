//! Whether rows are removed names of books.

ghost use Rattle.std.specs.Prelude.{◌≡◌, ◌≢◌, ◌↔◌, ◌++◌, IsTrue, IfOk, None, codes};
ghost use Rattle.std.specs.List.{AllByRecursion};
ghost use Rattle.book_lists.specs.Names.{IsName};
ghost use Rattle.book_tables_opening.specs.Directories.{first_shown_at};
ghost use Rattle.book_tables_opening.specs.Opening.{IsGoneRow};

use crate::directories::{Directory, text_at};
use crate::principal_tests::is_of_kind;
use crate::spelling_tests::is_natural;
use book_lists::Name;
use sqlite::Row;
use std::alloc::{AllocError, Global};

/// Whether the bytes are a name. An error is want of memory.
#[tactic(auto, using(crate::proofs::AsciiPaths::name_is_utf8))]
pub fn is_name(alloc: Global, bytes: &[u8]) -> Result<bool, AllocError>
    ensures { IfOk result (λ is. IsTrue is ↔ IsName bytes.now) }
{
    let Ok(text) = std::str::from_utf8(bytes) else {
        return Ok(false);
    };
    Ok(Name::parse(alloc, text)?.is_some())
}

/// Whether no row has the path of a card with a name in the book at a path. An error is want of memory.
pub fn is_free(
    alloc: Global,
    directory: &Directory,
    book: &[u8],
    name: &[u8],
) -> Result<bool, AllocError>
    ensures { IfOk result (λ free. IsTrue free
        ↔ (first_shown_at directory.now (book.now ++ codes "/" ++ name.now) ≡ None)) }
{
    let mut path = Vec::from_slice(alloc, book)?;
    path.push(b'/')?;
    path.extend_from_slice(name)?;
    Ok(directory.at(&path).is_none())
}

/// Whether the row is a name of a book that is there, and no card has it. An error is want of memory.
fn is_gone(alloc: Global, directory: &Directory, row: &Row) -> Result<bool, AllocError>
    ensures { IfOk result (λ is. IsTrue is ↔ IsGoneRow directory.now row.now) }
{
    let Some(book) = directory.of(row, 0) else {
        return Ok(false);
    };
    let Some(name) = text_at(row, 1) else {
        return Ok(false);
    };
    if !is_of_kind(book, 4) || !is_natural(row, 2) || !is_name(alloc, name)? {
        return Ok(false);
    }
    let path = match text_at(book, 1) {
        Some(path) => path,
        None => b"",
    };
    is_free(alloc, directory, path, name)
}

/// Whether each row of `gone` is a name of a book that is there, and no card has it. An error is want of memory.
pub(crate) fn are_gone(
    alloc: Global,
    directory: &Directory,
    rows: &[Row],
) -> Result<bool, AllocError>
    ensures { IfOk result (λ are. IsTrue are ↔ AllByRecursion (IsGoneRow directory.now) rows.now) }
{
    for row in rows {
        if !is_gone(alloc, directory, row)? {
            return Ok(false);
        }
    }
    Ok(true)
}
