//! The rows of cards, and what books have beside their own.

ghost use Rattle.std.specs.Prelude.{◌≤◌, IfOk};
ghost use Rattle.book_limits.specs.declared.TheConstants.{LAST_NUMBER};

use crate::faults::RowFault;
use book_dumps::{Line, Removed};
use book_limits::LAST_NUMBER;
use book_lists::Name;
use book_office_values::{Path, Text};
use book_tables_rows::{insert_node, look_up};
use sqlite::{Alter, Transaction, params};
use std::alloc::Global;

/// The code of the kind of a card.
const CARD: u32 = 5;

/// The book whose lines are written.
#[derive(Debug, Drop)]
pub(crate) struct BookRow {
    /// Its name.
    name: Name,
    /// The number of its row.
    id: i64,
}

/// The change number, which no store has above the last one. It is refused there.
fn number_within(number: u64) -> Result<u64, RowFault>
    ensures { IfOk result (λ n. n ≤ LAST_NUMBER) }
{
    if number > LAST_NUMBER {
        return Err(RowFault::Refused);
    }
    Ok(number)
}

/// Finds the row of a book.
fn find_book<S: Alter>(
    alloc: Global,
    transaction: &mut Transaction<'_, S>,
    name: &Name,
) -> Result<BookRow, RowFault> {
    let name = name.clone()?;
    let path = Path::Book(name.clone()?).text(alloc)?;
    match look_up(transaction, path.as_str())? {
        Some(node) => Ok(BookRow { name, id: node.id }),
        None => Err(RowFault::Refused),
    }
}

/// The row of a book: the one that is given, or where that is another book's, the one that is found.
fn row_of<S: Alter>(
    alloc: Global,
    transaction: &mut Transaction<'_, S>,
    given: Option<BookRow>,
    name: &Name,
) -> Result<BookRow, RowFault> {
    match given {
        Some(row) if row.name.text() == name.text() => Ok(row),
        _ => find_book(alloc, transaction, name),
    }
}

/// Gives the node at a path its number.
fn set_number<S: Alter>(
    transaction: &mut Transaction<'_, S>,
    path: &str,
    number: u64,
) -> Result<(), RowFault> {
    let number = number_within(number)? as i64;
    transaction.execute(
        "UPDATE node SET number = ?2 WHERE path = ?1",
        params![path, number],
    )?;
    Ok(())
}

/// Adds a removed name of the book with a number.
fn insert_removed<S: Alter>(
    transaction: &mut Transaction<'_, S>,
    book: i64,
    removed: &Removed,
) -> Result<(), RowFault> {
    let number = number_within(removed.number)? as i64;
    transaction.execute(
        "INSERT INTO gone (book, name, number) VALUES (?1, ?2, ?3)",
        params![book, removed.name.text(), number],
    )?;
    Ok(())
}

/// Adds the removed names of a book.
fn insert_each_removed<S: Alter>(
    transaction: &mut Transaction<'_, S>,
    book: i64,
    removed: &[Removed],
) -> Result<(), RowFault> {
    'removed: for removed in removed {
        insert_removed(transaction, book, removed)?;
    }
    Ok(())
}

/// Writes what a book has beside its own row's place: its number and its removed names.
fn write_book<S: Alter>(
    transaction: &mut Transaction<'_, S>,
    path: &str,
    book: i64,
    line: &Line,
) -> Result<(), RowFault> {
    if let Some(number) = line.number {
        set_number(transaction, path, number)?;
    }
    insert_each_removed(transaction, book, line.removed.as_slice())
}

/// The text, as a row has it.
fn text_str(text: &Option<Text>) -> Option<&str> {
    match text {
        Some(text) => Some(text.as_str()),
        None => None,
    }
}

/// Adds the row of a card under the book with a number. One without a number is refused.
fn insert_card<S: Alter>(
    transaction: &mut Transaction<'_, S>,
    path: &str,
    book: i64,
    line: &Line,
) -> Result<(), RowFault> {
    let Some(number) = line.number else {
        return Err(RowFault::Refused);
    };
    let number = number_within(number)?;
    let owner = match &line.owner {
        Some(owner) => Some(owner.text()),
        None => None,
    };
    insert_node(
        transaction,
        path,
        book,
        CARD,
        owner,
        line.label.as_str(),
        text_str(&line.text),
        number,
    )?;
    Ok(())
}

/// Writes a card, or what a book has beside its own row's place; nothing of other resources. With the book whose lines
/// are written, and afterwards.
pub(crate) fn write_line<S: Alter>(
    alloc: Global,
    transaction: &mut Transaction<'_, S>,
    given: Option<BookRow>,
    line: &Line,
) -> Result<Option<BookRow>, RowFault> {
    let path = line.path.text(alloc)?;
    match &line.path {
        Path::Book(name) => {
            let row = row_of(alloc, transaction, given, name)?;
            write_book(transaction, path.as_str(), row.id, line)?;
            Ok(Some(row))
        }
        Path::Card(book, _) => {
            let row = row_of(alloc, transaction, given, book)?;
            insert_card(transaction, path.as_str(), row.id, line)?;
            Ok(Some(row))
        }
        Path::Root | Path::People | Path::Groups | Path::Books | Path::Person(_) | Path::Group(_) =>
            Ok(given),
    }
}
