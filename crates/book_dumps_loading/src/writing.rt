//! The rows of a dump, written into a store that has none but the first.

use crate::cards::write_line;
use crate::faults::RowFault;
use crate::places::{lists_of, places_of};
use book_dumps::Line;
use book_dumps_reading::Dumped;
use book_limits::LAST_NUMBER;
use book_tables_rows::{GroupRow, ListsRow, PlaceRow, adopt_rows};
use book_tables_schema::create;
use sqlite::{Alter, Connection, Transaction, params};
use std::alloc::Global;

/// How many lines are written in one transaction.
const PIECE: usize = 1_000;

/// Writes nodes, lists and members of groups, in a transaction of its own.
fn write_adopted<S: Alter>(
    connection: &mut Connection<S>,
    places: &[PlaceRow],
    lists: &[ListsRow],
    groups: &[GroupRow],
) -> Result<(), RowFault> {
    if !connection.is_autocommit() {
        return Err(RowFault::Store);
    }
    let mut transaction = connection.transaction();
    adopt_rows(&mut transaction, places, lists, groups, &[], &[])?;
    transaction.commit()?;
    Ok(())
}

/// Writes the resources that are no cards, with their lists and the members of groups.
fn write_places<S: Alter>(
    alloc: Global,
    connection: &mut Connection<S>,
    lines: &[Line],
) -> Result<(), RowFault> {
    let rows = places_of(alloc, lines)?;
    write_adopted(
        connection,
        rows.places.as_slice(),
        rows.lists.as_slice(),
        rows.groups.as_slice(),
    )
}

/// Writes the cards among lines, and what books have beside their rows, one after another.
fn write_each<S: Alter>(
    alloc: Global,
    transaction: &mut Transaction<'_, S>,
    lines: &[Line],
) -> Result<(), RowFault> {
    let mut book = None;
    'lines: for line in lines {
        book = write_line(alloc, transaction, book, line)?;
    }
    drop(book);
    Ok(())
}

/// Does so in a transaction of its own.
fn write_cards<S: Alter>(
    alloc: Global,
    connection: &mut Connection<S>,
    lines: &[Line],
) -> Result<(), RowFault> {
    if !connection.is_autocommit() {
        return Err(RowFault::Store);
    }
    let mut transaction = connection.transaction();
    write_each(alloc, &mut transaction, lines)?;
    transaction.commit()?;
    Ok(())
}

/// Writes the lists of the cards among lines.
fn write_lists<S: Alter>(
    alloc: Global,
    connection: &mut Connection<S>,
    lines: &[Line],
) -> Result<(), RowFault> {
    let lists = lists_of(alloc, lines, true)?;
    if !lists.is_empty() {
        write_adopted(connection, &[], lists.as_slice(), &[])?;
    }
    Ok(())
}

/// Writes the cards among lines with their lists, and what books have beside their rows, in pieces.
fn write_pieces<S: Alter>(
    alloc: Global,
    connection: &mut Connection<S>,
    lines: &[Line],
) -> Result<(), RowFault> {
    let mut left = lines;
    while !left.is_empty() {
        let (piece, more) = left.split_at(left.len().min(PIECE));
        write_cards(alloc, connection, piece)?;
        write_lists(alloc, connection, piece)?;
        left = more;
    }
    Ok(())
}

/// Sets the epoch. One above the last is refused.
fn set_epoch<S: Alter>(transaction: &mut Transaction<'_, S>, epoch: u64) -> Result<(), RowFault> {
    if epoch > LAST_NUMBER {
        return Err(RowFault::Refused);
    }
    let epoch = epoch as i64;
    transaction.execute("UPDATE meta SET epoch = ?1", params![epoch])?;
    Ok(())
}

/// Sets the epoch, in a transaction of its own.
fn write_epoch<S: Alter>(connection: &mut Connection<S>, epoch: u64) -> Result<(), RowFault> {
    if !connection.is_autocommit() {
        return Err(RowFault::Store);
    }
    let mut transaction = connection.transaction();
    set_epoch(&mut transaction, epoch)?;
    transaction.commit()?;
    Ok(())
}

/// Makes the tables, and writes the rows of what a dump tells: those of the resources that are no cards in one
/// transaction, persons and groups first, since others name them; then the cards with their lists, so many in one
/// transaction; and last the epoch, which what came before raised.
///
/// # Errors
///
/// `Refused` where a row names one that is not there, is there twice, or has a number above the last. `Memory` is want of
/// memory, `Store` any other failure. Then a part of the rows is written.
pub(crate) fn write_rows<S: Alter>(
    alloc: Global,
    connection: &mut Connection<S>,
    dumped: &Dumped,
) -> Result<(), RowFault> {
    create(connection)?;
    write_places(alloc, connection, dumped.lines.as_slice())?;
    write_pieces(alloc, connection, dumped.lines.as_slice())?;
    write_epoch(connection, dumped.epoch)
}
