//! MOVE of a card.

ghost use Rattle.std.specs.Prelude.{◌≡◌};
ghost use Rattle.sqlite.specs.Held.{state};
ghost use Rattle.book_tables_rows.specs.Nodes.{leaving_book, arriving_in, moving_card};
ghost use Rattle.book_tables_rows.specs.Plans.{Performs, Unseen};
ghost use Rattle.book_tables_rows.specs.Steps.{Keeps};

use crate::nodes::{LAST_NUMBER, look_up};
use crate::script::{Statement, run_all};
use sqlite::{Alter, Error, Transaction};

/// Takes out a card at the destination, and lets a name leave its book with the book's next change number.
fn leave_book<'x, S: Alter>(
    transaction: &mut Transaction<'_, S>,
    book_path: &'x str,
    name: &'x str,
    destination: &str,
) -> Result<(), Error>
    ensures same_reference { transaction.new.conn.ghost_name ≡ transaction.old.conn.ghost_name }
    ensures survives { Unseen (state S.Store transaction.old.conn.now)
        (state S.Store transaction.new.conn.now) }
    ensures kept { Keeps (state S.Store transaction.old.conn.now)
        (state S.Store transaction.new.conn.now) }
    ensures done { Performs (state S.Store transaction.old.conn.now)
        (state S.Store transaction.new.conn.now) result
        (leaving_book book_path.now name.now destination.now) }
{
    let Some(book) = look_up(transaction, book_path)? else {
        return Err(Error::QueryReturnedNoRows);
    };
    let (id, last) = (book.id, book.number);
    drop(book);
    if last >= LAST_NUMBER {
        return Err(Error::QueryReturnedNoRows);
    }
    let number = last + 1;
    let leave = Statement::InsertGone(id, name, number);
    let rise = Statement::SetNumber(book_path, number);
    match look_up(transaction, destination)? {
        None => run_all(transaction, &[leave, rise]),
        Some(card) => {
            let node = card.id;
            drop(card);
            run_all(
                transaction,
                &[
                    Statement::DeleteEntries(node),
                    Statement::DeleteNode(node),
                    leave,
                    rise,
                ],
            )
        }
    }
}

/// Finds the book of the destination, and moves the card there with the book's next change number.
fn arrive_in<'x, S: Alter>(
    transaction: &mut Transaction<'_, S>,
    book_path: &'x str,
    card_path: &'x str,
    destination: &'x str,
    name: &'x str,
) -> Result<(), Error>
    ensures same_reference { transaction.new.conn.ghost_name ≡ transaction.old.conn.ghost_name }
    ensures survives { Unseen (state S.Store transaction.old.conn.now)
        (state S.Store transaction.new.conn.now) }
    ensures kept { Keeps (state S.Store transaction.old.conn.now)
        (state S.Store transaction.new.conn.now) }
    ensures done { Performs (state S.Store transaction.old.conn.now)
        (state S.Store transaction.new.conn.now) result
        (arriving_in book_path.now card_path.now destination.now name.now) }
{
    let Some(book) = look_up(transaction, book_path)? else {
        return Err(Error::QueryReturnedNoRows);
    };
    let (id, last) = (book.id, book.number);
    drop(book);
    if last >= LAST_NUMBER {
        return Err(Error::QueryReturnedNoRows);
    }
    let number = last + 1;
    run_all(
        transaction,
        &[
            Statement::DeleteGoneName(id, name),
            Statement::MoveNode {
                path: card_path,
                destination,
                parent: id,
                number,
            },
            Statement::SetNumber(book_path, number),
        ],
    )
}

/// MOVE of the card at a path to another path, in place of a card that is there: the card's row keeps its number, so
/// its entries go with it. Where no row has the path of one of the books, or one is at its last change number,
/// it answers `QueryReturnedNoRows`; each other error is that of the store.
pub fn move_card<'x, S: Alter>(
    transaction: &mut Transaction<'_, S>,
    source_book: &str,
    card_path: &'x str,
    source_name: &str,
    target_book: &str,
    destination: &'x str,
    target_name: &str,
) -> Result<(), Error>
    ensures same_reference { transaction.new.conn.ghost_name ≡ transaction.old.conn.ghost_name }
    ensures survives { Unseen (state S.Store transaction.old.conn.now)
        (state S.Store transaction.new.conn.now) }
    ensures kept { Keeps (state S.Store transaction.old.conn.now)
        (state S.Store transaction.new.conn.now) }
    ensures done { Performs (state S.Store transaction.old.conn.now)
        (state S.Store transaction.new.conn.now) result
        (moving_card source_book.now card_path.now source_name.now target_book.now destination.now
        target_name.now) }
{
    leave_book(transaction, source_book, source_name, destination)?;
    arrive_in(
        transaction,
        target_book,
        card_path,
        destination,
        target_name,
    )
}
