//! DELETE of a card, and MKCOL of a book.

ghost use Rattle.std.specs.Prelude.{◌≡◌};
ghost use Rattle.std.specs.Option.{option_copied};
ghost use Rattle.sqlite.specs.Held.{state};
ghost use Rattle.book_tables_rows.specs.Nodes.{removing_card, adding_book};
ghost use Rattle.book_tables_rows.specs.Plans.{Performs, Unseen};
ghost use Rattle.book_tables_rows.specs.Steps.{Keeps};

use crate::nodes::{BOOK, LAST_NUMBER, look_up};
use crate::script::{Statement, run_all};
use sqlite::{Alter, Error, Transaction};

/// DELETE of the card at a path out of its book, which keeps its name as removed. Where no row has the path of the
/// book or of the card, or the book is at its last change number, it answers `QueryReturnedNoRows`; each other error is
/// that of the store.
pub fn remove_card<'x, S: Alter>(
    transaction: &mut Transaction<'_, S>,
    book_path: &'x str,
    card_path: &str,
    name: &'x str,
) -> Result<(), Error>
    ensures same_reference { transaction.new.conn.ghost_name ≡ transaction.old.conn.ghost_name }
    ensures survives { Unseen (state S.Store transaction.old.conn.now)
        (state S.Store transaction.new.conn.now) }
    ensures kept { Keeps (state S.Store transaction.old.conn.now)
        (state S.Store transaction.new.conn.now) }
    ensures done { Performs (state S.Store transaction.old.conn.now)
        (state S.Store transaction.new.conn.now) result
        (removing_card book_path.now card_path.now name.now) }
{
    let Some(book) = look_up(transaction, book_path)? else {
        return Err(Error::QueryReturnedNoRows);
    };
    let (id, last) = (book.id, book.number);
    drop(book);
    if last >= LAST_NUMBER {
        return Err(Error::QueryReturnedNoRows);
    }
    let Some(card) = look_up(transaction, card_path)? else {
        return Err(Error::QueryReturnedNoRows);
    };
    let node = card.id;
    drop(card);
    let number = last + 1;
    run_all(
        transaction,
        &[
            Statement::DeleteEntries(node),
            Statement::DeleteNode(node),
            Statement::InsertGone(id, name, number),
            Statement::SetNumber(book_path, number),
        ],
    )
}

/// MKCOL: a book at a path under the node at the path of all books, with an owner, an empty label and the number 0.
/// Where no row has the path of all books, it answers `QueryReturnedNoRows`; each other error is that of the store.
pub fn add_book<'x, S: Alter>(
    transaction: &mut Transaction<'_, S>,
    home_path: &str,
    path: &'x str,
    owner: Option<&'x str>,
) -> Result<(), Error>
    ensures same_reference { transaction.new.conn.ghost_name ≡ transaction.old.conn.ghost_name }
    ensures survives { Unseen (state S.Store transaction.old.conn.now)
        (state S.Store transaction.new.conn.now) }
    ensures kept { Keeps (state S.Store transaction.old.conn.now)
        (state S.Store transaction.new.conn.now) }
    ensures done { Performs (state S.Store transaction.old.conn.now)
        (state S.Store transaction.new.conn.now) result
        (adding_book home_path.now path.now (option_copied owner.entry)) }
{
    let Some(home) = look_up(transaction, home_path)? else {
        return Err(Error::QueryReturnedNoRows);
    };
    let parent = home.id;
    drop(home);
    run_all(
        transaction,
        &[Statement::InsertNode {
            path,
            parent,
            kind: BOOK,
            owner,
            label: "",
            text: None,
            number: 0,
        }],
    )
}
