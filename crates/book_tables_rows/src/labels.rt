//! PROPPATCH of a displayname.

ghost use Rattle.std.specs.Prelude.{◌≡◌};
ghost use Rattle.sqlite.specs.Held.{state};
ghost use Rattle.book_tables_rows.specs.Nodes.{labelling_card, labelling_node};
ghost use Rattle.book_tables_rows.specs.Plans.{Performs, Unseen};
ghost use Rattle.book_tables_rows.specs.Steps.{Keeps};

use crate::nodes::{LAST_NUMBER, look_up};
use crate::script::{Statement, run_all};
use sqlite::{Alter, Error, Transaction};

/// The label of a card of a book: a change of the card. Where no row has the path of the book, or it is at its last
/// change number, it answers `QueryReturnedNoRows`; each other error is that of the store.
pub fn label_card<'x, S: Alter>(
    transaction: &mut Transaction<'_, S>,
    book_path: &'x str,
    card_path: &'x str,
    label: &'x str,
) -> Result<(), Error>
    ensures same_reference { transaction.new.conn.ghost_name ≡ transaction.old.conn.ghost_name }
    ensures survives { Unseen (state S.Store transaction.old.conn.now)
        (state S.Store transaction.new.conn.now) }
    ensures kept { Keeps (state S.Store transaction.old.conn.now)
        (state S.Store transaction.new.conn.now) }
    ensures done { Performs (state S.Store transaction.old.conn.now)
        (state S.Store transaction.new.conn.now) result
        (labelling_card book_path.now card_path.now label.now) }
{
    let Some(book) = look_up(transaction, book_path)? else {
        return Err(Error::QueryReturnedNoRows);
    };
    let last = book.number;
    drop(book);
    if last >= LAST_NUMBER {
        return Err(Error::QueryReturnedNoRows);
    }
    let number = last + 1;
    run_all(
        transaction,
        &[
            Statement::SetLabel(card_path, label, number),
            Statement::SetNumber(book_path, number),
        ],
    )
}

/// The label of a node that is no card: its change number stays. Where no row has the path, it answers
/// `QueryReturnedNoRows`; each other error is that of the store.
pub fn label_node<'x, S: Alter>(
    transaction: &mut Transaction<'_, S>,
    path: &'x str,
    label: &'x str,
) -> Result<(), Error>
    ensures same_reference { transaction.new.conn.ghost_name ≡ transaction.old.conn.ghost_name }
    ensures survives { Unseen (state S.Store transaction.old.conn.now)
        (state S.Store transaction.new.conn.now) }
    ensures kept { Keeps (state S.Store transaction.old.conn.now)
        (state S.Store transaction.new.conn.now) }
    ensures done { Performs (state S.Store transaction.old.conn.now)
        (state S.Store transaction.new.conn.now) result (labelling_node path.now label.now) }
{
    let Some(node) = look_up(transaction, path)? else {
        return Err(Error::QueryReturnedNoRows);
    };
    let number = node.number;
    drop(node);
    if number > LAST_NUMBER {
        return Err(Error::QueryReturnedNoRows);
    }
    run_all(transaction, &[Statement::SetLabel(path, label, number)])
}
