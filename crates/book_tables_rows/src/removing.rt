//! DELETE of a book.

ghost use Rattle.std.specs.Prelude.{◌≡◌};
ghost use Rattle.sqlite.specs.Held.{state};
ghost use Rattle.book_tables_rows.specs.Nodes.{removing_book};
ghost use Rattle.book_tables_rows.specs.Plans.{Performs, Unseen};
ghost use Rattle.book_tables_rows.specs.Steps.{Keeps};

use crate::epochs::read_epoch;
use crate::items::Items;
use crate::lists::child_entry_rows;
use crate::nodes::{LAST_NUMBER, look_up};
use crate::script::{Statement, run_all};
use sqlite::{Alter, Error, Transaction};

/// DELETE of the book at a path, with its cards and removed names; the epoch rises. The entries of its cards are read,
/// so that no other entry of the store is looked at. Where no row has the path, or the epoch is at its last value, it
/// answers `QueryReturnedNoRows`; each other error is that of the store.
pub fn remove_book<S: Alter>(transaction: &mut Transaction<'_, S>, path: &str) -> Result<(), Error>
    ensures same_reference { transaction.new.conn.ghost_name ≡ transaction.old.conn.ghost_name }
    ensures survives { Unseen (state S.Store transaction.old.conn.now)
        (state S.Store transaction.new.conn.now) }
    ensures kept { Keeps (state S.Store transaction.old.conn.now)
        (state S.Store transaction.new.conn.now) }
    ensures done { Performs (state S.Store transaction.old.conn.now)
        (state S.Store transaction.new.conn.now) result (removing_book path.now) }
{
    let Some(book) = look_up(transaction, path)? else {
        return Err(Error::QueryReturnedNoRows);
    };
    let id = book.id;
    drop(book);
    let epoch = read_epoch(transaction)?;
    if epoch >= LAST_NUMBER {
        return Err(Error::QueryReturnedNoRows);
    }
    let entries = child_entry_rows(transaction, id)?;
    run_all(
        transaction,
        &[
            Statement::Each(Items::EntriesOf(&entries)),
            Statement::DeleteGone(id),
            Statement::DeleteChildren(id),
            Statement::DeleteEntries(id),
            Statement::DeleteNode(id),
            Statement::SetEpoch(epoch + 1),
        ],
    )
}
