//! PUT of a card.

ghost use Rattle.std.specs.Prelude.{◌≡◌};
ghost use Rattle.std.specs.Option.{option_copied};
ghost use Rattle.sqlite.specs.Held.{state};
ghost use Rattle.book_tables_rows.specs.Nodes.{putting_card};
ghost use Rattle.book_tables_rows.specs.Plans.{Performs, Unseen};
ghost use Rattle.book_tables_rows.specs.Steps.{Keeps};

use crate::nodes::{LAST_NUMBER, look_up};
use crate::script::{Statement, run_all};
use sqlite::{Alter, Error, Transaction};

/// PUT of the card at a path. A new card gets the owner, an empty label and no entries; of a card that is there the
/// text alone is replaced. Its name is no removed one any more, and card and book get the book's next change number.
/// Where no row has the path of the book, or the book is at its last change number, it answers `QueryReturnedNoRows`;
/// each other error is that of the store.
pub fn put_card<'x, S: Alter>(
    transaction: &mut Transaction<'_, S>,
    book_path: &'x str,
    card_path: &'x str,
    name: &'x str,
    owner: Option<&'x str>,
    text: &'x str,
) -> Result<(), Error>
    ensures same_reference { transaction.new.conn.ghost_name ≡ transaction.old.conn.ghost_name }
    ensures survives { Unseen (state S.Store transaction.old.conn.now)
        (state S.Store transaction.new.conn.now) }
    ensures kept { Keeps (state S.Store transaction.old.conn.now)
        (state S.Store transaction.new.conn.now) }
    ensures done { Performs (state S.Store transaction.old.conn.now)
        (state S.Store transaction.new.conn.now) result
        (putting_card book_path.now card_path.now name.now (option_copied owner.entry) text.now) }
{
    let Some(book) = look_up(transaction, book_path)? else {
        return Err(Error::QueryReturnedNoRows);
    };
    let (id, last) = (book.id, book.number);
    drop(book);
    if last >= LAST_NUMBER {
        return Err(Error::QueryReturnedNoRows);
    }
    let number = last + 1;
    run_all(
        transaction,
        &[
            Statement::WriteCard {
                book: id,
                path: card_path,
                name,
                owner,
                text,
                number,
            },
            Statement::SetNumber(book_path, number),
        ],
    )
}
