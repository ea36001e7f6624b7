//! COPY of a card.

ghost use Rattle.std.specs.Prelude.{◌≡◌};
ghost use Rattle.std.specs.Option.{option_copied};
ghost use Rattle.sqlite.specs.Held.{state};
ghost use Rattle.book_tables_rows.specs.Nodes.{copying_card};
ghost use Rattle.book_tables_rows.specs.Plans.{Performs, Unseen};
ghost use Rattle.book_tables_rows.specs.Steps.{Keeps};

use crate::nodes::{LAST_NUMBER, look_up};
use crate::script::{Statement, run_all};
use sqlite::{Alter, Error, Transaction};

/// COPY of the text and the label of the card at a path. A new card gets the owner and no entries; a card that is
/// there keeps them. Where no row has the path of the source or of the book, the source has no text, or the book is
/// at its last change number, it answers `QueryReturnedNoRows`; each other error is that of the store.
pub fn copy_card<'x, S: Alter>(
    transaction: &mut Transaction<'_, S>,
    source_path: &str,
    book_path: &'x str,
    card_path: &'x str,
    name: &'x str,
    owner: Option<&'x str>,
) -> Result<(), Error>
    ensures same_reference { transaction.new.conn.ghost_name ≡ transaction.old.conn.ghost_name }
    ensures survives { Unseen (state S.Store transaction.old.conn.now)
        (state S.Store transaction.new.conn.now) }
    ensures kept { Keeps (state S.Store transaction.old.conn.now)
        (state S.Store transaction.new.conn.now) }
    ensures done { Performs (state S.Store transaction.old.conn.now)
        (state S.Store transaction.new.conn.now) result
        (copying_card source_path.now book_path.now card_path.now name.now
        (option_copied owner.entry)) }
{
    let Some(source) = look_up(transaction, source_path)? else {
        return Err(Error::QueryReturnedNoRows);
    };
    let Some(text) = &source.text else {
        return Err(Error::QueryReturnedNoRows);
    };
    let Some(book) = look_up(transaction, book_path)? else {
        return Err(Error::QueryReturnedNoRows);
    };
    let (id, last) = (book.id, book.number);
    drop(book);
    if last >= LAST_NUMBER {
        return Err(Error::QueryReturnedNoRows);
    }
    let number = last + 1;
    run_all(
        transaction,
        &[
            Statement::WriteCopy {
                book: id,
                path: card_path,
                name,
                owner,
                label: source.label.as_str(),
                text: text.as_str(),
                number,
            },
            Statement::SetNumber(book_path, number),
        ],
    )
}
