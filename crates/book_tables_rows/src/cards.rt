//! A card is written: its row gets the text, or is added.

ghost use Rattle.std.specs.Prelude.{◌≡◌, ◌+◌, ◌<◌, ◌^◌, Some};
ghost use Rattle.std.specs.Option.{option_copied};
ghost use Rattle.sqlite.specs.declared.types.Value.TheVariants.{Int};
ghost use Rattle.sqlite.specs.Held.{state};
ghost use Rattle.book_tables_rows.specs.Writes as writes;
ghost use Rattle.book_tables_rows.specs.Writes.{is_mapped};
ghost use Rattle.book_tables_rows.specs.Plans.{Unseen};
ghost use Rattle.book_tables_rows.specs.Steps.{Keeps, Writes, WritesAt};

use crate::nodes::{CARD, insert_node};
use sqlite::{Alter, Error, Transaction, params};

/// Gives the node at a path another text and change number, and tells whether there is one.
fn set_text<'x, S: Alter>(
    transaction: &mut Transaction<'_, S>,
    path: &'x str,
    text: &'x str,
    number: u64,
) -> Result<bool, Error>
    requires { number < 2 ^ 53 }
    ensures same_reference { transaction.new.conn.ghost_name ≡ transaction.old.conn.ghost_name }
    ensures survives { Unseen (state S.Store transaction.old.conn.now)
        (state S.Store transaction.new.conn.now) }
    ensures kept { Keeps (state S.Store transaction.old.conn.now)
        (state S.Store transaction.new.conn.now) }
    ensures done { WritesAt (state S.Store transaction.old.conn.now)
        (state S.Store transaction.new.conn.now) result path.now
        (writes.set_text path.now text.now number) }
{
    let count = transaction.execute(
        "UPDATE node SET text = ?2, number = ?3 WHERE path = ?1",
        params![path, text, number as i64],
    )?;
    Ok(count > 0)
}

/// Takes a name out of the removed names of the book with a number.
pub(crate) fn delete_gone_name<S: Alter>(
    transaction: &mut Transaction<'_, S>,
    book: i64,
    name: &str,
) -> Result<(), Error>
    ensures same_reference { transaction.new.conn.ghost_name ≡ transaction.old.conn.ghost_name }
    ensures survives { Unseen (state S.Store transaction.old.conn.now)
        (state S.Store transaction.new.conn.now) }
    ensures kept { Keeps (state S.Store transaction.old.conn.now)
        (state S.Store transaction.new.conn.now) }
    ensures done { Writes (state S.Store transaction.old.conn.now)
        (state S.Store transaction.new.conn.now) result
        (writes.delete_gone_name (Int book) name.now) }
{
    transaction.execute(
        "DELETE FROM gone WHERE book = ?1 AND name = ?2",
        params![book, name],
    )?;
    Ok(())
}

/// Gives the node at a path another label, text and change number, and tells whether there is one.
fn set_copy<'x, S: Alter>(
    transaction: &mut Transaction<'_, S>,
    path: &'x str,
    label: &'x str,
    text: &'x str,
    number: u64,
) -> Result<bool, Error>
    requires { number < 2 ^ 53 }
    ensures same_reference { transaction.new.conn.ghost_name ≡ transaction.old.conn.ghost_name }
    ensures survives { Unseen (state S.Store transaction.old.conn.now)
        (state S.Store transaction.new.conn.now) }
    ensures kept { Keeps (state S.Store transaction.old.conn.now)
        (state S.Store transaction.new.conn.now) }
    ensures done { WritesAt (state S.Store transaction.old.conn.now)
        (state S.Store transaction.new.conn.now) result path.now
        (writes.set_copy path.now label.now text.now number) }
{
    let count = transaction.execute(
        "UPDATE node SET label = ?2, text = ?3, number = ?4 WHERE path = ?1",
        params![path, label, text, number as i64],
    )?;
    Ok(count > 0)
}

/// The card's row gets the text. Where there is none, one is added under the book with a number, and its name is taken out
/// of the removed ones.
pub(crate) fn write_card<'x, S: Alter>(
    transaction: &mut Transaction<'_, S>,
    book: i64,
    path: &'x str,
    name: &str,
    owner: Option<&'x str>,
    text: &'x str,
    number: u64,
) -> Result<(), Error>
    requires { number < 2 ^ 53 }
    ensures same_reference { transaction.new.conn.ghost_name ≡ transaction.old.conn.ghost_name }
    ensures survives { Unseen (state S.Store transaction.old.conn.now)
        (state S.Store transaction.new.conn.now) }
    ensures kept { Keeps (state S.Store transaction.old.conn.now)
        (state S.Store transaction.new.conn.now) }
    ensures done { Writes (state S.Store transaction.old.conn.now)
        (state S.Store transaction.new.conn.now) result
        (λ rows. writes.write_card (Int book) (is_mapped path.now rows) path.now name.now
        (option_copied owner.entry) text.now number rows) }
{
    if set_text(transaction, path, text, number)? {
        return Ok(());
    }
    insert_node(transaction, path, book, CARD, owner, "", Some(text), number)?;
    delete_gone_name(transaction, book, name)
}

/// The card's row gets the label and the text. Where there is none, one is added under the book with a number, and its name
/// is taken out of the removed ones.
pub(crate) fn write_copy<'x, S: Alter>(
    transaction: &mut Transaction<'_, S>,
    book: i64,
    path: &'x str,
    name: &str,
    owner: Option<&'x str>,
    label: &'x str,
    text: &'x str,
    number: u64,
) -> Result<(), Error>
    requires { number < 2 ^ 53 }
    ensures same_reference { transaction.new.conn.ghost_name ≡ transaction.old.conn.ghost_name }
    ensures survives { Unseen (state S.Store transaction.old.conn.now)
        (state S.Store transaction.new.conn.now) }
    ensures kept { Keeps (state S.Store transaction.old.conn.now)
        (state S.Store transaction.new.conn.now) }
    ensures done { Writes (state S.Store transaction.old.conn.now)
        (state S.Store transaction.new.conn.now) result
        (λ rows. writes.write_copy (Int book) (is_mapped path.now rows) path.now name.now
        (option_copied owner.entry) label.now text.now number rows) }
{
    if set_copy(transaction, path, label, text, number)? {
        return Ok(());
    }
    insert_node(
        transaction,
        path,
        book,
        CARD,
        owner,
        label,
        Some(text),
        number,
    )?;
    delete_gone_name(transaction, book, name)
}
