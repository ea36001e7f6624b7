//! Whether nodes have the texts of their kinds, read one after the other.

ghost use Rattle.std.specs.Prelude.{◌≡◌, ◌↔◌, IsTrue, IfOk};
ghost use Rattle.std.specs.List.{AllByRecursion};
ghost use Rattle.std.specs.Option.{option_copied};
ghost use Rattle.sqlite.specs.Held.{state};
ghost use Rattle.sqlite.specs.State.{HasCleanDisk, Survives};
ghost use Rattle.book_office_values.specs.Texts.{IsCardText};
ghost use Rattle.book_tables_rows.specs.Rows.{IsBook, rows_of};
ghost use Rattle.book_tables_rows.specs.Steps.{Keeps, Spares};
ghost use Rattle.book_tables_opening.specs.Directories as nodes;
ghost use Rattle.book_tables_opening.specs.Opening.{HasTextIn, IsTextFor};
ghost use Rattle.book_tables_opening.specs.WholeNodes as whole;

use crate::directories::text_at;
use crate::keys::int_at;
use crate::principal_tests::is_of_kind;
use crate::whole_nodes::text_rows;
use book_limits::MAX_CARD_BYTES;
use sqlite::{Alter, Error, Row, Transaction};

/// Whether bytes are the text of a card: UTF-8, of no more bytes than a text may have.
fn is_card_text(text: &[u8]) -> bool
    ensures { IsTrue result ↔ IsCardText text.now }
{
    text.len() <= MAX_CARD_BYTES && std::str::from_utf8(text).is_ok()
}

/// The text in the first row that a look-up shows, if it has one.
fn first_text(found: &[Row]) -> Option<&[u8]>
    ensures { option_copied result ≡ whole.first_text found.now }
{
    match found.first() {
        Some(row) => text_at(row, 0),
        None => None,
    }
}

/// Whether a card has the text of a card, and another node none.
fn is_text_for(is_card: bool, text: Option<&[u8]>) -> bool
    ensures { IsTrue result ↔ IsTextFor is_card (option_copied text.entry) }
{
    match (is_card, text) {
        (true, Some(text)) => is_card_text(text),
        (true, None) => false,
        (false, text) => text.is_none(),
    }
}

/// Whether the text that a look-up shows is that of a node's kind.
fn shows_own_text(node: &Row, found: &[Row]) -> bool
    ensures { IsTrue result ↔ IsTextFor (nodes.is_of_kind 5 node.now) (whole.first_text found.now) }
{
    is_text_for(is_of_kind(node, 5), first_text(found))
}

/// Whether the node with a row's number has the text of the row's kind: a card UTF-8 of no more bytes than a text may
/// have, another node none.
pub fn has_own_text<S: Alter>(
    transaction: &mut Transaction<'_, S>,
    node: &Row,
) -> Result<bool, Error>
    ensures same_reference { transaction.new.conn.ghost_name ≡ transaction.old.conn.ghost_name }
    ensures survives { Survives (state S.Store transaction.old.conn.now)
        (state S.Store transaction.new.conn.now) (λ _. ⊥) }
    ensures kept { Keeps (state S.Store transaction.old.conn.now)
        (state S.Store transaction.new.conn.now) }
    ensures stays { Spares (state S.Store transaction.old.conn.now)
        (state S.Store transaction.new.conn.now) result }
    ensures told { HasCleanDisk (state S.Store transaction.new.conn.now)
        → IfOk result (λ has. IsBook (state S.Store transaction.old.conn.now).now → IsTrue has
        ↔ HasTextIn (rows_of (state S.Store transaction.old.conn.now).now.trees) node.now) }
{
    let found = text_rows(transaction, int_at(node, 0))?;
    Ok(shows_own_text(node, &found))
}

/// Whether the node with each row's number has the text of the row's kind. It takes one look-up for each, and the
/// memory of one text.
pub(crate) fn have_own_texts<S: Alter>(
    transaction: &mut Transaction<'_, S>,
    nodes: &[Row],
) -> Result<bool, Error>
    ensures same_reference { transaction.new.conn.ghost_name ≡ transaction.old.conn.ghost_name }
    ensures survives { Survives (state S.Store transaction.old.conn.now)
        (state S.Store transaction.new.conn.now) (λ _. ⊥) }
    ensures kept { Keeps (state S.Store transaction.old.conn.now)
        (state S.Store transaction.new.conn.now) }
    ensures stays { Spares (state S.Store transaction.old.conn.now)
        (state S.Store transaction.new.conn.now) result }
    ensures told { HasCleanDisk (state S.Store transaction.new.conn.now)
        → IfOk result (λ have. IsBook (state S.Store transaction.old.conn.now).now → IsTrue have
        ↔ AllByRecursion (HasTextIn (rows_of (state S.Store transaction.old.conn.now).now.trees))
        nodes.now) }
{
    for node in nodes {
        if !has_own_text(transaction, node)? {
            return Ok(false);
        }
    }
    Ok(true)
}
