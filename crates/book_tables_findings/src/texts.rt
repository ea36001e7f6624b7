//! The first node that has no text of its kind.

ghost use Rattle.std.specs.Prelude.{◌≡◌, IfOk};
ghost use Rattle.sqlite.specs.Held.{state};
ghost use Rattle.sqlite.specs.State.{HasCleanDisk, Survives};
ghost use Rattle.book_tables_rows.specs.Rows.{IsBook, rows_of};
ghost use Rattle.book_tables_rows.specs.Steps.{Keeps, Spares};
ghost use Rattle.book_tables_findings.specs.Findings.{TellsTexts};

use crate::names::node_name;
use book_office_values::Items;
use book_tables_opening::has_own_text;
use sqlite::{Alter, Error, Row, Transaction};
use std::alloc::Global;

/// The first row whose node has no text of the row's kind. It takes one look-up for each row, and the memory of one text.
pub(crate) fn broken_text<S: Alter>(
    alloc: Global,
    transaction: &mut Transaction<'_, S>,
    nodes: &[Row],
) -> Result<Option<Items<u8>>, Error>
    ensures same_reference { transaction.new.conn.ghost_name ≡ transaction.old.conn.ghost_name }
    ensures survives { Survives (state S.Store transaction.old.conn.now)
        (state S.Store transaction.new.conn.now) (λ _. ⊥) }
    ensures kept { Keeps (state S.Store transaction.old.conn.now)
        (state S.Store transaction.new.conn.now) }
    ensures stays { Spares (state S.Store transaction.old.conn.now)
        (state S.Store transaction.new.conn.now) result }
    ensures told { HasCleanDisk (state S.Store transaction.new.conn.now)
        → IfOk result (λ found. IsBook (state S.Store transaction.old.conn.now).now
        → TellsTexts (rows_of (state S.Store transaction.old.conn.now).now.trees)
        nodes.now found) }
{
    for node in nodes {
        if !has_own_text(transaction, node)? {
            let name = node_name(alloc, node)?;
            return Ok(Some(name));
        }
    }
    Ok(None)
}
