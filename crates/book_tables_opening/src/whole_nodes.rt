//! A read of all nodes without their texts, and a read of one text.

ghost use Rattle.std.specs.Prelude.{◌≡◌, IfOk};
ghost use Rattle.sqlite.specs.Held.{state};
ghost use Rattle.sqlite.specs.State.{HasCleanDisk, Survives};
ghost use Rattle.book_tables_rows.specs.Lists.{ShowsRows};
ghost use Rattle.book_tables_rows.specs.Steps.{Keeps, Spares};
ghost use Rattle.book_tables_opening.specs.WholeNodes.{ShowsTextlessNodes, texts_shown};

use sqlite::{Alter, Error, Row, Transaction, params};

/// Number of the row, path, parent, kind, owner, label, NULL and change number of each node, in order of the numbers of
/// their rows.
pub(crate) fn textless_node_rows<S: Alter>(
    transaction: &mut Transaction<'_, S>,
) -> Result<Vec<Row>, Error>
    ensures same_reference { transaction.new.conn.ghost_name ≡ transaction.old.conn.ghost_name }
    ensures survives { Survives (state S.Store transaction.old.conn.now)
        (state S.Store transaction.new.conn.now) (λ _. ⊥) }
    ensures kept { Keeps (state S.Store transaction.old.conn.now)
        (state S.Store transaction.new.conn.now) }
    ensures stays { Spares (state S.Store transaction.old.conn.now)
        (state S.Store transaction.new.conn.now) result }
    ensures shown { HasCleanDisk (state S.Store transaction.new.conn.now)
        → IfOk result (λ rows. ShowsTextlessNodes
        (state S.Store transaction.old.conn.now) rows.items) }
{
    transaction.query_all(
        "SELECT id, path, parent, kind, owner, label, NULL, number FROM node ORDER BY id",
        &[],
    )
}

/// The text of the node whose row has a number; no row where no node has it. One look-up by number.
pub(crate) fn text_rows<S: Alter>(
    transaction: &mut Transaction<'_, S>,
    id: i64,
) -> Result<Vec<Row>, Error>
    ensures same_reference { transaction.new.conn.ghost_name ≡ transaction.old.conn.ghost_name }
    ensures survives { Survives (state S.Store transaction.old.conn.now)
        (state S.Store transaction.new.conn.now) (λ _. ⊥) }
    ensures kept { Keeps (state S.Store transaction.old.conn.now)
        (state S.Store transaction.new.conn.now) }
    ensures stays { Spares (state S.Store transaction.old.conn.now)
        (state S.Store transaction.new.conn.now) result }
    ensures shown { HasCleanDisk (state S.Store transaction.new.conn.now)
        → IfOk result (λ rows. ShowsRows (state S.Store transaction.old.conn.now)
        (texts_shown id) rows.items) }
{
    transaction.query_all("SELECT text FROM node WHERE id = ?1", params![id])
}
