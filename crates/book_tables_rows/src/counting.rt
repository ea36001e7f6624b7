//! How many children a node has.

ghost use Rattle.std.specs.Prelude.{◌≡◌, IfOk};
ghost use Rattle.sqlite.specs.Held.{state};
ghost use Rattle.sqlite.specs.State.{HasCleanDisk, Survives};
ghost use Rattle.book_tables_rows.specs.Lists.{ShowsCount, first_number};
ghost use Rattle.book_tables_rows.specs.Plans.{Unseen};
ghost use Rattle.book_tables_rows.specs.Steps.{Keeps, Spares};

use sqlite::{Alter, Error, Row, Transaction, params};

/// One row with the count, or none.
fn count_rows<S: Alter>(transaction: &mut Transaction<'_, S>, path: &str) -> Result<Vec<Row>, Error>
    ensures same_reference { transaction.new.conn.ghost_name ≡ transaction.old.conn.ghost_name }
    ensures survives { Unseen (state S.Store transaction.old.conn.now)
        (state S.Store transaction.new.conn.now) }
    ensures kept { Keeps (state S.Store transaction.old.conn.now)
        (state S.Store transaction.new.conn.now) }
    ensures stays { Spares (state S.Store transaction.old.conn.now)
        (state S.Store transaction.new.conn.now) result }
    ensures shown { HasCleanDisk (state S.Store transaction.new.conn.now)
        → IfOk result (λ rows. ShowsCount (state S.Store transaction.old.conn.now) path.now
        (first_number rows.items)) }
{
    transaction.query_all(
        "SELECT (SELECT count(*) FROM node AS child WHERE child.parent = node.id) FROM node WHERE path = ?1",
        params![path],
    )
}

fn first_count(rows: &[Row]) -> Result<u64, Error>
    ensures { IfOk result (λ count. count ≡ first_number rows.now) }
{
    let Some(row) = rows.first() else {
        return Ok(0);
    };
    row.get(0)
}

/// How many children the node at a path has; 0 where no row has the path. It walks the index of the children, so it
/// is asked only where one is added.
pub fn count_children<S: Alter>(
    transaction: &mut Transaction<'_, S>,
    path: &str,
) -> Result<u64, Error>
    ensures same_reference { transaction.new.conn.ghost_name ≡ transaction.old.conn.ghost_name }
    ensures survives { Survives (state S.Store transaction.old.conn.now)
        (state S.Store transaction.new.conn.now) (λ _. ⊥) }
    ensures kept { Keeps (state S.Store transaction.old.conn.now)
        (state S.Store transaction.new.conn.now) }
    ensures stays { Spares (state S.Store transaction.old.conn.now)
        (state S.Store transaction.new.conn.now) result }
    ensures found { HasCleanDisk (state S.Store transaction.new.conn.now)
        → IfOk result (λ count. ShowsCount
        (state S.Store transaction.old.conn.now) path.now count) }
{
    let rows = count_rows(transaction, path)?;
    first_count(&rows)
}
