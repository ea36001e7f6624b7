//! Whether the sets of all entries are of the eight leaves of version 1.

ghost use Rattle.std.specs.Prelude.{◌≡◌, IfOk};
ghost use Rattle.std.specs.List.{list_all};
ghost use Rattle.sqlite.specs.Held.{state};
ghost use Rattle.sqlite.specs.Order.{column};
ghost use Rattle.sqlite.specs.State.{HasCleanDisk, Survives};
ghost use Rattle.book_tables_rows.specs.Steps.{Keeps};
ghost use Rattle.book_tables_renewing.specs.Renewal as renewal;
ghost use Rattle.book_tables_renewing.specs.Renewal.{ShowsMasks};

use sqlite::types::ValueRef;
use sqlite::{Alter, Error, Row, Transaction};

/// The mask of each entry of version 1, in no order.
pub(crate) fn first_masks<S: Alter>(transaction: &mut Transaction<'_, S>) -> Result<Vec<Row>, Error>
    ensures same_reference { transaction.new.conn.ghost_name ≡ transaction.old.conn.ghost_name }
    ensures survives { Survives (state S.Store transaction.old.conn.now)
        (state S.Store transaction.new.conn.now) (λ _. ⊥) }
    ensures kept { Keeps (state S.Store transaction.old.conn.now)
        (state S.Store transaction.new.conn.now) }
    ensures shown { HasCleanDisk (state S.Store transaction.new.conn.now)
        → IfOk result (λ rows. ShowsMasks (state S.Store transaction.old.conn.now)
        (state S.Store transaction.new.conn.now) rows.items) }
{
    transaction.query_all("SELECT mask FROM ace", &[])
}

fn is_first_mask(row: &Row) -> bool
    ensures { result ≡ renewal.is_first_mask (column row.now 0) }
{
    matches!(row.get_ref(0), Ok(ValueRef::Int(mask)) if mask >= 0 && mask < 256)
}

/// Whether each mask is one of the eight leaves.
pub(crate) fn are_first_masks(rows: &[Row]) -> bool
    ensures { result ≡ list_all (λ row. renewal.is_first_mask (column row 0)) rows.now }
{
    rows.iter().all(|row| is_first_mask(row))
}
