//! The version becomes 2, where it is 1.

ghost use Rattle.std.specs.Prelude.{◌≡◌, IfOk, IsTrue};
ghost use Rattle.sqlite.specs.Held.{state};
ghost use Rattle.sqlite.specs.Order.{column};
ghost use Rattle.sqlite.specs.State.{HasCleanDisk, Survives};
ghost use Rattle.book_tables_rows.specs.Steps.{Keeps};
ghost use Rattle.book_tables_renewing.specs.Renewal as renewal;
ghost use Rattle.book_tables_renewing.specs.Renewal.{TellsVersion};

use book_tables_schema::{all_meta_rows, set_second};
use sqlite::types::ValueRef;
use sqlite::{Alter, Error, Row, Transaction};

fn is_one(row: &Row) -> bool
    ensures { result ≡ renewal.is_one (column row.now 0) }
{
    matches!(row.get_ref(0), Ok(ValueRef::Int(1)))
}

fn is_natural(row: &Row) -> bool
    ensures { result ≡ renewal.is_natural (column row.now 1) }
{
    matches!(row.get_ref(1), Ok(ValueRef::Int(epoch)) if epoch >= 0)
}

/// Whether there is one row, with version 1 and an epoch.
fn are_first_meta(rows: &[Row]) -> bool
    ensures { result ≡ renewal.are_first_meta rows.now }
{
    match rows {
        [row] => is_one(row) && is_natural(row),
        _ => false,
    }
}

/// Makes the version 2 where `meta` has one row with version 1, and tells whether it had.
pub(crate) fn renew_version<S: Alter>(transaction: &mut Transaction<'_, S>) -> Result<bool, Error>
    ensures same_reference { transaction.new.conn.ghost_name ≡ transaction.old.conn.ghost_name }
    ensures survives { Survives (state S.Store transaction.old.conn.now)
        (state S.Store transaction.new.conn.now) (λ _. ⊥) }
    ensures kept { Keeps (state S.Store transaction.old.conn.now)
        (state S.Store transaction.new.conn.now) }
    ensures told { HasCleanDisk (state S.Store transaction.new.conn.now)
        → IsTrue (state S.Store transaction.old.conn.now).in_transaction
        → IfOk result (λ first. TellsVersion (state S.Store transaction.old.conn.now)
        (state S.Store transaction.new.conn.now) first) }
{
    let meta = all_meta_rows(transaction)?;
    if !are_first_meta(&meta) {
        return Ok(false);
    }
    set_second(transaction)?;
    Ok(true)
}
