//! The access epoch.

ghost use Rattle.std.specs.Prelude.{◌≡◌, IfOk, slice_get, unwrap_or, []};
ghost use Rattle.sqlite.specs.Held.{state};
ghost use Rattle.sqlite.specs.State.{HasCleanDisk, Survives};
ghost use Rattle.book_tables_rows.specs.Plans.{Unseen};
ghost use Rattle.book_tables_rows.specs.Nodes.{ShowsEpoch, number_in, told_epoch};
ghost use Rattle.book_tables_rows.specs.Steps.{Keeps, Spares};

use sqlite::{Alter, Error, Row, Transaction};

/// The rows of `meta`.
fn meta_rows<S: Alter>(transaction: &mut Transaction<'_, S>) -> Result<Vec<Row>, Error>
    ensures same_reference { transaction.new.conn.ghost_name ≡ transaction.old.conn.ghost_name }
    ensures survives { Unseen (state S.Store transaction.old.conn.now)
        (state S.Store transaction.new.conn.now) }
    ensures kept { Keeps (state S.Store transaction.old.conn.now)
        (state S.Store transaction.new.conn.now) }
    ensures stays { Spares (state S.Store transaction.old.conn.now)
        (state S.Store transaction.new.conn.now) result }
    ensures shown { HasCleanDisk (state S.Store transaction.new.conn.now)
        → IfOk result (λ rows. ShowsEpoch (state S.Store transaction.old.conn.now)
        (number_in (told_epoch (unwrap_or (slice_get rows.items 0) [])))) }
{
    transaction.query_all("SELECT version, epoch FROM meta", &[])
}

fn first_epoch(rows: &[Row]) -> Result<u64, Error>
    ensures { IfOk result (λ epoch. epoch ≡ number_in
        (told_epoch (unwrap_or (slice_get rows.now 0) []))) }
{
    let Some(row) = rows.first() else {
        return Err(Error::QueryReturnedNoRows);
    };
    row.get(1)
}

/// The access epoch. Where `meta` has no row it answers `QueryReturnedNoRows`.
pub fn read_epoch<S: Alter>(transaction: &mut Transaction<'_, S>) -> Result<u64, Error>
    ensures same_reference { transaction.new.conn.ghost_name ≡ transaction.old.conn.ghost_name }
    ensures survives { Survives (state S.Store transaction.old.conn.now)
        (state S.Store transaction.new.conn.now) (λ _. ⊥) }
    ensures kept { Keeps (state S.Store transaction.old.conn.now)
        (state S.Store transaction.new.conn.now) }
    ensures stays { Spares (state S.Store transaction.old.conn.now)
        (state S.Store transaction.new.conn.now) result }
    ensures found { HasCleanDisk (state S.Store transaction.new.conn.now)
        → IfOk result (λ epoch. ShowsEpoch (state S.Store transaction.old.conn.now) epoch) }
{
    let rows = meta_rows(transaction)?;
    first_epoch(&rows)
}
