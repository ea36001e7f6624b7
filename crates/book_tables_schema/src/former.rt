//! Whether the table of version 1 that stays is empty.

ghost use Rattle.std.specs.Prelude.{◌≡◌, ◌↔◌, ℕ, IfOk, OnOk, IsTrue, []};
ghost use Rattle.sqlite.specs.Held.{state};
ghost use Rattle.sqlite.specs.State.{HasCleanDisk, Survives, Shown};
ghost use Rattle.book_tables_rows.specs.Schema.{book_schema, ace_tree};
ghost use Rattle.book_tables_rows.specs.Steps.{Keeps, Spares, WritesIf};
ghost use Rattle.book_tables_schema.specs.Renewing.{Empties, IsFirstMeta, renumbered};
ghost use Rattle.book_tables_schema.specs.Whole.{list_former};

use sqlite::{Alter, Error, Row, Transaction};

fn former_rows<S: Alter>(transaction: &mut Transaction<'_, S>) -> Result<Vec<Row>, Error>
    ensures same_reference { transaction.new.conn.ghost_name ≡ transaction.old.conn.ghost_name }
    ensures survives { Survives (state S.Store transaction.old.conn.now)
        (state S.Store transaction.new.conn.now) (λ _. ⊥) }
    ensures kept { Keeps (state S.Store transaction.old.conn.now)
        (state S.Store transaction.new.conn.now) }
    ensures stays { Spares (state S.Store transaction.old.conn.now)
        (state S.Store transaction.new.conn.now) result }
    ensures shown { HasCleanDisk (state S.Store transaction.new.conn.now)
        → IfOk result (λ rows. Shown list_former [] (state S.Store transaction.old.conn.now)
        (state S.Store transaction.new.conn.now) rows.items) }
{
    transaction.query_all("SELECT node FROM ace", &[])
}

fn are_none(rows: &[Row]) -> bool
    ensures { IsTrue result ↔ (rows.now ≡ []) }
{
    matches!(rows, [])
}

/// Whether `ace`, which version 1 had for the entries, has no row.
pub fn has_no_former<S: Alter>(transaction: &mut Transaction<'_, S>) -> Result<bool, Error>
    ensures same_reference { transaction.new.conn.ghost_name ≡ transaction.old.conn.ghost_name }
    ensures survives { Survives (state S.Store transaction.old.conn.now)
        (state S.Store transaction.new.conn.now) (λ _. ⊥) }
    ensures kept { Keeps (state S.Store transaction.old.conn.now)
        (state S.Store transaction.new.conn.now) }
    ensures stays { Spares (state S.Store transaction.old.conn.now)
        (state S.Store transaction.new.conn.now) result }
    ensures told { HasCleanDisk (state S.Store transaction.new.conn.now)
        → (state S.Store transaction.old.conn.now).now.schema ≡ book_schema
        → IfOk result (λ none. IsTrue none
        ↔ ((state S.Store transaction.old.conn.now).now.trees ace_tree ≡ [])) }
{
    let rows = former_rows(transaction)?;
    Ok(are_none(&rows))
}

/// Takes out each row of `ace`.
pub fn empty_former<S: Alter>(transaction: &mut Transaction<'_, S>) -> Result<(), Error>
    ensures same_reference { transaction.new.conn.ghost_name ≡ transaction.old.conn.ghost_name }
    ensures survives { Survives (state S.Store transaction.old.conn.now)
        (state S.Store transaction.new.conn.now) (λ _. ⊥) }
    ensures kept { Keeps (state S.Store transaction.old.conn.now)
        (state S.Store transaction.new.conn.now) }
    ensures done { HasCleanDisk (state S.Store transaction.new.conn.now)
        → IsTrue (state S.Store transaction.old.conn.now).in_transaction
        → OnOk result (Empties (state S.Store transaction.old.conn.now)
        (state S.Store transaction.new.conn.now)) }
{
    transaction.execute("DELETE FROM ace", &[])?;
    Ok(())
}

/// Makes the version 2, where `meta` has one row with version 1.
pub fn set_second<S: Alter>(transaction: &mut Transaction<'_, S>) -> Result<(), Error>
    ensures same_reference { transaction.new.conn.ghost_name ≡ transaction.old.conn.ghost_name }
    ensures survives { Survives (state S.Store transaction.old.conn.now)
        (state S.Store transaction.new.conn.now) (λ _. ⊥) }
    ensures kept { Keeps (state S.Store transaction.old.conn.now)
        (state S.Store transaction.new.conn.now) }
    ensures done { WritesIf (state S.Store transaction.old.conn.now)
        (state S.Store transaction.new.conn.now) result
        (λ rows. (epoch : ℕ) × IsFirstMeta rows.meta epoch) renumbered }
{
    transaction.execute("UPDATE meta SET version = 2", &[])?;
    Ok(())
}
