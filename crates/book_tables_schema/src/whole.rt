//! Reads of whole tables.

ghost use Rattle.std.specs.Prelude.{◌≡◌, IfOk};
ghost use Rattle.sqlite.specs.Held.{state};
ghost use Rattle.sqlite.specs.State.{HasCleanDisk, Survives};
ghost use Rattle.book_tables_rows.specs.Lists.{ShowsRows};
ghost use Rattle.book_tables_rows.specs.Steps.{Keeps, Spares};
ghost use Rattle.book_tables_schema.specs.Whole.{meta_shown, nodes_shown, entries_shown, gone_shown};

use sqlite::{Alter, Error, Row, Transaction};

/// Version and epoch of each row of `meta`.
pub fn all_meta_rows<S: Alter>(transaction: &mut Transaction<'_, S>) -> Result<Vec<Row>, Error>
    ensures same_reference { transaction.new.conn.ghost_name ≡ transaction.old.conn.ghost_name }
    ensures survives { Survives (state S.Store transaction.old.conn.now)
        (state S.Store transaction.new.conn.now) (λ _. ⊥) }
    ensures kept { Keeps (state S.Store transaction.old.conn.now)
        (state S.Store transaction.new.conn.now) }
    ensures stays { Spares (state S.Store transaction.old.conn.now)
        (state S.Store transaction.new.conn.now) result }
    ensures shown { HasCleanDisk (state S.Store transaction.new.conn.now)
        → IfOk result (λ rows. ShowsRows
        (state S.Store transaction.old.conn.now) meta_shown rows.items) }
{
    transaction.query_all("SELECT version, epoch FROM meta", &[])
}

/// Number of the row, path, parent, kind, owner, label and change number of each node, in no order.
pub fn all_node_rows<S: Alter>(transaction: &mut Transaction<'_, S>) -> Result<Vec<Row>, Error>
    ensures same_reference { transaction.new.conn.ghost_name ≡ transaction.old.conn.ghost_name }
    ensures survives { Survives (state S.Store transaction.old.conn.now)
        (state S.Store transaction.new.conn.now) (λ _. ⊥) }
    ensures kept { Keeps (state S.Store transaction.old.conn.now)
        (state S.Store transaction.new.conn.now) }
    ensures stays { Spares (state S.Store transaction.old.conn.now)
        (state S.Store transaction.new.conn.now) result }
    ensures shown { HasCleanDisk (state S.Store transaction.new.conn.now)
        → IfOk result (λ rows. ShowsRows
        (state S.Store transaction.old.conn.now) nodes_shown rows.items) }
{
    transaction.query_all(
        "SELECT id, path, parent, kind, owner, label, number FROM node",
        &[],
    )
}

/// Each entry with all its columns, in no order.
pub fn all_entry_rows<S: Alter>(transaction: &mut Transaction<'_, S>) -> Result<Vec<Row>, Error>
    ensures same_reference { transaction.new.conn.ghost_name ≡ transaction.old.conn.ghost_name }
    ensures survives { Survives (state S.Store transaction.old.conn.now)
        (state S.Store transaction.new.conn.now) (λ _. ⊥) }
    ensures kept { Keeps (state S.Store transaction.old.conn.now)
        (state S.Store transaction.new.conn.now) }
    ensures stays { Spares (state S.Store transaction.old.conn.now)
        (state S.Store transaction.new.conn.now) result }
    ensures shown { HasCleanDisk (state S.Store transaction.new.conn.now)
        → IfOk result (λ rows. ShowsRows
        (state S.Store transaction.old.conn.now) entries_shown rows.items) }
{
    transaction.query_all(
        "SELECT node, protected, place, form, principal, invert, deny, mask FROM ace2",
        &[],
    )
}

/// Book, name and number of each removed name, in no order.
pub fn all_gone_rows<S: Alter>(transaction: &mut Transaction<'_, S>) -> Result<Vec<Row>, Error>
    ensures same_reference { transaction.new.conn.ghost_name ≡ transaction.old.conn.ghost_name }
    ensures survives { Survives (state S.Store transaction.old.conn.now)
        (state S.Store transaction.new.conn.now) (λ _. ⊥) }
    ensures kept { Keeps (state S.Store transaction.old.conn.now)
        (state S.Store transaction.new.conn.now) }
    ensures stays { Spares (state S.Store transaction.old.conn.now)
        (state S.Store transaction.new.conn.now) result }
    ensures shown { HasCleanDisk (state S.Store transaction.new.conn.now)
        → IfOk result (λ rows. ShowsRows
        (state S.Store transaction.old.conn.now) gone_shown rows.items) }
{
    transaction.query_all("SELECT book, name, number FROM gone", &[])
}
