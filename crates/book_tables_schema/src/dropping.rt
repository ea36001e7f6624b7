//! The texts that take away what derives from other tables: the indexes that only make look-ups fast, and `reach`.

ghost use Rattle.std.specs.Prelude.{◌≡◌, OnOk, IsTrue};
ghost use Rattle.sqlite.specs.Held.{state};
ghost use Rattle.sqlite.specs.State.{HasCleanDisk, Survives};
ghost use Rattle.book_tables_rows.specs.Steps.{Keeps};
ghost use Rattle.book_tables_schema.specs.FormerOrder.{DropsFormer};
ghost use Rattle.book_tables_schema.specs.OtherReach.{DropsDerived};
ghost use Rattle.book_tables_schema.specs.OwnIndexes as own;
ghost use Rattle.book_tables_schema.specs.OwnIndexes.{DropsIndexes};

use crate::tables::run;
use sqlite::{Alter, Error, Transaction};

/// Takes the indexes of children and of owners away, where they are there.
fn drop_node_indexes<S: Alter>(transaction: &mut Transaction<'_, S>) -> Result<(), Error>
    ensures same_reference { transaction.new.conn.ghost_name ≡ transaction.old.conn.ghost_name }
    ensures survives { Survives (state S.Store transaction.old.conn.now)
        (state S.Store transaction.new.conn.now) (λ _. ⊥) }
    ensures kept { Keeps (state S.Store transaction.old.conn.now)
        (state S.Store transaction.new.conn.now) }
    ensures dropped { HasCleanDisk (state S.Store transaction.new.conn.now)
        → IsTrue (state S.Store transaction.old.conn.now).in_transaction
        → OnOk result (DropsIndexes own.without_node_indexes
        (state S.Store transaction.old.conn.now) (state S.Store transaction.new.conn.now)) }
{
    run(transaction, "DROP INDEX IF EXISTS node_parent")?;
    run(transaction, "DROP INDEX IF EXISTS node_owner")
}

/// Takes the indexes of principals of version 1 and of members away, where they are there.
fn drop_principal_indexes<S: Alter>(transaction: &mut Transaction<'_, S>) -> Result<(), Error>
    ensures same_reference { transaction.new.conn.ghost_name ≡ transaction.old.conn.ghost_name }
    ensures survives { Survives (state S.Store transaction.old.conn.now)
        (state S.Store transaction.new.conn.now) (λ _. ⊥) }
    ensures kept { Keeps (state S.Store transaction.old.conn.now)
        (state S.Store transaction.new.conn.now) }
    ensures dropped { HasCleanDisk (state S.Store transaction.new.conn.now)
        → IsTrue (state S.Store transaction.old.conn.now).in_transaction
        → OnOk result (DropsIndexes own.without_principal_indexes
        (state S.Store transaction.old.conn.now) (state S.Store transaction.new.conn.now)) }
{
    run(transaction, "DROP INDEX IF EXISTS ace_principal")?;
    run(transaction, "DROP INDEX IF EXISTS member_member")
}

/// Takes the indexes of principals, of removed names and of groups away, where they are there.
fn drop_last_indexes<S: Alter>(transaction: &mut Transaction<'_, S>) -> Result<(), Error>
    ensures same_reference { transaction.new.conn.ghost_name ≡ transaction.old.conn.ghost_name }
    ensures survives { Survives (state S.Store transaction.old.conn.now)
        (state S.Store transaction.new.conn.now) (λ _. ⊥) }
    ensures kept { Keeps (state S.Store transaction.old.conn.now)
        (state S.Store transaction.new.conn.now) }
    ensures dropped { HasCleanDisk (state S.Store transaction.new.conn.now)
        → IsTrue (state S.Store transaction.old.conn.now).in_transaction
        → OnOk result (DropsIndexes own.without_last_indexes
        (state S.Store transaction.old.conn.now) (state S.Store transaction.new.conn.now)) }
{
    run(transaction, "DROP INDEX IF EXISTS ace2_principal")?;
    run(transaction, "DROP INDEX IF EXISTS gone_book")?;
    run(transaction, "DROP INDEX IF EXISTS reach_grp")
}

fn drop_indexes<S: Alter>(transaction: &mut Transaction<'_, S>) -> Result<(), Error>
    ensures same_reference { transaction.new.conn.ghost_name ≡ transaction.old.conn.ghost_name }
    ensures survives { Survives (state S.Store transaction.old.conn.now)
        (state S.Store transaction.new.conn.now) (λ _. ⊥) }
    ensures kept { Keeps (state S.Store transaction.old.conn.now)
        (state S.Store transaction.new.conn.now) }
    ensures dropped { HasCleanDisk (state S.Store transaction.new.conn.now)
        → IsTrue (state S.Store transaction.old.conn.now).in_transaction
        → OnOk result (DropsIndexes own.bared (state S.Store transaction.old.conn.now)
        (state S.Store transaction.new.conn.now)) }
{
    drop_node_indexes(transaction)?;
    drop_principal_indexes(transaction)?;
    drop_last_indexes(transaction)
}

/// Takes the indexes that only make look-ups fast away, whichever are there, and a table `reach` of any columns, with
/// its indexes, where one stands behind all other tables.
pub fn drop_derived<S: Alter>(transaction: &mut Transaction<'_, S>) -> Result<(), Error>
    ensures same_reference { transaction.new.conn.ghost_name ≡ transaction.old.conn.ghost_name }
    ensures survives { Survives (state S.Store transaction.old.conn.now)
        (state S.Store transaction.new.conn.now) (λ _. ⊥) }
    ensures kept { Keeps (state S.Store transaction.old.conn.now)
        (state S.Store transaction.new.conn.now) }
    ensures dropped { HasCleanDisk (state S.Store transaction.new.conn.now)
        → IsTrue (state S.Store transaction.old.conn.now).in_transaction
        → OnOk result (DropsDerived (state S.Store transaction.old.conn.now)
        (state S.Store transaction.new.conn.now)) }
{
    drop_indexes(transaction)?;
    run(transaction, "DROP TABLE IF EXISTS reach")
}

/// Takes the table of entries of the former order away, with its key: the tables are then those of version 1.
pub fn drop_former_entries<S: Alter>(transaction: &mut Transaction<'_, S>) -> Result<(), Error>
    ensures same_reference { transaction.new.conn.ghost_name ≡ transaction.old.conn.ghost_name }
    ensures survives { Survives (state S.Store transaction.old.conn.now)
        (state S.Store transaction.new.conn.now) (λ _. ⊥) }
    ensures kept { Keeps (state S.Store transaction.old.conn.now)
        (state S.Store transaction.new.conn.now) }
    ensures dropped { HasCleanDisk (state S.Store transaction.new.conn.now)
        → IsTrue (state S.Store transaction.old.conn.now).in_transaction
        → OnOk result (DropsFormer (state S.Store transaction.old.conn.now)
        (state S.Store transaction.new.conn.now)) }
{
    run(transaction, "DROP TABLE ace2")
}
