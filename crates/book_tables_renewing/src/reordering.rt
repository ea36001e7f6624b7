//! The tables of a store of version 2 in the former order become those of the present one.

ghost use Rattle.std.specs.Prelude.{◌≡◌, IfOk, OnOk, IsTrue};
ghost use Rattle.sqlite.specs.Held.{state};
ghost use Rattle.sqlite.specs.State.{HasCleanDisk, Survives};
ghost use Rattle.book_tables_rows.specs.Steps.{Keeps};
ghost use Rattle.book_tables_renewing.specs.Reordering.{CopiesBack, Moves, Restores, TellsReordered};

use crate::masks::first_masks;
use book_tables_schema::{drop_former_entries, empty_former, make_derived, make_second_table};
use sqlite::{Alter, Error, Transaction};

/// Copies each entry of the former order with the number of its row into `ace`, in order of these.
fn move_entries<S: Alter>(transaction: &mut Transaction<'_, S>) -> Result<(), Error>
    ensures same_reference { transaction.new.conn.ghost_name ≡ transaction.old.conn.ghost_name }
    ensures survives { Survives (state S.Store transaction.old.conn.now)
        (state S.Store transaction.new.conn.now) (λ _. ⊥) }
    ensures kept { Keeps (state S.Store transaction.old.conn.now)
        (state S.Store transaction.new.conn.now) }
    ensures done { HasCleanDisk (state S.Store transaction.new.conn.now)
        → IsTrue (state S.Store transaction.old.conn.now).in_transaction
        → OnOk result (Moves (state S.Store transaction.old.conn.now)
        (state S.Store transaction.new.conn.now)) }
{
    transaction.execute(
        "INSERT INTO ace (rowid, node, protected, place, form, principal, invert, deny, mask) SELECT rowid, node, protected, place, form, principal, invert, deny, mask FROM ace2 ORDER BY rowid",
        &[],
    )?;
    Ok(())
}

/// Copies each row of `ace` with its number into `ace2`, in order of these.
fn copy_back<S: Alter>(transaction: &mut Transaction<'_, S>) -> Result<(), Error>
    ensures same_reference { transaction.new.conn.ghost_name ≡ transaction.old.conn.ghost_name }
    ensures survives { Survives (state S.Store transaction.old.conn.now)
        (state S.Store transaction.new.conn.now) (λ _. ⊥) }
    ensures kept { Keeps (state S.Store transaction.old.conn.now)
        (state S.Store transaction.new.conn.now) }
    ensures done { HasCleanDisk (state S.Store transaction.new.conn.now)
        → IsTrue (state S.Store transaction.old.conn.now).in_transaction
        → OnOk result (CopiesBack (state S.Store transaction.old.conn.now)
        (state S.Store transaction.new.conn.now)) }
{
    transaction.execute(
        "INSERT INTO ace2 (rowid, node, protected, place, form, principal, invert, deny, mask) SELECT rowid, node, protected, place, form, principal, invert, deny, mask FROM ace ORDER BY rowid",
        &[],
    )?;
    Ok(())
}

/// Makes the tables and the indexes of version 2 beside those of version 1, and moves the rows of `ace` into `ace2`;
/// `reach` has no row.
fn restore_entries<S: Alter>(transaction: &mut Transaction<'_, S>) -> Result<(), Error>
    ensures same_reference { transaction.new.conn.ghost_name ≡ transaction.old.conn.ghost_name }
    ensures survives { Survives (state S.Store transaction.old.conn.now)
        (state S.Store transaction.new.conn.now) (λ _. ⊥) }
    ensures kept { Keeps (state S.Store transaction.old.conn.now)
        (state S.Store transaction.new.conn.now) }
    ensures done { HasCleanDisk (state S.Store transaction.new.conn.now)
        → IsTrue (state S.Store transaction.old.conn.now).in_transaction
        → OnOk result (Restores (state S.Store transaction.old.conn.now)
        (state S.Store transaction.new.conn.now)) }
{
    make_second_table(transaction)?;
    make_derived(transaction)?;
    copy_back(transaction)?;
    empty_former(transaction)
}

/// Makes the tables of version 2 in the former order, without `reach` and the indexes that only make look-ups fast, those
/// of the present order, with the same rows, and tells how many entries they have: they are moved into `ace` and, once
/// `ace2` is made anew, back. It tells none where `ace` has a row; nothing was changed then.
pub fn reorder<S: Alter>(transaction: &mut Transaction<'_, S>) -> Result<Option<usize>, Error>
    ensures same_reference { transaction.new.conn.ghost_name ≡ transaction.old.conn.ghost_name }
    ensures survives { Survives (state S.Store transaction.old.conn.now)
        (state S.Store transaction.new.conn.now) (λ _. ⊥) }
    ensures kept { Keeps (state S.Store transaction.old.conn.now)
        (state S.Store transaction.new.conn.now) }
    ensures told { HasCleanDisk (state S.Store transaction.new.conn.now)
        → IsTrue (state S.Store transaction.old.conn.now).in_transaction
        → IfOk result (λ count. TellsReordered (state S.Store transaction.old.conn.now)
        (state S.Store transaction.new.conn.now) count) }
{
    let former = first_masks(transaction)?;
    if !former.is_empty() {
        return Ok(None);
    }
    move_entries(transaction)?;
    drop_former_entries(transaction)?;
    let entries = first_masks(transaction)?;
    restore_entries(transaction)?;
    Ok(Some(entries.len()))
}
