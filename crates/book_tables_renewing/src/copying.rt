//! The entries of version 1 are copied into the table of version 2.

ghost use Rattle.std.specs.Prelude.{◌≡◌, OnOk, IsTrue};
ghost use Rattle.sqlite.specs.Held.{state};
ghost use Rattle.sqlite.specs.State.{HasCleanDisk, Survives};
ghost use Rattle.book_tables_rows.specs.Steps.{Keeps};
ghost use Rattle.book_tables_renewing.specs.Renewal.{Copies};

use sqlite::{Alter, Error, Transaction};

/// Copies each entry with the number of its row, in order of these; where bit 0 is in its mask, which is `x-read-texts`,
/// bit 8 is put there too, which is `x-read-names`.
pub(crate) fn copy_entries<S: Alter>(transaction: &mut Transaction<'_, S>) -> Result<(), Error>
    ensures same_reference { transaction.new.conn.ghost_name ≡ transaction.old.conn.ghost_name }
    ensures survives { Survives (state S.Store transaction.old.conn.now)
        (state S.Store transaction.new.conn.now) (λ _. ⊥) }
    ensures kept { Keeps (state S.Store transaction.old.conn.now)
        (state S.Store transaction.new.conn.now) }
    ensures done { HasCleanDisk (state S.Store transaction.new.conn.now)
        → IsTrue (state S.Store transaction.old.conn.now).in_transaction
        → OnOk result (Copies (state S.Store transaction.old.conn.now)
        (state S.Store transaction.new.conn.now)) }
{
    transaction.execute(
        "INSERT INTO ace2 (rowid, node, protected, place, form, principal, invert, deny, mask) SELECT rowid, node, protected, place, form, principal, invert, deny, mask + 256 * (mask % 2) FROM ace ORDER BY rowid",
        &[],
    )?;
    Ok(())
}
