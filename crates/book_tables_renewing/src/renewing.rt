//! The steps of a renewal, one after another.

ghost use Rattle.std.specs.Prelude.{◌≡◌, IfOk, OnOk, IsTrue};
ghost use Rattle.sqlite.specs.Held.{state};
ghost use Rattle.sqlite.specs.State.{HasCleanDisk, Survives};
ghost use Rattle.book_tables_rows.specs.Steps.{Keeps};
ghost use Rattle.book_tables_renewing.specs.Renewal.{Retables, TellsRenewed};

use crate::copying::copy_entries;
use crate::masks::{are_first_masks, first_masks};
use crate::metas::renew_version;
use book_tables_schema::{empty_former, make_derived, make_second_table};
use sqlite::{Alter, Error, Transaction};

/// Makes the tables and the indexes of version 2, copies the entries, and empties the table that they were in; `reach`
/// has no row.
fn renew_tables<S: Alter>(transaction: &mut Transaction<'_, S>) -> Result<(), Error>
    ensures same_reference { transaction.new.conn.ghost_name ≡ transaction.old.conn.ghost_name }
    ensures survives { Survives (state S.Store transaction.old.conn.now)
        (state S.Store transaction.new.conn.now) (λ _. ⊥) }
    ensures kept { Keeps (state S.Store transaction.old.conn.now)
        (state S.Store transaction.new.conn.now) }
    ensures done { HasCleanDisk (state S.Store transaction.new.conn.now)
        → IsTrue (state S.Store transaction.old.conn.now).in_transaction
        → OnOk result (Retables (state S.Store transaction.old.conn.now)
        (state S.Store transaction.new.conn.now)) }
{
    make_second_table(transaction)?;
    make_derived(transaction)?;
    copy_entries(transaction)?;
    empty_former(transaction)
}

/// Makes the tables of version 1 those of version 2, and tells how many entries they have: each has bit 8 in its mask,
/// which is `x-read-names`, where it has bit 0, which was `read` and is `x-read-texts`. It tells none where a mask is
/// of more than the eight leaves of version 1, or `meta` has not one row with version 1; the transaction is then to be
/// undone.
pub fn renew<S: Alter>(transaction: &mut Transaction<'_, S>) -> Result<Option<usize>, Error>
    ensures same_reference { transaction.new.conn.ghost_name ≡ transaction.old.conn.ghost_name }
    ensures survives { Survives (state S.Store transaction.old.conn.now)
        (state S.Store transaction.new.conn.now) (λ _. ⊥) }
    ensures kept { Keeps (state S.Store transaction.old.conn.now)
        (state S.Store transaction.new.conn.now) }
    ensures told { HasCleanDisk (state S.Store transaction.new.conn.now)
        → IsTrue (state S.Store transaction.old.conn.now).in_transaction
        → IfOk result (λ count. TellsRenewed (state S.Store transaction.old.conn.now)
        (state S.Store transaction.new.conn.now) count) }
{
    let masks = first_masks(transaction)?;
    if !are_first_masks(&masks) {
        return Ok(None);
    }
    renew_tables(transaction)?;
    if !renew_version(transaction)? {
        return Ok(None);
    }
    Ok(Some(masks.len()))
}
