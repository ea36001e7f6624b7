//! The groups that chains of members lead to: the table `reach`, which holds them whole.

ghost use Rattle.std.specs.Prelude.{◌≡◌, IfOk, List, ℕ, map};
ghost use Rattle.sqlite.specs.Held.{state};
ghost use Rattle.sqlite.specs.State.{HasCleanDisk, Survives};
ghost use Rattle.book_tables_rows.specs.Lists.{ShowsRows};
ghost use Rattle.book_tables_rows.specs.Reach as reach;
ghost use Rattle.book_tables_rows.specs.Reach.{pair_said};
ghost use Rattle.book_tables_rows.specs.Steps.{Advances, Keeps, Spares, Writes};
ghost use Rattle.book_tables_rows.specs.Writes as writes;

use crate::items::{Items, write_items};
use sqlite::{Alter, Error, Row, Transaction, params};

/// A row of `reach`: a group, and a principal that a chain of members leads to from it.
#[derive(Debug, Drop)]
pub struct ReachRow {
    /// The path of the group.
    pub group: String,
    /// The path of the principal.
    pub member: String,
}

/// The groups that `reach` keeps of the principal at a path, in some order: the path of each. One look-up by member.
pub fn reached_rows<S: Alter>(
    transaction: &mut Transaction<'_, S>,
    member: &str,
) -> Result<Vec<Row>, Error>
    ensures same_reference { transaction.new.conn.ghost_name ≡ transaction.old.conn.ghost_name }
    ensures survives { Survives (state S.Store transaction.old.conn.now)
        (state S.Store transaction.new.conn.now) (λ _. ⊥) }
    ensures kept { Keeps (state S.Store transaction.old.conn.now)
        (state S.Store transaction.new.conn.now) }
    ensures stays { Spares (state S.Store transaction.old.conn.now)
        (state S.Store transaction.new.conn.now) result }
    ensures shown { HasCleanDisk (state S.Store transaction.new.conn.now)
        → IfOk result (λ rows. ShowsRows (state S.Store transaction.old.conn.now)
        (reach.reached_of member.now) rows.items) }
{
    transaction.query_all("SELECT grp FROM reach WHERE member = ?1", params![member])
}

/// All rows of `reach`, in some order: the paths of group and member of each.
pub fn reach_rows<S: Alter>(transaction: &mut Transaction<'_, S>) -> Result<Vec<Row>, Error>
    ensures same_reference { transaction.new.conn.ghost_name ≡ transaction.old.conn.ghost_name }
    ensures survives { Survives (state S.Store transaction.old.conn.now)
        (state S.Store transaction.new.conn.now) (λ _. ⊥) }
    ensures kept { Keeps (state S.Store transaction.old.conn.now)
        (state S.Store transaction.new.conn.now) }
    ensures stays { Spares (state S.Store transaction.old.conn.now)
        (state S.Store transaction.new.conn.now) result }
    ensures shown { HasCleanDisk (state S.Store transaction.new.conn.now)
        → IfOk result (λ rows. ShowsRows
        (state S.Store transaction.old.conn.now) reach.reach_shown rows.items) }
{
    transaction.query_all("SELECT grp, member FROM reach", &[])
}

/// Takes out all rows of `reach`.
pub fn clear_reach<S: Alter>(transaction: &mut Transaction<'_, S>) -> Result<(), Error>
    ensures same_reference { transaction.new.conn.ghost_name ≡ transaction.old.conn.ghost_name }
    ensures survives { Survives (state S.Store transaction.old.conn.now)
        (state S.Store transaction.new.conn.now) (λ _. ⊥) }
    ensures kept { Keeps (state S.Store transaction.old.conn.now)
        (state S.Store transaction.new.conn.now) }
    ensures done { Writes (state S.Store transaction.old.conn.now)
        (state S.Store transaction.new.conn.now) result writes.clear_reach }
{
    transaction.execute("DELETE FROM reach", &[])?;
    Ok(())
}

/// Renews `reach`: takes out the rows of some pairs, and adds those of others.
pub fn renew_reach<S: Alter>(
    transaction: &mut Transaction<'_, S>,
    old: &[ReachRow],
    new: &[ReachRow],
) -> Result<(), Error>
    ensures same_reference { transaction.new.conn.ghost_name ≡ transaction.old.conn.ghost_name }
    ensures survives { Survives (state S.Store transaction.old.conn.now)
        (state S.Store transaction.new.conn.now) (λ _. ⊥) }
    ensures kept { Keeps (state S.Store transaction.old.conn.now)
        (state S.Store transaction.new.conn.now) }
    ensures done { Advances (state S.Store transaction.old.conn.now)
        (state S.Store transaction.new.conn.now) result
        (writes.renew_reach (map pair_said old.now) (map pair_said new.now)) }
{
    write_items(transaction, &Items::OldPairs(old))?;
    write_items(transaction, &Items::NewPairs(new))
}
