//! The rows that every store has.

ghost use Rattle.std.specs.Prelude.{◌≡◌, codes};
ghost use Rattle.sqlite.specs.Held.{state};
ghost use Rattle.sqlite.specs.State.{Survives};
ghost use Rattle.book_tables_rows.specs.Steps.{Keeps, Writes};
ghost use Rattle.book_tables_rows.specs.Writes as writes;
ghost use Rattle.book_tables_schema.specs.Founding as founding;

use book_tables_rows::insert_node;
use sqlite::{Alter, Error, Transaction, params};

/// The code of the kind of a home.
const HOME: u32 = 1;

/// The number of the root's row, which is the first.
const ROOT: i64 = 1;

/// Adds the row of `meta`: version 2 and epoch 0.
fn insert_meta<S: Alter>(transaction: &mut Transaction<'_, S>) -> Result<(), Error>
    ensures same_reference { transaction.new.conn.ghost_name ≡ transaction.old.conn.ghost_name }
    ensures survives { Survives (state S.Store transaction.old.conn.now)
        (state S.Store transaction.new.conn.now) (λ _. ⊥) }
    ensures kept { Keeps (state S.Store transaction.old.conn.now)
        (state S.Store transaction.new.conn.now) }
    ensures done { Writes (state S.Store transaction.old.conn.now)
        (state S.Store transaction.new.conn.now) result (writes.insert_meta 2 0) }
{
    transaction.execute(
        "INSERT INTO meta (version, epoch) VALUES (?1, ?2)",
        params![2i64, 0i64],
    )?;
    Ok(())
}

/// Adds the row of the root, which has no parent.
fn insert_root<S: Alter>(transaction: &mut Transaction<'_, S>) -> Result<(), Error>
    ensures same_reference { transaction.new.conn.ghost_name ≡ transaction.old.conn.ghost_name }
    ensures survives { Survives (state S.Store transaction.old.conn.now)
        (state S.Store transaction.new.conn.now) (λ _. ⊥) }
    ensures kept { Keeps (state S.Store transaction.old.conn.now)
        (state S.Store transaction.new.conn.now) }
    ensures done { Writes (state S.Store transaction.old.conn.now)
        (state S.Store transaction.new.conn.now) result founding.insert_root }
{
    transaction.execute(
        "INSERT INTO node (path, parent, kind, owner, label, text, number) VALUES (?1, ?2, ?3, ?4, ?5, ?6, ?7)",
        params!["/", None::<i64>, 0u32, None::<&str>, "", None::<&str>, 0i64],
    )?;
    Ok(())
}

/// Adds the rows of the three homes, each with the root as its parent.
fn insert_homes<S: Alter>(transaction: &mut Transaction<'_, S>) -> Result<(), Error>
    ensures same_reference { transaction.new.conn.ghost_name ≡ transaction.old.conn.ghost_name }
    ensures survives { Survives (state S.Store transaction.old.conn.now)
        (state S.Store transaction.new.conn.now) (λ _. ⊥) }
    ensures kept { Keeps (state S.Store transaction.old.conn.now)
        (state S.Store transaction.new.conn.now) }
    ensures done { Writes (state S.Store transaction.old.conn.now)
        (state S.Store transaction.new.conn.now) result founding.insert_homes }
{
    insert_node(transaction, "/people", ROOT, HOME, None, "", None, 0)?;
    insert_node(transaction, "/groups", ROOT, HOME, None, "", None, 0)?;
    insert_node(transaction, "/books", ROOT, HOME, None, "", None, 0)
}

/// Writes the first rows.
pub(crate) fn insert_first<S: Alter>(transaction: &mut Transaction<'_, S>) -> Result<(), Error>
    ensures same_reference { transaction.new.conn.ghost_name ≡ transaction.old.conn.ghost_name }
    ensures survives { Survives (state S.Store transaction.old.conn.now)
        (state S.Store transaction.new.conn.now) (λ _. ⊥) }
    ensures kept { Keeps (state S.Store transaction.old.conn.now)
        (state S.Store transaction.new.conn.now) }
    ensures done { Writes (state S.Store transaction.old.conn.now)
        (state S.Store transaction.new.conn.now) result founding.insert_first }
{
    insert_meta(transaction)?;
    insert_root(transaction)?;
    insert_homes(transaction)
}
