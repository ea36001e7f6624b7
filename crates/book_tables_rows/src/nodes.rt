//! A node: its row and its entries.

ghost use Rattle.std.specs.Prelude.{◌≡◌, ◌<◌, ◌^◌, IfOk, option_map, slice_get, find};
ghost use Rattle.std.specs.Option.{option_copied};
ghost use Rattle.sqlite.specs.declared.types.Value.TheVariants.{Int};
ghost use Rattle.sqlite.specs.Held.{state};
ghost use Rattle.sqlite.specs.State.{HasCleanDisk, Survives};
ghost use Rattle.book_tables_rows.specs.Plans.{Unseen};
ghost use Rattle.book_tables_rows.specs.Nodes.{Finds, told, told_shown};
ghost use Rattle.book_tables_rows.specs.Writes as writes;
ghost use Rattle.book_tables_rows.specs.Steps.{Keeps, Spares, Writes};

use sqlite::{Alter, Error, Row, Transaction, params};

/// The code of the kind of a book.
pub(crate) const BOOK: u32 = 4;

/// The code of the kind of a card.
pub(crate) const CARD: u32 = 5;

/// The last change number, and the last epoch.
pub(crate) const LAST_NUMBER: u64 = 9_007_199_254_740_991;

/// A node as its row tells it, but for its path and its parent. The kinds are 0 the root, 1 a home, 2 a person, 3 a
/// group, 4 a book and 5 a card.
#[derive(Debug, Drop)]
pub struct FoundNode {
    /// The number of its row.
    pub id: i64,
    /// The code of its kind.
    pub kind: u32,
    /// The path of its owner.
    pub owner: Option<String>,
    /// Its label.
    pub label: String,
    /// Its text.
    pub text: Option<String>,
    /// Its change number.
    pub number: u64,
}

fn read_node(row: &Row) -> Result<FoundNode, Error>
    ensures { IfOk result (λ f. told f ≡ told_shown row.now) }
{
    let id = row.get(0)?;
    let kind = row.get(1)?;
    let owner = row.get(2)?;
    let label = row.get(3)?;
    let text = row.get(4)?;
    let number = row.get(5)?;
    Ok(FoundNode {
        id,
        kind,
        owner,
        label,
        text,
        number,
    })
}

fn first_node(rows: &[Row]) -> Result<Option<FoundNode>, Error>
    ensures { IfOk result (λ found. option_map told found ≡ option_map told_shown
        (slice_get rows.now 0)) }
{
    let Some(row) = rows.first() else {
        return Ok(None);
    };
    Ok(Some(read_node(row)?))
}

/// The rows of the node at a path: one, or none.
fn node_rows<S: Alter>(transaction: &mut Transaction<'_, S>, path: &str) -> Result<Vec<Row>, Error>
    ensures same_reference { transaction.new.conn.ghost_name ≡ transaction.old.conn.ghost_name }
    ensures survives { Unseen (state S.Store transaction.old.conn.now)
        (state S.Store transaction.new.conn.now) }
    ensures kept { Keeps (state S.Store transaction.old.conn.now)
        (state S.Store transaction.new.conn.now) }
    ensures stays { Spares (state S.Store transaction.old.conn.now)
        (state S.Store transaction.new.conn.now) result }
    ensures shown { HasCleanDisk (state S.Store transaction.new.conn.now)
        → IfOk result (λ rows. Finds (state S.Store transaction.old.conn.now) path.now
        (option_map told_shown (slice_get rows.items 0))) }
{
    transaction.query_all(
        "SELECT id, kind, owner, label, text, number FROM node WHERE path = ?1",
        params![path],
    )
}

/// Finds the node at a path; none where no row has it.
pub fn look_up<S: Alter>(
    transaction: &mut Transaction<'_, S>,
    path: &str,
) -> Result<Option<FoundNode>, Error>
    ensures same_reference { transaction.new.conn.ghost_name ≡ transaction.old.conn.ghost_name }
    ensures survives { Survives (state S.Store transaction.old.conn.now)
        (state S.Store transaction.new.conn.now) (λ _. ⊥) }
    ensures kept { Keeps (state S.Store transaction.old.conn.now)
        (state S.Store transaction.new.conn.now) }
    ensures stays { Spares (state S.Store transaction.old.conn.now)
        (state S.Store transaction.new.conn.now) result }
    ensures found { HasCleanDisk (state S.Store transaction.new.conn.now)
        → IfOk result (λ found. Finds (state S.Store transaction.old.conn.now) path.now
        (option_map told found)) }
{
    let rows = node_rows(transaction, path)?;
    first_node(&rows)
}

/// Adds the row of a node under the node with a number.
pub fn insert_node<'x, S: Alter>(
    transaction: &mut Transaction<'_, S>,
    path: &'x str,
    parent: i64,
    kind: u32,
    owner: Option<&'x str>,
    label: &'x str,
    text: Option<&'x str>,
    number: u64,
) -> Result<(), Error>
    requires { number < 2 ^ 53 }
    ensures same_reference { transaction.new.conn.ghost_name ≡ transaction.old.conn.ghost_name }
    ensures survives { Survives (state S.Store transaction.old.conn.now)
        (state S.Store transaction.new.conn.now) (λ _. ⊥) }
    ensures kept { Keeps (state S.Store transaction.old.conn.now)
        (state S.Store transaction.new.conn.now) }
    ensures done { Writes (state S.Store transaction.old.conn.now)
        (state S.Store transaction.new.conn.now) result
        (writes.insert_node path.now (Int parent) kind (option_copied owner.entry) label.now
        (option_copied text.entry) number) }
{
    transaction.execute(
        "INSERT INTO node (path, parent, kind, owner, label, text, number) VALUES (?1, ?2, ?3, ?4, ?5, ?6, ?7)",
        params![path, parent, kind, owner, label, text, number as i64],
    )?;
    Ok(())
}

/// Takes out the entries of the node with a number.
pub(crate) fn delete_entries<S: Alter>(
    transaction: &mut Transaction<'_, S>,
    node: i64,
) -> Result<(), Error>
    ensures same_reference { transaction.new.conn.ghost_name ≡ transaction.old.conn.ghost_name }
    ensures survives { Unseen (state S.Store transaction.old.conn.now)
        (state S.Store transaction.new.conn.now) }
    ensures kept { Keeps (state S.Store transaction.old.conn.now)
        (state S.Store transaction.new.conn.now) }
    ensures done { Writes (state S.Store transaction.old.conn.now)
        (state S.Store transaction.new.conn.now) result (writes.delete_entries (Int node)) }
{
    transaction.execute("DELETE FROM ace2 WHERE node = ?1", params![node])?;
    Ok(())
}
