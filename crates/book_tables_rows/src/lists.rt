//! Lists of entries, children, members and changes.

ghost use Rattle.std.specs.Prelude.{◌≡◌, ◌<◌, ◌^◌, IfOk};
ghost use Rattle.sqlite.specs.Held.{state};
ghost use Rattle.sqlite.specs.State.{HasCleanDisk, Survives};
ghost use Rattle.book_tables_rows.specs.Lists.{ShowsRows, ShowsChildren, ShowsChildEntries, ShowsChangedEntries, ShowsEntriesAt, ShowsFirst, changed_number_place, removed_number_place, pairs_of, gone_after, changed_rows, limit_of};
ghost use Rattle.book_tables_rows.specs.Steps.{Keeps, Spares};

use sqlite::{Alter, Error, Row, Transaction, params};

/// The entries of the node at a path, its own list before its protected one, in order of their places; none where no
/// row has the path: the node's number, whether the list is the protected one, form, principal, invert, deny and mask
/// of each.
pub fn entry_rows_at<S: Alter>(
    transaction: &mut Transaction<'_, S>,
    path: &str,
) -> Result<Vec<Row>, Error>
    ensures same_reference { transaction.new.conn.ghost_name ≡ transaction.old.conn.ghost_name }
    ensures survives { Survives (state S.Store transaction.old.conn.now)
        (state S.Store transaction.new.conn.now) (λ _. ⊥) }
    ensures kept { Keeps (state S.Store transaction.old.conn.now)
        (state S.Store transaction.new.conn.now) }
    ensures stays { Spares (state S.Store transaction.old.conn.now)
        (state S.Store transaction.new.conn.now) result }
    ensures shown { HasCleanDisk (state S.Store transaction.new.conn.now)
        → IfOk result (λ rows. ShowsEntriesAt
        (state S.Store transaction.old.conn.now) path.now rows.items) }
{
    transaction.query_all(
        "SELECT ace2.node, protected, form, principal, invert, deny, mask FROM node, ace2 WHERE path = ?1 AND ace2.node = node.id ORDER BY ace2.node, protected, place",
        params![path],
    )
}

/// The children of the node with a number, in order of their paths: number of the row, path, kind, owner, label and
/// change number of each.
pub fn child_rows<S: Alter>(
    transaction: &mut Transaction<'_, S>,
    node: i64,
) -> Result<Vec<Row>, Error>
    ensures same_reference { transaction.new.conn.ghost_name ≡ transaction.old.conn.ghost_name }
    ensures survives { Survives (state S.Store transaction.old.conn.now)
        (state S.Store transaction.new.conn.now) (λ _. ⊥) }
    ensures kept { Keeps (state S.Store transaction.old.conn.now)
        (state S.Store transaction.new.conn.now) }
    ensures stays { Spares (state S.Store transaction.old.conn.now)
        (state S.Store transaction.new.conn.now) result }
    ensures shown { HasCleanDisk (state S.Store transaction.new.conn.now)
        → IfOk result (λ rows. ShowsChildren
        (state S.Store transaction.old.conn.now) node rows.items) }
{
    transaction.query_all(
        "SELECT id, path, kind, owner, label, number FROM node WHERE parent = ?1 ORDER BY path",
        params![node],
    )
}

/// The entries of all children of the node with a number, in order of the child's number, its own list before its
/// protected one, and of their places: the child's number, whether the list is the protected one, form, principal,
/// invert, deny and mask of each.
pub fn child_entry_rows<S: Alter>(
    transaction: &mut Transaction<'_, S>,
    node: i64,
) -> Result<Vec<Row>, Error>
    ensures same_reference { transaction.new.conn.ghost_name ≡ transaction.old.conn.ghost_name }
    ensures survives { Survives (state S.Store transaction.old.conn.now)
        (state S.Store transaction.new.conn.now) (λ _. ⊥) }
    ensures kept { Keeps (state S.Store transaction.old.conn.now)
        (state S.Store transaction.new.conn.now) }
    ensures stays { Spares (state S.Store transaction.old.conn.now)
        (state S.Store transaction.new.conn.now) result }
    ensures shown { HasCleanDisk (state S.Store transaction.new.conn.now)
        → IfOk result (λ rows. ShowsChildEntries
        (state S.Store transaction.old.conn.now) node rows.items) }
{
    transaction.query_all(
        "SELECT ace2.node, protected, form, principal, invert, deny, mask FROM node, ace2 WHERE parent = ?1 AND node.id = ace2.node ORDER BY ace2.node, protected, place",
        params![node],
    )
}

/// The entries of the children of the node with a number whose change numbers are above one number and at most another,
/// in the order and with the columns of `child_entry_rows`. An index has the children in order of change number, and one
/// the entries in order of the child, so the look-up rests on those children and their entries, whatever else stands
/// below the node.
pub fn changed_entry_rows<S: Alter>(
    transaction: &mut Transaction<'_, S>,
    node: i64,
    number: u64,
    last: u64,
) -> Result<Vec<Row>, Error>
    requires above { number < 2 ^ 53 }
    requires at_most { last < 2 ^ 53 }
    ensures same_reference { transaction.new.conn.ghost_name ≡ transaction.old.conn.ghost_name }
    ensures survives { Survives (state S.Store transaction.old.conn.now)
        (state S.Store transaction.new.conn.now) (λ _. ⊥) }
    ensures kept { Keeps (state S.Store transaction.old.conn.now)
        (state S.Store transaction.new.conn.now) }
    ensures stays { Spares (state S.Store transaction.old.conn.now)
        (state S.Store transaction.new.conn.now) result }
    ensures shown { HasCleanDisk (state S.Store transaction.new.conn.now)
        → IfOk result (λ rows. ShowsChangedEntries
        (state S.Store transaction.old.conn.now) node number last rows.items) }
{
    transaction.query_all(
        "SELECT ace2.node, protected, form, principal, invert, deny, mask FROM node, ace2 WHERE parent = ?1 AND number > ?2 AND number <= ?3 AND node.id = ace2.node ORDER BY ace2.node, protected, place",
        params![node, number as i64, last as i64],
    )
}

/// What `LIMIT` says for the first so many rows: less than 0 where no most is given, and all rows are wanted.
fn limit_of(at_most: Option<u32>) -> i64
    ensures { result ≡ limit_of at_most }
{
    match at_most {
        Some(most) => most as i64,
        None => -1,
    }
}

/// The children of the node with a number that have a change number above another, in order of change number, and the
/// first so many of them where a most is given: number of the row, path, owner, label, text and change number of each.
/// An index has them in this order, so the look-up ends with the last one that is answered.
pub fn changed_rows<S: Alter>(
    transaction: &mut Transaction<'_, S>,
    node: i64,
    number: u64,
    at_most: Option<u32>,
) -> Result<Vec<Row>, Error>
    requires { number < 2 ^ 53 }
    ensures same_reference { transaction.new.conn.ghost_name ≡ transaction.old.conn.ghost_name }
    ensures survives { Survives (state S.Store transaction.old.conn.now)
        (state S.Store transaction.new.conn.now) (λ _. ⊥) }
    ensures kept { Keeps (state S.Store transaction.old.conn.now)
        (state S.Store transaction.new.conn.now) }
    ensures stays { Spares (state S.Store transaction.old.conn.now)
        (state S.Store transaction.new.conn.now) result }
    ensures shown { HasCleanDisk (state S.Store transaction.new.conn.now)
        → IfOk result (λ rows. ShowsFirst
        (state S.Store transaction.old.conn.now) at_most changed_number_place
        (changed_rows node number) rows.items) }
{
    transaction.query_all(
        "SELECT id, path, owner, label, text, number FROM node WHERE parent = ?1 AND number > ?2 ORDER BY number LIMIT ?3",
        params![node, number as i64, limit_of(at_most)],
    )
}

/// The removed names of the book with a number that have a change number above another, in order of change number, and
/// the first so many of them where a most is given: name and change number of each. An index has them in this order.
pub fn gone_rows<S: Alter>(
    transaction: &mut Transaction<'_, S>,
    book: i64,
    number: u64,
    at_most: Option<u32>,
) -> Result<Vec<Row>, Error>
    requires { number < 2 ^ 53 }
    ensures same_reference { transaction.new.conn.ghost_name ≡ transaction.old.conn.ghost_name }
    ensures survives { Survives (state S.Store transaction.old.conn.now)
        (state S.Store transaction.new.conn.now) (λ _. ⊥) }
    ensures kept { Keeps (state S.Store transaction.old.conn.now)
        (state S.Store transaction.new.conn.now) }
    ensures stays { Spares (state S.Store transaction.old.conn.now)
        (state S.Store transaction.new.conn.now) result }
    ensures shown { HasCleanDisk (state S.Store transaction.new.conn.now)
        → IfOk result (λ rows. ShowsFirst
        (state S.Store transaction.old.conn.now) at_most removed_number_place
        (gone_after book number) rows.items) }
{
    transaction.query_all(
        "SELECT name, number FROM gone WHERE book = ?1 AND number > ?2 ORDER BY number LIMIT ?3",
        params![book, number as i64, limit_of(at_most)],
    )
}

/// The direct members of all groups, in some order: the paths of group and member of each pair.
pub fn member_rows<S: Alter>(transaction: &mut Transaction<'_, S>) -> Result<Vec<Row>, Error>
    ensures same_reference { transaction.new.conn.ghost_name ≡ transaction.old.conn.ghost_name }
    ensures survives { Survives (state S.Store transaction.old.conn.now)
        (state S.Store transaction.new.conn.now) (λ _. ⊥) }
    ensures kept { Keeps (state S.Store transaction.old.conn.now)
        (state S.Store transaction.new.conn.now) }
    ensures stays { Spares (state S.Store transaction.old.conn.now)
        (state S.Store transaction.new.conn.now) result }
    ensures shown { HasCleanDisk (state S.Store transaction.new.conn.now)
        → IfOk result (λ rows. ShowsRows
        (state S.Store transaction.old.conn.now) pairs_of rows.items) }
{
    transaction.query_all("SELECT grp, member FROM member", &[])
}
