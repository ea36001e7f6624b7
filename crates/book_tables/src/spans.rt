//! Whether nodes have no entries, by one look at the entries of the nodes in a span of numbers.

ghost use Rattle.std.specs.Prelude.{◌≡◌, ◌==◌, IfOk, length};
ghost use Rattle.sqlite.specs.Held.{state};
ghost use Rattle.sqlite.specs.State.{HasCleanDisk, Survives};
ghost use Rattle.book_tables_rows.specs.Steps.{Keeps, Spares};
ghost use Rattle.book_tables.specs.Spans.{AreWithin, ShowsNoneBetween, TellsNoEntries};

use crate::shares::int_at;
use sqlite::{Alter, Error, Row, Transaction, params};

/// So many nodes are few: a look-up of their entries costs no more than a look whether they have any.
const FEW: usize = 8;

/// The least and the greatest of the numbers that rows begin with.
fn span_of(rows: &[Row]) -> (i64, i64)
    ensures { AreWithin result.0 result.1 rows.now }
{
    let mut first = i64::MAX;
    let mut last = i64::MIN;
    'rows: for row in rows {
        let number = int_at(row, 0);
        first = first.min(number);
        last = last.max(number);
    }
    (first, last)
}

/// The node of one entry whose node has a number from the first to the last; no row where there is none. An index has
/// the entries in order of their nodes.
fn rows_between<S: Alter>(
    transaction: &mut Transaction<'_, S>,
    first: i64,
    last: i64,
) -> Result<Vec<Row>, Error>
    ensures same_reference { transaction.new.conn.ghost_name ≡ transaction.old.conn.ghost_name }
    ensures survives { Survives (state S.Store transaction.old.conn.now)
        (state S.Store transaction.new.conn.now) (λ _. ⊥) }
    ensures kept { Keeps (state S.Store transaction.old.conn.now)
        (state S.Store transaction.new.conn.now) }
    ensures stays { Spares (state S.Store transaction.old.conn.now)
        (state S.Store transaction.new.conn.now) result }
    ensures shown { HasCleanDisk (state S.Store transaction.new.conn.now)
        → IfOk result (λ rows. ShowsNoneBetween (state S.Store transaction.old.conn.now)
        first last (length rows.items == 0)) }
{
    transaction.query_all(
        "SELECT node FROM ace2 WHERE node >= ?1 AND node <= ?2 ORDER BY node LIMIT ?3",
        params![first, last, 1i64],
    )
}

fn is_none(rows: &[Row]) -> bool
    ensures { result ≡ (length rows.now == 0) }
{
    rows.is_empty()
}

/// Whether the node of no entry has a number from the first to the last.
fn none_between<S: Alter>(
    transaction: &mut Transaction<'_, S>,
    first: i64,
    last: i64,
) -> Result<bool, Error>
    ensures same_reference { transaction.new.conn.ghost_name ≡ transaction.old.conn.ghost_name }
    ensures survives { Survives (state S.Store transaction.old.conn.now)
        (state S.Store transaction.new.conn.now) (λ _. ⊥) }
    ensures kept { Keeps (state S.Store transaction.old.conn.now)
        (state S.Store transaction.new.conn.now) }
    ensures stays { Spares (state S.Store transaction.old.conn.now)
        (state S.Store transaction.new.conn.now) result }
    ensures shown { HasCleanDisk (state S.Store transaction.new.conn.now)
        → IfOk result (λ none. ShowsNoneBetween
        (state S.Store transaction.old.conn.now) first last none) }
{
    let found = rows_between(transaction, first, last)?;
    Ok(is_none(&found))
}

/// Whether it is told that none of the nodes whose rows are given has an entry. A row begins with its node's number. It is
/// told where no entry is of a node from the least of these numbers to the greatest, in one look; of few nodes it is not.
pub(crate) fn have_no_entries<S: Alter>(
    transaction: &mut Transaction<'_, S>,
    rows: &[Row],
) -> Result<bool, Error>
    ensures same_reference { transaction.new.conn.ghost_name ≡ transaction.old.conn.ghost_name }
    ensures survives { Survives (state S.Store transaction.old.conn.now)
        (state S.Store transaction.new.conn.now) (λ _. ⊥) }
    ensures kept { Keeps (state S.Store transaction.old.conn.now)
        (state S.Store transaction.new.conn.now) }
    ensures stays { Spares (state S.Store transaction.old.conn.now)
        (state S.Store transaction.new.conn.now) result }
    ensures told { HasCleanDisk (state S.Store transaction.new.conn.now)
        → IfOk result (λ none. TellsNoEntries
        (state S.Store transaction.old.conn.now) rows.now none) }
{
    if rows.len() <= FEW {
        return Ok(false);
    }
    let (first, last) = span_of(rows);
    none_between(transaction, first, last)
}
