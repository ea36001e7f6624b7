//! Whether rows tell version and epoch.

ghost use Rattle.std.specs.Prelude.{◌≡◌, ◌↔◌, IsTrue};
ghost use Rattle.book_tables_opening.specs.Opening.{IsMetaRows};
ghost use Rattle.book_tables_opening.specs.RowTests as tests;

use book_limits::LAST_NUMBER;
use sqlite::Row;
use sqlite::types::ValueRef;

/// Whether a row has two columns, version 2 and an epoch up to the last one.
fn is_meta(row: &Row) -> bool
    ensures { result ≡ tests.is_meta row.now }
{
    row.column_count() == 2
        && matches!(row.get_ref(0), Ok(ValueRef::Int(2)))
        && matches!(row.get_ref(1), Ok(ValueRef::Int(epoch)) if epoch >= 0 && epoch as u64 <= LAST_NUMBER)
}

/// Whether there is one row, with version 2 and an epoch up to the last one.
pub fn are_meta(rows: &[Row]) -> bool
    ensures { IsTrue result ↔ IsMetaRows rows.now }
{
    match rows {
        [row] => is_meta(row),
        _ => false,
    }
}
