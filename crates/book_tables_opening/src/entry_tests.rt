//! Whether rows are entries of nodes.

ghost use Rattle.std.specs.Prelude.{◌≡◌, ◌↔◌, IsTrue};
ghost use Rattle.std.specs.List.{AllByRecursion};
ghost use Rattle.book_tables.specs.Rows.{flag_in};
ghost use Rattle.book_tables_opening.specs.Opening.{IsEntryRow, IsPlaced};
ghost use Rattle.book_tables_opening.specs.RowTests.{IsSpelledEntry};
ghost use Rattle.book_tables_opening.specs.Shown.{shown_protected};

use crate::directories::Directory;
use crate::principal_tests::{is_of_kind, knows};
use crate::spelling_tests::is_entry;
use sqlite::Row;
use sqlite::types::ValueRef;

/// Whether the entry is in the protected list.
pub fn is_protected(row: &Row) -> bool
    ensures { result ≡ flag_in (shown_protected row.now) }
{
    matches!(row.get_ref(1), Ok(ValueRef::Int(1)))
}

/// Whether the node of the entry is there, and the entry none of a card's protected ones.
fn is_placed(directory: &Directory, row: &Row) -> bool
    ensures { IsTrue result ↔ IsPlaced directory.now row.now }
{
    match directory.of(row, 0) {
        Some(node) => !is_of_kind(node, 5) || !is_protected(row),
        None => false,
    }
}

/// Whether the entry is in one of the two lists of its node, and is spelled in the one way.
#[tactic(auto, using(crate::proofs::OneSpelling::entry_is, crate::proofs::OneSpelling::entry_passes))]
pub fn is_spelled_entry(row: &Row) -> bool
    ensures { IsTrue result ↔ IsSpelledEntry row.now }
{
    is_entry(row)
}

/// Whether the row is an entry of a node that is there.
fn is_entry_row(directory: &Directory, row: &Row) -> bool
    ensures { IsTrue result ↔ IsEntryRow directory.now row.now }
{
    if !is_spelled_entry(row) {
        return false;
    }
    if !is_placed(directory, row) {
        return false;
    }
    knows(directory, row, 4)
}

/// Whether each row of `ace` is an entry of a node that is there, spelled in the one way, of none of a card's protected
/// ones, and names no principal but one that is there.
pub(crate) fn are_entry_rows(directory: &Directory, rows: &[Row]) -> bool
    ensures { IsTrue result ↔ AllByRecursion (IsEntryRow directory.now) rows.now }
{
    for row in rows {
        if !is_entry_row(directory, row) {
            return false;
        }
    }
    true
}
