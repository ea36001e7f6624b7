//! Tests on rows that reads of whole tables show.

ghost use Rattle.std.specs.Prelude.{◌≡◌, ◌&&◌};
ghost use Rattle.sqlite.specs.Order.{column};
ghost use Rattle.book_tables_opening.specs.RowTests as tests;
ghost use Rattle.book_tables_opening.specs.Shown.{shown_form, shown_principal};

use sqlite::Row;
use sqlite::types::ValueRef;

/// Whether the column is a natural number.
pub fn is_natural(row: &Row, at: usize) -> bool
    ensures { result ≡ tests.is_natural (column row.now at) }
{
    matches!(row.get_ref(at), Ok(ValueRef::Int(number)) if number >= 0)
}

/// Whether the column is 0 or 1.
fn is_flag(row: &Row, at: usize) -> bool
    ensures { result ≡ tests.is_value_below 2 (column row.now at) }
{
    matches!(row.get_ref(at), Ok(ValueRef::Int(number)) if number >= 0 && number < 2)
}

/// Whether the column is a set of the nine leaves.
fn is_mask(row: &Row, at: usize) -> bool
    ensures { result ≡ tests.is_value_below 512 (column row.now at) }
{
    matches!(row.get_ref(at), Ok(ValueRef::Int(number)) if number >= 0 && number < 512)
}

/// Whether the columns are the form of a path and its text.
fn names_path(row: &Row) -> bool
    ensures { result ≡ (tests.is_zero (shown_form row.now) && tests.is_text
        (shown_principal row.now)) }
{
    matches!(row.get_ref(3), Ok(ValueRef::Int(0)))
        && matches!(row.get_ref(4), Ok(ValueRef::Text(_)))
}

/// Whether the column is the form of a principal that is no path.
fn is_word(row: &Row) -> bool
    ensures { result ≡ tests.is_word (shown_form row.now) }
{
    matches!(row.get_ref(3), Ok(ValueRef::Int(number)) if number > 0 && number < 6)
}

/// Whether the column is NULL, or not there.
fn is_nothing(row: &Row) -> bool
    ensures { result ≡ tests.is_nothing (shown_principal row.now) }
{
    match row.get_ref(4) {
        Ok(value) => matches!(value, ValueRef::Null),
        Err(_) => true,
    }
}

/// Whether the columns are another form of a principal, and NULL.
fn names_word(row: &Row) -> bool
    ensures { result ≡ (tests.is_word (shown_form row.now) && tests.is_nothing
        (shown_principal row.now)) }
{
    is_word(row) && is_nothing(row)
}

fn is_spelled(row: &Row) -> bool
    ensures { result ≡ tests.is_spelled row.now }
{
    (names_path(row) || names_word(row)) && is_flag(row, 5) && is_flag(row, 6) && is_mask(row, 7)
}

pub(crate) fn is_entry(row: &Row) -> bool
    ensures { result ≡ tests.is_entry_row row.now }
{
    is_flag(row, 1) && is_natural(row, 2) && is_spelled(row)
}
