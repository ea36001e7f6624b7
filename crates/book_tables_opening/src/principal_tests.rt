//! Whether persons and groups are there.

ghost use Rattle.std.specs.Prelude.{◌≡◌, ◌↔◌, ◌<◌, IsTrue};
ghost use Rattle.sqlite.specs.Order.{column};
ghost use Rattle.book_tables_rows.specs.Nodes.{text_in};
ghost use Rattle.book_tables_opening.specs.Directories as nodes;
ghost use Rattle.book_tables_opening.specs.Opening.{HasPrincipal, HasGroup, IsKnown};

use crate::directories::Directory;
use sqlite::Row;
use sqlite::types::ValueRef;

/// Whether the row of a node has the kind with a code.
pub fn is_of_kind(row: &Row, code: u8) -> bool
    requires { 0 < code }
    ensures { result ≡ nodes.is_of_kind code row.now }
{
    matches!(row.get_ref(3), Ok(ValueRef::Int(kind)) if kind == i64::from(code))
}

/// Whether a person or a group has the path.
pub fn has_principal(directory: &Directory, path: &[u8]) -> bool
    ensures { IsTrue result ↔ HasPrincipal directory.now path.now }
{
    match directory.at(path) {
        Some(row) => is_of_kind(row, 2) || is_of_kind(row, 3),
        None => false,
    }
}

/// Whether a group has the path.
pub fn has_group(directory: &Directory, path: &[u8]) -> bool
    ensures { IsTrue result ↔ HasGroup directory.now path.now }
{
    match directory.at(path) {
        Some(row) => is_of_kind(row, 3),
        None => false,
    }
}

/// Whether the principal that a column names is there, if it names one.
pub fn knows(directory: &Directory, row: &Row, at: usize) -> bool
    ensures { IsTrue result ↔ IsKnown directory.now (text_in (column row.now at)) }
{
    match row.get_ref(at) {
        Ok(ValueRef::Text(path)) => has_principal(directory, path),
        _ => true,
    }
}
