//! Whether rows are members of groups.

ghost use Rattle.std.specs.Prelude.{◌≡◌, ◌↔◌, IsTrue};
ghost use Rattle.std.specs.List.{AllByRecursion};
ghost use Rattle.book_tables_opening.specs.Opening.{IsMemberRow};

use crate::directories::{Directory, text_at};
use crate::principal_tests::{has_group, has_principal};
use sqlite::Row;

/// Whether the row has the paths of a group and of a person or a group that are there.
fn is_member(directory: &Directory, row: &Row) -> bool
    ensures { IsTrue result ↔ IsMemberRow directory.now row.now }
{
    let (Some(group), Some(member)) = (text_at(row, 0), text_at(row, 1)) else {
        return false;
    };
    has_group(directory, group) && has_principal(directory, member)
}

/// Whether each row of `member` has the path of a group that is there, and of a person or a group that is there.
pub(crate) fn are_members(directory: &Directory, rows: &[Row]) -> bool
    ensures { IsTrue result ↔ AllByRecursion (IsMemberRow directory.now) rows.now }
{
    for row in rows {
        if !is_member(directory, row) {
            return false;
        }
    }
    true
}
