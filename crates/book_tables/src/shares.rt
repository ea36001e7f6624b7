//! The lists of one child, among the entries of all children in order of the child's number.

ghost use Rattle.std.specs.Prelude.{◌≡◌, IfOk, filter, not, int_lt};
ghost use Rattle.sqlite.specs.Edit.{id_in};
ghost use Rattle.sqlite.specs.Order.{column};
ghost use Rattle.book_tables.specs.Shares as shares;
ghost use Rattle.book_tables.specs.Shares.{DoNotFall, list_among, node_in};

use crate::entries::entry_at;
use book_lists::Entry;
use book_office_values::Items;
use sqlite::types::ValueRef;
use sqlite::{Error, Row};
use std::alloc::Global;

/// The whole number in a column; 0 where there is none.
pub(crate) fn int_at(row: &Row, at: usize) -> i64
    ensures { result ≡ id_in (column row.now at) }
{
    match row.get_ref(at) {
        Ok(ValueRef::Int(number)) => number,
        _ => 0,
    }
}

fn is_below(row: &Row, node: i64) -> bool
    ensures { result ≡ int_lt (node_in row.now) node }
{
    int_at(row, 0) < node
}

fn is_up_to(row: &Row, node: i64) -> bool
    ensures { result ≡ not (int_lt node (node_in row.now)) }
{
    int_at(row, 0) <= node
}

/// The entries of the node with a number, among those of many in order of the node's number, found by two binary
/// searches.
pub(crate) fn entries_of_node(entries: &[Row], node: i64) -> &[Row]
    ensures { DoNotFall entries.now → result.now ≡ filter (shares.is_of node) entries.now }
{
    let start = entries.partition_point(|row| is_below(row, node));
    let rest = &entries[start..];
    let count = rest.partition_point(|row| is_up_to(row, node));
    &rest[..count]
}

/// Whether an entry is of the protected or of the own list.
fn is_listed(row: &Row, protected: bool) -> bool
    ensures { result ≡ shares.is_listed protected row.now }
{
    let list = int_at(row, 1);
    if protected { list == 1 } else { list == 0 }
}

/// The protected or the own list that the entries of one node tell: form, principal, invert, deny and mask stand behind
/// the node and the list. An error where one spells no entry.
pub(crate) fn list_told(
    alloc: Global,
    entries: &[Row],
    protected: bool,
) -> Result<Items<Entry>, Error>
    ensures { IfOk result (λ list. list ≡ list_among protected entries.now) }
{
    let mut list = Vec::new(alloc);
    for row in entries {
        if is_listed(row, protected) {
            list.push(entry_at(alloc, row, 2)?)?;
        }
    }
    Ok(Items::from_vec(list))
}
