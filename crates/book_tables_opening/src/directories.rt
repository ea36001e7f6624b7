//! The rows of all nodes, found by path and by number.

ghost use Rattle.std.specs.Prelude.{◌≡◌, IfOk};
ghost use Rattle.std.specs.Option.{option_copied};
ghost use Rattle.sqlite.specs.Order.{column};
ghost use Rattle.book_tables_rows.specs.Nodes.{text_in};
ghost use Rattle.book_tables_opening.specs.Directories.{FindsPaths, FindsNumbers, first_shown_at, node_numbered, shown_with};

use sqlite::Row;
use sqlite::types::ValueRef;
use std::alloc::{AllocError, Global};
use std::collections::BTreeMap;
use std::marker::Model;

/// The text in a column, if it has one.
pub fn text_at(row: &Row, at: usize) -> Option<&[u8]>
    ensures { option_copied result ≡ text_in (column row.now at) }
{
    match row.get_ref(at) {
        Ok(ValueRef::Text(text)) => Some(text),
        _ => None,
    }
}

/// The places of rows by their paths, the first row of each path. An error is want of memory.
fn places_by_path(alloc: Global, rows: &[Row]) -> Result<BTreeMap<Vec<u8>, usize>, AllocError>
    ensures { IfOk result (FindsPaths rows.now) }
{
    let mut places = BTreeMap::new(alloc);
    let mut place = rows.len();
    while place > 0 {
        place -= 1;
        if let Some(path) = text_at(&rows[place], 1) {
            places.insert(Vec::from_slice(alloc, path)?, place)?;
        }
    }
    Ok(places)
}

/// The places of rows by their numbers, the first row of each number. An error is want of memory.
fn places_by_number(alloc: Global, rows: &[Row]) -> Result<BTreeMap<i64, usize>, AllocError>
    ensures { IfOk result (FindsNumbers rows.now) }
{
    let mut places = BTreeMap::new(alloc);
    let mut place = rows.len();
    while place > 0 {
        place -= 1;
        if let Ok(ValueRef::Int(number)) = rows[place].get_ref(0) {
            places.insert(number, place)?;
        }
    }
    Ok(places)
}

/// The rows of all nodes, as a whole read shows them, with their places by path and by number. A contract sees the
/// rows.
#[derive(Drop)]
pub struct Directory {
    rows: Vec<Row>,
    by_path: BTreeMap<Vec<u8>, usize>,
    by_number: BTreeMap<i64, usize>,
}

impl Model for Directory {
    ghost use Rattle.std.specs.Prelude.{List};
    ghost use Rattle.sqlite.specs.Order.{Row as Shown};
    ghost use Rattle.book_tables_opening.specs.Directories.{FindsPaths, FindsNumbers};

    ghost Value = { List Shown };

    ghost view = { λ d. d.rows.items };

    ghost invariant = { λ d. FindsPaths d.rows.items d.by_path × FindsNumbers d.rows.items d.by_number };
}

impl Directory {
    /// The directory of rows. An error is want of memory.
    pub fn new(alloc: Global, rows: Vec<Row>) -> Result<Directory, AllocError>
        ensures { IfOk result (λ directory. directory ≡ rows.items) }
    {
        let by_path = places_by_path(alloc, &rows)?;
        let by_number = places_by_number(alloc, &rows)?;
        Ok(Directory {
            rows,
            by_path,
            by_number,
        })
    }

    /// All rows.
    pub fn rows(&self) -> &[Row]
        ensures { result.now ≡ self.now }
    {
        &self.rows
    }

    /// The first row with a path. Takes no memory.
    pub fn at(&self, path: &[u8]) -> Option<&Row>
        ensures { option_copied result ≡ first_shown_at self.now path.now }
    {
        self.rows.get(*self.by_path.get(path)?)
    }

    /// The first row with a number. Takes no memory.
    pub fn numbered(&self, id: &i64) -> Option<&Row>
        ensures { option_copied result ≡ node_numbered self.now id.now }
    {
        self.rows.get(*self.by_number.get(id)?)
    }

    /// The row whose number stands in a column. Takes no memory.
    pub fn of(&self, row: &Row, at: usize) -> Option<&Row>
        ensures { option_copied result ≡ shown_with self.now (column row.now at) }
    {
        match row.get_ref(at) {
            Ok(ValueRef::Int(id)) => self.numbered(&id),
            _ => None,
        }
    }
}
