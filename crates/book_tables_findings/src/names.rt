//! The names of rows.

ghost use Rattle.std.specs.Prelude.{◌≡◌, ◌++◌, IfOk, OnOk, map};
ghost use Rattle.std.specs.Fmt.{signed_decimal};
ghost use Rattle.sqlite.specs.Order.{column};
ghost use Rattle.book_tables_findings.specs.Names as names;

use book_office_values::Items;
use book_tables_opening::{int_at, text_at};
use itoa::Buffer;
use sqlite::Row;
use std::alloc::{AllocError, Global};

/// A byte that prints, and '?' in place of another.
fn plain(byte: u8) -> u8
    ensures { result ≡ names.plain byte }
{
    if byte >= 32 && byte < 127 { byte } else { b'?' }
}

/// Adds a text as it prints. An error is want of memory.
fn push_plain(name: &mut Vec<u8>, bytes: &[u8]) -> Result<(), AllocError>
    ensures { OnOk result (name.new.items ≡ name.old.items ++ map names.plain bytes.now) }
{
    for byte in bytes {
        name.push(plain(*byte))?;
    }
    Ok(())
}

/// Adds the text in a column as it prints, if it has one. An error is want of memory.
fn push_text(name: &mut Vec<u8>, row: &Row, at: usize) -> Result<(), AllocError>
    ensures { OnOk result (name.new.items ≡ name.old.items
        ++ names.plain_text (column row.now at)) }
{
    let bytes = match text_at(row, at) {
        Some(bytes) => bytes,
        None => b"",
    };
    push_plain(name, bytes)
}

/// Adds the whole number in a column, and 0 where there is none. An error is want of memory.
fn push_number(name: &mut Vec<u8>, row: &Row, at: usize) -> Result<(), AllocError>
    ensures { OnOk result (name.new.items ≡ name.old.items
        ++ names.number_text (column row.now at)) }
{
    let mut buffer = Buffer::new();
    let text = buffer.format(int_at(row, at));
    name.extend_from_slice(text.as_bytes())
}

/// The name of a row of `node`. An error is want of memory.
pub(crate) fn node_name(alloc: Global, row: &Row) -> Result<Items<u8>, AllocError>
    ensures { IfOk result (λ name. name ≡ names.node_name row.now) }
{
    let mut name = Vec::new(alloc);
    push_number(&mut name, row, 0)?;
    name.extend_from_slice(b" (")?;
    push_text(&mut name, row, 1)?;
    name.extend_from_slice(b")")?;
    Ok(Items::from_vec(name))
}

/// The name of a row of `ace2`. An error is want of memory.
pub(crate) fn entry_name(alloc: Global, row: &Row) -> Result<Items<u8>, AllocError>
    ensures { IfOk result (λ name. name ≡ names.entry_name row.now) }
{
    let mut name = Vec::from_slice(alloc, b"of node ")?;
    push_number(&mut name, row, 0)?;
    name.extend_from_slice(b", protected ")?;
    push_number(&mut name, row, 1)?;
    name.extend_from_slice(b", place ")?;
    push_number(&mut name, row, 2)?;
    Ok(Items::from_vec(name))
}

/// The name of a row of `member`. An error is want of memory.
pub(crate) fn member_name(alloc: Global, row: &Row) -> Result<Items<u8>, AllocError>
    ensures { IfOk result (λ name. name ≡ names.member_name row.now) }
{
    let mut name = Vec::new(alloc);
    push_text(&mut name, row, 0)?;
    name.extend_from_slice(b", ")?;
    push_text(&mut name, row, 1)?;
    Ok(Items::from_vec(name))
}

/// The name of a row of `gone`. An error is want of memory.
pub(crate) fn gone_row_name(alloc: Global, row: &Row) -> Result<Items<u8>, AllocError>
    ensures { IfOk result (λ name. name ≡ names.gone_row_name row.now) }
{
    let mut name = Vec::from_slice(alloc, b"of node ")?;
    push_number(&mut name, row, 0)?;
    name.extend_from_slice(b", ")?;
    push_text(&mut name, row, 1)?;
    Ok(Items::from_vec(name))
}
