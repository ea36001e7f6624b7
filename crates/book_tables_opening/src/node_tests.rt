//! Whether rows are those of nodes.

ghost use Rattle.std.specs.Prelude.{◌≡◌, ◌↔◌, IsTrue, IfOk, IfSome, IfNone, [], pos, unwrap_or};
ghost use Rattle.std.specs.List.{AllByRecursion};
ghost use Rattle.sqlite.specs.declared.types.Value.TheVariants.{Null, Int, Text};
ghost use Rattle.sqlite.specs.Order.{column};
ghost use Rattle.book_tables_rows.specs.Nodes.{number_in, text_in};
ghost use Rattle.book_office_values.specs.Paths.{IsPath, SpellsPath, SpellsNone, kind_code, path_text, parent_of};
ghost use Rattle.book_office_values.specs.Texts.{IsLabel};
ghost use Rattle.book_tables_opening.specs.Opening.{IsTextlessRow, IsBelow, HasNumberOf, HasNoPath, StandsAt, HasContent, IsChangeNumber, HasHomes};
ghost use Rattle.book_tables_opening.specs.Shown.{shown_kind, shown_label, shown_number, shown_parent, shown_path};

use crate::directories::{Directory, text_at};
use crate::keys::int_at;
use crate::principal_tests::knows;
use crate::spelling_tests::is_natural;
use book_limits::{LAST_NUMBER, MAX_LABEL_BYTES};
use book_office_values::{Kind, Path, PathFault};
use sqlite::Row;
use sqlite::types::ValueRef;
use std::alloc::{AllocError, Global};

/// The path that a text spells, with or without one slash more at its end.
fn path_of(alloc: Global, text: &str) -> Result<Option<Path>, AllocError>
    ensures found { IfOk result (λ found. IfSome found (λ p. IsPath p × SpellsPath text.now p)) }
    ensures none { IfOk result (λ found. IfNone found (SpellsNone text.now)) }
{
    match Path::parse(alloc, text) {
        Ok(path) => Ok(Some(path)),
        Err(PathFault::BadPath) => Ok(None),
        Err(PathFault::Memory) => Err(AllocError),
    }
}

/// Whether bytes are the text of a path. An error is want of memory.
fn is_text(alloc: Global, path: &Path, bytes: &[u8]) -> Result<bool, AllocError>
    ensures { IfOk result (λ is. IsTrue is ↔ (bytes.now ≡ path_text path.now)) }
{
    let text = path.text(alloc)?;
    Ok(text.as_bytes() == bytes)
}

#[tactic(auto, using(crate::proofs::PathRows::not_utf8, crate::proofs::PathRows::slashed))]
/// The path whose text stands in a row, if it is one's. An error is want of memory.
pub fn path_at(alloc: Global, row: &Row) -> Result<Option<Path>, AllocError>
    ensures found { IfOk result (λ found. IfSome found
        (λ p. IsPath p × (shown_path row.now ≡ Text (path_text p)))) }
    ensures none { IfOk result (λ found. IfNone found (HasNoPath (shown_path row.now))) }
{
    let Some(bytes) = text_at(row, 1) else {
        return Ok(None);
    };
    let Ok(text) = std::str::from_utf8(bytes) else {
        return Ok(None);
    };
    let Some(path) = path_of(alloc, text)? else {
        return Ok(None);
    };
    if !is_text(alloc, &path, bytes)? {
        return Ok(None);
    }
    Ok(Some(path))
}

/// Whether the column is NULL, or not there.
fn is_null(row: &Row, at: usize) -> bool
    ensures { IsTrue result ↔ (column row.now at ≡ Null) }
{
    match row.get_ref(at) {
        Ok(value) => matches!(value, ValueRef::Null),
        Err(_) => true,
    }
}

/// Whether a column has the number of the row with a path.
fn has_number_of(directory: &Directory, path: &[u8], row: &Row, at: usize) -> bool
    ensures { IsTrue result ↔ HasNumberOf directory.now path.now (column row.now at) }
{
    match (directory.at(path), row.get_ref(at)) {
        (Some(node), Ok(ValueRef::Int(number))) => int_at(node, 0) == number,
        _ => false,
    }
}

/// Whether the row stands under the row of the path above; the root under none. An error is want of memory.
pub fn is_below(
    alloc: Global,
    directory: &Directory,
    path: &Path,
    row: &Row,
) -> Result<bool, AllocError>
    ensures { IfOk result (λ is. IsTrue is
        ↔ IsBelow directory.now (parent_of path.now) (shown_parent row.now)) }
{
    match path.parent()? {
        None => Ok(is_null(row, 2)),
        Some(above) => {
            let text = above.text(alloc)?;
            Ok(has_number_of(directory, text.as_bytes(), row, 2))
        }
    }
}

/// The code of a kind.
fn code_of(kind: Kind) -> u8
    ensures { result ≡ kind_code kind }
{
    match kind {
        Kind::Root => 0,
        Kind::Home => 1,
        Kind::Person => 2,
        Kind::Group => 3,
        Kind::Book => 4,
        Kind::Card => 5,
    }
}

/// Whether the row has the code of a kind.
pub fn has_kind(kind: Kind, row: &Row) -> bool
    ensures { IsTrue result ↔ (shown_kind row.now ≡ Int (pos (kind_code kind))) }
{
    let code = i64::from(code_of(kind));
    matches!(row.get_ref(3), Ok(ValueRef::Int(found)) if found == code)
}

/// Whether the row stands where a path does. An error is want of memory.
fn stands_at(
    alloc: Global,
    directory: &Directory,
    path: &Path,
    row: &Row,
) -> Result<bool, AllocError>
    ensures { IfOk result (λ stands. IsTrue stands ↔ StandsAt directory.now path.now row.now) }
{
    if !is_below(alloc, directory, path, row)? {
        return Ok(false);
    }
    Ok(has_kind(path.kind(), row))
}

/// Whether bytes are a label: UTF-8, of no more bytes than a label may have.
fn is_label(label: &[u8]) -> bool
    ensures { IsTrue result ↔ IsLabel label.now }
{
    label.len() <= MAX_LABEL_BYTES && std::str::from_utf8(label).is_ok()
}

/// Whether the row's label is one; without a text it is empty.
pub fn has_label(row: &Row) -> bool
    ensures { IsTrue result ↔ IsLabel (unwrap_or (text_in (shown_label row.now)) []) }
{
    match text_at(row, 5) {
        Some(label) => is_label(label),
        None => is_label(b""),
    }
}

/// The change number of a row; 0 where it has none.
fn number_of(row: &Row) -> u64
    ensures { result ≡ number_in (shown_number row.now) }
{
    match row.get_ref(7) {
        Ok(ValueRef::Int(number)) if number >= 0 => number as u64,
        _ => 0,
    }
}

/// Whether the change number is one of the kind.
pub fn has_change_number(kind: Kind, row: &Row) -> bool
    ensures { IsTrue result ↔ IsChangeNumber kind (number_in (shown_number row.now)) }
{
    match kind {
        Kind::Root | Kind::Home | Kind::Person | Kind::Group => number_of(row) == 0,
        Kind::Book => number_of(row) <= LAST_NUMBER,
        Kind::Card => true,
    }
}

/// Whether the change number is a natural number.
pub fn has_natural(row: &Row) -> bool
    ensures { IsTrue result ↔ (shown_number row.now ≡ Int
        (pos (number_in (shown_number row.now)))) }
{
    is_natural(row, 7)
}

/// Whether owner, label and change number are those of a kind.
fn has_content(directory: &Directory, kind: Kind, row: &Row) -> bool
    ensures { IsTrue result ↔ HasContent directory.now kind row.now }
{
    if !knows(directory, row, 4) || !has_label(row) {
        return false;
    }
    has_natural(row) && has_change_number(kind, row)
}

#[tactic(auto, using(crate::proofs::PathRows::node_row, crate::proofs::PathRows::stands, crate::proofs::PathRows::says))]
/// Whether the row is that of a node, but for its text. An error is want of memory.
fn is_node(alloc: Global, directory: &Directory, row: &Row) -> Result<bool, AllocError>
    ensures { IfOk result (λ is. IsTrue is ↔ IsTextlessRow directory.now row.now) }
{
    let Some(path) = path_at(alloc, row)? else {
        return Ok(false);
    };
    if !stands_at(alloc, directory, &path, row)? {
        return Ok(false);
    }
    Ok(has_content(directory, path.kind(), row))
}

/// Whether each row is that of a node, but for its text: it stands at a path under the row of the path above, has the
/// path's kind, an owner that is there, a label, which is UTF-8 and within the limit, and a change number where its kind
/// has one. An error is want of memory.
pub(crate) fn are_nodes(alloc: Global, directory: &Directory) -> Result<bool, AllocError>
    ensures { IfOk result (λ are. IsTrue are
        ↔ AllByRecursion (IsTextlessRow directory.now) directory.now) }
{
    let rows = directory.rows();
    for row in rows {
        if !is_node(alloc, directory, row)? {
            return Ok(false);
        }
    }
    Ok(true)
}

/// Whether the root and the three homes are there.
pub(crate) fn has_homes(directory: &Directory) -> bool
    ensures { IsTrue result ↔ HasHomes directory.now }
{
    directory.at(b"/").is_some()
        && directory.at(b"/people").is_some()
        && directory.at(b"/groups").is_some()
        && directory.at(b"/books").is_some()
}
