//! Whether columns are those of the tables of a store.

ghost use Rattle.std.specs.Prelude.{◌≡◌, ◌↔◌, IsTrue};
ghost use Rattle.book_tables_rows.specs.Schema as wanted;
ghost use Rattle.book_tables_rows.specs.Schema.{strict_column};
ghost use Rattle.book_tables_schema.specs.Layout as layout;

use sqlite_schema::schema::{Column, Kind};
use sqlite_value::keys::Collation;
use sqlite_value::value::{Bytes, Value};

/// Whether a name is this one.
pub(crate) fn is_name(given: &Bytes, name: &[u8]) -> bool
    ensures { IsTrue result ↔ (given.now ≡ name.now) }
{
    given.as_slice() == name
}

fn is_column(column: &Column, name: &[u8], kind: Kind, not_null: bool) -> bool
    ensures { IsTrue result ↔ (column.now ≡ strict_column name.now kind not_null) }
{
    is_name(&column.name, name)
        && column.kind == kind
        && column.is_strict
        && column.not_null == not_null
        && matches!(column.default, Value::Null)
        && matches!(column.collation, Collation::Binary)
}

fn are_node_texts(columns: &[Column]) -> bool
    ensures { IsTrue result ↔ (columns.now ≡ layout.node_texts) }
{
    match columns {
        [label, text, number] => {
            is_column(label, b"label", Kind::Text, true)
                && is_column(text, b"text", Kind::Text, false)
                && is_column(number, b"number", Kind::Integer, true)
        }
        _ => false,
    }
}

fn are_node_content(columns: &[Column]) -> bool
    ensures { IsTrue result ↔ (columns.now ≡ layout.node_content) }
{
    match columns {
        [kind, owner, texts @ ..] => {
            is_column(kind, b"kind", Kind::Integer, true)
                && is_column(owner, b"owner", Kind::Text, false)
                && are_node_texts(texts)
        }
        _ => false,
    }
}

/// Whether the columns are those of `node`.
pub(crate) fn are_node_columns(columns: &[Column]) -> bool
    ensures { IsTrue result ↔ (columns.now ≡ wanted.node_columns) }
{
    match columns {
        [id, path, parent, content @ ..] => {
            is_column(id, b"id", Kind::Integer, false)
                && is_column(path, b"path", Kind::Text, true)
                && is_column(parent, b"parent", Kind::Integer, false)
                && are_node_content(content)
        }
        _ => false,
    }
}

fn are_ace_effect(columns: &[Column]) -> bool
    ensures { IsTrue result ↔ (columns.now ≡ layout.ace_effect) }
{
    match columns {
        [invert, deny, mask] => {
            is_column(invert, b"invert", Kind::Integer, true)
                && is_column(deny, b"deny", Kind::Integer, true)
                && is_column(mask, b"mask", Kind::Integer, true)
        }
        _ => false,
    }
}

fn are_ace_content(columns: &[Column]) -> bool
    ensures { IsTrue result ↔ (columns.now ≡ layout.ace_content) }
{
    match columns {
        [form, principal, effect @ ..] => {
            is_column(form, b"form", Kind::Integer, true)
                && is_column(principal, b"principal", Kind::Text, false)
                && are_ace_effect(effect)
        }
        _ => false,
    }
}

/// Whether the columns are those of `ace`.
pub(crate) fn are_ace_columns(columns: &[Column]) -> bool
    ensures { IsTrue result ↔ (columns.now ≡ wanted.ace_columns) }
{
    match columns {
        [node, protected, place, content @ ..] => {
            is_column(node, b"node", Kind::Integer, true)
                && is_column(protected, b"protected", Kind::Integer, true)
                && is_column(place, b"place", Kind::Integer, true)
                && are_ace_content(content)
        }
        _ => false,
    }
}

/// Whether the columns are those of `member`.
pub(crate) fn are_member_columns(columns: &[Column]) -> bool
    ensures { IsTrue result ↔ (columns.now ≡ wanted.member_columns) }
{
    match columns {
        [group, member] => {
            is_column(group, b"grp", Kind::Text, true)
                && is_column(member, b"member", Kind::Text, true)
        }
        _ => false,
    }
}

/// Whether the columns are those of `gone`.
pub(crate) fn are_gone_columns(columns: &[Column]) -> bool
    ensures { IsTrue result ↔ (columns.now ≡ wanted.gone_columns) }
{
    match columns {
        [book, name, number] => {
            is_column(book, b"book", Kind::Integer, true)
                && is_column(name, b"name", Kind::Text, true)
                && is_column(number, b"number", Kind::Integer, true)
        }
        _ => false,
    }
}

/// Whether the columns are those of `meta`.
pub(crate) fn are_meta_columns(columns: &[Column]) -> bool
    ensures { IsTrue result ↔ (columns.now ≡ wanted.meta_columns) }
{
    match columns {
        [version, epoch] => {
            is_column(version, b"version", Kind::Integer, true)
                && is_column(epoch, b"epoch", Kind::Integer, true)
        }
        _ => false,
    }
}
