//! Whether a schema is that of a store.

ghost use Rattle.std.specs.Prelude.{◌≡◌, ◌↔◌, ◌∷◌, [], IsTrue};
ghost use Rattle.sqlite_value.specs.Keys.{plain};
ghost use Rattle.book_tables_rows.specs.Schema as wanted;
ghost use Rattle.book_tables_rows.specs.Schema.{plain_table, to_node, to_path, unique_index, plain_index, book_schema};
ghost use Rattle.book_tables_schema.specs.Layout as layout;

use crate::columns::{
    are_ace_columns, are_gone_columns, are_member_columns, are_meta_columns, are_node_columns,
    is_name,
};
use sqlite_items::Items;
use sqlite_schema::code::Terms;
use sqlite_schema::schema::{Action, Index, Reference, Schema, Table};
use sqlite_value::keys::Order;
use sqlite_value::value::Bytes;

/// Which tables a store has.
#[derive(Clone, Copy, Debug, PartialEq, Eq)]
pub enum Generation {
    /// Those of version 1.
    First,
    /// Those of version 2 in the former order: `ace2` stands behind the indexes of version 1.
    Former,
    /// Those of version 2: all tables stand before the indexes that only make look-ups fast.
    Second,
}

// ---- references, keys and rules

fn are_places(given: &Items<usize>, places: &[usize]) -> bool
    ensures { IsTrue result ↔ (given.now ≡ places.now) }
{
    given.as_slice() == places
}

fn is_one_key(keys: &[Items<usize>], places: &[usize]) -> bool
    ensures { IsTrue result ↔ (keys.now ≡ places.now ∷ []) }
{
    match keys {
        [key] => are_places(key, places),
        _ => false,
    }
}

fn is_plain_order(orders: &[Order]) -> bool
    ensures { IsTrue result ↔ (orders.now ≡ plain ∷ []) }
{
    match orders {
        [order] => order.digits == 0,
        _ => false,
    }
}

fn is_one_name(names: &[Bytes], name: &[u8]) -> bool
    ensures { IsTrue result ↔ (names.now ≡ name.now ∷ []) }
{
    match names {
        [given] => is_name(given, name),
        _ => false,
    }
}

/// Whether it is a reference to the number of a node.
fn is_to_node(reference: &Reference, place: usize) -> bool
    ensures { IsTrue result ↔ (reference.now ≡ to_node place) }
{
    are_places(&reference.columns, &[place])
        && is_name(&reference.parent, b"node")
        && reference.parent_columns.as_slice().is_empty()
        && matches!(reference.on_delete, Action::Cascade)
        && matches!(reference.on_update, Action::NoAction)
        && !reference.is_deferred
}

/// Whether it is a reference to the path of a node.
fn is_to_path(reference: &Reference, place: usize) -> bool
    ensures { IsTrue result ↔ (reference.now ≡ to_path place) }
{
    are_places(&reference.columns, &[place])
        && is_name(&reference.parent, b"node")
        && is_one_name(reference.parent_columns.as_slice(), b"path")
        && matches!(reference.on_delete, Action::NoAction)
        && matches!(reference.on_update, Action::NoAction)
        && !reference.is_deferred
}

fn are_to_node_and_path(references: &[Reference], node: usize, path: usize) -> bool
    ensures { IsTrue result ↔ (references.now ≡ to_node node ∷ to_path path ∷ []) }
{
    match references {
        [first, second] => is_to_node(first, node) && is_to_path(second, path),
        _ => false,
    }
}

fn are_to_paths(references: &[Reference], group: usize, member: usize) -> bool
    ensures { IsTrue result ↔ (references.now ≡ to_path group ∷ to_path member ∷ []) }
{
    match references {
        [first, second] => is_to_path(first, group) && is_to_path(second, member),
        _ => false,
    }
}

fn is_one_to_node(references: &[Reference], place: usize) -> bool
    ensures { IsTrue result ↔ (references.now ≡ to_node place ∷ []) }
{
    match references {
        [reference] => is_to_node(reference, place),
        _ => false,
    }
}

fn has_no_terms(terms: &Terms) -> bool
    ensures { IsTrue result ↔ (terms.now ≡ []) }
{
    terms.roots.as_slice().is_empty()
}

/// Whether a table has no checks and no computed defaults.
fn is_plain(table: &Table) -> bool
    ensures { IsTrue result ↔ (table.now ≡
        plain_table table.now.name table.now.tree table.now.columns table.now.key table.now.primary
        table.now.uniques table.now.orders table.now.references) }
{
    has_no_terms(&table.checks)
        && table.computed.as_slice().is_empty()
        && table.stamps.places.as_slice().is_empty()
        && has_no_terms(&table.stamps.terms)
        && table.stamps.formats.as_slice().is_empty()
        && !table.is_counted
}

// ---- the tables

fn is_node_table(table: &Table) -> bool
    ensures { IsTrue result ↔ (table.now ≡ wanted.node_table) }
{
    is_plain(table)
        && is_name(&table.name, b"node")
        && table.tree == 0
        && are_node_columns(table.columns.as_slice())
        && matches!(table.key, Some(0))
        && are_places(&table.primary, &[0])
        && is_one_key(table.uniques.as_slice(), &[2])
        && is_plain_order(table.orders.as_slice())
        && are_to_node_and_path(table.references.as_slice(), 3, 5)
}

fn is_ace_table(table: &Table) -> bool
    ensures { IsTrue result ↔ (table.now ≡ wanted.ace_table) }
{
    is_plain(table)
        && is_name(&table.name, b"ace")
        && table.tree == 2
        && are_ace_columns(table.columns.as_slice())
        && table.key.is_none()
        && are_places(&table.primary, &[1, 2, 3])
        && is_one_key(table.uniques.as_slice(), &[1, 2, 3])
        && is_plain_order(table.orders.as_slice())
        && are_to_node_and_path(table.references.as_slice(), 1, 5)
}

fn is_member_table(table: &Table) -> bool
    ensures { IsTrue result ↔ (table.now ≡ wanted.member_table) }
{
    is_plain(table)
        && is_name(&table.name, b"member")
        && table.tree == 4
        && are_member_columns(table.columns.as_slice())
        && table.key.is_none()
        && are_places(&table.primary, &[1, 2])
        && is_one_key(table.uniques.as_slice(), &[1, 2])
        && is_plain_order(table.orders.as_slice())
        && are_to_paths(table.references.as_slice(), 1, 2)
}

fn is_gone_table(table: &Table) -> bool
    ensures { IsTrue result ↔ (table.now ≡ wanted.gone_table) }
{
    is_plain(table)
        && is_name(&table.name, b"gone")
        && table.tree == 6
        && are_gone_columns(table.columns.as_slice())
        && table.key.is_none()
        && are_places(&table.primary, &[1, 2])
        && is_one_key(table.uniques.as_slice(), &[1, 2])
        && is_plain_order(table.orders.as_slice())
        && is_one_to_node(table.references.as_slice(), 1)
}

fn is_meta_table(table: &Table) -> bool
    ensures { IsTrue result ↔ (table.now ≡ wanted.meta_table) }
{
    is_plain(table)
        && is_name(&table.name, b"meta")
        && table.tree == 8
        && are_meta_columns(table.columns.as_slice())
        && table.key.is_none()
        && table.primary.as_slice().is_empty()
        && table.uniques.as_slice().is_empty()
        && table.orders.as_slice().is_empty()
        && table.references.as_slice().is_empty()
}

fn is_entry_table(table: &Table, tree: u32) -> bool
    ensures { IsTrue result ↔ (table.now ≡ record wanted.ace2_table { tree = tree }) }
{
    is_plain(table)
        && is_name(&table.name, b"ace2")
        && table.tree == tree
        && are_ace_columns(table.columns.as_slice())
        && table.key.is_none()
        && are_places(&table.primary, &[1, 2, 3])
        && is_one_key(table.uniques.as_slice(), &[1, 2, 3])
        && is_plain_order(table.orders.as_slice())
        && are_to_node_and_path(table.references.as_slice(), 1, 5)
}

fn are_more_tables(tables: &[Table], generation: Generation) -> bool
    ensures { IsTrue result ↔ (tables.now ≡ layout.more_tables generation) }
{
    match (tables, generation) {
        ([], Generation::First) => true,
        ([former], Generation::Former) => is_entry_table(former, 13),
        ([ace2], Generation::Second) => is_entry_table(ace2, 9),
        _ => false,
    }
}

fn are_last_tables(tables: &[Table], generation: Generation) -> bool
    ensures { IsTrue result ↔ (tables.now ≡ layout.last_tables generation) }
{
    match tables {
        [gone, meta, more @ ..] => {
            is_gone_table(gone) && is_meta_table(meta) && are_more_tables(more, generation)
        }
        _ => false,
    }
}

pub(crate) fn are_tables(tables: &[Table], generation: Generation) -> bool
    ensures { IsTrue result ↔ (tables.now ≡ layout.tables_of generation) }
{
    match tables {
        [node, ace, member, last @ ..] => {
            is_node_table(node)
                && is_ace_table(ace)
                && is_member_table(member)
                && are_last_tables(last, generation)
        }
        _ => false,
    }
}

// ---- the indexes

fn is_unique_index(index: &Index, name: &[u8], tree: u32, table: u32, places: &[usize]) -> bool
    ensures { IsTrue result ↔ (index.now ≡ unique_index name.now tree table places.now) }
{
    is_name(&index.name, name)
        && index.tree == tree
        && index.table == table
        && are_places(&index.columns, places)
        && index.order.digits == 0
        && index.is_unique
}

fn is_plain_index(index: &Index, name: &[u8], tree: u32, table: u32, places: &[usize]) -> bool
    ensures { IsTrue result ↔ (index.now ≡ plain_index name.now tree table places.now) }
{
    is_name(&index.name, name)
        && index.tree == tree
        && index.table == table
        && are_places(&index.columns, places)
        && index.order.digits == 0
        && !index.is_unique
}

fn are_more_keys(indexes: &[Index], generation: Generation) -> bool
    ensures { IsTrue result ↔ (indexes.now ≡ layout.more_keys generation) }
{
    match (indexes, generation) {
        ([], Generation::First) => true,
        ([former], Generation::Former) => {
            is_unique_index(former, b"sqlite_autoindex_ace2_1", 14, 13, &[1, 2, 3])
        }
        ([ace2], Generation::Second) => {
            is_unique_index(ace2, b"sqlite_autoindex_ace2_1", 10, 9, &[1, 2, 3])
        }
        _ => false,
    }
}

fn are_last_keys(indexes: &[Index], generation: Generation) -> bool
    ensures { IsTrue result ↔ (indexes.now ≡ layout.last_keys generation) }
{
    match indexes {
        [member, gone, more @ ..] => {
            is_unique_index(member, b"sqlite_autoindex_member_1", 5, 4, &[1, 2])
                && is_unique_index(gone, b"sqlite_autoindex_gone_1", 7, 6, &[1, 2])
                && are_more_keys(more, generation)
        }
        _ => false,
    }
}

/// Whether the indexes are those that the keys of the tables have.
pub(crate) fn are_keys(indexes: &[Index], generation: Generation) -> bool
    ensures { IsTrue result ↔ (indexes.now ≡ layout.keys_of generation) }
{
    match indexes {
        [node, ace, last @ ..] => {
            is_unique_index(node, b"sqlite_autoindex_node_1", 1, 0, &[2])
                && is_unique_index(ace, b"sqlite_autoindex_ace_1", 3, 2, &[1, 2, 3])
                && are_last_keys(last, generation)
        }
        _ => false,
    }
}

// ---- the indexes that only make look-ups fast

fn are_last_indexes(indexes: &[Index]) -> bool
    ensures { IsTrue result ↔ (indexes.now ≡ wanted.last_indexes) }
{
    match indexes {
        [entries, removed, group] => {
            is_plain_index(entries, b"ace2_principal", 17, 9, &[5])
                && is_plain_index(removed, b"gone_book", 18, 6, &[1, 3])
                && is_plain_index(group, b"reach_grp", 19, 11, &[1])
        }
        _ => false,
    }
}

fn are_principal_indexes(indexes: &[Index]) -> bool
    ensures { IsTrue result ↔ (indexes.now ≡ wanted.principal_indexes) }
{
    match indexes {
        [principal, member, last @ ..] => {
            is_plain_index(principal, b"ace_principal", 15, 2, &[5])
                && is_plain_index(member, b"member_member", 16, 4, &[2])
                && are_last_indexes(last)
        }
        _ => false,
    }
}

fn are_own_indexes(indexes: &[Index]) -> bool
    ensures { IsTrue result ↔ (indexes.now ≡ wanted.own_indexes) }
{
    match indexes {
        [parent, owner, last @ ..] => {
            is_plain_index(parent, b"node_parent", 13, 0, &[3, 8])
                && is_plain_index(owner, b"node_owner", 14, 0, &[5])
                && are_principal_indexes(last)
        }
        _ => false,
    }
}

// ---- `reach`, which stands behind all other tables

fn is_reach_table(table: &Table) -> bool
    ensures { IsTrue result ↔ (table.now ≡ wanted.reach_table) }
{
    is_plain(table)
        && is_name(&table.name, b"reach")
        && table.tree == 11
        && are_member_columns(table.columns.as_slice())
        && table.key.is_none()
        && are_places(&table.primary, &[2, 1])
        && is_one_key(table.uniques.as_slice(), &[2, 1])
        && is_plain_order(table.orders.as_slice())
        && are_to_paths(table.references.as_slice(), 1, 2)
}

fn are_rest_indexes(indexes: &[Index]) -> bool
    ensures { IsTrue result ↔ (indexes.now ≡ layout.rest_indexes) }
{
    match indexes {
        [reach, own @ ..] => {
            is_unique_index(reach, b"sqlite_autoindex_reach_1", 12, 11, &[2, 1])
                && are_own_indexes(own)
        }
        _ => false,
    }
}

fn are_book_tables(tables: &[Table]) -> bool
    ensures { IsTrue result ↔ (tables.now ≡ book_schema.tables) }
{
    match tables {
        [base @ .., reach] => are_tables(base, Generation::Second) && is_reach_table(reach),
        _ => false,
    }
}

fn are_book_indexes(indexes: &[Index]) -> bool
    ensures { IsTrue result ↔ (indexes.now ≡ book_schema.indexes) }
{
    if indexes.len() < 5 {
        return false;
    }
    let (keys, rest) = indexes.split_at(5);
    are_keys(keys, Generation::Second) && are_rest_indexes(rest)
}

/// Whether a schema is that of a store of version 2: the tables with their columns, keys and references, then the
/// indexes, and no view.
pub fn is_book_schema(schema: &Schema) -> bool
    ensures { IsTrue result ↔ (schema.now ≡ book_schema) }
{
    are_book_tables(schema.tables.as_slice())
        && are_book_indexes(schema.indexes.as_slice())
        && schema.views.as_slice().is_empty()
}
