//! Whether the tables of a store stand there, whatever table `reach` stands behind them.

ghost use Rattle.std.specs.Prelude.{◌≡◌, ◌↔◌, IfOk, IsTrue, length};
ghost use Rattle.std.specs.List.{AllByRecursion};
ghost use Rattle.book_tables_schema.specs.Layout.{keys_of};
ghost use Rattle.book_tables_schema.specs.OtherReach.{HasIndexes, HasLast, HasReach, IsBareBeside, IsBeside, IsReach, IsToOther, free_tree, schema_of};

use crate::bare::bared;
use crate::layout::{Generation, are_keys, are_tables};
use sqlite_schema::names::same_name;
use sqlite_schema::schema::{Index, Reference, Schema, Table};
use std::alloc::{AllocError, Global};

fn is_to_other(reference: &Reference) -> bool
    ensures { IsTrue result ↔ IsToOther reference.now }
{
    !same_name(b"reach", reference.parent.as_slice())
}

/// Whether no reference is to `reach`.
fn are_to_others(references: &[Reference]) -> bool
    ensures { IsTrue result ↔ AllByRecursion IsToOther references.now }
{
    for reference in references {
        if !is_to_other(reference) {
            return false;
        }
    }
    true
}

fn is_of(index: &Index, tree: u32) -> bool
    ensures { IsTrue result ↔ (index.now.table ≡ tree) }
{
    index.table == tree
}

/// Whether all indexes are of the table in this tree.
fn are_of(indexes: &[Index], tree: u32) -> bool
    ensures { IsTrue result ↔ AllByRecursion (λ i. i.table ≡ tree) indexes.now }
{
    for index in indexes {
        if !is_of(index, tree) {
            return false;
        }
    }
    true
}

/// The first tree behind those of the tables of a store and of their keys.
fn free_tree(generation: Generation) -> u32
    ensures { result ≡ free_tree generation }
{
    match generation {
        Generation::First => 9,
        Generation::Former => 15,
        Generation::Second => 11,
    }
}

fn is_reach(table: &Table, generation: Generation) -> bool
    ensures { IsTrue result ↔ IsReach generation table.now }
{
    same_name(table.name.as_slice(), b"reach")
        && free_tree(generation) <= table.tree
        && !table.is_counted
        && are_to_others(table.references.as_slice())
}

/// How many keys the tables have.
fn count_of_keys(generation: Generation) -> usize
    ensures { result ≡ length (keys_of generation) }
{
    match generation {
        Generation::First => 4,
        Generation::Former | Generation::Second => 5,
    }
}

fn has_indexes(indexes: &[Index], tree: u32, generation: Generation) -> bool
    ensures { IsTrue result ↔ HasIndexes generation tree indexes.now }
{
    let count = count_of_keys(generation);
    if indexes.len() < count {
        return false;
    }
    let (keys, more) = indexes.split_at(count);
    are_keys(keys, generation) && are_of(more, tree)
}

fn has_last(tables: &[Table], indexes: &[Index], generation: Generation) -> bool
    ensures { IsTrue result ↔ HasLast generation tables.now indexes.now }
{
    match tables {
        [front @ .., last] => {
            are_tables(front, generation)
                && is_reach(last, generation)
                && has_indexes(indexes, last.tree, generation)
        }
        _ => false,
    }
}

fn has_reach(schema: &Schema, generation: Generation) -> bool
    ensures { IsTrue result ↔ HasReach generation schema.now }
{
    has_last(
        schema.tables.as_slice(),
        schema.indexes.as_slice(),
        generation,
    ) && schema.views.as_slice().is_empty()
}

fn is_schema_of(schema: &Schema, generation: Generation) -> bool
    ensures { IsTrue result ↔ (schema.now ≡ schema_of generation) }
{
    are_tables(schema.tables.as_slice(), generation)
        && are_keys(schema.indexes.as_slice(), generation)
        && schema.views.as_slice().is_empty()
}

fn is_bare_beside(schema: &Schema, generation: Generation) -> bool
    ensures { IsTrue result ↔ IsBareBeside generation schema.now }
{
    is_schema_of(schema, generation) || has_reach(schema, generation)
}

/// Whether a schema has the tables of a store of this generation with their keys, in their order, without `reach`, or
/// with a table `reach` of any columns and its indexes behind all others, no reference of which is to it and for which
/// no other table counts; and beside these no index but those that only make look-ups fast, whichever of them are there
/// and in whatever order, and no view. An error is want of memory.
pub fn is_beside_reach(
    alloc: Global,
    schema: &Schema,
    generation: Generation,
) -> Result<bool, AllocError>
    ensures { IfOk result (λ is. IsTrue is ↔ IsBeside generation schema.now) }
{
    let left = bared(alloc, schema)?;
    Ok(is_bare_beside(&left, generation))
}
