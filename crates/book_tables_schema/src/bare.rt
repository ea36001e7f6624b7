//! A schema without the indexes of a store that only make look-ups fast.

ghost use Rattle.std.specs.Prelude.{◌≡◌, IfOk};
ghost use Rattle.book_tables_schema.specs.OwnIndexes as own;

use sqlite_catalog::layout::indexes_but;
use sqlite_schema::schema::Schema;
use std::alloc::{AllocError, Global};

fn without_named(alloc: Global, schema: &Schema, name: &[u8]) -> Result<Schema, AllocError>
    ensures { IfOk result (λ left. left ≡ own.without_named name.now schema.now) }
{
    let Some(at) = schema.index_named(name) else {
        return schema.copy(alloc);
    };
    let Some(index) = schema.indexes.as_slice().get(at) else {
        return schema.copy(alloc);
    };
    let mut left = schema.copy(alloc)?;
    left.indexes = indexes_but(alloc, schema.indexes.as_slice(), index.tree)?;
    Ok(left)
}

fn without_node_indexes(alloc: Global, schema: &Schema) -> Result<Schema, AllocError>
    ensures { IfOk result (λ left. left ≡ own.without_node_indexes schema.now) }
{
    let left = without_named(alloc, schema, b"node_parent")?;
    without_named(alloc, &left, b"node_owner")
}

fn without_principal_indexes(alloc: Global, schema: &Schema) -> Result<Schema, AllocError>
    ensures { IfOk result (λ left. left ≡ own.without_principal_indexes schema.now) }
{
    let left = without_named(alloc, schema, b"ace_principal")?;
    without_named(alloc, &left, b"member_member")
}

fn without_last_indexes(alloc: Global, schema: &Schema) -> Result<Schema, AllocError>
    ensures { IfOk result (λ left. left ≡ own.without_last_indexes schema.now) }
{
    let entries = without_named(alloc, schema, b"ace2_principal")?;
    let removed = without_named(alloc, &entries, b"gone_book")?;
    without_named(alloc, &removed, b"reach_grp")
}

/// The schema as `drop_indexes` leaves it. An error is want of memory.
pub(crate) fn bared(alloc: Global, schema: &Schema) -> Result<Schema, AllocError>
    ensures { IfOk result (λ left. left ≡ own.bared schema.now) }
{
    let nodes = without_node_indexes(alloc, schema)?;
    let principals = without_principal_indexes(alloc, &nodes)?;
    without_last_indexes(alloc, &principals)
}
