//! The rows of all tables.

ghost use Rattle.std.specs.Prelude.{◌≡◌, IfOk};
ghost use Rattle.sqlite.specs.Held.{state};
ghost use Rattle.sqlite.specs.State.{HasCleanDisk, Survives};
ghost use Rattle.book_tables_rows.specs.Steps.{Keeps, Spares};
ghost use Rattle.book_tables_opening.specs.Reading.{ShowsLists, ShowsRest, ShowsTables};

use crate::whole_nodes::textless_node_rows;
use book_tables_rows::member_rows;
use book_tables_schema::{all_entry_rows, all_gone_rows, all_meta_rows};
use sqlite::{Alter, Error, Row, Transaction};

/// The rows of all five tables, those of nodes without their texts.
#[derive(Drop)]
pub struct StoreRows {
    pub nodes: Vec<Row>,
    pub lists: (Vec<Row>, Vec<Row>),
    pub rest: (Vec<Row>, Vec<Row>),
}

/// The rows of entries and of members.
fn read_lists<S: Alter>(transaction: &mut Transaction<'_, S>) -> Result<(Vec<Row>, Vec<Row>), Error>
    ensures same_reference { transaction.new.conn.ghost_name ≡ transaction.old.conn.ghost_name }
    ensures survives { Survives (state S.Store transaction.old.conn.now)
        (state S.Store transaction.new.conn.now) (λ _. ⊥) }
    ensures kept { Keeps (state S.Store transaction.old.conn.now)
        (state S.Store transaction.new.conn.now) }
    ensures stays { Spares (state S.Store transaction.old.conn.now)
        (state S.Store transaction.new.conn.now) result }
    ensures shown { HasCleanDisk (state S.Store transaction.new.conn.now)
        → IfOk result (λ rows. ShowsLists
        (state S.Store transaction.old.conn.now) rows.0.items rows.1.items) }
{
    let entries = all_entry_rows(transaction)?;
    let members = member_rows(transaction)?;
    Ok((entries, members))
}

/// The rows of removed names, and of version and epoch.
fn read_rest<S: Alter>(transaction: &mut Transaction<'_, S>) -> Result<(Vec<Row>, Vec<Row>), Error>
    ensures same_reference { transaction.new.conn.ghost_name ≡ transaction.old.conn.ghost_name }
    ensures survives { Survives (state S.Store transaction.old.conn.now)
        (state S.Store transaction.new.conn.now) (λ _. ⊥) }
    ensures kept { Keeps (state S.Store transaction.old.conn.now)
        (state S.Store transaction.new.conn.now) }
    ensures stays { Spares (state S.Store transaction.old.conn.now)
        (state S.Store transaction.new.conn.now) result }
    ensures shown { HasCleanDisk (state S.Store transaction.new.conn.now)
        → IfOk result (λ rows. ShowsRest
        (state S.Store transaction.old.conn.now) rows.0.items rows.1.items) }
{
    let gone = all_gone_rows(transaction)?;
    let meta = all_meta_rows(transaction)?;
    Ok((gone, meta))
}

/// The rows of all five tables: of nodes, without their texts, in order of the numbers of their rows, of the others in some order.
pub fn read_tables<S: Alter>(transaction: &mut Transaction<'_, S>) -> Result<StoreRows, Error>
    ensures same_reference { transaction.new.conn.ghost_name ≡ transaction.old.conn.ghost_name }
    ensures survives { Survives (state S.Store transaction.old.conn.now)
        (state S.Store transaction.new.conn.now) (λ _. ⊥) }
    ensures kept { Keeps (state S.Store transaction.old.conn.now)
        (state S.Store transaction.new.conn.now) }
    ensures stays { Spares (state S.Store transaction.old.conn.now)
        (state S.Store transaction.new.conn.now) result }
    ensures shown { HasCleanDisk (state S.Store transaction.new.conn.now)
        → IfOk result (λ rows. ShowsTables (state S.Store transaction.old.conn.now) rows.nodes.items
        rows.lists.0.items rows.lists.1.items rows.rest.0.items rows.rest.1.items) }
{
    let nodes = textless_node_rows(transaction)?;
    let lists = read_lists(transaction)?;
    let rest = read_rest(transaction)?;
    Ok(StoreRows { nodes, lists, rest })
}
