//! Statements as values, and their run in turn.

ghost use Rattle.std.specs.Prelude.{◌≡◌, IsTrue, OnOk};
ghost use Rattle.std.specs.List.{AllByRecursion};
ghost use Rattle.sqlite.specs.Held.{state};
ghost use Rattle.sqlite.specs.State.{HasCleanDisk};
ghost use Rattle.sqlite.specs.Values.{bound};
ghost use Rattle.book_tables_rows.specs.Scripts.{Executed, IsSmall, plan_of, script};
ghost use Rattle.book_tables_rows.specs.Plans.{Goes, StaysOpen, Unseen, nothing};
ghost use Rattle.book_tables_rows.specs.Steps.{Keeps};

use crate::cards::{delete_gone_name, write_card, write_copy};
use crate::items::{Items, write_items};
use crate::nodes::{delete_entries, insert_node};
use sqlite::types::ValueRef;
use sqlite::{Alter, Error, Transaction, params};

/// A statement that writes, with its values. A card that is put or copied is one, though it may take three texts: the
/// first tells whether a row was there.
#[derive(Clone, Copy)]
pub(crate) enum Statement<'x> {
    /// The node at a path gets another change number.
    SetNumber(&'x str, u64),
    /// The node at a path gets another label and change number.
    SetLabel(&'x str, &'x str, u64),
    /// The node at a path gets another path, parent and change number.
    MoveNode {
        path: &'x str,
        destination: &'x str,
        parent: i64,
        number: u64,
    },
    /// The node at a path gets another owner and label.
    SetPlace {
        path: &'x str,
        owner: Option<&'x str>,
        label: &'x str,
    },
    /// A node is added under the node with a number.
    InsertNode {
        path: &'x str,
        parent: i64,
        kind: u32,
        owner: Option<&'x str>,
        label: &'x str,
        text: Option<&'x str>,
        number: u64,
    },
    /// The card at a path gets the text, or is added to the book with a number.
    WriteCard {
        book: i64,
        path: &'x str,
        name: &'x str,
        owner: Option<&'x str>,
        text: &'x str,
        number: u64,
    },
    /// The card at a path gets label and text, or is added to the book with a number.
    WriteCopy {
        book: i64,
        path: &'x str,
        name: &'x str,
        owner: Option<&'x str>,
        label: &'x str,
        text: &'x str,
        number: u64,
    },
    /// The node with a number is taken out, where no row refers to it.
    DeleteNode(i64),
    /// The children of the node with a number are taken out, where no other row refers to them.
    DeleteChildren(i64),
    /// The entries of the node with a number are taken out.
    DeleteEntries(i64),
    /// The own list of the node with a number is taken out.
    DeleteOwn(i64),
    /// A removed name is added to the book with a number.
    InsertGone(i64, &'x str, u64),
    /// A name is taken out of the removed ones of the book with a number.
    DeleteGoneName(i64, &'x str),
    /// The removed names of the book with a number are taken out.
    DeleteGone(i64),
    /// The direct members of the group at a path are taken out.
    DeleteMembers(&'x str),
    /// The access epoch is set, where `meta` has its one row.
    SetEpoch(u64),
    /// The items of a list are written in their order.
    Each(Items<'x>),
}

/// Runs one text, and tells nothing of how many rows it changed.
pub(crate) fn execute<S: Alter>(
    transaction: &mut Transaction<'_, S>,
    sql: &str,
    values: &[ValueRef<'_>],
) -> Result<(), Error>
    ensures same_reference { transaction.new.conn.ghost_name ≡ transaction.old.conn.ghost_name }
    ensures survives { Unseen (state S.Store transaction.old.conn.now)
        (state S.Store transaction.new.conn.now) }
    ensures kept { Keeps (state S.Store transaction.old.conn.now)
        (state S.Store transaction.new.conn.now) }
    ensures done { HasCleanDisk (state S.Store transaction.new.conn.now)
        → IsTrue (state S.Store transaction.old.conn.now).in_transaction
        → OnOk result (Executed sql.now (bound values.now) (state S.Store transaction.old.conn.now)
        (state S.Store transaction.new.conn.now)) }
    ensures open { StaysOpen (state S.Store transaction.old.conn.now)
        (state S.Store transaction.new.conn.now) result }
{
    transaction.execute(sql, values)?;
    Ok(())
}

/// Runs a statement.
pub(crate) fn run<S: Alter>(
    transaction: &mut Transaction<'_, S>,
    statement: &Statement<'_>,
) -> Result<(), Error>
    requires { IsSmall statement.now }
    ensures same_reference { transaction.new.conn.ghost_name ≡ transaction.old.conn.ghost_name }
    ensures survives { Unseen (state S.Store transaction.old.conn.now)
        (state S.Store transaction.new.conn.now) }
    ensures kept { Keeps (state S.Store transaction.old.conn.now)
        (state S.Store transaction.new.conn.now) }
    ensures done { Goes (state S.Store transaction.old.conn.now)
        (state S.Store transaction.new.conn.now) result nothing (plan_of statement.now) }
{
    match statement {
        Statement::SetNumber(path, number) => {
            execute(
                transaction,
                "UPDATE node SET number = ?2 WHERE path = ?1",
                params![*path, *number as i64],
            )
        }
        Statement::SetLabel(path, label, number) => {
            execute(
                transaction,
                "UPDATE node SET label = ?2, number = ?3 WHERE path = ?1",
                params![*path, *label, *number as i64],
            )
        }
        Statement::MoveNode {
            path,
            destination,
            parent,
            number,
        } => {
            execute(
                transaction,
                "UPDATE node SET path = ?2, parent = ?3, number = ?4 WHERE path = ?1",
                params![*path, *destination, *parent, *number as i64],
            )
        }
        Statement::SetPlace { path, owner, label } => {
            execute(
                transaction,
                "UPDATE node SET owner = ?2, label = ?3 WHERE path = ?1",
                params![*path, *owner, *label],
            )
        }
        Statement::InsertNode {
            path,
            parent,
            kind,
            owner,
            label,
            text,
            number,
        } => {
            insert_node(
                transaction,
                path,
                *parent,
                *kind,
                *owner,
                label,
                *text,
                *number,
            )
        }
        Statement::WriteCard {
            book,
            path,
            name,
            owner,
            text,
            number,
        } => { write_card(transaction, *book, path, name, *owner, text, *number) }
        Statement::WriteCopy {
            book,
            path,
            name,
            owner,
            label,
            text,
            number,
        } => { write_copy(transaction, *book, path, name, *owner, label, text, *number) }
        Statement::DeleteNode(node) => {
            execute(
                transaction,
                "DELETE FROM node WHERE id = ?1",
                params![*node],
            )
        }
        Statement::DeleteChildren(node) => {
            execute(
                transaction,
                "DELETE FROM node WHERE parent = ?1",
                params![*node],
            )
        }
        Statement::DeleteEntries(node) => delete_entries(transaction, *node),
        Statement::DeleteOwn(node) => {
            execute(
                transaction,
                "DELETE FROM ace2 WHERE node = ?1 AND protected = 0",
                params![*node],
            )
        }
        Statement::InsertGone(book, name, number) => {
            execute(
                transaction,
                "INSERT INTO gone (book, name, number) VALUES (?1, ?2, ?3)",
                params![*book, *name, *number as i64],
            )
        }
        Statement::DeleteGoneName(book, name) => delete_gone_name(transaction, *book, name),
        Statement::DeleteGone(book) => {
            execute(
                transaction,
                "DELETE FROM gone WHERE book = ?1",
                params![*book],
            )
        }
        Statement::DeleteMembers(group) => {
            execute(
                transaction,
                "DELETE FROM member WHERE grp = ?1",
                params![*group],
            )
        }
        Statement::SetEpoch(epoch) => {
            execute(
                transaction,
                "UPDATE meta SET epoch = ?1",
                params![*epoch as i64],
            )
        }
        Statement::Each(items) => write_items(transaction, items),
    }
}

/// Runs statements in turn.
pub(crate) fn run_all<S: Alter>(
    transaction: &mut Transaction<'_, S>,
    statements: &[Statement<'_>],
) -> Result<(), Error>
    requires { AllByRecursion IsSmall statements.now }
    ensures same_reference { transaction.new.conn.ghost_name ≡ transaction.old.conn.ghost_name }
    ensures survives { Unseen (state S.Store transaction.old.conn.now)
        (state S.Store transaction.new.conn.now) }
    ensures kept { Keeps (state S.Store transaction.old.conn.now)
        (state S.Store transaction.new.conn.now) }
    ensures done { Goes (state S.Store transaction.old.conn.now)
        (state S.Store transaction.new.conn.now) result nothing (script statements.now) }
{
    'statements: for statement in statements {
        run(transaction, statement)?;
    }
    Ok(())
}
