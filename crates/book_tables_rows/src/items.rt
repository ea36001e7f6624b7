//! Rows that are written one after another, each by a statement, from a list that is given: no list of statements is made.

ghost use Rattle.std.specs.Prelude.{◌≡◌, ◌+◌, ◌<◌, get_or, length};
ghost use Rattle.sqlite.specs.Held.{state};
ghost use Rattle.book_tables_rows.specs.Items.{item_count, pieces};
ghost use Rattle.book_tables_rows.specs.Plans.{Goes, StaysOpen, Unseen, nothing};
ghost use Rattle.book_tables_rows.specs.Steps.{Keeps};
ghost use Rattle.book_tables_rows.specs.declared.items.Items.TheVariants.{Entries};

use crate::nodes::delete_entries;
use crate::reach::ReachRow;
use crate::script::execute;
use crate::setting::EntryRow;
use sqlite::{Alter, Error, Row, Transaction, params};

/// A list, and what a statement for each of its items writes.
#[derive(Clone, Copy)]
pub(crate) enum Items<'x> {
    /// Entries are added to one of the two lists of the node with a number, in order of place.
    Entries {
        node: i64,
        protected: bool,
        list: &'x [EntryRow],
    },
    /// Direct members are added to the group at a path.
    Members(&'x str, &'x [String]),
    /// Rows of `reach` are taken out.
    OldPairs(&'x [ReachRow]),
    /// Rows of `reach` are added.
    NewPairs(&'x [ReachRow]),
    /// The entries of each node that a row begins with the number of are taken out.
    EntriesOf(&'x [Row]),
}

fn count(items: &Items<'_>) -> usize
    ensures { result ≡ item_count items.now }
{
    match items {
        Items::Entries { list, .. } => list.len(),
        Items::Members(_, members) => members.len(),
        Items::OldPairs(pairs) => pairs.len(),
        Items::NewPairs(pairs) => pairs.len(),
        Items::EntriesOf(rows) => rows.len(),
    }
}

/// The item of a list at a place.
pub(crate) fn item_at<A>(list: &[A], place: usize) -> &A
    requires { place < length list.now }
    ensures { result.now ≡ get_or list.now place result.now }
{
    &list[place]
}

/// Adds the entry at a place of a list.
fn write_entry<S: Alter>(
    transaction: &mut Transaction<'_, S>,
    node: i64,
    protected: bool,
    list: &[EntryRow],
    place: usize,
) -> Result<(), Error>
    requires { place < length list.now }
    ensures same_reference { transaction.new.conn.ghost_name ≡ transaction.old.conn.ghost_name }
    ensures survives { Unseen (state S.Store transaction.old.conn.now)
        (state S.Store transaction.new.conn.now) }
    ensures kept { Keeps (state S.Store transaction.old.conn.now)
        (state S.Store transaction.new.conn.now) }
    ensures done { Goes (state S.Store transaction.old.conn.now)
        (state S.Store transaction.new.conn.now) result
        (pieces (Entries node protected list.entry) (place + 1))
        (pieces (Entries node protected list.entry) place) }
    ensures open { StaysOpen (state S.Store transaction.old.conn.now)
        (state S.Store transaction.new.conn.now) result }
{
    let entry = &list[place];
    execute(
        transaction,
        "INSERT INTO ace2 (node, protected, place, form, principal, invert, deny, mask) VALUES (?1, ?2, ?3, ?4, ?5, ?6, ?7, ?8)",
        params![
            node,
            protected,
            place as i64,
            entry.form,
            &entry.principal,
            entry.invert,
            entry.deny,
            entry.mask
        ],
    )
}

/// Writes the item at a place.
fn write_at<S: Alter>(
    transaction: &mut Transaction<'_, S>,
    items: &Items<'_>,
    place: usize,
) -> Result<(), Error>
    requires { place < item_count items.now }
    ensures same_reference { transaction.new.conn.ghost_name ≡ transaction.old.conn.ghost_name }
    ensures survives { Unseen (state S.Store transaction.old.conn.now)
        (state S.Store transaction.new.conn.now) }
    ensures kept { Keeps (state S.Store transaction.old.conn.now)
        (state S.Store transaction.new.conn.now) }
    ensures done { Goes (state S.Store transaction.old.conn.now)
        (state S.Store transaction.new.conn.now) result (pieces items.now (place + 1))
        (pieces items.now place) }
    ensures open { StaysOpen (state S.Store transaction.old.conn.now)
        (state S.Store transaction.new.conn.now) result }
{
    match items {
        Items::Entries {
            node,
            protected,
            list,
        } => write_entry(transaction, *node, *protected, list, place),
        Items::Members(group, members) => execute(
            transaction,
            "INSERT INTO member (grp, member) VALUES (?1, ?2)",
            params![*group, item_at(members, place).as_str()],
        ),
        Items::OldPairs(pairs) => {
            let pair = item_at(pairs, place);
            execute(
                transaction,
                "DELETE FROM reach WHERE grp = ?1 AND member = ?2",
                params![pair.group.as_str(), pair.member.as_str()],
            )
        }
        Items::NewPairs(pairs) => {
            let pair = item_at(pairs, place);
            execute(
                transaction,
                "INSERT INTO reach (grp, member) VALUES (?1, ?2)",
                params![pair.group.as_str(), pair.member.as_str()],
            )
        }
        Items::EntriesOf(rows) => {
            let node = item_at(rows, place).get(0)?;
            delete_entries(transaction, node)
        }
    }
}

/// Writes the items in their order.
pub(crate) fn write_items<S: Alter>(
    transaction: &mut Transaction<'_, S>,
    items: &Items<'_>,
) -> Result<(), Error>
    ensures same_reference { transaction.new.conn.ghost_name ≡ transaction.old.conn.ghost_name }
    ensures survives { Unseen (state S.Store transaction.old.conn.now)
        (state S.Store transaction.new.conn.now) }
    ensures kept { Keeps (state S.Store transaction.old.conn.now)
        (state S.Store transaction.new.conn.now) }
    ensures done { Goes (state S.Store transaction.old.conn.now)
        (state S.Store transaction.new.conn.now) result nothing (pieces items.now 0) }
    ensures open { StaysOpen (state S.Store transaction.old.conn.now)
        (state S.Store transaction.new.conn.now) result }
{
    'items: for place in 0..count(items) {
        write_at(transaction, items, place)?;
    }
    Ok(())
}
