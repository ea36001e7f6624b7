//! ACL and a group's members: a list that is written anew.

ghost use Rattle.std.specs.Prelude.{◌≡◌, map, string_bytes};
ghost use Rattle.sqlite.specs.Held.{state};
ghost use Rattle.book_tables_rows.specs.Lists.{OtherListsStay, WrittenListsAreRead};
ghost use Rattle.book_tables_rows.specs.Nodes.{said, setting_list, setting_members};
ghost use Rattle.book_tables_rows.specs.Reach.{pair_said};
ghost use Rattle.book_tables_rows.specs.Plans.{Performs, Unseen};
ghost use Rattle.book_tables_rows.specs.Steps.{Keeps};

use crate::epochs::read_epoch;
use crate::items::Items;
use crate::nodes::{LAST_NUMBER, look_up};
use crate::reach::ReachRow;
use crate::script::{Statement, run_all};
use sqlite::{Alter, Error, Transaction};

/// An entry of a list as its row tells it, but for the node, the list and the place. The forms are 0 a path, 1 all,
/// 2 authenticated, 3 unauthenticated, 4 the owner and 5 self (RFC 3744, 5.5.1).
#[derive(Debug, Drop)]
pub struct EntryRow {
    /// The code of the form of its principal.
    pub form: u32,
    /// The path of its principal, where the form is a path.
    pub principal: Option<String>,
    /// Whether it applies to all but its principal.
    pub invert: bool,
    /// Whether it denies.
    pub deny: bool,
    /// The mask of its privileges.
    pub mask: u32,
}

/// ACL (RFC 3744, 8.1): the node at a path gets this own list, in this order, and keeps its protected one; the epoch
/// rises. Where no row has the path, or the epoch is at its last value, it answers
/// `QueryReturnedNoRows`; each other error is that of the store, among them a principal's path that no row has.
pub fn set_list<S: Alter>(
    transaction: &mut Transaction<'_, S>,
    path: &str,
    list: &[EntryRow],
) -> Result<(), Error>
    ensures same_reference { transaction.new.conn.ghost_name ≡ transaction.old.conn.ghost_name }
    ensures survives { Unseen (state S.Store transaction.old.conn.now)
        (state S.Store transaction.new.conn.now) }
    ensures kept { Keeps (state S.Store transaction.old.conn.now)
        (state S.Store transaction.new.conn.now) }
    ensures done { Performs (state S.Store transaction.old.conn.now)
        (state S.Store transaction.new.conn.now) result
        (setting_list path.now (map said list.now)) }
{
    let Some(node) = look_up(transaction, path)? else {
        return Err(Error::QueryReturnedNoRows);
    };
    let id = node.id;
    drop(node);
    let epoch = read_epoch(transaction)?;
    if epoch >= LAST_NUMBER {
        return Err(Error::QueryReturnedNoRows);
    }
    run_all(
        transaction,
        &[
            Statement::DeleteOwn(id),
            Statement::Each(Items::Entries {
                node: id,
                protected: false,
                list,
            }),
            Statement::SetEpoch(epoch + 1),
        ],
    )
}

/// Laws of own lists: one that was written is read as it was given, and no other list changes.
pub fn written_lists_are_read()
    ensures read { WrittenListsAreRead }
    ensures stay { OtherListsStay }
{}

/// The group at a path gets these direct members, each named once (RFC 3744, 4.3), and `reach` is renewed: the rows of
/// some pairs are taken out of it, and those of others are added; the epoch rises. Where the epoch
/// is at its last value, it answers `QueryReturnedNoRows`; each other error is that of the store, among them a path that
/// no row has and a member that is named twice.
pub fn set_members<'x, S: Alter>(
    transaction: &mut Transaction<'_, S>,
    group: &'x str,
    members: &'x [String],
    old: &'x [ReachRow],
    new: &'x [ReachRow],
) -> Result<(), Error>
    ensures same_reference { transaction.new.conn.ghost_name ≡ transaction.old.conn.ghost_name }
    ensures survives { Unseen (state S.Store transaction.old.conn.now)
        (state S.Store transaction.new.conn.now) }
    ensures kept { Keeps (state S.Store transaction.old.conn.now)
        (state S.Store transaction.new.conn.now) }
    ensures done { Performs (state S.Store transaction.old.conn.now)
        (state S.Store transaction.new.conn.now) result
        (setting_members group.now (map string_bytes members.now) (map pair_said old.now)
        (map pair_said new.now)) }
{
    let epoch = read_epoch(transaction)?;
    if epoch >= LAST_NUMBER {
        return Err(Error::QueryReturnedNoRows);
    }
    run_all(
        transaction,
        &[
            Statement::DeleteMembers(group),
            Statement::Each(Items::Members(group, members)),
            Statement::Each(Items::OldPairs(old)),
            Statement::Each(Items::NewPairs(new)),
            Statement::SetEpoch(epoch + 1),
        ],
    )
}
