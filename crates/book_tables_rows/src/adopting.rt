//! Adopting a policy: nodes, lists and members.

ghost use Rattle.std.specs.Prelude.{◌≡◌, ⊤, ◌+◌, ◌<◌, [], ◌∷◌, map};
ghost use Rattle.sqlite.specs.Held.{state};
ghost use Rattle.book_tables_rows.specs.Adopting as policy;
ghost use Rattle.book_tables_rows.specs.Adopting.{CanList, CanPlace, adopting, joined, listed_row, placed_row};
ghost use Rattle.book_tables_rows.specs.Lists.{BothListsAreRead, ListsOfOthersStay};
ghost use Rattle.book_tables_rows.specs.Reach.{pair_said};
ghost use Rattle.book_tables_rows.specs.Parts.{part_count, part_from, turns};
ghost use Rattle.book_tables_rows.specs.Plans.{Goes, Performs, Unseen, nothing};
ghost use Rattle.book_tables_rows.specs.Scripts.{plan_of};
ghost use Rattle.book_tables_rows.specs.Steps.{Keeps};
ghost use Rattle.book_tables_rows.specs.declared.script.Statement.TheVariants.{SetPlace};

use crate::epochs::read_epoch;
use crate::items::{Items, item_at};
use crate::nodes::{LAST_NUMBER, insert_node, look_up};
use crate::reach::ReachRow;
use crate::script::{Statement, run, run_all};
use crate::setting::EntryRow;
use sqlite::{Alter, Error, Transaction};

/// A node with an owner and a label.
#[derive(Debug, Drop)]
pub struct PlaceRow {
    /// Its path.
    pub path: String,
    /// The path of its parent, under which it is added where no row has its path.
    pub parent: String,
    /// The code of its kind, for a node that is added.
    pub kind: u32,
    /// The path of its owner.
    pub owner: Option<String>,
    /// Its label.
    pub label: String,
}

/// A node with both its lists, each in order of place.
#[derive(Debug, Drop)]
pub struct ListsRow {
    /// Its path.
    pub path: String,
    /// Its protected list.
    pub protected: Vec<EntryRow>,
    /// Its own list.
    pub own: Vec<EntryRow>,
}

/// A group with its direct members.
#[derive(Debug, Drop)]
pub struct GroupRow {
    /// The path of the group.
    pub group: String,
    /// The paths of its members, each named once.
    pub members: Vec<String>,
}

/// What a policy writes, one after another: nodes with owner and label, nodes with both lists, groups with members.
#[derive(Clone, Copy)]
enum Part<'x> {
    Places(&'x [PlaceRow]),
    Lists(&'x [ListsRow]),
    Groups(&'x [GroupRow]),
}

/// Gives the node at a path its owner and its label.
fn set_place<S: Alter>(
    transaction: &mut Transaction<'_, S>,
    path: &str,
    owner: Option<&str>,
    label: &str,
) -> Result<(), Error>
    ensures same_reference { transaction.new.conn.ghost_name ≡ transaction.old.conn.ghost_name }
    ensures survives { Unseen (state S.Store transaction.old.conn.now)
        (state S.Store transaction.new.conn.now) }
    ensures kept { Keeps (state S.Store transaction.old.conn.now)
        (state S.Store transaction.new.conn.now) }
    ensures done { Goes (state S.Store transaction.old.conn.now)
        (state S.Store transaction.new.conn.now) result nothing
        (plan_of (SetPlace path.entry owner.entry label.entry)) }
{
    run(transaction, &Statement::SetPlace { path, owner, label })
}

/// Gives a node its owner and its label. Where it is not there it is added under the one at its parent's path, with no
/// text and the number 0.
fn write_place<S: Alter>(
    transaction: &mut Transaction<'_, S>,
    place: &PlaceRow,
) -> Result<(), Error>
    ensures same_reference { transaction.new.conn.ghost_name ≡ transaction.old.conn.ghost_name }
    ensures survives { Unseen (state S.Store transaction.old.conn.now)
        (state S.Store transaction.new.conn.now) }
    ensures kept { Keeps (state S.Store transaction.old.conn.now)
        (state S.Store transaction.new.conn.now) }
    ensures done { Goes (state S.Store transaction.old.conn.now)
        (state S.Store transaction.new.conn.now) result nothing
        (turns CanPlace policy.write_place (placed_row place.now ∷ [])) }
{
    let path = place.path.as_str();
    let label = place.label.as_str();
    match look_up(transaction, path)? {
        Some(node) => {
            drop(node);
            set_place(transaction, path, place.owner.as_deref(), label)
        }
        None => {
            let Some(above) = look_up(transaction, place.parent.as_str())? else {
                return Err(Error::QueryReturnedNoRows);
            };
            let parent = above.id;
            drop(above);
            insert_node(
                transaction,
                path,
                parent,
                place.kind,
                place.owner.as_deref(),
                label,
                None,
                0,
            )
        }
    }
}

/// Finds a node, and writes both its lists anew.
fn write_lists<S: Alter>(
    transaction: &mut Transaction<'_, S>,
    lists: &ListsRow,
) -> Result<(), Error>
    ensures same_reference { transaction.new.conn.ghost_name ≡ transaction.old.conn.ghost_name }
    ensures survives { Unseen (state S.Store transaction.old.conn.now)
        (state S.Store transaction.new.conn.now) }
    ensures kept { Keeps (state S.Store transaction.old.conn.now)
        (state S.Store transaction.new.conn.now) }
    ensures done { Goes (state S.Store transaction.old.conn.now)
        (state S.Store transaction.new.conn.now) result nothing
        (turns CanList policy.write_lists (listed_row lists.now ∷ [])) }
{
    let Some(found) = look_up(transaction, lists.path.as_str())? else {
        return Err(Error::QueryReturnedNoRows);
    };
    let node = found.id;
    drop(found);
    run_all(
        transaction,
        &[
            Statement::DeleteEntries(node),
            Statement::Each(Items::Entries {
                node,
                protected: true,
                list: &lists.protected,
            }),
            Statement::Each(Items::Entries {
                node,
                protected: false,
                list: &lists.own,
            }),
        ],
    )
}

/// Writes the direct members of a group anew.
fn write_group<S: Alter>(transaction: &mut Transaction<'_, S>, row: &GroupRow) -> Result<(), Error>
    ensures same_reference { transaction.new.conn.ghost_name ≡ transaction.old.conn.ghost_name }
    ensures survives { Unseen (state S.Store transaction.old.conn.now)
        (state S.Store transaction.new.conn.now) }
    ensures kept { Keeps (state S.Store transaction.old.conn.now)
        (state S.Store transaction.new.conn.now) }
    ensures done { Goes (state S.Store transaction.old.conn.now)
        (state S.Store transaction.new.conn.now) result nothing
        (turns (λ _ _. ⊤) policy.write_group (joined row.now ∷ [])) }
{
    let group = row.group.as_str();
    run_all(
        transaction,
        &[
            Statement::DeleteMembers(group),
            Statement::Each(Items::Members(group, &row.members)),
        ],
    )
}

fn count(part: &Part<'_>) -> usize
    ensures { result ≡ part_count part.now }
{
    match part {
        Part::Places(places) => places.len(),
        Part::Lists(lists) => lists.len(),
        Part::Groups(groups) => groups.len(),
    }
}

/// Writes the one at a place.
fn write_at<S: Alter>(
    transaction: &mut Transaction<'_, S>,
    part: &Part<'_>,
    place: usize,
) -> Result<(), Error>
    requires { place < part_count part.now }
    ensures same_reference { transaction.new.conn.ghost_name ≡ transaction.old.conn.ghost_name }
    ensures survives { Unseen (state S.Store transaction.old.conn.now)
        (state S.Store transaction.new.conn.now) }
    ensures kept { Keeps (state S.Store transaction.old.conn.now)
        (state S.Store transaction.new.conn.now) }
    ensures done { Goes (state S.Store transaction.old.conn.now)
        (state S.Store transaction.new.conn.now) result (part_from part.now (place + 1))
        (part_from part.now place) }
{
    match part {
        Part::Places(places) => write_place(transaction, item_at(places, place)),
        Part::Lists(lists) => write_lists(transaction, item_at(lists, place)),
        Part::Groups(groups) => write_group(transaction, item_at(groups, place)),
    }
}

/// Writes them one after another.
fn write_part<S: Alter>(transaction: &mut Transaction<'_, S>, part: &Part<'_>) -> Result<(), Error>
    ensures same_reference { transaction.new.conn.ghost_name ≡ transaction.old.conn.ghost_name }
    ensures survives { Unseen (state S.Store transaction.old.conn.now)
        (state S.Store transaction.new.conn.now) }
    ensures kept { Keeps (state S.Store transaction.old.conn.now)
        (state S.Store transaction.new.conn.now) }
    ensures done { Goes (state S.Store transaction.old.conn.now)
        (state S.Store transaction.new.conn.now) result nothing (part_from part.now 0) }
{
    'part: for place in 0..count(part) {
        write_at(transaction, part, place)?;
    }
    Ok(())
}

/// Adopting a policy (own profile): each place gets its owner and its label, and a row of its own under its parent's
/// where none has its path; then each node gets both its lists, in their order, and each group its direct members, and
/// `reach` is renewed: the rows of some pairs are taken out of it, and those of others are added; the epoch rises. A
/// node that is added has no text and the number 0; one that is there keeps both. So a parent or an owner that is added
/// comes before what names it. Where no row has the path of a parent of a node that is added, or of a node whose lists
/// are written, or the epoch is at its last value, it answers `QueryReturnedNoRows`; each other error is that of the
/// store, among them the path of an owner, principal, group or member that no row has and a member or a pair that is
/// named twice.
pub fn adopt_rows<'x, S: Alter>(
    transaction: &mut Transaction<'_, S>,
    places: &[PlaceRow],
    lists: &[ListsRow],
    groups: &[GroupRow],
    old: &'x [ReachRow],
    new: &'x [ReachRow],
) -> Result<(), Error>
    ensures same_reference { transaction.new.conn.ghost_name ≡ transaction.old.conn.ghost_name }
    ensures survives { Unseen (state S.Store transaction.old.conn.now)
        (state S.Store transaction.new.conn.now) }
    ensures kept { Keeps (state S.Store transaction.old.conn.now)
        (state S.Store transaction.new.conn.now) }
    ensures done { Performs (state S.Store transaction.old.conn.now)
        (state S.Store transaction.new.conn.now) result
        (adopting (map placed_row places.now) (map listed_row lists.now) (map joined groups.now)
        (map pair_said old.now) (map pair_said new.now)) }
{
    let epoch = read_epoch(transaction)?;
    if epoch >= LAST_NUMBER {
        return Err(Error::QueryReturnedNoRows);
    }
    write_part(transaction, &Part::Places(places))?;
    write_part(transaction, &Part::Lists(lists))?;
    write_part(transaction, &Part::Groups(groups))?;
    run_all(
        transaction,
        &[
            Statement::Each(Items::OldPairs(old)),
            Statement::Each(Items::NewPairs(new)),
            Statement::SetEpoch(epoch + 1),
        ],
    )
}

/// Laws of both lists of a node: those that were written are read as they were given, and no other node's list changes.
pub fn both_lists_are_read()
    ensures read { BothListsAreRead }
    ensures stay { ListsOfOthersStay }
{}
