//! ACL and a group's members: own lists and pairs as their rows say them, and the edits that write them anew.

ghost use Rattle.std.specs.Prelude.{◌≡◌, map, option_map, string_bytes, IfOk, IsTrue, OnOk};
ghost use Rattle.sqlite.specs.Held.{state};
ghost use Rattle.sqlite.specs.State.{HasCleanDisk, Survives};
ghost use Rattle.book_office.specs.Keeping.{failures_after};
ghost use Rattle.book_office.specs.declared.edits.Edit.TheVariants.{SetList, SetMembers};
ghost use Rattle.book_tables_rows.specs.Nodes.{said, setting_members};
ghost use Rattle.book_tables_rows.specs.Reach.{pair_said};
ghost use Rattle.book_tables_rows.specs.Plans.{Makes};
ghost use Rattle.book_tables_rows.specs.Steps.{Keeps};
ghost use Rattle.book_tables.specs.Inside.{EditsInside, inside_of};
ghost use Rattle.book_tables.specs.Rows.{form_code};
ghost use Rattle.book_tables.specs.Settings.{entry_said, principal_said};

use crate::faults::fault_of;
use crate::group_members::renewal_in;
use crate::renewals::Renewal;
use crate::texts::text_of;
use book_lists::{Entry, Principal, Who};
use book_office::StoreFault;
use book_office_values::{Items, Path};
use book_tables_rows::EntryRow;
use sqlite::{Alter, Transaction};
use std::alloc::{AllocError, Global};

/// The code of a form (RFC 3744, section 5.5.1): 0 a path, 1 all, 2 authenticated, 3 unauthenticated, 4 the owner and
/// 5 self.
fn form_of(who: &Who) -> u32
    ensures { result ≡ form_code who.now }
{
    match who {
        Who::Href(_) => 0,
        Who::Everyone => 1,
        Who::Authenticated => 2,
        Who::Unauthenticated => 3,
        Who::Owner => 4,
        Who::Own => 5,
    }
}

/// The path of a path's form; none of every other.
fn principal_of(alloc: Global, who: &Who) -> Result<Option<String>, AllocError>
    ensures { IfOk result (λ path. option_map string_bytes path ≡ principal_said who.now) }
{
    match who {
        Who::Href(principal) => Ok(Some(String::from_str(alloc, principal.text())?)),
        Who::Everyone | Who::Authenticated | Who::Unauthenticated | Who::Owner | Who::Own => {
            Ok(None)
        }
    }
}

/// An entry as its row says it.
fn row_of(alloc: Global, entry: &Entry) -> Result<EntryRow, AllocError>
    ensures { IfOk result (λ row. said row ≡ entry_said entry.now) }
{
    Ok(EntryRow {
        form: form_of(&entry.who),
        principal: principal_of(alloc, &entry.who)?,
        invert: entry.invert,
        deny: entry.deny,
        mask: u32::from(entry.set.mask()),
    })
}

/// A list as its rows say it, in its order. An error is want of memory.
pub fn rows_of(alloc: Global, list: &[Entry]) -> Result<Vec<EntryRow>, AllocError>
    ensures { IfOk result (λ rows. map said rows.items ≡ map entry_said list.now) }
{
    let mut rows = Vec::new(alloc);
    'entries: for entry in list {
        rows.push(row_of(alloc, entry)?)?;
    }
    Ok(rows)
}

/// The paths of principals, in their order.
fn paths_of(alloc: Global, principals: &[Principal]) -> Result<Vec<String>, AllocError>
    ensures { IfOk result (λ paths. map string_bytes paths.items ≡ principals.now) }
{
    let mut paths = Vec::new(alloc);
    'principals: for principal in principals {
        paths.push(String::from_str(alloc, principal.text())?)?;
    }
    Ok(paths)
}

/// ACL (RFC 3744, section 8.1): the resource gets this own list, in this order, and keeps its protected one; the
/// epoch rises. `Memory` is want of memory, `Store` any other failure.
pub(crate) fn set_list<S: Alter>(
    alloc: Global,
    transaction: &mut Transaction<'_, S>,
    failures: &mut u64,
    path: &Path,
    entries: &Items<Entry>,
) -> Result<(), StoreFault>
    ensures same_reference { transaction.new.conn.ghost_name ≡ transaction.old.conn.ghost_name }
    ensures edits { EditsInside (inside_of (state S.Store transaction.old.conn.now) failures.old)
        (inside_of (state S.Store transaction.new.conn.now) failures.new) result
        (SetList path.now entries.now) }
{
    let text = text_of(alloc, path)?;
    let rows = rows_of(alloc, entries.as_slice())?;
    match book_tables_rows::set_list(transaction, text.as_str(), rows.as_slice()) {
        Ok(()) => Ok(()),
        Err(error) => Err(fault_of(error, failures)),
    }
}

/// Writes the direct members of a group, and renews `reach`.
fn write_members<S: Alter>(
    transaction: &mut Transaction<'_, S>,
    failures: &mut u64,
    group: &Principal,
    paths: &[String],
    renewal: &Renewal,
) -> Result<(), StoreFault>
    ensures same_reference { transaction.new.conn.ghost_name ≡ transaction.old.conn.ghost_name }
    ensures survives { Survives (state S.Store transaction.old.conn.now)
        (state S.Store transaction.new.conn.now) (λ _. ⊥) }
    ensures kept { Keeps (state S.Store transaction.old.conn.now)
        (state S.Store transaction.new.conn.now) }
    ensures done { HasCleanDisk (state S.Store transaction.new.conn.now)
        → IsTrue (state S.Store transaction.old.conn.now).in_transaction
        → OnOk result (Makes (state S.Store transaction.old.conn.now)
        (state S.Store transaction.new.conn.now)
        (setting_members group.now (map string_bytes paths.now)
        (map pair_said renewal.now.gone.items) (map pair_said renewal.now.come.items))) }
    ensures counted { failures.new ≡ failures_after result failures.old }
{
    match book_tables_rows::set_members(
        transaction,
        group.text(),
        paths,
        renewal.gone.as_slice(),
        renewal.come.as_slice(),
    ) {
        Ok(()) => Ok(()),
        Err(error) => Err(fault_of(error, failures)),
    }
}

/// PROPPATCH of a group-member-set (RFC 3744, section 4.3): the group gets these direct members, and `reach` is
/// renewed in the same transaction; the epoch rises. Before, the pairs near those that come or go are read, and all
/// where these are many. `Memory` is want of memory, `Store` any other failure, among them a member that is named
/// twice.
pub(crate) fn set_members<S: Alter>(
    alloc: Global,
    transaction: &mut Transaction<'_, S>,
    failures: &mut u64,
    group: &Principal,
    members: &Items<Principal>,
) -> Result<(), StoreFault>
    ensures same_reference { transaction.new.conn.ghost_name ≡ transaction.old.conn.ghost_name }
    ensures edits { EditsInside (inside_of (state S.Store transaction.old.conn.now) failures.old)
        (inside_of (state S.Store transaction.new.conn.now) failures.new) result
        (SetMembers group.now members.now) }
{
    let paths = paths_of(alloc, members.as_slice())?;
    let renewal = renewal_in(alloc, transaction, failures, group, members.as_slice())?;
    write_members(transaction, failures, group, paths.as_slice(), &renewal)
}
