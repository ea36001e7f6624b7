//! The direct members of all groups, and the principals to which a caller belongs.

ghost use Rattle.std.specs.Prelude.{◌≡◌, IfOk};
ghost use Rattle.std.specs.FinSet as set;
ghost use Rattle.std.specs.List.{list_any};
ghost use Rattle.sqlite.specs.declared.types.Value.TheVariants.{Text};
ghost use Rattle.sqlite.specs.Held.{state};
ghost use Rattle.sqlite.specs.State.{HasCleanDisk, Survives};
ghost use Rattle.book_lists.specs.Callers.{IsCircle};
ghost use Rattle.book_lists.specs.declared.memberships.Membership.{Membership};
ghost use Rattle.book_tables_rows.specs.Lists.{pair_group, pair_member};
ghost use Rattle.book_tables_rows.specs.Steps.{Keeps, Spares};
ghost use Rattle.book_tables.specs.Inside.{ReadsInside, inside_of};
ghost use Rattle.book_tables.specs.Listing.{ShowsPairs, tells_member};

use crate::faults::fault_of;
use crate::reaching::shown_circle;
use crate::reading::principal_of;
use book_lists::{Caller, Circle, Membership, Pairs};
use book_office::StoreFault;
use book_tables_rows::member_rows;
use sqlite::{Alter, Error, Row, Transaction};
use std::alloc::Global;

/// The pair of group and member that a row tells; an error where it tells none.
fn membership_of(alloc: Global, row: &Row) -> Result<Membership, Error>
    ensures group { IfOk result (λ m. pair_group row.now ≡ Text m.group) }
    ensures member { IfOk result (λ m. pair_member row.now ≡ Text m.member) }
{
    let group: String = row.get(0)?;
    let member: String = row.get(1)?;
    Ok(Membership {
        group: principal_of(alloc, group.as_str())?,
        member: principal_of(alloc, member.as_str())?,
    })
}

/// The pairs that rows tell; an error where one tells none.
pub(crate) fn pairs_of(alloc: Global, rows: &[Row]) -> Result<Pairs, Error>
    ensures { IfOk result (λ pairs. (m : Membership)
        → set.contains pairs m ≡ list_any (tells_member m) rows.now) }
{
    let mut pairs = Pairs::new(alloc);
    for row in rows {
        let membership = membership_of(alloc, row)?;
        pairs.add(membership.group, membership.member)?;
    }
    Ok(pairs)
}

/// The pairs of group and member.
fn shown_pairs<S: Alter>(
    alloc: Global,
    transaction: &mut Transaction<'_, S>,
) -> Result<Pairs, Error>
    ensures same_reference { transaction.new.conn.ghost_name ≡ transaction.old.conn.ghost_name }
    ensures survives { Survives (state S.Store transaction.old.conn.now)
        (state S.Store transaction.new.conn.now) (λ _. ⊥) }
    ensures kept { Keeps (state S.Store transaction.old.conn.now)
        (state S.Store transaction.new.conn.now) }
    ensures stays { Spares (state S.Store transaction.old.conn.now)
        (state S.Store transaction.new.conn.now) result }
    ensures found { HasCleanDisk (state S.Store transaction.new.conn.now)
        → IfOk result (λ pairs. ShowsPairs (state S.Store transaction.old.conn.now) pairs) }
{
    let rows = member_rows(transaction)?;
    pairs_of(alloc, &rows)
}

/// The direct members of all groups, in one look-up. `Memory` is want of memory, `Store` any other failure of the
/// store.
pub(crate) fn pairs<S: Alter>(
    alloc: Global,
    transaction: &mut Transaction<'_, S>,
    failures: &mut u64,
) -> Result<Pairs, StoreFault>
    ensures same_reference { transaction.new.conn.ghost_name ≡ transaction.old.conn.ghost_name }
    ensures reads { ReadsInside (inside_of (state S.Store transaction.old.conn.now) failures.old)
        (inside_of (state S.Store transaction.new.conn.now) failures.new) result
        (λ o pairs. pairs ≡ o.pairs) }
{
    match shown_pairs(alloc, transaction) {
        Ok(pairs) => Ok(pairs),
        Err(error) => Err(fault_of(error, failures)),
    }
}

/// The principals to which the caller belongs, by `reached`: one look-up. `Memory` is want of memory, `Store` any
/// other failure of the store.
pub(crate) fn circle<S: Alter>(
    alloc: Global,
    transaction: &mut Transaction<'_, S>,
    failures: &mut u64,
    caller: &Caller,
) -> Result<Circle, StoreFault>
    ensures same_reference { transaction.new.conn.ghost_name ≡ transaction.old.conn.ghost_name }
    ensures reads { ReadsInside (inside_of (state S.Store transaction.old.conn.now) failures.old)
        (inside_of (state S.Store transaction.new.conn.now) failures.new) result
        (λ o circle. IsCircle o.pairs caller.now circle) }
{
    match shown_circle(alloc, transaction, caller) {
        Ok(circle) => Ok(circle),
        Err(error) => Err(fault_of(error, failures)),
    }
}
