//! `reach` becomes what chains of the direct members lead to, where it is not.

ghost use Rattle.std.specs.Prelude.{◌≡◌, List, [], IfOk, IfSome, IsTrue, OnOk};
ghost use Rattle.std.specs.FinSet as set;
ghost use Rattle.std.specs.List.{list_any};
ghost use Rattle.std.specs.Ordering.{eq_by_cmp};
ghost use Rattle.sqlite.specs.declared.types.Value.TheVariants.{Text};
ghost use Rattle.sqlite.specs.Held.{state};
ghost use Rattle.sqlite.specs.State.{HasCleanDisk, Survives};
ghost use Rattle.book_lists.specs.Memberships.{IsReachOf, Memberships, membership_cmp};
ghost use Rattle.book_lists.specs.declared.memberships.Membership.{Membership as MembershipOf};
ghost use Rattle.book_tables_rows.specs.Lists.{pair_group, pair_member};
ghost use Rattle.book_tables_rows.specs.Steps.{Becomes, Keeps};
ghost use Rattle.book_tables_rows.specs.Writes as writes;
ghost use Rattle.book_tables_rows.specs.Writes.{Pair};
ghost use Rattle.book_tables.specs.Listing.{tells_member};
ghost use Rattle.book_tables.specs.Reach.{TellsSettled, is_among};

use crate::members::pairs_of;
use crate::renewals::all_pairs;
use book_lists::{Membership, Principal};
use book_lists_reach::{Reach, reach_of};
use book_tables_rows::{clear_reach, member_rows, reach_rows, renew_reach};
use sqlite::{Alter, Error, Row, Transaction};
use std::alloc::{AllocError, Global};

/// The principal with this path, if it is one's.
fn principal_at(alloc: Global, path: &str) -> Result<Option<Principal>, AllocError>
    ensures { IfOk result (λ principal. IfSome principal (λ p. p ≡ path.now)) }
{
    let Some(principal) = Principal::parse(alloc, path)? else {
        return Ok(None);
    };
    if principal.text() != path {
        return Ok(None);
    }
    Ok(Some(principal))
}

/// The pair of group and member that a row tells, if it tells one.
fn pair_told(alloc: Global, row: &Row) -> Result<Option<Membership>, Error>
    ensures group { IfOk result (λ pair. IfSome pair (λ m. pair_group row.now ≡ Text m.group)) }
    ensures member { IfOk result (λ pair. IfSome pair (λ m. pair_member row.now ≡ Text m.member)) }
{
    let group: String = row.get(0)?;
    let member: String = row.get(1)?;
    let Some(group) = principal_at(alloc, group.as_str())? else {
        return Ok(None);
    };
    let Some(member) = principal_at(alloc, member.as_str())? else {
        return Ok(None);
    };
    Ok(Some(Membership { group, member }))
}

/// The pairs that rows tell; none where one tells none.
fn pairs_told(alloc: Global, rows: &[Row]) -> Result<Option<Vec<Membership>>, Error>
    ensures { IfOk result (λ pairs. IfSome pairs (λ p. (m : MembershipOf)
        → list_any (eq_by_cmp membership_cmp m) p.items ≡ list_any (tells_member m) rows.now)) }
{
    let mut pairs = Vec::new(alloc);
    'rows: for row in rows {
        let Some(pair) = pair_told(alloc, row)? else {
            return Ok(None);
        };
        pairs.push(pair)?;
    }
    Ok(Some(pairs))
}

/// Whether rows tell exactly those pairs, where it is true.
fn tell_all(alloc: Global, rows: &[Row], wanted: &Reach) -> Result<bool, Error>
    ensures { IfOk result (λ same. IsTrue same → (m : MembershipOf)
        → list_any (tells_member m) rows.now ≡ set.contains wanted.now m) }
{
    let Some(told) = pairs_told(alloc, rows)? else {
        return Ok(false);
    };
    Ok(wanted.are_those_of(told.as_slice())?)
}

/// The pairs that chains of the direct members, which rows tell, lead to.
fn wanted_of(alloc: Global, members: &[Row]) -> Result<Reach, Error>
    ensures { IfOk result (λ wanted. (pairs : Memberships)
        × ((m : MembershipOf) → set.contains pairs m ≡ list_any (tells_member m) members.now)
        × IsReachOf pairs wanted) }
{
    let pairs = pairs_of(alloc, members)?;
    Ok(reach_of(alloc, &pairs)?)
}

/// Takes out all rows of `reach`, and adds those of pairs.
fn write_reach<S: Alter>(
    alloc: Global,
    transaction: &mut Transaction<'_, S>,
    wanted: &Reach,
) -> Result<(), Error>
    ensures same_reference { transaction.new.conn.ghost_name ≡ transaction.old.conn.ghost_name }
    ensures survives { Survives (state S.Store transaction.old.conn.now)
        (state S.Store transaction.new.conn.now) (λ _. ⊥) }
    ensures kept { Keeps (state S.Store transaction.old.conn.now)
        (state S.Store transaction.new.conn.now) }
    ensures done { HasCleanDisk (state S.Store transaction.new.conn.now)
        → IsTrue (state S.Store transaction.old.conn.now).in_transaction
        → OnOk result ((come : List Pair)
        × ((m : MembershipOf) → is_among come m ≡ set.contains wanted.now m)
        × Becomes (state S.Store transaction.old.conn.now)
        (state S.Store transaction.new.conn.now)
        (λ rows. writes.renew_reach [] come (writes.clear_reach rows))) }
{
    let all = all_pairs(alloc, wanted)?;
    clear_reach(transaction)?;
    renew_reach(transaction, &[], all.as_slice())?;
    Ok(())
}

/// Makes `reach` what chains of the direct members lead to, in any transaction, and tells whether it was something
/// else: its rows are then taken out, whatever they are, and written anew. All rows of `member` and `reach` are read.
pub fn settle_reach<S: Alter>(
    alloc: Global,
    transaction: &mut Transaction<'_, S>,
) -> Result<bool, Error>
    ensures same_reference { transaction.new.conn.ghost_name ≡ transaction.old.conn.ghost_name }
    ensures survives { Survives (state S.Store transaction.old.conn.now)
        (state S.Store transaction.new.conn.now) (λ _. ⊥) }
    ensures kept { Keeps (state S.Store transaction.old.conn.now)
        (state S.Store transaction.new.conn.now) }
    ensures told { HasCleanDisk (state S.Store transaction.new.conn.now)
        → IsTrue (state S.Store transaction.old.conn.now).in_transaction
        → IfOk result (TellsSettled (state S.Store transaction.old.conn.now)
        (state S.Store transaction.new.conn.now)) }
{
    let members = member_rows(transaction)?;
    let wanted = wanted_of(alloc, &members)?;
    drop(members);
    let rows = reach_rows(transaction)?;
    if tell_all(alloc, &rows, &wanted)? {
        return Ok(false);
    }
    drop(rows);
    write_reach(alloc, transaction, &wanted)?;
    Ok(true)
}
