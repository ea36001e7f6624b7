//! How `reach` is renewed: the pairs that go and those that come where direct memberships become others.

ghost use Rattle.std.specs.Prelude.{◌≡◌, ◌&&◌, not, IfOk, map};
ghost use Rattle.std.specs.FinSet as set;
ghost use Rattle.std.specs.List.{list_any};
ghost use Rattle.std.specs.Ordering.{eq_by_cmp};
ghost use Rattle.book_lists.specs.Memberships.{membership_cmp};
ghost use Rattle.book_lists.specs.declared.memberships.Membership.{Membership as MembershipOf};
ghost use Rattle.book_office.specs.Edits.{members_set};
ghost use Rattle.book_tables.specs.Inside.{ReadsInside};
ghost use Rattle.book_tables_rows.specs.Reach.{pair_said};
ghost use Rattle.book_tables.specs.Reach.{Renews, RenewsNearby, is_among, pair_of};

use crate::nearby::{Directs, met_among, near};
use crate::searching::Search;
use book_lists::{Membership, Pairs, Principal};
use book_lists_reach::{Reach, reach_of};
use book_office::{StoreFault, with_members};
use book_tables_rows::ReachRow;
use std::alloc::{AllocError, Global};

/// The rows of `reach` that are taken out, and those that are added.
#[derive(Debug, Drop)]
pub(crate) struct Renewal {
    /// The rows that go.
    pub(crate) gone: Vec<ReachRow>,
    /// The rows that come.
    pub(crate) come: Vec<ReachRow>,
}

/// The row of a pair.
fn row_of(alloc: Global, pair: &Membership) -> Result<ReachRow, AllocError>
    ensures { IfOk result (λ row. pair_said row ≡ pair_of pair.now) }
{
    Ok(ReachRow {
        group: String::from_str(alloc, pair.group.text())?,
        member: String::from_str(alloc, pair.member.text())?,
    })
}

/// The rows of pairs.
fn rows_of_pairs(alloc: Global, list: &[Membership]) -> Result<Vec<ReachRow>, AllocError>
    ensures { IfOk result (λ rows. (m : MembershipOf) → is_among (map pair_said rows.items) m
        ≡ list_any (eq_by_cmp membership_cmp m) list.now) }
{
    let mut rows = Vec::new(alloc);
    'pairs: for pair in list {
        rows.push(row_of(alloc, pair)?)?;
    }
    Ok(rows)
}

/// The rows of the pairs that are not among others.
fn without(alloc: Global, pairs: &Reach, others: &Reach) -> Result<Vec<ReachRow>, AllocError>
    ensures { IfOk result (λ rows. (m : MembershipOf) → is_among (map pair_said rows.items) m
        ≡ (set.contains pairs.now m && not (set.contains others.now m))) }
{
    let list = pairs.without(others)?;
    rows_of_pairs(alloc, list.as_slice())
}

/// The rows of all pairs.
pub(crate) fn all_pairs(alloc: Global, pairs: &Reach) -> Result<Vec<ReachRow>, AllocError>
    ensures { IfOk result (λ rows. (m : MembershipOf)
        → is_among (map pair_said rows.items) m ≡ set.contains pairs.now m) }
{
    let list = pairs.list()?;
    rows_of_pairs(alloc, list.as_slice())
}

/// What goes and what comes where direct memberships become others: the closures of both, and their difference.
fn renewal_between(alloc: Global, old: Reach, new: &Pairs) -> Result<Renewal, AllocError>
    ensures { IfOk result (λ r. Renews old new.now (map pair_said r.gone.items)
        (map pair_said r.come.items)) }
{
    let before = old.closed()?;
    let after = reach_of(alloc, new)?;
    let gone = without(alloc, &before, &after)?;
    let come = without(alloc, &after, &before)?;
    Ok(Renewal { gone, come })
}

/// What goes and what comes where direct memberships become others. Nothing is closed where they are the same. An error
/// is want of memory.
pub(crate) fn renewal_of(alloc: Global, old: &Pairs, new: &Pairs) -> Result<Renewal, AllocError>
    ensures { IfOk result (λ r. Renews old.now new.now (map pair_said r.gone.items)
        (map pair_said r.come.items)) }
{
    let direct = Reach::of(alloc, old)?;
    let list = new.list()?;
    if direct.are_those_of(list.as_slice())? {
        return Ok(Renewal {
            gone: Vec::new(alloc),
            come: Vec::new(alloc),
        });
    }
    drop(list);
    renewal_between(alloc, direct, new)
}

/// What goes and what comes where a group gets direct members.
fn renewal_for(
    alloc: Global,
    pairs: &Pairs,
    group: &Principal,
    members: &[Principal],
) -> Result<Renewal, AllocError>
    ensures { IfOk result (λ r. Renews pairs.now (members_set pairs.now group.now members.now)
        (map pair_said r.gone.items) (map pair_said r.come.items)) }
{
    let new = with_members(alloc, pairs, group, members)?;
    renewal_of(alloc, pairs, &new)
}

/// What goes and what comes of the pairs that a search has found.
fn renewal_near(
    alloc: Global,
    near: &Search,
    group: &Principal,
    members: &[Principal],
) -> Result<Renewal, AllocError>
    ensures { IfOk result (λ r. RenewsNearby near.now group.now members.now
        (map pair_said r.gone.items) (map pair_said r.come.items)) }
{
    let kept = met_among(alloc, members, &near.met)?;
    renewal_for(alloc, &near.pairs, group, kept.as_slice())
}

/// What goes and what comes, by all pairs.
fn whole_renewal<D: Directs>(
    alloc: Global,
    directs: &mut D,
    group: &Principal,
    members: &[Principal],
) -> Result<Renewal, StoreFault>
    ensures { ReadsInside (D.inside directs.old) (D.inside directs.new) result
        (λ o r. Renews o.pairs (members_set o.pairs group.now members.now)
        (map pair_said r.gone.items) (map pair_said r.come.items)) }
{
    let pairs = directs.all(alloc)?;
    let renewal = renewal_for(alloc, &pairs, group, members)?;
    Ok(renewal)
}

/// What goes and what comes where a group gets direct members: by the pairs near those that come or go, or by all pairs
/// where a search takes too many steps.
pub(crate) fn renewal_at<D: Directs>(
    alloc: Global,
    directs: &mut D,
    group: &Principal,
    members: &[Principal],
) -> Result<Renewal, StoreFault>
    ensures { ReadsInside (D.inside directs.old) (D.inside directs.new) result
        (λ o r. Renews o.pairs (members_set o.pairs group.now members.now)
        (map pair_said r.gone.items) (map pair_said r.come.items)) }
{
    let found = near(alloc, directs, group, members)?;
    let Some(near) = found else {
        return whole_renewal(alloc, directs, group, members);
    };
    let renewal = renewal_near(alloc, &near, group, members)?;
    Ok(renewal)
}
