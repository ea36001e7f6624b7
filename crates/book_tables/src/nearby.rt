//! The pairs near those whose direct groups become others, where the members of a group are set.

ghost use Rattle.std.specs.Prelude.{◌≡◌, ◌&&◌, ◌++◌, ℕ, List, [], ◌∷◌, IfOk, IfSome, OnOk};
ghost use Rattle.std.specs.FinSet as set;
ghost use Rattle.book_lists.specs.Circles.{has_path};
ghost use Rattle.book_office.specs.Edits.{members_set};
ghost use Rattle.book_tables.specs.Inside.{Inside, ReadsInside};
ghost use Rattle.book_tables.specs.Nearby.{AreChanged, GoesOn, HasNearby, IsBelow, PushesChanged};
ghost use Rattle.book_tables.specs.Searching.{ArePairsAt, HasSearched};
ghost use Rattle.book_tables.specs.declared.searching.Way.TheVariants.{Up};

use crate::searching::{Met, Search, Way};
use book_lists::{Membership, Pairs, Principal};
use book_office::{StoreFault, with_members};
use std::alloc::{AllocError, Global};

/// How many steps a search takes at most.
const MOST_STEPS: u32 = 4_000;

/// What tells direct members.
pub(crate) trait Directs {
    ghost inside: { Self → Inside };

    /// The pairs of one group, or of one member: one look-up.
    fn look(&mut self, alloc: Global, way: Way, at: &Principal) -> Result<Pairs, StoreFault>
        ensures { ReadsInside (inside self.old) (inside self.new) result
            (λ o pairs. ArePairsAt o.pairs way at.now pairs) };

    /// All pairs.
    fn all(&mut self, alloc: Global) -> Result<Pairs, StoreFault>
        ensures { ReadsInside (inside self.old) (inside self.new) result
            (λ o pairs. pairs ≡ o.pairs) };
}

/// Adds the member of each pair that is not among others.
fn push_changed(
    list: &[Membership],
    others: &Pairs,
    starts: &mut Vec<Principal>,
) -> Result<(), AllocError>
    ensures { OnOk result (PushesChanged list.now others.now starts.old.items starts.new.items) }
{
    'pairs: for pair in list {
        if others.has(&pair.group, &pair.member) {
            continue;
        }
        starts.push(pair.member.clone()?)?;
    }
    Ok(())
}

/// Those that are members of a group now or afterwards, and not both.
fn changed(
    alloc: Global,
    now: &Pairs,
    group: &Principal,
    members: &[Principal],
) -> Result<Vec<Principal>, AllocError>
    ensures { IfOk result (λ starts. AreChanged now.now (members_set now.now group.now members.now)
        (has_path starts.items)) }
{
    let new = with_members(alloc, now, group, members)?;
    let before = now.list()?;
    let after = new.list()?;
    let mut starts = Vec::new(alloc);
    push_changed(before.as_slice(), &new, &mut starts)?;
    push_changed(after.as_slice(), now, &mut starts)?;
    Ok(starts)
}

/// These principals and one more.
fn and_one(principals: Vec<Principal>, one: &Principal) -> Result<Vec<Principal>, AllocError>
    ensures { IfOk result (λ all. all.items ≡ principals.items ++ one.now ∷ []) }
{
    let mut all = principals;
    all.push(one.clone()?)?;
    Ok(all)
}

/// The principals of a list that were met.
pub(crate) fn met_among(
    alloc: Global,
    members: &[Principal],
    met: &Met,
) -> Result<Vec<Principal>, AllocError>
    ensures { IfOk result (λ kept. (q : List ℕ) → has_path kept.items q
        ≡ (has_path members.now q && set.contains met.now q)) }
{
    let mut kept = Vec::new(alloc);
    'members: for member in members {
        if met.has(member) {
            kept.push(member.clone()?)?;
        }
    }
    Ok(kept)
}

/// Goes on with a search, by one look-up at most, and tells whether there was something left to look at.
fn step<D: Directs>(
    alloc: Global,
    directs: &mut D,
    way: Way,
    search: &mut Search,
) -> Result<bool, StoreFault>
    ensures { ReadsInside (D.inside directs.old) (D.inside directs.new) result
        (λ o more. GoesOn o.pairs way search.old search.new more) }
{
    let Some(next) = search.work.pop() else {
        return Ok(false);
    };
    if search.met.has(&next) {
        return Ok(true);
    }
    let here = directs.look(alloc, way, &next)?;
    search.take(way, next, &here)?;
    Ok(true)
}

/// A search from some principals on; none where it takes too many steps.
fn search<D: Directs>(
    alloc: Global,
    directs: &mut D,
    way: Way,
    starts: Vec<Principal>,
) -> Result<Option<Search>, StoreFault>
    ensures { ReadsInside (D.inside directs.old) (D.inside directs.new) result
        (λ o found. IfSome found (HasSearched o.pairs way starts.items)) }
{
    let mut search = Search::new(alloc, starts);
    'steps: for _step in 0..MOST_STEPS {
        let more = step(alloc, directs, way, &mut search)?;
        if !more {
            return Ok(Some(search));
        }
    }
    Ok(None)
}

/// The members that come or go.
fn starts<D: Directs>(
    alloc: Global,
    directs: &mut D,
    group: &Principal,
    members: &[Principal],
) -> Result<Vec<Principal>, StoreFault>
    ensures { ReadsInside (D.inside directs.old) (D.inside directs.new) result
        (λ o starts. AreChanged o.pairs (members_set o.pairs group.now members.now)
        (has_path starts.items)) }
{
    let now = directs.look(alloc, Way::Down, group)?;
    Ok(changed(alloc, &now, group, members)?)
}

/// The members that come or go, and all that is below them; none where a search takes too many steps.
fn below<D: Directs>(
    alloc: Global,
    directs: &mut D,
    group: &Principal,
    members: &[Principal],
) -> Result<Option<Vec<Principal>>, StoreFault>
    ensures { ReadsInside (D.inside directs.old) (D.inside directs.new) result
        (λ o below. IfSome below (λ b. IsBelow o.pairs
        (members_set o.pairs group.now members.now) (has_path b.items))) }
{
    let starts = starts(alloc, directs, group, members)?;
    let found = search(alloc, directs, Way::Down, starts)?;
    match found {
        Some(search) => Ok(Some(search.into_all())),
        None => Ok(None),
    }
}

/// A search upwards from some principals and one more.
fn search_up<D: Directs>(
    alloc: Global,
    directs: &mut D,
    below: Vec<Principal>,
    group: &Principal,
) -> Result<Option<Search>, StoreFault>
    ensures { ReadsInside (D.inside directs.old) (D.inside directs.new) result
        (λ o found. IfSome found (HasSearched o.pairs Up (below.items ++ group.now ∷ []))) }
{
    let starts = and_one(below, group)?;
    search(alloc, directs, Way::Up, starts)
}

/// The pairs of those and of the group with the groups above them; none where a search takes too many steps.
pub(crate) fn near<D: Directs>(
    alloc: Global,
    directs: &mut D,
    group: &Principal,
    members: &[Principal],
) -> Result<Option<Search>, StoreFault>
    ensures { ReadsInside (D.inside directs.old) (D.inside directs.new) result
        (λ o near. IfSome near (HasNearby o.pairs group.now members.now)) }
{
    let found = below(alloc, directs, group, members)?;
    match found {
        Some(below) => search_up(alloc, directs, below, group),
        None => Ok(None),
    }
}
