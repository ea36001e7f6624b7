//! Direct memberships of groups, and the principals to which a principal belongs by chains of them.

ghost use Rattle.std.specs.Prelude.{◌≡◌, ◌==◌, ◌++◌, ◌^◌, ◌-◌, min, ℕ, List, IfOk, IsTrue, not, OnOk, OnErr, map};
ghost use Rattle.std.specs.FinSet as set;
ghost use Rattle.std.specs.BTreeMap.{IsOrdered};
ghost use Rattle.book_lists.specs.Circles.{has_path};
ghost use Rattle.book_lists.specs.GroupEntries.{pairs_in, groups_at};
ghost use Rattle.std.specs.List.Sorted.{IsStrictlySortedBy};
ghost use Rattle.book_lists.specs.Memberships.{membership_cmp, members_of, set_of, GetsGroups, IsDirect, IsReachOf};
ghost use Rattle.book_lists.specs.PrincipalSets.{AreKnown, Grows, GrowsAt, ListsAll, IsAbove, IsClosure, IsFound, IsGroupsOf};
ghost use Rattle.book_lists.specs.Climbing.{Climbs};
ghost use Rattle.book_lists.specs.Principals.{path_cmp};

use crate::principal_sets::PrincipalSet;
use crate::principals::Principal;
use std::alloc::{AllocError, Global};
use std::collections::{BTreeMap, BTreeSet};
use std::marker::Model;

/// One direct membership: a group, and a member of it; they are ordered by the group, and then by the member.
#[derive(Debug, Drop, PartialEq, Eq, PartialOrd, Ord)]
pub struct Membership {
    /// The group.
    pub group: Principal,
    /// The person or group that is a direct member of it.
    pub member: Principal,
}

/// A copy equals its source. An error is want of memory.
impl Clone for Membership {
    ghost is_clone = { λ source copy. copy ≡ source };

    fn clone(&self) -> Result<Membership, AllocError> {
        Ok(Membership {
            group: self.group.clone()?,
            member: self.member.clone()?,
        })
    }
}

/// Direct memberships (RFC 3744, section 2), seen as a set of pairs of a group and a member.
///
/// They are kept by member, so that what a principal belongs to is found without a scan of all pairs.
#[derive(Debug, Drop)]
pub struct Pairs {
    alloc: Global,
    groups: BTreeMap<Principal, PrincipalSet>,
    len: usize,
}

impl Model for Pairs {
    ghost use Rattle.std.specs.Prelude.{◌≡◌, ◌^◌, ◌-◌, min};
    ghost use Rattle.std.specs.FinSet as set;
    ghost use Rattle.std.specs.BTreeMap.{IsOrdered};
    ghost use Rattle.book_lists.specs.Principals.{path_cmp};
    ghost use Rattle.book_lists.specs.GroupEntries.{pairs_in};
    ghost use Rattle.book_lists.specs.Memberships.{membership_cmp, coded_membership};

    ghost Value = { set.FinSet membership_cmp };

    ghost coded = { set.code coded_membership };

    ghost view = { λ p. pairs_in p.groups.entries };

    ghost invariant = { λ p. IsOrdered path_cmp p.groups
        × (p.len ≡ min (set.len (pairs_in p.groups.entries)) (2 ^ 64 - 1)) };
}

/// A copy equals its source. An error is want of memory.
impl Clone for Pairs {
    ghost is_clone = { λ source copy. copy ≡ source };

    fn clone(&self) -> Result<Pairs, AllocError> {
        Ok(Pairs {
            alloc: self.alloc,
            groups: self.groups.clone()?,
            len: self.len,
        })
    }
}

impl Pairs {
    /// No pairs. Nothing is allocated until a pair is added.
    pub fn new(alloc: Global) -> Pairs
        ensures { result ≡ set.empty }
    {
        Pairs {
            alloc,
            groups: BTreeMap::new(alloc),
            len: 0,
        }
    }

    /// Whether the member is a direct member of the group. Takes no memory.
    pub fn has(&self, group: &Principal, member: &Principal) -> bool
        ensures { result ≡ set.contains self.now
            (record { group = group.now; member = member.now }) }
    {
        match self.groups.get(member) {
            Some(groups) => groups.has(group),
            None => false,
        }
    }

    /// How many pairs there are; 2^64 - 1 also where there are more. Takes no memory.
    pub fn len(&self) -> usize
        ensures { result ≡ min (set.len self.now) (2 ^ 64 - 1) }
    {
        self.len
    }

    /// Whether there is no pair. Takes no memory.
    pub fn is_empty(&self) -> bool
        ensures { result ≡ (set.len self.now == 0) }
    {
        self.len == 0
    }

    /// Adds a pair, if it is not there. An error is want of memory; the pairs then stay as they were.
    pub fn add(&mut self, group: Principal, member: Principal) -> Result<(), AllocError>
        ensures ok { OnOk result (self.new ≡ set.insert self.old
            (record { group = group; member = member })) }
        ensures err { OnErr result (self.new ≡ self.old) }
    {
        if self.has(&group, &member) {
            return Ok(());
        }
        add_group(self.alloc, &mut self.groups, group, member)?;
        self.len = self.len.saturating_add(1);
        Ok(())
    }

    /// Whether the member is in a group.
    fn knows(&self, member: &Principal) -> bool
        ensures some { IsTrue result → (group : List ℕ) × IsDirect self.now group member.now }
        ensures none { IsTrue (not result) → (group : List ℕ)
            → IsDirect self.now group member.now → ⊥ }
    {
        match self.groups.get(member) {
            Some(groups) => !groups.is_empty(),
            None => false,
        }
    }

    /// How many groups the member is in, for whoever asks which has the most; no rule rests on it.
    fn count_of(&self, member: &Principal) -> usize {
        match self.groups.get(member) {
            Some(groups) => groups.len(),
            None => 0,
        }
    }

    /// Adds the pairs of a member that has none with these groups.
    fn add_member(&mut self, member: &Principal, groups: PrincipalSet) -> Result<(), AllocError>
        requires { (group : List ℕ) → IsDirect self.old group member.now → ⊥ }
        ensures { OnOk result (GetsGroups self.old member.now (set.contains groups) self.new) }
    {
        let added = groups.len();
        self.groups.insert(member.clone()?, groups)?;
        self.len = self.len.saturating_add(added);
        Ok(())
    }

    /// The pairs, each once, ordered by the group and then by the member. An error is want of memory.
    pub fn list(&self) -> Result<Vec<Membership>, AllocError>
        ensures pairs { IfOk result (λ list. set_of list.items ≡ self.now) }
        ensures in_order { IfOk result (λ list. IsStrictlySortedBy membership_cmp list.items) }
    {
        let mut list = Vec::new(self.alloc);
        for (member, groups) in self.groups.iter() {
            groups.append_memberships(member, &mut list)?;
        }
        in_order(self.alloc, list)
    }

    /// The pairs that have the group. Each member of any group is looked at once. An error is want of memory.
    pub fn members_of(&self, group: &Principal) -> Result<Pairs, AllocError>
        ensures { IfOk result (λ pairs. pairs ≡ members_of self.now group.now) }
    {
        let mut pairs = Pairs::new(self.alloc);
        for (member, groups) in self.groups.iter() {
            if groups.has(group) {
                pairs.add(group.clone()?, member.clone()?)?;
            }
        }
        Ok(pairs)
    }

    /// Whether the principal is a direct member of no group. Takes no memory.
    pub(crate) fn is_in_none(&self, member: &Principal) -> bool
        ensures { IsTrue result → (group : List ℕ) → IsDirect self.now group member.now → ⊥ }
    {
        match self.groups.get(member) {
            Some(_) => false,
            None => true,
        }
    }

    /// The principal, and each group to which a chain of these memberships leads from it.
    pub(crate) fn closure_of(&self, principal: &Principal) -> Result<PrincipalSet, AllocError>
        ensures { IfOk result (IsClosure self.now principal.now) }
    {
        let mut work = Vec::new(self.alloc);
        work.push(principal)?;
        let none_known = Pairs::new(self.alloc);
        search(self.alloc, &self.groups, &none_known, work)
    }

    /// The groups that the principal is a direct member of.
    pub(crate) fn groups_of(&self, member: &Principal) -> Result<PrincipalSet, AllocError>
        ensures { IfOk result (IsGroupsOf self.now member.now) }
    {
        match self.groups.get(member) {
            Some(groups) => Ok(groups.clone()?),
            None => Ok(PrincipalSet::new(self.alloc)),
        }
    }
}

/// The groups and whoever chains lead to from them (RFC 3744, section 2): exactly the pairs of a group and a principal
/// to which a finite chain of these memberships leads from it. Cycles are allowed: a group in one leads to itself. An
/// error is want of memory.
///
/// What is above a member is found before the member, and then taken over whole. So it copies the path of each group
/// above each member, once for each of its direct groups at most.
pub fn closure(pairs: &Pairs) -> Result<Pairs, AllocError>
    ensures { IfOk result (IsReachOf pairs.now) }
{
    let mut reach = Pairs::new(pairs.alloc);
    for (member, _groups) in pairs.groups.iter() {
        climb_first(pairs.alloc, &pairs.groups, member, &mut reach)?;
        complete(pairs.alloc, &pairs.groups, member, &mut reach)?;
    }
    Ok(reach)
}

/// The pairs of a list, each once and in order.
fn in_order(alloc: Global, list: Vec<Membership>) -> Result<Vec<Membership>, AllocError>
    ensures pairs { IfOk result (λ ordered. set_of ordered.items ≡ set_of list.items) }
    ensures in_order { IfOk result (λ ordered. IsStrictlySortedBy membership_cmp ordered.items) }
{
    let pairs: BTreeSet<Membership> = list.into_iter().collect(alloc)?;
    pairs.into_iter().collect(alloc)
}

/// Adds a group to those of a member. Without memory for it the groups stay as they were.
fn add_group(
    alloc: Global,
    groups: &mut BTreeMap<Principal, PrincipalSet>,
    group: Principal,
    member: Principal,
) -> Result<(), AllocError>
    requires { IsOrdered path_cmp groups.old }
    ensures ordered { IsOrdered path_cmp groups.new }
    ensures ok { OnOk result (pairs_in groups.new.entries
        ≡ set.insert (pairs_in groups.old.entries) (record { group = group; member = member })) }
    ensures err { OnErr result (pairs_in groups.new.entries ≡ pairs_in groups.old.entries) }
{
    if let Some(direct) = groups.get_mut(&member) {
        direct.insert(group)?;
        return Ok(());
    }
    let mut direct = PrincipalSet::new(alloc);
    direct.insert(group)?;
    groups.insert(member, direct)?;
    Ok(())
}

/// Adds the groups that the principal is a direct member of to the work of a search.
fn push_groups<'a>(
    groups: &'a BTreeMap<Principal, PrincipalSet>,
    member: &Principal,
    work: &mut Vec<&'a Principal>,
) -> Result<(), AllocError>
    ensures { OnOk result ((added : List (List ℕ))
        × ListsAll (groups_at groups.entry.now.entries member.now) added
        × (map (λ w. w.now) work.new.items ≡ map (λ w. w.now) work.old.items ++ added)) }
{
    match groups.get(member) {
        Some(direct) => direct.append_to(work),
        None => Ok(()),
    }
}

/// Adds the pairs of a member with all groups above it, where it has none yet.
fn complete(
    alloc: Global,
    groups: &BTreeMap<Principal, PrincipalSet>,
    member: &Principal,
    reach: &mut Pairs,
) -> Result<(), AllocError>
    requires ordered { IsOrdered path_cmp groups.now }
    requires known { AreKnown (pairs_in groups.now.entries) reach.old }
    ensures { OnOk result (GrowsAt (pairs_in groups.now.entries) member.now reach.old reach.new) }
{
    if reach.knows(member) {
        return Ok(());
    }
    let above = groups_above(alloc, groups, reach, member)?;
    reach.add_member(member, above)
}

/// Completes what is above a member before it, so that each search ends at what is known. Nothing rests on how far it
/// comes.
fn climb_first(
    alloc: Global,
    groups: &BTreeMap<Principal, PrincipalSet>,
    member: &Principal,
    reach: &mut Pairs,
) -> Result<(), AllocError>
    requires ordered { IsOrdered path_cmp groups.now }
    requires known { AreKnown (pairs_in groups.now.entries) reach.old }
    ensures { OnOk result (Grows (pairs_in groups.now.entries) reach.old reach.new) }
{
    let mut met = PrincipalSet::new(alloc);
    let mut waiting = Vec::new(alloc);
    waiting.push(member)?;
    'steps: for _step in 0..u64::MAX {
        let Some(next) = waiting.pop() else {
            break;
        };
        if reach.knows(next) {
            continue;
        }
        if met.has(next) {
            complete(alloc, groups, next, reach)?;
            continue;
        }
        met.insert(next.clone()?)?;
        waiting.push(next)?;
        push_groups(groups, next, &mut waiting)?;
    }
    Ok(())
}

/// The groups from which a chain leads to a member.
fn groups_above(
    alloc: Global,
    groups: &BTreeMap<Principal, PrincipalSet>,
    known: &Pairs,
    member: &Principal,
) -> Result<PrincipalSet, AllocError>
    requires ordered { IsOrdered path_cmp groups.now }
    requires known { AreKnown (pairs_in groups.now.entries) known.now }
    ensures { IfOk result (IsAbove (pairs_in groups.now.entries) member.now) }
{
    let mut work = Vec::new(alloc);
    push_groups(groups, member, &mut work)?;
    put_largest_on_top(known, &mut work)?;
    search(alloc, groups, known, work)
}

/// Puts the group above which most is known on top of the work once more, so that it is looked at first.
fn put_largest_on_top<'a>(known: &Pairs, work: &mut Vec<&'a Principal>) -> Result<(), AllocError>
    ensures { OnOk result ((q : List ℕ) → has_path (map (λ w. w.now) work.new.items) q
        ≡ has_path (map (λ w. w.now) work.old.items) q) }
{
    let mut top = 0usize;
    let mut most = 0usize;
    'groups: for (place, group) in work.iter().enumerate() {
        let count = known.count_of(group);
        if count > most {
            most = count;
            top = place;
        }
    }
    let Some(group) = work.get(top) else {
        return Ok(());
    };
    let group = *group;
    work.push(group)?;
    Ok(())
}

/// Adds the groups above a member to what was found, where they are known, or else its direct groups to the work.
fn climb<'a>(
    groups: &'a BTreeMap<Principal, PrincipalSet>,
    known: &Pairs,
    member: &Principal,
    found: &mut PrincipalSet,
    work: &mut Vec<&'a Principal>,
) -> Result<(), AllocError>
    requires ordered { IsOrdered path_cmp groups.now }
    requires known { AreKnown (pairs_in groups.now.entries) known.now }
    ensures { OnOk result (Climbs groups.entry.now.entries member.now found.old found.new
        (map (λ w. w.now) work.old.items) (map (λ w. w.now) work.new.items)) }
{
    match known.groups.get(member) {
        Some(above) if !above.is_empty() => found.add_all(above),
        _ => push_groups(groups, member, work),
    }
}

/// Searches upwards from some principals, and no further where what is above is known. The work is what was reached and
/// not yet looked at; each pair adds to it once.
fn search<'a>(
    alloc: Global,
    groups: &'a BTreeMap<Principal, PrincipalSet>,
    known: &Pairs,
    starts: Vec<&'a Principal>,
) -> Result<PrincipalSet, AllocError>
    requires ordered { IsOrdered path_cmp groups.now }
    requires known { AreKnown (pairs_in groups.now.entries) known.now }
    ensures { IfOk result (IsFound (pairs_in groups.now.entries)
        (map (λ w. w.now) starts.entry.items)) }
{
    let mut found = PrincipalSet::new(alloc);
    let mut work = starts;
    while let Some(member) = work.pop() {
        if found.has(member) {
            continue;
        }
        found.insert(member.clone()?)?;
        climb(groups, known, member, &mut found, &mut work)?;
    }
    Ok(found)
}
