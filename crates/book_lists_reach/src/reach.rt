//! Pairs of groups and members as rows of bits, and their closure.

ghost use Rattle.std.specs.Prelude.{◌≡◌, ◌↔◌, ◌<◌, ◌++◌, ◌∷◌, cond, not, ℕ, [], List, vec_len, length, slice_index_or, IfOk, OnOk, IsTrue, IsFalse, ◌&&◌, ◌||◌, true, false};
ghost use Rattle.std.specs.FinSet as set;
ghost use Rattle.std.specs.List.Sorted.{IsStrictlySortedBy};
ghost use Rattle.book_lists.specs.Circles.{has_path};
ghost use Rattle.book_lists.specs.Memberships.{IsReachOf, set_of};
ghost use Rattle.book_lists.specs.Principals.{path_cmp};
ghost use Rattle.book_lists.specs.declared.memberships.Membership.{Membership as MembershipOf};
ghost use Rattle.book_lists_reach.specs.Numbering.{HasEnds, is_listed};
ghost use Rattle.book_lists_reach.specs.Pairs.{bit_alone, bit_between, pairs_by, pairs_in_rows, row_by};

use crate::bits::Bits;
use crate::closing::{numbers_of, take_over_of};
use crate::numbering::{place_of, places_in, principals_of};
use book_lists::{Membership, Pairs, Principal};
use std::alloc::{AllocError, Global};
use std::marker::Model;

/// Pairs of a group and a member, seen as a set of them: a row of bits for each principal that some pair has.
#[derive(Debug, Drop)]
pub struct Reach {
    alloc: Global,
    principals: Vec<Principal>,
    rows: Vec<Bits>,
}

impl Model for Reach {
    ghost use Rattle.std.specs.Prelude.{◌≡◌, vec_len};
    ghost use Rattle.std.specs.FinSet as set;
    ghost use Rattle.std.specs.List.Sorted.{IsStrictlySortedBy};
    ghost use Rattle.book_lists.specs.Memberships.{membership_cmp, coded_membership};
    ghost use Rattle.book_lists.specs.Principals.{path_cmp};
    ghost use Rattle.book_lists_reach.specs.Pairs.{pairs_in_rows};

    ghost Value = { set.FinSet membership_cmp };

    ghost coded = { set.code coded_membership };

    ghost view = { λ r. pairs_in_rows r.principals.items r.rows.items };

    ghost invariant = { λ r. IsStrictlySortedBy path_cmp r.principals.items
        × (vec_len r.rows ≡ vec_len r.principals) };
}

/// So many rows without a bit.
fn no_rows(alloc: Global, count: usize) -> Result<Vec<Bits>, AllocError>
    ensures len { IfOk result (λ rows. vec_len rows ≡ count) }
    ensures none { IfOk result (λ rows. (i : ℕ) → slice_index_or rows.items i [] ≡ []) }
{
    let mut rows = Vec::new(alloc);
    for _row in 0..count {
        rows.push(Bits::new(alloc))?;
    }
    Ok(rows)
}

/// Adds a pair, and tells whether both principals have places.
fn mark(
    principals: &[Principal],
    rows: &mut Vec<Bits>,
    group: &Principal,
    member: &Principal,
) -> Result<bool, AllocError>
    requires in_order { IsStrictlySortedBy path_cmp principals.now }
    requires even { vec_len rows.old ≡ length principals.now }
    ensures len { vec_len rows.new ≡ vec_len rows.old }
    ensures marked { IfOk result (λ marked. IsTrue marked
        → pairs_in_rows principals.now rows.new.items
        ≡ set.insert (pairs_in_rows principals.now rows.old.items)
        (record { group = group.now; member = member.now })) }
    ensures missing { IfOk result (λ marked. IsFalse marked
        → (has_path principals.now group.now && has_path principals.now member.now) ≡ false) }
{
    let Some(i) = place_of(principals, group) else {
        return Ok(false);
    };
    let Some(j) = place_of(principals, member) else {
        return Ok(false);
    };
    rows[i].insert(j)?;
    Ok(true)
}

/// Adds the pairs of a list, and tells whether each of their principals has a place.
fn mark_all(
    principals: &[Principal],
    rows: &mut Vec<Bits>,
    list: &[Membership],
) -> Result<bool, AllocError>
    requires in_order { IsStrictlySortedBy path_cmp principals.now }
    requires even { vec_len rows.old ≡ length principals.now }
    ensures len { vec_len rows.new ≡ vec_len rows.old }
    ensures marked { IfOk result (λ marked. IsTrue marked → (m : MembershipOf)
        → set.contains (pairs_in_rows principals.now rows.new.items) m
        ≡ (is_listed list.now m || set.contains (pairs_in_rows principals.now rows.old.items) m)) }
    ensures missing { IfOk result (λ marked. IsFalse marked → (m : MembershipOf)
        × (is_listed list.now m ≡ true)
        × ((has_path principals.now m.group && has_path principals.now m.member) ≡ false)) }
{
    for pair in list {
        if !mark(principals, rows, &pair.group, &pair.member)? {
            return Ok(false);
        }
    }
    Ok(true)
}

/// Whether the rows have the same words, where it is true.
fn same_words(rows: &[Bits], others: &[Bits]) -> bool
    ensures { IsTrue result → rows.now ≡ others.now }
{
    if rows.len() != others.len() {
        return false;
    }
    for i in 0..rows.len() {
        if !rows[i].has_words_of(&others[i]) {
            return false;
        }
    }
    true
}

/// Goes through the place of each principal that is a member: each row that has it takes over the row at it. No row
/// gets a number that none had, so the other places are passed over.
fn go_through(alloc: Global, rows: &mut Vec<Bits>) -> Result<(), AllocError>
    ensures len { vec_len rows.new ≡ vec_len rows.old }
    ensures ok { OnOk result ((principals : List (List ℕ))
        → IsStrictlySortedBy path_cmp principals → length principals ≡ vec_len rows.old
        → IsReachOf (pairs_in_rows principals rows.old.items)
        (pairs_in_rows principals rows.new.items)) }
{
    let members = numbers_of(alloc, rows.as_slice())?;
    for place in 0..rows.len() {
        take_over_of(rows, &members, place)?;
    }
    Ok(())
}

/// The groups and whoever chains lead to from them (RFC 3744, section 2): `Reach::of`, and then its closure. An error is
/// want of memory.
pub fn reach_of(alloc: Global, pairs: &Pairs) -> Result<Reach, AllocError>
    ensures { IfOk result (IsReachOf pairs.now) }
{
    let direct = Reach::of(alloc, pairs)?;
    direct.closed()
}

/// Whether the row at the one place has the other, where both are places.
fn has_between(rows: &[Bits], i: Option<usize>, j: Option<usize>) -> bool
    ensures { result ≡ bit_between rows.now i j }
{
    let Some(i) = i else {
        return false;
    };
    let Some(j) = j else {
        return false;
    };
    match rows.get(i) {
        Some(row) => row.has(j),
        None => false,
    }
}

/// Whether the rows have the bit, and others have none at the places there.
fn is_alone(rows: &[Bits], others: &[Bits], places: &[Option<usize>], i: usize, j: usize) -> bool
    requires row { i < length rows.now }
    requires group { i < length places.now }
    requires member { j < length places.now }
    ensures { result ≡ bit_alone rows.now others.now places.now i j }
{
    rows[i].has(j) && !has_between(others, places[i], places[j])
}

/// Adds a pair to a list, if it is wanted.
fn push_where(
    wanted: bool,
    group: &Principal,
    member: &Principal,
    list: &mut Vec<Membership>,
) -> Result<(), AllocError>
    ensures { OnOk result (list.new.items ≡ list.old.items
        ++ cond wanted (record { group = group.now; member = member.now } ∷ []) []) }
{
    if wanted {
        let group = group.clone()?;
        let member = member.clone()?;
        list.push(Membership { group, member })?;
    }
    Ok(())
}

/// Adds the pairs of one group to a list, unless other rows have them.
fn push_row(
    principals: &[Principal],
    rows: &[Bits],
    others: &[Bits],
    places: &[Option<usize>],
    i: usize,
    list: &mut Vec<Membership>,
) -> Result<(), AllocError>
    requires group { i < length principals.now }
    requires row { i < length rows.now }
    requires places { length places.now ≡ length principals.now }
    ensures { OnOk result (list.new.items ≡ list.old.items
        ++ row_by principals.now (slice_index_or principals.now i [])
        (bit_alone rows.now others.now places.now i)) }
{
    if rows[i].is_bare() {
        return Ok(());
    }
    for j in 0..principals.len() {
        let alone = is_alone(rows, others, places, i, j);
        push_where(alone, &principals[i], &principals[j], list)?;
    }
    Ok(())
}

/// The pairs of rows that other rows have not.
fn listed(
    alloc: Global,
    principals: &[Principal],
    rows: &[Bits],
    others: &[Bits],
    places: &[Option<usize>],
) -> Result<Vec<Membership>, AllocError>
    requires even { length rows.now ≡ length principals.now }
    requires places { length places.now ≡ length principals.now }
    ensures { IfOk result (λ list. list.items ≡ pairs_by principals.now principals.now
        (bit_alone rows.now others.now places.now)) }
{
    let mut list = Vec::new(alloc);
    for i in 0..principals.len() {
        push_row(principals, rows, others, places, i, &mut list)?;
    }
    Ok(list)
}

/// The pairs of rows over these principals.
fn of_rows(alloc: Global, principals: &Vec<Principal>, rows: Vec<Bits>) -> Result<Reach, AllocError>
    requires in_order { IsStrictlySortedBy path_cmp principals.now.items }
    requires even { vec_len rows ≡ vec_len principals.now }
    ensures { IfOk result (λ reach. reach ≡ pairs_in_rows principals.now.items rows.items) }
{
    let principals = principals.clone()?;
    Ok(Reach {
        alloc,
        principals,
        rows,
    })
}

/// Whether there are the same pairs.
fn are_same(reach: &Reach, others: &Reach) -> Result<bool, AllocError>
    ensures { IfOk result (λ same. IsTrue same ↔ (others.now ≡ reach.now)) }
{
    let gone = reach.without(others)?;
    if !gone.is_empty() {
        return Ok(false);
    }
    let come = others.without(reach)?;
    Ok(come.is_empty())
}

impl Reach {
    /// The pairs, as rows. An error is want of memory.
    pub fn of(alloc: Global, pairs: &Pairs) -> Result<Reach, AllocError>
        ensures { IfOk result (λ reach. reach ≡ pairs.now) }
    {
        let list = pairs.list()?;
        let principals = principals_of(alloc, list.as_slice())?;
        let mut rows = no_rows(alloc, principals.len())?;
        let _all = mark_all(principals.as_slice(), &mut rows, list.as_slice())?;
        Ok(Reach {
            alloc,
            principals,
            rows,
        })
    }

    /// The groups and whoever chains of these pairs lead to from them (RFC 3744, section 2): exactly the pairs of a
    /// group and a principal to which a finite chain leads from it. Cycles are allowed: a group in one leads to itself.
    /// An error is want of memory.
    ///
    /// Its steps are as many as the groups times the groups that are members, and one row of bits is taken over for each
    /// pair of two groups at most.
    pub fn closed(self) -> Result<Reach, AllocError>
        ensures { IfOk result (IsReachOf self) }
    {
        let mut reach = self;
        go_through(reach.alloc, &mut reach.rows)?;
        Ok(reach)
    }

    /// Whether the pair is there. Takes no memory.
    pub fn has(&self, group: &Principal, member: &Principal) -> bool
        ensures { result ≡ set.contains self.now
            (record { group = group.now; member = member.now }) }
    {
        let Some(i) = place_of(self.principals.as_slice(), group) else {
            return false;
        };
        let Some(j) = place_of(self.principals.as_slice(), member) else {
            return false;
        };
        self.rows[i].has(j)
    }

    /// No pairs. Nothing is allocated.
    fn none(alloc: Global) -> Reach
        ensures { result ≡ set.empty }
    {
        Reach {
            alloc,
            principals: Vec::new(alloc),
            rows: Vec::new(alloc),
        }
    }

    /// The pairs that are not among others, each once, by the group and then by the member. An error is want of memory.
    pub fn without(&self, others: &Reach) -> Result<Vec<Membership>, AllocError>
        ensures { IfOk result (λ list. (m : MembershipOf) → is_listed list.items m
            ≡ (set.contains self.now m && not (set.contains others.now m))) }
    {
        let principals = self.principals.as_slice();
        let places = places_in(self.alloc, principals, others.principals.as_slice())?;
        let rows = self.rows.as_slice();
        listed(
            self.alloc,
            principals,
            rows,
            others.rows.as_slice(),
            places.as_slice(),
        )
    }

    /// All pairs, each once, by the group and then by the member. An error is want of memory.
    pub fn list(&self) -> Result<Vec<Membership>, AllocError>
        ensures { IfOk result (λ list. set_of list.items ≡ self.now) }
    {
        let nothing = Reach::none(self.alloc);
        self.without(&nothing)
    }

    /// Whether these are exactly the pairs of a list. An error is want of memory.
    pub fn are_those_of(&self, list: &[Membership]) -> Result<bool, AllocError>
        ensures { IfOk result (λ same. IsTrue same ↔ (set_of list.now ≡ self.now)) }
    {
        let mut rows = no_rows(self.alloc, self.principals.len())?;
        if !mark_all(self.principals.as_slice(), &mut rows, list)? {
            return Ok(false);
        }
        if same_words(rows.as_slice(), self.rows.as_slice()) {
            return Ok(true);
        }
        let told = of_rows(self.alloc, &self.principals, rows)?;
        are_same(self, &told)
    }
}
