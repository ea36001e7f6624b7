//! Direct memberships in order, in which those of one group lie side by side.

ghost use Rattle.std.specs.Prelude.{◌≡◌, [], IfOk, filter, map};
ghost use Rattle.std.specs.List.Sorted.{IsStrictlySortedBy};
ghost use Rattle.std.specs.Ordering.{is_le, is_lt};
ghost use Rattle.std.specs.Str.{bytes_eq};
ghost use Rattle.book_lists.specs.Memberships.{membership_cmp, set_of};
ghost use Rattle.book_lists.specs.Principals.{path_cmp};
ghost use Rattle.book_lists.specs.declared.memberships.Membership.{Membership as MembershipOf};
ghost use Rattle.book_office_listings.specs.Values.{members_in};

use book_lists::{Membership, Pairs, Principal};
use book_office_values::Items;
use std::alloc::{AllocError, Global};
use std::marker::Model;

/// Direct memberships, each once, ordered by the group and then by the member, which contracts see as their list.
#[derive(Debug, Drop)]
pub struct OrderedPairs {
    list: Vec<Membership>,
}

impl Model for OrderedPairs {
    ghost use Rattle.std.specs.Prelude.{List};
    ghost use Rattle.std.specs.Coded.{coded_list};
    ghost use Rattle.std.specs.List.Sorted.{IsStrictlySortedBy};
    ghost use Rattle.book_lists.specs.Memberships.{coded_membership, membership_cmp};
    ghost use Rattle.book_lists.specs.declared.memberships.Membership.{Membership as MembershipOf};

    ghost Value = { List MembershipOf };

    ghost coded = { coded_list coded_membership };

    ghost view = { λ p. p.list.items };

    ghost invariant = { λ p. IsStrictlySortedBy membership_cmp p.list.items };
}

impl OrderedPairs {
    /// No memberships. Takes no memory.
    pub(crate) fn none(alloc: Global) -> OrderedPairs
        ensures { result ≡ [] }
    {
        OrderedPairs {
            list: Vec::new(alloc),
        }
    }

    /// The pairs in order. An error is want of memory.
    pub(crate) fn from_pairs(pairs: &Pairs) -> Result<OrderedPairs, AllocError>
        ensures pairs { IfOk result (λ list. set_of list ≡ pairs.now) }
        ensures in_order { IfOk result (λ list. IsStrictlySortedBy membership_cmp list) }
    {
        let list = pairs.list()?;
        Ok(OrderedPairs { list })
    }

    /// The members of a group, in order. Its pairs are found by two binary searches. An error is want of memory.
    pub(crate) fn members_of(
        &self,
        alloc: Global,
        group: &Principal,
    ) -> Result<Items<Principal>, AllocError>
        ensures { IfOk result (λ members. members ≡ members_in self.now group.now) }
    {
        let pairs = pairs_of(self.list.as_slice(), group);
        members_among(alloc, pairs)
    }
}

/// Whether the group of the pair is below the group.
fn is_below(pair: &Membership, group: &Principal) -> bool
    ensures { result ≡ is_lt (path_cmp pair.now.group group.now) }
{
    pair.group < *group
}

/// Whether the group of the pair is not above the group.
fn is_up_to(pair: &Membership, group: &Principal) -> bool
    ensures { result ≡ is_le (path_cmp pair.now.group group.now) }
{
    pair.group <= *group
}

/// Of pairs in order those that have the group.
fn pairs_of<'a>(pairs: &'a [Membership], group: &Principal) -> &'a [Membership]
    ensures { IsStrictlySortedBy membership_cmp pairs.now
        → result.now ≡ filter (λ (m : MembershipOf). bytes_eq m.group group.now) pairs.now }
{
    let start = pairs.partition_point(|pair| is_below(pair, group));
    let rest = &pairs[start..];
    let count = rest.partition_point(|pair| is_up_to(pair, group));
    &rest[..count]
}

/// The members of the pairs.
fn members_among(alloc: Global, pairs: &[Membership]) -> Result<Items<Principal>, AllocError>
    ensures { IfOk result (λ members. members ≡ map (λ (m : MembershipOf). m.member) pairs.now) }
{
    let mut members = Vec::with_capacity(alloc, pairs.len())?;
    for pair in pairs {
        members.push(pair.member.clone()?)?;
    }
    Ok(Items::from_vec(members))
}
