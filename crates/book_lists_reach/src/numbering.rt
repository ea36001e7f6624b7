//! The places of principals in a list of them, which has each once.

ghost use Rattle.std.specs.Prelude.{◌≡◌, List, ℕ, IfOk, map, slice_get};
ghost use Rattle.std.specs.List.Sorted.{IsStrictlySortedBy};
ghost use Rattle.book_lists.specs.Circles.{has_path};
ghost use Rattle.book_lists.specs.Principals.{path_cmp};
ghost use Rattle.book_lists_reach.specs.Numbering.{IsPlaceOf, HasEnds, ArePlaces};

use book_lists::{Membership, Principal};
use std::alloc::{AllocError, Global};
use std::collections::BTreeSet;

/// The place of a principal, if it has one.
pub(crate) fn place_of(principals: &[Principal], principal: &Principal) -> Option<usize>
    requires { IsStrictlySortedBy path_cmp principals.now }
    ensures { IsPlaceOf principals.now principal.now result }
{
    match principals.binary_search(principal) {
        Ok(place) => Some(place),
        Err(_) => None,
    }
}

/// The place of each of some principals among others.
pub(crate) fn places_in(
    alloc: Global,
    principals: &[Principal],
    others: &[Principal],
) -> Result<Vec<Option<usize>>, AllocError>
    requires { IsStrictlySortedBy path_cmp others.now }
    ensures { IfOk result (λ places. ArePlaces others.now principals.now places.items) }
{
    let mut places = Vec::new(alloc);
    for principal in principals {
        places.push(place_of(others, principal))?;
    }
    Ok(places)
}

/// Both principals of each pair.
fn ends_of(alloc: Global, list: &[Membership]) -> Result<Vec<Principal>, AllocError>
    ensures { IfOk result (λ ends. HasEnds list.now ends.items) }
{
    let mut ends = Vec::new(alloc);
    for pair in list {
        ends.push(pair.group.clone()?)?;
        ends.push(pair.member.clone()?)?;
    }
    Ok(ends)
}

/// The principals of a list, each once and in order.
fn in_order(alloc: Global, list: Vec<Principal>) -> Result<Vec<Principal>, AllocError>
    ensures same { IfOk result (λ ordered. (q : List ℕ)
        → has_path ordered.items q ≡ has_path list.items q) }
    ensures in_order { IfOk result (λ ordered. IsStrictlySortedBy path_cmp ordered.items) }
{
    let principals: BTreeSet<Principal> = list.into_iter().collect(alloc)?;
    principals.into_iter().collect(alloc)
}

/// The principals of pairs, each once and in order.
pub(crate) fn principals_of(
    alloc: Global,
    list: &[Membership],
) -> Result<Vec<Principal>, AllocError>
    ensures ends { IfOk result (λ principals. HasEnds list.now principals.items) }
    ensures in_order { IfOk result (λ principals. IsStrictlySortedBy path_cmp principals.items) }
{
    let ends = ends_of(alloc, list)?;
    in_order(alloc, ends)
}
