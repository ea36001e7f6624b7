//! What a PROPFIND asks.

ghost use Rattle.std.specs.Prelude.{◌≡◌, IfOk};
ghost use Rattle.book_machine.specs.Finding.{are_different, find_of, may_be_asked, needed_for, usual_properties};

use book_limits::MAX_PROPERTIES;
use book_office_listings::{Extent, Find, Property, is_asked};
use book_office_values::Items;
use book_rights::{LeafSet, Method, Needs, Shape, needs};
use std::alloc::{AllocError, Global};

/// Whether no property is asked for twice.
fn are_different(properties: &[Property]) -> bool
    ensures { result ≡ are_different properties.now }
{
    let mut rest = properties;
    while let Some((property, after)) = rest.split_first() {
        if is_asked(*property, after) {
            return false;
        }
        rest = after;
    }
    true
}

/// Whether they are different properties, and at least one.
pub(crate) fn may_be_asked(properties: &[Property]) -> bool
    ensures { result ≡ may_be_asked properties.now }
{
    1 <= properties.len() && (properties.len() <= MAX_PROPERTIES && are_different(properties))
}

/// What is needed of each resource of which the listing tells.
fn needed_for(properties: &[Property]) -> LeafSet
    ensures { result ≡ needed_for properties.now }
{
    let shape = Shape {
        target_mapped: true,
        destination_mapped: false,
        book: false,
        acl: is_asked(Property::Acl, properties),
        privileges: is_asked(Property::CurrentUserPrivilegeSet, properties),
        effective: false,
        names: false,
    };
    let Needs { first, .. } = needs(Method::Propfind, shape);
    first.set
}

/// A copy of the properties.
fn copy_of(alloc: Global, properties: &[Property]) -> Result<Items<Property>, AllocError>
    ensures { IfOk result (λ copy. copy ≡ properties.now) }
{
    let mut copy = Vec::with_capacity(alloc, properties.len())?;
    for property in properties {
        copy.push(*property)?;
    }
    Ok(Items::from_vec(copy))
}

/// What a PROPFIND with these properties asks.
pub(crate) fn find_of(
    alloc: Global,
    extent: Extent,
    properties: &[Property],
) -> Result<Find, AllocError>
    ensures { IfOk result (λ find. find ≡ find_of extent properties.now) }
{
    Ok(Find {
        needed: needed_for(properties),
        extent,
        properties: copy_of(alloc, properties)?,
    })
}

/// What a PROPFIND without a body asks.
pub(crate) fn usual_find(alloc: Global, extent: Extent) -> Result<Find, AllocError>
    ensures { IfOk result (λ find. find ≡ find_of extent usual_properties) }
{
    let usual = [
        Property::DisplayName,
        Property::ResourceType,
        Property::Owner,
    ];
    find_of(alloc, extent, &usual)
}
