//! The body of a PROPFIND.

ghost use Rattle.std.specs.Prelude.{◌≡◌, [], IfOk, map, option_map};
ghost use Rattle.serde_json.specs.View.{view};
ghost use Rattle.book_wire_json.specs.Properties.{property_named, properties_of, properties_asked, find_body};

use crate::forms::{only_under, texts_in};
use book_machine::Body;
use book_office_listings::{Property, is_asked};
use book_office_values::Items;
use serde_json::Value;
use std::alloc::{AllocError, Global};

/// The property with this name. Names are compared with case.
fn property_named(name: &str) -> Option<Property>
    ensures { result ≡ property_named name.now }
{
    match name {
        "displayname" => Some(Property::DisplayName),
        "resourcetype" => Some(Property::ResourceType),
        "owner" => Some(Property::Owner),
        "acl" => Some(Property::Acl),
        "current-user-privilege-set" => Some(Property::CurrentUserPrivilegeSet),
        "group-member-set" => Some(Property::GroupMemberSet),
        "sync-token" => Some(Property::SyncToken),
        _ => None,
    }
}

/// The properties with these names, in order, if there are 1 to 7 different ones. An error is want of memory.
fn properties_of(alloc: Global, names: &[&str]) -> Result<Option<Vec<Property>>, AllocError>
    ensures { IfOk result (λ found. option_map (λ properties. properties.items) found
        ≡ properties_of (map (λ n. n.now) names.now)) }
{
    let mut found = Vec::new(alloc);
    for name in names {
        match property_named(name) {
            Some(property) => {
                if is_asked(property, found.as_slice()) {
                    return Ok(None);
                }
                found.push(property)?;
            }
            None => return Ok(None),
        }
    }
    if found.is_empty() {
        Ok(None)
    } else {
        Ok(Some(found))
    }
}

/// The properties that the value asks for. An error is want of memory.
fn properties_asked(alloc: Global, value: &Value) -> Result<Option<Vec<Property>>, AllocError>
    ensures { IfOk result (λ found. option_map (λ properties. properties.items) found
        ≡ properties_asked (view value.now)) }
{
    match only_under(value, "prop") {
        Some(list) => match texts_in(alloc, list)? {
            Some(names) => properties_of(alloc, names.as_slice()),
            None => Ok(None),
        },
        None => Ok(None),
    }
}

/// The body of a PROPFIND, which asks for properties (RFC 4918, section 9.1). An error is want of memory.
pub(crate) fn find_body(alloc: Global, value: Option<&Value>) -> Result<Body, AllocError>
    ensures { IfOk result (λ body. body ≡ find_body (option_map (λ v. view v.now) value.entry)) }
{
    match value {
        Some(value) => match properties_asked(alloc, value)? {
            Some(properties) => Ok(Body::Find(Items::from_vec(properties))),
            None => Ok(Body::Unread),
        },
        None => Ok(Body::Unread),
    }
}
