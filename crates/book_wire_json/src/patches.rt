//! The body of a PROPPATCH.

ghost use Rattle.std.specs.Prelude.{◌≡◌, IfOk, Some, None, option_map};
ghost use Rattle.serde_json.specs.View.{view};
ghost use Rattle.book_wire_json.specs.Patches.{set_under, label_set, IsPatchBody};

use crate::forms::{only_under, texts_in};
use crate::principals::all_named;
use book_machine::{Body, Patch};
use book_office_values::Text;
use serde_json::Value;
use std::alloc::{AllocError, Global};

/// What stands under the one property that is set, if it is the one with this name.
fn set_under<'a>(value: &'a Value, name: &str) -> Option<&'a Value>
    ensures { option_map (λ found. view found.now) result ≡ set_under name.now (view value.now) }
{
    match only_under(value, "set") {
        Some(set) => only_under(set, name),
        None => None,
    }
}

/// The members that the value sets. An error is want of memory.
fn members_body(alloc: Global, value: &Value) -> Result<Body, AllocError>
    requires { label_set (view value.now) ≡ None }
    ensures { IfOk result (IsPatchBody (Some (view value.now))) }
{
    let Some(list) = set_under(value, "group-member-set") else {
        return Ok(Body::Unread);
    };
    let Some(texts) = texts_in(alloc, list)? else {
        return Ok(Body::Unread);
    };
    match all_named(alloc, texts.as_slice())? {
        Some(members) => Ok(Body::Patch(Patch::GroupMembers(members))),
        None => Ok(Body::Unread),
    }
}

/// The body of a PROPPATCH, which sets a label or the members of a group (RFC 4918, section 9.2). An error is want of
/// memory.
pub(crate) fn patch_body(alloc: Global, value: Option<&Value>) -> Result<Body, AllocError>
    ensures { IfOk result (IsPatchBody (option_map (λ v. view v.now) value.entry)) }
{
    match value {
        Some(value) => match set_under(value, "displayname") {
            Some(Value::String(label)) => {
                Ok(Body::Patch(Patch::DisplayName(Text::copy_of(alloc, label.as_str())?)))
            }
            _ => members_body(alloc, value),
        },
        None => Ok(Body::Unread),
    }
}
