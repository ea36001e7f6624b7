//! The body of an ACL.

ghost use Rattle.std.specs.Prelude.{◌≡◌, IfOk, MatchOption, map, option_map};
ghost use Rattle.serde_json.specs.View.{view, items_view};
ghost use Rattle.book_wire_json.specs.Entries.{is_entry_key, has_entry_keys, either, form_in, action_in, protected_by, inherited_by, IsEntry, AreEntries, HasNoEntry, IsListBody};

use crate::forms::{only_under, texts_in};
use crate::principals;
use crate::privileges::leaves;
use book_limits::MAX_PRIVILEGE_NAMES;
use book_lists::Submitted;
use book_machine::Body;
use book_office_values::Items;
use serde_json::Value;
use std::alloc::{AllocError, Global};

fn is_entry_key(key: &str) -> bool
    ensures { result ≡ is_entry_key key.now }
{
    key == "principal"
        || key == "invert"
        || key == "grant"
        || key == "deny"
        || key == "protected"
        || key == "inherited"
}

/// Whether the value is an object of which each key is one of an entry.
fn has_entry_keys(value: &Value) -> bool
    ensures { result ≡ has_entry_keys (view value.now) }
{
    match value {
        Value::Object(members) => {
            for (key, _) in members.iter() {
                if !is_entry_key(key.as_str()) {
                    return false;
                }
            }
            true
        }
        _ => false,
    }
}

/// The one of two that is there, where the other is not; and whether it is the second.
fn either<'a>(first: Option<&'a Value>, second: Option<&'a Value>) -> Option<(bool, &'a Value)>
    ensures { option_map (λ found. (found.0, view found.1.now)) result ≡ either
        (option_map (λ v. view v.now) first.entry) (option_map (λ v. view v.now) second.entry) }
{
    match (first, second) {
        (Some(value), None) => Some((false, value)),
        (None, Some(value)) => Some((true, value)),
        (None, None) | (Some(_), Some(_)) => None,
    }
}

/// Whether the entry is inverted, and the text of its principal.
fn form_in<'a>(value: &'a Value) -> Option<(bool, &'a str)>
    ensures { option_map (λ found. (found.0, found.1.now)) result ≡ form_in (view value.now) }
{
    match either(value.get("principal"), value.get("invert")) {
        Some((invert, Value::String(text))) => Some((invert, text.as_str())),
        _ => None,
    }
}

/// Whether the entry denies, and the names of its privileges. An error is want of memory.
fn action_in<'a>(
    alloc: Global,
    value: &'a Value,
) -> Result<Option<(bool, Vec<&'a str>)>, AllocError>
    ensures { IfOk result (λ found. option_map
        (λ action. (action.0, map (λ n. n.now) action.1.items)) found ≡ action_in
        (view value.now)) }
{
    let Some((deny, list)) = either(value.get("grant"), value.get("deny")) else {
        return Ok(None);
    };
    match texts_in(alloc, list)? {
        Some(names) => {
            if 1 <= names.len() && names.len() <= MAX_PRIVILEGE_NAMES {
                Ok(Some((deny, names)))
            } else {
                Ok(None)
            }
        }
        None => Ok(None),
    }
}

/// Whether the entry is marked as protected; none where the mark is no truth value.
fn protected_by(mark: Option<&Value>) -> Option<bool>
    ensures { result ≡ protected_by (option_map (λ v. view v.now) mark.entry) }
{
    match mark {
        Some(value) => value.as_bool(),
        None => Some(false),
    }
}

/// Whether the entry is marked as inherited; none where the mark is no text.
fn inherited_by(mark: Option<&Value>) -> Option<bool>
    ensures { result ≡ inherited_by (option_map (λ v. view v.now) mark.entry) }
{
    match mark {
        Some(Value::String(_)) => Some(true),
        Some(_) => None,
        None => Some(false),
    }
}

/// The entry that the value writes (RFC 3744, section 5.5), if it writes one. An error is want of memory.
fn entry(alloc: Global, value: &Value) -> Result<Option<Submitted>, AllocError>
    ensures { IfOk result (IsEntry (view value.now)) }
{
    if !has_entry_keys(value) {
        return Ok(None);
    }
    let Some((invert, text)) = form_in(value) else {
        return Ok(None);
    };
    let Some((deny, names)) = action_in(alloc, value)? else {
        return Ok(None);
    };
    let Some(protected) = protected_by(value.get("protected")) else {
        return Ok(None);
    };
    let Some(inherited) = inherited_by(value.get("inherited")) else {
        return Ok(None);
    };
    Ok(Some(Submitted {
        who: principals::form_in(alloc, text)?,
        invert,
        deny,
        set: leaves(names.as_slice()),
        protected,
        inherited,
    }))
}

/// The entries that the values write, if each writes one. An error is want of memory.
fn entries(alloc: Global, values: &[Value]) -> Result<Option<Items<Submitted>>, AllocError>
    ensures { IfOk result (λ found. MatchOption found
        (HasNoEntry (items_view values.now)) (AreEntries (items_view values.now))) }
{
    let mut found = Items::new(alloc);
    for value in values {
        match entry(alloc, value)? {
            Some(entry) => found.push(entry)?,
            None => return Ok(None),
        }
    }
    Ok(Some(found))
}

/// The body of an ACL, which submits a list (RFC 3744, section 8.1). An error is want of memory.
pub(crate) fn list_body(alloc: Global, value: Option<&Value>) -> Result<Body, AllocError>
    ensures { IfOk result (IsListBody (option_map (λ v. view v.now) value.entry)) }
{
    let Some(value) = value else {
        return Ok(Body::Unread);
    };
    match only_under(value, "acl") {
        Some(Value::Array(values)) => match entries(alloc, values.as_slice())? {
            Some(entries) => Ok(Body::List(entries)),
            None => Ok(Body::Unread),
        },
        _ => Ok(Body::Unread),
    }
}
