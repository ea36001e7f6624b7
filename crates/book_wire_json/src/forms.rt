//! What the forms of JSON bodies have in common.

ghost use Rattle.std.specs.Prelude.{◌≡◌, [], IfOk, map, option_map};
ghost use Rattle.serde_json.specs.View.{view, items_view};
ghost use Rattle.book_wire_json.specs.Forms.{json_of, only_under, texts_after, texts_in};

use serde_json::Value;
use std::alloc::{AllocError, Global};

/// The value of the bytes, if they are a JSON text in UTF-8. An error is want of memory.
pub(crate) fn json_of(alloc: Global, bytes: &[u8]) -> Result<Option<Value>, AllocError>
    ensures { IfOk result (λ found. option_map view found ≡ json_of bytes.now) }
{
    match Value::from_slice(alloc, bytes) {
        Ok(value) => Ok(Some(value)),
        Err(error) => {
            if error.is_memory() {
                Err(AllocError)
            } else {
                Ok(None)
            }
        }
    }
}

/// What stands under the key, where the value is an object that has no other.
pub(crate) fn only_under<'a>(value: &'a Value, key: &str) -> Option<&'a Value>
    ensures { option_map (λ found. view found.now) result ≡ only_under key.now (view value.now) }
{
    match value {
        Value::Object(members) => {
            let mut members = members.iter();
            match (members.next(), members.next()) {
                (Some((name, found)), None) => {
                    if name.as_str() == key {
                        Some(found)
                    } else {
                        None
                    }
                }
                _ => None,
            }
        }
        _ => None,
    }
}

/// The texts of the items, if each is a text. An error is want of memory.
fn texts<'a>(alloc: Global, items: &'a [Value]) -> Result<Option<Vec<&'a str>>, AllocError>
    ensures { IfOk result (λ found. option_map (λ texts. map (λ t. t.now) texts.items) found
        ≡ texts_after [] (items_view items.now)) }
{
    let mut texts = Vec::new(alloc);
    for item in items {
        match item {
            Value::String(text) => texts.push(text.as_str())?,
            _ => return Ok(None),
        }
    }
    Ok(Some(texts))
}

/// The texts of the list, if the value is a list of texts. An error is want of memory.
pub(crate) fn texts_in<'a>(
    alloc: Global,
    value: &'a Value,
) -> Result<Option<Vec<&'a str>>, AllocError>
    ensures { IfOk result (λ found. option_map (λ texts. map (λ t. t.now) texts.items) found
        ≡ texts_in (view value.now)) }
{
    match value {
        Value::Array(items) => texts(alloc, items.as_slice()),
        _ => Ok(None),
    }
}
