//! The words of a body: an object of JSON (RFC 8259), of which each key is one that the question has.

ghost use Rattle.std.specs.Prelude.{◌≡◌, [], IfOk, map, option_map, option_copied, string_bytes};
ghost use Rattle.serde_json.specs.View.{view, items_view};
ghost use Rattle.book_desk_control.specs.Words as spec;

use book_office_values::Text;
use serde_json::Value;
use std::alloc::{AllocError, Global};
use std::marker::Model;

/// A question that has words.
#[derive(Clone, Copy)]
pub(crate) enum Form {
    Audit,
    Why,
    Who,
    Rights,
    Ask,
    Show,
    Backup,
}

/// Words, which contracts see as the list of their bytes.
#[derive(Drop)]
pub struct Words {
    words: Vec<String>,
}

impl Model for Words {
    ghost use Rattle.std.specs.Prelude.{List, ℕ, map};
    ghost use Rattle.std.specs.String.{string_bytes};

    ghost Value = { List (List ℕ) };

    ghost view = { λ w. map string_bytes w.words.items };
}

impl Words {
    /// The words. Takes no memory.
    pub fn as_slice(&self) -> &[String]
        ensures { map string_bytes result.now ≡ self.now }
    {
        self.words.as_slice()
    }
}

fn is_audit_key(key: &str) -> bool
    ensures { result ≡ spec.is_audit_key key.now }
{
    key == "at" || key == "books" || key == "labels"
}

fn is_why_key(key: &str) -> bool
    ensures { result ≡ spec.is_why_key key.now }
{
    key == "caller" || key == "what" || key == "path" || key == "destination" || key == "json"
}

fn is_who_key(key: &str) -> bool
    ensures { result ≡ spec.is_who_key key.now }
{
    key == "privilege" || key == "path" || key == "denied" || key == "json"
}

fn is_rights_key(key: &str) -> bool
    ensures { result ≡ spec.is_rights_key key.now }
{
    key == "at" || key == "caller" || key == "shared" || key == "json"
}

fn is_ask_key(key: &str) -> bool
    ensures { result ≡ spec.is_ask_key key.now }
{
    key == "caller" || key == "path" || key == "privileges"
}

/// Whether a question has this key.
fn is_key(form: Form, key: &str) -> bool
    ensures { result ≡ spec.is_key form key.now }
{
    match form {
        Form::Audit => is_audit_key(key),
        Form::Why => is_why_key(key),
        Form::Who => is_who_key(key),
        Form::Rights => is_rights_key(key),
        Form::Ask => is_ask_key(key),
        Form::Show => key == "path",
        Form::Backup => key == "to",
    }
}

/// Whether the value is an object of which each key is one of the question.
fn has_keys(form: Form, value: &Value) -> bool
    ensures { result ≡ spec.has_keys form (view value.now) }
{
    match value {
        Value::Object(members) => {
            for (key, _) in members.iter() {
                if !is_key(form, key.as_str()) {
                    return false;
                }
            }
            true
        }
        _ => false,
    }
}

/// The text of a body: no bytes are an object without members.
fn text_of(bytes: &[u8]) -> &[u8]
    ensures { result.now ≡ spec.text_of bytes.now }
{
    if bytes.is_empty() { b"{}" } else { bytes }
}

/// The value of the bytes, if they are a JSON text in UTF-8. An error is want of memory.
fn json_of(alloc: Global, bytes: &[u8]) -> Result<Option<Value>, AllocError>
    ensures { IfOk result (λ found. option_map view found ≡ spec.json_of bytes.now) }
{
    match Value::from_slice(alloc, bytes) {
        Ok(value) => Ok(Some(value)),
        Err(error) => {
            if error.is_memory() {
                Err(AllocError)
            } else {
                Ok(None)
            }
        }
    }
}

/// The value, if there is one, and each of its keys is one of the question.
fn if_keys(form: Form, value: Option<Value>) -> Option<Value>
    ensures { option_map view result ≡ spec.if_keys form (option_map view value) }
{
    match value {
        Some(value) => {
            if has_keys(form, &value) {
                Some(value)
            } else {
                None
            }
        }
        None => None,
    }
}

/// The object of a body, if it has no key that the question has not. An error is want of memory.
pub(crate) fn object_of(
    alloc: Global,
    form: Form,
    bytes: &[u8],
) -> Result<Option<Value>, AllocError>
    ensures { IfOk result (λ found. option_map view found ≡ spec.object_of form bytes.now) }
{
    let value = json_of(alloc, text_of(bytes))?;
    Ok(if_keys(form, value))
}

/// The text under a key; none where there is none, or no text.
pub(crate) fn text_at<'a>(value: &'a Value, key: &str) -> Option<&'a str>
    ensures { option_copied result ≡ spec.text_at key.now (view value.now) }
{
    match value.get(key) {
        Some(Value::String(text)) => Some(text.as_str()),
        _ => None,
    }
}

/// The text under a key, if there is one; none where what is there is no text.
pub(crate) fn text_if<'a>(value: &'a Value, key: &str) -> Option<Option<&'a str>>
    ensures { option_map option_copied result ≡ spec.text_if key.now (view value.now) }
{
    match value.get(key) {
        Some(Value::String(text)) => Some(Some(text.as_str())),
        Some(_) => None,
        None => Some(None),
    }
}

/// Whether what a key says is so, which it is not where there is none; none where what is there is no truth value.
pub(crate) fn flag_at(value: &Value, key: &str) -> Option<bool>
    ensures { result ≡ spec.flag_at key.now (view value.now) }
{
    match value.get(key) {
        Some(found) => found.as_bool(),
        None => Some(false),
    }
}

/// The items, if each is a text. An error is want of memory.
fn words_of(alloc: Global, items: &[Value]) -> Result<Option<Words>, AllocError>
    ensures { IfOk result (λ found. found ≡ spec.texts_after [] (items_view items.now)) }
{
    let mut words = Vec::new(alloc);
    for item in items {
        match item {
            Value::String(text) => words.push(String::from_str(alloc, text.as_str())?)?,
            _ => return Ok(None),
        }
    }
    Ok(Some(Words { words }))
}

/// The items, if each is a text, and there is one. An error is want of memory.
#[tactic(auto, using(crate::proofs::Texts::some_texts_of))]
fn some_words(alloc: Global, items: &[Value]) -> Result<Option<Words>, AllocError>
    ensures { IfOk result (λ found. found ≡ spec.some_texts (items_view items.now)) }
{
    if items.is_empty() {
        return Ok(None);
    }
    words_of(alloc, items)
}

/// The texts under a key, if a list of texts is there that has one. An error is want of memory.
pub(crate) fn words_at(alloc: Global, value: &Value, key: &str) -> Result<Option<Words>, AllocError>
    ensures { IfOk result (λ found. found ≡ spec.words_at key.now (view value.now)) }
{
    match value.get(key) {
        Some(Value::Array(items)) => some_words(alloc, items.as_slice()),
        _ => Ok(None),
    }
}

/// A copy of a text, if there is one. An error is want of memory.
pub(crate) fn copied(alloc: Global, text: Option<&str>) -> Result<Option<Text>, AllocError>
    ensures { IfOk result (λ copy. copy ≡ option_copied text.entry) }
{
    match text {
        Some(text) => Ok(Some(Text::copy_of(alloc, text)?)),
        None => Ok(None),
    }
}
