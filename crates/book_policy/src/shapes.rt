//! Tables of TOML as parts. Where a key or a value is bad, the answer is none.

ghost use Rattle.std.specs.Prelude.{◌≡◌, IfOk, option_map, option_copied};
ghost use Rattle.toml.specs.Data.{as_str, get_member};
ghost use Rattle.toml.specs.View.{items_view, table_view, view};
ghost use Rattle.book_policy_faults.specs.Values.{keys_of, mark_of, short_label};
ghost use Rattle.book_policy.specs.Shapes.{action_of, array_of, book_in, each, entry_in, group_in, has_only, label_of, names_in, owner_of, parts_in, person_in, text_at};

use crate::parts::{EntryText, Parts};
use book_limits::{MAX_LABEL_BYTES, MAX_PRIVILEGE_NAMES};
use book_office_values::{Items, Text};
use book_policy_faults::TableKind;
use book_policy_values::{BookPart, GroupPart, PersonPart};
use std::alloc::{AllocError, Global};
use toml::{Table, Value};

/// Whether the table has no other keys than those of its kind.
fn has_only(table: &Table, kind: TableKind) -> bool
    ensures { result ≡ has_only (keys_of kind) (table_view table.now) }
{
    for (key, _value) in table.iter() {
        if !kind.has_key(key.as_str()) {
            return false;
        }
    }
    true
}

/// The value at a key.
pub(crate) fn member<'a>(table: &'a Table, key: &str) -> Option<&'a Value>
    ensures { option_map (λ v. view v.now) result ≡ get_member key.now (table_view table.now) }
{
    table.get(key)
}

/// The text at a key.
fn text_at<'a>(table: &'a Table, key: &str) -> Option<&'a str>
    ensures { option_copied result ≡ text_at key.now (table_view table.now) }
{
    match member(table, key) {
        Some(value) => value.as_str(),
        None => None,
    }
}

/// The label that a text is; none where it has too many bytes.
fn short_label(alloc: Global, text: &str) -> Result<Option<Text>, AllocError>
    ensures { IfOk result (λ label. label ≡ short_label text.now) }
{
    if text.len() > MAX_LABEL_BYTES {
        return Ok(None);
    }
    Ok(Some(Text::copy_of(alloc, text)?))
}

/// The label that a value gives; the empty one where there is none.
fn label_of(alloc: Global, value: Option<&Value>) -> Result<Option<Text>, AllocError>
    ensures { IfOk result (λ label. label ≡ label_of (option_map (λ v. view v.now) value.entry)) }
{
    let Some(value) = value else {
        return Ok(Some(Text::from_string(String::new(alloc))));
    };
    let Some(text) = value.as_str() else {
        return Ok(None);
    };
    short_label(alloc, text)
}

/// The owner that a value gives, if there is one.
fn owner_of(alloc: Global, value: Option<&Value>) -> Result<Option<Option<Text>>, AllocError>
    ensures { IfOk result (λ owner. owner ≡ owner_of (option_map (λ v. view v.now) value.entry)) }
{
    let Some(value) = value else {
        return Ok(Some(None));
    };
    let Some(text) = value.as_str() else {
        return Ok(None);
    };
    Ok(Some(Some(Text::copy_of(alloc, text)?)))
}

/// The mark that a value gives; not there where there is none.
fn mark_of(value: Option<&Value>) -> Option<bool>
    ensures { result ≡ mark_of (option_map (λ v. view v.now) value.entry) }
{
    match value {
        Some(value) => value.as_bool(),
        None => Some(false),
    }
}

/// What a value of TOML may be read as.
trait FromValue {
    ghost use Rattle.std.specs.Prelude.{Option};
    ghost use Rattle.toml.specs.Data.{Data};

    ghost read: { Data → Option Self };

    fn from_value(alloc: Global, value: &Value) -> Result<Option<Self>, AllocError>
        ensures { IfOk result (λ part. part ≡ read (view value.now)) };
}

/// What each value is read as.
fn each_of<T: FromValue + Drop>(
    alloc: Global,
    values: &[Value],
) -> Result<Option<Items<T>>, AllocError>
    ensures { IfOk result (λ parts. parts ≡ each T.read (items_view values.now)) }
{
    let mut parts = Vec::new(alloc);
    for value in values {
        let Some(part) = T::from_value(alloc, value)? else {
            return Ok(None);
        };
        parts.push(part)?;
    }
    Ok(Some(Items::from_vec(parts)))
}

/// What each value of an array is read as; the empty list where there is no array.
fn array_of<T: FromValue + Drop>(
    alloc: Global,
    value: Option<&Value>,
) -> Result<Option<Items<T>>, AllocError>
    ensures { IfOk result (λ parts. parts ≡ array_of T.read
        (option_map (λ v. view v.now) value.entry)) }
{
    let Some(value) = value else {
        return Ok(Some(Items::new(alloc)));
    };
    match value.as_array() {
        Some(values) => each_of::<T>(alloc, values.as_slice()),
        None => Ok(None),
    }
}

impl FromValue for Text {
    ghost use Rattle.toml.specs.Data.{as_str};

    ghost read = { as_str };

    fn from_value(alloc: Global, value: &Value) -> Result<Option<Text>, AllocError> {
        match value.as_str() {
            Some(text) => Ok(Some(Text::copy_of(alloc, text)?)),
            None => Ok(None),
        }
    }
}

/// The person that a table is.
fn person_in(alloc: Global, table: &Table) -> Result<Option<PersonPart>, AllocError>
    ensures { IfOk result (λ part. part ≡ person_in (table_view table.now)) }
{
    if !has_only(table, TableKind::Person) {
        return Ok(None);
    }
    let Some(name) = text_at(table, "name") else {
        return Ok(None);
    };
    let Some(label) = label_of(alloc, member(table, "label"))? else {
        return Ok(None);
    };
    Ok(Some(PersonPart {
        name: Text::copy_of(alloc, name)?,
        label,
    }))
}

impl FromValue for PersonPart {
    ghost use Rattle.book_policy.specs.Shapes.{person_of};

    ghost read = { person_of };

    fn from_value(alloc: Global, value: &Value) -> Result<Option<PersonPart>, AllocError> {
        match value.as_table() {
            Some(table) => person_in(alloc, table),
            None => Ok(None),
        }
    }
}

/// The group that a table is.
fn group_in(alloc: Global, table: &Table) -> Result<Option<GroupPart>, AllocError>
    ensures { IfOk result (λ part. part ≡ group_in (table_view table.now)) }
{
    if !has_only(table, TableKind::Group) {
        return Ok(None);
    }
    let Some(name) = text_at(table, "name") else {
        return Ok(None);
    };
    let Some(label) = label_of(alloc, member(table, "label"))? else {
        return Ok(None);
    };
    let Some(members) = array_of::<Text>(alloc, member(table, "members"))? else {
        return Ok(None);
    };
    Ok(Some(GroupPart {
        name: Text::copy_of(alloc, name)?,
        label,
        members,
    }))
}

impl FromValue for GroupPart {
    ghost use Rattle.book_policy.specs.Shapes.{group_of};

    ghost read = { group_of };

    fn from_value(alloc: Global, value: &Value) -> Result<Option<GroupPart>, AllocError> {
        match value.as_table() {
            Some(table) => group_in(alloc, table),
            None => Ok(None),
        }
    }
}

/// The book that a table is.
fn book_in(alloc: Global, table: &Table) -> Result<Option<BookPart>, AllocError>
    ensures { IfOk result (λ part. part ≡ book_in (table_view table.now)) }
{
    if !has_only(table, TableKind::Book) {
        return Ok(None);
    }
    let Some(name) = text_at(table, "name") else {
        return Ok(None);
    };
    let Some(label) = label_of(alloc, member(table, "label"))? else {
        return Ok(None);
    };
    let Some(owner) = owner_of(alloc, member(table, "owner"))? else {
        return Ok(None);
    };
    Ok(Some(BookPart {
        name: Text::copy_of(alloc, name)?,
        label,
        owner,
    }))
}

impl FromValue for BookPart {
    ghost use Rattle.book_policy.specs.Shapes.{book_of};

    ghost read = { book_of };

    fn from_value(alloc: Global, value: &Value) -> Result<Option<BookPart>, AllocError> {
        match value.as_table() {
            Some(table) => book_in(alloc, table),
            None => Ok(None),
        }
    }
}

/// The names that an array lists, if there are 1 to 16.
fn names_in(alloc: Global, value: &Value) -> Result<Option<Items<Text>>, AllocError>
    ensures { IfOk result (λ names. names ≡ names_in (view value.now)) }
{
    let Some(names) = array_of::<Text>(alloc, Some(value))? else {
        return Ok(None);
    };
    if names.len() < 1 || names.len() > MAX_PRIVILEGE_NAMES {
        return Ok(None);
    }
    Ok(Some(names))
}

/// Whether an entry denies, and the names that it grants or denies.
fn action_of(
    alloc: Global,
    grant: Option<&Value>,
    deny: Option<&Value>,
) -> Result<Option<(bool, Items<Text>)>, AllocError>
    ensures { IfOk result (λ action. action ≡ action_of (option_map (λ v. view v.now) grant.entry)
        (option_map (λ v. view v.now) deny.entry)) }
{
    let (denies, value) = match (grant, deny) {
        (Some(grant), None) => (false, grant),
        (None, Some(deny)) => (true, deny),
        (None, None) => return Ok(None),
        (Some(_), Some(_)) => return Ok(None),
    };
    let Some(names) = names_in(alloc, value)? else {
        return Ok(None);
    };
    Ok(Some((denies, names)))
}

/// The entry that a table is.
fn entry_in(alloc: Global, table: &Table) -> Result<Option<EntryText>, AllocError>
    ensures { IfOk result (λ part. part ≡ entry_in (table_view table.now)) }
{
    if !has_only(table, TableKind::Entry) {
        return Ok(None);
    }
    let Some(at) = text_at(table, "at") else {
        return Ok(None);
    };
    let Some(who) = text_at(table, "who") else {
        return Ok(None);
    };
    let Some(invert) = mark_of(member(table, "invert")) else {
        return Ok(None);
    };
    let Some(protected) = mark_of(member(table, "protected")) else {
        return Ok(None);
    };
    let at = Text::copy_of(alloc, at)?;
    let who = Text::copy_of(alloc, who)?;
    let action = action_of(alloc, member(table, "grant"), member(table, "deny"))?;
    let Some((deny, names)) = action else {
        return Ok(None);
    };
    Ok(Some(EntryText {
        at,
        who,
        invert,
        deny,
        names,
        protected,
    }))
}

impl FromValue for EntryText {
    ghost use Rattle.book_policy.specs.Shapes.{entry_text_of};

    ghost read = { entry_text_of };

    fn from_value(alloc: Global, value: &Value) -> Result<Option<EntryText>, AllocError> {
        match value.as_table() {
            Some(table) => entry_in(alloc, table),
            None => Ok(None),
        }
    }
}

/// The parts that the table of a text spells; none where a key or a value of it is bad.
pub(crate) fn parts_in(alloc: Global, table: &Table) -> Result<Option<Parts>, AllocError>
    ensures { IfOk result (λ parts. parts ≡ parts_in (table_view table.now)) }
{
    if !has_only(table, TableKind::Top) {
        return Ok(None);
    }
    let Some(persons) = array_of::<PersonPart>(alloc, member(table, "person"))? else {
        return Ok(None);
    };
    let Some(groups) = array_of::<GroupPart>(alloc, member(table, "group"))? else {
        return Ok(None);
    };
    let Some(books) = array_of::<BookPart>(alloc, member(table, "book"))? else {
        return Ok(None);
    };
    let Some(entries) = array_of::<EntryText>(alloc, member(table, "entry"))? else {
        return Ok(None);
    };
    Ok(Some(Parts {
        persons,
        groups,
        books,
        entries,
    }))
}
