//! A fault with its place as a line of text (own profile).

ghost use Rattle.std.specs.Prelude.{◌≡◌, ◌++◌, codes, decimal, string_bytes, IfOk};
ghost use Rattle.book_policy_checks.specs.Reports.{head_text, kind_word, place_text};

use crate::reports::NotToml;
use book_limits::{MAX_LABEL_BYTES, MAX_MEMBERS, MAX_NAMED, MAX_PRIVILEGE_NAMES};
use book_policy_faults::{Key, PlacedFault, Problem, TableKind, member, rows_of};
use std::alloc::{AllocError, Global};
use strsim::levenshtein;
use toml::{Table, Value};

/// The most characters of a text of the policy that a line shows.
const MOST_SHOWN: usize = 200;

/// The longest key for which a near one is looked for.
const LONGEST_NEAR: usize = 40;

/// What stands before the words of the crate `toml`.
pub(crate) fn not_toml_place(alloc: Global, place: &NotToml) -> Result<String, AllocError>
    ensures { IfOk result (λ text. string_bytes text ≡ place_text place.now) }
{
    let line = place.line;
    let column = place.column;
    format!(in alloc; "line {line}, column {column}: not-toml: ")
}

/// The words of the crate `toml`.
pub(crate) fn not_toml_words(alloc: Global, place: &NotToml) -> Result<String, AllocError> {
    let mut text = String::new(alloc);
    push_shown(alloc, &mut text, place.message.as_str())?;
    Ok(text)
}

/// That so many faults are left out.
pub(crate) fn more_words(alloc: Global, more: usize) -> Result<String, AllocError>
    ensures { IfOk result (λ text. string_bytes text ≡ decimal more ++ codes " more") }
{
    format!(in alloc; "{more} more")
}

/// Adds a character as a line shows it: what would end the line, or can't be seen, is escaped.
fn push_character(alloc: Global, line: &mut String, character: char) -> Result<(), AllocError> {
    match character {
        '\n' => line.push_str("\\n"),
        '\r' => line.push_str("\\r"),
        '\t' => line.push_str("\\t"),
        '\\' => line.push_str("\\\\"),
        '"' => line.push_str("\\\""),
        _ => {
            let code = u32::from(character);
            let hidden = code < 32
                || (code >= 127 && code < 160)
                || code == 0x2028
                || code == 0x2029;
            if !hidden {
                return line.push(character);
            }
            let escaped = format!(in alloc; "\\u{{{code:x}}}")?;
            line.push_str(escaped.as_str())
        }
    }
}

/// Adds a text of the policy, so that the line stays one: of a long one the first 200 characters.
fn push_shown(alloc: Global, line: &mut String, text: &str) -> Result<(), AllocError> {
    let mut shown = 0usize;
    for character in text.chars() {
        if shown >= MOST_SHOWN {
            return line.push_str("..");
        }
        push_character(alloc, line, character)?;
        shown = shown.saturating_add(1);
    }
    Ok(())
}

/// The key under which the tables of a kind stand.
fn tables_key(kind: TableKind) -> Key {
    match kind {
        TableKind::Top => Key::Itself,
        TableKind::Person => Key::Persons,
        TableKind::Group => Key::Groups,
        TableKind::Book => Key::Books,
        TableKind::Entry => Key::Entries,
    }
}

/// The table of a kind with a number, or what stands in its place.
fn row_at<'a>(top: &'a Table, fault: &PlacedFault) -> Option<&'a Value> {
    rows_of(member(top, tables_key(fault.kind))).get(fault.number.saturating_sub(1))
}

/// The table in which the fault is.
fn table_at<'a>(top: &'a Table, fault: &PlacedFault) -> Option<&'a Table> {
    match fault.kind {
        TableKind::Top => Some(top),
        _ => match row_at(top, fault) {
            Some(value) => value.as_table(),
            None => None,
        },
    }
}

/// The value at which the fault is.
fn value_at<'a>(top: &'a Table, fault: &PlacedFault) -> Option<&'a Value> {
    if fault.key == Key::Itself {
        return row_at(top, fault);
    }
    let Some(table) = table_at(top, fault) else {
        return None;
    };
    let value = member(table, fault.key);
    if fault.item == 0 {
        return value;
    }
    rows_of(value).get(fault.item.saturating_sub(1))
}

/// The text at a key of the table in which the fault is.
fn text_at<'a>(top: &'a Table, fault: &PlacedFault, key: Key) -> Option<&'a str> {
    let Some(table) = table_at(top, fault) else {
        return None;
    };
    match member(table, key) {
        Some(value) => value.as_str(),
        None => None,
    }
}

/// The word for a kind of tables.
fn kind_word(kind: TableKind) -> &'static str
    ensures { result.now ≡ kind_word kind }
{
    match kind {
        TableKind::Top => "top",
        TableKind::Person => "person",
        TableKind::Group => "group",
        TableKind::Book => "book",
        TableKind::Entry => "entry",
    }
}

/// Adds a word and the text at a key, behind others in parentheses.
fn push_named(
    alloc: Global,
    line: &mut String,
    word: &str,
    text: Option<&str>,
) -> Result<(), AllocError> {
    let Some(text) = text else {
        return Ok(());
    };
    let opened = line.as_str().contains('(');
    line.push_str(if opened { ", " } else { " (" })?;
    line.push_str(word)?;
    push_shown(alloc, line, text)
}

/// Adds what names the table.
fn push_names(
    alloc: Global,
    line: &mut String,
    top: &Table,
    fault: &PlacedFault,
) -> Result<(), AllocError> {
    match fault.kind {
        TableKind::Top => return Ok(()),
        TableKind::Person | TableKind::Group | TableKind::Book => {
            push_named(alloc, line, "", text_at(top, fault, Key::Name))?;
        }
        TableKind::Entry => {
            push_named(alloc, line, "at ", text_at(top, fault, Key::At))?;
            push_named(alloc, line, "who ", text_at(top, fault, Key::Who))?;
        }
    }
    if line.as_str().contains('(') {
        line.push_str(")")?;
    }
    Ok(())
}

/// Whether the sentence tells of the shape of the text, and not of what it names: its table is told by the number alone.
fn is_of_shape(problem: Problem) -> bool {
    match problem {
        Problem::UnknownKey
        | Problem::Missing
        | Problem::OtherKind
        | Problem::OtherVersion
        | Problem::LongLabel
        | Problem::NamesCount
        | Problem::Both => true,
        _ => false,
    }
}

/// The kind of the table in which the fault is, and its number.
pub(crate) fn head(alloc: Global, fault: &PlacedFault) -> Result<String, AllocError>
    ensures { IfOk result (λ text. string_bytes text ≡ head_text fault.now) }
{
    let word = kind_word(fault.kind);
    let number = fault.number;
    if number == 0 {
        return String::from_str(alloc, word);
    }
    format!(in alloc; "{word} {number}")
}

/// What names the table, behind its number.
fn names_text(alloc: Global, top: &Table, fault: &PlacedFault) -> Result<String, AllocError> {
    let mut line = String::new(alloc);
    if !is_of_shape(fault.problem) {
        push_names(alloc, &mut line, top, fault)?;
    }
    Ok(line)
}

/// Adds the key, and the number of an item.
fn push_key(alloc: Global, line: &mut String, fault: &PlacedFault) -> Result<(), AllocError> {
    if fault.key == Key::Itself {
        return Ok(());
    }
    let key = fault.key.text();
    let item = fault.item;
    let text = if item == 0 {
        format!(in alloc; "{key}: ")?
    } else {
        format!(in alloc; "{key} {item}: ")?
    };
    line.push_str(text.as_str())
}

/// What a value is.
fn given_word(value: Option<&Value>) -> &'static str {
    match value {
        None => "missing",
        Some(Value::String(_)) => "a text",
        Some(Value::Integer(_)) => "a whole number",
        Some(Value::Float(_)) => "a number",
        Some(Value::Boolean(_)) => "a truth value",
        Some(Value::Datetime(_)) => "a date or a time",
        Some(Value::Array(_)) => "an array",
        Some(Value::Table(_)) => "a table",
    }
}

/// What a key, or an item of the array at it, wants.
fn wanted_word(key: Key, item: usize) -> &'static str {
    match key {
        Key::Version => "1",
        Key::Members | Key::Grant | Key::Deny if item > 0 => "a text",
        Key::Persons | Key::Groups | Key::Books | Key::Entries => "an array",
        Key::Members | Key::Grant | Key::Deny => "an array",
        Key::Name | Key::Label | Key::Owner | Key::At | Key::Who => "a text",
        Key::Invert | Key::Protected => "a truth value",
        Key::Itself => "a table",
    }
}

/// What the version is, beside 1.
fn version_word(alloc: Global, value: Option<&Value>) -> Result<String, AllocError> {
    match value {
        Some(Value::Integer(version)) => format!(in alloc; "{version}"),
        _ => String::from_str(alloc, given_word(value)),
    }
}

/// How long a value is: a text in bytes, an array in items.
fn length_of(value: Option<&Value>) -> usize {
    match value {
        Some(Value::String(text)) => text.len(),
        Some(Value::Array(values)) => values.len(),
        _ => 0,
    }
}

/// The keys of the tables of a kind.
fn keys_of(kind: TableKind) -> &'static [Key] {
    match kind {
        TableKind::Top => &[
            Key::Version,
            Key::Persons,
            Key::Groups,
            Key::Books,
            Key::Entries,
        ],
        TableKind::Person => &[Key::Name, Key::Label],
        TableKind::Group => &[Key::Name, Key::Label, Key::Members],
        TableKind::Book => &[Key::Name, Key::Label, Key::Owner],
        TableKind::Entry => &[
            Key::At,
            Key::Who,
            Key::Invert,
            Key::Grant,
            Key::Deny,
            Key::Protected,
        ],
    }
}

/// The nearest of the keys of the tables of a kind, if twice the edits that lead to it are no more than the bytes of the
/// key.
fn near_key(alloc: Global, kind: TableKind, key: &str) -> Result<Option<Key>, AllocError> {
    if key.len() > LONGEST_NEAR {
        return Ok(None);
    }
    let mut nearest = None;
    let mut least = key.len() / 2;
    for other in keys_of(kind) {
        let edits = levenshtein(alloc, key, other.text())?;
        if edits < least || (edits == least && nearest.is_none()) {
            least = edits;
            nearest = Some(*other);
        }
    }
    Ok(nearest)
}

/// The key of a number, from 1, of a table.
fn key_at(table: &Table, item: usize) -> &str {
    let mut number = 0usize;
    for (key, _value) in table.iter() {
        number = number.saturating_add(1);
        if number == item {
            return key.as_str();
        }
    }
    ""
}

/// Adds that a key is none of the table's, and which it may be meant for.
fn push_unknown_key(
    alloc: Global,
    line: &mut String,
    top: &Table,
    fault: &PlacedFault,
) -> Result<(), AllocError> {
    let key = match table_at(top, fault) {
        Some(table) => key_at(table, fault.item),
        None => "",
    };
    line.push_str("key \"")?;
    push_shown(alloc, line, key)?;
    line.push_str("\": bad-key")?;
    if let Some(near) = near_key(alloc, fault.kind, key)? {
        let near = near.text();
        let question = format!(in alloc; ", did you mean \"{near}\"?")?;
        line.push_str(question.as_str())?;
    }
    Ok(())
}

/// Adds that a name is that of a table before.
fn push_twice(
    alloc: Global,
    line: &mut String,
    fault: &PlacedFault,
    first: usize,
) -> Result<(), AllocError> {
    let word = kind_word(fault.kind);
    let text = format!(in alloc; "name-twice, also {word} {first}")?;
    line.push_str(text.as_str())
}

/// Adds the name of a fault, and the text that has it where nothing else of the line tells it.
fn push_unknown(
    alloc: Global,
    line: &mut String,
    top: &Table,
    fault: &PlacedFault,
    name: &str,
) -> Result<(), AllocError> {
    line.push_str(name)?;
    if fault.key == Key::Who {
        return Ok(());
    }
    let Some(value) = value_at(top, fault) else {
        return Ok(());
    };
    let Some(text) = value.as_str() else {
        return Ok(());
    };
    line.push_str(": ")?;
    push_shown(alloc, line, text)
}

/// That the version is another one.
fn version_text(alloc: Global, value: Option<&Value>) -> Result<String, AllocError> {
    let given = version_word(alloc, value)?;
    format!(in alloc; "other-version: is {given}, and 1 is wanted")
}

/// What the value is, and what the key wants.
fn kind_text(
    alloc: Global,
    value: Option<&Value>,
    fault: &PlacedFault,
) -> Result<String, AllocError> {
    let given = given_word(value);
    let wanted = wanted_word(fault.key, fault.item);
    format!(in alloc; "is {given}, and {wanted} is wanted")
}

/// How many members or tables there may be.
fn most_text(alloc: Global, key: Key, length: usize) -> Result<String, AllocError> {
    if key == Key::Members {
        return format!(in alloc; "too-many: at most {MAX_MEMBERS} different ones are wanted");
    }
    format!(in alloc; "too-many: has {length}, and at most {MAX_NAMED} are wanted")
}

/// What the value is, and what is wanted.
fn wanted_text(alloc: Global, top: &Table, fault: &PlacedFault) -> Result<String, AllocError> {
    let value = value_at(top, fault);
    let length = length_of(value);
    match fault.problem {
        Problem::OtherVersion => version_text(alloc, value),
        Problem::Missing if fault.key == Key::Grant => {
            String::from_str(alloc, "is missing, and one of grant and deny is wanted")
        }
        Problem::Missing | Problem::OtherKind => kind_text(alloc, value, fault),
        Problem::LongLabel => {
            format!(in alloc; "has {length} bytes, and at most {MAX_LABEL_BYTES} are wanted")
        }
        Problem::NamesCount => {
            format!(in alloc; "has {length} names, and 1 to {MAX_PRIVILEGE_NAMES} are wanted")
        }
        Problem::Both => String::from_str(
            alloc,
            "stands beside deny, and one of grant and deny is wanted",
        ),
        Problem::TooMany => most_text(alloc, fault.key, length),
        Problem::LongList => {
            String::from_str(alloc, "too-many: its list has more than 64 entries")
        }
        _ => String::from_str(alloc, "bad-name"),
    }
}

/// The line of a fault, behind the number of the table.
pub(crate) fn tail(alloc: Global, top: &Table, fault: &PlacedFault) -> Result<String, AllocError> {
    let mut line = names_text(alloc, top, fault)?;
    line.push_str(": ")?;
    match fault.problem {
        Problem::UnknownKey => push_unknown_key(alloc, &mut line, top, fault)?,
        Problem::NameTwice(first) => push_twice(alloc, &mut line, fault, first)?,
        Problem::UnknownPrincipal => {
            push_key(alloc, &mut line, fault)?;
            push_unknown(alloc, &mut line, top, fault, "unknown-principal")?;
        }
        Problem::UnknownResource => {
            push_key(alloc, &mut line, fault)?;
            line.push_str("unknown-resource")?;
        }
        Problem::UnknownPrivilege => {
            push_key(alloc, &mut line, fault)?;
            push_unknown(alloc, &mut line, top, fault, "unknown-privilege")?;
        }
        _ => {
            push_key(alloc, &mut line, fault)?;
            let text = wanted_text(alloc, top, fault)?;
            line.push_str(text.as_str())?;
        }
    }
    Ok(line)
}
