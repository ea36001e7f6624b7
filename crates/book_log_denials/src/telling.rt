//! The text of a group of denials: who was refused what, where, and by which entry.

ghost use Rattle.std.specs.Prelude.{◌≡◌, ◌++◌, IfOk, OnOk, decimal, option_map, string_bytes};
ghost use Rattle.book_log_lines.specs.Words.{method_name};
ghost use Rattle.book_office_values.specs.Paths.{path_text};
ghost use Rattle.book_log_denials.specs.Denials.{asked_text, by_text, group_text, list_word, or_dash, sentence_text, standing_text};

use crate::forms::Form;
use crate::objects::members_of;
use book_log_lines::{Decided, Denied, ReplyLine, entry_string, method_name};
use book_office_values::{Path, Text};
use book_rights::Method;
use std::alloc::{AllocError, Global};

/// Adds a number. An error is want of memory.
pub(crate) fn push_number(alloc: Global, text: &mut String, number: u64) -> Result<(), AllocError>
    ensures { OnOk result (string_bytes text.new ≡ string_bytes text.old ++ decimal number) }
{
    let digits = format!(in alloc; "{number}")?;
    text.push_str(digits.as_str())
}

/// The word for the list in which an entry stands.
fn list_word(protected: bool) -> &'static str
    ensures { result.now ≡ list_word protected }
{
    if protected { "protected" } else { "own" }
}

/// Adds where an entry stands, and the entry. An error is want of memory.
fn push_standing(alloc: Global, text: &mut String, by: &Decided) -> Result<(), AllocError>
    ensures { OnOk result (string_bytes text.new ≡
        string_bytes text.old ++ standing_text by.now) }
{
    let from = by.from.text(alloc)?;
    let entry = entry_string(alloc, &by.entry)?;
    text.push_str(" by ")?;
    text.push_str(list_word(by.protected))?;
    text.push_str(" entry ")?;
    push_number(alloc, text, by.place)?;
    text.push_str(" at ")?;
    text.push_str(from.as_str())?;
    text.push_str(": ")?;
    text.push_str(entry.as_str())
}

/// Adds which entry denies, or that none grants. An error is want of memory.
fn push_by(alloc: Global, text: &mut String, by: &Option<Decided>) -> Result<(), AllocError>
    ensures { OnOk result (string_bytes text.new ≡ string_bytes text.old ++ by_text by.now) }
{
    match by {
        Some(by) => push_standing(alloc, text, by),
        None => text.push_str(", no entry grants it"),
    }
}

/// Adds a path, or a dash where there is none. An error is want of memory.
fn push_path_if(alloc: Global, text: &mut String, path: &Option<Path>) -> Result<(), AllocError>
    ensures { OnOk result (string_bytes text.new ≡
        string_bytes text.old ++ or_dash (option_map path_text path.now)) }
{
    match path {
        Some(path) => {
            let spelled = path.text(alloc)?;
            text.push_str(spelled.as_str())
        }
        None => text.push_str("-"),
    }
}

/// Adds a caller, or a dash for nobody. An error is want of memory.
fn push_caller(text: &mut String, caller: &Option<Text>) -> Result<(), AllocError>
    ensures { OnOk result (string_bytes text.new ≡ string_bytes text.old ++ or_dash caller.now) }
{
    match caller {
        Some(caller) => text.push_str(caller.as_str()),
        None => text.push_str("-"),
    }
}

/// Adds the name of a method, or a dash where there is none. An error is want of memory.
fn push_method(text: &mut String, method: Option<Method>) -> Result<(), AllocError>
    ensures { OnOk result (string_bytes text.new ≡
        string_bytes text.old ++ or_dash (option_map method_name method)) }
{
    match method {
        Some(method) => text.push_str(method_name(method)),
        None => text.push_str("-"),
    }
}

/// Adds the caller, the method and the path. An error is want of memory.
fn push_asked(alloc: Global, text: &mut String, line: &ReplyLine) -> Result<(), AllocError>
    ensures { OnOk result (string_bytes text.new ≡ string_bytes text.old ++ asked_text line.now) }
{
    push_caller(text, &line.caller)?;
    text.push_str(" ")?;
    push_method(text, line.method)?;
    text.push_str(" ")?;
    push_path_if(alloc, text, &line.path)
}

/// The sentence about the group of a denial. An error is want of memory.
fn sentence_of(alloc: Global, line: &ReplyLine, denied: &Denied) -> Result<String, AllocError>
    ensures { IfOk result (λ text. string_bytes text ≡ sentence_text line.now denied.now) }
{
    let resource = denied.resource.text(alloc)?;
    let mut text = String::new(alloc);
    push_asked(alloc, &mut text, line)?;
    text.push_str(": ")?;
    text.push_str(resource.as_str())?;
    text.push_str(" ")?;
    text.push_str(denied.privilege.name())?;
    push_by(alloc, &mut text, &denied.by)?;
    Ok(text)
}

/// The text of the group of a denial. An error is want of memory.
pub(crate) fn group_of(
    alloc: Global,
    form: Form,
    line: &ReplyLine,
    denied: &Denied,
) -> Result<Text, AllocError>
    ensures { IfOk result (λ text. text ≡ group_text form line.now denied.now) }
{
    let text = match form {
        Form::Text => sentence_of(alloc, line, denied)?,
        Form::Object => members_of(alloc, line, denied)?,
    };
    Ok(Text::from_string(text))
}
