//! Entries and resources as lines of text.

ghost use Rattle.std.specs.Prelude.{◌≡◌, ◌++◌, IfOk, OnOk, string_bytes};
ghost use Rattle.std.specs.List.{flat_map};
ghost use Rattle.book_lists_explain.specs.Answers.{spaced};
ghost use Rattle.book_office_audit.specs.EntryLines.{action_word, entry_line, invert_word, list_word, owner_text};
ghost use Rattle.book_office_audit.specs.EntryLines.{resource_lines, who_text};

use book_lists::{Entry, Principal, Who};
use book_lists_explain::short_privileges;
use book_office_values::Text;
use book_rights::Privilege;
use std::alloc::{AllocError, Global};

/// The text of a principal form.
fn who_text(who: &Who) -> &str
    ensures { result.now ≡ who_text who.now }
{
    match who {
        Who::Href(principal) => principal.text(),
        Who::Everyone => "all",
        Who::Authenticated => "authenticated",
        Who::Unauthenticated => "unauthenticated",
        Who::Owner => "owner",
        Who::Own => "self",
    }
}

/// The word for the list in which an entry stands.
fn list_word(protected: bool) -> &'static str
    ensures { result.now ≡ list_word protected }
{
    if protected { "  protected" } else { "  own" }
}

/// The word for what an entry does.
fn action_word(deny: bool) -> &'static str
    ensures { result.now ≡ action_word deny }
{
    if deny { " deny " } else { " grant " }
}

/// The word for an inverted form.
fn invert_word(invert: bool) -> &'static str
    ensures { result.now ≡ invert_word invert }
{
    if invert { "not " } else { "" }
}

/// Adds each name, after a space.
fn push_names(text: &mut String, names: &[Privilege]) -> Result<(), AllocError>
    ensures { OnOk result (string_bytes text.new ≡
        string_bytes text.old ++ flat_map spaced names.now) }
{
    for name in names {
        text.push_str(" ")?;
        text.push_str(name.name())?;
    }
    Ok(())
}

/// Adds the line of an entry: the list in which it stands, whether it grants or denies, its principal form and its short
/// names. An error is want of memory.
pub fn push_entry(
    alloc: Global,
    text: &mut String,
    protected: bool,
    entry: &Entry,
) -> Result<(), AllocError>
    ensures { OnOk result (string_bytes text.new ≡
        string_bytes text.old ++ entry_line protected entry.now) }
{
    let names = short_privileges(alloc, entry.set)?;
    text.push_str(list_word(protected))?;
    text.push_str(action_word(entry.deny))?;
    text.push_str(invert_word(entry.invert))?;
    text.push_str(who_text(&entry.who))?;
    push_names(text, &names)?;
    text.push_str("\n")
}

/// Adds the lines of entries.
fn push_entries(
    alloc: Global,
    text: &mut String,
    protected: bool,
    entries: &[Entry],
) -> Result<(), AllocError>
    ensures { OnOk result (string_bytes text.new ≡ string_bytes text.old ++ flat_map
        (entry_line protected) entries.now) }
{
    for entry in entries {
        push_entry(alloc, text, protected, entry)?;
    }
    Ok(())
}

/// The text of an owner; `-` where there is none.
pub fn owner_text(owner: &Option<Principal>) -> &str
    ensures { result.now ≡ owner_text owner.now }
{
    match owner {
        Some(owner) => owner.text(),
        None => "-",
    }
}

/// The lines of a resource. An error is want of memory.
pub(crate) fn resource_lines(
    alloc: Global,
    path: &str,
    owner: &Option<Principal>,
    protected: &[Entry],
    own: &[Entry],
) -> Result<Text, AllocError>
    ensures { IfOk result (λ lines. lines ≡
        resource_lines path.now owner.now protected.now own.now) }
{
    let mut text = String::from_str(alloc, path)?;
    text.push_str(" owner ")?;
    text.push_str(owner_text(owner))?;
    text.push_str("\n")?;
    push_entries(alloc, &mut text, true, protected)?;
    push_entries(alloc, &mut text, false, own)?;
    Ok(Text::from_string(text))
}
