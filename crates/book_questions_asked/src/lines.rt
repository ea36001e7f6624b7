//! What is stated, as lines that `explain` reads.

ghost use Rattle.std.specs.Prelude.{◌≡◌, ◌++◌, IfOk, OnOk, string_bytes};
ghost use Rattle.std.specs.List.{flat_map};
ghost use Rattle.book_office_audit.specs.EntryLines.{who_text};
ghost use Rattle.book_questions_asked.specs.Lines.{action_word, asked_line, caller_line, entry_line, here_line, invert_word, member_line, need_line, owner_line, stated_text};

use crate::stated::Stated;
use book_lists::{Caller, Entry, Membership, Principal, Who};
use book_lists_explain::short_privileges;
use book_office_values::Text;
use book_questions::push_names;
use book_rights::LeafSet;
use std::alloc::{AllocError, Global};

/// Adds the line of a membership.
fn push_member(text: &mut String, membership: &Membership) -> Result<(), AllocError>
    ensures { OnOk result (string_bytes text.new ≡
        string_bytes text.old ++ member_line membership.now) }
{
    text.push_str("member ")?;
    text.push_str(membership.group.text())?;
    text.push_str(" ")?;
    text.push_str(membership.member.text())?;
    text.push_str("\n")
}

/// Adds the line of each membership.
fn push_members(text: &mut String, memberships: &[Membership]) -> Result<(), AllocError>
    ensures { OnOk result (string_bytes text.new ≡
        string_bytes text.old ++ flat_map member_line memberships.now) }
{
    for membership in memberships {
        push_member(text, membership)?;
    }
    Ok(())
}

/// Adds the line of the caller.
fn push_caller(text: &mut String, caller: &Caller) -> Result<(), AllocError>
    ensures { OnOk result (string_bytes text.new ≡
        string_bytes text.old ++ caller_line caller.now) }
{
    match caller {
        Caller::Nobody => text.push_str("caller -\n"),
        Caller::Known(person) => {
            text.push_str("caller ")?;
            text.push_str(person.text())?;
            text.push_str("\n")
        }
    }
}

/// Adds the line of the owner, if there is one.
fn push_owner(text: &mut String, owner: &Option<Principal>) -> Result<(), AllocError>
    ensures { OnOk result (string_bytes text.new ≡ string_bytes text.old ++ owner_line owner.now) }
{
    match owner {
        None => Ok(()),
        Some(owner) => {
            text.push_str("owner ")?;
            text.push_str(owner.text())?;
            text.push_str("\n")
        }
    }
}

/// Adds the line of the resource, where it is a principal.
fn push_here(text: &mut String, principal: &Option<Principal>) -> Result<(), AllocError>
    ensures { OnOk result (string_bytes text.new ≡
        string_bytes text.old ++ here_line principal.now) }
{
    match principal {
        None => Ok(()),
        Some(principal) => {
            text.push_str("here ")?;
            text.push_str(principal.text())?;
            text.push_str("\n")
        }
    }
}

/// Adds the short names of a set, each after a space, and the end of the line.
fn push_set(alloc: Global, text: &mut String, set: LeafSet) -> Result<(), AllocError>
    ensures { OnOk result (string_bytes text.new ≡ string_bytes text.old ++ asked_line set) }
{
    let names = short_privileges(alloc, set)?;
    push_names(text, &names)?;
    text.push_str("\n")
}

/// Adds the line of the need.
fn push_need(alloc: Global, text: &mut String, set: LeafSet) -> Result<(), AllocError>
    ensures { OnOk result (string_bytes text.new ≡ string_bytes text.old ++ need_line set) }
{
    text.push_str("need")?;
    push_set(alloc, text, set)
}

/// The text of a principal form.
fn who_text(who: &Who) -> &str
    ensures { result.now ≡ who_text who.now }
{
    match who {
        Who::Href(principal) => principal.text(),
        Who::Everyone => "all",
        Who::Authenticated => "authenticated",
        Who::Unauthenticated => "unauthenticated",
        Who::Owner => "owner",
        Who::Own => "self",
    }
}

/// The first word of an entry.
fn action_word(deny: bool) -> &'static str
    ensures { result.now ≡ action_word deny }
{
    if deny { "deny " } else { "grant " }
}

/// The word of an inverted entry.
fn invert_word(invert: bool) -> &'static str
    ensures { result.now ≡ invert_word invert }
{
    if invert { "not " } else { "" }
}

/// Adds the line of an entry.
fn push_entry(alloc: Global, text: &mut String, entry: &Entry) -> Result<(), AllocError>
    ensures { OnOk result (string_bytes text.new ≡ string_bytes text.old ++ entry_line entry.now) }
{
    text.push_str(action_word(entry.deny))?;
    text.push_str(invert_word(entry.invert))?;
    text.push_str(who_text(&entry.who))?;
    push_set(alloc, text, entry.set)
}

/// Adds the line of each entry.
fn push_entries(alloc: Global, text: &mut String, entries: &[Entry]) -> Result<(), AllocError>
    ensures { OnOk result (string_bytes text.new ≡
        string_bytes text.old ++ flat_map entry_line entries.now) }
{
    for entry in entries {
        push_entry(alloc, text, entry)?;
    }
    Ok(())
}

/// The text of what is stated.
pub(crate) fn stated_text(alloc: Global, stated: &Stated) -> Result<Text, AllocError>
    ensures { IfOk result (λ text. text ≡ stated_text stated.now) }
{
    let mut text = String::new(alloc);
    push_members(&mut text, stated.members.as_slice())?;
    push_caller(&mut text, &stated.caller)?;
    push_owner(&mut text, &stated.here.owner)?;
    push_here(&mut text, &stated.here.principal)?;
    push_need(alloc, &mut text, stated.set)?;
    push_entries(alloc, &mut text, stated.entries.as_slice())?;
    Ok(Text::from_string(text))
}
