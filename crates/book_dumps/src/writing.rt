//! A resource as a line of text.

ghost use Rattle.std.specs.Prelude.{◌≡◌, IfOk, codes, map, option_map, string_bytes};
ghost use Rattle.json.specs.Json.{array, string};
ghost use Rattle.book_office_audit.specs.EntryLines.{who_text};
ghost use Rattle.book_dumps.specs.Lines.{action_key, entries_json, entry_json, line_json, line_text, mark, paths_json, privilege_json, removed_json, removed_member, set_json, slots};
ghost use Rattle.book_dumps.specs.Objects.{if_some, items_of, number_json, present, Tells, TellsEach, TellsMembers, unless_empty};

use crate::lines::{Line, Removed};
use crate::texts::{JsonText, ended, ended_string};
use book_lists::{Entry, Principal, Who};
use book_lists_explain::short_privileges;
use book_office_values::Text;
use book_rights::{LeafSet, Privilege};
use std::alloc::{AllocError, Global};

/// The text of a principal form (RFC 3744, section 5.5.1).
fn who_text(who: &Who) -> &str
    ensures { result.now ≡ who_text who.now }
{
    match who {
        Who::Href(principal) => principal.text(),
        Who::Everyone => "all",
        Who::Authenticated => "authenticated",
        Who::Unauthenticated => "unauthenticated",
        Who::Owner => "owner",
        Who::Own => "self",
    }
}

fn action_key(deny: bool) -> &'static str
    ensures { result.now ≡ action_key deny }
{
    if deny { "deny" } else { "grant" }
}

/// Writes the name of each privilege. An error is want of memory.
fn write_each_privilege(out: &mut JsonText, privileges: &[Privilege]) -> Result<(), AllocError>
    ensures { TellsEach result out.old out.new (map privilege_json privileges.now) }
{
    for privilege in privileges {
        out.string(privilege.name())?;
    }
    Ok(())
}

/// Writes the names of privileges. An error is want of memory.
#[tactic(auto, using(crate::proofs::Written::array_told))]
fn write_privileges(out: &mut JsonText, privileges: &[Privilege]) -> Result<(), AllocError>
    ensures { Tells result out.old out.new (array (items_of (map privilege_json privileges.now))) }
{
    out.begin_array()?;
    write_each_privilege(out, privileges)?;
    out.end_array()
}

/// Writes the short names of a set. An error is want of memory.
fn write_set(alloc: Global, out: &mut JsonText, set: LeafSet) -> Result<(), AllocError>
    ensures { Tells result out.old out.new (set_json set) }
{
    let names = short_privileges(alloc, set)?;
    write_privileges(out, names.as_slice())
}

/// Writes the mark of an inverted entry. An error is want of memory.
fn write_mark(out: &mut JsonText, invert: bool) -> Result<(), AllocError>
    ensures { TellsMembers result out.old out.new (if_some (codes "invert") (mark invert)) }
{
    if invert {
        out.key("invert")?;
        out.boolean(true)?;
    }
    Ok(())
}

/// Writes an entry (RFC 3744, section 5.5). An error is want of memory.
fn write_entry(alloc: Global, out: &mut JsonText, entry: &Entry) -> Result<(), AllocError>
    ensures { Tells result out.old out.new (entry_json entry.now) }
{
    out.begin_object()?;
    out.string_member("who", who_text(&entry.who))?;
    write_mark(out, entry.invert)?;
    out.key(action_key(entry.deny))?;
    write_set(alloc, out, entry.set)?;
    out.end_object()
}

/// Writes each entry. An error is want of memory.
fn write_each_entry(alloc: Global, out: &mut JsonText, entries: &[Entry]) -> Result<(), AllocError>
    ensures { TellsEach result out.old out.new (map entry_json entries.now) }
{
    for entry in entries {
        write_entry(alloc, out, entry)?;
    }
    Ok(())
}

/// Writes entries. An error is want of memory.
#[tactic(auto, using(crate::proofs::Written::array_told))]
fn write_entries(alloc: Global, out: &mut JsonText, entries: &[Entry]) -> Result<(), AllocError>
    ensures { Tells result out.old out.new (entries_json entries.now) }
{
    out.begin_array()?;
    write_each_entry(alloc, out, entries)?;
    out.end_array()
}

/// Writes a list of entries under a key, unless it is empty. An error is want of memory.
fn write_list(
    alloc: Global,
    out: &mut JsonText,
    key: &str,
    entries: &[Entry],
) -> Result<(), AllocError>
    ensures { TellsMembers result out.old out.new
        (if_some key.now (unless_empty entries_json entries.now)) }
{
    if entries.is_empty() {
        return Ok(());
    }
    out.key(key)?;
    write_entries(alloc, out, entries)
}

/// Writes the path of each principal. An error is want of memory.
fn write_each_path(out: &mut JsonText, principals: &[Principal]) -> Result<(), AllocError>
    ensures { TellsEach result out.old out.new (map string principals.now) }
{
    for principal in principals {
        out.string(principal.text())?;
    }
    Ok(())
}

/// Writes paths of principals. An error is want of memory.
#[tactic(auto, using(crate::proofs::Written::array_told))]
fn write_paths(out: &mut JsonText, principals: &[Principal]) -> Result<(), AllocError>
    ensures { Tells result out.old out.new (paths_json principals.now) }
{
    out.begin_array()?;
    write_each_path(out, principals)?;
    out.end_array()
}

/// Writes the members of a group (RFC 3744, section 4.3), unless there are none. An error is want of memory.
fn write_members(out: &mut JsonText, members: &[Principal]) -> Result<(), AllocError>
    ensures { TellsMembers result out.old out.new
        (if_some (codes "members") (unless_empty paths_json members.now)) }
{
    if members.is_empty() {
        return Ok(());
    }
    out.key("members")?;
    write_paths(out, members)
}

/// Writes each removed name with its number. An error is want of memory.
fn write_each_removed(out: &mut JsonText, removed: &[Removed]) -> Result<(), AllocError>
    ensures { TellsMembers result out.old out.new (map removed_member removed.now) }
{
    for name in removed {
        out.number_member(name.name.text(), name.number)?;
    }
    Ok(())
}

/// Writes removed names. An error is want of memory.
#[tactic(auto, using(crate::proofs::Written::object_told))]
fn write_removed_names(out: &mut JsonText, removed: &[Removed]) -> Result<(), AllocError>
    ensures { Tells result out.old out.new (removed_json removed.now) }
{
    out.begin_object()?;
    write_each_removed(out, removed)?;
    out.end_object()
}

/// Writes the removed names of a book, unless there are none. An error is want of memory.
fn write_removed(out: &mut JsonText, removed: &[Removed]) -> Result<(), AllocError>
    ensures { TellsMembers result out.old out.new
        (if_some (codes "removed") (unless_empty removed_json removed.now)) }
{
    if removed.is_empty() {
        return Ok(());
    }
    out.key("removed")?;
    write_removed_names(out, removed)
}

/// Writes an owner (RFC 3744, section 5.1), if there is one. An error is want of memory.
fn write_owner(out: &mut JsonText, owner: &Option<Principal>) -> Result<(), AllocError>
    ensures { TellsMembers result out.old out.new
        (if_some (codes "owner") (option_map string owner.now)) }
{
    if let Some(owner) = owner {
        out.string_member("owner", owner.text())?;
    }
    Ok(())
}

/// Writes a label (RFC 4918, section 15.2), unless it is empty. An error is want of memory.
fn write_label(out: &mut JsonText, label: &Text) -> Result<(), AllocError>
    ensures { TellsMembers result out.old out.new
        (if_some (codes "label") (unless_empty string label.now)) }
{
    if label.len() == 0 {
        return Ok(());
    }
    out.string_member("label", label.as_str())
}

/// Writes a number, if there is one. An error is want of memory.
fn write_number(out: &mut JsonText, number: Option<u64>) -> Result<(), AllocError>
    ensures { TellsMembers result out.old out.new
        (if_some (codes "number") (option_map number_json number)) }
{
    if let Some(number) = number {
        out.number_member("number", number)?;
    }
    Ok(())
}

/// Writes the text of a card, if there is one. An error is want of memory.
fn write_text(out: &mut JsonText, text: &Option<Text>) -> Result<(), AllocError>
    ensures { TellsMembers result out.old out.new
        (if_some (codes "text") (option_map string text.now)) }
{
    if let Some(text) = text {
        out.string_member("text", text.as_str())?;
    }
    Ok(())
}

/// Writes the keys of a resource. An error is want of memory.
fn write_slots(alloc: Global, out: &mut JsonText, line: &Line) -> Result<(), AllocError>
    ensures { TellsMembers result out.old out.new (present (slots line.now)) }
{
    let path = line.path.text(alloc)?;
    out.string_member("path", path.as_str())?;
    write_owner(out, &line.owner)?;
    write_label(out, &line.label)?;
    write_list(alloc, out, "protected", line.protected.as_slice())?;
    write_list(alloc, out, "own", line.own.as_slice())?;
    write_members(out, line.members.as_slice())?;
    write_number(out, line.number)?;
    write_removed(out, line.removed.as_slice())?;
    write_text(out, &line.text)
}

/// Writes a resource. An error is want of memory.
#[tactic(auto, using(crate::proofs::Written::object_told))]
fn write_line(alloc: Global, out: &mut JsonText, line: &Line) -> Result<(), AllocError>
    ensures { Tells result out.old out.new (line_json line.now) }
{
    out.begin_object()?;
    write_slots(alloc, out, line)?;
    out.end_object()
}

/// The line of a resource. An error is want of memory.
#[tactic(auto, using(crate::proofs::Written::text_written))]
pub fn line_bytes(alloc: Global, line: &Line) -> Result<Vec<u8>, AllocError>
    ensures { IfOk result (λ bytes. bytes.items ≡ line_text line.now) }
{
    let mut out = JsonText::new(alloc);
    write_line(alloc, &mut out, line)?;
    ended(out)
}

/// The line of a resource, as a string. An error is want of memory.
#[tactic(auto, using(crate::proofs::Written::text_written))]
pub(crate) fn line_string(alloc: Global, line: &Line) -> Result<String, AllocError>
    ensures { IfOk result (λ text. string_bytes text ≡ line_text line.now) }
{
    let mut out = JsonText::new(alloc);
    write_line(alloc, &mut out, line)?;
    ended_string(alloc, out)
}
