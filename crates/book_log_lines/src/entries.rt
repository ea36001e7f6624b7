//! Entries as JSON.

ghost use Rattle.std.specs.Prelude.{◌≡◌, IfOk, map, string_bytes};
ghost use Rattle.json.specs.Json.{array};
ghost use Rattle.book_json_lines.specs.Objects.{items_of, Tells, TellsEach};
ghost use Rattle.book_log_lines.specs.Lines.{entry_json, entry_text, privilege_json, privileges_json};

use crate::words::{action_key, form_key, form_text};
use book_json_lines::JsonText;
use book_lists::Entry;
use book_lists_explain::short_privileges;
use book_rights::Privilege;
use std::alloc::{AllocError, Global};

/// Writes the name of each privilege. An error is want of memory.
fn write_each_privilege(out: &mut JsonText, privileges: &[Privilege]) -> Result<(), AllocError>
    ensures { TellsEach result out.old out.new (map privilege_json privileges.now) }
{
    for privilege in privileges {
        out.string(privilege.name())?;
    }
    Ok(())
}

/// Writes the names of privileges. An error is want of memory.
#[tactic(auto, using(crate::proofs::Common::array_told))]
fn write_privileges(out: &mut JsonText, privileges: &[Privilege]) -> Result<(), AllocError>
    ensures { Tells result out.old out.new (privileges_json privileges.now) }
{
    out.begin_array()?;
    write_each_privilege(out, privileges)?;
    out.end_array()
}

/// Writes an entry (RFC 3744, section 5.5), as the body of an ACL submits it. An error is want of memory.
pub(crate) fn write_entry(
    alloc: Global,
    out: &mut JsonText,
    entry: &Entry,
) -> Result<(), AllocError>
    ensures { Tells result out.old out.new (entry_json entry.now) }
{
    let names = short_privileges(alloc, entry.set)?;
    out.begin_object()?;
    out.key(action_key(entry.deny))?;
    write_privileges(out, names.as_slice())?;
    out.string_member(form_key(entry.invert), form_text(&entry.who))?;
    out.end_object()
}

/// The text of an entry, as a line has it. An error is want of memory.
#[tactic(auto, using(crate::proofs::Common::value_written))]
pub fn entry_string(alloc: Global, entry: &Entry) -> Result<String, AllocError>
    ensures { IfOk result (λ text. string_bytes text ≡ entry_text entry.now) }
{
    let mut out = JsonText::new(alloc);
    write_entry(alloc, &mut out, entry)?;
    Ok(out.into_string(alloc))
}
