//! Denials: the privilege, the resource and the deciding entry.

ghost use Rattle.std.specs.Prelude.{◌≡◌, Some};
ghost use Rattle.book_wire_json.specs.Denials.{denial_data, entry_data};
ghost use Rattle.book_wire_json.specs.Writing.{Tells};

use crate::writing::JsonText;
use book_office_listings::{DecidingEntry, Denial};
use std::alloc::AllocError;

/// Writes where an entry stands, and its number in the effective list. An error is want of memory.
fn write_deciding(out: &mut JsonText, entry: &DecidingEntry) -> Result<(), AllocError>
    ensures { Tells result out.old out.new (entry_data (Some entry.now)) }
{
    out.begin_object()?;
    out.path_member("from", &entry.from)?;
    out.number_member("number", entry.number as u64)?;
    out.end_object()
}

/// Writes the entry that decides a denial (RFC 3744, section 7.1.1; own profile): where it stands, and its number in the
/// effective list from 1; null where no entry decides. An error is want of memory.
pub(crate) fn write_entry(
    out: &mut JsonText,
    entry: &Option<DecidingEntry>,
) -> Result<(), AllocError>
    ensures { Tells result out.old out.new (entry_data entry.now) }
{
    match entry {
        Some(entry) => write_deciding(out, entry),
        None => out.null(),
    }
}

/// Writes a denial in a listing. An error is want of memory.
pub(crate) fn write_denial(out: &mut JsonText, denial: &Denial) -> Result<(), AllocError>
    ensures { Tells result out.old out.new (denial_data denial.now) }
{
    out.begin_object()?;
    out.key("entry")?;
    write_entry(out, &denial.entry)?;
    out.string_member("privilege", denial.privilege.name())?;
    out.path_member("resource", &denial.resource)?;
    out.end_object()
}
