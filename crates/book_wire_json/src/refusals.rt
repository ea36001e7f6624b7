//! The bodies of refusals.

ghost use Rattle.book_wire_json.specs.Refusals.{named, faulty_card, denial_data, refusal_data};
ghost use Rattle.book_wire_json.specs.Writing.{Tells};

use crate::denials::write_entry;
use crate::writing::JsonText;
use book_machine::{Denial, Refusal};
use std::alloc::{AllocError, Global};

/// Writes an error by its name. An error is want of memory.
fn write_named(out: &mut JsonText, name: &str) -> Result<(), AllocError>
    ensures { Tells result out.old out.new (named name.now) }
{
    out.begin_object()?;
    out.string_member("error", name)?;
    out.end_object()
}

/// Writes a faulty card: the name of its fault, and the line. An error is want of memory.
fn write_faulty_card(out: &mut JsonText, fault: &str, line: u64) -> Result<(), AllocError>
    ensures { Tells result out.old out.new (faulty_card fault.now line) }
{
    out.begin_object()?;
    out.string_member("error", "bad-card")?;
    out.string_member("fault", fault)?;
    out.number_member("line", line)?;
    out.end_object()
}

/// Writes a denial (RFC 3744, section 7.1.1). An error is want of memory.
fn write_denial(out: &mut JsonText, denial: &Denial) -> Result<(), AllocError>
    ensures { Tells result out.old out.new (denial_data denial.now) }
{
    out.begin_object()?;
    out.key("entry")?;
    write_entry(out, &denial.entry)?;
    out.string_member("error", "need-privileges")?;
    out.string_member("privilege", denial.privilege.name())?;
    out.path_member("resource", &denial.resource)?;
    out.end_object()
}

/// Writes what a refusal says. An error is want of memory.
pub(crate) fn write_refusal(
    alloc: Global,
    out: &mut JsonText,
    refusal: &Refusal,
) -> Result<(), AllocError>
    ensures { Tells result out.old out.new (refusal_data refusal.now) }
{
    match refusal {
        Refusal::BadCard(fault) => {
            let kind = fault.kind;
            let name = format!(in alloc; "{kind}")?;
            write_faulty_card(out, name.as_str(), fault.line as u64)
        }
        Refusal::NeedPrivileges(denial) => write_denial(out, denial.denial()),
        Refusal::BadRequest
        | Refusal::UnknownCaller
        | Refusal::NoProtectedAceConflict
        | Refusal::NoInheritedAceConflict
        | Refusal::LimitedNumberOfAces
        | Refusal::NotSupportedPrivilege
        | Refusal::RecognizedPrincipal
        | Refusal::ValidSyncToken
        | Refusal::NotFound
        | Refusal::NotAllowed(_)
        | Refusal::NoParent
        | Refusal::Overwrite
        | Refusal::BodyOnMkcol
        | Refusal::Full
        | Refusal::Unavailable => write_named(out, refusal.name()),
    }
}
