//! Telling the direct members of groups, and each resource with its owner and its lists.

ghost use Rattle.std.specs.Prelude.{IfErr, OnOk};
ghost use Rattle.book_desk_app.specs.Audits.{Audits, FailsToAudit};

use crate::failures::{Failure, StoreFailure};
use book_office::Keeper;
use book_office_audit::audit_text;
use std::alloc::Global;
use std::io::Write;

/// Writes the audit of the Office as a text: the epoch, the direct members of the groups, and each resource with its
/// owner and its lists (own profile).
///
/// # Errors
///
/// `Store` where it could not be read: nothing is written. `Output` where it could not be written. The Office is as it
/// was.
pub fn audit<K: Keeper, W: Write>(
    alloc: Global,
    keeper: &mut K,
    writer: &mut W,
) -> Result<(), Failure>
    ensures told { OnOk result (Audits (K.standing keeper.old) (W.contents writer.old)
        (W.contents writer.new) (K.standing keeper.new)) }
    ensures failed { IfErr result (λ failure. FailsToAudit (K.standing keeper.old) failure
        (W.contents writer.old) (W.contents writer.new) (K.standing keeper.new)) }
{
    let text = match audit_text(alloc, keeper) {
        Ok(text) => text,
        Err(fault) => return Err(Failure::Store(StoreFailure::from(fault))),
    };
    if writer.write_all(text.as_bytes()).is_err() || writer.flush().is_err() {
        return Err(Failure::Output);
    }
    Ok(())
}
