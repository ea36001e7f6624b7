//! Edits of an access list (RFC 3744, section 8.1).

ghost use Rattle.std.specs.Prelude.{◌↔◌, IsTrue, IfOk, IfErr, IfSome, IfNone};
ghost use Rattle.book_lists.specs.ListEdits.{Clashes, ClashesWithAny, Conflicts, IsFaultless, EntryFault, IsAccepted, IsRefused};

use crate::entries::Entry;
use crate::submitted::Submitted;
use book_limits::MAX_ENTRIES;

/// Why a list is refused: the names of the preconditions of RFC 3744, section 8.1.1. Of the faults of one entry the
/// first in this order is told; a list that is too long is told before them.
#[derive(Clone, Copy, Debug, PartialEq, Eq)]
pub enum EditFault {
    /// `no-protected-ace-conflict`: the entry is marked protected, or a protected entry in force at the resource has
    /// its form and inversion, the opposite action and a leaf in common.
    NoProtectedAceConflict,
    /// `no-inherited-ace-conflict`: the entry is marked inherited. That unprotected inherited entries are no conflict
    /// is own profile.
    NoInheritedAceConflict,
    /// `limited-number-of-aces`: the list has more than 64 entries.
    LimitedNumberOfAces,
    /// `not-supported-privilege`: one of its names is no privilege.
    NotSupportedPrivilege,
    /// `recognized-principal`: its principal is no form and no principal that is there.
    RecognizedPrincipal,
}

/// Whether the protected entry has the same form and inversion, the opposite action and a leaf in common.
fn clashes(submitted: &Submitted, entry: &Entry) -> bool
    ensures { IsTrue result ↔ Clashes submitted.now entry.now }
{
    let Some(who) = &submitted.who else {
        return false;
    };
    let Some(set) = submitted.set else {
        return false;
    };
    *who == entry.who
        && submitted.invert == entry.invert
        && submitted.deny != entry.deny
        && set.meets(entry.set)
}

fn any_clashes(submitted: &Submitted, protected: &[Entry]) -> bool
    ensures { IsTrue result ↔ ClashesWithAny protected.now submitted.now }
{
    for entry in protected {
        if clashes(submitted, entry) {
            return true;
        }
    }
    false
}

fn conflicts(submitted: &Submitted, protected: &[Entry]) -> bool
    ensures { IsTrue result ↔ Conflicts protected.now submitted.now }
{
    submitted.protected || any_clashes(submitted, protected)
}

/// The least fault of the entry, if it has one.
fn fault_of(submitted: &Submitted, protected: &[Entry]) -> Option<EditFault>
    ensures fault { IfSome result (EntryFault protected.now submitted.now) }
    ensures none { IfNone result (IsFaultless protected.now submitted.now) }
{
    if conflicts(submitted, protected) {
        return Some(EditFault::NoProtectedAceConflict);
    }
    if submitted.inherited {
        return Some(EditFault::NoInheritedAceConflict);
    }
    if submitted.set.is_none() {
        return Some(EditFault::NotSupportedPrivilege);
    }
    if submitted.who.is_none() {
        return Some(EditFault::RecognizedPrincipal);
    }
    None
}

/// Whether the list may take the place of an own list where these protected entries are in force (RFC 3744, section
/// 8.1): those of the resource and of all above it. Takes no memory.
///
/// An error is `LimitedNumberOfAces` where the list has more than 64 entries, and else the least fault of the first
/// entry that has one.
pub fn check_edit(submitted: &[Submitted], protected: &[Entry]) -> Result<(), EditFault>
    ensures accepted { IfOk result (λ _. IsAccepted protected.now submitted.now) }
    ensures refused { IfErr result (IsRefused protected.now submitted.now) }
{
    if submitted.len() > MAX_ENTRIES {
        return Err(EditFault::LimitedNumberOfAces);
    }
    for entry in submitted {
        if let Some(fault) = fault_of(entry, protected) {
            return Err(fault);
        }
    }
    Ok(())
}
