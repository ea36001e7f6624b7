//! What changes have in common: what they make, why one is not made, and the epoch after it.

ghost use Rattle.std.specs.Prelude.{◌≡◌, ◌≢◌, ◌≤◌, false, true, [], IfErr, IfOk, OnOk};
ghost use Rattle.book_limits.specs.declared.TheConstants.{LAST_NUMBER};
ghost use Rattle.book_dumps_changes.specs.Changing.{has_principal, is_of, raised};

use book_dumps::Line;
use book_dumps_reading::Dumped;
use book_limits::LAST_NUMBER;
use book_lists::Principal;
use book_office_values::{Path, Text};
use std::alloc::{AllocError, AllocFailed, Global};

/// What became of a dump, and what is told of it.
#[derive(Debug, Drop)]
pub struct Changed {
    /// The dump that was made.
    pub dumped: Dumped,
    /// A line of text for each thing that was changed, in the order of the dump.
    pub told: Text,
}

/// Why a change is not made.
#[derive(Clone, Copy, Debug, PartialEq, Eq)]
pub enum ChangeFault {
    /// A person, group or book that is named has no line; or the heir of a person is that person.
    UnknownPrincipal,
    /// The epoch would be above 2^53 - 1.
    LastNumber,
    /// Memory was refused.
    Memory,
}

impl From<AllocError> for ChangeFault {
    ghost use Rattle.std.specs.Prelude.{◌≡◌};
    ghost use Rattle.book_dumps_changes.specs.declared.changed.ChangeFault.TheVariants.{Memory};

    ghost from_gives = { λ _ fault. fault ≡ Memory };

    fn from(_error: AllocError) -> ChangeFault {
        ChangeFault::Memory
    }
}

impl<T: Drop> From<AllocFailed<T>> for ChangeFault {
    ghost use Rattle.std.specs.Prelude.{◌≡◌};
    ghost use Rattle.book_dumps_changes.specs.declared.changed.ChangeFault.TheVariants.{Memory};

    ghost from_gives = { λ _ fault. fault ≡ Memory };

    fn from(_error: AllocFailed<T>) -> ChangeFault {
        ChangeFault::Memory
    }
}

/// Whether a line is that of a principal. An error is want of memory.
pub(crate) fn is_line_of(
    alloc: Global,
    line: &Line,
    principal: &Principal,
) -> Result<bool, AllocError>
    ensures { IfOk result (λ is. is ≡ is_of principal.now line.now) }
{
    match &line.path {
        Path::Person(name) => Ok(Principal::person(alloc, name)? == *principal),
        Path::Group(name) => Ok(Principal::group(alloc, name)? == *principal),
        Path::Root | Path::People | Path::Groups | Path::Books | Path::Book(_) | Path::Card(_, _) =>
            Ok(false),
    }
}

/// Whether a principal has a line. An error is want of memory.
pub(crate) fn has_line(
    alloc: Global,
    lines: &[Line],
    principal: &Principal,
) -> Result<bool, AllocError>
    ensures { IfOk result (λ has. has ≡ has_principal lines.now principal.now) }
{
    for line in lines {
        if is_line_of(alloc, line, principal)? {
            return Ok(true);
        }
    }
    Ok(false)
}

/// A principal has a line. It is `UnknownPrincipal` else.
pub(crate) fn check_principal(
    alloc: Global,
    lines: &[Line],
    principal: &Principal,
) -> Result<(), ChangeFault>
    ensures ok { OnOk result (has_principal lines.now principal.now ≡ true) }
    ensures unknown { IfErr result (λ fault. fault ≡ ChangeFault.UnknownPrincipal
        → has_principal lines.now principal.now ≡ false) }
    ensures below { IfErr result (λ fault. fault ≢ ChangeFault.LastNumber) }
{
    if !has_line(alloc, lines, principal)? {
        return Err(ChangeFault::UnknownPrincipal);
    }
    Ok(())
}

/// The epoch after a change: one more where something is told.
pub(crate) fn raised(epoch: u64, told: &Text) -> Result<u64, ChangeFault>
    ensures ok { IfOk result (λ after. after ≡ raised told.now epoch) }
    ensures within { IfOk result (λ after. epoch ≤ LAST_NUMBER → after ≤ LAST_NUMBER) }
    ensures last { IfErr result (λ fault. (fault ≡ ChangeFault.LastNumber)
        × (told.now ≢ []) × (LAST_NUMBER ≤ epoch)) }
{
    if told.len() == 0 {
        return Ok(epoch);
    }
    if epoch >= LAST_NUMBER {
        return Err(ChangeFault::LastNumber);
    }
    Ok(epoch + 1)
}
