//! A new epoch, above each that was.

ghost use Rattle.std.specs.Prelude.{◌≡◌, ◌≢◌, ◌<◌, ◌≤◌, IfErr, IfOk};
ghost use Rattle.book_limits.specs.declared.TheConstants.{LAST_NUMBER};
ghost use Rattle.book_dumps_changes.specs.Epochs.{at_least, epoch_told, renewed, with_epoch};

use crate::changed::{ChangeFault, Changed};
use crate::removals::push_number;
use book_dumps_reading::Dumped;
use book_limits::LAST_NUMBER;
use book_office_values::Text;
use std::alloc::{AllocError, Global};

/// How far a new epoch is above the one before: more than an Office's epoch rises between two backups.
const STEP: u64 = 1_048_576;

/// The larger of two epochs, if there are two.
fn at_least(above: Option<u64>, epoch: u64) -> u64
    ensures { result ≡ at_least above epoch }
{
    match above {
        None => epoch,
        Some(above) => epoch.max(above),
    }
}

/// The new epoch, which is `LastNumber` where it would be above the last.
fn renewed(above: Option<u64>, epoch: u64) -> Result<u64, ChangeFault>
    ensures ok { IfOk result (λ after. (after ≡ renewed above epoch) × (after ≤ LAST_NUMBER)) }
    ensures err { IfErr result (λ fault. (fault ≡ ChangeFault.LastNumber)
        × (LAST_NUMBER < renewed above epoch)) }
{
    let before = at_least(above, epoch);
    if before > LAST_NUMBER - STEP {
        return Err(ChangeFault::LastNumber);
    }
    Ok(before + STEP)
}

/// `epoch OLD -> NEW`. An error is want of memory.
fn epoch_told(alloc: Global, old: u64, new: u64) -> Result<Text, AllocError>
    ensures { IfOk result (λ told. told ≡ epoch_told old new) }
{
    let mut told = String::from_str(alloc, "epoch ")?;
    push_number(alloc, &mut told, old)?;
    told.push_str(" -> ")?;
    push_number(alloc, &mut told, new)?;
    told.push_str("\n")?;
    Ok(Text::from_string(told))
}

/// Makes a new epoch: the larger of the dump's and one that is given, and 2^20, so that every token that was given out
/// under an epoch up to either is refused. All else is as it was. `epoch OLD -> NEW` is told.
///
/// # Errors
///
/// `LastNumber` where the new epoch would be above 2^53 - 1. `Memory` where memory was refused.
pub fn new_epoch(alloc: Global, dumped: Dumped, above: Option<u64>) -> Result<Changed, ChangeFault>
    ensures ok { IfOk result (λ changed. changed ≡ with_epoch above dumped) }
    ensures within { IfOk result (λ changed. changed.dumped.epoch ≤ LAST_NUMBER) }
    ensures known { IfErr result (λ fault. fault ≢ ChangeFault.UnknownPrincipal) }
    ensures last { IfErr result (λ fault. fault ≡ ChangeFault.LastNumber
        → LAST_NUMBER < renewed above dumped.epoch) }
{
    let Dumped { epoch, lines } = dumped;
    let after = renewed(above, epoch)?;
    let told = epoch_told(alloc, epoch, after)?;
    Ok(Changed {
        dumped: Dumped {
            epoch: after,
            lines,
        },
        told,
    })
}
