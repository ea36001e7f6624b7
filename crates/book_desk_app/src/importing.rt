//! Adopting a policy, and telling what it did.

ghost use Rattle.std.specs.Prelude.{IfErr, OnOk};
ghost use Rattle.book_desk_app.specs.Imports.{AdoptsGiven, FailsToAdopt, FailsToImport, Imports};

use crate::adoptions::adopt_or_fail;
use crate::failures::Failure;
use book_machine::Machine;
use book_office::{Keeper, Policy};
use std::alloc::Global;
use std::io::Write;

/// Adopts the policy, if one is given.
///
/// # Errors
///
/// `Adoption` where it was not adopted. The Office is as it was.
pub fn adopt_given<K: Keeper>(
    alloc: Global,
    machine: &mut Machine<K>,
    policy: &Option<Policy>,
) -> Result<(), Failure>
    ensures adopted { OnOk result (AdoptsGiven (K.standing machine.old.keeper) policy.now
        (K.standing machine.new.keeper)) }
    ensures refused { IfErr result (λ failure. FailsToAdopt
        (K.standing machine.old.keeper) policy.now failure (K.standing machine.new.keeper)) }
{
    let Some(policy) = policy else {
        return Ok(());
    };
    match adopt_or_fail(alloc, machine, policy) {
        Ok(_) => Ok(()),
        Err(failure) => Err(Failure::Adoption(failure)),
    }
}

/// Adopts the policy, and writes a line: `changed, epoch N` where the Office differs from before, else
/// `unchanged, epoch N`, with the epoch afterwards.
///
/// # Errors
///
/// `Adoption` where it was not adopted: the Office is as it was, and nothing is written. `Output` where the line could
/// not be written: the policy was adopted.
pub fn import<K: Keeper, W: Write>(
    alloc: Global,
    machine: &mut Machine<K>,
    policy: &Policy,
    writer: &mut W,
) -> Result<(), Failure>
    ensures imported { OnOk result (Imports (K.standing machine.old.keeper) policy.now
        (W.contents writer.old) (W.contents writer.new) (K.standing machine.new.keeper)) }
    ensures failed { IfErr result (λ failure. FailsToImport
        (K.standing machine.old.keeper) policy.now failure (W.contents writer.old)
        (W.contents writer.new) (K.standing machine.new.keeper)) }
{
    let adopted = match adopt_or_fail(alloc, machine, policy) {
        Ok(adopted) => adopted,
        Err(failure) => return Err(Failure::Adoption(failure)),
    };
    let word = if adopted.changed {
        "changed"
    } else {
        "unchanged"
    };
    if writeln!(writer, "{word}, epoch {}", adopted.epoch).is_err() || writer.flush().is_err() {
        return Err(Failure::Output);
    }
    Ok(())
}
