//! Trials of gains: requests are served over a copy of an Office in memory, and what a caller holds is asked before and
//! after.

ghost use Rattle.std.specs.Prelude.{◌≡◌, IfOk, IsTrue};
ghost use Rattle.book_office.specs.Sound.{IsSound};
ghost use Rattle.book_policy_openings.specs.Gains.{AreGained, Holds, IsGainFrom, IsGainIn, IsThere};

use crate::gains::Gain;
use crate::in_memory::{bare_in, circle_in, held_in, node_in};
use crate::trials::leads;
use book_lists::Name;
use book_machine::Machine;
use book_office::{MemoryKeeper, StoreFault};
use book_office_values::Path;
use book_rights::LeafSet;
use std::alloc::Global;

/// Whether a resource is at a path.
fn is_there(alloc: Global, keeper: &mut MemoryKeeper, path: &Path) -> Result<bool, StoreFault>
    ensures there { IfOk result (λ there. IsTrue there → IsSound keeper.old
        → IsThere keeper.old path.now) }
    ensures kept { IsSound keeper.old → keeper.new ≡ keeper.old }
{
    let node = node_in(alloc, keeper, path)?;
    Ok(node.is_some())
}

/// The leaves that a caller holds at a resource.
fn held_by(
    alloc: Global,
    keeper: &mut MemoryKeeper,
    caller: &Option<Name>,
    path: &Path,
) -> Result<LeafSet, StoreFault>
    ensures held { IfOk result (λ set. IsSound keeper.old
        → Holds keeper.old caller.now path.now set) }
    ensures kept { IsSound keeper.old → keeper.new ≡ keeper.old }
{
    let circle = circle_in(alloc, keeper, caller)?;
    held_in(alloc, keeper, &circle, path)
}

/// Whether leaves are exactly those that were got, and there is one.
fn are_gained(before: LeafSet, after: LeafSet, leaves: LeafSet) -> bool
    ensures { IsTrue result → AreGained before after leaves }
{
    let Some(_least) = leaves.least() else {
        return false;
    };
    leaves == after.minus(before)
}

/// Whether a gain is one from the Office that the machine has.
fn gains_from(
    alloc: Global,
    machine: &mut Machine<MemoryKeeper>,
    gain: &Gain,
) -> Result<bool, StoreFault>
    ensures { IfOk result (λ gains. IsTrue gains → IsSound machine.old.keeper
        → IsGainFrom machine.old.keeper gain.now) }
{
    let there = is_there(alloc, &mut machine.keeper, &gain.at)?;
    if !there {
        return Ok(false);
    }
    let before = held_by(alloc, &mut machine.keeper, &gain.caller, &gain.at)?;
    let led = leads(alloc, machine, &gain.caller, &gain.first, &gain.second)?;
    if !led {
        return Ok(false);
    }
    let after = held_by(alloc, &mut machine.keeper, &gain.caller, &gain.at)?;
    Ok(are_gained(before, after, gain.leaves))
}

/// Whether a gain is one in the Office: the resource is there, the caller's requests are served with success, and then they
/// hold exactly these leaves beside those that they held before. The Office stays as it is.
pub(crate) fn is_gain(
    alloc: Global,
    start: &mut MemoryKeeper,
    gain: &Gain,
) -> Result<bool, StoreFault>
    ensures gains { IfOk result (λ gains. IsTrue gains → IsSound start.old
        → IsGainIn start.old gain.now) }
    ensures kept { IsSound start.old → start.new ≡ start.old }
{
    let office = bare_in(alloc, start)?;
    let mut machine = Machine::new(MemoryKeeper::from_office(office));
    let gains = gains_from(alloc, &mut machine, gain);
    drop(machine);
    gains
}
