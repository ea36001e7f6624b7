//! A keeper in memory, and a machine over it, in the words of the Office that it has. Where that is sound, a read leaves it
//! as it is and a request is served.

ghost use Rattle.std.specs.Prelude.{◌≡◌, IfErr, IfOk, OnOk};
ghost use Rattle.std.specs.Option.{option_copied};
ghost use Rattle.book_lists.specs.Callers.{IsCircle};
ghost use Rattle.book_lists.specs.Memberships.{members_of};
ghost use Rattle.book_office.specs.Edits.{apply, empty_office};
ghost use Rattle.book_office.specs.Resources.{count_at, node_at};
ghost use Rattle.book_office.specs.Sound.{Fits, IsSound};
ghost use Rattle.book_office_adopting.specs.Adopting.{adopt};
ghost use Rattle.book_office_adopting.specs.TakingOver.{bare};
ghost use Rattle.book_machine.specs.Steps.{Serves};
ghost use Rattle.book_policy_gaps.specs.Places.{AreHeld};
ghost use Rattle.book_policy_openings.specs.Openings.{IsRefused};
ghost use Rattle.book_policy_openings.specs.Steps.{caller_of};

use crate::steps::caller_of;
use book_lists::{Circle, Name, Pairs, Principal};
use book_machine::{AdoptFault, Adopted, Machine, Reply, Request};
use book_office::{Edit, Keeper, MemoryKeeper, Node, StoreFault};
use book_office_copies::copy_without_cards;
use book_office_values::{Office, Path};
use book_policy_gaps::held_at;
use book_policy_values::Policy;
use book_rights::LeafSet;
use std::alloc::Global;

/// The direct members of a group, each as a pair.
pub(crate) fn members_in(
    alloc: Global,
    keeper: &mut MemoryKeeper,
    group: &Principal,
) -> Result<Pairs, StoreFault>
    ensures pairs { IfOk result (λ pairs. IsSound keeper.old
        → pairs ≡ members_of keeper.old.pairs group.now) }
    ensures kept { IsSound keeper.old → keeper.new ≡ keeper.old }
{
    keeper.members(alloc, group)
}

/// The resource at a path.
pub(crate) fn node_in(
    alloc: Global,
    keeper: &mut MemoryKeeper,
    path: &Path,
) -> Result<Option<Node>, StoreFault>
    ensures node { IfOk result (λ node. IsSound keeper.old → node ≡ node_at keeper.old path.now) }
    ensures kept { IsSound keeper.old → keeper.new ≡ keeper.old }
{
    keeper.find(alloc, path)
}

/// How many children a path has.
pub(crate) fn count_in(
    alloc: Global,
    keeper: &mut MemoryKeeper,
    path: &Path,
) -> Result<usize, StoreFault>
    ensures count { IfOk result (λ count. IsSound keeper.old
        → count ≡ count_at keeper.old path.now) }
    ensures kept { IsSound keeper.old → keeper.new ≡ keeper.old }
{
    keeper.count(alloc, path)
}

/// A copy of the Office, without its cards.
pub(crate) fn bare_in(alloc: Global, keeper: &mut MemoryKeeper) -> Result<Office, StoreFault>
    ensures bare { IfOk result (λ office. IsSound keeper.old → office ≡ bare keeper.old) }
    ensures kept { IsSound keeper.old → keeper.new ≡ keeper.old }
{
    copy_without_cards(alloc, keeper)
}

/// The principals to which a caller belongs.
pub(crate) fn circle_in(
    alloc: Global,
    keeper: &mut MemoryKeeper,
    name: &Option<Name>,
) -> Result<Circle, StoreFault>
    ensures circle { IfOk result (λ circle. IsSound keeper.old
        → IsCircle keeper.old.pairs (caller_of name.now) circle) }
    ensures kept { IsSound keeper.old → keeper.new ≡ keeper.old }
{
    let caller = caller_of(alloc, name)?;
    keeper.circle(alloc, &caller)
}

/// The leaves that the principals of a circle hold at a resource.
pub(crate) fn held_in(
    alloc: Global,
    keeper: &mut MemoryKeeper,
    circle: &Circle,
    path: &Path,
) -> Result<LeafSet, StoreFault>
    ensures held { IfOk result (λ set. IsSound keeper.old
        → AreHeld keeper.old circle.now path.now set) }
    ensures kept { IsSound keeper.old → keeper.new ≡ keeper.old }
{
    held_at(alloc, keeper, circle, path)
}

/// Makes an edit that fits.
pub(crate) fn act_in(
    alloc: Global,
    keeper: &mut MemoryKeeper,
    edit: &Edit,
) -> Result<(), StoreFault>
    ensures office { OnOk result (IsSound keeper.old → Fits keeper.old edit.now
        → keeper.new ≡ apply keeper.old edit.now) }
    ensures sound { OnOk result (IsSound keeper.old → Fits keeper.old edit.now
        → IsSound keeper.new) }
{
    keeper.act(alloc, edit)
}

/// The name of a caller, if it has one, as a text.
fn name_text(caller: &Option<Name>) -> Option<&str>
    ensures { option_copied result ≡ caller.now }
{
    match caller {
        Some(name) => Some(name.text()),
        None => None,
    }
}

/// Serves a request of a caller.
pub(crate) fn serve_in(
    alloc: Global,
    machine: &mut Machine<MemoryKeeper>,
    caller: &Option<Name>,
    request: &Request,
) -> Reply
    ensures served { IsSound machine.old.keeper → Serves machine.old.keeper
        caller.now request.now result machine.new.keeper }
    ensures sound { IsSound machine.old.keeper → IsSound machine.new.keeper }
{
    machine.serve(alloc, name_text(caller), request)
}

/// Adopts a policy.
fn adopt_in(
    alloc: Global,
    machine: &mut Machine<MemoryKeeper>,
    policy: &Policy,
) -> Result<Adopted, AdoptFault>
    ensures office { OnOk result (IsSound machine.old.keeper
        → machine.new.keeper ≡ adopt policy.now machine.old.keeper) }
    ensures sound { OnOk result (IsSound machine.old.keeper → IsSound machine.new.keeper) }
    ensures refused { IfErr result (IsRefused policy.now machine.old.keeper) }
{
    machine.adopt(alloc, policy)
}

/// A machine over an Office in memory that adopted the policy.
///
/// # Errors
///
/// `Full` where the Office would pass a limit or its epoch is at the last value, `Unavailable` where memory was refused.
pub fn adopted_over(
    alloc: Global,
    policy: &Policy,
    start: Office,
) -> Result<Machine<MemoryKeeper>, AdoptFault>
    ensures office { IfOk result (λ machine. IsSound start
        → machine.keeper ≡ adopt policy.now start) }
    ensures sound { IfOk result (λ machine. IsSound start → IsSound machine.keeper) }
    ensures refused { IfErr result (IsRefused policy.now start) }
{
    let mut machine = Machine::new(MemoryKeeper::from_office(start));
    match adopt_in(alloc, &mut machine, policy) {
        Ok(_) => Ok(machine),
        Err(fault) => {
            drop(machine);
            Err(fault)
        }
    }
}

/// A machine over an empty Office in memory that adopted the policy. An error is want of memory.
pub fn adopted(alloc: Global, policy: &Policy) -> Result<Machine<MemoryKeeper>, StoreFault>
    ensures office { IfOk result (λ machine. machine.keeper ≡ adopt policy.now empty_office) }
    ensures sound { IfOk result (λ machine. IsSound machine.keeper) }
{
    let mut machine = Machine::new(MemoryKeeper::new(alloc));
    match adopt_in(alloc, &mut machine, policy) {
        Ok(_) => Ok(machine),
        Err(_) => {
            drop(machine);
            Err(StoreFault::Memory)
        }
    }
}
