//! What serves many requests by one commit of its store.

ghost use Rattle.std.specs.Prelude.{◌≡◌};
ghost use Rattle.std.specs.Borrow.{GName};
ghost use Rattle.book_office.specs.Keeping.{FallsBack, Standing, lent};
ghost use Rattle.book_office.specs.Rounds.{IsRound};
ghost use Rattle.book_wire_serving.specs.Logs.{no_log};
ghost use Rattle.book_wire_serving.specs.Rounds.{IsMachineWork, IsServedRound, with_log};
ghost use Rattle.book_wire_serving.specs.Serving.{Serving};

use crate::services::Service;
use book_machine::Machine;
use book_office::{Keeper, Rounds, StoreFault, Work};
use std::alloc::Global;

/// What is done over a service, whatever service it is.
pub trait ServiceWork {
    ghost does: { Serving → Serving → Self → Self → Type 0 };

    /// Does it.
    fn run<M: Service>(&mut self, alloc: Global, service: &mut M)
        ensures does { does (M.serving service.old) (M.serving service.new) self.old self.new }
        ensures falls { FallsBack (M.serving service.old).standing.fallback
            (M.serving service.new).standing.fallback };
}

/// A service that can keep what many requests edited by one commit of its store.
pub trait RoundService: Service {
    ghost Inside: { Type 0 };

    ghost inside: { Self.Inside → Standing };

    /// Does the work over a service of the same Office, and keeps all that it edited, or nothing. Lines of the log are written
    /// where that is kept, before this ends.
    ///
    /// # Errors
    ///
    /// Nothing is kept: the Office and the log are as they were. The work may have been done, or not.
    fn round<W: ServiceWork>(&mut self, alloc: Global, work: &mut W) -> Result<(), StoreFault>
        ensures { IsServedRound Self.inside W.does (Self.serving self.old)
            (Self.serving self.new) work.old work.new result };
}

/// Work over a machine of the keeper that is lent.
#[derive(Drop)]
pub(crate) struct MachineWork<'w, W> {
    pub(crate) work: &'w mut W,
}

/// Does the work over the machine.
fn run_over<K: Keeper, W: ServiceWork>(alloc: Global, work: &mut W, machine: &mut Machine<&mut K>)
    ensures same_reference { machine.new.keeper.ghost_name ≡ machine.old.keeper.ghost_name }
    ensures does { W.does
        (with_log no_log (lent machine.old.keeper.ghost_name (K.standing machine.old.keeper.now)))
        (with_log no_log (lent machine.new.keeper.ghost_name (K.standing machine.new.keeper.now)))
        work.old work.new }
    ensures falls { FallsBack (K.standing machine.old.keeper.now).fallback
        (K.standing machine.new.keeper.now).fallback }
{
    work.run(alloc, machine);
}

impl<W: ServiceWork> Work for MachineWork<'_, W> {
    ghost does = { λ first last old new. IsMachineWork W.does first last old new };

    fn run<K: Keeper>(&mut self, alloc: Global, keeper: &mut K) {
        let mut machine = Machine { keeper };
        run_over(alloc, self.work, &mut machine);
    }
}

/// A round of the keeper.
fn round_over<K: Rounds, W: ServiceWork>(
    alloc: Global,
    keeper: &mut K,
    machine: &mut MachineWork<'_, W>,
) -> Result<(), StoreFault>
    ensures same_reference { machine.new.work.ghost_name ≡ machine.old.work.ghost_name }
    ensures round { IsRound K.inside (IsMachineWork W.does) (K.standing keeper.old)
        (K.standing keeper.new) machine.old machine.new result }
{
    keeper.round(alloc, machine)
}

impl<K: Rounds> RoundService for Machine<K> {
    ghost Inside = { K.Inside × GName };

    ghost inside = { λ i. lent i.1 (K.inside i.0) };

    fn round<W: ServiceWork>(&mut self, alloc: Global, work: &mut W) -> Result<(), StoreFault> {
        let mut machine = MachineWork { work };
        round_over(alloc, &mut self.keeper, &mut machine)
    }
}
