//! A round of a service whose replies are counted.

ghost use Rattle.std.specs.Prelude.{◌≡◌, ◌∷◌, [], OnErr};
ghost use Rattle.std.specs.Borrow.{GName};
ghost use Rattle.book_office.specs.Keeping.{FallsBack};
ghost use Rattle.book_wire_serving.specs.Rounds.{IsServedRound, by_names};
ghost use Rattle.book_desk_metrics.specs.CountedRounds.{IsCountedWork, counted_in};

use crate::counted::{Clock, Counted};
use crate::counts::Counts;
use crate::times::Times;
use book_office::StoreFault;
use book_wire_serving::{RoundService, Service, ServiceWork};
use std::alloc::Global;

/// A clock that stands still: in a round requests are counted, and timed at its end.
#[derive(Drop)]
pub(crate) struct Still;

impl Clock for Still {
    ghost tells = { λ old micros new. micros ≡ 0 };

    fn micros(&mut self) -> u64 {
        0
    }
}

/// Work over the service of a round, whose replies are counted.
#[derive(Drop)]
pub(crate) struct CountedWork<'w, W> {
    pub(crate) work: &'w mut W,
    pub(crate) counts: Counts,
    /// How many requests were served in it.
    pub(crate) served: u64,
}

/// Does the work, and counts.
fn run_counted<M: Service, W: ServiceWork>(
    alloc: Global,
    work: &mut W,
    counted: &mut Counted<&mut M, Still>,
)
    ensures same_reference { counted.new.service.ghost_name ≡ counted.old.service.ghost_name }
    ensures does { W.does
        (by_names (counted.old.service.ghost_name ∷ []) (M.serving counted.old.service.now))
        (by_names (counted.new.service.ghost_name ∷ []) (M.serving counted.new.service.now))
        work.old work.new }
    ensures falls { FallsBack (M.serving counted.old.service.now).standing.fallback
        (M.serving counted.new.service.now).standing.fallback }
{
    work.run(alloc, counted);
}

impl<W: ServiceWork> ServiceWork for CountedWork<'_, W> {
    ghost does = { λ first last old new. IsCountedWork W.does first last old new };

    fn run<M: Service>(&mut self, alloc: Global, service: &mut M) {
        let mut counted = Counted {
            service,
            counts: self.counts,
            times: Times::new(),
            clock: Still,
            made: None,
        };
        run_counted(alloc, self.work, &mut counted);
        self.counts = counted.counts;
        self.served = counted.times.all;
    }
}

/// A round of the service.
fn round_over<M: RoundService, W: ServiceWork>(
    alloc: Global,
    service: &mut M,
    counted: &mut CountedWork<'_, W>,
) -> Result<(), StoreFault>
    ensures same_reference { counted.new.work.ghost_name ≡ counted.old.work.ghost_name }
    ensures round { IsServedRound M.inside (IsCountedWork W.does) (M.serving service.old)
        (M.serving service.new) counted.old counted.new result }
{
    service.round(alloc, counted)
}

/// So many requests took so long, each.
fn time_each(times: &mut Times, micros: u64, count: u64) {
    for _ in 0..count {
        times.time(micros);
    }
}

/// A round that was kept is counted: each request of it was served as long as the round, whose commit its reply waits for.
impl<M: RoundService, C: Clock> RoundService for Counted<M, C> {
    ghost Inside = { M.Inside × GName };

    ghost inside = { λ i. counted_in M.inside i };

    fn round<W: ServiceWork>(&mut self, alloc: Global, work: &mut W) -> Result<(), StoreFault>
        ensures round { IsServedRound (counted_in M.inside) W.does (M.serving self.old.service)
            (M.serving self.new.service) work.old work.new result }
        ensures kept { OnErr result (self.new.counts ≡ self.old.counts) }
    {
        let begun = self.clock.micros();
        let mut counted = CountedWork {
            work,
            counts: self.counts,
            served: 0,
        };
        match round_over(alloc, &mut self.service, &mut counted) {
            Ok(()) => {
                let ended = self.clock.micros();
                self.counts = counted.counts;
                time_each(&mut self.times, ended.saturating_sub(begun), counted.served);
                Ok(())
            }
            Err(fault) => Err(fault),
        }
    }
}
