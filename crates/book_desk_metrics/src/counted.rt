//! A service whose replies are counted.

ghost use Rattle.std.specs.Prelude.{◌≡◌, ◌∷◌, [], Some, None, true, false, OnOk, OnErr, option_copied, option_map};
ghost use Rattle.book_log_replies.specs.Replies.{denial_in};
ghost use Rattle.book_office_listings.specs.declared.messages.Denial.{Denial};
ghost use Rattle.book_wire_serving.specs.Serving.{NotesOwed, NotesRefusal, Owes, Runs, Stays};
ghost use Rattle.book_desk_metrics.specs.Counted.{IsTimed, noted, refusal_of, told_of, unavailable_of};
ghost use Rattle.book_desk_metrics.specs.Counting.{IsZero, all_counted};
ghost use Rattle.book_desk_metrics.specs.Timing.{no_times};

use crate::counts::{Counts, Told};
use crate::times::Times;
use book_log_replies::denial_in;
use book_machine::{Reply, Request};
use book_rights::Privilege;
use book_wire_serving::{LogFault, Service};
use std::alloc::Global;

/// What tells how much time has passed.
pub trait Clock: Drop {
    ghost use Rattle.std.specs.Prelude.{ℕ};

    ghost tells: { Self → ℕ → Self → Type 0 };

    /// How many microseconds have passed, since some time that stays the same.
    fn micros(&mut self) -> u64
        ensures { tells self.old result self.new };
}

/// A service, whose replies are counted as they are noted, and timed as they are made.
#[derive(Drop)]
pub struct Counted<M, C> {
    /// What serves.
    pub service: M,
    /// How often each reply was noted.
    pub counts: Counts,
    /// How long requests were served.
    pub times: Times,
    /// What tells the time.
    pub(crate) clock: C,
    /// The reply that was made last, until it is noted.
    pub(crate) made: Option<Told>,
}

/// The privilege that a denial names, if the reply is one.
fn denied_in(reply: &Reply) -> Option<Privilege>
    ensures { result ≡ option_map (λ (d : Denial). d.privilege) (denial_in reply.now.content) }
{
    match denial_in(reply) {
        Some(denial) => Some(denial.privilege),
        None => None,
    }
}

/// A reply to a request, as it is counted.
fn told_of(request: &Request, reply: &Reply) -> Told
    ensures { result ≡ told_of request.now reply.now }
{
    Told {
        method: Some(request.method),
        status: reply.status,
        denied: denied_in(reply),
    }
}

/// Counts a reply, if one was made: as it was made, or `unavailable` in its place.
fn count_noted(counts: &mut Counts, made: Option<Told>, as_made: bool)
    ensures { counts.new ≡ all_counted counts.old (noted made as_made) }
{
    let Some(told) = made else {
        return;
    };
    if as_made {
        counts.count(told);
    } else {
        counts.count(Told {
            method: told.method,
            status: 503,
            denied: None,
        });
    }
}

impl<M: Service, C: Clock> Counted<M, C> {
    /// A service of which nothing is counted yet.
    pub fn new(service: M, clock: C) -> Counted<M, C>
        ensures service { result.service ≡ service }
        ensures counts { IsZero result.counts }
        ensures times { result.times ≡ no_times }
    {
        Counted {
            service,
            counts: Counts::new(),
            times: Times::new(),
            clock,
            made: None,
        }
    }

    /// Gives the service back.
    pub fn release(self) -> M
        ensures { result ≡ self.service }
    {
        let Counted { service, clock, .. } = self;
        drop(clock);
        service
    }
}

impl<M: Service, C: Clock> Service for Counted<M, C> {
    ghost serving = { λ s. M.serving s.service };

    ghost owed = { λ s. M.owed s.service };

    fn turn_to(&mut self, connection: u64)
        ensures stays { Stays (M.serving self.old.service) (M.serving self.new.service) }
        ensures counts { self.new.counts ≡ self.old.counts }
    {
        self.service.turn_to(connection);
    }

    fn serve(&mut self, alloc: Global, name: Option<&str>, request: &Request) -> Reply
        ensures owes { Owes (M.serving self.old.service) (M.serving self.new.service)
            (M.owed self.new.service) (option_copied name.entry) request.now result }
        ensures made { self.new.made ≡ Some (told_of request.now result) }
        ensures counts { self.new.counts ≡ self.old.counts }
        ensures timed { IsTimed C.tells self.old.clock self.old.times self.new.clock
            self.new.times }
    {
        let begun = self.clock.micros();
        let reply = self.service.serve(alloc, name, request);
        let ended = self.clock.micros();
        self.times.time(ended.saturating_sub(begun));
        self.made = Some(told_of(request, &reply));
        reply
    }

    fn note(&mut self, as_made: bool) -> Result<(), LogFault>
        ensures noted { NotesOwed (M.serving self.old.service) (M.serving self.new.service)
            (M.owed self.old.service as_made) }
        ensures sound { OnOk result ((M.serving self.new.service).log.failed ≡ false) }
        ensures failed { OnErr result ((M.serving self.new.service).log.failed ≡ true) }
        ensures counted { OnOk result (self.new.counts
            ≡ all_counted self.old.counts (noted self.old.made as_made)) }
        ensures kept { OnErr result (self.new.counts ≡ self.old.counts) }
        ensures once { self.new.made ≡ None }
    {
        let made = self.made;
        self.made = None;
        match self.service.note(as_made) {
            Ok(()) => {
                count_noted(&mut self.counts, made, as_made);
                Ok(())
            }
            Err(fault) => Err(fault),
        }
    }

    fn note_refusal(&mut self, status: u16, error: &str) -> Result<(), LogFault>
        ensures noted { NotesRefusal (M.serving self.old.service) (M.serving self.new.service)
            status error.now }
        ensures sound { OnOk result ((M.serving self.new.service).log.failed ≡ false) }
        ensures failed { OnErr result ((M.serving self.new.service).log.failed ≡ true) }
        ensures counted { OnOk result (self.new.counts
            ≡ all_counted self.old.counts (refusal_of status ∷ [])) }
        ensures kept { OnErr result (self.new.counts ≡ self.old.counts) }
    {
        match self.service.note_refusal(status, error) {
            Ok(()) => {
                self.counts.count(Told {
                    method: None,
                    status,
                    denied: None,
                });
                Ok(())
            }
            Err(fault) => Err(fault),
        }
    }

    fn has_failed_log(&self) -> bool {
        self.service.has_failed_log()
    }

    fn failures(&self) -> u64 {
        self.service.failures()
    }

    fn shows_nothing(&mut self) -> bool
        ensures runs { Runs (M.serving self.old.service) (M.serving self.new.service) [] }
        ensures counts { self.new.counts ≡ self.old.counts }
    {
        self.service.shows_nothing()
    }
}
