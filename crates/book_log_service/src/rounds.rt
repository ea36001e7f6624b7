//! A round of a machine that keeps a log: one commit keeps what many requests edited, and their lines are written after it.

ghost use Rattle.std.specs.Prelude.{◌≡◌, List, option_copied};
ghost use Rattle.std.specs.Borrow.{GName};
ghost use Rattle.book_office.specs.Keeping.{FallsBack, lent};
ghost use Rattle.book_office.specs.Rounds.{IsRound};
ghost use Rattle.book_log_service.specs.Kept.{OwesNoted, owed_text, serving_of};
ghost use Rattle.book_log_service.specs.Rounds.{IsLoggedWork, serving_in};
ghost use Rattle.book_wire_serving.specs.Rounds.{lent_by};

use crate::clocks::Clock;
use crate::logged::Logged;
use crate::noting::Notes;
use crate::pages::Page;
use book_machine::{Machine, Reply, Request};
use book_office::{Keeper, Rounds, StoreFault, Work};
use book_wire_serving::{LogFault, RoundService, Service, ServiceWork};
use std::alloc::Global;
use std::io::Write;

/// What serves in a round: a keeper that is lent, with the notes of the log, and a page for its lines.
#[derive(Drop)]
pub(crate) struct LoggedIn<'k, 'n, 'p, K, C> {
    pub(crate) keeper: &'k mut K,
    pub(crate) notes: &'n mut Notes<C>,
    pub(crate) page: &'p mut Page,
}

/// Serves a request by a machine of the keeper.
fn serve_over<K: Keeper, C: Clock>(
    machine: &mut Machine<&mut K>,
    notes: &mut Notes<C>,
    page: &mut Page,
    alloc: Global,
    name: Option<&str>,
    request: &Request,
) -> Reply
    ensures same_reference { machine.new.keeper.ghost_name ≡ machine.old.keeper.ghost_name }
    ensures owes { OwesNoted
        (lent machine.old.keeper.ghost_name (K.standing machine.old.keeper.now))
        (lent machine.new.keeper.ghost_name (K.standing machine.new.keeper.now)) page.old.failed
        page.new.failed (owed_text notes.new.made notes.new.spare) (option_copied name.entry)
        request.now result }
    ensures text { page.new.text.items ≡ page.old.text.items }
{
    notes.serve(&mut page.failed, machine, alloc, name, request)
}

impl<K: Keeper, C: Clock> Service for LoggedIn<'_, '_, '_, K, C> {
    ghost serving = { serving_in K.standing };

    ghost owed = { λ l. owed_text l.notes.now.made l.notes.now.spare };

    fn turn_to(&mut self, connection: u64) {
        self.notes.connection = connection;
    }

    fn serve(&mut self, alloc: Global, name: Option<&str>, request: &Request) -> Reply {
        let mut machine = Machine {
            keeper: &mut *self.keeper,
        };
        serve_over(&mut machine, self.notes, self.page, alloc, name, request)
    }

    fn note(&mut self, as_made: bool) -> Result<(), LogFault> {
        let page = &mut *self.page;
        self.notes.note(&mut page.text, &mut page.failed, as_made)
    }

    fn note_refusal(&mut self, status: u16, error: &str) -> Result<(), LogFault> {
        let page = &mut *self.page;
        self.notes
            .note_refusal(&mut page.text, &mut page.failed, status, error)
    }

    fn has_failed_log(&self) -> bool {
        self.page.failed
    }

    fn failures(&self) -> u64 {
        self.keeper.failures()
    }

    fn shows_nothing(&mut self) -> bool {
        self.keeper.epoch().is_err()
    }
}

/// Work over a machine of the keeper that is lent, whose lines are noted on a page.
#[derive(Drop)]
pub(crate) struct LoggedWork<'w, 'n, 'p, W, C> {
    pub(crate) work: &'w mut W,
    pub(crate) notes: &'n mut Notes<C>,
    pub(crate) page: &'p mut Page,
}

/// Does the work over what serves in a round.
fn run_over<K: Keeper, W: ServiceWork, C: Clock>(
    alloc: Global,
    work: &mut W,
    service: &mut LoggedIn<'_, '_, '_, K, C>,
)
    ensures same_keeper { service.new.keeper.ghost_name ≡ service.old.keeper.ghost_name }
    ensures same_notes { service.new.notes.ghost_name ≡ service.old.notes.ghost_name }
    ensures same_page { service.new.page.ghost_name ≡ service.old.page.ghost_name }
    ensures does { W.does (serving_in K.standing service.old) (serving_in K.standing service.new)
        work.old work.new }
    ensures falls { FallsBack (K.standing service.old.keeper.now).fallback
        (K.standing service.new.keeper.now).fallback }
{
    work.run(alloc, service);
}

impl<W: ServiceWork, C: Clock> Work for LoggedWork<'_, '_, '_, W, C> {
    ghost does = { λ first last old new. IsLoggedWork W.does first last old new };

    fn run<K: Keeper>(&mut self, alloc: Global, keeper: &mut K) {
        let mut service = LoggedIn {
            keeper,
            notes: &mut *self.notes,
            page: &mut *self.page,
        };
        run_over(alloc, self.work, &mut service);
    }
}

/// A round of the keeper.
fn round_over<K: Rounds, W: ServiceWork, C: Clock>(
    alloc: Global,
    keeper: &mut K,
    logged: &mut LoggedWork<'_, '_, '_, W, C>,
) -> Result<(), StoreFault>
    ensures same_work { logged.new.work.ghost_name ≡ logged.old.work.ghost_name }
    ensures same_notes { logged.new.notes.ghost_name ≡ logged.old.notes.ghost_name }
    ensures same_page { logged.new.page.ghost_name ≡ logged.old.page.ghost_name }
    ensures round { IsRound K.inside (IsLoggedWork W.does) (K.standing keeper.old)
        (K.standing keeper.new) logged.old logged.new result }
{
    keeper.round(alloc, logged)
}

/// Lines are written after the commit. Where memory is refused for a line in a round, or a write fails, the log has failed.
impl<K: Rounds, W: Write, C: Clock> RoundService for Logged<K, W, C> {
    ghost Inside = { K.Inside × List GName };

    ghost inside = { λ i. lent_by i.1 (K.inside i.0) };

    fn round<V: ServiceWork>(&mut self, alloc: Global, work: &mut V) -> Result<(), StoreFault> {
        let Ok(mut page) = Page::new(alloc, self.failed) else {
            return Err(StoreFault::Memory);
        };
        let mut logged = LoggedWork {
            work,
            notes: &mut self.notes,
            page: &mut page,
        };
        match round_over(alloc, &mut self.machine.keeper, &mut logged) {
            Ok(()) => {
                page.write(&mut self.writer, &mut self.failed);
                Ok(())
            }
            Err(fault) => Err(fault),
        }
    }
}
