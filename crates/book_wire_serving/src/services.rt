//! A service: what the wire asks for each request.

ghost use Rattle.std.specs.Prelude.{◌≡◌, true, false, List, ℕ, Bool, [], OnOk, OnErr, option_copied};
ghost use Rattle.book_wire_serving.specs.Logs.{no_log};
ghost use Rattle.book_wire_serving.specs.Serving.{NotesOwed, NotesRefusal, Owes, Runs, Serving, Stays};

use book_machine::{Machine, Reply, Request};
use book_office::Keeper;
use std::alloc::Global;

/// A line of the log could not be written. No further reply is to be sent.
#[derive(Clone, Copy, Debug, PartialEq, Eq)]
pub struct LogFault;

/// What serves requests, one after the other, and notes a line of each reply before it is sent, where it keeps a log.
///
/// An implementation says what it stands for, and what its log holds (`serving`), and which text it owes for the request that
/// it served last (`owed`).
pub trait Service {
    ghost serving: { Self → Serving };

    ghost owed: { Self → Bool → List ℕ };

    /// The next requests come on the connection of that number.
    fn turn_to(&mut self, connection: u64)
        ensures { Stays (serving self.old) (serving self.new) };

    /// Serves a request of a caller, and gets ready what is noted of it. Where memory or the store is refused for that, the
    /// reply is `unavailable`, and nothing changes. A log that has failed stays so.
    fn serve(&mut self, alloc: Global, name: Option<&str>, request: &Request) -> Reply
        ensures { Owes (serving self.old) (serving self.new) (owed self.new)
            (option_copied name.entry) request.now result };

    /// Notes the request that was served last: its reply is sent as it was made, or `unavailable` in its place.
    ///
    /// # Errors
    ///
    /// The line could not be written.
    fn note(&mut self, as_made: bool) -> Result<(), LogFault>
        ensures noted { NotesOwed (serving self.old) (serving self.new) (owed self.old as_made) }
        ensures sound { OnOk result ((serving self.new).log.failed ≡ false) }
        ensures failed { OnErr result ((serving self.new).log.failed ≡ true) };

    /// Notes a refusal where no request could be read.
    ///
    /// # Errors
    ///
    /// The line could not be written.
    fn note_refusal(&mut self, status: u16, error: &str) -> Result<(), LogFault>
        ensures noted { NotesRefusal (serving self.old) (serving self.new) status error.now }
        ensures sound { OnOk result ((serving self.new).log.failed ≡ false) }
        ensures failed { OnErr result ((serving self.new).log.failed ≡ true) };

    /// Whether a line could not be written.
    fn has_failed_log(&self) -> bool
        ensures { result ≡ (serving self.now).log.failed };

    /// How often the store has failed. Takes no memory.
    fn failures(&self) -> u64
        ensures { result ≡ (serving self.now).standing.failures };

    /// Whether the Office can't be read now: its epoch is asked for.
    fn shows_nothing(&mut self) -> bool
        ensures { Runs (serving self.old) (serving self.new) [] };
}

/// The machine keeps no log.
impl<K: Keeper> Service for Machine<K> {
    ghost serving = { λ m. record { standing = K.standing m.keeper; log = no_log } };

    ghost owed = { λ m as_made. [] };

    fn turn_to(&mut self, _connection: u64) {}

    fn serve(&mut self, alloc: Global, name: Option<&str>, request: &Request) -> Reply {
        Machine::serve(self, alloc, name, request)
    }

    fn note(&mut self, _as_made: bool) -> Result<(), LogFault> {
        Ok(())
    }

    fn note_refusal(&mut self, _status: u16, _error: &str) -> Result<(), LogFault> {
        Ok(())
    }

    fn has_failed_log(&self) -> bool {
        false
    }

    fn failures(&self) -> u64 {
        self.keeper.failures()
    }

    fn shows_nothing(&mut self) -> bool {
        self.keeper.epoch().is_err()
    }
}
