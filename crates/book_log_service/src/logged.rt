//! A machine that keeps a log.

ghost use Rattle.std.specs.Prelude.{◌≡◌, true, false, OnErr, OnOk, option_copied};
ghost use Rattle.book_log_service.specs.Adoptions.{NotesAdoption};
ghost use Rattle.book_log_service.specs.Kept.{AppendsFront, Grows, Survives, owed_text, serving_of};
ghost use Rattle.book_wire_serving.specs.Serving.{NotesOwed, NotesRefusal, Owes};

use crate::clocks::Clock;
use crate::noting::Notes;
use book_log_lines::Adoption;
use book_machine::{Machine, Reply, Request};
use book_office::Keeper;
use book_wire_serving::{LogFault, Service};
use std::alloc::Global;
use std::io::Write;

/// A machine that keeps a log: a line for each reply, in the order in which they are made.
///
/// Before the machine is asked, what a line needs is asked for: the time, and for a request that may edit also its line,
/// with the numbers that its cards will have and the epoch after it. Where memory or a read for that is refused the reply is
/// `unavailable`, and the machine is not asked. A reply that changed nothing
/// becomes `unavailable` where its line wants more memory than there is, or where the lists at a denial can't be read.
/// The line that tells so is there before: where it can't be made anew it is the one that was made last, with its time
/// and its connection.
#[derive(Drop)]
pub struct Logged<K, W, C> {
    /// What serves.
    pub machine: Machine<K>,
    /// What holds the log.
    pub writer: W,
    /// Whether a line could not be made or written. Nothing more is written then.
    pub failed: bool,
    /// The lines that are ready.
    pub(crate) notes: Notes<C>,
}

impl<K: Keeper, W: Write, C: Clock> Logged<K, W, C> {
    /// A machine that keeps its log with the writer. Where there is memory for it, the line that a request is unavailable
    /// is made now, so that it is there for each request of which memory is refused.
    pub fn new(alloc: Global, machine: Machine<K>, writer: W, clock: C) -> Logged<K, W, C>
        ensures machine { result.machine ≡ machine }
        ensures writer { result.writer ≡ writer }
        ensures failed { result.failed ≡ false }
    {
        let notes = Notes::new(alloc, clock);
        Logged {
            machine,
            writer,
            failed: false,
            notes,
        }
    }

    /// Gives the machine and the writer back. Takes no memory.
    pub fn release(self) -> (Machine<K>, W)
        ensures machine { result.0 ≡ self.machine }
        ensures writer { result.1 ≡ self.writer }
    {
        let Logged {
            machine,
            writer,
            ..
        } = self;
        (machine, writer)
    }

    /// Notes what came of adopting a policy, and the epoch after it.
    ///
    /// # Errors
    ///
    /// The line could not be made or written.
    pub fn note_adoption(
        &mut self,
        alloc: Global,
        adopted: Adoption,
        epoch: u64,
    ) -> Result<(), LogFault>
        ensures noted { NotesAdoption (serving_of K.standing W.contents self.old)
            (serving_of K.standing W.contents self.new) adopted epoch }
        ensures sound { OnOk result (self.new.failed ≡ false) }
        ensures failed { OnErr result (self.new.failed ≡ true) }
        ensures kept { Grows (W.contents self.old.writer) (W.contents self.new.writer) }
    {
        self.notes
            .note_adoption(&mut self.writer, &mut self.failed, alloc, adopted, epoch)
    }
}

impl<K: Keeper, W: Write, C: Clock> Service for Logged<K, W, C> {
    ghost serving = { serving_of K.standing W.contents };

    ghost owed = { λ l. owed_text l.notes.made l.notes.spare };

    fn turn_to(&mut self, connection: u64) {
        self.notes.connection = connection;
    }

    fn serve(&mut self, alloc: Global, name: Option<&str>, request: &Request) -> Reply
        ensures owes { Owes (serving_of K.standing W.contents self.old)
            (serving_of K.standing W.contents self.new)
            (owed_text self.new.notes.made self.new.notes.spare) (option_copied name.entry)
            request.now result }
        ensures survives { Survives self.old.notes.spare self.new.notes.spare self.old.failed
            self.new.failed result }
    {
        self.notes
            .serve(&mut self.failed, &mut self.machine, alloc, name, request)
    }

    fn note(&mut self, as_made: bool) -> Result<(), LogFault>
        ensures noted { NotesOwed (serving_of K.standing W.contents self.old)
            (serving_of K.standing W.contents self.new)
            (owed_text self.old.notes.made self.old.notes.spare as_made) }
        ensures sound { OnOk result (self.new.failed ≡ false) }
        ensures failed { OnErr result (self.new.failed ≡ true) }
        ensures front { AppendsFront (W.contents self.old.writer) (W.contents self.new.writer)
            (owed_text self.old.notes.made self.old.notes.spare as_made) }
    {
        self.notes.note(&mut self.writer, &mut self.failed, as_made)
    }

    fn note_refusal(&mut self, status: u16, error: &str) -> Result<(), LogFault>
        ensures noted { NotesRefusal (serving_of K.standing W.contents self.old)
            (serving_of K.standing W.contents self.new) status error.now }
        ensures sound { OnOk result (self.new.failed ≡ false) }
        ensures failed { OnErr result (self.new.failed ≡ true) }
        ensures kept { Grows (W.contents self.old.writer) (W.contents self.new.writer) }
    {
        self.notes
            .note_refusal(&mut self.writer, &mut self.failed, status, error)
    }

    fn has_failed_log(&self) -> bool {
        self.failed
    }

    fn failures(&self) -> u64 {
        self.machine.keeper.failures()
    }

    fn shows_nothing(&mut self) -> bool {
        self.machine.keeper.epoch().is_err()
    }
}
