//! What is noted of each reply, and the lines that are ready for it.

ghost use Rattle.std.specs.Prelude.{◌≡◌, ◌≢◌, true, false, List, [], ℕ, None, Some, IfOk, OnErr, OnOk, codes, option_copied};
ghost use Rattle.book_log_service.specs.Drafts.{IsOfDrafts};
ghost use Rattle.book_log_service.specs.Kept.{AppendsFront, Grows, IsSpared, NotesLine, OwesNoted, Survives, log_of, owed_text};
ghost use Rattle.book_log_service.specs.Settling.{Settles};
ghost use Rattle.book_log_service.specs.Texts.{IsAdoption, IsAdoptionText, IsBareText};
ghost use Rattle.book_machine.specs.Refusals.{refused};
ghost use Rattle.book_machine.specs.declared.messages.Content.TheVariants as content;
ghost use Rattle.book_machine.specs.declared.refusals.Refusal.TheVariants.{Unavailable};
ghost use Rattle.book_wire_serving.specs.Logs.{Appended, IsBare};

use crate::appending::append;
use crate::clocks::Clock;
use crate::drafts::{Drafts, drafted, drafts_of};
use crate::known::known;
use crate::spares::{Spare, stamp};
use crate::spelling::spelled;
use crate::texts::{adoption_text, bare_text};
use book_log_lines::{Adoption, Time};
use book_machine::{Content, Machine, Refusal, Reply, Request, refusals_change_nothing};
use book_office::Keeper;
use book_office_values::Items;
use book_wire_serving::LogFault;
use std::alloc::{AllocError, Global};
use std::io::Write;

/// What a log has beside its writer, and beside whether it has failed.
#[derive(Drop)]
pub(crate) struct Notes<C> {
    /// What tells the time.
    clock: C,
    /// For the lines of refusals.
    alloc: Global,
    /// The number of the connection on which requests come.
    pub(crate) connection: u64,
    /// The line of the reply to the request that was served last; none where the reply is `unavailable`.
    pub(crate) made: Option<Items<u8>>,
    /// The line that the request is unavailable, which was made last; none where there was no memory for one yet.
    pub(crate) spare: Option<Spare>,
}

/// That memory was refused or the store failed.
fn unavailable() -> Reply
    ensures { result ≡ refused Unavailable }
{
    Reply {
        status: 503,
        content: Content::Refusal(Refusal::Unavailable),
    }
}

/// Whether the reply has no content.
fn is_empty(reply: &Reply) -> bool
    ensures empty { result ≡ true → reply.now.content ≡ content.Empty }
    ensures telling { result ≡ false → reply.now.content ≢ content.Empty }
{
    match &reply.content {
        Content::Empty => true,
        _ => false,
    }
}

/// The line of a refusal. An error is want of memory.
fn refusal_text<C: Clock>(
    clock: &mut C,
    alloc: Global,
    connection: u64,
    status: u16,
    error: &str,
) -> Result<Items<u8>, AllocError>
    ensures { IfOk result (λ text. IsBareText status error.now text) }
{
    let time = clock.now(alloc)?;
    bare_text(alloc, time, connection, status, error)
}

/// The line of an adoption. An error is want of memory.
fn adoption_line<C: Clock>(
    clock: &mut C,
    alloc: Global,
    adopted: Adoption,
    epoch: u64,
) -> Result<Items<u8>, AllocError>
    ensures { IfOk result (λ text. IsAdoptionText adopted epoch text) }
{
    let time = clock.now(alloc)?;
    adoption_text(alloc, time, adopted, epoch)
}

/// Whether a refusal is that memory was refused or the store failed.
fn is_unavailable(status: u16, error: &str) -> bool
    ensures { result ≡ true → (status ≡ 503) × (error.now ≡ codes "unavailable") }
{
    status == 503 && error == "unavailable"
}

/// The line that a request is unavailable, if there is one.
fn spare_in(spare: &Option<Spare>) -> Option<&[u8]>
    ensures some { option_copied result ≡ spare.now }
    ensures known { spare.now ≢ None → IsSpared spare.now }
{
    match spare {
        Some(spare) => Some(spare.text()),
        None => None,
    }
}

/// The line that is owed, where the reply is sent as it was made, or else where `unavailable` is sent.
fn owed_in<'t>(made: &'t Option<Items<u8>>, spare: &'t Option<Spare>, as_made: bool) -> &'t [u8]
    ensures { result.now ≡ owed_text made.now spare.now as_made }
{
    match (made, spare) {
        (Some(text), _) if as_made => text.as_slice(),
        (_, Some(spare)) => spare.text(),
        (_, None) => &[],
    }
}

impl<C: Clock> Notes<C> {
    /// Nothing is noted yet. Where there is memory for it, the line that a request is unavailable is made now.
    pub(crate) fn new(alloc: Global, mut clock: C) -> Notes<C> {
        let spare = match stamp(&mut clock, alloc, 0) {
            Ok((time, spare)) => {
                drop(time);
                Some(spare)
            }
            Err(_) => None,
        };
        Notes {
            clock,
            alloc,
            connection: 0,
            made: None,
            spare,
        }
    }

    /// Gets the line ready that a request is unavailable. An error is want of memory: the line that was made last is ready
    /// then, or where there is none the log has failed.
    fn begin(&mut self, failed: &mut bool, alloc: Global) -> Result<Time, AllocError>
        ensures made { self.new.made ≡ None }
        ensures was_sound { failed.new ≡ false → failed.old ≡ false }
        ensures spared { failed.new ≡ false → IsSpared self.new.spare }
        ensures survives { self.old.spare ≢ None
            → (failed.new ≡ failed.old) × (self.new.spare ≢ None) }
        ensures ok { OnOk result (failed.new ≡ failed.old) }
    {
        self.made = None;
        match stamp(&mut self.clock, alloc, self.connection) {
            Ok((time, spare)) => {
                self.spare = Some(spare);
                Ok(time)
            }
            Err(error) => {
                if spare_in(&self.spare).is_none() {
                    *failed = true;
                }
                Err(error)
            }
        }
    }

    /// The line of a reply that has no content. Where there is none the log has failed.
    fn settle_empty(&mut self, failed: &mut bool, drafts: Option<Drafts>, reply: &Reply)
        requires empty { reply.now.content ≡ content.Empty }
        ensures spare { self.new.spare ≡ self.old.spare }
        ensures was_sound { failed.new ≡ false → failed.old ≡ false }
        ensures made { failed.new ≡ false → (text : List ℕ) × (self.new.made ≡ Some text)
            × IsOfDrafts drafts reply.now text }
    {
        match drafted(drafts, reply) {
            Some(text) => self.made = Some(text),
            None => *failed = true,
        }
    }

    /// Gets the line of a reply ready. The reply becomes `unavailable` where that can't be and it changed nothing.
    fn settle<K: Keeper>(
        &mut self,
        failed: &mut bool,
        keeper: &mut K,
        alloc: Global,
        time: &Time,
        name: Option<&str>,
        request: &Request,
        drafts: Option<Drafts>,
        reply: Reply,
    ) -> Reply
        requires made { self.old.made ≡ None }
        ensures spare { self.new.spare ≡ self.old.spare }
        ensures was_sound { failed.new ≡ false → failed.old ≡ false }
        ensures survives { result.content ≢ content.Empty → failed.new ≡ failed.old }
        ensures settles { Settles (K.standing keeper.old) (K.standing keeper.new)
            (option_copied name.entry) request.now drafts reply result failed.new self.new.made }
    {
        if is_empty(&reply) {
            self.settle_empty(failed, drafts, &reply);
            return reply;
        }
        match spelled(keeper, alloc, time, self.connection, name, request, &reply) {
            Ok(text) => {
                self.made = Some(text);
                reply
            }
            Err(_) => {
                drop(reply);
                unavailable()
            }
        }
    }

    /// Serves a request of a caller, and gets ready what is noted of it.
    pub(crate) fn serve<K: Keeper>(
        &mut self,
        failed: &mut bool,
        machine: &mut Machine<K>,
        alloc: Global,
        name: Option<&str>,
        request: &Request,
    ) -> Reply
        ensures owes { OwesNoted (K.standing machine.old.keeper) (K.standing machine.new.keeper)
            failed.old failed.new (owed_text self.new.made self.new.spare)
            (option_copied name.entry) request.now result }
        ensures survives { Survives self.old.spare self.new.spare failed.old failed.new result }
    {
        known(request);
        refusals_change_nothing();
        let Ok(time) = self.begin(failed, alloc) else {
            return unavailable();
        };
        let keeper = &mut machine.keeper;
        let Ok(drafts) = drafts_of(keeper, alloc, &time, self.connection, name, request) else {
            return unavailable();
        };
        let reply = machine.serve(alloc, name, request);
        let keeper = &mut machine.keeper;
        self.settle(failed, keeper, alloc, &time, name, request, drafts, reply)
    }

    /// Notes the request that was served last: its reply is sent as it was made, or `unavailable` in its place.
    ///
    /// # Errors
    ///
    /// The line could not be written.
    pub(crate) fn note<W: Write>(
        &self,
        writer: &mut W,
        failed: &mut bool,
        as_made: bool,
    ) -> Result<(), LogFault>
        ensures noted { Appended (log_of failed.old (W.contents writer.old))
            (log_of failed.new (W.contents writer.new))
            (owed_text self.now.made self.now.spare as_made) }
        ensures sound { OnOk result (failed.new ≡ false) }
        ensures failed { OnErr result (failed.new ≡ true) }
        ensures front { AppendsFront (W.contents writer.old) (W.contents writer.new)
            (owed_text self.now.made self.now.spare as_made) }
    {
        let text = owed_in(&self.made, &self.spare, as_made);
        append(writer, failed, text)
    }

    /// Notes a refusal for whose line there is no memory: the line that a request is unavailable, where that was refused.
    ///
    /// # Errors
    ///
    /// There is no such line, or it could not be written.
    #[tactic(auto, using(crate::proofs::Fronts::grows_front, crate::proofs::Fronts::grows_none))]
    fn note_spare<W: Write>(
        &self,
        writer: &mut W,
        failed: &mut bool,
        status: u16,
        error: &str,
    ) -> Result<(), LogFault>
        ensures noted { NotesLine (IsBare status error.now) failed.old (W.contents writer.old)
            failed.new (W.contents writer.new) }
        ensures sound { OnOk result (failed.new ≡ false) }
        ensures failed { OnErr result (failed.new ≡ true) }
        ensures kept { Grows (W.contents writer.old) (W.contents writer.new) }
    {
        if is_unavailable(status, error) {
            if let Some(text) = spare_in(&self.spare) {
                return append(writer, failed, text);
            }
        }
        *failed = true;
        Err(LogFault)
    }

    /// Notes a refusal where no request could be read.
    ///
    /// # Errors
    ///
    /// The line could not be written.
    #[tactic(auto, using(crate::proofs::Fronts::grows_front, crate::proofs::Fronts::grows_none))]
    pub(crate) fn note_refusal<W: Write>(
        &mut self,
        writer: &mut W,
        failed: &mut bool,
        status: u16,
        error: &str,
    ) -> Result<(), LogFault>
        ensures noted { NotesLine (IsBare status error.now) failed.old (W.contents writer.old)
            failed.new (W.contents writer.new) }
        ensures sound { OnOk result (failed.new ≡ false) }
        ensures failed { OnErr result (failed.new ≡ true) }
        ensures kept { Grows (W.contents writer.old) (W.contents writer.new) }
        ensures same { (self.new.made ≡ self.old.made) × (self.new.spare ≡ self.old.spare) }
    {
        match refusal_text(&mut self.clock, self.alloc, self.connection, status, error) {
            Ok(text) => append(writer, failed, text.as_slice()),
            Err(_) => self.note_spare(writer, failed, status, error),
        }
    }

    /// Notes what came of adopting a policy, and the epoch after it.
    ///
    /// # Errors
    ///
    /// The line could not be made or written.
    #[tactic(auto, using(crate::proofs::Fronts::grows_front, crate::proofs::Fronts::grows_none))]
    pub(crate) fn note_adoption<W: Write>(
        &mut self,
        writer: &mut W,
        failed: &mut bool,
        alloc: Global,
        adopted: Adoption,
        epoch: u64,
    ) -> Result<(), LogFault>
        ensures noted { NotesLine (IsAdoption adopted epoch) failed.old (W.contents writer.old)
            failed.new (W.contents writer.new) }
        ensures sound { OnOk result (failed.new ≡ false) }
        ensures failed { OnErr result (failed.new ≡ true) }
        ensures kept { Grows (W.contents writer.old) (W.contents writer.new) }
    {
        match adoption_line(&mut self.clock, alloc, adopted, epoch) {
            Ok(text) => append(writer, failed, text.as_slice()),
            Err(_) => {
                *failed = true;
                Err(LogFault)
            }
        }
    }
}
