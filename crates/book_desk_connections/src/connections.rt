//! Many connections of one service, without their sockets.

ghost use Rattle.std.specs.Prelude.{◌≡◌, ◌≢◌, ◌⊎◌, ℕ, ◌+◌, ◌≤◌, ◌<◌, true, false, List, [], ◌++◌, length, take, drop, get_or, map, None, IfOk, IfSome, OnOk, OnErr, Err};
ghost use Rattle.book_wire.specs.Connection.{fresh};
ghost use Rattle.book_wire_serving.specs.Serving.{Runs};
ghost use Rattle.book_wire.specs.Stream.{Exchange, answered_of};
ghost use Rattle.book_wire_steps.specs.Steps.{OnlyAdopts};
ghost use Rattle.book_desk_connections.specs.ManyConnections.{AllStay, History, Entry, AreServed, TakesBytes, IsAnswered, Holds, OthersStay, entries, receives, is_sent};
ghost use Rattle.book_desk_connections.specs.Streams.{HasNoWhole, IsDoneAt, IsIdleAt, IsWithinAt};

use crate::feeding::feed_at;
use crate::rounds::may_join;
use book_wire::{Connection, Wire};
use book_wire_serving::{Service, StreamFault};
use book_wire_steps::{Control, Traffic, Wish};
use std::alloc::{AllocError, Global};
use std::mem;

/// With so many bytes of a connection waiting to be sent, no further request of it is answered, and no more is read.
/// What is left of a long body waits too, also where it is not spelled yet.
pub const MOST_UNSENT: usize = 8_192;

/// Whether a whole request may be unread.
fn may_have_whole(connection: &Connection) -> bool
    ensures { result ≡ false → HasNoWhole connection.now }
{
    if connection.is_between_requests() {
        return false;
    }
    connection.is_stalled()
}

/// Whether a request began and is not whole.
fn is_within(connection: &Connection) -> bool
    ensures { result ≡ true → (connection.now.closing ≡ false) × (connection.now.stalled ≡ false)
        × (connection.now.unread ≢ []) }
{
    if connection.is_between_requests() || connection.is_closing() {
        return false;
    }
    !connection.is_stalled()
}

/// A connection that is there, and its number: how many came before it.
#[derive(Drop)]
pub struct Accepted {
    /// How many connections came before it.
    pub number: u64,
    /// The connection.
    pub connection: Connection,
}

/// A service, and the connections that it serves, each at a place. One that was let go leaves its place to another.
#[derive(Drop)]
pub struct Connections<M> {
    pub(crate) wire: Wire,
    /// The service.
    pub service: M,
    /// How many connections came.
    pub opened: u64,
    /// How many requests were answered. It stays at its last value.
    pub answered: u64,
    /// How many bytes were taken from connections. It stays at its last value.
    pub received: u64,
    /// How many bytes were sent to connections. It stays at its last value.
    pub sent: u64,
    /// The places.
    pub places: Vec<Option<Accepted>>,
}

/// Whether the connection at a place is there and takes bytes, as `Connections::takes_bytes`.
pub(crate) fn takes_bytes_at(places: &[Option<Accepted>], place: usize) -> bool
    ensures takes { result ≡ true → TakesBytes places.now place }
    ensures takes_none { result ≡ false → (a : Accepted) → Holds places.now place a
        → (a.connection.closing ≡ true) ⊎ (8192 ≤ length a.connection.unsent) }
{
    match places.get(place) {
        Some(Some(accepted)) => {
            !accepted.connection.is_closing() && accepted.connection.unsent().len() < MOST_UNSENT
        }
        Some(None) => false,
        None => false,
    }
}

impl<M: Service> Connections<M> {
    /// A service that serves nobody yet.
    pub fn new(alloc: Global, wire: Wire, service: M) -> Connections<M>
        ensures service { result.service ≡ service }
        ensures none { (result.opened ≡ 0) × (result.places.items ≡ []) }
    {
        Connections {
            wire,
            service,
            opened: 0,
            answered: 0,
            received: 0,
            sent: 0,
            places: Vec::new(alloc),
        }
    }

    /// The service.
    pub fn release(self) -> M
        ensures { result ≡ self.service }
    {
        self.service
    }

    /// How often the store has failed.
    pub fn failures(&self) -> u64
        ensures { result ≡ (M.serving self.now.service).standing.failures }
    {
        self.service.failures()
    }

    /// Whether a line of the log could not be written.
    pub fn has_failed_log(&self) -> bool
        ensures { result ≡ (M.serving self.now.service).log.failed }
    {
        self.service.has_failed_log()
    }

    /// Whether the Office can't be read now: its epoch is asked for.
    pub fn shows_nothing(&mut self) -> bool
        ensures runs { Runs (M.serving self.old.service)
            (M.serving self.new.service) [] }
        ensures places { (self.new.places.items ≡ self.old.places.items)
            × (self.new.opened ≡ self.old.opened) }
    {
        self.service.shows_nothing()
    }

    /// Gives the control its turn with the service, and says what it wishes.
    pub fn administer<C: Control<M>>(&mut self, control: &mut C, traffic: Traffic) -> Wish
        ensures adopts { OnlyAdopts M.serving self.old.service self.new.service }
        ensures places { (self.new.places.items ≡ self.old.places.items)
            × (self.new.opened ≡ self.old.opened) }
    {
        control.take_turn(&mut self.service, traffic)
    }

    /// A place with nothing in it.
    #[tactic(auto, using(crate::proofs::Places::all_same, crate::proofs::Places::all_equal, crate::proofs::Places::none_there))]
    fn free_place(&mut self) -> Result<usize, AllocError>
        ensures place { IfOk result (λ place. place < length self.new.places.items) }
        ensures free { IfOk result (λ place. get_or self.new.places.items place None ≡ None) }
        ensures all { AllStay self.old.places.items self.new.places.items }
        ensures served { (histories : ℕ → History) (log : List Entry)
            → AreServed histories log self.old.opened self.old.places.items
            → AreServed histories log self.new.opened self.new.places.items }
        ensures count { self.new.opened ≡ self.old.opened }
        ensures service { self.new.service ≡ self.old.service }
    {
        let count = self.places.len();
        for place in 0..count {
            if self.places[place].is_none() {
                return Ok(place);
            }
        }
        self.places.push(None)?;
        Ok(count)
    }

    /// The place of one more connection.
    ///
    /// # Errors
    ///
    /// Want of memory, or 18,446,744,073,709,551,615 connections came.
    pub fn open(&mut self, alloc: Global) -> Result<usize, AllocError>
        ensures place { IfOk result (λ place. (l : Accepted) × Holds self.new.places.items place l
            × (l.number ≡ self.old.opened) × (l.connection ≡ fresh)) }
        ensures free { IfOk result (λ place. get_or self.old.places.items place None ≡ None) }
        ensures others { IfOk result (λ place.
            OthersStay place self.old.places.items self.new.places.items) }
        ensures opened { IfOk result (λ place. self.new.opened ≡ self.old.opened + 1) }
        ensures err { OnErr result ((self.new.opened ≡ self.old.opened)
            × AllStay self.old.places.items self.new.places.items) }
        ensures service { self.new.service ≡ self.old.service }
        ensures served { (histories : ℕ → History) (log : List Entry)
            → AreServed histories log self.old.opened self.old.places.items
            → AreServed histories log self.new.opened self.new.places.items }
    {
        let place = self.free_place()?;
        let Some(opened) = self.opened.checked_add(1) else {
            return Err(AllocError);
        };
        self.places[place] = Some(Accepted {
            number: self.opened,
            connection: Connection::new(alloc),
        });
        self.opened = opened;
        Ok(place)
    }

    /// Whether the connection is there and takes bytes: it is not to close, and less than 8,192 bytes wait to be sent.
    pub fn takes_bytes(&self, place: usize) -> bool
        ensures takes { result ≡ true → TakesBytes self.now.places.items place }
        ensures takes_none { result ≡ false → (a : Accepted) → Holds self.now.places.items place a
            → (a.connection.closing ≡ true) ⊎ (8192 ≤ length a.connection.unsent) }
    {
        takes_bytes_at(self.places.as_slice(), place)
    }

    /// The beginning of what waits to be sent to a connection, if it is there: all of it, or at least 8,192 bytes.
    pub fn unsent(&self, place: usize) -> Option<&[u8]>
        ensures there { IfSome result (λ bytes. (l : Accepted) × Holds self.now.places.items place l
            × (more : List ℕ) × (l.connection.unsent ≡ bytes.now ++ more)
            × ((more ≡ []) ⊎ (8192 ≤ length bytes.now))) }
        ensures none { result ≡ None → get_or self.now.places.items place None ≡ None }
    {
        match self.places.get(place) {
            Some(Some(accepted)) => Some(accepted.connection.unsent()),
            Some(None) => None,
            None => None,
        }
    }

    /// Whether the connection is there and waits for bytes: it is not to close, nothing waits to be sent, and no whole request
    /// is unread.
    pub fn waits_for_bytes(&self, place: usize) -> bool
        ensures { result ≡ true → TakesBytes self.now.places.items place }
    {
        match self.places.get(place) {
            Some(Some(accepted)) => {
                !accepted.connection.is_closing()
                    && accepted.connection.unsent().is_empty()
                    && !may_have_whole(&accepted.connection)
            }
            Some(None) => false,
            None => false,
        }
    }

    /// Whether the connection is there and may join a round: it is not to close, nothing waits to be sent, and a whole request
    /// of it may be unread.
    pub fn may_join(&self, place: usize) -> bool {
        match self.places.get(place) {
            Some(Some(accepted)) => may_join(accepted),
            Some(None) => false,
            None => false,
        }
    }

    /// Whether the connection is there, is to close, and nothing waits to be sent.
    pub fn is_done(&self, place: usize) -> bool
        ensures { result ≡ true → IsDoneAt self.now.places.items place }
    {
        match self.places.get(place) {
            Some(Some(accepted)) => {
                accepted.connection.is_closing() && accepted.connection.unsent().is_empty()
            }
            Some(None) => false,
            None => false,
        }
    }

    /// Whether whole requests of the connection may be unread: `feed` goes on with them.
    pub fn is_stalled(&self, place: usize) -> bool
        ensures { result ≡ false → (l : Accepted) → Holds self.now.places.items place l
            → HasNoWhole l.connection }
    {
        match self.places.get(place) {
            Some(Some(accepted)) => may_have_whole(&accepted.connection),
            Some(None) => false,
            None => false,
        }
    }

    /// Whether the connection is there, and nothing of it is unread or unsent.
    pub fn is_idle(&self, place: usize) -> bool
        ensures { result ≡ true → IsIdleAt self.now.places.items place }
    {
        match self.places.get(place) {
            Some(Some(accepted)) => {
                accepted.connection.is_between_requests() && accepted.connection.unsent().is_empty()
            }
            Some(None) => false,
            None => false,
        }
    }

    /// Whether no whole request of the connection is unread, and nothing waits to be sent, as far as it is there.
    pub fn is_at_rest(&self, place: usize) -> bool {
        match self.places.get(place) {
            Some(Some(accepted)) => {
                !may_have_whole(&accepted.connection) && accepted.connection.unsent().is_empty()
            }
            Some(None) => true,
            None => true,
        }
    }

    /// Whether a request of the connection began and is not whole. Where whole ones may be unread, that isn't known.
    pub fn is_within_request(&self, place: usize) -> bool
        ensures { result ≡ true → IsWithinAt self.now.places.items place }
    {
        match self.places.get(place) {
            Some(Some(accepted)) => is_within(&accepted.connection),
            Some(None) => false,
            None => false,
        }
    }

    /// So many bytes of `unsent` were sent to the connection. The memory of one that is idle then is let go.
    ///
    /// # Errors
    ///
    /// Where memory was refused for what comes next of a long body: the connection was let go.
    #[tactic(auto, using(crate::proofs::Places::others_set, crate::proofs::Places::others_twice))]
    pub fn did_send(&mut self, alloc: Global, place: usize, count: usize) -> Result<(), StreamFault>
        requires { (l : Accepted) × Holds self.old.places.items place l
            × (count ≤ length l.connection.unsent) }
        ensures service { self.new.service ≡ self.old.service }
        ensures others { OthersStay place self.old.places.items self.new.places.items }
        ensures sent { (l : Accepted) → Holds self.old.places.items place l
            → (histories : ℕ → History) (log : List Entry)
            → AreServed histories log self.old.opened self.old.places.items
            → AreServed (is_sent histories l.number (take count l.connection.unsent)) log
            self.new.opened self.new.places.items }
        ensures left { OnOk result ((l : Accepted) → Holds self.old.places.items place l
            → (m : Accepted) × Holds self.new.places.items place m × (m.number ≡ l.number)
            × (m.connection.unsent ≡ drop count l.connection.unsent)) }
        ensures gone { OnErr result (get_or self.new.places.items place None ≡ None) }
        ensures opened { self.new.opened ≡ self.old.opened }
    {
        match mem::replace(&mut self.places[place], None) {
            Some(mut kept) => {
                self.sent = self.sent.saturating_add(count as u64);
                match kept.connection.did_send(alloc, count) {
                    Ok(()) => {
                        kept.connection.shrink(alloc);
                        self.places[place] = Some(kept);
                        Ok(())
                    }
                    Err(refused) => Err(refused),
                }
            }
            None => Ok(()),
        }
    }

    /// Lets a connection go, if it is there. What was not sent is lost.
    #[tactic(auto, using(crate::proofs::Places::others_same, crate::proofs::Places::others_set))]
    pub fn let_go(&mut self, place: usize)
        ensures service { self.new.service ≡ self.old.service }
        ensures gone { get_or self.new.places.items place None ≡ None }
        ensures others { OthersStay place self.old.places.items self.new.places.items }
        ensures opened { self.new.opened ≡ self.old.opened }
        ensures served { (histories : ℕ → History) (log : List Entry)
            → AreServed histories log self.old.opened self.old.places.items
            → AreServed histories log self.new.opened self.new.places.items }
    {
        if place < self.places.len() {
            self.places[place] = None;
        }
    }

    /// Takes bytes of a connection, and answers nothing yet.
    ///
    /// # Errors
    ///
    /// Where memory was refused: the connection was let go.
    #[tactic(auto, using(crate::proofs::Places::others_set, crate::proofs::Places::others_twice))]
    pub fn hold(&mut self, place: usize, bytes: &[u8]) -> Result<(), StreamFault>
        requires { TakesBytes self.old.places.items place }
        ensures service { self.new.service ≡ self.old.service }
        ensures served { (l : Accepted) → Holds self.old.places.items place l
            → (histories : ℕ → History) (log : List Entry)
            → AreServed histories log self.old.opened self.old.places.items
            → AreServed (receives histories l.number bytes.now) log self.new.opened
            self.new.places.items }
        ensures others { OthersStay place self.old.places.items self.new.places.items }
        ensures there { OnOk result ((l : Accepted) → Holds self.old.places.items place l
            → (m : Accepted) × Holds self.new.places.items place m × (m.number ≡ l.number)) }
        ensures gone { OnErr result (get_or self.new.places.items place None ≡ None) }
        ensures opened { self.new.opened ≡ self.old.opened }
    {
        self.received = self.received.saturating_add(bytes.len() as u64);
        match mem::replace(&mut self.places[place], None) {
            Some(mut accepted) => match accepted.connection.hold(bytes) {
                Ok(()) => {
                    self.places[place] = Some(accepted);
                    Ok(())
                }
                Err(_) => Err(StreamFault::Memory),
            },
            None => Ok(()),
        }
    }

    /// Takes bytes of a connection, and answers the first of its requests that is whole, unless 8,192 bytes wait to be
    /// sent. The requests that are answered are its own.
    ///
    /// # Errors
    ///
    /// Where memory was refused, or the line of a reply could not be written: the connection was let go.
    pub fn feed(&mut self, alloc: Global, place: usize, bytes: &[u8]) -> Result<(), StreamFault>
        requires { TakesBytes self.old.places.items place }
        ensures served { (l : Accepted) → Holds self.old.places.items place l
            → (histories : ℕ → History) (log : List Entry)
            → AreServed histories log self.old.opened self.old.places.items → (more : List Exchange)
            × AreServed (receives histories l.number bytes.now)
            (log ++ entries l.number more) self.new.opened self.new.places.items
            × Runs (M.serving self.old.service) (M.serving self.new.service)
            (map answered_of more) }
        ensures others { OthersStay place self.old.places.items self.new.places.items }
        ensures there { OnOk result ((l : Accepted) → Holds self.old.places.items place l
            → (m : Accepted) × Holds self.new.places.items place m × (m.number ≡ l.number)
            × IsAnswered m.connection) }
        ensures gone { OnErr result (get_or self.new.places.items place None ≡ None) }
        ensures log { result ≡ Err StreamFault.Log
            → (M.serving self.new.service).log.failed ≡ true }
        ensures opened { self.new.opened ≡ self.old.opened }
    {
        self.received = self.received.saturating_add(bytes.len() as u64);
        let answered = feed_at(
            alloc,
            &mut self.service,
            &mut self.wire,
            &mut self.places,
            place,
            bytes,
        )?;
        self.answered = self.answered.saturating_add(answered);
        Ok(())
    }
}
