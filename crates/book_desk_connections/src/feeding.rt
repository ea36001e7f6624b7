//! Requests of connections are answered by a service, which may be that of a round.

ghost use Rattle.std.specs.Prelude.{◌≡◌, ℕ, ◌<◌, ◌≤◌, true, List, [], ◌++◌, length, get_or, map, None, Err, OnOk, OnErr};
ghost use Rattle.book_office.specs.Keeping.{FallsBack};
ghost use Rattle.book_wire.specs.Stream.{Exchange, answered_of};
ghost use Rattle.book_wire_serving.specs.Serving.{Runs};
ghost use Rattle.book_desk_connections.specs.ManyConnections.{History, Entry, AreServed, Holds, IsAnswered, OthersStay, TakesBytes, entries, receives};
ghost use Rattle.book_desk_connections.specs.Rounds.{AreFed, IsFeeding, OthersAreSame};

use crate::connections::{Accepted, MOST_UNSENT, takes_bytes_at};
use crate::rounds::Held;
use book_wire::Wire;
use book_wire_serving::{Service, ServiceWork, StreamFault};
use std::alloc::Global;
use std::mem;

/// With so many bytes waiting to be sent no second request is answered.
fn most_of_one(unsent: usize) -> usize
    ensures few { result ≤ 8192 }
    ensures some { 0 < result }
{
    if unsent < MOST_UNSENT {
        unsent + 1
    } else {
        MOST_UNSENT
    }
}

/// Takes bytes of the connection at a place, and answers the first of its requests that is whole, as `Connections::feed`. It
/// says how many were answered.
#[tactic(auto, using(crate::proofs::Places::others_set, crate::proofs::Places::others_twice))]
pub(crate) fn feed_at<M: Service>(
    alloc: Global,
    service: &mut M,
    wire: &mut Wire,
    places: &mut Vec<Option<Accepted>>,
    place: usize,
    bytes: &[u8],
) -> Result<u64, StreamFault>
    requires { TakesBytes places.old.items place }
    ensures served { (l : Accepted) → Holds places.old.items place l
        → (histories : ℕ → History) (log : List Entry) (opened : ℕ)
        → AreServed histories log opened places.old.items → (more : List Exchange)
        × AreServed (receives histories l.number bytes.now) (log ++ entries l.number more) opened
        places.new.items
        × Runs (M.serving service.old) (M.serving service.new) (map answered_of more) }
    ensures others { OthersStay place places.old.items places.new.items }
    ensures there { OnOk result ((l : Accepted) → Holds places.old.items place l
        → (m : Accepted) × Holds places.new.items place m × (m.number ≡ l.number)
        × IsAnswered m.connection) }
    ensures gone { OnErr result (get_or places.new.items place None ≡ None) }
    ensures log { result ≡ Err StreamFault.Log → (M.serving service.new).log.failed ≡ true }
    ensures count { length places.new.items ≡ length places.old.items }
    ensures falls { FallsBack (M.serving service.old).standing.fallback
        (M.serving service.new).standing.fallback }
{
    match mem::replace(&mut places[place], None) {
        Some(mut accepted) => {
            service.turn_to(accepted.number);
            let most = most_of_one(accepted.connection.unsent().len());
            match accepted.connection.feed(alloc, service, wire, bytes, most) {
                Ok(answered) => {
                    places[place] = Some(accepted);
                    Ok(answered)
                }
                Err(fault) => Err(fault),
            }
        }
        None => Ok(0),
    }
}

/// A connection that was let go, and its fault.
#[derive(Clone, Copy, Debug, PartialEq, Eq)]
pub struct Lost {
    /// Where it was.
    pub place: usize,
    /// What fault it had.
    pub fault: StreamFault,
}

/// Answers the first request of the connection at a place, if it is whole. One that has a fault is let go.
fn feed_one<M: Service>(
    alloc: Global,
    service: &mut M,
    wire: &mut Wire,
    places: &mut Vec<Option<Accepted>>,
    answered: &mut u64,
    place: usize,
) -> Option<Lost>
    ensures fed { AreFed (M.serving service.old) (M.serving service.new) places.old.items
        places.new.items result }
    ensures others { OthersStay place places.old.items places.new.items }
    ensures falls { FallsBack (M.serving service.old).standing.fallback
        (M.serving service.new).standing.fallback }
{
    if !takes_bytes_at(places.as_slice(), place) {
        return None;
    }
    match feed_at(alloc, service, wire, places, place, &[]) {
        Ok(count) => {
            *answered = answered.saturating_add(count);
            None
        }
        Err(fault) => Some(Lost { place, fault }),
    }
}

/// Answers the first request of each of these connections, if it is whole, one after the other, until one has a fault.
fn feed_all<M: Service>(
    alloc: Global,
    service: &mut M,
    wire: &mut Wire,
    places: &mut Vec<Option<Accepted>>,
    answered: &mut u64,
    held: &[Held],
) -> Option<Lost>
    ensures fed { AreFed (M.serving service.old) (M.serving service.new) places.old.items
        places.new.items result }
    ensures others { OthersAreSame held.now places.old.items places.new.items }
    ensures falls { FallsBack (M.serving service.old).standing.fallback
        (M.serving service.new).standing.fallback }
{
    for copy in held {
        match feed_one(alloc, service, wire, places, answered, copy.place) {
            Some(lost) => return Some(lost),
            None => {}
        }
    }
    None
}

/// What is done in a round of connections.
#[derive(Drop)]
pub(crate) struct Feeds<'h, 'w, 'p, 'a, 'l> {
    /// Those whose requests are answered.
    pub(crate) held: &'h [Held],
    pub(crate) wire: &'w mut Wire,
    pub(crate) places: &'p mut Vec<Option<Accepted>>,
    /// How many were answered.
    pub(crate) answered: &'a mut u64,
    /// The one that was let go.
    pub(crate) lost: &'l mut Option<Lost>,
}

impl ServiceWork for Feeds<'_, '_, '_, '_, '_> {
    ghost does = { λ first last old new. IsFeeding first last old new };

    fn run<M: Service>(&mut self, alloc: Global, service: &mut M) {
        *self.lost = feed_all(
            alloc,
            service,
            self.wire,
            self.places,
            self.answered,
            self.held,
        );
    }
}
