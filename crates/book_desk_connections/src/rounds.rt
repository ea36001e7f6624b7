//! A round: one request of each of many connections is answered, and one commit of the store keeps what they edited.

ghost use Rattle.std.specs.Prelude.{◌≡◌, ℕ, ◌<◌, false, true, List, [], length, get_or, Option, None, Some, IfOk, IfSome, OnOk};
ghost use Rattle.std.specs.List.{All};
ghost use Rattle.book_wire.specs.Connection.{resumed};
ghost use Rattle.book_wire_serving.specs.Rounds.{IsServedRound};
ghost use Rattle.book_desk_connections.specs.ManyConnections.{OthersStay};
ghost use Rattle.book_desk_connections.specs.Rounds.{AreBack, IsFeeding, IsHeldIn, KeepsRound, OthersAreSame, TriesRound};

use crate::connections::{Accepted, Connections};
use crate::feeding::{Feeds, Lost};
use book_office::StoreFault;
use book_wire::Connection;
use book_wire_serving::RoundService;
use std::alloc::{AllocError, Global};

/// A copy of what a connection brought that joins a round: it goes on with that where the round is not kept.
#[derive(Drop)]
pub struct Held {
    /// Where the connection is.
    pub place: usize,
    /// Its number.
    pub number: u64,
    /// What it brought that is not answered.
    pub unread: Vec<u8>,
}

/// What became of a round.
#[derive(Clone, Copy, Debug, PartialEq, Eq)]
pub enum Round {
    /// It was kept. One connection may have had a fault, and was let go; none behind it was served then.
    Kept(Option<Lost>),
    /// It was not kept: nothing was answered, and each connection is as it was.
    Undone,
}

/// Whether a connection may join a round: it is not to close, nothing waits to be sent, and something is unread.
pub(crate) fn may_join(accepted: &Accepted) -> bool
    ensures closing { result ≡ true → accepted.now.connection.closing ≡ false }
    ensures unsent { result ≡ true → accepted.now.connection.unsent ≡ [] }
{
    let connection = &accepted.connection;
    !connection.is_closing()
        && connection.is_stalled()
        && !connection.is_between_requests()
        && connection.unsent().is_empty()
}

/// A copy of what the connection at a place brought, if it may join a round.
fn copy_at(
    alloc: Global,
    places: &[Option<Accepted>],
    place: usize,
) -> Result<Option<Held>, AllocError>
    ensures { IfOk result (λ found. IfSome found (λ held. IsHeldIn places.now held)) }
{
    match places.get(place) {
        Some(Some(accepted)) => {
            if !may_join(accepted) {
                return Ok(None);
            }
            let unread = accepted.connection.unread().to_vec(alloc)?;
            Ok(Some(Held {
                place,
                number: accepted.number,
                unread,
            }))
        }
        Some(None) => Ok(None),
        None => Ok(None),
    }
}

/// Takes a copy of what the connection at a place brought, if it may join a round.
fn push_copy(
    alloc: Global,
    places: &[Option<Accepted>],
    place: usize,
    held: &mut Vec<Held>,
) -> Result<(), AllocError>
    ensures { All (λ (h : Held). IsHeldIn places.now h) held.old.items
        → OnOk result (All (λ (h : Held). IsHeldIn places.now h) held.new.items) }
{
    match copy_at(alloc, places, place)? {
        Some(copy) => {
            held.push(copy)?;
            Ok(())
        }
        None => Ok(()),
    }
}

/// Copies of what these connections brought, of each that may join a round.
fn copies_of(
    alloc: Global,
    places: &[Option<Accepted>],
    joined: &[usize],
) -> Result<Vec<Held>, AllocError>
    ensures { IfOk result (λ held. All (λ (h : Held). IsHeldIn places.now h) held.items) }
{
    let mut held = Vec::with_capacity(alloc, joined.len())?;
    for place in joined {
        push_copy(alloc, places, *place, &mut held)?;
    }
    Ok(held)
}

/// Has a connection back at its place as it was, from its copy.
fn put_one_back(alloc: Global, places: &mut Vec<Option<Accepted>>, copy: Held)
    ensures count { length places.new.items ≡ length places.old.items }
    ensures others { OthersStay copy.place places.old.items places.new.items }
    ensures back { copy.place < length places.old.items
        → (is : Accepted) × (get_or places.new.items copy.place None ≡ Some is)
        × (is.number ≡ copy.number) × (is.connection ≡ resumed copy.unread.items) }
{
    if copy.place < places.len() {
        places[copy.place] = Some(Accepted {
            number: copy.number,
            connection: Connection::resume(alloc, copy.unread),
        });
    }
}

/// Has connections back at their places as they were, from their copies.
fn put_back(alloc: Global, places: &mut Vec<Option<Accepted>>, held: Vec<Held>)
    ensures { (before : List (Option Accepted)) → length before ≡ length places.old.items
        → All (λ (h : Held). IsHeldIn before h) held.items
        → OthersAreSame held.items before places.old.items → AreBack before places.new.items }
{
    for copy in held {
        put_one_back(alloc, places, copy);
    }
}

/// A round of the service.
fn round_over<M: RoundService>(
    alloc: Global,
    service: &mut M,
    feeds: &mut Feeds<'_, '_, '_, '_, '_>,
) -> Result<(), StoreFault>
    ensures same_wire { feeds.new.wire.ghost_name ≡ feeds.old.wire.ghost_name }
    ensures same_places { feeds.new.places.ghost_name ≡ feeds.old.places.ghost_name }
    ensures same_answered { feeds.new.answered.ghost_name ≡ feeds.old.answered.ghost_name }
    ensures same_lost { feeds.new.lost.ghost_name ≡ feeds.old.lost.ghost_name }
    ensures round { IsServedRound M.inside (λ s t b a. IsFeeding s t b a)
        (M.serving service.old) (M.serving service.new) feeds.old feeds.new result }
{
    service.round(alloc, feeds)
}

impl<M: RoundService> Connections<M> {
    /// A round: of each of these connections, but of those that do not take bytes, of which something is unsent, or nothing
    /// unread, the first request is answered, if it is whole, and all that they edited is kept by one commit. Without two such
    /// connections there is none. Nothing is sent yet.
    ///
    /// Where memory is refused for it, or it is not kept, nothing was answered, and each connection is as it was: its requests
    /// can be answered by `feed`.
    pub fn round(&mut self, alloc: Global, joined: &[usize]) -> Round
        ensures kept { (lost : Option Lost) → result ≡ Round.Kept lost
            → KeepsRound M.serving self.old self.new lost }
        ensures undone { result ≡ Round.Undone → TriesRound M.serving self.old self.new }
    {
        if joined.len() < 2 {
            return Round::Undone;
        }
        let Ok(held) = copies_of(alloc, self.places.as_slice(), joined) else {
            return Round::Undone;
        };
        if held.len() < 2 {
            return Round::Undone;
        }
        let mut answered = 0;
        let mut lost = None;
        let mut feeds = Feeds {
            held: held.as_slice(),
            wire: &mut self.wire,
            places: &mut self.places,
            answered: &mut answered,
            lost: &mut lost,
        };
        match round_over(alloc, &mut self.service, &mut feeds) {
            Ok(()) => {
                self.answered = self.answered.saturating_add(answered);
                Round::Kept(lost)
            }
            Err(_) => {
                put_back(alloc, &mut self.places, held);
                Round::Undone
            }
        }
    }
}
