//! Which connection gives its place to one that waits.

ghost use Rattle.std.specs.Prelude.{IfSome};
ghost use Rattle.book_desk_loop.specs.Serving.{MayGiveWayAt};

use crate::sockets::{Socket, is_rested, is_slow};
use book_desk_connections::Connections;
use book_wire_serving::Service;
use std::time::Instant;

/// Why a connection gives its place to one that waits.
#[derive(Clone, Copy, Debug)]
enum Reason {
    /// Its last reply is sent, and what it still sends is dropped.
    Closes,
    /// It is idle.
    Rests,
    /// Its request is not whole.
    Slow,
}

/// When the last reply of the connection at a place was sent, if it is only read to its end since.
fn closes_since<M: Service, S>(
    connections: &Connections<M>,
    sockets: &[Option<Socket<S>>],
    place: usize,
) -> Option<Instant>
    ensures { IfSome result (λ since. MayGiveWayAt connections.now.places.items sockets.now place) }
{
    match sockets.get(place) {
        Some(Some(socket)) => {
            if socket.dropped.is_some() {
                Some(socket.moved)
            } else {
                None
            }
        }
        Some(None) => None,
        None => None,
    }
}

/// When the connection at a place moved bytes last, if it is idle.
fn idle_since<M: Service, S>(
    connections: &Connections<M>,
    sockets: &[Option<Socket<S>>],
    place: usize,
    now: Instant,
) -> Option<Instant>
    ensures { IfSome result (λ since. MayGiveWayAt connections.now.places.items sockets.now place) }
{
    match sockets.get(place) {
        Some(Some(socket)) => {
            if is_rested(socket, now) && connections.is_idle(place) {
                Some(socket.moved)
            } else {
                None
            }
        }
        Some(None) => None,
        None => None,
    }
}

/// When the request of the connection at a place began, if it is not whole for a second.
fn slow_since<M: Service, S>(
    connections: &Connections<M>,
    sockets: &[Option<Socket<S>>],
    place: usize,
    now: Instant,
) -> Option<Instant>
    ensures { IfSome result (λ since. MayGiveWayAt connections.now.places.items sockets.now place) }
{
    match sockets.get(place) {
        Some(Some(socket)) => {
            if is_slow(socket, now) && connections.is_within_request(place) {
                socket.begun
            } else {
                None
            }
        }
        Some(None) => None,
        None => None,
    }
}

/// Since when the connection at a place has a reason to give its place, if it has.
fn since<M: Service, S>(
    connections: &Connections<M>,
    sockets: &[Option<Socket<S>>],
    place: usize,
    now: Instant,
    reason: Reason,
) -> Option<Instant>
    ensures { IfSome result (λ since. MayGiveWayAt connections.now.places.items sockets.now place) }
{
    match reason {
        Reason::Closes => closes_since(connections, sockets, place),
        Reason::Rests => idle_since(connections, sockets, place, now),
        Reason::Slow => slow_since(connections, sockets, place, now),
    }
}

/// The connection that has a reason to give its place for the longest time, if one has.
fn longest<M: Service, S>(
    connections: &Connections<M>,
    sockets: &[Option<Socket<S>>],
    now: Instant,
    reason: Reason,
) -> Option<usize>
    ensures { IfSome result (λ place. MayGiveWayAt connections.now.places.items sockets.now place) }
{
    let mut found: Option<usize> = None;
    let mut longest = now;
    for place in 0..sockets.len() {
        if let Some(since) = since(connections, sockets, place, now, reason) {
            if found.is_none() || since < longest {
                found = Some(place);
                longest = since;
            }
        }
    }
    found
}

/// The connection that gives its place to one that waits, if one does: one whose last reply is sent, else one that is idle
/// for 0.1 seconds, else one whose request is not whole for a second; of these the one for which it is the longest time.
pub(crate) fn gives_way<M: Service, S>(
    connections: &Connections<M>,
    sockets: &[Option<Socket<S>>],
    now: Instant,
) -> Option<usize>
    ensures { IfSome result (λ place. MayGiveWayAt connections.now.places.items sockets.now place) }
{
    let closes = longest(connections, sockets, now, Reason::Closes);
    if closes.is_some() {
        return closes;
    }
    let rests = longest(connections, sockets, now, Reason::Rests);
    if rests.is_some() {
        return rests;
    }
    longest(connections, sockets, now, Reason::Slow)
}
