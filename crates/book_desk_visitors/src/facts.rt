//! What a control tells of the server itself: how it does, and what it counted.

use book_desk_answering::Reply;
use book_desk_control::{Counts, Health, Kind, Outcome, Sizes, health_outcome, health_text};
use book_desk_metrics::{Counts as Replies, Gauges, Held, Times, metrics_text};
use book_wire_steps::Traffic;
use std::alloc::{AllocError, Global};

/// How much an Office has.
#[derive(Clone, Copy)]
pub(crate) struct Given {
    /// The access epoch.
    pub(crate) epoch: u64,
    /// How many persons.
    pub(crate) persons: u64,
    /// How many groups.
    pub(crate) groups: u64,
    /// How many books.
    pub(crate) books: u64,
    /// How many cards.
    pub(crate) cards: u64,
}

/// What is told of the server beside its Office.
#[derive(Clone, Copy)]
pub struct Facts<'a> {
    /// The version of the program.
    pub version: &'a str,
    /// The version of the stores that it makes.
    pub schema: u64,
    /// Since when it serves: UTC, by RFC 3339.
    pub since: &'a str,
    /// The same in seconds since the first instant of 1970.
    pub began: u64,
    /// How it stands with the connections.
    pub traffic: Traffic,
    /// How large the files of the store are.
    pub store: Option<Sizes>,
    /// How often each reply was made.
    pub replies: &'a Replies,
    /// How long requests were served.
    pub times: &'a Times,
}

/// What the Office has, as the health tells it.
fn counts_of(given: Option<Given>) -> Option<Counts> {
    match given {
        Some(given) => Some(Counts {
            epoch: given.epoch,
            persons: given.persons,
            groups: given.groups,
            books: given.books,
            cards: given.cards,
        }),
        None => None,
    }
}

/// What the Office has, as the metrics tell it.
fn held_of(given: Option<Given>) -> Option<Held> {
    match given {
        Some(given) => Some(Held {
            epoch: given.epoch,
            cards: given.cards,
            books: given.books,
            persons: given.persons,
        }),
        None => None,
    }
}

/// The reply that tells how the server does. An error is want of memory.
pub(crate) fn health_reply(
    alloc: Global,
    facts: &Facts<'_>,
    given: Option<Given>,
) -> Result<Reply, AllocError> {
    let health = Health {
        version: facts.version,
        schema: facts.schema,
        since: facts.since,
        came: facts.traffic.came,
        open: facts.traffic.open as u64,
        faults: facts.traffic.faults,
        answered: facts.traffic.answered,
        counts: counts_of(given),
        store: facts.store,
    };
    let outcome = health_outcome(&health);
    let body = health_text(alloc, &health)?;
    Ok(Reply {
        outcome,
        ending: None,
        kind: Kind::Json,
        body,
    })
}

/// The reply that tells what the server counted. An error is want of memory.
pub(crate) fn metrics_reply(
    alloc: Global,
    facts: &Facts<'_>,
    given: Option<Given>,
) -> Result<Reply, AllocError> {
    let gauges = Gauges {
        came: facts.traffic.came,
        open: facts.traffic.open as u64,
        faults: facts.traffic.faults,
        received: facts.traffic.received,
        sent: facts.traffic.sent,
        since: facts.began,
        held: held_of(given),
    };
    let body = metrics_text(alloc, facts.replies, facts.times, &gauges)?;
    Ok(Reply {
        outcome: Outcome::Answered,
        ending: None,
        kind: Kind::Metrics,
        body,
    })
}

/// The reply that the server ends. An error is want of memory.
pub(crate) fn stop_reply(alloc: Global) -> Result<Reply, AllocError> {
    let body = Vec::from_slice(alloc, b"{}\n")?;
    Ok(Reply {
        outcome: Outcome::Answered,
        ending: None,
        kind: Kind::Json,
        body,
    })
}
