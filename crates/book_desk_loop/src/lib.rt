//! Many connections at once, in one thread, over any service, listener and streams that do not wait.
//!
//! It stands on `book_desk_connections`, which has the connections of one service without their sockets, and the turn of each, on
//! `book_wire_steps`, whose control has its turn between two requests, and on `mio`, which tells which sockets can go on. The
//! program above uses that `serve_at_once` does to the Office what all requests and adoptions do one after the other
//! (`AreServedAtOnce`, `AreInSteps`).
//!
//! Read `limits` and `looping` first, the loop, over `sockets`, `socket_places`, `giving_way` and `readiness`; and `closing`, which
//! also serves a program that has one connection after the other.
#![tactic(auto)]

mod closing;
mod giving_way;
mod limits;
mod looping;
mod readiness;
mod socket_places;
mod sockets;

pub use closing::close_in_stages;
pub use limits::{Faults, Limits, Stop};
pub use looping::serve_at_once;
pub use readiness::{Polled, Readiness, Woken};
