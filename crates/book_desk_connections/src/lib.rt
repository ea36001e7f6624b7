//! Connections of one service without their sockets, and the bytes between each and a stream that does not wait.
//!
//! It stands on `book_wire`, whose `Connection` is one connection, and on `book_wire_serving`, whose service keeps by one commit
//! what many requests edited. The crate above, the loop, uses that each connection is answered for its own requests alone
//! (`AreServed`), that what a stream gave and took is what its connection received and was sent (`TakesATurn`), and what a round
//! does (`KeepsRound`, `TriesRound`).
//!
//! Read `connections` first; then `feeding` and `rounds`, where requests are answered; then `moves`, which ties a connection to a
//! reader and a writer, and gives it its turn.
#![tactic(auto)]

mod connections;
mod feeding;
mod moves;
mod rounds;

pub use connections::{Accepted, Connections, MOST_UNSENT};
pub use feeding::Lost;
pub use moves::{Moved, Part, Turn, go_on, read_once, take_turn, write_once};
pub use rounds::{Held, Round};
