//! The wire: requests of the machine as HTTP/1.1 (RFC 9112) over any reader and writer.
//!
//! It stands on `book_machine`, whose run it shows in bytes; on `book_wire_targets` for targets, methods and phrases;
//! on `book_wire_json` for JSON; and on `httparse`, whose grammar says what a head is. The crates above use that
//! `serve_stream` writes the replies of a run of the machine over the requests that the input spells, however the input
//! was cut into pieces, and what stands where a read or a write fails; and that `Connection::feed` makes the same bytes
//! for one connection of many, a piece at a time.
//!
//! Read `stream` first, with `connection`, which is one connection without its socket, and `turns`, which answers one
//! request; then `head` and `members`, `requests`, and `reply`; `bodies` and `outgoing`, which make a long body while it is
//! sent; `buffer` and `output`, which have the bytes; and `laws`.
#![tactic(auto)]

mod bodies;
mod buffer;
mod connection;
mod head;
mod laws;
mod members;
mod outgoing;
mod output;
mod reply;
mod requests;
mod stream;
mod turns;

pub use connection::{Connection, Wire};
pub use laws::streams_are_synced;
pub use stream::{Ended, Served, serve_stream};
