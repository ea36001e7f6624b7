//! The connections of a control, on which whoever keeps a server asks, over its socket: each brings one demand, and has its
//! reply over the service.
//!
//! It stands on `book_desk_control`, which reads demands and spells replies, on `book_desk_answering`, which answers those of
//! the Office, on `book_desk_metrics`, on `book_desk_sockets` and on `mio`. The program above uses that a turn of all connections
//! answers one of them at most, and reads the Office or adopts a policy, and does nothing else to the service (`take_turn`,
//! `OnlyAdopts`).
//!
//! Read `facts` first, what is told of the server itself, then `visitors`, one connection, and `places`, all of them.
#![tactic(auto)]

mod facts;
mod places;
mod visitors;

pub use facts::Facts;
pub use places::Places;
