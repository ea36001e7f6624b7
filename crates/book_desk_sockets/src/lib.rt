//! Where connections come from: a port, a Unix socket, or both, as one listener.
//!
//! It stands on `mio`, which connects without a wait. The program above uses that `accept_from` tells that nothing waits only where both told so, that
//! a `Line` reads and writes what its own stream does, that `Listens` tells where a listener listens, and that `make_socket` makes
//! a socket with the mode that was given, and replaces only one at which nobody answers.
//!
//! Read `lines` first, the streams of both; then `doors`, which has the listener, over `listens`; then `making`, which makes
//! a socket's file, over anything that tells what is there, and `paths`, which is that of the system.
#![tactic(auto)]

mod doors;
mod lines;
mod listens;
mod making;
mod paths;

pub use doors::{Door, Doors, LocalDoor, accept_from};
pub use lines::{Line, LocalStream};
pub use listens::{Listens, write_where};
pub use making::{Found, Ground, NotMade, make_socket};
pub use paths::{Identity, SocketPath};
