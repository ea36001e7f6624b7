//! What a server tells whoever watches it: how often each reply was made, how long requests were served, and what it holds,
//! as text of the format of Prometheus (version 0.0.4; own profile).
//!
//! It stands on `book_wire_serving`, whose trait `Service` it has around a service, on `book_log_replies`, which finds the
//! denial in a reply, and on `itoa`. The program above uses that `Counted` serves as the service in it does, that each reply
//! which is noted is counted once, under its method and its status (`counted`, `counts_are_numbers`), and that the text is that of
//! its definition (`metrics_text`).
//!
//! Read `counts` and `times` first, then `counted`, the service, and `exposition`, the text; and `laws`.
#![tactic(auto)]

mod counted;
mod counts;
mod exposition;
mod laws;
mod rounds;
mod times;

pub use counted::{Clock, Counted};
pub use counts::{Counts, Told};
pub use exposition::{Gauges, Held, metrics_text};
pub use laws::{buckets_are_numbers, counts_are_numbers, places_tell_apart};
pub use times::Times;
