//! What is asked of a server beside its connections, and what is answered (own profile): requests of HTTP (RFC 9112) that
//! whoever keeps the server sends, each on a connection of its own, without a socket.
//!
//! It stands on `httparse`, which reads heads, on `serde_json`, which reads bodies, on `book_json_lines`, which writes JSON, and
//! on `book_office_values` for texts. The program above uses that a connection is refused, or brings what it asks with its
//! words (`bring`), that a request is the same however its bytes are cut (`requests_are_cut_anywhere`), that its reply has the
//! status, the lines and the body that it was given (`answer`), and that nothing but POST of /stop asks for an end
//! (`asks_end`).
//!
//! Read `questions` first, then `refusals`, `fields` and `hearing`, which read a head, `words` and `demands`, which read a
//! body, `replies`, and `health`; then `exchanges`, one connection, and `laws`.
#![tactic(auto)]

mod bytes;
mod demands;
mod exchanges;
mod fields;
mod health;
mod hearing;
mod laws;
mod questions;
mod refusals;
mod replies;
mod words;

pub use bytes::Bytes;
pub use demands::{AskBody, AuditBody, Demand, RightsBody, WhoBody, WhyBody, asks_end, text_in};
pub use exchanges::Exchange;
pub use fields::{is_length, lone, value_of};
pub use health::{Counts, Health, Sizes, health_outcome, health_text};
pub use hearing::{Heard, hear};
pub use laws::{replies_are_sent_in_order, requests_are_cut_anywhere};
pub use questions::Question;
pub use refusals::Refusal;
pub use replies::{Ending, Kind, Outcome, outcome_of_status};
pub use words::Words;
