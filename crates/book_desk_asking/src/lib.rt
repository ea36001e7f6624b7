//! The commands that ask a server at its control (own profile): the request of a question, and what is made of its reply
//! (RFC 9112), over any stream.
//!
//! It stands on `book_desk_control`, which reads the same requests and spells the replies, on `httparse`, which reads heads, and
//! on `book_json_lines`, which writes JSON. The program above uses that a request has exactly the bytes of its definition
//! (`request_of`), and that what is printed, what is told on standard error and the status are those of a reply that came whole
//! (`ask_control`).
//!
//! Read `questions` first, then `bodies` and `requests`, which spell them; then `heads` and `replies`, which read what comes,
//! and `asking`, the whole conversation.
#![tactic(auto)]

mod asking;
mod bodies;
mod heads;
mod questions;
mod replies;
mod requests;

pub use asking::ask_control;
pub use questions::{Decision, Part, Question, Rights, Who, Why};
pub use replies::{Answer, Fault, receive};
pub use requests::request_of;
