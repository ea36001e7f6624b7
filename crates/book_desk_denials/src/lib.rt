//! The denials of a log, as a command: `run_denials` reads a log line by line, and writes who was refused what, where,
//! by which entry, how often, and when first and last (`EndsDenials`).
//!
//! It stands on `book_log_denials`, which reads lines and counts their denials, and on `book_desk_app`, which tells
//! failures. What it keeps in memory rests on the groups and on the longest line, and not on how many lines there are.
//!
//! Read `specs/Denying` first; then `counting` and `denying`.
#![tactic(auto)]

mod counting;
mod denying;

pub use denying::run_denials;
