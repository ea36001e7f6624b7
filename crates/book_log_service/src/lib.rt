//! A machine that keeps a log: a line for each reply, written before the reply is sent.
//!
//! It stands on `book_wire_serving`, whose trait `Service` it has, on `book_machine`, which serves, and on
//! `book_log_lines` and `book_log_replies`, which say what a line tells. The crate above uses that the replies of `Logged`
//! are those of the machine (`Owes`), that their lines are in the log unless a write has failed (`NotesOwed`), and that
//! the line of a denial has the entry that denied, by the lists in force (`IsTextOf`).
//!
//! Read `clocks` first, then `texts`, which makes the lines, `drafts`, which makes those of edits before the edits, by what
//! `foreseeing` finds out,
//! `spelling`, which asks the keeper for the lists at a denial, `spares`, `noting` and `logged`; then `pages`, which have the
//! lines of a round, and `rounds`.
#![tactic(auto)]

mod appending;
mod clocks;
mod drafts;
mod foreseeing;
mod known;
mod logged;
mod noting;
mod pages;
mod rounds;
mod spares;
mod spelling;
mod texts;

pub use clocks::Clock;
pub use logged::Logged;
