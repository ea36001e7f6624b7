//! What is counted of an Office, as its dump tells it: persons, groups, books and cards, and what stands at them.
//!
//! It stands on `book_dumps_reading`, which says what a dump tells. The crate above uses that `counts_text` gives exactly
//! the lines of `counts_text` in `specs/Counts`.
//!
//! Read `specs/Counts` first, then `counting`.
#![tactic(auto)]

mod counting;

pub use counting::counts_text;
