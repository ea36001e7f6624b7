//! Every fault of the table of a policy's text, each with its place.
//!
//! It stands on the crate `toml`, which reads a text as a table. The crates above use that `faults_of` answers exactly
//! the faults of a table in the order of their places (`faults_in`), and the number of the least of them: `book_policy`
//! tells that one, and `book_policy_checks` all of them.
//!
//! Read `places` first, then `known`, which has what a text names, `problems`, which looks at one value, `tables`, which
//! goes over all of them, and `laws`. What is public beside `faults_of` and the faults is so for the law of `book_policy`.
#![tactic(auto)]

mod known;
mod laws;
mod places;
mod problems;
mod tables;

pub use known::{Known, member, rows_of};
pub use laws::{least_is_told, told_are_first};
pub use places::{Key, PlacedFault, PlacedFaults, Problem, Spot, TableKind};
pub use problems::ItemRule;
pub use tables::{Counts, Named, Seen, faults_of};
