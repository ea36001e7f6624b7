//! Which rights two Offices grant differently, told through a keeper of each (own profile; the decisions are those of
//! RFC 3744, section 6).
//!
//! It stands on `book_office` for keepers, and on `book_questions_rights` for the places that are asked about, the lines
//! of rights and which cards are equal. The crate above uses that `rights_differences` tells, over any two keepers, which
//! rights are lost and gained (`IsDifferences`), and leaves both Offices as they were (`Compares`); that a line tells
//! exactly the decisions that differ (`lines_tell_what_differs`); and that everybody and everything is told, once
//! (`everything_is_told`).
//!
//! Read `parties` and `places` first, which is what is read; then `forces`, `pairs` and `equal_pairs`; then `lines` and
//! `telling`, which work on what was read; and `answers`, and `laws`.
#![tactic(auto)]

mod answers;
mod equal_pairs;
mod forces;
mod laws;
mod lines;
mod pairs;
mod parties;
mod places;
mod telling;

pub use answers::{read_paths, rights_differences};
pub use equal_pairs::{same_list, same_owner};
pub use forces::Force;
pub use laws::{classes_are_of_equal_pairs, everything_is_told, lines_tell_what_differs};
pub use pairs::CardPair;
pub use parties::Party;
pub use places::{Found, Side, Spot, read_found};
