//! What is told of a policy's text: every fault, each with its place, as lines.
//!
//! It stands on `book_policy_faults`, which tells the faults of a table, and on `book_policy`, which has what a policy is.
//! The program above uses that `check_policy` answers that a text is a policy exactly where it is one, and else all its
//! faults in the order of their places (`faults_in`), of which the least is the one that `read_policy` tells.
//!
//! Read `reports` first, then `sentences`, which prints a fault, `telling`, and `laws`.
#![tactic(auto)]

mod laws;
mod reports;
mod sentences;
mod telling;

pub use book_policy_faults::{Key, PlacedFault, PlacedFaults, Problem, TableKind};
pub use laws::reports_agree;
pub use reports::{NotToml, Report, check_policy};
pub use telling::{Checked, tell_faults};
