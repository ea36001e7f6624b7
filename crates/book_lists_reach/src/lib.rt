//! The groups and whoever chains of memberships lead to from them (RFC 3744, section 2), by numbers: pairs of principals
//! as rows of bits over numbered principals.
//!
//! It stands on `book_lists`, whose `closure` tells the same as trees of texts. The crate above uses that `reach_of`
//! gives exactly the pairs of a group and whoever a chain leads to from it, that `without` gives exactly the pairs that
//! others have not, in one pass over the rows, and that `are_those_of` tells whether a list has exactly the pairs.
//!
//! Read `numbering` first, the places of principals in a list of them, and `bits`, a set of numbers in words; then
//! `reach`, the pairs of such rows. The closure goes through the place of each principal that is a member (`closing`):
//! each row that has it takes over the row at it. It is Warshall's, and what is gone through stays so.
#![tactic(auto)]

mod bits;
mod closing;
mod numbering;
mod reach;

pub use reach::{Reach, reach_of};
