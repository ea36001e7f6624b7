//! Adopting a policy: what it makes of an Office.
//!
//! It stands on `book_policy_values` and the crates below. The crate above uses that `adopt` leaves exactly the Office that the
//! definition says, or on an error the Office as it was; that `adoption` tells beforehand whether anything changes and how
//! many books there are then; that `office_under` tells what becomes of all but the cards, the changes and the epoch; that
//! adopting twice is adopting once; and that all of it is told without cards, so that a store has to read none.
//!
//! Read `adopting` first, then `comparing`.
#![tactic(auto)]

mod adopting;
mod comparing;
mod laws;

pub use adopting::{Adoption, adopt_policy, adoption_of, is_group, office_under};
pub use comparing::{same_lists, same_place};
pub use laws::{adopting_needs_no_cards, adopting_twice_is_adopting_once};
