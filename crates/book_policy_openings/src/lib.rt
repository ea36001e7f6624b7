//! Who may open a book that is closed to them, by their own requests, each told with its witness.
//!
//! It stands on `book_policy_values`, on `book_office_copies`, and on `book_machine` over a keeper in memory. The crate
//! above uses that each opening that `openings_in` tells of a sound Office is one (`IsOpeningIn`): over a copy of it the
//! machine refused the caller to read a card of the book, served their requests with success, and then answered with the
//! card; that `openings_of` tells those of the Office that a policy makes of an empty one; and that `adopted_over` makes
//! another adopt it. That none is told is no promise.
//!
//! Read `steps`, `openings`, `in_memory` and `trials` first; then `lists`, `senders`, `places`, `office_places` and
//! `searching`, which look for openings, and `spots`, `moves` and `gain_search`, which look
//! for gains.
#![tactic(auto)]

mod gain_search;
mod gaining;
mod gains;
mod in_memory;
mod lists;
mod moves;
mod office_places;
mod openings;
mod places;
mod searching;
mod senders;
mod spots;
mod steps;
mod trials;

pub use gain_search::gains_in;
pub use gains::Gain;
pub use in_memory::{adopted, adopted_over};
pub use openings::Opening;
pub use searching::{openings_in, openings_of};
pub use steps::Step;
