//! What a sound policy leaves open: warnings, each a sentence.
//!
//! It stands on `book_policy` and `book_policy_checks`, which read a policy and tell its faults, and on `book_policy_idle`,
//! `book_policy_gaps` and `book_policy_openings`. The program above uses that `tell_policy` tells of a policy's file its
//! faults, or else its warnings (`AreWarningsOf`): exactly the entries that change no decision, exactly the plain facts, and
//! openings and gains, each with its witness; that `tell_policy_over` tells them over another Office than the empty one
//! (`AreWarningsOver`); and that cards have no part in these (`cards_have_no_part`).
//!
//! Read `warnings` first, then `telling` and `laws`.
#![tactic(auto)]

mod laws;
mod telling;
mod warnings;

pub use book_policy_idle::{Ahead, IdleEntry, Reason};
pub use book_policy_openings::{Gain, Opening, Step};
pub use laws::cards_have_no_part;
pub use telling::{Told, ToldOver, tell_policy, tell_policy_over};
pub use warnings::{Warning, warnings_of, warnings_over, warnings_text};
