//! Entries of a policy that change no decision: they decide nothing for anybody, or the same is decided without them.
//!
//! It stands on `book_lists` and `book_policy_values`. The crate above uses that `idle_entries` tells exactly these
//! entries (`AreIdle`), in a small model of what requests can make: nobody and each person of the policy asks, at each
//! place of the policy, and at each card of a book, whoever owns it.
//!
//! Read `in_force`, `askers`, `places` and `spots` first, then `scope`, `marks`, `reasons`, `alike` and `idle`.
#![tactic(auto)]

mod alike;
mod askers;
mod idle;
mod in_force;
mod marks;
mod places;
mod reasons;
mod scope;
mod spots;

pub use alike::{Compared, Which};
pub use askers::Asker;
pub use idle::{IdleEntry, idle_entries};
pub use in_force::Placed;
pub use reasons::{Ahead, Reason};
pub use scope::Scope;
pub use spots::Spot;
