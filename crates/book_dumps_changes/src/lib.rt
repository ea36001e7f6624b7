//! Changes of a dump, each pure: what it makes of each line, and the lines that it tells.
//!
//! It stands on `book_dumps_reading`, which says what a dump tells. The crate above uses that each call makes exactly
//! the dump that its definition says (`with_owner`, `without_removed`, `with_epoch`, `without_person`), that the epoch
//! is above the one before where something was changed, and that a person who is gone is named nowhere (`IsFreeOf`).
//!
//! Read `changed` first, which has what they have in common; then `owners`, `removals`, `epochs` and `leavers`, and `laws`.
#![tactic(auto)]

mod changed;
mod epochs;
mod laws;
mod leavers;
mod owners;
mod removals;

pub use changed::{ChangeFault, Changed};
pub use epochs::new_epoch;
pub use laws::others_are_ruled_alike;
pub use leavers::without;
pub use owners::own_by;
pub use removals::forget_removed;
