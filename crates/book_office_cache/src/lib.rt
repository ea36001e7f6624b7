//! A keeper in front of another that remembers what most requests ask of it: the circles of callers, the persons that
//! called, books with their numbers, the lists that stand above cards, which cards have no entries, and of which books
//! no card has.
//!
//! It stands on `book_office`, whose trait `Keeper` it has. The crate above uses that `Cached` stands for what its
//! keeper stands for: what is remembered is what the Office has. After an edit it keeps what is still true; a policy,
//! and an edit that fails, make it forget all.
//!
//! In a round (`rounds`) what is remembered is lent (`memories`), so that what was learned in it stays where it was kept.
//!
//! Read `remembered` first, then `cached`.
#![tactic(auto)]

mod cached;
mod memories;
mod remembered;
mod rounds;

pub use cached::Cached;
pub use remembered::Remembered;
