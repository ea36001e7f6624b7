//! A whole Office, copied out of what keeps it.
//!
//! It stands on `book_office`, whose keepers it reads. The crate above uses that `copy` gives exactly the Office for which a
//! keeper stands, with every card, number and removed name; and `copy_without_cards` the same without its cards (`bare`), of
//! which it reads none. So what is done to the copy tells what would come of the keeper's Office, which stays as it is.
//!
//! Read `places` first, which are the resources other than cards; then `numbers` and `books`; then `copying`.
#![tactic(auto)]

mod books;
mod copying;
mod numbers;
mod places;

pub use copying::{copy, copy_without_cards};
