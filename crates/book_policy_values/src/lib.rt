//! Policies: what an administrator says of persons, groups, books and entries.
//!
//! It stands on `book_lists` and `book_office_values`. The crate above uses that contracts see `Policy` as what it says, that a
//! policy has none of the faults that its parts may have, and that it tells the entries at the text of a path by a look-up.
//!
//! Read `parts` and `policies` first, then `reading`.
#![tactic(auto)]

mod parts;
mod policies;
mod reading;

pub use parts::{
    BookPart, EntryPart, GroupPart, PersonPart, PolicyBook, PolicyEntry, PolicyTables,
};
pub use policies::Policy;
