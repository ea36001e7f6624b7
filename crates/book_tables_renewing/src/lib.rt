//! The tables of a store of version 1, or of one of version 2 in the former order, become those of a store, inside a
//! transaction that the caller ends.
//!
//! It stands on `book_tables_schema`, which makes the tables that version 2 has beside those of version 1, empties the one that it
//! has no more, and sets the version. The crate above uses two promises. That of `renew`: where it tells a number, the
//! tables were those of version 1 with sets of the eight leaves, and are now those of version 2 with the same rows, each
//! entry in the other table with bit 8 in its mask where bit 0 is; where it tells none, they were not. That of `reorder`:
//! where it tells a number, `ace` had no row, and the tables in the former order are now those of a store, with the same
//! rows; where it tells none, it had one.
//!
//! Read `specs/Renewal` and `specs/Reordering`. Of the code, `masks` and `metas` test the rows, `copying` copies the
//! entries, and `renewing` and `reordering` join the steps.
#![tactic(auto)]

mod copying;
mod masks;
mod metas;
mod renewing;
mod reordering;

pub use renewing::renew;
pub use reordering::reorder;
