//! Resources of a backup are put into a store: what a store's dump tells is changed by what a backup's dump tells, card
//! by card and book by book. It is pure: a store is made of the result by the crate above.
//!
//! It stands on `book_dumps_reading`, which says what a dump tells, and on `book_dumps_changes`, of which it takes what
//! a change gives. The crate above uses that `restore` makes exactly the dump that its definition says (`restored`),
//! and why it makes none (`IsRefused`).
//!
//! Read `restoring` first, then `naming`, which says what is wanted, `putting`, which says what becomes of a line, and
//! `comparing`, which says when access is another one; then `knowing` and `room`, the tests; `standing` is the map in
//! which lines stand at their paths; and `laws`, which say that all else stays.
#![tactic(auto)]

mod comparing;
mod faults;
mod knowing;
mod laws;
mod naming;
mod putting;
mod restoring;
mod room;
mod standing;

pub use faults::RestoreFault;
pub use laws::restores_change_what_is_wanted;
pub use restoring::restore;
