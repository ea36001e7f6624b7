//! A store of version 1 becomes one of version 2.
//!
//! It stands on `book_tables_renewing`, which renews the tables inside a transaction, and on `book_tables_opening`,
//! which opens a store and tells whether its rows are those of a sound Office. The crate above uses one promise, that
//! of `migrate`: where it answers `Ok`, what was committed stood for an Office as tables of version 1, and the
//! connection stands for that Office with `x-read-names` in each entry that has `x-read-texts`; where it answers
//! `OtherVersion` or `NoStore`, what the connection shows stands for no Office as tables of version 1; at any error it
//! shows what was committed, and a stop leaves that or the widened Office.
//!
//! Read `specs/Widen` first, then `specs/Migrating`. The law in `laws` says that decisions stay.
#![tactic(auto)]

mod laws;
mod migrating;

pub use laws::widened_offices_decide_alike;
pub use migrating::migrate;
