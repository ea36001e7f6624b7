//! Whether a store is sound, as a command: `run_doctor` writes what is counted of its Office, or tells what is at fault
//! (`Doctors`).
//!
//! It stands on `book_tables_opening`, which opens a store where it is sound, on `book_tables_findings`, which finds
//! what is at fault, on `book_dumps_loading` and `book_dumps_counts`, which read and count an Office, and on
//! `book_desk_app`, which tells failures. The program calls it over a copy of a store's files.
//!
//! Read `specs/Doctoring` first; then `doctoring`.
#![tactic(auto)]

mod doctoring;
mod failures;

pub use doctoring::run_doctor;
