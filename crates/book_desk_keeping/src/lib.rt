//! Stores that are made of dumps and of each other, as commands: `run_load` makes a store of the text of a dump,
//! changed on the way (`EndsLoad`), `run_copy` copies one into another (`EndsMaking`, `IsCopyOf`), and `copy_keeper`
//! the Office of any keeper, `run_restore` makes one of a store with resources of a backup (`EndsRestore`), and
//! `run_compare` tells whether two stand for the same Office (`EndsComparison`).
//!
//! It stands on `book_dumps_reading`, which reads a dump, on `book_dumps_changes` and `book_dumps_restoring`, which
//! change what it tells, on `book_dumps_loading`, which makes a store of that and reads it back, and on
//! `book_desk_app`, which opens a store and tells failures. The program calls it for `load`, `backup`, `compact` and
//! `restore`, over files under other names, which it renames where these end with status 0.
//!
//! Read `failures` and `changes` first, then `loads`, `copies`, `restores` and `comparisons`.
#![tactic(auto)]

mod changes;
mod comparisons;
mod copies;
mod failures;
mod loads;
mod restores;

pub use changes::Change;
pub use comparisons::run_compare;
pub use copies::{copy_keeper, run_copy};
pub use failures::{KeepingFault, tell_fault};
pub use loads::run_load;
pub use restores::run_restore;
