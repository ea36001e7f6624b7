//! A new store: its tables with their indexes, and the rows that every store has; and whether a store that is there has
//! those tables.
//!
//! It stands on `book_tables_rows`, whose definitions say what the tables are. The crate above uses these promises.
//! Where `create` answers `Ok`, the store had no table, and the tables with their first rows are committed; at an error
//! an open connection shows what it showed; and a stop may leave the store as before or founded, and no third.
//! `is_empty` tells exactly whether a store has no table, index or view. `is_book_schema` tells exactly whether a
//! schema is that of a store, each name, column, key, reference and index of it, and `is_beside_reach` whether it is that
//! of one of version 1 or 2 without `reach`, or with a table of that name of any columns, which `drop_reach` takes away.
//! The rows of a connection that `reopen` gave rise by their numbers. `says_other_version` tells whether `meta` has one
//! row with another version, whatever the schema. The reads of whole tables tell their rows, in no order.
//!
//! Read `specs/Founding`, `specs/Versions` and `specs/Whole`. Of the code, `tables` makes the tables, `first` writes
//! the first rows, and `founding` joins them in one transaction; `columns`, `layout` and `reaches` compare a schema part by part;
//! `reopening`, `versions` and `whole` are for a store that is there.
#![tactic(auto)]

mod bare;
mod columns;
mod dropping;
mod first;
mod former;
mod founding;
mod laws;
mod layout;
mod reaches;
mod reopening;
mod tables;
mod versions;
mod whole;

pub use dropping::{drop_derived, drop_former_entries};
pub use former::{empty_former, has_no_former, set_second};
pub use founding::{create, is_empty};
pub use laws::widened_rows_keep_lists;
pub use layout::{Generation, is_book_schema};
pub use reaches::is_beside_reach;
pub use reopening::{Unopened, reopen};
pub use tables::{make_derived, make_second_table};
pub use versions::says_other_version;
pub use whole::{all_entry_rows, all_gone_rows, all_meta_rows, all_node_rows};
