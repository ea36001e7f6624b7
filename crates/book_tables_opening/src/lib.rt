//! Opening a store that is there: its tables, where their rows are those of a sound Office.
//!
//! It stands on `book_tables_schema`, which opens a connection again and compares its schema, on `book_tables_files`,
//! which opens files, on `book_tables_rows`, which reads tables, and on `book_tables`, whose definition says for which
//! Office tables stand. The crate above uses one promise, that of `open`: where it answers `Ok`, the last commit left
//! what stands for a sound Office, the connection is open and stands for that Office, a stop just after leaves it
//! alone, and what it shows is what the last commit left, but for `reach`, which holds what chains of the direct
//! members lead to; where it answers `OtherVersion` or `NoStore`, what the last commit left stands for no Office. Of a
//! store whose files are opened by `find_store` a `Found` keeps what the open has seen, and `open_found` has the
//! promise of `open` over it, and does not open the store once more. For the migration of an older store it has the
//! parts of `open` that are asked of one: `settle_office` in a transaction, `tells_other` and `open_fault_of`; and for
//! the crate that tells which row is at fault it has the tests of one row, or of one limit, each of which tells exactly
//! whether a condition of `AreOfficeRows` is met.
//!
//! Read `specs/Opening` first: `AreOfficeRows`, the conditions that the rows of the five tables have to meet, as whole
//! reads show them. They are met exactly where the rows give an Office that is sound. Then `specs/Directories`, how
//! rows of nodes are found, and `specs/Reading`, what is told of a store. Of the code, `directories` finds rows by path
//! and by number, `keys` and `counting` count what has a limit, each `.._tests` has the test of a condition,
//! `office_tests` joins those that need no text of a card, `whole_nodes` and `reading` read the tables, `text_tests` reads
//! and tests one text after the other, `found` keeps what an open has seen, and `opening` has `open`.
#![tactic(auto)]

mod counting;
mod directories;
mod entry_tests;
mod found;
mod gone_tests;
mod keys;
mod limit_tests;
mod member_tests;
mod meta_tests;
mod node_tests;
mod office_tests;
mod opening;
mod principal_tests;
mod reading;
mod spelling_tests;
mod text_tests;
mod whole_nodes;

pub use counting::are_at_most;
pub use directories::{Directory, text_at};
pub use entry_tests::{is_protected, is_spelled_entry};
pub use found::{Found, find_store};
pub use gone_tests::{is_free, is_name};
pub use keys::{are_few_books, are_within, change_keys, int_at};
pub use limit_tests::{are_short_lists, are_small_books, are_small_groups};
pub use meta_tests::are_meta;
pub use node_tests::{has_change_number, has_kind, has_label, has_natural, is_below, path_at};
pub use opening::{
    is_office, make_anew, open, open_fault_of, open_found, settle_office, tells_other,
};
pub use principal_tests::{has_group, has_principal, is_of_kind, knows};
pub use reading::{StoreRows, read_tables};
pub use spelling_tests::is_natural;
pub use text_tests::has_own_text;
