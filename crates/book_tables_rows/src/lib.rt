//! The tables of a store as lists of rows, and the fixed SQL texts that read and write them.
//!
//! It stands on `sqlite`, knows of tables alone, and nothing of an Office. The crate above uses two promises, of calls
//! inside a transaction that it has begun. A read leaves the tables as they were and tells rows of them. An edit has made
//! of the lists of rows at `Ok` what its change says. Neither commits: whatever they answer, what was committed stays,
//! and a stop leaves nothing of them. After an error of an edit nothing is told of the rows, so its transaction has to
//! be given up.
//!
//! Read `specs/Schema` first, the tables with their columns and rules; `specs/Writes`, what each statement and each
//! edit makes of the rows; `specs/Steps` and `specs/Plans`, what a call does to a connection and how far it has come;
//! and `specs/Nodes`, `specs/Adopting` and `specs/Lists`, the changes that edits make and what reads tell. An edit looks
//! for what it needs, and then runs a list of statements. Of the code, `script` has the statements and runs them, `cards`
//! and `items` those that take several texts; `putting`, `changing`, `removing`, `copying`, `moving`, `labels`, `setting`
//! and `adopting` have the edits; `reach` has what is kept of chains of members; `nodes`, `epochs`, `lists` and
//! `counting` the reads.
#![tactic(auto)]

mod adopting;
mod cards;
mod changing;
mod copying;
mod counting;
mod epochs;
mod items;
mod labels;
mod lists;
mod moving;
mod nodes;
mod putting;
mod reach;
mod removing;
mod script;
mod setting;

pub use adopting::{GroupRow, ListsRow, PlaceRow, adopt_rows, both_lists_are_read};
pub use changing::{add_book, remove_card};
pub use copying::copy_card;
pub use counting::count_children;
pub use epochs::read_epoch;
pub use labels::{label_card, label_node};
pub use lists::{
    changed_entry_rows, changed_rows, child_entry_rows, child_rows, entry_rows_at, gone_rows,
    member_rows,
};
pub use moving::move_card;
pub use nodes::{FoundNode, insert_node, look_up};
pub use putting::put_card;
pub use reach::{ReachRow, clear_reach, reach_rows, reached_rows, renew_reach};
pub use removing::remove_book;
pub use setting::{EntryRow, set_list, set_members, written_lists_are_read};
