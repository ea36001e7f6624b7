//! The commands over the store of a file, from the words to the status: what `import`, `audit`, `pipe`, `check`, `differs`,
//! `migrate` and the questions do over one, what `load`, `compact`, `backup` and `restore` make, and what `doctor` examines.
//!
//! It joins what `book_desk_serving`, `book_desk_questions`, `book_desk_checks`, `book_desk_keeping` and `book_desk_doctor` do
//! over any store, whose contracts say what is written, to the files of `book_desk_files`, of which no contract says anything.
//! It is apart from the program so that it is proved beside what serves.
//!
//! Read `commands` first, then `keeping` and `examining`; `tasks` is what they do over a store of any kind, and `refusals`
//! tells why the tables of a store were refused.
#![tactic(auto)]

mod commands;
mod examining;
mod keeping;
mod refusals;
mod tasks;

pub use commands::{
    ask_store, check_files, connection_of, dump_store, migrate, tell_differences, work,
};
pub use examining::examine;
pub use keeping::{backup, begin_backup, check_backup, compact, end_draft, load, restore};
pub use refusals::{STORE_VERSION, tell_refusal, tell_refusal_of};
