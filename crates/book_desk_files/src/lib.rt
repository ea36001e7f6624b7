//! The files of this host that the program reads and makes: those of stores and policies, the drafts of stores that get
//! their name when they are whole, the folder of `init`; and why one can't be had, told in words where that is wanted.
//!
//! It stands on `book_desk_app`, whose failures it gives, on `book_tables_opening`, which opens a store over its two files and
//! keeps what it saw of it (`Found`), on `book_tables_files`, and on `sqlite_std_file`, which is such a file. Of the system's files no contract says anything: `tools/try-faults`,
//! `tools/check-lost`, `tools/check-unsynced` and `tools/check-loads` try them. It is apart from the program so that it is
//! proved beside the crates that the program waits for.
//!
//! A store's file that was just opened is a `StoreFile`: what is done over a store is an `OverStore`, which the file is handed
//! to; what is left then is a `LeftFile`.
//!
//! Read `files` first, then `stores`, `drafts`, `folders`, `causes`, and `progress`, which tells stages where a person looks.
#![tactic(auto)]

mod causes;
mod drafts;
mod files;
mod folders;
mod progress;
mod stores;

pub use causes::{Cause, tell_cause, tell_row, wants_causes};
pub use drafts::{Draft, empty_log, is_free, is_unused, remove};
pub use files::{
    Named, Opened, length_of, log_name, open_backup_copy, open_copied, open_former, open_inputs,
    open_locked_copy, open_policy, open_store_named, open_untold_copy, open_viewed,
    read_dump_bytes, read_policy_file, real_path, viewed,
};
pub use folders::{DiskFolder, make_folder, remove_folder};
pub use progress::{Stage, tell_stage};
pub use stores::{
    FileConnection, Folded, LeftFile, OverAnyStore, OverStore, OverThreeStores, OverTwoStores,
    StoreCopy, StoreFile, close, run_and_close_any, run_three, run_two,
};
