//! What the program does without serving: the commands that read one text and write one (`explain`, `card`, help), the
//! acts of commands about an Office (a store is opened or migrated, a policy read and adopted, the Office told as a text),
//! the files that `init` makes, and how a command ends: its status, and what is told of its failure on standard error.
//!
//! It stands on `book_lists_explain` and `book_cards`, which answer texts, on `book_policy`, which reads a policy, on
//! `book_office_audit`, which tells an Office as a text, and on `book_tables` and its rooms, which give the tables of a
//! store. It knows no wire, so that what asks a store is proved beside what serves one. The crates above use that `run_text`
//! ends with status 0 where exactly what the command writes was written (`Does`), else with the status of a failure that the
//! input has (`Fails`); that `open_store` gives the tables of a store (`AreTablesOf`), or the store back as it was
//! (`FailsToOpen`); that `tell_line` tells a failure's line (`TellsFailure`); and that a command ends with the status of
//! what it came to (`EndsWith`). `begin` makes the files that `init` makes, in any folder (`Folder`).
//!
//! Read `text_commands` and `dispatch` first, then `explaining`, `card_summaries`, and `streams` and `short_texts`,
//! which read. Then `policies`, `importing` over `adoptions`, `auditing`, `stores`, `migrations` and `beginning`.
//! `failures`, `lines`, `text_failures`, `serving_failures`, `telling` and `endings` have what is told on standard error.
#![tactic(auto)]

mod adoptions;
mod auditing;
mod beginning;
mod card_summaries;
mod dispatch;
mod endings;
mod explaining;
mod failures;
mod importing;
mod lines;
mod migrations;
mod policies;
mod serving_failures;
mod short_texts;
mod stores;
mod streams;
mod telling;
mod text_commands;
mod text_failures;

pub use adoptions::adopt_or_fail;
pub use auditing::audit;
pub use beginning::{Beginning, Folder, begin};
pub use dispatch::run_text;
pub use endings::ended;
pub use failures::{Failure, InitFault, StoreFailure, tell};
pub use importing::{adopt_given, import};
pub use lines::{Lines, Noting};
pub use migrations::run_migration;
pub use policies::policy_of;
pub use serving_failures::{AdoptionFailure, StreamFailure};
pub use short_texts::read_short_text;
pub use stores::{kept_connection, open_store};
pub use telling::tell_line;
pub use text_commands::TextCommand;
pub use text_failures::{BROKEN, DONE, InputFault, REFUSED, TextFailure};
