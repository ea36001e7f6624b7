//! The tables of an Office: the keeper of an Office over the tables of a SQL store.
//!
//! It stands on `book_tables_rows`, which knows the tables as lists of rows and nothing of an Office, and on
//! `book_office`, which says what an Office is and what an edit leaves. Read first `specs/Rows`, what rows tell, and
//! `specs/Stands`, for which Office they stand. The rows of an open connection stand for one sound Office at most, so
//! what a stop leaves is one Office or none.
//!
//! Each read and each edit is a function inside a transaction that is open, and tells what it does there
//! (`specs/Inside`): a read leaves the tables, an edit that fits leaves rows that give the edited Office, and neither
//! commits. Two keepers stand on them. `Tables` gives each call a transaction of its own: at `Ok` the rows stand for the
//! edited Office, and a stop leaves that one alone; at an error they stand for the Office that was there, and a stop
//! leaves what it could leave before or the edited one. `Within` makes all its calls in one transaction, which another
//! holds and commits: it stands for the Office as if the transaction were kept at this moment, until a call fails. A round of
//! `Tables` (`rounds`) hands work to `Within`, and keeps all that it edited by one commit, or nothing.
//!
//! `Tables::create` makes the tables of a new store, which stand for the empty Office, and `release` gives the
//! connection back.
//!
//! The table `reach` holds what chains of direct members lead to: each edit of members renews it in its transaction by
//! the difference (`renewals`), and `reached` asks it for the groups of a caller, in one look-up (`specs/Reach`). Where
//! the members of one group are set the difference is that of the pairs near it (`nearby`, `specs/Nearby`), which two
//! searches read (`searching`).
//!
//! `Tables` (`keeping`) and `Within` (`within`) are each a `Keeper`, over any store. To adopt a policy is to read the Office
//! but for its cards, to compare it with what it becomes (`differences`), and to write the rows that differ.
//! `Tables::over` takes a connection to tables that are there; no call here tests what it finds in a store.
#![tactic(auto)]

mod adopting;
mod bare_office;
mod card_changes;
mod changes;
mod differences;
mod edits;
mod entries;
mod faults;
mod group_members;
mod keeping;
mod laws;
mod levels;
mod listing_rows;
mod members;
mod nearby;
mod opening;
mod places;
mod reaching;
mod reading;
mod renewals;
mod rounds;
mod searching;
mod settings;
mod settling;
mod shares;
mod spans;
mod tables;
mod texts;
mod within;

pub use laws::tables_stand_for_one_office;
pub use opening::OpenFault;
pub use reaching::reached;
pub use settings::rows_of;
pub use settling::settle_reach;
pub use tables::Tables;
pub use within::Within;
