//! The check of a policy's file, as a command: `check` tells each fault on standard error, and of a sound policy what it
//! leaves open on standard output (`Checks`); `check_over` tells the same of a policy that a store would adopt
//! (`ChecksOver`), and `check_copy` over the Office of any keeper (`ChecksCopy`). Where bytes are to be put in force,
//! `policy_in` reads the policy, and `tell_no_policy` tells each fault where there is none (`TellsNoPolicy`).
//!
//! It stands on `book_policy_warnings`, which tells, on `book_office_copies`, which copies the Office of a store, and on
//! `book_desk_app`, which opens a store and has the statuses and the failures. The program calls it for `check`.
//!
//! Read `checking` first, then `over`.
#![tactic(auto)]

mod checking;
mod over;

pub use checking::{check, policy_in, tell_no_policy};
pub use over::{check_copy, check_over};
