//! What whoever keeps a server asks of the Office that it serves, over any service (`Administered`): questions, the audit, the
//! dump, what a policy would leave open, leave and change, and how much there is; a copy of it is made; and a policy is put in
//! force. The texts and the statuses are those of the commands over a store.
//!
//! It stands on `book_desk_questions`, `book_desk_checks`, `book_desk_keeping` and `book_desk_app`, which answer over any
//! keeper, on `book_wire_steps`, which says what it is to be administered, and on `book_log_service`, whose log gets a line
//! of each adoption. The program above uses that all but `put_policy` is a reading (`Runs` of no request), that this is one
//! adoption of the policy that the bytes spell, or nothing (`PutsPolicy`), and that a backup is a copy of the Office in force
//! (`IsCopyOf`).
//!
//! Read `counting` and `adopting` first, then `administered`, which has the trait, and `machines` and `logs`.
#![tactic(auto)]

mod administered;
mod adopting;
mod counting;
mod logs;
mod machines;

pub use administered::Administered;
pub use adopting::adopt_noted;
pub use counting::{Counts, counts_of};
