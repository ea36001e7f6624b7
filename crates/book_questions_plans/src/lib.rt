//! What adopting a policy would change in an Office, and what it would leave, told without adopting it (own profile).
//!
//! It stands on `book_office_copies`, which copies an Office into memory, on `book_machine`, which adopts the policy there,
//! and on `book_questions_stays` and `book_questions_changes`, which tell what stays and how two Offices differ. The program
//! above uses that `plan` tells, over any keeper, what the policy would leave because it does not name it, and how the
//! Office for which the keeper stands differs from the one that adopts the policy (`Plans`, `IsPlan`), and leaves it as it
//! was. That it tells `unchanged` exactly where adopting the policy changes nothing is a law of `book_questions_changes`
//! (`unchanged_is_no_adoption`).
//!
//! Read `faults` and `planning`.
#![tactic(auto)]

mod faults;
mod planning;

pub use faults::PlanFault;
pub use planning::{Planned, plan};
