//! Explanations (own profile): a text that states principals, entries and a need, and the answer with what decides it.
//!
//! It stands on `book_rights` and `book_lists`, whose `expand`, `decide` and `granted` it puts together over the text.
//! The program above uses that `explain` answers the text of the decision exactly where its lines have no fault, and
//! else tells the first line with a fault.
//!
//! Read `faults` and `lines` first, then `questions`, `short_names` and `explanations`, and `laws`.
#![tactic(auto)]

mod explanations;
mod faults;
mod laws;
mod lines;
mod questions;
mod short_names;

pub use explanations::explain;
pub use faults::{ExplainFault, ExplainFaultKind};
pub use laws::{
    answers_are_one, answers_exclude_faults, explain_faults_are_one, texts_have_answers_or_faults,
};
pub use lines::Line;
pub use short_names::{has_read, has_write, short_privileges};
