//! Questions of an auditor about an Office, answered as texts: why a request is granted or denied, and who may do what
//! at a resource (own profile; the decisions are those of RFC 3744, section 6).
//!
//! It stands on `book_machine`, which tells what a request needs (`Machine::needed`), on `book_office_listings` for the
//! rulings, on `book_questions_chains` for the chains of groups by which entries apply, and on `book_office_audit`, as
//! which entries are written. The program above uses that `why` tells, over any
//! keeper, for each need the entry that decides each leaf (`TellsWhy`), and the verdict that `serve` answers
//! (`why_tells_the_reply`); and that `who` tells exactly the callers to whom a privilege is granted (`TellsWho`,
//! `who_is_exact`).
//!
//! Read `whys` first, which is what is told; then `rulings`, `denials`, `places` and `lines`; then `holders` and
//! `who_lines`; then `questions` and `answers`, and `laws`.
#![tactic(auto)]

mod answers;
mod denials;
mod holders;
mod laws;
mod lines;
mod places;
mod questions;
mod rulings;
mod who_lines;
mod whys;

pub use answers::{needed_for, who, why};
pub use denials::first_denial;
pub use holders::{Holder, callers_of, holders_at};
pub use laws::{rulings_tell_the_verdict, who_is_exact, why_tells_the_reply};
pub use lines::push_names;
pub use places::count_in;
pub use questions::{Question, question_of};
pub use rulings::{here_at, in_force, listed_pairs, why_of};
pub use who_lines::{caller_text, is_denied};
pub use whys::{InForce, Why, WhyNeed};
