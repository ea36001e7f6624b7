//! A decision as a text that `explain` reads, so that it can be worked out twice (own profile; the decision is that of
//! RFC 3744, section 6).
//!
//! It stands on `book_questions`, which reads what is in force, and on `book_machine`, which tells where nothing is
//! mapped and who is no person. The program above uses that `ask` tells, over any keeper, a text that states what the
//! decision rests on (`TellsAsk`), that `explain` answers it by exactly the decision of the Office (`explain_answers_ask`), and
//! that this is the decision which `why` tells (`explain_tells_why`).
//!
//! Read `stated` first, which is what is stated; then `reading`, `lines`, `asking` and `laws`.
#![tactic(auto)]

mod asking;
mod laws;
mod lines;
mod reading;
mod stated;

pub use asking::ask;
pub use laws::{explain_answers_ask, explain_tells_why, stated_decisions_are_the_offices};
pub use stated::{Asked, Stated};
