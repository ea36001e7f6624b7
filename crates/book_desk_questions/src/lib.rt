//! What is asked of a store, as commands: `run_question` reads the words of a question, opens the tables of the store, and
//! writes the answer for its Office, or tells why there is none (`RunsAsked`); `run_dump` writes the Office itself
//! (`DumpsIn`); `run_differs` reads a policy, and writes what adopting it would leave and change (`RunsDiffers`).
//! `answer_words`, `dump_of` and `differs_by` do the same over the Office of any keeper (`AnswersWords`, `EndsDump`,
//! `DiffersBy`).
//!
//! It stands on `book_questions`, `book_questions_rights`, `book_questions_json`, `book_questions_asked`,
//! `book_questions_audit`, `book_questions_plans` and `book_dumps`, which answer over any keeper, and on `book_desk_app`,
//! which opens a store, reads a policy and tells failures. The program calls it for `why`, `who`, `rights`, `ask`, `show`,
//! `dump`, `differs`, and the `audit` of a part, and the crate above asks the Office that is served.
//!
//! Read `asked` first, then `failures`, `forms` and `answers`; then `dumping` and `differing`.
#![tactic(auto)]

mod answers;
mod asked;
mod differing;
mod dumping;
mod failures;
mod forms;

pub use answers::{answer_words, run_question};
pub use asked::{
    Asked, AskedRights, AskedWho, Asking, DecisionWords, PartWords, RightsWords, WhoWords,
    WhyWords, Words,
};
pub use differing::{Unplanned, differs_by, run_differs};
pub use dumping::{dump_of, run_dump};
pub use failures::Unanswered;
