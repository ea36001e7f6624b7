//! The answers to `why`, `who` and `rights` as JSON, an object on a line, for programs (RFC 8259; the objects are own
//! profile).
//!
//! It stands on `book_questions` and `book_questions_rights`, which read what is told, and on `serde_json`. The program
//! above uses that `why_objects`, `who_objects` and `rights_objects` tell, over any keeper, the objects of the facts of an
//! answer (`TellsWhyObjects`, `TellsWhoObjects`, `TellsRightsObjects`); that the text of the answer has the words of the same
//! facts, in the same order (`texts_tell_the_facts`, `rights_tell_the_held`); and that an object tells each value of those
//! words (`objects_tell_the_words`).
//!
//! Read `arrays` first, then `entries`, `leaves` and `lines`; then `held` and `holding`; then `answers` and `rights`, and
//! `laws`.
#![tactic(auto)]

mod answers;
mod arrays;
mod entries;
mod held;
mod holding;
mod laws;
mod leaves;
mod lines;
mod rights;

pub use answers::{who_objects, why_objects};
pub use laws::{objects_tell_the_words, rights_tell_the_held, texts_tell_the_facts};
pub use rights::rights_objects;
