//! From what was asked and answered to the line of a log.
//!
//! It stands on `book_machine`, which says what is asked and answered, on `book_office`, which says which entries are in
//! force, and on `book_log_lines`, which writes the line. The crate above uses that `reply_line` tells of a request and its
//! reply what a log tells and nothing more (`reply_of`, `lines_tell_no_contents`), that the entry which it names of a
//! denial is the entry in force that denied (`decided_in`, `denials_name_the_entry`), and that the cards which it names of
//! an edit are those that changed (`effect_of`, `edits_tell_their_changes`).
//!
//! Read `standing` first, which finds the entry of a denial, then `replies`, and `laws`.
#![tactic(auto)]

mod laws;
mod replies;
mod standing;

pub use laws::{denials_name_the_entry, edits_tell_their_changes, lines_tell_no_contents};
pub use replies::{Effect, Exchange, denial_in, reply_line};
pub use standing::decided_in;
