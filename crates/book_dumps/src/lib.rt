//! The Office as text: one JSON object a line (RFC 8259; own profile), so that it can be kept, compared and handed over.
//!
//! It stands on `book_office`, whose keepers it reads, and on `json`, which says which text a value has. The crate above
//! uses that `dump` writes exactly the text of the Office for which a keeper stands (`dump_text`), or a beginning of it
//! that is cut before its end (`Dumps`); that `show` gives the line of one resource (`texts_at`), and that `line_bytes`
//! writes a line (`line_text`).
//!
//! Read `lines` first, which is what a line tells; then `texts` and `writing`, which write it; then `reading`, which
//! reads it of a keeper; then `places`, the order of books and their cards, `output`, and `dumps`; and `laws`.
#![tactic(auto)]

mod dumps;
mod faults;
mod laws;
mod lines;
mod output;
mod places;
mod reading;
mod texts;
mod writing;

pub use dumps::{dump, show};
pub use faults::DumpFault;
pub use laws::{dumps_are_exact, dumps_tell_every_resource};
pub use lines::{Line, Removed};
pub use writing::line_bytes;
