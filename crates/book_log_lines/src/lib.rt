//! The lines of a log: what was asked, by whom, and what was answered, one JSON object a line (RFC 8259; own profile). No
//! line has the text of a card, a label, a body, or the members of a group.
//!
//! It stands on `book_json_lines`, which writes JSON token by token, and on `book_office_values` and the crates below, whose
//! values are told. The crate above uses that `push_line` adds exactly the text of a line (`line_text`), and that each line
//! has one line feed, at its end (`lines_end_once`).
//!
//! Read `times` first, then `lines`, which is what is told; then `words`, and `entries` and `writing`, which write it; and
//! `laws`.
#![tactic(auto)]

mod entries;
mod laws;
mod lines;
mod times;
mod words;
mod writing;

pub use entries::entry_string;
pub use laws::lines_end_once;
pub use lines::{Adoption, AdoptionLine, Decided, Denied, Line, ReplyLine, Touched};
pub use times::Time;
pub use words::method_name;
pub use writing::{line_bytes, push_line};
