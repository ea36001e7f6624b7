//! A dump as it is read: the text of an Office becomes lines, or is refused at a line.
//!
//! It stands on `book_dumps`, which says what a line is and writes it, and on `json`, which takes a line apart. The
//! crate above uses that `read_dump` gives lines whose text is exactly the text that was read (`dumped_text`), so that
//! nothing of it is lost or mended, and that `dump_bytes` writes that text.
//!
//! Read `dumped` first, then `faults`; then `values`, `seen` and `parsing`, which say what a line tells, `principals`,
//! and `reading`, which compares each line with the text of what it told.
#![tactic(auto)]

mod dumped;
mod faults;
mod parsing;
mod principals;
mod reading;
mod seen;
mod values;

pub use dumped::{Dumped, dump_bytes};
pub use faults::{Key, LineFault, LineProblem, ReadFault};
pub use reading::read_dump;
