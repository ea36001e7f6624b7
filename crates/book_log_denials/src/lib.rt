//! What the denials of a log say together: who was refused what, where, by which entry, how often, and when first and
//! last.
//!
//! It stands on `book_log_lines`, which says what a line is and writes it, and on `json`, which takes a line apart. The
//! crate above uses that `count_line` takes exactly the texts of lines and adds each denial to its group (`told_in`,
//! `with_lines`, whose groups have the counts and times of `times_of`), and that `Groups::push_lines` tells each group, in
//! byte order (`groups_text`). `read_log` gives lines whose text is exactly the text that was read (`log_text`), and
//! `groups_of` counts these.
//!
//! Read `faults` and `forms` first; then `values` and `parsing`, which say what a line tells, and `reading`, which compares
//! each line with the text of what it told; then `telling` and `objects`, which have the text of a group, `tallies`,
//! `groups`, and `counting`; and `laws`.
#![tactic(auto)]

mod counting;
mod faults;
mod forms;
mod groups;
mod laws;
mod objects;
mod parsing;
mod reading;
mod tallies;
mod telling;
mod values;

pub use counting::{count_line, groups_of};
pub use faults::{LogFault, Unread};
pub use forms::Form;
pub use groups::Groups;
pub use laws::{objects_are_json, tallies_tell_first_and_last};
pub use reading::read_log;
pub use tallies::Tally;
