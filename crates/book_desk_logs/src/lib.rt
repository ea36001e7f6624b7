//! The file of a log, and the clock that its lines have their times of.
//!
//! It stands on `book_log_lines`, which says what a time is, on `book_log_service`, whose trait `Clock` its clock has,
//! and on `jiff_core` and `jiff_fmt`, which have the calendar. The program above uses that the time at an instant is
//! its date and time in UTC, cut to milliseconds (`IsTimeAt`), and that a `LogFile` is a writer. What a file holds no
//! contract can say; what `LogFile` does is written in its comments.
//!
//! Read `instants` first, then `clocks`, and `log_files`.
#![tactic(auto)]

mod clocks;
mod instants;
mod log_files;

pub use clocks::SystemClock;
pub use instants::{instant_of, time_at, time_now};
pub use log_files::{LogFile, NotOpened, Pace};
