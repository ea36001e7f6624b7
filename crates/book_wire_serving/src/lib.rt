//! What serves the requests of a wire, and what is noted of each reply in a log.
//!
//! It stands on `book_machine`, whose machine is a service that keeps no log, and on `book_log_lines` and
//! `book_log_replies`, which say what a line of a log tells. The crate above uses that what was served is a run of the
//! machine, and that a log, as long as no write of it has failed, has a line for each reply of that run (`Runs`).
//!
//! Read `services`, then `lent_services` and `rounds`.
#![tactic(auto)]

mod faults;
mod lent_services;
mod rounds;
mod services;

pub use faults::StreamFault;
pub use rounds::{RoundService, ServiceWork};
pub use services::{LogFault, Service};
