//! The clock of the system, as a log asks it.

use crate::instants::time_now;
use book_log_lines::Time;
use book_log_service::Clock as LogClock;
use std::alloc::{AllocError, Global};
use std::time::Clock;

/// The clock of the system.
#[derive(Drop)]
pub struct SystemClock<'r, R> {
    rt: &'r R,
}

impl<'r, R: Clock> SystemClock<'r, R> {
    /// The clock that this tells.
    pub fn new(rt: &'r R) -> SystemClock<'r, R> {
        SystemClock { rt }
    }
}

impl<R: Clock> LogClock for SystemClock<'_, R> {
    fn now(&mut self, alloc: Global) -> Result<Time, AllocError> {
        time_now(self.rt, alloc)
    }
}
