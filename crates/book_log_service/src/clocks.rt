//! What tells the time.

use book_log_lines::Time;
use std::alloc::{AllocError, Global};

/// What tells the time. Nothing is said of which time it tells.
pub trait Clock: Drop {
    /// The time. An error is want of memory.
    fn now(&mut self, alloc: Global) -> Result<Time, AllocError>;
}
