//! A log that takes so many lines, by a clock that stands.

use crate::offices::{POLICY, machine};
use book_log_lines::Time;
use book_log_service::{Clock, Logged};
use book_office::MemoryKeeper;
use std::alloc::{AllocError, Global};
use std::io;
use std::io::{ErrorKind, Write};
use std::process::Abort;

/// Takes so many writes, and then fails.
#[derive(Drop)]
pub(crate) struct Lines {
    pub told: Vec<u8>,
    left: u64,
}

impl Write for Lines {
    fn write(&mut self, buf: &[u8]) -> io::Result<usize> {
        if self.left == 0 {
            return Err(ErrorKind::Other.into());
        }
        self.left -= 1;
        self.told.extend_from_slice(buf)?;
        Ok(buf.len())
    }

    fn flush(&mut self) -> io::Result<()> {
        Ok(())
    }
}

/// Tells one instant.
#[derive(Drop)]
pub(crate) struct Stopped;

impl Clock for Stopped {
    fn now(&mut self, alloc: Global) -> Result<Time, AllocError> {
        match Time::parse(alloc, "2026-11-29T00:00:00.000Z")? {
            Some(time) => Ok(time),
            None => Err(AllocError),
        }
    }
}

/// A machine with a log of so many lines.
pub(crate) fn logged(
    rt: &impl Abort,
    alloc: Global,
    left: u64,
) -> Logged<MemoryKeeper, Lines, Stopped> {
    let lines = Lines {
        told: Vec::new(alloc),
        left,
    };
    Logged::new(alloc, machine(rt, alloc, POLICY), lines, Stopped)
}
