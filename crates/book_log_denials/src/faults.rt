//! Why a text is no log.

ghost use Rattle.std.specs.Prelude.{◌≡◌};
ghost use Rattle.book_log_denials.specs.Reading.{fault_at};

use std::alloc::{AllocError, AllocFailed};
use std::error::Error;
use std::fmt;

/// Why a text was not read as a log. It prints as `line N: bad-line`, or as `memory`.
#[derive(Clone, Copy, Debug, PartialEq, Eq)]
pub enum LogFault {
    /// Memory was refused.
    Memory,
    /// The line with this number, from 1, is none of a log, to the letter: it is the first such line.
    BadLine(u64),
}

impl fmt::Display for LogFault {
    ghost use Rattle.std.specs.Prelude.{Some};
    ghost use Rattle.book_log_denials.specs.Reading.{fault_text};

    ghost output = { λ fault. Some (fault_text fault) };

    fn fmt<W: fmt::Write>(&self, f: &mut fmt::Formatter<W>) -> fmt::Result {
        match self {
            LogFault::Memory => write!(f, "memory"),
            LogFault::BadLine(line) => write!(f, "line {line}: bad-line"),
        }
    }
}

impl Error for LogFault {}

impl From<AllocError> for LogFault {
    ghost use Rattle.std.specs.Prelude.{◌≡◌};
    ghost use Rattle.book_log_denials.specs.declared.faults.LogFault.TheVariants.{Memory};

    ghost from_gives = { λ _ fault. fault ≡ Memory };

    fn from(_error: AllocError) -> LogFault {
        LogFault::Memory
    }
}

/// Why a line, or a value in it, was not read.
#[derive(Clone, Copy, Debug, PartialEq, Eq)]
pub enum Unread {
    /// Memory was refused.
    Memory,
    /// It is none that a line of a log has there.
    Bad,
}

impl From<AllocError> for Unread {
    ghost use Rattle.std.specs.Prelude.{◌≡◌};
    ghost use Rattle.book_log_denials.specs.declared.faults.Unread.TheVariants.{Memory};

    ghost from_gives = { λ _ fault. fault ≡ Memory };

    fn from(_error: AllocError) -> Unread {
        Unread::Memory
    }
}

impl<T: Drop> From<AllocFailed<T>> for Unread {
    ghost use Rattle.std.specs.Prelude.{◌≡◌};
    ghost use Rattle.book_log_denials.specs.declared.faults.Unread.TheVariants.{Memory};

    ghost from_gives = { λ _ fault. fault ≡ Memory };

    fn from(_error: AllocFailed<T>) -> Unread {
        Unread::Memory
    }
}

impl Unread {
    /// The fault of a line with this number.
    pub fn at(self, line: u64) -> LogFault
        ensures { result ≡ fault_at self line }
    {
        match self {
            Unread::Memory => LogFault::Memory,
            Unread::Bad => LogFault::BadLine(line),
        }
    }
}
