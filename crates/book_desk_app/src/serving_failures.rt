//! What is told where a policy was not adopted, or a stream was not served to its end.

use book_machine::AdoptFault;
use book_wire_serving::StreamFault;
use std::error::Error;
use std::fmt;

/// A policy was not adopted (own profile). It prints as what is told on standard error.
#[derive(Clone, Copy, Debug, PartialEq, Eq)]
pub struct AdoptionFailure {
    /// Why.
    pub fault: AdoptFault,
}

impl fmt::Display for AdoptionFailure {
    ghost use Rattle.std.specs.Prelude.{Some};
    ghost use Rattle.book_desk_app.specs.ServingFailures.{adoption_text};

    ghost output = { λ failure. Some (adoption_text failure.fault) };

    fn fmt<W: fmt::Write>(&self, f: &mut fmt::Formatter<W>) -> fmt::Result {
        match self.fault {
            AdoptFault::Full => f.write_str("adopt: full"),
            AdoptFault::Unavailable => f.write_str("adopt: unavailable"),
        }
    }
}

impl Error for AdoptionFailure {}

/// A stream was not served to its end, or a line of the log could not be written (own profile). It prints as what is told
/// on standard error.
#[derive(Clone, Copy, Debug, PartialEq, Eq)]
pub struct StreamFailure {
    /// Why.
    pub fault: StreamFault,
}

impl fmt::Display for StreamFailure {
    ghost use Rattle.std.specs.Prelude.{Some};
    ghost use Rattle.book_desk_app.specs.ServingFailures.{stream_text};

    ghost output = { λ failure. Some (stream_text failure.fault) };

    fn fmt<W: fmt::Write>(&self, f: &mut fmt::Formatter<W>) -> fmt::Result {
        match self.fault {
            StreamFault::Memory => f.write_str("stream: memory"),
            StreamFault::Read => f.write_str("stream: read"),
            StreamFault::Write => f.write_str("stream: write"),
            StreamFault::Log => f.write_str("log: write"),
        }
    }
}

impl Error for StreamFailure {}
