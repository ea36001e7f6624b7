//! Why a run ended early.

use book_office_values::PathFault;
use std::alloc::AllocError;
use std::io;

/// Why a run ended early.
#[derive(Drop)]
pub(crate) enum Failure {
    /// Memory was refused to the run itself, and not to the machine.
    Memory,
    /// Something is not as it has to be.
    Wrong(&'static str),
}

impl From<AllocError> for Failure {
    fn from(_error: AllocError) -> Self {
        Failure::Memory
    }
}

impl From<io::Error> for Failure {
    fn from(_error: io::Error) -> Self {
        Failure::Wrong("nothing can be written")
    }
}

impl From<PathFault> for Failure {
    fn from(fault: PathFault) -> Self {
        match fault {
            PathFault::Memory => Failure::Memory,
            PathFault::BadPath => Failure::Wrong("a path is none"),
        }
    }
}

impl Failure {
    /// What is wrong, in words.
    pub(crate) fn text(&self) -> &'static str {
        match self {
            Failure::Memory => "memory was refused to the examples themselves",
            Failure::Wrong(what) => what,
        }
    }
}

/// Ends the run where the fact does not hold.
pub(crate) fn check(holds: bool, otherwise: &'static str) -> Result<(), Failure> {
    if holds {
        Ok(())
    } else {
        Err(Failure::Wrong(otherwise))
    }
}
