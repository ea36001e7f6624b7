//! Why a dump did not become a store.

ghost use Rattle.std.specs.Prelude.{◌≡◌};
ghost use Rattle.book_dumps_loading.specs.Faults.{keeper_fault, open_fault, row_fault};

use book_office::StoreFault;
use book_tables::OpenFault;
use sqlite::{Error, ErrorCode};
use std::alloc::AllocError;

/// Why a dump did not become a store, or a store was not copied.
#[derive(Clone, Copy, Debug, PartialEq, Eq)]
pub enum LoadFault {
    /// The new store has a table, an index or a view.
    Exists,
    /// The rows were refused: what the dump tells is no sound Office, or its text is no dump.
    Refused,
    /// What was read back of the new store differs from the dump.
    Unequal,
    /// Memory was refused.
    Memory,
    /// A store failed.
    Store,
}

/// Why rows were not written.
#[derive(Clone, Copy, Debug, PartialEq, Eq)]
pub(crate) enum RowFault {
    /// A row breaks a rule of the tables, or names one that is not there.
    Refused,
    /// Memory was refused.
    Memory,
    /// The store failed.
    Store,
}

impl From<AllocError> for RowFault {
    fn from(_error: AllocError) -> RowFault {
        RowFault::Memory
    }
}

impl From<Error> for RowFault {
    fn from(error: Error) -> RowFault {
        match error {
            Error::SqliteFailure(ErrorCode::OutOfMemory) => RowFault::Memory,
            Error::SqliteFailure(ErrorCode::ConstraintViolation(_)) => RowFault::Refused,
            Error::QueryReturnedNoRows => RowFault::Refused,
            _ => RowFault::Store,
        }
    }
}

impl From<RowFault> for LoadFault {
    ghost from_gives = { λ error fault. fault ≡ row_fault error };

    fn from(fault: RowFault) -> LoadFault {
        match fault {
            RowFault::Refused => LoadFault::Refused,
            RowFault::Memory => LoadFault::Memory,
            RowFault::Store => LoadFault::Store,
        }
    }
}

impl From<OpenFault> for LoadFault {
    ghost from_gives = { λ error fault. fault ≡ open_fault error };

    fn from(fault: OpenFault) -> LoadFault {
        match fault {
            OpenFault::OtherVersion | OpenFault::NoStore => LoadFault::Refused,
            OpenFault::Memory => LoadFault::Memory,
            OpenFault::Store => LoadFault::Store,
        }
    }
}

impl From<StoreFault> for LoadFault {
    ghost from_gives = { λ error fault. fault ≡ keeper_fault error };

    fn from(fault: StoreFault) -> LoadFault {
        match fault {
            StoreFault::Memory => LoadFault::Memory,
            StoreFault::Store => LoadFault::Store,
        }
    }
}
