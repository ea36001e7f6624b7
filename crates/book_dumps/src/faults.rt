//! Why a dump stopped.

ghost use Rattle.std.specs.Prelude.{◌≡◌};
ghost use Rattle.book_dumps.specs.declared.faults.DumpFault.TheVariants as faults;
ghost use Rattle.book_office.specs.declared.keepers.StoreFault.TheVariants.{Memory};

use book_office::StoreFault;
use std::alloc::AllocError;

/// Why a dump stopped.
#[derive(Clone, Copy, Debug, PartialEq, Eq)]
pub enum DumpFault {
    /// The Office could not be read, or memory was refused.
    Store(StoreFault),
    /// A write failed, or took nothing.
    Write,
}

impl From<StoreFault> for DumpFault {
    ghost from_gives = { λ fault given. given ≡ faults.Store fault };

    fn from(fault: StoreFault) -> DumpFault {
        DumpFault::Store(fault)
    }
}

impl From<AllocError> for DumpFault {
    ghost from_gives = { λ _ given. given ≡ faults.Store Memory };

    fn from(_error: AllocError) -> DumpFault {
        DumpFault::Store(StoreFault::Memory)
    }
}
