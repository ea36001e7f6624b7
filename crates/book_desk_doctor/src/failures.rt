//! Faults as what is told of them.

ghost use Rattle.std.specs.Prelude.{◌≡◌, ◌⊎◌, ◌++◌, IfOk, codes};
ghost use Rattle.book_tables_findings.specs.Lines.{fault_text};
ghost use Rattle.book_desk_doctor.specs.Doctoring.{error_failure, load_failure, refusal};

use book_desk_app::StoreFailure;
use book_dumps_loading::LoadFault;
use book_tables::OpenFault;
use book_tables_findings::{Fault, fault_line};
use sqlite::{Error, ErrorCode};
use std::alloc::{AllocError, Global};

/// Why an Office was not read.
pub(crate) fn load_failure(fault: LoadFault) -> StoreFailure
    ensures { result ≡ load_failure fault }
{
    match fault {
        LoadFault::Memory => StoreFailure::Memory,
        LoadFault::Exists | LoadFault::Refused | LoadFault::Unequal | LoadFault::Store => {
            StoreFailure::Store
        }
    }
}

/// Why a store was not opened.
pub(crate) fn refusal(fault: OpenFault) -> StoreFailure
    ensures { result ≡ refusal fault }
{
    match fault {
        OpenFault::OtherVersion => StoreFailure::OtherVersion,
        OpenFault::NoStore => StoreFailure::NoStore,
        OpenFault::Memory => StoreFailure::Memory,
        OpenFault::Store => StoreFailure::Store,
    }
}

/// Tells want of memory from any other failure.
pub(crate) fn error_failure(error: Error) -> StoreFailure
    ensures told { result ≡ error_failure error }
    ensures either { (result ≡ StoreFailure.Memory) ⊎ (result ≡ StoreFailure.Store) }
{
    match error {
        Error::SqliteFailure(ErrorCode::OutOfMemory) => StoreFailure::Memory,
        _ => StoreFailure::Store,
    }
}

/// The line that tells what is at fault. An error is want of memory.
pub(crate) fn whole_line(alloc: Global, fault: &Fault) -> Result<Vec<u8>, AllocError>
    ensures { IfOk result (λ line. line.items
        ≡ codes "store: " ++ fault_text fault.now ++ codes "\n") }
{
    let mut line = Vec::from_slice(alloc, b"store: ")?;
    let text = fault_line(alloc, fault)?;
    line.extend_from_slice(text.as_slice())?;
    line.push(b'\n')?;
    Ok(line)
}
