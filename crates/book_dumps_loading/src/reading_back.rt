//! The dump of an Office, as a text that is given or compared.

ghost use Rattle.std.specs.Prelude.{◌≡◌, ◌↔◌, IsTrue};
ghost use Rattle.book_dumps.specs.Dumps.{dump_text};
ghost use Rattle.book_office.specs.Keeping.{Reads};

use crate::comparing::Comparing;
use book_dumps::{DumpFault, dump};
use book_office::{Keeper, StoreFault};
use std::alloc::Global;

/// The dump of the Office of a keeper, whole. The Office is as it was. `Memory` is want of memory, `Store` any other failure
/// of the keeper's store.
pub fn office_text<K: Keeper>(alloc: Global, keeper: &mut K) -> Result<Vec<u8>, StoreFault>
    ensures { Reads (K.standing keeper.old) (K.standing keeper.new) result
        (λ o text. text.items ≡ dump_text o) }
{
    let mut text = Vec::new(alloc);
    match dump(alloc, keeper, &mut text) {
        Ok(()) => Ok(text),
        Err(DumpFault::Store(fault)) => Err(fault),
        Err(DumpFault::Write) => Err(StoreFault::Memory),
    }
}

/// Whether a text is exactly the dump of the Office of a keeper. The dump is compared as it is written, up to the first
/// write that differs, so that it is not held whole. The Office is as it was. `Memory` is want of memory, `Store` any other
/// failure of the keeper's store.
pub fn is_dump<K: Keeper>(alloc: Global, keeper: &mut K, text: &[u8]) -> Result<bool, StoreFault>
    ensures { Reads (K.standing keeper.old) (K.standing keeper.new) result
        (λ o is. IsTrue is ↔ (dump_text o ≡ text.now)) }
{
    let mut comparing = Comparing::new(alloc, text);
    let dumped = dump(alloc, keeper, &mut comparing);
    let left = comparing.left_of(text);
    match dumped {
        Ok(()) => match left {
            Some(left) => Ok(left.is_empty()),
            None => Ok(false),
        },
        Err(DumpFault::Store(fault)) => Err(fault),
        Err(DumpFault::Write) => match left {
            Some(_) => Err(StoreFault::Memory),
            None => Ok(false),
        },
    }
}
