//! The entries that may apply to a caller, for decisions on many resources below the same levels.

ghost use Rattle.std.specs.Prelude.{◌≡◌, ◌++◌, false, OnOk};
ghost use Rattle.book_lists.specs.Entries.{applies};
ghost use Rattle.book_lists.specs.declared.entries.Here.{Here as HereModel};
ghost use Rattle.book_office_sync.specs.Sifting as sifting;
ghost use Rattle.book_office_sync.specs.Sifting.{AppliesAs};

use book_lists::{Circle, Entry, Here, Who, applies};
use book_office::Items;
use std::alloc::AllocError;

/// Whether an entry may apply to the caller at some resource: where its form does not ask of the resource, it is read
/// at any. Takes no memory.
pub fn may_apply(entry: &Entry, circle: &Circle) -> bool
    ensures told { result ≡ sifting.may_apply entry.now circle.now }
    ensures nowhere { result ≡ false → (here : HereModel)
        → applies entry.now circle.now here ≡ false }
{
    let anywhere = Here {
        owner: None,
        principal: None,
    };
    match &entry.who {
        Who::Owner | Who::Own => true,
        Who::Href(_) | Who::Everyone | Who::Authenticated | Who::Unauthenticated => applies(
            entry, circle, &anywhere,
        ),
    }
}

/// Adds the entries of a list that may apply to the caller. None is copied.
pub(crate) fn keep(
    kept: &mut Vec<Entry>,
    list: Items<Entry>,
    circle: &Circle,
) -> Result<(), AllocError>
    ensures { OnOk result (AppliesAs circle.now (kept.old.items ++ list) kept.new.items) }
{
    for entry in list.into_vec() {
        if may_apply(&entry, circle) {
            kept.push(entry)?;
        }
    }
    Ok(())
}
