//! Changes of a dump on its way into a store.

ghost use Rattle.std.specs.Prelude.{◌≡◌, IfOk};
ghost use Rattle.book_desk_keeping.specs.Changes.{changed_by, changed_by_all, changed_further};
ghost use Rattle.book_desk_keeping.specs.Keeping.{IsOfInput};

use crate::failures::KeepingFault;
use book_desk_app::StoreFailure;
use book_dumps_changes::{ChangeFault, Changed, forget_removed, new_epoch, own_by, without};
use book_dumps_reading::Dumped;
use book_lists::{Name, Principal};
use book_office_values::Text;
use std::alloc::Global;

/// A change of a dump (own profile).
#[derive(Debug, Drop)]
pub enum Change {
    /// What a principal owns another one owns: each card of a book, or, where no book is given, each card and each
    /// book.
    OwnBy {
        /// Who owns it.
        from: Principal,
        /// Who owns it then.
        to: Principal,
        /// The name of the book.
        at: Option<Name>,
    },
    /// A person is gone.
    Without {
        /// The person.
        person: Principal,
        /// Who owns what they owned, if anybody does.
        heir: Option<Principal>,
    },
    /// No name is removed.
    ForgetRemoved,
    /// The epoch is 2^20 above the larger of the dump's and the one that is given.
    NewEpoch(Option<u64>),
}

/// The fault of a change of a load as what is told of it.
pub(crate) fn change_fault(fault: ChangeFault) -> KeepingFault
    ensures { IsOfInput result }
{
    match fault {
        ChangeFault::UnknownPrincipal => KeepingFault::LoadUnknownPrincipal,
        ChangeFault::LastNumber => KeepingFault::LoadLastNumber,
        ChangeFault::Memory => KeepingFault::Store(StoreFailure::Memory),
    }
}

/// What a change makes of a dump.
fn change_one(alloc: Global, change: &Change, dumped: Dumped) -> Result<Changed, ChangeFault>
    ensures { IfOk result (λ made. made ≡ changed_by change.now dumped) }
{
    match change {
        Change::OwnBy { from, to, at } => own_by(alloc, dumped, from, to, at),
        Change::Without { person, heir } => without(alloc, dumped, person, heir),
        Change::ForgetRemoved => forget_removed(alloc, dumped),
        Change::NewEpoch(above) => new_epoch(alloc, dumped, *above),
    }
}

/// What one more change makes of what others made.
fn change_further(alloc: Global, change: &Change, made: Changed) -> Result<Changed, ChangeFault>
    ensures { IfOk result (λ after. after ≡ changed_further made change.now) }
{
    let Changed { dumped, told } = made;
    let after = change_one(alloc, change, dumped)?;
    let mut lines = String::from_str(alloc, told.as_str())?;
    lines.push_str(after.told.as_str())?;
    Ok(Changed {
        dumped: after.dumped,
        told: Text::from_string(lines),
    })
}

/// What changes make of a dump, one after the other, and the lines that they tell.
pub(crate) fn change_all(
    alloc: Global,
    changes: &[Change],
    dumped: Dumped,
) -> Result<Changed, ChangeFault>
    ensures { IfOk result (λ made. made ≡ changed_by_all changes.now dumped) }
{
    let told = Text::from_string(String::new(alloc));
    let mut made = Changed { dumped, told };
    for change in changes {
        made = change_further(alloc, change, made)?;
    }
    Ok(made)
}
