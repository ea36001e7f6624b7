//! Resources of a backup are put into a store.

ghost use Rattle.std.specs.Prelude.{◌≡◌, ◌++◌, ◌<◌, ◌≤◌, true, IfErr, IfOk, OnOk, string_bytes};
ghost use Rattle.book_limits.specs.declared.TheConstants.{LAST_NUMBER};
ghost use Rattle.book_dumps_restoring.specs.Restoring.{epoch_after, restored, told_epoch, IsRefused, MayRestore};

use crate::comparing::any_differs;
use crate::faults::RestoreFault;
use crate::knowing::{check_known, check_parents};
use crate::naming::check_found;
use crate::putting::{push_number, put_wanted};
use crate::room::check_room;
use crate::standing::placed;
use book_dumps_changes::Changed;
use book_dumps_reading::Dumped;
use book_limits::LAST_NUMBER;
use book_office_values::{Path, Text};
use std::alloc::{AllocError, Global};

/// The epoch afterwards: one more where it rises.
fn epoch_after(rises: bool, epoch: u64) -> Result<u64, RestoreFault>
    ensures ok { IfOk result (λ after. after ≡ epoch_after rises epoch) }
    ensures below { OnOk result (rises ≡ true → epoch < LAST_NUMBER) }
    ensures last { IfErr result (λ fault. (fault ≡ RestoreFault.LastNumber)
        × (rises ≡ true) × (LAST_NUMBER ≤ epoch)) }
{
    if !rises {
        return Ok(epoch);
    }
    if epoch >= LAST_NUMBER {
        return Err(RestoreFault::LastNumber);
    }
    Ok(epoch + 1)
}

/// Tells the epoch, where it rises: `epoch OLD -> NEW`. An error is want of memory.
fn tell_epoch(
    alloc: Global,
    told: &mut String,
    rises: bool,
    epoch: u64,
    after: u64,
) -> Result<(), AllocError>
    requires { after ≡ epoch_after rises epoch }
    ensures { OnOk result (string_bytes told.new ≡
        string_bytes told.old ++ told_epoch rises epoch) }
{
    if !rises {
        return Ok(());
    }
    told.push_str("epoch ")?;
    push_number(alloc, told, epoch)?;
    told.push_str(" -> ")?;
    push_number(alloc, told, after)?;
    told.push_str("\n")
}

/// Puts cards and books of a backup into a store. Each path names a card, or a book with its cards; what is named twice
/// counts once. A card gets the next number of its book in the store, and its name is no removed one then; its text,
/// label, owner and own list are the backup's. A book that the store has gets the label, owner and own list of the
/// backup; one that it lacks its protected list too, and its number is that of its last card. All else stays: also the
/// cards that a book has in the store alone. The epoch is one more where the owner or the own list of a resource
/// becomes another one, where a book is new, and where a new card has a list of its own. The lines that are told: `card
/// PATH number N` and `book PATH`, in the order of the backup, which is the byte order of the paths; then `epoch OLD ->
/// NEW`, where it rose.
///
/// The steps grow as the number of lines of the store and of the backup times its logarithm, and as the number of paths
/// times the number of lines.
///
/// # Errors
///
/// In this order: `NotFound` where a path is neither a card nor a book of the backup; `NoParent` where the book of a
/// card is neither in the store nor named; `UnknownPrincipal` where an owner, or a principal of a list that is
/// restored, has no line in the store; `Full` where there would be too many books, too many cards in a book, or a
/// number above the last; `LastNumber` where the epoch was the last. `Memory` where memory was refused, in place of any
/// other answer.
pub fn restore(
    alloc: Global,
    store: Dumped,
    backup: &Dumped,
    paths: &[Path],
) -> Result<Changed, RestoreFault>
    ensures ok { IfOk result (λ changed. changed ≡ restored store backup.now paths.now) }
    ensures may { OnOk result (MayRestore store backup.now paths.now) }
    ensures within { IfOk result (λ changed. store.epoch ≤ LAST_NUMBER
        → changed.dumped.epoch ≤ LAST_NUMBER) }
    ensures refused { IfErr result (IsRefused store backup.now paths.now) }
{
    let wanted = backup.lines.as_slice();
    check_found(wanted, paths)?;
    let Dumped { epoch, lines } = store;
    let mut standing = placed(alloc, lines)?;
    check_parents(alloc, &standing, paths)?;
    check_known(alloc, &standing, wanted, paths)?;
    let rises = any_differs(alloc, &standing, wanted, paths)?;
    let mut told = String::new(alloc);
    put_wanted(alloc, &mut standing, &mut told, wanted, paths)?;
    let lines = standing.into_values(alloc)?;
    check_room(lines.as_slice(), paths)?;
    let after = epoch_after(rises, epoch)?;
    tell_epoch(alloc, &mut told, rises, epoch, after)?;
    Ok(Changed {
        dumped: Dumped {
            epoch: after,
            lines,
        },
        told: Text::from_string(told),
    })
}
