//! Adopting a policy: what differs is written, in one transaction.

ghost use Rattle.std.specs.Prelude.{◌≡◌, false, map, true, IfOk, IsTrue, MatchOption, OnOk};
ghost use Rattle.book_office_adopting.specs.Adopting.{adoption_of as adoption_told, taken_over};
ghost use Rattle.book_office_adopting.specs.TakingOver.{bare};
ghost use Rattle.sqlite.specs.Held.{state};
ghost use Rattle.sqlite.specs.State.{HasCleanDisk, Survives};
ghost use Rattle.book_office.specs.Keeping.{failures_after};
ghost use Rattle.book_office.specs.declared.edits.Edit.TheVariants.{Adopt};
ghost use Rattle.book_tables_rows.specs.Adopting.{adopting, joined, listed_row, placed_row};
ghost use Rattle.book_tables_rows.specs.Reach.{pair_said};
ghost use Rattle.book_tables_rows.specs.Plans.{Makes};
ghost use Rattle.book_tables_rows.specs.Steps.{Keeps, Looks};
ghost use Rattle.book_tables.specs.Adopting.{AreDifferences};
ghost use Rattle.book_tables.specs.Inside.{EditsInside, inside_of};
ghost use Rattle.book_tables.specs.Reach.{Renews};

use crate::bare_office::bare_office;
use crate::differences::{Differences, compare_offices};
use crate::faults::fault_of;
use book_office::StoreFault;
use book_office_adopting::{adoption_of, office_under};
use book_office_values::Office;
use book_policy_values::Policy;
use book_tables_rows::{adopt_rows, read_epoch};
use sqlite::{Alter, Transaction};
use std::alloc::{AllocError, Global};

/// What differs between an Office without cards and changes and what it becomes under a policy; none where the Office
/// stays as it is.
fn differences_under(
    alloc: Global,
    policy: &Policy,
    office: &Office,
) -> Result<Option<Differences>, AllocError>
    ensures { IfOk result (λ d. MatchOption d
        ((adoption_told policy.now office.now).changed ≡ false)
        (λ d. ((adoption_told policy.now office.now).changed ≡ true)
        × AreDifferences office.now (bare (taken_over policy.now office.now))
        (map placed_row d.places.items) (map listed_row d.lists.items) (map joined d.groups.items)
        × Renews office.now.pairs (bare (taken_over policy.now office.now)).pairs
        (map pair_said d.renewal.gone.items) (map pair_said d.renewal.come.items))) }
{
    if !adoption_of(alloc, office, policy)?.changed {
        return Ok(None);
    }
    let new = office_under(alloc, policy, office)?;
    let told = compare_offices(alloc, office, &new);
    drop(new);
    Ok(Some(told?))
}

/// Writes nothing, and looks at the epoch alone: then the connection is open.
fn stay<S: Alter>(
    transaction: &mut Transaction<'_, S>,
    failures: &mut u64,
) -> Result<(), StoreFault>
    ensures same_reference { transaction.new.conn.ghost_name ≡ transaction.old.conn.ghost_name }
    ensures survives { Survives (state S.Store transaction.old.conn.now)
        (state S.Store transaction.new.conn.now) (λ _. ⊥) }
    ensures kept { Keeps (state S.Store transaction.old.conn.now)
        (state S.Store transaction.new.conn.now) }
    ensures rested { HasCleanDisk (state S.Store transaction.new.conn.now)
        → OnOk result (IsTrue (state S.Store transaction.old.conn.now).is_open
        × Looks (state S.Store transaction.old.conn.now)
        (state S.Store transaction.new.conn.now)) }
    ensures counted { failures.new ≡ failures_after result failures.old }
{
    match read_epoch(transaction) {
        Ok(_) => Ok(()),
        Err(error) => Err(fault_of(error, failures)),
    }
}

/// Writes what differs; the epoch rises.
fn write<S: Alter>(
    transaction: &mut Transaction<'_, S>,
    failures: &mut u64,
    written: &Differences,
) -> Result<(), StoreFault>
    ensures same_reference { transaction.new.conn.ghost_name ≡ transaction.old.conn.ghost_name }
    ensures survives { Survives (state S.Store transaction.old.conn.now)
        (state S.Store transaction.new.conn.now) (λ _. ⊥) }
    ensures kept { Keeps (state S.Store transaction.old.conn.now)
        (state S.Store transaction.new.conn.now) }
    ensures done { HasCleanDisk (state S.Store transaction.new.conn.now)
        → IsTrue (state S.Store transaction.old.conn.now).in_transaction
        → OnOk result (Makes (state S.Store transaction.old.conn.now)
        (state S.Store transaction.new.conn.now)
        (adopting (map placed_row written.now.places.items)
        (map listed_row written.now.lists.items) (map joined written.now.groups.items)
        (map pair_said written.now.renewal.gone.items)
        (map pair_said written.now.renewal.come.items))) }
    ensures counted { failures.new ≡ failures_after result failures.old }
{
    match adopt_rows(
        transaction,
        written.places.as_slice(),
        written.lists.as_slice(),
        written.groups.as_slice(),
        written.renewal.gone.as_slice(),
        written.renewal.come.as_slice(),
    ) {
        Ok(()) => Ok(()),
        Err(error) => Err(fault_of(error, failures)),
    }
}

/// Adopting a policy (own profile): what it names is added, and labels, owners of books, members and lists become
/// the policy's, and `reach` is renewed. What differs is told by the rows without those of cards, and nothing else
/// is written; where nothing differs the epoch stays. `Memory` is want of memory, `Store` any other failure.
pub(crate) fn adopt<S: Alter>(
    alloc: Global,
    transaction: &mut Transaction<'_, S>,
    failures: &mut u64,
    policy: &Policy,
) -> Result<(), StoreFault>
    ensures same_reference { transaction.new.conn.ghost_name ≡ transaction.old.conn.ghost_name }
    ensures edits { EditsInside (inside_of (state S.Store transaction.old.conn.now) failures.old)
        (inside_of (state S.Store transaction.new.conn.now) failures.new) result
        (Adopt policy.now) }
{
    let office = bare_office(alloc, transaction, failures)?;
    let told = differences_under(alloc, policy, &office);
    drop(office);
    match told? {
        Some(written) => write(transaction, failures, &written),
        None => stay(transaction, failures),
    }
}
