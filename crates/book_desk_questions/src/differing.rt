//! What adopting a policy would change in a store, and what it would leave.

ghost use Rattle.std.specs.Prelude.{◌≡◌, ◌++◌, IsTrue};
ghost use Rattle.std.specs.Io.KnownBytes.{Appends, Keeps};
ghost use Rattle.sqlite.specs.Held.{state};
ghost use Rattle.book_desk_app.specs.Stores.{IsNotHad};
ghost use Rattle.book_desk_app.specs.Telling.{TellsLine};
ghost use Rattle.book_desk_questions.specs.Differing.{DiffersBy, DiffersIn, DiffersOver, EndsPlan, RunsDiffers, WritesPlan, differs_status};
ghost use Rattle.book_desk_questions.specs.Differing.{is_unchanged, plan_failure, unplanned_failure};
ghost use Rattle.book_tables.specs.declared.tables.Tables.{Tables};

use book_desk_app::{
    AdoptionFailure, DONE, Failure, Lines, REFUSED, StoreFailure, open_store, policy_of, tell_line,
};
use book_machine::AdoptFault;
use book_office::Keeper;
use book_policy_values::Policy;
use book_questions_plans::{PlanFault, plan};
use book_tables::Tables;
use book_tables_opening::Found;
use sqlite::{Alter, Connection};
use std::alloc::Global;
use std::io::Write;

/// Why it was not told what adopting a policy would change.
#[derive(Clone, Copy, Debug, PartialEq, Eq)]
pub enum Unplanned {
    /// The policy would not be adopted, memory was refused, or the store failed.
    Fault(PlanFault),
    /// It could not be written.
    Output,
}

/// The fault of a plan as what is told of it.
fn plan_failure(fault: PlanFault) -> Failure
    ensures { result ≡ plan_failure fault }
{
    match fault {
        PlanFault::Full => Failure::Adoption(AdoptionFailure {
            fault: AdoptFault::Full,
        }),
        PlanFault::Store(fault) => Failure::Store(StoreFailure::from(fault)),
    }
}

/// Why it was not told, as what is told of it.
fn unplanned_failure(unplanned: Unplanned) -> Failure
    ensures { result ≡ unplanned_failure unplanned }
{
    match unplanned {
        Unplanned::Fault(fault) => plan_failure(fault),
        Unplanned::Output => Failure::Output,
    }
}

/// Whether nothing would change.
fn is_unchanged(changes: &str) -> bool
    ensures { result ≡ is_unchanged changes.now }
{
    changes == "unchanged\n"
}

/// Writes two texts in turn, and tells whether both are written.
fn write_both<W: Write>(writer: &mut W, first: &str, last: &str) -> bool
    ensures { IsTrue result → Appends (W.contents writer.old) (W.contents writer.new)
        (first.now ++ last.now) }
{
    if writer.write_all(first.as_bytes()).is_err() {
        return false;
    }
    if writer.write_all(last.as_bytes()).is_err() {
        return false;
    }
    writer.flush().is_ok()
}

/// Writes what adopting a policy would leave, and what it would change, over any keeper, and tells whether it would change
/// something.
fn write_plan<K: Keeper, W: Write>(
    alloc: Global,
    keeper: &mut K,
    policy: &Policy,
    writer: &mut W,
) -> Result<bool, Unplanned>
    ensures { WritesPlan (K.standing keeper.old) (K.standing keeper.new) policy.now
        (W.contents writer.old) (W.contents writer.new) result }
{
    let told = match plan(alloc, keeper, policy) {
        Ok(told) => told,
        Err(fault) => return Err(Unplanned::Fault(fault)),
    };
    if write_both(writer, told.stays.as_str(), told.changes.as_str()) {
        Ok(!is_unchanged(told.changes.as_str()))
    } else {
        Err(Unplanned::Output)
    }
}

/// The status of the program where it is written.
fn differs_status(strict: bool, changes: bool) -> u8
    ensures { result ≡ differs_status strict changes }
{
    if strict && changes { REFUSED } else { DONE }
}

/// Writes what adopting a policy would leave and change, over any keeper, and gives the status of the program. A failure is
/// told on `errors`.
fn differs_of<K: Keeper, W: Write, E: Lines>(
    alloc: Global,
    policy: &Policy,
    strict: bool,
    keeper: &mut K,
    writer: &mut W,
    errors: &mut E,
) -> u8
    ensures { EndsPlan (TellsLine (E.is_whole errors.new) (E.Write.contents errors.old)
        (E.Write.contents errors.new)) (Keeps (E.Write.contents errors.old)
        (E.Write.contents errors.new)) policy.now strict (K.standing keeper.old)
        (W.contents writer.old) (W.contents writer.new) result (K.standing keeper.new) }
{
    match write_plan(alloc, keeper, policy, writer) {
        Ok(changes) => differs_status(strict, changes),
        Err(unplanned) => tell_line(errors, &unplanned_failure(unplanned)),
    }
}

/// Writes what adopting the policy of these bytes would leave and change over the Office of any keeper, and gives the status
/// of the program, as `run_differs` does over that of a store. A failure is told on `errors`. The Office stays.
///
/// Faults come in this order: the policy's text, the adoption.
pub fn differs_by<K: Keeper, W: Write, E: Lines>(
    alloc: Global,
    bytes: Vec<u8>,
    strict: bool,
    keeper: &mut K,
    writer: &mut W,
    errors: &mut E,
) -> u8
    ensures { DiffersBy (TellsLine (E.is_whole errors.new) (E.Write.contents errors.old)
        (E.Write.contents errors.new)) (Keeps (E.Write.contents errors.old)
        (E.Write.contents errors.new)) bytes.items strict (K.standing keeper.old)
        (W.contents writer.old) (W.contents writer.new) result (K.standing keeper.new) }
{
    match policy_of(alloc, bytes) {
        Ok(policy) => differs_of(alloc, &policy, strict, keeper, writer, errors),
        Err(failure) => tell_line(errors, &failure),
    }
}

/// The same over the tables of a store, which come back.
fn differs_over<S: Alter + Drop, W: Write, E: Lines>(
    alloc: Global,
    policy: &Policy,
    strict: bool,
    tables: Tables<S>,
    writer: &mut W,
    errors: &mut E,
) -> (u8, Tables<S>)
    ensures { DiffersOver (state S.Store) (λ t. t.connection) (λ t. t.failures)
        (TellsLine (E.is_whole errors.new) (E.Write.contents errors.old)
        (E.Write.contents errors.new)) (Keeps (E.Write.contents errors.old)
        (E.Write.contents errors.new)) policy.now strict tables (W.contents writer.old)
        (W.contents writer.new) result.0 result.1 }
{
    let mut tables = tables;
    let status = differs_of(alloc, policy, strict, &mut tables, writer, errors);
    (status, tables)
}

/// The same over a store, whose connection comes back where its tables were had.
fn differs_in<S: Alter + Drop, W: Write, E: Lines>(
    alloc: Global,
    policy: &Policy,
    strict: bool,
    store: Found<S>,
    writer: &mut W,
    errors: &mut E,
) -> (u8, Option<Connection<S>>)
    ensures { DiffersIn {K = Tables S} (state S.Store) (λ t. t.connection) (λ t. t.failures)
        (TellsLine (E.is_whole errors.new) (E.Write.contents errors.old)
        (E.Write.contents errors.new)) (Keeps (E.Write.contents errors.old)
        (E.Write.contents errors.new)) (IsNotHad S.Store) policy.now strict store
        (W.contents writer.old) (W.contents writer.new) result.0 result.1 }
{
    match open_store(alloc, store) {
        Ok(tables) => {
            let (status, tables) = differs_over(alloc, policy, strict, tables, writer, errors);
            (status, Some(tables.release()))
        }
        Err((failure, left)) => {
            drop(left);
            (tell_line(errors, &Failure::Store(failure)), None)
        }
    }
}

/// Writes what adopting the policy of these bytes would leave in a store because it does not name it, and then what it would
/// change (`plan`), and gives the status of the program: 0 where it is written, or 1 where it would change something and
/// `strict` is asked for; 1 where the policy is refused, or would not be adopted; 3 where memory was refused, or the store
/// or a write failed. A failure is told on `errors`. The Office stays. The connection comes back, but where the tables could
/// not be opened.
///
/// Faults come in this order: the policy's text, the tables, the adoption.
pub fn run_differs<S: Alter + Drop, W: Write, E: Lines>(
    alloc: Global,
    bytes: Vec<u8>,
    strict: bool,
    store: Found<S>,
    writer: &mut W,
    errors: &mut E,
) -> (u8, Option<Connection<S>>)
    ensures { RunsDiffers {K = Tables S} (state S.Store) (λ t. t.connection) (λ t. t.failures)
        (TellsLine (E.is_whole errors.new) (E.Write.contents errors.old)
        (E.Write.contents errors.new)) (Keeps (E.Write.contents errors.old)
        (E.Write.contents errors.new)) (IsNotHad S.Store) bytes.items strict store
        (W.contents writer.old) (W.contents writer.new) result.0 result.1 }
{
    match policy_of(alloc, bytes) {
        Ok(policy) => differs_in(alloc, &policy, strict, store, writer, errors),
        Err(failure) => (tell_line(errors, &failure), Some(store.into_connection())),
    }
}
