//! The principals to which a caller belongs, by the rows of `reach`.

ghost use Rattle.std.specs.Prelude.{◌≡◌, ◌≢◌, ◌++◌, ℕ, List, codes, IfOk, IfSome, IfNone, OnOk, false};
ghost use Rattle.sqlite.specs.declared.types.Value.TheVariants.{Text};
ghost use Rattle.sqlite.specs.Held.{state};
ghost use Rattle.sqlite.specs.State.{HasCleanDisk, Survives};
ghost use Rattle.book_lists.specs.Principals.{IsGroup};
ghost use Rattle.book_lists.specs.declared.circles.Caller.TheVariants.{Known};
ghost use Rattle.book_tables_rows.specs.Steps.{Keeps, Spares, Stays};
ghost use Rattle.book_tables.specs.Reach.{AddsTold, AreGroupsTold, ShowsCircle, reached_group, tells_group};

use book_lists::{Caller, Circle, Name, Principal};
use book_office::StoreFault;
use book_tables_rows::reached_rows;
use sqlite::{Alter, Connection, Error, ErrorCode, Row, Transaction};
use std::alloc::Global;

/// What follows the home of the groups, if the text begins with it.
fn after_groups(text: &str) -> Option<&str>
    ensures some { IfSome result (λ rest. text.now ≡ codes "/groups/" ++ rest.now) }
    ensures none { IfNone result ((rest : List ℕ) → text.now ≢ codes "/groups/" ++ rest) }
{
    text.strip_prefix("/groups/")
}

/// The group that a text is the path of, if it is one's.
fn group_at(alloc: Global, path: &str) -> Result<Option<Principal>, Error>
    ensures found { IfOk result (λ group. IfSome group (λ q. IsGroup q × (path.now ≡ q))) }
    ensures none { IfOk result (λ group. IfNone group (IsGroup path.now → ⊥)) }
{
    let Some(rest) = after_groups(path) else {
        return Ok(None);
    };
    let Some(name) = Name::parse(alloc, rest)? else {
        return Ok(None);
    };
    Ok(Some(Principal::group(alloc, &name)?))
}

/// The group that a row tells; none where it tells the path of no group.
fn group_of(alloc: Global, row: &Row) -> Result<Option<Principal>, Error>
    ensures found { IfOk result (λ group. IfSome group
        (λ q. IsGroup q × (reached_group row.now ≡ Text q))) }
    ensures none { IfOk result (λ group. IfNone group
        ((q : List ℕ) → IsGroup q → tells_group q row.now ≡ false)) }
{
    let path: String = row.get(0)?;
    group_at(alloc, path.as_str())
}

/// Adds the group that a row tells, if it tells one.
fn push_group(alloc: Global, groups: &mut Vec<Principal>, row: &Row) -> Result<(), Error>
    ensures { OnOk result (AddsTold row.now groups.old.items groups.new.items) }
{
    match group_of(alloc, row)? {
        Some(group) => {
            groups.push(group)?;
            Ok(())
        }
        None => Ok(()),
    }
}

/// The groups that rows tell; a row with the path of no group is passed over.
fn groups_of(alloc: Global, rows: &[Row]) -> Result<Vec<Principal>, Error>
    ensures { IfOk result (λ groups. AreGroupsTold rows.now groups.items) }
{
    let mut groups = Vec::new(alloc);
    'rows: for row in rows {
        push_group(alloc, &mut groups, row)?;
    }
    Ok(groups)
}

/// The circle of a person: the person and the groups that rows of `reach` pair with it.
fn circle_of<S: Alter>(
    alloc: Global,
    transaction: &mut Transaction<'_, S>,
    caller: &Caller,
    person: &Principal,
) -> Result<Circle, Error>
    requires { caller.now ≡ Known person.now }
    ensures same_reference { transaction.new.conn.ghost_name ≡ transaction.old.conn.ghost_name }
    ensures survives { Survives (state S.Store transaction.old.conn.now)
        (state S.Store transaction.new.conn.now) (λ _. ⊥) }
    ensures kept { Keeps (state S.Store transaction.old.conn.now)
        (state S.Store transaction.new.conn.now) }
    ensures stays { Spares (state S.Store transaction.old.conn.now)
        (state S.Store transaction.new.conn.now) result }
    ensures shown { HasCleanDisk (state S.Store transaction.new.conn.now)
        → IfOk result (λ circle. ShowsCircle (state S.Store transaction.old.conn.now) caller.now circle) }
{
    let rows = reached_rows(transaction, person.text())?;
    let groups = groups_of(alloc, &rows)?;
    Ok(Circle::of(alloc, caller, groups)?)
}

/// The circle of a caller.
pub(crate) fn shown_circle<S: Alter>(
    alloc: Global,
    transaction: &mut Transaction<'_, S>,
    caller: &Caller,
) -> Result<Circle, Error>
    ensures same_reference { transaction.new.conn.ghost_name ≡ transaction.old.conn.ghost_name }
    ensures survives { Survives (state S.Store transaction.old.conn.now)
        (state S.Store transaction.new.conn.now) (λ _. ⊥) }
    ensures kept { Keeps (state S.Store transaction.old.conn.now)
        (state S.Store transaction.new.conn.now) }
    ensures stays { Spares (state S.Store transaction.old.conn.now)
        (state S.Store transaction.new.conn.now) result }
    ensures shown { HasCleanDisk (state S.Store transaction.new.conn.now)
        → IfOk result (λ circle. ShowsCircle (state S.Store transaction.old.conn.now) caller.now circle) }
{
    match caller {
        Caller::Nobody => Ok(Circle::of(alloc, caller, Vec::new(alloc))?),
        Caller::Known(person) => circle_of(alloc, transaction, caller, person),
    }
}

/// Tells want of memory from any other failure.
fn store_fault_of(error: Error) -> StoreFault {
    match error {
        Error::SqliteFailure(ErrorCode::OutOfMemory) => StoreFault::Memory,
        _ => StoreFault::Store,
    }
}

/// The principals to which a caller belongs: itself and the groups that the rows of `reach` pair with it, whatever
/// these rows are; nothing for nobody. One look-up by member; a row with the path of no group is passed over.
///
/// # Errors
///
/// `Memory` is want of memory, `Store` any other failure of the store, and that the connection is in a transaction.
pub fn reached<S: Alter>(
    alloc: Global,
    connection: &mut Connection<S>,
    caller: &Caller,
) -> Result<Circle, StoreFault>
    ensures stays { HasCleanDisk (state S.Store connection.new)
        → Stays (state S.Store connection.old) (state S.Store connection.new) }
    ensures survives { Survives (state S.Store connection.old)
        (state S.Store connection.new) (λ _. ⊥) }
    ensures shown { HasCleanDisk (state S.Store connection.new)
        → IfOk result (λ circle. ShowsCircle (state S.Store connection.old) caller.now circle) }
{
    if !connection.is_autocommit() {
        return Err(StoreFault::Store);
    }
    let mut transaction = connection.transaction();
    match shown_circle(alloc, &mut transaction, caller) {
        Ok(circle) => Ok(circle),
        Err(error) => Err(store_fault_of(error)),
    }
}
