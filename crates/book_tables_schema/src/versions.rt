//! Which version a store says that it is of.

ghost use Rattle.std.specs.Prelude.{◌≡◌, ◌⊎◌, IfOk, IfErr, []};
ghost use Rattle.sqlite.specs.Held.{state};
ghost use Rattle.sqlite.specs.State.{HasCleanDisk, Survives, Shown, FailsToQuery, IsTooLate};
ghost use Rattle.book_tables_rows.specs.Steps.{Keeps};
ghost use Rattle.book_tables_schema.specs.Versions as versions;
ghost use Rattle.book_tables_schema.specs.Versions.{SaysOther, read_version};

use sqlite::types::ValueRef;
use sqlite::{Alter, Error, Row, Transaction};

fn is_version(row: &Row, version: u32) -> bool
    ensures { result ≡ versions.is_version version (versions.told_version row.now) }
{
    matches!(row.get_ref(0), Ok(ValueRef::Int(told)) if told == i64::from(version))
}

/// Whether there is one row, whose version is not this one.
fn is_other(rows: &[Row], version: u32) -> bool
    ensures { result ≡ versions.is_other version rows.now }
{
    match rows {
        [row] => !is_version(row, version),
        _ => false,
    }
}

fn version_rows<S: Alter>(transaction: &mut Transaction<'_, S>) -> Result<Vec<Row>, Error>
    ensures same_reference { transaction.new.conn.ghost_name ≡ transaction.old.conn.ghost_name }
    ensures survives { Survives (state S.Store transaction.old.conn.now)
        (state S.Store transaction.new.conn.now) (λ _. ⊥) }
    ensures kept { Keeps (state S.Store transaction.old.conn.now)
        (state S.Store transaction.new.conn.now) }
    ensures shown { HasCleanDisk (state S.Store transaction.new.conn.now)
        → IfOk result (λ rows. Shown read_version [] (state S.Store transaction.old.conn.now)
        (state S.Store transaction.new.conn.now) rows.items) }
    ensures refused { HasCleanDisk (state S.Store transaction.new.conn.now)
        → IfErr result (λ e. FailsToQuery read_version [] (state S.Store transaction.old.conn.now)
        (state S.Store transaction.new.conn.now) e
        ⊎ IsTooLate read_version [] (state S.Store transaction.old.conn.now)
        (state S.Store transaction.new.conn.now) e) }
{
    transaction.query_all("SELECT version FROM meta", &[])
}

/// Whether the table `meta` has one row, whose version is not this one, whatever the schema is: what `SELECT version FROM meta`
/// shows decides. Where SQL does not understand that under the schema, no version is said.
pub fn says_other_version<S: Alter>(
    transaction: &mut Transaction<'_, S>,
    version: u32,
) -> Result<bool, Error>
    ensures same_reference { transaction.new.conn.ghost_name ≡ transaction.old.conn.ghost_name }
    ensures survives { Survives (state S.Store transaction.old.conn.now)
        (state S.Store transaction.new.conn.now) (λ _. ⊥) }
    ensures kept { Keeps (state S.Store transaction.old.conn.now)
        (state S.Store transaction.new.conn.now) }
    ensures told { HasCleanDisk (state S.Store transaction.new.conn.now)
        → IfOk result (λ other. SaysOther version (state S.Store transaction.old.conn.now)
        (state S.Store transaction.new.conn.now) other) }
{
    match version_rows(transaction) {
        Ok(rows) => Ok(is_other(&rows, version)),
        Err(Error::SqlInputError(_)) => Ok(false),
        Err(error) => Err(error),
    }
}
