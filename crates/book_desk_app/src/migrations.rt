//! Migrating a store, and telling it.

ghost use Rattle.std.specs.Prelude.{◌≡◌, IfErr, OnOk};
ghost use Rattle.std.specs.Io.KnownBytes.{Appends, Keeps};
ghost use Rattle.book_desk_app.specs.Migrations.{MigratesStore, migration_line};
ghost use Rattle.book_desk_app.specs.Telling.{TellsFailure};
ghost use Rattle.book_desk_app.specs.declared.failures.Failure.TheVariants.{Output};

use crate::endings::ended;
use crate::failures::Failure;
use crate::lines::Lines;
use crate::stores::store_failure;
use crate::telling::tell_line;
use book_tables_migrating::migrate;
use book_tables_schema::Unopened;
use sqlite::{Alter, Connection};
use std::alloc::Global;
use std::io::Write;

/// Writes a line: `version 2, entries N`.
fn write_entries<W: Write>(writer: &mut W, entries: u64) -> Result<(), Failure>
    ensures written { OnOk result (Appends (W.contents writer.old) (W.contents writer.new)
        (migration_line entries)) }
    ensures failed { IfErr result (λ failure. failure ≡ Output) }
{
    if writeln!(writer, "version 2, entries {entries}").is_err() || writer.flush().is_err() {
        return Err(Failure::Output);
    }
    Ok(())
}

/// Makes a store of version 1 one of version 2, writes how many entries it has, and gives the status of the program: 0
/// where both are done, 3 where the store was not migrated, or the line could not be written. A failure is told on
/// `errors`. The connection comes back; where the store could not be opened again, the store itself.
pub fn run_migration<S: Alter + Drop, W: Write, E: Lines>(
    alloc: Global,
    store: Connection<S>,
    writer: &mut W,
    errors: &mut E,
) -> (u8, Unopened<S>)
    ensures runs { MigratesStore S.Store
        (TellsFailure (E.is_whole errors.new) (E.Write.contents errors.old)
        (E.Write.contents errors.new)) store (W.contents writer.old)
        (W.contents writer.new) result.0 result.1 }
    ensures silent { result.0 ≡ 0 → Keeps (E.Write.contents errors.old)
        (E.Write.contents errors.new) }
{
    match migrate(alloc, store) {
        Ok((tables, entries)) => {
            let outcome = write_entries(writer, entries);
            let status = ended(errors, outcome);
            (status, Unopened::Connection(tables.release()))
        }
        Err((fault, left)) => {
            let status = tell_line(errors, &Failure::Store(store_failure(fault)));
            (status, left)
        }
    }
}
