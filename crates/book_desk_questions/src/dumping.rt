//! The dump of a store.

ghost use Rattle.std.specs.Prelude.{◌≡◌};
ghost use Rattle.std.specs.Io.KnownBytes.{Keeps};
ghost use Rattle.sqlite.specs.Held.{state};
ghost use Rattle.book_desk_app.specs.Stores.{IsNotHad};
ghost use Rattle.book_desk_app.specs.Telling.{TellsLine};
ghost use Rattle.book_desk_questions.specs.Dumping.{DumpsIn, DumpsOver, EndsDump, failure_of};
ghost use Rattle.book_tables.specs.declared.tables.Tables.{Tables};

use book_desk_app::{DONE, Failure, Lines, StoreFailure, open_store, tell_line};
use book_dumps::{DumpFault, dump};
use book_office::Keeper;
use book_tables::Tables;
use book_tables_opening::Found;
use sqlite::{Alter, Connection};
use std::alloc::Global;
use std::io::Write;

/// The fault of a dump as what is told of it.
fn failure_of(fault: DumpFault) -> Failure
    ensures { result ≡ failure_of fault }
{
    match fault {
        DumpFault::Store(fault) => Failure::Store(StoreFailure::from(fault)),
        DumpFault::Write => Failure::Output,
    }
}

/// Writes the Office of any keeper as text, and gives the status of the program, as `run_dump` does with that of a store.
/// A failure is told on `errors`. The Office stays.
pub fn dump_of<K: Keeper, W: Write, E: Lines>(
    alloc: Global,
    keeper: &mut K,
    writer: &mut W,
    errors: &mut E,
) -> u8
    ensures ends { EndsDump (TellsLine (E.is_whole errors.new) (E.Write.contents errors.old)
        (E.Write.contents errors.new)) (K.standing keeper.old) (W.contents writer.old)
        (W.contents writer.new) result (K.standing keeper.new) }
    ensures silent { result ≡ 0 → Keeps (E.Write.contents errors.old)
        (E.Write.contents errors.new) }
{
    match dump(alloc, keeper, writer) {
        Ok(()) => DONE,
        Err(fault) => tell_line(errors, &failure_of(fault)),
    }
}

/// Writes the dump over the tables of a store, and gives them back.
fn dump_over<S: Alter + Drop, W: Write, E: Lines>(
    alloc: Global,
    tables: Tables<S>,
    writer: &mut W,
    errors: &mut E,
) -> (u8, Tables<S>)
    ensures ends { DumpsOver (state S.Store) (λ t. t.connection) (λ t. t.failures)
        (TellsLine (E.is_whole errors.new) (E.Write.contents errors.old)
        (E.Write.contents errors.new)) tables (W.contents writer.old)
        (W.contents writer.new) result.0 result.1 }
    ensures silent { result.0 ≡ 0 → Keeps (E.Write.contents errors.old)
        (E.Write.contents errors.new) }
{
    let mut tables = tables;
    let status = dump_of(alloc, &mut tables, writer, errors);
    (status, tables)
}

/// Writes the Office of a store as text, and gives the status of the program: 0 where it is written, 3 where memory was
/// refused, or the store or a write failed. A failure is told on `errors`; then a beginning of the text may be written,
/// which lacks the end of its last line. The Office stays. The connection comes back, but where the tables could not be
/// opened.
pub fn run_dump<S: Alter + Drop, W: Write, E: Lines>(
    alloc: Global,
    store: Found<S>,
    writer: &mut W,
    errors: &mut E,
) -> (u8, Option<Connection<S>>)
    ensures runs { DumpsIn {K = Tables S} (state S.Store) (λ t. t.connection) (λ t. t.failures)
        (TellsLine (E.is_whole errors.new) (E.Write.contents errors.old)
        (E.Write.contents errors.new)) (IsNotHad S.Store) store (W.contents writer.old)
        (W.contents writer.new) result.0 result.1 }
    ensures silent { result.0 ≡ 0 → Keeps (E.Write.contents errors.old)
        (E.Write.contents errors.new) }
{
    match open_store(alloc, store) {
        Ok(tables) => {
            let (status, tables) = dump_over(alloc, tables, writer, errors);
            (status, Some(tables.release()))
        }
        Err((failure, left)) => {
            drop(left);
            (tell_line(errors, &Failure::Store(failure)), None)
        }
    }
}
