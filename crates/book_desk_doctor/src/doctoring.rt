//! Whether a store is sound.

ghost use Rattle.std.specs.Prelude.{◌≡◌, IfErr, OnOk};
ghost use Rattle.std.specs.Io.KnownBytes.{Keeps};
ghost use Rattle.sqlite.specs.Held.{state};
ghost use Rattle.book_tables.specs.declared.tables.Tables.{Tables};
ghost use Rattle.book_dumps_loading.specs.Loading.{Rests};
ghost use Rattle.book_desk_app.specs.Failures.{failure_status};
ghost use Rattle.book_desk_app.specs.Telling.{TellsLine};
ghost use Rattle.book_desk_doctor.specs.Doctoring.{Doctors, EndsCounts, EndsFinding, EndsRefusal, TellsFound, WritesCounts, connection_in};

use crate::failures::{error_failure, load_failure, refusal, whole_line};
use book_desk_app::{BROKEN, DONE, Failure, Lines, StoreFailure, tell_line};
use book_dumps_counts::counts_text;
use book_dumps_loading::dumped_of;
use book_office::Keeper;
use book_tables::{OpenFault, Tables};
use book_tables_findings::{Fault, examine};
use book_tables_opening::open;
use book_tables_schema::Unopened;
use sqlite::{Alter, Connection};
use std::alloc::Global;
use std::io::Write;

/// Writes what is counted of a keeper's Office.
fn write_counts<K: Keeper, W: Write>(
    alloc: Global,
    keeper: &mut K,
    writer: &mut W,
) -> Result<(), Failure>
    ensures rests { Rests (K.standing keeper.old) (K.standing keeper.new) }
    ensures written { OnOk result (WritesCounts (K.standing keeper.old) (K.standing keeper.new)
        (W.contents writer.old) (W.contents writer.new)) }
    ensures failed { IfErr result (λ failure. failure_status failure ≡ 3) }
{
    let dumped = match dumped_of(alloc, keeper) {
        Ok(dumped) => dumped,
        Err(fault) => return Err(Failure::Store(load_failure(fault))),
    };
    let Ok(text) = counts_text(alloc, &dumped) else {
        return Err(Failure::Store(StoreFailure::Memory));
    };
    if writer.write_all(text.as_slice()).is_err() || writer.flush().is_err() {
        return Err(Failure::Output);
    }
    Ok(())
}

/// Writes what is counted of a keeper's Office, and gives the status of the program. A failure is told on `errors`.
fn count<K: Keeper, W: Write, E: Lines>(
    alloc: Global,
    keeper: &mut K,
    writer: &mut W,
    errors: &mut E,
) -> u8
    ensures rests { Rests (K.standing keeper.old) (K.standing keeper.new) }
    ensures ends { EndsCounts (TellsLine (E.is_whole errors.new) (E.Write.contents errors.old)
        (E.Write.contents errors.new)) (K.standing keeper.old) (K.standing keeper.new)
        (W.contents writer.old) (W.contents writer.new) result }
    ensures silent { result ≡ 0 → Keeps (E.Write.contents errors.old)
        (E.Write.contents errors.new) }
{
    match write_counts(alloc, keeper, writer) {
        Ok(()) => DONE,
        Err(failure) => tell_line(errors, &failure),
    }
}

/// Tells what was found. Where nothing was, the store was read in two ways, and is told to be none.
fn tell_found<E: Lines>(alloc: Global, found: Option<Fault>, errors: &mut E) -> u8
    ensures status { result ≡ 3 }
    ensures told { TellsFound (TellsLine (E.is_whole errors.new)
        (E.Write.contents errors.old) (E.Write.contents errors.new)) found }
{
    let Some(fault) = found else {
        return tell_line(errors, &Failure::Store(StoreFailure::NoStore));
    };
    let Ok(line) = whole_line(alloc, &fault) else {
        return tell_line(errors, &Failure::Store(StoreFailure::Memory));
    };
    errors.put(line.as_slice());
    BROKEN
}

/// Tells what is at fault in the store of a connection.
fn tell_fault<S: Alter + Drop, E: Lines>(
    alloc: Global,
    left: Connection<S>,
    errors: &mut E,
) -> (u8, Option<Connection<S>>)
    ensures status { result.0 ≡ 3 }
    ensures ends { EndsFinding (state S.Store) (TellsLine (E.is_whole errors.new)
        (E.Write.contents errors.old) (E.Write.contents errors.new)) left result.1 }
{
    let (found, reader) = match examine(alloc, left) {
        Ok(examined) => examined,
        Err(error) => {
            let failure = error_failure(error);
            return (tell_line(errors, &Failure::Store(failure)), None);
        }
    };
    (tell_found(alloc, found, errors), Some(reader))
}

/// The connection, if it came back.
fn connection_in<S: Alter + Drop>(left: Unopened<S>) -> Option<Connection<S>>
    ensures { result ≡ connection_in left }
{
    match left {
        Unopened::Connection(connection) => Some(connection),
        Unopened::Store(_) => None,
    }
}

/// Tells why a store was refused: what is at fault in it, where its rows are those of no Office.
fn refuse<S: Alter + Drop, E: Lines>(
    alloc: Global,
    fault: OpenFault,
    left: Unopened<S>,
    errors: &mut E,
) -> (u8, Option<Connection<S>>)
    ensures status { result.0 ≡ 3 }
    ensures ends { EndsRefusal (state S.Store) (TellsLine (E.is_whole errors.new)
        (E.Write.contents errors.old) (E.Write.contents errors.new)) fault left result.1 }
{
    match (fault, left) {
        (OpenFault::NoStore, Unopened::Connection(connection)) => {
            tell_fault(alloc, connection, errors)
        }
        (fault, left) => (
            tell_line(errors, &Failure::Store(refusal(fault))),
            connection_in(left),
        ),
    }
}

/// Tells whether a store is sound, and gives the status of the program: 0 where it is, and what is counted of its
/// Office was written; 3 where it is not, which was told with the first row that breaks a rule, or where memory was
/// refused, or the store or a write failed. Each is told on `errors`. The Office stays. The connection comes back; where
/// a failure of the store or want of memory was told, it may not.
pub fn run_doctor<S: Alter + Drop, W: Write, E: Lines>(
    alloc: Global,
    store: Connection<S>,
    writer: &mut W,
    errors: &mut E,
) -> (u8, Option<Connection<S>>)
    ensures runs { Doctors {K = Tables S} (state S.Store) (λ t. t.connection) (λ t. t.failures)
        (TellsLine (E.is_whole errors.new) (E.Write.contents errors.old)
        (E.Write.contents errors.new)) store (W.contents writer.old) (W.contents writer.new)
        result.0 result.1 }
    ensures silent { result.0 ≡ 0 → Keeps (E.Write.contents errors.old)
        (E.Write.contents errors.new) }
{
    match open(alloc, store) {
        Ok(tables) => {
            let mut tables = tables;
            let status = count(alloc, &mut tables, writer, errors);
            (status, Some(tables.release()))
        }
        Err((fault, left)) => refuse(alloc, fault, left, errors),
    }
}
