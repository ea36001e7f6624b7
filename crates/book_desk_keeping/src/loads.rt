//! A store is made of the text of a dump.

ghost use Rattle.std.specs.Prelude.{◌≡◌, IfErr, IfOk, OnOk, Some};
ghost use Rattle.std.specs.Io.KnownBytes.{Appends, Keeps};
ghost use Rattle.sqlite.specs.Held.{state};
ghost use Rattle.sqlite.specs.State.{HasCleanDisk};
ghost use Rattle.book_desk_app.specs.Telling.{TellsLine};
ghost use Rattle.book_desk_keeping.specs.Changes.{changed_by_all};
ghost use Rattle.book_desk_keeping.specs.Keeping.{EndsLoad, IsOfInput, LeavesNew, Loads, connection_in};
ghost use Rattle.book_desk_keeping.specs.declared.failures.KeepingFault.TheVariants.{Output};
ghost use Rattle.book_dumps_loading.specs.Loading.{StandsForText};
ghost use Rattle.book_dumps_reading.specs.Dumped.{dumped_text};
ghost use Rattle.book_tables_schema.specs.Founding.{no_schema};

use crate::changes::{Change, change_all, change_fault};
use crate::failures::{KeepingFault, load_fault, tell_fault};
use book_desk_app::{DONE, Lines, StoreFailure};
use book_dumps_changes::Changed;
use book_dumps_loading::load;
use book_dumps_reading::{Dumped, ReadFault, read_dump};
use book_tables_schema::Unopened;
use sqlite::{Alter, Connection};
use std::alloc::Global;
use std::io::Write;

/// The connection, where it came back.
pub(crate) fn connection_in<S: Alter + Drop>(left: Unopened<S>) -> Option<Connection<S>>
    ensures { result ≡ connection_in left }
{
    match left {
        Unopened::Connection(connection) => Some(connection),
        Unopened::Store(store) => {
            drop(store);
            None
        }
    }
}

/// What a text tells that is a dump; the text is let go.
fn dumped_in(alloc: Global, text: Vec<u8>) -> Result<Dumped, KeepingFault>
    ensures told { IfOk result (λ d. dumped_text d ≡ text.items) }
    ensures cause { IfErr result IsOfInput }
{
    match read_dump(alloc, text.as_slice()) {
        Ok(dumped) => Ok(dumped),
        Err(ReadFault::Memory) => Err(KeepingFault::Store(StoreFailure::Memory)),
        Err(ReadFault::Line(fault)) => Err(KeepingFault::Line(fault)),
    }
}

/// What changes make of what a text tells that is a dump.
fn changed_in(alloc: Global, text: Vec<u8>, changes: &[Change]) -> Result<Changed, KeepingFault>
    ensures told { IfOk result (λ made. (d : Dumped) × (dumped_text d ≡ text.items)
        × (made ≡ changed_by_all changes.now d)) }
    ensures cause { IfErr result IsOfInput }
{
    let dumped = dumped_in(alloc, text)?;
    match change_all(alloc, changes, dumped) {
        Ok(made) => Ok(made),
        Err(fault) => Err(change_fault(fault)),
    }
}

/// The store that was made of what a dump tells, or why it was not, and what is left of it.
fn made_of<S: Alter + Drop>(
    alloc: Global,
    dumped: &Dumped,
    fresh: Connection<S>,
) -> Result<Connection<S>, (KeepingFault, Option<Connection<S>>)>
    ensures made { IfOk result (λ c. HasCleanDisk (state S.Store c)
        → StandsForText (state S.Store c) (dumped_text dumped.now)) }
    ensures empty { OnOk result ((state S.Store fresh).now.schema ≡ no_schema) }
    ensures left { IfErr result (λ e. LeavesNew (state S.Store) fresh e.0 e.1) }
{
    match load(alloc, fresh, dumped) {
        Ok(tables) => Ok(tables.release()),
        Err((fault, left)) => Err((load_fault(fault), connection_in(left))),
    }
}

/// Writes a text whole.
fn put<W: Write>(writer: &mut W, text: &str) -> Result<(), KeepingFault>
    ensures written { OnOk result (Appends (W.contents writer.old) (W.contents writer.new)
        text.now) }
    ensures failed { IfErr result (λ fault. fault ≡ Output) }
{
    if writer.write_all(text.as_bytes()).is_err() || writer.flush().is_err() {
        return Err(KeepingFault::Output);
    }
    Ok(())
}

/// Makes a store of what changes made of a dump, and writes what they tell.
pub(crate) fn make<S: Alter + Drop, W: Write>(
    alloc: Global,
    changed: &Changed,
    fresh: Connection<S>,
    writer: &mut W,
) -> Result<Connection<S>, (KeepingFault, Option<Connection<S>>)>
    ensures made { IfOk result (λ c. HasCleanDisk (state S.Store c)
        → StandsForText (state S.Store c) (dumped_text changed.now.dumped)) }
    ensures empty { OnOk result ((state S.Store fresh).now.schema ≡ no_schema) }
    ensures written { OnOk result (Appends (W.contents writer.old) (W.contents writer.new)
        changed.now.told) }
    ensures left { IfErr result (λ e. LeavesNew (state S.Store) fresh e.0 e.1) }
{
    let made = made_of(alloc, &changed.dumped, fresh)?;
    match put(writer, changed.told.as_str()) {
        Ok(()) => Ok(made),
        Err(fault) => Err((fault, Some(made))),
    }
}

/// Makes a store of a text and changes of what it tells, and writes what they tell.
fn load_text<S: Alter + Drop, W: Write>(
    alloc: Global,
    text: Vec<u8>,
    changes: &[Change],
    fresh: Connection<S>,
    writer: &mut W,
) -> Result<Connection<S>, (KeepingFault, Option<Connection<S>>)>
    ensures made { IfOk result (λ c. Loads (state S.Store) text.items changes.now fresh
        (W.contents writer.old) (W.contents writer.new) (Some c)) }
    ensures left { IfErr result (λ e. LeavesNew (state S.Store) fresh e.0 e.1) }
{
    match changed_in(alloc, text, changes) {
        Ok(changed) => make(alloc, &changed, fresh, writer),
        Err(fault) => Err((fault, Some(fresh))),
    }
}

/// Makes a store of the text of a dump, changed in this order, in the store of a connection without table, index or
/// view; writes a line for each thing that was changed, and gives the status of the program: 0 where it is made and its
/// Office is the one whose dump that is, 1 where the text is no dump, a change can't be made, or the store has a table,
/// an index or a view, 3 where memory was refused, the store or a write failed, or what was read back is not what was
/// told. A failure is told on `errors`. The connection comes back, but where the store could not be opened again; it is
/// as it was at status 1. Where a store is not made a part of its rows may be written, so it is made under another
/// name.
///
/// Faults come in this order: the text, the changes, the store, the writer.
pub fn run_load<S: Alter + Drop, W: Write, E: Lines>(
    alloc: Global,
    text: Vec<u8>,
    changes: &[Change],
    fresh: Connection<S>,
    writer: &mut W,
    errors: &mut E,
) -> (u8, Option<Connection<S>>)
    ensures runs { EndsLoad (state S.Store) (TellsLine (E.is_whole errors.new)
        (E.Write.contents errors.old) (E.Write.contents errors.new)) text.items changes.now fresh
        (W.contents writer.old) (W.contents writer.new) result.0 result.1 }
    ensures silent { result.0 ≡ 0 → Keeps (E.Write.contents errors.old)
        (E.Write.contents errors.new) }
{
    match load_text(alloc, text, changes, fresh, writer) {
        Ok(made) => (DONE, Some(made)),
        Err((fault, left)) => (tell_fault(errors, &fault), left),
    }
}
