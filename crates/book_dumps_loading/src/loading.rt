//! A dump becomes a store.

ghost use Rattle.std.specs.Prelude.{◌≡◌, ◌≢◌, ◌↔◌, IfErr, IfOk, IsTrue, OnOk};
ghost use Rattle.sqlite.specs.Held.{state};
ghost use Rattle.sqlite.specs.State.{HasCleanDisk};
ghost use Rattle.book_dumps.specs.Dumps.{dump_text};
ghost use Rattle.book_dumps_loading.specs.Loading.{Compares, StandsForOther, StandsForText};
ghost use Rattle.book_dumps_reading.specs.Dumped.{dumped_text};
ghost use Rattle.book_office.specs.Keeping.{Reads};
ghost use Rattle.book_tables_schema.specs.Founding.{no_schema};
ghost use Rattle.book_tables_schema.specs.Reopening.{IsConnectionAnd};

use crate::faults::LoadFault;
use crate::reading_back::is_dump;
use crate::writing::write_rows;
use book_dumps_reading::{Dumped, dump_bytes};
use book_office::{Keeper, StoreFault};
use book_tables::Tables;
use book_tables_opening::open;
use book_tables_schema::{Unopened, is_empty};
use sqlite::{Alter, Connection};
use std::alloc::Global;

/// Whether the text of a dump is that of the Office of a keeper, which is as it was.
fn is_dump_of<K: Keeper>(alloc: Global, keeper: &mut K, dumped: &Dumped) -> Result<bool, StoreFault>
    ensures { Reads (K.standing keeper.old) (K.standing keeper.new) result
        (λ o is. IsTrue is ↔ (dump_text o ≡ dumped_text dumped.now)) }
{
    let wanted = dump_bytes(alloc, dumped)?;
    is_dump(alloc, keeper, wanted.as_slice())
}

/// The tables, where what they stand for is what the dump tells.
fn compared<S: Alter + Drop>(
    alloc: Global,
    tables: Tables<S>,
    dumped: &Dumped,
) -> Result<Tables<S>, (LoadFault, Unopened<S>)>
    ensures stands { IfOk result (λ t. HasCleanDisk (state S.Store t.connection)
        → Compares (state S.Store tables.connection) (state S.Store t.connection)
        (λ o. dump_text o ≡ dumped_text dumped.now)) }
    ensures counted { IfOk result (λ t. t.failures ≡ tables.failures) }
    ensures unequal { IfErr result (λ e. e.0 ≡ LoadFault.Unequal → IsConnectionAnd e.1 (λ c.
        HasCleanDisk (state S.Store c) → Compares (state S.Store tables.connection)
        (state S.Store c) (λ o. dump_text o ≢ dumped_text dumped.now))) }
    ensures new { IfErr result (λ e. e.0 ≢ LoadFault.Exists) }
{
    let mut tables = tables;
    match is_dump_of(alloc, &mut tables, dumped) {
        Ok(true) => Ok(tables),
        Ok(false) => Err((LoadFault::Unequal, Unopened::Connection(tables.release()))),
        Err(fault) => Err((
            LoadFault::from(fault),
            Unopened::Connection(tables.release()),
        )),
    }
}

/// The tables of a store whose rows are written, where what they stand for is what the dump tells.
fn read_back<S: Alter + Drop>(
    alloc: Global,
    connection: Connection<S>,
    dumped: &Dumped,
) -> Result<Tables<S>, (LoadFault, Unopened<S>)>
    ensures stands { IfOk result (λ t. HasCleanDisk (state S.Store t.connection)
        → StandsForText (state S.Store t.connection) (dumped_text dumped.now)) }
    ensures counted { IfOk result (λ t. t.failures ≡ 0) }
    ensures unequal { IfErr result (λ e. e.0 ≡ LoadFault.Unequal → IsConnectionAnd e.1 (λ c.
        HasCleanDisk (state S.Store c)
        → StandsForOther (state S.Store c) (dumped_text dumped.now))) }
    ensures new { IfErr result (λ e. e.0 ≢ LoadFault.Exists) }
{
    match open(alloc, connection) {
        Ok(tables) => compared(alloc, tables, dumped),
        Err((fault, left)) => Err((LoadFault::from(fault), left)),
    }
}

/// Makes a store of what a dump tells (own profile). The connection's store has no table, index or view. Its tables are made
/// and the rows written, in several transactions; then the store is opened again, every row is read and tested, and its dump
/// is compared with that of `dumped`. So the tables stand for a sound Office whose dump is that one, and a stop leaves that
/// Office alone; none of their calls has failed yet. A stop before leaves a part of the rows: a store is made under another
/// name, and gets its own when this answers `Ok`.
///
/// Beside `dumped` and its text, which are in memory, it takes what opening the store takes, and the rows of a thousand
/// lines. The steps grow as the number of lines and of entries times its logarithm.
///
/// # Errors
///
/// `Exists` where the store has a table, an index or a view: the connection comes back as it is. `Refused` where a row names
/// one that is not there, is there twice or has a number above the last, or where the rows are those of no sound Office.
/// `Unequal` where what was read back differs from the dump. `Memory` is want of memory, `Store` any other failure of the
/// store. The connection comes back; where the store could not be opened again, the store. It has a part of the rows, or
/// stands for another Office.
pub fn load<S: Alter + Drop>(
    alloc: Global,
    connection: Connection<S>,
    dumped: &Dumped,
) -> Result<Tables<S>, (LoadFault, Unopened<S>)>
    ensures stands { IfOk result (λ t. HasCleanDisk (state S.Store t.connection)
        → StandsForText (state S.Store t.connection) (dumped_text dumped.now)) }
    ensures counted { IfOk result (λ t. t.failures ≡ 0) }
    ensures empty { OnOk result ((state S.Store connection).now.schema ≡ no_schema) }
    ensures taken { (state S.Store connection).now.schema ≢ no_schema
        → IfErr result (λ e. e.0 ≡ LoadFault.Exists) }
    ensures exists { IfErr result (λ e. e.0 ≡ LoadFault.Exists
        → ((state S.Store connection).now.schema ≢ no_schema)
        × (e.1 ≡ Unopened.Connection connection)) }
    ensures unequal { IfErr result (λ e. e.0 ≡ LoadFault.Unequal → IsConnectionAnd e.1 (λ c.
        HasCleanDisk (state S.Store c)
        → StandsForOther (state S.Store c) (dumped_text dumped.now))) }
{
    if !is_empty(&connection) {
        return Err((LoadFault::Exists, Unopened::Connection(connection)));
    }
    let mut connection = connection;
    match write_rows(alloc, &mut connection, dumped) {
        Ok(()) => read_back(alloc, connection, dumped),
        Err(fault) => Err((LoadFault::from(fault), Unopened::Connection(connection))),
    }
}
