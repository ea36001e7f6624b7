//! A store is copied.

ghost use Rattle.std.specs.Prelude.{◌≡◌, ◌≢◌, IfErr, IfOk, OnOk};
ghost use Rattle.sqlite.specs.Held.{state};
ghost use Rattle.sqlite.specs.State.{HasCleanDisk};
ghost use Rattle.book_dumps_loading.specs.Loading.{IsCopy, ReadsWhole, Rests};
ghost use Rattle.book_dumps_reading.specs.Dumped.{dumped_text};
ghost use Rattle.book_tables_schema.specs.Founding.{no_schema};

use crate::faults::LoadFault;
use crate::loading::load;
use crate::reading_back::office_text;
use book_dumps::dumps_are_exact;
use book_dumps_reading::{Dumped, ReadFault, read_dump};
use book_office::Keeper;
use book_tables::Tables;
use book_tables_schema::Unopened;
use sqlite::{Alter, Connection};
use std::alloc::Global;

/// What a text tells that a dump is. One that is none is refused.
fn read_text(alloc: Global, text: &[u8]) -> Result<Dumped, LoadFault>
    ensures told { IfOk result (λ d. dumped_text d ≡ text.now) }
    ensures new { IfErr result (λ fault. fault ≢ LoadFault.Exists) }
{
    match read_dump(alloc, text) {
        Ok(dumped) => Ok(dumped),
        Err(ReadFault::Memory) => Err(LoadFault::Memory),
        Err(ReadFault::Line(_)) => Err(LoadFault::Refused),
    }
}

/// The Office of a keeper as its dump tells it; the Office is as it was. The text is in memory, and what it tells.
///
/// # Errors
///
/// `Memory` is want of memory, `Store` any other failure of the keeper's store; `Refused` where the text is not taken as a
/// dump.
pub fn dumped_of<K: Keeper>(alloc: Global, keeper: &mut K) -> Result<Dumped, LoadFault>
    ensures read { ReadsWhole (K.standing keeper.old) (K.standing keeper.new) result }
    ensures new { IfErr result (λ fault. fault ≢ LoadFault.Exists) }
{
    let text = office_text(alloc, keeper)?;
    read_text(alloc, text.as_slice())
}

/// Makes a copy of the Office of a keeper in the store of a connection, which has no table, index or view: as `load` does of
/// its dump. The tables stand for the same Office, and a stop leaves that one alone; none of their calls has failed yet. The
/// keeper's Office is as it was.
///
/// # Errors
///
/// As `dumped_of`, where the connection comes back as it is, and as `load`.
pub fn copy<K: Keeper, S: Alter + Drop>(
    alloc: Global,
    keeper: &mut K,
    connection: Connection<S>,
) -> Result<Tables<S>, (LoadFault, Unopened<S>)>
    ensures rests { Rests (K.standing keeper.old) (K.standing keeper.new) }
    ensures copied { (K.standing keeper.new).honest → IfOk result (λ t.
        HasCleanDisk (state S.Store t.connection)
        → IsCopy (K.standing keeper.old) (state S.Store t.connection)) }
    ensures counted { IfOk result (λ t. t.failures ≡ 0) }
    ensures empty { OnOk result ((state S.Store connection).now.schema ≡ no_schema) }
    ensures exists { IfErr result (λ e. e.0 ≡ LoadFault.Exists
        → ((state S.Store connection).now.schema ≢ no_schema)
        × (e.1 ≡ Unopened.Connection connection)) }
{
    dumps_are_exact();
    match dumped_of(alloc, keeper) {
        Ok(dumped) => load(alloc, connection, &dumped),
        Err(fault) => Err((fault, Unopened::Connection(connection))),
    }
}
