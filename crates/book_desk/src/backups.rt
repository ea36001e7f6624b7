//! A backup of the Office that is served, as the command `backup` makes one of a store.

ghost use Rattle.std.specs.Prelude.{[]};
ghost use Rattle.book_wire_serving.specs.Serving.{Runs};

use book_desk_administering::Administered;
use book_desk_app::Lines;
use book_desk_files::LeftFile;
use book_desk_stores::{begin_backup, end_draft};
use sqlite::{Connection, FileStore};
use sqlite_disk::Disk;
use std::alloc::Global;

/// Copies the Office of a service into a store of files; with the status, and what is left of the store. It is no `OverStore`, since
/// no clause of one tells what became of the service.
fn copy_of<M: Administered, D: Disk + Drop, E: Lines>(
    alloc: Global,
    service: &mut M,
    fresh: Connection<FileStore<D>>,
    errors: &mut E,
) -> (u8, Option<Connection<FileStore<D>>>)
    ensures { Runs (M.Service.serving service.old) (M.Service.serving service.new) [] }
{
    service.backup(alloc, fresh, errors)
}

/// The Office of a service, which is read, is copied to a file that is not there, as by the command `backup`.
#[tactic(auto, using(book_wire_serving::proofs::Servings::runs_none, book_wire_serving::proofs::Servings::stays))]
pub fn backup_of<M: Administered, E: Lines>(
    rt: &HostRuntime,
    service: &mut M,
    to: &str,
    errors: &mut E,
) -> u8
    ensures { Runs (M.Service.serving service.old) (M.Service.serving service.new) [] }
{
    let (draft, fresh) = match begin_backup(rt, to, errors) {
        Ok(begun) => begun,
        Err(status) => return status,
    };
    let (status, left) = copy_of(rt.alloc(), service, fresh.into_connection(), errors);
    let left = match left {
        Some(connection) => Some(LeftFile::new(connection)),
        None => None,
    };
    end_draft(rt, &draft, status, left, errors)
}
