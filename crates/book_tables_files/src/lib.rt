//! Opens the two files of a store, the database and its log, for `book_desk` and for `trials`.
//!
//! A store that is not there yet is made with pages of 512 bytes, where `sqlite` by itself makes pages of 4,096: an edit
//! writes few rows, each in another page, and what it costs is the bytes of those pages, which are summed, logged and
//! synced. A store that is there keeps its pages. No store is made beside a log that holds a commit: the store is both
//! files, and one of them was lost. It stands on `sqlite` and its parts alone; the layer above uses `FindsStore`,
//! `HoldsCommit` and `TablesRise`, and what a stop leaves of the first open is `LeavesFirstOpen`.
#![tactic(auto)]

ghost use Rattle.std.specs.Prelude.{◌≡◌, ◌↔◌, [], IsTrue, IfOk, IfErr};
ghost use Rattle.sqlite_wal.specs.PageSize.{bytes_of};
ghost use Rattle.sqlite_wal.specs.Reads.{AreClean, OnlyReads};
ghost use Rattle.sqlite_store.specs.FileStore.{view, is_shielded};
ghost use Rattle.sqlite_store.specs.Unopened.{state_of, files_of, wanted_by};
ghost use Rattle.sqlite.specs.State.{HasCleanDisk};
ghost use Rattle.sqlite.specs.Held.{IsNew};
ghost use Rattle.sqlite.specs.Opening.{is_open_error};
ghost use Rattle.sqlite.specs.Files.{file_state, image_of, IsCleanLeft, IsEmpty, IsOpened, Finds, LeavesFiles};
ghost use Rattle.book_tables_files.specs.Finding.{FindsStore, HoldsCommit, IsMadeIn, IsUnmade, KeepsFiles, LeavesFirstOpen, TablesRise, TellsFrame, TellsNew};

use sqlite::{Connection, Error, ErrorCode, FileStore, Leftover, Options};
use sqlite_disk::{Disk, Files, Memory};
use sqlite_pager::Pager;
use sqlite_pool::probe_blank;
use sqlite_store::{OpenError, Unopened};
use sqlite_wal::{PageSize, probe_frames, probe_page_size};
use std::alloc::{AllocFailed, Global};

/// The bytes of a page of a store that is made.
const NEW_PAGE: usize = 512;

/// The bytes of a page where the files do not tell it.
const USUAL_PAGE: usize = 4096;

/// How many bytes the log grows before it is copied into the database.
const LOG: usize = 4_096_000;

const NO_MEMORY: Error = Error::SqliteFailure(ErrorCode::OutOfMemory);

/// What is kept in memory, and how long the log grows, of pages of this size: as many pages as make so many bytes.
fn options(size: PageSize, seed: u64, memory: usize) -> Options {
    let bytes = size.bytes();
    Options {
        cache_pages: memory / bytes,
        spill_pages: memory / bytes,
        checkpoint_frames: LOG / bytes,
        seed,
    }
}

fn open_error(error: OpenError) -> Error
    ensures { IsTrue (is_open_error result) }
{
    Error::SqliteFailure(match error {
        OpenError::OutOfMemory => ErrorCode::OutOfMemory,
        OpenError::Io => ErrorCode::SystemIoFailure,
        OpenError::Full => ErrorCode::DiskFull,
        OpenError::Refused => ErrorCode::DatabaseCorrupt,
    })
}

fn probe_error(error: sqlite_wal::Error) -> Error
    ensures { IsTrue (is_open_error result) }
{
    Error::SqliteFailure(match error {
        sqlite_wal::Error::OutOfMemory => ErrorCode::OutOfMemory,
        sqlite_wal::Error::Io(_) => ErrorCode::SystemIoFailure,
        sqlite_wal::Error::Full => ErrorCode::DiskFull,
        _ => ErrorCode::NotADatabase,
    })
}

/// Whether no database was made in the files yet. Nothing is written.
fn is_unmade<D: Disk>(alloc: Global, files: &mut Files<D>, size: PageSize) -> Result<bool, Error>
    requires log { IsTrue (D.Disk.is_usable files.old.log) }
    requires db { IsTrue (D.Disk.is_usable files.old.db) }
    requires size { bytes_of size ≡ 512 }
    ensures ok { IfOk result (λ b. AreClean D.Disk files.new.log files.new.db
        → (IsTrue b ↔ IsUnmade (image_of D.Disk files.old))) }
    ensures named { IfErr result (λ e. IsTrue (is_open_error e)) }
    ensures log { OnlyReads D.Disk files.old.log files.new.log }
    ensures db { OnlyReads D.Disk files.old.db files.new.db }
{
    match probe_blank(alloc, files, size, false) {
        Ok(is_blank) => Ok(is_blank),
        Err(error) => Err(probe_error(error)),
    }
}

/// Whether recovery takes a frame of the log, of pages of this size.
fn has_frame<D: Disk>(alloc: Global, log: &mut D, size: PageSize) -> Result<bool, Error>
    requires { IsTrue (D.Disk.is_usable log.old) }
    ensures ok { IfOk result (λ b. IsTrue (D.Disk.is_clean log.new)
        → TellsFrame (bytes_of size) (D.Disk.seen log.old) b) }
    ensures named { IfErr result (λ e. IsTrue (is_open_error e)) }
    ensures same { OnlyReads D.Disk log.old log.new }
{
    match probe_frames(alloc, log, size) {
        Ok(numbers) => Ok(!numbers.is_empty()),
        Err(error) => Err(probe_error(error)),
    }
}

/// Whether the log holds a commit, of pages of whatever size. Nothing is written.
fn holds_commit<D: Disk>(alloc: Global, files: &mut Files<D>) -> Result<bool, Error>
    requires log { IsTrue (D.Disk.is_usable files.old.log) }
    requires db { IsTrue (D.Disk.is_usable files.old.db) }
    ensures ok { IfOk result (λ b. AreClean D.Disk files.new.log files.new.db
        → (IsTrue b ↔ HoldsCommit (D.Disk.seen files.old.log))) }
    ensures named { IfErr result (λ e. IsTrue (is_open_error e)) }
    ensures log { OnlyReads D.Disk files.old.log files.new.log }
    ensures db { OnlyReads D.Disk files.old.db files.new.db }
{
    match probe_page_size(files) {
        Ok(Some(size)) => has_frame(alloc, &mut files.log, size),
        Ok(None) => Ok(false),
        Err(_) => Err(Error::SqliteFailure(ErrorCode::SystemIoFailure)),
    }
}

/// Whether these bytes of a log hold a commit, of pages of whatever size: edits may stand in it that are in no other file.
///
/// # Errors
///
/// `OutOfMemory` is want of memory; each other error tells a log that recovery refuses.
pub fn log_holds_commit(alloc: Global, log: &[u8]) -> Result<bool, Error>
    ensures ok { IfOk result (λ b. IsTrue b ↔ HoldsCommit log.now) }
    ensures named { IfErr result (λ e. IsTrue (is_open_error e)) }
{
    let mut files = Files {
        log: Memory::new(alloc),
        db: Memory::new(alloc),
    };
    match files.log.write_at(0, log) {
        Ok(()) => holds_commit(alloc, &mut files),
        Err(_) => Err(NO_MEMORY),
    }
}

/// Whether a store is to be made in the files: none was made yet, and the log holds no commit. Where it holds one the
/// answer is an error.
fn is_new<D: Disk>(alloc: Global, files: &mut Files<D>, size: PageSize) -> Result<bool, Error>
    requires log { IsTrue (D.Disk.is_usable files.old.log) }
    requires db { IsTrue (D.Disk.is_usable files.old.db) }
    requires size { bytes_of size ≡ 512 }
    ensures ok { IfOk result (λ b. AreClean D.Disk files.new.log files.new.db
        → TellsNew (image_of D.Disk files.old) b) }
    ensures named { IfErr result (λ e. IsTrue (is_open_error e)) }
    ensures log { OnlyReads D.Disk files.old.log files.new.log }
    ensures db { OnlyReads D.Disk files.old.db files.new.db }
{
    if !is_unmade(alloc, files, size)? {
        return Ok(false);
    }
    if holds_commit(alloc, files)? {
        return Err(Error::SqliteFailure(ErrorCode::DatabaseCorrupt));
    }
    Ok(true)
}

/// The files with what is to be read of them, or the files again for want of memory. Nothing is read yet.
fn unopened<D: Disk>(
    alloc: Global,
    files: Files<D>,
    size: PageSize,
    options: Options,
) -> Result<Unopened<D>, Files<D>>
    ensures back { IfErr result (λ left. (left.log ≡ files.log) × (left.db ≡ files.db)) }
    ensures files { IfOk result (λ it. files_of it ≡ (files.log, files.db)) }
    ensures size { IfOk result (λ it. (state_of it).page_size ≡ bytes_of size) }
    ensures none { IfOk result (λ it. wanted_by it ≡ []) }
{
    let pager = match Pager::new(alloc, files, size, options) {
        Ok(pager) => pager,
        Err(AllocFailed { value }) => return Err(value),
    };
    match Unopened::new(alloc, pager, &[]) {
        Ok(unopened) => Ok(unopened),
        Err(AllocFailed { value }) => Err(value.close()),
    }
}

/// Makes a store without a row in files that have none.
fn make<D: Disk>(
    alloc: Global,
    files: Files<D>,
    size: PageSize,
    options: Options,
) -> Result<FileStore<D>, (Error, Leftover<D>)>
    requires log { IsTrue (D.Disk.is_usable files.log) }
    requires db { IsTrue (D.Disk.is_usable files.db) }
    requires size { bytes_of size ≡ 512 }
    requires unmade { AreClean D.Disk files.log files.db → IsUnmade (image_of D.Disk files) }
    ensures made { IfOk result (λ store. IsTrue (view store).is_clean → IsMadeIn files store) }
    ensures guarded { IfOk result (λ store. IsTrue (view store).is_clean → is_shielded store) }
    ensures named { IfErr result (λ e. IsTrue (is_open_error e.0)) }
    ensures begun { IfErr result (λ e. IsCleanLeft e.1 → AreClean D.Disk files.log files.db
        × LeavesFirstOpen files e.1) }
{
    let unopened = match unopened(alloc, files, size, options) {
        Ok(unopened) => unopened,
        Err(files) => return Err((NO_MEMORY, Leftover::Files(files))),
    };
    match unopened.create() {
        Ok(store) => Ok(store),
        Err((error, left)) => Err((open_error(error), Leftover::Unopened(left))),
    }
}

/// The same, with a connection to it.
fn create<D: Disk + Drop>(
    alloc: Global,
    files: Files<D>,
    size: PageSize,
    options: Options,
) -> Result<Connection<FileStore<D>>, (Error, Leftover<D>)>
    requires log { IsTrue (D.Disk.is_usable files.log) }
    requires db { IsTrue (D.Disk.is_usable files.db) }
    requires size { bytes_of size ≡ 512 }
    requires unmade { AreClean D.Disk files.log files.db → IsUnmade (image_of D.Disk files) }
    ensures opened { IfOk result (λ c. HasCleanDisk (file_state c) → IsOpened c) }
    ensures rising { IfOk result (λ c. HasCleanDisk (file_state c) → TablesRise (file_state c).now) }
    ensures made { IfOk result (λ c. HasCleanDisk (file_state c)
        → AreClean D.Disk files.log files.db × IsEmpty (file_state c).committed.trees) }
    ensures fresh { IfOk result IsNew }
    ensures guarded { IfOk result (λ c. HasCleanDisk (file_state c) → (file_state c).IsShielded) }
    ensures named { IfErr result (λ e. IsTrue (is_open_error e.0)) }
    ensures begun { IfErr result (λ e. IsCleanLeft e.1 → AreClean D.Disk files.log files.db
        × LeavesFirstOpen files e.1) }
{
    match Connection::over(alloc, make(alloc, files, size, options)?) {
        Ok(connection) => Ok(connection),
        Err((error, store)) => Err((error, Leftover::Store(store))),
    }
}

/// Opens a store that is there, with its own pages.
fn reopen<D: Disk + Drop>(
    alloc: Global,
    mut files: Files<D>,
    seed: u64,
    memory: usize,
) -> Result<Connection<FileStore<D>>, (Error, Leftover<D>)>
    requires log { IsTrue (D.Disk.is_usable files.log) }
    requires db { IsTrue (D.Disk.is_usable files.db) }
    ensures opened { IfOk result (λ c. HasCleanDisk (file_state c) → IsOpened c) }
    ensures rising { IfOk result (λ c. HasCleanDisk (file_state c) → TablesRise (file_state c).now) }
    ensures found { IfOk result (λ c. HasCleanDisk (file_state c) → Finds files c) }
    ensures fresh { IfOk result IsNew }
    ensures guarded { IfOk result (λ c. HasCleanDisk (file_state c) → (file_state c).IsShielded) }
    ensures named { IfErr result (λ e. IsTrue (is_open_error e.0)) }
    ensures kept { IfErr result (λ e. IsCleanLeft e.1 → LeavesFiles files e.1) }
{
    let size = match probe_page_size(&mut files) {
        Ok(size) => size.unwrap_or(PageSize::new(USUAL_PAGE).unwrap()),
        Err(_) => return Err((
            Error::SqliteFailure(ErrorCode::SystemIoFailure),
            Leftover::Files(files),
        )),
    };
    Connection::open_files(alloc, files, options(size, seed, memory))
}

/// Opens the store in these two files: recovers its log, and checks each page, index and rule, as `Connection::open_files`
/// does. Where no store was made yet, one without a row is made, with pages of 512 bytes, if the log holds no commit; one
/// that is there keeps its pages. The salts of the log are drawn from the seed, and about so many bytes of pages are kept in
/// memory.
///
/// # Errors
///
/// Those of `Connection::open_files`, with what is left of the files; and `DatabaseCorrupt` where no store was made yet and
/// the log holds a commit, so that the database file was lost: nothing is written then.
pub fn open_store_files<D: Disk + Drop>(
    alloc: Global,
    mut files: Files<D>,
    seed: u64,
    memory: usize,
) -> Result<Connection<FileStore<D>>, (Error, Leftover<D>)>
    requires log { IsTrue (D.Disk.is_usable files.log) }
    requires db { IsTrue (D.Disk.is_usable files.db) }
    ensures opened { IfOk result (λ c. HasCleanDisk (file_state c) → IsOpened c) }
    ensures rising { IfOk result (λ c. HasCleanDisk (file_state c) → TablesRise (file_state c).now) }
    ensures found { IfOk result (λ c. HasCleanDisk (file_state c) → FindsStore files c) }
    ensures fresh { IfOk result IsNew }
    ensures guarded { IfOk result (λ c. HasCleanDisk (file_state c) → (file_state c).IsShielded) }
    ensures named { IfErr result (λ e. IsTrue (is_open_error e.0)) }
    ensures kept { IfErr result (λ e. IsCleanLeft e.1 → KeepsFiles files e.1) }
{
    let size = PageSize::new(NEW_PAGE).unwrap();
    match is_new(alloc, &mut files, size) {
        Ok(true) => create(alloc, files, size, options(size, seed, memory)),
        Ok(false) => reopen(alloc, files, seed, memory),
        Err(error) => Err((error, Leftover::Files(files))),
    }
}
