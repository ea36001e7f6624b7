//! The files that the words name: the policy's and the store's.

ghost use Rattle.std.specs.Prelude.{IfOk, IsTrue};

use crate::causes::{Cause, tell_cause};
use crate::progress::{Stage, tell_stage};
use crate::stores::{StoreCopy, StoreFile};
use book_desk_app::{Failure, InputFault, StoreFailure, read_short_text};
use book_limits::MAX_POLICY_BYTES;
use book_tables_files::log_holds_commit;
use book_tables_opening::find_store;
use sqlite::{Error, ErrorCode, File as DiskFile, Unknown};
use sqlite_disk::{Disk, Files as StoreFiles, Memory};
use sqlite_std_file::OpenError;
use std::alloc::Global;
use std::fs::{self, File, Files, OpenOptions};
use std::hash::{BuildHasher, RandomState};
use std::io::{self, BufReader, Read, Write};
use std::os::unix::fs::{MetadataExt, OpenOptionsExt};
use std::path::PathBuf;

/// How many bytes of a store's pages are kept in memory.
const KEPT_IN_MEMORY: usize = 8_192_000;

/// Who may read and write the file of a new store: its owner alone.
const PRIVATE: u32 = 0o600;

/// What of a mode lets others than its owner read a file.
const OTHERS: u32 = 0o044;

/// How a database begins.
const MAGIC: &[u8; 16] = b"SQLite format 3\0";

/// How long a file counts that can't be looked at.
const UNKNOWN: u64 = u64::MAX;

/// What the words ask of a store's file.
#[derive(Clone, Copy, Debug, PartialEq, Eq)]
enum Wanted {
    /// A store, which is made where there is none.
    Any,
    /// One that is there already.
    Existing,
    /// One that is there already, and has a byte in its file.
    Former,
}

/// The files that the words name.
#[derive(Clone, Copy)]
pub struct Named<'a> {
    /// The file of the store.
    pub store: Option<&'a str>,
    /// The file of the policy.
    pub policy: Option<&'a str>,
    /// Whether the store has to be there already.
    pub existing: bool,
}

/// A store that is looked at.
pub fn viewed<'a>(store: &'a str, policy: Option<&'a str>) -> Named<'a> {
    Named {
        store: Some(store),
        policy,
        existing: true,
    }
}

/// What the words name, read and opened.
pub struct Opened {
    /// The store; none is one in memory.
    pub store: Option<StoreFile>,
    /// The bytes of the policy's file.
    pub policy: Option<Vec<u8>>,
}

/// A policy of one byte more than a policy may have: what a longer file is read as, since its text is not kept.
fn longer_text(alloc: Global) -> Result<Vec<u8>, InputFault> {
    let mut bytes = Vec::new(alloc);
    for _ in 0..=MAX_POLICY_BYTES {
        if bytes.push(b' ').is_err() {
            return Err(InputFault::Read);
        }
    }
    Ok(bytes)
}

/// A byte that is no text: what a file that is not UTF-8 is read as.
fn no_text(alloc: Global) -> Result<Vec<u8>, InputFault> {
    let mut bytes = Vec::new(alloc);
    match bytes.push(0xff) {
        Ok(()) => Ok(bytes),
        Err(_) => Err(InputFault::Read),
    }
}

/// The bytes of that file, as far as a policy may have: no more than that is kept, and the rest is read to its end, since a
/// file that is not UTF-8 is told before one that is too long.
fn read_file(rt: &(impl Files + AllocGlobal), name: &str) -> Result<Vec<u8>, InputFault> {
    let alloc = rt.alloc();
    let Ok(file) = File::open(rt, name) else {
        return Err(InputFault::Read);
    };
    let Ok(reader) = BufReader::new(alloc, file) else {
        return Err(InputFault::Read);
    };
    match read_short_text(alloc, MAX_POLICY_BYTES, reader) {
        Ok(Some(text)) => Ok(text.into_bytes()),
        Ok(None) => longer_text(alloc),
        Err(InputFault::NotUtf8) => no_text(alloc),
        Err(InputFault::Read) => Err(InputFault::Read),
    }
}

/// The bytes of a policy's file.
///
/// # Errors
///
/// `Input` where it can't be read.
pub fn open_policy(rt: &HostRuntime, name: &str) -> Result<Vec<u8>, Failure> {
    tell_stage(rt, Stage::Reading(name));
    match read_file(rt, name) {
        Ok(bytes) => Ok(bytes),
        Err(fault) => Err(Failure::Input(fault)),
    }
}

/// The bytes of the policy's file, if one is named.
///
/// # Errors
///
/// `Input` where it can't be read.
pub fn read_policy_file(rt: &HostRuntime, name: Option<&str>) -> Result<Option<Vec<u8>>, Failure> {
    let Some(name) = name else {
        return Ok(None);
    };
    Ok(Some(open_policy(rt, name)?))
}

/// The failure of a store whose files can't be had, whose cause is told.
fn failure_by(rt: &HostRuntime, cause: Cause) -> Failure {
    tell_cause(rt, cause);
    Failure::Store(match cause {
        Cause::Memory(_) => StoreFailure::Memory,
        Cause::Missing | Cause::Empty => StoreFailure::NoStore,
        _ => StoreFailure::Store,
    })
}

/// Whether a file begins as a database does (SQLite's file format, 1.3.1).
fn has_magic(rt: &HostRuntime, name: &str) -> bool {
    let mut magic = [0; 16];
    match File::open(rt, name) {
        Ok(mut file) => file.read_exact(&mut magic).is_ok() && magic == *MAGIC,
        Err(_) => false,
    }
}

/// The failure of files that hold no store, or of which one can't be read or written.
fn open_failure(rt: &HostRuntime, name: &str, error: Error) -> Failure {
    let cause = match error {
        Error::SqliteFailure(ErrorCode::OutOfMemory) => {
            Cause::Memory(length_of(rt, name).unwrap_or(0))
        }
        Error::SqliteFailure(ErrorCode::NotADatabase) => {
            if has_magic(rt, name) {
                Cause::Damaged
            } else {
                Cause::NoDatabase
            }
        }
        Error::SqliteFailure(ErrorCode::DatabaseCorrupt) => Cause::Damaged,
        Error::SqliteFailure(ErrorCode::DiskFull) => Cause::Full,
        _ => Cause::Failed,
    };
    failure_by(rt, cause)
}

/// Why a file is not one that a store can be.
fn kind_cause(rt: &HostRuntime, name: &str) -> Cause {
    match fs::metadata(rt, name) {
        Ok(found) if found.is_dir() => Cause::Folder,
        Ok(found) if found.is_file() && found.nlink() > 1 => Cause::SecondName,
        _ => Cause::NoFile,
    }
}

/// The failure of files that can't be opened.
fn path_failure(rt: &HostRuntime, name: &str, error: OpenError) -> Failure {
    let cause = match error {
        OpenError::OutOfMemory => Cause::Memory(length_of(rt, name).unwrap_or(0)),
        OpenError::Busy => Cause::Busy,
        OpenError::HotJournal => Cause::Journal,
        OpenError::Io(error) => match error.kind() {
            io::ErrorKind::OutOfMemory => Cause::Memory(length_of(rt, name).unwrap_or(0)),
            io::ErrorKind::NotFound => Cause::NoFolder,
            io::ErrorKind::PermissionDenied => Cause::NoPermission,
            io::ErrorKind::StorageFull => Cause::Full,
            io::ErrorKind::Unsupported | io::ErrorKind::IsADirectory => kind_cause(rt, name),
            _ => Cause::Failed,
        },
    };
    failure_by(rt, cause)
}

/// Tells where others may read a store's file.
fn tell_mode(rt: &HostRuntime, name: &str) {
    if let Ok(found) = fs::metadata(rt, name) {
        let mode = found.mode() & 0o7777;
        if mode & OTHERS != 0 {
            tell_cause(rt, Cause::Readable(mode));
        }
    }
}

/// A number at random, for the salts of a log.
fn seed(rt: &HostRuntime) -> Result<u64, Failure> {
    match RandomState::new(rt) {
        Ok(state) => Ok(state.hash_one(&0u8)),
        Err(_) => Err(Failure::Store(StoreFailure::Store)),
    }
}

/// Whether sqlite3 reads the name as something else than a path.
fn is_no_path(name: &str) -> bool {
    name == ":memory:" || name.starts_with("file:")
}

/// Opens the database at a path and its log, which are made where they are missing. The name is looked at once more after
/// they are locked: a file that was replaced meanwhile is not opened, since what is written in it would be lost.
fn open_at(rt: &HostRuntime, name: &str, seed: u64) -> Result<StoreFile, Failure> {
    let before = identity_of(rt, name);
    let files = match sqlite_std_file::open(rt, name, Unknown) {
        Ok(files) => files,
        Err(error) => return Err(path_failure(rt, name, error)),
    };
    if before.is_some() && identity_of(rt, name) != before {
        return Err(failure_by(rt, Cause::Replaced));
    }
    tell_mode(rt, name);
    match find_store(rt.alloc(), files, seed, KEPT_IN_MEMORY) {
        Ok(found) => Ok(StoreFile::new(found)),
        Err((error, _left)) => Err(open_failure(rt, name, error)),
    }
}

/// The name of the log beside a store's file.
pub fn log_name(alloc: Global, name: &str) -> Result<String, Failure> {
    match format!(in alloc; "{name}-wal") {
        Ok(log) => Ok(log),
        Err(_) => Err(Failure::Store(StoreFailure::Memory)),
    }
}

/// The device of the file at a name, and its number there; none where it can't be looked at.
pub(crate) fn identity_of(files: &impl Files, name: &str) -> Option<(u64, u64)> {
    match fs::metadata(files, name) {
        Ok(found) => Some((found.dev(), found.ino())),
        Err(_) => None,
    }
}

/// How long a file is; none where there is none, and `UNKNOWN` where it can't be looked at.
pub fn length_of(files: &impl Files, name: &str) -> Option<u64> {
    match fs::metadata(files, name) {
        Ok(found) => Some(found.len()),
        Err(error) if error.kind() == io::ErrorKind::NotFound => None,
        Err(_) => Some(UNKNOWN),
    }
}

/// Whether the log at a name holds a commit. It is read without a lock, and nothing is written.
fn holds_commit(rt: &HostRuntime, log: &str) -> Result<bool, Failure> {
    let Ok(bytes) = fs::read(rt, log) else {
        return Err(Failure::Store(StoreFailure::Store));
    };
    match log_holds_commit(rt.alloc(), bytes.as_slice()) {
        Ok(held) => Ok(held),
        Err(error) => Err(open_failure(rt, log, error)),
    }
}

/// Whether the log beside a store's file holds no commit.
///
/// # Errors
///
/// `Store` where the log can't be read.
pub(crate) fn holds_no_commit(rt: &HostRuntime, name: &str) -> Result<bool, Failure> {
    let log = log_name(rt.alloc(), name)?;
    if length_of(rt, log.as_str()).unwrap_or(0) == 0 {
        return Ok(true);
    }
    Ok(!holds_commit(rt, log.as_str())?)
}

/// Whether a store may be made where its file is missing, or has no byte. The store is the file and its log: where the log
/// holds a commit, the file was lost. So nothing is made then, nor where a store has to be there already.
fn may_be_made(
    rt: &HostRuntime,
    name: &str,
    is_missing: bool,
    wanted: Wanted,
) -> Result<(), Failure> {
    let log = log_name(rt.alloc(), name)?;
    let has_log = length_of(rt, log.as_str()).unwrap_or(0) > 0;
    if wanted != Wanted::Former && has_log && holds_commit(rt, log.as_str())? {
        return Err(failure_by(rt, Cause::Lost));
    }
    match wanted {
        Wanted::Any => Ok(()),
        Wanted::Existing if has_log && !is_missing => Ok(()),
        Wanted::Existing | Wanted::Former if is_missing => Err(failure_by(rt, Cause::Missing)),
        Wanted::Existing | Wanted::Former => Err(failure_by(rt, Cause::Empty)),
    }
}

/// Makes the file of a new store, which its owner alone may read and write. Where it can't be made, opening it tells why.
fn make_private(rt: &HostRuntime, name: &str) {
    let _ = OpenOptions::new()
        .write(true)
        .create_new(true)
        .mode(PRIVATE)
        .open(rt, name);
}

/// Opens the store's file. It is made where it is missing, but where the store has to be there already.
fn open_store_file(rt: &HostRuntime, name: &str, wanted: Wanted) -> Result<StoreFile, Failure> {
    if is_no_path(name) {
        return Err(failure_by(rt, Cause::NoPath));
    }
    let length = length_of(rt, name);
    if length.unwrap_or(0) == 0 {
        may_be_made(rt, name, length.is_none(), wanted)?;
    }
    if length.is_none() {
        make_private(rt, name);
    }
    if length != Some(UNKNOWN) {
        tell_stage(rt, Stage::Opening(name, length.unwrap_or(0)));
    }
    open_at(rt, name, seed(rt)?)
}

/// Opens the store's file, if one is named.
///
/// # Errors
///
/// `Store` where it can't be opened, is missing or empty beside a log that holds a commit, or has to be there already and is
/// missing or empty.
pub fn open_store_named(
    rt: &HostRuntime,
    name: Option<&str>,
    existing: bool,
) -> Result<Option<StoreFile>, Failure> {
    let wanted = if existing {
        Wanted::Existing
    } else {
        Wanted::Any
    };
    match name {
        Some(name) => Ok(Some(open_store_file(rt, name, wanted)?)),
        None => Ok(None),
    }
}

/// Reads the policy's file, and then opens the store's file, where they are named.
///
/// # Errors
///
/// `Input` where the policy's file can't be read, and `Store` as `open_store_named`.
pub fn open_inputs(
    rt: &HostRuntime,
    store: Option<&str>,
    policy: Option<&str>,
    existing: bool,
) -> Result<Opened, Failure> {
    let policy = read_policy_file(rt, policy)?;
    let store = open_store_named(rt, store, existing)?;
    Ok(Opened { store, policy })
}

/// Opens the file of a store that is looked at: it has to be there.
///
/// # Errors
///
/// As `open_store_named`.
pub fn open_viewed(rt: &HostRuntime, name: &str) -> Result<StoreFile, Failure> {
    open_store_file(rt, name, Wanted::Existing)
}

/// Opens the file of a store that is to be migrated.
///
/// # Errors
///
/// `Store` where it can't be opened, or is missing or empty.
pub fn open_former(rt: &HostRuntime, name: &str) -> Result<StoreFile, Failure> {
    open_store_file(rt, name, Wanted::Former)
}

/// Opens the file of a store that is made, where there is none.
///
/// # Errors
///
/// `Store` where it can't be opened.
pub(crate) fn open_made(rt: &HostRuntime, name: &str) -> Result<StoreFile, Failure> {
    open_store_file(rt, name, Wanted::Any)
}

/// The bytes of a file of a store; none where it is missing.
fn read_bytes(rt: &HostRuntime, name: &str) -> Result<Vec<u8>, Failure> {
    match length_of(rt, name) {
        None => Ok(Vec::new(rt.alloc())),
        Some(_) => match fs::read(rt, name) {
            Ok(bytes) => Ok(bytes),
            Err(_) => Err(Failure::Store(StoreFailure::Store)),
        },
    }
}

/// The bytes as a file in memory.
fn in_memory(alloc: Global, bytes: &[u8]) -> Result<Memory, Failure>
    ensures { IfOk result (λ file. IsTrue file.usable) }
{
    let mut file = Memory::new(alloc);
    match file.write_at(0, bytes) {
        Ok(()) => Ok(file),
        Err(_) => Err(Failure::Store(StoreFailure::Memory)),
    }
}

/// Opens a copy of a store's files in memory. Where they hold none the cause is told, if it is to be.
fn copy_now(rt: &HostRuntime, name: &str, tells: bool) -> Result<StoreCopy, Failure> {
    let alloc = rt.alloc();
    let bytes = read_bytes(rt, name)?;
    let log = read_bytes(rt, log_name(alloc, name)?.as_str())?;
    let files = StoreFiles {
        log: in_memory(alloc, log.as_slice())?,
        db: in_memory(alloc, bytes.as_slice())?,
    };
    match find_store(alloc, files, seed(rt)?, KEPT_IN_MEMORY) {
        Ok(found) => Ok(StoreCopy::new(found)),
        Err((error, _left)) => {
            if tells {
                Err(open_failure(rt, name, error))
            } else {
                Err(Failure::Store(StoreFailure::Store))
            }
        }
    }
}

/// Opens a copy of a store's files in memory, so that they stay as they are. The store has to be there.
///
/// # Errors
///
/// `Store` where they can't be read, the file is missing or empty, or memory was refused.
fn open_copy(rt: &HostRuntime, name: &str) -> Result<StoreCopy, Failure> {
    if is_no_path(name) {
        return Err(failure_by(rt, Cause::NoPath));
    }
    match length_of(rt, name) {
        None => Err(failure_by(rt, Cause::Missing)),
        Some(0) => Err(failure_by(rt, Cause::Empty)),
        Some(_) => copy_now(rt, name, true),
    }
}

/// Copies a file to a name that is not there, which its owner alone may read and write; whether it is copied.
fn copy_file(rt: &HostRuntime, from: &str, to: &str) -> bool {
    let Ok(bytes) = fs::read(rt, from) else {
        return false;
    };
    let made = OpenOptions::new()
        .write(true)
        .create_new(true)
        .mode(PRIVATE)
        .open(rt, to);
    match made {
        Ok(mut file) => file.write_all(bytes.as_slice()).is_ok(),
        Err(_) => false,
    }
}

/// Copies a store's files to a name that is not there, the log where there is one; whether they are copied.
fn copy_files(rt: &HostRuntime, from: &str, to: &str) -> Result<bool, Failure> {
    if !copy_file(rt, from, to) {
        return Ok(false);
    }
    let log = log_name(rt.alloc(), from)?;
    if length_of(rt, log.as_str()).is_none() {
        return Ok(true);
    }
    let copied = log_name(rt.alloc(), to)?;
    Ok(copy_file(rt, log.as_str(), copied.as_str()))
}

/// Copies a backup's files to a name that is not there; whether they are copied. Nothing else can write them meanwhile, but
/// where they may not be written.
fn copy_backup_files(rt: &HostRuntime, from: &str, to: &str) -> Result<bool, Failure> {
    match lock(rt, from) {
        Ok(locked) => {
            let copied = copy_files(rt, from, to);
            unlock(rt, from, locked);
            copied
        }
        Err(error) if is_read_only(&error) => copy_files(rt, from, to),
        Err(error) => Err(path_failure(rt, from, error)),
    }
}

/// Opens a copy of a backup's files that is made under a name, so that they stay as they are. The backup has to be there.
///
/// # Errors
///
/// `Store` where they can't be read or copied, another program has them open, or the file is missing or empty.
pub fn open_copied(rt: &HostRuntime, from: &str, to: &str) -> Result<StoreFile, Failure> {
    if is_no_path(from) {
        return Err(failure_by(rt, Cause::NoPath));
    }
    match length_of(rt, from) {
        None => Err(failure_by(rt, Cause::Missing)),
        Some(0) => Err(failure_by(rt, Cause::Empty)),
        Some(_) => {
            if copy_backup_files(rt, from, to)? {
                open_store_file(rt, to, Wanted::Existing)
            } else {
                Err(failure_by(rt, Cause::Failed))
            }
        }
    }
}

/// Removes the log beside a store's file, where it is there.
pub(crate) fn remove_log(rt: &HostRuntime, name: &str) {
    if let Ok(log) = log_name(rt.alloc(), name) {
        let _ = fs::remove_file(rt, log.as_str());
    }
}

/// A store's files, which nothing else can write as long as they are held.
#[derive(Drop)]
struct Locked {
    held: StoreFiles<DiskFile>,
    /// Whether there was a log before.
    had_log: bool,
}

/// Takes the locks of a store's files. The store has to be there.
fn lock(rt: &HostRuntime, name: &str) -> Result<Locked, OpenError> {
    let Ok(log) = log_name(rt.alloc(), name) else {
        return Err(OpenError::OutOfMemory);
    };
    let had_log = length_of(rt, log.as_str()).is_some();
    match sqlite_std_file::open(rt, name, Unknown) {
        Ok(held) => Ok(Locked { held, had_log }),
        Err(error) => Err(error),
    }
}

/// Lets the locks of a store's files go. A log that taking them made goes again.
fn unlock(rt: &HostRuntime, name: &str, locked: Locked) {
    let Locked { held, had_log } = locked;
    if !had_log {
        remove_log(rt, name);
    }
    drop(held);
}

/// Whether files can't be locked since they may not be written.
fn is_read_only(error: &OpenError) -> bool {
    match error {
        OpenError::Io(error) => matches!(
            error.kind(),
            io::ErrorKind::PermissionDenied | io::ErrorKind::ReadOnlyFilesystem
        ),
        _ => false,
    }
}

/// Opens a copy of a store's files in memory as `open_copy` does, while nothing else can write them. A log that opening them
/// makes goes again.
///
/// # Errors
///
/// Those of `open_copy`, and `Store` where another program has the store open.
pub fn open_locked_copy(rt: &HostRuntime, name: &str) -> Result<StoreCopy, Failure> {
    if length_of(rt, name).unwrap_or(0) == 0 || is_no_path(name) {
        return open_copy(rt, name);
    }
    let locked = match lock(rt, name) {
        Ok(locked) => locked,
        Err(error) => return Err(path_failure(rt, name, error)),
    };
    tell_mode(rt, name);
    let copy = open_copy(rt, name);
    unlock(rt, name, locked);
    copy
}

/// The same of a backup, also of one that may not be written.
///
/// # Errors
///
/// Those of `open_locked_copy`.
pub fn open_backup_copy(rt: &HostRuntime, name: &str) -> Result<StoreCopy, Failure> {
    if length_of(rt, name).unwrap_or(0) == 0 || is_no_path(name) {
        return open_copy(rt, name);
    }
    match lock(rt, name) {
        Ok(locked) => {
            tell_mode(rt, name);
            let copy = open_copy(rt, name);
            unlock(rt, name, locked);
            copy
        }
        Err(error) if is_read_only(&error) => open_copy(rt, name),
        Err(error) => Err(path_failure(rt, name, error)),
    }
}

/// Opens a copy as `open_locked_copy` does, and tells no cause; none where it can't be had.
pub fn open_untold_copy(rt: &HostRuntime, name: &str) -> Option<StoreCopy> {
    if length_of(rt, name).unwrap_or(0) == 0 || is_no_path(name) {
        return None;
    }
    let Ok(locked) = lock(rt, name) else {
        return None;
    };
    let copy = copy_now(rt, name, false);
    unlock(rt, name, locked);
    match copy {
        Ok(copy) => Some(copy),
        Err(_) => None,
    }
}

/// The path of a file, with no link in it.
///
/// # Errors
///
/// `NoStore` where it is missing, `Store` where it can't be looked at.
pub fn real_path(rt: &HostRuntime, name: &str) -> Result<PathBuf, Failure> {
    match fs::canonicalize(rt, name) {
        Ok(path) => Ok(path),
        Err(error) if error.kind() == io::ErrorKind::NotFound => {
            Err(failure_by(rt, Cause::Missing))
        }
        Err(_) => Err(failure_by(rt, Cause::NoPermission)),
    }
}

/// The bytes of the dump at a name; those of standard input without one, or where it is `-`.
///
/// # Errors
///
/// `Input` where they can't be read, or memory was refused.
pub fn read_dump_bytes(rt: &HostRuntime, name: Option<&str>) -> Result<Vec<u8>, Failure> {
    let mut bytes = Vec::new(rt.alloc());
    let read = match name {
        None | Some("-") => rt.reader().read_to_end(&mut bytes),
        Some(name) => {
            tell_stage(rt, Stage::Reading(name));
            match File::open(rt, name) {
                Ok(mut file) => file.read_to_end(&mut bytes),
                Err(error) => Err(error),
            }
        }
    };
    match read {
        Ok(_) => Ok(bytes),
        Err(_) => Err(Failure::Input(InputFault::Read)),
    }
}
