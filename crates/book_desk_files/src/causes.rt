//! Why the files of a store can't be had, told in words where the words of the program want it.

use std::io::Write;
use std::{env, fmt};

/// The option that wants it.
const WANTED: &str = "--cause";

/// The command that tells it without the option.
const DOCTOR: &str = "doctor";

/// Why a store's files can't be had, or what else is to be known of them.
#[derive(Clone, Copy)]
pub enum Cause {
    /// The name is one that sqlite3 reads as something else than a path.
    NoPath,
    /// There is no file.
    Missing,
    /// The file has no byte.
    Empty,
    /// The file is missing or has no byte, and its log holds a commit.
    Lost,
    /// There is no folder for it.
    NoFolder,
    /// The file, its log or its folder may not be read or written.
    NoPermission,
    /// A folder has its name.
    Folder,
    /// Something else that is no file has its name, or that of its log.
    NoFile,
    /// The file has a second name.
    SecondName,
    /// Another program has it open.
    Busy,
    /// A rollback journal lies beside it.
    Journal,
    /// Another file took its name.
    Replaced,
    /// The file is no database.
    NoDatabase,
    /// The file is damaged, a row of it names one that is not there, or the log is that of another one.
    Damaged,
    /// Memory was refused; how many bytes the file has.
    Memory(u64),
    /// The disk is full.
    Full,
    /// A read or a write failed.
    Failed,
    /// Others may read the file, which has this mode.
    Readable(u32),
    /// The store is of this version, and the program makes those of the other.
    OtherVersion(i64, u8),
}

/// What to do with a store of another version.
fn advice_of(found: i64, made: u8) -> &'static str {
    if found < i64::from(made) {
        "run migrate"
    } else {
        "a newer program made it"
    }
}

impl fmt::Display for Cause {
    fn fmt<W: fmt::Write>(&self, f: &mut fmt::Formatter<W>) -> fmt::Result {
        match self {
            Cause::NoPath => f.write_str("the name is no path of a file"),
            Cause::Missing => f.write_str("there is no such file"),
            Cause::Empty => f.write_str("the file is empty"),
            Cause::Lost => f.write_str(
                "the file is missing or empty, and the log beside it, FILE-wal, holds a commit",
            ),
            Cause::NoFolder => f.write_str("there is no such folder"),
            Cause::NoPermission => f.write_str("no permission for the file, its log or its folder"),
            Cause::Folder => f.write_str("it is a folder"),
            Cause::NoFile => f.write_str("it, or FILE-wal, is no regular file"),
            Cause::SecondName => f.write_str("the file has a second name, a hard link"),
            Cause::Busy => f.write_str("another program has it open"),
            Cause::Journal => f.write_str(
                "a rollback journal lies beside it, FILE-journal: open it with sqlite3 first",
            ),
            Cause::Replaced => f.write_str("another file took its name"),
            Cause::NoDatabase => f.write_str("the file is no database"),
            Cause::Damaged => f.write_str(
                "the file is damaged, a row names one that is not there, or the log is of another store",
            ),
            Cause::Memory(bytes) => write!(f, "out of memory; the file has {bytes} bytes"),
            Cause::Full => f.write_str("the disk is full"),
            Cause::Failed => f.write_str("a read or a write failed"),
            Cause::Readable(mode) => write!(f, "others may read the file: its mode is {mode:04o}"),
            Cause::OtherVersion(found, made) => {
                let advice = advice_of(*found, *made);
                write!(
                    f,
                    "the store has version {found}, and this program has {made}: {advice}"
                )
            }
        }
    }
}

/// Whether the words of the program want causes.
pub fn wants_causes(rt: &HostRuntime) -> bool {
    match env::args(rt) {
        Ok(words) => {
            for (at, word) in words.skip(1).enumerate() {
                if word.as_str() == WANTED || (at == 0 && word.as_str() == DOCTOR) {
                    return true;
                }
            }
            false
        }
        Err(_) => false,
    }
}

/// Tells a cause on standard error, on a line, where the words of the program want it.
pub fn tell_cause(rt: &HostRuntime, cause: Cause) {
    if wants_causes(rt) {
        let _ = writeln!(rt.stderr(), "cause: {cause}");
    }
}

/// Tells a row that breaks a rule as a cause, on a line.
pub fn tell_row(rt: &HostRuntime, row: &[u8]) {
    let mut errors = rt.stderr();
    let _ = errors.write_all(b"cause: ");
    let _ = errors.write_all(row);
    let _ = errors.write_all(b"\n");
}
