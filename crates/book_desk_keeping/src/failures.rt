//! Why a store was not made, or differs: what is told on standard error, and the status of the program.

ghost use Rattle.std.specs.Prelude.{◌≡◌, ◌++◌, ◌≤◌, codes, length};
ghost use Rattle.book_desk_app.specs.Failures.{store_text};
ghost use Rattle.book_desk_app.specs.Telling.{TellsLine};
ghost use Rattle.book_desk_keeping.specs.Failures.{copy_fault, fault_status, keeping_text, load_fault};
ghost use Rattle.book_dumps_reading.specs.Faults.{fault_text, key_line};

use arrayvec::ArrayString;
use book_desk_app::{BROKEN, Lines, REFUSED, StoreFailure};
use book_dumps_loading::LoadFault;
use book_dumps_reading::{Key, LineFault};
use itoa::Buffer;

/// The most bytes of what is told.
const MAX_LINE: usize = 96;

/// Why a store was not made, or differs (own profile).
#[derive(Clone, Copy, Debug, PartialEq, Eq)]
pub enum KeepingFault {
    /// `line N: NAME`, and where there is a key `key: KEY` on a second line: the text is no dump.
    Line(LineFault),
    /// `load: exists`: the new store has a table, an index or a view, or its file is there.
    LoadExists,
    /// `load: refused`: what was read back is no Office, or is not the one that was told.
    LoadRefused,
    /// `load: unknown-principal`: a person or group that a change names has no line in the dump.
    LoadUnknownPrincipal,
    /// `load: last-number`: the epoch would be above the last.
    LoadLastNumber,
    /// `backup: exists`: the file of the copy is there.
    BackupExists,
    /// `backup: differs`: two stores stand for different Offices.
    BackupDiffers,
    /// `copy: exists`: the store of the copy has a table, an index or a view.
    CopyExists,
    /// `copy: refused`: what was read back is not the Office of the source.
    CopyRefused,
    /// `copy: last-number`: the epoch would be above the last.
    CopyLastNumber,
    /// `restore: not-found`: a path is neither a card nor a book of the backup.
    RestoreNotFound,
    /// `restore: no-parent`: the book of a card is neither in the store nor restored.
    RestoreNoParent,
    /// `restore: unknown-principal`: a person or group of what is restored has no line in the store.
    RestoreUnknownPrincipal,
    /// `restore: full`: there would be too many books, or too many cards, or a number above the last.
    RestoreFull,
    /// `restore: last-number`: the epoch would be above the last.
    RestoreLastNumber,
    /// `store: NAME`: a store was not opened, or could not be read or written, or memory was refused.
    Store(StoreFailure),
    /// `output: write`: what was changed could not be written.
    Output,
}

/// The fault of a load as what is told of it.
pub(crate) fn load_fault(fault: LoadFault) -> KeepingFault
    ensures { result ≡ load_fault fault }
{
    match fault {
        LoadFault::Exists => KeepingFault::LoadExists,
        LoadFault::Refused | LoadFault::Unequal => KeepingFault::LoadRefused,
        LoadFault::Memory => KeepingFault::Store(StoreFailure::Memory),
        LoadFault::Store => KeepingFault::Store(StoreFailure::Store),
    }
}

/// The fault of a copy as what is told of it.
pub(crate) fn copy_fault(fault: LoadFault) -> KeepingFault
    ensures { result ≡ copy_fault fault }
{
    match fault {
        LoadFault::Exists => KeepingFault::CopyExists,
        LoadFault::Refused | LoadFault::Unequal => KeepingFault::CopyRefused,
        LoadFault::Memory => KeepingFault::Store(StoreFailure::Memory),
        LoadFault::Store => KeepingFault::Store(StoreFailure::Store),
    }
}

/// What is told of a failure of a store.
fn store_line(failure: StoreFailure) -> &'static str
    ensures line { result.now ≡ store_text failure ++ codes "\n" }
    ensures short { length result.now ≤ 32 }
{
    match failure {
        StoreFailure::OtherVersion => "store: other-version\n",
        StoreFailure::NoStore => "store: no-store\n",
        StoreFailure::Memory => "store: memory\n",
        StoreFailure::Store => "store: store\n",
    }
}

/// A text that is short.
fn short_line(text: &str) -> ArrayString<MAX_LINE>
    requires { length text.now ≤ 32 }
    ensures { result.bytes ≡ text.now }
{
    let mut line = ArrayString::new();
    line.push_str(text);
    line
}

/// The second line of a fault of a dump, where it has a key, without its end.
#[tactic(auto, using(crate::proofs::Names::keys_are_short))]
fn key_text(key: Option<Key>) -> ArrayString<32>
    ensures { result.bytes ≡ key_line key }
{
    let mut line = ArrayString::new();
    if let Some(key) = key {
        line.push_str("\nkey: ");
        line.push_str(key.text());
    }
    line
}

/// What is told of a text that is no dump.
#[tactic(auto, using(crate::proofs::Names::problems_are_short))]
fn fault_lines(fault: &LineFault) -> ArrayString<MAX_LINE>
    ensures { result.bytes ≡ fault_text fault.now ++ codes "\n" }
{
    let mut number = Buffer::new();
    let key = key_text(fault.key);
    let mut line = ArrayString::new();
    line.push_str("line ");
    line.push_str(number.format(fault.line));
    line.push_str(": ");
    line.push_str(fault.problem.name());
    line.push_str(key.as_str());
    line.push_str("\n");
    line
}

/// What is told.
fn lines_of(fault: &KeepingFault) -> ArrayString<MAX_LINE>
    ensures { result.bytes ≡ keeping_text fault.now ++ codes "\n" }
{
    match fault {
        KeepingFault::Line(fault) => fault_lines(fault),
        KeepingFault::LoadExists => short_line("load: exists\n"),
        KeepingFault::LoadRefused => short_line("load: refused\n"),
        KeepingFault::LoadUnknownPrincipal => short_line("load: unknown-principal\n"),
        KeepingFault::LoadLastNumber => short_line("load: last-number\n"),
        KeepingFault::BackupExists => short_line("backup: exists\n"),
        KeepingFault::BackupDiffers => short_line("backup: differs\n"),
        KeepingFault::CopyExists => short_line("copy: exists\n"),
        KeepingFault::CopyRefused => short_line("copy: refused\n"),
        KeepingFault::CopyLastNumber => short_line("copy: last-number\n"),
        KeepingFault::RestoreNotFound => short_line("restore: not-found\n"),
        KeepingFault::RestoreNoParent => short_line("restore: no-parent\n"),
        KeepingFault::RestoreUnknownPrincipal => short_line("restore: unknown-principal\n"),
        KeepingFault::RestoreFull => short_line("restore: full\n"),
        KeepingFault::RestoreLastNumber => short_line("restore: last-number\n"),
        KeepingFault::Store(failure) => short_line(store_line(*failure)),
        KeepingFault::Output => short_line("output: write\n"),
    }
}

/// The status of the program.
fn status_of(fault: &KeepingFault) -> u8
    ensures { result ≡ fault_status fault.now }
{
    match fault {
        KeepingFault::Line(_)
        | KeepingFault::LoadExists
        | KeepingFault::LoadUnknownPrincipal
        | KeepingFault::LoadLastNumber
        | KeepingFault::BackupExists
        | KeepingFault::BackupDiffers
        | KeepingFault::CopyExists
        | KeepingFault::CopyLastNumber
        | KeepingFault::RestoreNotFound
        | KeepingFault::RestoreNoParent
        | KeepingFault::RestoreUnknownPrincipal
        | KeepingFault::RestoreFull
        | KeepingFault::RestoreLastNumber => REFUSED,
        KeepingFault::LoadRefused
        | KeepingFault::CopyRefused
        | KeepingFault::Store(_)
        | KeepingFault::Output => BROKEN,
    }
}

/// Tells why a store was not made, or that two differ, on `errors`, and gives the status of the program: 1 where the
/// input was refused or two stores differ, 3 where memory was refused, a store or a write failed, or what was read back
/// is not what was told.
pub fn tell_fault<E: Lines>(errors: &mut E, fault: &KeepingFault) -> u8
    ensures status { result ≡ fault_status fault.now }
    ensures told { TellsLine (E.is_whole errors.new) (E.Write.contents errors.old)
        (E.Write.contents errors.new) (keeping_text fault.now) }
{
    let lines = lines_of(fault);
    errors.put(lines.as_str().as_bytes());
    status_of(fault)
}
