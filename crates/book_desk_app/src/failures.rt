//! Why a command was not done: its text for standard error, and the status of the program.

ghost use Rattle.std.specs.Prelude.{◌≡◌};
ghost use Rattle.book_desk_app.specs.Failures.{IsTold, adopt_status, failure_status, failure_text, init_status, policy_status};

use crate::lines::put_front;
use crate::serving_failures::{AdoptionFailure, StreamFailure};
use crate::text_failures::{BROKEN, InputFault, REFUSED};
use arrayvec::ArrayString;
use book_machine::AdoptFault;
use book_office::StoreFault;
use book_policy::PolicyFault;
use std::error::Error;
use std::fmt;
use std::fmt::Write as _;
use std::io::Write;

/// The most bytes of a line that tells a failure.
const MAX_LINE: usize = 64;

/// Why a store was not opened, or could not be read (own profile). It prints as what is told on standard error.
#[derive(Clone, Copy, Debug, PartialEq, Eq)]
pub enum StoreFailure {
    /// `store: other-version`: its tables are those of another version.
    OtherVersion,
    /// `store: no-store`: its tables are not there, or hold rows that stand for no Office.
    NoStore,
    /// `store: memory`: memory was refused.
    Memory,
    /// `store: store`: it failed.
    Store,
}

impl From<StoreFault> for StoreFailure {
    ghost use Rattle.book_desk_app.specs.Failures.{store_failure};

    ghost from_gives = { λ fault failure. failure ≡ store_failure fault };

    fn from(fault: StoreFault) -> StoreFailure {
        match fault {
            StoreFault::Memory => StoreFailure::Memory,
            StoreFault::Store => StoreFailure::Store,
        }
    }
}

impl fmt::Display for StoreFailure {
    ghost use Rattle.std.specs.Prelude.{Some};
    ghost use Rattle.book_desk_app.specs.Failures.{store_text};

    ghost output = { λ failure. Some (store_text failure) };

    fn fmt<W: fmt::Write>(&self, f: &mut fmt::Formatter<W>) -> fmt::Result {
        match self {
            StoreFailure::OtherVersion => f.write_str("store: other-version"),
            StoreFailure::NoStore => f.write_str("store: no-store"),
            StoreFailure::Memory => f.write_str("store: memory"),
            StoreFailure::Store => f.write_str("store: store"),
        }
    }
}

impl Error for StoreFailure {}

/// Why no files to begin with were made (own profile). It prints as what is told on standard error.
#[derive(Clone, Copy, Debug, PartialEq, Eq)]
pub enum InitFault {
    /// `init: exists`: a file of one of their names is there.
    Exists,
    /// `init: write`: the folder or a file could not be made.
    Write,
}

impl fmt::Display for InitFault {
    ghost use Rattle.std.specs.Prelude.{Some};
    ghost use Rattle.book_desk_app.specs.Failures.{init_text};

    ghost output = { λ fault. Some (init_text fault) };

    fn fmt<W: fmt::Write>(&self, f: &mut fmt::Formatter<W>) -> fmt::Result {
        match self {
            InitFault::Exists => f.write_str("init: exists"),
            InitFault::Write => f.write_str("init: write"),
        }
    }
}

impl Error for InitFault {}

/// Why a command was not done (own profile). It prints as what is told on standard error.
#[derive(Clone, Copy, Debug, PartialEq, Eq)]
pub enum Failure {
    /// The policy's file gave no text.
    Input(InputFault),
    /// The output could not be written.
    Output,
    /// No files to begin with were made.
    Init(InitFault),
    /// The port can't be had, or a connection can't be accepted.
    Listen,
    /// The text is no policy.
    Policy(PolicyFault),
    /// The store was not opened, or could not be read.
    Store(StoreFailure),
    /// The policy was not adopted.
    Adoption(AdoptionFailure),
    /// The requests of `pipe` were not served to their end, or a line of the log could not be written.
    Stream(StreamFailure),
}

impl Failure {
    /// The status of the program: 1 where the input was refused, 3 where memory, the store, a read or a write failed.
    pub fn status(&self) -> u8
        ensures { result ≡ failure_status self.now }
    {
        match self {
            Failure::Input(fault) => fault.status(),
            Failure::Output => BROKEN,
            Failure::Init(fault) => init_status(*fault),
            Failure::Listen => BROKEN,
            Failure::Policy(fault) => policy_status(*fault),
            Failure::Store(_) => BROKEN,
            Failure::Adoption(failure) => adopt_status(failure.fault),
            Failure::Stream(_) => BROKEN,
        }
    }
}

fn policy_status(fault: PolicyFault) -> u8
    ensures { result ≡ policy_status fault }
{
    match fault {
        PolicyFault::NotToml
        | PolicyFault::OtherVersion
        | PolicyFault::BadKey
        | PolicyFault::BadName
        | PolicyFault::NameTwice
        | PolicyFault::UnknownPrincipal
        | PolicyFault::UnknownResource
        | PolicyFault::UnknownPrivilege
        | PolicyFault::TooMany => REFUSED,
        PolicyFault::Memory => BROKEN,
    }
}

fn init_status(fault: InitFault) -> u8
    ensures { result ≡ init_status fault }
{
    match fault {
        InitFault::Exists => REFUSED,
        InitFault::Write => BROKEN,
    }
}

fn adopt_status(fault: AdoptFault) -> u8
    ensures { result ≡ adopt_status fault }
{
    match fault {
        AdoptFault::Full => REFUSED,
        AdoptFault::Unavailable => BROKEN,
    }
}

impl fmt::Display for Failure {
    ghost use Rattle.std.specs.Prelude.{Some};
    ghost use Rattle.book_desk_app.specs.Failures.{failure_text};

    ghost output = { λ failure. Some (failure_text failure) };

    fn fmt<W: fmt::Write>(&self, f: &mut fmt::Formatter<W>) -> fmt::Result {
        match self {
            Failure::Input(fault) => write!(f, "{fault}"),
            Failure::Output => f.write_str("output: write"),
            Failure::Init(fault) => write!(f, "{fault}"),
            Failure::Listen => f.write_str("listen: failed"),
            Failure::Policy(fault) => write!(f, "policy: {fault}"),
            Failure::Store(failure) => write!(f, "{failure}"),
            Failure::Adoption(failure) => write!(f, "{failure}"),
            Failure::Stream(failure) => write!(f, "{failure}"),
        }
    }
}

impl Error for Failure {}

/// Tells a failure on `errors`, as a line, and gives the status of the program. Where the line can't be written to its
/// end, a beginning of it was, and the status alone tells it.
pub fn tell<E: Write>(errors: &mut E, failure: &Failure) -> u8
    ensures status { result ≡ failure_status failure.now }
    ensures told { IsTold (failure_text failure.now) (E.contents errors.old)
        (E.contents errors.new) }
{
    let mut line = ArrayString::<MAX_LINE>::new();
    // No failure has a longer text.
    if writeln!(line, "{failure}").is_ok() {
        put_front(errors, line.as_bytes());
    }
    failure.status()
}
