//! Why a text is no dump, and where.

ghost use Rattle.std.specs.Prelude.{◌≡◌};
ghost use Rattle.book_dumps_reading.specs.Faults.{key_name, problem_name};

use std::alloc::{AllocError, AllocFailed};
use std::error::Error;
use std::fmt;

/// What is wrong with a line of a text that is read as a dump (own profile).
#[derive(Clone, Copy, Debug, PartialEq, Eq)]
pub enum LineProblem {
    /// `bad-line`: it is not the line that a dump would have there.
    BadLine,
    /// `bad-name`: what stands for a path or a name is none, or is a card of a book that is not there.
    BadName,
    /// `order`: a path is not above that of the line before, or removed names are not in order of number.
    Order,
    /// `unknown-principal`: a person or group is named that has no line.
    UnknownPrincipal,
    /// `too-many`: there are more entries, members, cards of a book, or books than an Office may have.
    TooMany,
    /// `too-long`: a label or a text is longer than an Office may have.
    TooLong,
    /// `last-line`: the text ends otherwise than with the number of its lines, or goes on after it.
    LastLine,
}

impl LineProblem {
    /// The name, as `bad-line`.
    pub fn name(self) -> &'static str
        ensures { result.now ≡ problem_name self }
    {
        match self {
            LineProblem::BadLine => "bad-line",
            LineProblem::BadName => "bad-name",
            LineProblem::Order => "order",
            LineProblem::UnknownPrincipal => "unknown-principal",
            LineProblem::TooMany => "too-many",
            LineProblem::TooLong => "too-long",
            LineProblem::LastLine => "last-line",
        }
    }
}

/// A key of a line of a dump. The keys of a resource stand in the order from `Path` to `Text`.
#[derive(Clone, Copy, Debug, PartialEq, Eq)]
pub enum Key {
    /// `epoch`: of the first line.
    Epoch,
    /// `path`: of a resource.
    Path,
    /// `owner`: of a resource.
    Owner,
    /// `label`: of a resource.
    Label,
    /// `protected`: of a resource other than a card.
    Protected,
    /// `own`: of a resource.
    Own,
    /// `members`: of a group.
    Members,
    /// `number`: of a book or a card.
    Number,
    /// `removed`: of a book.
    Removed,
    /// `text`: of a card.
    Text,
    /// `lines`: of the last line.
    Lines,
}

impl Key {
    /// The key, as it is spelled.
    pub fn text(self) -> &'static str
        ensures { result.now ≡ key_name self }
    {
        match self {
            Key::Epoch => "epoch",
            Key::Path => "path",
            Key::Owner => "owner",
            Key::Label => "label",
            Key::Protected => "protected",
            Key::Own => "own",
            Key::Members => "members",
            Key::Number => "number",
            Key::Removed => "removed",
            Key::Text => "text",
            Key::Lines => "lines",
        }
    }
}

/// The least line of a text that is wrong, and in it the first key that is. It prints as `line N: NAME`, and where
/// there is a key as a second line `key: KEY`.
#[derive(Clone, Copy, Debug, PartialEq, Eq)]
pub struct LineFault {
    /// The number of the line, from 1.
    pub line: u64,
    /// What is wrong.
    pub problem: LineProblem,
    /// The key at which it is wrong, if it is one of a dump.
    pub key: Option<Key>,
}

impl fmt::Display for LineFault {
    ghost use Rattle.std.specs.Prelude.{Some};
    ghost use Rattle.book_dumps_reading.specs.Faults.{fault_text};

    ghost output = { λ fault. Some (fault_text fault) };

    fn fmt<W: fmt::Write>(&self, f: &mut fmt::Formatter<W>) -> fmt::Result {
        let line = self.line;
        let name = self.problem.name();
        match self.key {
            None => write!(f, "line {line}: {name}"),
            Some(key) => {
                let key = key.text();
                write!(f, "line {line}: {name}\nkey: {key}")
            }
        }
    }
}

impl Error for LineFault {}

/// Why a text was not read as a dump.
#[derive(Clone, Copy, Debug, PartialEq, Eq)]
pub enum ReadFault {
    /// Memory was refused.
    Memory,
    /// The text is no dump.
    Line(LineFault),
}

impl From<AllocError> for ReadFault {
    ghost use Rattle.std.specs.Prelude.{◌≡◌};
    ghost use Rattle.book_dumps_reading.specs.declared.faults.ReadFault.TheVariants.{Memory};

    ghost from_gives = { λ _ fault. fault ≡ Memory };

    fn from(_error: AllocError) -> ReadFault {
        ReadFault::Memory
    }
}

impl<T: Drop> From<AllocFailed<T>> for ReadFault {
    ghost use Rattle.std.specs.Prelude.{◌≡◌};
    ghost use Rattle.book_dumps_reading.specs.declared.faults.ReadFault.TheVariants.{Memory};

    ghost from_gives = { λ _ fault. fault ≡ Memory };

    fn from(_error: AllocFailed<T>) -> ReadFault {
        ReadFault::Memory
    }
}

/// Where a value stands: its line, and the key under which it stands.
#[derive(Clone, Copy, Debug)]
pub(crate) struct Spot {
    /// The number of the line, from 1.
    pub(crate) line: u64,
    /// The key.
    pub(crate) key: Key,
}

impl Spot {
    /// The fault of a value there.
    pub(crate) fn fault(self, problem: LineProblem) -> ReadFault {
        ReadFault::Line(LineFault {
            line: self.line,
            problem,
            key: Some(self.key),
        })
    }

    /// The fault of a value there that is not what a dump would have.
    pub(crate) fn bad(self) -> ReadFault {
        self.fault(LineProblem::BadLine)
    }
}

/// The fault of a whole line.
pub(crate) fn line_fault(line: u64, problem: LineProblem) -> ReadFault {
    ReadFault::Line(LineFault {
        line,
        problem,
        key: None,
    })
}
