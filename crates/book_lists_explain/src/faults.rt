//! Faults of `explain` texts.

ghost use Rattle.std.specs.Prelude.{◌≡◌, ◌≢◌, ◌⊎◌};
ghost use Rattle.book_lists_explain.specs.declared.faults.ExplainFaultKind.TheVariants.{Memory};

use std::alloc::{AllocError, AllocFailed};
use std::error::Error;
use std::fmt;

/// What is wrong with an `explain` text (own profile); it prints as its name. Of the faults of one line the earliest
/// of these is told.
#[derive(Clone, Copy, Debug, PartialEq, Eq, Drop)]
pub enum ExplainFaultKind {
    /// The line has none of the forms.
    BadLine,
    /// A word where a principal is wanted is none; a group or a person is wanted, and it is not one.
    BadName,
    /// A word where a privilege is wanted is none.
    UnknownPrivilege,
    /// A line that may stand once stands again.
    Twice,
    /// There is no caller or no need; it is told after all lines.
    Missing,
    /// More than 1,000 memberships, or more than 64 entries.
    TooMany,
    /// Memory was refused; it may be told in place of any other.
    Memory,
}

impl fmt::Display for ExplainFaultKind {
    ghost use Rattle.std.specs.Prelude.{Some};
    ghost use Rattle.book_lists_explain.specs.FaultTexts.{explain_fault_name};

    ghost output = { λ kind. Some (explain_fault_name kind) };

    fn fmt<W: fmt::Write>(&self, f: &mut fmt::Formatter<W>) -> fmt::Result {
        match self {
            ExplainFaultKind::BadLine => f.write_str("bad-line"),
            ExplainFaultKind::BadName => f.write_str("bad-name"),
            ExplainFaultKind::UnknownPrivilege => f.write_str("unknown-privilege"),
            ExplainFaultKind::Twice => f.write_str("twice"),
            ExplainFaultKind::Missing => f.write_str("missing"),
            ExplainFaultKind::TooMany => f.write_str("too-many"),
            ExplainFaultKind::Memory => f.write_str("memory"),
        }
    }
}

impl Error for ExplainFaultKind {}

impl From<AllocError> for ExplainFaultKind {
    ghost use Rattle.std.specs.Prelude.{◌≡◌};
    ghost use Rattle.book_lists_explain.specs.declared.faults.ExplainFaultKind.TheVariants.{Memory};

    ghost from_gives = { λ _ e. e ≡ Memory };

    fn from(_error: AllocError) -> ExplainFaultKind {
        ExplainFaultKind::Memory
    }
}

impl<T: Drop> From<AllocFailed<T>> for ExplainFaultKind {
    ghost use Rattle.std.specs.Prelude.{◌≡◌};
    ghost use Rattle.book_lists_explain.specs.declared.faults.ExplainFaultKind.TheVariants.{Memory};

    ghost from_gives = { λ _ e. e ≡ Memory };

    fn from(_error: AllocFailed<T>) -> ExplainFaultKind {
        ExplainFaultKind::Memory
    }
}

/// A fault of an `explain` text, and its line from 1; line 0 where the fault is of the whole text. It prints as
/// `line N: NAME`.
#[derive(Clone, Copy, Debug, PartialEq, Eq, Drop)]
pub struct ExplainFault {
    /// What is wrong.
    pub kind: ExplainFaultKind,
    /// The line, from 1, or 0.
    pub line: usize,
}

impl fmt::Display for ExplainFault {
    ghost use Rattle.std.specs.Prelude.{Some};
    ghost use Rattle.book_lists_explain.specs.FaultTexts.{explain_fault_text};

    ghost output = { λ fault. Some (explain_fault_text fault) };

    fn fmt<W: fmt::Write>(&self, f: &mut fmt::Formatter<W>) -> fmt::Result {
        let kind = self.kind;
        let line = self.line;
        write!(f, "line {line}: {kind}")
    }
}

impl Error for ExplainFault {}

/// The fault of this kind at this line; want of memory is of the whole text.
pub(crate) fn fault_at(kind: ExplainFaultKind, line: usize) -> ExplainFault
    ensures { (result.kind ≡ kind)
        × ((kind ≡ Memory) × (result.line ≡ 0) ⊎ (kind ≢ Memory) × (result.line ≡ line)) }
{
    match kind {
        ExplainFaultKind::Memory => ExplainFault { kind, line: 0 },
        _ => ExplainFault { kind, line },
    }
}
