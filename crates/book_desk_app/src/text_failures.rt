//! Why a text was not read, and why a command was not done: what is told on standard error, and the status of the
//! program.

ghost use Rattle.std.specs.Prelude.{◌≡◌};
ghost use Rattle.book_desk_app.specs.TextFailures.{input_status, explain_status, card_status, failure_status};

use book_cards::{CardFault, CardFaultKind};
use book_lists_explain::{ExplainFault, ExplainFaultKind};
use std::error::Error;
use std::fmt;

/// The status of a program that has done its work.
pub const DONE: u8 = 0;
/// The status where the input was refused.
pub const REFUSED: u8 = 1;
/// The status where memory was refused, or a read or a write failed.
pub const BROKEN: u8 = 3;

/// Why an input gave no text (own profile). It prints as what is told on standard error.
#[derive(Clone, Copy, Debug, PartialEq, Eq)]
pub enum InputFault {
    /// `input: read`: it could not be read, for want of memory too.
    Read,
    /// `input: not-utf-8`: it is not UTF-8.
    NotUtf8,
}

impl InputFault {
    /// The status of the program: 1 where the input is not UTF-8, 3 where it could not be read.
    pub fn status(self) -> u8
        ensures { result ≡ input_status self }
    {
        match self {
            InputFault::Read => BROKEN,
            InputFault::NotUtf8 => REFUSED,
        }
    }
}

impl fmt::Display for InputFault {
    ghost use Rattle.std.specs.Prelude.{Some};
    ghost use Rattle.book_desk_app.specs.TextFailures.{input_text};

    ghost output = { λ fault. Some (input_text fault) };

    fn fmt<W: fmt::Write>(&self, f: &mut fmt::Formatter<W>) -> fmt::Result {
        match self {
            InputFault::Read => f.write_str("input: read"),
            InputFault::NotUtf8 => f.write_str("input: not-utf-8"),
        }
    }
}

impl Error for InputFault {}

/// Why a command over a text was not done (own profile). It prints as what is told on standard error.
#[derive(Debug, Drop, PartialEq, Eq)]
pub enum TextFailure {
    /// The input gave no text.
    Input(InputFault),
    /// The output could not be written.
    Output,
    /// The text that `explain` read has this fault.
    Explain(ExplainFault),
    /// The text that `card` read has this fault.
    Card(CardFault),
}

impl TextFailure {
    /// The status of the program: 1 where the input was refused, 3 where memory, a read or a write failed.
    pub fn status(&self) -> u8
        ensures { result ≡ failure_status self.now }
    {
        match self {
            TextFailure::Input(fault) => fault.status(),
            TextFailure::Output => BROKEN,
            TextFailure::Explain(fault) => explain_status(fault.kind),
            TextFailure::Card(fault) => card_status(fault.kind),
        }
    }
}

fn explain_status(kind: ExplainFaultKind) -> u8
    ensures { result ≡ explain_status kind }
{
    match kind {
        ExplainFaultKind::Memory => BROKEN,
        _ => REFUSED,
    }
}

fn card_status(kind: CardFaultKind) -> u8
    ensures { result ≡ card_status kind }
{
    match kind {
        CardFaultKind::Memory => BROKEN,
        _ => REFUSED,
    }
}

impl From<InputFault> for TextFailure {
    ghost use Rattle.book_desk_app.specs.declared.text_failures.TextFailure.TheVariants.{Input};

    ghost from_gives = { λ fault failure. failure ≡ Input fault };

    fn from(fault: InputFault) -> TextFailure {
        TextFailure::Input(fault)
    }
}

impl fmt::Display for TextFailure {
    ghost use Rattle.std.specs.Prelude.{Some};
    ghost use Rattle.book_desk_app.specs.TextFailures.{failure_text};

    ghost output = { λ failure. Some (failure_text failure) };

    fn fmt<W: fmt::Write>(&self, f: &mut fmt::Formatter<W>) -> fmt::Result {
        match self {
            TextFailure::Input(fault) => write!(f, "{fault}"),
            TextFailure::Output => f.write_str("output: write"),
            TextFailure::Explain(fault) => write!(f, "{fault}"),
            TextFailure::Card(fault) => write!(f, "{fault}"),
        }
    }
}

impl Error for TextFailure {}
