//! Why a text is no card.

ghost use Rattle.std.specs.Prelude.{◌≡◌};
ghost use Rattle.book_cards.specs.declared.fault.CardFaultKind.TheVariants.{Memory};

use std::alloc::AllocError;
use std::error::Error;
use std::fmt;

/// What is wrong with a text that is no card; it prints as its name. Which of several faults is told is own
/// profile: first `TooLong`; then the first line, not past END, with `NoBegin`, `NoVersion`, `OtherVersion`,
/// `BadLine` or `Twice`; then `NoEnd` or `AfterEnd`; then `NoFormattedName`; then `MemberWithoutGroup`. On
/// one line `BadLine` comes before `Twice`.
#[derive(Clone, Copy, Debug, PartialEq, Eq, Drop)]
pub enum CardFaultKind {
    /// `no-begin`: line 1 isn't `BEGIN:VCARD` (RFC 6350, section 6.1.1), or the text is empty. Line 1.
    NoBegin,
    /// `no-version`: line 2 doesn't begin `VERSION:` (RFC 6350, section 6.7.9). Line 2.
    NoVersion,
    /// `other-version`: what follows `VERSION:` on line 2 isn't `4.0` (RFC 6350, section 6.7.9). Line 2.
    OtherVersion,
    /// `bad-line`: the line has not the form of a content line (RFC 6350, section 3.3), holds a control
    /// character, is named BEGIN or END, or is a KIND or MEMBER whose value has not its form (RFC 6350,
    /// sections 6.1.4 and 6.6.5).
    BadLine,
    /// `no-fn`: no line is FN (RFC 6350, section 6.2.1). The line of END.
    NoFormattedName,
    /// `twice`: KIND, UID or VERSION stands again (RFC 6350, sections 6.1.4, 6.7.6 and 6.7.9). The later line.
    Twice,
    /// `member-without-group`: MEMBER stands, and the kind is not `group` (RFC 6350, section 6.6.5). The
    /// first MEMBER.
    MemberWithoutGroup,
    /// `no-end`: no line is `END:VCARD` (RFC 6350, section 6.1.2). The number of lines and one.
    NoEnd,
    /// `after-end`: a line after `END:VCARD` isn't empty (own profile). The first of them.
    AfterEnd,
    /// `too-long`: the text has more than 65,536 bytes (own profile). Line 0.
    TooLong,
    /// `memory`: memory was refused; it may be told in place of any other. Line 0.
    Memory,
}

impl fmt::Display for CardFaultKind {
    ghost use Rattle.std.specs.Prelude.{Some};
    ghost use Rattle.book_cards.specs.FaultTexts.{card_fault_name};

    ghost output = { λ kind. Some (card_fault_name kind) };

    fn fmt<W: fmt::Write>(&self, f: &mut fmt::Formatter<W>) -> fmt::Result {
        match self {
            CardFaultKind::NoBegin => f.write_str("no-begin"),
            CardFaultKind::NoVersion => f.write_str("no-version"),
            CardFaultKind::OtherVersion => f.write_str("other-version"),
            CardFaultKind::BadLine => f.write_str("bad-line"),
            CardFaultKind::NoFormattedName => f.write_str("no-fn"),
            CardFaultKind::Twice => f.write_str("twice"),
            CardFaultKind::MemberWithoutGroup => f.write_str("member-without-group"),
            CardFaultKind::NoEnd => f.write_str("no-end"),
            CardFaultKind::AfterEnd => f.write_str("after-end"),
            CardFaultKind::TooLong => f.write_str("too-long"),
            CardFaultKind::Memory => f.write_str("memory"),
        }
    }
}

impl Error for CardFaultKind {}

/// A fault of a text, and its line among the lines of the unfolded text, from 1; line 0 where the fault is of
/// the whole text. It prints as `line N: NAME`.
#[derive(Clone, Copy, Debug, PartialEq, Eq, Drop)]
pub struct CardFault {
    /// What is wrong.
    pub kind: CardFaultKind,
    /// The line, from 1, or 0.
    pub line: usize,
}

impl fmt::Display for CardFault {
    ghost use Rattle.std.specs.Prelude.{Some};
    ghost use Rattle.book_cards.specs.FaultTexts.{card_fault_text};

    ghost output = { λ fault. Some (card_fault_text fault) };

    fn fmt<W: fmt::Write>(&self, f: &mut fmt::Formatter<W>) -> fmt::Result {
        let kind = self.kind;
        let line = self.line;
        write!(f, "line {line}: {kind}")
    }
}

impl Error for CardFault {}

impl From<AllocError> for CardFault {
    ghost from_gives = { λ _ fault. fault ≡ record { kind = Memory; line = 0 } };

    fn from(_error: AllocError) -> CardFault {
        CardFault {
            kind: CardFaultKind::Memory,
            line: 0,
        }
    }
}
