//! What is wrong with a text that is no card: one pass over its lines.

ghost use Rattle.std.specs.Prelude.{◌≡◌, ◌<◌, ◌+◌, ◌^◌, [], length, Ok, Err, IfOk, IfErr, IfSome};
ghost use Rattle.std.specs.Option.{option_map};
ghost use Rattle.std.specs.Result.{result_err};
ghost use Rattle.std.specs.List.{list_any, list_all};
ghost use Rattle.std.specs.Str.Lines.{lines};
ghost use Rattle.book_cards.specs.Folding.{is_blank};
ghost use Rattle.book_cards.specs.ContentLine.{is_name_byte};
ghost use Rattle.book_cards.specs.Content.{is_control, is_kind_value, is_scheme_byte, is_scheme, is_uri, may_have, content_of};
ghost use Rattle.book_cards.specs.CardText.{after_end_fault, version_fault, lines_fault};
ghost use Rattle.book_cards.specs.Places.{ArePlaces, Follows};
ghost use Rattle.book_cards.specs.Properties.{property_at, property_of};
ghost use Rattle.book_cards.specs.Views.{view};
ghost use Rattle.book_cards.specs.Scanning.{seen_in, seen_with, seen_fault, pass_content, scan};

use crate::fault::{CardFault, CardFaultKind};
use crate::line::{Line, is_name_byte};
use crate::places::{Places, PlacesSeen};
use crate::property::{Property, is_word, property_named};
use crate::text::split_line;

/// Whether all bytes are letters, digits, `+`, `-` or `.`.
fn has_scheme_bytes(text: &str) -> bool
    ensures { result ≡ list_all is_scheme_byte text.now }
{
    text.as_bytes().iter().all(|byte| byte.is_ascii_alphanumeric()
        || *byte == b'+'
        || *byte == b'-'
        || *byte == b'.')
}

/// Whether the text is a letter, and then such bytes.
fn is_scheme_text(text: &str) -> bool
    ensures { result ≡ is_scheme text.now }
{
    match text.as_bytes().first() {
        Some(byte) => byte.is_ascii_alphabetic() && has_scheme_bytes(text),
        None => false,
    }
}

/// Whether a space or a tab stands in the text.
fn has_blank(text: &str) -> bool
    ensures { result ≡ list_any is_blank text.now }
{
    text.as_bytes()
        .iter()
        .any(|byte| *byte == b' ' || *byte == b'\t')
}

/// Whether the value is a scheme, a colon, and something without blanks.
fn is_uri_text(value: &str) -> bool
    ensures { result ≡ is_uri value.now }
{
    match value.split_once(':') {
        Some((scheme, rest)) => is_scheme_text(scheme) && !rest.is_empty() && !has_blank(rest),
        None => false,
    }
}

/// Whether a control character other than a tab stands in the text.
fn has_control(text: &str) -> bool
    ensures { result ≡ list_any is_control text.now }
{
    text.as_bytes()
        .iter()
        .any(|byte| (*byte < b' ' && *byte != b'\t') || *byte == 0x7f)
}

/// Whether all bytes are letters, digits or hyphens.
fn has_name_bytes(text: &str) -> bool
    ensures { result ≡ list_all is_name_byte text.now }
{
    text.as_bytes().iter().all(|byte| is_name_byte(*byte))
}

/// Whether the value is letters, digits and hyphens, at least one.
fn is_kind_text(value: &str) -> bool
    ensures { result ≡ is_kind_value value.now }
{
    !value.is_empty() && has_name_bytes(value)
}

/// Whether a property may have this value.
fn may_have(property: Property, value: &str) -> bool
    ensures { result ≡ may_have property value.now }
{
    match property {
        Property::Begin | Property::End => false,
        Property::Kind => is_kind_text(value),
        Property::Member => is_uri_text(value),
        Property::Version | Property::FormattedName | Property::Uid | Property::Other => true,
    }
}

/// A line that may stand between the version and the end, and its property.
fn read_content(text: &str) -> Option<(Property, Line<'_>)>
    ensures line { option_map (λ read. view read.1) result ≡ content_of text.now }
    ensures named { IfSome result (λ read. read.0 ≡ property_of read.1.name.now) }
    ensures property { IfSome result (λ read. read.0 ≡ property_at text.now) }
{
    if has_control(text) {
        return None;
    }
    let line = Line::read(text)?;
    let property = property_named(line.name);
    if may_have(property, line.value) {
        Some((property, line))
    } else {
        None
    }
}

/// What has been seen of the content lines so far.
#[derive(Clone, Copy)]
struct Seen {
    /// Whether the kind is a group, where there is one.
    group: Option<bool>,
    uid: bool,
    formatted_name: bool,
    /// The number of the first MEMBER line.
    member: Option<usize>,
}

impl Seen {
    /// Nothing.
    fn new() -> Seen
        ensures { result ≡ seen_in [] }
    {
        Seen {
            group: None,
            uid: false,
            formatted_name: false,
            member: None,
        }
    }

    /// With one more property, unless it may not stand again.
    fn with(self, property: Property, value: &str, number: usize) -> Option<Seen>
        ensures { result ≡ seen_with self property value.now number }
    {
        match property {
            Property::Version => None,
            Property::Kind if self.group.is_some() => None,
            Property::Kind => Some(Seen {
                group: Some(is_word(value, "group")),
                ..self
            }),
            Property::Uid if self.uid => None,
            Property::Uid => Some(Seen { uid: true, ..self }),
            Property::FormattedName => Some(Seen {
                formatted_name: true,
                ..self
            }),
            Property::Member => Some(Seen {
                member: self.member.or(Some(number)),
                ..self
            }),
            Property::Begin | Property::End | Property::Other => Some(self),
        }
    }

    /// What is missing, or should not be there, where the end is at this line.
    fn finish(self, number: usize) -> Result<(), CardFault>
        ensures { result_err result ≡ seen_fault self number }
    {
        if !self.formatted_name {
            return fault(CardFaultKind::NoFormattedName, number);
        }
        match (self.group, self.member) {
            (None | Some(false), Some(line)) => fault(CardFaultKind::MemberWithoutGroup, line),
            _ => Ok(()),
        }
    }
}

/// This fault at this line.
fn fault<T>(kind: CardFaultKind, line: usize) -> Result<T, CardFault>
    ensures { result ≡ Err (record { kind = kind; line = line }) }
{
    Err(CardFault { kind, line })
}

/// Whether the lines after the end, from this number on, are empty.
fn check_after_end(text: &str, first: usize) -> Result<(), CardFault>
    requires { first + length text.now < 2 ^ 64 }
    ensures { result_err result ≡ after_end_fault first (lines text.now) }
{
    let mut rest = text;
    let mut number = first;
    while let Some((line, after)) = split_line(rest) {
        if !line.is_empty() {
            return fault(CardFaultKind::AfterEnd, number);
        }
        rest = after;
        number += 1;
    }
    Ok(())
}

/// The fault of line 2.
fn check_version(line: &str) -> Result<(), CardFaultKind>
    ensures { result_err result ≡ version_fault line.now }
{
    let bytes = line.as_bytes();
    if bytes.len() < 8 {
        return Err(CardFaultKind::NoVersion);
    }
    let (name, value) = bytes.split_at(8);
    if !name.eq_ignore_ascii_case(b"VERSION:") {
        return Err(CardFaultKind::NoVersion);
    }
    if value != b"4.0".as_slice() {
        return Err(CardFaultKind::OtherVersion);
    }
    Ok(())
}

/// What has been seen after one more content line, and its property; or the fault of that line.
fn pass(seen: Seen, number: usize, line: &str) -> Result<(Seen, Property), CardFaultKind>
    ensures ok { IfOk result (λ passed. (pass_content seen number
        (content_of line.now) ≡ Ok passed.0) × (passed.1 ≡ property_at line.now)) }
    ensures err { IfErr result (λ kind. pass_content seen number
        (content_of line.now) ≡ Err kind) }
{
    let Some((property, content)) = read_content(line) else {
        return Err(CardFaultKind::BadLine);
    };
    match seen.with(property, content.value, number) {
        Some(seen) => Ok((seen, property)),
        None => Err(CardFaultKind::Twice),
    }
}

/// Where the lines stand that a card is asked for, or the first fault of the content lines, which are what follows the
/// version in the text.
fn check_content(text: &str, content: &str) -> Result<Places, CardFault>
    requires short { length text.now + 3 < 2 ^ 64 }
    requires follows { Follows text.now content.now }
    ensures fault { result_err result ≡ scan (seen_in []) 3 (lines content.now) }
    ensures places { IfOk result (ArePlaces text.now) }
{
    let mut rest = content;
    let mut number = 3;
    let mut seen = Seen::new();
    let mut places = PlacesSeen::new();
    while let Some((line, after)) = split_line(rest) {
        let at = text.len() - rest.len();
        if is_word(line, "END:VCARD") {
            check_after_end(after, number + 1)?;
            seen.finish(number)?;
            return Ok(places.finish(at));
        }
        let property = match pass(seen, number, line) {
            Ok((next, property)) => {
                seen = next;
                property
            }
            Err(kind) => return fault(kind, number),
        };
        places = places.with(property, at);
        rest = after;
        number += 1;
    }
    fault(CardFaultKind::NoEnd, number)
}

/// Where the lines stand that a card is asked for, or the first fault of the lines of an unfolded text.
#[tactic(auto, using(crate::proofs::Scans::scan_is_content_fault))]
pub(crate) fn check_lines(text: &str) -> Result<Places, CardFault>
    requires { length text.now + 3 < 2 ^ 64 }
    ensures fault { result_err result ≡ lines_fault (lines text.now) }
    ensures places { IfOk result (ArePlaces text.now) }
{
    let Some((begin, rest)) = split_line(text) else {
        return fault(CardFaultKind::NoBegin, 1);
    };
    if !is_word(begin, "BEGIN:VCARD") {
        return fault(CardFaultKind::NoBegin, 1);
    }
    let Some((version, rest)) = split_line(rest) else {
        return fault(CardFaultKind::NoEnd, 2);
    };
    if let Err(kind) = check_version(version) {
        return fault(kind, 2);
    }
    check_content(text, rest)
}
