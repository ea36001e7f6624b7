//! The content lines of a card (RFC 6350, section 3.3).

ghost use Rattle.std.specs.Prelude.{◌≡◌, ◌<◌, ℕ, List, length, take, drop, Option, true, false, IfSome, slice_index, ◌==◌};
ghost use Rattle.std.specs.Option.{option_map, option_copied};
ghost use Rattle.std.specs.List.{position_or_len};
ghost use Rattle.book_cards.specs.Views.{view};
ghost use Rattle.book_cards.specs.ContentLine.{Fields, is_name_byte};
ghost use Rattle.book_cards.specs.Reading.{name_length, name_at, after_name, may_end, next, colon_from, fields_with, fields_of};

/// A content line (RFC 6350, section 3.3), `[group "."] name *(";" param) ":" value`: its parts as they are
/// written, each a piece of the unfolded text, of which none is copied. With their marks between them they
/// make up the line.
#[derive(Clone, Copy, Debug)]
pub struct Line<'a> {
    /// The group, if there is one: letters, digits and hyphens, at least one.
    pub group: Option<&'a str>,
    /// The name: letters, digits and hyphens, at least one. Names are compared without the case of ASCII
    /// letters.
    pub name: &'a str,
    /// All parameters, each with the semicolon before it; empty where there is none.
    pub params: &'a str,
    /// All that follows the colon; it may be empty. Its escapes stand as written: `unescape` replaces them.
    pub value: &'a str,
}

/// Where among the parameters of a line a byte stands.
#[derive(Clone, Copy)]
enum Position {
    /// Before the parameters.
    Start,
    /// At the first byte of a parameter's name.
    NameStart,
    /// Later in the name, or at its equals sign.
    Name,
    /// At the first byte of a value.
    ValueStart,
    /// Later in a value without quotes.
    Bare,
    /// Within the quotes of a value.
    Quoted,
    /// Behind them.
    AfterQuote,
}

/// Whether the byte is a letter, a digit or a hyphen.
pub(crate) fn is_name_byte(byte: u8) -> bool
    ensures { result ≡ is_name_byte byte }
{
    byte.is_ascii_alphanumeric() || byte == b'-'
}

impl Position {
    /// Whether a colon here ends the parameters.
    fn ends(self) -> bool
        ensures { result ≡ may_end self }
    {
        match self {
            Position::Start | Position::ValueStart | Position::Bare | Position::AfterQuote => true,
            Position::NameStart | Position::Name | Position::Quoted => false,
        }
    }

    /// Where a byte leads, if it may stand here.
    fn after(self, byte: u8) -> Option<Position>
        ensures { result ≡ next self byte }
    {
        match (self, byte) {
            (Position::NameStart | Position::Name, _) if is_name_byte(byte) => Some(Position::Name),
            (Position::Name, b'=') => Some(Position::ValueStart),
            (Position::Quoted, b'"') => Some(Position::AfterQuote),
            (Position::Quoted, _) => Some(Position::Quoted),
            (Position::ValueStart, b'"') => Some(Position::Quoted),
            (Position::Bare, b'"') => None,
            (Position::ValueStart | Position::Bare | Position::AfterQuote, b',') => Some(
                Position::ValueStart,
            ),
            (
                Position::ValueStart | Position::Bare | Position::AfterQuote | Position::Start,
                b';',
            ) => { Some(Position::NameStart) }
            (Position::ValueStart | Position::Bare, _) => Some(Position::Bare),
            (Position::Start | Position::NameStart | Position::Name | Position::AfterQuote, _) =>
                None,
        }
    }
}

/// The index of the colon that ends the parameters at the front of this text.
fn find_colon(text: &str) -> Option<usize>
    ensures { result ≡ colon_from Position.Start text.now }
{
    let mut position = Position::Start;
    for (i, byte) in text.as_bytes().iter().enumerate() {
        if *byte == b':' && position.ends() {
            return Some(i);
        }
        position = position.after(*byte)?;
    }
    None
}

/// How many letters, digits and hyphens stand at the front.
fn count_name(text: &str) -> usize
    ensures { result ≡ name_length text.now }
{
    let bytes = text.as_bytes();
    for (i, byte) in bytes.iter().enumerate() {
        if !is_name_byte(*byte) {
            return i;
        }
    }
    bytes.len()
}

/// The letters, digits and hyphens at the front, and the text after them.
fn split_name(text: &str) -> (&str, &str)
    ensures name { result.0.now ≡ name_at text.now }
    ensures rest { result.1.now ≡ after_name text.now }
{
    text.split_at(count_name(text))
}

impl<'a> Line<'a> {
    /// The fields of the content line that the text is; none where it is no content line.
    ///
    /// One pass over the text; it takes no memory.
    pub fn read(text: &'a str) -> Option<Line<'a>>
        ensures { option_map view result ≡ fields_of text.now }
    {
        let (first, rest) = split_name(text);
        match rest.strip_prefix('.') {
            Some(after) => {
                if first.is_empty() {
                    return None;
                }
                let (name, rest) = split_name(after);
                Line::with(Some(first), name, rest)
            }
            None => Line::with(None, first, rest),
        }
    }

    /// The line of this group and this name that goes on with this rest.
    fn with(group: Option<&'a str>, name: &'a str, rest: &'a str) -> Option<Line<'a>>
        ensures { option_map view result ≡ fields_with
            (option_copied group.entry) name.now rest.now }
    {
        if name.is_empty() {
            return None;
        }
        let colon = find_colon(rest)?;
        Some(Line {
            group,
            name,
            params: &rest[..colon],
            value: &rest[colon + 1..],
        })
    }
}
