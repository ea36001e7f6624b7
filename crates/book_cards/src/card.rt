//! Cards, and what they say.

ghost use Rattle.std.specs.Prelude.{◌≡◌, ◌<◌, ◌≤◌, ◌+◌, ◌-◌, ℕ, List, [], length, map, Option, Some, None, IfOk, IfErr, ◌⊎◌};
ghost use Rattle.std.specs.Option.{option_map, option_and_then, option_copied};
ghost use Rattle.std.specs.List.{slice_get};
ghost use Rattle.std.specs.Str.Lines.{lines};
ghost use Rattle.std.specs.Iterator.{YieldsFirstRef, YieldsFirstBy, item_count};
ghost use Rattle.book_cards.specs.Folding.{unfolded};
ghost use Rattle.book_cards.specs.Reading.{fields_of};
ghost use Rattle.book_cards.specs.Properties.{first_value, is_property};
ghost use Rattle.book_cards.specs.CardText.{card_fault, out_of_memory, card_lines, uid_in, kind_in, formatted_in, members_in};
ghost use Rattle.book_cards.specs.Views.{view, lines_left, members_left};
ghost use Rattle.book_cards.specs.Valid.{IsCard};

use crate::check::check_lines;
use crate::fault::{CardFault, CardFaultKind};
use crate::line::Line;
use crate::places::{Places, text_from};
use crate::property::{Property, is_word, property_named};
use crate::text::{split_line, unfold};
use book_limits::MAX_CARD_BYTES;
use std::alloc::Global;
use std::marker::Model;

/// A vCard of version 4.0 (RFC 6350). A contract sees its unfolded text, whose lines have no fault.
///
/// No call on a card takes memory: what it answers are pieces of the text. `lines` and `members` themselves are
/// constant; each of `kind`, `line` and `line_count`, and each whole turn over `lines`, is one pass over at most 65,536
/// bytes, and `kind` and `line` stop at the line that they answer. `uid` and `formatted` read that line alone, and a
/// turn over `members` begins at the first of them: where these stand was seen when the card was read.
#[derive(Debug, Drop)]
pub struct Card {
    text: String,
    places: Places,
}

impl Model for Card {
    ghost use Rattle.std.specs.Prelude.{◌≡◌, ℕ, List, None};
    ghost use Rattle.std.specs.String.{string_bytes};
    ghost use Rattle.std.specs.Str.Lines.{lines};
    ghost use Rattle.book_cards.specs.CardText.{lines_fault};
    ghost use Rattle.book_cards.specs.Places.{ArePlaces};

    ghost Value = { List ℕ };

    ghost view = { λ card. string_bytes card.text };

    ghost invariant = { λ card. (lines_fault (lines (string_bytes card.text)) ≡ None)
        × ArePlaces (string_bytes card.text) card.places };
}

/// Reads a card (RFC 6350, sections 3.2, 3.3 and 6, and this project's profile).
///
/// One pass over the text to unfold it and one over its lines; the card takes at most the bytes of the text, at once.
///
/// # Errors
///
/// The one fault, with its line: `TooLong`; then the first line, not past END, with `NoBegin`, `NoVersion`,
/// `OtherVersion`, `BadLine` or `Twice`; then `NoEnd` or `AfterEnd`; then `NoFormattedName`; then
/// `MemberWithoutGroup`. `Memory` at line 0 may come in place of any answer.
pub fn read_card(alloc: Global, text: &str) -> Result<Card, CardFault>
    ensures card { IfOk result (λ card. IsCard text.now × (card ≡ unfolded text.now)) }
    ensures fault { IfErr result (λ fault. (fault ≡ out_of_memory)
        ⊎ (card_fault text.now ≡ Some fault)) }
{
    if text.len() > MAX_CARD_BYTES {
        return Err(CardFault {
            kind: CardFaultKind::TooLong,
            line: 0,
        });
    }
    let unfolded = unfold(alloc, text)?;
    let places = check_lines(unfolded.as_str())?;
    Ok(Card {
        text: unfolded,
        places,
    })
}

/// The value of the first line that has the property.
fn find_value(text: &str, wanted: Property) -> Option<&str>
    ensures { option_copied result ≡ first_value (is_property wanted) (lines text.now) }
{
    let mut rest = text;
    while let Some((line, after)) = split_line(rest) {
        if let Some(line) = Line::read(line) {
            if property_named(line.name) == wanted {
                return Some(line.value);
            }
        }
        rest = after;
    }
    None
}

/// The line at this index, from 0, where it is a content line.
fn find_line(text: &str, index: usize) -> Option<Line<'_>>
    ensures { option_map view result ≡ option_and_then fields_of
        (slice_get (lines text.now) index) }
{
    let mut rest = text;
    let mut left = index;
    while let Some((line, after)) = split_line(rest) {
        if left == 0 {
            return Line::read(line);
        }
        left -= 1;
        rest = after;
    }
    None
}

/// How many lines there are up to `END:VCARD`.
fn count_lines(text: &str) -> usize
    ensures { result ≡ length (card_lines text.now) }
{
    let mut rest = text;
    let mut count = 0;
    while let Some((line, after)) = split_line(rest) {
        count += 1;
        if is_word(line, "END:VCARD") {
            return count;
        }
        rest = after;
    }
    count
}

impl Card {
    /// The lines in order, from `BEGIN:VCARD` to `END:VCARD`, with their fields.
    pub fn lines(&self) -> Lines<'_>
        ensures { map fields_of (card_lines self.now) ≡ map Some (lines_left result) }
    {
        let rest = self.text.as_str();
        Lines { rest }
    }

    /// The number of lines, from `BEGIN:VCARD` to `END:VCARD`.
    pub fn line_count(&self) -> usize
        ensures { result ≡ length (card_lines self.now) }
    {
        count_lines(self.text.as_str())
    }

    /// The fields of the line with this number, from 1 for `BEGIN:VCARD` to `line_count` for `END:VCARD`.
    pub fn line(&self, number: usize) -> Line<'_>
        requires low { 0 < number }
        requires high { number ≤ length (card_lines self.now) }
        ensures { option_and_then fields_of (slice_get (card_lines self.now) (number - 1)) ≡ Some
            (view result) }
    {
        find_line(self.text.as_str(), number - 1).unwrap()
    }

    /// The value of UID as written, if there is one (RFC 6350, section 6.7.6); it may be empty.
    pub fn uid(&self) -> Option<&str>
        ensures { option_copied result ≡ uid_in self.now }
    {
        let rest = text_from(self.text.as_str(), self.places.uid);
        find_value(rest, Property::Uid)
    }

    /// The value of KIND as written, and `individual` where there is none (RFC 6350, section 6.1.4).
    pub fn kind(&self) -> &str
        ensures { result.now ≡ kind_in self.now }
    {
        find_value(self.text.as_str(), Property::Kind).unwrap_or("individual")
    }

    /// The value of the first FN as written (RFC 6350, section 6.2.1); it may be empty.
    pub fn formatted(&self) -> &str
        ensures { result.now ≡ formatted_in self.now }
    {
        let rest = text_from(self.text.as_str(), self.places.formatted_name);
        find_value(rest, Property::FormattedName).unwrap_or("")
    }

    /// The values of the MEMBER lines as written, in order (RFC 6350, section 6.6.5); a group alone has any.
    pub fn members(&self) -> MemberValues<'_>
        ensures { members_left result ≡ members_in self.now }
    {
        let rest = text_from(self.text.as_str(), self.places.member);
        MemberValues { rest }
    }
}

/// The lines of a card that are still to come. A contract sees their fields.
#[derive(Clone, Copy, Debug)]
pub struct Lines<'a> {
    rest: &'a str,
}

impl<'a> Iterator for Lines<'a> {
    type Item = Line<'a>;

    ghost next_gives = { YieldsFirstBy view lines_left };

    ghost remaining = { item_count lines_left };

    fn next(&mut self) -> Option<Line<'a>> {
        while let Some((line, after)) = split_line(self.rest) {
            self.rest = after;
            if let Some(line) = Line::read(line) {
                return Some(line);
            }
        }
        None
    }
}

/// The members of a card that are still to come. A contract sees their values.
#[derive(Clone, Copy, Debug)]
pub struct MemberValues<'a> {
    rest: &'a str,
}

impl<'a> Iterator for MemberValues<'a> {
    type Item = &'a str;

    ghost next_gives = { YieldsFirstRef members_left };

    ghost remaining = { item_count members_left };

    fn next(&mut self) -> Option<&'a str> {
        while let Some((line, after)) = split_line(self.rest) {
            self.rest = after;
            if let Some(line) = Line::read(line) {
                if property_named(line.name) == Property::Member {
                    return Some(line.value);
                }
            }
        }
        None
    }
}
