//! Bodies in pieces: what stands before the items of a body, each item, and what stands behind them.

ghost use Rattle.std.specs.Prelude.{◌≡◌, ◌≢◌, ◌⊎◌, ◌++◌, ◌<◌, [], codes, get_or, length, true, false, OnOk};
ghost use Rattle.json.specs.Print.{print, quoted};
ghost use Rattle.serde_json.specs.Written.{comma_if, compact_text};
ghost use Rattle.book_machine.specs.declared.messages.Content.TheVariants as contents;
ghost use Rattle.book_office_sync.specs.Tokens.{token_text};
ghost use Rattle.book_office_values.specs.Paths.{book_path};
ghost use Rattle.book_wire_json.specs.Listings.{response_data};
ghost use Rattle.book_wire_json.specs.Members.{hrefs_data, line_data};
ghost use Rattle.book_wire_json.specs.Names.{named_data};
ghost use Rattle.book_wire_json.specs.Pieces.{pieces};
ghost use Rattle.book_wire_json.specs.Refusals.{refusal_data};
ghost use Rattle.book_wire_json.specs.Rulings.{rulings_data};
ghost use Rattle.book_wire_json.specs.SyncReports.{item_data, status_data};

use crate::listings::write_response;
use crate::members::{write_hrefs, write_line};
use crate::names::write_named;
use crate::refusals::write_refusal;
use crate::rulings::write_rulings;
use crate::sync_reports::{write_item, write_remaining};
use crate::writing::JsonText;
use book_lists::Name;
use book_machine::{Content, Refusal};
use book_office_listings::{Response, Ruling};
use book_office_members::{MemberLine, Members, NamedCard};
use book_office_sync::{Item, Report, Token};
use std::alloc::{AllocError, Global};
use std::mem;

/// Memory in which the texts of pieces are made, one after the other. It keeps its room: of a body whose pieces were all
/// made in it before, the pieces are made again without taking memory; the name of a card's fault in a refusal alone
/// takes some.
#[derive(Drop)]
pub struct PieceMemory {
    text: JsonText,
}

impl PieceMemory {
    /// It takes no memory yet.
    pub fn new(alloc: Global) -> PieceMemory {
        PieceMemory {
            text: JsonText::over(Vec::new(alloc), String::new(alloc)),
        }
    }

    /// An empty text in this memory.
    fn begin(&mut self, alloc: Global) -> JsonText
        ensures { result ≡ [] }
    {
        let none = JsonText::over(Vec::new(alloc), String::new(alloc));
        let mut text = mem::replace(&mut self.text, none);
        text.restart();
        text
    }

    /// Adds a text to bytes, and takes its memory back. An error is want of memory.
    fn finish(&mut self, out: &mut Vec<u8>, text: JsonText) -> Result<(), AllocError>
        ensures { OnOk result (out.new.items ≡ out.old.items ++ print text) }
    {
        self.text = text;
        push_bytes(out, self.text.as_bytes())
    }
}

/// Adds bytes to bytes. An error is want of memory.
fn push_bytes(out: &mut Vec<u8>, bytes: &[u8]) -> Result<(), AllocError>
    ensures { OnOk result (out.new.items ≡ out.old.items ++ bytes.now) }
{
    out.extend_from_slice(bytes)
}

/// Adds a text to bytes. An error is want of memory.
fn push_str(out: &mut Vec<u8>, text: &str) -> Result<(), AllocError>
    ensures { OnOk result (out.new.items ≡ out.old.items ++ text.now) }
{
    push_bytes(out, text.as_bytes())
}

/// Adds a comma to bytes, where an item stands before. An error is want of memory.
fn push_comma(out: &mut Vec<u8>, later: bool) -> Result<(), AllocError>
    ensures { OnOk result (out.new.items ≡ out.old.items ++ comma_if later) }
{
    push_str(out, if later { "," } else { "" })
}

/// Whether an item stands before the one at this place.
fn is_later(place: usize) -> bool
    ensures first { place ≡ 0 → result ≡ false }
    ensures later { place ≢ 0 → result ≡ true }
{
    place != 0
}

/// Adds what a listing says of a resource. An error is want of memory.
fn push_response(
    alloc: Global,
    out: &mut Vec<u8>,
    memory: &mut PieceMemory,
    later: bool,
    response: &Response,
) -> Result<(), AllocError>
    ensures { OnOk result (out.new.items
        ≡ out.old.items ++ (comma_if later ++ compact_text (response_data response.now))) }
{
    push_comma(out, later)?;
    let mut text = memory.begin(alloc);
    write_response(&mut text, response)?;
    memory.finish(out, text)
}

/// Adds a piece of a listing. An error is want of memory.
fn push_listing(
    alloc: Global,
    out: &mut Vec<u8>,
    memory: &mut PieceMemory,
    responses: &[Response],
    index: usize,
) -> Result<(), AllocError>
    requires { index < length (pieces (contents.Listing responses.now)) }
    ensures { OnOk result (out.new.items ≡ out.old.items ++ get_or
        (pieces (contents.Listing responses.now)) index []) }
{
    if index == 0 {
        return push_str(out, "{\"responses\":[");
    }
    let place = index - 1;
    if place < responses.len() {
        return push_response(alloc, out, memory, is_later(place), &responses[place]);
    }
    push_str(out, "]}")
}

/// Adds what a report says of an item. An error is want of memory.
fn push_item(
    alloc: Global,
    out: &mut Vec<u8>,
    memory: &mut PieceMemory,
    later: bool,
    book: &Name,
    item: &Item,
) -> Result<(), AllocError>
    ensures { OnOk result (out.new.items
        ≡ out.old.items ++ (comma_if later ++ compact_text (item_data book.now item.now))) }
{
    push_comma(out, later)?;
    let mut text = memory.begin(alloc);
    write_item(&mut text, book, item)?;
    memory.finish(out, text)
}

/// Adds that changes remain. An error is want of memory.
fn push_remaining(
    alloc: Global,
    out: &mut Vec<u8>,
    memory: &mut PieceMemory,
    later: bool,
    book: &Name,
) -> Result<(), AllocError>
    ensures { OnOk result (out.new.items ≡ out.old.items ++
        (comma_if later ++ compact_text (status_data (book_path book.now) 507))) }
{
    push_comma(out, later)?;
    let mut text = memory.begin(alloc);
    write_remaining(&mut text, book)?;
    memory.finish(out, text)
}

/// Adds a token. An error is want of memory.
fn push_token(
    alloc: Global,
    out: &mut Vec<u8>,
    memory: &mut PieceMemory,
    token: &Token,
) -> Result<(), AllocError>
    ensures { OnOk result (out.new.items ≡ out.old.items ++ quoted (token_text token.now)) }
{
    let mut text = memory.begin(alloc);
    text.token(token)?;
    memory.finish(out, text)
}

/// Adds what stands behind the items of a report. An error is want of memory.
fn push_report_end(
    alloc: Global,
    out: &mut Vec<u8>,
    memory: &mut PieceMemory,
    token: &Token,
) -> Result<(), AllocError>
    ensures { OnOk result (out.new.items ≡ out.old.items ++ (codes "],\"sync-token\":" ++ quoted
        (token_text token.now) ++ codes "}")) }
{
    push_str(out, "],\"sync-token\":")?;
    push_token(alloc, out, memory, token)?;
    push_str(out, "}")
}

/// Whether the item at this place says that changes remain.
fn is_cut(report: &Report, place: usize) -> bool
    ensures cut { result ≡ true → (report.now.truncated ≡ true)
        × (place ≡ length report.now.items) }
    ensures whole { result ≡ false → (report.now.truncated ≡ false)
        ⊎ (place ≢ length report.now.items) }
{
    report.truncated && place == report.items.len()
}

/// Adds a piece of a sync report. An error is want of memory.
fn push_report(
    alloc: Global,
    out: &mut Vec<u8>,
    memory: &mut PieceMemory,
    report: &Report,
    index: usize,
) -> Result<(), AllocError>
    requires { index < length (pieces (contents.Synced report.now)) }
    ensures { OnOk result (out.new.items ≡ out.old.items ++ get_or
        (pieces (contents.Synced report.now)) index []) }
{
    if index == 0 {
        return push_str(out, "{\"responses\":[");
    }
    let book = &report.token.book;
    let items = report.items.as_slice();
    let place = index - 1;
    if place < items.len() {
        return push_item(alloc, out, memory, is_later(place), book, &items[place]);
    }
    if is_cut(report, place) {
        return push_remaining(alloc, out, memory, is_later(place), book);
    }
    push_report_end(alloc, out, memory, &report.token)
}

/// Adds what the report says of a MEMBER line. An error is want of memory.
fn push_line(
    alloc: Global,
    out: &mut Vec<u8>,
    memory: &mut PieceMemory,
    later: bool,
    book: &Name,
    line: &MemberLine,
) -> Result<(), AllocError>
    ensures { OnOk result (out.new.items
        ≡ out.old.items ++ (comma_if later ++ compact_text (line_data book.now line.now))) }
{
    push_comma(out, later)?;
    let mut text = memory.begin(alloc);
    write_line(&mut text, book, line)?;
    memory.finish(out, text)
}

/// Adds the paths of cards of a book. An error is want of memory.
fn push_hrefs(
    alloc: Global,
    out: &mut Vec<u8>,
    memory: &mut PieceMemory,
    book: &Name,
    names: &[Name],
) -> Result<(), AllocError>
    ensures { OnOk result (out.new.items ≡ out.old.items ++ compact_text
        (hrefs_data book.now names.now)) }
{
    let mut text = memory.begin(alloc);
    write_hrefs(&mut text, book, names)?;
    memory.finish(out, text)
}

/// Adds what stands behind the MEMBER lines. An error is want of memory.
fn push_members_end(
    alloc: Global,
    out: &mut Vec<u8>,
    memory: &mut PieceMemory,
    book: &Name,
    reached: &[Name],
) -> Result<(), AllocError>
    ensures { OnOk result (out.new.items ≡ out.old.items ++ (codes "],\"reached\":" ++ compact_text
        (hrefs_data book.now reached.now) ++ codes "}")) }
{
    push_str(out, "],\"reached\":")?;
    push_hrefs(alloc, out, memory, book, reached)?;
    push_str(out, "}")
}

/// Adds a piece of a report on members. An error is want of memory.
fn push_members(
    alloc: Global,
    out: &mut Vec<u8>,
    memory: &mut PieceMemory,
    book: &Name,
    members: &Members,
    index: usize,
) -> Result<(), AllocError>
    requires { index < length (pieces (contents.Members book.now members.now)) }
    ensures { OnOk result (out.new.items
        ≡ out.old.items ++ get_or (pieces (contents.Members book.now members.now)) index []) }
{
    if index == 0 {
        return push_str(out, "{\"members\":[");
    }
    let lines = members.lines.as_slice();
    let place = index - 1;
    if place < lines.len() {
        return push_line(alloc, out, memory, is_later(place), book, &lines[place]);
    }
    push_members_end(alloc, out, memory, book, members.reached.as_slice())
}

/// Adds what the report says of a card. An error is want of memory.
fn push_named(
    alloc: Global,
    out: &mut Vec<u8>,
    memory: &mut PieceMemory,
    later: bool,
    book: &Name,
    card: &NamedCard,
) -> Result<(), AllocError>
    ensures { OnOk result (out.new.items
        ≡ out.old.items ++ (comma_if later ++ compact_text (named_data book.now card.now))) }
{
    push_comma(out, later)?;
    let mut text = memory.begin(alloc);
    write_named(&mut text, book, card)?;
    memory.finish(out, text)
}

/// Adds a piece of a report on names. An error is want of memory.
fn push_names(
    alloc: Global,
    out: &mut Vec<u8>,
    memory: &mut PieceMemory,
    book: &Name,
    names: &[NamedCard],
    index: usize,
) -> Result<(), AllocError>
    requires { index < length (pieces (contents.Names book.now names.now)) }
    ensures { OnOk result (out.new.items
        ≡ out.old.items ++ get_or (pieces (contents.Names book.now names.now)) index []) }
{
    if index == 0 {
        return push_str(out, "{\"names\":[");
    }
    let place = index - 1;
    if place < names.len() {
        return push_named(alloc, out, memory, is_later(place), book, &names[place]);
    }
    push_str(out, "]}")
}

/// Adds what decides each leaf. An error is want of memory.
fn push_rulings(
    alloc: Global,
    out: &mut Vec<u8>,
    memory: &mut PieceMemory,
    rulings: &[Ruling],
) -> Result<(), AllocError>
    ensures { OnOk result (out.new.items ≡ out.old.items ++ compact_text
        (rulings_data rulings.now)) }
{
    let mut text = memory.begin(alloc);
    write_rulings(&mut text, rulings)?;
    memory.finish(out, text)
}

/// Adds what a refusal says. An error is want of memory.
fn push_refusal(
    alloc: Global,
    out: &mut Vec<u8>,
    memory: &mut PieceMemory,
    refusal: &Refusal,
) -> Result<(), AllocError>
    ensures { OnOk result (out.new.items ≡ out.old.items ++ compact_text
        (refusal_data refusal.now)) }
{
    let mut text = memory.begin(alloc);
    write_refusal(alloc, &mut text, refusal)?;
    memory.finish(out, text)
}

/// How many pieces the body of a sync report has.
fn report_count(report: &Report) -> usize
    ensures { result ≡ length (pieces (contents.Synced report.now)) }
{
    let items = report.items.as_slice().len();
    if report.truncated {
        items + 3
    } else {
        items + 2
    }
}

/// How many pieces a body has.
pub fn piece_count(content: &Content) -> usize
    ensures { result ≡ length (pieces content.now) }
{
    match content {
        Content::Empty | Content::Allow(_) => 0,
        Content::Card(_) | Content::Rulings(_) | Content::Refusal(_) => 1,
        Content::Listing(responses) => responses.as_slice().len() + 2,
        Content::Synced(report) => report_count(report),
        Content::Members(_, members) => members.lines.as_slice().len() + 2,
        Content::Names(_, names) => names.as_slice().len() + 2,
    }
}

/// Adds a piece of a body to bytes, the pieces counted from 0.
///
/// # Errors
///
/// Want of memory.
pub fn push_piece(
    alloc: Global,
    out: &mut Vec<u8>,
    memory: &mut PieceMemory,
    content: &Content,
    index: usize,
) -> Result<(), AllocError>
    requires { index < length (pieces content.now) }
    ensures { OnOk result (out.new.items ≡ out.old.items ++ get_or (pieces content.now) index []) }
{
    match content {
        Content::Empty | Content::Allow(_) => Ok(()),
        Content::Card(text) => push_str(out, text.as_str()),
        Content::Listing(responses) => {
            push_listing(alloc, out, memory, responses.as_slice(), index)
        }
        Content::Synced(report) => push_report(alloc, out, memory, report, index),
        Content::Members(book, members) => push_members(alloc, out, memory, book, members, index),
        Content::Rulings(rulings) => push_rulings(alloc, out, memory, rulings.as_slice()),
        Content::Names(book, names) => {
            push_names(alloc, out, memory, book, names.as_slice(), index)
        }
        Content::Refusal(refusal) => push_refusal(alloc, out, memory, refusal),
    }
}
