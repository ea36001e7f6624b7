//! The command `card`, over any reader and writer.

ghost use Rattle.std.specs.Prelude.{◌≡◌, ◌≢◌, ◌<◌, ◌⊎◌, ◌++◌, List, ℕ, length, IfOk, IfErr, IfSome, OnOk, Some, string_bytes};
ghost use Rattle.std.specs.Io.KnownBytes.{Keeps};
ghost use Rattle.book_cards.specs.CardText.{card_fault, out_of_memory};
ghost use Rattle.book_cards.specs.Folding.{unfolded};
ghost use Rattle.book_cards.specs.Valid.{IsCard};
ghost use Rattle.book_desk_app.specs.CardSummaries.{summary_line, summary_text};
ghost use Rattle.book_desk_app.specs.TextRuns.{Does, Refuses};
ghost use Rattle.book_desk_app.specs.declared.text_commands.TextCommand.TheVariants as commands;
ghost use Rattle.book_desk_app.specs.declared.text_failures.TextFailure.TheVariants.{Output};

use crate::short_texts::read_short_text;
use crate::streams::print;
use crate::text_failures::TextFailure;
use book_cards::{Card, CardFault, CardFaultKind, read_card};
use book_limits::MAX_CARD_BYTES;
use std::alloc::{AllocError, Global};
use std::io::{Read, Write};

/// Adds a line that names the value.
fn push_line(text: &mut String, name: &str, value: &str) -> Result<(), AllocError>
    ensures { OnOk result (string_bytes text.new ≡
        string_bytes text.old ++ summary_line name.now value.now) }
{
    text.push_str(name)?;
    text.push_str(": ")?;
    text.push_str(value)?;
    text.push_str("\n")
}

/// What is told of a card.
fn summary_text(alloc: Global, card: &Card) -> Result<String, AllocError>
    ensures { IfOk result (λ text. string_bytes text ≡ summary_text card.now) }
{
    let mut text = String::from_str(alloc, "valid\n")?;
    push_line(&mut text, "kind", card.kind())?;
    push_line(&mut text, "uid", card.uid().unwrap_or("-"))?;
    push_line(&mut text, "fn", card.formatted())?;
    for member in card.members() {
        push_line(&mut text, "member", member)?;
    }
    Ok(text)
}

/// What is told of the card that the text is.
fn summarize(alloc: Global, text: &str) -> Result<String, CardFault>
    ensures told { IfOk result (λ told. IsCard text.now
        × (string_bytes told ≡ summary_text (unfolded text.now))) }
    ensures faulty { IfErr result (λ fault. (fault ≡ out_of_memory)
        ⊎ (card_fault text.now ≡ Some fault)) }
{
    let card = read_card(alloc, text)?;
    Ok(summary_text(alloc, &card)?)
}

/// The fault of a text that has too many bytes.
fn too_long() -> CardFault
    ensures { (text : List ℕ) → 65536 < length text → card_fault text ≡ Some result }
{
    CardFault {
        kind: CardFaultKind::TooLong,
        line: 0,
    }
}

/// Reads the card, and writes what is told of it. Nothing is written where the input is refused. Of an input that is
/// too long no more than its bound and one byte is kept; the rest is read, since it may not be UTF-8.
pub fn summarize_input<R: Read + Drop, W: Write>(
    alloc: Global,
    reader: R,
    writer: &mut W,
) -> Result<(), TextFailure>
    ensures written { OnOk result (Does commands.Card (R.remaining reader) (W.contents writer.old)
        (W.contents writer.new)) }
    ensures refused { IfErr result (λ failure. IfSome (R.remaining reader)
        (λ input. Refuses commands.Card input failure)) }
    ensures unwritten { IfErr result (λ failure. failure ≢ Output
        → Keeps (W.contents writer.old) (W.contents writer.new)) }
{
    let found = read_short_text(alloc, MAX_CARD_BYTES, reader)?;
    let Some(text) = found else {
        return Err(TextFailure::Card(too_long()));
    };
    match summarize(alloc, text.as_str()) {
        Ok(told) => print(writer, told.as_str()),
        Err(fault) => Err(TextFailure::Card(fault)),
    }
}
