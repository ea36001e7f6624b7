//! What is told of a policy's text.

ghost use Rattle.std.specs.Prelude.{◌≡◌, ◌++◌, Some, None, codes, true, string_bytes, IfOk, MatchResult, OnOk};
ghost use Rattle.toml.specs.Parse.{parse_document};
ghost use Rattle.toml.specs.View.{table_view};
ghost use Rattle.book_policy_checks.specs.Reports.{AddsFault, AddsFaults, IsReportOf, IsTextOf, IsTold, is_one_line, is_sound, more_text, place_in};
ghost use Rattle.book_policy_checks.specs.declared.reports.Report.TheVariants as Report;

use crate::sentences::{head, more_words, not_toml_place, not_toml_words, tail};
use book_limits::MAX_POLICY_BYTES;
use book_policy_faults::{PlacedFault, PlacedFaults, faults_of};
use std::alloc::{AllocError, Global};
use toml::Table;

/// What is told of a policy's text.
#[derive(Drop)]
pub enum Report {
    /// It is a policy.
    Sound,
    /// It has more than 1,048,576 bytes.
    TooLong,
    /// It is not TOML.
    NotToml(NotToml),
    /// It is TOML, of which this is the table, and has these faults.
    Faults(Table, PlacedFaults),
}

/// Where and why a text is not TOML.
#[derive(Debug, Drop)]
pub struct NotToml {
    /// The line, from 1.
    pub line: usize,
    /// The column, from 1; it counts characters.
    pub column: usize,
    /// What is wrong there, in the words of the crate `toml`.
    pub message: String,
}

/// The line and the column, both from 1, of the place in a text behind so many bytes. A column counts characters.
fn place_in(text: &[u8]) -> (usize, usize)
    ensures { result ≡ place_in 1 1 text.now }
{
    let mut line = 1usize;
    let mut column = 1usize;
    for byte in text {
        if *byte == b'\n' {
            line = line.saturating_add(1);
            column = 1;
        } else if *byte < 128 || *byte >= 192 {
            column = column.saturating_add(1);
        }
    }
    (line, column)
}

/// Where and why the text is not TOML. An error is want of memory.
fn not_toml(alloc: Global, text: &str, start: usize, message: &str) -> Result<NotToml, AllocError> {
    let (front, _) = text.as_bytes().split_at(start.min(text.len()));
    let (line, column) = place_in(front);
    Ok(NotToml {
        line,
        column,
        message: String::from_str(alloc, message)?,
    })
}

/// The table of a text, or where and why it is not TOML. An error is want of memory.
fn table_of(alloc: Global, text: &str) -> Result<Result<Table, NotToml>, AllocError>
    ensures { IfOk result (λ read. MatchResult read
        (λ table. parse_document text.now ≡ Some (table_view table))
        (λ _. parse_document text.now ≡ None)) }
{
    match toml::table_from_str(alloc, text) {
        Ok(table) => Ok(Ok(table)),
        Err(error) => {
            let Some(span) = error.span() else {
                return Err(AllocError);
            };
            Ok(Err(not_toml(alloc, text, span.start, error.message())?))
        }
    }
}

/// What is told of a table. An error is want of memory.
fn report_of(alloc: Global, table: Table) -> Result<Report, AllocError>
    ensures { IfOk result (IsTold (table_view table)) }
{
    let faults = faults_of(alloc, &table)?;
    if faults.is_empty() {
        return Ok(Report::Sound);
    }
    Ok(Report::Faults(table, faults))
}

/// What is told of a policy's text: that it is a policy, that it is too long or not TOML, and else all its faults, each
/// with its place. The least of them is the one that `read_policy` tells. An error is want of memory.
pub fn check_policy(alloc: Global, text: &str) -> Result<Report, AllocError>
    ensures { IfOk result (IsReportOf text.now) }
{
    if text.len() > MAX_POLICY_BYTES {
        return Ok(Report::TooLong);
    }
    match table_of(alloc, text)? {
        Ok(table) => report_of(alloc, table),
        Err(place) => Ok(Report::NotToml(place)),
    }
}

/// The text, where it has no end of a line in it; else none of it.
fn one_line(text: &str) -> &str
    ensures { is_one_line result.now ≡ true }
{
    if text.as_bytes().contains(&b'\n') {
        return "";
    }
    text
}

/// Adds a text and an end of a line.
fn push_ended(text: &mut String, line: &str) -> Result<(), AllocError>
    ensures { OnOk result (string_bytes text.new ≡ string_bytes text.old ++
        (line.now ++ codes "\n")) }
{
    text.push_str(line)?;
    text.push_str("\n")
}

/// Adds a line of two parts.
fn push_parts(text: &mut String, head: &str, tail: &str) -> Result<(), AllocError>
    ensures { OnOk result (string_bytes text.new
        ≡ string_bytes text.old ++ ((head.now ++ tail.now) ++ codes "\n")) }
{
    text.push_str(head)?;
    push_ended(text, tail)
}

/// Adds the line of a fault.
fn push_fault(
    alloc: Global,
    text: &mut String,
    table: &Table,
    fault: &PlacedFault,
) -> Result<(), AllocError>
    ensures { OnOk result (AddsFault (string_bytes text.old) (string_bytes text.new) fault.now) }
{
    let place = head(alloc, fault)?;
    let rest = tail(alloc, table, fault)?;
    push_parts(text, place.as_str(), one_line(rest.as_str()))
}

/// Adds the lines of faults.
fn push_faults(
    alloc: Global,
    text: &mut String,
    table: &Table,
    faults: &[PlacedFault],
) -> Result<(), AllocError>
    ensures { OnOk result (AddsFaults (string_bytes text.old) (string_bytes text.new) faults.now) }
{
    for fault in faults {
        push_fault(alloc, text, table, fault)?;
    }
    Ok(())
}

/// Adds the line that tells how many more there are, if there are any.
fn push_more(alloc: Global, text: &mut String, more: usize) -> Result<(), AllocError>
    ensures { OnOk result (string_bytes text.new ≡ string_bytes text.old ++ more_text more) }
{
    if more == 0 {
        return Ok(());
    }
    let words = more_words(alloc, more)?;
    push_ended(text, words.as_str())
}

/// The line of a text that is not TOML.
fn not_toml_text(alloc: Global, place: &NotToml) -> Result<String, AllocError>
    ensures { IfOk result (λ text. IsTextOf (Report.NotToml place.now) (string_bytes text)) }
{
    let front = not_toml_place(alloc, place)?;
    let words = not_toml_words(alloc, place)?;
    let mut text = String::new(alloc);
    push_parts(&mut text, front.as_str(), one_line(words.as_str()))?;
    Ok(text)
}

/// The lines of faults, and how many more there are.
fn faults_text(alloc: Global, table: &Table, faults: &PlacedFaults) -> Result<String, AllocError>
    ensures { IfOk result (λ text. IsTextOf (Report.Faults table.now faults.now)
        (string_bytes text)) }
{
    let mut text = String::new(alloc);
    push_faults(alloc, &mut text, table, faults.told.as_slice())?;
    push_more(alloc, &mut text, faults.more)?;
    Ok(text)
}

impl Report {
    /// Whether the text is a policy.
    pub fn is_sound(&self) -> bool
        ensures { result ≡ is_sound self.now }
    {
        match self {
            Report::Sound => true,
            Report::TooLong => false,
            Report::NotToml(_) => false,
            Report::Faults(_, _) => false,
        }
    }

    /// The lines that tell of the text: none where it is a policy, one where it is too long or not TOML, and else one
    /// for each of the first 1,000 faults, and one that tells how many more there are, if there are any. An error is
    /// want of memory.
    pub fn text(&self, alloc: Global) -> Result<String, AllocError>
        ensures { IfOk result (λ text. IsTextOf self.now (string_bytes text)) }
    {
        match self {
            Report::Sound => Ok(String::new(alloc)),
            Report::TooLong => String::from_str(alloc, "too-many\n"),
            Report::NotToml(place) => not_toml_text(alloc, place),
            Report::Faults(table, faults) => faults_text(alloc, table, faults),
        }
    }
}
