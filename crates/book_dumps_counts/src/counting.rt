//! What is counted of an Office.

ghost use Rattle.std.specs.Prelude.{◌≡◌, ◌++◌, IfOk, OnOk, count_by, sum_by};
ghost use Rattle.book_dumps.specs.Dumps.{counted};
ghost use Rattle.book_dumps.specs.declared.lines.Line.{Line as DumpLine};
ghost use Rattle.book_office_values.specs.Paths.{kind_of};
ghost use Rattle.book_dumps_counts.specs.Counts as counts;

use book_dumps::Line;
use book_dumps_reading::Dumped;
use book_office_values::Kind;
use itoa::Buffer;
use std::alloc::{AllocError, Global};

fn is_person(line: &Line) -> bool
    ensures { result ≡ counts.is_person (kind_of line.now.path) }
{
    matches!(line.path.kind(), Kind::Person)
}

fn is_group(line: &Line) -> bool
    ensures { result ≡ counts.is_group (kind_of line.now.path) }
{
    matches!(line.path.kind(), Kind::Group)
}

fn is_book(line: &Line) -> bool
    ensures { result ≡ counts.is_book (kind_of line.now.path) }
{
    matches!(line.path.kind(), Kind::Book)
}

fn is_card(line: &Line) -> bool
    ensures { result ≡ counts.is_card (kind_of line.now.path) }
{
    matches!(line.path.kind(), Kind::Card)
}

fn person_count(lines: &[Line]) -> usize
    ensures { result ≡ count_by (λ (l : DumpLine). counts.is_person (kind_of l.path)) lines.now }
{
    let mut count = 0;
    for line in lines {
        if is_person(line) {
            count += 1;
        }
    }
    count
}

fn group_count(lines: &[Line]) -> usize
    ensures { result ≡ count_by (λ (l : DumpLine). counts.is_group (kind_of l.path)) lines.now }
{
    let mut count = 0;
    for line in lines {
        if is_group(line) {
            count += 1;
        }
    }
    count
}

fn book_count(lines: &[Line]) -> usize
    ensures { result ≡ count_by (λ (l : DumpLine). counts.is_book (kind_of l.path)) lines.now }
{
    let mut count = 0;
    for line in lines {
        if is_book(line) {
            count += 1;
        }
    }
    count
}

fn card_count(lines: &[Line]) -> usize
    ensures { result ≡ count_by (λ (l : DumpLine). counts.is_card (kind_of l.path)) lines.now }
{
    let mut count = 0;
    for line in lines {
        if is_card(line) {
            count += 1;
        }
    }
    count
}

fn removed_count(lines: &[Line]) -> u64
    ensures { result ≡ counted (sum_by counts.removed_at lines.now) }
{
    let mut count: u64 = 0;
    for line in lines {
        count = count.saturating_add(line.removed.len() as u64);
    }
    count
}

fn member_count(lines: &[Line]) -> u64
    ensures { result ≡ counted (sum_by counts.members_at lines.now) }
{
    let mut count: u64 = 0;
    for line in lines {
        count = count.saturating_add(line.members.len() as u64);
    }
    count
}

fn entry_count(lines: &[Line]) -> u64
    ensures { result ≡ counted (sum_by counts.entries_at lines.now) }
{
    let mut count: u64 = 0;
    for line in lines {
        let protected = line.protected.len() as u64;
        count = count
            .saturating_add(protected)
            .saturating_add(line.own.len() as u64);
    }
    count
}

/// Adds a count with its name, on a line. An error is want of memory.
fn push_count(text: &mut Vec<u8>, name: &[u8], count: u64) -> Result<(), AllocError>
    ensures { OnOk result (text.new.items ≡ text.old.items ++ counts.count_line name.now count) }
{
    let mut buffer = Buffer::new();
    text.extend_from_slice(name)?;
    text.extend_from_slice(buffer.format(count).as_bytes())?;
    text.extend_from_slice(b"\n")
}

fn push_resources(text: &mut Vec<u8>, dumped: &Dumped) -> Result<(), AllocError>
    ensures { OnOk result (text.new.items ≡ text.old.items ++ counts.resources_text dumped.now) }
{
    let lines = dumped.lines.as_slice();
    push_count(text, b"persons ", person_count(lines) as u64)?;
    push_count(text, b"groups ", group_count(lines) as u64)?;
    push_count(text, b"books ", book_count(lines) as u64)?;
    push_count(text, b"cards ", card_count(lines) as u64)
}

fn push_content(text: &mut Vec<u8>, dumped: &Dumped) -> Result<(), AllocError>
    ensures { OnOk result (text.new.items ≡ text.old.items ++ counts.content_text dumped.now) }
{
    let lines = dumped.lines.as_slice();
    push_count(text, b"removed ", removed_count(lines))?;
    push_count(text, b"members ", member_count(lines))?;
    push_count(text, b"entries ", entry_count(lines))
}

/// What is counted of an Office, as its dump tells it: a line each for the epoch, persons, groups, books, cards, removed
/// names, direct members and entries. An error is want of memory.
pub fn counts_text(alloc: Global, dumped: &Dumped) -> Result<Vec<u8>, AllocError>
    ensures { IfOk result (λ text. text.items ≡ counts.counts_text dumped.now) }
{
    let mut text = Vec::new(alloc);
    push_count(&mut text, b"epoch ", dumped.epoch)?;
    push_resources(&mut text, dumped)?;
    push_content(&mut text, dumped)?;
    Ok(text)
}
