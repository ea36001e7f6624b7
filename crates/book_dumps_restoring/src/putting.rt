//! What a wanted line of a backup makes of what stands at each path.

ghost use Rattle.std.specs.Prelude.{◌≡◌, ◌++◌, filter, IfOk, OnOk, decimal, string_bytes};
ghost use Rattle.std.specs.FinMap as map;
ghost use Rattle.book_dumps_restoring.specs.Naming.{wanted};
ghost use Rattle.book_dumps_restoring.specs.Putting.{book_over, card_with, counted, counted_in, is_other_name, next_number, number_after, put_book, put_card, put_line, put_lines, told_book, told_card, told_line, told_lines};
ghost use Rattle.book_office_values.specs.Paths.{book_path};

use crate::naming::is_wanted;
use crate::standing::{Standing, book_text, put, text_of};
use book_dumps::{Line, Removed};
use book_lists::Name;
use book_office_values::{Items, Path, Text};
use std::alloc::{AllocError, Global};

/// A book of the backup that the store lacks. An error is want of memory.
fn new_book(alloc: Global, line: &Line) -> Result<Line, AllocError>
    ensures { IfOk result (λ book. book ≡ book_over None line.now) }
{
    Ok(Line {
        path: line.path.clone()?,
        owner: line.owner.clone()?,
        label: line.label.clone()?,
        protected: line.protected.clone()?,
        own: line.own.clone()?,
        members: Items::new(alloc),
        number: Some(0),
        removed: Items::new(alloc),
        text: None,
    })
}

/// A book of the backup over what stands at its path. An error is want of memory.
fn book_over(alloc: Global, old: Option<Line>, line: &Line) -> Result<Line, AllocError>
    ensures { IfOk result (λ book. book ≡ book_over old line.now) }
{
    let Some(old) = old else {
        return new_book(alloc, line);
    };
    let mut book = old;
    book.owner = line.owner.clone()?;
    book.label = line.label.clone()?;
    book.own = line.own.clone()?;
    Ok(book)
}

/// Puts a book. An error is want of memory.
#[tactic(auto, using(book_office_values::proofs::NameMapLaws::put_back))]
fn put_book(alloc: Global, standing: &mut Standing<Line>, line: &Line) -> Result<(), AllocError>
    ensures { OnOk result (standing.new ≡ put_book standing.old line.now) }
{
    let at = text_of(alloc, &line.path)?;
    let old = standing.take(&at);
    let book = book_over(alloc, old, line)?;
    standing.add(at, book)
}

/// The number after that of a book.
fn number_after(number: Option<u64>) -> u64
    ensures { result ≡ number_after number }
{
    match number {
        None => 1,
        Some(number) => number.saturating_add(1),
    }
}

/// The removed names but one. An error is want of memory.
fn without_name(
    alloc: Global,
    card: &Name,
    removed: Items<Removed>,
) -> Result<Items<Removed>, AllocError>
    ensures { IfOk result (λ after. after ≡ filter (is_other_name card.now) removed) }
{
    let mut after = Items::new(alloc);
    for name in removed.into_vec() {
        if name.name != *card {
            after.push(name)?;
        }
    }
    Ok(after)
}

/// A book after one more change, of a card that is there then. An error is want of memory.
fn counted(alloc: Global, card: &Name, number: u64, book: Line) -> Result<Line, AllocError>
    requires { number ≡ number_after book.number }
    ensures { IfOk result (λ after. after ≡ counted card.now book) }
{
    let Line {
        path,
        owner,
        label,
        protected,
        own,
        members,
        removed,
        text,
        ..
    } = book;
    let removed = without_name(alloc, card, removed)?;
    Ok(Line {
        path,
        owner,
        label,
        protected,
        own,
        members,
        number: Some(number),
        removed,
        text,
    })
}

/// Counts one more change of a book, of a card that is there then, and gives its number. An error is want of memory.
#[tactic(auto, using(book_office_values::proofs::NameMapLaws::put_back))]
fn take_number(
    alloc: Global,
    standing: &mut Standing<Line>,
    book: &Name,
    card: &Name,
) -> Result<u64, AllocError>
    ensures number { IfOk result (λ number.
        number ≡ next_number (map.get standing.old (book_path book.now))) }
    ensures counted { OnOk result (standing.new ≡ counted_in standing.old book.now card.now) }
{
    let at = book_text(alloc, book)?;
    let Some(line) = standing.take(&at) else {
        return Ok(1);
    };
    let number = number_after(line.number);
    let line = counted(alloc, card, number, line)?;
    standing.add(at, line)?;
    Ok(number)
}

/// A copy of the text of a card. An error is want of memory.
fn copy_of(text: &Option<Text>) -> Result<Option<Text>, AllocError>
    ensures { IfOk result (λ copy. copy ≡ text.now) }
{
    match text {
        Some(text) => Ok(Some(text.clone()?)),
        None => Ok(None),
    }
}

/// A card of the backup with a number of the store. An error is want of memory.
fn card_with(alloc: Global, number: u64, line: &Line) -> Result<Line, AllocError>
    ensures { IfOk result (λ card. card ≡ card_with number line.now) }
{
    Ok(Line {
        path: line.path.clone()?,
        owner: line.owner.clone()?,
        label: line.label.clone()?,
        protected: Items::new(alloc),
        own: line.own.clone()?,
        members: Items::new(alloc),
        number: Some(number),
        removed: Items::new(alloc),
        text: copy_of(&line.text)?,
    })
}

/// Puts a card, and gives its number. An error is want of memory.
fn put_card(
    alloc: Global,
    standing: &mut Standing<Line>,
    book: &Name,
    card: &Name,
    line: &Line,
) -> Result<u64, AllocError>
    ensures number { IfOk result (λ number.
        number ≡ next_number (map.get standing.old (book_path book.now))) }
    ensures put { OnOk result (standing.new ≡
        put_card standing.old book.now card.now line.now) }
{
    let number = take_number(alloc, standing, book, card)?;
    let card = card_with(alloc, number, line)?;
    put(alloc, standing, card)?;
    Ok(number)
}

/// Adds a number at the end of a text. An error is want of memory.
pub(crate) fn push_number(alloc: Global, text: &mut String, number: u64) -> Result<(), AllocError>
    ensures { OnOk result (string_bytes text.new ≡ string_bytes text.old ++ decimal number) }
{
    let digits = format!(in alloc; "{number}")?;
    text.push_str(digits.as_str())
}

/// Tells that a book is restored: `book PATH`. An error is want of memory.
fn tell_book(told: &mut String, path: &Path) -> Result<(), AllocError>
    ensures { OnOk result (string_bytes told.new ≡ string_bytes told.old ++ told_book path.now) }
{
    told.push_str("book ")?;
    path.push_text(told)?;
    told.push_str("\n")
}

/// Tells that a card is restored: `card PATH number N`. An error is want of memory.
fn tell_card(alloc: Global, told: &mut String, path: &Path, number: u64) -> Result<(), AllocError>
    ensures { OnOk result (string_bytes told.new ≡
        string_bytes told.old ++ told_card path.now number) }
{
    told.push_str("card ")?;
    path.push_text(told)?;
    told.push_str(" number ")?;
    push_number(alloc, told, number)?;
    told.push_str("\n")
}

/// Puts a line, and tells of it. An error is want of memory.
fn put_line(
    alloc: Global,
    standing: &mut Standing<Line>,
    told: &mut String,
    line: &Line,
) -> Result<(), AllocError>
    ensures put { OnOk result (standing.new ≡ put_line standing.old line.now) }
    ensures told { OnOk result (string_bytes told.new ≡
        string_bytes told.old ++ told_line standing.old line.now) }
{
    match &line.path {
        Path::Root | Path::People | Path::Groups | Path::Books => Ok(()),
        Path::Person(_) | Path::Group(_) => Ok(()),
        Path::Book(_) => {
            put_book(alloc, standing, line)?;
            tell_book(told, &line.path)
        }
        Path::Card(book, card) => {
            let number = put_card(alloc, standing, book, card, line)?;
            tell_card(alloc, told, &line.path, number)
        }
    }
}

/// Puts the lines that are wanted, one after the other, and tells of them. An error is want of memory.
pub(crate) fn put_wanted(
    alloc: Global,
    standing: &mut Standing<Line>,
    told: &mut String,
    lines: &[Line],
    paths: &[Path],
) -> Result<(), AllocError>
    ensures put { OnOk result (standing.new ≡
        put_lines standing.old (wanted lines.now paths.now)) }
    ensures told { OnOk result (string_bytes told.new ≡
        string_bytes told.old ++ told_lines standing.old (wanted lines.now paths.now)) }
{
    for line in lines {
        if is_wanted(paths, &line.path) {
            put_line(alloc, standing, told, line)?;
        }
    }
    Ok(())
}
