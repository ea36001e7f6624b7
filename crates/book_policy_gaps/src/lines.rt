//! The sentence of each fact.

ghost use Rattle.std.specs.Prelude.{◌≡◌, ◌++◌, codes, IfOk, OnOk, string_bytes};
ghost use Rattle.book_office_values.specs.Paths.{path_text};
ghost use Rattle.book_policy_gaps.specs.Lines.{gap_line, listing_line, opened_line, protected_line, reader_text, unread_line};

use crate::gaps::Gap;
use book_lists::{Name, Principal};
use book_office_values::Path;
use std::alloc::{AllocError, Global};

/// Adds three texts.
fn push_three(text: &mut String, first: &str, second: &str, third: &str) -> Result<(), AllocError>
    ensures { OnOk result (string_bytes text.new ≡ string_bytes text.old ++ (first.now
        ++ (second.now ++ third.now))) }
{
    text.push_str(first)?;
    text.push_str(second)?;
    text.push_str(third)
}

/// Adds the text of a path, and what is said of it.
fn push_at(text: &mut String, path: &Path, said: &str) -> Result<(), AllocError>
    ensures { OnOk result (string_bytes text.new ≡ string_bytes text.old ++ (path_text path.now
        ++ said.now)) }
{
    path.push_text(text)?;
    text.push_str(said)
}

/// Adds that the owner of a book may not read it.
fn push_unread(text: &mut String, book: &Path, owner: &Principal) -> Result<(), AllocError>
    ensures { OnOk result (string_bytes text.new ≡ string_bytes text.old
        ++ unread_line book.now owner.now) }
{
    book.push_text(text)?;
    push_three(text, ": its owner ", owner.text(), " may not read it\n")
}

/// Who reads a book, as it is told.
fn reader_text(reader: &Option<Principal>) -> &str
    ensures { result.now ≡ reader_text reader.now }
{
    match reader {
        Some(person) => person.text(),
        None => "a caller who is not known",
    }
}

/// Adds where the entry stands, and that no other closes the book.
fn push_from(text: &mut String, from: &Path) -> Result<(), AllocError>
    ensures { OnOk result (string_bytes text.new ≡ string_bytes text.old
        ++ (path_text from.now ++ codes ", and no entry of its lists closes it\n")) }
{
    push_at(text, from, ", and no entry of its lists closes it\n")
}

/// Adds who reads a book by an entry above it.
fn push_opened(
    text: &mut String,
    book: &Path,
    reader: &Option<Principal>,
    from: &Path,
) -> Result<(), AllocError>
    ensures { OnOk result (string_bytes text.new ≡ string_bytes text.old
        ++ opened_line book.now reader.now from.now) }
{
    book.push_text(text)?;
    push_three(text, ": ", reader_text(reader), " reads it by an entry at ")?;
    push_from(text, from)
}

/// Adds that owners keep what a protected entry grants to them.
fn push_protected(text: &mut String, book: &Path, at: &Path) -> Result<(), AllocError>
    ensures { OnOk result (string_bytes text.new ≡ string_bytes text.old
        ++ protected_line book.now at.now) }
{
    push_at(text, book, ": what a protected entry at ")?;
    push_at(
        text,
        at,
        " grants to owners stays with who leaves a group\n",
    )
}

/// Adds that who lists the books reads one.
fn push_listing(text: &mut String, name: &Name, book: &Path) -> Result<(), AllocError>
    ensures { OnOk result (string_bytes text.new ≡ string_bytes text.old
        ++ listing_line name.now book.now) }
{
    push_three(
        text,
        "person ",
        name.text(),
        ": lists /books, and so reads ",
    )?;
    push_at(text, book, "\n")
}

/// Adds the sentence of a fact: one line. An error is want of memory.
pub fn push_gap_line(text: &mut String, gap: &Gap) -> Result<(), AllocError>
    ensures { OnOk result (string_bytes text.new ≡ string_bytes text.old ++ gap_line gap.now) }
{
    match gap {
        Gap::EmptyGroup(name) => push_three(text, "group ", name.text(), ": nobody is in it\n"),
        Gap::NoRight(name) => push_three(
            text,
            "person ",
            name.text(),
            ": has no right at any book\n",
        ),
        Gap::ClosedList(path) => push_at(text, path, ": nobody may change its list\n"),
        Gap::UnreadByOwner(path, owner) => push_unread(text, path, owner),
        Gap::OpenedAbove(book, reader, from) => push_opened(text, book, reader, from),
        Gap::KeptByOwners(book) => push_at(
            text,
            book,
            ": what it grants to owners stays with who leaves a group\n",
        ),
        Gap::KeptByProtected(book, at) => push_protected(text, book, at),
        Gap::ReadByListing(name, book) => push_listing(text, name, book),
    }
}

/// The sentence of a fact: one line (own profile). An error is want of memory.
pub fn gap_line(alloc: Global, gap: &Gap) -> Result<String, AllocError>
    ensures { IfOk result (λ line. string_bytes line ≡ gap_line gap.now) }
{
    let mut text = String::new(alloc);
    push_gap_line(&mut text, gap)?;
    Ok(text)
}
