//! The facts of books that others reach.

ghost use Rattle.std.specs.Prelude.{◌≡◌, ◌++◌, Some, IfOk, OnOk};
ghost use Rattle.std.specs.List.{find};
ghost use Rattle.std.specs.Option.{option_copied};
ghost use Rattle.book_policy_gaps.specs.Far.{closes, closes_book, closes_who, far_gaps, first_reader, grants_owners, is_closed_itself, is_owner_form, is_read_by, kept_by, kept_gap, kept_gaps, listing_gap, listing_gaps, opened_gap, opened_gaps, reads_book, settles_owners, told_from, told_kept, told_listed, told_reader};
ghost use Rattle.book_policy_gaps.specs.declared.gaps.Gap.TheVariants.{OpenedAbove};

use crate::askers::{Asker, Everybody};
use crate::gaps::Gap;
use crate::places::{Place, may_read, reads_from_above, stands_at_book};
use book_lists::{Entry, Principal, Who};
use book_office::EffectiveEntry;
use book_office_values::Path;
use book_rights::LeafSet;
use std::alloc::AllocError;

/// Who is closed out by a denial: everybody, or who does not belong to a principal.
fn closes_who(who: &Who, invert: bool) -> bool
    ensures { result ≡ closes_who who.now invert }
{
    match who {
        Who::Href(_) => invert,
        Who::Everyone => !invert,
        Who::Authenticated | Who::Unauthenticated | Who::Owner | Who::Own => false,
    }
}

/// Whether an entry denies `all` to all, or to who does not belong to a principal.
fn closes(entry: &Entry) -> bool
    ensures { result ≡ closes entry.now }
{
    entry.deny && entry.set == LeafSet::all() && closes_who(&entry.who, entry.invert)
}

/// Whether an entry in force at a book stands there and closes it.
fn closes_book(entry: &EffectiveEntry) -> bool
    ensures { result ≡ closes_book entry.now }
{
    stands_at_book(entry) && closes(&entry.entry)
}

/// Whether an entry of the lists of a book closes it.
fn is_closed_itself(book: &Place) -> bool
    ensures { result ≡ is_closed_itself book.now }
{
    book.list.as_slice().iter().any(|entry| closes_book(entry))
}

/// Whether the person reads a book by an entry above it.
fn reads_book(book: &Place, person: &Asker) -> bool
    ensures { result ≡ reads_book book.now person.now }
{
    reads_from_above(book, &person.circle).is_some()
}

/// The first person who reads a book by an entry above it.
fn reading_person<'a>(persons: &'a [Asker], book: &Place) -> Option<&'a Asker>
    ensures { option_copied result ≡ find (reads_book book.now) persons.now }
{
    persons.iter().find(|person| reads_book(book, person))
}

/// A copy of a principal, if there is one.
fn copy_of(principal: Option<&Principal>) -> Result<Option<Principal>, AllocError>
    ensures { IfOk result (λ copy. copy ≡ option_copied principal.entry) }
{
    match principal {
        Some(principal) => Ok(Some(principal.clone()?)),
        None => Ok(None),
    }
}

/// A copy of a path.
fn copy_of_path(path: &Path) -> Result<Path, AllocError>
    ensures { IfOk result (λ copy. copy ≡ path.now) }
{
    path.clone()
}

/// That a caller reads a book by an entry that stands there.
fn opening_of(book: &Place, reader: Option<&Principal>, from: &Path) -> Result<Gap, AllocError>
    ensures { IfOk result (λ gap. gap
        ≡ OpenedAbove book.now.path (option_copied reader.entry) from.now) }
{
    let path = copy_of_path(&book.path)?;
    let reader = copy_of(reader)?;
    let from = copy_of_path(from)?;
    Ok(Gap::OpenedAbove(path, reader, from))
}

/// Tells that a caller reads a book by an entry that stands there.
fn push_opening(
    gaps: &mut Vec<Gap>,
    book: &Place,
    reader: Option<&Principal>,
    from: &Path,
) -> Result<(), AllocError>
    ensures { OnOk result (gaps.new.items ≡ gaps.old.items
        ++ told_from book.now (option_copied reader.entry) (Some from.now)) }
{
    let gap = opening_of(book, reader, from)?;
    gaps.push(gap)?;
    Ok(())
}

/// Tells who reads a book by the entry that stands there, if there is one.
fn push_from(
    gaps: &mut Vec<Gap>,
    book: &Place,
    reader: Option<&Principal>,
    from: Option<&Path>,
) -> Result<(), AllocError>
    ensures { OnOk result (gaps.new.items ≡ gaps.old.items
        ++ told_from book.now (option_copied reader.entry) (option_copied from.entry)) }
{
    match from {
        Some(from) => push_opening(gaps, book, reader, from),
        None => Ok(()),
    }
}

/// Tells that the person reads a book by an entry above it.
fn push_reader(gaps: &mut Vec<Gap>, book: &Place, person: Option<&Asker>) -> Result<(), AllocError>
    ensures { OnOk result (gaps.new.items ≡ gaps.old.items
        ++ told_reader book.now (option_copied person.entry)) }
{
    match person {
        Some(person) => push_from(
            gaps,
            book,
            Some(&person.principal),
            reads_from_above(book, &person.circle),
        ),
        None => Ok(()),
    }
}

/// Tells who is the first to read a book by an entry above it.
fn push_first_reader(
    gaps: &mut Vec<Gap>,
    everybody: &Everybody,
    book: &Place,
    from: Option<&Path>,
) -> Result<(), AllocError>
    ensures { OnOk result (gaps.new.items ≡ gaps.old.items
        ++ first_reader everybody.now book.now (option_copied from.entry)) }
{
    match from {
        Some(from) => push_from(gaps, book, None, Some(from)),
        None => push_reader(
            gaps,
            book,
            reading_person(everybody.persons.as_slice(), book),
        ),
    }
}

/// Tells who reads a book by an entry above it, unless an entry of its lists closes it.
fn push_opened(gaps: &mut Vec<Gap>, everybody: &Everybody, book: &Place) -> Result<(), AllocError>
    ensures { OnOk result (gaps.new.items ≡ gaps.old.items ++ opened_gap everybody.now book.now) }
{
    if is_closed_itself(book) {
        return Ok(());
    }
    push_first_reader(
        gaps,
        everybody,
        book,
        reads_from_above(book, &everybody.nobody),
    )
}

/// Tells of each book who reads it by an entry above it.
fn push_opened_books(
    gaps: &mut Vec<Gap>,
    everybody: &Everybody,
    books: &[Place],
) -> Result<(), AllocError>
    ensures { OnOk result (gaps.new.items ≡ gaps.old.items ++ opened_gaps everybody.now books.now) }
{
    for book in books {
        push_opened(gaps, everybody, book)?;
    }
    Ok(())
}

/// Whether the form is `owner`.
fn is_owner_form(who: &Who) -> bool
    ensures { result ≡ is_owner_form who.now }
{
    match who {
        Who::Owner => true,
        Who::Href(_) | Who::Everyone | Who::Authenticated | Who::Unauthenticated | Who::Own =>
            false,
    }
}

/// Whether an entry of the own list of a book, or a protected one wherever it stands, grants to `owner`.
fn grants_owners(entry: &EffectiveEntry) -> bool
    ensures { result ≡ grants_owners entry.now }
{
    (entry.protected || stands_at_book(entry))
        && !entry.entry.deny
        && !entry.entry.invert
        && is_owner_form(&entry.entry.who)
}

/// Whether an entry closes, or grants to `owner`.
fn settles_owners(entry: &EffectiveEntry) -> bool
    ensures { result ≡ settles_owners entry.now }
{
    closes(&entry.entry) || grants_owners(entry)
}

/// The first entry that closes, or grants to `owner`.
fn settling(book: &Place) -> Option<&EffectiveEntry>
    ensures { option_copied result ≡ find settles_owners book.now.list }
{
    book.list
        .as_slice()
        .iter()
        .find(|entry| settles_owners(entry))
}

/// That owners keep what an entry grants to them.
fn kept_by(book: &Path, entry: &EffectiveEntry) -> Result<Gap, AllocError>
    ensures { IfOk result (λ gap. gap ≡ kept_by book.now entry.now) }
{
    let book = copy_of_path(book)?;
    if entry.protected {
        let at = copy_of_path(&entry.path)?;
        return Ok(Gap::KeptByProtected(book, at));
    }
    Ok(Gap::KeptByOwners(book))
}

/// Tells that owners keep what this entry grants to them, if there is one and it does.
fn push_settled(
    gaps: &mut Vec<Gap>,
    book: &Path,
    entry: Option<&EffectiveEntry>,
) -> Result<(), AllocError>
    ensures { OnOk result (gaps.new.items ≡ gaps.old.items
        ++ told_kept book.now (option_copied entry.entry)) }
{
    let Some(entry) = entry else {
        return Ok(());
    };
    if !grants_owners(entry) {
        return Ok(());
    }
    let gap = kept_by(book, entry)?;
    gaps.push(gap)?;
    Ok(())
}

/// Tells of a book that owners keep what is granted to them there, where that is so.
fn push_kept(gaps: &mut Vec<Gap>, book: &Place) -> Result<(), AllocError>
    ensures { OnOk result (gaps.new.items ≡ gaps.old.items ++ kept_gap book.now) }
{
    push_settled(gaps, &book.path, settling(book))
}

/// Tells of each book in which owners keep what is granted to them.
fn push_kept_books(gaps: &mut Vec<Gap>, books: &[Place]) -> Result<(), AllocError>
    ensures { OnOk result (gaps.new.items ≡ gaps.old.items ++ kept_gaps books.now) }
{
    for book in books {
        push_kept(gaps, book)?;
    }
    Ok(())
}

/// The first book that the person reads by an entry above it.
fn read_book<'a>(books: &'a [Place], person: &Asker) -> Option<&'a Place>
    ensures { option_copied result ≡ find (is_read_by person.now) books.now }
{
    books.iter().find(|book| reads_book(book, person))
}

/// Tells that who lists the books reads this one, if there is one.
fn push_listed(gaps: &mut Vec<Gap>, person: &Asker, book: Option<&Place>) -> Result<(), AllocError>
    ensures { OnOk result (gaps.new.items ≡ gaps.old.items
        ++ told_listed person.now (option_copied book.entry)) }
{
    let Some(book) = book else {
        return Ok(());
    };
    let name = person.name.clone()?;
    let path = book.path.clone()?;
    gaps.push(Gap::ReadByListing(name, path))?;
    Ok(())
}

/// Tells of a person who may list the books that they read one, where that is so.
fn push_listing(
    gaps: &mut Vec<Gap>,
    home: &Place,
    books: &[Place],
    person: &Asker,
) -> Result<(), AllocError>
    ensures { OnOk result (gaps.new.items ≡ gaps.old.items
        ++ listing_gap home.now books.now person.now) }
{
    if !may_read(home, &person.circle) {
        return Ok(());
    }
    push_listed(gaps, person, read_book(books, person))
}

/// Tells of each person who may list the books and reads one.
fn push_listings(
    gaps: &mut Vec<Gap>,
    home: &Place,
    books: &[Place],
    persons: &[Asker],
) -> Result<(), AllocError>
    ensures { OnOk result (gaps.new.items ≡ gaps.old.items
        ++ listing_gaps home.now books.now persons.now) }
{
    for person in persons {
        push_listing(gaps, home, books, person)?;
    }
    Ok(())
}

/// Tells of each book who reads it from above and what owners keep there, and of each person who lists the books.
pub(crate) fn push_far(
    gaps: &mut Vec<Gap>,
    everybody: &Everybody,
    home: &Place,
    books: &[Place],
) -> Result<(), AllocError>
    ensures { OnOk result (gaps.new.items ≡ gaps.old.items
        ++ far_gaps everybody.now home.now books.now) }
{
    push_opened_books(gaps, everybody, books)?;
    push_kept_books(gaps, books)?;
    push_listings(gaps, home, books, everybody.persons.as_slice())
}
