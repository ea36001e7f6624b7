//! Whether access is another one.

ghost use Rattle.std.specs.Prelude.{◌≡◌, IfOk};
ghost use Rattle.book_dumps_restoring.specs.Comparing.{any_differs, differs, has_entries, is_any_book, same_entries, same_entry, same_owner};
ghost use Rattle.book_dumps_restoring.specs.Naming.{wanted};
ghost use Rattle.book_dumps_restoring.specs.Standing.{at};
ghost use Rattle.book_office_audit.specs.EntryLines.{who_text};

use crate::naming::is_wanted;
use crate::standing::{Standing, text_of};
use book_dumps::Line;
use book_lists::{Entry, Principal, Who};
use book_office_values::Path;
use std::alloc::{AllocError, Global};

/// The word of a principal form, or its path.
fn who_text(who: &Who) -> &str
    ensures { result.now ≡ who_text who.now }
{
    match who {
        Who::Href(principal) => principal.text(),
        Who::Everyone => "all",
        Who::Authenticated => "authenticated",
        Who::Unauthenticated => "unauthenticated",
        Who::Owner => "owner",
        Who::Own => "self",
    }
}

/// Whether two entries are the same.
fn same_entry(entry: &Entry, other: &Entry) -> bool
    ensures { result ≡ same_entry entry.now other.now }
{
    who_text(&entry.who) == who_text(&other.who)
        && entry.invert == other.invert
        && entry.deny == other.deny
        && entry.set == other.set
}

/// Whether two lists have the same entries, in order.
fn same_entries(entries: &[Entry], others: &[Entry]) -> bool
    ensures { result ≡ same_entries entries.now others.now }
{
    let mut rest = others;
    for entry in entries {
        match rest.split_first() {
            Some((other, after)) if same_entry(entry, other) => rest = after,
            _ => return false,
        }
    }
    rest.is_empty()
}

/// Whether two owners are one.
fn same_owner(owner: &Option<Principal>, other: &Option<Principal>) -> bool
    ensures { result ≡ same_owner owner.now other.now }
{
    match (owner, other) {
        (None, None) => true,
        (Some(owner), Some(other)) => *owner == *other,
        (None, Some(_)) | (Some(_), None) => false,
    }
}

/// Whether a path is that of a book.
pub(crate) fn is_any_book(path: &Path) -> bool
    ensures { result ≡ is_any_book path.now }
{
    match path {
        Path::Book(_) => true,
        Path::Root | Path::People | Path::Groups | Path::Books => false,
        Path::Person(_) | Path::Group(_) | Path::Card(_, _) => false,
    }
}

/// Whether a list has an entry.
fn has_entries(entries: &[Entry]) -> bool
    ensures { result ≡ has_entries entries.now }
{
    !entries.is_empty()
}

/// Whether access is another one with a line than with what stands at its path. An error is want of memory.
fn differs(alloc: Global, standing: &Standing<Line>, line: &Line) -> Result<bool, AllocError>
    ensures { IfOk result (λ is. is ≡ differs (at standing.now line.now.path) line.now) }
{
    let at = text_of(alloc, &line.path)?;
    match standing.get(&at) {
        None => Ok(is_any_book(&line.path) || has_entries(line.own.as_slice())),
        Some(old) => Ok(
            !(same_owner(&old.owner, &line.owner)
                && same_entries(old.own.as_slice(), line.own.as_slice())),
        ),
    }
}

/// Whether access is another one with some of the lines that are wanted. An error is want of memory.
pub(crate) fn any_differs(
    alloc: Global,
    standing: &Standing<Line>,
    lines: &[Line],
    paths: &[Path],
) -> Result<bool, AllocError>
    ensures { IfOk result (λ is. is ≡ any_differs standing.now (wanted lines.now paths.now)) }
{
    for line in lines {
        if is_wanted(paths, &line.path) && differs(alloc, standing, line)? {
            return Ok(true);
        }
    }
    Ok(false)
}
