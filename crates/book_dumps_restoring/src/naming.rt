//! What paths name in a backup.

ghost use Rattle.std.specs.Prelude.{◌≡◌, false, true, IfErr, OnOk};
ghost use Rattle.book_dumps_restoring.specs.Naming.{are_found, is_at, is_book, is_card, is_card_in, is_found, is_named, is_wanted, names};

use crate::faults::RestoreFault;
use book_dumps::Line;
use book_lists::Name;
use book_office_values::Path;

/// Whether a path is that of a book.
pub(crate) fn is_book(book: &Name, path: &Path) -> bool
    ensures { result ≡ is_book book.now path.now }
{
    match path {
        Path::Book(other) => *other == *book,
        Path::Root | Path::People | Path::Groups | Path::Books => false,
        Path::Person(_) | Path::Group(_) | Path::Card(_, _) => false,
    }
}

/// Whether a path is that of a card of a book.
pub(crate) fn is_card_in(book: &Name, path: &Path) -> bool
    ensures { result ≡ is_card_in book.now path.now }
{
    match path {
        Path::Card(other, _) => *other == *book,
        Path::Root | Path::People | Path::Groups | Path::Books => false,
        Path::Person(_) | Path::Group(_) | Path::Book(_) => false,
    }
}

/// Whether a path is that of one card.
fn is_card(book: &Name, card: &Name, path: &Path) -> bool
    ensures { result ≡ is_card book.now card.now path.now }
{
    match path {
        Path::Card(other, name) => *other == *book && *name == *card,
        Path::Root | Path::People | Path::Groups | Path::Books => false,
        Path::Person(_) | Path::Group(_) | Path::Book(_) => false,
    }
}

/// Whether a path is the card or the book at another path.
fn is_at(path: &Path, at: &Path) -> bool
    ensures { result ≡ is_at path.now at.now }
{
    match path {
        Path::Root | Path::People | Path::Groups | Path::Books => false,
        Path::Person(_) | Path::Group(_) => false,
        Path::Book(book) => is_book(book, at),
        Path::Card(book, card) => is_card(book, card, at),
    }
}

/// Whether a path names what stands at another: a card, or a book and its cards.
fn names(path: &Path, at: &Path) -> bool
    ensures { result ≡ names path.now at.now }
{
    match path {
        Path::Root | Path::People | Path::Groups | Path::Books => false,
        Path::Person(_) | Path::Group(_) => false,
        Path::Book(book) => is_book(book, at) || is_card_in(book, at),
        Path::Card(book, card) => is_card(book, card, at),
    }
}

/// Whether what stands at a path is named.
pub(crate) fn is_wanted(paths: &[Path], at: &Path) -> bool
    ensures { result ≡ is_wanted paths.now at.now }
{
    for path in paths {
        if names(path, at) {
            return true;
        }
    }
    false
}

/// Whether a book is named.
pub(crate) fn is_named(paths: &[Path], book: &Name) -> bool
    ensures { result ≡ is_named paths.now book.now }
{
    for path in paths {
        if is_book(book, path) {
            return true;
        }
    }
    false
}

/// Whether a path names a card or a book that has a line.
fn is_found(lines: &[Line], path: &Path) -> bool
    ensures { result ≡ is_found lines.now path.now }
{
    for line in lines {
        if is_at(path, &line.path) {
            return true;
        }
    }
    false
}

/// Each path names a card or a book that has a line. It is `NotFound` else.
pub(crate) fn check_found(lines: &[Line], paths: &[Path]) -> Result<(), RestoreFault>
    ensures ok { OnOk result (are_found lines.now paths.now ≡ true) }
    ensures err { IfErr result (λ fault. (fault ≡ RestoreFault.NotFound)
        × (are_found lines.now paths.now ≡ false)) }
{
    for path in paths {
        if !is_found(lines, path) {
            return Err(RestoreFault::NotFound);
        }
    }
    Ok(())
}
