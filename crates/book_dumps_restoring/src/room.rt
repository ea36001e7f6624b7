//! Whether there is room for what is restored.

ghost use Rattle.std.specs.Prelude.{◌≡◌, count_by, false, true, IfErr, OnOk};
ghost use Rattle.std.specs.List.{list_any};
ghost use Rattle.book_dumps_restoring.specs.Restoring.{cards_in, is_book_line, is_crowded, is_full, is_past, is_past_line};

use crate::comparing::is_any_book;
use crate::faults::RestoreFault;
use crate::naming::is_card_in;
use book_dumps::Line;
use book_limits::{LAST_NUMBER, MAX_BOOKS, MAX_CARDS};
use book_lists::Name;
use book_office_values::Path;

/// How many lines are those of books.
fn count_books(lines: &[Line]) -> usize
    ensures { result ≡ count_by is_book_line lines.now }
{
    let mut count = 0;
    for line in lines {
        if is_any_book(&line.path) {
            count += 1;
        }
    }
    count
}

/// How many lines are those of cards of a book.
fn count_cards(lines: &[Line], book: &Name) -> usize
    ensures { result ≡ cards_in lines.now book.now }
{
    let mut count = 0;
    for line in lines {
        if is_card_in(book, &line.path) {
            count += 1;
        }
    }
    count
}

/// Whether the book that a path names, or of which it names a card, has too many cards.
fn is_crowded(lines: &[Line], path: &Path) -> bool
    ensures { result ≡ is_crowded lines.now path.now }
{
    match path {
        Path::Book(book) | Path::Card(book, _) => count_cards(lines, book) > MAX_CARDS,
        Path::Root | Path::People | Path::Groups | Path::Books => false,
        Path::Person(_) | Path::Group(_) => false,
    }
}

/// Whether a book of paths has too many cards.
fn any_crowded(lines: &[Line], paths: &[Path]) -> bool
    ensures { result ≡ list_any (is_crowded lines.now) paths.now }
{
    for path in paths {
        if is_crowded(lines, path) {
            return true;
        }
    }
    false
}

/// Whether a number is above the last.
fn is_past(number: Option<u64>) -> bool
    ensures { result ≡ is_past number }
{
    match number {
        None => false,
        Some(number) => number > LAST_NUMBER,
    }
}

/// Whether the number of a line is above the last.
fn any_past(lines: &[Line]) -> bool
    ensures { result ≡ list_any is_past_line lines.now }
{
    for line in lines {
        if is_past(line.number) {
            return true;
        }
    }
    false
}

/// Whether there are too many books, or too many cards in a book of paths, or a number is above the last.
fn is_full(lines: &[Line], paths: &[Path]) -> bool
    ensures { result ≡ is_full lines.now paths.now }
{
    count_books(lines) > MAX_BOOKS || any_crowded(lines, paths) || any_past(lines)
}

/// There is room. It is `Full` else.
pub(crate) fn check_room(lines: &[Line], paths: &[Path]) -> Result<(), RestoreFault>
    ensures ok { OnOk result (is_full lines.now paths.now ≡ false) }
    ensures err { IfErr result (λ fault. (fault ≡ RestoreFault.Full)
        × (is_full lines.now paths.now ≡ true)) }
{
    if is_full(lines, paths) {
        return Err(RestoreFault::Full);
    }
    Ok(())
}
