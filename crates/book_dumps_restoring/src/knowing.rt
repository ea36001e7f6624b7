//! Whether the store knows each principal that is restored, and each card has its book.

ghost use Rattle.std.specs.Prelude.{◌≡◌, ◌⊎◌, false, true, IfErr, IfOk, OnOk};
ghost use Rattle.book_dumps_restoring.specs.Knowing.{has_parent, have_parents, knows_each, knows_entries, knows_entry, knows_line, knows_owner, knows_protected};
ghost use Rattle.book_dumps_restoring.specs.Naming.{wanted};
ghost use Rattle.book_dumps_restoring.specs.Standing.{at};

use crate::faults::RestoreFault;
use crate::naming::{is_named, is_wanted};
use crate::standing::{Standing, book_text, is_there, text_of};
use book_dumps::Line;
use book_lists::{Entry, Principal, Who};
use book_office_values::Path;
use std::alloc::{AllocError, Global};

/// Whether the principal of an entry has a line, if it names one. An error is want of memory.
fn knows_entry(alloc: Global, standing: &Standing<Line>, entry: &Entry) -> Result<bool, AllocError>
    ensures { IfOk result (λ knows. knows ≡ knows_entry standing.now entry.now) }
{
    match &entry.who {
        Who::Href(principal) => is_there(alloc, standing, principal.text()),
        Who::Everyone | Who::Authenticated | Who::Unauthenticated | Who::Owner | Who::Own => {
            Ok(true)
        }
    }
}

/// Whether each principal that entries name has a line. An error is want of memory.
fn knows_entries(
    alloc: Global,
    standing: &Standing<Line>,
    entries: &[Entry],
) -> Result<bool, AllocError>
    ensures { IfOk result (λ knows. knows ≡ knows_entries standing.now entries.now) }
{
    for entry in entries {
        if !knows_entry(alloc, standing, entry)? {
            return Ok(false);
        }
    }
    Ok(true)
}

/// Whether an owner has a line, if there is one. An error is want of memory.
fn knows_owner(
    alloc: Global,
    standing: &Standing<Line>,
    owner: &Option<Principal>,
) -> Result<bool, AllocError>
    ensures { IfOk result (λ knows. knows ≡ knows_owner standing.now owner.now) }
{
    match owner {
        None => Ok(true),
        Some(owner) => is_there(alloc, standing, owner.text()),
    }
}

/// Whether each principal that the protected list of a new resource names has a line. An error is want of memory.
fn knows_protected(
    alloc: Global,
    standing: &Standing<Line>,
    line: &Line,
) -> Result<bool, AllocError>
    ensures { IfOk result (λ knows. knows ≡
        knows_protected standing.now (at standing.now line.now.path) line.now) }
{
    let at = text_of(alloc, &line.path)?;
    match standing.get(&at) {
        Some(_) => Ok(true),
        None => knows_entries(alloc, standing, line.protected.as_slice()),
    }
}

/// Whether the owner, and each principal that a list which is restored names, has a line. An error is want of memory.
fn knows_line(alloc: Global, standing: &Standing<Line>, line: &Line) -> Result<bool, AllocError>
    ensures { IfOk result (λ knows. knows ≡ knows_line standing.now line.now) }
{
    if !knows_owner(alloc, standing, &line.owner)? {
        return Ok(false);
    }
    if !knows_entries(alloc, standing, line.own.as_slice())? {
        return Ok(false);
    }
    knows_protected(alloc, standing, line)
}

/// Each principal of the lines that are wanted has a line. It is `UnknownPrincipal` else.
pub(crate) fn check_known(
    alloc: Global,
    standing: &Standing<Line>,
    lines: &[Line],
    paths: &[Path],
) -> Result<(), RestoreFault>
    ensures ok { OnOk result (knows_each standing.now (wanted lines.now paths.now) ≡ true) }
    ensures err { IfErr result (λ fault. ((fault ≡ RestoreFault.UnknownPrincipal)
        × (knows_each standing.now (wanted lines.now paths.now) ≡ false))
        ⊎ (fault ≡ RestoreFault.Memory)) }
{
    for line in lines {
        if is_wanted(paths, &line.path) && !knows_line(alloc, standing, line)? {
            return Err(RestoreFault::UnknownPrincipal);
        }
    }
    Ok(())
}

/// Whether the book of a card is named or stands there; true of other paths. An error is want of memory.
fn has_parent(
    alloc: Global,
    standing: &Standing<Line>,
    paths: &[Path],
    path: &Path,
) -> Result<bool, AllocError>
    ensures { IfOk result (λ has. has ≡ has_parent standing.now paths.now path.now) }
{
    match path {
        Path::Card(book, _) => {
            if is_named(paths, book) {
                return Ok(true);
            }
            let at = book_text(alloc, book)?;
            Ok(standing.get(&at).is_some())
        }
        Path::Root | Path::People | Path::Groups | Path::Books => Ok(true),
        Path::Person(_) | Path::Group(_) | Path::Book(_) => Ok(true),
    }
}

/// The book of each card that is named is named or stands there. It is `NoParent` else.
pub(crate) fn check_parents(
    alloc: Global,
    standing: &Standing<Line>,
    paths: &[Path],
) -> Result<(), RestoreFault>
    ensures ok { OnOk result (have_parents standing.now paths.now ≡ true) }
    ensures err { IfErr result (λ fault. ((fault ≡ RestoreFault.NoParent)
        × (have_parents standing.now paths.now ≡ false)) ⊎ (fault ≡ RestoreFault.Memory)) }
{
    for path in paths {
        if !has_parent(alloc, standing, paths, path)? {
            return Err(RestoreFault::NoParent);
        }
    }
    Ok(())
}
