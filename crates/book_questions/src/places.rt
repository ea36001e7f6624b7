//! Where an entry of an effective list stands.

ghost use Rattle.std.specs.Prelude.{◌≡◌, ◌≤◌, length, count_by, IfOk};
ghost use Rattle.std.specs.Str.{bytes_eq};
ghost use Rattle.book_office_values.specs.Paths.{path_text};
ghost use Rattle.book_questions.specs.Lines.{stands_in};

use book_office::EffectiveEntry;
use book_office_values::Path;
use std::alloc::{AllocError, Global};

/// Whether this is the text of the path.
fn is_at(alloc: Global, place: &str, path: &Path) -> Result<bool, AllocError>
    ensures { IfOk result (λ same. same ≡ bytes_eq place.now (path_text path.now)) }
{
    let text = path.text(alloc)?;
    Ok(place == text.as_str())
}

/// Whether an entry stands in the list of a place, the protected one or the own one.
fn stands_in(
    alloc: Global,
    place: &str,
    protected: bool,
    entry: &EffectiveEntry,
) -> Result<bool, AllocError>
    ensures { IfOk result (λ stands. stands ≡ stands_in place.now protected entry.now) }
{
    let same_list = if protected {
        entry.protected
    } else {
        !entry.protected
    };
    if !same_list {
        return Ok(false);
    }
    is_at(alloc, place, &entry.path)
}

/// How many of these entries stand in the list of a place, which is named by the text of its path: in the protected one, or
/// in the own one. An error is want of memory.
pub fn count_in(
    alloc: Global,
    place: &str,
    protected: bool,
    entries: &[EffectiveEntry],
) -> Result<usize, AllocError>
    ensures count { IfOk result (λ count. count ≡ count_by
        (stands_in place.now protected) entries.now) }
    ensures bound { IfOk result (λ count. count ≤ length entries.now) }
{
    let mut count = 0;
    for entry in entries {
        if stands_in(alloc, place, protected, entry)? {
            count += 1;
        }
    }
    Ok(count)
}
