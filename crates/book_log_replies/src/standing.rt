//! Where the entry of a denial stands.

ghost use Rattle.std.specs.Prelude.{◌≡◌, ◌++◌, ◌+◌, ◌<◌, List, IfOk, length, option_map, slice_get, Some};
ghost use Rattle.std.specs.List.{flat_map};
ghost use Rattle.book_office.specs.InForce.{list_in};
ghost use Rattle.book_log_replies.specs.Standing.{all_placed, decided, decided_of, placed, Finds, Placed};

use book_lists::Entry;
use book_log_lines::Decided;
use book_office::Level;
use book_office_values::Path;
use std::alloc::AllocError;

/// What a look for an entry of lists finds.
#[derive(Debug, Drop)]
enum Found {
    /// The entry.
    Here(Decided),
    /// The lists have no more entries; this is the index among those that follow.
    Behind(usize),
}

/// A copy of a path. An error is want of memory.
pub(crate) fn copy_of(path: &Path) -> Result<Path, AllocError>
    ensures { IfOk result (λ copy. copy ≡ path.now) }
{
    path.clone()
}

/// The protected list of a level, or the own one.
fn list_in(level: &Level, protected: bool) -> &[Entry]
    ensures { result.now ≡ list_in protected level.now }
{
    if protected {
        level.protected.as_slice()
    } else {
        level.own.as_slice()
    }
}

/// The entry at an index of a list of a level. An error is want of memory.
fn decided_at(
    level: &Level,
    protected: bool,
    index: usize,
    number: usize,
) -> Result<Decided, AllocError>
    requires { index < length (list_in protected level.now) }
    ensures { IfOk result (λ found. option_map (decided number)
        (slice_get (placed protected level.now) index) ≡ Some found) }
{
    let list = list_in(level, protected);
    Ok(Decided {
        from: copy_of(&level.path)?,
        protected,
        place: index as u64 + 1,
        number: number as u64,
        entry: list[index].clone()?,
    })
}

/// The entry at an index of the lists of levels, those that are protected or the own ones, one after the other. An error is
/// want of memory.
fn found_in(
    levels: &[Level],
    protected: bool,
    index: usize,
    number: usize,
) -> Result<Found, AllocError>
    ensures { IfOk result (λ found. (more : List Placed) → Finds number
        (slice_get (flat_map (placed protected) levels.now ++ more) index) more found) }
{
    let mut left = index;
    for level in levels {
        let count = list_in(level, protected).len();
        if left < count {
            return Ok(Found::Here(decided_at(level, protected, left, number)?));
        }
        left -= count;
    }
    Ok(Found::Behind(left))
}

/// The entry with a number of the effective list of a resource (RFC 3744, section 5.5), which counts from 1, by the lists of
/// the resource and of each of its ancestors: first the protected lists, from the resource up, and then the own ones (own
/// profile). None where the effective list has no such number. An error is want of memory.
pub fn decided_in(levels: &[Level], number: usize) -> Result<Option<Decided>, AllocError>
    ensures { IfOk result (λ found. found ≡ decided_of levels.now number) }
{
    if number == 0 {
        return Ok(None);
    }
    match found_in(levels, true, number - 1, number)? {
        Found::Here(decided) => Ok(Some(decided)),
        Found::Behind(rest) => match found_in(levels, false, rest, number)? {
            Found::Here(decided) => Ok(Some(decided)),
            Found::Behind(_) => Ok(None),
        },
    }
}
