//! Decisions by one scan over several lists in turn, which are joined nowhere.

ghost use Rattle.std.specs.Prelude.{◌≡◌, ◌+◌, ◌++◌, ◌∷◌, None, Some, Bool, List, MatchOption, slice_get, IfOk};
ghost use Rattle.std.specs.List.{flat_map};
ghost use Rattle.book_rights.specs.declared.privileges.Leaf.{Leaf};
ghost use Rattle.book_office.specs.Levels.{effective_of};
ghost use Rattle.book_office.specs.declared.nodes.EffectiveEntry.{EffectiveEntry};
ghost use Rattle.book_office.specs.InForce.{list_in};
ghost use Rattle.book_office_listings.specs.Scanning.{IsVerdict, IsWalk, standing_in};
ghost use Rattle.book_office_listings.specs.Verdicts.{deciding_entry, paths_of};

use crate::messages::{DecidingEntry, Denial};
use book_lists::{Circle, Deciders, Entry, Here, Outcome};
use book_office::Level;
use book_office_values::Path;
use book_rights::{LeafSet, denied_name};
use std::alloc::AllocError;
use std::slice;

/// The sum. An error is a sum past the last `usize`, which no Office has entries for.
fn sum(a: usize, b: usize) -> Result<usize, AllocError>
    ensures { IfOk result (λ sum. sum ≡ a + b) }
{
    a.checked_add(b).ok_or(AllocError)
}

/// A copy of the path.
fn copy_of(path: &Path) -> Result<Path, AllocError>
    ensures { IfOk result (λ copy. copy ≡ path.now) }
{
    path.clone()
}

/// The protected list of a level, or its own list.
pub(crate) fn list_in(level: &Level, protected: bool) -> &[Entry]
    ensures { result.now ≡ list_in protected level.now }
{
    if protected {
        level.protected.as_slice()
    } else {
        level.own.as_slice()
    }
}

/// Goes over the protected lists of levels in turn, or over their own lists.
fn go_over(
    levels: &[Level],
    protected: bool,
    circle: &Circle,
    here: &Here,
    deciders: Deciders,
) -> Deciders
    ensures { (before : List EffectiveEntry) (set : Leaf → Bool)
        → IsWalk before circle.now here.now set deciders
        → IsWalk (before ++ flat_map (standing_in protected) levels.now)
        circle.now here.now set result }
{
    let mut deciders = deciders;
    for level in levels {
        deciders.over(list_in(level, protected), circle, here);
    }
    deciders
}

/// Where the entry at an index stands, counted from the first of these lists. Where it stands in none of them, the
/// index is then counted from the entries after them.
fn place_among<'a>(levels: &'a [Level], protected: bool, index: &mut usize) -> Option<&'a Path>
    ensures { (after : List EffectiveEntry)
        → MatchOption result (slice_get (paths_of
        (flat_map (standing_in protected) levels.now ++ after)) index.old ≡ slice_get
        (paths_of after) index.new) (λ path. slice_get
        (paths_of (flat_map (standing_in protected) levels.now ++ after)) index.old ≡
        Some path.now) }
{
    for level in levels {
        let count = list_in(level, protected).len();
        if *index < count {
            return Some(&level.path);
        }
        *index -= count;
    }
    None
}

/// Where the entry at an index of the effective list stands.
fn place<'a>(own: &'a [Level], above: &'a [Level], index: usize) -> Option<&'a Path>
    ensures { MatchOption result (slice_get
        (paths_of (effective_of (own.now ++ above.now))) index ≡ None)
        (λ path. slice_get (paths_of (effective_of (own.now ++ above.now))) index ≡ Some path.now) }
{
    let mut rest = index;
    if let Some(path) = place_among(own, true, &mut rest) {
        return Some(path);
    }
    if let Some(path) = place_among(above, true, &mut rest) {
        return Some(path);
    }
    if let Some(path) = place_among(own, false, &mut rest) {
        return Some(path);
    }
    place_among(above, false, &mut rest)
}

/// The entry at an index of the effective list, if there is one, as a denial names it.
pub(crate) fn deciding_entry(
    own: &[Level],
    above: &[Level],
    index: Option<usize>,
) -> Result<Option<DecidingEntry>, AllocError>
    ensures { IfOk result (λ entry. entry ≡ deciding_entry
        (paths_of (effective_of (own.now ++ above.now))) index) }
{
    let Some(index) = index else {
        return Ok(None);
    };
    match place(own, above, index) {
        Some(path) => Ok(Some(DecidingEntry {
            from: copy_of(path)?,
            number: sum(index, 1)?,
        })),
        None => Ok(None),
    }
}

/// Which entry decides each leaf of a set at a resource, by its levels in two parts, of which the first is nearer to
/// it: the protected lists of all levels are gone over, and then their own lists, once; no list is joined (RFC 3744,
/// sections 5.5 and 6). Takes no memory.
pub(crate) fn walk(
    own: &[Level],
    above: &[Level],
    circle: &Circle,
    here: &Here,
    set: LeafSet,
) -> Deciders
    ensures { IsWalk (effective_of (own.now ++ above.now)) circle.now here.now set result }
{
    let deciders = go_over(own, true, circle, here, Deciders::start(set));
    let deciders = go_over(above, true, circle, here, deciders);
    let deciders = go_over(own, false, circle, here, deciders);
    go_over(above, false, circle, here, deciders)
}

/// The decision on a set at the resource at a path, by its levels in two parts, of which the first is nearer to it:
/// none where the set is granted (RFC 3744, section 6). It is one scan, over the protected lists of all levels and then
/// over their own lists; no list is joined, and no path copied but for a denial. An error is want of memory.
pub fn verdict(
    path: &Path,
    own: &[Level],
    above: &[Level],
    circle: &Circle,
    here: &Here,
    set: LeafSet,
) -> Result<Option<Denial>, AllocError>
    ensures { IfOk result (IsVerdict (effective_of (own.now ++ above.now)) circle.now here.now
        path.now set) }
{
    let deciders = walk(own, above, circle, here, set);
    if !deciders.are_counted() {
        return Err(AllocError);
    }
    match deciders.outcome() {
        Outcome::Allowed => Ok(None),
        Outcome::Denied { leaf, entry } => Ok(Some(Denial {
            resource: copy_of(path)?,
            privilege: denied_name(leaf, set),
            entry: deciding_entry(own, above, entry)?,
        })),
    }
}

/// The decision on a set at a resource, by its own level and those above it: none where the set is granted (RFC 3744,
/// section 6). No list is joined, and no path copied but for a denial. An error is want of memory.
pub(crate) fn judge(
    own: &Level,
    above: &[Level],
    circle: &Circle,
    here: &Here,
    set: LeafSet,
) -> Result<Option<Denial>, AllocError>
    ensures { IfOk result (IsVerdict (effective_of (own.now ∷ above.now)) circle.now here.now
        own.now.path set) }
{
    verdict(&own.path, slice::from_ref(own), above, circle, here, set)
}
