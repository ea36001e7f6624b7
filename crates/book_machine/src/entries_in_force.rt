//! The entries in force at a resource, as a decision takes them.

ghost use Rattle.std.specs.Prelude.{◌≡◌, IfOk};
ghost use Rattle.std.specs.List.{flat_map};
ghost use Rattle.book_office.specs.Levels.{effective_of};
ghost use Rattle.book_office.specs.declared.nodes.Level.{Level};
ghost use Rattle.book_machine.specs.Verdicts.{Judges};

use crate::refusals::{BoxedDenial, Refusal};
use book_lists::{Circle, Entry, Here};
use book_office::{Level, Lists, Path};
use book_office_listings::verdict;
use book_rights::LeafSet;
use std::alloc::{AllocError, Global};

/// The protected entries of all levels.
pub(crate) fn protected_in(alloc: Global, lists: Lists) -> Result<Vec<Entry>, AllocError>
    ensures { IfOk result (λ entries. entries.items ≡ flat_map
        (λ (level : Level). level.protected) lists.levels) }
{
    let mut entries = Vec::new(alloc);
    for level in lists.levels.into_vec() {
        let Level { protected, .. } = level;
        entries.append(&mut protected.into_vec())?;
    }
    Ok(entries)
}

/// The decision on one need at the resource at a path, by one scan over its levels. No list is joined, and no path
/// copied but for a denial.
pub(crate) fn judge(
    alloc: Global,
    levels: &[Level],
    circle: &Circle,
    path: &Path,
    here: &Here,
    set: LeafSet,
) -> Result<(), Refusal>
    ensures { Judges (effective_of levels.now) circle.now here.now path.now set result }
{
    match verdict(path, &[], levels, circle, here, set)? {
        None => Ok(()),
        Some(denial) => Err(Refusal::NeedPrivileges(BoxedDenial::new(alloc, denial)?)),
    }
}
