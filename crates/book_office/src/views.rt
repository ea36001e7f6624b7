//! What the keepers' answers together tell.

ghost use Rattle.std.specs.Prelude.{◌≡◌, ◌++◌, false, map, true, IfOk, OnOk};
ghost use Rattle.book_office.specs.Keeping.{Reads};
ghost use Rattle.book_office.specs.Levels.{effective_at, effective_of, standing_at};

use crate::keepers::{Keeper, StoreFault};
use crate::nodes::{EffectiveEntry, Level, Lists};
use book_lists::Entry;
use book_office_values::{Items, Path};
use std::alloc::{AllocError, Global};

/// Adds the entries of one list, with the path where they stand.
fn push_entries(
    entries: &mut Vec<EffectiveEntry>,
    path: &Path,
    protected: bool,
    list: Items<Entry>,
) -> Result<(), AllocError>
    ensures { OnOk result (entries.new.items ≡ entries.old.items ++ map
        (standing_at path.now protected) list) }
{
    for entry in list.into_vec() {
        let path = path.clone()?;
        entries.push(EffectiveEntry {
            path,
            protected,
            entry,
        })?;
    }
    Ok(())
}

/// Adds the protected entries of a level to the ones, and its own entries to the others.
fn push_level(
    entries: &mut Vec<EffectiveEntry>,
    own_entries: &mut Vec<EffectiveEntry>,
    level: Level,
) -> Result<(), AllocError>
    ensures protected { OnOk result (entries.new.items ≡ entries.old.items
        ++ map (standing_at level.path true) level.protected) }
    ensures own { OnOk result (own_entries.new.items ≡ own_entries.old.items
        ++ map (standing_at level.path false) level.own) }
{
    let Level {
        path,
        protected,
        own,
    } = level;
    push_entries(entries, &path, true, protected)?;
    push_entries(own_entries, &path, false, own)
}

/// The protected entries of all levels, and then the own entries of all levels.
fn effective_entries(alloc: Global, lists: Lists) -> Result<Items<EffectiveEntry>, AllocError>
    ensures { IfOk result (λ entries. entries ≡ effective_of lists.levels) }
{
    let mut entries = Vec::new(alloc);
    let mut own_entries = Vec::new(alloc);
    for level in lists.levels.into_vec() {
        push_level(&mut entries, &mut own_entries, level)?;
    }
    entries.append(&mut own_entries)?;
    Ok(Items::from_vec(entries))
}

/// The effective list of a resource: the protected entries of the resource, of its parent, and so on up to the root, and
/// then the own entries likewise (RFC 3744, section 5.5; the order is own profile). It changes nothing.
pub fn effective<K: Keeper>(
    alloc: Global,
    keeper: &mut K,
    path: &Path,
) -> Result<Items<EffectiveEntry>, StoreFault>
    ensures { Reads (K.standing keeper.old) (K.standing keeper.new) result
        (λ o entries. entries ≡ effective_at o path.now) }
{
    let lists = keeper.lists(alloc, path)?;
    Ok(effective_entries(alloc, lists)?)
}
