//! The property `acl`.

ghost use Rattle.std.specs.Prelude.{◌≡◌, ◌++◌, ◌∷◌, map, length, IfOk, OnOk};
ghost use Rattle.std.specs.List.{flat_map};
ghost use Rattle.book_office.specs.Levels.{effective_of, own_entries, protected_entries, standing_at};
ghost use Rattle.book_office_listings.specs.Values.{acl_entry, depth_of, inherited_from};

use crate::messages::AclEntry;
use book_lists::Entry;
use book_lists_explain::short_privileges;
use book_office::Level;
use book_office_values::{Items, Path};
use std::alloc::{AllocError, Global};

/// How many resources there are from the root down to a path.
fn depth_of(path: &Path) -> usize
    ensures { result ≡ depth_of path.now }
{
    match path {
        Path::Root => 1,
        Path::People | Path::Groups | Path::Books => 2,
        Path::Person(_) | Path::Group(_) | Path::Book(_) => 3,
        Path::Card(_, _) => 4,
    }
}

/// Where an entry in force at a path stands, if it stands at an ancestor.
fn inherited_from(path: &Path, from: &Path) -> Result<Option<Path>, AllocError>
    ensures { IfOk result (λ inherited. inherited ≡ inherited_from path.now from.now) }
{
    if depth_of(from) < depth_of(path) {
        Ok(Some(from.clone()?))
    } else {
        Ok(None)
    }
}

/// An entry as the property tells it.
fn acl_entry(
    alloc: Global,
    path: &Path,
    from: &Path,
    protected: bool,
    entry: &Entry,
) -> Result<AclEntry, AllocError>
    ensures { IfOk result (λ told. told ≡ acl_entry path.now
        (standing_at from.now protected entry.now)) }
{
    let who = entry.who.clone()?;
    let privileges = Items::from_vec(short_privileges(alloc, entry.set)?);
    let inherited = inherited_from(path, from)?;
    Ok(AclEntry {
        who,
        invert: entry.invert,
        deny: entry.deny,
        privileges,
        protected,
        inherited,
    })
}

/// Adds the entries of one list, which stands at a path.
fn push_list(
    alloc: Global,
    told: &mut Vec<AclEntry>,
    path: &Path,
    from: &Path,
    protected: bool,
    list: &[Entry],
) -> Result<(), AllocError>
    ensures { OnOk result (told.new.items ≡ told.old.items ++ map (acl_entry path.now)
        (map (standing_at from.now protected) list.now)) }
{
    for entry in list {
        told.push(acl_entry(alloc, path, from, protected, entry)?)?;
    }
    Ok(())
}

/// Adds the protected lists of levels in turn.
fn push_protected(
    alloc: Global,
    told: &mut Vec<AclEntry>,
    path: &Path,
    levels: &[Level],
) -> Result<(), AllocError>
    ensures { OnOk result (told.new.items
        ≡ told.old.items ++ map (acl_entry path.now) (flat_map protected_entries levels.now)) }
{
    for level in levels {
        push_list(
            alloc,
            told,
            path,
            &level.path,
            true,
            level.protected.as_slice(),
        )?;
    }
    Ok(())
}

/// Adds the own lists of levels in turn.
fn push_own(
    alloc: Global,
    told: &mut Vec<AclEntry>,
    path: &Path,
    levels: &[Level],
) -> Result<(), AllocError>
    ensures { OnOk result (told.new.items
        ≡ told.old.items ++ map (acl_entry path.now) (flat_map own_entries levels.now)) }
{
    for level in levels {
        push_list(alloc, told, path, &level.path, false, level.own.as_slice())?;
    }
    Ok(())
}

/// The effective list of a resource, by its own level and those above it (RFC 3744, section 5.5). An error is want of
/// memory.
pub(crate) fn acl(
    alloc: Global,
    own: &Level,
    above: &[Level],
) -> Result<Items<AclEntry>, AllocError>
    ensures { IfOk result (λ told. told ≡ map (acl_entry own.now.path)
        (effective_of (own.now ∷ above.now))) }
{
    let mut told = Vec::new(alloc);
    push_list(
        alloc,
        &mut told,
        &own.path,
        &own.path,
        true,
        own.protected.as_slice(),
    )?;
    push_protected(alloc, &mut told, &own.path, above)?;
    push_list(
        alloc,
        &mut told,
        &own.path,
        &own.path,
        false,
        own.own.as_slice(),
    )?;
    push_own(alloc, &mut told, &own.path, above)?;
    Ok(Items::from_vec(told))
}
