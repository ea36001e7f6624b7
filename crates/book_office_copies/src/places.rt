//! The resources other than cards, as a keeper tells them.

ghost use Rattle.std.specs.Prelude.{◌≡◌, IfOk, OnOk, map};
ghost use Rattle.std.specs.FinMap.{empty, insert};
ghost use Rattle.book_office.specs.Keeping.{Reads};
ghost use Rattle.book_office_adopting.specs.TakingOver.{all_inserted};
ghost use Rattle.book_office_copies.specs.Copies.{as_it_is, listed_place, place_told, place_with, principals_told, properties_listed};

use book_office::{Keeper, Level, Listed, Node, StoreFault};
use book_office_values::{Items, NameMap, Path, Properties};
use std::alloc::{AllocError, Global};

/// What a keeper tells of the resource at a path; an empty place where none is mapped. Takes no memory.
fn place_with(alloc: Global, node: Option<Node>, level: Level) -> Properties
    ensures { result ≡ place_with node level }
{
    match node {
        Some(node) => Properties {
            owner: node.owner,
            label: node.label,
            protected: level.protected,
            own: level.own,
        },
        None => Properties::empty(alloc, None),
    }
}

/// Reads what is kept at the root or at a home.
pub(crate) fn read_place<K: Keeper>(
    alloc: Global,
    keeper: &mut K,
    path: &Path,
) -> Result<Properties, StoreFault>
    ensures { Reads (K.standing keeper.old) (K.standing keeper.new) result
        (λ o place. place ≡ place_told o path.now) }
{
    let node = keeper.find(alloc, path)?;
    let level = keeper.level(alloc, path)?;
    Ok(place_with(alloc, node, level))
}

/// What a listing tells of a resource other than a card. An error is want of memory.
pub(crate) fn properties_listed(listed: &Listed) -> Result<Properties, AllocError>
    ensures { IfOk result (λ properties. properties ≡ properties_listed listed.now) }
{
    Ok(Properties {
        owner: listed.owner.clone()?,
        label: listed.label.clone()?,
        protected: listed.protected.clone()?,
        own: listed.own.clone()?,
    })
}

/// Adds a person or a group that is listed. An error is want of memory.
fn add_principal(principals: &mut NameMap<Properties>, listed: &Listed) -> Result<(), AllocError>
    ensures { OnOk result (principals.new
        ≡ insert principals.old listed.now.name (properties_listed listed.now)) }
{
    let name = listed.name.clone()?;
    let properties = properties_listed(listed)?;
    drop(principals.insert(name, properties)?);
    Ok(())
}

/// The persons or the groups of a listing. An error is want of memory.
fn principals_of(alloc: Global, listed: Items<Listed>) -> Result<NameMap<Properties>, AllocError>
    ensures { IfOk result (λ principals. principals ≡ all_inserted as_it_is empty
        (map listed_place listed)) }
{
    let mut principals = NameMap::new(alloc);
    for one in listed.into_vec() {
        let added = add_principal(&mut principals, &one);
        drop(one);
        added?;
    }
    Ok(principals)
}

/// Reads the persons or the groups.
pub(crate) fn read_principals<K: Keeper>(
    alloc: Global,
    keeper: &mut K,
    home: &Path,
) -> Result<NameMap<Properties>, StoreFault>
    ensures { Reads (K.standing keeper.old) (K.standing keeper.new) result
        (λ o principals. principals ≡ principals_told o home.now) }
{
    let listed = keeper.children(alloc, home)?;
    Ok(principals_of(alloc, listed)?)
}
