//! Resources, with what decides there.

ghost use Rattle.std.specs.Prelude.{◌≡◌, ◌&&◌, map, IfOk};
ghost use Rattle.std.specs.Option.{option_copied};
ghost use Rattle.book_rights.specs.declared.privileges.Leaf.{Leaf};
ghost use Rattle.book_office.specs.Keeping.{Reads};
ghost use Rattle.book_office_listings.specs.Scanning.{IsWalk};
ghost use Rattle.book_office_listings.specs.Values.{granted_by};
ghost use Rattle.book_office_listings.specs.Verdicts.{here_of, owner_at, principal_of};
ghost use Rattle.book_policy_gaps.specs.Places.{AreHeld, decider_at, is_bearing, may, may_anything, may_read, path_above, place_at, reads_from_above, stands_at_book};

use book_lists::{Circle, Deciders, Here, Principal, applies};
use book_office::{EffectiveEntry, Keeper, StoreFault, effective};
use book_office_values::{Items, Kind, Path};
use book_rights::{Leaf, LeafSet};
use std::alloc::{AllocError, Global};
use std::slice;

/// A resource, with the entries in force there and what they ask of it.
#[derive(Debug, Drop)]
pub(crate) struct Place {
    pub(crate) path: Path,
    pub(crate) here: Here,
    pub(crate) list: Items<EffectiveEntry>,
}

/// The resource at a path, where it is a principal.
fn principal_of(alloc: Global, path: &Path) -> Result<Option<Principal>, AllocError>
    ensures { IfOk result (λ principal. principal ≡ principal_of path.now) }
{
    match path {
        Path::Person(name) => Ok(Some(Principal::person(alloc, name)?)),
        Path::Group(name) => Ok(Some(Principal::group(alloc, name)?)),
        Path::Root | Path::People | Path::Groups | Path::Books | Path::Book(_) | Path::Card(_, _) =>
            Ok(None),
    }
}

/// The owner of the resource at a path, if there is one.
fn owner_at<K: Keeper>(
    alloc: Global,
    keeper: &mut K,
    path: &Path,
) -> Result<Option<Principal>, StoreFault>
    ensures { Reads (K.standing keeper.old) (K.standing keeper.new) result
        (λ o owner. owner ≡ owner_at o path.now) }
{
    match keeper.find(alloc, path)? {
        Some(node) => Ok(node.owner),
        None => Ok(None),
    }
}

/// What entries ask of the resource at a path.
fn here_at<K: Keeper>(alloc: Global, keeper: &mut K, path: &Path) -> Result<Here, StoreFault>
    ensures { Reads (K.standing keeper.old) (K.standing keeper.new) result
        (λ o here. here ≡ here_of o path.now) }
{
    let principal = principal_of(alloc, path)?;
    let owner = owner_at(alloc, keeper, path)?;
    Ok(Here { owner, principal })
}

/// The resource at a path, with the entries in force there.
pub(crate) fn place_at<K: Keeper>(
    alloc: Global,
    keeper: &mut K,
    path: &Path,
) -> Result<Place, StoreFault>
    ensures { Reads (K.standing keeper.old) (K.standing keeper.new) result
        (λ o place. place ≡ place_at o path.now) }
{
    let here = here_at(alloc, keeper, path)?;
    let list = effective(alloc, keeper, path)?;
    let path = path.clone()?;
    Ok(Place { path, here, list })
}

/// The resources at these paths.
pub(crate) fn place_each<K: Keeper>(
    alloc: Global,
    keeper: &mut K,
    paths: &[Path],
) -> Result<Vec<Place>, StoreFault>
    ensures { Reads (K.standing keeper.old) (K.standing keeper.new) result
        (λ o places. places.items ≡ map (place_at o) paths.now) }
{
    let mut places = Vec::new(alloc);
    for path in paths {
        let place = match place_at(alloc, keeper, path) {
            Ok(place) => place,
            Err(fault) => return Err(fault),
        };
        if places.push(place).is_err() {
            return Err(StoreFault::Memory);
        }
    }
    Ok(places)
}

/// Which entry of a list decides each leaf of a set.
fn walk(list: &[EffectiveEntry], circle: &Circle, here: &Here, set: LeafSet) -> Deciders
    ensures { IsWalk list.now circle.now here.now set result }
{
    let mut deciders = Deciders::start(set);
    for entry in list {
        deciders.over(slice::from_ref(&entry.entry), circle, here);
    }
    deciders
}

/// The leaves of a set that are granted at a place. Takes no memory.
fn granted_of(place: &Place, circle: &Circle, set: LeafSet) -> LeafSet
    ensures { (leaf : Leaf) → result leaf
        ≡ (set leaf && granted_by place.now.list circle.now place.now.here leaf) }
{
    walk(place.list.as_slice(), circle, &place.here, set).granted()
}

/// The leaves that are granted to the principals of a circle at the resource at a path (RFC 3744, section 6); none where no
/// entry in force grants one. The keeper stays as it is.
///
/// # Errors
///
/// `Memory` where memory was refused, `Store` where the store failed.
pub fn held_at<K: Keeper>(
    alloc: Global,
    keeper: &mut K,
    circle: &Circle,
    path: &Path,
) -> Result<LeafSet, StoreFault>
    ensures { Reads (K.standing keeper.old) (K.standing keeper.new) result
        (λ o set. AreHeld o circle.now path.now set) }
{
    let place = place_at(alloc, keeper, path)?;
    Ok(granted_of(&place, circle, LeafSet::all()))
}

/// Whether a leaf is granted at a place (RFC 3744, section 6).
pub(crate) fn may(place: &Place, circle: &Circle, leaf: Leaf) -> bool
    ensures { result ≡ may place.now leaf circle.now }
{
    granted_of(place, circle, LeafSet::empty().with(leaf)).has(leaf)
}

/// Whether `read` is granted at a place.
pub(crate) fn may_read(place: &Place, circle: &Circle) -> bool
    ensures { result ≡ may_read place.now circle.now }
{
    may(place, circle, Leaf::ReadTexts) && may(place, circle, Leaf::ReadNames)
}

/// Whether any leaf is granted at a place.
pub(crate) fn may_anything(place: &Place, circle: &Circle) -> bool
    ensures { result ≡ may_anything place.now circle.now }
{
    granted_of(place, circle, LeafSet::all()) != LeafSet::empty()
}

/// Whether an entry applies and holds a leaf.
fn is_bearing(entry: &EffectiveEntry, circle: &Circle, here: &Here, leaf: Leaf) -> bool
    ensures { result ≡ is_bearing circle.now here.now leaf entry.now }
{
    applies(&entry.entry, circle, here) && entry.entry.set.has(leaf)
}

/// The entry that decides a leaf at a place: the first that applies and holds it (RFC 3744, section 6).
fn decider_at<'a>(place: &'a Place, circle: &Circle, leaf: Leaf) -> Option<&'a EffectiveEntry>
    ensures { option_copied result ≡ decider_at place.now circle.now leaf }
{
    place
        .list
        .as_slice()
        .iter()
        .find(|entry| is_bearing(entry, circle, &place.here, leaf))
}

/// Whether an entry in force at a book stands at the book itself.
pub(crate) fn stands_at_book(entry: &EffectiveEntry) -> bool
    ensures { result ≡ stands_at_book entry.now }
{
    entry.path.kind() == Kind::Book
}

/// Where the entry stands, if that is above the book.
fn path_above(entry: Option<&EffectiveEntry>) -> Option<&Path>
    ensures { option_copied result ≡ path_above (option_copied entry.entry) }
{
    let Some(entry) = entry else {
        return None;
    };
    if stands_at_book(entry) {
        return None;
    }
    Some(&entry.path)
}

/// Where the entry stands by which the caller reads the texts of a book, if the caller may read it and that is above it.
pub(crate) fn reads_from_above<'a>(book: &'a Place, circle: &Circle) -> Option<&'a Path>
    ensures { option_copied result ≡ reads_from_above book.now circle.now }
{
    if !may_read(book, circle) {
        return None;
    }
    path_above(decider_at(book, circle, Leaf::ReadTexts))
}
