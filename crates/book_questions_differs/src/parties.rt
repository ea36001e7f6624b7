//! Those who are asked about.

ghost use Rattle.std.specs.Prelude.{◌≡◌, ◌∷◌, ◌++◌, [], None, Some, IfOk, OnOk, map};
ghost use Rattle.std.specs.FinMap as maps;
ghost use Rattle.book_office.specs.Keeping.{Reads};
ghost use Rattle.book_office_values.specs.declared.paths.Path.TheVariants as variant;
ghost use Rattle.book_questions_differs.specs.Comparing.{Compares};
ghost use Rattle.book_questions_differs.specs.Parties.{AreParties, IsCircleIn, IsParty, caller_named, is_there, names_in_order, with_names};

use book_lists::{Caller, Circle, Name, Principal};
use book_office::{Keeper, Listed, StoreFault};
use book_office_values::{Items, NameMap, Path};
use std::alloc::{AllocError, Global};

/// A caller, with the principals to which it belongs in two Offices.
#[derive(Debug, Drop)]
pub struct Party {
    /// Who may ask.
    pub caller: Caller,
    /// The principals to which it belongs in the Office before, if it is there.
    pub before: Option<Circle>,
    /// The principals to which it belongs in the Office after, if it is there.
    pub after: Option<Circle>,
}

/// Adds the names of persons to a set of names.
fn add_names(names: &mut NameMap<()>, persons: &[Listed]) -> Result<(), AllocError>
    ensures { OnOk result (names.new ≡ with_names names.old persons.now) }
{
    for person in persons {
        let _before = names.insert(person.name.clone()?, ())?;
    }
    Ok(())
}

/// Adds nobody, or the person of a name.
fn push_name(all: &mut Vec<Option<Name>>, name: Option<Name>) -> Result<(), AllocError>
    ensures { OnOk result (all.new.items ≡ all.old.items ++ name ∷ []) }
{
    all.push(name)?;
    Ok(())
}

/// Nobody, and the persons of the names of a set.
fn nobody_and(alloc: Global, names: NameMap<()>) -> Result<Items<Option<Name>>, AllocError>
    ensures { IfOk result (λ all. all ≡ None ∷ map Some (maps.keys names)) }
{
    let mut all = Vec::new(alloc);
    push_name(&mut all, None)?;
    for (name, _) in names.into_entries() {
        all.push(Some(name))?;
    }
    Ok(Items::from_vec(all))
}

/// Nobody, and the persons of two lists.
pub(crate) fn everybody(
    alloc: Global,
    before: &[Listed],
    after: &[Listed],
) -> Result<Items<Option<Name>>, AllocError>
    ensures { IfOk result (λ all. all ≡ None ∷ map Some (names_in_order before.now after.now)) }
{
    let mut names = NameMap::new(alloc);
    add_names(&mut names, before)?;
    add_names(&mut names, after)?;
    nobody_and(alloc, names)
}

/// Nobody, or the person of a name.
fn caller_named(alloc: Global, name: &Option<Name>) -> Result<Caller, AllocError>
    ensures { IfOk result (λ caller. caller ≡ caller_named name.now) }
{
    match name {
        Some(name) => Ok(Caller::Known(Principal::person(alloc, name)?)),
        None => Ok(Caller::Nobody),
    }
}

/// The path of a person.
fn person_path(name: &Name) -> Result<Path, AllocError>
    ensures { IfOk result (λ path. path ≡ variant.Person name.now) }
{
    Ok(Path::Person(name.clone()?))
}

/// Whether a caller is there: nobody, or a person.
fn is_there<K: Keeper>(
    alloc: Global,
    keeper: &mut K,
    name: &Option<Name>,
) -> Result<bool, StoreFault>
    ensures { Reads (K.standing keeper.old) (K.standing keeper.new) result
        (λ o there. there ≡ is_there o name.now) }
{
    match name {
        Some(name) => {
            let path = person_path(name)?;
            keeper.has(alloc, &path)
        }
        None => Ok(true),
    }
}

/// The principals to which a caller belongs, if it is there.
fn circle_in<K: Keeper>(
    alloc: Global,
    keeper: &mut K,
    name: &Option<Name>,
) -> Result<Option<Circle>, StoreFault>
    ensures { Reads (K.standing keeper.old) (K.standing keeper.new) result
        (λ o circle. IsCircleIn o name.now circle) }
{
    let caller = caller_named(alloc, name)?;
    if !is_there(alloc, keeper, name)? {
        return Ok(None);
    }
    let circle = keeper.circle(alloc, &caller)?;
    Ok(Some(circle))
}

/// A caller with its circles in two Offices.
fn party_of<K: Keeper, L: Keeper>(
    alloc: Global,
    before: &mut K,
    after: &mut L,
    name: &Option<Name>,
) -> Result<Party, StoreFault>
    ensures { Compares (K.standing before.old) (K.standing before.new) (L.standing after.old)
        (L.standing after.new) result (λ o p party. IsParty o p name.now party) }
{
    let was = circle_in(alloc, before, name)?;
    let is = circle_in(alloc, after, name)?;
    let caller = caller_named(alloc, name)?;
    Ok(Party {
        caller,
        before: was,
        after: is,
    })
}

/// Each caller with its circles in two Offices.
pub(crate) fn parties_of<K: Keeper, L: Keeper>(
    alloc: Global,
    before: &mut K,
    after: &mut L,
    names: &[Option<Name>],
) -> Result<Vec<Party>, StoreFault>
    ensures { Compares (K.standing before.old) (K.standing before.new) (L.standing after.old)
        (L.standing after.new) result (λ o p parties. AreParties o p names.now parties.items) }
{
    let mut parties = Vec::new(alloc);
    for name in names {
        let party = match party_of(alloc, before, after, name) {
            Ok(party) => party,
            Err(fault) => return Err(fault),
        };
        if parties.push(party).is_err() {
            return Err(StoreFault::Memory);
        }
    }
    Ok(parties)
}
