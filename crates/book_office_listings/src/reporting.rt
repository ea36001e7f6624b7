//! The rulings on all leaves.

ghost use Rattle.std.specs.Prelude.{◌≡◌, IfOk};
ghost use Rattle.book_office_listings.specs.Verdicts.{principal_of};
ghost use Rattle.book_office.specs.Keeping.{Reads};
ghost use Rattle.book_office.specs.Levels.{effective_of};
ghost use Rattle.book_office_listings.specs.Rulings.{AreRulings, AreRulingsAt};

use crate::denials::walk;
use crate::messages::Ruling;
use crate::ruling::rule;
use book_lists::{Circle, Here, Principal};
use book_office::{Keeper, Level, StoreFault};
use book_office_values::{Items, Path};
use book_rights::{Leaf, LeafSet};
use std::alloc::{AllocError, Global};

/// The resource itself, where it is a principal.
fn principal_of(alloc: Global, path: &Path) -> Result<Option<Principal>, AllocError>
    ensures { IfOk result (λ principal. principal ≡ principal_of path.now) }
{
    match path {
        Path::Person(name) => Ok(Some(Principal::person(alloc, name)?)),
        Path::Group(name) => Ok(Some(Principal::group(alloc, name)?)),
        Path::Root | Path::People | Path::Groups | Path::Books | Path::Book(_) | Path::Card(_, _) =>
            Ok(None),
    }
}

/// One ruling for each leaf, in order, by the levels of a resource: its own first, and the root's last. The circle is
/// that of the principal asked about. An error is want of memory.
///
/// The lists are gone over once for all leaves, and no further than the entry that decides the last.
pub fn rulings(
    alloc: Global,
    levels: &[Level],
    circle: &Circle,
    here: &Here,
) -> Result<Items<Ruling>, AllocError>
    ensures { IfOk result (AreRulings (effective_of levels.now) circle.now here.now) }
{
    let deciders = walk(&[], levels, circle, here, LeafSet::all());
    let mut rulings = Vec::new(alloc);
    for leaf in Leaf::ALL {
        rulings.push(rule(&deciders, levels, leaf)?)?;
    }
    Ok(Items::from_vec(rulings))
}

/// The rulings on all leaves at the resource at a path, in order, for the principal with this circle; nobody's circle
/// tells them for nobody. `owner` and `self` are read at this resource, also in inherited entries (own profile). None
/// where nothing is mapped at the path. An error is want of memory or a failure of the store.
///
/// The resource and its levels are read once.
pub fn effective_rulings<K: Keeper>(
    alloc: Global,
    keeper: &mut K,
    circle: &Circle,
    path: &Path,
) -> Result<Option<Items<Ruling>>, StoreFault>
    ensures { Reads (K.standing keeper.old) (K.standing keeper.new) result
        (λ o rulings. AreRulingsAt o circle.now path.now rulings) }
{
    let principal = principal_of(alloc, path)?;
    let Some(node) = keeper.find(alloc, path)? else {
        return Ok(None);
    };
    let lists = keeper.lists(alloc, path)?;
    let here = Here {
        owner: node.owner,
        principal,
    };
    Ok(Some(rulings(alloc, lists.levels.as_slice(), circle, &here)?))
}
