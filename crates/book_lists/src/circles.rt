//! Callers, and the principals to which they belong.

ghost use Rattle.std.specs.Prelude.{◌≡◌, IfOk};
ghost use Rattle.book_lists.specs.Callers.{IsCircle, IsCircleByReach, ReachMakesCircles, ReachIsOne, circle_with};
ghost use Rattle.book_lists.specs.Circles.{belongs, circle_of};
ghost use Rattle.book_lists.specs.declared.circles.Caller.TheVariants.{Known};
ghost use Rattle.std.specs.Option.{is_some};

use crate::memberships::Pairs;
use crate::principal_sets::PrincipalSet;
use crate::principals::Principal;
use std::alloc::{AllocError, Global};
use std::marker::Model;

/// Who asks: nobody, who is not authenticated, or a known person.
#[derive(Debug, Drop, PartialEq, Eq)]
pub enum Caller {
    /// No person is known. Nobody belongs to nothing.
    Nobody,
    /// A known caller, by its path; `explain` makes it of a person only.
    Known(Principal),
}

/// A copy equals its source. An error is want of memory.
impl Clone for Caller {
    ghost is_clone = { λ source copy. copy ≡ source };

    fn clone(&self) -> Result<Caller, AllocError> {
        match self {
            Caller::Nobody => Ok(Caller::Nobody),
            Caller::Known(person) => Ok(Caller::Known(person.clone()?)),
        }
    }
}

/// What a caller belongs to.
#[derive(Debug, Drop)]
enum Reached {
    /// Nothing: nobody belongs to nothing.
    Nothing,
    /// Itself alone, as one who is in no group.
    Itself(Principal),
    /// Itself, and groups.
    Groups(PrincipalSet),
}

/// A copy equals its source. An error is want of memory.
impl Clone for Reached {
    ghost is_clone = { λ source copy. copy ≡ source };

    fn clone(&self) -> Result<Reached, AllocError> {
        match self {
            Reached::Nothing => Ok(Reached::Nothing),
            Reached::Itself(person) => Ok(Reached::Itself(person.clone()?)),
            Reached::Groups(principals) => Ok(Reached::Groups(principals.clone()?)),
        }
    }
}

/// The principals to which a caller belongs, and whether the caller is known. A contract sees none for nobody, and
/// else the set of the principals.
#[derive(Debug, Drop)]
pub struct Circle {
    reached: Reached,
}

impl Model for Circle {
    ghost use Rattle.std.specs.Prelude.{List, ℕ, Option};
    ghost use Rattle.std.specs.FinSet as set;
    ghost use Rattle.std.specs.Ordering.{nat_cmp};
    ghost use Rattle.std.specs.Cmp.Lexicographic.{slice_cmp};
    ghost use Rattle.std.specs.Coded.{coded_ℕ, coded_list, coded_option};
    ghost use Rattle.book_lists.specs.Circles.{circle_of};

    ghost Value = { Option (set.FinSet (slice_cmp nat_cmp)) };

    ghost coded = { coded_option (set.code (coded_list coded_ℕ)) };

    ghost view = { λ c. circle_of c.reached };
}

/// A copy equals its source. An error is want of memory.
impl Clone for Circle {
    ghost is_clone = { λ source copy. copy ≡ source };

    fn clone(&self) -> Result<Circle, AllocError> {
        Ok(Circle {
            reached: self.reached.clone()?,
        })
    }
}

impl Circle {
    /// The circle of a caller who belongs to these groups: the caller itself and the groups, and nothing for nobody. An
    /// error is want of memory.
    pub fn of(alloc: Global, caller: &Caller, groups: Vec<Principal>) -> Result<Circle, AllocError>
        ensures { IfOk result (λ circle. circle ≡ circle_with caller.now groups.items) }
    {
        Ok(Circle {
            reached: match caller {
                Caller::Nobody => Reached::Nothing,
                Caller::Known(person) => itself_and(alloc, person, groups)?,
            },
        })
    }

    /// Whether the caller is a known person. Takes no memory.
    pub fn is_known(&self) -> bool
        ensures { result ≡ is_some self.now }
    {
        !matches!(self.reached, Reached::Nothing)
    }

    /// Whether the caller belongs to the principal: false for nobody. Takes no memory, and a number of comparisons that
    /// grows with the logarithm of the circle.
    pub fn has(&self, principal: &Principal) -> bool
        ensures { result ≡ belongs self.now principal.now }
    {
        match &self.reached {
            Reached::Nothing => false,
            Reached::Itself(person) => person == principal,
            Reached::Groups(principals) => principals.has(principal),
        }
    }
}

/// What a person belongs to: itself alone where it is in no group, which is told without a search.
fn reached_of(pairs: &Pairs, person: &Principal) -> Result<Reached, AllocError>
    ensures { IfOk result (λ reached. IsCircle pairs.now (Known person.now) (circle_of reached)) }
{
    if pairs.is_in_none(person) {
        return Ok(Reached::Itself(person.clone()?));
    }
    Ok(Reached::Groups(pairs.closure_of(person)?))
}

/// A person itself, and the groups of a list.
fn itself_and(
    alloc: Global,
    person: &Principal,
    groups: Vec<Principal>,
) -> Result<Reached, AllocError>
    ensures { IfOk result (λ reached. circle_of reached ≡ circle_with
        (Known person.now) groups.items) }
{
    if groups.is_empty() {
        return Ok(Reached::Itself(person.clone()?));
    }
    let mut principals = PrincipalSet::of(alloc, groups)?;
    principals.insert(person.clone()?)?;
    Ok(Reached::Groups(principals))
}

/// A person itself, and the groups that are kept of it.
fn itself_and_kept(reach: &Pairs, person: &Principal) -> Result<Reached, AllocError>
    ensures { IfOk result (λ reached. IsCircleByReach reach.now (Known person.now)
        (circle_of reached)) }
{
    if reach.is_in_none(person) {
        return Ok(Reached::Itself(person.clone()?));
    }
    let mut principals = reach.groups_of(person)?;
    principals.insert(person.clone()?)?;
    Ok(Reached::Groups(principals))
}

/// The principals to which the caller belongs by the memberships of which these are the closure, without a search. It
/// copies the path of each. An error is want of memory.
pub fn reached_in(reach: &Pairs, caller: &Caller) -> Result<Circle, AllocError>
    ensures { IfOk result (IsCircleByReach reach.now caller.now) }
{
    Ok(Circle {
        reached: match caller {
            Caller::Nobody => Reached::Nothing,
            Caller::Known(person) => itself_and_kept(reach, person)?,
        },
    })
}

/// Laws of closures: the circle of a caller is the caller and the groups that the closure pairs with it, and there is
/// one closure.
pub fn closures_make_circles()
    ensures circles { ReachMakesCircles }
    ensures one { ReachIsOne }
{}

/// The principals to which the caller belongs by these memberships (RFC 3744, section 2): the caller itself, and each
/// group from which a finite chain of memberships leads to it. Cycles are allowed. An error is want of memory.
///
/// It looks at each pair whose member the caller belongs to once, and copies each path that it finds once.
pub fn expand(pairs: &Pairs, caller: &Caller) -> Result<Circle, AllocError>
    ensures { IfOk result (IsCircle pairs.now caller.now) }
{
    Ok(Circle {
        reached: match caller {
            Caller::Nobody => Reached::Nothing,
            Caller::Known(person) => reached_of(pairs, person)?,
        },
    })
}
