//! Access entries, and where they apply.

ghost use Rattle.std.specs.Prelude.{◌≡◌};
ghost use Rattle.book_lists.specs.Entries.{form_applies, applies};

use crate::circles::Circle;
use crate::principals::Principal;
use book_rights::LeafSet;
use std::alloc::AllocError;

/// The principal form of an entry (RFC 3744, section 5.5.1), and the callers to whom it applies.
#[derive(Debug, Drop, PartialEq, Eq)]
pub enum Who {
    /// A path: who belongs to that principal.
    Href(Principal),
    /// `all`: each caller.
    Everyone,
    /// `authenticated`: each known person.
    Authenticated,
    /// `unauthenticated`: nobody.
    Unauthenticated,
    /// `owner`: who belongs to the owner of the resource, if it has one.
    Owner,
    /// `self`: who belongs to the resource, if it is a principal.
    Own,
}

/// A copy equals its source. An error is want of memory.
impl Clone for Who {
    ghost is_clone = { λ source copy. copy ≡ source };

    fn clone(&self) -> Result<Who, AllocError> {
        match self {
            Who::Href(principal) => Ok(Who::Href(principal.clone()?)),
            Who::Everyone => Ok(Who::Everyone),
            Who::Authenticated => Ok(Who::Authenticated),
            Who::Unauthenticated => Ok(Who::Unauthenticated),
            Who::Owner => Ok(Who::Owner),
            Who::Own => Ok(Who::Own),
        }
    }
}

/// An access control entry (RFC 3744, section 5.5): it grants or denies a set of leaves where it applies.
#[derive(Debug, Drop, PartialEq, Eq)]
pub struct Entry {
    /// To whom it applies.
    pub who: Who,
    /// Whether it applies exactly where its form does not.
    pub invert: bool,
    /// Whether it denies; else it grants.
    pub deny: bool,
    /// The leaves that it holds.
    pub set: LeafSet,
}

/// A copy equals its source. An error is want of memory.
impl Clone for Entry {
    ghost is_clone = { λ source copy. copy ≡ source };

    fn clone(&self) -> Result<Entry, AllocError> {
        Ok(Entry {
            who: self.who.clone()?,
            invert: self.invert,
            deny: self.deny,
            set: self.set,
        })
    }
}

/// What an entry asks of the resource that a need names, also where the entry is inherited (own profile).
#[derive(Debug, Drop, PartialEq, Eq)]
pub struct Here {
    /// The owner, if the resource has one.
    pub owner: Option<Principal>,
    /// The resource itself, where it is a principal.
    pub principal: Option<Principal>,
}

/// Whether the form applies, before an inversion.
fn form_applies_to(who: &Who, circle: &Circle, here: &Here) -> bool
    ensures { result ≡ form_applies who.now circle.now here.now }
{
    match who {
        Who::Href(principal) => circle.has(principal),
        Who::Everyone => true,
        Who::Authenticated => circle.is_known(),
        Who::Unauthenticated => !circle.is_known(),
        Who::Owner => here.owner.as_ref().is_some_and(|owner| circle.has(owner)),
        Who::Own => here
            .principal
            .as_ref()
            .is_some_and(|principal| circle.has(principal)),
    }
}

/// Whether the entry applies to the caller of this circle at this resource (RFC 3744, section 5.5.1). Takes no memory.
pub fn applies(entry: &Entry, circle: &Circle, here: &Here) -> bool
    ensures { result ≡ applies entry.now circle.now here.now }
{
    form_applies_to(&entry.who, circle, here) != entry.invert
}
