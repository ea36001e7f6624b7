//! The leaves that several lists in turn grant.

ghost use Rattle.std.specs.Prelude.{◌≡◌, ◌∷◌};
ghost use Rattle.book_office.specs.Levels.{effective_of};
ghost use Rattle.book_office_listings.specs.Values.{granted_by};

use crate::denials::walk;
use book_lists::{Circle, Here};
use book_office::Level;
use book_rights::LeafSet;
use std::slice;

/// The leaves that are granted at a resource, by its own level and those above it: those that the first entry which
/// applies and holds them grants (RFC 3744, sections 5.4 and 6). Takes no memory.
pub(crate) fn granted_at(own: &Level, above: &[Level], circle: &Circle, here: &Here) -> LeafSet
    ensures { result ≡ granted_by (effective_of (own.now ∷ above.now)) circle.now here.now }
{
    walk(slice::from_ref(own), above, circle, here, LeafSet::all()).granted()
}
