//! The ruling on one leaf.

ghost use Rattle.std.specs.Prelude.{IfOk};
ghost use Rattle.book_office.specs.Levels.{effective_of};
ghost use Rattle.book_office_listings.specs.Scanning.{IsRuledBy};

use crate::denials::deciding_entry;
use crate::messages::Ruling;
use book_lists::{Decider, Deciders};
use book_office::Level;
use book_rights::Leaf;
use std::alloc::AllocError;

/// The ruling on a leaf at a resource, by its levels, which were gone over for every leaf: the resource's own first, and
/// the root's last. One path is copied, that of the deciding entry. An error is want of memory.
pub(crate) fn rule(deciders: &Deciders, levels: &[Level], leaf: Leaf) -> Result<Ruling, AllocError>
    ensures { IfOk result (IsRuledBy (effective_of levels.now) deciders.now leaf) }
{
    if !deciders.are_counted() {
        return Err(AllocError);
    }
    match deciders.decider(leaf) {
        Some(Decider { index, deny }) => Ok(Ruling {
            leaf,
            entry: deciding_entry(&[], levels, Some(index))?,
            grant: !deny,
        }),
        None => Ok(Ruling {
            leaf,
            entry: None,
            grant: false,
        }),
    }
}
