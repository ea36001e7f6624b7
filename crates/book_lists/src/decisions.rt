//! The decision over a list of access entries.

ghost use Rattle.std.specs.Prelude.{◌≡◌, ◌↔◌};
ghost use Rattle.book_lists.specs.Decisions.{IsAllowed, IsDenial, IfDenied, IsGrantedSet};

use crate::circles::Circle;
use crate::deciders::Deciders;
use crate::entries::{Entry, Here};
use book_rights::{Leaf, LeafSet};

/// The answer to a need.
#[derive(Clone, Copy, Debug, PartialEq, Eq)]
pub enum Outcome {
    /// Every leaf of the need is granted.
    Allowed,
    /// The leaf that is denied, and the index of the entry that denies it, from 0; none where no entry does.
    Denied { leaf: Leaf, entry: Option<usize> },
}

/// Decides a need: each of its leaves by the first entry that applies and holds the leaf (RFC 3744, section 6).
///
/// Takes no memory, and looks principals up in the circle only for entries that hold a leaf still open: at most one
/// look-up for each entry, and none after the last leaf is granted or one is denied.
pub fn decide(entries: &[Entry], circle: &Circle, here: &Here, need: LeafSet) -> Outcome
    ensures allowed { (result ≡ Outcome.Allowed) ↔ IsAllowed entries.now circle.now here.now need }
    ensures denied { IfDenied result (IsDenial entries.now circle.now here.now need) }
{
    let mut deciders = Deciders::start(need);
    deciders.judge_over(entries, circle, here);
    deciders.outcome()
}

/// The leaves that the entries grant: those that the first entry that applies and holds them grants (RFC 3744,
/// sections 5.4 and 6).
///
/// Takes no memory, and looks principals up in the circle only for entries that hold a leaf still open.
pub fn granted(entries: &[Entry], circle: &Circle, here: &Here) -> LeafSet
    ensures { IsGrantedSet entries.now circle.now here.now result }
{
    let mut deciders = Deciders::start(LeafSet::all());
    deciders.over(entries, circle, here);
    deciders.granted()
}
