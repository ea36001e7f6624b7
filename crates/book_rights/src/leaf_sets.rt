//! Sets of leaves.

ghost use Rattle.std.specs.Prelude.{◌≡◌, ◌↔◌, ◌<◌, ◌^◌, IsTrue, IfSome, IfNone};
ghost use Rattle.book_rights.specs.Leaves.{no_leaf, every_leaf, union, difference, with_leaf, place_of, mask_of, Meets};
ghost use Rattle.book_rights.specs.Leaves.{IsLeast};

use crate::privileges::Leaf;
use std::marker::Model;

/// A set of leaves: for each leaf, whether it is in the set. Two sets are equal where they have the same leaves.
#[derive(Clone, Copy, Debug)]
pub struct LeafSet {
    mask: u16,
}

impl Model for LeafSet {
    ghost use Rattle.std.specs.Prelude.{Bool, ◌<◌};
    ghost use Rattle.book_rights.specs.declared.privileges.Leaf.{Leaf};
    ghost use Rattle.book_rights.specs.Leaves.{coded_set, leaves_in, mask_of, mask_of-leaves_in};

    ghost Value = { Leaf → Bool };

    ghost coded = { coded_set };

    ghost view = { λ s. leaves_in s.mask };

    ghost invariant = { λ s. s.mask < 512 };

    ghost inverse = { λ f. record { mask = mask_of f } };

    ghost inverse_ok = { λ s h i. record { mask = mask_of-leaves_in s.mask h i } };
}

impl PartialEq for LeafSet {
    ghost use Rattle.std.specs.Prelude.{◌≡◌, ◌↔◌, IsTrue};
    ghost use Rattle.std.specs.Cmp.{partial_equiv_from_equiv, decided};
    ghost use Rattle.book_rights.specs.Leaves.{same_leaves, same_leaves-decides};

    ghost eq = { same_leaves };

    ghost laws = { partial_equiv_from_equiv (decided same_leaves same_leaves-decides) };

    fn eq(&self, other: &LeafSet) -> bool
        ensures computed { result ≡ same_leaves self.now other.now }
        ensures same { IsTrue result ↔ (self.now ≡ other.now) }
    {
        self.mask == other.mask
    }
}

impl Eq for LeafSet {
    ghost use Rattle.std.specs.Cmp.{decided};
    ghost use Rattle.book_rights.specs.Leaves.{same_leaves, same_leaves-decides};

    ghost laws = { decided same_leaves same_leaves-decides };
}

/// The mask of one leaf: the bit of its place.
fn bit_of(leaf: Leaf) -> u16
    ensures { result ≡ 2 ^ place_of leaf }
{
    match leaf {
        Leaf::ReadTexts => 1,
        Leaf::WriteContent => 2,
        Leaf::WriteProperties => 4,
        Leaf::Bind => 8,
        Leaf::Unbind => 16,
        Leaf::ReadAcl => 32,
        Leaf::WriteAcl => 64,
        Leaf::ReadCurrentUserPrivilegeSet => 128,
        Leaf::ReadNames => 256,
    }
}

impl LeafSet {
    /// The set of no leaf.
    pub fn empty() -> LeafSet
        ensures { result ≡ no_leaf }
    {
        LeafSet { mask: 0 }
    }

    /// The set of every leaf.
    pub fn all() -> LeafSet
        ensures { result ≡ every_leaf }
    {
        LeafSet { mask: 511 }
    }

    /// Whether the leaf is in the set.
    pub fn has(self, leaf: Leaf) -> bool
        ensures { result ≡ self leaf }
    {
        self.mask & bit_of(leaf) != 0
    }

    /// The set with one more leaf.
    pub fn with(self, leaf: Leaf) -> LeafSet
        ensures { result ≡ with_leaf self leaf }
    {
        LeafSet {
            mask: self.mask | bit_of(leaf),
        }
    }

    /// The leaves of either set.
    pub fn union(self, other: LeafSet) -> LeafSet
        ensures { result ≡ union self other }
    {
        LeafSet {
            mask: self.mask | other.mask,
        }
    }

    /// The leaves of this set that are not in the other.
    pub fn minus(self, other: LeafSet) -> LeafSet
        ensures { result ≡ difference self other }
    {
        LeafSet {
            mask: self.mask & !other.mask,
        }
    }

    /// Whether some leaf is in both sets.
    pub fn meets(self, other: LeafSet) -> bool
        ensures { IsTrue result ↔ Meets self other }
    {
        self.mask & other.mask != 0
    }

    /// The first leaf of the set, in the order of the leaves; none of the empty set.
    pub fn least(self) -> Option<Leaf>
        ensures { IsLeast self result }
    {
        if self.mask == 0 {
            return None;
        }
        Some(Leaf::ALL[self.mask.trailing_zeros() as usize])
    }

    /// The set as a mask: bit 0 is `x-read-texts`, and each leaf has the bit of its place.
    pub fn mask(self) -> u16
        ensures { result ≡ mask_of self }
    {
        self.mask
    }

    /// The set with this mask; none above 511.
    pub fn from_mask(mask: u16) -> Option<LeafSet>
        ensures found { IfSome result (λ set. mask_of set ≡ mask) }
        ensures above { IfNone result (511 < mask) }
    {
        if mask > 511 {
            return None;
        }
        Some(LeafSet { mask })
    }
}
