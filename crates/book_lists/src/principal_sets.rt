//! Sets of principals.

ghost use Rattle.std.specs.Prelude.{◌≡◌, ◌++◌, ℕ, List, IfOk, IsTrue, OnOk, OnErr, not, map, true, false};
ghost use Rattle.std.specs.FinSet as set;
ghost use Rattle.book_lists.specs.GroupEntries.{memberships_in};
ghost use Rattle.book_lists.specs.PrincipalSets.{IsCount, ListsAll, with_paths};

use crate::memberships::Membership;
use crate::principals::Principal;
use std::alloc::{AllocError, Global};
use std::collections::BTreeSet;
use std::marker::Model;

/// Principals, each once; look-ups take a number of comparisons that grows with the logarithm of the size.
#[derive(Debug, Drop)]
pub(crate) struct PrincipalSet {
    tree: BTreeSet<Principal>,
}

impl Model for PrincipalSet {
    ghost use Rattle.std.specs.FinSet as set;
    ghost use Rattle.std.specs.Coded.{coded_ℕ, coded_list};
    ghost use Rattle.std.specs.BTreeSet.{IsOrdered};
    ghost use Rattle.book_lists.specs.Principals.{path_cmp};

    ghost Value = { set.FinSet path_cmp };

    ghost coded = { set.code (coded_list coded_ℕ) };

    ghost view = { λ s. set.from_list s.tree.keys };

    ghost invariant = { λ s. IsOrdered path_cmp s.tree };
}

/// A copy equals its source. An error is want of memory.
impl Clone for PrincipalSet {
    ghost is_clone = { λ source copy. copy ≡ source };

    fn clone(&self) -> Result<PrincipalSet, AllocError> {
        Ok(PrincipalSet {
            tree: self.tree.clone()?,
        })
    }
}

impl PrincipalSet {
    pub(crate) fn new(alloc: Global) -> PrincipalSet
        ensures { result ≡ set.empty }
    {
        PrincipalSet {
            tree: BTreeSet::new(alloc),
        }
    }

    /// The principals of a list.
    pub(crate) fn of(alloc: Global, list: Vec<Principal>) -> Result<PrincipalSet, AllocError>
        ensures { IfOk result (λ principals. principals ≡ set.from_list list.items) }
    {
        Ok(PrincipalSet {
            tree: list.into_iter().collect(alloc)?,
        })
    }

    pub(crate) fn has(&self, principal: &Principal) -> bool
        ensures { result ≡ set.contains self.now principal.now }
    {
        self.tree.contains(principal)
    }

    /// Adds the principal, and tells whether it was not there. Only a new one may want memory.
    pub(crate) fn insert(&mut self, principal: Principal) -> Result<bool, AllocError>
        ensures added { IfOk result (λ added. added ≡ not (set.contains self.old principal)) }
        ensures ok { OnOk result (self.new ≡ set.insert self.old principal) }
        ensures err { OnErr result (self.new ≡ self.old) }
    {
        Ok(self.tree.insert(principal)?)
    }

    /// Adds the memberships of a member in these groups to a list.
    pub(crate) fn append_memberships(
        &self,
        member: &Principal,
        list: &mut Vec<Membership>,
    ) -> Result<(), AllocError>
        ensures { OnOk result ((groups : List (List ℕ)) × (self.now ≡ set.from_list groups)
            × (list.new.items ≡ list.old.items ++ memberships_in member.now groups)) }
    {
        for group in self.tree.iter() {
            let group = group.clone()?;
            let member = member.clone()?;
            list.push(Membership { group, member })?;
        }
        Ok(())
    }

    pub(crate) fn is_empty(&self) -> bool
        ensures some { IsTrue (not result) → (q : List ℕ) × (set.contains self.now q ≡ true) }
        ensures none { IsTrue result → (q : List ℕ) → set.contains self.now q ≡ false }
    {
        self.tree.is_empty()
    }

    /// Adds the principals of another set.
    pub(crate) fn add_all(&mut self, other: &PrincipalSet) -> Result<(), AllocError>
        ensures { OnOk result ((paths : List (List ℕ)) × (other.now ≡ set.from_list paths)
            × (self.new ≡ with_paths paths self.old)) }
    {
        for principal in other.tree.iter() {
            self.insert(principal.clone()?)?;
        }
        Ok(())
    }

    /// How many there are.
    pub(crate) fn len(&self) -> usize
        ensures { IsCount self.now result }
    {
        self.tree.len()
    }

    /// Adds the principals to a list, in byte order.
    pub(crate) fn append_to<'a>(&'a self, list: &mut Vec<&'a Principal>) -> Result<(), AllocError>
        ensures { OnOk result ((added : List (List ℕ)) × ListsAll self.now added
            × (map (λ w. w.now) list.new.items ≡ map (λ w. w.now) list.old.items ++ added)) }
    {
        list.extend(self.tree.iter())
    }
}
