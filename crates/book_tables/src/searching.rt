//! A search along direct memberships: the principals that it has met, the pairs of each, and its work.

ghost use Rattle.std.specs.Prelude.{◌≡◌, ◌++◌, List, [], ◌∷◌, OnOk};
ghost use Rattle.std.specs.FinSet as set;
ghost use Rattle.std.specs.List.{list_any};
ghost use Rattle.std.specs.Ordering.{eq_by_cmp};
ghost use Rattle.book_lists.specs.Memberships.{membership_cmp};
ghost use Rattle.book_tables.specs.Searching.{Adds, Takes, far_end};

use book_lists::{Membership, Pairs, Principal};
use std::alloc::{AllocError, Global};
use std::collections::BTreeSet;
use std::marker::Model;

/// Which way a search goes.
#[derive(Clone, Copy)]
pub(crate) enum Way {
    /// From a member to its groups.
    Up,
    /// From a group to its members.
    Down,
}

/// Principals, each once.
#[derive(Drop)]
pub(crate) struct Met {
    tree: BTreeSet<Principal>,
}

impl Model for Met {
    ghost use Rattle.std.specs.FinSet as set;
    ghost use Rattle.std.specs.Coded.{coded_ℕ, coded_list};
    ghost use Rattle.std.specs.BTreeSet.{IsOrdered};
    ghost use Rattle.book_lists.specs.Principals.{path_cmp};

    ghost Value = { set.FinSet path_cmp };

    ghost coded = { set.code (coded_list coded_ℕ) };

    ghost view = { λ s. set.from_list s.tree.keys };

    ghost invariant = { λ s. IsOrdered path_cmp s.tree };
}

impl Met {
    fn new(alloc: Global) -> Met
        ensures { result ≡ set.empty }
    {
        Met {
            tree: BTreeSet::new(alloc),
        }
    }

    pub(crate) fn has(&self, principal: &Principal) -> bool
        ensures { result ≡ set.contains self.now principal.now }
    {
        self.tree.contains(principal)
    }

    fn insert(&mut self, principal: Principal) -> Result<(), AllocError>
        ensures { OnOk result (self.new ≡ set.insert self.old principal) }
    {
        self.tree.insert(principal)?;
        Ok(())
    }
}

/// How far a search has come.
#[derive(Drop)]
pub(crate) struct Search {
    /// The principals that it has met, whose pairs are known.
    pub(crate) all: Vec<Principal>,
    /// The same, to be looked up.
    pub(crate) met: Met,
    /// Their pairs.
    pub(crate) pairs: Pairs,
    /// Those to which it comes next.
    pub(crate) work: Vec<Principal>,
}

/// The end of a pair to which a search comes.
fn far(way: Way, pair: &Membership) -> &Principal
    ensures { result.now ≡ far_end way pair.now }
{
    match way {
        Way::Up => &pair.group,
        Way::Down => &pair.member,
    }
}

/// Adds pairs of a list to some, and their far ends to the work.
fn add_pairs(
    way: Way,
    list: &[Membership],
    pairs: &mut Pairs,
    work: &mut Vec<Principal>,
) -> Result<(), AllocError>
    ensures { OnOk result (Adds way (λ m. list_any (eq_by_cmp membership_cmp m) list.now)
        pairs.old pairs.new work.old.items work.new.items) }
{
    'pairs: for pair in list {
        work.push(far(way, pair).clone()?)?;
        pairs.add(pair.group.clone()?, pair.member.clone()?)?;
    }
    Ok(())
}

impl Search {
    /// A search that begins with some principals.
    pub(crate) fn new(alloc: Global, starts: Vec<Principal>) -> Search
        ensures all { result.all.items ≡ [] }
        ensures met { result.met ≡ set.empty }
        ensures pairs { result.pairs ≡ set.empty }
        ensures work { result.work.items ≡ starts.items }
    {
        Search {
            all: Vec::new(alloc),
            met: Met::new(alloc),
            pairs: Pairs::new(alloc),
            work: starts,
        }
    }

    /// Meets a principal, and takes over its pairs.
    pub(crate) fn take(&mut self, way: Way, next: Principal, here: &Pairs) -> Result<(), AllocError>
        ensures { OnOk result (Takes way next here.now self.old self.new) }
    {
        let list = here.list()?;
        add_pairs(way, list.as_slice(), &mut self.pairs, &mut self.work)?;
        self.met.insert(next.clone()?)?;
        self.all.push(next)?;
        Ok(())
    }

    /// The principals that it has met.
    pub(crate) fn into_all(self) -> Vec<Principal>
        ensures { result ≡ self.all }
    {
        self.all
    }
}
