//! Names by the numbers of their last changes, in order of number, which contracts see as a finite map.

ghost use Rattle.std.specs.Prelude.{◌≡◌, ℕ, List, OnOk, OnErr, IfOk, filter, is_some, nat_lt};
ghost use Rattle.std.specs.FinMap as map;
ghost use Rattle.std.specs.Map.Iter.{ShowsInOrder, deref_pair};
ghost use Rattle.book_office_values.specs.Changes.{first_of, is_full, without};

use crate::collections::items::Items;
use crate::collections::name_maps::NameMap;
use book_lists::Name;
use std::alloc::{AllocError, Global};
use std::collections::BTreeMap;
use std::collections::btree_map::Range;
use std::marker::Model;
use std::ops::Bound;

/// A map from numbers to names.
#[derive(Debug, Drop)]
pub(crate) struct NumberMap {
    tree: BTreeMap<u64, Name>,
}

impl Model for NumberMap {
    ghost use Rattle.std.specs.Prelude.{List, ℕ};
    ghost use Rattle.std.specs.FinMap as map;
    ghost use Rattle.std.specs.Coded.{coded_ℕ, coded_list};
    ghost use Rattle.std.specs.Ordering.{nat_cmp};
    ghost use Rattle.std.specs.BTreeMap.{IsOrdered};

    ghost Value = { map.FinMap nat_cmp (List ℕ) };

    ghost coded = { map.code coded_ℕ (coded_list coded_ℕ) };

    ghost view = { λ a. map.from_entries a.tree.entries };

    ghost invariant = { λ a. IsOrdered nat_cmp a.tree };
}

impl NumberMap {
    /// No numbers. Takes no memory until one is inserted.
    pub(crate) fn new(alloc: Global) -> NumberMap
        ensures { result ≡ map.empty }
    {
        NumberMap {
            tree: BTreeMap::new(alloc),
        }
    }

    /// Sets the name of a number. Without memory for it the map stays as it was.
    pub(crate) fn insert(&mut self, number: u64, name: Name) -> Result<(), AllocError>
        ensures ok { OnOk result (self.new ≡ map.insert self.old number name) }
        ensures err { OnErr result (self.new ≡ self.old) }
    {
        self.tree.insert(number, name)?;
        Ok(())
    }

    /// Takes away a number, if there is one to take away.
    pub(crate) fn remove(&mut self, number: Option<u64>)
        ensures { self.new ≡ without self.old number }
    {
        if let Some(number) = number {
            drop(self.tree.remove(&number));
        }
    }

    /// The entries above a number, in order: a look-up, and a step for each that is asked for. Takes no memory.
    fn range_after(&self, number: u64) -> Range<'_, u64, Name>
        ensures entries { result ≡ filter (λ c. nat_lt number c.0) (map.entries self.now) }
        ensures runs { ShowsInOrder (deref_pair {K = ℕ} {X = List ℕ}) }
    {
        self.tree.range((Bound::Excluded(number), Bound::Unbounded))
    }

    /// The entries above a number, in order, and at most so many: a look-up, and a step for each entry that it answers.
    pub(crate) fn after(
        &self,
        alloc: Global,
        number: u64,
        at_most: Option<u32>,
    ) -> Result<Items<(u64, Name)>, AllocError>
        ensures { IfOk result (λ after. after ≡ first_of at_most
            (filter (λ c. nat_lt number c.0) (map.entries self.now))) }
    {
        let mut after = Items::new(alloc);
        for (above, name) in self.range_after(number) {
            if is_full(after.len(), at_most) {
                break;
            }
            after.push((*above, name.clone()?))?;
        }
        Ok(after)
    }

    /// Of the entries above a number those of names that a map has, in order, and at most so many: a look-up, and then
    /// one for each entry up to the last that it answers.
    pub(crate) fn after_among<V>(
        &self,
        alloc: Global,
        number: u64,
        at_most: Option<u32>,
        names: &NameMap<V>,
    ) -> Result<Items<(u64, Name)>, AllocError>
        ensures { IfOk result (λ after. after ≡ first_of at_most
            (filter (λ c. is_some (map.get names.now c.1))
            (filter (λ c. nat_lt number c.0) (map.entries self.now)))) }
    {
        let mut after = Items::new(alloc);
        for (above, name) in self.range_after(number) {
            if is_full(after.len(), at_most) {
                break;
            }
            if names.get(name).is_some() {
                after.push((*above, name.clone()?))?;
            }
        }
        Ok(after)
    }
}

/// Whether a list has as many items as it is to have.
fn is_full(len: usize, at_most: Option<u32>) -> bool
    ensures { result ≡ is_full at_most len }
{
    match at_most {
        Some(most) => len >= most as usize,
        None => false,
    }
}
