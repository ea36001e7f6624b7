//! Maps from names, in byte order, which contracts see as finite maps.

ghost use Rattle.std.specs.Prelude.{◌≡◌, ℕ, List, None, OnOk, OnErr, IfOk};
ghost use Rattle.std.specs.Option.{option_copied, option_copied_mut};
ghost use Rattle.std.specs.FinMap as map;
ghost use Rattle.std.specs.Map.Iter.{GivesInOrder, ShowsInOrder, deref_pair};
ghost use Rattle.std.specs.Borrow.{sem};
ghost use Rattle.book_office_values.specs.Lending.{LendsValue};

use book_lists::Name;
use std::alloc::{AllocError, Global};
use std::collections::BTreeMap;
use std::collections::btree_map::{IntoIter, Iter};
use std::marker::Model;

/// A map from names, seen as the finite map of its entries in byte order of the names.
///
/// Look-ups and edits take a number of comparisons that grows with the logarithm of the size.
#[derive(Debug, Drop)]
pub struct NameMap<V> {
    tree: BTreeMap<Name, V>,
}

impl<V> Model for NameMap<V> {
    ghost use Rattle.std.specs.FinMap as map;
    ghost use Rattle.std.specs.Coded.{coded_ℕ, coded_list};
    ghost use Rattle.std.specs.BTreeMap.{IsOrdered};
    ghost use Rattle.book_lists.specs.Names.{name_cmp};
    ghost use Rattle.book_office_values.specs.Names.{NamesTo};

    ghost Value = { NamesTo V };

    ghost coded = { map.code (coded_list coded_ℕ) V.code };

    ghost view = { λ a. map.from_entries a.tree.entries };

    ghost invariant = { λ a. IsOrdered name_cmp a.tree };
}

/// Name by name. Where each copy of a value is the value, the copy is the map. An error is want of memory.
impl<V: Clone> Clone for NameMap<V> {
    ghost use Rattle.std.specs.Prelude.{◌≡◌};
    ghost use Rattle.std.specs.FinMap as map;
    ghost use Rattle.std.specs.List.{AllZip};

    ghost is_clone = { λ m n. AllZip (λ p q. (q.0 ≡ p.0) × V.is_clone p.1 q.1) (map.entries m) (map.entries n) };

    fn clone(&self) -> Result<NameMap<V>, AllocError> {
        let tree = self.tree.clone()?;
        Ok(NameMap { tree })
    }
}

impl<V> NameMap<V> {
    /// No names. Takes no memory until a name is inserted.
    pub fn new(alloc: Global) -> NameMap<V>
        ensures { result ≡ map.empty }
    {
        NameMap {
            tree: BTreeMap::new(alloc),
        }
    }

    /// How many names there are. Takes no memory.
    pub fn len(&self) -> usize
        ensures { result ≡ map.len self.now }
    {
        self.tree.len()
    }

    /// The value of a name, if the name is there. Takes no memory.
    pub fn get(&self, name: &Name) -> Option<&V>
        ensures { option_copied result ≡ map.get self.now name.now }
    {
        self.tree.get(name)
    }

    /// The value of a name, to be changed in place. Takes no memory.
    pub fn get_mut(&mut self, name: &Name) -> Option<&mut V>
        ensures* lends { sem 𝓛 (LendsValue V.row self.entry name.now result) }
        ensures value { option_copied_mut result ≡ map.get self.old name.now }
    {
        self.tree.get_mut(name)
    }

    /// Sets the value of a name, and answers the one before. An error is want of memory, which only a new name may
    /// want; the map then stays as it was.
    pub fn insert(&mut self, name: Name, value: V) -> Result<Option<V>, AllocError>
    where
        V: Drop,
        ensures before { IfOk result (λ before. before ≡ map.get self.old name) }
        ensures ok { OnOk result (self.new ≡ map.insert self.old name value) }
        ensures err { OnErr result (self.new ≡ self.old) }
        ensures absent { OnErr result (map.get self.old name ≡ None) }
    {
        Ok(self.tree.insert(name, value)?)
    }

    /// Takes away a name, and answers its value, if the name was there. Takes no memory.
    pub fn remove(&mut self, name: &Name) -> Option<V>
        ensures before { result ≡ map.get self.old name.now }
        ensures removed { self.new ≡ map.remove self.old name.now }
    {
        self.tree.remove(name)
    }

    /// The entries by value, in byte order of the names. Takes no memory.
    pub fn into_entries(self) -> IntoIter<Name, V>
    where
        V: Drop,
        ensures entries { result ≡ map.entries self }
        ensures runs { GivesInOrder (List ℕ × V) }
    {
        let NameMap { tree } = self;
        tree.into_iter()
    }

    /// The entries, in byte order of the names. Takes no memory.
    pub fn iter(&self) -> Iter<'_, Name, V>
        ensures entries { result ≡ map.entries self.now }
        ensures runs { ShowsInOrder (deref_pair {K = List ℕ} {X = V}) }
    {
        self.tree.iter()
    }
}
