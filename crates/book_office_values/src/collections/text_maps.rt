//! Maps from texts, in byte order, which contracts see as finite maps.

ghost use Rattle.std.specs.Prelude.{◌≡◌, None, OnOk, OnErr, IfOk};
ghost use Rattle.std.specs.Option.{option_copied};
ghost use Rattle.std.specs.FinMap as map;

use crate::collections::texts::Text;
use std::alloc::{AllocError, Global};
use std::collections::BTreeMap;
use std::marker::Model;

/// A map from texts, seen as the finite map of its entries in byte order of the texts.
///
/// Look-ups and edits take a number of comparisons that grows with the logarithm of the size.
#[derive(Debug, Drop)]
pub struct TextMap<V> {
    tree: BTreeMap<Text, V>,
}

impl<V> Model for TextMap<V> {
    ghost use Rattle.std.specs.FinMap as map;
    ghost use Rattle.std.specs.Coded.{coded_ℕ, coded_list};
    ghost use Rattle.std.specs.BTreeMap.{IsOrdered};
    ghost use Rattle.book_lists.specs.Names.{name_cmp};
    ghost use Rattle.book_office_values.specs.Names.{NamesTo};

    ghost Value = { NamesTo V };

    ghost coded = { map.code (coded_list coded_ℕ) V.code };

    ghost view = { λ a. map.from_entries a.tree.entries };

    ghost invariant = { λ a. IsOrdered name_cmp a.tree };
}

/// Text by text. Where each copy of a value is the value, the copy is the map. An error is want of memory.
impl<V: Clone> Clone for TextMap<V> {
    ghost use Rattle.std.specs.List.{AllZip};

    ghost is_clone = { λ m n. AllZip (λ p q. (q.0 ≡ p.0) × V.is_clone p.1 q.1) (map.entries m) (map.entries n) };

    fn clone(&self) -> Result<TextMap<V>, AllocError> {
        let tree = self.tree.clone()?;
        Ok(TextMap { tree })
    }
}

impl<V> TextMap<V> {
    /// No texts. Takes no memory until a text is inserted.
    pub fn new(alloc: Global) -> TextMap<V>
        ensures { result ≡ map.empty }
    {
        TextMap {
            tree: BTreeMap::new(alloc),
        }
    }

    /// The value of a text, if the text is there. Takes no memory.
    pub fn get(&self, text: &Text) -> Option<&V>
        ensures { option_copied result ≡ map.get self.now text.now }
    {
        self.tree.get(text)
    }

    /// Sets the value of a text, and answers the one before. An error is want of memory, which only a new text may
    /// want; the map then stays as it was.
    pub fn insert(&mut self, text: Text, value: V) -> Result<Option<V>, AllocError>
    where
        V: Drop,
        ensures before { IfOk result (λ before. before ≡ map.get self.old text) }
        ensures ok { OnOk result (self.new ≡ map.insert self.old text value) }
        ensures err { OnErr result (self.new ≡ self.old) }
        ensures absent { OnErr result (map.get self.old text ≡ None) }
    {
        Ok(self.tree.insert(text, value)?)
    }

    /// Takes away a text, and answers its value, if the text was there. Takes no memory.
    pub fn remove(&mut self, text: &Text) -> Option<V>
        ensures before { result ≡ map.get self.old text.now }
        ensures removed { self.new ≡ map.remove self.old text.now }
    {
        self.tree.remove(text)
    }
}
