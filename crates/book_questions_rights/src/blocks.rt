//! Texts in byte order of their keys.

ghost use Rattle.std.specs.Prelude.{◌≡◌, ◌++◌, OnOk, string_bytes};
ghost use Rattle.std.specs.FinMap as map;
ghost use Rattle.std.specs.List.{flat_map};

use book_office_values::Text;
use std::alloc::{AllocError, Global};
use std::collections::BTreeMap;
use std::marker::Model;

/// Texts, each at a key, seen as the finite map of its entries in byte order of the keys.
#[derive(Debug, Drop)]
pub struct Blocks {
    tree: BTreeMap<Text, Text>,
}

impl Model for Blocks {
    ghost use Rattle.std.specs.Prelude.{List, ℕ};
    ghost use Rattle.std.specs.FinMap as map;
    ghost use Rattle.std.specs.Coded.{coded_ℕ, coded_list};
    ghost use Rattle.std.specs.BTreeMap.{IsOrdered};
    ghost use Rattle.book_lists.specs.Names.{name_cmp};
    ghost use Rattle.book_office_values.specs.Names.{NamesTo};

    ghost Value = { NamesTo (List ℕ) };

    ghost coded = { map.code (coded_list coded_ℕ) (coded_list coded_ℕ) };

    ghost view = { λ a. map.from_entries a.tree.entries };

    ghost invariant = { λ a. IsOrdered name_cmp a.tree };
}

impl Blocks {
    /// No texts. Takes no memory until a text is added.
    pub fn new(alloc: Global) -> Blocks
        ensures { result ≡ map.empty }
    {
        Blocks {
            tree: BTreeMap::new(alloc),
        }
    }

    /// Sets the text at a key. An error is want of memory.
    pub fn add(&mut self, key: Text, text: Text) -> Result<(), AllocError>
        ensures { OnOk result (self.new ≡ map.insert self.old key text) }
    {
        let _before = self.tree.insert(key, text)?;
        Ok(())
    }

    /// Adds the texts to a string, in byte order of their keys. An error is want of memory.
    pub fn push_all(&self, text: &mut String) -> Result<(), AllocError>
        ensures { OnOk result (string_bytes text.new ≡ string_bytes text.old ++ flat_map (λ e. e.1)
            (map.entries self.now)) }
    {
        for (_, block) in self.tree.iter() {
            text.push_str(block.as_str())?;
        }
        Ok(())
    }
}
