//! Sets of texts.

ghost use Rattle.std.specs.Prelude.{◌≡◌, ◌++◌, ◌||◌, ℕ, List, IfOk, OnOk, OnErr, not, map};
ghost use Rattle.std.specs.FinSet as set;
ghost use Rattle.book_lists.specs.Circles.{has_path};
ghost use Rattle.book_lists.specs.PrincipalSets.{ListsAll};

use book_office_values::Text;
use std::alloc::{AllocError, Global};
use std::collections::BTreeSet;
use std::marker::Model;

/// Texts, each once; look-ups take a number of comparisons that grows with the logarithm of the size.
#[derive(Debug, Drop)]
pub(crate) struct TextSet {
    tree: BTreeSet<Text>,
}

impl Model for TextSet {
    ghost use Rattle.std.specs.FinSet as set;
    ghost use Rattle.std.specs.Coded.{coded_ℕ, coded_list};
    ghost use Rattle.std.specs.BTreeSet.{IsOrdered};
    ghost use Rattle.book_lists.specs.Principals.{path_cmp};

    ghost Value = { set.FinSet path_cmp };

    ghost coded = { set.code (coded_list coded_ℕ) };

    ghost view = { λ s. set.from_list s.tree.keys };

    ghost invariant = { λ s. IsOrdered path_cmp s.tree };
}

impl TextSet {
    /// No texts. Takes no memory until a text is inserted.
    pub(crate) fn new(alloc: Global) -> TextSet
        ensures { result ≡ set.empty }
    {
        TextSet {
            tree: BTreeSet::new(alloc),
        }
    }

    /// Whether the text is there. Takes no memory.
    pub(crate) fn has(&self, text: &Text) -> bool
        ensures { result ≡ set.contains self.now text.now }
    {
        self.tree.contains(text)
    }

    /// Adds the text, and tells whether it was not there. Only a new one may want memory.
    pub(crate) fn insert(&mut self, text: Text) -> Result<bool, AllocError>
        ensures added { IfOk result (λ added. added ≡ not (set.contains self.old text)) }
        ensures ok { OnOk result (self.new ≡ set.insert self.old text) }
        ensures err { OnErr result (self.new ≡ self.old) }
    {
        Ok(self.tree.insert(text)?)
    }

    /// Adds copies of the texts. An error is want of memory.
    pub(crate) fn insert_all(&mut self, texts: &[Text]) -> Result<(), AllocError>
        ensures { OnOk result ((q : List ℕ)
            → set.contains self.new q ≡ (has_path texts.now q || set.contains self.old q)) }
    {
        for text in texts {
            self.insert(text.clone()?)?;
        }
        Ok(())
    }

    /// Adds the texts to a list, in byte order. An error is want of memory.
    pub(crate) fn append_to<'a>(&'a self, list: &mut Vec<&'a Text>) -> Result<(), AllocError>
        ensures { OnOk result ((added : List (List ℕ)) × ListsAll self.now added
            × (map (λ w. w.now) list.new.items ≡ map (λ w. w.now) list.old.items ++ added)) }
    {
        list.extend(self.tree.iter())
    }
}
