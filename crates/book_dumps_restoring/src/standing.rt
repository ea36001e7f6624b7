//! What stands at each path.

ghost use Rattle.std.specs.Prelude.{◌≡◌, IfNone, IfOk, OnOk, string_bytes};
ghost use Rattle.std.specs.Option.{option_copied};
ghost use Rattle.std.specs.FinMap as map;
ghost use Rattle.book_dumps_restoring.specs.Standing.{is_there, placed, put};
ghost use Rattle.book_office_values.specs.Paths.{book_path, path_text};

use book_dumps::Line;
use book_lists::Name;
use book_office_values::{Items, Path, Text, push_book_path};
use std::alloc::{AllocError, Global};
use std::collections::BTreeMap;
use std::marker::Model;

/// Values by text, seen as the finite map of its entries in byte order of the texts.
///
/// Look-ups and edits take a number of comparisons that grows with the logarithm of the size.
#[derive(Debug, Drop)]
pub(crate) struct Standing<V> {
    tree: BTreeMap<Text, V>,
}

impl<V> Model for Standing<V> {
    ghost use Rattle.std.specs.FinMap as map;
    ghost use Rattle.std.specs.Coded.{coded_ℕ, coded_list};
    ghost use Rattle.std.specs.BTreeMap.{IsOrdered};
    ghost use Rattle.book_lists.specs.Names.{name_cmp};
    ghost use Rattle.book_office_values.specs.Names.{NamesTo};

    ghost Value = { NamesTo V };

    ghost coded = { map.code (coded_list coded_ℕ) V.code };

    ghost view = { λ a. map.from_entries a.tree.entries };

    ghost invariant = { λ a. IsOrdered name_cmp a.tree };
}

impl<V> Standing<V> {
    /// Nothing. Takes no memory until a value is added.
    pub(crate) fn new(alloc: Global) -> Standing<V>
        ensures { result ≡ map.empty }
    {
        Standing {
            tree: BTreeMap::new(alloc),
        }
    }

    /// The value at a text, if there is one. Takes no memory.
    pub(crate) fn get(&self, text: &Text) -> Option<&V>
        ensures { option_copied result ≡ map.get self.now text.now }
    {
        self.tree.get(text)
    }

    /// Sets the value at a text. An error is want of memory.
    pub(crate) fn add(&mut self, text: Text, value: V) -> Result<(), AllocError>
    where
        V: Drop,
        ensures { OnOk result (self.new ≡ map.insert self.old text value) }
    {
        let _before = self.tree.insert(text, value)?;
        Ok(())
    }

    /// Takes away the value at a text, if there is one. Takes no memory.
    pub(crate) fn take(&mut self, text: &Text) -> Option<V>
        ensures before { result ≡ map.get self.old text.now }
        ensures taken { self.new ≡ map.remove self.old text.now }
        ensures none { IfNone result (self.new ≡ self.old) }
    {
        self.tree.remove(text)
    }

    /// The values, in byte order of their texts. An error is want of memory.
    pub(crate) fn into_values(self, alloc: Global) -> Result<Items<V>, AllocError>
    where
        V: Drop,
        ensures { IfOk result (λ values. values ≡ map.values self) }
    {
        let Standing { tree } = self;
        let mut values = Vec::new(alloc);
        for (_, value) in tree.into_iter() {
            values.push(value)?;
        }
        Ok(Items::from_vec(values))
    }
}

/// The text of a path. An error is want of memory.
pub(crate) fn text_of(alloc: Global, path: &Path) -> Result<Text, AllocError>
    ensures { IfOk result (λ text. text ≡ path_text path.now) }
{
    let text = path.text(alloc)?;
    Ok(Text::from_string(text))
}

/// The text of the path of a book. An error is want of memory.
pub(crate) fn book_text(alloc: Global, book: &Name) -> Result<Text, AllocError>
    ensures { IfOk result (λ text. text ≡ book_path book.now) }
{
    let mut text = String::new(alloc);
    push_book_path(&mut text, book)?;
    Ok(Text::from_string(text))
}

/// Sets what stands at the path of a line. An error is want of memory.
pub(crate) fn put(
    alloc: Global,
    standing: &mut Standing<Line>,
    line: Line,
) -> Result<(), AllocError>
    ensures { OnOk result (standing.new ≡ put standing.old line) }
{
    let at = text_of(alloc, &line.path)?;
    standing.add(at, line)
}

/// What stands at each path, from lines. An error is want of memory.
pub(crate) fn placed(alloc: Global, lines: Items<Line>) -> Result<Standing<Line>, AllocError>
    ensures { IfOk result (λ standing. standing ≡ placed lines) }
{
    let mut standing = Standing::new(alloc);
    for line in lines.into_vec() {
        put(alloc, &mut standing, line)?;
    }
    Ok(standing)
}

/// Whether something stands at the path with a text. An error is want of memory.
pub(crate) fn is_there(
    alloc: Global,
    standing: &Standing<Line>,
    text: &str,
) -> Result<bool, AllocError>
    ensures { IfOk result (λ is. is ≡ is_there standing.now text.now) }
{
    let at = Text::copy_of(alloc, text)?;
    Ok(standing.get(&at).is_some())
}
