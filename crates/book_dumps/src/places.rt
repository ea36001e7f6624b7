//! The order in which books and their cards stand.

ghost use Rattle.std.specs.Prelude.{◌≡◌, ◌++◌, IfOk, OnOk, codes};
ghost use Rattle.std.specs.FinMap as map;
ghost use Rattle.book_dumps.specs.Dumps.{with_book, with_books};

use book_lists::Name;
use book_office_values::{Items, Text};
use std::alloc::{AllocError, Global};
use std::collections::BTreeMap;
use std::marker::Model;

/// What stands at a place among the books.
#[derive(Debug, Drop)]
pub enum Place {
    /// A book, without its cards.
    Whole(Name),
    /// The cards of a book.
    Cards(Name),
}

/// Values by text, seen as the finite map of its entries in byte order of the texts.
#[derive(Debug, Drop)]
pub(crate) struct InOrder<V> {
    tree: BTreeMap<Text, V>,
}

impl<V> Model for InOrder<V> {
    ghost use Rattle.std.specs.FinMap as map;
    ghost use Rattle.std.specs.Coded.{coded_ℕ, coded_list};
    ghost use Rattle.std.specs.BTreeMap.{IsOrdered};
    ghost use Rattle.book_lists.specs.Names.{name_cmp};
    ghost use Rattle.book_office_values.specs.Names.{NamesTo};

    ghost Value = { NamesTo V };

    ghost coded = { map.code (coded_list coded_ℕ) V.code };

    ghost view = { λ a. map.from_entries a.tree.entries };

    ghost invariant = { λ a. IsOrdered name_cmp a.tree };
}

impl<V> InOrder<V> {
    /// Nothing. Takes no memory until a value is added.
    pub(crate) fn new(alloc: Global) -> InOrder<V>
        ensures { result ≡ map.empty }
    {
        InOrder {
            tree: BTreeMap::new(alloc),
        }
    }

    /// Sets the value at a text. An error is want of memory.
    pub(crate) fn add(&mut self, text: Text, value: V) -> Result<(), AllocError>
    where
        V: Drop,
        ensures { OnOk result (self.new ≡ map.insert self.old text value) }
    {
        let _before = self.tree.insert(text, value)?;
        Ok(())
    }

    /// The values, in byte order of their texts. An error is want of memory.
    pub(crate) fn into_values(self, alloc: Global) -> Result<Items<V>, AllocError>
    where
        V: Drop,
        ensures { IfOk result (λ values. values ≡ map.values self) }
    {
        let InOrder { tree } = self;
        let mut values = Vec::new(alloc);
        for (_, value) in tree.into_iter() {
            values.push(value)?;
        }
        Ok(Items::from_vec(values))
    }
}

/// The name and a slash, with which the paths of a book's cards go on. An error is want of memory.
fn with_slash(alloc: Global, name: &Name) -> Result<Text, AllocError>
    ensures { IfOk result (λ text. text ≡ name.now ++ codes "/") }
{
    let mut text = String::from_str(alloc, name.text())?;
    text.push_str("/")?;
    Ok(Text::from_string(text))
}

/// Adds a book and its cards. An error is want of memory.
fn add_book(alloc: Global, places: &mut InOrder<Place>, name: &Name) -> Result<(), AllocError>
    ensures { OnOk result (places.new ≡ with_book places.old name.now) }
{
    let at = Text::copy_of(alloc, name.text())?;
    places.add(at, Place::Whole(name.clone()?))?;
    let below = with_slash(alloc, name)?;
    places.add(below, Place::Cards(name.clone()?))
}

/// Adds each book and its cards. An error is want of memory.
fn add_books(alloc: Global, places: &mut InOrder<Place>, names: &[Name]) -> Result<(), AllocError>
    ensures { OnOk result (places.new ≡ with_books places.old names.now) }
{
    for name in names {
        add_book(alloc, places, name)?;
    }
    Ok(())
}

/// The books with these names and their cards, in byte order of their paths. An error is want of memory.
pub(crate) fn places_of(alloc: Global, names: &[Name]) -> Result<Items<Place>, AllocError>
    ensures { IfOk result (λ places. places ≡ map.values (with_books map.empty names.now)) }
{
    let mut places = InOrder::new(alloc);
    add_books(alloc, &mut places, names)?;
    places.into_values(alloc)
}
