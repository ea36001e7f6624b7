//! The books, with their cards and the numbers of their changes.

ghost use Rattle.std.specs.Prelude.{◌≡◌, IfOk, OnOk, map};
ghost use Rattle.std.specs.FinMap.{empty, insert};
ghost use Rattle.book_office.specs.Keeping.{Reads};
ghost use Rattle.book_office_adopting.specs.TakingOver.{all_inserted};
ghost use Rattle.book_office_copies.specs.Copies.{as_it_is, book_told, books_told, cards_in, bare_books_told, bare_entry, bare_listed, named_book, named_entry, with_card};

use crate::numbers::numbers_of;
use crate::places::properties_listed;
use book_lists::Name;
use book_office::{Changed, Keeper, Listed, StoreFault};
use book_office_values::{Book, Changes, Items, NameMap, Path, StoredCard};
use std::alloc::{AllocError, Global};

/// A book, with its name.
#[derive(Drop)]
pub(crate) struct NamedBook {
    pub(crate) name: Name,
    pub(crate) book: Book,
}

/// Adds the card of a name, if it has one. An error is want of memory.
fn add_card(
    cards: &mut NameMap<StoredCard>,
    name: Name,
    card: Option<StoredCard>,
) -> Result<(), AllocError>
    ensures { OnOk result (cards.new ≡ with_card cards.old name card) }
{
    if let Some(card) = card {
        drop(cards.insert(name, card)?);
    }
    Ok(())
}

/// The cards of the names that changed. None is copied. An error is want of memory.
fn cards_of(alloc: Global, changes: Items<Changed>) -> Result<NameMap<StoredCard>, AllocError>
    ensures { IfOk result (λ cards. cards ≡ cards_in empty changes) }
{
    let mut cards = NameMap::new(alloc);
    for change in changes.into_vec() {
        let Changed {
            number: _,
            name,
            card,
        } = change;
        add_card(&mut cards, name, card)?;
    }
    Ok(cards)
}

/// A book, by what a listing and its last changes tell of it. An error is want of memory.
fn book_of(alloc: Global, listed: &Listed, changes: Items<Changed>) -> Result<Book, AllocError>
    ensures { IfOk result (λ book. book ≡ book_told listed.now changes) }
{
    let properties = properties_listed(listed)?;
    let numbers = numbers_of(alloc, listed.number, changes.as_slice())?;
    let cards = cards_of(alloc, changes)?;
    Ok(Book {
        properties,
        cards,
        changes: numbers,
    })
}

/// The same with its name. An error is want of memory.
fn named_book(
    alloc: Global,
    listed: &Listed,
    changes: Items<Changed>,
) -> Result<NamedBook, AllocError>
    ensures { IfOk result (λ named. named ≡ record {
      name = listed.now.name;
      book = book_told listed.now changes;
    }) }
{
    let name = listed.name.clone()?;
    let book = book_of(alloc, listed, changes)?;
    Ok(NamedBook { name, book })
}

/// Reads a book that is listed. All its last changes are read at once, each with its card.
fn read_book<K: Keeper>(
    alloc: Global,
    keeper: &mut K,
    listed: &Listed,
) -> Result<NamedBook, StoreFault>
    ensures { Reads (K.standing keeper.old) (K.standing keeper.new) result
        (λ o named. named ≡ named_book o listed.now) }
{
    let changes = keeper.changes_after(alloc, &listed.name, 0, None)?;
    Ok(named_book(alloc, listed, changes)?)
}

/// Reads each book that is listed.
fn read_each<K: Keeper>(
    alloc: Global,
    keeper: &mut K,
    listed: &[Listed],
) -> Result<Vec<NamedBook>, StoreFault>
    ensures { Reads (K.standing keeper.old) (K.standing keeper.new) result
        (λ o books. books.items ≡ map (named_book o) listed.now) }
{
    let mut books = Vec::new(alloc);
    for one in listed {
        let book = match read_book(alloc, keeper, one) {
            Ok(book) => book,
            Err(fault) => return Err(fault),
        };
        if books.push(book).is_err() {
            return Err(StoreFault::Memory);
        }
    }
    Ok(books)
}

/// The books by their names. None is copied. An error is want of memory.
fn books_of(alloc: Global, named: Vec<NamedBook>) -> Result<NameMap<Book>, AllocError>
    ensures { IfOk result (λ books. books ≡ all_inserted as_it_is empty
        (map named_entry named.items)) }
{
    let mut books = NameMap::new(alloc);
    for one in named {
        let NamedBook { name, book } = one;
        drop(books.insert(name, book)?);
    }
    Ok(books)
}

/// Reads all books.
pub(crate) fn read_books<K: Keeper>(
    alloc: Global,
    keeper: &mut K,
) -> Result<NameMap<Book>, StoreFault>
    ensures { Reads (K.standing keeper.old) (K.standing keeper.new) result
        (λ o books. books ≡ books_told o) }
{
    let listed = keeper.children(alloc, &Path::Books)?;
    let named = read_each(alloc, keeper, listed.as_slice())?;
    Ok(books_of(alloc, named)?)
}

/// A book that is listed, without its cards and their changes. An error is want of memory.
fn bare_listed(alloc: Global, listed: &Listed) -> Result<Book, AllocError>
    ensures { IfOk result (λ book. book ≡ bare_listed listed.now) }
{
    let properties = properties_listed(listed)?;
    Ok(Book {
        properties,
        cards: NameMap::new(alloc),
        changes: Changes::new(alloc),
    })
}

/// Adds a book that is listed, without its cards and their changes. An error is want of memory.
fn add_bare_book(
    alloc: Global,
    books: &mut NameMap<Book>,
    listed: &Listed,
) -> Result<(), AllocError>
    ensures { OnOk result (books.new ≡ insert books.old listed.now.name (bare_listed listed.now)) }
{
    let name = listed.name.clone()?;
    let book = bare_listed(alloc, listed)?;
    drop(books.insert(name, book)?);
    Ok(())
}

/// The books of a listing, without their cards and changes. An error is want of memory.
fn bare_books_of(alloc: Global, listed: Items<Listed>) -> Result<NameMap<Book>, AllocError>
    ensures { IfOk result (λ books. books ≡ all_inserted as_it_is empty
        (map bare_entry listed)) }
{
    let mut books = NameMap::new(alloc);
    for one in listed.into_vec() {
        let added = add_bare_book(alloc, &mut books, &one);
        drop(one);
        added?;
    }
    Ok(books)
}

/// Reads all books, without their cards and changes.
pub(crate) fn read_bare_books<K: Keeper>(
    alloc: Global,
    keeper: &mut K,
) -> Result<NameMap<Book>, StoreFault>
    ensures { Reads (K.standing keeper.old) (K.standing keeper.new) result
        (λ o books. books ≡ bare_books_told o) }
{
    let listed = keeper.children(alloc, &Path::Books)?;
    Ok(bare_books_of(alloc, listed)?)
}
