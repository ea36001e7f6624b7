//! How much an Office has.

ghost use Rattle.std.specs.Prelude.{◌≡◌};
ghost use Rattle.book_desk_administering.specs.Counting.{cards_of, counts_of};
ghost use Rattle.book_office.specs.Keeping.{Reads};
ghost use Rattle.book_office.specs.Resources.{children_at, count_at};
ghost use Rattle.book_office_values.specs.declared.paths.Path.TheVariants as path;

use book_lists::Name;
use book_office::{Keeper, Listed, StoreFault};
use book_office_values::Path;
use std::alloc::Global;

/// How much an Office has (own profile).
#[derive(Clone, Copy, Debug, PartialEq, Eq)]
pub struct Counts {
    /// The access epoch.
    pub epoch: u64,
    /// How many persons.
    pub persons: usize,
    /// How many groups.
    pub groups: usize,
    /// How many books.
    pub books: usize,
    /// How many cards all books have together.
    pub cards: u64,
}

/// How many cards a book has.
fn count_book<K: Keeper>(alloc: Global, keeper: &mut K, book: &Name) -> Result<usize, StoreFault>
    ensures { Reads (K.standing keeper.old) (K.standing keeper.new) result
        (λ o count. count ≡ count_at o (path.Book book.now)) }
{
    let path = Path::Book(book.clone()?);
    keeper.count(alloc, &path)
}

/// How many cards the books of a listing have together.
fn count_books<K: Keeper>(
    alloc: Global,
    keeper: &mut K,
    books: &[Listed],
) -> Result<u64, StoreFault>
    ensures { Reads (K.standing keeper.old) (K.standing keeper.new) result
        (λ o cards. cards ≡ cards_of o books.now) }
{
    let mut cards: u64 = 0;
    for book in books {
        match count_book(alloc, keeper, &book.name) {
            Ok(count) => cards = cards.saturating_add(count as u64),
            Err(fault) => return Err(fault),
        }
    }
    Ok(cards)
}

/// How many cards all books have together.
fn count_cards<K: Keeper>(alloc: Global, keeper: &mut K) -> Result<u64, StoreFault>
    ensures { Reads (K.standing keeper.old) (K.standing keeper.new) result
        (λ o cards. cards ≡ cards_of o (children_at o path.Books)) }
{
    let books = keeper.children(alloc, &Path::Books)?;
    count_books(alloc, keeper, books.as_slice())
}

/// How much the Office of a keeper has. The Office stays.
///
/// It reads the listing of the books, and asks the keeper how many cards each has: over memory a step for each book, over
/// tables a look at each card's row of an index, and at no text.
///
/// # Errors
///
/// `Memory` where memory was refused, `Store` where the store failed.
pub fn counts_of<K: Keeper>(alloc: Global, keeper: &mut K) -> Result<Counts, StoreFault>
    ensures { Reads (K.standing keeper.old) (K.standing keeper.new) result
        (λ o counts. counts ≡ counts_of o) }
{
    let epoch = keeper.epoch()?;
    let persons = keeper.count(alloc, &Path::People)?;
    let groups = keeper.count(alloc, &Path::Groups)?;
    let books = keeper.count(alloc, &Path::Books)?;
    let cards = count_cards(alloc, keeper)?;
    Ok(Counts {
        epoch,
        persons,
        groups,
        books,
        cards,
    })
}
