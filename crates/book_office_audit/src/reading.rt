//! What an audit reads of a keeper: each list of children once.

ghost use Rattle.std.specs.Prelude.{◌≡◌, IfOk, map};
ghost use Rattle.book_office.specs.Keeping.{Reads};
ghost use Rattle.book_office_values.specs.Paths.{book_path};
ghost use Rattle.book_office_audit.specs.Audits.{contents_of, owner_in, residents_of, shelf_of, top_of};

use crate::contents::{Contents, Residents, Shelf, Top};
use book_lists::{Name, Principal};
use book_office::{Keeper, Listed, Node, StoreFault};
use book_office_values::{Items, Path, Text};
use std::alloc::{AllocError, Global};

/// The owner of a resource, if it is there and has one.
fn owner_in(node: Option<Node>) -> Option<Principal>
    ensures { result ≡ owner_in node }
{
    match node {
        Some(node) => node.owner,
        None => None,
    }
}

/// Reads the root and the homes.
fn read_top<K: Keeper>(alloc: Global, keeper: &mut K) -> Result<Top, StoreFault>
    ensures { Reads (K.standing keeper.old) (K.standing keeper.new) result
        (λ o top. top ≡ top_of o) }
{
    let node = keeper.find(alloc, &Path::Root)?;
    let lists = keeper.lists(alloc, &Path::Root)?;
    let homes = keeper.children(alloc, &Path::Root)?;
    Ok(Top {
        owner: owner_in(node),
        lists,
        homes,
    })
}

/// Reads what stands in the homes.
fn read_residents<K: Keeper>(alloc: Global, keeper: &mut K) -> Result<Residents, StoreFault>
    ensures { Reads (K.standing keeper.old) (K.standing keeper.new) result
        (λ o residents. residents ≡ residents_of o) }
{
    let persons = keeper.children(alloc, &Path::People)?;
    let groups = keeper.children(alloc, &Path::Groups)?;
    let books = keeper.children(alloc, &Path::Books)?;
    Ok(Residents {
        persons,
        groups,
        books,
    })
}

/// The text of a book's path.
fn book_path(alloc: Global, name: &Name) -> Result<Text, AllocError>
    ensures { IfOk result (λ path. path ≡ book_path name.now) }
{
    let name = name.text();
    Ok(Text::from_string(format!(in alloc; "/books/{name}")?))
}

/// Reads the cards of a book.
fn read_shelf<K: Keeper>(alloc: Global, keeper: &mut K, book: &Listed) -> Result<Shelf, StoreFault>
    ensures { Reads (K.standing keeper.old) (K.standing keeper.new) result
        (λ o shelf. shelf ≡ shelf_of o book.now) }
{
    let path = Path::Book(book.name.clone()?);
    let text = book_path(alloc, &book.name)?;
    let cards = keeper.children(alloc, &path)?;
    Ok(Shelf { book: text, cards })
}

/// Reads the cards of the books.
fn read_shelves<K: Keeper>(
    alloc: Global,
    keeper: &mut K,
    books: &[Listed],
) -> Result<Vec<Shelf>, StoreFault>
    ensures { Reads (K.standing keeper.old) (K.standing keeper.new) result
        (λ o shelves. shelves.items ≡ map (shelf_of o) books.now) }
{
    let mut shelves = Vec::new(alloc);
    for book in books {
        let shelf = match read_shelf(alloc, keeper, book) {
            Ok(shelf) => shelf,
            Err(fault) => return Err(fault),
        };
        if shelves.push(shelf).is_err() {
            return Err(StoreFault::Memory);
        }
    }
    Ok(shelves)
}

/// Reads all resources.
pub(crate) fn read_contents<K: Keeper>(
    alloc: Global,
    keeper: &mut K,
) -> Result<Contents, StoreFault>
    ensures { Reads (K.standing keeper.old) (K.standing keeper.new) result
        (λ o contents. contents ≡ contents_of o) }
{
    let top = read_top(alloc, keeper)?;
    let residents = read_residents(alloc, keeper)?;
    let shelves = read_shelves(alloc, keeper, residents.books.as_slice())?;
    Ok(Contents {
        top,
        residents,
        shelves: Items::from_vec(shelves),
    })
}
