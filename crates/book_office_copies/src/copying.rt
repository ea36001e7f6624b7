//! The whole Office.

ghost use Rattle.std.specs.Prelude.{◌≡◌};
ghost use Rattle.book_office.specs.Keeping.{Reads};
ghost use Rattle.book_office_copies.specs.Copies.{bare_maps_told, homes_told, maps_told, office_of, office_with};
ghost use Rattle.book_office_adopting.specs.TakingOver.{bare};

use crate::books::{read_bare_books, read_books};
use crate::places::{read_place, read_principals};
use book_lists::Pairs;
use book_office::{Keeper, StoreFault};
use book_office_values::{Book, NameMap, Office, Path, Properties};
use std::alloc::Global;

/// The root and the homes.
#[derive(Drop)]
struct Homes {
    root: Properties,
    people: Properties,
    groups_home: Properties,
    books_home: Properties,
}

/// The persons, the groups and the books.
#[derive(Drop)]
struct Maps {
    persons: NameMap<Properties>,
    groups: NameMap<Properties>,
    books: NameMap<Book>,
}

/// Reads the root and the homes.
fn read_homes<K: Keeper>(alloc: Global, keeper: &mut K) -> Result<Homes, StoreFault>
    ensures { Reads (K.standing keeper.old) (K.standing keeper.new) result
        (λ o homes. homes ≡ homes_told o) }
{
    let root = read_place(alloc, keeper, &Path::Root)?;
    let people = read_place(alloc, keeper, &Path::People)?;
    let groups_home = read_place(alloc, keeper, &Path::Groups)?;
    let books_home = read_place(alloc, keeper, &Path::Books)?;
    Ok(Homes {
        root,
        people,
        groups_home,
        books_home,
    })
}

/// Reads the persons, the groups and the books.
fn read_maps<K: Keeper>(alloc: Global, keeper: &mut K) -> Result<Maps, StoreFault>
    ensures { Reads (K.standing keeper.old) (K.standing keeper.new) result
        (λ o maps. maps ≡ maps_told o) }
{
    let persons = read_principals(alloc, keeper, &Path::People)?;
    let groups = read_principals(alloc, keeper, &Path::Groups)?;
    let books = read_books(alloc, keeper)?;
    Ok(Maps {
        persons,
        groups,
        books,
    })
}

/// The same, with the books without their cards and changes.
fn read_bare_maps<K: Keeper>(alloc: Global, keeper: &mut K) -> Result<Maps, StoreFault>
    ensures { Reads (K.standing keeper.old) (K.standing keeper.new) result
        (λ o maps. maps ≡ bare_maps_told o) }
{
    let persons = read_principals(alloc, keeper, &Path::People)?;
    let groups = read_principals(alloc, keeper, &Path::Groups)?;
    let books = read_bare_books(alloc, keeper)?;
    Ok(Maps {
        persons,
        groups,
        books,
    })
}

/// An Office of these parts. Takes no memory.
fn office_of(homes: Homes, maps: Maps, pairs: Pairs, epoch: u64) -> Office
    ensures { result ≡ office_of homes maps pairs epoch }
{
    let Homes {
        root,
        people,
        groups_home,
        books_home,
    } = homes;
    let Maps {
        persons,
        groups,
        books,
    } = maps;
    Office {
        root,
        people,
        groups_home,
        books_home,
        persons,
        groups,
        books,
        pairs,
        epoch,
    }
}

/// Reads what an Office is beside its persons, groups and books, and gives it these.
fn read_rest<K: Keeper>(alloc: Global, keeper: &mut K, maps: Maps) -> Result<Office, StoreFault>
    ensures { Reads (K.standing keeper.old) (K.standing keeper.new) result
        (λ o office. office ≡ office_with o maps) }
{
    let homes = read_homes(alloc, keeper)?;
    let pairs = keeper.pairs(alloc)?;
    let epoch = keeper.epoch()?;
    Ok(office_of(homes, maps, pairs, epoch))
}

/// The whole Office for which a keeper stands: its root and homes, persons, groups with their direct members, books, cards
/// with their texts, lists, owners, labels, numbers of last changes, removed names, and the access epoch. The keeper stays
/// as it is. `MemoryKeeper::from_office` takes the copy.
///
/// It holds every card in memory. It takes a step for each resource and each name that a book ever had, up to a logarithm.
///
/// # Errors
///
/// `Memory` where memory was refused, `Store` where the store failed.
pub fn copy<K: Keeper>(alloc: Global, keeper: &mut K) -> Result<Office, StoreFault>
    ensures { Reads (K.standing keeper.old) (K.standing keeper.new) result
        (λ o copied. copied ≡ o) }
{
    let maps = read_maps(alloc, keeper)?;
    read_rest(alloc, keeper, maps)
}

/// The same, but for the cards of the books and their changes: each book has none, and the number 0. No card is read.
///
/// What a policy makes of an Office, and who belongs to whom, is told without cards (`adopting_needs_no_cards`).
///
/// # Errors
///
/// `Memory` where memory was refused, `Store` where the store failed.
pub fn copy_without_cards<K: Keeper>(alloc: Global, keeper: &mut K) -> Result<Office, StoreFault>
    ensures { Reads (K.standing keeper.old) (K.standing keeper.new) result
        (λ o copied. copied ≡ bare o) }
{
    let maps = read_bare_maps(alloc, keeper)?;
    read_rest(alloc, keeper, maps)
}
