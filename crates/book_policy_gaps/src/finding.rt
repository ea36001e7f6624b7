//! The facts of what a keeper has.

ghost use Rattle.std.specs.Prelude.{◌≡◌, ◌++◌, map, IfOk, OnOk};
ghost use Rattle.book_office.specs.Keeping.{Reads};
ghost use Rattle.book_office_values.specs.Paths.{parent_of};
ghost use Rattle.book_policy_gaps.specs.Gaps.{is_closed_above, is_closed_at, judged_at, judged_of};
ghost use Rattle.book_policy_gaps.specs.Finding.{AreGaps, IsFound, book_paths, books_all, gaps_by, gaps_in, group_paths, home_paths, homes_of, judged_all, paths_among, person_paths};

use crate::askers::{Everybody, everybody_of};
use crate::far::push_far;
use crate::gaps::{Gap, Judged, is_closed, push_plain};
use crate::places::{Place, place_at, place_each};
use book_office::{Keeper, Listed, StoreFault};
use book_office_values::{Items, Path};
use std::alloc::{AllocError, Global};

/// What is listed in the homes, in byte order of the names.
#[derive(Debug, Drop)]
pub(crate) struct Homes {
    pub(crate) persons: Items<Listed>,
    pub(crate) groups: Items<Listed>,
    pub(crate) books: Items<Listed>,
}

/// What the facts are told of.
#[derive(Debug, Drop)]
pub(crate) struct Found {
    pub(crate) everybody: Everybody,
    /// The resources that are no cards.
    pub(crate) judged: Items<Judged>,
    /// The home of the books.
    pub(crate) home: Place,
    pub(crate) books: Items<Place>,
}

/// Adds the path of each of these persons.
fn push_persons(paths: &mut Vec<Path>, persons: &[Listed]) -> Result<(), AllocError>
    ensures { OnOk result (paths.new.items ≡ paths.old.items ++ person_paths persons.now) }
{
    for person in persons {
        paths.push(Path::Person(person.name.clone()?))?;
    }
    Ok(())
}

/// Adds the path of each of these groups.
fn push_groups(paths: &mut Vec<Path>, groups: &[Listed]) -> Result<(), AllocError>
    ensures { OnOk result (paths.new.items ≡ paths.old.items ++ group_paths groups.now) }
{
    for group in groups {
        paths.push(Path::Group(group.name.clone()?))?;
    }
    Ok(())
}

/// Adds the path of each of these books.
fn push_books(paths: &mut Vec<Path>, books: &[Listed]) -> Result<(), AllocError>
    ensures { OnOk result (paths.new.items ≡ paths.old.items ++ book_paths books.now) }
{
    for book in books {
        paths.push(Path::Book(book.name.clone()?))?;
    }
    Ok(())
}

/// Adds the paths of the root and of the homes.
fn push_homes(paths: &mut Vec<Path>) -> Result<(), AllocError>
    ensures { OnOk result (paths.new.items ≡ paths.old.items ++ home_paths) }
{
    paths.push(Path::Root)?;
    paths.push(Path::People)?;
    paths.push(Path::Groups)?;
    paths.push(Path::Books)?;
    Ok(())
}

/// The paths of the resources that are no cards.
fn paths_among(
    alloc: Global,
    persons: &[Listed],
    groups: &[Listed],
    books: &[Listed],
) -> Result<Items<Path>, AllocError>
    ensures { IfOk result (λ paths. paths ≡ paths_among persons.now groups.now books.now) }
{
    let mut paths = Vec::new(alloc);
    push_homes(&mut paths)?;
    push_persons(&mut paths, persons)?;
    push_groups(&mut paths, groups)?;
    push_books(&mut paths, books)?;
    Ok(Items::from_vec(paths))
}

/// The paths of these books.
fn paths_of_books(alloc: Global, books: &[Listed]) -> Result<Items<Path>, AllocError>
    ensures { IfOk result (λ paths. paths ≡ book_paths books.now) }
{
    let mut paths = Vec::new(alloc);
    push_books(&mut paths, books)?;
    Ok(Items::from_vec(paths))
}

/// Whether nobody may change the list of a resource. The entries in force are read once for all callers.
fn is_closed_at<K: Keeper>(
    alloc: Global,
    keeper: &mut K,
    everybody: &Everybody,
    path: &Path,
) -> Result<bool, StoreFault>
    ensures { Reads (K.standing keeper.old) (K.standing keeper.new) result
        (λ o closed. closed ≡ is_closed_at o everybody.now path.now) }
{
    let place = place_at(alloc, keeper, path)?;
    Ok(is_closed(everybody, &place))
}

/// The same of what is above a resource; nothing is above the root.
fn is_closed_above<K: Keeper>(
    alloc: Global,
    keeper: &mut K,
    everybody: &Everybody,
    path: &Path,
) -> Result<bool, StoreFault>
    ensures { Reads (K.standing keeper.old) (K.standing keeper.new) result
        (λ o closed. closed ≡ is_closed_above o everybody.now (parent_of path.now)) }
{
    match path {
        Path::Root => Ok(false),
        Path::People | Path::Groups | Path::Books => is_closed_at(
            alloc,
            keeper,
            everybody,
            &Path::Root,
        ),
        Path::Person(_) => is_closed_at(alloc, keeper, everybody, &Path::People),
        Path::Group(_) => is_closed_at(alloc, keeper, everybody, &Path::Groups),
        Path::Book(_) => is_closed_at(alloc, keeper, everybody, &Path::Books),
        Path::Card(book, _) => is_closed_at(alloc, keeper, everybody, &Path::Book(book.clone()?)),
    }
}

/// A resource that is closed or not, as what is above it is or is not.
fn judged_of(path: Path, closed: bool, above: bool) -> Judged
    ensures { result ≡ judged_of path closed above }
{
    Judged {
        path,
        closed: closed && !above,
    }
}

/// A resource, with whether nobody may change its list, and somebody that of what is above it.
fn judged_at<K: Keeper>(
    alloc: Global,
    keeper: &mut K,
    everybody: &Everybody,
    path: &Path,
) -> Result<Judged, StoreFault>
    ensures { Reads (K.standing keeper.old) (K.standing keeper.new) result
        (λ o judged. judged ≡ judged_at o everybody.now path.now) }
{
    let above = is_closed_above(alloc, keeper, everybody, path)?;
    let closed = is_closed_at(alloc, keeper, everybody, path)?;
    Ok(judged_of(path.clone()?, closed, above))
}

/// The same of each of these resources.
fn judged_each<K: Keeper>(
    alloc: Global,
    keeper: &mut K,
    everybody: &Everybody,
    paths: &[Path],
) -> Result<Vec<Judged>, StoreFault>
    ensures { Reads (K.standing keeper.old) (K.standing keeper.new) result
        (λ o judged. judged.items ≡ map (judged_at o everybody.now) paths.now) }
{
    let mut all = Vec::new(alloc);
    for path in paths {
        let judged = match judged_at(alloc, keeper, everybody, path) {
            Ok(judged) => judged,
            Err(fault) => return Err(fault),
        };
        if all.push(judged).is_err() {
            return Err(StoreFault::Memory);
        }
    }
    Ok(all)
}

/// What is listed in the homes.
fn homes_of<K: Keeper>(alloc: Global, keeper: &mut K) -> Result<Homes, StoreFault>
    ensures { Reads (K.standing keeper.old) (K.standing keeper.new) result
        (λ o homes. homes ≡ homes_of o) }
{
    let persons = keeper.children(alloc, &Path::People)?;
    let groups = keeper.children(alloc, &Path::Groups)?;
    let books = keeper.children(alloc, &Path::Books)?;
    Ok(Homes {
        persons,
        groups,
        books,
    })
}

/// Each resource that is no card, judged.
fn judged_all<K: Keeper>(
    alloc: Global,
    keeper: &mut K,
    everybody: &Everybody,
    homes: &Homes,
) -> Result<Items<Judged>, StoreFault>
    ensures { Reads (K.standing keeper.old) (K.standing keeper.new) result
        (λ o judged. judged ≡ judged_all o everybody.now homes.now) }
{
    let paths = paths_among(
        alloc,
        homes.persons.as_slice(),
        homes.groups.as_slice(),
        homes.books.as_slice(),
    )?;
    let judged = judged_each(alloc, keeper, everybody, paths.as_slice())?;
    Ok(Items::from_vec(judged))
}

/// Each book.
fn books_all<K: Keeper>(
    alloc: Global,
    keeper: &mut K,
    homes: &Homes,
) -> Result<Items<Place>, StoreFault>
    ensures { Reads (K.standing keeper.old) (K.standing keeper.new) result
        (λ o books. books ≡ books_all o homes.now) }
{
    let paths = paths_of_books(alloc, homes.books.as_slice())?;
    let books = place_each(alloc, keeper, paths.as_slice())?;
    Ok(Items::from_vec(books))
}

/// What the facts are told of.
fn found_of<K: Keeper>(alloc: Global, keeper: &mut K, homes: &Homes) -> Result<Found, StoreFault>
    ensures { Reads (K.standing keeper.old) (K.standing keeper.new) result
        (λ o found. IsFound o homes.now found) }
{
    let everybody = everybody_of(alloc, keeper, homes.persons.as_slice())?;
    let judged = judged_all(alloc, keeper, &everybody, homes)?;
    let books = books_all(alloc, keeper, homes)?;
    let home = place_at(alloc, keeper, &Path::Books)?;
    Ok(Found {
        everybody,
        judged,
        home,
        books,
    })
}

/// The facts, in order.
fn gaps_by(
    alloc: Global,
    groups: &[Listed],
    everybody: &Everybody,
    judged: &[Judged],
    home: &Place,
    books: &[Place],
) -> Result<Items<Gap>, AllocError>
    ensures { IfOk result (λ gaps. gaps
        ≡ gaps_by groups.now everybody.now judged.now home.now books.now) }
{
    let persons = everybody.persons.as_slice();
    let mut gaps = Vec::new(alloc);
    push_plain(alloc, &mut gaps, groups, persons, judged, books)?;
    push_far(&mut gaps, everybody, home, books)?;
    Ok(Items::from_vec(gaps))
}

/// The facts.
fn gaps_in(alloc: Global, homes: &Homes, found: &Found) -> Result<Items<Gap>, AllocError>
    ensures { IfOk result (λ gaps. gaps ≡ gaps_in homes.now found.now) }
{
    gaps_by(
        alloc,
        homes.groups.as_slice(),
        &found.everybody,
        found.judged.as_slice(),
        &found.home,
        found.books.as_slice(),
    )
}

/// The plain facts that what a keeper has leaves open (own profile), each exactly where it holds, in one order:
///
/// - of each group, that no person belongs to it, by any chain;
/// - of each person, that no leaf is granted to it at any book;
/// - of the root, of each home, person, group and book, that `write-acl` is granted there to no person and not to nobody,
///   where somebody has it at what is above;
/// - of each book, that `read` is granted there to nobody who belongs to its owner, and somebody does;
/// - of each book, the first caller who reads it by an entry above it, nobody first, where no entry of its own and its
///   protected list denies `all` to all or to who does not belong to a principal;
/// - of each book, that an entry of its own list, or a protected one, grants to `owner` and no entry in force before it
///   denies so;
/// - of each person who may read `/books`, the first book that they read by an entry above it.
///
/// Names are in byte order. Nothing changes.
///
/// # Errors
///
/// `Memory` where memory was refused, `Store` where the store failed.
///
/// The entries in force at each resource are read once, at the home of the books and at a book twice. For each person they
/// are gone over once at a resource, until one may change its list, and at a book a few times more.
pub fn gaps_of<K: Keeper>(alloc: Global, keeper: &mut K) -> Result<Items<Gap>, StoreFault>
    ensures { Reads (K.standing keeper.old) (K.standing keeper.new) result AreGaps }
{
    let homes = homes_of(alloc, keeper)?;
    let found = found_of(alloc, keeper, &homes)?;
    let gaps = gaps_in(alloc, &homes, &found);
    drop(found);
    drop(homes);
    match gaps {
        Ok(gaps) => Ok(gaps),
        Err(_) => Err(StoreFault::Memory),
    }
}
