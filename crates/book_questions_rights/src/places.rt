//! What is read of an Office: each resource that holds others or is none's card, with the cards in it.

ghost use Rattle.std.specs.Prelude.{◌≡◌, ◌++◌, ◌∷◌, [], filter, map, IfOk, OnOk};
ghost use Rattle.book_office.specs.Keeping.{Reads};
ghost use Rattle.book_office.specs.InForce.{list_in, lists_in};
ghost use Rattle.book_office.specs.declared.nodes.Listed.{Listed as Child};
ghost use Rattle.book_office_values.specs.declared.paths.Path.TheVariants as variant;
ghost use Rattle.book_questions_rights.specs.Places.{asked_below, cards_of, child_of, home_and, in_home, is_itself, is_named};
ghost use Rattle.book_questions_rights.specs.Places.{place_of, place_path, place_with, root_and};

use book_lists::{Entry, Here, Name};
use book_office::{Keeper, Level, Listed, Lists, StoreFault};
use book_office_values::{Items, Path};
use book_questions::here_at;
use std::alloc::{AllocError, Global};

/// A resource that is no card, with the entries in force there, and the cards in it that are asked about.
#[derive(Debug, Drop)]
pub struct Place {
    /// Its path.
    pub path: Path,
    /// Whether it is asked about itself, and not for a card in it alone.
    pub itself: bool,
    /// Its owner, and itself where it is a principal.
    pub here: Here,
    /// The protected entries in force there, in order.
    pub protected: Items<Entry>,
    /// The own entries in force there, in order.
    pub own: Items<Entry>,
    /// The cards, in byte order of their names.
    pub cards: Items<Listed>,
}

/// The path of a child of a home.
fn child_of(home: &Path, name: &Name) -> Result<Path, AllocError>
    ensures { IfOk result (λ child. child ≡ child_of home.now name.now) }
{
    Ok(match home {
        Path::People => Path::Person(name.clone()?),
        Path::Groups => Path::Group(name.clone()?),
        Path::Books => Path::Book(name.clone()?),
        Path::Root | Path::Person(_) | Path::Group(_) | Path::Book(_) | Path::Card(_, _) =>
            home.clone()?,
    })
}

/// Adds the path of each child of a home.
fn push_children(paths: &mut Vec<Path>, home: &Path, children: &[Listed]) -> Result<(), AllocError>
    ensures { OnOk result (paths.new.items ≡ paths.old.items ++ map
        (λ (child : Child). child_of home.now child.name) children.now) }
{
    for child in children {
        paths.push(child_of(home, &child.name)?)?;
    }
    Ok(())
}

/// A home and its children.
fn with_children(alloc: Global, home: &Path, children: &[Listed]) -> Result<Vec<Path>, AllocError>
    ensures { IfOk result (λ paths. paths.items ≡ home_and home.now children.now) }
{
    let mut paths = Vec::new(alloc);
    paths.push(home.clone()?)?;
    push_children(&mut paths, home, children)?;
    Ok(paths)
}

/// The path of a home, and those of its children.
fn read_home<K: Keeper>(alloc: Global, keeper: &mut K, home: &Path) -> Result<Vec<Path>, StoreFault>
    ensures { Reads (K.standing keeper.old) (K.standing keeper.new) result
        (λ o paths. paths.items ≡ in_home o home.now) }
{
    let children = keeper.children(alloc, home)?;
    Ok(with_children(alloc, home, children.as_slice())?)
}

/// The paths of three homes and of their children, after that of the root.
fn below_root(
    alloc: Global,
    people: Vec<Path>,
    groups: Vec<Path>,
    books: Vec<Path>,
) -> Result<Vec<Path>, AllocError>
    ensures { IfOk result (λ paths. paths.items ≡ root_and people.items groups.items books.items) }
{
    let mut people = people;
    let mut groups = groups;
    let mut books = books;
    let mut paths = Vec::new(alloc);
    paths.push(Path::Root)?;
    paths.append(&mut people)?;
    paths.append(&mut groups)?;
    paths.append(&mut books)?;
    Ok(paths)
}

/// The path of each resource but cards.
fn read_all<K: Keeper>(alloc: Global, keeper: &mut K) -> Result<Vec<Path>, StoreFault>
    ensures { Reads (K.standing keeper.old) (K.standing keeper.new) result
        (λ o paths. paths.items ≡ asked_below o variant.Root) }
{
    let people = read_home(alloc, keeper, &Path::People)?;
    let groups = read_home(alloc, keeper, &Path::Groups)?;
    let books = read_home(alloc, keeper, &Path::Books)?;
    Ok(below_root(alloc, people, groups, books)?)
}

/// A path alone.
fn alone(alloc: Global, path: &Path) -> Result<Vec<Path>, AllocError>
    ensures { IfOk result (λ paths. paths.items ≡ path.now ∷ []) }
{
    let mut paths = Vec::new(alloc);
    paths.push(path.clone()?)?;
    Ok(paths)
}

/// The paths at which something is asked about: a path, and each below it that is no card's. An error is want of memory
/// or a failure of the store.
pub fn read_below<K: Keeper>(
    alloc: Global,
    keeper: &mut K,
    at: &Path,
) -> Result<Vec<Path>, StoreFault>
    ensures { Reads (K.standing keeper.old) (K.standing keeper.new) result
        (λ o paths. paths.items ≡ asked_below o at.now) }
{
    match at {
        Path::Root => read_all(alloc, keeper),
        Path::People | Path::Groups | Path::Books => read_home(alloc, keeper, at),
        Path::Person(_) | Path::Group(_) | Path::Book(_) | Path::Card(_, _) => Ok(alone(
            alloc, at,
        )?),
    }
}

/// The protected list of a level, or its own list.
fn list_in(level: &Level, protected: bool) -> &[Entry]
    ensures { result.now ≡ list_in protected level.now }
{
    if protected {
        level.protected.as_slice()
    } else {
        level.own.as_slice()
    }
}

/// Adds copies of the entries of a list.
pub(crate) fn push_entries(entries: &mut Vec<Entry>, list: &[Entry]) -> Result<(), AllocError>
    ensures { OnOk result (entries.new.items ≡ entries.old.items ++ list.now) }
{
    for entry in list {
        entries.push(entry.clone()?)?;
    }
    Ok(())
}

/// The protected lists of levels in turn, or their own lists.
fn joined(alloc: Global, levels: &[Level], protected: bool) -> Result<Items<Entry>, AllocError>
    ensures { IfOk result (λ entries. entries ≡ lists_in protected levels.now) }
{
    let mut entries = Vec::new(alloc);
    for level in levels {
        push_entries(&mut entries, list_in(level, protected))?;
    }
    Ok(Items::from_vec(entries))
}

/// Where the lists are read: of a card at its book. An error is want of memory.
pub fn place_path(path: &Path) -> Result<Path, AllocError>
    ensures { IfOk result (λ at. at ≡ place_path path.now) }
{
    match path {
        Path::Card(book, _) => Ok(Path::Book(book.clone()?)),
        Path::Root
        | Path::People
        | Path::Groups
        | Path::Books
        | Path::Person(_)
        | Path::Group(_)
        | Path::Book(_) => Ok(path.clone()?),
    }
}

/// Whether what is asked about is no card.
pub fn is_itself(path: &Path) -> bool
    ensures { result ≡ is_itself path.now }
{
    !matches!(path, Path::Card(_, _))
}

/// Whether this is the name of the card.
fn is_named(card: &Listed, name: &Name) -> bool
    ensures { result ≡ is_named name.now card.now }
{
    card.name == *name
}

/// The card with a name, as a list.
fn named(cards: Items<Listed>, name: &Name) -> Vec<Listed>
    ensures { result.items ≡ filter (is_named name.now) cards }
{
    let mut cards = cards.into_vec();
    cards.retain(|card| is_named(card, name));
    cards
}

/// The card of a book with a name, as a list.
fn read_card<K: Keeper>(
    alloc: Global,
    keeper: &mut K,
    book: &Name,
    name: &Name,
) -> Result<Items<Listed>, StoreFault>
    ensures { Reads (K.standing keeper.old) (K.standing keeper.new) result
        (λ o cards. cards ≡ cards_of o (variant.Card book.now name.now)) }
{
    let path = Path::Book(book.clone()?);
    let cards = keeper.children(alloc, &path)?;
    Ok(Items::from_vec(named(cards, name)))
}

/// The cards that are asked about at a path: those of a book, a card alone, and none elsewhere. An error is want of memory
/// or a failure of the store.
pub fn read_cards<K: Keeper>(
    alloc: Global,
    keeper: &mut K,
    path: &Path,
) -> Result<Items<Listed>, StoreFault>
    ensures { Reads (K.standing keeper.old) (K.standing keeper.new) result
        (λ o cards. cards ≡ cards_of o path.now) }
{
    match path {
        Path::Book(_) => keeper.children(alloc, path),
        Path::Card(book, name) => read_card(alloc, keeper, book, name),
        Path::Root | Path::People | Path::Groups | Path::Books | Path::Person(_) | Path::Group(_) =>
            Ok(Items::new(alloc)),
    }
}

/// A place of what was read.
fn place_with(
    alloc: Global,
    path: &Path,
    here: Here,
    lists: &Lists,
    cards: Items<Listed>,
) -> Result<Place, AllocError>
    ensures { IfOk result (λ place. place ≡ place_with path.now here lists.now cards) }
{
    let protected = joined(alloc, lists.levels.as_slice(), true)?;
    let own = joined(alloc, lists.levels.as_slice(), false)?;
    Ok(Place {
        path: place_path(path)?,
        itself: is_itself(path),
        here,
        protected,
        own,
        cards,
    })
}

/// What is read at a path.
fn read_place<K: Keeper>(alloc: Global, keeper: &mut K, path: &Path) -> Result<Place, StoreFault>
    ensures { Reads (K.standing keeper.old) (K.standing keeper.new) result
        (λ o place. place ≡ place_of o path.now) }
{
    let at = place_path(path)?;
    let cards = read_cards(alloc, keeper, path)?;
    let lists = keeper.lists(alloc, &at)?;
    let here = here_at(alloc, keeper, &at)?;
    Ok(place_with(alloc, path, here, &lists, cards)?)
}

/// What is read at each path. An error is want of memory or a failure of the store.
pub fn read_places<K: Keeper>(
    alloc: Global,
    keeper: &mut K,
    paths: &[Path],
) -> Result<Vec<Place>, StoreFault>
    ensures { Reads (K.standing keeper.old) (K.standing keeper.new) result
        (λ o places. places.items ≡ map (place_of o) paths.now) }
{
    let mut places = Vec::new(alloc);
    for path in paths {
        let place = match read_place(alloc, keeper, path) {
            Ok(place) => place,
            Err(fault) => return Err(fault),
        };
        if places.push(place).is_err() {
            return Err(StoreFault::Memory);
        }
    }
    Ok(places)
}
