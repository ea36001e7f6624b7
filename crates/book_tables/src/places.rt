//! Places of an Office, as listings and look-ups tell them.

ghost use Rattle.std.specs.Prelude.{◌≡◌, map, IfOk, IfSome};
ghost use Rattle.std.specs.FinMap.{empty};
ghost use Rattle.book_office_values.specs.declared.offices.Office.{Office as OfficeValue};
ghost use Rattle.book_office_values.specs.declared.paths.Path.TheVariants as path;
ghost use Rattle.book_policy_values.specs.Policies.{added};
ghost use Rattle.book_office.specs.Levels.{lists_at};
ghost use Rattle.book_office.specs.Resources.{listed_homes, node_at};
ghost use Rattle.book_tables.specs.BareOffice.{place_told, book_told, homes_of as homes_in, office_told};

use book_lists::{Name, Pairs};
use book_office::{Listed, Lists, Node};
use book_office_values::{Book, Changes, Items, NameMap, Office, Properties};
use std::alloc::{AllocError, Global};

/// The homes.
#[derive(Drop)]
pub(crate) struct Homes {
    pub(crate) people: Properties,
    pub(crate) groups: Properties,
    pub(crate) books: Properties,
}

/// The persons, the groups, and the books without cards and changes.
#[derive(Drop)]
pub(crate) struct Places {
    pub(crate) persons: NameMap<Properties>,
    pub(crate) groups: NameMap<Properties>,
    pub(crate) books: NameMap<Book>,
}

/// The name and the place of a child.
fn place_of(child: Listed) -> (Name, Properties)
    ensures { result ≡ place_told child }
{
    let Listed {
        name,
        kind: _,
        owner,
        label,
        number: _,
        protected,
        own,
    } = child;
    let place = Properties {
        owner,
        label,
        protected,
        own,
    };
    (name, place)
}

/// The persons or groups of a listing.
pub(crate) fn principals_of(
    alloc: Global,
    listed: Items<Listed>,
) -> Result<NameMap<Properties>, AllocError>
    ensures { IfOk result (λ principals. principals ≡ added empty (map place_told listed)) }
{
    let mut principals = NameMap::new(alloc);
    for child in listed.into_vec() {
        let (name, place) = place_of(child);
        drop(principals.insert(name, place)?);
    }
    Ok(principals)
}

/// The books of a listing, without cards and changes.
pub(crate) fn books_of(alloc: Global, listed: Items<Listed>) -> Result<NameMap<Book>, AllocError>
    ensures { IfOk result (λ books. books ≡ added empty (map book_told listed)) }
{
    let mut books = NameMap::new(alloc);
    for child in listed.into_vec() {
        let (name, properties) = place_of(child);
        let book = Book {
            properties,
            cards: NameMap::new(alloc),
            changes: Changes::new(alloc),
        };
        books.insert(name, book)?;
    }
    Ok(books)
}

/// The place of a home.
fn home_of(child: Listed) -> Properties
    ensures { result ≡ (place_told child).1 }
{
    place_of(child).1
}

/// The homes of the root's listing.
pub(crate) fn homes_of(listed: Items<Listed>) -> Option<Homes>
    ensures { IfSome result (λ homes. (o : OfficeValue) → listed ≡ listed_homes o
        → homes ≡ homes_in o) }
{
    let mut homes = listed.into_vec();
    let people = homes.pop()?;
    let groups = homes.pop()?;
    let books = homes.pop()?;
    Some(Homes {
        people: home_of(people),
        groups: home_of(groups),
        books: home_of(books),
    })
}

/// The root, of its resource and its lists.
pub(crate) fn root_of(node: Option<Node>, lists: Lists) -> Option<Properties>
    ensures { IfSome result (λ root. (o : OfficeValue) → node ≡ node_at o path.Root
        → lists ≡ lists_at o path.Root → root ≡ o.root) }
{
    let node = node?;
    let level = lists.levels.into_vec().pop()?;
    Some(Properties {
        owner: node.owner,
        label: node.label,
        protected: level.protected,
        own: level.own,
    })
}

/// An Office of its parts.
pub(crate) fn office_of(top: (Properties, Homes), places: Places, rest: (Pairs, u64)) -> Office
    ensures { result ≡ office_told top places rest }
{
    let (root, homes) = top;
    let (pairs, epoch) = rest;
    Office {
        root,
        people: homes.people,
        groups_home: homes.groups,
        books_home: homes.books,
        persons: places.persons,
        groups: places.groups,
        books: places.books,
        pairs,
        epoch,
    }
}
