//! What an Office in memory has.

ghost use Rattle.std.specs.Prelude.{◌≡◌, [], filter, IfOk, is_some, option_map, unwrap_or, Some};
ghost use Rattle.std.specs.FinMap.{entries, get};
ghost use Rattle.std.specs.Option.{option_copied};
ghost use Rattle.book_lists.specs.Names.{IsName};
ghost use Rattle.book_office_values.specs.Changes.{Change, changes_after, first_of};
ghost use Rattle.book_office.specs.Levels.{level_at, lists_at, own_at, protected_at};
ghost use Rattle.book_office.specs.Resources.{cards_after, changed_after, changed_in, book_resource, card_at, card_in, card_resource, children_at, count_at, as_listed, listed_books, listed_cards, listed_home, listed_homes, listed_principals, node_at, node_of, number_of, properties_at, properties_resource, unnumbered};
ghost use Rattle.book_office_values.specs.declared.paths.Kind.TheVariants as kind;

use crate::nodes::{Changed, Level, Listed, Lists, Node};
use book_lists::{Entry, Name};
use book_office_values::{Book, Items, Kind, NameMap, Office, Path, Properties, StoredCard};
use std::alloc::{AllocError, Global};

/// The node of a resource other than a card.
fn properties_node(properties: &Properties, kind: Kind, number: u64) -> Result<Node, AllocError>
    ensures { IfOk result (λ node. node ≡ node_of
        (properties_resource kind number properties.now)) }
{
    let owner = properties.owner.clone()?;
    let label = properties.label.clone()?;
    Ok(Node {
        kind,
        owner,
        label,
        text: None,
        number,
    })
}

/// The node of a book.
fn book_node(book: &Book) -> Result<Node, AllocError>
    ensures { IfOk result (λ node. node ≡ node_of (book_resource book.now)) }
{
    properties_node(&book.properties, Kind::Book, book.changes.number())
}

/// The node of a card.
fn card_node(card: &StoredCard, number: u64) -> Result<Node, AllocError>
    ensures { IfOk result (λ node. node ≡ node_of (card_resource number card.now)) }
{
    let owner = card.owner.clone()?;
    let label = card.label.clone()?;
    let text = card.text.clone()?;
    Ok(Node {
        kind: Kind::Card,
        owner,
        label,
        text: Some(text),
        number,
    })
}

/// The number of a name's last change, 0 if it never changed.
fn number_in(book: &Book, name: &Name) -> u64
    ensures { result ≡ number_of book.now name.now }
{
    book.changes.get(name).unwrap_or(0)
}

/// The node of the card of a name, if there is one.
fn find_card(book: &Book, name: &Name) -> Result<Option<Node>, AllocError>
    ensures { IfOk result (λ node. node ≡ option_map node_of (card_in book.now name.now)) }
{
    match book.cards.get(name) {
        Some(card) => Ok(Some(card_node(card, number_in(book, name))?)),
        None => Ok(None),
    }
}

/// The node of a person or a group, if there is one.
fn find_principal(
    principals: &NameMap<Properties>,
    name: &Name,
    kind: Kind,
) -> Result<Option<Node>, AllocError>
    ensures { IfOk result (λ node. node ≡ option_map
        (λ properties. node_of (properties_resource kind 0 properties))
        (get principals.now name.now)) }
{
    match principals.get(name) {
        Some(properties) => Ok(Some(properties_node(properties, kind, 0)?)),
        None => Ok(None),
    }
}

/// A resource other than a card in a listing.
fn listed_properties(
    name: &Name,
    properties: &Properties,
    kind: Kind,
    number: u64,
) -> Result<Listed, AllocError>
    ensures { IfOk result (λ child. child ≡ as_listed name.now
        (properties_resource kind number properties.now)) }
{
    let name = name.clone()?;
    let label = properties.label.clone()?;
    let protected = properties.protected.clone()?;
    let own = properties.own.clone()?;
    let owner = properties.owner.clone()?;
    Ok(Listed {
        name,
        kind,
        owner,
        label,
        number,
        protected,
        own,
    })
}

/// A book in a listing.
fn listed_book(name: &Name, book: &Book) -> Result<Listed, AllocError>
    ensures { IfOk result (λ child. child ≡ as_listed name.now (book_resource book.now)) }
{
    listed_properties(name, &book.properties, Kind::Book, book.changes.number())
}

/// A card in a listing.
fn listed_card(
    alloc: Global,
    name: &Name,
    card: &StoredCard,
    number: u64,
) -> Result<Listed, AllocError>
    ensures { IfOk result (λ child. child ≡ as_listed name.now (card_resource number card.now)) }
{
    Ok(Listed {
        name: name.clone()?,
        kind: Kind::Card,
        owner: card.owner.clone()?,
        label: card.label.clone()?,
        number,
        protected: Items::new(alloc),
        own: card.own.clone()?,
    })
}

/// The persons or the groups, in byte order of their names.
fn list_principals(
    alloc: Global,
    principals: &NameMap<Properties>,
    kind: Kind,
) -> Result<Items<Listed>, AllocError>
    ensures { IfOk result (λ children. children ≡ listed_principals kind (entries principals.now)) }
{
    let mut children = Vec::with_capacity(alloc, principals.len())?;
    for (name, properties) in principals.iter() {
        children.push(listed_properties(name, properties, kind, 0)?)?;
    }
    Ok(Items::from_vec(children))
}

/// The books, in byte order of their names.
fn list_books(alloc: Global, books: &NameMap<Book>) -> Result<Items<Listed>, AllocError>
    ensures { IfOk result (λ children. children ≡ listed_books (entries books.now)) }
{
    let mut children = Vec::with_capacity(alloc, books.len())?;
    for (name, book) in books.iter() {
        children.push(listed_book(name, book)?)?;
    }
    Ok(Items::from_vec(children))
}

/// The cards of a book, in byte order of their names.
fn list_cards(alloc: Global, book: &Book) -> Result<Items<Listed>, AllocError>
    ensures { IfOk result (λ children. children ≡ listed_cards book.now) }
{
    let mut children = Vec::with_capacity(alloc, book.cards.len())?;
    for (name, card) in book.cards.iter() {
        children.push(listed_card(alloc, name, card, number_in(book, name))?)?;
    }
    Ok(Items::from_vec(children))
}

/// One home among the children of the root.
fn list_home(alloc: Global, name: &str, home: &Properties) -> Result<Listed, AllocError>
    requires { IsName name.now }
    ensures { IfOk result (λ child. child ≡ listed_home name.now home.now) }
{
    let name = Name::parse(alloc, name)?.ok_or(AllocError)?;
    listed_properties(&name, home, Kind::Home, 0)
}

/// A copy of the list, or an empty one where there is none.
fn copied(alloc: Global, list: Option<&Items<Entry>>) -> Result<Items<Entry>, AllocError>
    ensures { IfOk result (λ copy. copy ≡ unwrap_or (option_copied list.entry) []) }
{
    match list {
        Some(list) => list.clone(),
        None => Ok(Items::new(alloc)),
    }
}

/// What is kept at a path, if the path is mapped and is no card's.
fn properties_of<'a>(office: &'a Office, path: &Path) -> Option<&'a Properties>
    ensures { option_copied result ≡ properties_at office.now path.now }
{
    match path {
        Path::Root => Some(&office.root),
        Path::People => Some(&office.people),
        Path::Groups => Some(&office.groups_home),
        Path::Books => Some(&office.books_home),
        Path::Person(name) => office.persons.get(name),
        Path::Group(name) => office.groups.get(name),
        Path::Book(name) => office.books.get(name).map(|book| &book.properties),
        Path::Card(_, _) => None,
    }
}

/// The card of a name in a book, if there is one.
fn card_of<'a>(office: &'a Office, book: &Name, name: &Name) -> Option<&'a StoredCard>
    ensures { option_copied result ≡ card_at office.now book.now name.now }
{
    match office.books.get(book) {
        Some(book) => book.cards.get(name),
        None => None,
    }
}

/// The node of the root or of a home.
fn find_home(properties: &Properties, kind: Kind) -> Result<Option<Node>, AllocError>
    ensures { IfOk result (λ node. node ≡ Some (node_of
        (properties_resource kind 0 properties.now))) }
{
    Ok(Some(properties_node(properties, kind, 0)?))
}

/// The node of the book of a name, if there is one.
fn find_book(books: &NameMap<Book>, name: &Name) -> Result<Option<Node>, AllocError>
    ensures { IfOk result (λ node. node ≡ option_map (λ book. node_of (book_resource book))
        (get books.now name.now)) }
{
    match books.get(name) {
        Some(book) => Ok(Some(book_node(book)?)),
        None => Ok(None),
    }
}

/// The resource at a path.
pub(crate) fn find(office: &Office, path: &Path) -> Result<Option<Node>, AllocError>
    ensures { IfOk result (λ node. node ≡ node_at office.now path.now) }
{
    match path {
        Path::Root => find_home(&office.root, Kind::Root),
        Path::People => find_home(&office.people, Kind::Home),
        Path::Groups => find_home(&office.groups_home, Kind::Home),
        Path::Books => find_home(&office.books_home, Kind::Home),
        Path::Person(name) => find_principal(&office.persons, name, Kind::Person),
        Path::Group(name) => find_principal(&office.groups, name, Kind::Group),
        Path::Book(name) => find_book(&office.books, name),
        Path::Card(book, name) => match office.books.get(book) {
            Some(book) => find_card(book, name),
            None => Ok(None),
        },
    }
}

/// The resource at a path without its number. A card's number is not looked up.
pub(crate) fn find_unnumbered(office: &Office, path: &Path) -> Result<Option<Node>, AllocError>
    ensures { IfOk result (λ node. node ≡ option_map unnumbered (node_at office.now path.now)) }
{
    if let Path::Card(book, name) = path {
        return match card_of(office, book, name) {
            Some(card) => Ok(Some(card_node(card, 0)?)),
            None => Ok(None),
        };
    }
    match find(office, path)? {
        Some(node) => Ok(Some(node.unnumbered())),
        None => Ok(None),
    }
}

/// Whether a resource is mapped at a path.
pub(crate) fn has(office: &Office, path: &Path) -> bool
    ensures { result ≡ is_some (node_at office.now path.now) }
{
    match path {
        Path::Root | Path::People | Path::Groups | Path::Books => true,
        Path::Person(name) => office.persons.get(name).is_some(),
        Path::Group(name) => office.groups.get(name).is_some(),
        Path::Book(name) => office.books.get(name).is_some(),
        Path::Card(book, name) => card_of(office, book, name).is_some(),
    }
}

/// How many children of a path are mapped.
pub(crate) fn count(office: &Office, path: &Path) -> usize
    ensures { result ≡ count_at office.now path.now }
{
    match path {
        Path::Root => 3,
        Path::People => office.persons.len(),
        Path::Groups => office.groups.len(),
        Path::Books => office.books.len(),
        Path::Book(name) => match office.books.get(name) {
            Some(book) => book.cards.len(),
            None => 0,
        },
        Path::Person(_) | Path::Group(_) | Path::Card(_, _) => 0,
    }
}

/// The homes, in byte order of their names.
fn list_homes(alloc: Global, office: &Office) -> Result<Items<Listed>, AllocError>
    ensures { IfOk result (λ children. children ≡ listed_homes office.now) }
{
    let mut children = Vec::with_capacity(alloc, 3)?;
    children.push(list_home(alloc, "books", &office.books_home)?)?;
    children.push(list_home(alloc, "groups", &office.groups_home)?)?;
    children.push(list_home(alloc, "people", &office.people)?)?;
    Ok(Items::from_vec(children))
}

/// A copy of a card.
fn copy_of(card: &StoredCard) -> Result<StoredCard, AllocError>
    ensures { IfOk result (λ copy. copy ≡ card.now) }
{
    Ok(StoredCard {
        owner: card.owner.clone()?,
        label: card.label.clone()?,
        own: card.own.clone()?,
        text: card.text.clone()?,
    })
}

/// A copy of the card of a name, if there is one.
fn card_copy(book: &Book, name: &Name) -> Result<Option<StoredCard>, AllocError>
    ensures { IfOk result (λ card. card ≡ get book.now.cards name.now) }
{
    match book.cards.get(name) {
        Some(card) => Ok(Some(copy_of(card)?)),
        None => Ok(None),
    }
}

/// A change, with the card that has the name.
fn changed_name(book: &Book, number: u64, name: Name) -> Result<Changed, AllocError>
    ensures { IfOk result (λ change. change ≡
        record { number = number; name = name; card = get book.now.cards name }) }
{
    let card = card_copy(book, &name)?;
    Ok(Changed { number, name, card })
}

/// Changes, each with the card that has the name.
fn with_cards(
    alloc: Global,
    book: &Book,
    changes: Items<(u64, Name)>,
) -> Result<Items<Changed>, AllocError>
    ensures { IfOk result (λ told. told ≡ changed_in book.now changes) }
{
    let changes = changes.into_vec();
    let mut told = Vec::with_capacity(alloc, changes.len())?;
    for (number, name) in changes {
        told.push(changed_name(book, number, name)?)?;
    }
    Ok(Items::from_vec(told))
}

/// The last changes of a book above a number, in order of number, and at most so many: a step for each that is told.
/// Cards are copied of those that are told.
fn changes_of(
    alloc: Global,
    book: &Book,
    number: u64,
    at_most: Option<u32>,
) -> Result<Items<Changed>, AllocError>
    ensures { IfOk result (λ changes. changes ≡ changed_in book.now
        (first_of at_most (changes_after book.now.changes.last number))) }
{
    let after = book.changes.after(alloc, number, at_most)?;
    with_cards(alloc, book, after)
}

/// Of these changes those of names that have a card, at the cost that `Book::card_changes_after` states. Cards are
/// copied of those that are told.
fn cards_of(
    alloc: Global,
    book: &Book,
    number: u64,
    at_most: Option<u32>,
) -> Result<Items<Changed>, AllocError>
    ensures { IfOk result (λ changes. changes ≡ changed_in book.now
        (first_of at_most (filter (λ (c : Change). is_some (get book.now.cards c.1))
        (changes_after book.now.changes.last number)))) }
{
    let after = book.card_changes_after(alloc, number, at_most)?;
    with_cards(alloc, book, after)
}

/// The same of the book of a name; none where there is no such book.
pub(crate) fn changed(
    alloc: Global,
    office: &Office,
    book: &Name,
    number: u64,
    at_most: Option<u32>,
) -> Result<Items<Changed>, AllocError>
    ensures { IfOk result (λ changes. changes ≡ first_of at_most
        (changed_after office.now book.now number)) }
{
    match office.books.get(book) {
        Some(book) => changes_of(alloc, book, number, at_most),
        None => Ok(Items::new(alloc)),
    }
}

/// Of these changes those of names that have a card.
pub(crate) fn changed_cards(
    alloc: Global,
    office: &Office,
    book: &Name,
    number: u64,
    at_most: Option<u32>,
) -> Result<Items<Changed>, AllocError>
    ensures { IfOk result (λ changes. changes ≡ first_of at_most
        (cards_after office.now book.now number)) }
{
    match office.books.get(book) {
        Some(book) => cards_of(alloc, book, number, at_most),
        None => Ok(Items::new(alloc)),
    }
}

/// The children of a resource, in byte order of their names.
pub(crate) fn children(
    alloc: Global,
    office: &Office,
    path: &Path,
) -> Result<Items<Listed>, AllocError>
    ensures { IfOk result (λ children. children ≡ children_at office.now path.now) }
{
    match path {
        Path::Root => list_homes(alloc, office),
        Path::People => list_principals(alloc, &office.persons, Kind::Person),
        Path::Groups => list_principals(alloc, &office.groups, Kind::Group),
        Path::Books => list_books(alloc, &office.books),
        Path::Book(name) => match office.books.get(name) {
            Some(book) => list_cards(alloc, book),
            None => Ok(Items::new(alloc)),
        },
        Path::Person(_) | Path::Group(_) | Path::Card(_, _) => Ok(Items::new(alloc)),
    }
}

/// The protected list that stands at a path.
pub(crate) fn protected_list<'a>(office: &'a Office, path: &Path) -> Option<&'a Items<Entry>>
    ensures { unwrap_or (option_copied result) [] ≡ protected_at office.now path.now }
{
    match properties_of(office, path) {
        Some(properties) => Some(&properties.protected),
        None => None,
    }
}

/// The own list that stands at a path.
pub(crate) fn own_list<'a>(office: &'a Office, path: &Path) -> Option<&'a Items<Entry>>
    ensures { unwrap_or (option_copied result) [] ≡ own_at office.now path.now }
{
    if let Path::Card(book, name) = path {
        return match card_of(office, book, name) {
            Some(card) => Some(&card.own),
            None => None,
        };
    }
    match properties_of(office, path) {
        Some(properties) => Some(&properties.own),
        None => None,
    }
}

/// The lists at a path, empty where it is not mapped.
fn level_of(alloc: Global, office: &Office, path: Path) -> Result<Level, AllocError>
    ensures { IfOk result (λ level. level ≡ level_at office.now path) }
{
    let protected = copied(alloc, protected_list(office, &path))?;
    let own = copied(alloc, own_list(office, &path))?;
    Ok(Level {
        path,
        protected,
        own,
    })
}

/// The lists that stand at a path.
pub(crate) fn level(alloc: Global, office: &Office, path: &Path) -> Result<Level, AllocError>
    ensures { IfOk result (λ level. level ≡ level_at office.now path.now) }
{
    level_of(alloc, office, path.clone()?)
}

/// The lists of the resource at a path, and of each ancestor.
pub(crate) fn lists(alloc: Global, office: &Office, path: &Path) -> Result<Lists, AllocError>
    ensures { IfOk result (λ lists. lists ≡ lists_at office.now path.now) }
{
    let paths = path.levels(alloc)?.into_vec();
    let mut levels = Vec::with_capacity(alloc, paths.len())?;
    for path in paths {
        levels.push(level_of(alloc, office, path)?)?;
    }
    Ok(Lists {
        levels: Items::from_vec(levels),
    })
}
