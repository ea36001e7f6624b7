//! Paths of resources.

ghost use Rattle.std.specs.Prelude.{◌≡◌, ◌≢◌, ◌<◌, ◌++◌, ℕ, List, IfOk, IfErr, IfSome, IfNone, IsSomeAnd, OnOk, codes, length, string_bytes};
ghost use Rattle.book_lists.specs.Names.{IsName};
ghost use Rattle.book_lists.specs.Principals.{Spells, EndsPlain};
ghost use Rattle.book_office_values.specs.declared.paths.PathFault.TheVariants.{BadPath};
ghost use Rattle.book_office_values.specs.Paths.{IsPath, SpellsPath, SpellsNone, book_path, card_path, path_text, parent_of, kind_of, levels};

use crate::collections::Items;
use book_lists::Name;
use std::alloc::{AllocError, AllocFailed, Global};

/// The path of a resource of the office (own profile). Each name is a `Name`.
#[derive(Clone, Debug, PartialEq, Eq, Drop)]
pub enum Path {
    /// The root, `/`.
    Root,
    /// The home of the persons, `/people`.
    People,
    /// The home of the groups, `/groups`.
    Groups,
    /// The home of the books, `/books`.
    Books,
    /// A person, `/people/NAME`.
    Person(Name),
    /// A group, `/groups/NAME`.
    Group(Name),
    /// A book, `/books/BOOK`.
    Book(Name),
    /// A card of a book, `/books/BOOK/CARD`.
    Card(Name, Name),
}

/// Why a text is not read as a path.
#[derive(Clone, Copy, Debug, PartialEq, Eq, Drop)]
pub enum PathFault {
    /// The text spells no path.
    BadPath,
    /// Memory was refused.
    Memory,
}

impl From<AllocError> for PathFault {
    ghost use Rattle.std.specs.Prelude.{◌≡◌};
    ghost use Rattle.book_office_values.specs.declared.paths.PathFault.TheVariants.{Memory};

    ghost from_gives = { λ _ e. e ≡ Memory };

    fn from(_error: AllocError) -> PathFault {
        PathFault::Memory
    }
}

/// What kind of resource a path may have.
#[derive(Clone, Copy, Debug, PartialEq, Eq)]
pub enum Kind {
    /// The root.
    Root,
    /// The home of the persons, of the groups or of the books.
    Home,
    /// A person.
    Person,
    /// A group.
    Group,
    /// A book.
    Book,
    /// A card.
    Card,
}

/// The name that the text is.
fn name(alloc: Global, text: &str) -> Result<Name, PathFault>
    ensures found { IfOk result (λ name. IsName name × (name ≡ text.now)) }
    ensures bad { IfErr result (λ fault. fault ≡ BadPath → IsName text.now → ⊥) }
{
    Name::parse(alloc, text)?.ok_or(PathFault::BadPath)
}

/// The text after the slash at its front, if there is one.
fn after_slash(text: &str) -> Option<&str>
    ensures some { IfSome result (λ rest. text.now ≡ codes "/" ++ rest.now) }
    ensures none { IfNone result ((rest : List ℕ) → text.now ≢ codes "/" ++ rest) }
{
    text.strip_prefix("/")
}

/// The text without a slash at its end.
fn without_slash(text: &str) -> &str
    ensures spelled { Spells text.now result.now }
    ensures only { (name : List ℕ) → EndsPlain name → Spells text.now name → name ≡ result.now }
{
    text.strip_suffix('/').unwrap_or(text)
}

/// The name that stands after a slash, and before one more if the text ends so.
fn member(alloc: Global, text: &str) -> Result<Name, PathFault>
    ensures found { IfOk result (λ name. IsName name × Spells text.now (codes "/" ++ name)) }
    ensures bad { IfErr result (λ fault. fault ≡ BadPath
        → (name : List ℕ) → IsName name → Spells text.now (codes "/" ++ name) → ⊥) }
{
    let Some(rest) = after_slash(text) else {
        return Err(PathFault::BadPath);
    };
    name(alloc, without_slash(rest))
}

/// The path with this text after `/people`.
fn in_people(alloc: Global, rest: &str) -> Result<Path, PathFault>
    ensures found { IfOk result (λ path. IsPath path
        × SpellsPath (codes "/people" ++ rest.now) path) }
    ensures bad { IfErr result (λ fault. fault ≡ BadPath
        → SpellsNone (codes "/people" ++ rest.now)) }
{
    match rest {
        "" | "/" => Ok(Path::People),
        _ => Ok(Path::Person(member(alloc, rest)?)),
    }
}

/// The path with this text after `/groups`.
fn in_groups(alloc: Global, rest: &str) -> Result<Path, PathFault>
    ensures found { IfOk result (λ path. IsPath path
        × SpellsPath (codes "/groups" ++ rest.now) path) }
    ensures bad { IfErr result (λ fault. fault ≡ BadPath
        → SpellsNone (codes "/groups" ++ rest.now)) }
{
    match rest {
        "" | "/" => Ok(Path::Groups),
        _ => Ok(Path::Group(member(alloc, rest)?)),
    }
}

/// The names of a book and a card, or what stands in their places: the texts before and after the second slash of a
/// text that begins with one, where text follows it.
fn book_and_card(rest: &str) -> Option<(&str, &str)>
    ensures some { IfSome result (λ parts.
        (rest.now ≡ codes "/" ++ parts.0.now ++ codes "/" ++ parts.1.now)
        × (0 < length parts.1.now)) }
    ensures only { (book card : List ℕ) → IsName book → IsName card
        → rest.now ≡ codes "/" ++ book ++ codes "/" ++ card
        → IsSomeAnd result (λ parts. (parts.0.now ≡ book) × (parts.1.now ≡ card)) }
{
    let (book, card) = after_slash(rest)?.split_once('/')?;
    if card.is_empty() {
        return None;
    }
    Some((book, card))
}

/// The path with this text after `/books`.
fn in_books(alloc: Global, rest: &str) -> Result<Path, PathFault>
    ensures found { IfOk result (λ path. IsPath path
        × SpellsPath (codes "/books" ++ rest.now) path) }
    ensures bad { IfErr result (λ fault. fault ≡ BadPath
        → SpellsNone (codes "/books" ++ rest.now)) }
{
    match rest {
        "" | "/" => Ok(Path::Books),
        _ => match book_and_card(rest) {
            Some((book, card)) => Ok(Path::Card(name(alloc, book)?, name(alloc, card)?)),
            None => Ok(Path::Book(member(alloc, rest)?)),
        },
    }
}

/// Adds two texts at the end of a string.
fn push_both(text: &mut String, first: &str, last: &str) -> Result<(), AllocError>
    ensures { OnOk result (string_bytes text.new ≡ string_bytes text.old ++ first.now ++ last.now) }
{
    text.push_str(first)?;
    text.push_str(last)
}

/// Adds the path of the book with a name at the end of a string. Takes no memory where the string has the room. An
/// error is want of memory.
pub fn push_book_path(text: &mut String, book: &Name) -> Result<(), AllocError>
    ensures { OnOk result (string_bytes text.new ≡ string_bytes text.old ++ book_path book.now) }
{
    push_both(text, "/books/", book.text())
}

/// Adds the path of the card with a name in a book at the end of a string. Takes no memory where the string has the
/// room. An error is want of memory.
pub fn push_card_path(text: &mut String, book: &Name, card: &Name) -> Result<(), AllocError>
    ensures { OnOk result (string_bytes text.new ≡
        string_bytes text.old ++ card_path book.now card.now) }
{
    push_book_path(text, book)?;
    push_both(text, "/", card.text())
}

impl Path {
    /// The path that the text spells: `/`, `/people`, `/groups`, `/books`, `/people/NAME`, `/groups/NAME`, `/books/BOOK`
    /// or `/books/BOOK/CARD`; one slash at the end of a path of one or two names is dropped.
    ///
    /// # Errors
    ///
    /// `BadPath` where the text spells no path. `Memory` where memory is refused, in place of any other answer.
    pub fn parse(alloc: Global, text: &str) -> Result<Path, PathFault>
        ensures found { IfOk result (λ path. IsPath path × SpellsPath text.now path) }
        ensures bad { IfErr result (λ fault. fault ≡ BadPath → SpellsNone text.now) }
    {
        if text == "/" {
            return Ok(Path::Root);
        }
        if let Some(rest) = text.strip_prefix("/people") {
            return in_people(alloc, rest);
        }
        if let Some(rest) = text.strip_prefix("/groups") {
            return in_groups(alloc, rest);
        }
        if let Some(rest) = text.strip_prefix("/books") {
            return in_books(alloc, rest);
        }
        Err(PathFault::BadPath)
    }

    /// The text of the path, which has no slash at its end but for the root. An error is want of memory.
    pub fn text(&self, alloc: Global) -> Result<String, AllocError>
        ensures { IfOk result (λ text. string_bytes text ≡ path_text self.now) }
    {
        let mut text = String::new(alloc);
        self.push_text(&mut text)?;
        Ok(text)
    }

    /// Adds the text of the path at the end of a string. Takes no memory where the string has the room. An error is
    /// want of memory.
    pub fn push_text(&self, text: &mut String) -> Result<(), AllocError>
        ensures { OnOk result (string_bytes text.new ≡
            string_bytes text.old ++ path_text self.now) }
    {
        match self {
            Path::Root => text.push_str("/"),
            Path::People => text.push_str("/people"),
            Path::Groups => text.push_str("/groups"),
            Path::Books => text.push_str("/books"),
            Path::Person(name) => push_both(text, "/people/", name.text()),
            Path::Group(name) => push_both(text, "/groups/", name.text()),
            Path::Book(book) => push_book_path(text, book),
            Path::Card(book, card) => push_card_path(text, book, card),
        }
    }

    /// The path above this one: none for the root, the root for a home, the home for a person, a group or a book, and
    /// for a card its book. An error is want of memory, which a card's book alone takes.
    pub fn parent(&self) -> Result<Option<Path>, AllocError>
        ensures { IfOk result (λ parent. parent ≡ parent_of self.now) }
    {
        Ok(match self {
            Path::Root => None,
            Path::People | Path::Groups | Path::Books => Some(Path::Root),
            Path::Person(_) => Some(Path::People),
            Path::Group(_) => Some(Path::Groups),
            Path::Book(_) => Some(Path::Books),
            Path::Card(book, _) => Some(Path::Book(book.clone()?)),
        })
    }

    /// This path, the path above it, and so on up to the root. An error is want of memory.
    pub fn levels(&self, alloc: Global) -> Result<Items<Path>, AllocError>
        ensures { IfOk result (λ paths. paths ≡ levels self.now) }
    {
        let mut paths = Vec::with_capacity(alloc, 4)?;
        paths.push(self.clone()?)?;
        match self {
            Path::Root => {}
            Path::People | Path::Groups | Path::Books => paths.push(Path::Root)?,
            Path::Person(_) => {
                paths.push(Path::People)?;
                paths.push(Path::Root)?;
            }
            Path::Group(_) => {
                paths.push(Path::Groups)?;
                paths.push(Path::Root)?;
            }
            Path::Book(_) => {
                paths.push(Path::Books)?;
                paths.push(Path::Root)?;
            }
            Path::Card(book, _) => {
                paths.push(Path::Book(book.clone()?))?;
                paths.push(Path::Books)?;
                paths.push(Path::Root)?;
            }
        }
        Ok(Items::from_vec(paths))
    }

    /// The kind of the resource at this path, if there is one.
    pub fn kind(&self) -> Kind
        ensures { result ≡ kind_of self.now }
    {
        match self {
            Path::Root => Kind::Root,
            Path::People | Path::Groups | Path::Books => Kind::Home,
            Path::Person(_) => Kind::Person,
            Path::Group(_) => Kind::Group,
            Path::Book(_) => Kind::Book,
            Path::Card(_, _) => Kind::Card,
        }
    }

    /// Hands out the rule that each path meets: its names are names.
    pub fn known(&self)
        ensures { IsPath self.now }
    {
        match self {
            Path::Root | Path::People | Path::Groups | Path::Books => {}
            Path::Person(name) | Path::Group(name) | Path::Book(name) => name.known(),
            Path::Card(book, name) => {
                book.known();
                name.known();
            }
        }
    }
}
