//! The places of a policy: the root, the homes, and each person, group and book.

ghost use Rattle.std.specs.Prelude.{◌≡◌, ◌++◌, IfOk, OnOk, map};
ghost use Rattle.std.specs.FinMap.{keys};
ghost use Rattle.book_office_values.specs.Paths.{is_kind, kind_of};
ghost use Rattle.book_office_values.specs.declared.paths.Kind.TheVariants as kind;
ghost use Rattle.book_policy_idle.specs.Idle.{homes, places_of, principal_of};
ghost use Rattle.book_policy_idle.specs.Marks.{here_unowned, path_in};

use crate::askers::names_of;
use book_lists::{Here, Name, Principal};
use book_office_values::{Items, Kind, NameMap, Path, Text};
use book_policy_values::{Policy, PolicyBook};
use std::alloc::{AllocError, Global};

/// The names of books, in order.
fn book_names(alloc: Global, books: &NameMap<PolicyBook>) -> Result<Items<Name>, AllocError>
    ensures { IfOk result (λ names. names ≡ keys books.now) }
{
    let mut names = Vec::with_capacity(alloc, books.len())?;
    for (name, _book) in books.iter() {
        names.push(name.clone()?)?;
    }
    Ok(Items::from_vec(names))
}

/// The path of a name in a home.
fn path_in(home: Kind, name: Name) -> Path
    ensures { result ≡ path_in home name }
{
    match home {
        Kind::Person => Path::Person(name),
        Kind::Group => Path::Group(name),
        Kind::Root | Kind::Home | Kind::Book | Kind::Card => Path::Book(name),
    }
}

/// Adds the paths of names.
fn add_paths(kind: Kind, names: &[Name], paths: &mut Items<Path>) -> Result<(), AllocError>
    ensures { OnOk result (paths.new ≡ paths.old ++ map (path_in kind) names.now) }
{
    for name in names {
        paths.push(path_in(kind, name.clone()?))?;
    }
    Ok(())
}

/// The root and the homes.
fn homes(alloc: Global) -> Result<Items<Path>, AllocError>
    ensures { IfOk result (λ paths. paths ≡ homes) }
{
    let mut paths = Vec::with_capacity(alloc, 4)?;
    paths.push(Path::Root)?;
    paths.push(Path::People)?;
    paths.push(Path::Groups)?;
    paths.push(Path::Books)?;
    Ok(Items::from_vec(paths))
}

/// Adds the paths of persons or of groups.
fn add_labelled(
    alloc: Global,
    kind: Kind,
    labels: &NameMap<Text>,
    paths: &mut Items<Path>,
) -> Result<(), AllocError>
    ensures { OnOk result (paths.new ≡ paths.old ++ map (path_in kind) (keys labels.now)) }
{
    let names = names_of(alloc, labels)?;
    add_paths(kind, names.as_slice(), paths)
}

/// Adds the paths of books.
fn add_books(
    alloc: Global,
    books: &NameMap<PolicyBook>,
    paths: &mut Items<Path>,
) -> Result<(), AllocError>
    ensures { OnOk result (paths.new ≡ paths.old ++ map (path_in kind.Book) (keys books.now)) }
{
    let names = book_names(alloc, books)?;
    add_paths(Kind::Book, names.as_slice(), paths)
}

/// The places of the policy.
pub(crate) fn places_of(alloc: Global, policy: &Policy) -> Result<Items<Path>, AllocError>
    ensures { IfOk result (λ places. places ≡ places_of policy.now) }
{
    let tables = policy.tables();
    let mut places = homes(alloc)?;
    add_labelled(alloc, Kind::Person, &tables.persons, &mut places)?;
    add_labelled(alloc, Kind::Group, &tables.groups, &mut places)?;
    add_books(alloc, &tables.books, &mut places)?;
    Ok(places)
}

/// The resource itself, where it is a principal.
fn principal_of(alloc: Global, path: &Path) -> Result<Option<Principal>, AllocError>
    ensures { IfOk result (λ principal. principal ≡ principal_of path.now) }
{
    match path {
        Path::Person(name) => Ok(Some(Principal::person(alloc, name)?)),
        Path::Group(name) => Ok(Some(Principal::group(alloc, name)?)),
        Path::Root | Path::People | Path::Groups | Path::Books | Path::Book(_) | Path::Card(_, _) =>
            Ok(None),
    }
}

/// What entries ask of a place, or of a card in it that nobody owns.
pub(crate) fn here_at(alloc: Global, path: &Path) -> Result<Here, AllocError>
    ensures { IfOk result (λ here. here ≡ here_unowned path.now) }
{
    Ok(Here {
        owner: None,
        principal: principal_of(alloc, path)?,
    })
}

/// Whether a path is a book's.
pub(crate) fn is_book(path: &Path) -> bool
    ensures { result ≡ is_kind kind.Book (kind_of path.now) }
{
    matches!(path, Path::Book(_))
}
