//! The four paths that are always mapped: the root and the three homes (own profile).

ghost use Rattle.std.specs.Prelude.{◌≡◌, IfOk};
ghost use Rattle.book_wire_targets.specs.Targets.{HasHomes, home_named, home_path};

use book_office_values::Path;
use matchit::{InsertError, Router};
use std::alloc::Global;

/// A path that is always mapped (own profile).
#[derive(Clone, Copy, Debug, PartialEq, Eq)]
pub enum Home {
    /// The root, `/`.
    Root,
    /// The home of the persons, `/people`.
    People,
    /// The home of the groups, `/groups`.
    Groups,
    /// The home of the books, `/books`.
    Books,
}

/// The router that finds the four homes by their texts, and nothing else. The routes do not conflict, so an error is
/// want of memory.
pub fn homes(alloc: Global) -> Result<Router<Home>, InsertError>
    ensures { IfOk result HasHomes }
{
    let mut router = Router::new(alloc);
    router.insert("/", Home::Root)?;
    router.insert("/people", Home::People)?;
    router.insert("/groups", Home::Groups)?;
    router.insert("/books", Home::Books)?;
    Ok(router)
}

/// The home of which this is the text. Takes no memory.
pub(crate) fn home_at(router: &Router<Home>, path: &str) -> Option<Home>
    requires { HasHomes router.now }
    ensures { result ≡ home_named path.now }
{
    match router.at(path) {
        Ok(found) => Some(*found.value),
        Err(_) => None,
    }
}

/// The path of a home. Takes no memory.
pub(crate) fn home_path(home: Home) -> Path
    ensures { result ≡ home_path home }
{
    match home {
        Home::Root => Path::Root,
        Home::People => Path::People,
        Home::Groups => Path::Groups,
        Home::Books => Path::Books,
    }
}
