//! Principals: persons and groups, by their paths.

ghost use Rattle.std.specs.Prelude.{◌≡◌, ◌≢◌, ◌↔◌, ◌++◌, ℕ, List, IsTrue, IfOk, IfSome, IfNone};
ghost use Rattle.std.specs.String.{string_bytes};
ghost use Rattle.book_lists.specs.Principals.{IsGroup, IsPrincipal, Spells, EndsPlain, person_path, group_path};

use crate::names::{Name, is_name};
use std::alloc::{AllocError, Global};
use std::cmp::Ordering;
use std::marker::Model;

/// A principal (RFC 3744, section 2): a person, `/people/NAME`, or a group, `/groups/NAME`, with a `Name` (own profile).
/// A contract sees its path.
#[derive(Debug, Drop)]
pub struct Principal {
    path: String,
}

impl Model for Principal {
    ghost use Rattle.std.specs.Prelude.{List, ℕ};
    ghost use Rattle.std.specs.String.{string_bytes};
    ghost use Rattle.book_lists.specs.Principals.{IsPrincipal};

    ghost Value = { List ℕ };

    ghost view = { λ p. string_bytes p.path };

    ghost invariant = { λ p. IsPrincipal (string_bytes p.path) };
}

/// A copy equals its source. An error is want of memory.
impl Clone for Principal {
    ghost is_clone = { λ source copy. copy ≡ source };

    fn clone(&self) -> Result<Principal, AllocError> {
        Ok(Principal {
            path: self.path.clone()?,
        })
    }
}

impl PartialEq for Principal {
    ghost use Rattle.std.proofs.Common.{rules};
    ghost use Rattle.std.specs.Str.{bytes_eq};
    ghost use Rattle.std.specs.Cmp.Rules.{comparing};

    ghost eq = { bytes_eq };

    ghost laws = { Prim.search (comparing, rules) };

    fn eq(&self, other: &Principal) -> bool {
        self.path == other.path
    }
}

impl Eq for Principal {
    ghost use Rattle.std.proofs.Common.{rules};
    ghost use Rattle.std.specs.Cmp.Rules.{comparing};

    ghost laws = { Prim.search (comparing, rules) };
}

/// In byte order of the paths.
impl PartialOrd for Principal {
    ghost use Rattle.std.proofs.Common.{rules};
    ghost use Rattle.std.specs.Ordering.{nat_cmp, as_partial_cmp};
    ghost use Rattle.std.specs.Cmp.{partial_order_from_own_ties};
    ghost use Rattle.std.specs.Cmp.Rules.{comparing};
    ghost use Rattle.std.specs.Cmp.Lexicographic.{slice_cmp};

    ghost partial_cmp = { as_partial_cmp (slice_cmp nat_cmp) };

    ghost laws = { partial_order_from_own_ties (Prim.search (comparing, rules)) (Prim.search (comparing, rules)) };

    fn partial_cmp(&self, other: &Principal) -> Option<Ordering> {
        Some(self.cmp(other))
    }
}

impl Ord for Principal {
    ghost use Rattle.std.proofs.Common.{rules};
    ghost use Rattle.std.specs.Ordering.{nat_cmp};
    ghost use Rattle.std.specs.Cmp.Rules.{comparing};
    ghost use Rattle.std.specs.Cmp.Lexicographic.{slice_cmp};

    ghost cmp = { slice_cmp nat_cmp };

    ghost total = { Prim.search (comparing, rules) };

    ghost matches_partial_cmp = { Prim.search (comparing, rules) };

    ghost matches_eq = { Prim.search (comparing, rules) };

    fn cmp(&self, other: &Principal) -> Ordering {
        self.path.cmp(&other.path)
    }
}

/// What follows the beginning of the text, if it begins so.
pub(crate) fn after<'a>(text: &'a str, beginning: &str) -> Option<&'a str>
    ensures some { IfSome result (λ rest. text.now ≡ beginning.now ++ rest.now) }
    ensures none { IfNone result ((rest : List ℕ) → text.now ≢ beginning.now ++ rest) }
{
    text.strip_prefix(beginning)
}

/// Whether the text is the path of a person or a group.
fn is_principal(path: &str) -> bool
    ensures { IsTrue result ↔ IsPrincipal path.now }
{
    if let Some(name) = after(path, "/people/") {
        return is_name(name);
    }
    if let Some(name) = after(path, "/groups/") {
        return is_name(name);
    }
    false
}

/// The text without a slash at its end.
fn without_slash(text: &str) -> &str
    ensures spelled { Spells text.now result.now }
    ensures only { (path : List ℕ) → EndsPlain path → Spells text.now path → path ≡ result.now }
{
    text.strip_suffix('/').unwrap_or(text)
}

/// One text and then another, in memory of just their length.
fn joined(alloc: Global, front: &str, back: &str) -> Result<String, AllocError>
    ensures { IfOk result (λ joined. string_bytes joined ≡ front.now ++ back.now) }
{
    let mut joined = String::with_capacity(alloc, front.len().saturating_add(back.len()))?;
    joined.push_str(front)?;
    joined.push_str(back)?;
    Ok(joined)
}

impl Principal {
    /// The principal whose path the text spells; none where the text spells no path of a person or a group. One slash
    /// at the end is dropped. An error is want of memory.
    pub fn parse(alloc: Global, text: &str) -> Result<Option<Principal>, AllocError>
        ensures found { IfOk result (λ found. IfSome found
            (λ path. IsPrincipal path × Spells text.now path)) }
        ensures none { IfOk result (λ found. IfNone found ((path : List ℕ)
            → IsPrincipal path → Spells text.now path → ⊥)) }
    {
        let path = without_slash(text);
        if !is_principal(path) {
            return Ok(None);
        }
        Ok(Some(Principal {
            path: String::from_str(alloc, path)?,
        }))
    }

    /// The person with this name. An error is want of memory.
    pub fn person(alloc: Global, name: &Name) -> Result<Principal, AllocError>
        ensures { IfOk result (λ principal. principal ≡ person_path name.now) }
    {
        name.known();
        Ok(Principal {
            path: joined(alloc, "/people/", name.text())?,
        })
    }

    /// The group with this name. An error is want of memory.
    pub fn group(alloc: Global, name: &Name) -> Result<Principal, AllocError>
        ensures { IfOk result (λ principal. principal ≡ group_path name.now) }
    {
        name.known();
        Ok(Principal {
            path: joined(alloc, "/groups/", name.text())?,
        })
    }

    /// Hands out the rule that each principal meets.
    pub fn known(&self)
        ensures { IsPrincipal self.now }
    {
        let _ = &self.path;
    }

    /// Whether this is a group.
    pub fn is_group(&self) -> bool
        ensures { IsTrue result ↔ IsGroup self.now }
    {
        after(&self.path, "/groups/").is_some()
    }

    /// The path, without a slash at its end.
    pub fn text(&self) -> &str
        ensures { result.now ≡ self.now }
    {
        self.path.as_str()
    }
}
