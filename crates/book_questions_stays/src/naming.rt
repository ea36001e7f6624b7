//! What a policy names.

ghost use Rattle.std.specs.Prelude.{◌≡◌, [], is_some, unwrap_or};
ghost use Rattle.std.specs.FinMap.{get};
ghost use Rattle.std.specs.Option.{option_copied};
ghost use Rattle.book_questions_stays.specs.Stays.{has_entries, is_given, is_named};

use book_lists::{Entry, Name};
use book_office_values::{Items, Path, Text};
use book_policy_values::Policy;

/// Whether the policy has a person of this name.
fn has_person(policy: &Policy, name: &Name) -> bool
    ensures { result ≡ is_some (get policy.now.persons name.now) }
{
    policy.tables().persons.get(name).is_some()
}

/// Whether the policy has a group of this name.
fn has_group(policy: &Policy, name: &Name) -> bool
    ensures { result ≡ is_some (get policy.now.groups name.now) }
{
    policy.tables().groups.get(name).is_some()
}

/// Whether the policy has a book of this name.
fn has_book(policy: &Policy, name: &Name) -> bool
    ensures { result ≡ is_some (get policy.now.books name.now) }
{
    policy.tables().books.get(name).is_some()
}

/// Whether the policy names the resource at a path.
pub(crate) fn is_named(policy: &Policy, path: &Path) -> bool
    ensures { result ≡ is_named policy.now path.now }
{
    match path {
        Path::Root | Path::People | Path::Groups | Path::Books => true,
        Path::Person(name) => has_person(policy, name),
        Path::Group(name) => has_group(policy, name),
        Path::Book(name) => has_book(policy, name),
        Path::Card(_, _) => false,
    }
}

/// Whether a list of a policy has entries, if it has such a list.
fn has_entries(list: Option<&Items<Entry>>) -> bool
    ensures { result ≡ has_entries (unwrap_or (option_copied list.entry) []) }
{
    match list {
        Some(list) => list.len() > 0,
        None => false,
    }
}

/// Whether the policy has entries for the own list at the text of a path.
pub(crate) fn is_given(policy: &Policy, at: &Text) -> bool
    ensures { result ≡ is_given policy.now at.now }
{
    has_entries(policy.own_at(at))
}
