//! The values of properties.

ghost use Rattle.std.specs.Prelude.{◌≡◌, ◌++◌, ◌∷◌, [], map, IfOk, OnOk};
ghost use Rattle.std.specs.List.{filter_map};
ghost use Rattle.book_lists_explain.specs.ShortNames.{all_leaves, has_all};
ghost use Rattle.book_office.specs.Levels.{effective_of};
ghost use Rattle.book_office_listings.specs.Values.{current_privileges, if_granted, if_whole, is_whole};
ghost use Rattle.book_office_listings.specs.Values.{members_told, token_told, value_of};

use crate::effective_lists::acl;
use crate::granting::granted_at;
use crate::memberships::OrderedPairs;
use crate::messages::{Property, PropertyValue};
use crate::subjects::{Subject, Whole};
use book_lists::{Circle, Principal};
use book_lists_explain::{has_read, has_write};
use book_office::Level;
use book_office_sync::Token;
use book_office_values::{Items, Path};
use book_rights::{Leaf, LeafSet, Privilege};
use std::alloc::{AllocError, Global};

/// Whether every leaf is in the set.
fn has_all(set: LeafSet) -> bool
    ensures { result ≡ has_all set }
{
    has_read(set)
        && (has_write(set)
            && (set.has(Leaf::ReadAcl)
                && (set.has(Leaf::WriteAcl) && set.has(Leaf::ReadCurrentUserPrivilegeSet))))
}

/// Whether every leaf of the privilege is in the set.
fn is_whole(set: LeafSet, privilege: Privilege) -> bool
    ensures { result ≡ is_whole set privilege }
{
    match privilege {
        Privilege::One(leaf) => set.has(leaf),
        Privilege::Read => has_read(set),
        Privilege::Write => has_write(set),
        Privilege::All => has_all(set),
    }
}

/// Adds the name, if every leaf of it is in the set.
fn push_whole(
    names: &mut Vec<Privilege>,
    set: LeafSet,
    privilege: Privilege,
) -> Result<(), AllocError>
    ensures { OnOk result (names.new.items ≡ names.old.items ++ if_whole
        (is_whole set privilege) privilege) }
{
    if is_whole(set, privilege) {
        names.push(privilege)?;
    }
    Ok(())
}

/// The leaf's name, if the leaf is in the set.
fn if_granted(set: LeafSet, leaf: Leaf) -> Option<Privilege>
    ensures { result ≡ if_granted set leaf }
{
    if set.has(leaf) {
        Some(Privilege::One(leaf))
    } else {
        None
    }
}

/// Adds each leaf of the set, in order.
fn push_leaves(names: &mut Vec<Privilege>, set: LeafSet) -> Result<(), AllocError>
    ensures { OnOk result (names.new.items ≡ names.old.items ++ filter_map
        (if_granted set) all_leaves) }
{
    for leaf in Leaf::ALL {
        if let Some(name) = if_granted(set, leaf) {
            names.push(name)?;
        }
    }
    Ok(())
}

/// The names of what is granted.
fn current_privileges(alloc: Global, set: LeafSet) -> Result<Items<Privilege>, AllocError>
    ensures { IfOk result (λ names. names ≡ current_privileges set) }
{
    let mut names = Vec::new(alloc);
    push_whole(&mut names, set, Privilege::All)?;
    push_whole(&mut names, set, Privilege::Read)?;
    push_whole(&mut names, set, Privilege::Write)?;
    push_leaves(&mut names, set)?;
    Ok(Items::from_vec(names))
}

/// The direct members of a group.
fn members_told(
    alloc: Global,
    pairs: &OrderedPairs,
    path: &Path,
) -> Result<Option<Items<Principal>>, AllocError>
    ensures { IfOk result (λ members. members ≡ members_told pairs.now path.now) }
{
    match path {
        Path::Group(name) => {
            let group = Principal::group(alloc, name)?;
            Ok(Some(pairs.members_of(alloc, &group)?))
        }
        Path::Root
        | Path::People
        | Path::Groups
        | Path::Books
        | Path::Person(_)
        | Path::Book(_)
        | Path::Card(_, _) => Ok(None),
    }
}

/// The token of a book.
fn token_told(epoch: u64, number: u64, path: &Path) -> Result<Option<Token>, AllocError>
    ensures { IfOk result (λ token. token ≡ token_told epoch number path.now) }
{
    match path {
        Path::Book(name) => {
            let book = name.clone()?;
            Ok(Some(Token {
                book,
                epoch,
                number,
            }))
        }
        Path::Root
        | Path::People
        | Path::Groups
        | Path::Books
        | Path::Person(_)
        | Path::Group(_)
        | Path::Card(_, _) => Ok(None),
    }
}

/// The owner, if there is one.
fn copied(owner: &Option<Principal>) -> Result<Option<Principal>, AllocError>
    ensures { IfOk result (λ copy. copy ≡ owner.now) }
{
    match owner {
        Some(owner) => Ok(Some(owner.clone()?)),
        None => Ok(None),
    }
}

/// The value of a property of a resource, by its own level and those above it.
fn value(
    alloc: Global,
    whole: &Whole,
    circle: &Circle,
    own: &Level,
    above: &[Level],
    subject: &Subject,
    property: Property,
) -> Result<PropertyValue, AllocError>
    ensures { IfOk result (λ value. value ≡ value_of whole.now circle.now own.now.path subject.now
        (effective_of (own.now ∷ above.now)) property) }
{
    Ok(match property {
        Property::DisplayName => PropertyValue::DisplayName(subject.label.clone()?),
        Property::ResourceType => PropertyValue::ResourceType(subject.kind),
        Property::Owner => PropertyValue::Owner(copied(&subject.here.owner)?),
        Property::Acl => PropertyValue::Acl(acl(alloc, own, above)?),
        Property::CurrentUserPrivilegeSet => {
            let granted = granted_at(own, above, circle, &subject.here);
            PropertyValue::CurrentUserPrivilegeSet(current_privileges(alloc, granted)?)
        }
        Property::GroupMemberSet => {
            let pairs = &whole.memberships;
            PropertyValue::GroupMemberSet(members_told(alloc, pairs, &own.path)?)
        }
        Property::SyncToken => {
            PropertyValue::SyncToken(token_told(whole.epoch, subject.number, &own.path)?)
        }
    })
}

/// The values of properties of a resource, in the order in which they are asked.
pub(crate) fn values(
    alloc: Global,
    whole: &Whole,
    circle: &Circle,
    own: &Level,
    above: &[Level],
    subject: &Subject,
    asked: &[Property],
) -> Result<Items<PropertyValue>, AllocError>
    ensures { IfOk result (λ values. values ≡ map
        (value_of whole.now circle.now own.now.path subject.now
        (effective_of (own.now ∷ above.now))) asked.now) }
{
    let mut told = Vec::with_capacity(alloc, asked.len())?;
    for property in asked {
        told.push(value(alloc, whole, circle, own, above, subject, *property)?)?;
    }
    Ok(Items::from_vec(told))
}
