//! What is wrong with one value.

ghost use Rattle.std.specs.Prelude.{◌≡◌, ◌&&◌, Some, nat_le, option_map, IfOk};
ghost use Rattle.toml.specs.View.{items_view, view};
ghost use Rattle.book_limits.specs.declared.TheConstants.{MAX_PRIVILEGE_NAMES};
ghost use Rattle.book_policy_faults.specs.Values.{is_word};
ghost use Rattle.book_policy_faults.specs.Problems.{array_problem, at_problem, count, first_named, item_problem, label_problem, label_with, mark_problem, name_problem, names_problem, owner_problem, principal_problem, privilege_problem, twice_problem, unless, version_problem, who_problem};
ghost use Rattle.book_policy_faults.specs.declared.places.Problem.TheVariants.{NamesCount, TooMany};

use crate::known::{Paths, is_name, is_principal, known_at, path_of};
use crate::places::{Problem, TableKind};
use book_limits::{MAX_LABEL_BYTES, MAX_PRIVILEGE_NAMES};
use book_rights::Privilege;
use std::alloc::{AllocError, Global};
use toml::Value;

/// What is wrong with the version.
pub(crate) fn version_problem(value: Option<&Value>) -> Option<Problem>
    ensures { result ≡ version_problem (option_map (λ v. view v.now) value.entry) }
{
    let Some(value) = value else {
        return Some(Problem::OtherVersion);
    };
    match value.as_integer() {
        Some(1) => None,
        _ => Some(Problem::OtherVersion),
    }
}

/// How many values there are.
fn count_of(values: &[Value]) -> usize
    ensures { result ≡ count (items_view values.now) }
{
    values.len()
}

/// What is wrong where there are so many and there may be so many.
fn many_problem(count: usize, most: usize) -> Option<Problem>
    ensures { result ≡ unless (nat_le count most) TooMany }
{
    if count > most {
        Some(Problem::TooMany)
    } else {
        None
    }
}

/// What is wrong with an array of tables: it is none, or has too many.
pub(crate) fn array_problem(value: Option<&Value>, most: Option<usize>) -> Option<Problem>
    ensures { result ≡ array_problem (option_map (λ v. view v.now) value.entry) most }
{
    let Some(value) = value else {
        return None;
    };
    let Some(values) = value.as_array() else {
        return Some(Problem::OtherKind);
    };
    match most {
        Some(most) => many_problem(count_of(values.as_slice()), most),
        None => None,
    }
}

/// What is wrong where a table before it may have its name.
fn twice_problem(number: usize, first: Option<usize>) -> Option<Problem>
    ensures { result ≡ twice_problem number first }
{
    match first {
        Some(first) => {
            if first == number {
                None
            } else {
                Some(Problem::NameTwice(first))
            }
        }
        None => None,
    }
}

/// The number of the first table of a kind with a name.
fn first_named(
    alloc: Global,
    paths: &Paths,
    kind: TableKind,
    name: &str,
) -> Result<Option<usize>, AllocError>
    ensures { IfOk result (λ first. first ≡ first_named paths.now kind name.now) }
{
    let path = path_of(alloc, kind, name)?;
    match known_at(alloc, paths, path.as_str())? {
        Some(known) => Ok(Some(known.number)),
        None => Ok(None),
    }
}

/// What is wrong with the name of the table of a kind with this number.
pub(crate) fn name_problem(
    alloc: Global,
    paths: &Paths,
    kind: TableKind,
    number: usize,
    value: Option<&Value>,
) -> Result<Option<Problem>, AllocError>
    ensures { IfOk result (λ problem. problem
        ≡ name_problem paths.now kind number (option_map (λ v. view v.now) value.entry)) }
{
    let Some(value) = value else {
        return Ok(Some(Problem::Missing));
    };
    let Some(name) = value.as_str() else {
        return Ok(Some(Problem::OtherKind));
    };
    if !is_name(alloc, name)? {
        return Ok(Some(Problem::BadName));
    }
    let first = first_named(alloc, paths, kind, name)?;
    Ok(twice_problem(number, first))
}

/// What is wrong with the text of a label.
fn text_problem(text: &str) -> Option<Problem>
    ensures { result ≡ label_with (Some text.now) }
{
    if text.len() > MAX_LABEL_BYTES {
        return Some(Problem::LongLabel);
    }
    None
}

/// What is wrong with a label.
pub(crate) fn label_problem(value: Option<&Value>) -> Option<Problem>
    ensures { result ≡ label_problem (option_map (λ v. view v.now) value.entry) }
{
    let Some(value) = value else {
        return None;
    };
    match value.as_str() {
        Some(text) => text_problem(text),
        None => Some(Problem::OtherKind),
    }
}

/// What is wrong with a mark.
pub(crate) fn mark_problem(value: Option<&Value>) -> Option<Problem>
    ensures { result ≡ mark_problem (option_map (λ v. view v.now) value.entry) }
{
    let Some(value) = value else {
        return None;
    };
    match value.as_bool() {
        Some(_) => None,
        None => Some(Problem::OtherKind),
    }
}

/// What is wrong with a text that is to spell the path of a person or a group.
fn principal_problem(
    alloc: Global,
    paths: &Paths,
    text: &str,
) -> Result<Option<Problem>, AllocError>
    ensures { IfOk result (λ problem. problem ≡ principal_problem paths.now text.now) }
{
    match known_at(alloc, paths, text)? {
        Some(known) if is_principal(known) => Ok(None),
        _ => Ok(Some(Problem::UnknownPrincipal)),
    }
}

/// What is wrong with an owner.
pub(crate) fn owner_problem(
    alloc: Global,
    paths: &Paths,
    value: Option<&Value>,
) -> Result<Option<Problem>, AllocError>
    ensures { IfOk result (λ problem. problem
        ≡ owner_problem paths.now (option_map (λ v. view v.now) value.entry)) }
{
    let Some(value) = value else {
        return Ok(None);
    };
    match value.as_str() {
        Some(text) => principal_problem(alloc, paths, text),
        None => Ok(Some(Problem::OtherKind)),
    }
}

/// Whether the text is a word for a principal form (RFC 3744, section 5.5.1).
fn is_word(text: &str) -> bool
    ensures { result ≡ is_word text.now }
{
    text == "all"
        || text == "authenticated"
        || text == "unauthenticated"
        || text == "owner"
        || text == "self"
}

/// What is wrong with the principal of an entry.
pub(crate) fn who_problem(
    alloc: Global,
    paths: &Paths,
    value: Option<&Value>,
) -> Result<Option<Problem>, AllocError>
    ensures { IfOk result (λ problem. problem
        ≡ who_problem paths.now (option_map (λ v. view v.now) value.entry)) }
{
    let Some(value) = value else {
        return Ok(Some(Problem::Missing));
    };
    let Some(text) = value.as_str() else {
        return Ok(Some(Problem::OtherKind));
    };
    if is_word(text) {
        return Ok(None);
    }
    principal_problem(alloc, paths, text)
}

/// What is wrong with the place of an entry.
pub(crate) fn at_problem(
    alloc: Global,
    paths: &Paths,
    value: Option<&Value>,
) -> Result<Option<Problem>, AllocError>
    ensures { IfOk result (λ problem. problem
        ≡ at_problem paths.now (option_map (λ v. view v.now) value.entry)) }
{
    let Some(value) = value else {
        return Ok(Some(Problem::Missing));
    };
    let Some(text) = value.as_str() else {
        return Ok(Some(Problem::OtherKind));
    };
    match known_at(alloc, paths, text)? {
        Some(_) => Ok(None),
        None => Ok(Some(Problem::UnknownResource)),
    }
}

/// What the items of an array are to be.
#[derive(Clone, Copy, Drop)]
pub enum ItemRule {
    /// The paths of persons and groups.
    Principals,
    /// The names of privileges.
    Privileges,
}

/// What is wrong with a text that is to be the name of a privilege.
fn privilege_problem(text: &str) -> Option<Problem>
    ensures { result ≡ privilege_problem text.now }
{
    match Privilege::from_name(text) {
        Some(_) => None,
        None => Some(Problem::UnknownPrivilege),
    }
}

/// What is wrong with an item of an array.
pub(crate) fn item_problem(
    alloc: Global,
    paths: &Paths,
    rule: ItemRule,
    value: &Value,
) -> Result<Option<Problem>, AllocError>
    ensures { IfOk result (λ problem. problem ≡ item_problem paths.now rule (view value.now)) }
{
    let Some(text) = value.as_str() else {
        return Ok(Some(Problem::OtherKind));
    };
    match rule {
        ItemRule::Principals => principal_problem(alloc, paths, text),
        ItemRule::Privileges => Ok(privilege_problem(text)),
    }
}

/// What is wrong with so many names of privileges.
fn names_count_problem(count: usize) -> Option<Problem>
    ensures { result ≡ unless (nat_le 1 count && nat_le count MAX_PRIVILEGE_NAMES) NamesCount }
{
    if count < 1 {
        return Some(Problem::NamesCount);
    }
    if count > MAX_PRIVILEGE_NAMES {
        return Some(Problem::NamesCount);
    }
    None
}

/// What is wrong with an array of names of privileges, beside its items: it is none, or has none or more than 16.
pub(crate) fn names_problem(value: &Value) -> Option<Problem>
    ensures { result ≡ names_problem (view value.now) }
{
    let Some(names) = value.as_array() else {
        return Some(Problem::OtherKind);
    };
    names_count_problem(count_of(names.as_slice()))
}
