//! The changes of a dump that the words of `load` want.

use book_desk_app::StoreFailure;
use book_desk_keeping::{Change, KeepingFault};
use book_lists::{Name, Principal};
use std::alloc::Global;

const NO_MEMORY: KeepingFault = KeepingFault::Store(StoreFailure::Memory);

/// What the words of `load` want of a dump.
#[derive(Drop)]
pub struct LoadWords<'a> {
    /// Texts `FROM=TO`.
    pub owners: Option<&'a [String]>,
    /// The name of the book whose cards alone get other owners.
    pub at: Option<&'a str>,
    /// The paths of persons.
    pub without: Option<&'a [String]>,
    /// The path of a principal.
    pub heir: Option<&'a str>,
    /// Whether removed names are left out.
    pub forget_removed: bool,
    /// Whether the epoch is a new one.
    pub new_epoch: bool,
    /// A number in decimal digits.
    pub above: Option<&'a str>,
}

/// The principal with a path; one that is none is not known.
fn principal_of(alloc: Global, path: &str) -> Result<Principal, KeepingFault> {
    match Principal::parse(alloc, path) {
        Ok(Some(principal)) => Ok(principal),
        Ok(None) => Err(KeepingFault::LoadUnknownPrincipal),
        Err(_) => Err(NO_MEMORY),
    }
}

/// The book with a name, if one is given; one that is none is not known.
fn book_of(alloc: Global, name: Option<&str>) -> Result<Option<Name>, KeepingFault> {
    let Some(name) = name else {
        return Ok(None);
    };
    match Name::parse(alloc, name) {
        Ok(Some(name)) => Ok(Some(name)),
        Ok(None) => Err(KeepingFault::LoadUnknownPrincipal),
        Err(_) => Err(NO_MEMORY),
    }
}

/// Adds that what one principal owns another owns, by a text `FROM=TO`.
fn add_owner(
    alloc: Global,
    changes: &mut Vec<Change>,
    text: &str,
    at: Option<&str>,
) -> Result<(), KeepingFault> {
    let Some((from, to)) = text.split_once("=") else {
        return Err(KeepingFault::LoadUnknownPrincipal);
    };
    let change = Change::OwnBy {
        from: principal_of(alloc, from)?,
        to: principal_of(alloc, to)?,
        at: book_of(alloc, at)?,
    };
    changes.push(change).or(Err(NO_MEMORY))
}

/// Adds that a person goes.
fn add_leaver(
    alloc: Global,
    changes: &mut Vec<Change>,
    person: &str,
    heir: Option<&str>,
) -> Result<(), KeepingFault> {
    let person = principal_of(alloc, person)?;
    let heir = match heir {
        Some(heir) => Some(principal_of(alloc, heir)?),
        None => None,
    };
    changes
        .push(Change::Without { person, heir })
        .or(Err(NO_MEMORY))
}

/// Adds that the epoch is a new one, above a number if there is one.
fn add_epoch(changes: &mut Vec<Change>, above: Option<&str>) -> Result<(), KeepingFault> {
    let above = match above {
        // Clap takes numbers alone.
        Some(text) => Some(text.parse().or(Err(KeepingFault::LoadLastNumber))?),
        None => None,
    };
    changes.push(Change::NewEpoch(above)).or(Err(NO_MEMORY))
}

/// The changes that the words want, in the order in which they are made: owners, persons who go, removed names, the epoch.
///
/// # Errors
///
/// `LoadUnknownPrincipal` where a text is no principal or no name of a book; `Store` where memory was refused.
pub fn changes_of(alloc: Global, words: &LoadWords<'_>) -> Result<Vec<Change>, KeepingFault> {
    let mut changes = Vec::new(alloc);
    for text in words.owners.unwrap_or(&[]) {
        add_owner(alloc, &mut changes, text.as_str(), words.at)?;
    }
    for person in words.without.unwrap_or(&[]) {
        add_leaver(alloc, &mut changes, person.as_str(), words.heir)?;
    }
    if words.forget_removed && changes.push(Change::ForgetRemoved).is_err() {
        return Err(NO_MEMORY);
    }
    if words.new_epoch {
        add_epoch(&mut changes, words.above)?;
    }
    Ok(changes)
}
