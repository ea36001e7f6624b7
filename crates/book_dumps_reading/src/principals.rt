//! Whether each principal that a dump names has a line.

use crate::faults::{Key, LineProblem, ReadFault, Spot};
use book_dumps::Line;
use book_lists::{Entry, Principal, Who};
use book_office_values::Path;
use std::alloc::{AllocError, Global};

/// The principals that have lines, in the order of these. An error is want of memory.
fn told_principals(alloc: Global, lines: &[Line]) -> Result<Vec<Principal>, AllocError> {
    let mut principals = Vec::new(alloc);
    for line in lines {
        match &line.path {
            Path::Person(name) => principals.push(Principal::person(alloc, name)?)?,
            Path::Group(name) => principals.push(Principal::group(alloc, name)?)?,
            _ => {}
        }
    }
    Ok(principals)
}

/// Whether a principal is among these, which stand in byte order.
fn is_told(principals: &[Principal], principal: &Principal) -> bool {
    principals.binary_search(principal).is_ok()
}

/// Whether the owner is among these, if there is one.
fn is_owner_told(principals: &[Principal], owner: &Option<Principal>) -> bool {
    match owner {
        Some(owner) => is_told(principals, owner),
        None => true,
    }
}

/// Whether the principal of each entry is among these.
fn are_entries_told(principals: &[Principal], entries: &[Entry]) -> bool {
    for entry in entries {
        if let Who::Href(principal) = &entry.who {
            if !is_told(principals, principal) {
                return false;
            }
        }
    }
    true
}

/// Whether each member is among these.
fn are_members_told(principals: &[Principal], members: &[Principal]) -> bool {
    members.iter().all(|member| is_told(principals, member))
}

/// The first key of a line at which a principal is named that is not among these.
fn unknown_at(principals: &[Principal], line: &Line) -> Option<Key> {
    if !is_owner_told(principals, &line.owner) {
        return Some(Key::Owner);
    }
    if !are_entries_told(principals, line.protected.as_slice()) {
        return Some(Key::Protected);
    }
    if !are_entries_told(principals, line.own.as_slice()) {
        return Some(Key::Own);
    }
    if !are_members_told(principals, line.members.as_slice()) {
        return Some(Key::Members);
    }
    None
}

/// Each owner, each member and each principal of an entry has a line. The lines are in byte order of the paths, and the
/// first of them is the second of the text.
pub(crate) fn check_principals(alloc: Global, lines: &[Line]) -> Result<(), ReadFault> {
    let principals = told_principals(alloc, lines)?;
    let mut number = 1u64;
    for line in lines {
        number = number.saturating_add(1);
        if let Some(key) = unknown_at(principals.as_slice(), line) {
            let spot = Spot { line: number, key };
            return Err(spot.fault(LineProblem::UnknownPrincipal));
        }
    }
    Ok(())
}
