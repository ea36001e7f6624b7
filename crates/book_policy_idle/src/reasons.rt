//! Why an entry changes no decision.

ghost use Rattle.std.specs.Prelude.{◌≡◌, ◌↔◌, ◌<◌, true, length, IfOk};
ghost use Rattle.book_policy_idle.specs.Idle.{NeverDecides};
ghost use Rattle.book_policy_idle.specs.Marks.{IsScope};
ghost use Rattle.book_policy_idle.specs.Reasons.{IsAhead, IsBehind, IsFirstAhead, IsForNobody, IsReason, before, order_at, with_entries};

use crate::in_force::{Placed, placed_in_force};
use crate::marks::{is_marked, marks_of};
use crate::scope::Scope;
use book_office_values::{Items, Path, Text};
use book_policy_values::{Policy, PolicyEntry};
use std::alloc::{AllocError, Global};

/// An entry of a policy that stands before another one in the order of decision.
#[derive(Debug, Drop)]
pub struct Ahead {
    /// Its number among the entries of the policy, from 1.
    pub number: usize,
    /// The text of the path where it stands.
    pub at: Text,
    /// Whether it stands in the protected list there, and else in the own list.
    pub protected: bool,
}

/// Why an entry of a policy changes no decision.
#[derive(Debug, Drop)]
pub enum Reason {
    /// It never decides: it applies to nobody, wherever it is in force.
    ForNobody,
    /// It never decides: an entry before it in the order of decision applies to each to whom it applies, and holds each of
    /// its leaves. This is the first such entry. Whether an entry before that one decides some of them does not matter.
    BehindOne(Ahead),
    /// It never decides, and no entry before it does so alone.
    BehindSeveral,
    /// It decides, and entries behind it decide the same in its place. This is so where it alone is left out: without two
    /// such entries another thing may be decided.
    DecidedAlike,
}

/// Whether one of some entries would decide nothing for anybody, if they were the entries of the policy.
fn decides_nothing(
    alloc: Global,
    policy: &Policy,
    scope: &Scope,
    entries: &[PolicyEntry],
    index: usize,
) -> Result<bool, AllocError>
    requires { IsScope policy.now scope.now }
    ensures { IfOk result (λ idle. (idle ≡ true) ↔ ((index < length entries.now)
        × NeverDecides (with_entries policy.now entries.now) index)) }
{
    let asking = scope.askers.as_slice();
    let paths = scope.places.as_slice();
    let marks = marks_of(alloc, entries, asking, paths)?;
    Ok(is_marked(marks.as_slice(), index))
}

/// Whether an entry applies to nobody.
fn is_for_nobody(
    alloc: Global,
    policy: &Policy,
    scope: &Scope,
    entry: &PolicyEntry,
) -> Result<bool, AllocError>
    requires { IsScope policy.now scope.now }
    ensures { IfOk result (λ idle. (idle ≡ true) ↔ IsForNobody policy.now entry.now) }
{
    let mut alone = Items::new(alloc);
    alone.push(entry.clone()?)?;
    decides_nothing(alloc, policy, scope, alone.as_slice(), 0)
}

/// Whether an entry decides nothing behind another one.
fn is_behind(
    alloc: Global,
    policy: &Policy,
    scope: &Scope,
    entry: &PolicyEntry,
    ahead: &PolicyEntry,
) -> Result<bool, AllocError>
    requires { IsScope policy.now scope.now }
    ensures { IfOk result (λ idle. (idle ≡ true) ↔ IsBehind policy.now entry.now ahead.now) }
{
    let mut both = Items::new(alloc);
    both.push(ahead.clone()?)?;
    both.push(entry.clone()?)?;
    decides_nothing(alloc, policy, scope, both.as_slice(), 1)
}

/// The entry of the policy with an index, where another one decides nothing behind it.
fn ahead_at(
    alloc: Global,
    policy: &Policy,
    scope: &Scope,
    entry: &PolicyEntry,
    index: usize,
) -> Result<Option<Ahead>, AllocError>
    requires { IsScope policy.now scope.now }
    ensures { IfOk result (IsAhead policy.now entry.now index) }
{
    let entries = policy.tables().entries.as_slice();
    if index >= entries.len() {
        return Ok(None);
    }
    let ahead = &entries[index];
    if !is_behind(alloc, policy, scope, entry, ahead)? {
        return Ok(None);
    }
    Ok(Some(Ahead {
        number: index + 1,
        at: ahead.at.clone()?,
        protected: ahead.protected,
    }))
}

/// The first of a list behind which alone an entry decides nothing.
fn first_ahead(
    alloc: Global,
    policy: &Policy,
    scope: &Scope,
    entry: &PolicyEntry,
    list: &[Placed],
) -> Result<Option<Ahead>, AllocError>
    requires { IsScope policy.now scope.now }
    ensures { IfOk result (IsFirstAhead policy.now entry.now list.now) }
{
    for placed in list {
        let ahead = ahead_at(alloc, policy, scope, entry, placed.index)?;
        if ahead.is_some() {
            return Ok(ahead);
        }
    }
    Ok(None)
}

/// Those of a list before the entry with an index.
fn before(list: &[Placed], index: usize) -> &[Placed]
    ensures { result.now ≡ before index list.now }
{
    for (place, placed) in list.iter().enumerate() {
        if placed.index == index {
            return &list[..place];
        }
    }
    list
}

/// The entries in force at the place with this text, in the order of decision.
fn order_at(
    alloc: Global,
    entries: &[PolicyEntry],
    at: &str,
    places: &[Path],
) -> Result<Items<Placed>, AllocError>
    ensures { IfOk result (λ list. list ≡ order_at entries.now at.now places.now) }
{
    for path in places {
        let text = path.text(alloc)?;
        if text.as_str() == at {
            return placed_in_force(alloc, entries, path);
        }
    }
    Ok(Items::new(alloc))
}

/// The first entry of the policy, in the order of decision, behind which alone an entry decides nothing.
fn first_before(
    alloc: Global,
    policy: &Policy,
    scope: &Scope,
    entry: &PolicyEntry,
    index: usize,
) -> Result<Option<Ahead>, AllocError>
    requires { IsScope policy.now scope.now }
    ensures { IfOk result (IsFirstAhead policy.now entry.now (before index
        (order_at policy.now.entries entry.now.at scope.now.places))) }
{
    let entries = policy.tables().entries.as_slice();
    let list = order_at(alloc, entries, entry.at.as_str(), scope.places.as_slice())?;
    first_ahead(alloc, policy, scope, entry, before(list.as_slice(), index))
}

/// Why an entry that decides nothing for anybody does not.
pub(crate) fn idle_reason(
    alloc: Global,
    policy: &Policy,
    scope: &Scope,
    entry: &PolicyEntry,
    index: usize,
) -> Result<Reason, AllocError>
    requires scope { IsScope policy.now scope.now }
    requires idle { NeverDecides policy.now index }
    ensures { IfOk result (IsReason policy.now entry.now index) }
{
    if is_for_nobody(alloc, policy, scope, entry)? {
        return Ok(Reason::ForNobody);
    }
    match first_before(alloc, policy, scope, entry, index)? {
        Some(ahead) => Ok(Reason::BehindOne(ahead)),
        None => Ok(Reason::BehindSeveral),
    }
}
