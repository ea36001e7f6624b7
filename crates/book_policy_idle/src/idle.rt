//! Entries that change no decision.

ghost use Rattle.std.specs.Prelude.{◌<◌, ◌^◌, ◌+◌, length, IfOk, OnOk};
ghost use Rattle.book_policy_idle.specs.Idle.{AreIdleMarks};
ghost use Rattle.book_policy_idle.specs.Marks.{IsScope};
ghost use Rattle.book_policy_idle.specs.Told.{AddsTold, AreIdle, IsToldFor};

use crate::alike::can_go;
use crate::marks::{is_marked, marks_of};
use crate::reasons::{Reason, idle_reason};
use crate::scope::{Scope, scope_of};
use book_lists::Who;
use book_office_values::{Items, Text};
use book_policy_values::{Policy, PolicyEntry};
use std::alloc::{AllocError, Global};

/// An entry of a policy that changes no decision.
#[derive(Debug, Drop)]
pub struct IdleEntry {
    /// Its number among the entries of the policy, from 1.
    pub number: usize,
    /// The text of the path where it stands.
    pub at: Text,
    /// To whom it applies.
    pub who: Who,
    /// Why it changes none.
    pub reason: Reason,
}

/// A mark for each entry of the policy that decides no leaf for anybody.
fn idle_marks(alloc: Global, policy: &Policy, scope: &Scope) -> Result<Vec<bool>, AllocError>
    requires { IsScope policy.now scope.now }
    ensures { IfOk result (λ marks. AreIdleMarks policy.now marks.items) }
{
    let asking = scope.askers.as_slice();
    let paths = scope.places.as_slice();
    let entries = policy.tables().entries.as_slice();
    marks_of(alloc, entries, asking, paths)
}

/// Why an entry is told, if it is.
fn told_for(
    alloc: Global,
    policy: &Policy,
    scope: &Scope,
    marks: &[bool],
    entry: &PolicyEntry,
    index: usize,
) -> Result<Option<Reason>, AllocError>
    requires scope { IsScope policy.now scope.now }
    requires marked { AreIdleMarks policy.now marks.now }
    requires within { index < length policy.now.entries }
    ensures { IfOk result (IsToldFor policy.now index entry.now) }
{
    if is_marked(marks, index) {
        let reason = idle_reason(alloc, policy, scope, entry, index)?;
        return Ok(Some(reason));
    }
    if can_go(alloc, policy, scope, entry, index)? {
        return Ok(Some(Reason::DecidedAlike));
    }
    Ok(None)
}

/// Adds the entry with an index, where it is told.
fn add_told(
    alloc: Global,
    policy: &Policy,
    scope: &Scope,
    marks: &[bool],
    entry: &PolicyEntry,
    index: usize,
    idle: &mut Items<IdleEntry>,
) -> Result<(), AllocError>
    requires scope { IsScope policy.now scope.now }
    requires marked { AreIdleMarks policy.now marks.now }
    requires within { index < length policy.now.entries }
    requires room { index + 1 < 2 ^ 64 }
    ensures { OnOk result (AddsTold policy.now index entry.now idle.old idle.new) }
{
    match told_for(alloc, policy, scope, marks, entry, index)? {
        Some(reason) => idle.push(IdleEntry {
            number: index + 1,
            at: entry.at.clone()?,
            who: entry.entry.who.clone()?,
            reason,
        }),
        None => Ok(()),
    }
}

/// The entries that are told, and why.
fn told_entries(
    alloc: Global,
    policy: &Policy,
    scope: &Scope,
    marks: &[bool],
) -> Result<Items<IdleEntry>, AllocError>
    requires scope { IsScope policy.now scope.now }
    requires marked { AreIdleMarks policy.now marks.now }
    ensures { IfOk result (AreIdle policy.now) }
{
    let entries = policy.tables().entries.as_slice();
    let count = entries.len();
    let mut idle = Items::new(alloc);
    for index in 0..count {
        add_told(
            alloc,
            policy,
            scope,
            marks,
            &entries[index],
            index,
            &mut idle,
        )?;
    }
    Ok(idle)
}

/// Exactly the entries of the policy that change no decision (own profile), each once, in order, and why. They decide no
/// leaf for anybody: for no person of the policy, nor for one who is nobody, at no place of the policy, and on no card
/// that requests can make, whoever owns it. Or they decide, and entries behind them decide the same in their place, whatever
/// own list requests make there. Each is told alone: without two of the latter another thing may be decided. An entry
/// that denies is among the latter only where another one denies the same: that nothing is granted there anyway is no
/// reason to leave it out, since requests may put entries into the lists above. One that denies each leaf is never among
/// them: it closes its place.
///
/// Each place is looked at for each who asks, as long as an entry in force there is not known to decide. For an entry
/// that decides nothing this is done again for each that stands before it, up to the first that alone is a reason; and for
/// another one with and without it, up to the first whom it makes a difference to.
///
/// # Errors
///
/// Want of memory.
pub fn idle_entries(alloc: Global, policy: &Policy) -> Result<Items<IdleEntry>, AllocError>
    ensures { IfOk result (AreIdle policy.now) }
{
    let scope = scope_of(alloc, policy)?;
    let marks = idle_marks(alloc, policy, &scope)?;
    told_entries(alloc, policy, &scope, marks.as_slice())
}
