//! What a text of `explain` states, and whether `explain` takes as much.

ghost use Rattle.std.specs.Prelude.{◌≡◌};
ghost use Rattle.book_questions_asked.specs.Stated.{all_hold, are_few, fits, holds_some};

use book_limits::{MAX_ENTRIES, MAX_MEMBERS};
use book_lists::{Caller, Entry, Here, Membership};
use book_office_values::{Items, Path};
use book_rights::LeafSet;

/// Of whom it is asked, and where.
#[derive(Debug, Drop)]
pub struct Asked {
    /// The caller.
    pub caller: Caller,
    /// The resource.
    pub at: Path,
}

/// What a decision on leaves at a resource rests on.
#[derive(Debug, Drop)]
pub struct Stated {
    /// The direct memberships from which chains lead to the caller.
    pub members: Items<Membership>,
    /// The caller.
    pub caller: Caller,
    /// The owner of the resource, and the resource where it is a principal.
    pub here: Here,
    /// The leaves.
    pub set: LeafSet,
    /// The entries in force, in order.
    pub entries: Items<Entry>,
}

/// Whether a leaf is in the set.
fn holds_some(set: LeafSet) -> bool
    ensures { result ≡ holds_some set }
{
    set != LeafSet::empty()
}

/// Whether there are at most 1,000 memberships and 64 entries.
fn are_few(stated: &Stated) -> bool
    ensures { result ≡ are_few stated.now }
{
    stated.members.len() <= MAX_MEMBERS && stated.entries.len() <= MAX_ENTRIES
}

/// Whether each entry holds a leaf.
fn all_hold(entries: &[Entry]) -> bool
    ensures { result ≡ all_hold entries.now }
{
    entries.iter().all(|entry| holds_some(entry.set))
}

/// Whether `explain` takes as much: so few, and of each entry, and of the need, a privilege.
pub(crate) fn fits(stated: &Stated) -> bool
    ensures { result ≡ fits stated.now }
{
    are_few(stated) && (holds_some(stated.set) && all_hold(stated.entries.as_slice()))
}
