//! Which entry decides each leaf: one scan over lists of entries in turn.

ghost use Rattle.std.specs.Prelude.{◌≡◌, true, false, ◌&&◌, ◌<◌, ◌↔◌, ◌^◌, ◌++◌, ◌∷◌, [], length, if◌then◌else◌};
ghost use Rattle.book_rights.specs.declared.privileges.Leaf.{Leaf};
ghost use Rattle.book_rights.specs.Leaves.{place_of};
ghost use Rattle.book_lists.specs.Decisions.{IfDenied};
ghost use Rattle.book_lists.specs.Deciders.{index_in, told_decider, granted_read, AreDecided, IsDeciders, IfDeciders, IsJudged, IfJudged};
ghost use Rattle.book_lists.specs.Readings.{read_by, IsAllowedRead, IsDenialRead, Settles};

use crate::circles::Circle;
use crate::decisions::Outcome;
use crate::entries::{Entry, Here, applies};
use book_rights::{Leaf, LeafSet};

/// The entry that decides a leaf: its index, from 0 at the first entry of the first list, and whether it denies.
#[derive(Clone, Copy, Debug, PartialEq, Eq)]
pub struct Decider {
    pub index: usize,
    pub deny: bool,
}

/// A scan for a set of leaves: for each of them which entry decides it, of those that it has come over, each read by
/// the circle and at the resource of its own call (RFC 3744, section 6). No call of it takes memory.
#[derive(Clone, Copy, Debug)]
pub struct Deciders {
    /// The leaves that no entry decides yet.
    open: LeafSet,
    /// Those that an entry grants, and those that one denies.
    granted: LeafSet,
    denied: LeafSet,
    /// The least leaf that the earliest denying entry decides.
    first: Option<Leaf>,
    /// For each leaf, by its place, the index of the entry that decides it.
    indexes: [usize; 9],
    /// How many entries it has come over.
    passed: usize,
}

/// The leaves of both sets.
fn intersection(set: LeafSet, other: LeafSet) -> LeafSet
    ensures { (leaf : Leaf) → result leaf ≡ (set leaf && other leaf) }
{
    set.minus(set.minus(other))
}

/// The place of the leaf in the order of the leaves, from 0.
fn place(leaf: Leaf) -> usize
    ensures { result ≡ place_of leaf }
{
    match leaf {
        Leaf::ReadTexts => 0,
        Leaf::WriteContent => 1,
        Leaf::WriteProperties => 2,
        Leaf::Bind => 3,
        Leaf::Unbind => 4,
        Leaf::ReadAcl => 5,
        Leaf::WriteAcl => 6,
        Leaf::ReadCurrentUserPrivilegeSet => 7,
        Leaf::ReadNames => 8,
    }
}

/// The index where the leaf is in the set, and else the other.
fn chosen(set: LeafSet, leaf: Leaf, index: usize, other: usize) -> usize
    ensures { result ≡ (if set leaf then index else other) }
{
    if set.has(leaf) { index } else { other }
}

/// The indexes with this one for each leaf of a set.
fn indexes_with(indexes: [usize; 9], set: LeafSet, index: usize) -> [usize; 9]
    ensures { (leaf : Leaf)
        → index_in result leaf ≡ (if set leaf then index else index_in indexes leaf) }
{
    [
        chosen(set, Leaf::ReadTexts, index, indexes[0]),
        chosen(set, Leaf::WriteContent, index, indexes[1]),
        chosen(set, Leaf::WriteProperties, index, indexes[2]),
        chosen(set, Leaf::Bind, index, indexes[3]),
        chosen(set, Leaf::Unbind, index, indexes[4]),
        chosen(set, Leaf::ReadAcl, index, indexes[5]),
        chosen(set, Leaf::WriteAcl, index, indexes[6]),
        chosen(set, Leaf::ReadCurrentUserPrivilegeSet, index, indexes[7]),
        chosen(set, Leaf::ReadNames, index, indexes[8]),
    ]
}

impl Deciders {
    /// A scan for a set of leaves that has come over no entry.
    pub fn start(set: LeafSet) -> Deciders
        ensures { IsDeciders set [] result }
    {
        Deciders {
            open: set,
            granted: LeafSet::empty(),
            denied: LeafSet::empty(),
            first: None,
            indexes: [0, 0, 0, 0, 0, 0, 0, 0, 0],
            passed: 0,
        }
    }

    /// Whether each leaf of the set is decided.
    fn has_ended(&self) -> bool
        ensures { (result ≡ true) ↔ ((leaf : Leaf) → self.now.open leaf ≡ false) }
    {
        self.open.least().is_none()
    }

    /// Goes over one entry more: where it applies, it decides the leaves that it holds and none before it decides.
    fn look(&mut self, entry: &Entry, circle: &Circle, here: &Here)
        ensures { IfDeciders self.old (λ need readings.
            IsDeciders need (readings ++ read_by circle.now here.now (entry.now ∷ [])) self.new) }
    {
        let index = self.passed;
        self.passed = index.saturating_add(1);
        let decided = intersection(self.open, entry.set);
        let Some(least) = decided.least() else {
            return;
        };
        if !applies(entry, circle, here) {
            return;
        }
        self.open = self.open.minus(entry.set);
        self.indexes = indexes_with(self.indexes, decided, index);
        if !entry.deny {
            self.granted = self.granted.union(decided);
            return;
        }
        self.denied = self.denied.union(decided);
        if self.first.is_none() {
            self.first = Some(least);
        }
    }

    /// Goes on over the entries, each by this circle at this resource, and tells whether each leaf is decided: then no
    /// later entry changes anything.
    ///
    /// It looks at no entry after that which decides the last leaf, and looks principals up in the circle only for
    /// entries that hold a leaf still open. That a slice has less than 2^64 entries is told for the caller.
    pub fn over(&mut self, entries: &[Entry], circle: &Circle, here: &Here) -> bool
        ensures scanned { IfDeciders self.old (λ need readings.
            IsDeciders need (readings ++ read_by circle.now here.now entries.now) self.new) }
        ensures ended { IfDeciders self.old (λ need readings. (result ≡ true)
            ↔ AreDecided need (readings ++ read_by circle.now here.now entries.now)) }
        ensures fits { length entries.now < 2 ^ 64 }
    {
        let passed = self.passed.saturating_add(entries.len());
        for entry in entries {
            if self.has_ended() {
                self.passed = passed;
                return true;
            }
            self.look(entry, circle, here);
        }
        self.has_ended()
    }

    /// Whether what the scan has come over settles the set as a need: a leaf of it is denied, or each is granted.
    fn is_settled(&self) -> bool
        ensures { IfJudged self.now (λ need readings. (result ≡ true) ↔ Settles readings need) }
    {
        self.first.is_some() || self.open.least().is_none()
    }

    /// Goes on over the entries as `over` does, but no further than what settles the set as a need, and tells whether
    /// it is settled.
    pub fn judge_over(&mut self, entries: &[Entry], circle: &Circle, here: &Here) -> bool
        ensures scanned { IfJudged self.old (λ need readings.
            IsJudged need (readings ++ read_by circle.now here.now entries.now) self.new) }
        ensures ended { IfJudged self.old (λ need readings. (result ≡ true)
            ↔ Settles (readings ++ read_by circle.now here.now entries.now) need) }
        ensures fits { length entries.now < 2 ^ 64 }
    {
        let passed = self.passed.saturating_add(entries.len());
        for entry in entries {
            if self.is_settled() {
                self.passed = passed;
                return true;
            }
            self.look(entry, circle, here);
        }
        self.is_settled()
    }

    /// Whether the entries that the scan has come over are fewer than 2^64: then indexes are exact.
    pub fn are_counted(&self) -> bool
        ensures { IfDeciders self.now (λ need readings. result ≡ true → length readings < 2 ^ 64) }
    {
        if self.passed == usize::MAX {
            return false;
        }
        true
    }

    /// The entry that decides a leaf of the set, among what the scan has come over; none where none does.
    pub fn decider(&self, leaf: Leaf) -> Option<Decider>
        ensures { IfDeciders self.now (λ need readings.
            need leaf ≡ true → length readings < 2 ^ 64 → result ≡ told_decider readings leaf) }
    {
        let index = self.indexes[place(leaf)];
        if self.granted.has(leaf) {
            return Some(Decider { index, deny: false });
        }
        if self.denied.has(leaf) {
            return Some(Decider { index, deny: true });
        }
        None
    }

    /// The leaves of the set that are granted by what the scan has come over, as one list.
    pub fn granted(&self) -> LeafSet
        ensures { IfDeciders self.now (λ need readings.
            (leaf : Leaf) → result leaf ≡ (need leaf && granted_read readings leaf)) }
    {
        self.granted
    }

    /// The decision on the set as a need, by what the scan has come over, as one list.
    pub fn outcome(&self) -> Outcome
        ensures allowed { IfJudged self.now (λ need readings.
            (result ≡ Outcome.Allowed) ↔ IsAllowedRead readings need) }
        ensures denied { IfJudged self.now (λ need readings. length readings < 2 ^ 64
            → IfDenied result (IsDenialRead readings need)) }
    {
        if let Some(leaf) = self.first {
            return Outcome::Denied {
                leaf,
                entry: Some(self.indexes[place(leaf)]),
            };
        }
        match self.open.least() {
            Some(leaf) => Outcome::Denied { leaf, entry: None },
            None => Outcome::Allowed,
        }
    }
}
