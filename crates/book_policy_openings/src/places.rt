//! Decisions by the entries of an Office's lists. No contract tells them: what they lead to is served before it is told.

use crate::lists::OfficeLists;
use book_lists::{Circle, Deciders, Entry, Here, Outcome, Principal, Who};
use book_office_values::{Items, Path, Text};
use book_rights::LeafSet;
use std::alloc::{AllocError, Global};

/// A list that a request put in place of an own list.
#[derive(Drop)]
pub(crate) struct Replaced {
    /// The text of the path where it stands.
    pub(crate) at: Text,
    /// The list.
    pub(crate) list: Items<Entry>,
}

/// A place at which a decision is asked.
#[derive(Drop)]
pub(crate) struct Place {
    /// The texts of its path and of those above it, up to the root's.
    levels: Vec<Text>,
    /// What entries ask of it.
    pub(crate) here: Here,
}

/// The list that stands in place of the own list at a path, or else the own list; none where there is neither.
fn own_at<'a>(
    lists: &'a OfficeLists,
    at: &Text,
    replaced: &'a [Replaced],
) -> Option<&'a Items<Entry>> {
    for one in replaced {
        if one.at == *at {
            return Some(&one.list);
        }
    }
    lists.own_at(at)
}

/// The leaves that entries of a form deny.
fn denied_to(entries: &[Entry], form: &Who) -> LeafSet {
    let mut denied = LeafSet::empty();
    for entry in entries {
        if entry.deny && !entry.invert && entry.who == *form {
            denied = denied.union(entry.set);
        }
    }
    denied
}

impl Place {
    /// The place with a path, an owner and a principal. An error is want of memory.
    pub(crate) fn new(
        alloc: Global,
        path: &Path,
        owner: Option<Principal>,
        principal: Option<Principal>,
    ) -> Result<Place, AllocError> {
        let mut levels = Vec::new(alloc);
        for level in path.levels(alloc)?.as_slice() {
            levels.push(Text::from_string(level.text(alloc)?))?;
        }
        Ok(Place {
            levels,
            here: Here { owner, principal },
        })
    }

    /// Goes over the protected entries.
    fn judge_protected(&self, lists: &OfficeLists, circle: &Circle, scan: &mut Deciders) {
        for level in &self.levels {
            if let Some(list) = lists.protected_at(level) {
                scan.judge_over(list.as_slice(), circle, &self.here);
            }
        }
    }

    /// Goes over the other entries, where these lists stand in place of own lists.
    fn judge_own(
        &self,
        lists: &OfficeLists,
        circle: &Circle,
        replaced: &[Replaced],
        scan: &mut Deciders,
    ) {
        for level in &self.levels {
            if let Some(list) = own_at(lists, level, replaced) {
                scan.judge_over(list.as_slice(), circle, &self.here);
            }
        }
    }

    /// Whether the entries in force grant each leaf of the set to who belongs to the circle, where these lists stand in
    /// place of own lists. It looks at each entry once.
    pub(crate) fn grants(
        &self,
        lists: &OfficeLists,
        circle: &Circle,
        set: LeafSet,
        replaced: &[Replaced],
    ) -> bool {
        let mut scan = Deciders::start(set);
        self.judge_protected(lists, circle, &mut scan);
        self.judge_own(lists, circle, replaced, &mut scan);
        matches!(scan.outcome(), Outcome::Allowed)
    }

    /// The lists in force, in any order. An error is want of memory.
    pub(crate) fn in_force<'a>(
        &self,
        alloc: Global,
        lists: &'a OfficeLists,
    ) -> Result<Vec<&'a [Entry]>, AllocError> {
        let mut found = Vec::new(alloc);
        for level in &self.levels {
            if let Some(list) = lists.protected_at(level) {
                found.push(list.as_slice())?;
            }
            if let Some(list) = lists.own_at(level) {
                found.push(list.as_slice())?;
            }
        }
        Ok(found)
    }

    /// The leaves that an own list here may grant by an entry of a form: those that no protected entry of this form denies,
    /// here or above, since that is refused (RFC 3744, section 8.1.1). What such an entry denies no own list would grant.
    pub(crate) fn open_to(&self, lists: &OfficeLists, form: &Who) -> LeafSet {
        let mut open = LeafSet::all();
        for level in &self.levels {
            if let Some(list) = lists.protected_at(level) {
                open = open.minus(denied_to(list.as_slice(), form));
            }
        }
        open
    }

    /// Goes over each protected entry.
    fn read_protected(&self, lists: &OfficeLists, circle: &Circle, scan: &mut Deciders) {
        for level in &self.levels {
            if let Some(list) = lists.protected_at(level) {
                scan.over(list.as_slice(), circle, &self.here);
            }
        }
    }

    /// Goes over each other entry, where these lists stand in place of own lists.
    fn read_own(
        &self,
        lists: &OfficeLists,
        circle: &Circle,
        replaced: &[Replaced],
        scan: &mut Deciders,
    ) {
        for level in &self.levels {
            if let Some(list) = own_at(lists, level, replaced) {
                scan.over(list.as_slice(), circle, &self.here);
            }
        }
    }

    /// The leaves that the entries in force grant to who belongs to the circle, where these lists stand in place of own
    /// lists. It looks at each entry once.
    pub(crate) fn leaves(
        &self,
        lists: &OfficeLists,
        circle: &Circle,
        replaced: &[Replaced],
    ) -> LeafSet {
        let mut scan = Deciders::start(LeafSet::all());
        self.read_protected(lists, circle, &mut scan);
        self.read_own(lists, circle, replaced, &mut scan);
        scan.granted()
    }
}
