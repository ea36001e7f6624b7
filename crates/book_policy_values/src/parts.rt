//! The parts of a policy, as they are given and as a policy has them.

ghost use Rattle.std.specs.Prelude.{◌≡◌};

use book_lists::{Entry, Pairs, Principal};
use book_office_values::{Items, NameMap, Text};
use std::alloc::AllocError;

/// A person that a policy names. It is given as it was written, and may be wrong.
#[derive(Debug, Drop)]
pub struct PersonPart {
    /// The person's own name.
    pub name: Text,
    /// Its label.
    pub label: Text,
}

/// A group that a policy names. It is given as it was written, and may be wrong.
#[derive(Debug, Drop)]
pub struct GroupPart {
    /// The group's own name.
    pub name: Text,
    /// Its label.
    pub label: Text,
    /// The paths of its direct members.
    pub members: Items<Text>,
}

/// A book that a policy names. It is given as it was written, and may be wrong.
#[derive(Debug, Drop)]
pub struct BookPart {
    /// The book's own name.
    pub name: Text,
    /// Its label.
    pub label: Text,
    /// The path of its owner, if it has one.
    pub owner: Option<Text>,
}

/// An entry of a policy. Where it stands is given as it was written, and may be wrong.
#[derive(Debug, Drop)]
pub struct EntryPart {
    /// The path of the resource at which it stands.
    pub at: Text,
    /// Whether it stands in the protected list there, and else in the own list.
    pub protected: bool,
    /// The entry.
    pub entry: Entry,
}

/// A book of a policy.
#[derive(Debug, Drop)]
pub struct PolicyBook {
    /// At most 256 bytes.
    pub label: Text,
    /// A person or a group of the policy, if the book has an owner.
    pub owner: Option<Principal>,
}

/// A copy equals its source. An error is want of memory.
impl Clone for PolicyBook {
    ghost is_clone = { λ source copy. copy ≡ source };

    fn clone(&self) -> Result<PolicyBook, AllocError> {
        Ok(PolicyBook {
            label: self.label.clone()?,
            owner: self.owner.clone()?,
        })
    }
}

/// An entry of a policy, with the place where it stands.
#[derive(Debug, Drop)]
pub struct PolicyEntry {
    /// The text of the path of the root, a home, or a person, a group or a book of the policy.
    pub at: Text,
    /// Whether it stands in the protected list there, and else in the own list.
    pub protected: bool,
    /// The entry. Its principal is a person or a group of the policy.
    pub entry: Entry,
}

/// A copy equals its source. An error is want of memory.
impl Clone for PolicyEntry {
    ghost is_clone = { λ source copy. copy ≡ source };

    fn clone(&self) -> Result<PolicyEntry, AllocError> {
        Ok(PolicyEntry {
            at: self.at.clone()?,
            protected: self.protected,
            entry: self.entry.clone()?,
        })
    }
}

/// Everything that a policy says.
#[derive(Debug, Drop)]
pub struct PolicyTables {
    /// The labels of the persons, by name; at most 1,000.
    pub persons: NameMap<Text>,
    /// The labels of the groups, by name; at most 1,000.
    pub groups: NameMap<Text>,
    /// The books, by name; at most 1,000.
    pub books: NameMap<PolicyBook>,
    /// The direct members of the groups; at most 1,000 of each.
    pub members: Pairs,
    /// The entries, in order; at most 64 in each list of each place.
    pub entries: Items<PolicyEntry>,
}

/// A copy equals its source. An error is want of memory.
impl Clone for PolicyTables {
    ghost is_clone = { λ source copy. copy ≡ source };

    fn clone(&self) -> Result<PolicyTables, AllocError> {
        Ok(PolicyTables {
            persons: self.persons.clone()?,
            groups: self.groups.clone()?,
            books: self.books.clone()?,
            members: self.members.clone()?,
            entries: self.entries.clone()?,
        })
    }
}
