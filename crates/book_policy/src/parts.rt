//! The parts that a text spells, before its names are looked at.

use book_office_values::{Items, Text};
use book_policy_values::{BookPart, GroupPart, PersonPart};

/// An entry as it was written; what it names may be wrong.
#[derive(Drop)]
pub(crate) struct EntryText {
    /// The path of the resource at which it stands.
    pub(crate) at: Text,
    /// A word for a principal form, or the path of a principal.
    pub(crate) who: Text,
    /// Whether it applies where its form does not.
    pub(crate) invert: bool,
    /// Whether it denies, and else grants.
    pub(crate) deny: bool,
    /// The names of its privileges, 1 to 16.
    pub(crate) names: Items<Text>,
    /// Whether it stands in the protected list, and else in the own list.
    pub(crate) protected: bool,
}

/// What a text of the right shape says.
#[derive(Drop)]
pub(crate) struct Parts {
    /// The persons, in order.
    pub(crate) persons: Items<PersonPart>,
    /// The groups, in order.
    pub(crate) groups: Items<GroupPart>,
    /// The books, in order.
    pub(crate) books: Items<BookPart>,
    /// The entries, in order.
    pub(crate) entries: Items<EntryText>,
}
