//! Entries as a request submits them, before they are checked.

ghost use Rattle.std.specs.Prelude.{◌≡◌, ◌≢◌, List, None};
ghost use Rattle.book_lists.specs.declared.entries.Entry.{Entry};
ghost use Rattle.book_lists.specs.ListEdits.{IsFaultless, entry_of};

use crate::entries::{Entry, Who};
use book_rights::LeafSet;

/// An entry of the list that an ACL submits (RFC 3744, section 8.1), as it was read.
#[derive(Debug, Drop)]
pub struct Submitted {
    /// Its principal form; none where the text is no form and no path of a person or a group.
    pub who: Option<Who>,
    /// Whether it applies where its form does not.
    pub invert: bool,
    /// Whether it denies, and else grants.
    pub deny: bool,
    /// Its leaves; none where one of its names is no privilege.
    pub set: Option<LeafSet>,
    /// Whether it is marked as protected.
    pub protected: bool,
    /// Whether it is marked as inherited.
    pub inherited: bool,
}

impl Submitted {
    /// The entry that was submitted; none where its principal is not recognized or a privilege not supported, and so
    /// never of a list that `check_edit` accepts. Takes no memory.
    pub fn into_entry(self) -> Option<Entry>
        ensures entry { result ≡ entry_of self }
        ensures faultless { (protected : List Entry) → IsFaultless protected self → result ≢ None }
    {
        match (self.who, self.set) {
            (Some(who), Some(set)) => Some(Entry {
                who,
                invert: self.invert,
                deny: self.deny,
                set,
            }),
            _ => None,
        }
    }
}
