//! What a dump tells of a resource.

use book_lists::{Entry, Name, Principal};
use book_office_values::{Items, Path, Text};

/// A name of a book that has no card any more.
#[derive(Debug, Drop)]
pub struct Removed {
    /// The name.
    pub name: Name,
    /// The number of its last change, at least 1.
    pub number: u64,
}

/// A resource, as a line of a dump tells it.
#[derive(Debug, Drop)]
pub struct Line {
    /// Where it is.
    pub path: Path,
    /// The person or group that owns it.
    pub owner: Option<Principal>,
    /// Its label, at most 256 bytes.
    pub label: Text,
    /// The protected list that stands at it.
    pub protected: Items<Entry>,
    /// The own list that stands at it.
    pub own: Items<Entry>,
    /// The direct members of a group, in byte order; none of other resources.
    pub members: Items<Principal>,
    /// The number of a card's last change, or of a book's; none of other resources.
    pub number: Option<u64>,
    /// The removed names of a book, in order of number; none of other resources.
    pub removed: Items<Removed>,
    /// A card's text; none of other resources.
    pub text: Option<Text>,
}
