//! What a sync report says.

use book_lists::Name;
use book_office_values::{Items, Text};

/// A place in the history of a book.
#[derive(Debug, Drop)]
pub struct Token {
    /// The book.
    pub book: Name,
    /// The access epoch.
    pub epoch: u64,
    /// The number of the last change that is known.
    pub number: u64,
}

/// What a report says of a card that is there and may be read.
#[derive(Debug, Drop)]
pub struct Found {
    /// Its label.
    pub label: Text,
    /// Its text.
    pub text: Text,
}

/// A name that changed: its card, or none where it is removed or may not be read.
#[derive(Debug, Drop)]
pub struct Item {
    /// The name.
    pub name: Name,
    /// The number of its last change.
    pub number: u64,
    /// What is there.
    pub found: Option<Found>,
}

/// The names that changed, in order of their numbers, and the place to which they bring a copy.
#[derive(Debug, Drop)]
pub struct Report {
    /// One for each name.
    pub items: Items<Item>,
    /// Whether changes remain.
    pub truncated: bool,
    /// The place.
    pub token: Token,
}

/// A card as a caller sees it.
#[derive(Clone, Debug, Drop)]
pub struct Seen {
    /// The number of its last change.
    pub number: u64,
    /// Its label.
    pub label: Text,
    /// Its text.
    pub text: Text,
}
