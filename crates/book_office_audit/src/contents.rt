//! What an audit tells, in the order in which it is read.

use book_lists::Principal;
use book_office::{Listed, Lists};
use book_office_values::{Items, Text};

/// The root and the homes.
#[derive(Debug, Drop)]
pub struct Top {
    /// The owner of the root.
    pub owner: Option<Principal>,
    /// The lists of the root.
    pub lists: Lists,
    /// The homes.
    pub homes: Items<Listed>,
}

/// What stands in the homes.
#[derive(Debug, Drop)]
pub struct Residents {
    /// The persons.
    pub persons: Items<Listed>,
    /// The groups.
    pub groups: Items<Listed>,
    /// The books, without their cards.
    pub books: Items<Listed>,
}

/// The cards of a book.
#[derive(Debug, Drop)]
pub struct Shelf {
    /// The text of the book's path.
    pub book: Text,
    /// The cards, without their texts.
    pub cards: Items<Listed>,
}

/// All resources.
#[derive(Debug, Drop)]
pub struct Contents {
    /// The root and the homes.
    pub top: Top,
    /// What stands in the homes.
    pub residents: Residents,
    /// The cards, by book.
    pub shelves: Items<Shelf>,
}
