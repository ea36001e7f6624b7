//! What the lines before one told: the path of the last, the root and the homes, and the books.

use crate::faults::{LineProblem, ReadFault, Spot};
use book_dumps::Removed;
use book_limits::{MAX_BOOKS, MAX_CARDS};
use book_lists::Name;
use book_office_values::Path;
use std::alloc::{AllocError, Global};
use std::collections::{BTreeMap, BTreeSet};

/// What was told of a book.
#[derive(Drop)]
struct SeenBook {
    /// The number of its last change.
    number: u64,
    /// How many of its cards were told.
    cards: usize,
    /// The numbers of the last changes of its names.
    numbers: BTreeSet<u64>,
    /// Its removed names.
    removed: BTreeSet<String>,
}

/// What was told before a line.
#[derive(Drop)]
pub(crate) struct Seen {
    /// The text of the last path; empty before the first.
    last: String,
    /// How many of the root and the homes were told, in the order of their paths.
    fixed: usize,
    books: BTreeMap<String, SeenBook>,
}

/// How many of the root, `/books`, `/groups` and `/people` stand before a path.
fn fixed_before(path: &Path) -> usize {
    match path {
        Path::Root => 0,
        Path::Books => 1,
        Path::Book(_) | Path::Card(_, _) | Path::Groups => 2,
        Path::Group(_) | Path::People => 3,
        Path::Person(_) => 4,
    }
}

/// Whether the path is the root's or a home's.
fn is_fixed(path: &Path) -> bool {
    match path {
        Path::Root | Path::Books | Path::Groups | Path::People => true,
        Path::Book(_) | Path::Card(_, _) | Path::Group(_) | Path::Person(_) => false,
    }
}

/// Copies of texts of names, as a set. An error is want of memory.
fn texts_of(alloc: Global, removed: &[Removed]) -> Result<BTreeSet<String>, AllocError> {
    let mut texts = BTreeSet::new(alloc);
    for name in removed {
        texts.insert(String::from_str(alloc, name.name.text())?)?;
    }
    Ok(texts)
}

/// The numbers of names, as a set. An error is want of memory.
fn numbers_of(alloc: Global, removed: &[Removed]) -> Result<BTreeSet<u64>, AllocError> {
    let mut numbers = BTreeSet::new(alloc);
    for name in removed {
        numbers.insert(name.number)?;
    }
    Ok(numbers)
}

impl Seen {
    /// Nothing was told.
    pub(crate) fn new(alloc: Global) -> Seen {
        Seen {
            last: String::new(alloc),
            fixed: 0,
            books: BTreeMap::new(alloc),
        }
    }

    /// Whether the root and the homes were told.
    pub(crate) fn has_homes(&self) -> bool {
        self.fixed == 4
    }

    /// A path with its text, which may be the next: it is above the last, no home is missing before it, and there may
    /// be one more of its kind.
    pub(crate) fn add_path(
        &mut self,
        path: &Path,
        text: &str,
        spot: Spot,
    ) -> Result<(), ReadFault> {
        if text <= self.last.as_str() {
            return Err(spot.fault(LineProblem::Order));
        }
        if fixed_before(path) != self.fixed {
            return Err(spot.bad());
        }
        if is_fixed(path) {
            self.fixed = self.fixed.saturating_add(1);
        }
        self.last.clear();
        self.last.push_str(text)?;
        match path {
            Path::Book(_) if self.books.len() >= MAX_BOOKS => {
                Err(spot.fault(LineProblem::TooMany))
            }
            Path::Card(book, card) => self.add_card(book, card, spot),
            _ => Ok(()),
        }
    }

    /// A card: its book was told, and may have one more, and the name is none of its removed names.
    fn add_card(&mut self, book: &Name, card: &Name, spot: Spot) -> Result<(), ReadFault> {
        let Some(seen) = self.books.get_mut(book.text()) else {
            return Err(spot.fault(LineProblem::BadName));
        };
        if seen.cards >= MAX_CARDS {
            return Err(spot.fault(LineProblem::TooMany));
        }
        seen.cards = seen.cards.saturating_add(1);
        if seen.removed.contains(card.text()) {
            return Err(spot.bad());
        }
        Ok(())
    }

    /// The number of a card: it is from 1 to that of its book, and no other name of the book has it.
    pub(crate) fn add_number(
        &mut self,
        book: &Name,
        number: u64,
        spot: Spot,
    ) -> Result<(), ReadFault> {
        let Some(seen) = self.books.get_mut(book.text()) else {
            return Err(spot.bad());
        };
        if number == 0 || number > seen.number || !seen.numbers.insert(number)? {
            return Err(spot.bad());
        }
        Ok(())
    }

    /// A book, with the number of its last change and its removed names, of which each is there once.
    pub(crate) fn add_book(
        &mut self,
        alloc: Global,
        book: &Name,
        number: u64,
        removed: &[Removed],
        spot: Spot,
    ) -> Result<(), ReadFault> {
        let texts = texts_of(alloc, removed)?;
        if texts.len() < removed.len() {
            return Err(spot.bad());
        }
        let seen = SeenBook {
            number,
            cards: 0,
            numbers: numbers_of(alloc, removed)?,
            removed: texts,
        };
        let name = String::from_str(alloc, book.text())?;
        let _before = self.books.insert(name, seen)?;
        Ok(())
    }
}
