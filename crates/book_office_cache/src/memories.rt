//! What is remembered, had as it is or by a reference.

ghost use Rattle.std.specs.Prelude.{◌≡◌, IfOk, IsTrue, nat_lt, true};
ghost use Rattle.std.specs.FinMap.{get};
ghost use Rattle.book_office_cache.specs.Remembering.{Follows, Forgets, Held, Learns, Remembers, bare_level, lent_memory, own_memory};
ghost use Rattle.book_lists.specs.Callers.{IsCircle};
ghost use Rattle.book_lists.specs.Principals.{person_path};
ghost use Rattle.book_lists.specs.declared.circles.Caller.TheVariants.{Known};
ghost use Rattle.book_office.specs.Levels.{level_at};
ghost use Rattle.book_office.specs.Resources.{children_at, count_at, node_at};
ghost use Rattle.book_office_values.specs.declared.offices.Office.{Office as OfficeOf};
ghost use Rattle.book_office_values.specs.declared.paths.Path.TheVariants as paths;

use crate::remembered::Remembered;
use book_lists::{Circle, Name};
use book_office::{Edit, Items, Level, Listed, Node};
use std::alloc::{AllocError, Global};

/// What is remembered of an Office, had as it is or by a reference.
///
/// An implementation says what that is, and by which references it is had (`held`); these stay the same.
pub trait Memories {
    ghost held: { Self → Held };

    /// The circle of the person of a name, if it is remembered. An error is want of memory.
    fn circle(&self, name: &Name) -> Result<Option<Circle>, AllocError>
        ensures { IfOk result (λ circle. circle ≡ get (held self.now).remembered.circles name.now) };

    /// Remembers the circle of a person, if memory is not refused.
    fn keep_circle(&mut self, alloc: Global, name: &Name, circle: &Circle)
        ensures { Learns (held self.old) (held self.new)
            (λ o. IsCircle o.pairs (Known (person_path name.now)) circle.now) };

    /// The person of a name, if it is remembered. An error is want of memory.
    fn person(&self, name: &Name) -> Result<Option<Node>, AllocError>
        ensures { IfOk result (λ node. node ≡ get (held self.now).remembered.persons name.now) };

    /// Remembers a person, if there is one of that name and memory is not refused.
    fn keep_person(&mut self, name: &Name, node: &Option<Node>)
        ensures { Learns (held self.old) (held self.new)
            (λ o. node.now ≡ node_at o (paths.Person name.now)) };

    /// The book of a name, if it is remembered. An error is want of memory.
    fn book_node(&self, name: &Name) -> Result<Option<Node>, AllocError>
        ensures { IfOk result (λ node. node ≡ get (held self.now).remembered.book_nodes name.now) };

    /// Remembers a book, if there is one of that name and memory is not refused.
    fn keep_book_node(&mut self, name: &Name, node: &Option<Node>)
        ensures { Learns (held self.old) (held self.new)
            (λ o. node.now ≡ node_at o (paths.Book name.now)) };

    /// The lists of the root, if they are remembered. An error is want of memory.
    fn root(&self) -> Result<Option<Level>, AllocError>
        ensures { IfOk result (λ level. level ≡ (held self.now).remembered.root) };

    /// Remembers the lists of the root, if memory is not refused.
    fn keep_root(&mut self, level: &Level)
        ensures { Learns (held self.old) (held self.new) (λ o. level.now ≡ level_at o paths.Root) };

    /// The lists of the books' home, if they are remembered. An error is want of memory.
    fn home(&self) -> Result<Option<Level>, AllocError>
        ensures { IfOk result (λ level. level ≡ (held self.now).remembered.home) };

    /// Remembers the lists of the books' home, if memory is not refused.
    fn keep_home(&mut self, level: &Level)
        ensures { Learns (held self.old) (held self.new) (λ o. level.now ≡ level_at o paths.Books) };

    /// The lists of the book of a name, if they are remembered. An error is want of memory.
    fn book(&self, name: &Name) -> Result<Option<Level>, AllocError>
        ensures { IfOk result (λ level. level ≡ get (held self.now).remembered.books name.now) };

    /// Remembers the lists of a book, if memory is not refused.
    fn keep_book(&mut self, alloc: Global, name: &Name, level: &Level)
        ensures { Learns (held self.old) (held self.new)
            (λ o. level.now ≡ level_at o (paths.Book name.now)) };

    /// Whether it is remembered that no card of that name has entries. Takes no memory.
    fn is_bare(&self, book: &Name, card: &Name) -> bool
        ensures { (o : OfficeOf) → Remembers (held self.now).remembered o → IsTrue result
            → bare_level (paths.Card book.now card.now) ≡ level_at o (paths.Card book.now card.now) };

    /// Remembers that no card of that name has entries, where these are its lists and memory is not refused.
    fn keep_bare(&mut self, alloc: Global, book: &Name, card: &Name, level: &Level)
        ensures { Learns (held self.old) (held self.new)
            (λ o. level.now ≡ level_at o (paths.Card book.now card.now)) };

    /// Remembers that no card of a book has entries, where these are all its cards and memory is not refused.
    fn keep_cards(&mut self, alloc: Global, book: &Name, cards: &Items<Listed>)
        ensures { Learns (held self.old) (held self.new)
            (λ o. cards.now ≡ children_at o (paths.Book book.now)) };

    /// Whether it is remembered that a book has fewer cards than so many. Takes no memory.
    fn has_room(&self, book: &Name, most: usize) -> bool
        ensures { (o : OfficeOf) → Remembers (held self.now).remembered o → IsTrue result
            → nat_lt (count_at o (paths.Book book.now)) most ≡ true };

    /// Remembers how many cards a book has, if memory is not refused.
    fn keep_count(&mut self, book: &Name, count: usize)
        ensures { Learns (held self.old) (held self.new)
            (λ o. count ≡ count_at o (paths.Book book.now)) };

    /// Remembers what is true after an edit. A new book may take memory; where it is refused, less is remembered.
    fn follow(&mut self, alloc: Global, edit: &Edit)
        ensures { Follows (held self.old) (held self.new) edit.now };

    /// Forgets all. Takes no memory.
    fn forget(&mut self, alloc: Global)
        ensures { Forgets (held self.old) (held self.new) };
}

impl Memories for Remembered {
    ghost held = { λ r. own_memory r };

    fn circle(&self, name: &Name) -> Result<Option<Circle>, AllocError> {
        Remembered::circle(self, name)
    }

    fn keep_circle(&mut self, alloc: Global, name: &Name, circle: &Circle) {
        Remembered::keep_circle(self, alloc, name, circle);
    }

    fn person(&self, name: &Name) -> Result<Option<Node>, AllocError> {
        Remembered::person(self, name)
    }

    fn keep_person(&mut self, name: &Name, node: &Option<Node>) {
        Remembered::keep_person(self, name, node);
    }

    fn book_node(&self, name: &Name) -> Result<Option<Node>, AllocError> {
        Remembered::book_node(self, name)
    }

    fn keep_book_node(&mut self, name: &Name, node: &Option<Node>) {
        Remembered::keep_book_node(self, name, node);
    }

    fn root(&self) -> Result<Option<Level>, AllocError> {
        Remembered::root(self)
    }

    fn keep_root(&mut self, level: &Level) {
        Remembered::keep_root(self, level);
    }

    fn home(&self) -> Result<Option<Level>, AllocError> {
        Remembered::home(self)
    }

    fn keep_home(&mut self, level: &Level) {
        Remembered::keep_home(self, level);
    }

    fn book(&self, name: &Name) -> Result<Option<Level>, AllocError> {
        Remembered::book(self, name)
    }

    fn keep_book(&mut self, alloc: Global, name: &Name, level: &Level) {
        Remembered::keep_book(self, alloc, name, level);
    }

    fn is_bare(&self, book: &Name, card: &Name) -> bool {
        Remembered::is_bare(self, book, card)
    }

    fn keep_bare(&mut self, alloc: Global, book: &Name, card: &Name, level: &Level) {
        Remembered::keep_bare(self, alloc, book, card, level);
    }

    fn keep_cards(&mut self, alloc: Global, book: &Name, cards: &Items<Listed>) {
        Remembered::keep_cards(self, alloc, book, cards);
    }

    fn has_room(&self, book: &Name, most: usize) -> bool {
        Remembered::has_room(self, book, most)
    }

    fn keep_count(&mut self, book: &Name, count: usize) {
        Remembered::keep_count(self, book, count);
    }

    fn follow(&mut self, alloc: Global, edit: &Edit) {
        Remembered::follow(self, alloc, edit);
    }

    fn forget(&mut self, alloc: Global) {
        Remembered::forget(self, alloc);
    }
}

/// What is remembered where it is lent.
impl Memories for &mut Remembered {
    ghost held = { λ r. lent_memory r.ghost_name r.now };

    fn circle(&self, name: &Name) -> Result<Option<Circle>, AllocError> {
        Remembered::circle(&**self, name)
    }

    fn keep_circle(&mut self, alloc: Global, name: &Name, circle: &Circle) {
        Remembered::keep_circle(&mut **self, alloc, name, circle);
    }

    fn person(&self, name: &Name) -> Result<Option<Node>, AllocError> {
        Remembered::person(&**self, name)
    }

    fn keep_person(&mut self, name: &Name, node: &Option<Node>) {
        Remembered::keep_person(&mut **self, name, node);
    }

    fn book_node(&self, name: &Name) -> Result<Option<Node>, AllocError> {
        Remembered::book_node(&**self, name)
    }

    fn keep_book_node(&mut self, name: &Name, node: &Option<Node>) {
        Remembered::keep_book_node(&mut **self, name, node);
    }

    fn root(&self) -> Result<Option<Level>, AllocError> {
        Remembered::root(&**self)
    }

    fn keep_root(&mut self, level: &Level) {
        Remembered::keep_root(&mut **self, level);
    }

    fn home(&self) -> Result<Option<Level>, AllocError> {
        Remembered::home(&**self)
    }

    fn keep_home(&mut self, level: &Level) {
        Remembered::keep_home(&mut **self, level);
    }

    fn book(&self, name: &Name) -> Result<Option<Level>, AllocError> {
        Remembered::book(&**self, name)
    }

    fn keep_book(&mut self, alloc: Global, name: &Name, level: &Level) {
        Remembered::keep_book(&mut **self, alloc, name, level);
    }

    fn is_bare(&self, book: &Name, card: &Name) -> bool {
        Remembered::is_bare(&**self, book, card)
    }

    fn keep_bare(&mut self, alloc: Global, book: &Name, card: &Name, level: &Level) {
        Remembered::keep_bare(&mut **self, alloc, book, card, level);
    }

    fn keep_cards(&mut self, alloc: Global, book: &Name, cards: &Items<Listed>) {
        Remembered::keep_cards(&mut **self, alloc, book, cards);
    }

    fn has_room(&self, book: &Name, most: usize) -> bool {
        Remembered::has_room(&**self, book, most)
    }

    fn keep_count(&mut self, book: &Name, count: usize) {
        Remembered::keep_count(&mut **self, book, count);
    }

    fn follow(&mut self, alloc: Global, edit: &Edit) {
        Remembered::follow(&mut **self, alloc, edit);
    }

    fn forget(&mut self, alloc: Global) {
        Remembered::forget(&mut **self, alloc);
    }
}
