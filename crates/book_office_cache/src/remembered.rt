//! What is remembered of an Office.

ghost use Rattle.std.specs.Prelude.{◌≡◌, ◌⊎◌, ◌+◌, ◌<◌, ◌^◌, ℕ, List, Option, IfOk, IfSome, IsFalse, IsTrue, is_some, true, nat_lt};
ghost use Rattle.std.specs.FinMap.{empty, get, remove};
ghost use Rattle.std.specs.List.{list_all};
ghost use Rattle.book_office_cache.specs.Remembering.{AreAllBare, AreBare, Remembers, bare_level, has_no_list, with_next_number, one_card_more};
ghost use Rattle.book_lists.specs.Callers.{IsCircle};
ghost use Rattle.book_lists.specs.Principals.{person_path};
ghost use Rattle.book_lists.specs.declared.circles.Caller.TheVariants.{Known};
ghost use Rattle.book_lists.specs.declared.entries.Entry.{Entry as EntryOf};
ghost use Rattle.book_office.specs.Edits.{apply};
ghost use Rattle.book_office.specs.Levels.{level_at};
ghost use Rattle.book_office.specs.Resources.{children_at, count_at, node_at};
ghost use Rattle.book_office.specs.declared.edits.Edit.TheVariants.{AddBook, MoveCard, SetLabel, SetList};
ghost use Rattle.book_office_values.specs.Names.{changed_at};
ghost use Rattle.book_office_values.specs.declared.offices.Office.{Office as OfficeOf};
ghost use Rattle.book_office_values.specs.declared.paths.Path.TheVariants as paths;

use book_limits::{MAX_BOOKS, MAX_CARDS};
use book_lists::{Circle, Name};
use book_office::{Edit, Items, Level, Listed, NameMap, Node, Path};
use std::alloc::{AllocError, Global};
use std::mem;

/// What is remembered of an Office, which `Cached` fills. It is no more than the Office has without its cards, 10,000 names of cards, 1,000
/// names of books, and the circles of 1,000 persons.
#[derive(Drop)]
pub struct Remembered {
    /// The circles of persons.
    pub(crate) circles: NameMap<Circle>,
    /// Persons.
    pub(crate) persons: NameMap<Node>,
    /// The lists of the root.
    pub(crate) root: Option<Level>,
    /// The lists of the books' home.
    pub(crate) home: Option<Level>,
    /// The lists of books.
    pub(crate) books: NameMap<Level>,
    /// Books.
    pub(crate) book_nodes: NameMap<Node>,
    /// By the name of a book, names of which no card has entries.
    pub(crate) bare: NameMap<NameMap<()>>,
    /// At least how many these are.
    pub(crate) bare_count: usize,
    /// Names of books of which no card has entries.
    pub(crate) bare_books: NameMap<()>,
    /// By the name of a book, at most how many cards it has.
    pub(crate) counts: NameMap<usize>,
}

/// At most so many circles of persons are remembered.
const MAX_CIRCLES: usize = 1_000;

/// A copy of a resource.
fn copy_of_node(node: &Node) -> Result<Node, AllocError>
    ensures { IfOk result (λ copy. copy ≡ node.now) }
{
    Ok(Node {
        kind: node.kind,
        owner: node.owner.clone()?,
        label: node.label.clone()?,
        text: node.text.clone()?,
        number: node.number,
    })
}

/// A copy of the resource of a name, if it is there.
fn copy_in(nodes: &NameMap<Node>, name: &Name) -> Result<Option<Node>, AllocError>
    ensures { IfOk result (λ node. node ≡ get nodes.now name.now) }
{
    match nodes.get(name) {
        Some(node) => Ok(Some(copy_of_node(node)?)),
        None => Ok(None),
    }
}

/// Gives the resource of a name the next number, if it is there.
fn raise(nodes: &mut NameMap<Node>, name: &Name)
    requires { IfSome (get nodes.old name.now) (λ node. node.number + 1 < 2 ^ 64) }
    ensures { nodes.new ≡ changed_at with_next_number nodes.old name.now }
{
    if let Some(node) = nodes.get_mut(name) {
        node.number += 1;
    }
}

/// Whether the resource of a name has the last number that there is.
fn is_at_last(nodes: &NameMap<Node>, name: &Name) -> bool
    ensures { IsFalse result → IfSome (get nodes.now name.now) (λ node. node.number + 1 < 2 ^ 64) }
{
    match nodes.get(name) {
        Some(node) => node.number >= u64::MAX,
        None => false,
    }
}

/// Gives the resource of a name the next number, or forgets it where there is none.
fn count_change(nodes: &mut NameMap<Node>, name: &Name)
    ensures { (nodes.new ≡ changed_at with_next_number nodes.old name.now)
        ⊎ (nodes.new ≡ remove nodes.old name.now) }
{
    if is_at_last(nodes, name) {
        drop(nodes.remove(name));
    } else {
        raise(nodes, name);
    }
}

/// Counts a card more in a book, if its cards are counted.
fn add_card(counts: &mut NameMap<usize>, book: &Name)
    requires { IfSome (get counts.old book.now) (λ count. count + 1 < 2 ^ 64) }
    ensures { counts.new ≡ changed_at one_card_more counts.old book.now }
{
    if let Some(count) = counts.get_mut(book) {
        *count += 1;
    }
}

/// Whether a book is told to have at most as many cards as can be counted.
fn is_counted_out(counts: &NameMap<usize>, book: &Name) -> bool
    ensures { IsFalse result → IfSome (get counts.now book.now) (λ count. count + 1 < 2 ^ 64) }
{
    match counts.get(book) {
        Some(count) => *count >= usize::MAX,
        None => false,
    }
}

/// Counts a card more in a book, or forgets how many it has where they can't be counted.
fn count_card(counts: &mut NameMap<usize>, book: &Name)
    ensures { (counts.new ≡ changed_at one_card_more counts.old book.now)
        ⊎ (counts.new ≡ remove counts.old book.now) }
{
    if is_counted_out(counts, book) {
        counts.remove(book);
    } else {
        add_card(counts, book);
    }
}

/// A copy of the lists at a path.
fn copy_of_level(level: &Level) -> Result<Level, AllocError>
    ensures { IfOk result (λ copy. copy ≡ level.now) }
{
    Ok(Level {
        path: level.path.clone()?,
        protected: level.protected.clone()?,
        own: level.own.clone()?,
    })
}

/// The lists of a card without entries.
pub(crate) fn bare_level(alloc: Global, path: &Path) -> Result<Level, AllocError>
    ensures { IfOk result (λ level. level ≡ bare_level path.now) }
{
    Ok(Level {
        path: path.clone()?,
        protected: Items::new(alloc),
        own: Items::new(alloc),
    })
}

/// Whether there are no entries at a path.
fn is_empty(level: &Level) -> bool
    ensures { IsTrue result → level.now ≡ bare_level level.now.path }
{
    level.protected.len() == 0 && level.own.len() == 0
}

/// Whether no own list stands at a child.
fn has_no_list(child: &Listed) -> bool
    ensures { result ≡ has_no_list child.now }
{
    child.own.len() == 0
}

/// Whether no own list stands at any child.
fn have_no_lists(children: &[Listed]) -> bool
    ensures { result ≡ list_all has_no_list children.now }
{
    children.iter().all(|child| has_no_list(child))
}

impl Remembered {
    /// Nothing is remembered. Takes no memory.
    pub(crate) fn new(alloc: Global) -> Remembered
        ensures { (o : OfficeOf) → Remembers result o }
    {
        Remembered {
            circles: NameMap::new(alloc),
            persons: NameMap::new(alloc),
            root: None,
            home: None,
            books: NameMap::new(alloc),
            book_nodes: NameMap::new(alloc),
            bare: NameMap::new(alloc),
            bare_count: 0,
            bare_books: NameMap::new(alloc),
            counts: NameMap::new(alloc),
        }
    }

    /// The circle of the person of a name, if it is remembered. An error is want of memory.
    pub(crate) fn circle(&self, name: &Name) -> Result<Option<Circle>, AllocError>
        ensures { IfOk result (λ circle. circle ≡ get self.now.circles name.now) }
    {
        match self.circles.get(name) {
            Some(circle) => Ok(Some(circle.clone()?)),
            None => Ok(None),
        }
    }

    /// Forgets the circles of persons where there are as many as there may be.
    fn make_circle_room(&mut self, alloc: Global)
        ensures { (o : OfficeOf) → Remembers self.old o → Remembers self.new o }
    {
        if self.circles.len() >= MAX_CIRCLES {
            self.circles = NameMap::new(alloc);
        }
    }

    /// Remembers the circle of a person. An error is want of memory.
    fn try_circle(&mut self, name: &Name, circle: &Circle) -> Result<(), AllocError>
        ensures { (o : OfficeOf) → Remembers self.old o
            → IsCircle o.pairs (Known (person_path name.now)) circle.now → Remembers self.new o }
    {
        let name = name.clone()?;
        let circle = circle.clone()?;
        drop(self.circles.insert(name, circle)?);
        Ok(())
    }

    /// Remembers the circle of a person, if memory is not refused.
    pub(crate) fn keep_circle(&mut self, alloc: Global, name: &Name, circle: &Circle)
        ensures { (o : OfficeOf) → Remembers self.old o
            → IsCircle o.pairs (Known (person_path name.now)) circle.now → Remembers self.new o }
    {
        self.make_circle_room(alloc);
        let _ = self.try_circle(name, circle);
    }

    /// The person of a name, if it is remembered. An error is want of memory.
    pub(crate) fn person(&self, name: &Name) -> Result<Option<Node>, AllocError>
        ensures { IfOk result (λ node. node ≡ get self.now.persons name.now) }
    {
        copy_in(&self.persons, name)
    }

    /// Remembers a person, if there is one of that name. An error is want of memory.
    fn try_person(&mut self, name: &Name, node: &Option<Node>) -> Result<(), AllocError>
        ensures { (o : OfficeOf) → Remembers self.old o
            → node.now ≡ node_at o (paths.Person name.now) → Remembers self.new o }
    {
        if let Some(node) = node {
            let name = name.clone()?;
            let node = copy_of_node(node)?;
            drop(self.persons.insert(name, node)?);
        }
        Ok(())
    }

    /// Remembers a person, if there is one of that name and memory is not refused.
    pub(crate) fn keep_person(&mut self, name: &Name, node: &Option<Node>)
        ensures { (o : OfficeOf) → Remembers self.old o
            → node.now ≡ node_at o (paths.Person name.now) → Remembers self.new o }
    {
        let _ = self.try_person(name, node);
    }

    /// The book of a name, if it is remembered. An error is want of memory.
    pub(crate) fn book_node(&self, name: &Name) -> Result<Option<Node>, AllocError>
        ensures { IfOk result (λ node. node ≡ get self.now.book_nodes name.now) }
    {
        copy_in(&self.book_nodes, name)
    }

    /// Remembers a book, if there is one of that name. An error is want of memory.
    fn try_book_node(&mut self, name: &Name, node: &Option<Node>) -> Result<(), AllocError>
        ensures { (o : OfficeOf) → Remembers self.old o → node.now ≡ node_at o (paths.Book name.now)
            → Remembers self.new o }
    {
        if let Some(node) = node {
            let name = name.clone()?;
            let node = copy_of_node(node)?;
            drop(self.book_nodes.insert(name, node)?);
        }
        Ok(())
    }

    /// Remembers a book, if there is one of that name and memory is not refused.
    pub(crate) fn keep_book_node(&mut self, name: &Name, node: &Option<Node>)
        ensures { (o : OfficeOf) → Remembers self.old o → node.now ≡ node_at o (paths.Book name.now)
            → Remembers self.new o }
    {
        let _ = self.try_book_node(name, node);
    }

    /// The lists of the root, if they are remembered. An error is want of memory.
    pub(crate) fn root(&self) -> Result<Option<Level>, AllocError>
        ensures { IfOk result (λ level. level ≡ self.now.root) }
    {
        match &self.root {
            Some(level) => Ok(Some(copy_of_level(level)?)),
            None => Ok(None),
        }
    }

    /// Remembers the lists of the root, if memory is not refused.
    pub(crate) fn keep_root(&mut self, level: &Level)
        ensures { (o : OfficeOf) → Remembers self.old o → level.now ≡ level_at o paths.Root
            → Remembers self.new o }
    {
        if let Ok(level) = copy_of_level(level) {
            self.root = Some(level);
        }
    }

    /// The lists of the books' home, if they are remembered. An error is want of memory.
    pub(crate) fn home(&self) -> Result<Option<Level>, AllocError>
        ensures { IfOk result (λ level. level ≡ self.now.home) }
    {
        match &self.home {
            Some(level) => Ok(Some(copy_of_level(level)?)),
            None => Ok(None),
        }
    }

    /// Remembers the lists of the books' home, if memory is not refused.
    pub(crate) fn keep_home(&mut self, level: &Level)
        ensures { (o : OfficeOf) → Remembers self.old o → level.now ≡ level_at o paths.Books
            → Remembers self.new o }
    {
        if let Ok(level) = copy_of_level(level) {
            self.home = Some(level);
        }
    }

    /// The lists of the book of a name, if they are remembered. An error is want of memory.
    pub(crate) fn book(&self, name: &Name) -> Result<Option<Level>, AllocError>
        ensures { IfOk result (λ level. level ≡ get self.now.books name.now) }
    {
        match self.books.get(name) {
            Some(level) => Ok(Some(copy_of_level(level)?)),
            None => Ok(None),
        }
    }

    /// Forgets the lists of books where there are as many as there may be.
    fn make_room(&mut self, alloc: Global)
        ensures { (o : OfficeOf) → Remembers self.old o → Remembers self.new o }
    {
        if self.books.len() >= MAX_BOOKS {
            self.books = NameMap::new(alloc);
        }
    }

    /// Remembers the lists of a book. An error is want of memory.
    fn try_book(&mut self, name: &Name, level: &Level) -> Result<(), AllocError>
        ensures { (o : OfficeOf) → Remembers self.old o
            → level.now ≡ level_at o (paths.Book name.now) → Remembers self.new o }
    {
        let name = name.clone()?;
        let level = copy_of_level(level)?;
        drop(self.books.insert(name, level)?);
        Ok(())
    }

    /// Remembers the lists of a book, if memory is not refused.
    pub(crate) fn keep_book(&mut self, alloc: Global, name: &Name, level: &Level)
        ensures { (o : OfficeOf) → Remembers self.old o
            → level.now ≡ level_at o (paths.Book name.now) → Remembers self.new o }
    {
        self.make_room(alloc);
        let _ = self.try_book(name, level);
    }

    /// Whether it is remembered that no card of a book has entries. Takes no memory.
    fn is_bare_book(&self, book: &Name) -> bool
        ensures { result ≡ is_some (get self.now.bare_books book.now) }
    {
        self.bare_books.get(book).is_some()
    }

    /// Whether it is remembered that no card of that name has entries. Takes no memory.
    pub(crate) fn is_bare(&self, book: &Name, card: &Name) -> bool
        ensures { (o : OfficeOf) → Remembers self.now o → IsTrue result
            → bare_level (paths.Card book.now card.now) ≡ level_at o (paths.Card book.now card.now) }
    {
        if self.is_bare_book(book) {
            return true;
        }
        match self.bare.get(book) {
            Some(cards) => cards.get(card).is_some(),
            None => false,
        }
    }

    /// Forgets which cards have no entries.
    fn forget_bare(&mut self, alloc: Global)
        ensures { (o : OfficeOf) → Remembers self.old o → Remembers self.new o }
    {
        self.bare = NameMap::new(alloc);
        self.bare_count = 0;
    }

    /// Forgets which cards have no entries where there are as many as there may be.
    fn make_bare_room(&mut self, alloc: Global)
        ensures { (o : OfficeOf) → Remembers self.old o → Remembers self.new o }
    {
        if self.bare_count >= MAX_CARDS {
            self.forget_bare(alloc);
        }
    }

    /// Takes out which cards of a book have no entries.
    fn take_bare(&mut self, alloc: Global, book: &Name) -> NameMap<()>
        ensures cards { (o : OfficeOf) → Remembers self.old o → AreBare o book.now result }
        ensures remembers { (o : OfficeOf) → Remembers self.old o → Remembers self.new o }
    {
        match self.bare.remove(book) {
            Some(cards) => cards,
            None => NameMap::new(alloc),
        }
    }

    /// Remembers that no card of that name has entries. An error is want of memory.
    fn try_bare(&mut self, alloc: Global, book: &Name, card: &Name) -> Result<(), AllocError>
        ensures { (o : OfficeOf) → Remembers self.old o
            → bare_level (paths.Card book.now card.now) ≡ level_at o (paths.Card book.now card.now)
            → Remembers self.new o }
    {
        let name = book.clone()?;
        let key = card.clone()?;
        let mut cards = self.take_bare(alloc, book);
        cards.insert(key, ())?;
        drop(self.bare.insert(name, cards)?);
        self.bare_count = self.bare_count.saturating_add(1);
        Ok(())
    }

    /// Remembers that no card of that name has entries, where these are its lists and memory is not refused.
    pub(crate) fn keep_bare(&mut self, alloc: Global, book: &Name, card: &Name, level: &Level)
        ensures { (o : OfficeOf) → Remembers self.old o
            → level.now ≡ level_at o (paths.Card book.now card.now) → Remembers self.new o }
    {
        if is_empty(level) {
            self.make_bare_room(alloc);
            let _ = self.try_bare(alloc, book, card);
        }
    }

    /// Forgets which books have no cards with entries where they are as many as there may be.
    fn make_bare_book_room(&mut self, alloc: Global)
        ensures { (o : OfficeOf) → Remembers self.old o → Remembers self.new o }
    {
        if self.bare_books.len() >= MAX_BOOKS {
            self.bare_books = NameMap::new(alloc);
        }
    }

    /// Remembers that no card of a book has entries. An error is want of memory.
    fn try_bare_book(&mut self, book: &Name) -> Result<(), AllocError>
        ensures { (o : OfficeOf) → Remembers self.old o → AreAllBare o book.now
            → Remembers self.new o }
    {
        let name = book.clone()?;
        self.bare_books.insert(name, ())?;
        Ok(())
    }

    /// Remembers that no card of a book has entries, if memory is not refused.
    fn keep_bare_book(&mut self, alloc: Global, book: &Name)
        ensures { (o : OfficeOf) → Remembers self.old o → AreAllBare o book.now
            → Remembers self.new o }
    {
        self.make_bare_book_room(alloc);
        let _ = self.try_bare_book(book);
    }

    /// Remembers that no card of a book has entries, where these are all its cards and memory is not refused.
    pub(crate) fn keep_cards(&mut self, alloc: Global, book: &Name, cards: &Items<Listed>)
        ensures { (o : OfficeOf) → Remembers self.old o
            → cards.now ≡ children_at o (paths.Book book.now) → Remembers self.new o }
    {
        if have_no_lists(cards.as_slice()) {
            self.keep_bare_book(alloc, book);
        }
    }

    /// Whether it is remembered that a book has fewer cards than so many. Takes no memory.
    pub(crate) fn has_room(&self, book: &Name, most: usize) -> bool
        ensures { (o : OfficeOf) → Remembers self.now o → IsTrue result
            → nat_lt (count_at o (paths.Book book.now)) most ≡ true }
    {
        match self.counts.get(book) {
            Some(count) => *count < most,
            None => false,
        }
    }

    /// Remembers how many cards a book has. An error is want of memory.
    fn try_count(&mut self, book: &Name, count: usize) -> Result<(), AllocError>
        ensures { (o : OfficeOf) → Remembers self.old o → count ≡ count_at o (paths.Book book.now)
            → Remembers self.new o }
    {
        let name = book.clone()?;
        self.counts.insert(name, count)?;
        Ok(())
    }

    /// Remembers how many cards a book has, if memory is not refused.
    pub(crate) fn keep_count(&mut self, book: &Name, count: usize)
        ensures { (o : OfficeOf) → Remembers self.old o → count ≡ count_at o (paths.Book book.now)
            → Remembers self.new o }
    {
        let _ = self.try_count(book, count);
    }

    /// Forgets all. Takes no memory.
    pub(crate) fn forget(&mut self, alloc: Global)
        ensures { (o : OfficeOf) → Remembers self.new o }
    {
        drop(mem::replace(self, Remembered::new(alloc)));
    }

    /// Forgets which cards of a book have no entries. Takes no memory.
    fn forget_bare_of(&mut self, book: &Name)
        ensures { self.new ≡ record self.old {
          bare = remove self.old.bare book.now;
          bare_books = remove self.old.bare_books book.now;
        } }
    {
        drop(self.bare.remove(book));
        self.bare_books.remove(book);
    }

    /// Forgets the book of a name and its lists, and nothing of its cards. Takes no memory.
    fn forget_book(&mut self, book: &Name)
        ensures { self.new ≡ record self.old {
          books = remove self.old.books book.now;
          book_nodes = remove self.old.book_nodes book.now;
        } }
    {
        drop(self.books.remove(book));
        drop(self.book_nodes.remove(book));
    }

    /// Forgets all of the book of a name. Takes no memory.
    fn forget_all_of(&mut self, book: &Name)
        ensures { self.new ≡ record self.old {
          books = remove self.old.books book.now;
          book_nodes = remove self.old.book_nodes book.now;
          bare = remove self.old.bare book.now;
          bare_books = remove self.old.bare_books book.now;
          counts = remove self.old.counts book.now;
        } }
    {
        self.forget_book(book);
        self.forget_bare_of(book);
        self.counts.remove(book);
    }

    /// Remembers what is true after a card was moved: the numbers of two books have changed, and one may have a card
    /// more, which has entries if it had.
    fn follow_move(&mut self, from_book: &Name, from_card: &Name, to_book: &Name)
        ensures { (o : OfficeOf) (to_card : List ℕ) → Remembers self.old o
            → Remembers self.new (apply o (MoveCard from_book.now from_card.now to_book.now to_card)) }
    {
        let bare = self.is_bare(from_book, from_card);
        drop(self.book_nodes.remove(from_book));
        drop(self.book_nodes.remove(to_book));
        count_card(&mut self.counts, to_book);
        if !bare {
            self.forget_bare_of(to_book);
        }
    }

    /// Remembers what is true after a book was added: no card of it has entries.
    fn follow_new_book(&mut self, alloc: Global, book: &Name)
        ensures { (o : OfficeOf) (owner : Option (List ℕ)) → Remembers self.old o
            → Remembers self.new (apply o (AddBook book.now owner)) }
    {
        self.forget_all_of(book);
        self.keep_bare_book(alloc, book);
    }

    /// Remembers what is true after a label was set: that of a card is a change of its book. Takes no memory.
    fn follow_label(&mut self, alloc: Global, path: &Path)
        ensures { (o : OfficeOf) (label : List ℕ) → Remembers self.old o
            → Remembers self.new (apply o (SetLabel path.now label)) }
    {
        match path {
            Path::Root => {}
            Path::People => {}
            Path::Groups => {}
            Path::Books => {}
            Path::Person(_) => self.persons = NameMap::new(alloc),
            Path::Group(_) => {}
            Path::Book(book) => self.forget_book(book),
            Path::Card(book, _) => drop(self.book_nodes.remove(book)),
        }
    }

    /// Remembers what is true after an own list was set: after that of a card, nothing of which cards of its book have
    /// no entries. Takes no memory.
    fn follow_list(&mut self, alloc: Global, path: &Path)
        ensures { (o : OfficeOf) (list : List EntryOf) → Remembers self.old o
            → Remembers self.new (apply o (SetList path.now list)) }
    {
        match path {
            Path::Root => self.root = None,
            Path::People => {}
            Path::Groups => {}
            Path::Books => self.home = None,
            Path::Person(_) => self.persons = NameMap::new(alloc),
            Path::Group(_) => {}
            Path::Book(book) => self.forget_book(book),
            Path::Card(book, _) => self.forget_bare_of(book),
        }
    }

    /// Remembers what is true after an edit: after a policy nothing, after one of direct members all but circles, and
    /// after each other all but what it may change. A new book may take memory; where it is refused, less is
    /// remembered.
    pub(crate) fn follow(&mut self, alloc: Global, edit: &Edit)
        ensures { (o : OfficeOf) → Remembers self.old o → Remembers self.new (apply o edit.now) }
    {
        match edit {
            Edit::PutCard { book, .. } => {
                count_change(&mut self.book_nodes, book);
                count_card(&mut self.counts, book);
            }
            Edit::RemoveCard { book, .. } => count_change(&mut self.book_nodes, book),
            Edit::CopyCard { to_book, .. } => {
                drop(self.book_nodes.remove(to_book));
                count_card(&mut self.counts, to_book);
            }
            Edit::MoveCard {
                from_book,
                from_card,
                to_book,
                ..
            } => self.follow_move(from_book, from_card, to_book),
            Edit::AddBook { book, .. } => self.follow_new_book(alloc, book),
            Edit::RemoveBook { book } => self.forget_all_of(book),
            Edit::SetLabel { path, .. } => self.follow_label(alloc, path),
            Edit::SetList { path, .. } => self.follow_list(alloc, path),
            Edit::SetMembers { .. } => self.circles = NameMap::new(alloc),
            Edit::Adopt { .. } => self.forget(alloc),
        }
    }
}
