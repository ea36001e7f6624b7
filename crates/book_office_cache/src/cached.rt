//! A keeper that remembers.

ghost use Rattle.std.specs.Prelude.{◌≡◌, ◌∷◌, ◌++◌, [], IfOk, IfSome, OnOk, codes, nat_lt};
ghost use Rattle.book_office_adopting.specs.Adopting.{adoption_of};
ghost use Rattle.book_office_cache.specs.Remembering.{EditsBehind, ReadsBehind, Remembers, remembering};
ghost use Rattle.book_lists.specs.Callers.{IsCircle};
ghost use Rattle.book_lists.specs.Memberships.{members_of};
ghost use Rattle.book_lists.specs.Principals.{person_path};
ghost use Rattle.book_lists.specs.declared.circles.Caller.TheVariants.{Known};
ghost use Rattle.book_office.specs.Levels.{level_at, lists_at};
ghost use Rattle.book_office_values.specs.Changes.{first_of};
ghost use Rattle.book_office.specs.Resources.{cards_after, changed_after, children_at, count_at, node_at};
ghost use Rattle.book_office_values.specs.declared.offices.Office.{Office as OfficeOf};
ghost use Rattle.book_office_values.specs.declared.paths.Path.TheVariants as paths;

use crate::memories::Memories;
use crate::remembered::{Remembered, bare_level};
use book_lists::{Caller, Circle, Name, Pairs, Principal};
use book_office::{
    Adoption, Changed, Edit, Items, Keeper, Level, Listed, Lists, Node, Path, Policy, StoreFault,
};
use std::alloc::{AllocError, Global};

/// A keeper in front of another, which remembers what it was told: the circles of persons, persons and books, the lists
/// of books and of what stands above them, which cards have no entries, of which books no card has, and at most how
/// many cards a book has.
///
/// It stands for what the keeper stands for. That no card of a book has entries is known of a book that was added, and
/// of one whose cards were told as children. After an edit it keeps what is still true. After one of a card's own list
/// it forgets which cards of the book have no entries; after a MOVE of a card that may have some, which cards of the
/// book where it comes; after one of members, all circles. After a policy, and an edit that fails, it forgets all.
///
/// What is remembered is its own, or in a round (`R`) that of the cache before the round.
#[derive(Drop)]
pub struct Cached<K, R = Remembered> {
    pub(crate) keeper: K,
    pub(crate) remembered: R,
}

/// What follows the home of the persons, if the text begins with it.
fn after_people(text: &str) -> Option<&str>
    ensures { IfSome result (λ rest. text.now ≡ codes "/people/" ++ rest.now) }
{
    text.strip_prefix("/people/")
}

/// The name of a person, if the principal is one.
fn person_name(alloc: Global, person: &Principal) -> Result<Option<Name>, AllocError>
    ensures { IfOk result (λ name. IfSome name (λ n. person.now ≡ person_path n)) }
{
    let Some(rest) = after_people(person.text()) else {
        return Ok(None);
    };
    Name::parse(alloc, rest)
}

/// Adds lists behind others.
fn push_level(levels: &mut Vec<Level>, level: Level) -> Result<(), AllocError>
    ensures { OnOk result (levels.new.items ≡ levels.old.items ++ level ∷ []) }
{
    levels.push(level)?;
    Ok(())
}

impl<K> Cached<K> {
    /// The keeper, of which nothing is remembered yet. Takes no memory.
    pub fn new(alloc: Global, keeper: K) -> Cached<K>
        ensures keeper { result.keeper ≡ keeper }
        ensures nothing { (o : OfficeOf) → Remembers result.remembered o }
    {
        Cached {
            keeper,
            remembered: Remembered::new(alloc),
        }
    }

    /// Gives the keeper back. Takes no memory.
    pub fn into_inner(self) -> K
        ensures { result ≡ self.keeper }
    {
        let Cached { keeper, remembered } = self;
        drop(remembered);
        keeper
    }
}

impl<K: Keeper, R: Memories> Cached<K, R> {
    /// The circle of the person of a name.
    fn person_circle(
        &mut self,
        alloc: Global,
        caller: &Caller,
        name: &Name,
    ) -> Result<Circle, StoreFault>
        requires { caller.now ≡ Known (person_path name.now) }
        ensures { ReadsBehind K.standing R.held self.old self.new result
            (λ o circle. IsCircle o.pairs caller.now circle) }
    {
        if let Some(circle) = self.remembered.circle(name)? {
            return Ok(circle);
        }
        let circle = self.keeper.circle(alloc, caller)?;
        self.remembered.keep_circle(alloc, name, &circle);
        Ok(circle)
    }

    /// The circle of a known caller: that of a person is remembered.
    fn circle_of(
        &mut self,
        alloc: Global,
        caller: &Caller,
        person: &Principal,
    ) -> Result<Circle, StoreFault>
        requires { caller.now ≡ Known person.now }
        ensures { ReadsBehind K.standing R.held self.old self.new result
            (λ o circle. IsCircle o.pairs caller.now circle) }
    {
        match person_name(alloc, person)? {
            Some(name) => self.person_circle(alloc, caller, &name),
            None => self.keeper.circle(alloc, caller),
        }
    }

    /// The person of a name, if there is one.
    fn person(&mut self, alloc: Global, name: &Name) -> Result<Option<Node>, StoreFault>
        ensures { ReadsBehind K.standing R.held self.old self.new result
            (λ o node. node ≡ node_at o (paths.Person name.now)) }
    {
        if let Some(node) = self.remembered.person(name)? {
            return Ok(Some(node));
        }
        let path = Path::Person(name.clone()?);
        let found = self.keeper.find(alloc, &path);
        drop(path);
        let node = found?;
        self.remembered.keep_person(name, &node);
        Ok(node)
    }

    /// The book of a name, if there is one.
    fn book_node(&mut self, alloc: Global, name: &Name) -> Result<Option<Node>, StoreFault>
        ensures { ReadsBehind K.standing R.held self.old self.new result
            (λ o node. node ≡ node_at o (paths.Book name.now)) }
    {
        if let Some(node) = self.remembered.book_node(name)? {
            return Ok(Some(node));
        }
        let path = Path::Book(name.clone()?);
        let found = self.keeper.find(alloc, &path);
        drop(path);
        let node = found?;
        self.remembered.keep_book_node(name, &node);
        Ok(node)
    }

    /// Whether the book of a name has fewer cards than so many.
    fn book_has_room(&mut self, alloc: Global, name: &Name, most: usize) -> Result<bool, StoreFault>
        ensures { ReadsBehind K.standing R.held self.old self.new result
            (λ o room. room ≡ nat_lt (count_at o (paths.Book name.now)) most) }
    {
        if self.remembered.has_room(name, most) {
            return Ok(true);
        }
        let path = Path::Book(name.clone()?);
        let counted = self.keeper.count(alloc, &path);
        drop(path);
        let count = counted?;
        self.remembered.keep_count(name, count);
        Ok(count < most)
    }

    /// The cards of the book of a name, at a path.
    fn cards(
        &mut self,
        alloc: Global,
        name: &Name,
        path: &Path,
    ) -> Result<Items<Listed>, StoreFault>
        requires { path.now ≡ paths.Book name.now }
        ensures { ReadsBehind K.standing R.held self.old self.new result
            (λ o children. children ≡ children_at o path.now) }
    {
        let cards = self.keeper.children(alloc, path)?;
        self.remembered.keep_cards(alloc, name, &cards);
        Ok(cards)
    }

    /// The lists of the root.
    fn root(&mut self, alloc: Global) -> Result<Level, StoreFault>
        ensures { ReadsBehind K.standing R.held self.old self.new result
            (λ o level. level ≡ level_at o paths.Root) }
    {
        if let Some(level) = self.remembered.root()? {
            return Ok(level);
        }
        let level = self.keeper.level(alloc, &Path::Root)?;
        self.remembered.keep_root(&level);
        Ok(level)
    }

    /// The lists of the books' home.
    fn home(&mut self, alloc: Global) -> Result<Level, StoreFault>
        ensures { ReadsBehind K.standing R.held self.old self.new result
            (λ o level. level ≡ level_at o paths.Books) }
    {
        if let Some(level) = self.remembered.home()? {
            return Ok(level);
        }
        let level = self.keeper.level(alloc, &Path::Books)?;
        self.remembered.keep_home(&level);
        Ok(level)
    }

    /// The lists of the book of a name.
    fn book(&mut self, alloc: Global, name: &Name) -> Result<Level, StoreFault>
        ensures { ReadsBehind K.standing R.held self.old self.new result
            (λ o level. level ≡ level_at o (paths.Book name.now)) }
    {
        if let Some(level) = self.remembered.book(name)? {
            return Ok(level);
        }
        let path = Path::Book(name.clone()?);
        let found = self.keeper.level(alloc, &path);
        drop(path);
        let level = found?;
        self.remembered.keep_book(alloc, name, &level);
        Ok(level)
    }

    /// Adds the lists of the book of a name and of what stands above it.
    fn push_levels(
        &mut self,
        alloc: Global,
        name: &Name,
        levels: &mut Vec<Level>,
    ) -> Result<(), StoreFault>
        ensures { ReadsBehind K.standing R.held self.old self.new result
            (λ o _. levels.new.items ≡ levels.old.items
            ++ (lists_at o (paths.Book name.now)).levels) }
    {
        let book = self.book(alloc, name)?;
        push_level(levels, book)?;
        let home = self.home(alloc)?;
        push_level(levels, home)?;
        let root = self.root(alloc)?;
        Ok(push_level(levels, root)?)
    }

    /// The lists of the book of a name and of what stands above it.
    fn book_lists(&mut self, alloc: Global, name: &Name) -> Result<Lists, StoreFault>
        ensures { ReadsBehind K.standing R.held self.old self.new result
            (λ o lists. lists ≡ lists_at o (paths.Book name.now)) }
    {
        let mut levels = Vec::with_capacity(alloc, 3)?;
        self.push_levels(alloc, name, &mut levels)?;
        Ok(Lists {
            levels: Items::from_vec(levels),
        })
    }

    /// The lists of the card of a book at a path.
    fn card(
        &mut self,
        alloc: Global,
        book: &Name,
        name: &Name,
        path: &Path,
    ) -> Result<Level, StoreFault>
        requires { path.now ≡ paths.Card book.now name.now }
        ensures { ReadsBehind K.standing R.held self.old self.new result
            (λ o level. level ≡ level_at o path.now) }
    {
        if self.remembered.is_bare(book, name) {
            return Ok(bare_level(alloc, path)?);
        }
        let level = self.keeper.level(alloc, path)?;
        self.remembered.keep_bare(alloc, book, name, &level);
        Ok(level)
    }

    /// The lists of the card of a book at a path, and of what stands above it.
    fn card_lists(
        &mut self,
        alloc: Global,
        book: &Name,
        name: &Name,
        path: &Path,
    ) -> Result<Lists, StoreFault>
        requires { path.now ≡ paths.Card book.now name.now }
        ensures { ReadsBehind K.standing R.held self.old self.new result
            (λ o lists. lists ≡ lists_at o path.now) }
    {
        let mut levels = Vec::with_capacity(alloc, 4)?;
        let card = self.card(alloc, book, name, path)?;
        push_level(&mut levels, card)?;
        self.push_levels(alloc, book, &mut levels)?;
        Ok(Lists {
            levels: Items::from_vec(levels),
        })
    }
}

impl<K: Keeper, R: Memories> Keeper for Cached<K, R> {
    ghost standing = { λ k. remembering (K.standing k.keeper) (R.held k.remembered) };

    fn find(&mut self, alloc: Global, path: &Path) -> Result<Option<Node>, StoreFault>
        ensures { ReadsBehind K.standing R.held self.old self.new result
            (λ o node. node ≡ node_at o path.now) }
    {
        match path {
            Path::Person(name) => self.person(alloc, name),
            Path::Book(name) => self.book_node(alloc, name),
            Path::Root
            | Path::People
            | Path::Groups
            | Path::Books
            | Path::Group(_)
            | Path::Card(_, _) => self.keeper.find(alloc, path),
        }
    }

    fn children(&mut self, alloc: Global, path: &Path) -> Result<Items<Listed>, StoreFault>
        ensures { ReadsBehind K.standing R.held self.old self.new result
            (λ o children. children ≡ children_at o path.now) }
    {
        match path {
            Path::Book(name) => self.cards(alloc, name, path),
            Path::Root
            | Path::People
            | Path::Groups
            | Path::Books
            | Path::Person(_)
            | Path::Group(_)
            | Path::Card(_, _) => self.keeper.children(alloc, path),
        }
    }

    fn count(&mut self, alloc: Global, path: &Path) -> Result<usize, StoreFault>
        ensures { ReadsBehind K.standing R.held self.old self.new result
            (λ o count. count ≡ count_at o path.now) }
    {
        self.keeper.count(alloc, path)
    }

    fn has_room(&mut self, alloc: Global, path: &Path, most: usize) -> Result<bool, StoreFault>
        ensures { ReadsBehind K.standing R.held self.old self.new result
            (λ o room. room ≡ nat_lt (count_at o path.now) most) }
    {
        match path {
            Path::Book(name) => self.book_has_room(alloc, name, most),
            Path::Root
            | Path::People
            | Path::Groups
            | Path::Books
            | Path::Person(_)
            | Path::Group(_)
            | Path::Card(_, _) => self.keeper.has_room(alloc, path, most),
        }
    }

    fn lists(&mut self, alloc: Global, path: &Path) -> Result<Lists, StoreFault>
        ensures { ReadsBehind K.standing R.held self.old self.new result
            (λ o lists. lists ≡ lists_at o path.now) }
    {
        match path {
            Path::Card(book, card) => self.card_lists(alloc, book, card, path),
            Path::Book(name) => self.book_lists(alloc, name),
            Path::Root
            | Path::People
            | Path::Groups
            | Path::Books
            | Path::Person(_)
            | Path::Group(_) => self.keeper.lists(alloc, path),
        }
    }

    fn level(&mut self, alloc: Global, path: &Path) -> Result<Level, StoreFault>
        ensures { ReadsBehind K.standing R.held self.old self.new result
            (λ o level. level ≡ level_at o path.now) }
    {
        self.keeper.level(alloc, path)
    }

    fn changes_after(
        &mut self,
        alloc: Global,
        book: &Name,
        number: u64,
        at_most: Option<u32>,
    ) -> Result<Items<Changed>, StoreFault>
        ensures { ReadsBehind K.standing R.held self.old self.new result
            (λ o changes. changes ≡ first_of at_most (changed_after o book.now number)) }
    {
        self.keeper.changes_after(alloc, book, number, at_most)
    }

    fn cards_after(
        &mut self,
        alloc: Global,
        book: &Name,
        number: u64,
        at_most: Option<u32>,
    ) -> Result<Items<Changed>, StoreFault>
        ensures { ReadsBehind K.standing R.held self.old self.new result
            (λ o changes. changes ≡ first_of at_most (cards_after o book.now number)) }
    {
        self.keeper.cards_after(alloc, book, number, at_most)
    }

    fn members(&mut self, alloc: Global, group: &Principal) -> Result<Pairs, StoreFault>
        ensures { ReadsBehind K.standing R.held self.old self.new result
            (λ o pairs. pairs ≡ members_of o.pairs group.now) }
    {
        self.keeper.members(alloc, group)
    }

    fn pairs(&mut self, alloc: Global) -> Result<Pairs, StoreFault>
        ensures { ReadsBehind K.standing R.held self.old self.new result (λ o pairs. pairs ≡ o.pairs) }
    {
        self.keeper.pairs(alloc)
    }

    fn circle(&mut self, alloc: Global, caller: &Caller) -> Result<Circle, StoreFault>
        ensures { ReadsBehind K.standing R.held self.old self.new result
            (λ o circle. IsCircle o.pairs caller.now circle) }
    {
        match caller {
            Caller::Nobody => self.keeper.circle(alloc, caller),
            Caller::Known(person) => self.circle_of(alloc, caller, person),
        }
    }

    fn epoch(&mut self) -> Result<u64, StoreFault>
        ensures { ReadsBehind K.standing R.held self.old self.new result (λ o epoch. epoch ≡ o.epoch) }
    {
        self.keeper.epoch()
    }

    fn adoption(&mut self, alloc: Global, policy: &Policy) -> Result<Adoption, StoreFault>
        ensures { ReadsBehind K.standing R.held self.old self.new result
            (λ o told. told ≡ adoption_of policy.now o) }
    {
        self.keeper.adoption(alloc, policy)
    }

    fn failures(&self) -> u64 {
        self.keeper.failures()
    }

    fn act(&mut self, alloc: Global, edit: &Edit) -> Result<(), StoreFault>
        ensures { EditsBehind K.standing R.held self.old self.new result edit.now }
    {
        match self.keeper.act(alloc, edit) {
            Ok(()) => {
                self.remembered.follow(alloc, edit);
                Ok(())
            }
            Err(fault) => {
                self.remembered.forget(alloc);
                Err(fault)
            }
        }
    }
}
