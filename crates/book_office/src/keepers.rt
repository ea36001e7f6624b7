//! What keeps an Office.

ghost use Rattle.std.specs.Prelude.{◌≡◌, filter, is_some, nat_lt, option_map};
ghost use Rattle.book_lists.specs.Callers.{IsCircle};
ghost use Rattle.book_lists.specs.Memberships.{members_of};
ghost use Rattle.book_office.specs.declared.keepers.StoreFault.TheVariants.{Memory};
ghost use Rattle.book_office_adopting.specs.Adopting.{adoption_of};
ghost use Rattle.book_office.specs.Keeping.{Standing, Reads, Edits};
ghost use Rattle.book_office_values.specs.Changes.{first_of};
ghost use Rattle.book_office.specs.Resources.{node_at, children_at, count_at, changed_after, cards_after, is_of_card, unnumbered};
ghost use Rattle.book_office.specs.Levels.{level_at, lists_at};
ghost use Rattle.book_office.specs.InForce.{AreUnlessGranted};

use crate::edits::Edit;
use crate::granting::grant;
use crate::nodes::{Changed, Level, Listed, Lists, Node};
use book_lists::{Caller, Circle, Here, Name, Pairs, Principal};
use book_office_adopting::Adoption;
use book_office_values::{Items, Path};
use book_policy_values::Policy;
use book_rights::LeafSet;
use std::alloc::{AllocError, Global};

/// Why a keeper gave up.
#[derive(Clone, Copy, Debug, PartialEq, Eq)]
pub enum StoreFault {
    /// Memory was refused.
    Memory,
    /// The store failed.
    Store,
}

impl From<AllocError> for StoreFault {
    ghost from_gives = { λ _ fault. fault ≡ Memory };

    fn from(_error: AllocError) -> Self {
        StoreFault::Memory
    }
}

/// Of changes, those of names that have a card. Takes no memory.
fn cards_among(changes: Items<Changed>) -> Vec<Changed>
    ensures { result.items ≡ filter is_of_card changes }
{
    let mut cards = changes.into_vec();
    cards.retain(|change| change.card.is_some());
    cards
}

/// The first so many of them; all where no most is given.
fn first_cards(changes: Items<Changed>, at_most: Option<u32>) -> Items<Changed>
    ensures { result ≡ first_of at_most (filter is_of_card changes) }
{
    let mut cards = cards_among(changes);
    if let Some(most) = at_most {
        cards.truncate(most as usize);
    }
    Items::from_vec(cards)
}

/// What keeps an Office: the one interface between the machine and any store.
///
/// An implementation says what it stands for (`standing`). Each read tells what the Office has and leaves it as it was;
/// `act` leaves the edited Office, or on an error the Office as it was. A stop leaves no third.
pub trait Keeper {
    ghost standing: { Self → Standing };

    /// The resource at a path; none where none is mapped.
    fn find(&mut self, alloc: Global, path: &Path) -> Result<Option<Node>, StoreFault>
        ensures { Reads (standing self.old) (standing self.new) result
            (λ o node. node ≡ node_at o path.now) };

    /// The resource at a path as `find` tells it, but with the number 0: a keeper may tell so without looking its number up.
    fn find_unnumbered(&mut self, alloc: Global, path: &Path) -> Result<Option<Node>, StoreFault>
        ensures { Reads (standing self.old) (standing self.new) result
            (λ o node. node ≡ option_map unnumbered (node_at o path.now)) }
    {
        match self.find(alloc, path)? {
            Some(node) => Ok(Some(node.unnumbered())),
            None => Ok(None),
        }
    }

    /// Whether a resource is mapped at a path. A keeper may tell so without a copy of it.
    fn has(&mut self, alloc: Global, path: &Path) -> Result<bool, StoreFault>
        ensures { Reads (standing self.old) (standing self.new) result
            (λ o mapped. mapped ≡ is_some (node_at o path.now)) }
    {
        let node = self.find(alloc, path)?;
        Ok(node.is_some())
    }

    /// The children of a resource, in byte order of their names; none where none is mapped.
    fn children(&mut self, alloc: Global, path: &Path) -> Result<Items<Listed>, StoreFault>
        ensures { Reads (standing self.old) (standing self.new) result
            (λ o children. children ≡ children_at o path.now) };

    /// How many children a path has; 0 where none is mapped there.
    fn count(&mut self, alloc: Global, path: &Path) -> Result<usize, StoreFault>
        ensures { Reads (standing self.old) (standing self.new) result
            (λ o count. count ≡ count_at o path.now) };

    /// Whether a path has fewer children than so many. It is asked only where a name is added, so that no other request makes
    /// a store count the cards of a book. A keeper may tell so without counting them.
    fn has_room(&mut self, alloc: Global, path: &Path, most: usize) -> Result<bool, StoreFault>
        ensures { Reads (standing self.old) (standing self.new) result
            (λ o room. room ≡ nat_lt (count_at o path.now) most) }
    {
        let count = self.count(alloc, path)?;
        Ok(count < most)
    }

    /// The lists of the resource at a path and of each ancestor; the lists of a path that is not mapped are empty.
    fn lists(&mut self, alloc: Global, path: &Path) -> Result<Lists, StoreFault>
        ensures { Reads (standing self.old) (standing self.new) result
            (λ o lists. lists ≡ lists_at o path.now) };

    /// The lists that stand at a path itself; those of a path that is not mapped are empty.
    fn level(&mut self, alloc: Global, path: &Path) -> Result<Level, StoreFault>
        ensures { Reads (standing self.old) (standing self.new) result
            (λ o level. level ≡ level_at o path.now) };

    /// The lists of the resource at a path and of each ancestor, unless the entries in force grant each leaf of the set (RFC
    /// 3744, section 6): then none. A keeper may tell so without a copy of them.
    fn unless_granted(
        &mut self,
        alloc: Global,
        path: &Path,
        circle: &Circle,
        here: &Here,
        set: LeafSet,
    ) -> Result<Option<Lists>, StoreFault>
        ensures { Reads (standing self.old) (standing self.new) result
            (λ o lists. AreUnlessGranted o path.now circle.now here.now set lists) }
    {
        let lists = self.lists(alloc, path)?;
        if grant(lists.levels.as_slice(), circle, here, set) {
            return Ok(None);
        }
        Ok(Some(lists))
    }

    /// The last changes of a book above a number, in order of number, each with the card that has the name; none where there
    /// is no such book. Where a most is given, these are the first so many of them.
    fn changes_after(
        &mut self,
        alloc: Global,
        book: &Name,
        number: u64,
        at_most: Option<u32>,
    ) -> Result<Items<Changed>, StoreFault>
        ensures { Reads (standing self.old) (standing self.new) result
            (λ o changes. changes ≡ first_of at_most (changed_after o book.now number)) };

    /// Of the last changes of a book above a number, those of names that have a card, in order of number: all of them, or the
    /// first so many where a most is given. A keeper may tell them without a look at removed names.
    fn cards_after(
        &mut self,
        alloc: Global,
        book: &Name,
        number: u64,
        at_most: Option<u32>,
    ) -> Result<Items<Changed>, StoreFault>
        ensures { Reads (standing self.old) (standing self.new) result
            (λ o changes. changes ≡ first_of at_most (cards_after o book.now number)) }
    {
        let changes = self.changes_after(alloc, book, number, None)?;
        Ok(first_cards(changes, at_most))
    }

    /// The direct members of one group, each as a pair. A keeper may tell them without a look at other groups.
    fn members(&mut self, alloc: Global, group: &Principal) -> Result<Pairs, StoreFault>
        ensures { Reads (standing self.old) (standing self.new) result
            (λ o pairs. pairs ≡ members_of o.pairs group.now) }
    {
        let pairs = self.pairs(alloc)?;
        Ok(pairs.members_of(group)?)
    }

    /// The direct members of all groups.
    fn pairs(&mut self, alloc: Global) -> Result<Pairs, StoreFault>
        ensures { Reads (standing self.old) (standing self.new) result
            (λ o pairs. pairs ≡ o.pairs) };

    /// The principals to which the caller belongs.
    fn circle(&mut self, alloc: Global, caller: &Caller) -> Result<Circle, StoreFault>
        ensures { Reads (standing self.old) (standing self.new) result
            (λ o circle. IsCircle o.pairs caller.now circle) };

    /// The access epoch.
    fn epoch(&mut self) -> Result<u64, StoreFault>
        ensures { Reads (standing self.old) (standing self.new) result
            (λ o epoch. epoch ≡ o.epoch) };

    /// What adopting a policy would do.
    fn adoption(&mut self, alloc: Global, policy: &Policy) -> Result<Adoption, StoreFault>
        ensures { Reads (standing self.old) (standing self.new) result
            (λ o told. told ≡ adoption_of policy.now o) };

    /// How often the store has failed. Takes no memory.
    fn failures(&self) -> u64
        ensures { result ≡ (standing self.now).failures };

    /// Makes an edit that fits; one that does not fit may do anything to the Office.
    fn act(&mut self, alloc: Global, edit: &Edit) -> Result<(), StoreFault>
        ensures { Edits (standing self.old) (standing self.new) result edit.now };
}
