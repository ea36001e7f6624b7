//! A keeper that is lent.

ghost use Rattle.book_office.specs.Keeping.{lent};

use crate::edits::Edit;
use crate::keepers::{Keeper, StoreFault};
use crate::nodes::{Changed, Level, Listed, Lists, Node};
use book_lists::{Caller, Circle, Here, Name, Pairs, Principal};
use book_office_adopting::Adoption;
use book_office_values::{Items, Path};
use book_policy_values::Policy;
use book_rights::LeafSet;
use std::alloc::Global;

/// A keeper that is lent is asked as it is, and stands for what it stands for. Its fallback names the reference, so that who
/// lent it knows afterwards that it is the same.
impl<K: Keeper> Keeper for &mut K {
    ghost standing = { λ k. lent k.ghost_name (K.standing k.now) };

    fn find(&mut self, alloc: Global, path: &Path) -> Result<Option<Node>, StoreFault> {
        K::find(&mut **self, alloc, path)
    }

    fn find_unnumbered(&mut self, alloc: Global, path: &Path) -> Result<Option<Node>, StoreFault> {
        K::find_unnumbered(&mut **self, alloc, path)
    }

    fn has(&mut self, alloc: Global, path: &Path) -> Result<bool, StoreFault> {
        K::has(&mut **self, alloc, path)
    }

    fn children(&mut self, alloc: Global, path: &Path) -> Result<Items<Listed>, StoreFault> {
        K::children(&mut **self, alloc, path)
    }

    fn count(&mut self, alloc: Global, path: &Path) -> Result<usize, StoreFault> {
        K::count(&mut **self, alloc, path)
    }

    fn has_room(&mut self, alloc: Global, path: &Path, most: usize) -> Result<bool, StoreFault> {
        K::has_room(&mut **self, alloc, path, most)
    }

    fn lists(&mut self, alloc: Global, path: &Path) -> Result<Lists, StoreFault> {
        K::lists(&mut **self, alloc, path)
    }

    fn level(&mut self, alloc: Global, path: &Path) -> Result<Level, StoreFault> {
        K::level(&mut **self, alloc, path)
    }

    fn unless_granted(
        &mut self,
        alloc: Global,
        path: &Path,
        circle: &Circle,
        here: &Here,
        set: LeafSet,
    ) -> Result<Option<Lists>, StoreFault> {
        K::unless_granted(&mut **self, alloc, path, circle, here, set)
    }

    fn changes_after(
        &mut self,
        alloc: Global,
        book: &Name,
        number: u64,
        at_most: Option<u32>,
    ) -> Result<Items<Changed>, StoreFault> {
        K::changes_after(&mut **self, alloc, book, number, at_most)
    }

    fn cards_after(
        &mut self,
        alloc: Global,
        book: &Name,
        number: u64,
        at_most: Option<u32>,
    ) -> Result<Items<Changed>, StoreFault> {
        K::cards_after(&mut **self, alloc, book, number, at_most)
    }

    fn members(&mut self, alloc: Global, group: &Principal) -> Result<Pairs, StoreFault> {
        K::members(&mut **self, alloc, group)
    }

    fn pairs(&mut self, alloc: Global) -> Result<Pairs, StoreFault> {
        K::pairs(&mut **self, alloc)
    }

    fn circle(&mut self, alloc: Global, caller: &Caller) -> Result<Circle, StoreFault> {
        K::circle(&mut **self, alloc, caller)
    }

    fn epoch(&mut self) -> Result<u64, StoreFault> {
        K::epoch(&mut **self)
    }

    fn adoption(&mut self, alloc: Global, policy: &Policy) -> Result<Adoption, StoreFault> {
        K::adoption(&mut **self, alloc, policy)
    }

    fn failures(&self) -> u64 {
        K::failures(&**self)
    }

    fn act(&mut self, alloc: Global, edit: &Edit) -> Result<(), StoreFault> {
        K::act(&mut **self, alloc, edit)
    }
}
