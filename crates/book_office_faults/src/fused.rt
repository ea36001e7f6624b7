//! A keeper behind a fuse.

ghost use Rattle.std.specs.Prelude.{◌≡◌, ◌≢◌, ◌↔◌, ◌-◌, ℕ, IsTrue, Err};
ghost use Rattle.book_office_faults.specs.Fuses.{EditsBehind, IsFused, ReadsBehind, behind, together};
ghost use Rattle.book_lists.specs.Callers.{IsCircle};
ghost use Rattle.book_lists.specs.Memberships.{members_of};
ghost use Rattle.book_office_adopting.specs.Adopting.{adoption_of};
ghost use Rattle.book_office.specs.Keeping.{one_more};
ghost use Rattle.book_office.specs.Levels.{level_at, lists_at};
ghost use Rattle.book_office_values.specs.Changes.{first_of};
ghost use Rattle.book_office.specs.Resources.{cards_after, changed_after, children_at, count_at, node_at};
ghost use Rattle.book_office.specs.declared.keepers.StoreFault.TheVariants.{Store};

use book_lists::{Caller, Circle, Name, Pairs, Principal};
use book_office::{
    Adoption, Changed, Edit, Items, Keeper, Level, Listed, Lists, Node, Path, Policy, StoreFault,
};
use std::alloc::Global;

/// A keeper behind a fuse: so many calls are passed on to the keeper, and each later one is a fault of the store that the
/// keeper does not see. Asking for the failures is no call.
///
/// It stands for what the keeper stands for, before and after the first fault.
#[derive(Drop)]
pub struct Fused<K> {
    /// What keeps the Office.
    pub keeper: K,
    /// How many calls are still passed on.
    pub calls: u64,
    /// How many calls the fuse has answered, up to the last value.
    pub failures: u64,
}

impl<K> Fused<K> {
    /// The keeper behind a fuse that passes so many calls on. Takes no memory.
    pub fn new(keeper: K, calls: u64) -> Fused<K>
        ensures keeper { result.keeper ≡ keeper }
        ensures calls { result.calls ≡ calls }
        ensures failures { result.failures ≡ 0 }
    {
        Fused {
            keeper,
            calls,
            failures: 0,
        }
    }

    /// Gives the keeper back. Takes no memory.
    pub fn into_inner(self) -> K
        ensures { result ≡ self.keeper }
    {
        let Fused { keeper, .. } = self;
        keeper
    }

    /// Whether a call is passed on; it is then one fewer.
    pub(crate) fn passes(&mut self) -> bool
        ensures passes { IsTrue result ↔ (self.old.calls ≢ 0) }
        ensures calls { self.new.calls ≡ self.old.calls - 1 }
        ensures keeper { self.new.keeper ≡ self.old.keeper }
        ensures failures { self.new.failures ≡ self.old.failures }
    {
        let passes = self.calls > 0;
        if passes {
            self.calls -= 1;
        }
        passes
    }

    /// A fault of the store, which is counted; the keeper does not see it.
    pub(crate) fn fail<T>(&mut self) -> Result<T, StoreFault>
        ensures fault { result ≡ Err Store }
        ensures calls { self.new.calls ≡ self.old.calls }
        ensures keeper { self.new.keeper ≡ self.old.keeper }
        ensures failures { self.new.failures ≡ one_more self.old.failures }
        ensures counted { (kept : ℕ) → together kept self.new.failures ≡ one_more
            (together kept self.old.failures) }
    {
        if self.failures < u64::MAX {
            self.failures += 1;
        }
        Err(StoreFault::Store)
    }
}

impl<K: Keeper> Keeper for Fused<K> {
    ghost standing = { λ k. behind (K.standing k.keeper) k.failures };

    fn find(&mut self, alloc: Global, path: &Path) -> Result<Option<Node>, StoreFault>
        ensures keeper { ReadsBehind K.standing self.old self.new result
            (λ o node. node ≡ node_at o path.now) }
        ensures fuse { IsFused self.old self.new result }
    {
        if self.passes() {
            self.keeper.find(alloc, path)
        } else {
            self.fail()
        }
    }

    fn children(&mut self, alloc: Global, path: &Path) -> Result<Items<Listed>, StoreFault>
        ensures keeper { ReadsBehind K.standing self.old self.new result
            (λ o children. children ≡ children_at o path.now) }
        ensures fuse { IsFused self.old self.new result }
    {
        if self.passes() {
            self.keeper.children(alloc, path)
        } else {
            self.fail()
        }
    }

    fn count(&mut self, alloc: Global, path: &Path) -> Result<usize, StoreFault>
        ensures keeper { ReadsBehind K.standing self.old self.new result
            (λ o count. count ≡ count_at o path.now) }
        ensures fuse { IsFused self.old self.new result }
    {
        if self.passes() {
            self.keeper.count(alloc, path)
        } else {
            self.fail()
        }
    }

    fn lists(&mut self, alloc: Global, path: &Path) -> Result<Lists, StoreFault>
        ensures keeper { ReadsBehind K.standing self.old self.new result
            (λ o lists. lists ≡ lists_at o path.now) }
        ensures fuse { IsFused self.old self.new result }
    {
        if self.passes() {
            self.keeper.lists(alloc, path)
        } else {
            self.fail()
        }
    }

    fn level(&mut self, alloc: Global, path: &Path) -> Result<Level, StoreFault>
        ensures keeper { ReadsBehind K.standing self.old self.new result
            (λ o level. level ≡ level_at o path.now) }
        ensures fuse { IsFused self.old self.new result }
    {
        if self.passes() {
            self.keeper.level(alloc, path)
        } else {
            self.fail()
        }
    }

    fn changes_after(
        &mut self,
        alloc: Global,
        book: &Name,
        number: u64,
        at_most: Option<u32>,
    ) -> Result<Items<Changed>, StoreFault>
        ensures keeper { ReadsBehind K.standing self.old self.new result
            (λ o changes. changes ≡ first_of at_most (changed_after o book.now number)) }
        ensures fuse { IsFused self.old self.new result }
    {
        if self.passes() {
            self.keeper.changes_after(alloc, book, number, at_most)
        } else {
            self.fail()
        }
    }

    fn cards_after(
        &mut self,
        alloc: Global,
        book: &Name,
        number: u64,
        at_most: Option<u32>,
    ) -> Result<Items<Changed>, StoreFault>
        ensures keeper { ReadsBehind K.standing self.old self.new result
            (λ o changes. changes ≡ first_of at_most (cards_after o book.now number)) }
        ensures fuse { IsFused self.old self.new result }
    {
        if self.passes() {
            self.keeper.cards_after(alloc, book, number, at_most)
        } else {
            self.fail()
        }
    }

    fn members(&mut self, alloc: Global, group: &Principal) -> Result<Pairs, StoreFault>
        ensures keeper { ReadsBehind K.standing self.old self.new result
            (λ o pairs. pairs ≡ members_of o.pairs group.now) }
        ensures fuse { IsFused self.old self.new result }
    {
        if self.passes() {
            self.keeper.members(alloc, group)
        } else {
            self.fail()
        }
    }

    fn pairs(&mut self, alloc: Global) -> Result<Pairs, StoreFault>
        ensures keeper { ReadsBehind K.standing self.old self.new result
            (λ o pairs. pairs ≡ o.pairs) }
        ensures fuse { IsFused self.old self.new result }
    {
        if self.passes() {
            self.keeper.pairs(alloc)
        } else {
            self.fail()
        }
    }

    fn circle(&mut self, alloc: Global, caller: &Caller) -> Result<Circle, StoreFault>
        ensures keeper { ReadsBehind K.standing self.old self.new result
            (λ o circle. IsCircle o.pairs caller.now circle) }
        ensures fuse { IsFused self.old self.new result }
    {
        if self.passes() {
            self.keeper.circle(alloc, caller)
        } else {
            self.fail()
        }
    }

    fn epoch(&mut self) -> Result<u64, StoreFault>
        ensures keeper { ReadsBehind K.standing self.old self.new result
            (λ o epoch. epoch ≡ o.epoch) }
        ensures fuse { IsFused self.old self.new result }
    {
        if self.passes() {
            self.keeper.epoch()
        } else {
            self.fail()
        }
    }

    fn adoption(&mut self, alloc: Global, policy: &Policy) -> Result<Adoption, StoreFault>
        ensures keeper { ReadsBehind K.standing self.old self.new result
            (λ o told. told ≡ adoption_of policy.now o) }
        ensures fuse { IsFused self.old self.new result }
    {
        if self.passes() {
            self.keeper.adoption(alloc, policy)
        } else {
            self.fail()
        }
    }

    fn failures(&self) -> u64 {
        self.keeper.failures().saturating_add(self.failures)
    }

    fn act(&mut self, alloc: Global, edit: &Edit) -> Result<(), StoreFault>
        ensures keeper { EditsBehind K.standing self.old self.new result edit.now }
        ensures fuse { IsFused self.old self.new result }
    {
        if self.passes() {
            self.keeper.act(alloc, edit)
        } else {
            self.fail()
        }
    }
}
