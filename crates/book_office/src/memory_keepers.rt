//! The keeper in memory.

ghost use Rattle.std.specs.Prelude.{◌≡◌};
ghost use Rattle.book_office.specs.Edits.{empty_office, empty_properties};
ghost use Rattle.book_office.specs.Keeping.{in_memory};
ghost use Rattle.book_office.specs.Sound.{IsSound};

use crate::changing::act;
use crate::edits::Edit;
use crate::granting::grant_at;
use crate::keepers::{Keeper, StoreFault};
use crate::nodes::{Changed, Level, Listed, Lists, Node};
use crate::reads::{
    changed, changed_cards, children, count, find, find_unnumbered, has, level, lists,
};
use crate::rounds::{Rounds, Work};
use book_lists::{Caller, Circle, Here, Name, Pairs, Principal, closure, reached_in};
use book_office_adopting::{Adoption, adoption_of};
use book_office_values::{Items, NameMap, Office, Path, Properties};
use book_policy_values::Policy;
use book_rights::LeafSet;
use std::alloc::{AllocError, Global};
use std::marker::Model;

/// A keeper of an Office in memory. A contract sees the Office.
///
/// Look-ups take a number of comparisons that grows with the logarithm of the map; a change of one card does not depend
/// on the size of its book. The first question for a circle after direct members may have changed makes their closure,
/// and the others look it up. An error leaves the Office as it was, also where memory was refused half way.
#[derive(Drop)]
pub struct MemoryKeeper {
    office: Office,
    /// The closure of the Office's pairs, from the first question after they may have changed on.
    reach: Option<Pairs>,
}

impl Model for MemoryKeeper {
    ghost use Rattle.std.specs.Prelude.{IfSome};
    ghost use Rattle.book_lists.specs.Memberships.{IsReachOf};
    ghost use Rattle.book_office_values.specs.declared.offices.Office.{Office};
    ghost use Rattle.book_office_values.specs.contracts.offices.Office as office_type;

    ghost Value = { Office };

    ghost coded = { office_type.the_row.coded };

    ghost view = { λ k. k.office };

    ghost invariant = { λ k. IfSome k.reach (IsReachOf k.office.pairs) };
}

impl MemoryKeeper {
    /// A keeper of the empty Office: the root and the homes, with no owner, empty labels and empty lists; no pairs; the
    /// epoch 0. Takes no memory.
    pub fn new(alloc: Global) -> MemoryKeeper
        ensures value { result ≡ empty_office }
        ensures sound { IsSound result }
    {
        MemoryKeeper {
            office: Office {
                root: Properties::empty(alloc, None),
                people: Properties::empty(alloc, None),
                groups_home: Properties::empty(alloc, None),
                books_home: Properties::empty(alloc, None),
                persons: NameMap::new(alloc),
                groups: NameMap::new(alloc),
                books: NameMap::new(alloc),
                pairs: Pairs::new(alloc),
                epoch: 0,
            },
            reach: None,
        }
    }

    /// A keeper of this Office. It stands for it where it is sound. Takes no memory.
    pub fn from_office(office: Office) -> MemoryKeeper
        ensures { result ≡ office }
    {
        MemoryKeeper {
            office,
            reach: None,
        }
    }
}

impl Keeper for MemoryKeeper {
    ghost standing = { λ k. in_memory k };

    fn find(&mut self, _alloc: Global, path: &Path) -> Result<Option<Node>, StoreFault> {
        Ok(find(&self.office, path)?)
    }

    fn find_unnumbered(&mut self, _alloc: Global, path: &Path) -> Result<Option<Node>, StoreFault> {
        Ok(find_unnumbered(&self.office, path)?)
    }

    fn has(&mut self, _alloc: Global, path: &Path) -> Result<bool, StoreFault> {
        Ok(has(&self.office, path))
    }

    fn children(&mut self, alloc: Global, path: &Path) -> Result<Items<Listed>, StoreFault> {
        Ok(children(alloc, &self.office, path)?)
    }

    fn count(&mut self, _alloc: Global, path: &Path) -> Result<usize, StoreFault> {
        Ok(count(&self.office, path))
    }

    fn lists(&mut self, alloc: Global, path: &Path) -> Result<Lists, StoreFault> {
        Ok(lists(alloc, &self.office, path)?)
    }

    fn level(&mut self, alloc: Global, path: &Path) -> Result<Level, StoreFault> {
        Ok(level(alloc, &self.office, path)?)
    }

    fn unless_granted(
        &mut self,
        alloc: Global,
        path: &Path,
        circle: &Circle,
        here: &Here,
        set: LeafSet,
    ) -> Result<Option<Lists>, StoreFault> {
        if grant_at(&self.office, path, circle, here, set) {
            return Ok(None);
        }
        Ok(Some(lists(alloc, &self.office, path)?))
    }

    fn changes_after(
        &mut self,
        alloc: Global,
        book: &Name,
        number: u64,
        at_most: Option<u32>,
    ) -> Result<Items<Changed>, StoreFault> {
        Ok(changed(alloc, &self.office, book, number, at_most)?)
    }

    fn cards_after(
        &mut self,
        alloc: Global,
        book: &Name,
        number: u64,
        at_most: Option<u32>,
    ) -> Result<Items<Changed>, StoreFault> {
        Ok(changed_cards(alloc, &self.office, book, number, at_most)?)
    }

    fn members(&mut self, _alloc: Global, group: &Principal) -> Result<Pairs, StoreFault> {
        Ok(self.office.pairs.members_of(group)?)
    }

    fn pairs(&mut self, _alloc: Global) -> Result<Pairs, StoreFault> {
        Ok(self.office.pairs.clone()?)
    }

    fn circle(&mut self, _alloc: Global, caller: &Caller) -> Result<Circle, StoreFault> {
        if let Some(reach) = &self.reach {
            return Ok(reached_in(reach, caller)?);
        }
        let reach = closure(&self.office.pairs)?;
        let circle = reached_in(&reach, caller)?;
        self.reach = Some(reach);
        Ok(circle)
    }

    fn epoch(&mut self) -> Result<u64, StoreFault> {
        Ok(self.office.epoch)
    }

    fn adoption(&mut self, alloc: Global, policy: &Policy) -> Result<Adoption, StoreFault> {
        Ok(adoption_of(alloc, &self.office, policy)?)
    }

    fn failures(&self) -> u64 {
        0
    }

    fn act(&mut self, alloc: Global, edit: &Edit) -> Result<(), StoreFault> {
        act(alloc, &mut self.office, edit)?;
        if edit.changes_members() {
            self.reach = None;
        }
        Ok(())
    }
}

/// What is edited in memory is kept at once.
impl Rounds for MemoryKeeper {
    ghost use Rattle.book_office_values.specs.declared.offices.Office.{Office};

    ghost Inside = { Office };

    ghost inside = { λ k. in_memory k };

    fn round<W: Work>(&mut self, alloc: Global, work: &mut W) -> Result<(), StoreFault> {
        work.run(alloc, self);
        Ok(())
    }
}
