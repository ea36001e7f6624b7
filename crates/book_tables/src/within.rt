//! The keeper of an Office over an open transaction: many calls of it are kept together, or none.

use crate::bare_office::adoption;
use crate::card_changes::cards_after;
use crate::changes::changes_after;
use crate::edits::act;
use crate::faults::counted;
use crate::group_members::members;
use crate::levels::{level, lists};
use crate::listing_rows::{children, count};
use crate::members::{circle, pairs};
use crate::reading::{epoch, find};
use book_lists::{Caller, Circle, Name, Pairs, Principal};
use book_office::{Changed, Edit, Keeper, Level, Listed, Lists, Node, StoreFault};
use book_office_adopting::Adoption;
use book_office_values::{Items, Path};
use book_policy_values::Policy;
use sqlite::{Alter, Transaction};
use std::alloc::Global;

/// The keeper of an Office over a transaction that is open. It stands for the Office of the rows as the transaction sees
/// them, as if it were kept at this moment.
///
/// Any error spoils it: then it answers `Store` to each call and writes nothing, and the transaction has to be given up.
/// Who holds the transaction commits it. `Within` is made where the transaction is, by its fields, with `spoiled` and
/// `written` false; `failures` is how often the store has failed before.
#[derive(Drop)]
pub struct Within<'t, 'c, S: Alter> {
    /// The transaction.
    pub transaction: &'t mut Transaction<'c, S>,
    /// How often the store has failed; the count stays at its last value.
    pub failures: u64,
    /// Whether a call has failed.
    pub spoiled: bool,
    /// Whether an edit was begun.
    pub written: bool,
}

impl<S: Alter> Keeper for Within<'_, '_, S> {
    ghost use Rattle.std.specs.Prelude.{[], ◌∷◌};
    ghost use Rattle.sqlite.specs.Held.{state};
    ghost use Rattle.book_tables.specs.Keeps.{standing_within};

    ghost standing = { λ k. standing_within
        (k.transaction.ghost_name ∷ k.transaction.now.conn.ghost_name ∷ [])
        (state S.Store k.transaction.now.conn.now) k.failures k.spoiled k.written };

    fn find(&mut self, alloc: Global, path: &Path) -> Result<Option<Node>, StoreFault> {
        if self.spoiled {
            return Err(counted(StoreFault::Store, &mut self.failures));
        }
        let told = find(alloc, self.transaction, &mut self.failures, path);
        self.spoiled = told.is_err();
        told
    }

    fn children(&mut self, alloc: Global, path: &Path) -> Result<Items<Listed>, StoreFault> {
        if self.spoiled {
            return Err(counted(StoreFault::Store, &mut self.failures));
        }
        let told = children(alloc, self.transaction, &mut self.failures, path);
        self.spoiled = told.is_err();
        told
    }

    fn count(&mut self, alloc: Global, path: &Path) -> Result<usize, StoreFault> {
        if self.spoiled {
            return Err(counted(StoreFault::Store, &mut self.failures));
        }
        let told = count(alloc, self.transaction, &mut self.failures, path);
        self.spoiled = told.is_err();
        told
    }

    fn lists(&mut self, alloc: Global, path: &Path) -> Result<Lists, StoreFault> {
        if self.spoiled {
            return Err(counted(StoreFault::Store, &mut self.failures));
        }
        let told = lists(alloc, self.transaction, &mut self.failures, path);
        self.spoiled = told.is_err();
        told
    }

    fn level(&mut self, alloc: Global, path: &Path) -> Result<Level, StoreFault> {
        if self.spoiled {
            return Err(counted(StoreFault::Store, &mut self.failures));
        }
        let told = level(alloc, self.transaction, &mut self.failures, path);
        self.spoiled = told.is_err();
        told
    }

    fn changes_after(
        &mut self,
        alloc: Global,
        book: &Name,
        number: u64,
        at_most: Option<u32>,
    ) -> Result<Items<Changed>, StoreFault> {
        if self.spoiled {
            return Err(counted(StoreFault::Store, &mut self.failures));
        }
        let told = changes_after(
            alloc,
            self.transaction,
            &mut self.failures,
            book,
            number,
            at_most,
        );
        self.spoiled = told.is_err();
        told
    }

    fn cards_after(
        &mut self,
        alloc: Global,
        book: &Name,
        number: u64,
        at_most: Option<u32>,
    ) -> Result<Items<Changed>, StoreFault> {
        if self.spoiled {
            return Err(counted(StoreFault::Store, &mut self.failures));
        }
        let told = cards_after(
            alloc,
            self.transaction,
            &mut self.failures,
            book,
            number,
            at_most,
        );
        self.spoiled = told.is_err();
        told
    }

    fn members(&mut self, alloc: Global, group: &Principal) -> Result<Pairs, StoreFault> {
        if self.spoiled {
            return Err(counted(StoreFault::Store, &mut self.failures));
        }
        let told = members(alloc, self.transaction, &mut self.failures, group);
        self.spoiled = told.is_err();
        told
    }

    fn pairs(&mut self, alloc: Global) -> Result<Pairs, StoreFault> {
        if self.spoiled {
            return Err(counted(StoreFault::Store, &mut self.failures));
        }
        let told = pairs(alloc, self.transaction, &mut self.failures);
        self.spoiled = told.is_err();
        told
    }

    fn circle(&mut self, alloc: Global, caller: &Caller) -> Result<Circle, StoreFault> {
        if self.spoiled {
            return Err(counted(StoreFault::Store, &mut self.failures));
        }
        let told = circle(alloc, self.transaction, &mut self.failures, caller);
        self.spoiled = told.is_err();
        told
    }

    fn epoch(&mut self) -> Result<u64, StoreFault> {
        if self.spoiled {
            return Err(counted(StoreFault::Store, &mut self.failures));
        }
        let told = epoch(self.transaction, &mut self.failures);
        self.spoiled = told.is_err();
        told
    }

    fn adoption(&mut self, alloc: Global, policy: &Policy) -> Result<Adoption, StoreFault> {
        if self.spoiled {
            return Err(counted(StoreFault::Store, &mut self.failures));
        }
        let told = adoption(alloc, self.transaction, &mut self.failures, policy);
        self.spoiled = told.is_err();
        told
    }

    fn failures(&self) -> u64 {
        self.failures
    }

    fn act(&mut self, alloc: Global, edit: &Edit) -> Result<(), StoreFault> {
        if self.spoiled {
            return Err(counted(StoreFault::Store, &mut self.failures));
        }
        self.written = true;
        let told = act(alloc, self.transaction, &mut self.failures, edit);
        self.spoiled = told.is_err();
        told
    }
}
