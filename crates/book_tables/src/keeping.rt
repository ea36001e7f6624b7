//! The keeper of an Office over tables: each call is a transaction of its own.

use crate::bare_office::adoption;
use crate::card_changes::cards_after;
use crate::changes::changes_after;
use crate::edits::act;
use crate::faults::{counted, fault_of};
use crate::group_members::members;
use crate::levels::{level, lists};
use crate::listing_rows::{children, count};
use crate::members::{circle, pairs};
use crate::reading::{epoch, find};
use crate::tables::Tables;
use book_lists::{Caller, Circle, Name, Pairs, Principal};
use book_office::{Changed, Edit, Keeper, Level, Listed, Lists, Node, StoreFault};
use book_office_adopting::Adoption;
use book_office_values::{Items, Path};
use book_policy_values::Policy;
use sqlite::Alter;
use std::alloc::Global;

impl<S: Alter> Keeper for Tables<S> {
    ghost use Rattle.sqlite.specs.Held.{state};
    ghost use Rattle.book_tables.specs.Keeps.{standing_of};

    ghost standing = { λ k. standing_of (state S.Store k.connection) k.failures };

    fn find(&mut self, alloc: Global, path: &Path) -> Result<Option<Node>, StoreFault> {
        if !self.connection.is_autocommit() {
            return Err(counted(StoreFault::Store, &mut self.failures));
        }
        let mut transaction = self.connection.transaction();
        find(alloc, &mut transaction, &mut self.failures, path)
    }

    fn children(&mut self, alloc: Global, path: &Path) -> Result<Items<Listed>, StoreFault> {
        if !self.connection.is_autocommit() {
            return Err(counted(StoreFault::Store, &mut self.failures));
        }
        let mut transaction = self.connection.transaction();
        children(alloc, &mut transaction, &mut self.failures, path)
    }

    fn count(&mut self, alloc: Global, path: &Path) -> Result<usize, StoreFault> {
        if !self.connection.is_autocommit() {
            return Err(counted(StoreFault::Store, &mut self.failures));
        }
        let mut transaction = self.connection.transaction();
        count(alloc, &mut transaction, &mut self.failures, path)
    }

    fn lists(&mut self, alloc: Global, path: &Path) -> Result<Lists, StoreFault> {
        if !self.connection.is_autocommit() {
            return Err(counted(StoreFault::Store, &mut self.failures));
        }
        let mut transaction = self.connection.transaction();
        lists(alloc, &mut transaction, &mut self.failures, path)
    }

    fn level(&mut self, alloc: Global, path: &Path) -> Result<Level, StoreFault> {
        if !self.connection.is_autocommit() {
            return Err(counted(StoreFault::Store, &mut self.failures));
        }
        let mut transaction = self.connection.transaction();
        level(alloc, &mut transaction, &mut self.failures, path)
    }

    fn changes_after(
        &mut self,
        alloc: Global,
        book: &Name,
        number: u64,
        at_most: Option<u32>,
    ) -> Result<Items<Changed>, StoreFault> {
        if !self.connection.is_autocommit() {
            return Err(counted(StoreFault::Store, &mut self.failures));
        }
        let mut transaction = self.connection.transaction();
        changes_after(
            alloc,
            &mut transaction,
            &mut self.failures,
            book,
            number,
            at_most,
        )
    }

    fn cards_after(
        &mut self,
        alloc: Global,
        book: &Name,
        number: u64,
        at_most: Option<u32>,
    ) -> Result<Items<Changed>, StoreFault> {
        if !self.connection.is_autocommit() {
            return Err(counted(StoreFault::Store, &mut self.failures));
        }
        let mut transaction = self.connection.transaction();
        cards_after(
            alloc,
            &mut transaction,
            &mut self.failures,
            book,
            number,
            at_most,
        )
    }

    fn members(&mut self, alloc: Global, group: &Principal) -> Result<Pairs, StoreFault> {
        if !self.connection.is_autocommit() {
            return Err(counted(StoreFault::Store, &mut self.failures));
        }
        let mut transaction = self.connection.transaction();
        members(alloc, &mut transaction, &mut self.failures, group)
    }

    fn pairs(&mut self, alloc: Global) -> Result<Pairs, StoreFault> {
        if !self.connection.is_autocommit() {
            return Err(counted(StoreFault::Store, &mut self.failures));
        }
        let mut transaction = self.connection.transaction();
        pairs(alloc, &mut transaction, &mut self.failures)
    }

    fn circle(&mut self, alloc: Global, caller: &Caller) -> Result<Circle, StoreFault> {
        if !self.connection.is_autocommit() {
            return Err(counted(StoreFault::Store, &mut self.failures));
        }
        let mut transaction = self.connection.transaction();
        circle(alloc, &mut transaction, &mut self.failures, caller)
    }

    fn epoch(&mut self) -> Result<u64, StoreFault> {
        if !self.connection.is_autocommit() {
            return Err(counted(StoreFault::Store, &mut self.failures));
        }
        let mut transaction = self.connection.transaction();
        epoch(&mut transaction, &mut self.failures)
    }

    fn adoption(&mut self, alloc: Global, policy: &Policy) -> Result<Adoption, StoreFault> {
        if !self.connection.is_autocommit() {
            return Err(counted(StoreFault::Store, &mut self.failures));
        }
        let mut transaction = self.connection.transaction();
        adoption(alloc, &mut transaction, &mut self.failures, policy)
    }

    fn failures(&self) -> u64 {
        self.failures
    }

    fn act(&mut self, alloc: Global, edit: &Edit) -> Result<(), StoreFault> {
        if !self.connection.is_autocommit() {
            return Err(counted(StoreFault::Store, &mut self.failures));
        }
        let mut transaction = self.connection.transaction();
        act(alloc, &mut transaction, &mut self.failures, edit)?;
        match transaction.commit() {
            Ok(()) => Ok(()),
            Err(error) => Err(fault_of(error, &mut self.failures)),
        }
    }
}
