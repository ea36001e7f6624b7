//! The edits of an Office by name, each as one transaction of the tables.

use book_lists::{Entry, Name, Principal};
use book_office::{Edit, Keeper, StoreFault};
use book_office_values::{Items, Path, Text};
use book_tables::Tables;
use sqlite::MemStore;
use std::alloc::Global;

pub(crate) trait Acts {
    fn put_card(
        &mut self,
        alloc: Global,
        book: &Name,
        card: &Name,
        owner: &Option<Principal>,
        text: &Text,
    ) -> Result<(), StoreFault>;

    fn remove_card(&mut self, alloc: Global, book: &Name, card: &Name) -> Result<(), StoreFault>;

    fn copy_card(
        &mut self,
        alloc: Global,
        from_book: &Name,
        from_card: &Name,
        to_book: &Name,
        to_card: &Name,
        owner: &Option<Principal>,
    ) -> Result<(), StoreFault>;

    fn move_card(
        &mut self,
        alloc: Global,
        from_book: &Name,
        from_card: &Name,
        to_book: &Name,
        to_card: &Name,
    ) -> Result<(), StoreFault>;

    fn add_book(
        &mut self,
        alloc: Global,
        book: &Name,
        owner: &Option<Principal>,
    ) -> Result<(), StoreFault>;

    fn remove_book(&mut self, alloc: Global, book: &Name) -> Result<(), StoreFault>;

    fn set_label(&mut self, alloc: Global, path: &Path, label: &Text) -> Result<(), StoreFault>;

    fn set_list(
        &mut self,
        alloc: Global,
        path: &Path,
        entries: &Items<Entry>,
    ) -> Result<(), StoreFault>;

    fn set_members(
        &mut self,
        alloc: Global,
        group: &Principal,
        members: &Items<Principal>,
    ) -> Result<(), StoreFault>;
}

impl Acts for Tables<MemStore> {
    fn put_card(
        &mut self,
        alloc: Global,
        book: &Name,
        card: &Name,
        owner: &Option<Principal>,
        text: &Text,
    ) -> Result<(), StoreFault> {
        let edit = Edit::PutCard {
            book: book.clone()?,
            card: card.clone()?,
            owner: owner.clone()?,
            text: text.clone()?,
        };
        self.act(alloc, &edit)
    }

    fn remove_card(&mut self, alloc: Global, book: &Name, card: &Name) -> Result<(), StoreFault> {
        let edit = Edit::RemoveCard {
            book: book.clone()?,
            card: card.clone()?,
        };
        self.act(alloc, &edit)
    }

    fn copy_card(
        &mut self,
        alloc: Global,
        from_book: &Name,
        from_card: &Name,
        to_book: &Name,
        to_card: &Name,
        owner: &Option<Principal>,
    ) -> Result<(), StoreFault> {
        let edit = Edit::CopyCard {
            from_book: from_book.clone()?,
            from_card: from_card.clone()?,
            to_book: to_book.clone()?,
            to_card: to_card.clone()?,
            owner: owner.clone()?,
        };
        self.act(alloc, &edit)
    }

    fn move_card(
        &mut self,
        alloc: Global,
        from_book: &Name,
        from_card: &Name,
        to_book: &Name,
        to_card: &Name,
    ) -> Result<(), StoreFault> {
        let edit = Edit::MoveCard {
            from_book: from_book.clone()?,
            from_card: from_card.clone()?,
            to_book: to_book.clone()?,
            to_card: to_card.clone()?,
        };
        self.act(alloc, &edit)
    }

    fn add_book(
        &mut self,
        alloc: Global,
        book: &Name,
        owner: &Option<Principal>,
    ) -> Result<(), StoreFault> {
        let edit = Edit::AddBook {
            book: book.clone()?,
            owner: owner.clone()?,
        };
        self.act(alloc, &edit)
    }

    fn remove_book(&mut self, alloc: Global, book: &Name) -> Result<(), StoreFault> {
        let edit = Edit::RemoveBook {
            book: book.clone()?,
        };
        self.act(alloc, &edit)
    }

    fn set_label(&mut self, alloc: Global, path: &Path, label: &Text) -> Result<(), StoreFault> {
        let edit = Edit::SetLabel {
            path: path.clone()?,
            label: label.clone()?,
        };
        self.act(alloc, &edit)
    }

    fn set_list(
        &mut self,
        alloc: Global,
        path: &Path,
        entries: &Items<Entry>,
    ) -> Result<(), StoreFault> {
        let edit = Edit::SetList {
            path: path.clone()?,
            entries: entries.clone()?,
        };
        self.act(alloc, &edit)
    }

    fn set_members(
        &mut self,
        alloc: Global,
        group: &Principal,
        members: &Items<Principal>,
    ) -> Result<(), StoreFault> {
        let edit = Edit::SetMembers {
            group: group.clone()?,
            members: members.clone()?,
        };
        self.act(alloc, &edit)
    }
}
