//! The lists that stand in an Office, by the texts of their paths. No contract tells them: what they lead to is served
//! before it is told.

use book_lists::Entry;
use book_office_values::{Book, Items, NameMap, Office, Path, Properties, Text, TextMap};
use std::alloc::{AllocError, Global};

/// The lists of the root, of the homes, of each person, of each group and of each book.
#[derive(Drop)]
pub(crate) struct OfficeLists {
    protected: TextMap<Items<Entry>>,
    own: TextMap<Items<Entry>>,
}

impl OfficeLists {
    /// The lists of an Office. An error is want of memory.
    pub(crate) fn of(alloc: Global, office: &Office) -> Result<OfficeLists, AllocError> {
        let mut lists = OfficeLists {
            protected: TextMap::new(alloc),
            own: TextMap::new(alloc),
        };
        lists.add(alloc, &Path::Root, &office.root)?;
        lists.add(alloc, &Path::People, &office.people)?;
        lists.add(alloc, &Path::Groups, &office.groups_home)?;
        lists.add(alloc, &Path::Books, &office.books_home)?;
        lists.add_persons(alloc, &office.persons)?;
        lists.add_groups(alloc, &office.groups)?;
        lists.add_books(alloc, &office.books)?;
        Ok(lists)
    }

    /// Adds the lists of the resource at a path.
    fn add(
        &mut self,
        alloc: Global,
        path: &Path,
        properties: &Properties,
    ) -> Result<(), AllocError> {
        let at = Text::from_string(path.text(alloc)?);
        let key = at.clone()?;
        let protected = properties.protected.clone()?;
        drop(self.protected.insert(key, protected)?);
        let own = properties.own.clone()?;
        drop(self.own.insert(at, own)?);
        Ok(())
    }

    /// Adds the lists of each person.
    fn add_persons(
        &mut self,
        alloc: Global,
        persons: &NameMap<Properties>,
    ) -> Result<(), AllocError> {
        for (name, person) in persons.iter() {
            let path = Path::Person(name.clone()?);
            self.add(alloc, &path, person)?;
        }
        Ok(())
    }

    /// Adds the lists of each group.
    fn add_groups(
        &mut self,
        alloc: Global,
        groups: &NameMap<Properties>,
    ) -> Result<(), AllocError> {
        for (name, group) in groups.iter() {
            let path = Path::Group(name.clone()?);
            self.add(alloc, &path, group)?;
        }
        Ok(())
    }

    /// Adds the lists of each book.
    fn add_books(&mut self, alloc: Global, books: &NameMap<Book>) -> Result<(), AllocError> {
        for (name, book) in books.iter() {
            let path = Path::Book(name.clone()?);
            self.add(alloc, &path, &book.properties)?;
        }
        Ok(())
    }

    /// The protected list at the text of a path.
    pub(crate) fn protected_at(&self, at: &Text) -> Option<&Items<Entry>> {
        self.protected.get(at)
    }

    /// The own list at the text of a path.
    pub(crate) fn own_at(&self, at: &Text) -> Option<&Items<Entry>> {
        self.own.get(at)
    }
}
