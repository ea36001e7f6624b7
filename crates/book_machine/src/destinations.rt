//! What the machine asks its keeper about the destination of a COPY or MOVE.

ghost use Rattle.std.specs.Prelude.{◌≡◌, Ok, Some};
ghost use Rattle.book_office.specs.Resources.{node_at};
ghost use Rattle.book_office_values.specs.declared.paths.Path.TheVariants as path;
ghost use Rattle.book_machine.specs.Asking.{Meets, StageAsks};
ghost use Rattle.book_machine.specs.Asked.{destination_in};
ghost use Rattle.book_machine.specs.Stages.{can_change_twice, copy_limits, destination_of, move_limits};

use crate::asked::{Asked, Destination};
use crate::machine::Machine;
use crate::refusals::Refusal;
use crate::stages::{can_change_twice, replaceable};
use book_lists::Name;
use book_office::{Keeper, Path};
use std::alloc::Global;

impl<K: Keeper> Machine<K> {
    /// Whether something is mapped at a destination: its book is there, and a card that is there may be replaced.
    fn replaces_at(&mut self, alloc: Global, to: &Destination) -> Result<bool, Refusal>
        ensures { StageAsks K.standing self.old self.new result
            (λ o r. Meets r (destination_of o (Some to.now))) }
    {
        if !self.has_book(alloc, &to.book)? {
            return Err(Refusal::NoParent);
        }
        let path = to.path()?;
        let taken = self.keeper.has(alloc, &path)?;
        replaceable(to.overwrite, taken)
    }

    /// Whether something is mapped at the destination, where there is one.
    pub(crate) fn replaces(&mut self, alloc: Global, asked: &Asked) -> Result<bool, Refusal>
        ensures { StageAsks K.standing self.old self.new result
            (λ o r. Meets r (destination_of o (destination_in asked.now))) }
    {
        match asked {
            Asked::Copy(to) => self.replaces_at(alloc, to),
            Asked::Move(to) => self.replaces_at(alloc, to),
            Asked::Get
            | Asked::Head
            | Asked::Options
            | Asked::Put(_)
            | Asked::Propfind(_)
            | Asked::Proppatch(_)
            | Asked::Acl(_)
            | Asked::Delete
            | Asked::Mkcol
            | Asked::Report(_) => Ok(false),
        }
    }

    /// Whether the number of a book can rise twice.
    fn can_change_twice(&mut self, alloc: Global, book: &Name) -> Result<bool, Refusal>
        ensures { StageAsks K.standing self.old self.new result
            (λ o r. Meets r (Ok (can_change_twice (node_at o (path.Book book.now))))) }
    {
        let path = Path::Book(book.clone()?);
        Ok(can_change_twice(&self.keeper.find(alloc, &path)?))
    }

    /// Whether the limits are kept where a card is copied to a name that is taken or not.
    pub(crate) fn keeps_copy_limits(
        &mut self,
        alloc: Global,
        to: &Destination,
        taken: bool,
    ) -> Result<bool, Refusal>
        ensures { StageAsks K.standing self.old self.new result
            (λ o r. Meets r (Ok (copy_limits o to.now taken))) }
    {
        let path = to.path()?;
        self.keeps_put_limits(alloc, &path, taken)
    }

    /// Whether the limits are kept where a card is moved to a name that is taken or not.
    pub(crate) fn keeps_move_limits(
        &mut self,
        alloc: Global,
        path: &Path,
        to: &Destination,
        taken: bool,
    ) -> Result<bool, Refusal>
        ensures { StageAsks K.standing self.old self.new result
            (λ o r. Meets r (Ok (move_limits o path.now to.now taken))) }
    {
        match path {
            Path::Card(book, _) => {
                if book == &to.book {
                    return self.can_change_twice(alloc, book);
                }
                if !self.can_change(alloc, book)? {
                    return Ok(false);
                }
                self.keeps_copy_limits(alloc, to, taken)
            }
            Path::Root
            | Path::People
            | Path::Groups
            | Path::Books
            | Path::Person(_)
            | Path::Group(_)
            | Path::Book(_) => Ok(true),
        }
    }
}
