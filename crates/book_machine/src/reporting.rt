//! What a REPORT tells, by the report that is asked.

ghost use Rattle.book_lists.specs.declared.circles.Caller.TheVariants.{Known};
ghost use Rattle.book_office_values.specs.declared.paths.Path.TheVariants as path;
ghost use Rattle.book_machine.specs.Asking.{MeetsAny, StageAsks};
ghost use Rattle.book_machine.specs.Stages.{AreMembersTold, AreNamesTold, AreRulingsFor, AreRulingsTold, IsCallerAnswer, IsReportAnswer, IsReportOf};

use crate::machine::Machine;
use crate::messages::{Content, ReportKind};
use crate::plans::Plan;
use crate::refusals::Refusal;
use crate::stages::replied;
use book_lists::{Caller, Circle, Name, Principal};
use book_office::{Keeper, Path};
use book_office_listings::effective_rulings;
use book_office_members::{group_members, names_told};
use std::alloc::Global;

impl<K: Keeper> Machine<K> {
    /// A person who is asked about is there.
    fn check_person(&mut self, alloc: Global, person: &Principal) -> Result<(), Refusal>
        ensures { StageAsks K.standing self.old self.new result
            (λ o r. MeetsAny (IsCallerAnswer o (Known person.now)) r) }
    {
        let there = self.is_mapped(alloc, person)?;
        if there {
            return Ok(());
        }
        Err(Refusal::RecognizedPrincipal)
    }

    /// Who is asked about: nobody, or a principal that is there.
    fn check_caller(&mut self, alloc: Global, caller: &Caller) -> Result<(), Refusal>
        ensures { StageAsks K.standing self.old self.new result
            (λ o r. MeetsAny (IsCallerAnswer o caller.now) r) }
    {
        match caller {
            Caller::Nobody => Ok(()),
            Caller::Known(person) => self.check_person(alloc, person),
        }
    }

    /// The body of a REPORT.
    pub(crate) fn check_report(&mut self, alloc: Global, kind: &ReportKind) -> Result<(), Refusal>
        ensures { StageAsks K.standing self.old self.new result
            (λ o r. MeetsAny (IsReportAnswer o kind.now) r) }
    {
        match kind {
            ReportKind::Effective(caller) => self.check_caller(alloc, caller),
            ReportKind::SyncCollection(_) | ReportKind::GroupMembers | ReportKind::Names => Ok(()),
        }
    }

    /// The members of a card of a book, in the view of who asks.
    fn members_of(
        &mut self,
        alloc: Global,
        circle: &Circle,
        book: &Name,
        card: &Name,
    ) -> Result<Plan, Refusal>
        ensures { StageAsks K.standing self.old self.new result
            (λ o r. MeetsAny (AreMembersTold o circle.now (path.Card book.now card.now)) r) }
    {
        let name = book.clone()?;
        let members = group_members(alloc, &mut self.keeper, circle, book, card)?;
        Ok(replied(200, Content::Members(name, members), None))
    }

    /// The members of the card at a path.
    fn members_at(&mut self, alloc: Global, circle: &Circle, path: &Path) -> Result<Plan, Refusal>
        ensures { StageAsks K.standing self.old self.new result
            (λ o r. MeetsAny (AreMembersTold o circle.now path.now) r) }
    {
        match path {
            Path::Card(book, card) => self.members_of(alloc, circle, book, card),
            Path::Root
            | Path::People
            | Path::Groups
            | Path::Books
            | Path::Person(_)
            | Path::Group(_)
            | Path::Book(_) => Err(Refusal::NotFound),
        }
    }

    /// The names of the cards of a book, in the view of who asks.
    fn names_of(&mut self, alloc: Global, circle: &Circle, book: &Name) -> Result<Plan, Refusal>
        ensures { StageAsks K.standing self.old self.new result
            (λ o r. MeetsAny (AreNamesTold o circle.now (path.Book book.now)) r) }
    {
        let name = book.clone()?;
        let names = names_told(alloc, &mut self.keeper, circle, book)?;
        Ok(replied(200, Content::Names(name, names), None))
    }

    /// The names of the cards of the book at a path.
    fn names_at(&mut self, alloc: Global, circle: &Circle, path: &Path) -> Result<Plan, Refusal>
        ensures { StageAsks K.standing self.old self.new result
            (λ o r. MeetsAny (AreNamesTold o circle.now path.now) r) }
    {
        match path {
            Path::Book(book) => self.names_of(alloc, circle, book),
            Path::Root
            | Path::People
            | Path::Groups
            | Path::Books
            | Path::Person(_)
            | Path::Group(_)
            | Path::Card(_, _) => Err(Refusal::NotFound),
        }
    }

    /// What decides each leaf at the resource at a path, for who has this circle.
    fn rulings_for(&mut self, alloc: Global, circle: &Circle, path: &Path) -> Result<Plan, Refusal>
        ensures { StageAsks K.standing self.old self.new result
            (λ o r. MeetsAny (AreRulingsFor o circle.now path.now) r) }
    {
        match effective_rulings(alloc, &mut self.keeper, circle, path)? {
            Some(rulings) => Ok(replied(200, Content::Rulings(rulings), None)),
            None => Err(Refusal::NotFound),
        }
    }

    /// What decides each leaf at the resource at a path, for who is asked about.
    fn rulings_at(&mut self, alloc: Global, caller: &Caller, path: &Path) -> Result<Plan, Refusal>
        ensures { StageAsks K.standing self.old self.new result
            (λ o r. MeetsAny (AreRulingsTold o caller.now path.now) r) }
    {
        let circle = self.keeper.circle(alloc, caller)?;
        self.rulings_for(alloc, &circle, path)
    }

    /// What the report that is asked tells of the resource at a path. The circle is that of who asks.
    pub(crate) fn reported(
        &mut self,
        alloc: Global,
        circle: &Circle,
        path: &Path,
        kind: &ReportKind,
    ) -> Result<Plan, Refusal>
        ensures { StageAsks K.standing self.old self.new result
            (λ o r. MeetsAny (IsReportOf o circle.now kind.now path.now) r) }
    {
        match kind {
            ReportKind::SyncCollection(asked) => self.synced(alloc, circle, path, asked),
            ReportKind::GroupMembers => self.members_at(alloc, circle, path),
            ReportKind::Effective(caller) => self.rulings_at(alloc, caller, path),
            ReportKind::Names => self.names_at(alloc, circle, path),
        }
    }
}
