//! Sync reports on books (RFC 6578).

ghost use Rattle.std.specs.Prelude.{◌≡◌};
ghost use Rattle.std.specs.Option.{option_copied};
ghost use Rattle.book_office_sync.specs.Copies.{sync, IsLimit};
ghost use Rattle.book_machine.specs.Asking.{Meets, StageAsks};
ghost use Rattle.book_machine.specs.Stages.{report_from, report_plan, sync_plan};

use crate::machine::Machine;
use crate::messages::{Content, SyncFrom, SyncRequest};
use crate::plans::Plan;
use crate::refusals::Refusal;
use crate::stages::replied;
use book_lists::{Circle, Name};
use book_office::{Keeper, Path};
use book_office_sync::{Limit, Token, sync_report};
use std::alloc::Global;

/// How many items a limit is.
fn items_of(limit: &Option<Limit>) -> Option<u32>
    ensures value { result ≡ limit.now }
    ensures range { IsLimit result }
{
    match limit {
        Some(limit) => Some(limit.count()),
        None => None,
    }
}

impl<K: Keeper> Machine<K> {
    /// The report on a book after a token, or the initial one without a token, with at most so many items.
    fn synced_after(
        &mut self,
        alloc: Global,
        circle: &Circle,
        book: &Name,
        token: Option<&Token>,
        limit: &Option<Limit>,
    ) -> Result<Plan, Refusal>
        ensures { StageAsks K.standing self.old self.new result
            (λ o r. Meets r (report_plan
            (sync o circle.now book.now (option_copied token.entry) limit.now))) }
    {
        match sync_report(
            alloc,
            &mut self.keeper,
            circle,
            book,
            token,
            items_of(limit),
        )? {
            Some(report) => Ok(replied(207, Content::Synced(report), None)),
            None => Err(Refusal::ValidSyncToken),
        }
    }

    /// The report on a book from a place in its history. A text that is no token is not valid.
    fn synced_from(
        &mut self,
        alloc: Global,
        circle: &Circle,
        book: &Name,
        asked: &SyncRequest,
    ) -> Result<Plan, Refusal>
        ensures { StageAsks K.standing self.old self.new result
            (λ o r. Meets r (report_plan
            (report_from o circle.now book.now asked.now.limit asked.now.from))) }
    {
        match &asked.from {
            SyncFrom::Start => self.synced_after(alloc, circle, book, None, &asked.limit),
            SyncFrom::After(token) => {
                self.synced_after(alloc, circle, book, Some(token), &asked.limit)
            }
            SyncFrom::Unknown => Err(Refusal::ValidSyncToken),
        }
    }

    /// What a sync report tells of the book at a path.
    pub(crate) fn synced(
        &mut self,
        alloc: Global,
        circle: &Circle,
        path: &Path,
        asked: &SyncRequest,
    ) -> Result<Plan, Refusal>
        ensures { StageAsks K.standing self.old self.new result
            (λ o r. Meets r (sync_plan o circle.now asked.now path.now)) }
    {
        match path {
            Path::Book(book) => self.synced_from(alloc, circle, book, asked),
            Path::Root
            | Path::People
            | Path::Groups
            | Path::Books
            | Path::Person(_)
            | Path::Group(_)
            | Path::Card(_, _) => Err(Refusal::NotFound),
        }
    }
}
