//! A book's changes, read page by page, so that no more than a page is held of what a reply does not tell.

ghost use Rattle.std.specs.Prelude.{◌≡◌, ◌<◌, Some};
ghost use Rattle.std.specs.Option.{option_copied};
ghost use Rattle.book_office_values.specs.Changes.{first_of};
ghost use Rattle.book_office.specs.Keeping.{Reads};
ghost use Rattle.book_office_sync.specs.Pages.{IsPage, changes_told, last_changed, last_of_page};

use crate::messages::Token;
use book_lists::Name;
use book_office::{Changed, Items, Keeper, StoreFault};
use std::alloc::Global;

/// How many changes are read at once, where no limit asks for fewer.
pub(crate) const PAGE: u32 = 500;

/// A page of a book's changes.
#[derive(Debug, Drop)]
pub(crate) struct Page {
    /// The changes, in order of number.
    pub(crate) changes: Items<Changed>,
    /// The number of the last of them; none where no change stands after it.
    pub(crate) next: Option<u64>,
}

/// The first so many of the changes of a book after a number that a report is about: without a token those of names
/// that have a card alone.
fn first_changes<K: Keeper>(
    alloc: Global,
    keeper: &mut K,
    book: &Name,
    token: Option<&Token>,
    after: u64,
    size: u32,
) -> Result<Items<Changed>, StoreFault>
    ensures { Reads (K.standing keeper.old) (K.standing keeper.new) result
        (λ o changes. changes ≡ first_of (Some size)
        (changes_told o book.now (option_copied token.entry) after)) }
{
    match token {
        Some(_token) => keeper.changes_after(alloc, book, after, Some(size)),
        None => keeper.cards_after(alloc, book, after, Some(size)),
    }
}

/// The number of the last change, and else the one before them.
fn last_changed(before: u64, changes: &[Changed]) -> u64
    ensures { result ≡ last_changed before changes.now }
{
    let mut number = before;
    for change in changes {
        number = change.number;
    }
    number
}

/// The number of the last of a page of changes, after which more may stand; none where the page is not full.
fn last_of_page(size: u32, before: u64, changes: &[Changed]) -> Option<u64>
    ensures { result ≡ last_of_page size before changes.now }
{
    if changes.len() < size as usize {
        return None;
    }
    Some(last_changed(before, changes))
}

/// One page of the changes of a book after a number that a report is about: without a token those of names that have a
/// card alone. None where there is no such book. An error is want of memory or a failure of the store.
pub(crate) fn read_page<K: Keeper>(
    alloc: Global,
    keeper: &mut K,
    book: &Name,
    token: Option<&Token>,
    after: u64,
    size: u32,
) -> Result<Page, StoreFault>
    requires { 0 < size }
    ensures { Reads (K.standing keeper.old) (K.standing keeper.new) result
        (λ o page. IsPage o book.now (option_copied token.entry) after page.changes page.next) }
{
    let changes = first_changes(alloc, keeper, book, token, after, size)?;
    let next = last_of_page(size, after, changes.as_slice());
    Ok(Page { changes, next })
}
