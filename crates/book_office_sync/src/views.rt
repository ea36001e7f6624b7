//! What a caller may read of a book, page by page.

ghost use Rattle.book_office.specs.Keeping.{Reads};
ghost use Rattle.book_office_sync.specs.Views.{IsViewPage};

use crate::messages::Item;
use crate::pages::{PAGE, Page, read_page};
use crate::reports::{above_cards, push_told};
use book_lists::{Circle, Name};
use book_office::{Items, Keeper, StoreFault};
use std::alloc::Global;

/// A page of a caller's view of a book.
#[derive(Debug, Drop)]
pub struct ViewPage {
    /// The cards that the caller may read, in order of number.
    pub items: Items<Item>,
    /// The number after which the next page begins; none where this is the last.
    pub next: Option<u64>,
}

/// The cards of a book that the caller with this circle may read, as an initial report tells them (RFC 6578, section
/// 3.4): those of a page of at most 500 cards after a number, in order of their last changes; none where there is no such
/// book. An error is want of memory or a failure of the store.
///
/// Where no request acts in between, all pages, each asked for after the number of the one before it and the first after 0,
/// are the initial report; who lets each page go holds no more than one.
pub fn view_page<K: Keeper>(
    alloc: Global,
    keeper: &mut K,
    circle: &Circle,
    book: &Name,
    after: u64,
) -> Result<ViewPage, StoreFault>
    ensures { Reads (K.standing keeper.old) (K.standing keeper.new) result
        (λ o page. IsViewPage o circle.now book.now after page.items page.next) }
{
    let above = above_cards(alloc, keeper, circle, book)?;
    let Page { changes, next } = read_page(alloc, keeper, book, None, after, PAGE)?;
    let mut items = Vec::new(alloc);
    push_told(&mut items, &above, circle, None, changes)?;
    Ok(ViewPage {
        items: Items::from_vec(items),
        next,
    })
}
