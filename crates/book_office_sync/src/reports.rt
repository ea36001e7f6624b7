//! Sync reports over a keeper.

ghost use Rattle.std.specs.Prelude.{◌≡◌, ◌++◌, ◌<◌, Some, IfOk, IfSome, OnOk, map, option_map};
ghost use Rattle.std.specs.FinMap.{get};
ghost use Rattle.std.specs.Option.{option_copied};
ghost use Rattle.book_lists.specs.Deciders.{IsDeciders};
ghost use Rattle.book_lists.specs.Readings.{read_by};
ghost use Rattle.book_office_values.specs.declared.offices.Book.{Book};
ghost use Rattle.book_office_values.specs.declared.paths.Path.TheVariants as path;
ghost use Rattle.book_office.specs.Keeping.{Reads};
ghost use Rattle.book_office.specs.Levels.{lists_at};
ghost use Rattle.book_office_sync.specs.Copies.{is_cut, item_of, reported, start_of, sync, BringsCopies, IsLimit};
ghost use Rattle.book_office_sync.specs.Limits.{AreEnough, last_told, told_items, told_report};
ghost use Rattle.book_office_sync.specs.Reading.{entries_under, found_in, is_granted, is_readable, item_in};
ghost use Rattle.book_office_sync.specs.Reading.{names_place};
ghost use Rattle.book_office_sync.specs.Sifting.{AppliesAs, IsAboveOf};

use crate::messages::{Found, Item, Report, Token};
use crate::pages::{PAGE, Page, read_page};
use crate::sifting::keep;
use book_lists::{Circle, Deciders, Entry, Here, Name};
use book_office::{Changed, Items, Keeper, Level, Lists, Path, StoreFault};
use book_office_values::StoredCard;
use book_rights::{Leaf, LeafSet, Privilege};
use std::alloc::{AllocError, Global};

/// How many cards an initial report reads at once at least.
const FEWEST: u32 = 100;

/// The lists above the cards of a book without the entries that can't apply to the caller: the protected entries of the
/// book and of what is above it, and the own entries likewise. They are read once for all its cards.
#[derive(Debug, Drop)]
pub struct Above {
    /// The protected entries.
    pub protected: Items<Entry>,
    /// The own entries.
    pub own: Items<Entry>,
}

/// Adds the entries of a level that may apply to the caller. None is copied.
fn keep_level(
    protected: &mut Vec<Entry>,
    own: &mut Vec<Entry>,
    level: Level,
    circle: &Circle,
) -> Result<(), AllocError>
    ensures protected { OnOk result (AppliesAs circle.now
        (protected.old.items ++ level.protected) protected.new.items) }
    ensures own { OnOk result (AppliesAs circle.now (own.old.items ++ level.own) own.new.items) }
{
    keep(protected, level.protected, circle)?;
    keep(own, level.own, circle)
}

/// The entries of all levels that may apply to the caller. None is copied.
fn join_levels(alloc: Global, lists: Lists, circle: &Circle) -> Result<Above, AllocError>
    ensures { IfOk result (λ above. IsAboveOf circle.now lists.levels above) }
{
    let mut protected = Vec::new(alloc);
    let mut own = Vec::new(alloc);
    for level in lists.levels.into_vec() {
        keep_level(&mut protected, &mut own, level, circle)?;
    }
    Ok(Above {
        protected: Items::from_vec(protected),
        own: Items::from_vec(own),
    })
}

/// The lists above the cards of a book, without the entries that can't apply to the caller. An error is want of memory or
/// a failure of the store.
pub(crate) fn above_cards<K: Keeper>(
    alloc: Global,
    keeper: &mut K,
    circle: &Circle,
    book: &Name,
) -> Result<Above, StoreFault>
    ensures { Reads (K.standing keeper.old) (K.standing keeper.new) result
        (λ o above. IsAboveOf circle.now (lists_at o (path.Book book.now)).levels above) }
{
    let path = Path::Book(book.clone()?);
    let lists = keeper.lists(alloc, &path);
    drop(path);
    Ok(join_levels(alloc, lists?, circle)?)
}

/// Which entry decides each leaf of a set at a card with this own list, by the entries in force there.
fn deciders_at(
    above: &Above,
    circle: &Circle,
    here: &Here,
    own: &Items<Entry>,
    set: LeafSet,
) -> Deciders
    ensures { IsDeciders set (read_by circle.now here.now
        (entries_under above.now own.now)) result }
{
    let mut deciders = Deciders::start(set);
    deciders.over(above.protected.as_slice(), circle, here);
    deciders.over(own.as_slice(), circle, here);
    deciders.over(above.own.as_slice(), circle, here);
    deciders
}

/// Whether the entries in force at a card with this own list grant the leaf.
pub(crate) fn is_granted(
    above: &Above,
    circle: &Circle,
    here: &Here,
    own: &Items<Entry>,
    leaf: Leaf,
) -> bool
    ensures { result ≡ is_granted above.now circle.now here.now own.now leaf }
{
    let set = LeafSet::empty().with(leaf);
    deciders_at(above, circle, here, own, set)
        .granted()
        .has(leaf)
}

/// Whether a card with this own list may be read.
fn is_readable(above: &Above, circle: &Circle, here: &Here, own: &Items<Entry>) -> bool
    ensures { result ≡ is_readable above.now circle.now here.now own.now }
{
    let read = Privilege::Read.leaves();
    let granted = deciders_at(above, circle, here, own, read).granted();
    granted.has(Leaf::ReadTexts) && granted.has(Leaf::ReadNames)
}

/// What a report says of the card, if there is one and it may be read. Takes no memory: the text is handed on.
fn found_in(above: &Above, circle: &Circle, card: Option<StoredCard>) -> Option<Found>
    ensures { result ≡ found_in above.now circle.now card }
{
    let Some(card) = card else {
        return None;
    };
    let StoredCard {
        owner,
        label,
        own,
        text,
    } = card;
    let here = Here {
        owner,
        principal: None,
    };
    if is_readable(above, circle, &here, &own) {
        Some(Found { label, text })
    } else {
        None
    }
}

/// What a report says of a change.
fn item_in(above: &Above, circle: &Circle, change: Changed) -> Item
    ensures { result ≡ item_in above.now circle.now change }
{
    let Changed { number, name, card } = change;
    let found = found_in(above, circle, card);
    Item {
        name,
        number,
        found,
    }
}

/// Adds what a report says of changes: without a token of those alone whose cards are there and may be read.
pub(crate) fn push_told(
    items: &mut Vec<Item>,
    above: &Above,
    circle: &Circle,
    token: Option<&Token>,
    changes: Items<Changed>,
) -> Result<(), AllocError>
    ensures { OnOk result (items.new.items ≡ items.old.items ++ told_items above.now circle.now
        (option_copied token.entry) changes) }
{
    for change in changes.into_vec() {
        let item = item_in(above, circle, change);
        if token.is_some() || item.found.is_some() {
            items.push(item)?;
        }
    }
    Ok(())
}

/// How many changes are read at once for a report: one more than its limit, but no more than a page; without a token,
/// where what may not be read is passed over, no fewer than `FEWEST`.
fn page_size(token: Option<&Token>, limit: Option<u32>) -> u32
    requires { IsLimit limit }
    ensures { 0 < result }
{
    let Some(most) = limit else {
        return PAGE;
    };
    let wanted = most + 1;
    if wanted > PAGE {
        return PAGE;
    }
    if token.is_none() && wanted < FEWEST {
        return FEWEST;
    }
    wanted
}

/// Whether items remain when a report is cut to the limit.
fn is_cut(limit: Option<u32>, items: &[Item]) -> bool
    ensures { result ≡ is_cut limit items.now }
{
    match limit {
        Some(most) => items.len() > most as usize,
        None => false,
    }
}

/// The number of the last change of a book, if there is such a book.
fn number_of_book<K: Keeper>(
    alloc: Global,
    keeper: &mut K,
    book: &Name,
) -> Result<Option<u64>, StoreFault>
    ensures { Reads (K.standing keeper.old) (K.standing keeper.new) result
        (λ o number. number ≡ option_map (λ (x : Book). x.changes.number) (get o.books book.now)) }
{
    let path = Path::Book(book.clone()?);
    let found = keeper.find(alloc, &path);
    drop(path);
    Ok(found?.map(|node| node.number))
}

/// Whether a token, if there is one, names this book, this epoch, and a number that the book has reached.
fn is_valid(token: Option<&Token>, book: &Name, epoch: u64, number: u64) -> bool
    ensures { result ≡ names_place book.now epoch number (option_copied token.entry) }
{
    match token {
        Some(token) => token.book == *book && token.epoch == epoch && token.number <= number,
        None => true,
    }
}

/// The number after which a report is asked: that of the token, and else 0.
fn start_of(token: Option<&Token>) -> u64
    ensures { result ≡ start_of (option_copied token.entry) }
{
    match token {
        Some(token) => token.number,
        None => 0,
    }
}

/// The items of a report on a book: all of them, or up to more than a limit. The lists above its cards are read once,
/// and then its changes page by page, each with its card.
fn report_items<K: Keeper>(
    alloc: Global,
    keeper: &mut K,
    circle: &Circle,
    book: &Name,
    token: Option<&Token>,
    limit: Option<u32>,
) -> Result<Items<Item>, StoreFault>
    requires { IsLimit limit }
    ensures { Reads (K.standing keeper.old) (K.standing keeper.new) result
        (λ o items. (x : Book) → get o.books book.now ≡ Some x
        → AreEnough limit (map (item_of o circle.now book.now)
        (reported o circle.now book.now x (option_copied token.entry))) items) }
{
    let above = above_cards(alloc, keeper, circle, book)?;
    let size = page_size(token, limit);
    let mut items = Vec::new(alloc);
    let mut after = start_of(token);
    'pages: for _page in 0..u64::MAX {
        let Page { changes, next } = read_page(alloc, keeper, book, token, after, size)?;
        push_told(&mut items, &above, circle, token, changes)?;
        let Some(number) = next else {
            return Ok(Items::from_vec(items));
        };
        if is_cut(limit, &items) {
            return Ok(Items::from_vec(items));
        }
        after = number;
    }
    Ok(Items::from_vec(items))
}

/// The number of the last item, and else the one given.
fn last_number(items: &[Item], otherwise: u64) -> u64
    ensures { result ≡ last_told otherwise items.now }
{
    let mut number = otherwise;
    for item in items {
        number = item.number;
    }
    number
}

/// The report of these items, cut to the limit where there are more: it is then told up to the last item that is left
/// (RFC 6578, section 3.6), and else up to the place that is given, which is that of the book's contents. Takes no memory.
fn cut_report(start: u64, limit: Option<u32>, items: Items<Item>, place: Token) -> Report
    ensures { result ≡ told_report start limit items place }
{
    let mut items = items.into_vec();
    let mut token = place;
    let mut truncated = false;
    if let Some(most) = limit {
        if items.len() > most as usize {
            items.truncate(most as usize);
            token.number = last_number(items.as_slice(), start);
            truncated = true;
        }
    }
    Report {
        items: Items::from_vec(items),
        truncated,
        token,
    }
}

/// The report on a book after a token, or the initial one without a token; none where the token is not valid.
fn read_report<K: Keeper>(
    alloc: Global,
    keeper: &mut K,
    circle: &Circle,
    book: &Name,
    token: Option<&Token>,
    limit: Option<u32>,
) -> Result<Option<Report>, StoreFault>
    requires { IsLimit limit }
    ensures { Reads (K.standing keeper.old) (K.standing keeper.new) result
        (λ o report. report ≡ sync o circle.now book.now (option_copied token.entry) limit) }
{
    let name = book.clone()?;
    let epoch = keeper.epoch()?;
    let Some(number) = number_of_book(alloc, keeper, book)? else {
        return Ok(None);
    };
    if !is_valid(token, book, epoch, number) {
        return Ok(None);
    }
    let items = report_items(alloc, keeper, circle, book, token, limit)?;
    let place = Token {
        book: name,
        epoch,
        number,
    };
    Ok(Some(cut_report(start_of(token), limit, items, place)))
}

/// The report on a book after a token, or the initial one without a token (RFC 6578, section 3.2): in order of number,
/// each name whose last change is later than the token, with its card where it is there and the caller may read it, and
/// else as removed; the initial report has the cards that the caller may read. Its token is that of the book's present
/// contents.
///
/// A limit is a number of items from 1 to 10,000 (RFC 6578, section 3.7). Where there are more, the report has the first
/// so many, it is truncated (section 3.6), and its token has the number of the last of them: a report after that token
/// has the rest.
///
/// None where there is no such book, or where the token is not valid: it names another book, another epoch than the
/// present one, or a number that the book has not reached (RFC 6578, section 3.2, precondition valid-sync-token). An
/// error is want of memory or a failure of the store.
///
/// It reads the book's place and the lists above its cards, and then its changes in pages of at most 500, with a limit
/// of no more than one above it, decides once for each, and changes nothing: beside what the report tells, a page is
/// held. An initial report reads cards alone, at least 100 at once, and no removed name. The circle is that of the
/// caller.
pub fn sync_report<K: Keeper>(
    alloc: Global,
    keeper: &mut K,
    circle: &Circle,
    book: &Name,
    token: Option<&Token>,
    limit: Option<u32>,
) -> Result<Option<Report>, StoreFault>
    requires { IsLimit limit }
    ensures reads { Reads (K.standing keeper.old) (K.standing keeper.new) result
        (λ o report. report ≡ sync o circle.now book.now (option_copied token.entry) limit) }
    ensures copies { Reads (K.standing keeper.old) (K.standing keeper.new) result
        (λ o report. IfSome report (BringsCopies o circle.now book.now
        (option_copied token.entry))) }
{
    read_report(alloc, keeper, circle, book, token, limit)
}
