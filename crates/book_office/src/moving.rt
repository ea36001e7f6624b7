//! COPY and MOVE of cards in memory. Each is made whole, or on an error not at all.

ghost use Rattle.std.specs.Prelude.{◌≡◌, ◌≢◌, ◌+◌, ◌^◌, ◌<◌, ◌≤◌, None, Some, IfOk, IfSome, IfNone, OnOk, OnErr, not, is_some};
ghost use Rattle.std.specs.FinMap.{get, insert};
ghost use Rattle.book_office.specs.Edits.{changed_at, copy_card, move_card, move_to, place_card, put_copy, remove_card};
ghost use Rattle.book_office.specs.Moving.{AreNumbered, bare_book, handed, relabelled, roomed, unroomed};
ghost use Rattle.book_office.specs.Resources.{card_at};
ghost use Rattle.book_office_values.specs.declared.offices.Book.{Book};
ghost use Rattle.book_limits.specs.declared.TheConstants.{LAST_NUMBER};
ghost use Rattle.book_office_values.specs.declared.offices.StoredCard.{StoredCard};

use crate::changing::add_card;
use book_limits::LAST_NUMBER;
use book_lists::{Name, Principal};
use book_office_values::{Book, Changes, Items, NameMap, Office, Properties, StoredCard, Text};
use std::alloc::{AllocError, Global};
use std::mem;

/// Replaces the label and the text of the card of a name, if there is one.
fn replace_contents(cards: &mut NameMap<StoredCard>, name: &Name, label: Text, text: Text)
    ensures { cards.new ≡ changed_at (relabelled label text) cards.old name.now }
{
    if let Some(card) = cards.get_mut(name) {
        card.label = label;
        card.text = text;
    }
}

/// Puts a label and a text at a name.
fn put_copy(
    alloc: Global,
    book: &mut Book,
    name: &Name,
    owner: &Option<Principal>,
    label: Text,
    text: Text,
) -> Result<(), AllocError>
    requires { book.old.changes.number + 1 < 2 ^ 64 }
    ensures ok { OnOk result (book.new ≡ put_copy name.now owner.now label text book.old) }
    ensures err { OnErr result (book.new ≡ book.old) }
{
    if book.cards.get(name).is_some() {
        book.changes.touch(name)?;
        replace_contents(&mut book.cards, name, label, text);
        return Ok(());
    }
    let card = StoredCard {
        owner: owner.clone()?,
        label,
        own: Items::new(alloc),
        text,
    };
    add_card(book, name, card)
}

/// The label and the text of a card, if it is there.
fn contents_of(
    office: &Office,
    book: &Name,
    name: &Name,
) -> Result<Option<(Text, Text)>, AllocError>
    ensures some { IfOk result (λ found. IfSome found
        (λ c. (source : StoredCard) × (card_at office.now book.now name.now ≡ Some source)
        × (c.0 ≡ source.label) × (c.1 ≡ source.text))) }
    ensures none { IfOk result (λ found. IfNone found
        (card_at office.now book.now name.now ≡ None)) }
{
    let Some(book) = office.books.get(book) else {
        return Ok(None);
    };
    match book.cards.get(name) {
        Some(card) => Ok(Some((card.label.clone()?, card.text.clone()?))),
        None => Ok(None),
    }
}

/// Copies a card to a name of a book.
pub(crate) fn copy_card(
    alloc: Global,
    office: &mut Office,
    from_book: &Name,
    from_card: &Name,
    to_book: &Name,
    to_card: &Name,
    owner: &Option<Principal>,
) -> Result<(), AllocError>
    ensures ok { OnOk result (AreNumbered office.old.books
        → office.new ≡ copy_card from_book.now from_card.now to_book.now to_card.now owner.now
        office.old) }
    ensures pairs { office.new.pairs ≡ office.old.pairs }
    ensures err { OnErr result (office.new ≡ office.old) }
{
    let Some((label, text)) = contents_of(office, from_book, from_card)? else {
        return Ok(());
    };
    match office.books.get_mut(to_book) {
        Some(book) if book.changes.number() <= LAST_NUMBER => {
            put_copy(alloc, book, to_card, owner, label, text)
        }
        _ => Ok(()),
    }
}

/// Makes room for a card at a name: where it has none, an empty one. Tells whether one was made.
fn make_room(
    alloc: Global,
    cards: &mut NameMap<StoredCard>,
    name: &Name,
) -> Result<bool, AllocError>
    ensures made { IfOk result (λ made. made ≡ not (is_some (get cards.old name.now))) }
    ensures ok { OnOk result (cards.new ≡ roomed cards.old name.now) }
    ensures err { OnErr result (cards.new ≡ cards.old) }
{
    if cards.get(name).is_some() {
        return Ok(false);
    }
    let key = name.clone()?;
    let card = StoredCard {
        owner: None,
        label: Text::from_string(String::new(alloc)),
        own: Items::new(alloc),
        text: Text::from_string(String::new(alloc)),
    };
    cards.insert(key, card)?;
    Ok(true)
}

/// Takes back the room that was made.
fn take_room(cards: &mut NameMap<StoredCard>, name: &Name, made: bool)
    ensures { cards.new ≡ unroomed cards.old name.now made }
{
    if made {
        cards.remove(name);
    }
}

/// Puts a card where there is room for it.
fn hand_over(cards: &mut NameMap<StoredCard>, name: &Name, card: StoredCard)
    ensures { cards.new ≡ handed card cards.old name.now }
{
    if let Some(room) = cards.get_mut(name) {
        *room = card;
    }
}

/// Moves a card within a book, which takes two numbers.
fn move_within(alloc: Global, book: &mut Book, from: &Name, to: &Name) -> Result<(), AllocError>
    requires { book.old.changes.number + 2 < 2 ^ 64 }
    ensures ok { OnOk result (from.now ≢ to.now → get book.old.cards from.now ≢ None
        → book.new ≡ move_to (get book.old.cards from.now) to.now (remove_card from.now book.old)) }
    ensures err { OnErr result (book.new ≡ book.old) }
{
    let made = make_room(alloc, &mut book.cards, to)?;
    if let Err(error) = book.changes.touch_both(from, to) {
        take_room(&mut book.cards, to, made);
        return Err(error);
    }
    match book.cards.remove(from) {
        Some(card) => hand_over(&mut book.cards, to, card),
        None => {}
    }
    Ok(())
}

/// Moves a card from one book to another.
fn move_between(
    alloc: Global,
    source: &mut Book,
    target: &mut Book,
    from: &Name,
    to: &Name,
) -> Result<(), AllocError>
    requires source { source.old.changes.number + 1 < 2 ^ 64 }
    requires target { target.old.changes.number + 1 < 2 ^ 64 }
    ensures ok { OnOk result (source.new ≡ remove_card from.now source.old) }
    ensures ok_target { OnOk result (get source.old.cards from.now ≢ None
        → target.new ≡ move_to (get source.old.cards from.now) to.now target.old) }
    ensures err { OnErr result (source.new ≡ source.old) }
    ensures err_target { OnErr result (target.new ≡ target.old) }
{
    let made = make_room(alloc, &mut target.cards, to)?;
    if let Err(error) = source.changes.touch_with(from, &mut target.changes, to) {
        take_room(&mut target.cards, to, made);
        return Err(error);
    }
    match source.cards.remove(from) {
        Some(card) => hand_over(&mut target.cards, to, card),
        None => {}
    }
    Ok(())
}

/// Takes a book out, if it is there, and leaves an empty one in its place. Takes no memory.
fn take_book(alloc: Global, books: &mut NameMap<Book>, name: &Name) -> Option<Book>
    ensures found { result ≡ get books.old name.now }
    ensures left { books.new ≡ changed_at (λ _. bare_book) books.old name.now }
{
    match books.get_mut(name) {
        Some(book) => Some(mem::replace(
            book,
            Book {
                properties: Properties::empty(alloc, None),
                cards: NameMap::new(alloc),
                changes: Changes::new(alloc),
            },
        )),
        None => None,
    }
}

/// Puts a book back.
fn give_back(books: &mut NameMap<Book>, name: &Name, book: Book)
    ensures { books.new ≡ changed_at (λ _. book) books.old name.now }
{
    if let Some(empty) = books.get_mut(name) {
        *empty = book;
    }
}

/// Moves a card to a name of a book.
pub(crate) fn move_card(
    alloc: Global,
    office: &mut Office,
    from_book: &Name,
    from_card: &Name,
    to_book: &Name,
    to_card: &Name,
) -> Result<(), AllocError>
    ensures ok { OnOk result (AreNumbered office.old.books
        → card_at office.old from_book.now from_card.now ≢ None
        → get office.old.books to_book.now ≢ None
        → (from_book.now ≡ to_book.now → from_card.now ≢ to_card.now)
        → office.new ≡ move_card from_book.now from_card.now to_book.now to_card.now office.old) }
    ensures pairs { office.new.pairs ≡ office.old.pairs }
    ensures err { OnErr result (office.new ≡ office.old) }
{
    if from_book == to_book {
        move_in_book(alloc, &mut office.books, from_book, from_card, to_card)
    } else {
        move_across(
            alloc,
            &mut office.books,
            from_book,
            from_card,
            to_book,
            to_card,
        )
    }
}

/// Moves a card within one of the books.
fn move_in_book(
    alloc: Global,
    books: &mut NameMap<Book>,
    book: &Name,
    from: &Name,
    to: &Name,
) -> Result<(), AllocError>
    ensures ok { OnOk result (AreNumbered books.old → from.now ≢ to.now → (old : Book)
        → get books.old book.now ≡ Some old → get old.cards from.now ≢ None
        → books.new ≡ insert books.old book.now
        (move_to (get old.cards from.now) to.now (remove_card from.now old))) }
    ensures err { OnErr result (books.new ≡ books.old) }
{
    match books.get_mut(book) {
        Some(book) if book.changes.number() <= LAST_NUMBER => move_within(alloc, book, from, to),
        _ => Ok(()),
    }
}

/// Moves a card from a book that is taken out to one of the others.
fn move_into(
    alloc: Global,
    books: &mut NameMap<Book>,
    source: &mut Book,
    from: &Name,
    to_book: &Name,
    to: &Name,
) -> Result<(), AllocError>
    ensures ok { OnOk result (source.old.changes.number ≤ LAST_NUMBER → (target : Book)
        → get books.old to_book.now ≡ Some target → target.changes.number ≤ LAST_NUMBER
        → get source.old.cards from.now ≢ None → (source.new ≡ remove_card from.now source.old)
        × (books.new ≡ insert books.old to_book.now
        (move_to (get source.old.cards from.now) to.now target))) }
    ensures err { OnErr result ((source.new ≡ source.old) × (books.new ≡ books.old)) }
{
    match books.get_mut(to_book) {
        Some(target)
            if source.changes.number() <= LAST_NUMBER && target.changes.number() <= LAST_NUMBER => {
            move_between(alloc, source, target, from, to)
        }
        _ => Ok(()),
    }
}

/// Moves a card from one of the books to another. The book that it leaves is taken out for as long as that takes.
fn move_across(
    alloc: Global,
    books: &mut NameMap<Book>,
    from_book: &Name,
    from: &Name,
    to_book: &Name,
    to: &Name,
) -> Result<(), AllocError>
    requires { from_book.now ≢ to_book.now }
    ensures ok { OnOk result (AreNumbered books.old → (source target : Book)
        → get books.old from_book.now ≡ Some source → get books.old to_book.now ≡ Some target
        → get source.cards from.now ≢ None
        → books.new ≡ insert (insert books.old from_book.now (remove_card from.now source))
        to_book.now (move_to (get source.cards from.now) to.now target)) }
    ensures err { OnErr result (books.new ≡ books.old) }
{
    let Some(mut source) = take_book(alloc, books, from_book) else {
        return Ok(());
    };
    let moved = move_into(alloc, books, &mut source, from, to_book, to);
    give_back(books, from_book, source);
    moved
}
