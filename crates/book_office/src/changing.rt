//! The edits of an Office in memory. Each is made whole, or on an error not at all.

ghost use Rattle.std.specs.Prelude.{◌≡◌, ◌+◌, ◌^◌, ◌<◌, None, OnOk, OnErr, false};
ghost use Rattle.book_office.specs.Sound.{IsPossible, IsSound};
ghost use Rattle.std.specs.FinMap.{get};
ghost use Rattle.book_office.specs.Edits.{add_book, apply, changed_at, changes_members, place_card, put_card, remove_book, remove_card, with_text};

use crate::edits::Edit;
use crate::moving::{copy_card, move_card};
use crate::setting::{set_label, set_list, set_members};
use book_limits::LAST_NUMBER;
use book_lists::{Name, Principal};
use book_office_adopting::adopt_policy;
use book_office_values::{Book, Changes, Items, NameMap, Office, Properties, StoredCard, Text};
use std::alloc::{AllocError, Global};

/// Replaces the text of the card of a name, if there is one.
fn replace_text(cards: &mut NameMap<StoredCard>, name: &Name, text: Text)
    ensures { cards.new ≡ changed_at (with_text text) cards.old name.now }
{
    if let Some(card) = cards.get_mut(name) {
        card.text = text;
    }
}

/// Puts a text at a name.
fn put_card(
    alloc: Global,
    book: &mut Book,
    name: &Name,
    owner: &Option<Principal>,
    text: &Text,
) -> Result<(), AllocError>
    requires { book.old.changes.number + 1 < 2 ^ 64 }
    ensures ok { OnOk result (book.new ≡ put_card name.now owner.now text.now book.old) }
    ensures err { OnErr result (book.new ≡ book.old) }
{
    let text = text.clone()?;
    if book.cards.get(name).is_some() {
        book.changes.touch(name)?;
        replace_text(&mut book.cards, name, text);
        return Ok(());
    }
    let card = StoredCard {
        owner: owner.clone()?,
        label: Text::from_string(String::new(alloc)),
        own: Items::new(alloc),
        text,
    };
    add_card(book, name, card)
}

/// Adds a card at a name that has none. Where memory is refused for its number, the card is taken out again.
pub(crate) fn add_card(book: &mut Book, name: &Name, card: StoredCard) -> Result<(), AllocError>
    requires free { get book.old.cards name.now ≡ None }
    requires next { book.old.changes.number + 1 < 2 ^ 64 }
    ensures ok { OnOk result (book.new ≡ place_card book.old name.now card) }
    ensures err { OnErr result (book.new ≡ book.old) }
{
    let key = name.clone()?;
    drop(book.cards.insert(key, card)?);
    if let Err(error) = book.changes.touch(name) {
        drop(book.cards.remove(name));
        return Err(error);
    }
    Ok(())
}

/// Removes the card of a name. The name keeps the number of this change.
fn remove_card(book: &mut Book, name: &Name) -> Result<(), AllocError>
    requires { book.old.changes.number + 1 < 2 ^ 64 }
    ensures ok { OnOk result (book.new ≡ remove_card name.now book.old) }
    ensures err { OnErr result (book.new ≡ book.old) }
{
    book.changes.touch(name)?;
    book.cards.remove(name);
    Ok(())
}

/// Adds a book.
fn add_book(
    alloc: Global,
    office: &mut Office,
    name: &Name,
    owner: &Option<Principal>,
) -> Result<(), AllocError>
    ensures ok { OnOk result (office.new ≡ add_book name.now owner.now office.old) }
    ensures err { OnErr result (office.new ≡ office.old) }
{
    let key = name.clone()?;
    let owner = owner.clone()?;
    let book = Book {
        properties: Properties::empty(alloc, owner),
        cards: NameMap::new(alloc),
        changes: Changes::new(alloc),
    };
    drop(office.books.insert(key, book)?);
    Ok(())
}

/// Removes a book, with its cards and removed names.
fn remove_book(office: &mut Office, name: &Name)
    requires { office.old.epoch + 1 < 2 ^ 64 }
    ensures { office.new ≡ remove_book name.now office.old }
{
    office.books.remove(name);
    office.epoch += 1;
}

/// Makes an edit of a sound Office. An error is want of memory; the Office is then as it was. Where a number is beyond
/// its limit, which no sound Office has, nothing is done.
pub(crate) fn act(alloc: Global, office: &mut Office, edit: &Edit) -> Result<(), AllocError>
    ensures ok { OnOk result (IsSound office.old → IsPossible office.old edit.now
        → office.new ≡ apply office.old edit.now) }
    ensures pairs { changes_members edit.now ≡ false → office.new.pairs ≡ office.old.pairs }
    ensures err { OnErr result (office.new ≡ office.old) }
{
    if office.epoch > LAST_NUMBER {
        return Ok(());
    }
    match edit {
        Edit::PutCard {
            book,
            card,
            owner,
            text,
        } => match office.books.get_mut(book) {
            Some(book) if book.changes.number() <= LAST_NUMBER => {
                put_card(alloc, book, card, owner, text)
            }
            _ => Ok(()),
        },
        Edit::RemoveCard { book, card } => match office.books.get_mut(book) {
            Some(book) if book.changes.number() <= LAST_NUMBER => remove_card(book, card),
            _ => Ok(()),
        },
        Edit::CopyCard {
            from_book,
            from_card,
            to_book,
            to_card,
            owner,
        } => copy_card(alloc, office, from_book, from_card, to_book, to_card, owner),
        Edit::MoveCard {
            from_book,
            from_card,
            to_book,
            to_card,
        } => move_card(alloc, office, from_book, from_card, to_book, to_card),
        Edit::AddBook { book, owner } => add_book(alloc, office, book, owner),
        Edit::RemoveBook { book } => {
            remove_book(office, book);
            Ok(())
        }
        Edit::SetLabel { path, label } => set_label(office, path, label),
        Edit::SetList { path, entries } => set_list(office, path, entries),
        Edit::SetMembers { group, members } => set_members(alloc, office, group, members),
        Edit::Adopt { policy } => adopt_policy(alloc, office, policy),
    }
}
