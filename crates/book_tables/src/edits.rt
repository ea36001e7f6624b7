//! The edits of an Office, each inside a transaction.

ghost use Rattle.std.specs.Prelude.{◌≡◌, ◌≢◌};
ghost use Rattle.sqlite.specs.Held.{state};
ghost use Rattle.book_office.specs.declared.edits.Edit.TheVariants.{
  PutCard,
  RemoveCard,
  CopyCard,
  MoveCard,
  AddBook,
  RemoveBook,
  SetLabel,
};
ghost use Rattle.book_office_values.specs.declared.paths.Kind.TheVariants.{Card};
ghost use Rattle.book_office_values.specs.declared.paths.Path.TheVariants as path;
ghost use Rattle.book_office_values.specs.Paths.{kind_of};
ghost use Rattle.book_tables.specs.Inside.{EditsInside, inside_of};

use crate::adopting::adopt;
use crate::faults::fault_of;
use crate::settings::{set_list, set_members};
use crate::texts::{book_text, card_text, text_of};
use book_lists::{Name, Principal};
use book_office::{Edit, StoreFault};
use book_office_values::{Path, Text};
use sqlite::{Alter, Transaction};
use std::alloc::Global;

/// PUT of a card (RFC 9110, section 9.3.4): a new card gets the owner, an empty label and an empty own list; of a
/// card that is there the text alone is replaced. `Memory` is want of memory, `Store` any other failure.
fn put_card<S: Alter>(
    alloc: Global,
    transaction: &mut Transaction<'_, S>,
    failures: &mut u64,
    book: &Name,
    card: &Name,
    owner: &Option<Principal>,
    text: &Text,
) -> Result<(), StoreFault>
    ensures same_reference { transaction.new.conn.ghost_name ≡ transaction.old.conn.ghost_name }
    ensures edits { EditsInside (inside_of (state S.Store transaction.old.conn.now) failures.old)
        (inside_of (state S.Store transaction.new.conn.now) failures.new) result
        (PutCard book.now card.now owner.now text.now) }
{
    let book_path = book_text(alloc, book)?;
    let card_path = card_text(alloc, book, card)?;
    let owner = owner.as_ref().map(|owner| owner.text());
    match book_tables_rows::put_card(
        transaction,
        book_path.as_str(),
        card_path.as_str(),
        card.text(),
        owner,
        text.as_str(),
    ) {
        Ok(()) => Ok(()),
        Err(error) => Err(fault_of(error, failures)),
    }
}

/// DELETE of a card: its entries go with it, and its name is kept as removed. `Memory` is want of memory, `Store`
/// any other failure.
fn remove_card<S: Alter>(
    alloc: Global,
    transaction: &mut Transaction<'_, S>,
    failures: &mut u64,
    book: &Name,
    card: &Name,
) -> Result<(), StoreFault>
    ensures same_reference { transaction.new.conn.ghost_name ≡ transaction.old.conn.ghost_name }
    ensures edits { EditsInside (inside_of (state S.Store transaction.old.conn.now) failures.old)
        (inside_of (state S.Store transaction.new.conn.now) failures.new) result
        (RemoveCard book.now card.now) }
{
    let book_path = book_text(alloc, book)?;
    let card_path = card_text(alloc, book, card)?;
    match book_tables_rows::remove_card(
        transaction,
        book_path.as_str(),
        card_path.as_str(),
        card.text(),
    ) {
        Ok(()) => Ok(()),
        Err(error) => Err(fault_of(error, failures)),
    }
}

/// COPY of the text and the label of a card (RFC 4918, section 9.8): a new card gets the owner and an empty own
/// list; a card that is there keeps its own. `Memory` is want of memory, `Store` any other failure.
fn copy_card<S: Alter>(
    alloc: Global,
    transaction: &mut Transaction<'_, S>,
    failures: &mut u64,
    from_book: &Name,
    from_card: &Name,
    to_book: &Name,
    to_card: &Name,
    owner: &Option<Principal>,
) -> Result<(), StoreFault>
    ensures same_reference { transaction.new.conn.ghost_name ≡ transaction.old.conn.ghost_name }
    ensures edits { EditsInside (inside_of (state S.Store transaction.old.conn.now) failures.old)
        (inside_of (state S.Store transaction.new.conn.now) failures.new) result
        (CopyCard from_book.now from_card.now to_book.now to_card.now owner.now) }
{
    let source = card_text(alloc, from_book, from_card)?;
    let book_path = book_text(alloc, to_book)?;
    let card_path = card_text(alloc, to_book, to_card)?;
    let owner = owner.as_ref().map(|owner| owner.text());
    match book_tables_rows::copy_card(
        transaction,
        source.as_str(),
        book_path.as_str(),
        card_path.as_str(),
        to_card.text(),
        owner,
    ) {
        Ok(()) => Ok(()),
        Err(error) => Err(fault_of(error, failures)),
    }
}

/// MOVE of a card (RFC 4918, section 9.9), in place of a card that is there: its owner, label, text and own list go
/// with it, and the name that it had is kept as removed. `Memory` is want of memory, `Store` any other failure.
fn move_card<S: Alter>(
    alloc: Global,
    transaction: &mut Transaction<'_, S>,
    failures: &mut u64,
    from_book: &Name,
    from_card: &Name,
    to_book: &Name,
    to_card: &Name,
) -> Result<(), StoreFault>
    ensures same_reference { transaction.new.conn.ghost_name ≡ transaction.old.conn.ghost_name }
    ensures edits { EditsInside (inside_of (state S.Store transaction.old.conn.now) failures.old)
        (inside_of (state S.Store transaction.new.conn.now) failures.new) result
        (MoveCard from_book.now from_card.now to_book.now to_card.now) }
{
    let source_book = book_text(alloc, from_book)?;
    let source = card_text(alloc, from_book, from_card)?;
    let target_book = book_text(alloc, to_book)?;
    let target = card_text(alloc, to_book, to_card)?;
    match book_tables_rows::move_card(
        transaction,
        source_book.as_str(),
        source.as_str(),
        from_card.text(),
        target_book.as_str(),
        target.as_str(),
        to_card.text(),
    ) {
        Ok(()) => Ok(()),
        Err(error) => Err(fault_of(error, failures)),
    }
}

/// MKCOL of a book (RFC 4918, section 9.3): an empty label, empty lists and the number 0. `Memory` is want of
/// memory, `Store` any other failure.
fn add_book<S: Alter>(
    alloc: Global,
    transaction: &mut Transaction<'_, S>,
    failures: &mut u64,
    book: &Name,
    owner: &Option<Principal>,
) -> Result<(), StoreFault>
    ensures same_reference { transaction.new.conn.ghost_name ≡ transaction.old.conn.ghost_name }
    ensures edits { EditsInside (inside_of (state S.Store transaction.old.conn.now) failures.old)
        (inside_of (state S.Store transaction.new.conn.now) failures.new) result
        (AddBook book.now owner.now) }
{
    let book_path = book_text(alloc, book)?;
    let owner = owner.as_ref().map(|owner| owner.text());
    match book_tables_rows::add_book(transaction, "/books", book_path.as_str(), owner) {
        Ok(()) => Ok(()),
        Err(error) => Err(fault_of(error, failures)),
    }
}

/// DELETE of a book, with its cards, its removed names and their entries; the epoch rises. `Memory` is want of
/// memory, `Store` any other failure.
fn remove_book<S: Alter>(
    alloc: Global,
    transaction: &mut Transaction<'_, S>,
    failures: &mut u64,
    book: &Name,
) -> Result<(), StoreFault>
    ensures same_reference { transaction.new.conn.ghost_name ≡ transaction.old.conn.ghost_name }
    ensures edits { EditsInside (inside_of (state S.Store transaction.old.conn.now) failures.old)
        (inside_of (state S.Store transaction.new.conn.now) failures.new) result
        (RemoveBook book.now) }
{
    let book_path = book_text(alloc, book)?;
    match book_tables_rows::remove_book(transaction, book_path.as_str()) {
        Ok(()) => Ok(()),
        Err(error) => Err(fault_of(error, failures)),
    }
}

/// The label of a card: a change of the card.
fn label_card<S: Alter>(
    alloc: Global,
    transaction: &mut Transaction<'_, S>,
    failures: &mut u64,
    book: &Name,
    card: &Name,
    label: &Text,
) -> Result<(), StoreFault>
    ensures same_reference { transaction.new.conn.ghost_name ≡ transaction.old.conn.ghost_name }
    ensures edits { EditsInside (inside_of (state S.Store transaction.old.conn.now) failures.old)
        (inside_of (state S.Store transaction.new.conn.now) failures.new) result
        (SetLabel (path.Card book.now card.now) label.now) }
{
    let book_path = book_text(alloc, book)?;
    let card_path = card_text(alloc, book, card)?;
    match book_tables_rows::label_card(
        transaction,
        book_path.as_str(),
        card_path.as_str(),
        label.as_str(),
    ) {
        Ok(()) => Ok(()),
        Err(error) => Err(fault_of(error, failures)),
    }
}

/// The label of a resource that is no card: its number stays.
fn label_other<S: Alter>(
    alloc: Global,
    transaction: &mut Transaction<'_, S>,
    failures: &mut u64,
    path: &Path,
    label: &Text,
) -> Result<(), StoreFault>
    requires { kind_of path.now ≢ Card }
    ensures same_reference { transaction.new.conn.ghost_name ≡ transaction.old.conn.ghost_name }
    ensures edits { EditsInside (inside_of (state S.Store transaction.old.conn.now) failures.old)
        (inside_of (state S.Store transaction.new.conn.now) failures.new) result
        (SetLabel path.now label.now) }
{
    let text = text_of(alloc, path)?;
    match book_tables_rows::label_node(transaction, text.as_str(), label.as_str()) {
        Ok(()) => Ok(()),
        Err(error) => Err(fault_of(error, failures)),
    }
}

/// PROPPATCH of a displayname (RFC 4918, section 15.2): a card's is a change of the card, any other changes no
/// number. `Memory` is want of memory, `Store` any other failure.
fn set_label<S: Alter>(
    alloc: Global,
    transaction: &mut Transaction<'_, S>,
    failures: &mut u64,
    path: &Path,
    label: &Text,
) -> Result<(), StoreFault>
    ensures same_reference { transaction.new.conn.ghost_name ≡ transaction.old.conn.ghost_name }
    ensures edits { EditsInside (inside_of (state S.Store transaction.old.conn.now) failures.old)
        (inside_of (state S.Store transaction.new.conn.now) failures.new) result
        (SetLabel path.now label.now) }
{
    match path {
        Path::Card(book, card) => label_card(alloc, transaction, failures, book, card, label),
        Path::Root
        | Path::People
        | Path::Groups
        | Path::Books
        | Path::Person(_)
        | Path::Group(_)
        | Path::Book(_) => label_other(alloc, transaction, failures, path, label),
    }
}

/// An edit. At an error nothing is told of the rows, and the transaction has to be given up. `Memory` is want of memory,
/// `Store` any other failure.
pub(crate) fn act<S: Alter>(
    alloc: Global,
    transaction: &mut Transaction<'_, S>,
    failures: &mut u64,
    edit: &Edit,
) -> Result<(), StoreFault>
    ensures same_reference { transaction.new.conn.ghost_name ≡ transaction.old.conn.ghost_name }
    ensures edits { EditsInside (inside_of (state S.Store transaction.old.conn.now) failures.old)
        (inside_of (state S.Store transaction.new.conn.now) failures.new) result edit.now }
{
    match edit {
        Edit::PutCard {
            book,
            card,
            owner,
            text,
        } => put_card(alloc, transaction, failures, book, card, owner, text),
        Edit::RemoveCard { book, card } => remove_card(alloc, transaction, failures, book, card),
        Edit::CopyCard {
            from_book,
            from_card,
            to_book,
            to_card,
            owner,
        } => copy_card(
            alloc,
            transaction,
            failures,
            from_book,
            from_card,
            to_book,
            to_card,
            owner,
        ),
        Edit::MoveCard {
            from_book,
            from_card,
            to_book,
            to_card,
        } => move_card(
            alloc,
            transaction,
            failures,
            from_book,
            from_card,
            to_book,
            to_card,
        ),
        Edit::AddBook { book, owner } => add_book(alloc, transaction, failures, book, owner),
        Edit::RemoveBook { book } => remove_book(alloc, transaction, failures, book),
        Edit::SetLabel { path, label } => set_label(alloc, transaction, failures, path, label),
        Edit::SetList { path, entries } => set_list(alloc, transaction, failures, path, entries),
        Edit::SetMembers { group, members } => {
            set_members(alloc, transaction, failures, group, members)
        }
        Edit::Adopt { policy } => adopt(alloc, transaction, failures, policy),
    }
}
