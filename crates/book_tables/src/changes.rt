//! The last changes of a book, each with the card that has the name.

ghost use Rattle.std.specs.Prelude.{◌≡◌, ◌<◌, ◌≤◌, ◌^◌, ◌++◌, IfOk, IfSome, OnOk, IsPermutation, drop, length, map, min, option_map, pos};
ghost use Rattle.book_limits.specs.declared.TheConstants.{LAST_NUMBER};
ghost use Rattle.sqlite.specs.Held.{state};
ghost use Rattle.sqlite.specs.State.{HasCleanDisk, Survives};
ghost use Rattle.sqlite.specs.declared.types.Value.TheVariants.{Int};
ghost use Rattle.book_office_values.specs.Changes.{first_of};
ghost use Rattle.book_office.specs.Resources.{changed_after};
ghost use Rattle.book_tables_rows.specs.Steps.{Keeps, Spares};
ghost use Rattle.book_tables.specs.Inside.{ReadsInside, inside_of};
ghost use Rattle.book_tables.specs.LastChanges.{ShowsCards, ShowsChanges, changed_shown, last_number, removed_shown, DoRise};
ghost use Rattle.book_tables.specs.Shares.{DoNotFall, card_among};

use crate::faults::fault_of;
use crate::reading::owner_of;
use crate::shares::{entries_of_node, list_told};
use crate::spans::have_no_entries;
use crate::texts::book_text;
use book_limits::LAST_NUMBER;
use book_lists::{Entry, Name};
use book_office::{Changed, StoreFault};
use book_office_values::{Items, StoredCard, Text};
use book_tables_rows::{changed_entry_rows, changed_rows, gone_rows, look_up};
use sqlite::{Alter, Error, ErrorCode, Row, Transaction};
use std::alloc::Global;

/// The name that a text is; an error where it is none.
fn name_of(alloc: Global, text: &str) -> Result<Name, Error>
    ensures { IfOk result (λ name. name ≡ text.now) }
{
    let Some(name) = Name::parse(alloc, text)? else {
        return Err(Error::SqliteFailure(ErrorCode::DatabaseCorrupt));
    };
    Ok(name)
}

/// The name behind what the text of a path begins with.
pub(crate) fn name_behind(alloc: Global, front: &str, path: &str) -> Result<Name, Error>
    ensures { IfOk result (λ name. name ≡ drop (length front.now) path.now) }
{
    let Some(name) = path.strip_prefix(front) else {
        return Err(Error::SqliteFailure(ErrorCode::DatabaseCorrupt));
    };
    name_of(alloc, name)
}

/// The change of a card that has this own list: number of its row, path, owner, label, text and change number are
/// read.
fn changed_of(alloc: Global, front: &str, row: &Row, own: Items<Entry>) -> Result<Changed, Error>
    ensures { IfOk result (λ changed. changed ≡ changed_shown front.now own row.now) }
{
    let path: String = row.get(1)?;
    let owner = row.get(2)?;
    let label = row.get(3)?;
    let text = row.get(4)?;
    let number = row.get(5)?;
    Ok(Changed {
        number,
        name: name_behind(alloc, front, path.as_str())?,
        card: Some(StoredCard {
            owner: owner_of(alloc, owner)?,
            label: Text::from_string(label),
            own,
            text: Text::from_string(text),
        }),
    })
}

/// The change of a removed name: name and change number are read.
fn removed_of(alloc: Global, row: &Row) -> Result<Changed, Error>
    ensures { IfOk result (λ changed. changed ≡ removed_shown row.now) }
{
    let name: String = row.get(0)?;
    let number = row.get(1)?;
    Ok(Changed {
        number,
        name: name_of(alloc, name.as_str())?,
        card: None,
    })
}

/// The change of a card, with its own list among the entries of several cards in order of the card's number.
fn card_joined(alloc: Global, front: &str, row: &Row, entries: &[Row]) -> Result<Changed, Error>
    ensures { IfOk result (λ changed. DoNotFall entries.now
        → changed ≡ card_among entries.now front.now row.now) }
{
    let its = entries_of_node(entries, row.get(0)?);
    let own = list_told(alloc, its, false)?;
    changed_of(alloc, front, row, own)
}

/// The changes of cards, with their own lists among those entries.
fn cards_joined(
    alloc: Global,
    front: &str,
    rows: &[Row],
    entries: &[Row],
) -> Result<Vec<Changed>, Error>
    ensures { IfOk result (λ changes. DoNotFall entries.now
        → changes.items ≡ map (card_among entries.now front.now) rows.now) }
{
    let mut changes = Vec::with_capacity(alloc, rows.len())?;
    'cards: for row in rows {
        changes.push(card_joined(alloc, front, row, entries)?)?;
    }
    Ok(changes)
}

/// The change number of the last of some cards that are changed, in order of change number; none where there are none.
/// An error where it is above the last one that there is.
fn last_of(rows: &[Row]) -> Result<Option<u64>, Error>
    ensures told { IfOk result (λ last. option_map
        (λ number. Int (pos number)) last ≡ last_number rows.now) }
    ensures range { IfOk result (λ last. IfSome last (λ number. number ≤ LAST_NUMBER)) }
{
    let Some(row) = rows.last() else {
        return Ok(None);
    };
    let number = row.get(5)?;
    if number > LAST_NUMBER {
        return Err(Error::SqliteFailure(ErrorCode::DatabaseCorrupt));
    }
    Ok(Some(number))
}

/// The changes of the first so many cards of the book with a number that are changed after another, whose rows these are
/// in order of change number. One look-up has the lists of all of them: those of the cards that are changed after that
/// number, and no later than the last of these.
fn cards_with_lists<S: Alter>(
    alloc: Global,
    transaction: &mut Transaction<'_, S>,
    book: i64,
    number: u64,
    front: &str,
    rows: &[Row],
) -> Result<Vec<Changed>, Error>
    requires { number < 2 ^ 53 }
    ensures same_reference { transaction.new.conn.ghost_name ≡ transaction.old.conn.ghost_name }
    ensures survives { Survives (state S.Store transaction.old.conn.now)
        (state S.Store transaction.new.conn.now) (λ _. ⊥) }
    ensures kept { Keeps (state S.Store transaction.old.conn.now)
        (state S.Store transaction.new.conn.now) }
    ensures stays { Spares (state S.Store transaction.old.conn.now)
        (state S.Store transaction.new.conn.now) result }
    ensures shown { HasCleanDisk (state S.Store transaction.new.conn.now)
        → IfOk result (λ changes. ShowsCards
        (state S.Store transaction.old.conn.now) book number front.now rows.now changes.items) }
{
    let Some(last) = last_of(rows)? else {
        return Ok(Vec::new(alloc));
    };
    let entries = changed_entry_rows(transaction, book, number, last)?;
    cards_joined(alloc, front, rows, &entries)
}

/// The same; where it is told that none of the cards has an entry, their lists are not looked up.
pub(crate) fn cards_of<S: Alter>(
    alloc: Global,
    transaction: &mut Transaction<'_, S>,
    book: i64,
    number: u64,
    front: &str,
    rows: &[Row],
) -> Result<Vec<Changed>, Error>
    requires { number < 2 ^ 53 }
    ensures same_reference { transaction.new.conn.ghost_name ≡ transaction.old.conn.ghost_name }
    ensures survives { Survives (state S.Store transaction.old.conn.now)
        (state S.Store transaction.new.conn.now) (λ _. ⊥) }
    ensures kept { Keeps (state S.Store transaction.old.conn.now)
        (state S.Store transaction.new.conn.now) }
    ensures stays { Spares (state S.Store transaction.old.conn.now)
        (state S.Store transaction.new.conn.now) result }
    ensures shown { HasCleanDisk (state S.Store transaction.new.conn.now)
        → IfOk result (λ changes. ShowsCards
        (state S.Store transaction.old.conn.now) book number front.now rows.now changes.items) }
{
    if have_no_entries(transaction, rows)? {
        return cards_joined(alloc, front, rows, &[]);
    }
    cards_with_lists(alloc, transaction, book, number, front, rows)
}

/// Adds the changes of removed names.
fn push_removed(alloc: Global, changes: &mut Vec<Changed>, rows: &[Row]) -> Result<(), Error>
    ensures { OnOk result (changes.new.items ≡ changes.old.items ++ map removed_shown rows.now) }
{
    'names: for row in rows {
        changes.push(removed_of(alloc, row)?)?;
    }
    Ok(())
}

/// The last changes of the book at a path above a number, in some order; none where no row has the path. Where a most is
/// given, these are the first so many of cards and the first so many of removed names.
fn changes_at<S: Alter>(
    alloc: Global,
    transaction: &mut Transaction<'_, S>,
    path: &str,
    number: u64,
    at_most: Option<u32>,
) -> Result<Vec<Changed>, Error>
    requires { number < 2 ^ 53 }
    ensures same_reference { transaction.new.conn.ghost_name ≡ transaction.old.conn.ghost_name }
    ensures survives { Survives (state S.Store transaction.old.conn.now)
        (state S.Store transaction.new.conn.now) (λ _. ⊥) }
    ensures kept { Keeps (state S.Store transaction.old.conn.now)
        (state S.Store transaction.new.conn.now) }
    ensures stays { Spares (state S.Store transaction.old.conn.now)
        (state S.Store transaction.new.conn.now) result }
    ensures shown { HasCleanDisk (state S.Store transaction.new.conn.now)
        → IfOk result (λ changes. ShowsChanges
        (state S.Store transaction.old.conn.now) path.now number at_most changes.items) }
{
    let Some(book) = look_up(transaction, path)? else {
        return Ok(Vec::new(alloc));
    };
    let id = book.id;
    drop(book);
    let front = format!(in alloc; "{path}/")?;
    let cards = changed_rows(transaction, id, number, at_most)?;
    let names = gone_rows(transaction, id, number, at_most)?;
    let mut changes = cards_of(alloc, transaction, id, number, front.as_str(), &cards)?;
    drop(cards);
    drop(front);
    push_removed(alloc, &mut changes, &names)?;
    Ok(changes)
}

/// The changes in order of their numbers; an error where two have one number.
pub(crate) fn in_order(changes: Vec<Changed>) -> Result<Items<Changed>, Error>
    ensures kept { IfOk result (λ ordered. IsPermutation changes.items ordered) }
    ensures rise { IfOk result (λ ordered. DoRise ordered) }
{
    let mut ordered = changes;
    ordered.sort_unstable_by_key(|change| change.number);
    if !ordered.is_sorted_by(|a, b| a.number < b.number) {
        return Err(Error::SqliteFailure(ErrorCode::DatabaseCorrupt));
    }
    Ok(Items::from_vec(ordered))
}

/// The first so many changes; all of them where no most is given.
pub(crate) fn first_of(changes: Items<Changed>, at_most: Option<u32>) -> Items<Changed>
    ensures { result ≡ first_of at_most changes }
{
    let mut first = changes.into_vec();
    if let Some(most) = at_most {
        first.truncate(most as usize);
    }
    Items::from_vec(first)
}

/// The changes of `changes_at`, in order of number.
fn shown_changes<S: Alter>(
    alloc: Global,
    transaction: &mut Transaction<'_, S>,
    path: &str,
    number: u64,
    at_most: Option<u32>,
) -> Result<Items<Changed>, Error>
    requires { number < 2 ^ 53 }
    ensures same_reference { transaction.new.conn.ghost_name ≡ transaction.old.conn.ghost_name }
    ensures survives { Survives (state S.Store transaction.old.conn.now)
        (state S.Store transaction.new.conn.now) (λ _. ⊥) }
    ensures kept { Keeps (state S.Store transaction.old.conn.now)
        (state S.Store transaction.new.conn.now) }
    ensures stays { Spares (state S.Store transaction.old.conn.now)
        (state S.Store transaction.new.conn.now) result }
    ensures found { HasCleanDisk (state S.Store transaction.new.conn.now)
        → IfOk result (λ changes. ShowsChanges
        (state S.Store transaction.old.conn.now) path.now number at_most changes) }
    ensures rise { IfOk result (λ changes. DoRise changes) }
{
    let changes = changes_at(alloc, transaction, path, number, at_most)?;
    in_order(changes)
}

/// The number, or the last one that there is: no change is above either.
pub(crate) fn up_to_last(number: u64) -> u64
    ensures { result ≡ min number LAST_NUMBER }
{
    number.min(LAST_NUMBER)
}

/// The last changes of a book above a number, in order of number, each with the card that has the name; none where
/// there is no such book. `Memory` is want of memory, `Store` any other failure of the store.
///
/// Where a most is given, these are the first so many changes. It reads up to so many cards and so many removed names
/// in order of their numbers, and the lists of those cards by one look-up, whatever else stands in the book.
pub(crate) fn changes_after<S: Alter>(
    alloc: Global,
    transaction: &mut Transaction<'_, S>,
    failures: &mut u64,
    book: &Name,
    number: u64,
    at_most: Option<u32>,
) -> Result<Items<Changed>, StoreFault>
    ensures same_reference { transaction.new.conn.ghost_name ≡ transaction.old.conn.ghost_name }
    ensures reads { ReadsInside (inside_of (state S.Store transaction.old.conn.now) failures.old)
        (inside_of (state S.Store transaction.new.conn.now) failures.new) result
        (λ o changes. changes ≡ first_of at_most (changed_after o book.now number)) }
{
    book.known();
    let path = book_text(alloc, book)?;
    let after = up_to_last(number);
    match shown_changes(alloc, transaction, path.as_str(), after, at_most) {
        Ok(changes) => Ok(first_of(changes, at_most)),
        Err(error) => Err(fault_of(error, failures)),
    }
}
