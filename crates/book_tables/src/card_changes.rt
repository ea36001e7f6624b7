//! The last changes of the cards of a book, without a look at its removed names.

ghost use Rattle.std.specs.Prelude.{◌≡◌, ◌<◌, ◌^◌, IfOk};
ghost use Rattle.sqlite.specs.Held.{state};
ghost use Rattle.sqlite.specs.State.{HasCleanDisk, Survives};
ghost use Rattle.book_office_values.specs.Changes.{first_of};
ghost use Rattle.book_office.specs.Resources.{cards_after};
ghost use Rattle.book_tables_rows.specs.Steps.{Keeps, Spares};
ghost use Rattle.book_tables.specs.Inside.{ReadsInside, inside_of};
ghost use Rattle.book_tables.specs.LastChanges.{ShowsCardChanges, DoRise};

use crate::changes::{cards_of, first_of, in_order, up_to_last};
use crate::faults::fault_of;
use crate::texts::book_text;
use book_lists::Name;
use book_office::{Changed, StoreFault};
use book_office_values::Items;
use book_tables_rows::{changed_rows, look_up};
use sqlite::{Alter, Error, ErrorCode, Transaction};
use std::alloc::Global;

/// The changes of the cards of the book at a path above a number, in some order; none where no row has the path. Where a
/// most is given, these are the first so many.
fn cards_at<S: Alter>(
    alloc: Global,
    transaction: &mut Transaction<'_, S>,
    path: &str,
    number: u64,
    at_most: Option<u32>,
) -> Result<Vec<Changed>, Error>
    requires { number < 2 ^ 53 }
    ensures same_reference { transaction.new.conn.ghost_name ≡ transaction.old.conn.ghost_name }
    ensures survives { Survives (state S.Store transaction.old.conn.now)
        (state S.Store transaction.new.conn.now) (λ _. ⊥) }
    ensures kept { Keeps (state S.Store transaction.old.conn.now)
        (state S.Store transaction.new.conn.now) }
    ensures stays { Spares (state S.Store transaction.old.conn.now)
        (state S.Store transaction.new.conn.now) result }
    ensures shown { HasCleanDisk (state S.Store transaction.new.conn.now)
        → IfOk result (λ changes. ShowsCardChanges
        (state S.Store transaction.old.conn.now) path.now number at_most changes.items) }
{
    let Some(book) = look_up(transaction, path)? else {
        return Ok(Vec::new(alloc));
    };
    let id = book.id;
    drop(book);
    let front = format!(in alloc; "{path}/")?;
    let cards = changed_rows(transaction, id, number, at_most)?;
    cards_of(alloc, transaction, id, number, front.as_str(), &cards)
}

/// The changes of `cards_at`, in order of number.
fn shown_cards<S: Alter>(
    alloc: Global,
    transaction: &mut Transaction<'_, S>,
    path: &str,
    number: u64,
    at_most: Option<u32>,
) -> Result<Items<Changed>, Error>
    requires { number < 2 ^ 53 }
    ensures same_reference { transaction.new.conn.ghost_name ≡ transaction.old.conn.ghost_name }
    ensures survives { Survives (state S.Store transaction.old.conn.now)
        (state S.Store transaction.new.conn.now) (λ _. ⊥) }
    ensures kept { Keeps (state S.Store transaction.old.conn.now)
        (state S.Store transaction.new.conn.now) }
    ensures stays { Spares (state S.Store transaction.old.conn.now)
        (state S.Store transaction.new.conn.now) result }
    ensures found { HasCleanDisk (state S.Store transaction.new.conn.now)
        → IfOk result (λ changes. ShowsCardChanges
        (state S.Store transaction.old.conn.now) path.now number at_most changes) }
    ensures rise { IfOk result (λ changes. DoRise changes) }
{
    let changes = cards_at(alloc, transaction, path, number, at_most)?;
    in_order(changes)
}

/// Of the last changes of a book above a number, those of names that have a card, in order of number; none where there
/// is no such book. Where a most is given, these are the first so many: so many cards are read in order of their
/// numbers, and their lists by one look-up. No removed name is looked at. `Memory` is want of memory, `Store` any
/// other failure of the store.
pub(crate) fn cards_after<S: Alter>(
    alloc: Global,
    transaction: &mut Transaction<'_, S>,
    failures: &mut u64,
    book: &Name,
    number: u64,
    at_most: Option<u32>,
) -> Result<Items<Changed>, StoreFault>
    ensures same_reference { transaction.new.conn.ghost_name ≡ transaction.old.conn.ghost_name }
    ensures reads { ReadsInside (inside_of (state S.Store transaction.old.conn.now) failures.old)
        (inside_of (state S.Store transaction.new.conn.now) failures.new) result
        (λ o changes. changes ≡ first_of at_most (cards_after o book.now number)) }
{
    book.known();
    let path = book_text(alloc, book)?;
    let after = up_to_last(number);
    match shown_cards(alloc, transaction, path.as_str(), after, at_most) {
        Ok(changes) => Ok(first_of(changes, at_most)),
        Err(error) => Err(fault_of(error, failures)),
    }
}
