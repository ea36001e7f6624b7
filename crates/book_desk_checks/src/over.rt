//! Telling what adopting a policy in a store would leave open.

ghost use Rattle.std.specs.Prelude.{◌≡◌};
ghost use Rattle.sqlite.specs.Held.{state};
ghost use Rattle.book_desk_app.specs.Stores.{IsNotHad};
ghost use Rattle.book_desk_checks.specs.Checking.{ChecksCopy, ChecksOver, ChecksTables, EndsOver, over_status};
ghost use Rattle.book_tables.specs.declared.tables.Tables.{Tables};

use crate::checking::end_told;
use book_desk_app::{AdoptionFailure, Failure, Lines, StoreFailure, open_store, tell_line};
use book_machine::AdoptFault;
use book_office::Keeper;
use book_office_copies::copy_without_cards;
use book_policy_warnings::{ToldOver, tell_policy_over};
use book_tables::Tables;
use book_tables_opening::Found;
use sqlite::{Alter, Connection};
use std::alloc::Global;
use std::io::Write;

/// Ends a check over a store, and gives the status of the program.
fn end_over<E: Lines>(told: ToldOver, strict: bool, errors: &mut E) -> u8
    ensures status { result ≡ over_status strict told }
    ensures told { EndsOver (E.is_whole errors.new) (E.Write.contents errors.old)
        (E.Write.contents errors.new) told }
{
    match told {
        ToldOver::Told(told) => end_told(told, strict, errors),
        ToldOver::Full => tell_line(
            errors,
            &Failure::Adoption(AdoptionFailure {
                fault: AdoptFault::Full,
            }),
        ),
    }
}

/// Tells of the bytes of a policy over the Office of any keeper, and gives the status of the program, as `check_over` does
/// over that of a store. The Office stays.
pub fn check_copy<K: Keeper, W: Write, E: Lines>(
    alloc: Global,
    bytes: Vec<u8>,
    strict: bool,
    keeper: &mut K,
    writer: &mut W,
    errors: &mut E,
) -> u8
    ensures { ChecksCopy bytes.items strict (E.is_whole errors.new) (K.standing keeper.old)
        (W.contents writer.old) (W.contents writer.new) (E.Write.contents errors.old)
        (E.Write.contents errors.new) result (K.standing keeper.new) }
{
    let start = match copy_without_cards(alloc, keeper) {
        Ok(start) => start,
        Err(fault) => return tell_line(errors, &Failure::Store(StoreFailure::from(fault))),
    };
    let told = tell_policy_over(alloc, bytes, start, writer, errors);
    end_over(told, strict, errors)
}

/// The same over the tables of a store, which come back.
fn check_tables<S: Alter + Drop, W: Write, E: Lines>(
    alloc: Global,
    bytes: Vec<u8>,
    strict: bool,
    tables: Tables<S>,
    writer: &mut W,
    errors: &mut E,
) -> (u8, Tables<S>)
    ensures { ChecksTables bytes.items strict (E.is_whole errors.new) (state S.Store)
        (λ t. t.connection) (λ t. t.failures) tables (W.contents writer.old)
        (W.contents writer.new) (E.Write.contents errors.old) (E.Write.contents errors.new)
        result.0 result.1 }
{
    let mut tables = tables;
    let status = check_copy(alloc, bytes, strict, &mut tables, writer, errors);
    (status, tables)
}

/// Tells of the bytes of a policy's file over a store: of a policy what it would leave open where the store adopts it
/// (`tell_policy_over`), and else each fault. The Office is copied into memory for it without its cards, and stays as it
/// is. It gives the status of the program as `check` does; 1 also where the store would not adopt the policy, and 3 where
/// the tables could not be had or read. The connection comes back, but where the tables could not be opened.
///
/// Faults come in this order: the tables, the policy, its adoption.
pub fn check_over<S: Alter + Drop, W: Write, E: Lines>(
    alloc: Global,
    bytes: Vec<u8>,
    strict: bool,
    store: Found<S>,
    writer: &mut W,
    errors: &mut E,
) -> (u8, Option<Connection<S>>)
    ensures { ChecksOver bytes.items strict (E.is_whole errors.new) {K = Tables S} (state S.Store)
        (λ t. t.connection) (λ t. t.failures) (IsNotHad S.Store) store (W.contents writer.old)
        (W.contents writer.new) (E.Write.contents errors.old) (E.Write.contents errors.new)
        result.0 result.1 }
{
    match open_store(alloc, store) {
        Ok(tables) => {
            let (status, tables) = check_tables(alloc, bytes, strict, tables, writer, errors);
            (status, Some(tables.release()))
        }
        Err((failure, left)) => {
            drop(left);
            (tell_line(errors, &Failure::Store(failure)), None)
        }
    }
}
