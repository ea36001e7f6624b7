//! Rounds of the keeper over tables: work in one transaction, which one commit keeps.

ghost use Rattle.std.specs.Prelude.{◌≡◌, ◌∷◌, [], false};
ghost use Rattle.sqlite.specs.Held.{state};
ghost use Rattle.book_office.specs.Keeping.{FallsBack};
ghost use Rattle.book_tables.specs.Keeps.{fallback_within, standing_within};
ghost use Rattle.book_tables.specs.Rounds.{IsRun};

use crate::faults::{counted, fault_of};
use crate::tables::Tables;
use crate::within::Within;
use book_office::{Keeper, Rounds, StoreFault, Work};
use sqlite::{Alter, Transaction};
use std::alloc::Global;

/// How work in a transaction has ended.
#[derive(Clone, Copy)]
struct Ending {
    /// Whether a call has failed.
    spoiled: bool,
    /// Whether an edit was begun.
    written: bool,
}

/// Does the work over the keeper of an open transaction.
fn run_within<S: Alter, W: Work>(alloc: Global, work: &mut W, within: &mut Within<'_, '_, S>)
    ensures same_transaction { within.new.transaction.ghost_name ≡
        within.old.transaction.ghost_name }
    ensures same_reference { within.new.transaction.now.conn.ghost_name
        ≡ within.old.transaction.now.conn.ghost_name }
    ensures does { W.does (standing_within
        (within.old.transaction.ghost_name ∷ within.old.transaction.now.conn.ghost_name ∷ [])
        (state S.Store within.old.transaction.now.conn.now) within.old.failures within.old.spoiled
        within.old.written) (standing_within
        (within.new.transaction.ghost_name ∷ within.new.transaction.now.conn.ghost_name ∷ [])
        (state S.Store within.new.transaction.now.conn.now) within.new.failures within.new.spoiled
        within.new.written) work.old work.new }
    ensures falls { FallsBack (fallback_within
        (within.old.transaction.ghost_name ∷ within.old.transaction.now.conn.ghost_name ∷ [])
        (state S.Store within.old.transaction.now.conn.now) within.old.spoiled)
        (fallback_within (within.new.transaction.ghost_name ∷
        within.new.transaction.now.conn.ghost_name ∷ [])
        (state S.Store within.new.transaction.now.conn.now) within.new.spoiled) }
{
    work.run(alloc, within);
}

/// Does the work in an open transaction.
fn run_in<S: Alter, W: Work>(
    alloc: Global,
    transaction: &mut Transaction<'_, S>,
    failures: &mut u64,
    work: &mut W,
) -> Ending
    ensures same_reference { transaction.new.conn.ghost_name ≡ transaction.old.conn.ghost_name }
    ensures run { IsRun W.does (state S.Store transaction.old.conn.now)
        (state S.Store transaction.new.conn.now) failures.old failures.new result.spoiled
        result.written work.old work.new }
{
    let mut within = Within {
        transaction,
        failures: *failures,
        spoiled: false,
        written: false,
    };
    run_within(alloc, work, &mut within);
    *failures = within.failures;
    Ending {
        spoiled: within.spoiled,
        written: within.written,
    }
}

/// A round is a transaction. Where a call of it has failed it is undone, and so it is where nothing was written; else it is
/// committed.
impl<S: Alter> Rounds for Tables<S> {
    ghost use Rattle.sqlite.specs.Held.{state};
    ghost use Rattle.book_tables.specs.Rounds.{InRound, standing_in};

    ghost Inside = { InRound S };

    ghost inside = { λ i. standing_in S.Store i };

    fn round<W: Work>(&mut self, alloc: Global, work: &mut W) -> Result<(), StoreFault> {
        if !self.connection.is_autocommit() {
            return Err(counted(StoreFault::Store, &mut self.failures));
        }
        let mut transaction = self.connection.transaction();
        let ending = run_in(alloc, &mut transaction, &mut self.failures, work);
        if ending.spoiled {
            return Err(StoreFault::Store);
        }
        if !ending.written {
            return Ok(());
        }
        match transaction.commit() {
            Ok(()) => Ok(()),
            Err(error) => Err(fault_of(error, &mut self.failures)),
        }
    }
}
