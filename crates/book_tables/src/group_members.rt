//! The direct members of one group, and the groups of one member.

ghost use Rattle.std.specs.Prelude.{◌≡◌, IfOk, map};
ghost use Rattle.sqlite.specs.Held.{state};
ghost use Rattle.sqlite.specs.State.{HasCleanDisk, Survives};
ghost use Rattle.book_lists.specs.Memberships.{members_of};
ghost use Rattle.book_office.specs.Edits.{members_set};
ghost use Rattle.book_tables_rows.specs.Lists.{ShowsRows};
ghost use Rattle.book_tables_rows.specs.Reach.{pair_said};
ghost use Rattle.book_tables_rows.specs.Steps.{Keeps, Spares};
ghost use Rattle.book_tables.specs.Groups.{ShowsPairsAt, pairs_at};
ghost use Rattle.book_tables.specs.Inside.{ReadsInside, inside_of};
ghost use Rattle.book_tables.specs.Reach.{Renews};
ghost use Rattle.book_tables.specs.Searching.{ArePairsAt};

use crate::faults::fault_of;
use crate::members::{pairs, pairs_of};
use crate::nearby::Directs;
use crate::renewals::{Renewal, renewal_at};
use crate::searching::Way;
use book_lists::{Pairs, Principal};
use book_office::StoreFault;
use sqlite::{Alter, Error, Row, Transaction, params};
use std::alloc::Global;

/// The pairs of one group, or of one member, in some order: the paths of group and member of each.
fn rows_at<S: Alter>(
    transaction: &mut Transaction<'_, S>,
    way: Way,
    at: &str,
) -> Result<Vec<Row>, Error>
    ensures same_reference { transaction.new.conn.ghost_name ≡ transaction.old.conn.ghost_name }
    ensures survives { Survives (state S.Store transaction.old.conn.now)
        (state S.Store transaction.new.conn.now) (λ _. ⊥) }
    ensures kept { Keeps (state S.Store transaction.old.conn.now)
        (state S.Store transaction.new.conn.now) }
    ensures stays { Spares (state S.Store transaction.old.conn.now)
        (state S.Store transaction.new.conn.now) result }
    ensures shown { HasCleanDisk (state S.Store transaction.new.conn.now)
        → IfOk result (λ rows. ShowsRows (state S.Store transaction.old.conn.now)
        (pairs_at way at.now) rows.items) }
{
    match way {
        Way::Down => transaction.query_all(
            "SELECT grp, member FROM member WHERE grp = ?1",
            params![at],
        ),
        Way::Up => transaction.query_all(
            "SELECT grp, member FROM member WHERE member = ?1",
            params![at],
        ),
    }
}

/// The pairs of one group, or of one member.
fn shown_at<S: Alter>(
    alloc: Global,
    transaction: &mut Transaction<'_, S>,
    way: Way,
    at: &str,
) -> Result<Pairs, Error>
    ensures same_reference { transaction.new.conn.ghost_name ≡ transaction.old.conn.ghost_name }
    ensures survives { Survives (state S.Store transaction.old.conn.now)
        (state S.Store transaction.new.conn.now) (λ _. ⊥) }
    ensures kept { Keeps (state S.Store transaction.old.conn.now)
        (state S.Store transaction.new.conn.now) }
    ensures stays { Spares (state S.Store transaction.old.conn.now)
        (state S.Store transaction.new.conn.now) result }
    ensures found { HasCleanDisk (state S.Store transaction.new.conn.now)
        → IfOk result (λ pairs. ShowsPairsAt (state S.Store transaction.old.conn.now) way at.now pairs) }
{
    let rows = rows_at(transaction, way, at)?;
    pairs_of(alloc, &rows)
}

/// The pairs by which a search goes on from a principal: one look-up.
pub(crate) fn look<S: Alter>(
    alloc: Global,
    transaction: &mut Transaction<'_, S>,
    failures: &mut u64,
    way: Way,
    at: &Principal,
) -> Result<Pairs, StoreFault>
    ensures same_reference { transaction.new.conn.ghost_name ≡ transaction.old.conn.ghost_name }
    ensures reads { ReadsInside (inside_of (state S.Store transaction.old.conn.now) failures.old)
        (inside_of (state S.Store transaction.new.conn.now) failures.new) result
        (λ o pairs. ArePairsAt o.pairs way at.now pairs) }
{
    match shown_at(alloc, transaction, way, at.text()) {
        Ok(pairs) => Ok(pairs),
        Err(error) => Err(fault_of(error, failures)),
    }
}

/// The direct members of one group, each as a pair: one look-up by group. `Memory` is want of memory, `Store` any
/// other failure of the store.
pub(crate) fn members<S: Alter>(
    alloc: Global,
    transaction: &mut Transaction<'_, S>,
    failures: &mut u64,
    group: &Principal,
) -> Result<Pairs, StoreFault>
    ensures same_reference { transaction.new.conn.ghost_name ≡ transaction.old.conn.ghost_name }
    ensures reads { ReadsInside (inside_of (state S.Store transaction.old.conn.now) failures.old)
        (inside_of (state S.Store transaction.new.conn.now) failures.new) result
        (λ o pairs. pairs ≡ members_of o.pairs group.now) }
{
    look(alloc, transaction, failures, Way::Down, group)
}

/// A transaction that is asked for direct members.
#[derive(Drop)]
struct Asked<'t, 'c, S: Alter> {
    transaction: &'t mut Transaction<'c, S>,
    failures: u64,
}

impl<S: Alter> Directs for Asked<'_, '_, S> {
    ghost use Rattle.std.specs.Prelude.{[], ◌∷◌};
    ghost use Rattle.sqlite.specs.Held.{state};
    ghost use Rattle.book_tables.specs.Inside.{inside_by};

    ghost inside = { λ a. inside_by (a.transaction.ghost_name ∷ a.transaction.now.conn.ghost_name ∷ [])
        (state S.Store a.transaction.now.conn.now) a.failures };

    fn look(&mut self, alloc: Global, way: Way, at: &Principal) -> Result<Pairs, StoreFault> {
        look(alloc, self.transaction, &mut self.failures, way, at)
    }

    fn all(&mut self, alloc: Global) -> Result<Pairs, StoreFault> {
        pairs(alloc, self.transaction, &mut self.failures)
    }
}

/// How `reach` is renewed where a group gets direct members.
fn renewal_by<S: Alter>(
    alloc: Global,
    asked: &mut Asked<'_, '_, S>,
    group: &Principal,
    members: &[Principal],
) -> Result<Renewal, StoreFault>
    ensures same_reference { asked.new.transaction.ghost_name ≡ asked.old.transaction.ghost_name }
    ensures same_connection { asked.new.transaction.now.conn.ghost_name
        ≡ asked.old.transaction.now.conn.ghost_name }
    ensures reads { ReadsInside
        (inside_of (state S.Store asked.old.transaction.now.conn.now) asked.old.failures)
        (inside_of (state S.Store asked.new.transaction.now.conn.now) asked.new.failures) result
        (λ o r. Renews o.pairs (members_set o.pairs group.now members.now)
        (map pair_said r.gone.items) (map pair_said r.come.items)) }
{
    renewal_at(alloc, asked, group, members)
}

/// The same of a transaction.
pub(crate) fn renewal_in<S: Alter>(
    alloc: Global,
    transaction: &mut Transaction<'_, S>,
    failures: &mut u64,
    group: &Principal,
    members: &[Principal],
) -> Result<Renewal, StoreFault>
    ensures same_reference { transaction.new.conn.ghost_name ≡ transaction.old.conn.ghost_name }
    ensures reads { ReadsInside (inside_of (state S.Store transaction.old.conn.now) failures.old)
        (inside_of (state S.Store transaction.new.conn.now) failures.new) result
        (λ o r. Renews o.pairs (members_set o.pairs group.now members.now)
        (map pair_said r.gone.items) (map pair_said r.come.items)) }
{
    let mut asked = Asked {
        transaction,
        failures: *failures,
    };
    let renewal = renewal_by(alloc, &mut asked, group, members);
    *failures = asked.failures;
    renewal
}
