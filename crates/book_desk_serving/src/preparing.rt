//! What `serve` does before it listens: the policy's text is read, the tables of the store are had, and the policy is
//! adopted.

ghost use Rattle.std.specs.Prelude.{◌≡◌, IfErr, IfOk, option_map};
ghost use Rattle.sqlite.specs.Held.{state};
ghost use Rattle.book_tables.specs.declared.tables.Tables.{Tables};
ghost use Rattle.book_desk_serving.specs.Preparing.{FailsInMemory, FailsOver, FailsOverStore, FailsToPrepare, IsReadyInMemory, IsReadyOver, IsPrepared, Prepares, store_of};

use crate::works::given_policy;
use book_desk_app::{Failure, adopt_given, open_store};
use book_machine::Machine;
use book_office::{MemoryKeeper, Policy};
use book_office_cache::Cached;
use book_tables::Tables;
use book_tables_opening::Found;
use book_tables_schema::Unopened;
use sqlite::{Alter, Connection};
use std::alloc::Global;

/// A machine that is ready to serve.
#[derive(Drop)]
pub enum Prepared<S: Alter> {
    /// Over an Office in memory.
    Memory(Machine<MemoryKeeper>),
    /// Over the Office of a store. What most requests ask of its tables is remembered.
    Store(Machine<Cached<Tables<S>>>),
}

impl<S: Alter + Drop> Prepared<S> {
    /// Gives the store back, if there is one. Takes no memory.
    pub fn release(self) -> Option<Connection<S>>
        ensures { result ≡ store_of (λ t. t.connection) self }
    {
        match self {
            Prepared::Memory(machine) => {
                drop(machine);
                None
            }
            Prepared::Store(machine) => Some(machine.release().into_inner().release()),
        }
    }
}

/// Adopts the policy, if one is given, over an empty Office in memory.
fn prepare_in_memory(
    alloc: Global,
    policy: &Option<Policy>,
) -> Result<Machine<MemoryKeeper>, Failure>
    ensures ready { IfOk result (λ machine. IsReadyInMemory policy.now machine.keeper) }
    ensures refused { IfErr result (FailsInMemory policy.now) }
{
    let mut machine = Machine::new(MemoryKeeper::new(alloc));
    match adopt_given(alloc, &mut machine, policy) {
        Ok(()) => Ok(machine),
        Err(failure) => {
            drop(machine);
            Err(failure)
        }
    }
}

/// Adopts the policy, if one is given, over the tables of a store. Of these nothing is remembered yet.
fn prepare_over<S: Alter + Drop>(
    alloc: Global,
    store: Found<S>,
    policy: &Option<Policy>,
) -> Result<Machine<Cached<Tables<S>>>, (Failure, Unopened<S>)>
    ensures ready { IfOk result (λ machine. IsReadyOver (state S.Store) (λ t. t.connection)
        (λ t. t.failures) store policy.now machine.keeper) }
    ensures refused { IfErr result (λ e. FailsOverStore {K = Tables S} S.Store (λ t. t.connection)
        (λ t. t.failures) store policy.now e.0 e.1) }
{
    let tables = match open_store(alloc, store) {
        Ok(tables) => tables,
        Err((failure, left)) => return Err((Failure::Store(failure), left)),
    };
    let mut machine = Machine::new(tables);
    match adopt_given(alloc, &mut machine, policy) {
        Ok(()) => Ok(Machine::new(Cached::new(alloc, machine.release()))),
        Err(failure) => Err((failure, Unopened::Connection(machine.release().release()))),
    }
}

/// The same over a store, or where there is none over an empty Office in memory.
fn prepare_given<S: Alter + Drop>(
    alloc: Global,
    store: Option<Found<S>>,
    policy: &Option<Policy>,
) -> Result<Prepared<S>, (Failure, Option<Unopened<S>>)>
    ensures ready { IfOk result (IsPrepared (state S.Store) (λ t. t.connection)
        (λ t. t.failures) store policy.now) }
    ensures refused { IfErr result (λ e. FailsOver {K = Tables S} S.Store (λ t. t.connection)
        (λ t. t.failures) store policy.now e.0 e.1) }
{
    match store {
        Some(store) => match prepare_over(alloc, store, policy) {
            Ok(machine) => Ok(Prepared::Store(machine)),
            Err((failure, left)) => Err((failure, Some(left))),
        },
        None => match prepare_in_memory(alloc, policy) {
            Ok(machine) => Ok(Prepared::Memory(machine)),
            Err(failure) => Err((failure, None)),
        },
    }
}

/// A connection over which nothing was done, if there is one, as what is left of it.
fn as_left<S: Alter>(store: Option<Found<S>>) -> Option<Unopened<S>>
    ensures { result ≡ option_map Unopened.Connection store }
{
    match store {
        Some(store) => Some(Unopened::Connection(store.into_connection())),
        None => None,
    }
}

/// Reads the policy's text, if there is one, then has the tables of the store, or where there is none an empty Office in
/// memory, and adopts the policy over them.
///
/// # Errors
///
/// In this order: `Input` and `Policy`, where the bytes spell no policy: nothing was done over the store, which comes back;
/// `Store`, where its tables were not had, as `open_store`; `Adoption`, where the policy was not adopted: the Office is as
/// it was, and the connection comes back.
pub fn prepare<S: Alter + Drop>(
    alloc: Global,
    store: Option<Found<S>>,
    policy: Option<Vec<u8>>,
) -> Result<Prepared<S>, (Failure, Option<Unopened<S>>)>
    ensures ready { IfOk result (Prepares (state S.Store) (λ t. t.connection) (λ t. t.failures)
        (λ given. given.items) store policy) }
    ensures refused { IfErr result (λ e. FailsToPrepare {K = Tables S} S.Store (λ t. t.connection)
        (λ t. t.failures) (λ given. given.items) store policy e.0 e.1) }
{
    match given_policy(alloc, policy) {
        Ok(policy) => {
            let prepared = prepare_given(alloc, store, &policy);
            drop(policy);
            prepared
        }
        Err(failure) => Err((failure, as_left(store))),
    }
}
