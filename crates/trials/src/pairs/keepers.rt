//! The keepers: in memory, in tables on two disks, and in such tables behind a cache, as the program serves. The disks
//! are in memory; a second kind of store would double what the trials take to be proved and built.

use crate::disks::{Store, created, files_of, new_store, opened, store_of};
use crate::pairs::questions::questions;
use crate::pairs::steps::{Step, replies_to, run};
use anyhow::{Result, bail};
use book_machine::Machine;
use book_office::{Keeper, MemoryKeeper};
use book_office_audit::audit_text;
use book_office_cache::Cached;
use sqlite::{Alter, Connection};
use std::alloc::Global;

/// The seeds of the opens of a store on disks, in turn.
const SEEDS: [u64; 2] = [1, 2];

/// What a keeper told.
#[derive(Drop)]
pub(crate) struct Told {
    /// What the steps told.
    pub(crate) steps: String,
    /// The audit of the Office that they left, and the replies to questions about it.
    pub(crate) left: String,
}

/// What is told of the Office of a keeper.
fn left_in<K: Keeper + Drop>(alloc: Global, mut keeper: K) -> Result<String> {
    let Ok(mut text) = audit_text(alloc, &mut keeper) else {
        bail!("an Office is not read");
    };
    let mut machine = Machine::new(keeper);
    let stream = questions(alloc)?;
    let replies = replies_to(alloc, &mut machine, stream.as_str())?;
    text.push_str(replies.as_str())?;
    Ok(text)
}

/// What the steps tell over a keeper of an empty Office, and the keeper.
fn run_over<K: Keeper + Drop>(alloc: Global, keeper: K, steps: &[Step]) -> Result<(String, K)> {
    let mut machine = Machine::new(keeper);
    let told = run(alloc, &mut machine, steps)?;
    Ok((told, machine.release()))
}

/// What a keeper of an empty Office tells.
fn told_by<K: Keeper + Drop>(alloc: Global, keeper: K, steps: &[Step]) -> Result<Told> {
    let (steps, keeper) = run_over(alloc, keeper, steps)?;
    let left = left_in(alloc, keeper)?;
    Ok(Told { steps, left })
}

pub(crate) fn told_by_memory(alloc: Global, steps: &[Step]) -> Result<Told> {
    told_by(alloc, MemoryKeeper::new(alloc), steps)
}

/// What the tables of a new store tell.
fn told_over<S: Alter + Drop>(alloc: Global, store: Connection<S>, steps: &[Step]) -> Result<Told> {
    told_by(alloc, created(store)?, steps)
}

pub(crate) fn told_by_tables(alloc: Global, steps: &[Step]) -> Result<Told> {
    told_over(alloc, new_store(alloc, SEEDS[0])?, steps)
}

/// What the steps tell over the tables of a new store behind a cache, and the store.
fn run_behind_cache<S: Alter + Drop>(
    alloc: Global,
    store: Connection<S>,
    steps: &[Step],
) -> Result<(String, Connection<S>)> {
    let cached = Cached::new(alloc, created(store)?);
    let (told, cached) = run_over(alloc, cached, steps)?;
    Ok((told, cached.into_inner().release()))
}

/// What is told of the Office of a store behind a cache.
fn left_behind_cache<S: Alter + Drop>(alloc: Global, store: Connection<S>) -> Result<String> {
    left_in(alloc, Cached::new(alloc, opened(alloc, store)?))
}

/// The store after its disks were closed, and opened again.
fn reopened(alloc: Global, store: Connection<Store>) -> Result<Connection<Store>> {
    store_of(alloc, files_of(store)?, SEEDS[1])
}

/// What tables on two disks behind a cache tell; of the Office that they left, after the disks were closed and opened
/// again.
pub(crate) fn told_by_disks(alloc: Global, steps: &[Step]) -> Result<Told> {
    let (steps, store) = run_behind_cache(alloc, new_store(alloc, SEEDS[0])?, steps)?;
    let left = left_behind_cache(alloc, reopened(alloc, store)?)?;
    Ok(Told { steps, left })
}
