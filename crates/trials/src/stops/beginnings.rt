//! The stops of the first open of a store, which makes its files: what is left is opened, and takes the tables.

use crate::disks::{
    Disk, Side, close, connect, crash, created, empty_files, fused_files, is_spent, kept_files,
};
use crate::stops::counts::{Count, Left};
use crate::stops::trials::{MOST_CALLS, SEEDS};
use anyhow::{Result, bail, ensure};
use sqlite::{Alter, Connection};
use sqlite_disk::Files;
use std::alloc::Global;

/// Opens new files, and closes them.
fn begun(alloc: Global, files: Files<Disk>) -> Files<Disk> {
    match connect(alloc, files, SEEDS[0]) {
        Ok(store) => close(store).0,
        Err(files) => files,
    }
}

/// Whether the store takes the tables.
fn judged_over<S: Alter + Drop>(store: Connection<S>) -> Left {
    match created(store) {
        Ok(tables) => {
            drop(tables);
            Left::After
        }
        Err(_) => Left::Wrong,
    }
}

/// Whether the files are opened, and take the tables.
fn judged(alloc: Global, files: Files<Disk>) -> Left {
    match connect(alloc, files, SEEDS[2]) {
        Ok(store) => judged_over(store),
        Err(files) => {
            drop(files);
            Left::Wrong
        }
    }
}

/// What a stop left: as the program stopped, and as the machine did.
fn left_by(alloc: Global, mut files: Files<Disk>) -> Result<Count> {
    let kept = kept_files(alloc, &files);
    crash(&mut files);
    let mut count = Count::none();
    count.add(judged(alloc, files));
    count.add(judged(alloc, kept?));
    Ok(count)
}

/// The stops where one of the files fails, counting the calls that it passes upwards until it passes all.
fn stops_at(alloc: Global, side: Side) -> Result<Count> {
    let mut count = Count::none();
    for calls in 0..MOST_CALLS {
        let mut files = begun(alloc, fused_files(alloc, &empty_files(alloc), side, calls)?);
        let is_spent = is_spent(&mut files);
        let left = left_by(alloc, files)?;
        if !is_spent {
            ensure!(left.wrong == 0, "an open with no stop is wrong");
            return Ok(count);
        }
        count = count.plus(left);
        count.add_stop();
    }
    bail!("an open stops at each call")
}

/// The stops of the first open of a store, of the log and then of the database file.
pub(crate) fn stops_of_first_open(alloc: Global) -> Result<Count> {
    let log = stops_at(alloc, Side::Log)?;
    let database = stops_at(alloc, Side::Database)?;
    Ok(log.plus(database))
}
