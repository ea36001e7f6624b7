//! The stops of an edit or a round, each tried once.

use crate::disks::{
    Disk, Side, Store, close, connect, crash, created, files_of, fused_files, is_spent, kept_files,
    new_store, opened, store_of,
};
use crate::offices::office_text;
use crate::stops::cases::Plans;
use crate::stops::counts::{Count, Left};
use crate::stops::deeds::Deed;
use crate::stops::texts::{Texts, make_start, wanted_texts};
use anyhow::{Result, bail, ensure};
use book_tables::Tables;
use sqlite::{Alter, Connection};
use sqlite_disk::Files;
use std::alloc::Global;

/// The seeds of the opens of a store, in turn: as it is made, as it is edited, after a stop and after a restart.
pub(crate) const SEEDS: [u64; 4] = [1, 2, 3, 4];

/// More calls than a trial makes of a file.
pub(crate) const MOST_CALLS: u64 = 1_000;

/// What an edit left, where a file may have failed.
#[derive(Drop)]
struct Trial {
    files: Files<Disk>,
    /// Whether the edit was answered `Ok`.
    is_done: bool,
}

/// Makes the Office at the start over a new store.
fn filled<S: Alter + Drop>(alloc: Global, store: Connection<S>) -> Result<Connection<S>> {
    let mut tables = created(store)?;
    make_start(alloc, &mut tables)?;
    Ok(tables.release())
}

/// The files of a store with the Office at the start.
pub(crate) fn start_files(alloc: Global) -> Result<Files<Disk>> {
    files_of(filled(alloc, new_store(alloc, SEEDS[0])?)?)
}

/// Makes the edit over a store: the store, and whether the edit is made.
fn made_over<S: Alter + Drop>(
    alloc: Global,
    connection: Connection<S>,
    deed: &Deed,
) -> (Connection<S>, bool) {
    let mut tables = Tables::over(connection);
    let is_done = deed.is_done(alloc, &mut tables);
    (tables.release(), is_done)
}

/// Makes the edit over a store that was opened, and closes it.
fn edited(alloc: Global, connection: Connection<Store>, deed: &Deed) -> Trial {
    let (connection, is_done) = made_over(alloc, connection, deed);
    let (files, _) = close(connection);
    Trial { files, is_done }
}

/// Opens the files, makes the edit, and closes them.
fn tried(alloc: Global, files: Files<Disk>, deed: &Deed) -> Trial {
    match connect(alloc, files, SEEDS[1]) {
        Ok(connection) => edited(alloc, connection, deed),
        Err(files) => Trial {
            files,
            is_done: false,
        },
    }
}

/// An Office as a text, and the files of its store.
type Told = Option<(String, Files<Disk>)>;

/// The Office of the store, and the store.
fn told_over<S: Alter + Drop>(
    alloc: Global,
    store: Connection<S>,
) -> Option<(String, Connection<S>)> {
    let mut tables = opened(alloc, store).ok()?;
    let text = office_text(alloc, &mut tables).ok()?;
    Some((text, tables.release()))
}

/// The Office of the store that the files have, and its files; none where they have none, or it does not close.
fn told(alloc: Global, files: Files<Disk>, seed: u64) -> Told {
    let (text, store) = told_over(alloc, store_of(alloc, files, seed).ok()?)?;
    let files = files_of(store).ok()?;
    Some((text, files))
}

/// The Office that the files tell after a stop, and again after a restart; none where they tell none, or another again.
fn told_twice(alloc: Global, files: Files<Disk>) -> Option<String> {
    let (text, files) = told(alloc, files, SEEDS[2])?;
    let (again, files) = told(alloc, files, SEEDS[3])?;
    drop(files);
    if again == text { Some(text) } else { None }
}

/// What a stop left by the Office that is told: the one after the edit where it was answered `Ok`, and else that or the
/// one before.
fn judged(texts: &Texts, is_done: bool, told: Option<String>) -> Left {
    let Some(told) = told else {
        return Left::Wrong;
    };
    if !is_done && told == texts.before {
        return Left::Before;
    }
    if told == texts.after {
        return Left::After;
    }
    Left::Wrong
}

/// What a trial left: as the program stopped, and as the machine did.
fn left_by(alloc: Global, texts: &Texts, trial: Trial) -> Result<Count> {
    let Trial { mut files, is_done } = trial;
    let kept = kept_files(alloc, &files);
    crash(&mut files);
    let lost = judged(texts, is_done, told_twice(alloc, files));
    let mut count = Count::none();
    count.add(judged(texts, is_done, told_twice(alloc, kept?)));
    count.add(lost);
    Ok(count)
}

/// The stops of an edit where one of the files fails, counting the calls that it passes upwards until it passes all.
fn stops_at(
    alloc: Global,
    start: &Files<Disk>,
    deed: &Deed,
    texts: &Texts,
    side: Side,
) -> Result<Count> {
    let mut count = Count::none();
    for calls in 0..MOST_CALLS {
        let mut trial = tried(alloc, fused_files(alloc, start, side, calls)?, deed);
        let (is_spent, is_done) = (is_spent(&mut trial.files), trial.is_done);
        let left = left_by(alloc, texts, trial)?;
        if !is_spent {
            ensure!(is_done && left.wrong == 0, "an edit with no stop is wrong");
            return Ok(count);
        }
        count = count.plus(left);
        count.add_stop();
    }
    bail!("an edit stops at each call")
}

/// The stops of an edit, of the log and then of the database file.
fn stops_of_edit(alloc: Global, start: &Files<Disk>, deed: &Deed, texts: &Texts) -> Result<Count> {
    let log = stops_at(alloc, start, deed, texts, Side::Log)?;
    let database = stops_at(alloc, start, deed, texts, Side::Database)?;
    Ok(log.plus(database))
}

/// The stops of an edit, with the Offices that are wanted.
fn stops_judged(alloc: Global, start: &Files<Disk>, deed: &Deed) -> Result<Count> {
    let texts = wanted_texts(alloc, deed)?;
    stops_of_edit(alloc, start, deed, &texts)
}

/// The stops of an edit of the Office at the start.
pub(crate) fn stops_of(alloc: Global, start: &Files<Disk>, plans: Plans) -> Result<Count> {
    let deed = plans.deed(alloc)?;
    let count = stops_judged(alloc, start, &deed);
    drop(deed);
    count
}
