//! The stops of a migration of a store of version 1 or in the former order, and of the open of a store without `reach` or
//! without its own indexes: what is left tells the wanted Office, at once or once it is migrated.

use crate::disks::{
    Disk, Side, Store, close, connect, crash, files_of, fused_files, is_spent, kept_files,
    new_store, store_of,
};
use crate::offices::office_text;
use crate::stops::counts::{Count, Left};
use crate::stops::trials::{MOST_CALLS, SEEDS, start_files};
use anyhow::{Context, Result, bail, ensure};
use book_tables::{OpenFault, Tables};
use book_tables_migrating::migrate;
use book_tables_opening::open;
use book_tables_schema::{Unopened, is_book_schema};
use sqlite::{Alter, Connection};
use sqlite_disk::Files;
use std::alloc::Global;

/// The tables of version 1, and rows of an Office: a person, a group, a book with a card and a removed name, and
/// entries.
const FIRST_STORE: &str =
    "CREATE TABLE node (id INTEGER PRIMARY KEY, path TEXT NOT NULL UNIQUE, parent INTEGER REFERENCES node ON DELETE CASCADE, kind INTEGER NOT NULL, owner TEXT REFERENCES node (path), label TEXT NOT NULL, text TEXT, number INTEGER NOT NULL) STRICT;
CREATE TABLE ace (node INTEGER NOT NULL REFERENCES node ON DELETE CASCADE, protected INTEGER NOT NULL, place INTEGER NOT NULL, form INTEGER NOT NULL, principal TEXT REFERENCES node (path), invert INTEGER NOT NULL, deny INTEGER NOT NULL, mask INTEGER NOT NULL, PRIMARY KEY (node, protected, place)) STRICT;
CREATE TABLE member (grp TEXT NOT NULL REFERENCES node (path), member TEXT NOT NULL REFERENCES node (path), PRIMARY KEY (grp, member)) STRICT;
CREATE TABLE gone (book INTEGER NOT NULL REFERENCES node ON DELETE CASCADE, name TEXT NOT NULL, number INTEGER NOT NULL, PRIMARY KEY (book, name)) STRICT;
CREATE TABLE meta (version INTEGER NOT NULL, epoch INTEGER NOT NULL) STRICT;
CREATE INDEX node_parent ON node (parent, number);
CREATE INDEX node_owner ON node (owner);
CREATE INDEX ace_principal ON ace (principal);
CREATE INDEX member_member ON member (member);
INSERT INTO meta VALUES (1, 7);
INSERT INTO node VALUES (1, '/', NULL, 0, NULL, '', NULL, 0), (2, '/people', 1, 1, NULL, '', NULL, 0), (3, '/groups', 1, 1, NULL, '', NULL, 0), (4, '/books', 1, 1, NULL, '', NULL, 0);
INSERT INTO node VALUES (5, '/people/ann', 2, 2, NULL, 'Ann', NULL, 0), (6, '/groups/staff', 3, 3, NULL, 'Staff', NULL, 0);
INSERT INTO node VALUES (7, '/books/law', 4, 4, '/people/ann', 'Law', NULL, 3), (8, '/books/law/b.vcf', 7, 5, '/people/ann', '', 'one', 3);
INSERT INTO member VALUES ('/groups/staff', '/people/ann');
INSERT INTO gone VALUES (7, 'a.vcf', 2);
INSERT INTO ace VALUES (1, 1, 0, 4, NULL, 0, 0, 255), (7, 0, 0, 0, '/groups/staff', 0, 0, 9), (8, 0, 0, 1, NULL, 0, 1, 5)";

/// What makes the tables of a store of version 2 those of the former order, with the same rows: `ace2` stands behind the
/// indexes of version 1, and `reach` behind all.
const FORMER_ORDER: &str = "INSERT INTO ace SELECT * FROM ace2;
DROP TABLE reach;
DROP TABLE ace2;
DROP INDEX node_parent;
DROP INDEX node_owner;
DROP INDEX ace_principal;
DROP INDEX member_member;
DROP INDEX gone_book;
CREATE INDEX node_parent ON node (parent, number);
CREATE INDEX node_owner ON node (owner);
CREATE INDEX ace_principal ON ace (principal);
CREATE INDEX member_member ON member (member);
CREATE TABLE ace2 (node INTEGER NOT NULL REFERENCES node ON DELETE CASCADE, protected INTEGER NOT NULL, place INTEGER NOT NULL, form INTEGER NOT NULL, principal TEXT REFERENCES node (path), invert INTEGER NOT NULL, deny INTEGER NOT NULL, mask INTEGER NOT NULL, PRIMARY KEY (node, protected, place)) STRICT;
CREATE INDEX ace2_principal ON ace2 (principal);
CREATE INDEX gone_book ON gone (book, number);
INSERT INTO ace2 SELECT * FROM ace;
DELETE FROM ace";

/// Takes the own indexes of a store away.
const NO_INDEXES: &str =
    "DROP INDEX node_parent; DROP INDEX node_owner; DROP INDEX ace_principal; DROP INDEX member_member; DROP INDEX ace2_principal; DROP INDEX gone_book; DROP INDEX reach_grp";

/// What is done to a store that was made by an earlier program, or changed by another one.
#[derive(Clone, Copy)]
pub(crate) enum Renewal {
    /// A migration of a store of version 1.
    Migration,
    /// A migration of a store in the former order.
    Reordering,
    /// An open of a store without `reach`.
    Opening,
    /// An open of a store without its own indexes.
    Indexing,
}

/// What a renewal left, where a file may have failed.
#[derive(Drop)]
struct Trial {
    files: Files<Disk>,
    /// Whether it was answered `Ok`.
    is_done: bool,
}

/// Makes a store of version 1.
fn filled<S: Alter + Drop>(mut store: Connection<S>) -> Result<Connection<S>> {
    store.execute_batch(FIRST_STORE)?;
    Ok(store)
}

/// Changes a store as another program does.
fn changed<S: Alter + Drop>(mut store: Connection<S>, sql: &str) -> Result<Connection<S>> {
    store.execute_batch(sql)?;
    Ok(store)
}

/// The files of a store that was changed so.
fn changed_files(alloc: Global, sql: &str) -> Result<Files<Disk>> {
    files_of(changed(store_of(alloc, start_files(alloc)?, SEEDS[3])?, sql)?)
}

/// The files of a store that was made by an earlier program.
fn first_files(alloc: Global, renewal: Renewal) -> Result<Files<Disk>> {
    match renewal {
        Renewal::Migration => files_of(filled(new_store(alloc, SEEDS[0])?)?),
        Renewal::Reordering => changed_files(alloc, FORMER_ORDER),
        Renewal::Opening => changed_files(alloc, "DROP TABLE reach"),
        Renewal::Indexing => changed_files(alloc, NO_INDEXES),
    }
}

/// Migrates a store: what is left of it, and whether it is migrated.
fn migrated_over<S: Alter + Drop>(alloc: Global, store: Connection<S>) -> (Unopened<S>, bool) {
    match migrate(alloc, store) {
        Ok((tables, _)) => (Unopened::Connection(tables.release()), true),
        Err((_fault, left)) => (left, false),
    }
}

/// Opens the tables of a store: what is left of it, and whether it has tables.
fn opened_over<S: Alter + Drop>(alloc: Global, store: Connection<S>) -> (Unopened<S>, bool) {
    match open(alloc, store) {
        Ok(tables) => (Unopened::Connection(tables.release()), true),
        Err((_fault, left)) => (left, false),
    }
}

/// The files of a store that is left, closed.
fn left_files(left: Unopened<Store>) -> Files<Disk> {
    match left {
        Unopened::Connection(store) => close(store).0,
        Unopened::Store(store) => store.close(),
    }
}

/// Renews a store that was opened, and closes it.
fn renewed(alloc: Global, store: Connection<Store>, renewal: Renewal) -> Trial {
    let (left, is_done) = match renewal {
        Renewal::Migration | Renewal::Reordering => migrated_over(alloc, store),
        Renewal::Opening | Renewal::Indexing => opened_over(alloc, store),
    };
    Trial {
        files: left_files(left),
        is_done,
    }
}

/// Opens the files, renews them, and closes them.
fn tried(alloc: Global, files: Files<Disk>, renewal: Renewal) -> Trial {
    match connect(alloc, files, SEEDS[1]) {
        Ok(store) => renewed(alloc, store, renewal),
        Err(files) => Trial {
            files,
            is_done: false,
        },
    }
}

/// The Office that tables tell.
fn text_of<S: Alter + Drop>(alloc: Global, mut tables: Tables<S>) -> Option<String> {
    let text = office_text(alloc, &mut tables).ok();
    drop(tables);
    text
}

/// The Office of a store once it is migrated.
fn text_migrated<S: Alter + Drop>(alloc: Global, store: Connection<S>) -> Option<String> {
    match migrate(alloc, store) {
        Ok((tables, _)) => text_of(alloc, tables),
        Err((_fault, store)) => {
            drop(store);
            None
        }
    }
}

/// The Office of a store that was not opened, once it is migrated; none where it was not to be one.
fn told_before<S: Alter + Drop>(
    alloc: Global,
    is_before: bool,
    left: Unopened<S>,
) -> Option<(Left, String)> {
    match left {
        Unopened::Connection(store) => {
            if is_before {
                Some((Left::Before, text_migrated(alloc, store)?))
            } else {
                drop(store);
                None
            }
        }
        Unopened::Store(store) => {
            drop(store);
            None
        }
    }
}

/// What a store is, of the earlier program or migrated: `After` where it opens, `Before` where it does not, by this fault,
/// and opens once it is migrated, with its Office then.
fn told_migrated<S: Alter + Drop>(
    alloc: Global,
    store: Connection<S>,
    before: OpenFault,
) -> Option<(Left, String)> {
    match open(alloc, store) {
        Ok(tables) => Some((Left::After, text_of(alloc, tables)?)),
        Err((fault, left)) => told_before(alloc, fault == before, left),
    }
}

/// What a store is that has all its tables and indexes, or lacks some: `After` where it has them, `Before` where it gets
/// them, with its Office then.
fn told_opened<S: Alter + Drop>(alloc: Global, store: Connection<S>) -> Option<(Left, String)> {
    let has_all = is_book_schema(store.schema());
    let left = if has_all { Left::After } else { Left::Before };
    match open(alloc, store) {
        Ok(tables) => Some((left, text_of(alloc, tables)?)),
        Err((_fault, store)) => {
            drop(store);
            None
        }
    }
}

/// What the files are.
fn told(alloc: Global, files: Files<Disk>, renewal: Renewal) -> Option<(Left, String)> {
    let store = store_of(alloc, files, SEEDS[2]).ok()?;
    match renewal {
        Renewal::Migration => told_migrated(alloc, store, OpenFault::OtherVersion),
        Renewal::Reordering => told_migrated(alloc, store, OpenFault::NoStore),
        Renewal::Opening | Renewal::Indexing => told_opened(alloc, store),
    }
}

/// What a stop left: the Office that is wanted, and renewed where that was answered `Ok`.
fn judged(wanted: &str, is_done: bool, told: Option<(Left, String)>) -> Left {
    match told {
        Some((Left::After, text)) if text.as_str() == wanted => Left::After,
        Some((Left::Before, text)) if text.as_str() == wanted && !is_done => Left::Before,
        _ => Left::Wrong,
    }
}

/// What a trial left: as the program stopped, and as the machine did.
fn left_by(alloc: Global, wanted: &str, trial: Trial, renewal: Renewal) -> Result<Count> {
    let Trial { mut files, is_done } = trial;
    let kept = kept_files(alloc, &files);
    crash(&mut files);
    let lost = judged(wanted, is_done, told(alloc, files, renewal));
    let mut count = Count::none();
    count.add(judged(wanted, is_done, told(alloc, kept?, renewal)));
    count.add(lost);
    Ok(count)
}

/// The stops where one of the files fails, counting the calls that it passes upwards until it passes all.
fn stops_at(
    alloc: Global,
    start: &Files<Disk>,
    wanted: &str,
    side: Side,
    renewal: Renewal,
) -> Result<Count> {
    let mut count = Count::none();
    for calls in 0..MOST_CALLS {
        let files = fused_files(alloc, start, side, calls)?;
        let mut trial = tried(alloc, files, renewal);
        let (is_spent, is_done) = (is_spent(&mut trial.files), trial.is_done);
        let left = left_by(alloc, wanted, trial, renewal)?;
        if !is_spent {
            ensure!(
                is_done && left.wrong == 0,
                "a renewal with no stop is wrong"
            );
            return Ok(count);
        }
        count = count.plus(left);
        count.add_stop();
    }
    bail!("a renewal stops at each call")
}

/// The stops of a renewal, of the log and then of the database file.
fn stops_from(alloc: Global, start: &Files<Disk>, renewal: Renewal) -> Result<Count> {
    let copy = kept_files(alloc, start)?;
    let (_, wanted) = told(alloc, copy, renewal).context("a store is not renewed")?;
    let log = stops_at(alloc, start, wanted.as_str(), Side::Log, renewal)?;
    let database = stops_at(alloc, start, wanted.as_str(), Side::Database, renewal)?;
    Ok(log.plus(database))
}

/// The stops of a renewal.
pub(crate) fn stops_of_renewal(alloc: Global, renewal: Renewal) -> Result<Count> {
    let start = first_files(alloc, renewal)?;
    let count = stops_from(alloc, &start, renewal);
    drop(start);
    count
}
