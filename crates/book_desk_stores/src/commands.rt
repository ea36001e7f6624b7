//! The commands over the store of a file that are not in `keeping`: its file is opened, the work done over its tables, and the
//! file closed. What is done is a task, in `tasks`.

use crate::tasks::{Answering, CheckingOver, Differing, Dumping, Migrating, Working};
use book_desk_app::{Failure, InputFault, Lines, StoreFailure, tell, tell_line};
use book_desk_checks::check;
use book_desk_files::{
    Named, Opened, Stage, StoreFile, open_former, open_inputs, open_policy, open_store_named,
    open_viewed, run_and_close_any, tell_stage,
};
use book_desk_questions::Words;
use book_desk_serving::Work;
use book_tables_schema::Unopened;
use sqlite::{Alter, Connection};
use std::io::Write;

/// The commands `import`, `audit` and `pipe`: the policy's file is read, the store's file is opened, and the work done.
pub fn work<W: Write, E: Lines>(
    rt: &HostRuntime,
    kind: Work,
    named: Named<'_>,
    writer: &mut W,
    errors: &mut E,
) -> u8 {
    let Opened { store, policy } = match open_inputs(
        rt,
        named.store,
        named.policy,
        named.existing,
    ) {
        Ok(opened) => opened,
        Err(failure) => return tell(errors, &failure),
    };
    if policy.is_some() {
        tell_stage(rt, Stage::Adopting);
    }
    let mut reader = rt.reader();
    let task = Working {
        alloc: rt.alloc(),
        kind,
        policy,
        reader: &mut reader,
        writer,
        errors,
    };
    run_and_close_any(store, task)
}

/// Reads the policy's file, and opens the store's file, which has to be there, where one is named.
fn open_checked(
    rt: &HostRuntime,
    named: Named<'_>,
) -> Result<(Vec<u8>, Option<StoreFile>), Failure> {
    let Some(policy) = named.policy else {
        return Err(Failure::Input(InputFault::Read));
    };
    let bytes = open_policy(rt, policy)?;
    match open_store_named(rt, named.store, true) {
        Ok(store) => Ok((bytes, store)),
        Err(failure) => {
            drop(bytes);
            Err(failure)
        }
    }
}

/// The command `check`: the policy's file is read, and each fault of it is told, or what it leaves open; over a store,
/// which has to be there, where one is named.
pub fn check_files<W: Write, E: Lines>(
    rt: &HostRuntime,
    named: Named<'_>,
    strict: bool,
    writer: &mut W,
    errors: &mut E,
) -> u8 {
    let (bytes, store) = match open_checked(rt, named) {
        Ok(opened) => opened,
        Err(failure) => return tell_line(errors, &failure),
    };
    match store {
        Some(store) => store.run_and_close(CheckingOver {
            alloc: rt.alloc(),
            bytes,
            strict,
            writer,
            errors,
        }),
        None => check(rt.alloc(), bytes, strict, writer, errors),
    }
}

/// The connection that is left of a store. A store that could not be opened again is let go as it is.
pub fn connection_of<S: Alter + Drop>(left: Unopened<S>) -> Option<Connection<S>> {
    match left {
        Unopened::Connection(connection) => Some(connection),
        Unopened::Store(store) => {
            drop(store);
            None
        }
    }
}

/// The command `migrate`: the store's file, which has to be there, is opened and migrated.
pub fn migrate<W: Write, E: Lines>(
    rt: &HostRuntime,
    store: &str,
    writer: &mut W,
    errors: &mut E,
) -> u8 {
    let opened = match open_former(rt, store) {
        Ok(opened) => opened,
        Err(failure) => return tell(errors, &failure),
    };
    tell_stage(rt, Stage::Migrating);
    opened.run_and_close(Migrating {
        alloc: rt.alloc(),
        writer,
        errors,
    })
}

/// The commands that ask, of a store: its file, which has to be there, is opened, and the question answered.
pub fn ask_store<W: Write, E: Lines>(
    rt: &HostRuntime,
    store: &str,
    words: &Words<'_>,
    writer: &mut W,
    errors: &mut E,
) -> u8 {
    match open_viewed(rt, store) {
        Ok(store) => store.run_and_close(Answering {
            alloc: rt.alloc(),
            words,
            writer,
            errors,
        }),
        Err(failure) => tell(errors, &failure),
    }
}

/// The command `dump` of a store: its file, which has to be there, is opened, and its Office written.
pub fn dump_store<W: Write, E: Lines>(
    rt: &HostRuntime,
    store: &str,
    writer: &mut W,
    errors: &mut E,
) -> u8 {
    match open_viewed(rt, store) {
        Ok(store) => store.run_and_close(Dumping {
            alloc: rt.alloc(),
            writer,
            errors,
        }),
        Err(failure) => tell(errors, &failure),
    }
}

/// The command `differs` of a store: the policy's file is read, the store's file, which has to be there, is opened, and what
/// would change is told.
pub fn tell_differences<W: Write, E: Lines>(
    rt: &HostRuntime,
    named: Named<'_>,
    strict: bool,
    writer: &mut W,
    errors: &mut E,
) -> u8 {
    let (bytes, store) = match open_checked(rt, named) {
        Ok(opened) => opened,
        Err(failure) => return tell_line(errors, &failure),
    };
    match store {
        Some(store) => store.run_and_close(Differing {
            alloc: rt.alloc(),
            bytes,
            strict,
            writer,
            errors,
        }),
        None => {
            drop(bytes);
            tell_line(errors, &Failure::Store(StoreFailure::NoStore))
        }
    }
}
