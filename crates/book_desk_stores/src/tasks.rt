//! What the commands do over a store whose file is open, over any kind of stores: each is what its command does over a
//! connection, with the words, the writer and the lines of errors.

use crate::commands::connection_of;
use crate::refusals::tell_refusal;
use book_desk_app::{Lines, run_migration};
use book_desk_checks::check_over;
use book_desk_doctor::run_doctor;
use book_desk_files::{OverAnyStore, OverStore, OverThreeStores, OverTwoStores};
use book_desk_keeping::{Change, run_compare, run_copy, run_load, run_restore};
use book_desk_questions::{Words, run_differs, run_dump, run_question};
use book_desk_serving::{Work, run};
use book_tables_opening::Found;
use sqlite::{Alter, Connection};
use std::alloc::Global;
use std::io::{Read, Write};

/// `import`, `audit` and `pipe`.
pub struct Working<'a, R, W, E> {
    pub alloc: Global,
    pub kind: Work,
    pub policy: Option<Vec<u8>>,
    pub reader: &'a mut R,
    pub writer: &'a mut W,
    pub errors: &'a mut E,
}

impl<R: Read, W: Write, E: Lines> OverAnyStore for Working<'_, R, W, E> {
    fn run<S: Alter + Drop>(self, store: Option<Found<S>>) -> (u8, Option<Connection<S>>) {
        let Working {
            alloc,
            kind,
            policy,
            reader,
            writer,
            errors,
        } = self;
        run(alloc, kind, store, policy, reader, writer, errors)
    }
}

/// `check` over a store.
pub struct CheckingOver<'a, W, E> {
    pub alloc: Global,
    pub bytes: Vec<u8>,
    pub strict: bool,
    pub writer: &'a mut W,
    pub errors: &'a mut E,
}

impl<W: Write, E: Lines> OverStore for CheckingOver<'_, W, E> {
    fn run<S: Alter + Drop>(self, store: Found<S>) -> (u8, Option<Connection<S>>) {
        let CheckingOver {
            alloc,
            bytes,
            strict,
            writer,
            errors,
        } = self;
        check_over(alloc, bytes, strict, store, writer, errors)
    }
}

/// `migrate`.
pub struct Migrating<'a, W, E> {
    pub alloc: Global,
    pub writer: &'a mut W,
    pub errors: &'a mut E,
}

impl<W: Write, E: Lines> OverStore for Migrating<'_, W, E> {
    fn run<S: Alter + Drop>(self, store: Found<S>) -> (u8, Option<Connection<S>>) {
        let Migrating {
            alloc,
            writer,
            errors,
        } = self;
        let (status, left) = run_migration(alloc, store.into_connection(), writer, errors);
        (status, connection_of(left))
    }
}

/// The commands that ask.
pub struct Answering<'a, 'w, W, E> {
    pub alloc: Global,
    pub words: &'a Words<'w>,
    pub writer: &'a mut W,
    pub errors: &'a mut E,
}

impl<W: Write, E: Lines> OverStore for Answering<'_, '_, W, E> {
    fn run<S: Alter + Drop>(self, store: Found<S>) -> (u8, Option<Connection<S>>) {
        let Answering {
            alloc,
            words,
            writer,
            errors,
        } = self;
        run_question(alloc, words, store, writer, errors)
    }
}

/// `dump`.
pub struct Dumping<'a, W, E> {
    pub alloc: Global,
    pub writer: &'a mut W,
    pub errors: &'a mut E,
}

impl<W: Write, E: Lines> OverStore for Dumping<'_, W, E> {
    fn run<S: Alter + Drop>(self, store: Found<S>) -> (u8, Option<Connection<S>>) {
        let Dumping {
            alloc,
            writer,
            errors,
        } = self;
        run_dump(alloc, store, writer, errors)
    }
}

/// `differs`.
pub struct Differing<'a, W, E> {
    pub alloc: Global,
    pub bytes: Vec<u8>,
    pub strict: bool,
    pub writer: &'a mut W,
    pub errors: &'a mut E,
}

impl<W: Write, E: Lines> OverStore for Differing<'_, W, E> {
    fn run<S: Alter + Drop>(self, store: Found<S>) -> (u8, Option<Connection<S>>) {
        let Differing {
            alloc,
            bytes,
            strict,
            writer,
            errors,
        } = self;
        run_differs(alloc, bytes, strict, store, writer, errors)
    }
}

/// `load`, into a store that is made.
pub struct Loading<'a, W, E> {
    pub alloc: Global,
    pub bytes: Vec<u8>,
    pub changes: &'a [Change],
    pub writer: &'a mut W,
    pub errors: &'a mut E,
}

impl<W: Write, E: Lines> OverStore for Loading<'_, W, E> {
    fn run<S: Alter + Drop>(self, store: Found<S>) -> (u8, Option<Connection<S>>) {
        let Loading {
            alloc,
            bytes,
            changes,
            writer,
            errors,
        } = self;
        run_load(
            alloc,
            bytes,
            changes,
            store.into_connection(),
            writer,
            errors,
        )
    }
}

/// `compact` and `backup`: a store is copied into one that is made.
pub struct Copying<'a, E> {
    pub alloc: Global,
    pub forget_removed: bool,
    pub errors: &'a mut E,
}

impl<E: Lines> OverTwoStores for Copying<'_, E> {
    fn run<S: Alter + Drop>(
        self,
        store: Found<S>,
        other: Found<S>,
    ) -> (u8, Option<Connection<S>>, Option<Connection<S>>) {
        let Copying {
            alloc,
            forget_removed,
            errors,
        } = self;
        run_copy(
            alloc,
            store,
            other.into_connection(),
            forget_removed,
            errors,
        )
    }
}

/// `backup` that compares. Nothing is left of the two.
pub struct Comparing<'a, E> {
    pub alloc: Global,
    pub errors: &'a mut E,
}

impl<E: Lines> OverTwoStores for Comparing<'_, E> {
    fn run<S: Alter + Drop>(
        self,
        store: Found<S>,
        other: Found<S>,
    ) -> (u8, Option<Connection<S>>, Option<Connection<S>>) {
        let Comparing { alloc, errors } = self;
        let (status, store, other) = run_compare(alloc, store, other, errors);
        drop(store);
        drop(other);
        (status, None, None)
    }
}

/// `restore`: a store is made of another one, with resources of a backup.
pub struct Restoring<'a, W, E> {
    pub alloc: Global,
    pub paths: &'a [String],
    pub writer: &'a mut W,
    pub errors: &'a mut E,
}

impl<W: Write, E: Lines> OverThreeStores for Restoring<'_, W, E> {
    fn run<S: Alter + Drop>(
        self,
        store: Found<S>,
        backup: Found<S>,
        fresh: Found<S>,
    ) -> (u8, Option<Connection<S>>, Option<Connection<S>>) {
        let Restoring {
            alloc,
            paths,
            writer,
            errors,
        } = self;
        let mut made = None;
        let (status, store) = run_restore(
            alloc,
            store,
            backup,
            paths,
            fresh.into_connection(),
            &mut made,
            writer,
            errors,
        );
        (status, store, made)
    }
}

/// `doctor`.
pub struct Examining<'a, W, E> {
    pub alloc: Global,
    pub writer: &'a mut W,
    pub errors: &'a mut E,
}

impl<W: Write, E: Lines> OverStore for Examining<'_, W, E> {
    fn run<S: Alter + Drop>(self, store: Found<S>) -> (u8, Option<Connection<S>>) {
        let Examining {
            alloc,
            writer,
            errors,
        } = self;
        run_doctor(alloc, store.into_connection(), writer, errors)
    }
}

/// Why the tables of a store were refused is told. Nothing is left of it.
pub struct TellingRefusal<'a> {
    pub rt: &'a HostRuntime,
    pub migrates: bool,
}

impl OverStore for TellingRefusal<'_> {
    fn run<S: Alter + Drop>(self, store: Found<S>) -> (u8, Option<Connection<S>>) {
        let TellingRefusal { rt, migrates } = self;
        tell_refusal(rt, store.into_connection(), migrates);
        (0, None)
    }
}
