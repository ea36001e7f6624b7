//! The commands that make stores of texts and of stores, and the one that compares two: `load`, `compact`, `restore` and
//! `backup`. What they make gets its name when it is whole (`Draft`). The program's control makes a backup by `begin_backup`
//! and `end_draft` too.

use crate::tasks::{Comparing, Copying, Loading, Restoring};
use book_desk_app::{Failure, Lines, StoreFailure, tell_line};
use book_desk_files::{
    Draft, LeftFile, StoreFile, close, empty_log, is_free, is_unused, length_of, open_backup_copy,
    open_copied, open_locked_copy, open_viewed, read_dump_bytes, real_path, remove, run_three,
    run_two,
};
use book_desk_keeping::{Change, KeepingFault, tell_fault};
use std::io::Write;

/// Gives a store that was made its name where the status is 0, or takes it away; with the status.
pub fn end_draft<E: Lines>(
    rt: &HostRuntime,
    draft: &Draft,
    status: u8,
    left: Option<LeftFile>,
    errors: &mut E,
) -> u8 {
    let made = match left {
        Some(file) if status == 0 => draft.keep(rt, file),
        left => {
            close(left);
            draft.discard(rt);
            return status;
        }
    };
    match made {
        Ok(()) => status,
        Err(failure) => tell_line(errors, &failure),
    }
}

/// The command `load`: the dump is read, the store made under another name, and given its own.
pub fn load<W: Write, E: Lines>(
    rt: &HostRuntime,
    store: &str,
    dump: Option<&str>,
    changes: &[Change],
    writer: &mut W,
    errors: &mut E,
) -> u8 {
    match is_free(rt, store) {
        Ok(true) => {}
        Ok(false) => return tell_fault(errors, &KeepingFault::LoadExists),
        Err(failure) => return tell_line(errors, &failure),
    }
    let bytes = match read_dump_bytes(rt, dump) {
        Ok(bytes) => bytes,
        Err(failure) => return tell_line(errors, &failure),
    };
    let (draft, fresh) = match Draft::begin(rt, store) {
        Ok(begun) => begun,
        Err(failure) => return tell_line(errors, &failure),
    };
    let (status, left) = fresh.run(Loading {
        alloc: rt.alloc(),
        bytes,
        changes,
        writer,
        errors: &mut *errors,
    });
    end_draft(rt, &draft, status, left, errors)
}

/// Puts a store that was made in the place of the one that it was made of, where the status is 0: the log of that one is
/// folded in and emptied, and it stays locked until the other has its name. With the status.
fn end_replacing<E: Lines>(
    rt: &HostRuntime,
    draft: &Draft,
    status: u8,
    source: Option<LeftFile>,
    left: Option<LeftFile>,
    errors: &mut E,
) -> u8 {
    let folded = match source {
        Some(source) => source.fold(),
        None => None,
    };
    if status == 0 && (folded.is_none() || !empty_log(rt, draft.name())) {
        close(left);
        draft.discard(rt);
        return tell_line(errors, &Failure::Store(StoreFailure::Store));
    }
    let status = end_draft(rt, draft, status, left, errors);
    drop(folded);
    status
}

/// Copies a store into one that is made under another name, and puts that in its place.
fn replace<E: Lines>(
    rt: &HostRuntime,
    draft: &Draft,
    source: StoreFile,
    fresh: StoreFile,
    forget_removed: bool,
    errors: &mut E,
) -> u8 {
    let task = Copying {
        alloc: rt.alloc(),
        forget_removed,
        errors: &mut *errors,
    };
    let (status, source, left) = run_two(source, fresh, task);
    end_replacing(rt, draft, status, source, left, errors)
}

/// Tells the size that a store had and the one that it has.
fn tell_sizes<W: Write, E: Lines>(
    rt: &HostRuntime,
    path: &str,
    old_size: u64,
    writer: &mut W,
    errors: &mut E,
) -> u8 {
    let new_size = length_of(rt, path).unwrap_or(0);
    match writeln!(writer, "size {old_size} -> {new_size}") {
        Ok(()) => 0,
        Err(_) => tell_line(errors, &Failure::Output),
    }
}

/// Writes a store anew under another name, which takes its name while it is locked.
fn compact_store<W: Write, E: Lines>(
    rt: &HostRuntime,
    path: &str,
    source: StoreFile,
    forget_removed: bool,
    writer: &mut W,
    errors: &mut E,
) -> u8 {
    let old_size = length_of(rt, path).unwrap_or(0);
    let (draft, fresh) = match Draft::begin(rt, path) {
        Ok(begun) => begun,
        Err(failure) => {
            source.close();
            return tell_line(errors, &failure);
        }
    };
    let status = replace(rt, &draft, source, fresh, forget_removed, errors);
    if status != 0 {
        return status;
    }
    tell_sizes(rt, path, old_size, writer, errors)
}

/// Opens the store at a path, and writes it anew.
fn compact_at<W: Write, E: Lines>(
    rt: &HostRuntime,
    path: &str,
    store: &str,
    forget_removed: bool,
    writer: &mut W,
    errors: &mut E,
) -> u8 {
    let source = match open_viewed(rt, store) {
        Ok(source) => source,
        Err(failure) => return tell_line(errors, &failure),
    };
    compact_store(rt, path, source, forget_removed, writer, errors)
}

/// The command `compact`: the store's file, which has to be there, is found where links lead, and the store written anew.
pub fn compact<W: Write, E: Lines>(
    rt: &HostRuntime,
    store: &str,
    forget_removed: bool,
    writer: &mut W,
    errors: &mut E,
) -> u8 {
    let path = match real_path(rt, store) {
        Ok(path) => path,
        Err(failure) => return tell_line(errors, &failure),
    };
    compact_at(rt, path.as_str(), store, forget_removed, writer, errors)
}

/// Writes a store anew with resources of a backup under another name, which takes its name while it is locked.
fn restore_into<W: Write, E: Lines>(
    rt: &HostRuntime,
    path: &str,
    source: StoreFile,
    backup: StoreFile,
    paths: &[String],
    writer: &mut W,
    errors: &mut E,
) -> u8 {
    let (draft, fresh) = match Draft::begin(rt, path) {
        Ok(begun) => begun,
        Err(failure) => {
            source.close();
            backup.let_go();
            return tell_line(errors, &failure);
        }
    };
    let task = Restoring {
        alloc: rt.alloc(),
        paths,
        writer,
        errors: &mut *errors,
    };
    let (status, source, made) = run_three(source, backup, fresh, task);
    end_replacing(rt, &draft, status, source, made, errors)
}

/// Opens a copy of the backup's files under a name, and restores.
fn restore_by<W: Write, E: Lines>(
    rt: &HostRuntime,
    path: &str,
    source: StoreFile,
    from: &str,
    copy: &str,
    paths: &[String],
    writer: &mut W,
    errors: &mut E,
) -> u8 {
    match open_copied(rt, from, copy) {
        Ok(backup) => restore_into(rt, path, source, backup, paths, writer, errors),
        Err(failure) => {
            source.close();
            tell_line(errors, &failure)
        }
    }
}

/// Opens the store at a path, and restores of a copy of the backup that is made beside it, under its name and `.from`, and goes
/// again. What another run left there is removed.
fn restore_at<W: Write, E: Lines>(
    rt: &HostRuntime,
    path: &str,
    store: &str,
    from: &str,
    paths: &[String],
    writer: &mut W,
    errors: &mut E,
) -> u8 {
    let source = match open_viewed(rt, store) {
        Ok(source) => source,
        Err(failure) => return tell_line(errors, &failure),
    };
    let Ok(copy) = format!(in rt.alloc(); "{path}.from") else {
        source.close();
        return tell_line(errors, &Failure::Store(StoreFailure::Memory));
    };
    remove(rt, copy.as_str());
    let status = restore_by(rt, path, source, from, copy.as_str(), paths, writer, errors);
    remove(rt, copy.as_str());
    status
}

/// The command `restore`: the store's file, which has to be there, is found where links lead, and the store written anew
/// with cards and books of a backup.
pub fn restore<W: Write, E: Lines>(
    rt: &HostRuntime,
    store: &str,
    from: &str,
    paths: &[String],
    writer: &mut W,
    errors: &mut E,
) -> u8 {
    let path = match real_path(rt, store) {
        Ok(path) => path,
        Err(failure) => return tell_line(errors, &failure),
    };
    restore_at(rt, path.as_str(), store, from, paths, writer, errors)
}

/// Copies a store under another name, and gives the copy its own.
fn copy_to<E: Lines>(rt: &HostRuntime, source: StoreFile, to: &str, errors: &mut E) -> u8 {
    let (draft, fresh) = match Draft::begin(rt, to) {
        Ok(begun) => begun,
        Err(failure) => {
            source.close();
            return tell_line(errors, &failure);
        }
    };
    let task = Copying {
        alloc: rt.alloc(),
        forget_removed: false,
        errors: &mut *errors,
    };
    let (status, source, left) = run_two(source, fresh, task);
    let status = end_draft(rt, &draft, status, left, errors);
    close(source);
    status
}

/// Opens a store, and copies it.
fn backup_to<E: Lines>(rt: &HostRuntime, store: &str, to: &str, errors: &mut E) -> u8 {
    let source = match open_viewed(rt, store) {
        Ok(source) => source,
        Err(failure) => return tell_line(errors, &failure),
    };
    copy_to(rt, source, to, errors)
}

/// The command `backup`: the store's file, which has to be there, is opened and copied to a file that is not there.
pub fn backup<E: Lines>(rt: &HostRuntime, store: &str, to: &str, errors: &mut E) -> u8 {
    match is_unused(rt, to) {
        Ok(true) => backup_to(rt, store, to, errors),
        Ok(false) => tell_fault(errors, &KeepingFault::BackupExists),
        Err(failure) => tell_line(errors, &failure),
    }
}

/// Begins a copy at a name that nothing has.
///
/// # Errors
///
/// The status, where that was told.
pub fn begin_backup<E: Lines>(
    rt: &HostRuntime,
    to: &str,
    errors: &mut E,
) -> Result<(Draft, StoreFile), u8> {
    match is_unused(rt, to) {
        Ok(true) => {}
        Ok(false) => return Err(tell_fault(errors, &KeepingFault::BackupExists)),
        Err(failure) => return Err(tell_line(errors, &failure)),
    }
    match Draft::begin(rt, to) {
        Ok(begun) => Ok(begun),
        Err(failure) => Err(tell_line(errors, &failure)),
    }
}

/// The command `backup` that compares: copies of both stores' files in memory are opened, which have to be there, and it is
/// told whether they have the same Office.
pub fn check_backup<E: Lines>(rt: &HostRuntime, store: &str, copy: &str, errors: &mut E) -> u8 {
    let store = match open_locked_copy(rt, store) {
        Ok(store) => store,
        Err(failure) => return tell_line(errors, &failure),
    };
    match open_backup_copy(rt, copy) {
        Ok(copy) => store.run_two(
            copy,
            Comparing {
                alloc: rt.alloc(),
                errors,
            },
        ),
        Err(failure) => {
            store.let_go();
            tell_line(errors, &failure)
        }
    }
}
