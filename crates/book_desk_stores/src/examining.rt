//! The command that examines a store: `doctor`.

use crate::tasks::Examining;
use book_desk_app::{DONE, Failure, Lines, StoreFailure, tell_line};
use book_desk_files::{length_of, log_name, open_locked_copy, open_viewed};
use std::fs::{self, File};
use std::io::{self, Read, Write};
use std::os::unix::fs::MetadataExt;

/// How many bytes of a file's header say how large its pages are, and how many are free (SQLite's file format, 1.3).
const HEADER: usize = 40;

/// About how many bytes an open takes beside the pages that it keeps and the rows that it reads.
const OPEN_BASE: u64 = 16_000_000;

/// What the header of a store's file tells of its pages.
#[derive(Clone, Copy)]
struct Pages {
    /// How many bytes a page has.
    size: u64,
    /// How many there are.
    count: u64,
    /// How many of them are free.
    free: u64,
}

/// What the first bytes of a store's file, which has so many, tell of its pages; none where they tell no size.
fn pages_in(header: &[u8; HEADER], length: u64) -> Option<Pages> {
    let size = match u16::from_be_bytes([header[16], header[17]]) {
        // 65,536 does not fit in two bytes.
        1 => 65_536,
        size => u64::from(size),
    };
    let free = u32::from_be_bytes([header[36], header[37], header[38], header[39]]);
    Some(Pages {
        size,
        count: length.checked_div(size)?,
        free: u64::from(free),
    })
}

/// The first bytes of a file.
fn header_of(rt: &HostRuntime, name: &str) -> io::Result<[u8; HEADER]> {
    let mut header = [0; HEADER];
    let mut file = File::open(rt, name)?;
    file.read_exact(&mut header)?;
    Ok(header)
}

/// How large a store's files are, and its mode.
#[derive(Clone, Copy)]
struct Sizes {
    /// How many bytes the file has.
    file: u64,
    /// How many bytes its log has.
    log: u64,
    /// The mode of the file.
    mode: u32,
    /// What its header tells of its pages.
    pages: Pages,
}

/// How large a store's files are.
fn sizes_of(rt: &HostRuntime, name: &str) -> Option<Sizes> {
    let found = fs::metadata(rt, name).ok()?;
    let log = log_name(rt.alloc(), name).ok()?;
    let header = header_of(rt, name).ok()?;
    Some(Sizes {
        file: found.len(),
        log: length_of(rt, log.as_str()).unwrap_or(0),
        mode: found.mode() & 0o7777,
        pages: pages_in(&header, found.len())?,
    })
}

/// Writes how large a store's files are, its mode, how many of its pages are free, and about what an open wants of memory.
fn write_sizes<W: Write>(writer: &mut W, sizes: &Sizes) -> io::Result<()> {
    let Sizes {
        file,
        log,
        mode,
        pages,
    } = *sizes;
    let Pages { size, count, free } = pages;
    let open = OPEN_BASE.saturating_add(file / 2);
    writeln!(
        writer,
        "file {file} bytes, log {log} bytes, mode {mode:04o}"
    )?;
    writeln!(writer, "pages {count} of {size} bytes, {free} free")?;
    writeln!(writer, "open {open} bytes")?;
    writer.flush()
}

/// Tells the sizes of a store that is sound.
fn tell_sizes<W: Write, E: Lines>(
    rt: &HostRuntime,
    name: &str,
    writer: &mut W,
    errors: &mut E,
) -> u8 {
    let Some(sizes) = sizes_of(rt, name) else {
        return tell_line(errors, &Failure::Store(StoreFailure::Store));
    };
    match write_sizes(writer, &sizes) {
        Ok(()) => DONE,
        Err(_) => tell_line(errors, &Failure::Output),
    }
}

/// Examines a store over its files, as `audit` opens them.
fn examine_files<W: Write, E: Lines>(
    rt: &HostRuntime,
    store: &str,
    writer: &mut W,
    errors: &mut E,
) -> u8 {
    match open_viewed(rt, store) {
        Ok(store) => store.run_and_close(Examining {
            alloc: rt.alloc(),
            writer,
            errors,
        }),
        Err(failure) => tell_line(errors, &failure),
    }
}

/// Examines a store over a copy of its files in memory, or over these where they don't fit there.
fn examine_store<W: Write, E: Lines>(
    rt: &HostRuntime,
    store: &str,
    writer: &mut W,
    errors: &mut E,
) -> u8 {
    match open_locked_copy(rt, store) {
        Ok(copy) => copy.run(Examining {
            alloc: rt.alloc(),
            writer,
            errors,
        }),
        Err(Failure::Store(StoreFailure::Memory)) => examine_files(rt, store, writer, errors),
        Err(failure) => tell_line(errors, &failure),
    }
}

/// The command `doctor`: the store, which has to be there, is examined, and of a sound one the sizes are told too.
pub fn examine<W: Write, E: Lines>(
    rt: &HostRuntime,
    store: &str,
    writer: &mut W,
    errors: &mut E,
) -> u8 {
    let status = examine_store(rt, store, writer, errors);
    if status != DONE {
        return status;
    }
    tell_sizes(rt, store, writer, errors)
}
