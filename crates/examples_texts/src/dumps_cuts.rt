//! Writers that take little, or fail: what they took is a beginning of the text.

use crate::checks::check_fact;
use crate::dumps_offices::keeper;
use book_dumps::{DumpFault, dump};
use std::alloc::Global;
use std::io::{self, ErrorKind, Write};
use std::process::Abort;

/// Takes at most three bytes a write, and so many in all; then each write fails.
#[derive(Drop)]
struct Cut {
    taken: Vec<u8>,
    room: usize,
}

impl Write for Cut {
    fn write(&mut self, buf: &[u8]) -> io::Result<usize> {
        if self.room == 0 {
            return Err(ErrorKind::Other.into());
        }
        let count = self.room.min(buf.len()).min(3);
        self.taken.extend_from_slice(&buf[..count])?;
        self.room -= count;
        Ok(count)
    }

    fn flush(&mut self) -> io::Result<()> {
        Ok(())
    }
}

/// What a writer with so much room took, and whether the dump failed there.
fn cut_at(rt: &impl Abort, alloc: Global, room: usize) -> (Vec<u8>, bool) {
    let mut cut = Cut {
        taken: Vec::new(alloc),
        room,
    };
    let mut keeper = keeper(rt, alloc);
    let dumped = dump(alloc, &mut keeper, &mut cut);
    drop(keeper);
    let failed = match dumped {
        Ok(()) => false,
        Err(fault) => {
            check_fact(rt, fault == DumpFault::Write, "a write failed");
            true
        }
    };
    (cut.taken, failed)
}

#[test]
fn a_cut_text_is_a_beginning(rt: HostRuntime) {
    let alloc = rt.alloc();
    let (whole, failed) = cut_at(&rt, alloc, 10_000);
    check_fact(&rt, !failed, "room for the whole text");
    let last = whole.len().saturating_sub(1);
    for room in [0, 1, 11, 12, 500, last] {
        let (taken, failed) = cut_at(&rt, alloc, room);
        check_fact(&rt, failed, "too little room");
        check_fact(&rt, taken.len() == room, "as much as there is room for");
        let begins = whole.as_slice().starts_with(taken.as_slice());
        check_fact(&rt, begins, "a beginning of the text");
    }
}
