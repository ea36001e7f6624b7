//! A small dump, line by line, the same with one other line or with other parts, and what is made of it.

use crate::checks::check_text;
use book_dumps_changes::Changed;
use book_dumps_reading::{Dumped, ReadFault, dump_bytes, read_dump};
use std::alloc::Global;
use std::process::Abort;

/// The lines of the dump. The book a has two removed names and one card, and another book stands between it and its
/// card.
const LINES: [&str; 12] = [
    "{\"epoch\":7}",
    "{\"path\":\"/\"}",
    "{\"path\":\"/books\",\"own\":[{\"who\":\"/people/ann\",\"invert\":true,\"deny\":[\"read\"]}]}",
    "{\"path\":\"/books/a\",\"owner\":\"/people/ann\",\"number\":9,\"removed\":{\"x\":2,\"y\":5}}",
    "{\"path\":\"/books/a-b\",\"owner\":\"/groups/g\",\"number\":0}",
    "{\"path\":\"/books/a/c\",\"owner\":\"/people/ann\",\"number\":7,\"text\":\"t\\n\"}",
    "{\"path\":\"/groups\"}",
    "{\"path\":\"/groups/g\",\"members\":[\"/people/ann\",\"/people/bob\"]}",
    "{\"path\":\"/people\"}",
    "{\"path\":\"/people/ann\",\"own\":[{\"who\":\"/people/ann\",\"grant\":[\"all\"]}]}",
    "{\"path\":\"/people/bob\"}",
    "{\"lines\":11}",
];

/// The dump with another text in the place of the line with a number, from 1.
pub(crate) fn text_with(rt: &impl Abort, alloc: Global, number: usize, line: &str) -> String {
    let mut text = String::new(alloc);
    for (index, kept) in LINES.iter().enumerate() {
        let told = if index + 1 == number { line } else { *kept };
        text.push_str(told).expect(rt, "memory");
        text.push_str("\n").expect(rt, "memory");
    }
    text
}

/// The dump.
pub(crate) fn text(rt: &impl Abort, alloc: Global) -> String {
    text_with(rt, alloc, 0, "")
}

/// What the text of a dump tells.
pub(crate) fn read(rt: &impl Abort, alloc: Global, text: &str) -> Dumped {
    read_dump(alloc, text.as_bytes()).expect(rt, "a dump")
}

/// Parts of a dump, each with what is in its place.
pub(crate) type Turns = &'static [(&'static str, &'static str)];

/// The dump itself.
pub(crate) const AS_IT_IS: Turns = &[];

/// The dump with some parts in the place of others.
fn turned(rt: &impl Abort, alloc: Global, turns: Turns) -> String {
    let mut wanted = text(rt, alloc);
    for (old, new) in turns {
        let (front, back) = wanted
            .as_str()
            .split_once(*old)
            .expect(rt, "a part of the dump");
        let turned = format!(in alloc; "{front}{new}{back}").expect(rt, "memory");
        wanted = turned;
    }
    wanted
}

/// What the dump with some parts in the place of others tells.
pub(crate) fn dump_with(rt: &impl Abort, alloc: Global, turns: Turns) -> Dumped {
    let text = turned(rt, alloc, turns);
    read(rt, alloc, text.as_str())
}

/// The text of what was made has to be the dump with some parts in the place of others.
fn check_dumped(rt: &impl Abort, alloc: Global, dumped: &Dumped, turns: Turns) {
    let wanted = turned(rt, alloc, turns);
    let made = written(rt, alloc, dumped);
    check_text(rt, made.as_str(), wanted.as_str());
}

/// The change has to tell this, and to make the dump with some parts in the place of others.
pub(crate) fn check_changed(
    rt: &impl Abort,
    alloc: Global,
    changed: Changed,
    told: &str,
    turns: Turns,
) {
    check_text(rt, changed.told.as_str(), told);
    check_dumped(rt, alloc, &changed.dumped, turns);
    drop(changed);
}

/// The text of what a dump tells.
pub(crate) fn written(rt: &impl Abort, alloc: Global, dumped: &Dumped) -> String {
    let bytes = dump_bytes(alloc, dumped).expect(rt, "memory");
    String::from_utf8(bytes).expect(rt, "a text")
}

/// What is told of a text that is no dump; `read` of one.
pub(crate) fn told_of(rt: &impl Abort, alloc: Global, text: &[u8]) -> String {
    match read_dump(alloc, text) {
        Ok(_) => String::from_str(alloc, "read").expect(rt, "memory"),
        Err(ReadFault::Memory) => String::from_str(alloc, "memory").expect(rt, "memory"),
        Err(ReadFault::Line(fault)) => format!(in alloc; "{fault}").expect(rt, "memory"),
    }
}
