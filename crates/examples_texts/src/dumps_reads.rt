//! Dumps that are read, and texts that are none, each with the line and the key at which it is wrong.

use crate::checks::{check_fact, check_number, check_text};
use crate::dumps_lines::{read, text, text_with, told_of, written};
use crate::dumps_offices::keeper;
use book_dumps::dump;
use book_dumps_reading::Dumped;
use std::alloc::Global;
use std::process::Abort;

/// A line in the place of another one, by its number, and what is told of the text.
const FAULTS: [(usize, &str, &str); 58] = [
    (
        1,
        "{\"epoch\":9007199254740992}",
        "line 1: bad-line\nkey: epoch",
    ),
    (1, "{\"epoch\":\"7\"}", "line 1: bad-line\nkey: epoch"),
    (1, "{\"epoch\":7,\"path\":\"/\"}", "line 1: bad-line"),
    (1, "{\"epoch\": 7}", "line 1: bad-line"),
    (1, "{\"path\":\"/\"}", "line 1: bad-line\nkey: epoch"),
    (2, "", "line 2: bad-line"),
    (2, "{", "line 2: bad-line"),
    (2, "[\"/\"]", "line 2: bad-line"),
    (2, "{}", "line 2: bad-line\nkey: path"),
    (2, "{\"path\":1}", "line 2: bad-line\nkey: path"),
    (2, "{\"path\":\"/books\"}", "line 2: bad-line\nkey: path"),
    (
        2,
        "{\"path\":\"/\",\"path\":\"/\"}",
        "line 2: bad-line\nkey: path",
    ),
    (
        2,
        "{\"path\":\"/\",\"label\":\"\"}",
        "line 2: bad-line\nkey: label",
    ),
    (
        2,
        "{\"label\":\"x\",\"path\":\"/\"}",
        "line 2: bad-line\nkey: label",
    ),
    (
        2,
        "{\"path\":\"/\",\"number\":1}",
        "line 2: bad-line\nkey: number",
    ),
    (
        2,
        "{\"path\":\"/\",\"text\":\"\"}",
        "line 2: bad-line\nkey: text",
    ),
    (
        2,
        "{\"path\":\"/\",\"members\":[\"/people/ann\"]}",
        "line 2: bad-line\nkey: members",
    ),
    (
        2,
        "{\"path\":\"/\",\"removed\":{\"x\":1}}",
        "line 2: bad-line\nkey: removed",
    ),
    (2, "{\"path\":\"/\",\"colour\":\"red\"}", "line 2: bad-line"),
    (2, "{\"path\":\"\\/\"}", "line 2: bad-line"),
    (
        2,
        "{\"path\":\"/\",\"label\":1,\"owner\":\"ann\"}",
        "line 2: bad-name\nkey: owner",
    ),
    (
        3,
        "{\"path\":\"/books\",\"own\":[]}",
        "line 3: bad-line\nkey: own",
    ),
    (
        3,
        "{\"path\":\"/books\",\"own\":[{\"who\":\"all\"}]}",
        "line 3: bad-line\nkey: own",
    ),
    (
        3,
        "{\"path\":\"/books\",\"own\":[{\"who\":\"all\",\"allow\":[]}]}",
        "line 3: bad-line\nkey: own",
    ),
    (
        3,
        "{\"path\":\"/books\",\"own\":[{\"who\":\"all\",\"invert\":false,\"grant\":[]}]}",
        "line 3: bad-line\nkey: own",
    ),
    (
        3,
        "{\"path\":\"/books\",\"own\":[{\"who\":\"all\",\"grant\":[\"bind\",\"read\"]}]}",
        "line 3: bad-line\nkey: own",
    ),
    (
        3,
        "{\"path\":\"/books\",\"own\":[{\"who\":\"all\",\"grant\":[\"fly\"]}]}",
        "line 3: bad-line\nkey: own",
    ),
    (
        3,
        "{\"path\":\"/books\",\"protected\":[{\"who\":\"ann\",\"grant\":[]}]}",
        "line 3: bad-name\nkey: protected",
    ),
    (
        3,
        "{\"path\":\"/books\",\"own\":[{\"who\":\"/people/eve\",\"grant\":[]}]}",
        "line 3: unknown-principal\nkey: own",
    ),
    (3, "{\"path\":\"/groups\"}", "line 3: bad-line\nkey: path"),
    (
        4,
        "{\"path\":\"/books/a\",\"owner\":\"/people/eve\",\"number\":9}",
        "line 4: unknown-principal\nkey: owner",
    ),
    (
        4,
        "{\"path\":\"/books/a\",\"owner\":\"/people/ann/\",\"number\":9}",
        "line 4: bad-name\nkey: owner",
    ),
    (
        4,
        "{\"path\":\"/books/a\"}",
        "line 4: bad-line\nkey: number",
    ),
    (
        4,
        "{\"path\":\"/books/a\",\"number\":9,\"removed\":{}}",
        "line 4: bad-line\nkey: removed",
    ),
    (
        4,
        "{\"path\":\"/books/a\",\"number\":9,\"removed\":{\"x\":0}}",
        "line 4: bad-line\nkey: removed",
    ),
    (
        4,
        "{\"path\":\"/books/a\",\"number\":9,\"removed\":{\"x\":10}}",
        "line 4: bad-line\nkey: removed",
    ),
    (
        4,
        "{\"path\":\"/books/a\",\"number\":9,\"removed\":{\"x\":2,\"y\":2}}",
        "line 4: bad-line\nkey: removed",
    ),
    (
        4,
        "{\"path\":\"/books/a\",\"number\":9,\"removed\":{\"x\":2,\"x\":5}}",
        "line 4: bad-line\nkey: removed",
    ),
    (
        4,
        "{\"path\":\"/books/a\",\"number\":9,\"removed\":{\"x\":5,\"y\":2}}",
        "line 4: order\nkey: removed",
    ),
    (
        4,
        "{\"path\":\"/books/a\",\"number\":9,\"removed\":{\".x\":2}}",
        "line 4: bad-name\nkey: removed",
    ),
    (
        5,
        "{\"path\":\"/books/A\",\"number\":0}",
        "line 5: order\nkey: path",
    ),
    (
        5,
        "{\"path\":\"/books/a\",\"number\":0}",
        "line 5: order\nkey: path",
    ),
    (
        5,
        "{\"path\":\"/books/a-b/\",\"number\":0}",
        "line 5: bad-name\nkey: path",
    ),
    (5, "{\"path\":\"/cards\"}", "line 5: bad-name\nkey: path"),
    (
        6,
        "{\"path\":\"/books/b/c\",\"number\":7,\"text\":\"t\"}",
        "line 6: bad-name\nkey: path",
    ),
    (
        6,
        "{\"path\":\"/books/a/x\",\"number\":7,\"text\":\"t\"}",
        "line 6: bad-line\nkey: path",
    ),
    (
        6,
        "{\"path\":\"/books/a/c\",\"protected\":[{\"who\":\"all\",\"grant\":[]}],\"number\":7,\"text\":\"t\"}",
        "line 6: bad-line\nkey: protected",
    ),
    (
        6,
        "{\"path\":\"/books/a/c\",\"number\":0,\"text\":\"t\"}",
        "line 6: bad-line\nkey: number",
    ),
    (
        6,
        "{\"path\":\"/books/a/c\",\"number\":5,\"text\":\"t\"}",
        "line 6: bad-line\nkey: number",
    ),
    (
        6,
        "{\"path\":\"/books/a/c\",\"number\":10,\"text\":\"t\"}",
        "line 6: bad-line\nkey: number",
    ),
    (
        6,
        "{\"path\":\"/books/a/c\",\"number\":7}",
        "line 6: bad-line\nkey: text",
    ),
    (
        8,
        "{\"path\":\"/groups/g\",\"members\":[\"/people/bob\",\"/people/ann\"]}",
        "line 8: bad-line\nkey: members",
    ),
    (
        8,
        "{\"path\":\"/groups/g\",\"members\":[\"/people\"]}",
        "line 8: bad-name\nkey: members",
    ),
    (
        8,
        "{\"path\":\"/groups/g\",\"members\":[\"/people/eve\"]}",
        "line 8: unknown-principal\nkey: members",
    ),
    (
        9,
        "{\"path\":\"/people/ann\"}",
        "line 9: bad-line\nkey: path",
    ),
    (12, "{\"lines\":12}", "line 12: last-line"),
    (12, "{\"lines\":\"11\"}", "line 12: bad-line\nkey: lines"),
    (12, "{\"lines\":11}\n", "line 13: last-line"),
];

/// The text of the Office of the examples.
fn office(rt: &impl Abort, alloc: Global) -> String {
    let mut bytes = Vec::new(alloc);
    let mut keeper = keeper(rt, alloc);
    let done = dump(alloc, &mut keeper, &mut bytes);
    drop(keeper);
    check_fact(rt, done.is_ok(), "memory");
    String::from_utf8(bytes).expect(rt, "a text")
}

/// What a dump tells is written as this text.
fn check_written(rt: &impl Abort, alloc: Global, dumped: Dumped, wanted: &str) {
    let told = written(rt, alloc, &dumped);
    drop(dumped);
    check_text(rt, told.as_str(), wanted);
}

/// What is told of a text that is no dump is this.
fn check_told(rt: &impl Abort, alloc: Global, text: &[u8], wanted: &str) {
    let told = told_of(rt, alloc, text);
    check_text(rt, told.as_str(), wanted);
}

/// What is told of the dump with another line is this.
fn check_line(rt: &impl Abort, alloc: Global, number: usize, line: &str, wanted: &str) {
    let text = text_with(rt, alloc, number, line);
    check_told(rt, alloc, text.as_bytes(), wanted);
}

#[test]
fn a_dump_of_an_office_is_read_as_it_is(rt: HostRuntime) {
    let alloc = rt.alloc();
    let office = office(&rt, alloc);
    let dumped = read(&rt, alloc, office.as_str());
    check_number(&rt, dumped.epoch, 2);
    check_number(&rt, dumped.lines.len() as u64, 12);
    check_written(&rt, alloc, dumped, office.as_str());
    let small = text(&rt, alloc);
    let dumped = read(&rt, alloc, small.as_str());
    check_written(&rt, alloc, dumped, small.as_str());
}

#[test]
fn a_wrong_line_is_told(rt: HostRuntime) {
    let alloc = rt.alloc();
    for (number, line, wanted) in FAULTS {
        check_line(&rt, alloc, number, line, wanted);
    }
}

/// A text so many times, with a mark between.
fn repeated(rt: &impl Abort, alloc: Global, text: &str, count: usize, mark: &str) -> String {
    let mut whole = String::from_str(alloc, text).expect(rt, "memory");
    for _ in 1..count {
        whole.push_str(mark).expect(rt, "memory");
        whole.push_str(text).expect(rt, "memory");
    }
    whole
}

#[test]
fn limits_are_told(rt: HostRuntime) {
    let alloc = rt.alloc();
    for (count, wanted) in [(64, "read"), (65, "line 2: too-many\nkey: own")] {
        let entries = repeated(&rt, alloc, "{\"who\":\"all\",\"grant\":[]}", count, ",");
        let line = format!(in alloc; "{{\"path\":\"/\",\"own\":[{entries}]}}").expect(
            &rt, "memory",
        );
        check_line(&rt, alloc, 2, line.as_str(), wanted);
    }
    for (count, wanted) in [(256, "read"), (257, "line 2: too-long\nkey: label")] {
        let label = repeated(&rt, alloc, "x", count, "");
        let line = format!(in alloc; "{{\"path\":\"/\",\"label\":\"{label}\"}}").expect(
            &rt, "memory",
        );
        check_line(&rt, alloc, 2, line.as_str(), wanted);
    }
    for (count, wanted) in [(65536, "read"), (65537, "line 6: too-long\nkey: text")] {
        let card = repeated(&rt, alloc, "x", count, "");
        let line = format!(in alloc;
            "{{\"path\":\"/books/a/c\",\"number\":7,\"text\":\"{card}\"}}"
        ).expect(&rt, "memory");
        check_line(&rt, alloc, 6, line.as_str(), wanted);
    }
}

/// A line at the end of a text.
fn push(rt: &impl Abort, text: &mut String, line: &str) {
    text.push_str(line).expect(rt, "memory");
    text.push_str("\n").expect(rt, "memory");
}

/// Adds so many books, of which the first has so many cards.
fn push_books(rt: &impl Abort, alloc: Global, text: &mut String, books: usize, cards: usize) {
    for book in 0..books {
        let line = format!(in alloc; "{{\"path\":\"/books/{book:04}\",\"number\":{cards}}}");
        push(rt, text, line.expect(rt, "memory").as_str());
        let here = if book == 0 { cards } else { 0 };
        for card in 0..here {
            let number = card.saturating_add(1);
            let line = format!(in alloc;
                "{{\"path\":\"/books/{book:04}/{card:05}\",\"number\":{number},\"text\":\"\"}}"
            );
            push(rt, text, line.expect(rt, "memory").as_str());
        }
    }
}

/// The list of so many persons.
fn members(rt: &impl Abort, alloc: Global, persons: usize) -> String {
    let mut list = String::new(alloc);
    for person in 0..persons {
        let mark = if person == 0 { "" } else { "," };
        let member = format!(in alloc; "{mark}\"/people/{person:04}\"").expect(rt, "memory");
        list.push_str(member.as_str()).expect(rt, "memory");
    }
    list
}

/// A dump of so many books, of which the first has so many cards, and of a group of so many persons.
fn large(rt: &impl Abort, alloc: Global, books: usize, cards: usize, persons: usize) -> String {
    let mut text = String::new(alloc);
    push(
        rt,
        &mut text,
        "{\"epoch\":0}\n{\"path\":\"/\"}\n{\"path\":\"/books\"}",
    );
    push_books(rt, alloc, &mut text, books, cards);
    push(rt, &mut text, "{\"path\":\"/groups\"}");
    let members = members(rt, alloc, persons);
    let group = format!(in alloc;
        "{{\"path\":\"/groups/g\",\"members\":[{members}]}}\n{{\"path\":\"/people\"}}"
    );
    push(rt, &mut text, group.expect(rt, "memory").as_str());
    for person in 0..persons {
        let line = format!(in alloc; "{{\"path\":\"/people/{person:04}\"}}");
        push(rt, &mut text, line.expect(rt, "memory").as_str());
    }
    let lines = books
        .saturating_add(cards)
        .saturating_add(persons)
        .saturating_add(6);
    let last = format!(in alloc; "{{\"lines\":{lines}}}");
    push(rt, &mut text, last.expect(rt, "memory").as_str());
    text
}

#[test]
fn a_large_office_is_read(rt: HostRuntime) {
    let alloc = rt.alloc();
    let rows = [
        (1_000, 10_000, 1_000, "read"),
        (1_001, 1, 1, "line 1005: too-many\nkey: path"),
        (1, 10_001, 1, "line 10005: too-many\nkey: path"),
        (1, 1, 1_001, "line 7: too-many\nkey: members"),
    ];
    for (books, cards, persons, wanted) in rows {
        let text = large(&rt, alloc, books, cards, persons);
        check_told(&rt, alloc, text.as_bytes(), wanted);
    }
}

#[test]
fn a_text_that_ends_otherwise_is_told(rt: HostRuntime) {
    let alloc = rt.alloc();
    let whole = text(&rt, alloc);
    let bytes = whole.as_bytes();
    let cut = bytes.len().saturating_sub(1);
    check_told(&rt, alloc, &bytes[..cut], "line 12: last-line");
    let before = bytes.len().saturating_sub("{\"lines\":11}\n".len());
    check_told(&rt, alloc, &bytes[..before], "line 12: last-line");
    check_told(&rt, alloc, b"", "line 1: last-line");
    check_told(&rt, alloc, b"{\"epoch\":7}\n\xff\n", "line 2: bad-line");
    let early = "{\"epoch\":7}\n{\"path\":\"/\"}\n{\"lines\":2}\n";
    check_told(&rt, alloc, early.as_bytes(), "line 3: bad-line\nkey: path");
}
