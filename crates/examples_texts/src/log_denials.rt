//! A log with each kind of line, texts that are none, and what is told of the denials.

use crate::checks::{check_bytes, check_fact, check_text};
use book_log_denials::{Form, Groups, LogFault, Unread, count_line, groups_of, read_log};
use book_log_lines::{Time, push_line};
use json::Scratch;
use std::alloc::Global;
use std::process::Abort;

/// A reply to nobody, an edit, an adoption, a request that was not read, two denials that are alike, and three others.
const LOG: &str =
    "{\"time\":\"2026-11-29T09:00:00.000Z\",\"connection\":1,\"method\":\"OPTIONS\",\"path\":\"/\",\"status\":200}\n\
    {\"time\":\"2026-11-29T09:00:00.250Z\",\"connection\":2,\"caller\":\"ann\",\"method\":\"MOVE\",\"path\":\"/books/sales/bo\",\"destination\":\"/books/team/bo\",\"status\":201,\"touched\":[{\"path\":\"/books/sales/bo\",\"number\":7},{\"path\":\"/books/team/bo\",\"number\":3}],\"epoch\":4}\n\
    {\"time\":\"2026-11-29T09:00:01.000Z\",\"epoch\":5,\"adopted\":\"changed\"}\n\
    {\"time\":\"2026-11-29T09:00:02.000Z\",\"connection\":3,\"status\":431,\"error\":\"head-too-large\"}\n\
    {\"time\":\"2026-11-29T09:00:05.000Z\",\"connection\":4,\"caller\":\"bob\",\"method\":\"GET\",\"path\":\"/books/sales/bo\",\"status\":403,\"error\":\"need-privileges\",\"resource\":\"/books/sales/bo\",\"privilege\":\"read\",\"from\":\"/books\",\"protected\":true,\"place\":2,\"number\":3,\"entry\":{\"deny\":[\"read\"],\"principal\":\"/people/bob\"}}\n\
    {\"time\":\"2026-11-29T09:00:03.000Z\",\"connection\":5,\"caller\":\"bob\",\"method\":\"GET\",\"path\":\"/books/sales/bo\",\"status\":403,\"error\":\"need-privileges\",\"resource\":\"/books/sales/bo\",\"privilege\":\"read\",\"from\":\"/books\",\"protected\":true,\"place\":2,\"number\":3,\"entry\":{\"deny\":[\"read\"],\"principal\":\"/people/bob\"}}\n\
    {\"time\":\"2026-11-29T09:00:06.000Z\",\"connection\":6,\"method\":\"PUT\",\"path\":\"/books/sales/bo\",\"status\":403,\"error\":\"need-privileges\",\"resource\":\"/books/sales/bo\",\"privilege\":\"write-content\"}\n\
    {\"time\":\"2026-11-29T09:00:07.000Z\",\"connection\":6,\"caller\":\"bob\",\"method\":\"GET\",\"path\":\"/books/sales/bo\",\"status\":403,\"error\":\"need-privileges\",\"resource\":\"/books/sales/bo\",\"privilege\":\"read\",\"from\":\"/books\",\"protected\":false,\"place\":2,\"number\":5,\"entry\":{\"deny\":[\"read\"],\"invert\":\"all\"}}\n";

/// What is told of all denials.
const TOLD: &str =
    "1 2026-11-29T09:00:06.000Z 2026-11-29T09:00:06.000Z - PUT /books/sales/bo: /books/sales/bo write-content, no entry grants it\n\
    1 2026-11-29T09:00:07.000Z 2026-11-29T09:00:07.000Z bob GET /books/sales/bo: /books/sales/bo read by own entry 2 at /books: {\"deny\":[\"read\"],\"invert\":\"all\"}\n\
    2 2026-11-29T09:00:03.000Z 2026-11-29T09:00:05.000Z bob GET /books/sales/bo: /books/sales/bo read by protected entry 2 at /books: {\"deny\":[\"read\"],\"principal\":\"/people/bob\"}\n";

/// What is told of those from 09:00:05 on.
const TOLD_SINCE: &str =
    "1 2026-11-29T09:00:06.000Z 2026-11-29T09:00:06.000Z - PUT /books/sales/bo: /books/sales/bo write-content, no entry grants it\n\
    1 2026-11-29T09:00:07.000Z 2026-11-29T09:00:07.000Z bob GET /books/sales/bo: /books/sales/bo read by own entry 2 at /books: {\"deny\":[\"read\"],\"invert\":\"all\"}\n\
    1 2026-11-29T09:00:05.000Z 2026-11-29T09:00:05.000Z bob GET /books/sales/bo: /books/sales/bo read by protected entry 2 at /books: {\"deny\":[\"read\"],\"principal\":\"/people/bob\"}\n";

/// What is told of all denials as objects.
const OBJECTS: &str =
    "{\"count\":1,\"first\":\"2026-11-29T09:00:07.000Z\",\"last\":\"2026-11-29T09:00:07.000Z\",\"caller\":\"bob\",\"method\":\"GET\",\"path\":\"/books/sales/bo\",\"resource\":\"/books/sales/bo\",\"privilege\":\"read\",\"from\":\"/books\",\"protected\":false,\"place\":2,\"entry\":{\"deny\":[\"read\"],\"invert\":\"all\"}}\n\
    {\"count\":2,\"first\":\"2026-11-29T09:00:03.000Z\",\"last\":\"2026-11-29T09:00:05.000Z\",\"caller\":\"bob\",\"method\":\"GET\",\"path\":\"/books/sales/bo\",\"resource\":\"/books/sales/bo\",\"privilege\":\"read\",\"from\":\"/books\",\"protected\":true,\"place\":2,\"entry\":{\"deny\":[\"read\"],\"principal\":\"/people/bob\"}}\n\
    {\"count\":1,\"first\":\"2026-11-29T09:00:06.000Z\",\"last\":\"2026-11-29T09:00:06.000Z\",\"method\":\"PUT\",\"path\":\"/books/sales/bo\",\"resource\":\"/books/sales/bo\",\"privilege\":\"write-content\"}\n";

/// Texts that are no log, each with the number of the line that is none.
const FAULTS: [(&str, u64); 8] = [
    ("{}\n", 1),
    ("\n", 1),
    (
        "{\"time\":\"2026-11-29T09:00:01.000Z\",\"epoch\":5,\"adopted\":\"changed\"}",
        1,
    ),
    (
        "{\"time\":\"2026-11-29T09:00:01Z\",\"epoch\":5,\"adopted\":\"changed\"}\n",
        1,
    ),
    (
        "{\"time\":\"2026-11-29T09:00:01.000Z\",\"epoch\":5,\"adopted\":\"other\"}\n",
        1,
    ),
    (
        "{\"time\":\"2026-11-29T09:00:01.000Z\", \"epoch\":5,\"adopted\":\"full\"}\n",
        1,
    ),
    (
        "{\"time\":\"2026-11-29T09:00:01.000Z\",\"epoch\":5,\"adopted\":\"full\"}\n{\"epoch\":5,\"time\":\"2026-11-29T09:00:01.000Z\",\"adopted\":\"full\"}\n",
        2,
    ),
    (
        "{\"time\":\"2026-11-29T09:00:06.000Z\",\"connection\":6,\"method\":\"PUT\",\"path\":\"/books/sales/\",\"status\":403}\n",
        1,
    ),
];

/// The lines of groups of denials are these.
fn check_groups(rt: &impl Abort, alloc: Global, form: Form, groups: &Groups, wanted: &str) {
    let mut text = String::new(alloc);
    groups
        .push_lines(alloc, form, &mut text)
        .expect(rt, "memory");
    check_text(rt, text.as_str(), wanted);
}

/// What is told of the denials of a log is this, from a time on if there is one.
fn check_told(
    rt: &impl Abort,
    alloc: Global,
    form: Form,
    log: &str,
    since: Option<&str>,
    wanted: &str,
) {
    let since = match since {
        Some(text) => Time::parse(alloc, text).expect(rt, "memory"),
        None => None,
    };
    let lines = read_log(alloc, log.as_bytes()).expect(rt, "a log");
    let groups = groups_of(alloc, form, lines.as_slice(), since.as_ref()).expect(rt, "memory");
    drop(lines);
    check_groups(rt, alloc, form, &groups, wanted);
    drop(groups);
}

#[test]
fn denials_are_told_in_groups(rt: HostRuntime) {
    let alloc = rt.alloc();
    check_told(&rt, alloc, Form::Text, LOG, None, TOLD);
    let since = Some("2026-11-29T09:00:05.000Z");
    check_told(&rt, alloc, Form::Text, LOG, since, TOLD_SINCE);
    check_told(&rt, alloc, Form::Text, "", None, "");
    check_told(&rt, alloc, Form::Object, LOG, None, OBJECTS);
}

#[test]
fn a_line_is_counted_by_itself(rt: HostRuntime) {
    let alloc = rt.alloc();
    let mut scratch = Scratch::new(alloc);
    let mut groups = Groups::new(alloc);
    for line in LOG.as_bytes().split_inclusive(|byte| *byte == b'\n') {
        count_line(alloc, &mut scratch, Form::Text, &mut groups, None, line).expect(&rt, "a line");
    }
    check_groups(&rt, alloc, Form::Text, &groups, TOLD);
    let unread = count_line(alloc, &mut scratch, Form::Text, &mut groups, None, b"{}\n");
    check_fact(&rt, unread == Err(Unread::Bad), "no line");
}

#[test]
fn a_log_is_written_as_it_was_read(rt: HostRuntime) {
    let alloc = rt.alloc();
    let lines = read_log(alloc, LOG.as_bytes()).expect(&rt, "a log");
    let mut bytes = Vec::new(alloc);
    for line in lines.as_slice() {
        push_line(alloc, &mut bytes, line).expect(&rt, "memory");
    }
    drop(lines);
    check_bytes(&rt, bytes.as_slice(), LOG.as_bytes());
}

#[test]
fn a_line_that_is_none_is_told(rt: HostRuntime) {
    let alloc = rt.alloc();
    for (text, number) in FAULTS {
        let fault = read_log(alloc, text.as_bytes()).err();
        check_fact(&rt, fault == Some(LogFault::BadLine(number)), text);
    }
}
