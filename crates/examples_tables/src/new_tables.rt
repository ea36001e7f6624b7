//! New tables in memory, and what they have at a path.

use book_lists::{Name, Principal};
use book_office::Keeper;
use book_office_values::{Path, Text};
use book_tables::Tables;
use sqlite::{Connection, MemStore};
use std::alloc::Global;
use std::process::Abort;

pub(crate) fn tables(rt: &impl Abort, alloc: Global) -> Tables<MemStore> {
    let connection = Connection::open_in_memory(alloc).expect(rt, "memory");
    Tables::create(connection).ok().expect(rt, "a new store")
}

pub(crate) fn name(rt: &impl Abort, alloc: Global, text: &str) -> Name {
    let name = Name::parse(alloc, text).expect(rt, "memory");
    name.expect(rt, text)
}

pub(crate) fn principal(rt: &impl Abort, alloc: Global, text: &str) -> Principal {
    let principal = Principal::parse(alloc, text).expect(rt, "memory");
    principal.expect(rt, text)
}

pub(crate) fn path(rt: &impl Abort, alloc: Global, text: &str) -> Path {
    Path::parse(alloc, text).ok().expect(rt, text)
}

pub(crate) fn text(rt: &impl Abort, alloc: Global, text: &str) -> Text {
    Text::copy_of(alloc, text).expect(rt, "memory")
}

/// The access epoch.
pub(crate) fn check_epoch(rt: &impl Abort, tables: &mut Tables<MemStore>, wanted: u64) {
    assert_eq!(rt; tables.epoch(), Ok(wanted));
}

/// Label, text and change number of what is at a path; `none` where nothing is.
pub(crate) fn found(
    rt: &impl Abort,
    alloc: Global,
    tables: &mut Tables<MemStore>,
    at: &str,
) -> String {
    let path = path(rt, alloc, at);
    let found = tables.find(alloc, &path).expect(rt, at);
    drop(path);
    let Some(node) = found else {
        return String::from_str(alloc, "none").expect(rt, "memory");
    };
    let text = node.text.as_ref().map_or("-", |text| text.as_str());
    let (label, number) = (node.label.as_str(), node.number);
    let told = format!(in alloc; "{label:?} {text} {number}").expect(rt, "memory");
    drop(node);
    told
}
