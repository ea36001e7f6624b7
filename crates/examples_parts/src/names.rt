//! Names, read from words of examples.

use book_lists::Name;
use std::alloc::Global;
use std::process::Abort;

pub(crate) fn named(rt: &impl Abort, alloc: Global, word: &str) -> Name {
    let name = Name::parse(alloc, word).expect(rt, "memory");
    name.expect(rt, "a name")
}
