//! What the program is at, told where a person looks.

use std::fmt;
use std::io::{IsTerminal, Write};

/// A stage that may take a while.
#[derive(Clone, Copy)]
pub enum Stage<'a> {
    /// The policy's file is read.
    Reading(&'a str),
    /// The store's file, of so many bytes, is opened.
    Opening(&'a str, u64),
    /// The store is migrated.
    Migrating,
    /// The policy is adopted.
    Adopting,
}

impl fmt::Display for Stage<'_> {
    fn fmt<W: fmt::Write>(&self, f: &mut fmt::Formatter<W>) -> fmt::Result {
        match self {
            Stage::Reading(name) => write!(f, "reading {name}"),
            Stage::Opening(name, bytes) => write!(f, "opening {name}, {bytes} bytes"),
            Stage::Migrating => f.write_str("migrating"),
            Stage::Adopting => f.write_str("adopting the policy"),
        }
    }
}

/// Tells a stage before it begins, on standard error, where that is a terminal, and nowhere else.
pub fn tell_stage(rt: &HostRuntime, stage: Stage<'_>) {
    let mut errors = rt.stderr();
    if errors.is_terminal() {
        let _ = writeln!(errors, "book_desk: {stage}");
    }
}
