//! Comparisons that end a test. Each is a function, since one that is written out is proved anew where it stands.

use std::process::Abort;

pub(crate) fn check(rt: &impl Abort, told: String, wanted: &str) {
    assert_eq!(rt; told.as_str(), wanted);
}

/// The text has to be the one that is wanted; `of` says what it is of.
pub(crate) fn check_text(rt: &impl Abort, told: &str, wanted: &str, of: &str) {
    assert_eq!(rt; told, wanted, "{of}");
}

pub(crate) fn check_number(rt: &impl Abort, told: u64, wanted: u64) {
    assert_eq!(rt; told, wanted);
}

/// The fact has to hold; `of` says what it is of.
pub(crate) fn check_fact(rt: &impl Abort, holds: bool, of: &str) {
    assert!(rt; holds, "{of}");
}
