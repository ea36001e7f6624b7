//! Comparisons that end a test. Each is a function, since one that is written out is proved anew where it stands.

use std::process::Abort;

/// The text has to be the one that is wanted.
pub(crate) fn check_text(rt: &impl Abort, told: &str, wanted: &str) {
    assert_eq!(rt; told, wanted);
}

/// The bytes have to be those that are wanted.
pub(crate) fn check_bytes(rt: &impl Abort, told: &[u8], wanted: &[u8]) {
    assert_eq!(rt; told, wanted);
}

/// The number has to be the one that is wanted.
pub(crate) fn check_number(rt: &impl Abort, told: u64, wanted: u64) {
    assert_eq!(rt; told, wanted);
}

/// The fact has to hold; `of` says what it is of.
pub(crate) fn check_fact(rt: &impl Abort, holds: bool, of: &str) {
    assert!(rt; holds, "{of}");
}
