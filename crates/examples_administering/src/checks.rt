//! Comparisons that end a test. Each is a function, since one that is written out is proved anew where it stands.

use std::process::Abort;

/// The text has to be the one that is wanted; `at` says which of several it is.
pub(crate) fn check_text(rt: &impl Abort, told: &str, wanted: &str, at: &str) {
    assert_eq!(rt; told, wanted, "{at:?}");
}

/// The fact has to hold; `at` says of what.
pub(crate) fn check_fact(rt: &impl Abort, holds: bool, at: &str) {
    assert!(rt; holds, "{at:?}");
}
