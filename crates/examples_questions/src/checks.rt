//! Comparisons that end a test. Each is a function, since one that is written out is proved anew where it stands.

use book_machine::Refusal;
use book_office::Text;
use std::process::Abort;

/// The text has to be the one that is wanted.
pub(crate) fn check_text(rt: &impl Abort, told: &str, wanted: &str) {
    assert_eq!(rt; told, wanted);
}

/// The answer, or the name of the refusal, has to be the one that is wanted.
pub(crate) fn check_told(rt: &impl Abort, told: Result<Text, Refusal>, wanted: &str) {
    match &told {
        Ok(text) => check_text(rt, text.as_str(), wanted),
        Err(refusal) => check_text(rt, refusal.name(), wanted),
    }
    drop(told);
}
