//! Lines of JSON: a value of RFC 8259 as one line of text, which is written token by token, so that no tree of values is
//! made of it; and objects whose keys without a value are left out.
//!
//! It stands on `json`, which says which text tokens have. The crate above uses that each call of `JsonText` adds the tokens
//! of its value (`Tells`, `TellsMembers`), that `into_line` gives the bytes of them with a line feed, and that those of a
//! value are a line (`values_are_lines`).
//!
//! Read `texts` first, and then `laws`.
#![tactic(auto)]

mod laws;
mod texts;

pub use laws::values_are_lines;
pub use texts::JsonText;
