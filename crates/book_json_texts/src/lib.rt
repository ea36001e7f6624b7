//! Texts of JSON that are written fast: compact (RFC 8259), token by token, in a vector whose room is kept.
//!
//! It stands on `json`, which says which text tokens have, and which reads; its own writer looks at each text twice and
//! writes each run between escapes by a call. Here sixteen bytes are looked at and written at once, and a text's room is
//! asked once. The crate above uses that each call of `CompactText` adds its token, and that `as_bytes` is their print.
//!
//! Read `texts` first; then `tokens`, which has the text of one token; then `quoting`, which escapes; `stops`, which looks
//! for what has to be escaped; and `places`, which writes at a place.
#![tactic(auto)]

mod places;
mod quoting;
mod stops;
mod texts;
mod tokens;

pub use texts::CompactText;
