//! The audit of an Office as a text: the epoch, the direct members of the groups, and each resource with its owner and
//! its two lists (own profile; RFC 3744, sections 2 and 5).
//!
//! It stands on `book_office`, and on `book_lists_explain` for short names. The crate above uses that `audit_text` tells, over
//! any keeper, the text of the Office (`IsAuditText`), resources in byte order of their whole paths; and that `push_entry`
//! writes the line of an entry (`entry_line`).
//!
//! Read `contents` first, which is what is read; then `entry_lines` and `blocks`, which put texts in byte order of their
//! keys; then `reading` and `audits`, and `laws`.
#![tactic(auto)]

mod audits;
mod blocks;
mod contents;
mod entry_lines;
mod laws;
mod reading;

pub use audits::audit_text;
pub use entry_lines::{owner_text, push_entry};
pub use laws::audits_tell_every_resource;
