//! The audit of a part of an Office, in the words of the whole audit (own profile; RFC 3744, sections 2 and 5).
//!
//! It stands on `book_office_audit`, which writes entries, on `book_questions_rights`, which reads what stands at a path or
//! below it and puts texts in byte order of their keys, and on `book_machine`, which tells where nothing is mapped. The
//! program above uses that `audit_part` tells, over any keeper, each resource at a path or below it with its owner and its
//! two lists, as the whole audit has them (`TellsPart`), with labels where they are asked for, and without the cards that have
//! no list of their own where these are not; that each resource is told, and nothing else (`parts_tell_every_resource`); and
//! that without labels these are lines of the whole audit (`parts_are_of_the_audit`).
//!
//! Read `parts` first, which is what is read; then `lines`, `telling` and `answers`, and `laws`.
#![tactic(auto)]

mod answers;
mod laws;
mod lines;
mod parts;
mod telling;

pub use answers::audit_part;
pub use laws::{parts_are_of_the_audit, parts_tell_every_resource};
pub use parts::{Part, Standing, Wanted};
