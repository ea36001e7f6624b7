//! The report on the members of a group card: which cards of a book its MEMBER lines lead to, and which they reach by any
//! number of steps (RFC 6350, sections 6.6.5 and 6.7.6; the report is own profile).
//!
//! It stands on `book_cards`, which reads texts, and on `book_office_sync`, which reads a caller's view of a book. The
//! crate above uses that `group_members` tells, over any keeper, the members in the caller's view (`AreMembersIn`), and
//! that equal views have equal members.
//!
//! Read `reporting` first, then `told_cards`, which makes of a report's items the cards that it tells; then `card_refs`
//! and `members`, which know of a card no more than its name, its UID and its members; then `links`, the search along
//! links from UID to UID, over `text_sets`; and `laws`.
#![tactic(auto)]

mod card_refs;
mod laws;
mod links;
mod members;
mod names;
mod reporting;
mod text_sets;
mod told_cards;

pub use card_refs::CardRef;
pub use laws::{equal_views_have_equal_members, members_are_determined, members_exist};
pub use members::{MemberLine, Members, members_among};
pub use names::{NamedCard, names_told};
pub use reporting::group_members;
