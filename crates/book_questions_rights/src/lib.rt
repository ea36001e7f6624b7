//! Who holds which leaves where, told of a whole Office or of a part of it (own profile; the decisions are those of RFC
//! 3744, section 6).
//!
//! It stands on `book_questions`, which tells who there is to ask about, and on `book_machine`, which tells where
//! nothing is mapped and who is no person. The program above uses that `rights` tells, over any keeper, the lines of
//! each resource at a path or below it (`TellsRights`); that a line stands exactly where the decision grants
//! (`rights_are_the_grants`); and that two cards of a book share their lines exactly where their owners and their own
//! lists are equal (`classes_are_of_equal_cards`). The crates that audit a part and that answer in objects use what is
//! read and `Blocks`.
//!
//! Read `askers` and `places` first, which is what is read; then `equal_cards`, `lines` and `blocks`; then `telling`
//! and `answers`, and `laws`.
#![tactic(auto)]

mod answers;
mod askers;
mod blocks;
mod equal_cards;
mod laws;
mod lines;
mod places;
mod telling;

pub use answers::{Asked, asked_at, rights};
pub use askers::{Asker, askers_of};
pub use blocks::Blocks;
pub use equal_cards::{count_alike, is_told};
pub use laws::{classes_are_of_equal_cards, each_resource_is_told, rights_are_the_grants};
pub use lines::granted_by;
pub use places::{Place, is_itself, place_path, read_below, read_cards, read_places};
pub use telling::{are_told, card_here, card_key, entries_with};
