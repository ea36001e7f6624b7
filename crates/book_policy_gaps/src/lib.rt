//! Plain facts that a sound policy leaves open: groups of nobody, persons without a right, lists that nobody may change,
//! owners who may not read what they own, books that are read by an entry above them or through a listing of the books, and
//! books in which owners keep what they made (own profile; the decisions are those of RFC 3744, section 6).
//!
//! It stands on `book_office`, on `book_office_listings` and on `book_lists`. The program above uses that `gaps_of` tells,
//! over any keeper, exactly the facts that hold of its Office, in one order (`AreGaps`), and that `gap_line` is the sentence
//! of each; and that `held_at` tells what a circle holds at a resource (`AreHeld`).
//!
//! Read `askers` and `places` first, which are what is looked at; then `gaps` and `far`, which have each fact; then
//! `finding`, which reads a keeper, and `lines`.
#![tactic(auto)]

mod askers;
mod far;
mod finding;
mod gaps;
mod lines;
mod places;

pub use finding::gaps_of;
pub use gaps::Gap;
pub use lines::{gap_line, push_gap_line};
pub use places::held_at;
