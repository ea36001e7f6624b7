//! How two Offices differ, told through a keeper of each (own profile).
//!
//! It stands on `book_questions_differs`, which tells the rights that are lost and gained, and on `book_office_audit`, in
//! the words of which resources are told. The program above uses that `differences` tells, over any two keepers, the
//! direct memberships, the resources that are no cards and the rights in which the Offices differ (`IsChanges`), and
//! leaves both Offices as they were (`Compares`).
//!
//! Read `facts` and `members` first, which are the lines; then `changes`, and `laws`.
#![tactic(auto)]

mod changes;
mod facts;
mod laws;
mod members;

pub use changes::differences;
pub use laws::{unchanged_is_equal, unchanged_is_no_adoption, unchanged_is_told};
