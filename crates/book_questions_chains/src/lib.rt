//! By which chain of groups an entry applies to a caller (RFC 3744, section 2; that it is told is own profile).
//!
//! It stands on `book_lists` for memberships and entries. The crate above uses that `chains_of` gives a shortest chain to
//! each principal to which a caller belongs (`AreChainsOf`), that an entry which applies so has its chain among them
//! (`ChainsAreTold`), and how it is written (`by_line`).
//!
//! Read `chains` first, then `climbing`, the search, and `applying` and `lines`.
#![tactic(auto)]

mod applying;
mod chains;
mod climbing;
mod laws;
mod lines;

pub use applying::chain_by;
pub use chains::Chain;
pub use climbing::chains_of;
pub use laws::chains_are_told;
pub use lines::push_chain_by;
