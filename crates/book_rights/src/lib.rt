//! The privileges of WebDAV access control lists (RFC 3744, section 3): nine leaves, the aggregates `read`, `write` and
//! `all`,
//! sets of leaves, and which of them each method needs.
//!
//! It stands on nothing, and no call of it takes memory. The crate above reads a set by `LeafSet::has` and its laws: a
//! contract sees a `LeafSet` as a function from leaves to truth values, so none names its representation, which is a
//! mask: what is stored takes it by `mask` and gives it back by `from_mask`. `needs` is the table of `needs_of`.
//!
//! Read `privileges` and `leaf_sets` first, then `places` and `methods`.
#![tactic(auto)]

mod leaf_sets;
mod methods;
mod places;
mod privileges;

pub use leaf_sets::LeafSet;
pub use methods::{Method, Shape, needs};
pub use places::{Need, Needs, Place};
pub use privileges::{Leaf, Privilege, denied_name};
