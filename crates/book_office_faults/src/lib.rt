//! A keeper that begins to fail: what stands above any keeper can be shown beside a store that gives up.
//!
//! It stands on `book_office`, whose trait `Keeper` it has. The crate above uses that `Fused` stands for what its keeper stands
//! for, whatever call is the first that fails, and that its failures are counted.
#![tactic(auto)]

mod fused;
mod rounds;

pub use fused::Fused;
