//! What is told of a request.

use book_lists::Here;
use book_office::EffectiveEntry;
use book_office_listings::Ruling;
use book_office_values::{Items, Path};
use book_questions_chains::Chain;
use book_rights::LeafSet;

/// The entries in force at a resource, and what they ask of it.
#[derive(Debug, Drop)]
pub struct InForce {
    /// The list in force.
    pub list: Items<EffectiveEntry>,
    /// The owner of the resource, and the resource where it is a principal.
    pub here: Here,
}

/// A need, with what decides it.
#[derive(Debug, Drop)]
pub struct WhyNeed {
    /// The resource at which the leaves are needed.
    pub resource: Path,
    /// The leaves.
    pub set: LeafSet,
    /// The entries in force at the resource.
    pub force: InForce,
    /// One ruling for each leaf that there is, in order.
    pub rulings: Items<Ruling>,
}

/// The needs of a request, and by which chains of groups the caller belongs to principals.
#[derive(Debug, Drop)]
pub struct Why {
    /// The needs, in the order in which they are checked.
    pub needs: Items<WhyNeed>,
    /// A shortest chain to each principal to which the caller belongs.
    pub chains: Items<Chain>,
}
