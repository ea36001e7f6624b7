//! Needs: leaves, and the resources of a request at which they are needed.

use crate::leaf_sets::LeafSet;

/// A resource of a request at which a need is decided.
#[derive(Clone, Copy, Debug, PartialEq, Eq)]
pub enum Place {
    /// The resource that the request names.
    Target,
    /// The collection that holds the target.
    Parent,
    /// The resource that the Destination field names.
    Destination,
    /// The collection that holds the destination.
    DestinationParent,
}

/// Leaves that are needed at a place, each of them.
#[derive(Clone, Copy, Debug, PartialEq, Eq)]
pub struct Need {
    /// Where they are needed.
    pub place: Place,
    /// The leaves.
    pub set: LeafSet,
}

/// One to three needs, in the order in which they are checked.
#[derive(Clone, Copy, Debug, PartialEq, Eq)]
pub struct Needs {
    /// The first need.
    pub first: Need,
    /// The second, if there is one, and with it the third, if there is one.
    pub others: Option<(Need, Option<Need>)>,
}
