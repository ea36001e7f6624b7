//! A caller who may get leaves at a resource.

use crate::steps::Step;
use book_lists::Name;
use book_office_values::Path;
use book_rights::LeafSet;

/// A caller may get leaves at a resource that is no card: by one request, or by two, in this order.
#[derive(Debug, Drop)]
pub struct Gain {
    /// The bare name of the person; none of a caller who is not known.
    pub caller: Option<Name>,
    /// The request, or the first of two.
    pub first: Step,
    /// The second, if there are two.
    pub second: Option<Step>,
    /// The path of the resource.
    pub at: Path,
    /// The leaves that the caller holds there then, and did not before.
    pub leaves: LeafSet,
}
