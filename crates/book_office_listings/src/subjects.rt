//! A resource of a listing, as it was read.

use crate::memberships::OrderedPairs;
use book_lists::Here;
use book_office_values::{Kind, Text};

/// A resource of a listing: what its entries and its properties ask of it.
#[derive(Debug, Drop)]
pub struct Subject {
    /// Its owner, and the resource itself where it is a principal.
    pub here: Here,
    /// Its kind.
    pub kind: Kind,
    /// Its label.
    pub label: Text,
    /// The number of a book's last change.
    pub number: u64,
}

/// What properties ask of the whole Office.
#[derive(Debug, Drop)]
pub struct Whole {
    /// The direct memberships, ordered by the group and then by the member.
    pub memberships: OrderedPairs,
    /// The access epoch.
    pub epoch: u64,
}
