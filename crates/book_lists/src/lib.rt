//! Names, principals, their membership of groups, access entries, and the decision over one list of entries (RFC 3744).
//!
//! It stands on `book_limits` and `book_rights`. The crate above uses that `expand` gives exactly the principals to
//! which a caller belongs, and `closure` exactly the pairs of a group and whoever a chain leads to from it, that
//! `decide` answers by the first applicable entry for each needed leaf and names it in a denial, and that `granted`
//! gives exactly the leaves that a grant decides; that `Deciders` tells the same of several lists, each gone over by its
//! own call, without joining them, and which entry decides each leaf; and that `check_edit` accepts exactly the lists
//! without a fault.
//!
//! Read `names`, `principals`, `memberships` and `circles` first, then `entries`, `decisions` and `deciders`, then
//! `submitted`, the entries of an edit, and `list_edits`; `principal_sets` has the sets of which memberships and
//! circles are made.
#![tactic(auto)]

mod circles;
mod deciders;
mod decisions;
mod entries;
mod laws;
mod list_edits;
mod memberships;
mod names;
mod principal_sets;
mod principals;
mod submitted;

pub use circles::{Caller, Circle, closures_make_circles, expand, reached_in};
pub use deciders::{Decider, Deciders};
pub use decisions::{Outcome, decide, granted};
pub use entries::{Entry, Here, Who, applies};
pub use laws::{deciders_decide, widened_lists_decide_alike};
pub use list_edits::{EditFault, check_edit};
pub use memberships::{Membership, Pairs, closure};
pub use names::Name;
pub use principals::Principal;
pub use submitted::Submitted;
