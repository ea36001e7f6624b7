//! The machine: from a request to its reply (RFC 3744, section 6; RFC 4918).
//!
//! It stands on `book_office` and the crates below, on `book_office_listings` for what PROPFIND tells, and for reports
//! on `book_office_sync`, `book_office_members` and `book_office_listings`. What a request asks for is found without
//! its number, which PROPFIND alone tells: it finds the resource once more, with it. The crate above uses that
//! `Machine::serve` answers as the machine's step says, or that the store is unavailable with the Office as it was;
//! that `serve_all` is a run of such steps; and that `Machine::adopt` leaves the Office that adopts the policy, or
//! tells why it does not.
//!
//! Read `messages`, `refusals`, `allowed_methods`, `finding` and `asked` first; then `plans`, `stages`,
//! `entries_in_force`, `destinations`, `syncing`, `reporting` and `machine`; and `adoptions` and `needing` by themselves.
#![tactic(auto)]

mod adoptions;
mod allowed_methods;
mod asked;
mod destinations;
mod entries_in_force;
mod finding;
mod laws;
mod leading;
mod machine;
mod messages;
mod needing;
mod plans;
mod refusals;
mod reporting;
mod stages;
mod syncing;

pub use adoptions::{AdoptFault, Adopted};
pub use allowed_methods::AllowedMethods;
pub use asked::{Asked, Destination};
pub use book_office_listings::{
    AclEntry, DecidingEntry, Denial, Extent, Find, Property, PropertyValue, Response, Ruling,
};
pub use book_office_members::{MemberLine, Members, NamedCard};
pub use book_office_sync::{Found, Item, Limit, Report, Token};
pub use laws::{
    granted_reports_are_told, listings_tell_the_resource, refusals_change_nothing,
    requests_act_where_granted, requests_are_full_at_limits, requests_have_one_step,
    runs_are_synced, steps_exist, unread_contents_stay_unseen,
};
pub use leading::runs_lead_on;
pub use machine::Machine;
pub use messages::{
    Body, Content, Depth, Flag, Patch, Reply, ReportKind, Request, SyncFrom, SyncRequest,
};
pub use needing::{Needed, PlacedNeed};
pub use plans::{Plan, Ready, Target};
pub use refusals::{BoxedDenial, Refusal};
pub use stages::principal_of;
