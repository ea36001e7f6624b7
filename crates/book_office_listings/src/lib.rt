//! Listings and rulings: what PROPFIND tells of a resource and of its children, each decided by itself, and which entry
//! decides each leaf for a principal at a resource (RFC 4918, section 9.1; RFC 3744, sections 5 and 6; the report that
//! tells rulings is own profile).
//!
//! It stands on `book_office`, on `book_office_sync` for tokens and on `book_lists_explain` for short names. The crate
//! above uses that `listing` tells, over any keeper, what the Office has (`AreResponses`), that there is one such answer,
//! and that of a child nothing is told before its verdict; that `verdict` is the decision on a set at a resource, by its
//! levels (`IsVerdict`); and that `effective_rulings` tells over any keeper, and `rulings` over levels that were read,
//! one ruling for each leaf, in order (`AreRulings`).
//!
//! Read `messages` first; then `denials` and `granting`, one scan each over lists in turn, and `sifting`, for many
//! resources below the same lists; then `effective_lists` and `property_values`, which have the properties; then
//! `memberships`, `subjects` and `listings`; then `ruling`, which looks over lists in turn for one leaf, `reporting`, and `laws`; and
//! `asked_properties` by itself.
#![tactic(auto)]

mod asked_properties;
mod denials;
mod effective_lists;
mod granting;
mod laws;
mod listings;
mod memberships;
mod messages;
mod property_values;
mod reporting;
mod ruling;
mod sifting;
mod subjects;

pub use asked_properties::is_asked;
pub use denials::verdict;
pub use laws::{
    granted_resources_are_told, listings_exist, listings_have_one_answer, rulings_are_the_grants,
    unread_resources_stay_unseen, values_tell_grants_and_members, views_have_what_may_be_read,
};
pub use listings::listing;
pub use messages::{
    AclEntry, DecidingEntry, Denial, Extent, Find, Property, PropertyValue, Response, Ruling,
};
pub use reporting::{effective_rulings, rulings};
