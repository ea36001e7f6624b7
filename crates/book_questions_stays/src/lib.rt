//! What an adoption leaves because the policy does not name it, told through a keeper (own profile).
//!
//! It stands on `book_policy_values`, which says what a policy names, and on `book_office_audit`, in the words of which
//! resources are told. The program above uses that `stays` tells, over any keeper, the direct memberships, the resources
//! and the own lists that the policy does not name (`IsStays`), and that an adoption leaves each of them as it is
//! (`what_stays_is_left`).
//!
//! Read `naming` first, which is what a policy names; then `lines`, `telling` and `answers`, and `laws`.
#![tactic(auto)]

mod answers;
mod laws;
mod lines;
mod naming;
mod telling;

pub use answers::stays;
pub use laws::what_stays_is_left;
