//! Reading a policy from a text in TOML (own profile): `version`, and tables `person`, `group`, `book` and `entry`.
//!
//! It stands on `book_policy_values`, whose `Policy` keeps the rules, on the crate `toml`, which reads the text as a
//! table, and on `book_policy_faults`, which tells the faults of a table. The program above uses that `read_policy`
//! answers the policy that the text spells exactly where no rule is broken, and else the least fault of the whole text.
//!
//! Read `faults` and `parts` first, then `shapes`, which reads tables as parts, `entries`, `policies`, `laws`, and
//! `agreement`: the faults of a table are those of the rules.
#![tactic(auto)]

mod agreement;
mod entries;
mod faults;
mod laws;
mod parts;
mod policies;
mod shapes;

pub use agreement::checks_agree;
pub use faults::PolicyFault;
pub use laws::{
    policies_are_one, policies_exclude_faults, policy_faults_are_one, texts_have_policy_or_fault,
};
pub use policies::read_policy;
