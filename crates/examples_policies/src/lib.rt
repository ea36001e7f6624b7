//! Worked examples of what a policy leaves open, and nothing else: a crate with tests is proved twice, so they stand
//! here, and the crates below have none. The wanted texts are those of the rules (RFC 3744, section 6; the texts are own
//! profile), worked out by hand.
//!
//! The modules are named by what they are of: the plain facts that a policy leaves open (`gaps`), and what else it leaves
//! open, with copies of an Office (`warnings`).
#![tactic(auto)]

#[cfg(test)]
mod checks;
#[cfg(test)]
mod gaps_books;
#[cfg(test)]
mod gaps_facts;
#[cfg(test)]
mod gaps_held;
#[cfg(test)]
mod gaps_telling;
#[cfg(test)]
mod making;
#[cfg(test)]
mod warnings_comparing;
#[cfg(test)]
mod warnings_copies;
#[cfg(test)]
mod warnings_gains;
#[cfg(test)]
mod warnings_idle_entries;
#[cfg(test)]
mod warnings_openings;
#[cfg(test)]
mod warnings_over_stores;
