//! Worked examples of what an auditor asks, and nothing else: a crate with tests is proved twice, so they stand here, and
//! the crates below have none. The wanted texts are those of the rules (RFC 3744, section 6; the texts are own profile),
//! worked out by hand.
//!
//! The modules are named by what they are of: `questions` of an auditor; how two Offices differ (`differs`). Those that
//! end in `offices` have the Offices of which they are.
#![tactic(auto)]

#[cfg(test)]
mod checks;
#[cfg(test)]
mod differs_facts;
#[cfg(test)]
mod differs_offices;
#[cfg(test)]
mod differs_staying;
#[cfg(test)]
mod differs_texts;
#[cfg(test)]
mod making;
#[cfg(test)]
mod questions_chains;
#[cfg(test)]
mod questions_departments;
#[cfg(test)]
mod questions_everybody;
#[cfg(test)]
mod questions_objects;
#[cfg(test)]
mod questions_offices;
#[cfg(test)]
mod questions_parts;
#[cfg(test)]
mod questions_plans;
#[cfg(test)]
mod questions_restated;
#[cfg(test)]
mod questions_whys;
