//! Worked examples of keepers, policies, requests, members of group cards and audits, and nothing else: a crate with
//! tests is proved twice, so they stand here, and the crates below have none.
//!
//! An example is a table of lines, as `scripts` reads them, with the wanted answers: those of the rules (RFC 3744,
//! RFC 4918, RFC 6350 and own profile), worked out by hand. `offices` has the Office on which most of them stand, and
//! `policies` the policies; `members` and `audits` stand on that of `edited_offices`.
#![tactic(auto)]

#[cfg(test)]
mod adoptions;
#[cfg(test)]
mod asking;
#[cfg(test)]
mod audits;
#[cfg(test)]
mod bodies;
#[cfg(test)]
mod checks;
#[cfg(test)]
mod denials;
#[cfg(test)]
mod edited_offices;
#[cfg(test)]
mod edits;
#[cfg(test)]
mod failing;
#[cfg(test)]
mod keepers;
#[cfg(test)]
mod limits;
#[cfg(test)]
mod listings;
#[cfg(test)]
mod members;
#[cfg(test)]
mod moves;
#[cfg(test)]
mod names;
#[cfg(test)]
mod offices;
#[cfg(test)]
mod own_reports;
#[cfg(test)]
mod policies;
#[cfg(test)]
mod reports;
#[cfg(test)]
mod requests;
#[cfg(test)]
mod responses;
#[cfg(test)]
mod rounds;
#[cfg(test)]
mod scripts;
#[cfg(test)]
mod serving;
#[cfg(test)]
mod settings;
#[cfg(test)]
mod stopping;
#[cfg(test)]
mod stored_settings;
#[cfg(test)]
mod words;
