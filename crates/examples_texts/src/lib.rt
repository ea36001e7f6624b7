//! Worked examples of what is kept as text, and nothing else: a crate with tests is proved twice, so they stand here, and
//! the crates below have none. The wanted texts are own profile, worked out by hand.
//!
//! The modules are named by what they are of: Offices as text (`dumps`, with the Office in `dumps_offices`); a log, and
//! the denials in it (`log`).
#![tactic(auto)]

#[cfg(test)]
mod checks;
#[cfg(test)]
mod dumps_changes;
#[cfg(test)]
mod dumps_cuts;
#[cfg(test)]
mod dumps_lines;
#[cfg(test)]
mod dumps_offices;
#[cfg(test)]
mod dumps_reads;
#[cfg(test)]
mod dumps_restores;
#[cfg(test)]
mod dumps_texts;
#[cfg(test)]
mod log_denials;
#[cfg(test)]
mod log_edits;
#[cfg(test)]
mod log_instants;
#[cfg(test)]
mod log_rounds;
#[cfg(test)]
mod log_serving;
