//! Worked examples of leaves, masks, needs, lists of entries, scans, edits of lists, `explain`, cards, collections, paths,
//! policies in TOML and their faults, sync tokens and reports, command lines, and nothing else: a crate with tests is proved twice, so they
//! stand here, and the crates below have none.
//!
//! The wanted answers are those of the rules (RFC 3744, RFC 6350, RFC 6578 and own profile), worked out by hand.
#![tactic(auto)]

#[cfg(test)]
mod cards;
#[cfg(test)]
mod checks;
#[cfg(test)]
mod collections;
#[cfg(test)]
mod command_lines;
#[cfg(test)]
mod deciders;
#[cfg(test)]
mod entry_lines;
#[cfg(test)]
mod explanations;
#[cfg(test)]
mod leaves;
#[cfg(test)]
mod list_edits;
#[cfg(test)]
mod lists;
#[cfg(test)]
mod masks;
#[cfg(test)]
mod names;
#[cfg(test)]
mod paths;
#[cfg(test)]
mod policies_in_toml;
#[cfg(test)]
mod policy_faults;
#[cfg(test)]
mod syncs;
#[cfg(test)]
mod tokens;
