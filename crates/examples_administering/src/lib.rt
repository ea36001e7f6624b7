//! Worked examples of what whoever keeps a server asks of the Office that it serves, and nothing else: a crate with tests is
//! proved twice, so they stand here.
//!
//! The wanted texts are those of the commands (own profile), worked out by hand. `machines` asks a machine without a log and
//! one that keeps one, `logs` tells what a log has of policies that are put in force, `backups` copies what is served, and
//! `answers` tells what comes over a control.
#![tactic(auto)]

#[cfg(test)]
mod answers;
#[cfg(test)]
mod backups;
#[cfg(test)]
mod checks;
#[cfg(test)]
mod logs;
#[cfg(test)]
mod machines;
