//! Worked examples of the tables of a store, over a store in memory. As rows: founding a store, finding one that is
//! there, each edit, and each read, once on its happy path. As an Office: each edit through `Tables`, and what is found
//! after it; stores that are there, opened as they were left and with rows that are changed by hand, and stores of
//! version 1, migrated. They stand in a crate of their own, since a crate with tests is proved twice.
//!
//! The wanted rows and answers are those of the rules (RFC 3744, RFC 4918 and own profile), worked out by hand.
//! `row_texts` tells rows as texts, and `new_tables` what tables have at a path.
#![tactic(auto)]

#[cfg(test)]
mod acts;
#[cfg(test)]
mod cards;
#[cfg(test)]
mod checks;
#[cfg(test)]
mod closures;
#[cfg(test)]
mod columns;
#[cfg(test)]
mod committed;
#[cfg(test)]
mod edits;
#[cfg(test)]
mod findings;
#[cfg(test)]
mod found;
#[cfg(test)]
mod found_files;
#[cfg(test)]
mod founded;
#[cfg(test)]
mod kept;
#[cfg(test)]
mod lists;
#[cfg(test)]
mod loads;
#[cfg(test)]
mod looked;
#[cfg(test)]
mod migrated;
#[cfg(test)]
mod new_tables;
#[cfg(test)]
mod numbers;
#[cfg(test)]
mod opened;
#[cfg(test)]
mod openings;
#[cfg(test)]
mod policies;
#[cfg(test)]
mod reaching;
#[cfg(test)]
mod reads;
#[cfg(test)]
mod rounds;
#[cfg(test)]
mod row_texts;
#[cfg(test)]
mod within;
