//! Worked examples of targets, phrases, JSON bodies, streams and connections, and nothing else: a crate with tests is
//! proved twice, so they stand here, and the crates below have none.
//!
//! The wanted answers are those of the rules (RFC 9110, RFC 4918, RFC 3744, RFC 6578, RFC 8259 and own profile), worked
//! out by hand. They are tables of texts: `offices` has the machines, `conversations` the bodies of replies, and
//! `replies` those that no request of the examples has.
#![tactic(auto)]

#[cfg(test)]
mod asking;
#[cfg(test)]
mod beginnings;
#[cfg(test)]
mod bodies;
#[cfg(test)]
mod checks;
#[cfg(test)]
mod connections;
#[cfg(test)]
mod controls;
#[cfg(test)]
mod conversations;
#[cfg(test)]
mod fields;
#[cfg(test)]
mod hostile;
#[cfg(test)]
mod json_texts;
#[cfg(test)]
mod kept_together;
#[cfg(test)]
mod logs;
#[cfg(test)]
mod long;
#[cfg(test)]
mod metrics;
#[cfg(test)]
mod offices;
#[cfg(test)]
mod refusals;
#[cfg(test)]
mod replies;
#[cfg(test)]
mod rounds;
#[cfg(test)]
mod sockets;
#[cfg(test)]
mod streams;
#[cfg(test)]
mod targets;
#[cfg(test)]
mod telling;
#[cfg(test)]
mod texts;
#[cfg(test)]
mod together;
