//! What the program serves and performs, over any keeper and any streams: `import`, `audit` and `pipe` over a store or over
//! memory, and what `serve` does before it listens and then, one connection after the other or many at once.
//!
//! It stands on `book_desk_app`, which reads policies, opens stores and tells failures, on `book_wire` and `book_desk_loop`,
//! which serve streams, and on `book_office_cache`, whose keeper stands in front of the tables while `pipe` serves. The
//! program uses that `task_of` reads the policy before any store is touched (`SpellsTask`); that `run`, which does all work
//! but `serve`, ends as the work does over the store's Office (`Runs`, `Performs`); that `prepare` does what `serve` does
//! before it listens (`Prepares`); and that `serve_connections` does to the Office what a run of requests does.
//!
//! Read `works` first, which makes a task, then `tasks`, which joins imports, audits and `piping`, `memory` and `running`;
//! `preparing`, `connections`, `listening`, and `looping`, which serves many connections at once.
#![tactic(auto)]

mod connections;
mod listening;
mod looping;
mod memory;
mod piping;
mod preparing;
mod running;
mod tasks;
mod works;

pub use connections::serve_connections;
pub use listening::serve;
pub use looping::serve_many;
pub use memory::perform_in_memory;
pub use piping::pipe;
pub use preparing::{Prepared, prepare};
pub use running::run;
pub use tasks::{Task, perform};
pub use works::{Work, given_policy, task_of};
