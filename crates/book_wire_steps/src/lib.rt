//! What a server does beside its requests: whoever keeps it may read its Office and adopt policies between two of them.
//!
//! It stands on `book_wire_serving`, whose `Service` answers the requests, and on `book_machine`, which says what it is to
//! adopt a policy. The crates above use that what a server does is steps in one order (`TakesSteps`): requests that were
//! answered, rounds that were not kept, and adoptions.
//!
//! Read `specs/Steps.antt` first, then `control`, and `laws`.
#![tactic(auto)]

mod control;
mod laws;

pub use control::{Control, Traffic, Wish};
pub use laws::{
    adoptions_part_runs, logs_tell_steps, steps_fall_back, steps_lead_offices, steps_leave,
};
