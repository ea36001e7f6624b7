//! What is answered to the demands of whoever keeps a server.
//!
//! It stands on `book_desk_control`, which reads demands, and on `book_desk_administering`, which answers commands over a
//! service. The program above uses that a reply is what the command of its name writes over the Office in force, and then what
//! it tells, with its status (`AnswersDemand`), and that the service is read, or adopts a policy, and nothing else happens
//! (`OnlyAdopts`). Copies are made by what the program gives for it (`Copying`), since the files are its own.
//!
//! Read `replies` and `copying` first, then `answers`.
#![tactic(auto)]

mod answers;
mod copying;
mod replies;

pub use answers::answer;
pub use copying::Copying;
pub use replies::{Reply, not_done};
