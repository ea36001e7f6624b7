//! A dump becomes a store, and a store is copied.
//!
//! It stands on `book_dumps_reading`, which says what a dump tells and reads it, on `book_tables_rows`, which writes rows,
//! on `book_tables_opening`, which opens a store and tests every row, and on `book_dumps`, which writes an Office as text.
//! The rows of a new store are written freely, and what they stand for is read back: the store is opened, and its dump is
//! compared with the text that is wanted. So nothing is proved of the statements that write the rows, and the crate above
//! uses one promise, that of `load`: where it answers `Ok`, the connection stands for a sound Office whose text is that of
//! the dump, which no other sound Office has, and a stop leaves that Office alone (`StandsForText`). `dumped_of` reads an
//! Office as a dump tells it, and `copy` joins the two: the copy stands for the same Office. `office_text` and
//! `is_dump` give the dump of any keeper's Office, and compare it with a text.
//!
//! Read `specs/Loading` first; then `comparing` and `reading_back`; then `loading` and `copying`. `places`, `cards` and
//! `writing` have the rows.
#![tactic(auto)]

mod cards;
mod comparing;
mod copying;
mod faults;
mod loading;
mod places;
mod reading_back;
mod writing;

pub use copying::{copy, dumped_of};
pub use faults::LoadFault;
pub use loading::load;
pub use reading_back::{is_dump, office_text};
