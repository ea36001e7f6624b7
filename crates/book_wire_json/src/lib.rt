//! JSON bodies (own profile: JSON in the place of the XML of RFC 4918, 3744 and 6578): from the bytes of a request's
//! body to what the machine is asked, and the bytes of refusals, listings and reports, compact and with keys in byte
//! order.
//!
//! It stands on `book_machine`, which says what is asked and answered, and on `serde_json`, whose `read` says which
//! value a text is, and whose `compact_text` says which text a value has. The crate above uses that `body_of` gives the
//! body that the bytes are, by the method of the request, and that `push_piece` gives the pieces of a body that is
//! answered, of which `piece_count` says how many there are: one after the other they are the one text of what is
//! answered. No long body is made whole: a piece is what stands before the items, one item, or what stands behind them.
//!
//! For requests read `bodies` first; then `forms`, `principals` and `privileges`, which have what the forms share; then
//! `properties`, `patches`, `entries` and `reports`. For replies read `pieces` first; then `writing`, which writes a
//! text as it goes, `spelling` and `denials`; then `property_values`, `listings` and `rulings`, which stand on it; then
//! `sync_reports`, `members`, `names` and `refusals`.
#![tactic(auto)]

mod bodies;
mod denials;
mod entries;
mod forms;
mod listings;
mod members;
mod names;
mod patches;
mod pieces;
mod principals;
mod privileges;
mod properties;
mod property_values;
mod refusals;
mod reports;
mod rulings;
mod spelling;
mod sync_reports;
mod writing;

pub use bodies::body_of;
pub use pieces::{PieceMemory, piece_count, push_piece};
